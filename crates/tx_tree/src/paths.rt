// Paths from the root of a tree.
ghost use Rattle.std.specs.Prelude.{◌≡◌, ◌≢◌, ◌++◌, ◌∷◌, [], OnOk, OnErr, IfOk, IfErr, MatchOption, Some, None};
ghost use Rattle.tx_tree.specs.PathSpelling.{SpellsPath, IsPathFault};
ghost use Rattle.tx_tree.specs.PathScan.{path_state, path_step};

use crate::faults::PathFault;
use crate::{MOST_DIGITS, MOST_NUMBER, MOST_STEPS};
use smallvec::SmallVec;
use std::alloc::Global;
use std::fmt;
use std::marker::Model;
use tx_base::Memory;

// How far the reading of a path is: before all bytes, or after a / and so many digits of a number.
#[derive(Clone, Copy, Debug, PartialEq, Eq)]
enum PathPlace {
    Start,
    Number(usize, u32),
}

/// The numbers of the children, from 0, on a way down from the root. Up to six of them are held in place, without an
/// allocation.
///
/// Contracts see a path as the list of its numbers.
#[derive(Drop)]
pub struct Path {
    numbers: SmallVec<u32, 6>,
}

impl Model for Path {
    ghost use Rattle.std.specs.Prelude.{List, ℕ};

    ghost Value = { List ℕ };

    ghost view = { λ p. p.numbers.items };
}

impl Path {
    /// The path without numbers, which leads to the root.
    pub fn root(alloc: Global) -> Path
        ensures { result ≡ [] }
    {
        Path {
            numbers: SmallVec::new(alloc),
        }
    }

    /// Adds a number at the end. When out of memory the path is unchanged.
    pub fn push(&mut self, i: u32) -> Result<(), Memory>
        ensures ok { OnOk result (self.new ≡ self.old ++ i ∷ []) }
        ensures err { OnErr result (self.new ≡ self.old) }
    {
        self.numbers.push(i)?;
        Ok(())
    }

    /// Takes off the last number, or returns None at the root, which is unchanged.
    pub fn pop(&mut self) -> Option<u32>
        ensures { MatchOption result ((self.old ≡ []) × (self.new ≡ [])) (λ i. self.old ≡ self.new ++ i ∷ []) }
    {
        self.numbers.pop()
    }

    /// The numbers, the one below the root first.
    pub fn steps(&self) -> &[u32]
        ensures { result.now ≡ self.now }
    {
        self.numbers.as_slice()
    }

    /// A copy of the path, with numbers of its own.
    pub fn copy(&self, alloc: Global) -> Result<Path, Memory>
        ensures { IfOk result (λ p. p ≡ self.now) }
    {
        Ok(Path {
            numbers: SmallVec::from_slice(alloc, self.steps())?,
        })
    }

    /// The path to child i of where this path leads.
    pub fn child(&self, alloc: Global, i: u32) -> Result<Path, Memory>
        ensures { IfOk result (λ p. p ≡ self.now ++ i ∷ []) }
    {
        let mut below = self.copy(alloc)?;
        below.push(i)?;
        Ok(below)
    }

    /// The path that the bytes spell: `/` alone for the root, or a `/` before each of 1 to 400 numbers of 1 to 10
    /// digits, which are at most 4,294,967,295.
    pub fn parse(alloc: Global, bytes: &[u8]) -> Result<Path, PathFault>
        ensures ok { IfOk result (λ p. SpellsPath bytes.now p) }
        ensures refused { IfErr result (λ fault. fault ≢ PathFault.Memory → IsPathFault bytes.now fault) }
    {
        let mut path = Path::root(alloc);
        let mut place = PathPlace::Start;
        for (i, byte) in bytes.iter().enumerate() {
            match place.step(&mut path, *byte)? {
                Some(next) => place = next,
                None => return Err(PathFault::BadPath(i)),
            }
        }
        match place {
            PathPlace::Start => Err(PathFault::BadPath(bytes.len())),
            PathPlace::Number(0, _) => {
                if !path.steps().is_empty() {
                    return Err(PathFault::BadPath(bytes.len()));
                }
                Ok(path)
            }
            PathPlace::Number(_, value) => {
                path.push(value)?;
                Ok(path)
            }
        }
    }
}

impl PathPlace {
    // The place after one byte more, or None where no path goes on with it. A number that ends here is pushed.
    #[tactic(auto, unfolding(crate::specs::PathScan::path_step))]
    fn step(self, path: &mut Path, byte: u8) -> Result<Option<PathPlace>, Memory>
        ensures { IfOk result (λ next. MatchOption next (path_step (path_state path.old self) byte ≡ None)
            (λ p. path_step (path_state path.old self) byte ≡ Some (path_state path.new p))) }
    {
        match self {
            PathPlace::Start => {
                if byte == b'/' {
                    Ok(Some(PathPlace::Number(0, 0)))
                } else {
                    Ok(None)
                }
            }
            PathPlace::Number(digits, value) => {
                if byte == b'/' {
                    if digits == 0 || path.steps().len() >= MOST_STEPS - 1 {
                        return Ok(None);
                    }
                    path.push(value)?;
                    return Ok(Some(PathPlace::Number(0, 0)));
                }
                if !byte.is_ascii_digit() || digits >= MOST_DIGITS {
                    return Ok(None);
                }
                let next = u64::from(value) * 10 + u64::from(byte - b'0');
                if next > MOST_NUMBER {
                    return Ok(None);
                }
                Ok(Some(PathPlace::Number(digits + 1, next as u32)))
            }
        }
    }
}

impl fmt::Display for Path {
    ghost use Rattle.tx_tree.specs.PathSpelling.{path_text};

    ghost output = { λ p. Some (path_text p) };

    fn fmt<W: fmt::Write>(&self, f: &mut fmt::Formatter<W>) -> fmt::Result {
        if self.steps().is_empty() {
            return write!(f, "/");
        }
        for number in self.steps() {
            write!(f, "/{number}")?;
        }
        Ok(())
    }
}
