// Paths and places as they are known before they are made.
ghost use Rattle.std.specs.Prelude.{◌≡◌, ◌++◌, [], ◌∷◌, None, Some, MatchOption, OnOk, IfOk};
ghost use Rattle.tx_mod.specs.Moves.{rest_behind};
ghost use Rattle.tx_mod.specs.Ways.{way_numbers};

use std::alloc::Global;
use tx_base::Memory;
use tx_tree::{Path, Place};

/// The numbers of a path: up to two, and a part of another path. Contracts read them by `way_numbers`.
#[derive(Clone, Copy)]
pub enum Way<'a> {
    /// Part of another path.
    Rest(&'a [u32]),
    /// One number before a part of another path.
    Step(u32, &'a [u32]),
    /// Two numbers before a part of another path.
    Steps(u32, u32, &'a [u32]),
}

// A way, and an offset where it leads.
#[derive(Clone, Copy)]
pub(crate) struct Stand<'a> {
    pub way: Way<'a>,
    pub offset: u32,
}

impl<'a> Way<'a> {
    pub(crate) fn at(self, offset: u32) -> Stand<'a>
        ensures way { result.way ≡ self.entry }
        ensures offset { result.offset ≡ offset }
    {
        Stand { way: self, offset }
    }
}

/// The first number, and the others. None is for the path without numbers.
pub fn first_step(path: &[u32]) -> Option<(u32, &[u32])>
    ensures { MatchOption result (path.now ≡ []) (λ p. path.now ≡ p.0 ∷ p.1.now) }
{
    match path {
        [] => None,
        [i, rest @ ..] => Some((*i, rest)),
    }
}

/// What the other path has after this one, where it begins with it. None is for another that begins otherwise.
pub fn rest_behind<'a>(path: &[u32], other: &'a [u32]) -> Option<&'a [u32]>
    ensures { MatchOption result (rest_behind path.now other.now ≡ None)
        (λ r. rest_behind path.now other.now ≡ Some r.now) }
{
    let mut rest = other;
    for step in path {
        match first_step(rest) {
            Some((k, others)) => {
                if *step != k {
                    return None;
                }
                rest = others;
            }
            None => return None,
        }
    }
    Some(rest)
}

// Adds the numbers at the end.
fn push_all(path: &mut Path, numbers: &[u32]) -> Result<(), Memory>
    ensures { OnOk result (path.new ≡ path.old ++ numbers.now) }
{
    for number in numbers {
        path.push(*number)?;
    }
    Ok(())
}

/// The path, with the numbers of the way at its end.
pub fn path_below(alloc: Global, path: &Path, way: Way<'_>) -> Result<Path, Memory>
    ensures { IfOk result (λ q. q ≡ path.now ++ way_numbers way.entry) }
{
    let mut whole = path.copy(alloc)?;
    let rest = match way {
        Way::Rest(rest) => rest,
        Way::Step(k, rest) => {
            whole.push(k)?;
            rest
        }
        Way::Steps(k, l, rest) => {
            whole.push(k)?;
            whole.push(l)?;
            rest
        }
    };
    push_all(&mut whole, rest)?;
    Ok(whole)
}
