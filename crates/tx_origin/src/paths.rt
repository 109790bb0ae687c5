// Inverse paths.
ghost use Rattle.std.specs.Prelude.{◌≡◌, ◌++◌, ◌∷◌, [], length, IfOk, OnOk, MatchOption, slice_get, Some, None};

use std::alloc::Global;
use std::marker::Model;
use std::rc::Rc;
use tx_base::Memory;
use tx_tree::Path;

/// A path that is stored from its end, so that paths share their beginnings. Contracts see it as the list of its
/// numbers from the root.
#[cycle(ip)]
#[derive(Drop)]
pub struct Ip {
    len: u32,
    link: Link,
}

#[cycle(ip)]
#[derive(Drop)]
enum Link {
    Root,
    Below(Rc<Ip>, u32),
}

impl Model for Ip {
    ghost use Rattle.std.specs.Prelude.{◌≡◌, List, ℕ, length};

    ghost Value = { List ℕ };

    ghost use Rattle.tx_origin.specs.Paths.{numbers_of};

    ghost view = { λ p. numbers_of p.link };

    ghost invariant = { λ p. p.len ≡ length (numbers_of p.link) };

    ghost size = { length };

    ghost use Rattle.std.proofs.Common.{arith, length-append};

    ghost size_decreases = { λ p h. Prim.grind (arith, length-append) };
}

impl Ip {
    /// The path without numbers.
    pub fn root() -> Ip
        ensures { result ≡ [] }
    {
        Ip {
            len: 0,
            link: Link::Root,
        }
    }

    /// A share of the path, which shares all its cells.
    pub fn share(&self) -> Result<Ip, Memory>
        ensures { IfOk result (λ p. p ≡ self.now) }
    {
        match &self.link {
            Link::Root => Ok(Ip::root()),
            Link::Below(above, number) => Ok(Ip {
                len: self.len,
                link: Link::Below(above.clone()?, *number),
            }),
        }
    }

    /// The path with one number more at its end: one cell, whatever the length. There is no memory for the cells of a
    /// path of 2^32 numbers.
    pub fn child(&self, alloc: Global, i: u32) -> Result<Ip, Memory>
        ensures { IfOk result (λ p. p ≡ self.now ++ i ∷ []) }
    {
        if self.len == u32::MAX {
            return Err(Memory);
        }
        let above = Rc::new(alloc, self.share()?)?;
        Ok(Ip {
            len: self.len + 1,
            link: Link::Below(above, i),
        })
    }

    /// The path with these numbers before its own. It shares the cells of `base`, and has its own made anew.
    pub fn under(&self, alloc: Global, base: &Ip) -> Result<Ip, Memory>
        ensures { IfOk result (λ p. p ≡ base.now ++ self.now) }
    {
        match &self.link {
            Link::Root => base.share(),
            Link::Below(above, number) => above.under(alloc, base)?.child(alloc, *number),
        }
    }

    /// How many numbers the path has.
    pub fn len(&self) -> usize
        ensures { result ≡ length self.now }
    {
        self.len as usize
    }

    #[tactic(auto, using(crate::proofs::Numbers::number_rules, std::proofs::lemmas::Grind::common_steps))]
    /// The number at `i`, counted from 0 at the root, or None at or past the length.
    pub fn step(&self, i: usize) -> Option<u32>
        ensures { result ≡ slice_get self.now i }
    {
        let mut path = self;
        while let Link::Below(above, number) = &path.link {
            if above.len() == i {
                return Some(*number);
            }
            path = above;
        }
        None
    }

    /// The path as a `Path` of its own.
    pub fn path(&self, alloc: Global) -> Result<Path, Memory>
        ensures { IfOk result (λ p. p ≡ self.now) }
    {
        let mut path = Path::root(alloc);
        self.add_to(&mut path)?;
        Ok(path)
    }

    // Adds the numbers to the path.
    pub(crate) fn add_to(&self, path: &mut Path) -> Result<(), Memory>
        ensures { OnOk result (path.new ≡ path.old ++ self.now) }
    {
        match &self.link {
            Link::Root => Ok(()),
            Link::Below(above, number) => {
                above.add_to(path)?;
                path.push(*number)
            }
        }
    }
}
