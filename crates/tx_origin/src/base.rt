// A path that is lent in two pieces.
ghost use Rattle.std.specs.Prelude.{◌≡◌, ◌++◌, IfOk};

use std::alloc::Global;
use std::marker::Model;
use tx_base::Memory;
use tx_tree::Path;

/// A path that is lent in one piece or in two, as that of a unit and that of a part below it. Contracts see the whole.
#[derive(Drop)]
pub struct Base<'a> {
    front: &'a Path,
    below: Option<&'a Path>,
}

impl<'a> Model for Base<'a> {
    ghost use Rattle.std.specs.Prelude.{List, ℕ, option_copied};
    ghost use Rattle.tx_origin.specs.RelativePlaces.{path_below};

    ghost Value = { List ℕ };

    ghost view = { λ b. path_below b.front.now (option_copied b.below) };
}

// A path of both in order.
fn joined(alloc: Global, front: &Path, below: &Path) -> Result<Path, Memory>
    ensures { IfOk result (λ p. p ≡ front.now ++ below.now) }
{
    let mut path = front.copy(alloc)?;
    for step in below.steps() {
        path.push(*step)?;
    }
    Ok(path)
}

impl<'a> Base<'a> {
    /// This path.
    pub fn new(path: &'a Path) -> Base<'a>
        ensures { result ≡ path.now }
    {
        Base {
            front: path,
            below: None,
        }
    }

    /// The first path, and then the other one.
    pub fn joined(front: &'a Path, below: &'a Path) -> Base<'a>
        ensures { result ≡ front.now ++ below.now }
    {
        Base {
            front,
            below: Some(below),
        }
    }

    /// Its two pieces, the one that ends the path second. It may be empty.
    pub fn pieces(&self) -> (&[u32], &[u32])
        ensures { self.now ≡ result.0.now ++ result.1.now }
    {
        match self.below {
            None => (self.front.steps(), [].as_slice()),
            Some(below) => (self.front.steps(), below.steps()),
        }
    }

    /// A path of its own.
    pub fn path(&self, alloc: Global) -> Result<Path, Memory>
        ensures { IfOk result (λ p. p ≡ self.now) }
    {
        match self.below {
            None => self.front.copy(alloc),
            Some(below) => joined(alloc, self.front, below),
        }
    }
}
