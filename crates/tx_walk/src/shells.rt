// What is known of tags that are macros.
ghost use Rattle.std.specs.Prelude.{◌≡◌, IfOk};
ghost use Rattle.std.specs.Option.{option_map};
ghost use Rattle.tx_parts.proofs.Openers.{nothing_opens};
ghost use Rattle.tx_parts.specs.Shells.{Opener as WideOpener, IsOpener};
ghost use Rattle.tx_parts.specs.Opening.{opens_nothing};
ghost use Rattle.tx_walk.specs.Shells.{IsOtherTag, wide_shell};

use std::alloc::Global;
use tx_base::Memory;
use tx_tree::{Text, Tree};

/// A `with` round a child of a tag: names, and as many trees, to whose values they are set. There are at most 32,767 of
/// each, since a tree has at most 65,535 children.
#[derive(Drop)]
pub struct Layer {
    /// The names, in order.
    pub names: Vec<Text>,
    /// The tree of each name.
    pub values: Vec<Tree>,
}

/// What a tag does: layers of `with` round one of its children.
#[derive(Drop)]
pub struct Shell {
    /// The layers, the outer first.
    pub layers: Vec<Layer>,
    /// The number of the child, below the tag's arity.
    pub inner: u32,
}

/// Gives the shells of tags.
pub trait Opener {
    /// The shell of a tag whose label has this tree, or none.
    ghost opens: { Self → WideOpener };

    /// The shell of the tag, any other one than those of the table of evaluation, whose label has the tree `meaning`.
    /// The one error is `Memory`.
    fn shell(&self, alloc: Global, tag: &Tree, meaning: &Tree) -> Result<Option<Shell>, Memory>
        requires { IsOtherTag tag.now }
        ensures { IfOk result (λ s. option_map wide_shell s ≡ opens self.now tag.now meaning.now) };

    /// The shell that it gives is what the tag does, wherever its label has that tree.
    ghost sound: { (opener : Self) → IsOpener (opens opener) };
}

/// An opener that opens nothing.
#[derive(Clone, Copy, Debug, Drop)]
pub struct Closed;

impl Opener for Closed {
    ghost opens = { λ closed. opens_nothing };

    fn shell(&self, _alloc: Global, _tag: &Tree, _meaning: &Tree) -> Result<Option<Shell>, Memory> {
        Ok(None)
    }

    ghost sound = { λ closed. nothing_opens };
}
