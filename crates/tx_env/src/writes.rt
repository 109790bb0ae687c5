// Names that are set, with their trees.
ghost use Rattle.std.specs.Prelude.{◌≡◌};

use std::marker::Model;
use tx_tree::{Text, Tree};

/// Names with trees, to be set in order. Contracts see the list of pairs.
#[derive(Drop)]
pub struct Writes {
    pairs: Vec<(Text, Tree)>,
}

impl Model for Writes {
    ghost use Rattle.std.specs.Prelude.{List, ℕ};
    ghost use Rattle.tx_tree.specs.WideTree.{WideTree};
    ghost use Rattle.tx_env.specs.Environments.{coded_Writes};

    ghost Value = { List (List ℕ × WideTree) };

    ghost coded = { coded_Writes };

    ghost view = { λ w. w.pairs.items };
}

impl Writes {
    /// These pairs.
    pub fn new(pairs: Vec<(Text, Tree)>) -> Writes
        ensures { result ≡ pairs.items }
    {
        Writes { pairs }
    }

    /// The pairs, in order.
    pub fn pairs(&self) -> &[(Text, Tree)]
        ensures { result.now ≡ self.now }
    {
        &self.pairs
    }
}
