// What an evaluation looked up.
ghost use Rattle.std.specs.Prelude.{◌≡◌};

use std::marker::Model;
use tx_tree::{Text, Tree};

/// Names that were looked up, with what they had: a tree, or nothing. Contracts see the list of pairs.
#[derive(Drop)]
pub struct Looks {
    pairs: Vec<(Text, Option<Tree>)>,
}

impl Model for Looks {
    ghost use Rattle.std.specs.Prelude.{List, ℕ, Option};
    ghost use Rattle.tx_tree.specs.WideTree.{WideTree};
    ghost use Rattle.tx_env.specs.Pairs.{coded_Pairs};

    ghost Value = { List (List ℕ × Option WideTree) };

    ghost coded = { coded_Pairs };

    ghost view = { λ l. l.pairs.items };
}

impl Looks {
    /// These pairs.
    pub fn new(pairs: Vec<(Text, Option<Tree>)>) -> Looks
        ensures { result ≡ pairs.items }
    {
        Looks { pairs }
    }

    /// The pairs. Their order is free.
    pub fn pairs(&self) -> &[(Text, Option<Tree>)]
        ensures { result.now ≡ self.now }
    {
        &self.pairs
    }
}
