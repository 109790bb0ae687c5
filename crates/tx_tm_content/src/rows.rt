// Trees side by side.
ghost use Rattle.std.specs.Prelude.{◌≡◌, ◌==◌, ◌++◌, ◌∷◌, [], length, IfOk};
ghost use Rattle.tx_tm_content.specs.Rows.{IsRowed};

use std::alloc::Global;
use std::marker::Model;
use tx_base::Memory;
use tx_tree::{MOST_ARITY, MOST_SIZE, Tree};

/// Trees that may become the children of one node: no more of them, and no bigger, than the limits of a node
/// allow. Contracts see the list.
#[derive(Drop)]
pub struct Siblings {
    trees: Vec<Tree>,
    size: u64,
}

impl Model for Siblings {
    ghost use Rattle.std.specs.Prelude.{List};
    ghost use Rattle.std.specs.Coded.{coded_list};
    ghost use Rattle.tx_tree.specs.WideTree.{WideTree, coded_WideTree};
    ghost use Rattle.tx_tm_content.specs.Rows.{IsRow};

    ghost Value = { List WideTree };

    ghost coded = { coded_list coded_WideTree };

    ghost view = { λ r. r.trees.items };

    ghost invariant = { λ r. IsRow r.trees.items r.size };
}

/// Makes room for a tree more, and for no other one where they are few: most nodes have one child or two.
pub fn make_room(trees: &mut Vec<Tree>) -> Result<(), Memory>
    ensures { trees.new.items ≡ trees.old.items }
{
    if trees.len() < 2 {
        trees.reserve_exact(1)?;
    }
    Ok(())
}

impl Siblings {
    /// No trees.
    #[tactic(auto, using(crate::proofs::Rowing::no_row))]
    pub fn new(alloc: Global) -> Siblings
        ensures { result ≡ [] }
    {
        Siblings {
            trees: Vec::new(alloc),
            size: 0,
        }
    }

    /// Whether there are none.
    pub fn is_empty(&self) -> bool
        ensures { result ≡ (length self.now == 0) }
    {
        self.trees.is_empty()
    }

    /// With a tree more, or None where no node within the limits has them all.
    #[tactic(auto, using(crate::proofs::Rowing::one_more, crate::proofs::Rowing::too_many))]
    #[inline(always)]
    pub fn with(self, tree: Tree) -> Result<Option<Siblings>, Memory>
        ensures { IfOk result (λ next. IsRowed next (self ++ tree ∷ [])) }
    {
        let Siblings { mut trees, size } = self;
        if trees.len() >= MOST_ARITY {
            return Ok(None);
        }
        let whole = size + tree.size();
        if whole > MOST_SIZE {
            return Ok(None);
        }
        make_room(&mut trees)?;
        trees.push(tree)?;
        Ok(Some(Siblings { trees, size: whole }))
    }

    /// The trees.
    pub fn into_trees(self) -> Vec<Tree>
        ensures { result.items ≡ self }
    {
        let Siblings { mut trees, size: _ } = self;
        trees.shrink_to_fit();
        trees
    }
}
