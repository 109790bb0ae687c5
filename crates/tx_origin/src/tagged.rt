// Trees with origins.
ghost use Rattle.std.specs.Prelude.{◌≡◌, IfOk, MatchOption, slice_get, Some, None, length};
ghost use Rattle.tx_tree.specs.WideTree.{children_of};
ghost use Rattle.tx_origin.specs.TaggedTrees.{tagged_of, kids_of};
ghost use Rattle.tx_origin.specs.Under.{origin_under};
ghost use Rattle.tx_origin.specs.Values.{child_at};

use crate::paths::Ip;
use std::alloc::Global;
use tx_base::Memory;
use tx_tree::Tree;

/// A tree, and its origin.
#[derive(Drop)]
pub struct Tagged {
    pub tree: Tree,
    pub at: Option<Ip>,
}

// The origin of a child.
pub(crate) fn child_at(alloc: Global, at: &Option<Ip>, i: u32) -> Result<Option<Ip>, Memory>
    ensures { IfOk result (λ o. o ≡ child_at at.now i) }
{
    match at {
        None => Ok(None),
        Some(p) => Ok(Some(p.child(alloc, i)?)),
    }
}

/// A share of the origin, or none again.
pub fn share_origin(at: &Option<Ip>) -> Result<Option<Ip>, Memory>
    ensures { IfOk result (λ o. o ≡ at.now) }
{
    match at {
        None => Ok(None),
        Some(p) => Ok(Some(p.share()?)),
    }
}

// The origin with this path before it, or none again.
pub(crate) fn origin_under(alloc: Global, base: &Ip, at: &Option<Ip>) -> Result<Option<Ip>, Memory>
    ensures { IfOk result (λ o. o ≡ origin_under base.now at.now) }
{
    match at {
        None => Ok(None),
        Some(p) => Ok(Some(p.under(alloc, base)?)),
    }
}

impl Tagged {
    /// The child of this number with its origin, or None where there is none.
    #[tactic(auto, using(crate::proofs::Kids::kid_rules, std::proofs::lemmas::Grind::common_steps))]
    pub fn child(&self, alloc: Global, i: u32) -> Result<Option<Tagged>, Memory>
        ensures { let kid = slice_get (kids_of (tagged_of self.now)) i in
            IfOk result (λ r. MatchOption r (kid ≡ None) (λ t. kid ≡ Some (tagged_of t))) }
    {
        let Some(kid) = self.tree.child(i) else {
            return Ok(None);
        };
        let tree = kid.share()?;
        let at = child_at(alloc, &self.at, i)?;
        Ok(Some(Tagged { tree, at }))
    }

    /// How many children the tree has.
    #[tactic(auto, using(crate::proofs::Kids::kid_rules, std::proofs::lemmas::Grind::common_steps))]
    pub fn arity(&self) -> u32
        ensures { result ≡ length (kids_of (tagged_of self.now)) }
    {
        self.tree.arity()
    }
}
