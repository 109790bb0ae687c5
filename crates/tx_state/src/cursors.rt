// Where the cursor is at first.
ghost use Rattle.std.specs.Prelude.{◌≡◌, ◌++◌, ℕ, List, IfOk, Some, None, Bool, true, false};
ghost use Rattle.tx_state.specs.Cursors.{first_leaf, first_cursor};
ghost use Rattle.tx_state.specs.Walks.{WalkGoesOn};

use std::alloc::Global;
use tx_base::Memory;
use tx_doc::body;
use tx_tree::{Path, Place, Tree};

#[tactic(auto, using(crate::proofs::Leaves::leaf_rules))]
// Goes on down the tree to its first leaf, if it has one.
fn to_first_leaf(t: &Tree, path: &mut Path) -> Result<bool, Memory>
    ensures { IfOk result (λ found. WalkGoesOn (first_leaf t.now) found path.old path.new) }
{
    let _arity = t.arity();
    let Some(_label) = t.label() else {
        return Ok(true);
    };
    for (i, child) in t.children().iter().enumerate() {
        path.push(i as u32)?;
        if to_first_leaf(child, path)? {
            return Ok(true);
        }
        let _number = path.pop();
    }
    Ok(false)
}

/// The cursor at first: before the first leaf of the body, or before the body where it has none, or before the root
/// where there is no body.
pub(crate) fn first_cursor(alloc: Global, t: &Tree) -> Result<Place, Memory>
    ensures { IfOk result (λ at. at ≡ first_cursor t.now) }
{
    let Some(mut path) = body(alloc, t)? else {
        return Ok(Place {
            path: Path::root(alloc),
            offset: 0,
        });
    };
    if let Some(s) = t.at(&path) {
        let _found = to_first_leaf(s, &mut path)?;
    }
    Ok(Place { path, offset: 0 })
}
