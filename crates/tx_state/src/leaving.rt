// One earlier edit is left out.
ghost use Rattle.std.specs.Prelude.{◌≤◌, ◌+◌, ◌*◌, IfOk, length, reverse, take};
ghost use Rattle.tx_commute.specs.Leaving.{total, IsLeft};
ghost use Rattle.tx_state.specs.Backward.{AllApplyIn, edits_back, left_along, MakesWithout};

use crate::backward::walk_back;
use crate::edits::Entry;
use std::alloc::Global;
use std::sync::ledger::Ledger;
use tx_base::{Memory, Steps};
use tx_commute::{Left, leave, leave_law};
use tx_history::History;
use tx_tree::Tree;

// What comes of leaving the edit of this number out, the last one being 1. It is an edit of this buffer, which has the
// tree now.
pub(crate) fn left_of<L: Ledger>(
    alloc: Global,
    history: &History<Entry>,
    tree: &Tree,
    buffer: u32,
    n: u32,
    steps: &mut Steps<L>,
) -> Result<Left, Memory>
    requires some { 1 ≤ n }
    requires many { n ≤ length history.now.past }
    requires apply { AllApplyIn buffer (take n (reverse history.now.past)) tree.now }
    ensures left { IfOk result (IsLeft (left_along buffer (take n (reverse history.now.past)) tree.now)) }
    ensures makes { IfOk result (λ _.
        MakesWithout (left_along buffer (take n (reverse history.now.past)) tree.now) tree.now) }
    ensures counted { steps.new
        ≤ steps.old + 1609 * total (edits_back buffer (take n (reverse history.now.past)) tree.now) }
{
    let backward = walk_back(alloc, history, tree, buffer, n, steps)?;
    let _size = backward.tree.size();
    leave_law();
    let Some((edit, later)) = backward.edits.split_first() else {
        unreachable!();
    };
    leave(alloc, &backward.tree, edit.as_slice(), later, steps)
}
