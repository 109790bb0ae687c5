// A nested paragraph laid out by its parts.
ghost use Rattle.std.specs.Prelude.{◌≡◌, ◌+◌, ◌≤◌, ◌<◌, ◌^◌, [], ℕ, IfOk, OnErr, All, Some, map, length};
ghost use Rattle.std.specs.List.{IsDistinct};
ghost use Rattle.std.specs.Str.{bytes_eq};
ghost use Rattle.tx_tree.specs.WideTree.{size_of};
ghost use Rattle.tx_origin.specs.Values.{plain};
ghost use Rattle.tx_exec_form.specs.declared.TheConstants.{MOST_LEVELS};
ghost use Rattle.tx_exec_form.specs.Runs.{Before};
ghost use Rattle.tx_exec_form.specs.Evaluated.{WideTrace};
ghost use Rattle.tx_parts.specs.Composed.{evaluates};
ghost use Rattle.tx_parts.specs.Parts.{parts as tree_parts, stored_part};
ghost use Rattle.tx_items.specs.Shows.{show, shown_paragraphs};
ghost use Rattle.tx_view_form.specs.Views.{AreLines};
ghost use Rattle.tx_part_items.specs.ShownParts.{kept_values, parts_shown};
ghost use Rattle.tx_part_layout.specs.LaidParts.{IsLaidPart, IsOfValue, IsLaidUnit, laid_paths, done_value, items_anew};
ghost use Rattle.tx_part_layout.specs.LaidParts.{whole_shown, ShowsValue};
ghost use Rattle.tx_part_layout.specs.Laying.{HasLaid, IsRightSoFar};

use crate::laid::{LaidUnit, PlacedPart};
use crate::laying::{Laying, end_unit, lay_tree};
use crate::slots::put_together;
use crate::under::lines_under_law;
use std::alloc::Global;
use std::sync::ledger::Ledger;
use tx_base::{Memory, Steps};
use tx_items::Attrs;
use tx_part_items::parts_shown_law;
use tx_tree::Tree;
use tx_walk::Part;

/// Lays a unit out by its parts, where these are its tree and its parts in order, and the attributes before it. The
/// former layout of a part that isn't renewed is reused where the attributes before it are the same. It is moved out of
/// `former`, of which nothing is left. A page is 20 to 500 cells wide. The one error is `Memory`: `former` is unchanged
/// then.
pub fn lay_parts<L: Ledger>(
    alloc: Global,
    tree: &Tree,
    parts: &[Part],
    attrs: &Attrs,
    former: &mut Vec<PlacedPart>,
    width: u32,
    steps: &mut Steps<L>,
) -> Result<LaidUnit, Memory>
    requires least_width { 20 ≤ width }
    requires most_width { width ≤ 500 }
    requires few { length parts.now < 2 ^ 32 }
    requires small { All (λ d. size_of (plain d.trace.value) ≤ 1000000) parts.now }
    requires distinct { IsDistinct bytes_eq (laid_paths former.old.items) }
    requires laid { All (λ p. IsLaidPart width p.laid.value) former.old.items }
    requires same { All (λ d. All (λ p. IsOfValue p d) former.old.items) parts.now }
    ensures laid { IfOk result (λ u. IsLaidUnit width (whole_shown attrs.now parts.now tree.now) u) }
    ensures shown { (c : ℕ) (e : Before) (trace : WideTrace) → evaluates MOST_LEVELS c tree.now e ≡ Some trace
        → kept_values (map stored_part (tree_parts MOST_LEVELS c [] tree.now e)) ≡ map done_value parts.now
        → IfOk result (λ u. ShowsValue width attrs.now trace.value parts.now u) }
    ensures items { IfOk result (λ u. u.items ≡ items_anew former.old.items parts.now
        (whole_shown attrs.now parts.now tree.now).each) }
    ensures err { OnErr result (former.new ≡ former.old) }
    ensures counted { IfOk result (λ u. steps.new ≡ steps.old + u.items) }
    ensures rises { steps.old ≤ steps.new }
{
    parts_shown_law();
    lines_under_law();
    let mut laying = Laying::new(alloc, attrs.copy()?);
    lay_tree(alloc, tree, 400, parts, former, width, &mut laying, steps)?;
    end_unit(alloc, width, &mut laying, steps)?;
    let Laying {
        slots,
        mut unit,
        ..
    } = laying;
    unit.parts = put_together(alloc, former, slots)?;
    Ok(unit)
}
