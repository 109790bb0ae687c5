// A paragraph of the body laid out by its parts.
ghost use Rattle.std.specs.Prelude.{◌≡◌, ◌+◌, ◌≤◌, true, Some, IfOk, OnOk, OnErr, ℕ, [], map, length};
ghost use Rattle.std.specs.List.{All, IsDistinct};
ghost use Rattle.std.specs.Str.{bytes_eq};
ghost use Rattle.tx_tree.specs.WideTree.{size_of};
ghost use Rattle.tx_origin.specs.Values.{plain};
ghost use Rattle.tx_exec_form.specs.declared.TheConstants.{MOST_LEVELS};
ghost use Rattle.tx_exec_form.specs.Runs.{Before};
ghost use Rattle.tx_exec.specs.Outcomes.{wide_trace};
ghost use Rattle.tx_parts.specs.Composed.{evaluates};
ghost use Rattle.tx_parts.specs.Parts.{parts as tree_parts, stored_part};
ghost use Rattle.tx_walk.specs.Walked.{paths_of};
ghost use Rattle.tx_view_form.specs.Outcomes.{Moment};
ghost use Rattle.tx_view_form.specs.Views.{paragraphs_at};
ghost use Rattle.tx_bridge.specs.Entries.{outcome_of};
ghost use Rattle.tx_bridge.specs.HeldParts.{kept_parts, flags_of_parts};
ghost use Rattle.tx_bridge.specs.PartsKept.{has_parts, fresh_parts};
ghost use Rattle.tx_bridge.specs.UnitLists.{HasPathIfBody};
ghost use Rattle.tx_part_items.specs.ShownParts.{kept_values};
ghost use Rattle.tx_part_layout.specs.LaidParts.{items_in, done_value};
ghost use Rattle.tx_unit_layout.specs.LaidAts.{laid_at, unit_items_anew};
ghost use Rattle.tx_unit_layout.specs.LaidUnits.{WasLaid};
ghost use Rattle.tx_unit_layout.specs.Views.{IsReadable};

use crate::again::lay_again;
use crate::laid_parts::LaidParts;
use crate::shown::Shown;
use std::alloc::Global;
use std::sync::ledger::Ledger;
use tx_base::{Memory, Steps};
use tx_exec::Trace;
use tx_exec_form::{size_law, trace_laws};
use tx_items::Attrs;
use tx_parts::cost_law;
use tx_units::Unit;
use tx_view_form::{short_law, weight_laws};
use tx_walk::Part;

// A law: the parts of a paragraph of the body that doesn't run out of steps or levels are few, and their values are
// small, as the unit's is. With these parts its tree evaluates to its trace.
fn done_parts_law(unit: &Unit, trace: &Trace, parts: &[Part])
    requires body { has_parts unit.now ≡ true }
    requires placed { HasPathIfBody unit.now }
    requires fresh { (m : Moment) × (Some (wide_trace trace.now) ≡ outcome_of m unit.now)
        × (kept_parts parts.now ≡ fresh_parts m unit.now) }
    ensures few { length parts.now ≤ 1000000 }
    ensures small { All (λ d. size_of (plain d.trace.value) ≤ 1000000) parts.now }
    ensures whole { size_of (plain trace.now.value) ≤ 1000000 }
    ensures evaluates { (c : ℕ) × (e : Before)
        × (evaluates MOST_LEVELS c unit.now.tagged.tree e ≡ Some (wide_trace trace.now))
        × (kept_values (map stored_part (tree_parts MOST_LEVELS c [] unit.now.tagged.tree e))
        ≡ map done_value parts.now) }
{
    size_law();
    cost_law();
    trace_laws();
}

/// Lays out a paragraph of the body with this trace and these parts, and returns how many items were laid out. The
/// former layout of a part that wasn't evaluated anew is used again where the attributes before it are the same.
pub(crate) fn lay_by_parts<L: Ledger>(
    alloc: Global,
    unit: &Unit,
    trace: &Trace,
    parts: &[Part],
    attrs: Attrs,
    shown: &mut Shown,
    width: u32,
    steps: &mut Steps<L>,
) -> Result<u64, Memory>
    requires least_width { 20 ≤ width }
    requires most_width { width ≤ 500 }
    requires body { has_parts unit.now ≡ true }
    requires placed { HasPathIfBody unit.now }
    requires distinct { IsDistinct bytes_eq (paths_of parts.now) }
    requires fresh { (m : Moment) × (Some (wide_trace trace.now) ≡ outcome_of m unit.now)
        × (kept_parts parts.now ≡ fresh_parts m unit.now) }
    requires was_laid { WasLaid width (record { unit = unit.now; trace = Some (wide_trace trace.now) })
        (kept_parts parts.now) (flags_of_parts parts.now) shown.old }
    ensures was_laid { OnOk result (WasLaid width (record { unit = unit.now; trace = Some (wide_trace trace.now) })
        (kept_parts parts.now) (flags_of_parts parts.now) shown.new) }
    ensures laid { OnOk result (shown.new.laid ≡ Some attrs) }
    ensures readable { OnOk result (IsReadable shown.new) }
    ensures items { IfOk result (λ n. n ≡ unit_items_anew attrs
        (record { unit = unit.now; trace = Some (wide_trace trace.now) }) (kept_parts parts.now)
        (flags_of_parts parts.now) (map laid_at shown.old.parts)) }
    ensures within { IfOk result
        (λ n. n ≤ items_in (paragraphs_at unit.now.path attrs trace.now.value)) }
    ensures counted { IfOk result (λ n. steps.new ≡ steps.old + n) }
    ensures err { OnErr result (shown.new ≡ shown.old) }
{
    let _size = trace.value.size();
    weight_laws();
    short_law();
    done_parts_law(unit, trace, parts);
    let path = unit.copy_path(alloc)?;
    let laid = lay_again(
        alloc,
        &unit.tagged.tree,
        parts,
        &attrs,
        &mut shown.parts,
        width,
        steps,
    )?;
    let items = laid.items;
    *shown = Shown {
        path,
        laid: Some(attrs),
        errors: laid.errors,
        paragraphs: laid.paragraphs,
        lines: laid.lines,
        parts: LaidParts::new(laid.parts),
    };
    Ok(items)
}
