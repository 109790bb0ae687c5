// A unit laid out.
ghost use Rattle.std.specs.Prelude.{◌≡◌, ◌+◌, ◌≤◌, map, Some, IfOk, OnOk, OnErr};
ghost use Rattle.std.specs.List.{IsDistinct};
ghost use Rattle.std.specs.Str.{bytes_eq};
ghost use Rattle.tx_tree.specs.WideTree.{size_of};
ghost use Rattle.tx_origin.specs.Values.{plain};
ghost use Rattle.tx_exec.specs.Outcomes.{wide_outcome};
ghost use Rattle.tx_walk.specs.Walked.{paths_of};
ghost use Rattle.tx_view_form.specs.Outcomes.{Moment, unit_value};
ghost use Rattle.tx_view_form.specs.Views.{paragraphs_at};
ghost use Rattle.tx_bridge.specs.Entries.{outcome_of};
ghost use Rattle.tx_bridge.specs.HeldParts.{kept_parts, flags_of_parts};
ghost use Rattle.tx_bridge.specs.PartsKept.{fresh_parts};
ghost use Rattle.tx_bridge.specs.UnitLists.{HasPathIfBody};
ghost use Rattle.tx_part_layout.specs.LaidParts.{items_in};
ghost use Rattle.tx_unit_layout.specs.LaidAts.{laid_at, unit_items_anew};
ghost use Rattle.tx_unit_layout.specs.LaidUnits.{WasLaid, IsLaidOut};
ghost use Rattle.tx_unit_layout.specs.Views.{IsReadable};

use crate::by_parts::lay_by_parts;
use crate::shown::Shown;
use crate::whole::lay_whole;
use std::alloc::Global;
use std::sync::ledger::Ledger;
use tx_base::{Memory, Steps};
use tx_bridge::{has_parts, over_value};
use tx_exec::Outcome;
use tx_items::Attrs;
use tx_units::Unit;
use tx_walk::Part;

/// Lays out a unit with this outcome at some moment, and with its parts then. The attributes before it are these.
/// Returns how many items were laid out. Of a paragraph of the body that doesn't run out of steps or levels, these are
/// the items of the parts that were evaluated anew, or weren't laid out for the attributes before them. Of another unit
/// these are all items. Pages have 20 to 500 columns. The one error is out of memory: what was laid out before is then
/// unchanged.
pub fn lay_unit<L: Ledger>(
    alloc: Global,
    unit: &Unit,
    outcome: &Outcome,
    parts: &[Part],
    attrs: Attrs,
    shown: &mut Shown,
    width: u32,
    steps: &mut Steps<L>,
) -> Result<u64, Memory>
    requires least_width { 20 ≤ width }
    requires most_width { width ≤ 500 }
    requires small { size_of (plain (unit_value (wide_outcome outcome.now))) ≤ 1000000 }
    requires placed { HasPathIfBody unit.now }
    requires distinct { IsDistinct bytes_eq (paths_of parts.now) }
    requires fresh { (m : Moment) × (wide_outcome outcome.now ≡ outcome_of m unit.now)
        × (kept_parts parts.now ≡ fresh_parts m unit.now) }
    requires was_laid { WasLaid width (record { unit = unit.now; trace = wide_outcome outcome.now })
        (kept_parts parts.now) (flags_of_parts parts.now) shown.old }
    ensures was_laid { OnOk result (WasLaid width (record { unit = unit.now; trace = wide_outcome outcome.now })
        (kept_parts parts.now) (flags_of_parts parts.now) shown.new) }
    ensures laid { OnOk result (shown.new.laid ≡ Some attrs) }
    ensures shown { OnOk result
        (IsLaidOut width attrs (unit_value (wide_outcome outcome.now)) unit.now.path shown.new) }
    ensures readable { OnOk result (IsReadable shown.new) }
    ensures items { IfOk result (λ n. n ≡ unit_items_anew attrs
        (record { unit = unit.now; trace = wide_outcome outcome.now }) (kept_parts parts.now)
        (flags_of_parts parts.now) (map laid_at shown.old.parts)) }
    ensures within { IfOk result
        (λ n. n ≤ items_in (paragraphs_at unit.now.path attrs (unit_value (wide_outcome outcome.now)))) }
    ensures counted { IfOk result (λ n. steps.new ≡ steps.old + n) }
    ensures err { OnErr result (shown.new ≡ shown.old) }
{
    let Outcome::Done(trace) = outcome else {
        return lay_whole(alloc, &over_value(alloc)?, attrs, shown, width, steps);
    };
    if has_parts(unit) {
        return lay_by_parts(alloc, unit, trace, parts, attrs, shown, width, steps);
    }
    lay_whole(alloc, &trace.value, attrs, shown, width, steps)
}
