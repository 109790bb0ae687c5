// Units laid out in order, each from its cached trace.
ghost use Rattle.std.specs.Prelude.{◌≡◌, ◌+◌, ◌≤◌, ◌<◌, ◌^◌, length, slice_get, All, IfOk, OnOk, OnErr, Some, true};
ghost use Rattle.std.specs.Prelude.{Bool, List, map, if◌then◌else◌, IsTrue};
ghost use Rattle.std.specs.Str.{bytes_eq};
ghost use Rattle.tx_tree.specs.WideTree.{size_of};
ghost use Rattle.tx_origin.specs.Values.{plain};
ghost use Rattle.tx_env.specs.Environments.{NameMap};
ghost use Rattle.tx_exec.specs.Outcomes.{wide_outcome};
ghost use Rattle.tx_items.specs.declared.attributes.Attrs.{Attrs};
ghost use Rattle.tx_view_form.specs.Outcomes.{Moment as WideMoment, beginning, env_behind, unit_value};
ghost use Rattle.tx_view_form.specs.Started.{attributes_of};
ghost use Rattle.tx_view_form.specs.Views.{AreShown, lines_of, paragraphs_at};
ghost use Rattle.tx_view_form.specs.Errors.{errors_of};
ghost use Rattle.tx_bridge.specs.Entries.{Entry, units_of, fresh_from, outcome_of};
ghost use Rattle.tx_bridge.specs.PartsKept.{KeptParts, fresh_parts, fresh_parts_from};
ghost use Rattle.tx_bridge.specs.HeldParts.{kept_parts, flags_of_parts};
ghost use Rattle.tx_bridge.specs.UnitLists.{HasPathIfBody};
ghost use Rattle.tx_walk.specs.Walked.{paths_of};
ghost use Rattle.tx_unit_layout.specs.LaidAts.{laid_at, unit_items_anew};
ghost use Rattle.tx_view.specs.Variables.{AreVariables};
ghost use Rattle.tx_view.specs.Units.{unit_views};
ghost use Rattle.tx_unit_layout.specs.Views.{unit_view, IsReadable};
ghost use Rattle.tx_view.specs.Stores.{attributes_from};
ghost use Rattle.tx_part_layout.specs.LaidParts.{is_before, items_in};
ghost use Rattle.tx_view.specs.Laid.{IsUnit, IsNext, WereLaid, laid_in, items_unlaid, items_unlaid_from, ArePartlyLaid};
ghost use Rattle.tx_unit_layout.specs.LaidUnits.{WasLaid};
ghost use Rattle.tx_bridge.specs.Settled.{IsSilent};
ghost use Rattle.std.specs.List.{IsDistinct};

use crate::starts::Variables;
use std::alloc::Global;
use std::sync::ledger::Ledger;
use tx_base::{Memory, Steps};
use tx_bridge::{Bridges, Moment, is_silent};
use tx_exec::Outcome;
use tx_exec_form::trace_laws;
use tx_items::Attrs;
use tx_unit_layout::{Shown, lay_unit, outcome_weight_law};
use tx_units::Unit;
use tx_view_form::weight_laws;
use tx_walk::Part;

// Lays out a unit that evaluates to this at some moment and has these parts then, unless it is laid out for these
// attributes. Returns how many items were laid out.
fn lay<L: Ledger>(
    alloc: Global,
    unit: &Unit,
    outcome: &Outcome,
    parts: &[Part],
    attrs: &Attrs,
    shown: &mut Shown,
    width: u32,
    steps: &mut Steps<L>,
) -> Result<u64, Memory>
    requires least_width { 20 ≤ width }
    requires most_width { width ≤ 500 }
    requires small { size_of (plain (unit_value (wide_outcome outcome.now))) ≤ 1000000 }
    requires placed { HasPathIfBody unit.now }
    requires distinct { IsDistinct bytes_eq (paths_of parts.now) }
    requires fresh { (m : WideMoment) × (wide_outcome outcome.now ≡ outcome_of m unit.now)
        × (kept_parts parts.now ≡ fresh_parts m unit.now) }
    requires was_laid { WasLaid width (record { unit = unit.now; trace = wide_outcome outcome.now })
        (kept_parts parts.now) (flags_of_parts parts.now) shown.old }
    requires readable { IsReadable shown.old }
    ensures was_laid { WasLaid width (record { unit = unit.now; trace = wide_outcome outcome.now })
        (kept_parts parts.now) (flags_of_parts parts.now) shown.new }
    ensures laid { OnOk result (shown.new.laid ≡ Some attrs.now) }
    ensures readable { IsReadable shown.new }
    ensures items { IfOk result (λ n. n ≡ if is_before shown.old.laid attrs.now then 0
        else unit_items_anew attrs.now (record { unit = unit.now; trace = wide_outcome outcome.now })
        (kept_parts parts.now) (flags_of_parts parts.now) (map laid_at shown.old.parts)) }
    ensures within { IfOk result
        (λ n. n ≤ items_in (paragraphs_at unit.now.path attrs.now (unit_value (wide_outcome outcome.now)))) }
    ensures counted { IfOk result (λ n. steps.new ≡ steps.old + n) }
    ensures err { OnErr result (shown.new ≡ shown.old) }
{
    if shown.is_laid_for(attrs) {
        return Ok(0);
    }
    let own = attrs.copy()?;
    lay_unit(alloc, unit, outcome, parts, own, shown, width, steps)
}

// Lays out the unit of this number, where these are the attributes before it, and passes it. Returns how many items
// were laid out.
fn lay_next<L: Ledger>(
    alloc: Global,
    bridges: &Bridges,
    i: u32,
    attrs: &Attrs,
    moment: &mut Moment,
    shown: &mut Shown,
    width: u32,
    steps: &mut Steps<L>,
) -> Result<u64, Memory>
    requires least_width { 20 ≤ width }
    requires most_width { width ≤ 500 }
    requires attributes { attrs.now ≡ attributes_of moment.old.env }
    requires there { i < length bridges.now.kept }
    requires fresh { (e : Entry) (ks : KeptParts) (fs : List Bool) → IsUnit bridges.now i e ks fs
        → (e.trace ≡ outcome_of moment.old e.unit) × (ks ≡ fresh_parts moment.old e.unit) }
    requires was_laid { (e : Entry) (ks : KeptParts) (fs : List Bool) → IsUnit bridges.now i e ks fs
        → WasLaid width e ks fs shown.old }
    requires readable { IsReadable shown.old }
    requires few { moment.old.left < 2 ^ 32 }
    ensures next { IfOk result (λ n. (e : Entry) (ks : KeptParts) (fs : List Bool) → IsUnit bridges.now i e ks fs
        → IsNext width e ks fs moment.old moment.new shown.old shown.new n) }
    ensures counted { OnOk result ((e : Entry) (ks : KeptParts) (fs : List Bool) → IsUnit bridges.now i e ks fs
        → steps.new ≡ steps.old + items_unlaid moment.old e.unit fs shown.old) }
    ensures readable { IsReadable shown.new }
    ensures err { OnErr result (shown.new ≡ shown.old) }
{
    let Some(unit) = bridges.unit(i) else {
        unreachable!();
    };
    let Some(outcome) = bridges.outcome(i) else {
        unreachable!();
    };
    let Some(parts) = bridges.parts(i) else {
        unreachable!();
    };
    weight_laws();
    trace_laws();
    outcome_weight_law(outcome);
    bridges.pass(i, moment)?;
    let items = lay(alloc, unit, outcome, parts, attrs, shown, width, steps)?;
    Ok(items)
}

// Takes the attributes before the unit of this number to those after it, where the moment is the one after it.
fn pass_attributes(
    alloc: Global,
    variables: &Variables,
    bridges: &Bridges,
    i: u32,
    moment: &Moment,
    attrs: &mut Attrs,
) -> Result<(), Memory>
    requires variables { AreVariables variables.now }
    requires there { i < length bridges.now.kept }
    requires before { (e : Entry) → slice_get bridges.now.kept i ≡ Some e
        → (env : NameMap) × (attrs.old ≡ attributes_of env) × (moment.now.env ≡ env_behind env e.trace) }
    ensures { OnOk result (attrs.new ≡ attributes_of moment.now.env) }
{
    let Some(outcome) = bridges.outcome(i) else {
        unreachable!();
    };
    if is_silent(outcome) {
        return Ok(());
    }
    *attrs = variables.attributes(alloc, moment.env())?;
    Ok(())
}

// Lays out all units that aren't laid out for the attributes before them, the first at this moment with these
// attributes. Returns how many items were laid out.
fn lay_each<L: Ledger>(
    alloc: Global,
    variables: &Variables,
    bridges: &Bridges,
    moment: &mut Moment,
    attrs: &mut Attrs,
    units: &mut [Shown],
    width: u32,
    steps: &mut Steps<L>,
) -> Result<u64, Memory>
    requires least_width { 20 ≤ width }
    requires most_width { width ≤ 500 }
    requires variables { AreVariables variables.now }
    requires start { moment.old ≡ beginning }
    requires attributes { attrs.old ≡ attributes_of moment.old.env }
    requires few { length bridges.now.kept < 2 ^ 23 }
    requires fresh { bridges.now.kept ≡ fresh_from beginning (units_of bridges.now.kept) }
    requires fresh_parts { bridges.now.parts ≡ fresh_parts_from beginning (units_of bridges.now.kept) }
    requires laid { WereLaid width bridges.now.kept bridges.now.parts bridges.now.part_flags units.old }
    requires readable { All IsReadable units.old }
    ensures shown { OnOk result (AreShown width beginning (units_of bridges.now.kept) (unit_views units.new)) }
    ensures attributes { OnOk result (laid_in units.new ≡ attributes_from beginning (units_of bridges.now.kept)) }
    ensures lines { OnOk result (length (lines_of (unit_views units.new)) < 2 ^ 32) }
    ensures errors { OnOk result (length (errors_of (unit_views units.new)) < 2 ^ 32) }
    ensures counted { OnOk result
        (steps.new ≡ steps.old
        + items_unlaid_from beginning (units_of bridges.now.kept) bridges.now.part_flags units.old) }
    ensures items { IfOk result
        (λ n. n ≡ items_unlaid_from beginning (units_of bridges.now.kept) bridges.now.part_flags units.old) }
    ensures most { IfOk result (λ n. n < 2 ^ 40) }
    ensures still { ArePartlyLaid (laid_in units.old) (attributes_from beginning (units_of bridges.now.kept))
        (laid_in units.new) }
    ensures laid { WereLaid width bridges.now.kept bridges.now.parts bridges.now.part_flags units.new }
    ensures readable { All IsReadable units.new }
{
    let mut items = 0;
    for i in 0..units.len() {
        let more = lay_next(
            alloc,
            bridges,
            i as u32,
            attrs,
            moment,
            &mut units[i],
            width,
            steps,
        )?;
        pass_attributes(alloc, variables, bridges, i as u32, moment, attrs)?;
        items += more;
    }
    Ok(items)
}

// Lays out the units in order, from the first one on.
fn lay_from_start<L: Ledger>(
    alloc: Global,
    variables: &Variables,
    bridges: &Bridges,
    units: &mut [Shown],
    width: u32,
    steps: &mut Steps<L>,
) -> Result<u64, Memory>
    requires least_width { 20 ≤ width }
    requires most_width { width ≤ 500 }
    requires variables { AreVariables variables.now }
    requires few { length bridges.now.kept < 2 ^ 23 }
    requires fresh { bridges.now.kept ≡ fresh_from beginning (units_of bridges.now.kept) }
    requires fresh_parts { bridges.now.parts ≡ fresh_parts_from beginning (units_of bridges.now.kept) }
    requires laid { WereLaid width bridges.now.kept bridges.now.parts bridges.now.part_flags units.old }
    requires readable { All IsReadable units.old }
    ensures shown { OnOk result (AreShown width beginning (units_of bridges.now.kept) (unit_views units.new)) }
    ensures attributes { OnOk result (laid_in units.new ≡ attributes_from beginning (units_of bridges.now.kept)) }
    ensures lines { OnOk result (length (lines_of (unit_views units.new)) < 2 ^ 32) }
    ensures errors { OnOk result (length (errors_of (unit_views units.new)) < 2 ^ 32) }
    ensures counted { OnOk result
        (steps.new ≡ steps.old
        + items_unlaid_from beginning (units_of bridges.now.kept) bridges.now.part_flags units.old) }
    ensures items { IfOk result
        (λ n. n ≡ items_unlaid_from beginning (units_of bridges.now.kept) bridges.now.part_flags units.old) }
    ensures most { IfOk result (λ n. n < 2 ^ 40) }
    ensures still { ArePartlyLaid (laid_in units.old) (attributes_from beginning (units_of bridges.now.kept))
        (laid_in units.new) }
    ensures laid { WereLaid width bridges.now.kept bridges.now.parts bridges.now.part_flags units.new }
    ensures readable { All IsReadable units.new }
{
    let mut moment = Moment::beginning(alloc);
    let mut attrs = variables.attributes(alloc, moment.env())?;
    lay_each(
        alloc,
        variables,
        bridges,
        &mut moment,
        &mut attrs,
        units,
        width,
        steps,
    )
}

/// Lays out all units that aren't laid out for the attributes before them, and returns how many items were laid out.
pub(crate) fn lay_all<L: Ledger>(
    alloc: Global,
    bridges: &Bridges,
    units: &mut [Shown],
    width: u32,
    steps: &mut Steps<L>,
) -> Result<u64, Memory>
    requires least_width { 20 ≤ width }
    requires most_width { width ≤ 500 }
    requires few { length bridges.now.kept < 2 ^ 23 }
    requires fresh { bridges.now.kept ≡ fresh_from beginning (units_of bridges.now.kept) }
    requires fresh_parts { bridges.now.parts ≡ fresh_parts_from beginning (units_of bridges.now.kept) }
    requires laid { WereLaid width bridges.now.kept bridges.now.parts bridges.now.part_flags units.old }
    requires readable { All IsReadable units.old }
    ensures shown { OnOk result (AreShown width beginning (units_of bridges.now.kept) (unit_views units.new)) }
    ensures attributes { OnOk result (laid_in units.new ≡ attributes_from beginning (units_of bridges.now.kept)) }
    ensures lines { OnOk result (length (lines_of (unit_views units.new)) < 2 ^ 32) }
    ensures errors { OnOk result (length (errors_of (unit_views units.new)) < 2 ^ 32) }
    ensures counted { OnOk result
        (steps.new ≡ steps.old
        + items_unlaid_from beginning (units_of bridges.now.kept) bridges.now.part_flags units.old) }
    ensures items { IfOk result
        (λ n. n ≡ items_unlaid_from beginning (units_of bridges.now.kept) bridges.now.part_flags units.old) }
    ensures most { IfOk result (λ n. n < 2 ^ 40) }
    ensures still { ArePartlyLaid (laid_in units.old) (attributes_from beginning (units_of bridges.now.kept))
        (laid_in units.new) }
    ensures laid { WereLaid width bridges.now.kept bridges.now.parts bridges.now.part_flags units.new }
    ensures readable { All IsReadable units.new }
{
    let variables = Variables::new(alloc)?;
    lay_from_start(alloc, &variables, bridges, units, width, steps)
}
