// One unit that alone isn't laid out.
ghost use Rattle.std.specs.Prelude.{◌≡◌, ◌+◌, ◌≤◌, ◌<◌, ◌^◌, length, map, slice_get, slice_set, All, IfOk, OnOk};
ghost use Rattle.std.specs.Prelude.{OnErr, true, Some, None, IsTrue, IfSome};
ghost use Rattle.std.specs.List.{IsDistinct};
ghost use Rattle.std.specs.Str.{bytes_eq};
ghost use Rattle.tx_tree.specs.WideTree.{size_of};
ghost use Rattle.tx_origin.specs.Values.{plain};
ghost use Rattle.tx_exec.specs.Outcomes.{wide_outcome};
ghost use Rattle.tx_exec_form.specs.Evaluated.{WideTrace};
ghost use Rattle.tx_walk.specs.Walked.{paths_of};
ghost use Rattle.tx_layout.specs.Paging.{Unmarked};
ghost use Rattle.tx_view_form.specs.Outcomes.{Moment as WideMoment, beginning, unit_value};
ghost use Rattle.tx_bridge.specs.Entries.{units_of, fresh_from, traces_of, outcome_of};
ghost use Rattle.tx_bridge.specs.HeldParts.{kept_parts, flags_of_parts};
ghost use Rattle.tx_bridge.specs.PartsKept.{fresh_parts, fresh_parts_from};
ghost use Rattle.tx_bridge.specs.Settled.{IsSilent};
ghost use Rattle.tx_bridge.specs.UnitLists.{HasPathIfBody};
ghost use Rattle.tx_unit_layout.specs.LaidAts.{laid_at, unit_items_anew};
ghost use Rattle.tx_unit_layout.specs.LaidUnits.{WasLaid};
ghost use Rattle.tx_unit_layout.specs.Views.{unit_view, IsReadable};
ghost use Rattle.tx_view.specs.Laid.{WereLaid, laid_in, items_unlaid_from, ArePartlyLaid};
ghost use Rattle.tx_view.specs.Lone.{IsGap, AreAlike, KeepPages};
ghost use Rattle.tx_view.specs.Stores.{attributes_from};
ghost use Rattle.tx_view.specs.Units.{IsBelow};

use crate::carrying::Former;
use crate::paging::Pagination;
use std::alloc::Global;
use std::sync::ledger::Ledger;
use tx_base::{Memory, Steps};
use tx_bridge::Bridges;
use tx_exec::Outcome;
use tx_exec_form::{size_law, trace_laws};
use tx_items::Attrs;
use tx_unit_layout::{Shown, lay_unit, outcome_weight_law};
use tx_units::Unit;
use tx_view_form::weight_laws;
use tx_walk::Part;

/// The one unit that has changed since all were laid out: its number, the attributes before it, and, of the time when
/// it was laid out, whether none of its lines was the last of a page, and the pages of all units.
#[derive(Drop)]
pub(crate) struct Lone {
    pub(crate) unit: usize,
    pub(crate) attrs: Attrs,
    pub(crate) unmarked: bool,
    pub(crate) paged: Pagination,
}

/// That unit, if there is one, and these pages.
pub(crate) fn lone_of(former: Option<Former>, paged: Pagination) -> Option<Lone>
    ensures { IfSome result (λ l. (former ≡ Some (record { unit = l.unit; attrs = l.attrs; unmarked = l.unmarked }))
        × (l.paged ≡ paged)) }
{
    let former = former?;
    Some(Lone {
        unit: former.unit,
        attrs: former.attrs,
        unmarked: former.unmarked,
        paged,
    })
}

// Whether the next of these sums after number i is larger by n.
fn is_gap(sums: &[u32], i: usize, n: u64) -> bool
    ensures { IsTrue result → IsGap sums.now i n }
{
    let Some(before) = sums.get(i) else {
        return false;
    };
    let Some(behind) = sums.get(i + 1) else {
        return false;
    };
    if *behind < *before {
        return false;
    }
    u64::from(*behind - *before) == n
}

// It has as many lines and errors as the lone unit had, and neither has or had a line that is the last of its page.
// False says nothing.
fn is_alike(lone: &Lone, shown: &Shown) -> bool
    requires below { IsBelow shown.now }
    requires few { length (unit_view shown.now).lines < 2 ^ 63 }
    ensures { IsTrue result → AreAlike lone.now shown.now }
{
    if !lone.unmarked || !shown.is_unmarked() {
        return false;
    }
    if !is_gap(&lone.paged.rows, lone.unit, shown.line_count()) {
        return false;
    }
    is_gap(&lone.paged.errors, lone.unit, shown.errors.len() as u64)
}

// Lays out a unit that evaluates to this at some moment and has these parts then. Returns how many items were laid out,
// and whether what is shown is alike.
fn lay_anew<L: Ledger>(
    alloc: Global,
    unit: &Unit,
    outcome: &Outcome,
    parts: &[Part],
    lone: &Lone,
    shown: &mut Shown,
    width: u32,
    steps: &mut Steps<L>,
) -> Result<(u64, bool), Memory>
    requires least_width { 20 ≤ width }
    requires most_width { width ≤ 500 }
    requires small { size_of (plain (unit_value (wide_outcome outcome.now))) ≤ 1000000 }
    requires placed { HasPathIfBody unit.now }
    requires distinct { IsDistinct bytes_eq (paths_of parts.now) }
    requires fresh { (m : WideMoment) × (wide_outcome outcome.now ≡ outcome_of m unit.now)
        × (kept_parts parts.now ≡ fresh_parts m unit.now) }
    requires was_laid { WasLaid width (record { unit = unit.now; trace = wide_outcome outcome.now })
        (kept_parts parts.now) (flags_of_parts parts.now) shown.old }
    ensures was_laid { OnOk result (WasLaid width (record { unit = unit.now; trace = wide_outcome outcome.now })
        (kept_parts parts.now) (flags_of_parts parts.now) shown.new) }
    ensures laid { OnOk result (shown.new.laid ≡ Some lone.now.attrs) }
    ensures readable { OnOk result (IsReadable shown.new) }
    ensures items { IfOk result (λ p. p.0 ≡ unit_items_anew lone.now.attrs
        (record { unit = unit.now; trace = wide_outcome outcome.now }) (kept_parts parts.now)
        (flags_of_parts parts.now) (map laid_at shown.old.parts)) }
    ensures most { IfOk result (λ p. p.0 < 2 ^ 63) }
    ensures counted { IfOk result (λ p. steps.new ≡ steps.old + p.0) }
    ensures alike { IfOk result (λ p. p.1 ≡ true → AreAlike lone.now shown.new) }
    ensures err { OnErr result (shown.new ≡ shown.old) }
{
    weight_laws();
    outcome_weight_law(outcome);
    let attrs = lone.attrs.copy()?;
    let items = lay_unit(alloc, unit, outcome, parts, attrs, shown, width, steps)?;
    Ok((items, is_alike(lone, shown)))
}

// Lays out the unit of this number, which is the only one without a layout, where these are the attributes before it.
// Returns how many items were laid out, and whether the pages are unchanged.
fn lay_only<L: Ledger>(
    alloc: Global,
    bridges: &Bridges,
    lone: &Lone,
    units: &mut [Shown],
    width: u32,
    steps: &mut Steps<L>,
) -> Result<(u64, bool), Memory>
    requires least_width { 20 ≤ width }
    requires most_width { width ≤ 500 }
    requires few { length bridges.now.kept < 2 ^ 23 }
    requires fresh { bridges.now.kept ≡ fresh_from beginning (units_of bridges.now.kept) }
    requires fresh_parts { bridges.now.parts ≡ fresh_parts_from beginning (units_of bridges.now.kept) }
    requires nothing_laid { slice_get (laid_in units.old) lone.now.unit ≡ Some None }
    requires attributes { slice_set (laid_in units.old) lone.now.unit (Some lone.now.attrs)
        ≡ attributes_from beginning (units_of bridges.now.kept) }
    requires laid { WereLaid width bridges.now.kept bridges.now.parts bridges.now.part_flags units.old }
    requires readable { All IsReadable units.old }
    ensures attributes { OnOk result (laid_in units.new ≡ attributes_from beginning (units_of bridges.now.kept)) }
    ensures items { IfOk result (λ p. p.0
        ≡ items_unlaid_from beginning (units_of bridges.now.kept) bridges.now.part_flags units.old) }
    ensures most { IfOk result (λ p. p.0 < 2 ^ 63) }
    ensures counted { IfOk result (λ p. steps.new ≡ steps.old + p.0) }
    ensures alike { IfOk result (λ p. p.1 ≡ true → KeepPages lone.now units.old units.new) }
    ensures err { OnErr result (units.new ≡ units.old) }
    ensures laid { WereLaid width bridges.now.kept bridges.now.parts bridges.now.part_flags units.new }
    ensures readable { All IsReadable units.new }
{
    size_law();
    trace_laws();
    let i = lone.unit as u32;
    let Some(own) = bridges.unit(i) else {
        unreachable!();
    };
    let Some(outcome) = bridges.outcome(i) else {
        unreachable!();
    };
    let Some(parts) = bridges.parts(i) else {
        unreachable!();
    };
    lay_anew(
        alloc,
        own,
        outcome,
        parts,
        lone,
        &mut units[lone.unit],
        width,
        steps,
    )
}

/// Lays that unit out, where `quiet`. Else nothing is laid out.
pub(crate) fn lay_if<L: Ledger>(
    alloc: Global,
    bridges: &Bridges,
    quiet: bool,
    lone: &Lone,
    units: &mut [Shown],
    width: u32,
    steps: &mut Steps<L>,
) -> Result<(u64, bool), Memory>
    requires least_width { 20 ≤ width }
    requires most_width { width ≤ 500 }
    requires few { length bridges.now.kept < 2 ^ 23 }
    requires fresh { bridges.now.kept ≡ fresh_from beginning (units_of bridges.now.kept) }
    requires nothing_laid { quiet ≡ true → slice_get (laid_in units.old) lone.now.unit ≡ Some None }
    requires attributes { quiet ≡ true → slice_set (laid_in units.old) lone.now.unit (Some lone.now.attrs)
        ≡ attributes_from beginning (units_of bridges.now.kept) }
    requires fresh_parts { bridges.now.parts ≡ fresh_parts_from beginning (units_of bridges.now.kept) }
    requires laid { WereLaid width bridges.now.kept bridges.now.parts bridges.now.part_flags units.old }
    requires readable { All IsReadable units.old }
    ensures left { IfOk result
        (λ p. p.0 + items_unlaid_from beginning (units_of bridges.now.kept) bridges.now.part_flags units.new
        ≡ items_unlaid_from beginning (units_of bridges.now.kept) bridges.now.part_flags units.old) }
    ensures most { IfOk result (λ p. p.0 < 2 ^ 63) }
    ensures counted { IfOk result (λ p. steps.new ≡ steps.old + p.0) }
    ensures quiet { IfOk result (λ p. p.1 ≡ true → quiet ≡ true) }
    ensures attributes { IfOk result (λ p. p.1 ≡ true
        → laid_in units.new ≡ attributes_from beginning (units_of bridges.now.kept)) }
    ensures pages { IfOk result (λ p. p.1 ≡ true → KeepPages lone.now units.old units.new) }
    ensures still { ArePartlyLaid (laid_in units.old) (attributes_from beginning (units_of bridges.now.kept))
        (laid_in units.new) }
    ensures laid { WereLaid width bridges.now.kept bridges.now.parts bridges.now.part_flags units.new }
    ensures readable { All IsReadable units.new }
{
    if !quiet {
        return Ok((0, false));
    }
    lay_only(alloc, bridges, lone, units, width, steps)
}

// Whether a unit evaluates to a trace that sets no name.
fn is_quiet(outcome: &Outcome) -> bool
    ensures { IsTrue result → (t : WideTrace) × (wide_outcome outcome.now ≡ Some t)
        × IsSilent (wide_outcome outcome.now) }
{
    match outcome {
        Outcome::Over => false,
        Outcome::Done(trace) => trace.writes.pairs().is_empty(),
    }
}

// Whether the unit of this number evaluates to a trace that sets no name.
fn comes_quietly(bridges: &Bridges, unit: usize) -> bool
    requires { unit < 2 ^ 32 }
    ensures { IsTrue result → (t : WideTrace) × (slice_get (traces_of bridges.now.kept) unit ≡ Some (Some t))
        × IsSilent (Some t) }
{
    match bridges.outcome(unit as u32) {
        None => false,
        Some(outcome) => is_quiet(outcome),
    }
}

/// Whether no other unit was evaluated anew, and this one evaluates to a trace that sets no name.
pub(crate) fn is_alone_quietly(alone: bool, bridges: &Bridges, unit: usize) -> bool
    requires { unit < 2 ^ 32 }
    ensures alone { IsTrue result → alone ≡ true }
    ensures quiet { IsTrue result → (t : WideTrace) × (slice_get (traces_of bridges.now.kept) unit ≡ Some (Some t))
        × IsSilent (Some t) }
{
    if !alone {
        return false;
    }
    comes_quietly(bridges, unit)
}
