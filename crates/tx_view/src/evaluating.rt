// Units are evaluated anew, where nothing that is cached fits, and their layout is dropped.
ghost use Rattle.std.specs.Prelude.{◌≡◌, ◌+◌, ◌≤◌, ◌<◌, ◌^◌, length, slice_get, All, IfOk, OnOk, OnErr, true, false};
ghost use Rattle.std.specs.Prelude.{ℕ, [], map, IsTrue, None};
ghost use Rattle.std.specs.Option.{unwrap_or};
ghost use Rattle.tx_view_form.specs.Outcomes.{beginning};
ghost use Rattle.tx_bridge.specs.Entries.{units_of, fresh_from};
ghost use Rattle.tx_bridge.specs.Names.{Charge, PartFlags};
ghost use Rattle.tx_bridge.specs.PartsKept.{fresh_parts_from};
ghost use Rattle.tx_view_form.specs.declared.TheConstants.{MOST_VIEW_STEPS};
ghost use Rattle.tx_bridge.specs.Reached.{reached_from};
ghost use Rattle.tx_unit_layout.specs.Views.{unit_view, IsReadable};
ghost use Rattle.tx_view.specs.Stores.{fresh_stores, IsPartlyFresh};
ghost use Rattle.tx_view.specs.Laid.{AreLaid, WereLaid, unlaid, dropped, dropped_by, without_parts, without};
ghost use Rattle.tx_view.specs.Laid.{view_stores_in, StayLaid};
ghost use Rattle.tx_view.specs.Lone.{IsAlone};

use std::alloc::Global;
use std::sync::ledger::Ledger;
use tx_base::{Memory, Steps};
use tx_bridge::Bridges;
use tx_unit_layout::Shown;

// Nothing is laid out, where this is true.
fn forget(shown: &mut Shown, reached: bool)
    ensures { shown.new ≡ unlaid reached shown.old }
{
    if reached {
        shown.laid = None;
    }
}

// Whether still none but the lone unit was reached, where `alone` says it of the units before this one.
fn still_alone(alone: bool, reached: bool, is_lone: bool) -> bool
    ensures before { IsTrue result → alone ≡ true }
    ensures here { IsTrue result → is_lone ≡ false → reached ≡ false }
{
    if is_lone {
        return alone;
    }
    if reached {
        return false;
    }
    alone
}

// Drops the layout of units that were evaluated anew. If it returns true, none but number `lone` was.
fn forget_reached(units: &mut [Shown], bridges: &Bridges, lone: usize) -> bool
    requires few { length units.old < 2 ^ 32 }
    ensures shown { units.new ≡ without bridges.now.reached units.old }
    ensures alone { IsTrue result → (k : ℕ) → k < length units.old → (k ≡ lone → ⊥)
        → unwrap_or (slice_get bridges.now.reached k) false ≡ false }
{
    let mut alone = true;
    for i in 0..units.len() {
        let reached = bridges.reached(i as u32);
        forget(&mut units[i], reached);
        alone = still_alone(alone, reached, i == lone);
    }
    alone
}

// Nothing is laid out, of units or of parts.
fn forget_all(units: &mut [Shown])
    ensures { units.new ≡ map dropped units.old }
{
    for i in 0..units.len() {
        units[i].laid = None;
        units[i].parts.forget();
    }
}

// Drops the lines of the parts, and if there were some, the layout of the unit.
fn forget_parts(shown: &mut Shown)
    ensures { shown.new ≡ dropped_by shown.old.parts shown.old }
{
    if shown.parts.all().is_empty() {
        return;
    }
    shown.laid = None;
    shown.parts.forget();
}

/// Drops the lines of all parts, and the layout of the units whose parts had lines.
pub(crate) fn forget_all_parts(units: &mut [Shown])
    ensures { units.new ≡ without_parts units.old }
{
    for i in 0..units.len() {
        forget_parts(&mut units[i]);
    }
}

/// Evaluates the units for which nothing that is cached fits, and drops their layout. Returns the charges, and whether
/// no other unit than number `lone` was evaluated anew. False says nothing.
#[tactic(auto, unfolding(tx_bridge::specs::Names::FreshTraces, tx_bridge::specs::Names::FreshParts))]
pub(crate) fn evaluate<L: Ledger>(
    alloc: Global,
    bridges: &mut Bridges,
    units: &mut [Shown],
    lone: usize,
    steps: &mut Steps<L>,
) -> Result<(u64, bool), Memory>
    requires few { length units.old < 2 ^ 32 }
    requires as_many { length units.old ≡ length bridges.old.kept }
    ensures kept { OnOk result (bridges.new.kept ≡ fresh_from beginning (units_of bridges.old.kept)) }
    ensures parts { OnOk result (bridges.new.parts ≡ fresh_parts_from beginning (units_of bridges.old.kept)) }
    ensures reached { OnOk result (bridges.new.reached ≡ reached_from beginning bridges.old.kept bridges.old.parts) }
    ensures shown { OnOk result (units.new ≡ without bridges.new.reached units.old) }
    ensures charge { IfOk result (λ p. p.0 ≡ Charge bridges.old.kept bridges.old.parts) }
    ensures counted { IfOk result (λ p. steps.new ≡ steps.old + p.0) }
    ensures most { IfOk result (λ p. p.0 ≤ MOST_VIEW_STEPS) }
    ensures alone { IfOk result (λ p. p.1 ≡ true
        → IsAlone lone (length units.old) bridges.old.kept bridges.new.kept bridges.new.reached) }
    ensures left { OnOk result
        (StayLaid (view_stores_in bridges.old units.old) (view_stores_in bridges.new units.new)) }
    ensures refused { OnErr result (IsPartlyFresh (view_stores_in bridges.old units.old)
        (fresh_stores (units_of bridges.old.kept)) (view_stores_in bridges.new units.new)) }
    ensures units { units_of bridges.new.kept ≡ units_of bridges.old.kept }
    ensures laid { OnOk result ((width : ℕ) → AreLaid width bridges.old.kept bridges.old.parts units.old
        → WereLaid width bridges.new.kept bridges.new.parts bridges.new.part_flags units.new) }
    ensures dropped { OnErr result ((width : ℕ) → AreLaid width bridges.old.kept bridges.old.parts units.old
        → AreLaid width bridges.new.kept bridges.new.parts units.new) }
    ensures no_parts { OnErr result (without_parts units.new ≡ units.new) }
    ensures strays { OnOk result (bridges.new.strays ≡ []) }
    ensures strays_stay { OnErr result (bridges.new.strays ≡ bridges.old.strays) }
    ensures flags { OnOk result (bridges.new.part_flags ≡ PartFlags bridges.old.kept bridges.old.parts) }
    ensures readable { All IsReadable units.old
        → All IsReadable units.new }
{
    match bridges.refresh(alloc, steps) {
        Ok(charges) => {
            let alone = forget_reached(units, bridges, lone);
            Ok((charges, alone))
        }
        Err(memory) => {
            forget_all(units);
            Err(memory)
        }
    }
}
