// Traces are carried with their units through an edit.
ghost use Rattle.std.specs.Prelude.{◌≡◌, ℕ, ◌++◌, ◌∷◌, [], drop, IfOk, OnOk, Some, true, None};
ghost use Rattle.std.specs.Prelude.{option_and_then, slice_get};
ghost use Rattle.tx_tree.specs.WideTree.{WideTree};
ghost use Rattle.tx_mod.specs.Followed.{changed_by_all};
ghost use Rattle.tx_kept.specs.Carrying.{carry, trees_before};
ghost use Rattle.tx_unit_traces.specs.Units.{units_of};
ghost use Rattle.tx_unit_traces.specs.UnitLists.{AreUnits, AllStand};
ghost use Rattle.tx_unit_traces.specs.Carrying.{same_kind, same_unit, whole_of, trace_at, trace_if_same, trace_for};
ghost use Rattle.tx_unit_traces.specs.Carrying.{taken_from, carried_units};

use crate::cached_unit::CachedUnit;
use crate::unit_trace::UnitTrace;
use std::alloc::Global;
use tx_base::Memory;
use tx_kept::{Entry, PathMap};
use tx_mod::Mod;
use tx_prim::sameness_law;
use tx_tree::{Path, Tree};
use tx_units::{Unit, UnitKind};

// ---- units without a path

fn same_kind(one: UnitKind, other: UnitKind) -> bool
    ensures { result ≡ same_kind one other }
{
    match (one, other) {
        (UnitKind::Base, UnitKind::Base)
        | (UnitKind::Absent, UnitKind::Absent)
        | (UnitKind::Initial, UnitKind::Initial)
        | (UnitKind::Body, UnitKind::Body) => true,
        (UnitKind::Style(m), UnitKind::Style(n)) => m == n,
        _ => false,
    }
}

fn same_unit(unit: &Unit, other: &Unit) -> bool
    ensures { result ≡ same_unit unit.now other.now }
{
    sameness_law();
    same_kind(unit.kind, other.kind) && unit.tagged.tree.same(&other.tagged.tree)
}

// The trace of the old unit of this number, where it has the kind and the tree of the new one.
fn trace_of_same(old: &[CachedUnit], number: usize, unit: &Unit) -> Result<UnitTrace, Memory>
    ensures { IfOk result
        (λ t. t ≡ option_and_then (trace_if_same unit.now) (slice_get old.now number)) }
{
    let Some(other) = old.get(number) else {
        return Ok(UnitTrace::none());
    };
    if same_unit(&other.unit, unit) {
        return other.trace.share();
    }
    Ok(UnitTrace::none())
}

// ---- paragraphs of the body

// Adds the trace of the unit at its path, if it has one.
fn add_whole(
    alloc: Global,
    unit: &CachedUnit,
    whole: &mut Vec<Entry<UnitTrace>>,
) -> Result<(), Memory>
    ensures { OnOk result (whole.new.items ≡ whole.old.items ++ whole_of (unit.now ∷ [])) }
{
    if let Some(path) = &unit.unit.path {
        whole.push(Entry {
            path: path.copy(alloc)?,
            value: unit.trace.share()?,
        })?;
    }
    Ok(())
}

// The traces of the paragraphs at their paths.
fn whole_traces(alloc: Global, units: &[CachedUnit]) -> Result<PathMap<UnitTrace>, Memory>
    requires { AreUnits (units_of units.now) }
    ensures { IfOk result (λ m. m ≡ whole_of units.now) }
{
    let mut whole = Vec::new(alloc);
    for unit in units {
        add_whole(alloc, unit, &mut whole)?;
    }
    Ok(PathMap::new(whole))
}

// The trace at the path. The hint is the number at which it mostly is.
fn trace_at(whole: &PathMap<UnitTrace>, path: &Path, hint: usize) -> Result<UnitTrace, Memory>
    ensures { IfOk result (λ t. t ≡ trace_at whole.now path.now) }
{
    let Some(number) = whole.find(path, hint) else {
        return Ok(UnitTrace::none());
    };
    let entry = &whole.entries()[number];
    let trace = entry.value.share()?;
    Ok(trace)
}

// ---- all units

// The trace for the new unit of this number.
fn trace_for(
    whole: &PathMap<UnitTrace>,
    old: &[CachedUnit],
    number: usize,
    unit: &Unit,
    hint: usize,
) -> Result<UnitTrace, Memory>
    ensures { IfOk result (λ t. t ≡ trace_for whole.now old.now number unit.now) }
{
    match &unit.path {
        None => trace_of_same(old, number, unit),
        Some(path) => trace_at(whole, path, hint),
    }
}

// The new units, each with the trace for it.
fn take_traces(
    alloc: Global,
    whole: &PathMap<UnitTrace>,
    old: &[CachedUnit],
    units: Vec<Unit>,
) -> Result<Vec<CachedUnit>, Memory>
    ensures { IfOk result (λ v. v.items ≡ taken_from whole.now old.now 0 units.items) }
{
    let mut taken = Vec::with_capacity(alloc, units.len())?;
    let mut hint = 0;
    for unit in units {
        let trace = trace_for(whole, old, taken.len(), &unit, hint)?;
        if unit.path.is_some() {
            hint += 1;
        }
        taken.push(CachedUnit { unit, trace })?;
    }
    Ok(taken)
}

/// The units after an edit of the document, each with the trace of the old unit that it is. A paragraph of the body is
/// the old one from whose path the modifications lead to its path. Another unit is the old one of its number, where
/// kind and tree are the same. `trees` are those before each modification.
pub fn carry_units(
    alloc: Global,
    before: &Tree,
    mods: &[Mod],
    trees: &[Tree],
    old: &[CachedUnit],
    units: Vec<Unit>,
) -> Result<Vec<CachedUnit>, Memory>
    requires applies { (u : WideTree) × (changed_by_all mods.now before.now ≡ Some u) }
    requires trees { trees.now ≡ trees_before mods.now before.now }
    requires old { AreUnits (units_of old.now) }
    requires stand { AllStand before.now (units_of old.now) }
    ensures { IfOk result (λ v. v.items ≡ carried_units mods.now before.now old.now units.items) }
{
    let mut whole = whole_traces(alloc, old)?;
    whole.carry_along(alloc, before, mods, trees)?;
    let taken = take_traces(alloc, &whole, old, units)?;
    Ok(taken)
}

/// The units after an edit of another buffer than the document, each with the trace of the old unit that it is. Each
/// paragraph of the body is at the path at which it was.
pub fn keep_units(
    alloc: Global,
    old: &[CachedUnit],
    units: Vec<Unit>,
) -> Result<Vec<CachedUnit>, Memory>
    requires old { AreUnits (units_of old.now) }
    ensures { (t : WideTree) → IfOk result (λ v. v.items ≡ carried_units [] t old.now units.items) }
{
    let whole = whole_traces(alloc, old)?;
    let taken = take_traces(alloc, &whole, old, units)?;
    Ok(taken)
}
