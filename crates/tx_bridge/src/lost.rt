// Places that modifications carry nowhere, as is seen from their paths.
ghost use Rattle.std.specs.Prelude.{◌≡◌, ◌≤◌, ◌+◌, map, IfOk, IsTrue, None, Some};
ghost use Rattle.tx_tree.specs.WideTree.{WideTree};
ghost use Rattle.tx_mod.specs.Followed.{changed_by_all};
ghost use Rattle.tx_mod.specs.InTurn.{cost_of};
ghost use Rattle.tx_bridge.specs.Carrying.{through, AllLead};

use crate::in_place::{are_within, is_gone};
use crate::paths_after::places_after;
use std::alloc::Global;
use std::sync::ledger::Ledger;
use tx_base::{Memory, Steps};
use tx_mod::Mod;
use tx_tree::{Path, Tree};

// Whether the place is None, or is lost: all modifications are inside it, and the first one carries it nowhere. False
// says nothing.
fn is_lost(mods: &[Mod], place: &Option<Path>) -> bool
    ensures { IsTrue result → (t : WideTree) → through mods.now t place.now ≡ None }
{
    match place {
        None => true,
        Some(path) => is_gone(path, mods) && are_within(path, mods),
    }
}

// Whether all places are None or lost. False says nothing.
fn are_lost(mods: &[Mod], places: &[Option<Path>]) -> bool
    ensures { IsTrue result → (t : WideTree) → map (through mods.now t) places.now ≡ map (λ q. None) places.now }
{
    for place in places {
        if !is_lost(mods, place) {
            return false;
        }
    }
    true
}

// Makes all places None.
fn lose(places: &mut [Option<Path>])
    ensures { places.new ≡ map (λ q. None) places.old }
{
    for i in 0..places.len() {
        places[i] = None;
    }
}

/// Returns what `places_after` does. Where all places are lost, as after a keystroke, nothing is applied.
pub(crate) fn places_left<L: Ledger>(
    alloc: Global,
    before: &Tree,
    mods: &[Mod],
    places: Vec<Option<Path>>,
    steps: &mut Steps<L>,
) -> Result<Vec<Option<Path>>, Memory>
    requires applies { (u : WideTree) × (changed_by_all mods.now before.now ≡ Some u) }
    requires lead { AllLead before.now places.items }
    ensures ok { IfOk result (λ v. v.items ≡ map (through mods.now before.now) places.items) }
    ensures counted { steps.new ≤ steps.old + cost_of mods.now }
{
    if !are_lost(mods, &places) {
        return places_after(alloc, before, mods, places, steps);
    }
    let mut lost = places;
    lose(&mut lost);
    Ok(lost)
}
