// An edit inside one paragraph changes one unit. Each other one keeps its number and its path.
ghost use Rattle.std.specs.Prelude.{◌≡◌, ◌<◌, ◌≤◌, ◌+◌, ◌++◌, [], ◌∷◌, length, Some, true};
ghost use Rattle.std.specs.Prelude.{IfOk, IsOk, IsTrue, OnOk, MatchOption, if◌then◌else◌};
ghost use Rattle.std.specs.Prelude.{slice_get};
ghost use Rattle.std.specs.List.{list_all, All, AllByRecursion};
ghost use Rattle.tx_tree.specs.WideTree.{WideTree};
ghost use Rattle.tx_tree.specs.Paths.{subtree};
ghost use Rattle.tx_mod.specs.InTurn.{cost_of};
ghost use Rattle.tx_mod.specs.Followed.{changed_by_all};
ghost use Rattle.tx_exec.specs.Outcomes.{wide_outcome};
ghost use Rattle.tx_units.specs.declared.kinds.Unit.{Unit as DocUnit};
ghost use Rattle.tx_mod.specs.Mods.{path_of};
ghost use Rattle.tx_bridge.specs.Settled.{IsSilent};
ghost use Rattle.tx_bridge.specs.Sound.{IsSoundBridge, changed_in};
ghost use Rattle.tx_bridge.specs.HeldParts.{HoldsPart, kept_parts};
ghost use Rattle.tx_bridge.specs.Carrying.{AllStand};
ghost use Rattle.tx_bridge.specs.MovedParts.{AreMovedParts};
ghost use Rattle.tx_bridge.specs.Slots.{bodies_of};
ghost use Rattle.tx_bridge.specs.InPlace.{wraps, begins_path, leaves_nowhere, is_gone, are_within, is_changed};
ghost use Rattle.tx_bridge.specs.InPlace.{IsOneChanged};
ghost use Rattle.tx_bridge.specs.InPlace.{NoneChanged};
ghost use Rattle.tx_bridge.specs.Keeping.{all_keep_place};
ghost use Rattle.tx_bridge.specs.Others.{others_from, put_from, done_parts_of};
ghost use Rattle.tx_bridge.specs.Slots.{AllUnchanged, IsChangedAt};

use crate::bridge::Bridge;
use crate::giving::first_body;
use crate::keeping::all_keep_place;
use crate::lost::places_left;
use crate::within::{others_at, paths_of_parts};
use std::alloc::Global;
use std::sync::ledger::Ledger;
use tx_base::{Memory, Steps};
use tx_mod::Mod;
use tx_tree::{Path, Tree};
use tx_units::Unit;
use tx_walk::Part;

// Whether the modification puts a subtree into a node.
fn wraps(m: &Mod) -> bool
    ensures { result ≡ wraps m.now }
{
    match m {
        Mod::InsertNode(_, _, _) => true,
        _ => false,
    }
}

// Whether the path begins with the front.
fn begins(front: &Path, path: &Path) -> bool
    ensures { result ≡ begins_path front.now path.now }
{
    path.steps().starts_with(front.steps())
}

// Whether the modification, if it is inside the subtree at the path, carries that subtree nowhere.
fn leaves_nowhere(path: &Path, m: &Mod) -> bool
    ensures { result ≡ leaves_nowhere path.now m.now }
{
    !wraps(m) || path.steps().len() < m.path().steps().len()
}

// Whether there is a first modification, and, if it is inside the subtree at the path, it carries that nowhere.
pub(crate) fn is_gone(path: &Path, mods: &[Mod]) -> bool
    ensures { result ≡ is_gone path.now mods.now }
{
    match mods.get(0) {
        None => false,
        Some(m) => leaves_nowhere(path, m),
    }
}

// Whether all modifications are inside the subtree at the path.
pub(crate) fn are_within(path: &Path, mods: &[Mod]) -> bool
    ensures { result ≡ list_all (λ m. begins_path path.now (path_of m)) mods.now }
{
    mods.iter().all(|m| begins(path, m.path()))
}

// Whether all modifications are inside the unit's tree, and carry it nowhere.
fn is_changed(mods: &[Mod], unit: &Unit) -> bool
    ensures { result ≡ is_changed mods.now unit.now }
{
    match &unit.path {
        None => false,
        Some(path) => is_gone(path, mods) && are_within(path, mods),
    }
}

// The likely number of the unit at a front of the path: the number that it has where paragraphs are in order.
fn likely(bridges: &[Bridge], path: &Path) -> usize {
    let first = first_body(bridges);
    let Some(bridge) = bridges.get(first) else {
        return first;
    };
    let Some(own) = &bridge.unit.path else {
        return first;
    };
    let depth = own.steps().len();
    let steps = path.steps();
    if depth == 0 || steps.len() < depth {
        return first;
    }
    first + steps[depth - 1] as usize
}

// The number of the unit that all modifications are inside of, by going through all.
fn searched_unit(bridges: &[Bridge], mods: &[Mod]) -> Option<usize>
    ensures { MatchOption result (AllUnchanged mods.now bridges.now) (λ i. IsChangedAt mods.now bridges.now i) }
{
    for i in 0..bridges.len() {
        if is_changed(mods, &bridges[i].unit) {
            return Some(i);
        }
    }
    None
}

// The number of the unit that all modifications are inside of.
fn changed_unit(bridges: &[Bridge], mods: &[Mod]) -> Option<usize>
    ensures { MatchOption result (AllUnchanged mods.now bridges.now) (λ i. IsChangedAt mods.now bridges.now i) }
{
    if let Some(m) = mods.get(0) {
        let i = likely(bridges, m.path());
        if let Some(bridge) = bridges.get(i) {
            if is_changed(mods, &bridge.unit) {
                return Some(i);
            }
        }
    }
    searched_unit(bridges, mods)
}

// The number of the one unit that an edit of a buffer changes.
pub(crate) fn one_changed(buffer: u32, bridges: &[Bridge], mods: &[Mod]) -> Option<usize>
    ensures { MatchOption result (NoneChanged buffer mods.now (bodies_of bridges.now))
        (λ i. IsOneChanged i buffer mods.now (bodies_of bridges.now)) }
{
    if buffer != 0 {
        return None;
    }
    changed_unit(bridges, mods)
}

// Adds the number, if the part isn't found to keep its place.
fn add_if_other(
    mods: &[Mod],
    path: &Path,
    part: &Part,
    number: usize,
    numbers: &mut Vec<usize>,
) -> Result<(), Memory>
    requires within { are_within path.now mods.now ≡ true }
    ensures { OnOk result (numbers.new.items ≡ numbers.old.items
        ++ (if all_keep_place mods.now (path.now ++ part.now.path) then [] else number ∷ [])) }
{
    if !all_keep_place(mods, path, &part.path) {
        numbers.push(number)?;
    }
    Ok(())
}

// The numbers of the parts of the unit at this path that aren't found to keep their places.
fn others_of(alloc: Global, mods: &[Mod], path: &Path, parts: &[Part]) -> Result<Vec<usize>, Memory>
    requires within { are_within path.now mods.now ≡ true }
    ensures { IfOk result (λ v. v.items ≡ others_from mods.now path.now 0 parts.now) }
{
    let mut numbers = Vec::new(alloc);
    for i in 0..parts.len() {
        add_if_other(mods, path, &parts[i], i, &mut numbers)?;
    }
    Ok(numbers)
}

// What replaces the parts of the unit at this path that aren't found to keep their places: each with its new path, and
// None for one that isn't in the unit any more.
fn others_behind<L: Ledger>(
    alloc: Global,
    before: &Tree,
    mods: &[Mod],
    path: &Path,
    parts: &[Part],
    steps: &mut Steps<L>,
) -> Result<Vec<(usize, Option<Part>)>, Memory>
    requires applies { (u : WideTree) × (changed_by_all mods.now before.now ≡ Some u) }
    requires within { are_within path.now mods.now ≡ true }
    requires stands { (x : WideTree) × (subtree before.now path.now ≡ Some x)
        × AllByRecursion (HoldsPart x) parts.now }
    ensures moved { IfOk result (λ os. (u : DocUnit) → u.path ≡ Some path.now
        → AreMovedParts mods.now before.now u (kept_parts parts.now) os.items) }
    ensures counted { steps.new ≤ steps.old + cost_of mods.now }
{
    let numbers = others_of(alloc, mods, path, parts)?;
    if numbers.is_empty() {
        return Ok(Vec::new(alloc));
    }
    let paths = paths_of_parts(alloc, path, parts, &numbers)?;
    let places = places_left(alloc, before, mods, paths, steps)?;
    others_at(alloc, path, &places, parts, &numbers)
}

// What replaces parts of the unit of this number, inside which all modifications are. Each other part keeps its path.
pub(crate) fn others_of_changed<L: Ledger>(
    alloc: Global,
    before: &Tree,
    mods: &[Mod],
    bridges: &[Bridge],
    changed: usize,
    steps: &mut Steps<L>,
) -> Result<Vec<(usize, Option<Part>)>, Memory>
    requires applies { (u : WideTree) × (changed_by_all mods.now before.now ≡ Some u) }
    requires there { changed < length bridges.now }
    requires changed { IsOneChanged changed 0 mods.now (bodies_of bridges.now) }
    requires stand { AllStand before.now (bodies_of bridges.now) }
    requires sound { All IsSoundBridge bridges.now }
    ensures moved { IfOk result (λ os. (b : Bridge) → slice_get bridges.now changed ≡ Some b
        → AreMovedParts mods.now before.now b.unit (kept_parts b.parts) os.items) }
    ensures counted { steps.new ≤ steps.old + cost_of mods.now }
{
    let bridge = &bridges[changed];
    match &bridge.unit.path {
        None => unreachable!(),
        Some(path) => others_behind(alloc, before, mods, path, bridge.parts.all(), steps),
    }
}

// Gives the unit of this number this tree, and puts these in place of parts of it. Returns whether what was cached sets
// no name.
pub(crate) fn change_one(
    bridges: &mut [Bridge],
    tree: Tree,
    others: Vec<(usize, Option<Part>)>,
    changed: usize,
) -> bool
    requires { changed < length bridges.old }
    ensures changed { bridges.new
        ≡ changed_in changed tree (put_from 0 others.items (done_parts_of changed bridges.old)) bridges.old }
    ensures silent { IsTrue result → (b : Bridge) → slice_get bridges.old changed ≡ Some b
        → IsSilent (wide_outcome b.kept) }
{
    bridges[changed].change(tree, others)
}
