// What is cached of an old unit is given to the new one that it is.
ghost use Rattle.std.specs.Prelude.{◌≡◌, ℕ, ◌<◌, ◌≤◌, None, Some, length, IfSome, IsTrue};
ghost use Rattle.tx_bridge.specs.Carrying.{same_kind, same_unit, is_path};
ghost use Rattle.tx_bridge.specs.Slots.{IsSlot, IsPathSlot, AreMoved, HaveOwnPaths, AllPlaced, given_from, given_all};
ghost use Rattle.tx_bridge.specs.Slots.{last_number, IsInOrder, HasOrder};
ghost use Rattle.tx_bridge.specs.UnitLists.{HasPathIfBody};

use crate::bridge::Bridge;
use tx_tree::Path;
use tx_units::{Unit, UnitKind};
use tx_walk::same_trees;

fn same_kind(one: UnitKind, other: UnitKind) -> bool
    ensures { result ≡ same_kind one other }
{
    match (one, other) {
        (UnitKind::Base, UnitKind::Base)
        | (UnitKind::Absent, UnitKind::Absent)
        | (UnitKind::Initial, UnitKind::Initial)
        | (UnitKind::Body, UnitKind::Body) => true,
        (UnitKind::Style(m), UnitKind::Style(n)) => m == n,
        _ => false,
    }
}

fn same_unit(unit: &Unit, other: &Unit) -> bool
    ensures { result ≡ same_unit unit.now other.now }
{
    same_kind(unit.kind, other.kind) && same_trees(&unit.tagged.tree, &other.tagged.tree)
}

// The unit has this path.
pub(crate) fn has_path(unit: &Unit, path: &Path) -> bool
    ensures { result ≡ is_path path.now unit.now.path }
{
    match &unit.path {
        None => false,
        Some(own) => own.steps() == path.steps(),
    }
}

// The number of the new unit with this path, by going through all.
fn searched_slot(new: &[Bridge], path: &Path) -> Option<usize>
    requires apart { HaveOwnPaths new.now }
    ensures slot { IsPathSlot path.now new.now result }
    ensures within { IfSome result (λ j. j < length new.now) }
{
    for i in 0..new.len() {
        if has_path(&new[i].unit, path) {
            return Some(i);
        }
    }
    None
}

fn last_number(path: &Path) -> Option<u32>
    ensures { result ≡ last_number path.now }
{
    let steps = path.steps();
    if steps.is_empty() {
        return None;
    }
    Some(steps[steps.len() - 1])
}

pub(crate) fn is_in_order(unit: &Unit, i: usize, first: usize) -> bool
    ensures { IsTrue result → IsInOrder first i unit.now }
{
    match &unit.path {
        None => true,
        Some(path) => match last_number(path) {
            None => false,
            Some(n) => first <= i && n as usize == i - first,
        },
    }
}

// The number of the first unit with a path.
pub(crate) fn first_body(new: &[Bridge]) -> usize
    ensures { result ≤ length new.now }
{
    for i in 0..new.len() {
        if new[i].unit.path.is_some() {
            return i;
        }
    }
    new.len()
}

// The number of the first unit with a path, where each path's last number is how far its unit is after that one.
fn order_of(new: &[Bridge]) -> Option<usize>
    ensures { IfSome result (λ first. HasOrder first new.now) }
{
    let first = first_body(new);
    for i in 0..new.len() {
        if !is_in_order(&new[i].unit, i, first) {
            return None;
        }
    }
    Some(first)
}

// The number of the new unit with this path, by the path's last number.
fn ordered_slot(new: &[Bridge], path: &Path, first: usize) -> Option<usize>
    requires apart { HaveOwnPaths new.now }
    requires order { HasOrder first new.now }
    ensures slot { IsPathSlot path.now new.now result }
    ensures within { IfSome result (λ j. j < length new.now) }
{
    match last_number(path) {
        None => None,
        Some(n) => {
            let j = first + n as usize;
            match new.get(j) {
                None => None,
                Some(bridge) => {
                    if has_path(&bridge.unit, path) {
                        Some(j)
                    } else {
                        None
                    }
                }
            }
        }
    }
}

// The number of the new unit with this path. It mostly is the hint.
fn path_slot(new: &[Bridge], path: &Path, hint: usize, order: Option<usize>) -> Option<usize>
    requires apart { HaveOwnPaths new.now }
    requires order { IfSome order (λ first. HasOrder first new.now) }
    ensures slot { IsPathSlot path.now new.now result }
    ensures within { IfSome result (λ j. j < length new.now) }
{
    if let Some(bridge) = new.get(hint) {
        if has_path(&bridge.unit, path) {
            return Some(hint);
        }
    }
    match order {
        Some(first) => ordered_slot(new, path, first),
        None => searched_slot(new, path),
    }
}

// The number of the new unit without a path that is the old one, of number i.
fn same_slot(new: &[Bridge], i: usize, unit: &Unit) -> Option<usize>
    requires none { unit.now.path ≡ None }
    requires placed { HasPathIfBody unit.now }
    requires all { AllPlaced new.now }
    ensures slot { IsSlot None i unit.now new.now result }
    ensures within { IfSome result (λ j. j < length new.now) }
{
    match new.get(i) {
        None => None,
        Some(bridge) => {
            if same_unit(unit, &bridge.unit) {
                Some(i)
            } else {
                None
            }
        }
    }
}

// The number of the new unit that is the old one, which is at the place now.
fn slot_of(
    new: &[Bridge],
    place: &Option<Path>,
    i: usize,
    unit: &Unit,
    hint: usize,
    order: Option<usize>,
) -> Option<usize>
    requires apart { HaveOwnPaths new.now }
    requires order { IfSome order (λ first. HasOrder first new.now) }
    requires other { unit.now.path ≡ None → place.now ≡ None }
    requires placed { HasPathIfBody unit.now }
    requires all { AllPlaced new.now }
    ensures slot { IsSlot place.now i unit.now new.now result }
    ensures within { IfSome result (λ j. j < length new.now) }
{
    match place {
        Some(path) => path_slot(new, path, hint, order),
        None => {
            if unit.path.is_none() {
                same_slot(new, i, unit)
            } else {
                None
            }
        }
    }
}

// Gives what is cached of the old unit to the new one that it is. Returns the number that the next one is likely to
// have.
fn give(
    new: &mut [Bridge],
    place: &Option<Path>,
    i: usize,
    old: &mut Bridge,
    hint: usize,
    order: Option<usize>,
) -> usize
    requires apart { HaveOwnPaths new.old }
    requires order { IfSome order (λ first. HasOrder first new.old) }
    requires other { old.old.unit.path ≡ None → place.now ≡ None }
    requires placed { HasPathIfBody old.old.unit }
    requires all { AllPlaced new.old }
    ensures given { new.new ≡ given_from place.now i old.old 0 new.old }
{
    match slot_of(new, place, i, &old.unit, hint, order) {
        None => hint,
        Some(j) => {
            new[j].take(old, i);
            j + 1
        }
    }
}

// Gives what is cached of all old units, which are at these places now. It takes no memory.
pub(crate) fn give_all(new: &mut [Bridge], places: &[Option<Path>], old: &mut [Bridge])
    requires apart { HaveOwnPaths new.old }
    requires number { length places.now ≡ length old.old }
    requires others { AreMoved places.now old.old }
    requires placed { AllPlaced old.old }
    requires all { AllPlaced new.old }
    ensures { new.new ≡ given_all 0 places.now old.old new.old }
{
    let order = order_of(new);
    let mut hint = 0;
    for i in 0..old.len() {
        hint = give(new, &places[i], i, &mut old[i], hint, order);
    }
}
