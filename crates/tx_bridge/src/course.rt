// Where units are after an edit, and the parts of those that are no new ones.
ghost use Rattle.std.specs.Prelude.{◌≡◌, ℕ, ◌≤◌, ◌+◌, ◌++◌, List, [], ◌∷◌, length, map, IfOk, IsOk, OnOk, Ok, Some};
ghost use Rattle.std.specs.Prelude.{◌<◌, None, IfSome, IsTrue, MatchOption, is_some};
ghost use Rattle.std.specs.List.{All, AllByRecursion, cons_option};
ghost use Rattle.tx_tree.specs.Paths.{subtree};
ghost use Rattle.tx_tree.specs.WideTree.{WideTree};
ghost use Rattle.tx_mod.specs.Mods.{path_of};
ghost use Rattle.tx_mod.specs.Changes.{changed};
ghost use Rattle.tx_mod.specs.Followed.{changed_by_all, carried_by_all};
ghost use Rattle.tx_mod.specs.InTurn.{cost_of};
ghost use Rattle.tx_exec_form.specs.Laws.{Supports};
ghost use Rattle.tx_exec.specs.Outcomes.{wide_trace};
ghost use Rattle.tx_parts.specs.Composed.{alone};
ghost use Rattle.tx_units.specs.Places.{NoneBegins};
ghost use Rattle.tx_walk.specs.Walked.{IsTidy};
ghost use Rattle.tx_bridge.specs.Carrying.{AllStand, Leads, Stands, mods_of, through};
ghost use Rattle.tx_bridge.specs.Courses.{trees_before, IsPassage, IsUnitAbove, AreAligned, HasTree, MayFollow};
ghost use Rattle.tx_bridge.specs.HeldParts.{HoldsPart, kept_part, kept_parts};
ghost use Rattle.tx_bridge.specs.PartMoves.{NoneAbove, rest_in, is_vacant, unit_above, move_from, move_of, moves_below};
ghost use Rattle.tx_bridge.specs.PartMoves.{unit_moves, moves_from, move_aside, moves_aside, part_moves, AreMoves};
ghost use Rattle.tx_bridge.specs.PartMoves.{is_outside, seen_move};
ghost use Rattle.tx_bridge.specs.Slots.{bodies_of, paths_in};
ghost use Rattle.tx_bridge.specs.Sound.{IsSoundBridge, stored_parts_in};
ghost use Rattle.tx_bridge.specs.Strays.{Stray as WideStray, HoldsStray, StandAside, AreTidy, kept_strays, stray_of};
ghost use Rattle.tx_bridge.specs.Strays.{strays_in};

use crate::bridge::Bridge;
use crate::giving::{has_path, is_in_order};
use crate::paths_after::tree_behind;
use crate::strays::Stray;
use crate::within::rest_of;
use std::alloc::Global;
use std::mem;
use std::sync::ledger::Ledger;
use tx_base::{Memory, Steps};
use tx_mod::{Mod, carried, carried_law, carried_list_law};
use tx_origin::Base;
use tx_tree::{Path, Tree};
use tx_units::Unit;
use tx_walk::Part;

/// A part of an old unit that is none of the new ones, or a stray. It is somewhere in the document afterwards.
#[derive(Drop)]
pub struct PartMove {
    /// The number of the old unit. For a stray it is the number of old units.
    pub from: usize,
    /// The part's number in it, or the stray's among the strays.
    pub number: usize,
    /// The number of the new unit. For a part that is in none it is the number of new units.
    pub to: usize,
    /// The part, with its path from the new unit's tree. For a part that is in none, this is its path in the document.
    pub part: Part,
    // The tree at its place.
    pub(crate) tree: Tree,
}

/// What goes where through an edit.
#[derive(Drop)]
pub struct Course {
    /// Where each old unit is afterwards. None is for one without a path, and for one whose tree isn't carried.
    pub places: Vec<Option<Path>>,
    /// The parts of old units that are no new ones, in order, and then the strays.
    pub moves: Vec<PartMove>,
}

// Applies the modification, and keeps the tree before it.
fn pass<L: Ledger>(
    alloc: Global,
    tree: &mut Tree,
    m: &Mod,
    trees: &mut Vec<Tree>,
    steps: &mut Steps<L>,
) -> Result<(), Memory>
    requires { IsOk (changed m.now tree.old) }
    ensures tree { OnOk result (changed m.now tree.old ≡ Ok tree.new) }
    ensures trees { OnOk result (trees.new.items ≡ trees.old.items ++ tree.old ∷ []) }
    ensures counted { steps.new ≤ steps.old + (length (path_of m.now) + 3) }
{
    let next = tree_behind(alloc, tree, m, steps)?;
    trees.push(mem::replace(tree, next))?;
    Ok(())
}

// The tree before each modification.
fn trees_before<L: Ledger>(
    alloc: Global,
    before: &Tree,
    mods: &[Mod],
    steps: &mut Steps<L>,
) -> Result<Vec<Tree>, Memory>
    requires { (u : WideTree) × (changed_by_all mods.now before.now ≡ Some u) }
    ensures trees { IfOk result (λ v. v.items ≡ trees_before mods.now before.now) }
    ensures counted { steps.new ≤ steps.old + cost_of mods.now }
{
    let mut trees = Vec::with_capacity(alloc, mods.len())?;
    let mut tree = before.share()?;
    for m in mods {
        pass(alloc, &mut tree, m, &mut trees, steps)?;
    }
    Ok(trees)
}

// Where the subtree at the path is after all modifications, by the trees before each.
fn place_along(
    alloc: Global,
    mods: &[Mod],
    trees: &[Tree],
    path: Path,
) -> Result<Option<Path>, Memory>
    requires { (t : WideTree) × IsPassage mods.now t trees.now × Leads t (Some path) }
    ensures { IfOk result (λ o. (t : WideTree) → IsPassage mods.now t trees.now → Leads t (Some path)
        → o ≡ carried_by_all mods.now t path) }
{
    carried_law();
    let mut path = path;
    for i in 0..mods.len() {
        let m = &mods[i];
        match carried(alloc, &trees[i], m, &path)? {
            None => return Ok(None),
            Some(place) => path = place,
        }
    }
    Ok(Some(path))
}

// Where the unit is after all modifications.
fn unit_place(
    alloc: Global,
    mods: &[Mod],
    trees: &[Tree],
    unit: &Unit,
) -> Result<Option<Path>, Memory>
    requires { (t : WideTree) × IsPassage mods.now t trees.now × Leads t unit.now.path }
    ensures { IfOk result (λ o. (t : WideTree) → IsPassage mods.now t trees.now → Leads t unit.now.path
        → o ≡ through mods.now t unit.now.path) }
{
    match &unit.path {
        None => Ok(None),
        Some(path) => place_along(alloc, mods, trees, path.copy(alloc)?),
    }
}

// Where each unit is after all modifications.
fn unit_places(
    alloc: Global,
    mods: &[Mod],
    trees: &[Tree],
    bridges: &[Bridge],
) -> Result<Vec<Option<Path>>, Memory>
    requires { (t : WideTree) × IsPassage mods.now t trees.now × AllStand t (bodies_of bridges.now) }
    ensures { IfOk result (λ v. (t : WideTree) → IsPassage mods.now t trees.now → AllStand t (bodies_of bridges.now)
        → v.items ≡ map (through mods.now t) (paths_in bridges.now)) }
{
    let mut places = Vec::with_capacity(alloc, bridges.len())?;
    for bridge in bridges {
        places.push(unit_place(alloc, mods, trees, &bridge.unit)?)?;
    }
    Ok(places)
}

// The place is the unit's, or below it.
fn is_above(unit: &Unit, place: &Path) -> bool
    ensures { result ≡ is_some (rest_in unit.now place.now) }
{
    match &unit.path {
        None => false,
        Some(path) => place.steps().starts_with(path.steps()),
    }
}

// How the numbers of units are found by their paths. Each path has so many numbers, and the last one says how far its
// unit is after the first one with a path.
#[derive(Clone, Copy, Drop)]
pub(crate) struct Order {
    first: usize,
    depth: usize,
}

// The order that the first unit with a path has.
fn likely_order(units: &[Unit]) -> Order
    ensures { result.first ≤ length units.now }
{
    for i in 0..units.len() {
        if let Some(path) = &units[i].path {
            return Order {
                first: i,
                depth: path.steps().len(),
            };
        }
    }
    Order {
        first: units.len(),
        depth: 0,
    }
}

fn has_depth(unit: &Unit, depth: usize) -> bool
    ensures { IsTrue result → (p : List ℕ) → unit.now.path ≡ Some p → length p ≡ depth }
{
    match &unit.path {
        None => true,
        Some(path) => path.steps().len() == depth,
    }
}

// The order of the units, if they have one.
fn order_of(units: &[Unit]) -> Option<Order>
    ensures { IfSome result (λ o. AreAligned o.first o.depth units.now) }
{
    let order = likely_order(units);
    for i in 0..units.len() {
        let unit = &units[i];
        if !is_in_order(unit, i, order.first) || !has_depth(unit, order.depth) {
            return None;
        }
    }
    Some(order)
}

// The number of a unit at the place or above it, by the place's number at the depth of the units' paths.
fn ordered_above(units: &[Unit], place: &Path, order: Order) -> Option<usize>
    requires { AreAligned order.first order.depth units.now }
    ensures unit_above { MatchOption result (NoneAbove place.now units.now) (λ j. IsUnitAbove place.now units.now j) }
    ensures within { IfSome result (λ j. j < length units.now) }
{
    let steps = place.steps();
    if order.depth == 0 || steps.len() < order.depth {
        return None;
    }
    let j = order.first + steps[order.depth - 1] as usize;
    match units.get(j) {
        None => None,
        Some(unit) => { if is_above(unit, place) { Some(j) } else { None } }
    }
}

// The number of a unit at the place or above it, by going through all.
fn searched_above(units: &[Unit], place: &Path) -> Option<usize>
    ensures unit_above { MatchOption result (NoneAbove place.now units.now) (λ j. IsUnitAbove place.now units.now j) }
    ensures within { IfSome result (λ j. j < length units.now) }
{
    for i in 0..units.len() {
        if is_above(&units[i], place) {
            return Some(i);
        }
    }
    None
}

// The number of a unit at the place or above it. It mostly is the hint.
fn number_above(units: &[Unit], order: Option<Order>, place: &Path, hint: usize) -> Option<usize>
    requires order { IfSome order (λ o. AreAligned o.first o.depth units.now) }
    ensures unit_above { MatchOption result (NoneAbove place.now units.now) (λ j. IsUnitAbove place.now units.now j) }
    ensures within { IfSome result (λ j. j < length units.now) }
{
    if let Some(unit) = units.get(hint) {
        if is_above(unit, place) {
            return Some(hint);
        }
    }
    match order {
        Some(order) => ordered_above(units, place, order),
        None => searched_above(units, place),
    }
}

// Whether no unit is at the place, and the number of the unit that is likely to be at the next one.
fn is_vacant(
    place: &Option<Path>,
    units: &[Unit],
    order: Option<Order>,
    hint: usize,
) -> (bool, usize)
    requires apart { NoneBegins units.now }
    requires order { IfSome order (λ o. AreAligned o.first o.depth units.now) }
    ensures { result.0 ≡ is_vacant place.now units.now }
{
    let Some(place) = place else {
        return (true, hint);
    };
    match number_above(units, order, place, hint) {
        None => (true, hint),
        Some(j) => (!has_path(&units[j], place), j + 1),
    }
}

// The number of the unit at the place or above it, and the rest of the place. Where there is none, it is the number of
// units, and the whole place.
fn unit_above(
    alloc: Global,
    units: &[Unit],
    order: Option<Order>,
    place: Path,
    hint: usize,
) -> Result<(usize, Path), Memory>
    requires apart { NoneBegins units.now }
    requires order { IfSome order (λ o. AreAligned o.first o.depth units.now) }
    ensures { IfOk result (λ x. x ≡ unit_above 0 units.now place) }
{
    let Some(j) = number_above(units, order, &place, hint) else {
        return Ok((units.len(), place));
    };
    let Some(path) = &units[j].path else {
        return Ok((j, place));
    };
    match rest_of(alloc, path, &place)? {
        None => Ok((j, place)),
        Some(rest) => Ok((j, rest)),
    }
}

// The number of the unit in which the next part is likely to be: that of the last part's unit, if there is one.
fn next_hint(to: usize, number: usize, hint: usize) -> usize {
    if to < number { to } else { hint }
}

// Adds the part of number k of the old unit i, or the stray of this number, which was at the path with this tree, if it
// is anywhere afterwards. Returns the number of the unit in which the next one is likely to be.
fn add_move(
    alloc: Global,
    mods: &[Mod],
    trees: &[Tree],
    units: &[Unit],
    order: Option<Order>,
    i: usize,
    k: usize,
    path: Path,
    part: &Part,
    tree: &Tree,
    hint: usize,
    moves: &mut Vec<PartMove>,
) -> Result<usize, Memory>
    requires apart { NoneBegins units.now }
    requires order { IfSome order (λ o. AreAligned o.first o.depth units.now) }
    requires passage { (t : WideTree) × IsPassage mods.now t trees.now × (subtree t path ≡ Some tree.now) }
    requires supports { Supports (wide_trace part.now.trace) (alone tree.now) }
    requires tidy { IsTidy part.now }
    ensures moves { OnOk result ((t : WideTree) → IsPassage mods.now t trees.now → subtree t path ≡ Some tree.now
        → map seen_move moves.new.items ≡ map seen_move moves.old.items
        ++ cons_option (move_from mods.now t units.now i k path (kept_part part.now)) []) }
    ensures tidy { OnOk result
        (All (λ m. IsTidy m.part) moves.old.items → All (λ m. IsTidy m.part) moves.new.items) }
    ensures trees { OnOk result ((t : WideTree) → IsPassage mods.now t trees.now → subtree t path ≡ Some tree.now
        → All (HasTree (λ u. changed_by_all mods.now t ≡ Some u) (length units.now)) moves.old.items
        → All (HasTree (λ u. changed_by_all mods.now t ≡ Some u) (length units.now)) moves.new.items) }
{
    carried_list_law();
    let Some(place) = place_along(alloc, mods, trees, path)? else {
        return Ok(hint);
    };
    let (to, rest) = unit_above(alloc, units, order, place, hint)?;
    moves.push(PartMove {
        from: i,
        number: k,
        to,
        part: part.moved(alloc, rest)?,
        tree: tree.share()?,
    })?;
    Ok(next_hint(to, units.len(), hint))
}

// Adds the part of number k of the old unit i, if it is anywhere afterwards. The unit was at the path with this tree.
// Returns the number of the unit in which the next one is likely to be.
fn add_part(
    alloc: Global,
    mods: &[Mod],
    trees: &[Tree],
    units: &[Unit],
    order: Option<Order>,
    i: usize,
    path: &Path,
    tree: &Tree,
    k: usize,
    part: &Part,
    hint: usize,
    moves: &mut Vec<PartMove>,
) -> Result<usize, Memory>
    requires apart { NoneBegins units.now }
    requires order { IfSome order (λ o. AreAligned o.first o.depth units.now) }
    requires passage { (t : WideTree) × IsPassage mods.now t trees.now × (subtree t path.now ≡ Some tree.now) }
    requires holds { HoldsPart tree.now part.now }
    ensures moves { OnOk result ((t : WideTree) → IsPassage mods.now t trees.now → subtree t path.now ≡ Some tree.now
        → map seen_move moves.new.items ≡ map seen_move moves.old.items
        ++ cons_option (move_of mods.now t units.now i path.now k (kept_part part.now)) []) }
    ensures tidy { OnOk result
        (All (λ m. IsTidy m.part) moves.old.items → All (λ m. IsTidy m.part) moves.new.items) }
    ensures trees { OnOk result ((t : WideTree) → IsPassage mods.now t trees.now
        → subtree t path.now ≡ Some tree.now
        → All (HasTree (λ u. changed_by_all mods.now t ≡ Some u) (length units.now)) moves.old.items
        → All (HasTree (λ u. changed_by_all mods.now t ≡ Some u) (length units.now)) moves.new.items) }
{
    match tree.at(&part.path) {
        None => unreachable!(),
        Some(there) => {
            let whole = Base::joined(path, &part.path).path(alloc)?;
            add_move(
                alloc, mods, trees, units, order, i, k, whole, part, there, hint, moves,
            )
        }
    }
}

// Adds all parts of the old unit i that are anywhere afterwards. The unit was at the path with this tree.
fn add_moves(
    alloc: Global,
    mods: &[Mod],
    trees: &[Tree],
    units: &[Unit],
    order: Option<Order>,
    i: usize,
    path: &Path,
    tree: &Tree,
    parts: &[Part],
    hint: usize,
    moves: &mut Vec<PartMove>,
) -> Result<(), Memory>
    requires apart { NoneBegins units.now }
    requires order { IfSome order (λ o. AreAligned o.first o.depth units.now) }
    requires passage { (t : WideTree) × IsPassage mods.now t trees.now × (subtree t path.now ≡ Some tree.now) }
    requires hold { AllByRecursion (HoldsPart tree.now) parts.now }
    ensures moves { OnOk result ((t : WideTree) → IsPassage mods.now t trees.now → subtree t path.now ≡ Some tree.now
        → map seen_move moves.new.items
        ≡ map seen_move moves.old.items ++ moves_below mods.now t units.now i path.now 0 (kept_parts parts.now)) }
    ensures tidy { OnOk result
        (All (λ m. IsTidy m.part) moves.old.items → All (λ m. IsTidy m.part) moves.new.items) }
    ensures trees { OnOk result ((t : WideTree) → IsPassage mods.now t trees.now
        → subtree t path.now ≡ Some tree.now
        → All (HasTree (λ u. changed_by_all mods.now t ≡ Some u) (length units.now)) moves.old.items
        → All (HasTree (λ u. changed_by_all mods.now t ≡ Some u) (length units.now)) moves.new.items) }
{
    let mut hint = hint;
    for k in 0..parts.len() {
        hint = add_part(
            alloc, mods, trees, units, order, i, path, tree, k, &parts[k], hint, moves,
        )?;
    }
    Ok(())
}

// Adds the parts of the old unit i, which is at this place now, if it is no new one.
fn add_unit_moves(
    alloc: Global,
    mods: &[Mod],
    trees: &[Tree],
    units: &[Unit],
    order: Option<Order>,
    i: usize,
    bridge: &Bridge,
    place: &Option<Path>,
    hint: usize,
    moves: &mut Vec<PartMove>,
) -> Result<usize, Memory>
    requires apart { NoneBegins units.now }
    requires order { IfSome order (λ o. AreAligned o.first o.depth units.now) }
    requires passage { (t : WideTree) × IsPassage mods.now t trees.now × Stands t bridge.now.unit
        × (place.now ≡ through mods.now t bridge.now.unit.path) }
    requires sound { IsSoundBridge bridge.now }
    ensures moves { OnOk result ((t : WideTree) → IsPassage mods.now t trees.now → Stands t bridge.now.unit
        → place.now ≡ through mods.now t bridge.now.unit.path → map seen_move moves.new.items
        ≡ map seen_move moves.old.items
        ++ unit_moves mods.now t units.now i bridge.now.unit (kept_parts bridge.now.parts)) }
    ensures tidy { OnOk result
        (All (λ m. IsTidy m.part) moves.old.items → All (λ m. IsTidy m.part) moves.new.items) }
    ensures trees { OnOk result ((t : WideTree) → IsPassage mods.now t trees.now → Stands t bridge.now.unit
        → All (HasTree (λ u. changed_by_all mods.now t ≡ Some u) (length units.now)) moves.old.items
        → All (HasTree (λ u. changed_by_all mods.now t ≡ Some u) (length units.now)) moves.new.items) }
{
    let (vacant, next) = is_vacant(place, units, order, hint);
    if !vacant {
        return Ok(next);
    }
    let Some(path) = &bridge.unit.path else {
        return Ok(next);
    };
    add_moves(
        alloc,
        mods,
        trees,
        units,
        order,
        i,
        path,
        &bridge.unit.tagged.tree,
        bridge.parts.all(),
        next,
        moves,
    )?;
    Ok(next)
}

// The moves of the parts of all units, where the old units are at these places now.
fn moves_of(
    alloc: Global,
    mods: &[Mod],
    trees: &[Tree],
    bridges: &[Bridge],
    places: &[Option<Path>],
    units: &[Unit],
    order: Option<Order>,
) -> Result<Vec<PartMove>, Memory>
    requires apart { NoneBegins units.now }
    requires order { IfSome order (λ o. AreAligned o.first o.depth units.now) }
    requires passage { (t : WideTree) × IsPassage mods.now t trees.now × AllStand t (bodies_of bridges.now)
        × (places.now ≡ map (through mods.now t) (paths_in bridges.now)) }
    requires sound { All IsSoundBridge bridges.now }
    ensures moves { IfOk result (λ v. (t : WideTree) → IsPassage mods.now t trees.now
        → AllStand t (bodies_of bridges.now) → places.now ≡ map (through mods.now t) (paths_in bridges.now)
        → map seen_move v.items ≡ moves_from mods.now t units.now 0 (bodies_of bridges.now) (stored_parts_in
        bridges.now)) }
    ensures tidy { IfOk result (λ v. All (λ m. IsTidy m.part) v.items) }
    ensures trees { IfOk result (λ v. (t : WideTree) → IsPassage mods.now t trees.now
        → AllStand t (bodies_of bridges.now)
        → All (HasTree (λ u. changed_by_all mods.now t ≡ Some u) (length units.now)) v.items) }
{
    let mut moves = Vec::new(alloc);
    let mut hint = 0;
    for i in 0..bridges.len() {
        hint = add_unit_moves(
            alloc,
            mods,
            trees,
            units,
            order,
            i,
            &bridges[i],
            &places[i],
            hint,
            &mut moves,
        )?;
    }
    Ok(moves)
}

// Adds the moves of strays, after those of parts. They count as parts of the old unit i.
fn add_strays(
    alloc: Global,
    mods: &[Mod],
    trees: &[Tree],
    units: &[Unit],
    order: Option<Order>,
    i: usize,
    strays: &[Stray],
    moves: &mut Vec<PartMove>,
) -> Result<(), Memory>
    requires apart { NoneBegins units.now }
    requires order { IfSome order (λ o. AreAligned o.first o.depth units.now) }
    requires passage { (t : WideTree) × IsPassage mods.now t trees.now × StandAside t (strays_in strays.now) }
    requires hold { AllByRecursion HoldsStray (strays_in strays.now) }
    requires tidy { AreTidy strays.now }
    ensures moves { OnOk result ((t : WideTree) → IsPassage mods.now t trees.now
        → StandAside t (strays_in strays.now) → map seen_move moves.new.items ≡ map seen_move moves.old.items
        ++ moves_below mods.now t units.now i [] 0 (kept_strays (strays_in strays.now))) }
    ensures tidy { OnOk result
        (All (λ m. IsTidy m.part) moves.old.items → All (λ m. IsTidy m.part) moves.new.items) }
    ensures trees { OnOk result ((t : WideTree) → IsPassage mods.now t trees.now
        → StandAside t (strays_in strays.now)
        → All (HasTree (λ u. changed_by_all mods.now t ≡ Some u) (length units.now)) moves.old.items
        → All (HasTree (λ u. changed_by_all mods.now t ≡ Some u) (length units.now)) moves.new.items) }
{
    let mut hint = 0;
    for k in 0..strays.len() {
        let stray = &strays[k];
        let path = stray.part.path.copy(alloc)?;
        hint = add_move(
            alloc,
            mods,
            trees,
            units,
            order,
            i,
            k,
            path,
            &stray.part,
            &stray.tree,
            hint,
            moves,
        )?;
    }
    Ok(())
}

// The course through an edit of the document.
fn document_course<L: Ledger>(
    alloc: Global,
    before: &Tree,
    mods: &[Mod],
    bridges: &[Bridge],
    strays: &[Stray],
    units: &[Unit],
    steps: &mut Steps<L>,
) -> Result<Course, Memory>
    requires applies { (u : WideTree) × (changed_by_all mods.now before.now ≡ Some u) }
    requires apart { NoneBegins units.now }
    requires stand { AllStand before.now (bodies_of bridges.now) }
    requires sound { All IsSoundBridge bridges.now }
    requires aside { StandAside before.now (strays_in strays.now) }
    requires hold { AllByRecursion HoldsStray (strays_in strays.now) }
    requires tidy { AreTidy strays.now }
    ensures places { IfOk result
        (λ c. c.places.items ≡ map (through mods.now before.now) (paths_in bridges.now)) }
    ensures moves { IfOk result (λ c. AreMoves (part_moves 0 mods.now before.now (bodies_of bridges.now)
        (stored_parts_in bridges.now) (kept_strays (strays_in strays.now)) units.now) c.moves.items) }
    ensures trees { IfOk result (λ c. All
        (HasTree (λ u. changed_by_all mods.now before.now ≡ Some u) (length units.now)) c.moves.items) }
    ensures counted { steps.new ≤ steps.old + cost_of mods.now }
{
    let trees = trees_before(alloc, before, mods, steps)?;
    let places = unit_places(alloc, mods, &trees, bridges)?;
    let order = order_of(units);
    let mut moves = moves_of(alloc, mods, &trees, bridges, &places, units, order)?;
    add_strays(
        alloc,
        mods,
        &trees,
        units,
        order,
        bridges.len(),
        strays,
        &mut moves,
    )?;
    Ok(Course { places, moves })
}

// No unit is at the place or above it.
fn is_outside(units: &[Unit], order: Option<Order>, place: &Path) -> bool
    requires order { IfSome order (λ o. AreAligned o.first o.depth units.now) }
    ensures { result ≡ is_outside units.now place.now }
{
    match number_above(units, order, place, 0) {
        None => true,
        Some(_) => false,
    }
}

// Adds the stray of number k, whose place is unchanged, if it is in no new unit. It counts as a part of the old unit i.
fn add_aside(
    alloc: Global,
    units: &[Unit],
    order: Option<Order>,
    i: usize,
    k: usize,
    stray: &Stray,
    moves: &mut Vec<PartMove>,
) -> Result<(), Memory>
    requires order { IfSome order (λ o. AreAligned o.first o.depth units.now) }
    requires holds { HoldsStray (stray_of stray.now) }
    requires tidy { IsTidy stray.now.part }
    ensures moves { OnOk result (map seen_move moves.new.items ≡ map seen_move moves.old.items
        ++ cons_option (move_aside units.now i k (kept_part stray.now.part)) []) }
    ensures tidy { OnOk result
        (All (λ m. IsTidy m.part) moves.old.items → All (λ m. IsTidy m.part) moves.new.items) }
    ensures trees { OnOk result ((all : List WideStray)
        → ((u : WideTree) → StandAside u all → subtree u stray.now.part.path ≡ Some stray.now.tree)
        → All (HasTree (λ u. StandAside u all) (length units.now)) moves.old.items
        → All (HasTree (λ u. StandAside u all) (length units.now)) moves.new.items) }
{
    if !is_outside(units, order, &stray.part.path) {
        return Ok(());
    }
    let path = stray.part.path.copy(alloc)?;
    moves.push(PartMove {
        from: i,
        number: k,
        to: units.len(),
        part: stray.part.moved(alloc, path)?,
        tree: stray.tree.share()?,
    })?;
    Ok(())
}

// The moves of strays where another buffer than the document is edited. They count as parts of the old unit i.
fn moves_aside(
    alloc: Global,
    units: &[Unit],
    i: usize,
    strays: &[Stray],
) -> Result<Vec<PartMove>, Memory>
    requires hold { AllByRecursion HoldsStray (strays_in strays.now) }
    requires tidy { AreTidy strays.now }
    ensures moves { IfOk result (λ v. map seen_move v.items
        ≡ moves_aside units.now i 0 (kept_strays (strays_in strays.now))) }
    ensures tidy { IfOk result (λ v. All (λ m. IsTidy m.part) v.items) }
    ensures trees { IfOk result (λ v. All
        (HasTree (λ u. StandAside u (strays_in strays.now)) (length units.now)) v.items) }
{
    let order = order_of(units);
    let mut moves = Vec::new(alloc);
    for k in 0..strays.len() {
        add_aside(alloc, units, order, i, k, &strays[k], &mut moves)?;
    }
    Ok(moves)
}

fn path_of(alloc: Global, unit: &Unit) -> Result<Option<Path>, Memory>
    ensures { IfOk result (λ p. p ≡ unit.now.path) }
{
    match &unit.path {
        None => Ok(None),
        Some(path) => Ok(Some(path.copy(alloc)?)),
    }
}

fn paths_of(alloc: Global, bridges: &[Bridge]) -> Result<Vec<Option<Path>>, Memory>
    ensures { IfOk result (λ v. v.items ≡ paths_in bridges.now) }
{
    let mut paths = Vec::with_capacity(alloc, bridges.len())?;
    for bridge in bridges {
        paths.push(path_of(alloc, &bridge.unit)?)?;
    }
    Ok(paths)
}

// The course through an edit of a buffer. That of another one than the document leaves strays where they are, and moves
// no part of a unit.
pub(crate) fn edit_course<L: Ledger>(
    alloc: Global,
    buffer: u32,
    before: &Tree,
    mods: &[Mod],
    bridges: &[Bridge],
    strays: &[Stray],
    units: &[Unit],
    steps: &mut Steps<L>,
) -> Result<Course, Memory>
    requires applies { (u : WideTree) × (changed_by_all mods.now before.now ≡ Some u) }
    requires apart { NoneBegins units.now }
    requires stand { buffer ≡ 0 → AllStand before.now (bodies_of bridges.now) }
    requires sound { All IsSoundBridge bridges.now }
    requires aside { buffer ≡ 0 → StandAside before.now (strays_in strays.now) }
    requires hold { AllByRecursion HoldsStray (strays_in strays.now) }
    requires tidy { AreTidy strays.now }
    ensures places { IfOk result (λ c. c.places.items
        ≡ map (through (mods_of buffer mods.now) before.now) (paths_in bridges.now)) }
    ensures moves { IfOk result (λ c. AreMoves (part_moves buffer mods.now before.now (bodies_of bridges.now)
        (stored_parts_in bridges.now) (kept_strays (strays_in strays.now)) units.now) c.moves.items) }
    ensures trees { IfOk result (λ c. All
        (HasTree (MayFollow buffer mods.now before.now (strays_in strays.now)) (length units.now)) c.moves.items) }
    ensures counted { steps.new ≤ steps.old + cost_of mods.now }
{
    if buffer == 0 {
        return document_course(alloc, before, mods, bridges, strays, units, steps);
    }
    Ok(Course {
        places: paths_of(alloc, bridges)?,
        moves: moves_aside(alloc, units, bridges.len(), strays)?,
    })
}
