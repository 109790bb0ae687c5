// The stops beside a place.
ghost use Rattle.std.specs.Prelude.{◌≡◌, ◌≤◌, ◌++◌, ◌∷◌, [], ℕ, List, true, false, take, length, All, Some, None};
ghost use Rattle.std.specs.Prelude.{IfOk, OnOk, IfSome, IsTrue, if◌then◌else◌};
ghost use Rattle.std.specs.List.{list_any};
ghost use Rattle.std.specs.Str.{bytes_eq};
ghost use Rattle.tx_origin.specs.RelativePlaces.{path_below};
ghost use Rattle.tx_view_form.specs.Stops.{each_once, stops_of};
ghost use Rattle.tx_tree.specs.SamePlaces.{same_place, stop_number};
ghost use Rattle.tx_view.specs.Marks.{spot_place, spot_places};
ghost use Rattle.tx_view.specs.Near.{AreNear, IsFirst, HasNeighbours};
ghost use Rattle.tx_view.specs.Units.{unit_views};
ghost use Rattle.tx_unit_layout.specs.Views.{unit_view, IsReadable};

use crate::spots::spots_of;
use crate::stops::stops_of;
use std::alloc::Global;
use tx_base::Memory;
use tx_origin::{Ip, Spot};
use tx_tree::{Path, Place};
use tx_unit_layout::Shown;

// So many spots before one and after it are looked at first.
const BESIDE: usize = 2;

// Whether an origin may be what follows so many of these steps: it is as long, and ends alike. False says that it is
// not.
fn may_follow(steps: &[u32], above: usize, origin: &Ip) -> bool
    ensures { result ≡ false → (base : List ℕ) → length base ≡ above → steps.now ≡ base ++ origin.now → ⊥ }
{
    let len = steps.len();
    if len < above || len - above != origin.len() {
        return false;
    }
    if len == above {
        return true;
    }
    origin.step(len - above - 1) == Some(steps[len - 1])
}

// Whether an origin may be what follows so many of these steps and so many more.
fn may_follow_both(steps: &[u32], front: usize, below: usize, origin: &Ip) -> bool
    ensures { result ≡ false → (base more : List ℕ) → length base ≡ front → length more ≡ below
        → steps.now ≡ (base ++ more) ++ origin.now → ⊥ }
{
    if steps.len() < front {
        return false;
    }
    may_follow(&steps[front..], below, origin)
}

// Whether a spot may have this path. False says that it hasn't.
fn may_lead(spot: &Spot<'_>, path: &Path) -> bool
    ensures { result ≡ false → bytes_eq path.now (path_below spot.now.base spot.now.origin) ≡ false }
{
    let (front, below) = spot.base().pieces();
    match spot.origin() {
        None => true,
        Some(origin) => may_follow_both(path.steps(), front.len(), below.len(), origin),
    }
}

// Whether a spot is this place. A path is made only where offsets are equal and paths may be.
fn is_at(alloc: Global, spot: &Spot<'_>, at: &Place) -> Result<bool, Memory>
    ensures { IfOk result (λ b. b ≡ same_place at.now (spot_place spot.now)) }
{
    if spot.offset() != at.offset {
        return Ok(false);
    }
    if !may_lead(spot, &at.path) {
        return Ok(false);
    }
    let place = spot.place(alloc)?;
    Ok(at.path.steps() == place.path.steps())
}

// The number of the first of some spots that is this place.
fn first_spot(alloc: Global, spots: &[Spot<'_>], at: &Place) -> Result<Option<usize>, Memory>
    ensures { IfOk result (IsFirst (spot_places spots.now) at.now) }
{
    for i in 0..spots.len() {
        if is_at(alloc, &spots[i], at)? {
            return Ok(Some(i));
        }
    }
    Ok(None)
}

/// Whether units have this place among their stops.
pub(crate) fn has_stop(alloc: Global, units: &[Shown], at: &Place) -> Result<bool, Memory>
    requires { All IsReadable units.now }
    ensures { IfOk result (λ b. b ≡ list_any (same_place at.now) (stops_of (unit_views units.now))) }
{
    let spots = spots_of(alloc, units)?;
    match first_spot(alloc, &spots, at)? {
        None => Ok(false),
        Some(_) => Ok(true),
    }
}

// Adds the place of a spot to stops, unless one of the spots before is the same place.
fn add_new(
    alloc: Global,
    before: &[Spot<'_>],
    spot: &Spot<'_>,
    stops: &mut Vec<Place>,
) -> Result<(), Memory>
    ensures { OnOk result (stops.new.items ≡ if list_any (same_place (spot_place spot.now)) (spot_places before.now)
        then stops.old.items else stops.old.items ++ spot_place spot.now ∷ []) }
{
    let place = spot.place(alloc)?;
    match first_spot(alloc, before, &place)? {
        Some(_) => {}
        None => stops.push(place)?,
    }
    Ok(())
}

// The places of the spots from one number up to another, each once, without those of spots before.
fn stops_between(
    alloc: Global,
    spots: &[Spot<'_>],
    from: usize,
    to: usize,
) -> Result<Vec<Place>, Memory>
    requires order { from ≤ to }
    requires within { to ≤ length spots.now }
    ensures { IfOk result (λ ps. each_once (take to (spot_places spots.now))
        ≡ each_once (take from (spot_places spots.now)) ++ ps.items) }
{
    let mut stops = Vec::new(alloc);
    for i in from..to {
        add_new(alloc, &spots[..i], &spots[i], &mut stops)?;
    }
    Ok(stops)
}

// Whether the paths and the offsets are equal.
fn same_place(one: &Place, other: &Place) -> bool
    ensures { result ≡ same_place one.now other.now }
{
    one.path.steps() == other.path.steps() && one.offset == other.offset
}

// The number of the first stop that is this place.
fn stop_number(stops: &[Place], at: &Place) -> Option<usize>
    ensures { result ≡ stop_number stops.now at.now }
{
    stops.iter().position(|stop| same_place(at, stop))
}

// Whether the place is one of the stops, and has one before it, unless they begin as all do, and one after it, unless
// they end so.
fn has_neighbours(stops: &[Place], at: &Place, from_start: bool, to_end: bool) -> bool
    ensures { IsTrue result → HasNeighbours stops.now at.now from_start to_end }
{
    let Some(number) = stop_number(stops, at) else {
        return false;
    };
    if number == 0 && !from_start {
        return false;
    }
    to_end || number + 1 < stops.len()
}

// The stops beside the place, which is spot k, where few of the spots beside it decide them.
fn stops_around(
    alloc: Global,
    spots: &[Spot<'_>],
    k: usize,
    at: &Place,
) -> Result<Option<Vec<Place>>, Memory>
    requires { IsFirst (spot_places spots.now) at.now (Some k) }
    ensures { IfOk result (λ o. IfSome o (λ ps. AreNear (each_once (spot_places spots.now)) ps.items at.now)) }
{
    let from = k.saturating_sub(BESIDE);
    let to = spots.len().min(k + 1 + BESIDE);
    let stops = stops_between(alloc, spots, from, to)?;
    if has_neighbours(&stops, at, from == 0, to == spots.len()) {
        return Ok(Some(stops));
    }
    Ok(None)
}

/// Some of the stops of units, in which the place has those beside it that it has among all. Few paths are made where
/// few of the clusters beside the place occur in the document more than once.
pub(crate) fn stops_beside(alloc: Global, units: &[Shown], at: &Place) -> Result<Vec<Place>, Memory>
    requires { All IsReadable units.now }
    ensures { IfOk result (λ ps. AreNear (stops_of (unit_views units.now)) ps.items at.now) }
{
    let spots = spots_of(alloc, units)?;
    let Some(k) = first_spot(alloc, &spots, at)? else {
        return stops_between(alloc, &spots, 0, spots.len().min(1));
    };
    match stops_around(alloc, &spots, k, at)? {
        Some(stops) => Ok(stops),
        None => stops_of(alloc, units),
    }
}
