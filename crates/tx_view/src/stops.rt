// The places at which a cursor stops.
ghost use Rattle.std.specs.Prelude.{◌≡◌, All, IfOk, OnOk};
ghost use Rattle.tx_view_form.specs.Stops.{put_place, stops_of};
ghost use Rattle.tx_view.specs.Marks.{spot_place};
ghost use Rattle.tx_view.specs.Units.{unit_views};
ghost use Rattle.tx_unit_layout.specs.Views.{unit_view, IsReadable};
ghost use Rattle.std.proofs.Common.{rules};
ghost use Rattle.std.specs.Cmp.Rules.{comparing, hashing};
ghost use Rattle.std.specs.Cmp.Lexicographic.{nat_list_eq_equiv};

use crate::spots::spots_of;
use indexmap::IndexSet;
use std::alloc::Global;
use std::hash::{Hash, Hasher};
use std::marker::Model;
use tx_base::Memory;
use tx_origin::Spot;
use tx_tree::Place;
use tx_unit_layout::Shown;

// A place, which differs from others by its path and its offset.
#[derive(Drop)]
struct Stop {
    place: Place,
}

impl Model for Stop {
    ghost use Rattle.tx_tree.specs.declared.places.Place.{Place};

    ghost Value = { Place };

    ghost view = { λ s. s.place };
}

impl PartialEq for Stop {
    ghost use Rattle.tx_tree.specs.SamePlaces.{same_place};

    ghost eq = { same_place };

    ghost laws = { Prim.search (comparing, rules, nat_list_eq_equiv) };

    fn eq(&self, other: &Stop) -> bool {
        self.place.path.steps() == other.place.path.steps()
            && self.place.offset == other.place.offset
    }
}

impl Eq for Stop {
    ghost laws = { Prim.search (comparing, rules, nat_list_eq_equiv) };
}

impl Hash for Stop {
    ghost use Rattle.std.specs.Prelude.{◌++◌};
    ghost use Rattle.std.specs.Hash as fed;

    ghost hash_input = { λ s. fed.slice fed.u32 s.path ++ fed.u32 s.offset };

    ghost respects_eq = { Prim.search (hashing, rules) };

    fn hash<H: Hasher>(&self, state: &mut H) {
        self.place.path.steps().hash(state);
        self.place.offset.hash(state);
    }
}

// Puts the place of a spot, unless it is there already.
fn put_spot(alloc: Global, stops: &mut IndexSet<Stop>, spot: &Spot<'_>) -> Result<(), Memory>
    ensures { OnOk result (stops.new.keys ≡ put_place stops.old.keys (spot_place spot.now)) }
{
    let place = spot.place(alloc)?;
    stops.insert(Stop { place })?;
    Ok(())
}

// The stops of units, of equal ones the first.
fn all_stops(alloc: Global, units: &[Shown]) -> Result<IndexSet<Stop>, Memory>
    requires { All IsReadable units.now }
    ensures { IfOk result (λ stops. stops.keys ≡ stops_of (unit_views units.now)) }
{
    let spots = spots_of(alloc, units)?;
    let mut stops = IndexSet::new(alloc);
    for spot in &spots {
        put_spot(alloc, &mut stops, spot)?;
    }
    Ok(stops)
}

// The places of stops.
fn places_of(alloc: Global, stops: &[Stop]) -> Result<Vec<Place>, Memory>
    ensures { IfOk result (λ ps. ps.items ≡ stops.now) }
{
    let mut places = Vec::with_capacity(alloc, stops.len())?;
    for stop in stops {
        places.push(stop.place.copy(alloc)?)?;
    }
    Ok(places)
}

/// The stops of units, of equal ones the first.
pub(crate) fn stops_of(alloc: Global, units: &[Shown]) -> Result<Vec<Place>, Memory>
    requires { All IsReadable units.now }
    ensures { IfOk result (λ ps. ps.items ≡ stops_of (unit_views units.now)) }
{
    let stops = all_stops(alloc, units)?;
    places_of(alloc, stops.as_slice())
}
