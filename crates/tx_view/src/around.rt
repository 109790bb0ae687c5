// The stops near a place, without those of units that are far from it.
ghost use Rattle.std.specs.Prelude.{◌≡◌, ◌<◌, ◌≤◌, [], take, drop, length, All, IfOk, IfSome};
ghost use Rattle.std.specs.List.{position};
ghost use Rattle.tx_units.specs.Units.{units};
ghost use Rattle.tx_view_form.specs.Outcomes.{beginning};
ghost use Rattle.tx_view_form.specs.Stops.{stops_of};
ghost use Rattle.tx_view_form.specs.Views.{AreShown};
ghost use Rattle.tx_view.specs.Units.{unit_views, AreAllApart};
ghost use Rattle.tx_unit_layout.specs.Views.{unit_view, IsReadable};
ghost use Rattle.tx_view.specs.Near.{is_above, IsHolder, IsRange, AreNear};

use crate::beside::{has_stop, stops_beside};
use std::alloc::Global;
use tx_base::Memory;
use tx_doc::Buffer;
use tx_tree::Place;
use tx_unit_layout::Shown;
use tx_units::body_laws;

/// A law: where units are shown of buffers, no path of one is that of another, or begins it.
pub(crate) fn apart_law(buffers: &[Buffer], width: u32, all: &[Shown])
    requires { AreShown width beginning (units buffers.now) (unit_views all.now) }
    ensures { AreAllApart (unit_views all.now) }
{
    body_laws();
}

// Whether the path of a unit begins that of a place.
fn is_above(unit: &Shown, at: &Place) -> bool
    ensures { result ≡ is_above unit.now.path at.now }
{
    match &unit.path {
        None => false,
        Some(path) => at.path.steps().starts_with(path.steps()),
    }
}

/// The number of the first unit whose path begins that of a place.
pub(crate) fn unit_above(units: &[Shown], at: &Place) -> Option<usize>
    ensures number { result ≡ position (λ x. is_above x.path at.now) units.now }
    ensures within { IfSome result (λ k. k < length units.now) }
{
    units.iter().position(|unit| is_above(unit, at))
}

// The number of the unit that has a place among its stops.
fn holder(alloc: Global, units: &[Shown], at: &Place) -> Result<Option<usize>, Memory>
    requires readable { All IsReadable units.now }
    requires apart { AreAllApart (unit_views units.now) }
    ensures { IfOk result (λ k. IsHolder units.now at.now k) }
{
    let Some(k) = unit_above(units, at) else {
        return Ok(None);
    };
    let here = has_stop(alloc, &units[k..k + 1], at)?;
    if here {
        return Ok(Some(k));
    }
    Ok(None)
}

// The number of the last unit that has a path, or 0 where none has.
fn last_placed(units: &[Shown]) -> usize
    ensures within { result ≤ length units.now }
    ensures none { stops_of (unit_views (drop result units.now)) ≡ [] →
        stops_of (unit_views (take result units.now)) ≡ [] }
{
    let mut k = units.len();
    while k > 0 {
        k -= 1;
        if units[k].path.is_some() {
            return k;
        }
    }
    0
}

// How many units there are up to the first that has a path, and all of them where none has.
fn up_to_placed(units: &[Shown]) -> usize
    ensures within { result ≤ length units.now }
    ensures none { stops_of (unit_views (take result units.now)) ≡ [] →
        stops_of (unit_views (drop result units.now)) ≡ [] }
{
    for (k, unit) in units.iter().enumerate() {
        if unit.path.is_some() {
            return k + 1;
        }
    }
    units.len()
}

// From which unit to which the stops near a place are those of all units that decide what is beside it.
fn range_near(alloc: Global, units: &[Shown], at: &Place) -> Result<(usize, usize), Memory>
    requires readable { All IsReadable units.now }
    requires apart { AreAllApart (unit_views units.now) }
    ensures { IfOk result (IsRange units.now at.now) }
{
    let Some(k) = holder(alloc, units, at)? else {
        return Ok((0, up_to_placed(units)));
    };
    let from = last_placed(&units[..k]);
    let to = k + 1 + up_to_placed(&units[k + 1..]);
    Ok((from, to))
}

/// The stops near a place.
pub(crate) fn stops_near(alloc: Global, units: &[Shown], at: &Place) -> Result<Vec<Place>, Memory>
    requires readable { All IsReadable units.now }
    requires apart { AreAllApart (unit_views units.now) }
    ensures { IfOk result (λ ps. AreNear (stops_of (unit_views units.now)) ps.items at.now) }
{
    let (from, to) = range_near(alloc, units, at)?;
    stops_beside(alloc, &units[from..to], at)
}
