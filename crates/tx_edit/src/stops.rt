// The keys left and right.
ghost use Rattle.std.specs.Prelude.{◌≡◌, ◌≢◌, IfOk, IfErr, Ok, Err};
ghost use Rattle.tx_edit.specs.Stops.{to_stop, to_left, to_right};
ghost use Rattle.tx_tree.specs.SamePlaces.{same_place, stop_number};

use crate::faults::EditFault;
use crate::moves::Move;
use std::alloc::Global;
use tx_tree::Place;

// Whether the paths and the offsets are equal.
fn same_place(a: &Place, b: &Place) -> bool
    ensures { result ≡ same_place a.now b.now }
{
    a.path.steps() == b.path.steps() && a.offset == b.offset
}

// The number of the first stop that is this place, from 0.
fn stop_number(stops: &[Place], at: &Place) -> Option<usize>
    ensures { result ≡ stop_number stops.now at.now }
{
    stops.iter().position(|stop| same_place(at, stop))
}

// To stop k, or the cause why not where there is none.
fn to_stop(alloc: Global, stops: &[Place], k: usize, cause: EditFault) -> Result<Move, EditFault>
    ensures done { IfOk result (λ m. to_stop stops.now k cause ≡ Ok m) }
    ensures refused { IfErr result (λ fault. fault ≢ EditFault.Memory → to_stop stops.now k cause ≡ Err fault) }
{
    match stops.get(k) {
        Some(stop) => Ok(Move::Go(stop.copy(alloc)?)),
        None => Err(cause),
    }
}

/// To the stop before the first one that is the cursor. A cursor that is no stop goes to the first stop. `AtStart`
/// comes exactly where there are no stops, or the first one is the cursor. `Memory` may come at any time.
pub fn left(alloc: Global, stops: &[Place], cursor: &Place) -> Result<Move, EditFault>
    ensures done { IfOk result (λ m. to_left stops.now cursor.now ≡ Ok m) }
    ensures refused { IfErr result (λ fault. fault ≢ EditFault.Memory → to_left stops.now cursor.now ≡ Err fault) }
{
    match stop_number(stops, cursor) {
        None => to_stop(alloc, stops, 0, EditFault::AtStart),
        Some(0) => Err(EditFault::AtStart),
        Some(k) => to_stop(alloc, stops, k - 1, EditFault::AtStart),
    }
}

/// To the stop after the first one that is the cursor. A cursor that is no stop goes to the first stop. `AtEnd` comes
/// exactly where there are no stops, or the first one that is the cursor is the last of all. `Memory` may come at any
/// time.
pub fn right(alloc: Global, stops: &[Place], cursor: &Place) -> Result<Move, EditFault>
    ensures done { IfOk result (λ m. to_right stops.now cursor.now ≡ Ok m) }
    ensures refused { IfErr result (λ fault. fault ≢ EditFault.Memory → to_right stops.now cursor.now ≡ Err fault) }
{
    match stop_number(stops, cursor) {
        None => to_stop(alloc, stops, 0, EditFault::AtEnd),
        Some(k) => to_stop(alloc, stops, k + 1, EditFault::AtEnd),
    }
}
