// The layouts of the parts of a unit: former or new ones.
ghost use Rattle.std.specs.Prelude.{◌≡◌, ◌+◌, ◌≤◌, ◌<◌, ◌++◌, [], length, reverse, IfOk, OnErr};
ghost use Rattle.std.specs.Vec.{vec_len, vec_capacity};
ghost use Rattle.tx_part_layout.specs.Slots.{AreRising, placed_by};

use crate::laid::PlacedPart;
use std::alloc::Global;
use std::mem;
use tx_base::Memory;

/// The layout of a part.
#[derive(Drop)]
pub(crate) enum Slot {
    /// The former layout of this number, below so many lines of the unit.
    Again(usize, u64),
    /// This new layout.
    Anew(Box<PlacedPart>),
}

// The layouts of the parts, the last first. Those that are reused are moved out of the former ones.
fn from_last(former: Vec<PlacedPart>, told: Vec<Slot>, room: Vec<PlacedPart>) -> Vec<PlacedPart>
    requires rising { AreRising (length former.items) 0 told.items }
    requires nothing { room.items ≡ [] }
    requires no_length { vec_len room ≡ 0 }
    requires enough { length told.items ≤ vec_capacity room }
    ensures { reverse result.items ≡ placed_by former.items told.items }
{
    let mut old = former;
    let mut slots = told;
    let mut all = room;
    while let Some(slot) = slots.pop() {
        match slot {
            Slot::Again(i, above) => {
                old.truncate(i + 1);
                let Some(mut part) = old.pop() else {
                    unreachable!()
                };
                part.put_below(above);
                all.push_reserved(part);
            }
            Slot::Anew(part) => all.push_reserved(Box::into_inner(part)),
        }
    }
    all
}

/// The layouts of the parts, in order. Those that are reused are moved out of the former ones, of which nothing is
/// left. After `Memory` the former ones are unchanged.
pub(crate) fn put_together(
    alloc: Global,
    former: &mut Vec<PlacedPart>,
    slots: Vec<Slot>,
) -> Result<Vec<PlacedPart>, Memory>
    requires rising { AreRising (length former.old.items) 0 slots.items }
    ensures parts { IfOk result (λ ps. ps.items ≡ placed_by former.old.items slots.items) }
    ensures err { OnErr result (former.new ≡ former.old) }
{
    let room = Vec::with_capacity(alloc, slots.len())?;
    let old = mem::replace(former, Vec::new(alloc));
    let mut all = from_last(old, slots, room);
    all.reverse();
    Ok(all)
}
