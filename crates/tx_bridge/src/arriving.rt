// Moves parts to the new units in which they are now. Those that are in none become strays.
ghost use Rattle.std.specs.Prelude.{◌≡◌, ◌++◌, [], ◌∷◌, length, OnOk};
ghost use Rattle.tx_bridge.specs.Courses.{with_arrived, strays_left};

use crate::bridge::Bridge;
use crate::course::PartMove;
use crate::strays::Stray;
use tx_base::Memory;

// Adds the part after the others of its unit, or after the other strays.
fn put_move(new: &mut [Bridge], part_move: PartMove, strays: &mut Vec<Stray>) -> Result<(), Memory>
    ensures units { OnOk result (new.new ≡ with_arrived (part_move ∷ []) 0 new.old) }
    ensures strays { OnOk result (strays.new.items
        ≡ strays.old.items ++ strays_left (part_move ∷ []) (length new.old)) }
{
    if part_move.to < new.len() {
        new[part_move.to].parts.add(part_move.part)?;
    } else if part_move.to == new.len() {
        strays.push(Stray {
            tree: part_move.tree,
            part: part_move.part,
        })?;
    }
    Ok(())
}

/// All of them.
pub(crate) fn put_moves(
    new: &mut [Bridge],
    moves: Vec<PartMove>,
    strays: &mut Vec<Stray>,
) -> Result<(), Memory>
    ensures units { OnOk result (new.new ≡ with_arrived moves.items 0 new.old) }
    ensures strays { OnOk result (strays.new.items
        ≡ strays.old.items ++ strays_left moves.items (length new.old)) }
{
    for part_move in moves {
        put_move(new, part_move, strays)?;
    }
    Ok(())
}
