// The lines of parts that have moved to other units move with them. Strays are parts that are in no unit.
ghost use Rattle.std.specs.Prelude.{◌≡◌, List, [], ◌∷◌, ◌++◌, map, Some, None, if◌then◌else◌, MatchOption, OnOk};
ghost use Rattle.std.specs.Prelude.{slice_get};
ghost use Rattle.std.specs.Option.{option_map};
ghost use Rattle.tx_units.specs.declared.kinds.Unit.{Unit as DocUnit};
ghost use Rattle.tx_bridge.specs.PartMoves.{Move, seen_move};
ghost use Rattle.tx_unit_layout.specs.Moving.{put_at};
ghost use Rattle.tx_view.specs.Laid.{placed_in, wide_moved, all_wide, going, AreBlank, HaveArrived, HasMore};

use std::alloc::Global;
use tx_base::Memory;
use tx_bridge::PartMove;
use tx_part_layout::PlacedPart;
use tx_tree::Path;
use tx_unit_layout::{LaidParts, Shown};

// The lines of the parts of the unit of this number, or of the strays at the number after the last unit.
fn placed_at<'a>(old: &'a [Shown], strays: &'a [PlacedPart], i: usize) -> Option<&'a [PlacedPart]>
    ensures { option_map (λ ps. ps.now) result ≡ slice_get (placed_in old.now strays.now) i }
{
    if i == old.len() {
        return Some(strays);
    }
    Some(old.get(i)?.parts.all())
}

// The lines of the part, if it has any.
fn laid_part<'a>(old: &'a [Shown], strays: &'a [PlacedPart], m: &PartMove) -> Option<&'a PlacedPart>
    ensures { MatchOption result (wide_moved (placed_in old.now strays.now) (seen_move m.now) ≡ None)
        (λ p. wide_moved (placed_in old.now strays.now) (seen_move m.now) ≡ Some (put_at m.now.part.path p.now)) }
{
    placed_at(old, strays, m.from)?.get(m.number)
}

// Whether each of the parts has lines.
fn are_laid(old: &[Shown], strays: &[PlacedPart], moves: &[PartMove]) -> bool
    ensures { result ≡ all_wide (placed_in old.now strays.now) (map seen_move moves.now) }
{
    for m in moves {
        if laid_part(old, strays, m).is_none() {
            return false;
        }
    }
    true
}

// Puts the lines of a part at this path in the unit.
fn put_in(alloc: Global, part: &PlacedPart, path: &Path, shown: &mut Shown) -> Result<(), Memory>
    ensures { OnOk result (HasMore shown.old shown.new (put_at path.now part.now)) }
{
    shown.parts.add(alloc, part, path)
}

// The lines of the part, if it has any, move to its new unit, or to the strays where it is in none.
fn put_one(
    alloc: Global,
    old: &[Shown],
    strays: &[PlacedPart],
    m: &PartMove,
    new: &mut [Shown],
    new_strays: &mut LaidParts,
) -> Result<(), Memory>
    ensures { OnOk result ((us : List DocUnit) (moves : List Move)
        → HaveArrived (placed_in old.now strays.now) moves us new.old new_strays.old
        → HaveArrived (placed_in old.now strays.now) (moves ++ seen_move m.now ∷ []) us new.new new_strays.new) }
{
    let Some(part) = laid_part(old, strays, m) else {
        return Ok(());
    };
    if m.to < new.len() {
        return put_in(alloc, part, &m.part.path, &mut new[m.to]);
    }
    if m.to == new.len() {
        return new_strays.add(alloc, part, &m.part.path);
    }
    Ok(())
}

// If each of the parts has lines, the lines move to their new units and strays, which have none before.
fn put_all(
    alloc: Global,
    old: &[Shown],
    strays: &[PlacedPart],
    moves: &[PartMove],
    new: &mut [Shown],
    new_strays: &mut LaidParts,
) -> Result<(), Memory>
    ensures { OnOk result ((us : List DocUnit) → AreBlank us new.old → new_strays.old ≡ []
        → HaveArrived (placed_in old.now strays.now) (going (placed_in old.now strays.now) (map seen_move moves.now)) us
        new.new new_strays.new) }
{
    if !are_laid(old, strays, moves) {
        return Ok(());
    }
    for m in moves {
        put_one(alloc, old, strays, m, new, new_strays)?;
    }
    Ok(())
}

/// If each of these parts of units, shown or else hidden, and of strays has lines, the lines move to the units and
/// strays in which the parts are now. Those have no lines before. After `Memory` nothing is said of the new ones.
pub(crate) fn put_either(
    alloc: Global,
    fresh: bool,
    shown: &[Shown],
    hidden: &[Shown],
    strays: &[PlacedPart],
    moves: &[PartMove],
    new: &mut [Shown],
    new_strays: &mut LaidParts,
) -> Result<(), Memory>
    ensures { OnOk result ((us : List DocUnit) → AreBlank us new.old → new_strays.old ≡ []
        → HaveArrived (placed_in (if fresh then shown.now else hidden.now) strays.now)
        (going (placed_in (if fresh then shown.now else hidden.now) strays.now) (map seen_move moves.now)) us new.new
        new_strays.new) }
{
    if fresh {
        put_all(alloc, shown, strays, moves, new, new_strays)
    } else {
        put_all(alloc, hidden, strays, moves, new, new_strays)
    }
}
