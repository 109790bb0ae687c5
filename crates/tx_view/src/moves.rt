// The row and the column of a place, and the place on a row to which a vertical move goes.
ghost use Rattle.std.specs.Prelude.{◌≡◌, ◌<◌, ◌∷◌, [], ℕ, All, IfOk, IfSome, MatchOption, None, Some, length, take};
ghost use Rattle.std.specs.Prelude.{slice_get, option_copied};
ghost use Rattle.std.specs.Option.{option_map, unwrap_or};
ghost use Rattle.tx_tree.specs.declared.places.Place.{Place as At};
ghost use Rattle.tx_part_layout.specs.LinesUnder.{line_under};
ghost use Rattle.tx_view_form.specs.Cells.{item_number};
ghost use Rattle.tx_view_form.specs.Positions.{IsShort, marks_of, items_on};
ghost use Rattle.tx_moves.specs.Rows.{row_of};
ghost use Rattle.tx_moves.specs.RowStops.{place_alone, is_past, last_start, stop_by, stop_on, IsRowOf};
ghost use Rattle.tx_unit_layout.specs.Stretches.{part_or_root};
ghost use Rattle.tx_unit_layout.specs.Views.{unit_view};
ghost use Rattle.tx_view.specs.Ends.{bare_indent, row_on_lines, IsDrawable, AreDrawable};
ghost use Rattle.tx_view.specs.Marks.{spot_place};
ghost use Rattle.tx_view.specs.Units.{unit_views};

use crate::around::unit_above;
use crate::cells::item_number;
use crate::ends::{End, end_in_unit, steps_after};
use crate::marks::{first_from, first_mark, last_mark};
use crate::places::{covering, start_of, stop_of};
use crate::searching::row_in;
use std::alloc::Global;
use tx_base::Memory;
use tx_layout::Line;
use tx_origin::Spot;
use tx_tree::{Path, Place};
use tx_unit_layout::Shown;

// A line of a unit by its number, and the path of the part that shows it.
fn line_in(unit: &Shown, number: usize) -> (Option<&Path>, &Line)
    requires there { number < length (unit_view unit.now).lines }
    requires drawable { IsDrawable unit.now }
    ensures line { slice_get (unit_view unit.now).lines number
        ≡ Some (line_under (part_or_root (option_copied result.0)) result.1.now) }
    ensures short { All IsShort result.1.now.items }
{
    let (k, i) = unit.line_in(number as u64);
    let stretch = unit.stretch(k);
    (stretch.part, &stretch.lines[i])
}

// The indent of the first line of a unit on whose lines no cluster has a place.
fn bare_indent(unit: &Shown) -> Option<u32>
    requires { IsDrawable unit.now }
    ensures { let lines = (unit_view unit.now).lines in result ≡ bare_indent (marks_of (items_on lines)) lines }
{
    if first_from(unit, 0).is_some() {
        return None;
    }
    if unit.line_count() == 0 {
        return None;
    }
    let (_, line) = line_in(unit, 0);
    Some(line.indent)
}

// The row within a unit, and the column, at which the place is drawn that has an offset and these steps from the unit's
// tree.
fn row_after(unit: &Shown, steps: &[u32], offset: u32) -> Option<(usize, u32)>
    requires { IsDrawable unit.now }
    ensures { result ≡ row_on_lines [] (record { path = steps.now; offset = offset }) (unit_view unit.now).lines }
{
    if let Some(cell) = end_in_unit(unit, End::Start, steps, offset) {
        return Some(cell);
    }
    if let Some(cell) = end_in_unit(unit, End::Stop, steps, offset) {
        return Some(cell);
    }
    if !steps.is_empty() || offset != 0 {
        return None;
    }
    match bare_indent(unit) {
        None => None,
        Some(indent) => Some((0, indent)),
    }
}

// The row within a unit, and the column, at which a place is drawn by this unit alone.
fn row_alone(unit: &Shown, at: &Place) -> Option<(usize, u32)>
    requires { IsDrawable unit.now }
    ensures { result ≡ row_of (unit_view unit.now ∷ []) at.now }
{
    let Some(path) = &unit.path else {
        return None;
    };
    match steps_after(at.path.steps(), Some(path)) {
        None => None,
        Some(steps) => row_after(unit, steps, at.offset),
    }
}

/// The row and the column at which a place is drawn among units, where so many rows come before each.
pub(crate) fn row_of(units: &[Shown], firsts: &[u32], at: &Place) -> Option<(u32, u32)>
    requires { AreDrawable units.now firsts.now }
    ensures { result ≡ row_of (unit_views units.now) at.now }
{
    let Some(k) = unit_above(units, at) else {
        return None;
    };
    match row_alone(&units[k], at) {
        None => None,
        Some((row, column)) => Some((firsts[k] + row as u32, column)),
    }
}

// Whether a place is drawn on a row after this one.
fn is_past(units: &[Shown], firsts: &[u32], r: u32, at: &Place) -> bool
    requires { AreDrawable units.now firsts.now }
    ensures { result ≡ is_past r (row_of (unit_views units.now) at.now) }
{
    match row_of(units, firsts, at) {
        None => false,
        Some((row, _)) => r < row,
    }
}

// The line of a row, with the path of its unit and that of its part, or None past the last row, and where its unit has
// no path.
fn line_of<'a>(
    units: &'a [Shown],
    firsts: &[u32],
    r: u32,
) -> Option<(&'a Path, Option<&'a Path>, &'a Line)>
    requires { AreDrawable units.now firsts.now }
    ensures line { MatchOption result ((goal : ℕ) → stop_on (unit_views units.now) r goal ≡ None)
        (λ p. IsRowOf (unit_views units.now) r p.0.now (line_under (part_or_root (option_copied p.1)) p.2.now)) }
    ensures short { IfSome result (λ p. All IsShort p.2.now.items) }
{
    let Some((unit, number)) = row_in(firsts, units, r) else {
        return None;
    };
    let shown = &units[unit];
    let Some(path) = &shown.path else {
        return None;
    };
    let (part, line) = line_in(shown, number);
    Some((path, part, line))
}

// The place at a column of a line of this part of a unit with this path, by the clusters of the line alone, or None
// where none has a place.
fn place_alone<'a>(
    path: &'a Path,
    part: Option<&'a Path>,
    line: &'a Line,
    goal: u32,
) -> Option<Spot<'a>>
    requires { All IsShort line.now.items }
    ensures { let under = line_under (part_or_root (option_copied part.entry)) line.now in
        option_map spot_place result ≡ stop_by (marks_of under.items) (place_alone path.now under goal) }
{
    if let Some(mark) = covering(part, line, goal) {
        return Some(start_of(path, &mark));
    }
    let items = line.items.all();
    let number = item_number(line, goal);
    if let Some(mark) = last_mark(part, &items[..number]) {
        return Some(stop_of(path, &mark));
    }
    match first_mark(part, &items[number..]) {
        None => None,
        Some(mark) => Some(start_of(path, &mark)),
    }
}

// Where the last cluster begins that has a place before a column of such a line.
fn last_start<'a>(
    path: &'a Path,
    part: Option<&'a Path>,
    line: &'a Line,
    goal: u32,
) -> Option<Spot<'a>>
    requires { All IsShort line.now.items }
    ensures { let under = line_under (part_or_root (option_copied part.entry)) line.now in (other : At) →
        last_start path.now other (marks_of (take (item_number under goal) under.items))
        ≡ unwrap_or (option_map spot_place result) other }
{
    let number = item_number(line, goal);
    match last_mark(part, &line.items.all()[..number]) {
        None => None,
        Some(mark) => Some(start_of(path, &mark)),
    }
}

/// The place on a row to which a vertical move goes, by the column that it keeps, among units, where so many rows come
/// before each.
pub(crate) fn stop_on(
    alloc: Global,
    units: &[Shown],
    firsts: &[u32],
    r: u32,
    goal: u32,
) -> Result<Option<Place>, Memory>
    requires { AreDrawable units.now firsts.now }
    ensures { IfOk result (λ at. at ≡ stop_on (unit_views units.now) r goal) }
{
    let Some((path, part, line)) = line_of(units, firsts, r) else {
        return Ok(None);
    };
    let Some(spot) = place_alone(path, part, line, goal) else {
        return Ok(None);
    };
    let place = spot.place(alloc)?;
    if !is_past(units, firsts, r, &place) {
        return Ok(Some(place));
    }
    match last_start(path, part, line, goal) {
        None => Ok(Some(place)),
        Some(spot) => Ok(Some(spot.place(alloc)?)),
    }
}
