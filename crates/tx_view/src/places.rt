// The place at a column of a row of a unit.
ghost use Rattle.std.specs.Prelude.{◌≡◌, ◌+◌, ◌++◌, ◌≤◌, ◌<◌, All, Some, length, map, take, drop, slice_get};
ghost use Rattle.std.specs.Prelude.{option_and_then, option_copied};
ghost use Rattle.std.specs.Option.{option_map};
ghost use Rattle.tx_part_items.specs.ItemsUnder.{item_under};
ghost use Rattle.tx_layout.specs.declared.layout.Line.{Line as Shape};
ghost use Rattle.tx_part_layout.specs.LaidParts.{AreBelow};
ghost use Rattle.tx_part_layout.specs.LinesUnder.{line_under};
ghost use Rattle.tx_view_form.specs.Cells.{item_at};
ghost use Rattle.tx_view_form.specs.Positions.{IsShort, mark_of, marks_of, items_on};
ghost use Rattle.tx_view_form.specs.Positions.{start_of, stop_of, nearest, place_on};
ghost use Rattle.tx_unit_layout.specs.Stretches.{WideStretch, part_or_root, stretches};
ghost use Rattle.tx_unit_layout.specs.Views.{unit_view};
ghost use Rattle.tx_view.specs.InUnits.{lines_above, lines_below};
ghost use Rattle.tx_view.specs.Marks.{spot_place};

use crate::cells::{item_at, item_number};
use crate::marks::{Mark, first_below, first_mark, last_above, last_mark, mark_of};
use tx_items::Item;
use tx_layout::Line;
use tx_origin::{Base, Spot};
use tx_tree::Path;
use tx_unit_layout::Shown;

/// The path of a unit, and that of a part below it.
pub(crate) fn base_of<'a>(path: &'a Path, part: Option<&'a Path>) -> Base<'a>
    ensures { result ≡ path.now ++ part_or_root (option_copied part.entry) }
{
    match part {
        None => Base::new(path),
        Some(part) => Base::joined(path, part),
    }
}

/// Where a cluster of a unit with this path begins.
pub(crate) fn start_of<'a>(path: &'a Path, mark: &Mark<'a>) -> Spot<'a>
    ensures { spot_place result ≡ spot_place (start_of path.now mark.now) }
{
    Spot::behind(base_of(path, mark.part), Some(mark.origin), mark.start)
}

/// Where a cluster of a unit with this path ends.
pub(crate) fn stop_of<'a>(path: &'a Path, mark: &Mark<'a>) -> Spot<'a>
    ensures { spot_place result ≡ spot_place (stop_of path.now mark.now) }
{
    Spot::behind(base_of(path, mark.part), Some(mark.origin), mark.stop)
}

// The place of the last cluster before an item of line i of a stretch of a unit, which has these items, or else of the
// first after it, or else the unit.
fn nearest<'a>(
    path: &'a Path,
    shown: &'a Shown,
    k: usize,
    i: usize,
    part: Option<&'a Path>,
    items: &'a [Item],
    number: usize,
) -> Spot<'a>
    requires line { (s : WideStretch) × (slice_get (stretches shown.now) k ≡ Some s) × (i < length s.lines) }
    requires there { number ≤ length items.now }
    requires here { All IsShort items.now }
    requires short { All (λ line. All IsShort line.items) (unit_view shown.now).lines }
    ensures { let is = map (item_under (part_or_root (option_copied part.entry))) items.now in spot_place result
        ≡ spot_place (nearest path.now (marks_of (items_on (lines_above shown.now k i) ++ take number is))
        (marks_of (drop number is ++ items_on (lines_below shown.now k i)))) }
{
    if let Some(mark) = last_mark(part, &items[..number]) {
        return stop_of(path, &mark);
    }
    if let Some(mark) = last_above(shown, k, i) {
        return stop_of(path, &mark);
    }
    if let Some(mark) = first_mark(part, &items[number..]) {
        return start_of(path, &mark);
    }
    if let Some(mark) = first_below(shown, k, i) {
        return start_of(path, &mark);
    }
    Spot::new(path, None, 0)
}

/// The mark of the item of a line of this part that covers a column.
pub(crate) fn covering<'a>(part: Option<&'a Path>, line: &'a Line, column: u32) -> Option<Mark<'a>>
    requires { All IsShort line.now.items }
    ensures { result ≡ option_and_then mark_of
        (option_map (item_under (part_or_root (option_copied part.entry))) (item_at line.now column)) }
{
    match item_at(line, column) {
        None => None,
        Some(item) => mark_of(part, item),
    }
}

// The place at a column of line i of the stretch of number k of a unit.
fn place_on<'a>(path: &'a Path, shown: &'a Shown, k: usize, i: usize, column: u32) -> Spot<'a>
    requires there { (s : WideStretch) × (slice_get (stretches shown.now) k ≡ Some s) × (i < length s.lines) }
    requires short { All (λ line. All IsShort line.items) (unit_view shown.now).lines }
    ensures { (s : WideStretch) (line : Shape) → slice_get (stretches shown.now) k ≡ Some s
        → slice_get s.lines i ≡ Some line → spot_place result ≡ spot_place
        (place_on path.now (lines_above shown.now k i) (line_under s.part line) (lines_below shown.now k i) column) }
{
    let stretch = shown.stretch(k);
    let line = &stretch.lines[i];
    match covering(stretch.part, line, column) {
        Some(mark) => start_of(path, &mark),
        None => {
            let number = item_number(line, column);
            nearest(path, shown, k, i, stretch.part, line.items.all(), number)
        }
    }
}

/// The place at a column of a row of a unit with this path.
pub(crate) fn place_in<'a>(path: &'a Path, shown: &'a Shown, row: usize, column: u32) -> Spot<'a>
    requires there { row < length (unit_view shown.now).lines }
    requires below { AreBelow 0 shown.now.parts }
    requires short { All (λ line. All IsShort line.items) (unit_view shown.now).lines }
    ensures { let lines = (unit_view shown.now).lines in option_map
        (λ line. spot_place (place_on path.now (take row lines) line (drop (row + 1) lines) column))
        (slice_get lines row) ≡ Some (spot_place result) }
{
    let (k, i) = shown.line_in(row as u64);
    place_on(path, shown, k, i, column)
}
