// Clusters that have a place.
ghost use Rattle.std.specs.Prelude.{◌≡◌, ◌≤◌, ◌<◌, All, Some, map, length, take, drop, slice_get, option_copied};
ghost use Rattle.std.specs.List.{flat_map};
ghost use Rattle.tx_part_items.specs.ItemsUnder.{item_under};
ghost use Rattle.tx_part_layout.specs.LinesUnder.{line_under};
ghost use Rattle.tx_view_form.specs.Positions.{IsShort, mark_of, marks_of, items_on};
ghost use Rattle.tx_unit_layout.specs.Stretches.{WideStretch, part_or_root, stretches, stretch_lines};
ghost use Rattle.tx_unit_layout.specs.Views.{unit_view};
ghost use Rattle.tx_view.specs.InUnits.{lines_above, lines_below};
ghost use Rattle.tx_view.specs.Marks.{first_of, last_of};

use crate::cells::drawn_in;
use std::marker::Model;
use tx_items::Item;
use tx_layout::Line;
use tx_origin::Ip;
use tx_tree::Path;
use tx_unit_layout::Shown;

/// A cluster that has a place: the part that holds its text, if its place is given from one, the origin of the text
/// there, and where it begins and ends in it. Contracts see the origin from the tree of its unit.
#[derive(Drop)]
pub(crate) struct Mark<'a> {
    pub(crate) part: Option<&'a Path>,
    pub(crate) origin: &'a Ip,
    pub(crate) start: u32,
    pub(crate) stop: u32,
}

impl<'a> Model for Mark<'a> {
    ghost use Rattle.std.specs.Prelude.{◌++◌, option_copied};
    ghost use Rattle.tx_view_form.specs.Positions.{Mark};
    ghost use Rattle.tx_unit_layout.specs.Stretches.{part_or_root};
    ghost use Rattle.tx_view.specs.Marks.{coded_Mark};

    ghost Value = { Mark };

    ghost coded = { coded_Mark };

    ghost view = { λ m. record {
      origin = part_or_root (option_copied m.part) ++ m.origin.now;
      start = m.start;
      stop = m.stop;
    } };
}

/// The mark of an item of this part.
pub(crate) fn mark_of<'a>(part: Option<&'a Path>, item: &'a Item) -> Option<Mark<'a>>
    requires { IsShort item.now }
    ensures { result ≡ mark_of (item_under (part_or_root (option_copied part.entry)) item.now) }
{
    let Some(drawn) = drawn_in(item) else {
        return None;
    };
    match drawn.look.origin() {
        None => None,
        Some(origin) => Some(Mark {
            part,
            origin,
            start: drawn.cluster.start,
            stop: drawn.cluster.start + drawn.cluster.len,
        }),
    }
}

/// The last mark among items of this part.
pub(crate) fn last_mark<'a>(part: Option<&'a Path>, items: &'a [Item]) -> Option<Mark<'a>>
    requires { All IsShort items.now }
    ensures { result ≡ last_of (marks_of (map (item_under (part_or_root (option_copied part.entry))) items.now)) }
{
    let mut end = items.len();
    while end > 0 {
        end -= 1;
        if let Some(mark) = mark_of(part, &items[end]) {
            return Some(mark);
        }
    }
    None
}

/// The first mark among items of this part.
pub(crate) fn first_mark<'a>(part: Option<&'a Path>, items: &'a [Item]) -> Option<Mark<'a>>
    requires { All IsShort items.now }
    ensures { result ≡ first_of (marks_of (map (item_under (part_or_root (option_copied part.entry))) items.now)) }
{
    for item in items {
        if let Some(mark) = mark_of(part, item) {
            return Some(mark);
        }
    }
    None
}

/// The last mark on lines of this part.
pub(crate) fn last_on<'a>(part: Option<&'a Path>, lines: &'a [Line]) -> Option<Mark<'a>>
    requires { All (λ line. All IsShort line.items) lines.now }
    ensures { result
        ≡ last_of (marks_of (items_on (map (line_under (part_or_root (option_copied part.entry))) lines.now))) }
{
    let mut end = lines.len();
    while end > 0 {
        end -= 1;
        if let Some(mark) = last_mark(part, lines[end].items.all()) {
            return Some(mark);
        }
    }
    None
}

/// The first mark on lines of this part.
pub(crate) fn first_on<'a>(part: Option<&'a Path>, lines: &'a [Line]) -> Option<Mark<'a>>
    requires { All (λ line. All IsShort line.items) lines.now }
    ensures { result
        ≡ first_of (marks_of (items_on (map (line_under (part_or_root (option_copied part.entry))) lines.now))) }
{
    for line in lines {
        if let Some(mark) = first_mark(part, line.items.all()) {
            return Some(mark);
        }
    }
    None
}

/// The last mark on the stretches of a unit before the one of number k.
pub(crate) fn last_before<'a>(shown: &'a Shown, k: usize) -> Option<Mark<'a>>
    requires there { k ≤ length (stretches shown.now) }
    requires short { All (λ line. All IsShort line.items) (unit_view shown.now).lines }
    ensures { result ≡ last_of (marks_of (items_on (flat_map stretch_lines (take k (stretches shown.now))))) }
{
    let mut end = k;
    while end > 0 {
        end -= 1;
        let stretch = shown.stretch(end);
        if let Some(mark) = last_on(stretch.part, stretch.lines) {
            return Some(mark);
        }
    }
    None
}

/// The first mark on the stretches of a unit from the one of number k on.
pub(crate) fn first_from<'a>(shown: &'a Shown, k: usize) -> Option<Mark<'a>>
    requires there { k ≤ length (stretches shown.now) }
    requires short { All (λ line. All IsShort line.items) (unit_view shown.now).lines }
    ensures { result ≡ first_of (marks_of (items_on (flat_map stretch_lines (drop k (stretches shown.now))))) }
{
    for i in k..shown.stretch_count() {
        let stretch = shown.stretch(i);
        if let Some(mark) = first_on(stretch.part, stretch.lines) {
            return Some(mark);
        }
    }
    None
}

/// The last mark on the lines of a unit above line i of the stretch of number k.
pub(crate) fn last_above<'a>(shown: &'a Shown, k: usize, i: usize) -> Option<Mark<'a>>
    requires there { (s : WideStretch) × (slice_get (stretches shown.now) k ≡ Some s) × (i < length s.lines) }
    requires short { All (λ line. All IsShort line.items) (unit_view shown.now).lines }
    ensures { result ≡ last_of (marks_of (items_on (lines_above shown.now k i))) }
{
    let stretch = shown.stretch(k);
    if let Some(mark) = last_on(stretch.part, &stretch.lines[..i]) {
        return Some(mark);
    }
    last_before(shown, k)
}

/// The first mark on the lines of a unit below that line.
pub(crate) fn first_below<'a>(shown: &'a Shown, k: usize, i: usize) -> Option<Mark<'a>>
    requires there { (s : WideStretch) × (slice_get (stretches shown.now) k ≡ Some s) × (i < length s.lines) }
    requires short { All (λ line. All IsShort line.items) (unit_view shown.now).lines }
    ensures { result ≡ first_of (marks_of (items_on (lines_below shown.now k i))) }
{
    let _count = shown.stretch_count();
    let stretch = shown.stretch(k);
    if let Some(mark) = first_on(stretch.part, &stretch.lines[i + 1..]) {
        return Some(mark);
    }
    first_from(shown, k + 1)
}
