// At which row and column of a unit an end of a cluster is drawn.
ghost use Rattle.std.specs.Prelude.{◌≡◌, ◌<◌, ◌++◌, ℕ, List, [], All, MatchOption, map, option_copied};
ghost use Rattle.std.specs.Option.{option_map};
ghost use Rattle.std.specs.Str.{bytes_eq};
ghost use Rattle.tx_part_layout.specs.LinesUnder.{line_under};
ghost use Rattle.tx_view_form.specs.Positions.{IsShort};
ghost use Rattle.tx_unit_layout.specs.Stretches.{part_or_root};
ghost use Rattle.tx_unit_layout.specs.Views.{unit_view};
ghost use Rattle.tx_view.specs.Ends.{of_end, has_end, end_on_line, end_on_lines, IsNarrow, IsDrawable};

use crate::cells::drawn_in;
use tx_items::Item;
use tx_layout::{Line, item_cells};
use tx_origin::Ip;
use tx_tree::Path;
use tx_unit_layout::Shown;

/// An end of a cluster.
#[derive(Clone, Copy)]
pub(crate) enum End {
    Start,
    Stop,
}

// Of two numbers the one of this end.
fn of_end(end: End, start: u32, stop: u32) -> u32
    ensures { result ≡ of_end end start stop }
{
    match end {
        End::Start => start,
        End::Stop => stop,
    }
}

// Whether these are the steps of an origin.
fn is_origin(steps: &[u32], origin: &Ip) -> bool
    ensures { result ≡ bytes_eq steps.now origin.now }
{
    if steps.len() != origin.len() {
        return false;
    }
    let mut end = steps.len();
    while end > 0 {
        end -= 1;
        if origin.step(end) != Some(steps[end]) {
            return false;
        }
    }
    true
}

// Whether this end of the cluster of an item is at an offset of the text at these steps.
fn has_end(item: &Item, end: End, steps: &[u32], offset: u32) -> bool
    requires { IsShort item.now }
    ensures { result ≡ has_end end [] (record { path = steps.now; offset = offset }) item.now }
{
    let Some(drawn) = drawn_in(item) else {
        return false;
    };
    let Some(origin) = drawn.look.origin() else {
        return false;
    };
    let start = drawn.cluster.start;
    if of_end(end, start, start + drawn.cluster.len) != offset {
        return false;
    }
    is_origin(steps, origin)
}

// The column of this end of the first cluster of a line of which it is at an offset of the text at these steps.
fn end_on_line(line: &Line, end: End, steps: &[u32], offset: u32) -> Option<u32>
    requires short { All IsShort line.now.items }
    requires narrow { IsNarrow line.now }
    ensures { option_map (λ column. (0, column)) result
        ≡ end_on_line end [] (record { path = steps.now; offset = offset }) line.now }
{
    let items = line.items.all();
    let mut from = line.indent;
    for item in items {
        let to = from + item_cells(item);
        if has_end(item, end, steps, offset) {
            return Some(of_end(end, from, to));
        }
        from = to;
    }
    None
}

// The row and the column of this end of the first such cluster on lines.
fn end_on_lines(lines: &[Line], end: End, steps: &[u32], offset: u32) -> Option<(usize, u32)>
    requires short { All (λ line. All IsShort line.items) lines.now }
    requires narrow { All IsNarrow lines.now }
    ensures { result ≡ end_on_lines end [] (record { path = steps.now; offset = offset }) lines.now }
{
    for (i, line) in lines.iter().enumerate() {
        if let Some(column) = end_on_line(line, end, steps, offset) {
            return Some((i, column));
        }
    }
    None
}

/// What steps have after those of a path, if they begin with them. No path has no step.
pub(crate) fn steps_after<'a>(steps: &'a [u32], path: Option<&Path>) -> Option<&'a [u32]>
    ensures { let front = part_or_root (option_copied path.entry) in MatchOption result
        ((rest : List ℕ) → steps.now ≡ front ++ rest → ⊥) (λ rest. steps.now ≡ front ++ rest.now) }
{
    match path {
        None => Some(steps),
        Some(path) => steps.strip_prefix(path.steps()),
    }
}

// The row and the column of this end of the first such cluster on lines of a part.
fn end_in_part(
    part: Option<&Path>,
    lines: &[Line],
    end: End,
    steps: &[u32],
    offset: u32,
) -> Option<(usize, u32)>
    requires short { All (λ line. All IsShort line.items) lines.now }
    requires narrow { All IsNarrow lines.now }
    ensures { result ≡ end_on_lines end [] (record { path = steps.now; offset = offset })
        (map (line_under (part_or_root (option_copied part.entry))) lines.now) }
{
    match steps_after(steps, part) {
        None => None,
        Some(rest) => end_on_lines(lines, end, rest, offset),
    }
}

/// The row and the column of this end of the first cluster of a unit of which it is at an offset of the text at these
/// steps from the unit's tree.
pub(crate) fn end_in_unit(
    unit: &Shown,
    end: End,
    steps: &[u32],
    offset: u32,
) -> Option<(usize, u32)>
    requires { IsDrawable unit.now }
    ensures { result
        ≡ end_on_lines end [] (record { path = steps.now; offset = offset }) (unit_view unit.now).lines }
{
    let mut above = 0;
    for k in 0..unit.stretch_count() {
        let stretch = unit.stretch(k);
        if let Some((row, column)) = end_in_part(stretch.part, stretch.lines, end, steps, offset) {
            return Some((above + row, column));
        }
        above += stretch.lines.len();
    }
    None
}
