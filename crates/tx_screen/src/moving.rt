// Where the cursor is drawn, and where moves go.
ghost use Rattle.std.specs.Prelude.{◌≡◌, ℕ, List, IfOk, IsTrue, Some};
ghost use Rattle.tx_moves.specs.Rows.{row_of};
ghost use Rattle.tx_state.specs.States.{State};
ghost use Rattle.tx_screen.specs.Keys.{KeyLines};

use std::alloc::Global;
use tx_base::Memory;
use tx_keys::Key;
use tx_tree::Place;
use tx_view::View;

/// Whether a key moves to another row, and keeps the column.
pub(crate) fn is_vertical(key: Key) -> bool {
    matches!(key, Key::Up | Key::Down | Key::PageUp | Key::PageDown)
}

/// Whether what a key does depends on the view. The lines of such a key are moves, whatever the state.
pub(crate) fn needs_view(key: Key) -> bool
    ensures { IsTrue result → (s t : State) (lines : List (List ℕ)) → KeyLines s key lines → KeyLines t key lines }
{
    match key {
        Key::Up => true,
        Key::Down => true,
        Key::PageUp => true,
        Key::PageDown => true,
        Key::Home => true,
        Key::End => true,
        Key::CtrlHome => true,
        Key::CtrlEnd => true,
        Key::Click(..) => true,
        Key::Control(5) => true,
        _ => false,
    }
}

/// The row and column at which the cursor is drawn: those of its place, or, where it is drawn nowhere, those of the
/// nearest stop before it that is. So the cursor stays at the end of a line while spaces are typed there.
pub(crate) fn cell_of(alloc: Global, view: &View, at: &Place) -> Result<Option<(u32, u32)>, Memory>
    ensures { (p : ℕ × ℕ) → row_of view.now.shown.units at.now ≡ Some p → IfOk result (λ cell. cell ≡ Some p) }
{
    if let Some(cell) = view.row_of(at) {
        return Ok(Some(cell));
    }
    let stops = view.stops_near(alloc, at)?;
    Ok(last_drawn(view, &stops, at))
}

// The row and column of the last of these stops that is drawn, up to this place, or of all of them where the place is
// not among them. They are gone through from the end on, since the one that is looked for is mostly near.
fn last_drawn(view: &View, stops: &[Place], at: &Place) -> Option<(u32, u32)> {
    let place = stops.iter().position(|stop| stop.offset == at.offset
        && stop.path.steps() == at.path.steps());
    let before = match place {
        Some(place) => &stops[..place],
        None => stops,
    };
    for stop in before.iter().rev() {
        if let Some(cell) = view.row_of(stop) {
            return Some(cell);
        }
    }
    None
}

// The place on the first of the rows from this one down to that one, both included, that has a place.
fn down_from(
    alloc: Global,
    view: &View,
    from: u32,
    to: u32,
    goal: u32,
) -> Result<Option<Place>, Memory> {
    for row in from..to {
        if let Some(at) = view.stop_on(alloc, row, goal)? {
            return Ok(Some(at));
        }
    }
    Ok(None)
}

// The place on the last of the rows from this one on and before that one that has a place.
fn up_from(
    alloc: Global,
    view: &View,
    from: u32,
    to: u32,
    goal: u32,
) -> Result<Option<Place>, Memory> {
    for row in (from..to).rev() {
        if let Some(at) = view.stop_on(alloc, row, goal)? {
            return Ok(Some(at));
        }
    }
    Ok(None)
}

// How many rows the page of a row has.
fn page_height(view: &View, row: u32) -> u32 {
    match view.page_of(row) {
        Some(page) => match view.pages().get(page as usize) {
            Some(cut) => cut.to.saturating_sub(cut.from),
            None => 1,
        },
        None => 1,
    }
}

// The place a page further down: on the first row with a place from there on, or else on the last one before.
fn page_down(alloc: Global, view: &View, row: u32, goal: u32) -> Result<Option<Place>, Memory> {
    let rows = view.rows();
    let there = row.saturating_add(page_height(view, row)).min(rows);
    if let Some(at) = down_from(alloc, view, there, rows, goal)? {
        return Ok(Some(at));
    }
    up_from(alloc, view, row.saturating_add(1), there, goal)
}

// The place a page further up.
fn page_up(alloc: Global, view: &View, row: u32, goal: u32) -> Result<Option<Place>, Memory> {
    let there = row.saturating_sub(page_height(view, row));
    if let Some(at) = up_from(alloc, view, 0, there.saturating_add(1), goal)? {
        return Ok(Some(at));
    }
    down_from(alloc, view, there, row, goal)
}

/// The place to which a key moves from this row, with the column that moves keep. None where there is none.
pub(crate) fn target(
    alloc: Global,
    view: &View,
    key: Key,
    row: u32,
    goal: u32,
) -> Result<Option<Place>, Memory> {
    let rows = view.rows();
    match key {
        Key::Up => up_from(alloc, view, 0, row, goal),
        Key::Down => down_from(alloc, view, row.saturating_add(1), rows, goal),
        Key::PageUp => page_up(alloc, view, row, goal),
        Key::PageDown => page_down(alloc, view, row, goal),
        Key::Home => view.stop_on(alloc, row, 0),
        Key::End => view.stop_on(alloc, row, view.width()),
        Key::CtrlHome => down_from(alloc, view, 0, rows, 0),
        Key::CtrlEnd => up_from(alloc, view, 0, rows, view.width()),
        _ => Ok(None),
    }
}

/// The place on a row of a page, both counted from 0, at a column.
pub(crate) fn place_on_page(
    alloc: Global,
    view: &View,
    page: u32,
    row: u32,
    column: u32,
) -> Result<Option<Place>, Memory> {
    let Some(cut) = view.pages().get(page as usize) else {
        return Ok(None);
    };
    let there = cut.from.saturating_add(row);
    if there >= cut.to {
        return Ok(None);
    }
    view.stop_on(alloc, there, column)
}
