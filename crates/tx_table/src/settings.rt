// What `cwith`s set.
ghost use Rattle.std.specs.Prelude.{◌≡◌, IfOk};
ghost use Rattle.tx_table.specs.Settings.{place_of, place_in, span_of, side_named, side_in, is_text};
ghost use Rattle.tx_table.specs.Settings.{setting_by, setting_from, setting_of, settings_in};

use crate::cells::parts_if;
use std::alloc::Global;
use tx_base::Memory;
use tx_origin::Value;
use tx_prim::parse_number;

/// The side of its column at which a cell is.
#[derive(Clone, Copy, Debug, PartialEq, Eq)]
pub enum Side {
    /// At the left.
    Left,
    /// In the middle, half of the free cells before it, rounded down.
    Center,
    /// At the right.
    Right,
}

// A part of a table, by its first and last row and column, from 0, and the side that is set there.
#[derive(Clone, Copy)]
pub(crate) struct Setting {
    pub(crate) top: usize,
    pub(crate) bottom: usize,
    pub(crate) first: usize,
    pub(crate) last: usize,
    pub(crate) side: Side,
}

// The place that a number names: it counts from 1, or from -1 at the end.
fn place_of(count: usize, number: i64) -> Option<usize>
    ensures { result ≡ place_of count number }
{
    let far = number.unsigned_abs() as usize;
    if far == 0 || count < far {
        return None;
    }
    if number < 0 {
        Some(count - far)
    } else {
        Some(far - 1)
    }
}

// The place that a text names.
fn place_in(count: usize, value: &Value) -> Option<usize>
    ensures { result ≡ place_in count value.now }
{
    let number = parse_number(value.text()?)?;
    place_of(count, number)
}

// From which to which place two texts lead.
fn span_of(count: usize, from: &Value, to: &Value) -> Option<(usize, usize)>
    ensures { result ≡ span_of count from.now to.now }
{
    let first = place_in(count, from)?;
    let last = place_in(count, to)?;
    if first <= last {
        Some((first, last))
    } else {
        None
    }
}

// The side of this name.
fn side_named(name: &[u8]) -> Option<Side>
    ensures { result ≡ side_named name.now }
{
    if name == b"l".as_slice() {
        Some(Side::Left)
    } else if name == b"c".as_slice() {
        Some(Side::Center)
    } else if name == b"r".as_slice() {
        Some(Side::Right)
    } else {
        None
    }
}

// The side that a text names.
fn side_in(value: &Value) -> Option<Side>
    ensures { result ≡ side_in value.now }
{
    let name = value.text()?;
    side_named(name.bytes())
}

// Whether the value is this text.
fn is_text(value: &Value, words: &[u8]) -> bool
    ensures { result ≡ is_text words.now value.now }
{
    match value.text() {
        Some(text) => text.bytes() == words,
        None => false,
    }
}

// The side that is set in these rows and columns.
fn setting_by(
    rows: Option<(usize, usize)>,
    columns: Option<(usize, usize)>,
    side: Option<Side>,
) -> Option<Setting>
    ensures { result ≡ setting_by rows columns side }
{
    let (top, bottom) = rows?;
    let (first, last) = columns?;
    let side = side?;
    Some(Setting {
        top,
        bottom,
        first,
        last,
        side,
    })
}

// What a `cwith` with these parts sets.
fn setting_from(rows: usize, columns: usize, parts: &[Value]) -> Option<Setting>
    ensures { result ≡ setting_from rows columns parts.now }
{
    if parts.len() != 6 {
        return None;
    }
    if is_text(&parts[4], b"cell-halign".as_slice()) {
        setting_by(
            span_of(rows, &parts[0], &parts[1]),
            span_of(columns, &parts[2], &parts[3]),
            side_in(&parts[5]),
        )
    } else {
        None
    }
}

// What a value sets in a table of so many rows and columns.
fn setting_of(rows: usize, columns: usize, value: &Value) -> Option<Setting>
    ensures { result ≡ setting_of rows columns value.now }
{
    let parts = parts_if(value, b"cwith".as_slice())?;
    setting_from(rows, columns, parts)
}

// What these values set.
pub(crate) fn settings_in(
    alloc: Global,
    rows: usize,
    columns: usize,
    values: &[Value],
) -> Result<Vec<Setting>, Memory>
    ensures { IfOk result (λ v. v.items ≡ settings_in rows columns values.now) }
{
    let mut settings = Vec::new(alloc);
    for value in values {
        if let Some(setting) = setting_of(rows, columns, value) {
            settings.push(setting)?;
        }
    }
    Ok(settings)
}
