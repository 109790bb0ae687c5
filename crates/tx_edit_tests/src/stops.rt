// Where keys lead among stops.

use std::alloc::Global;
use tx_edit::{EditFault, Move, left, right};
use tx_tree::{Path, Place};

// A key, the cursor and the stops, and the stop that the key leads to, or the end at which it leads nowhere.
const ROWS: &[(&str, &str)] = &[
    ("right /0/0 | /0/0 /0/1 /0/2 /0/3 /1/0 /1/1", "/0/1"),
    ("right /0/1 | /0/0 /0/1 /1/0 /1/1", "/1/0"),
    ("right /0/2 | /0/0 /0/1 /0/2 /1/0 /1/1", "/1/0"),
    ("right /1/0/1 | /0/0 /1/0/0 /1/0/1 /2/0 /2/1", "/2/0"),
    ("left /2/0 | /0/0 /1/0/0 /1/0/1 /2/0 /2/1", "/1/0/1"),
    ("left /0/1 | /0/0 /0/1", "/0/0"),
    ("right /0/1 | /0/0 /0/1 /0/2 /0/1 /0/3", "/0/2"),
    ("left /0/1 | /0/0 /0/1 /0/2 /0/1 /0/3", "/0/0"),
    ("right /0/0 | /0/0 /0/0", "/0/0"),
    ("left /0/4 | /0/2 /0/3", "/0/2"),
    ("right /0/0/3 | /0/2 /0/3", "/0/2"),
    ("left /3 | /0/3 /3 /4", "/0/3"),
    ("left /0/0 | /0/0 /0/1 /0/2 /0/3 /1/0 /1/1", "start"),
    ("right /1/1 | /0/0 /0/1 /0/2 /0/3 /1/0 /1/1", "end"),
    ("left /0/0 | ", "start"),
    ("right /0/0 | ", "end"),
    ("left /0/0 | /0/0 /0/1 /0/0", "start"),
    ("right /0/1 | /0/0 /0/1", "end"),
];

// A place as it is printed: its path, and then its offset.
fn place(alloc: Global, word: &str) -> Option<Place> {
    let mut path = Path::parse(alloc, word.as_bytes()).ok()?;
    let offset = path.pop()?;
    Some(Place { path, offset })
}

// Places with a space between them; none of an empty text.
fn places(alloc: Global, words: &str) -> Option<Vec<Place>> {
    let mut all = Vec::new(alloc);
    if words.is_empty() {
        return Some(all);
    }
    for word in words.split(" ") {
        all.push(place(alloc, word)?).ok()?;
    }
    Some(all)
}

fn gone(alloc: Global, words: &str) -> Option<Result<Move, EditFault>> {
    let (key, rest) = words.split_once(' ')?;
    let (cursor, stops) = rest.split_once(" | ")?;
    let cursor = place(alloc, cursor)?;
    let stops = places(alloc, stops)?;
    if key == "left" {
        return Some(left(alloc, &stops, &cursor));
    }
    Some(right(alloc, &stops, &cursor))
}

fn goes(alloc: Global, words: &str, wanted: &str) -> Option<bool> {
    match gone(alloc, words)? {
        Ok(Move::Go(at)) => Some(format!(in alloc; "{at}").ok()?.as_str() == wanted),
        Err(EditFault::AtStart) => Some(wanted == "start"),
        Err(EditFault::AtEnd) => Some(wanted == "end"),
        _ => None,
    }
}

fn first_wrong(alloc: Global, rows: &[(&str, &str)]) -> Option<usize> {
    rows.iter()
        .position(|row| goes(alloc, row.0, row.1) != Some(true))
}

#[test]
fn keys_among_stops(rt: HostRuntime) {
    assert_eq!(rt; first_wrong(rt.alloc(), ROWS), None);
}
