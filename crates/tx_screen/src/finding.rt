// The next place at which a text stands in a document.
use std::alloc::Global;
use std::cmp::Ordering;
use tx_base::Memory;
use tx_tree::{Path, Place, Text, Tree};

// The most numbers of a path, and one more.
const MOST_UP: u32 = 401;

// The first byte from this one on at which the text has these bytes, and which begins an item.
fn offset_of(text: &Text, wanted: &[u8], from: usize) -> Option<usize> {
    let bytes = text.bytes();
    for at in from..bytes.len() {
        if bytes[at..].starts_with(wanted) && !text.cuts(at) {
            return Some(at);
        }
    }
    None
}

// Goes up from a tree that was gone through, to the next child of the nearest node that has one. False where there is
// none.
fn go_up(document: &Tree, path: &mut Path) -> Result<bool, Memory> {
    for _ in 0..MOST_UP {
        let Some(number) = path.pop() else {
            return Ok(false);
        };
        let next = number.saturating_add(1);
        let Some(parent) = document.at(path) else {
            return Ok(false);
        };
        if next < parent.arity() {
            path.push(next)?;
            return Ok(true);
        }
    }
    Ok(false)
}

// Goes to the next tree in the order of the document. False after the last one.
fn go_on(document: &Tree, path: &mut Path) -> Result<bool, Memory> {
    let Some(tree) = document.at(path) else {
        return Ok(false);
    };
    if tree.arity() > 0 {
        path.push(0)?;
        return Ok(true);
    }
    go_up(document, path)
}

// From which byte of a text on places are after a place of the document: 0 where the text is after it, and None where
// it is before it.
fn begin_after(path: &Path, at: &Place) -> Option<usize> {
    match path.steps().cmp(at.path.steps()) {
        Ordering::Less => None,
        Ordering::Equal => Some((at.offset as usize).saturating_add(1)),
        Ordering::Greater => Some(0),
    }
}

// The place of a byte of a text.
fn place_of(alloc: Global, path: &Path, offset: usize) -> Result<Place, Memory> {
    Ok(Place {
        path: path.copy(alloc)?,
        offset: u32::try_from(offset).unwrap_or(u32::MAX),
    })
}

/// The first place after this one at which a text of the document has these bytes, or else the first of all such
/// places. None where there is none, and where no bytes are looked for.
pub(crate) fn find(
    alloc: Global,
    document: &Tree,
    at: &Place,
    wanted: &[u8],
) -> Result<Option<Place>, Memory> {
    let mut path = Path::root(alloc);
    let mut first = None;
    if wanted.is_empty() {
        return Ok(None);
    }
    for _ in 0..document.size() {
        if let Some(text) = document.at(&path).and_then(|tree| tree.text()) {
            let after = begin_after(&path, at).and_then(|from| offset_of(text, wanted, from));
            if let Some(offset) = after {
                return Ok(Some(place_of(alloc, &path, offset)?));
            }
            if first.is_none() {
                if let Some(offset) = offset_of(text, wanted, 0) {
                    first = Some(place_of(alloc, &path, offset)?);
                }
            }
        }
        if !go_on(document, &mut path)? {
            return Ok(first);
        }
    }
    Ok(first)
}
