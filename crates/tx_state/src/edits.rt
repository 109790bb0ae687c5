// Edits, prepared changes, and what the history holds.

use tx_mod::ModList;
use tx_tree::{Place, Tree};

/// An edit: modifications of one buffer, in the order in which they are applied, and the cursor afterwards. Without a
/// cursor, the modifications of the document move it, and those of another buffer leave it.
#[derive(Drop)]
pub struct Edit {
    /// The number of the buffer, from 0.
    pub buffer: u32,
    /// The modifications.
    pub mods: ModList,
    /// The cursor afterwards, a place of the document.
    pub cursor: Option<Place>,
}

/// A change of a state that is ready to be put in place.
#[derive(Drop)]
pub struct Prepared {
    /// The number of the buffer, from 0.
    pub buffer: u32,
    /// The buffer's tree afterwards.
    pub tree: Tree,
    /// The modifications that lead there, in the order in which they are applied.
    pub mods: ModList,
    /// Their inverses, from the last to the first, which lead back.
    pub back: ModList,
    /// The cursor afterwards.
    pub cursor: Place,
}

/// One edit that can be taken back or made again: the buffer, the modifications that do so, and the cursor that
/// it gives back.
#[derive(Drop)]
pub struct Entry {
    /// The number of the buffer, from 0.
    pub buffer: u32,
    /// The modifications, in the order in which they are applied.
    pub mods: ModList,
    /// The cursor afterwards.
    pub cursor: Place,
}
