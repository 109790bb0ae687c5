// A part of a list, by its places.

/// The places of a list from `from` up to, and without, `to`.
#[derive(Clone, Copy, Debug, PartialEq, Eq)]
pub struct Cut {
    /// The first place.
    pub from: u32,
    /// The place after the last one.
    pub to: u32,
}
