// Where the reader is.
use std::alloc::Global;
use tx_tree::{Label, LabelCache, Tree};

/// An open bracket: its label, and its trees so far.
#[derive(Drop)]
pub(crate) struct Bracket {
    pub(crate) label: Label,
    pub(crate) children: Vec<Tree>,
}

/// Where the reader is between tokens: in which open brackets, the innermost last, or after the whole tree.
#[derive(Drop)]
pub(crate) struct Reader {
    pub(crate) alloc: Global,
    pub(crate) labels: LabelCache,
    pub(crate) brackets: Vec<Bracket>,
    pub(crate) whole: Option<Tree>,
    /// The size of what was begun.
    pub(crate) size: usize,
}
