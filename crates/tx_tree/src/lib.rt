//! Trees of a document: texts, labels, and nodes that share their parts.
//!
//! A tree is a text, or a label with a list of trees. Contracts see it as a wide tree (`specs/WideTree.antt`), which is
//! a tree without limits. Each tree in hand is well formed and within the limits (`specs/Limits.antt`), and returns its
//! size and depth without a walk.
#![tactic(auto)]

mod building;
mod fault_laws;
mod faults;
mod label_cache;
mod labels;
mod limits;
mod path_laws;
mod paths;
mod places;
mod sharing;
mod texts;
mod trees;

pub use building::{TextBuilder, text_laws};
pub use fault_laws::{
    front_laws, label_fault_laws, path_fault_laws, place_fault_laws, text_fault_laws,
    tree_fault_laws,
};
pub use faults::{PathFault, PlaceFault, ReadFault, TreeFault, Which};
pub use label_cache::LabelCache;
pub use labels::{Label, LabelFault, is_label_byte};
pub use limits::limit_laws;
pub use path_laws::path_law;
pub use paths::Path;
pub use places::Place;
pub use sharing::{share_onto, share_tree, shares};
pub use texts::{Text, TextFault, TextPlace, cut_laws, is_name_byte, text_of};
pub use trees::{Kind, Tree};
pub use tx_base::Memory;

/// The most bytes of a text.
pub const MOST_TEXT: usize = 1_048_575;
/// The most bytes of a label.
pub const MOST_LABEL: usize = 64;
/// The most bytes of the name of a symbol.
pub const MOST_NAME: usize = 255;
/// The most children of a node.
pub const MOST_ARITY: usize = 65_535;
/// The greatest depth of a tree, where a leaf has depth 1.
pub const MOST_DEPTH: u32 = 400;
/// The greatest size of a tree, where a leaf has 1 and its bytes, and a node 1 and the sizes of its children.
pub const MOST_SIZE: u64 = 8_000_000;
/// The most numbers of a path that bytes spell.
pub const MOST_STEPS: usize = 400;
/// The most digits of a number of a path.
pub const MOST_DIGITS: usize = 10;
/// The greatest number of a path.
pub const MOST_NUMBER: u64 = 4_294_967_295;
