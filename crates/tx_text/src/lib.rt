//! Display texts of the items of a text, and its clusters: the extended grapheme clusters of its display text, with
//! their widths.
#![tactic(auto)]

mod cutting;
mod displays;
mod glyphs;
mod showing;
mod tables;

pub use cutting::{Cluster, cluster_laws, clusters, plain_bytes, plain_cluster};
pub use glyphs::Glyphs;
pub use showing::show_item;
