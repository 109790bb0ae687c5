// The clusters of texts.
use std::alloc::Global;
use std::sync::ledger::Ledger;
use tx_base::Steps;
use tx_row_files::{push_number, push_text};
use tx_text::{Cluster, clusters};

// Appends a cluster's characters in quotes, its cells, and the place and the number of its bytes in the text.
fn push_cluster(alloc: Global, cluster: &Cluster, out: &mut Vec<u8>) -> Option<()> {
    push_text("\"", out)?;
    out.extend_from_slice(cluster.glyphs.bytes()).ok()?;
    push_text("\" ", out)?;
    push_number(alloc, usize::from(cluster.cells), out)?;
    push_text(" ", out)?;
    push_number(alloc, cluster.start as usize, out)?;
    push_text(" ", out)?;
    push_number(alloc, cluster.len as usize, out)?;
    push_text("\n", out)
}

// Appends a line for each cluster of the text that the bytes spell in the Scheme syntax, or `none` where it has none.
pub(crate) fn answer_clusters<L: Ledger>(
    alloc: Global,
    bytes: &[u8],
    out: &mut Vec<u8>,
    steps: &mut Steps<L>,
) -> Option<()> {
    let tree = tx_scm::read(alloc, bytes, steps).ok()?;
    let found = clusters(alloc, tree.text()?).ok()?;
    if found.is_empty() {
        return push_text("none\n", out);
    }
    for cluster in &found {
        push_cluster(alloc, cluster, out)?;
    }
    Some(())
}
