// Trees as TM text.
use std::alloc::Global;
use std::sync::ledger::Ledger;
use tx_base::Steps;
use tx_row_files::push_text;
use tx_tm_write::is_block;

// Appends the canonical TM text of the tree that the bytes spell in the Scheme syntax, or the editor's reply where that
// tree is no block.
pub(crate) fn answer_write<L: Ledger>(
    alloc: Global,
    bytes: &[u8],
    out: &mut Vec<u8>,
    steps: &mut Steps<L>,
) -> Option<()> {
    let tree = tx_scm::read(alloc, bytes, steps).ok()?;
    if is_block(&tree) {
        tx_tm_write::write(&tree, out).ok()?;
        return push_text("\n", out);
    }
    push_text("no form\n", out)
}
