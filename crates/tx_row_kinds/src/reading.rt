// What bytes in one of the two syntaxes spell.
use std::alloc::Global;
use std::sync::ledger::Ledger;
use tx_base::Steps;
use tx_doc::Form;
use tx_row_files::{push_number, push_text};
use tx_tree::{ReadFault, Tree, Which};

// The words of a fault, and the number that comes last.
fn words_of(fault: ReadFault) -> (&'static str, usize) {
    match fault {
        ReadFault::Unclosed(at) => ("unclosed ", at),
        ReadFault::Stray(at) => ("stray ", at),
        ReadFault::BadEscape(at) => ("bad-escape ", at),
        ReadFault::BadLabel(at) => ("bad-label ", at),
        ReadFault::BadText(at) => ("bad-text ", at),
        ReadFault::Mismatch(_, at) => ("mismatch ", at),
        ReadFault::After(at) => ("after ", at),
        ReadFault::Limit(Which::Text, n) => ("limit text ", n as usize),
        ReadFault::Limit(Which::Arity, n) => ("limit arity ", n as usize),
        ReadFault::Limit(Which::Depth, n) => ("limit depth ", n as usize),
        ReadFault::Limit(Which::Size, n) => ("limit size ", n as usize),
        ReadFault::Memory => ("memory ", 0),
    }
}

fn push_fault(alloc: Global, fault: ReadFault, out: &mut Vec<u8>) -> Option<()> {
    let (words, number) = words_of(fault);
    push_text(words, out)?;
    if let ReadFault::Mismatch(tag, _) = fault {
        push_number(alloc, tag, out)?;
        push_text(" ", out)?;
    }
    push_number(alloc, number, out)
}

fn read<L: Ledger>(
    alloc: Global,
    form: Form,
    bytes: &[u8],
    steps: &mut Steps<L>,
) -> Result<Tree, ReadFault> {
    match form {
        Form::Tm => tx_tm_read::read(alloc, bytes, steps),
        Form::Scheme => tx_scm::read(alloc, bytes, steps),
    }
}

// Appends the canonical Scheme text of the tree that the bytes spell, or their fault.
pub(crate) fn answer_read<L: Ledger>(
    alloc: Global,
    form: Form,
    bytes: &[u8],
    out: &mut Vec<u8>,
    steps: &mut Steps<L>,
) -> Option<()> {
    match read(alloc, form, bytes, steps) {
        Ok(tree) => tx_scm::write(&tree, out).ok()?,
        Err(fault) => push_fault(alloc, fault, out)?,
    }
    push_text("\n", out)
}

// Appends `tree` where the bytes spell one, or their fault.
pub(crate) fn answer_judge<L: Ledger>(
    alloc: Global,
    form: Form,
    bytes: &[u8],
    out: &mut Vec<u8>,
    steps: &mut Steps<L>,
) -> Option<()> {
    match read(alloc, form, bytes, steps) {
        Ok(_) => push_text("tree", out)?,
        Err(fault) => push_fault(alloc, fault, out)?,
    }
    push_text("\n", out)
}
