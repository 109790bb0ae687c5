// A generated document, read.
ghost use Rattle.std.specs.Prelude.{◌≡◌, ◌<◌, ◌≤◌, ◌+◌, ◌^◌, [], ◌∷◌, IfOk};
ghost use Rattle.tx_tree.specs.WideTree.{nodes_of};
ghost use Rattle.tx_tm_form.specs.Forms.{Spells};
ghost use Rattle.tx_generated.specs.Document.{document_text};
ghost use Rattle.tx_open.specs.Outcomes.{IsGenerated, nodes_in_buffers};
ghost use Rattle.tx_doc.specs.declared.buffer.Buffer.{Buffer as SomeBuffer};

use crate::buffers::Buffers;
use std::alloc::Global;
use std::sync::ledger::Ledger;
use tx_base::{Memory, Steps};
use tx_doc::{Buffer, Name};
use tx_generated::{document_laws, generated};
use tx_tm_form::bytes_have_one_fault;
use tx_tree::{ReadFault, Tree};

// The one fault that a text within the limits can have.
fn want_of_memory(_fault: ReadFault) -> Memory
    requires { _fault ≡ ReadFault.Memory }
{
    Memory
}

// The tree of the document, which the text spells within the limits.
fn tree<L: Ledger>(
    alloc: Global,
    number: u32,
    count: u32,
    steps: &mut Steps<L>,
) -> Result<Tree, Memory>
    requires number { number < 2 ^ 31 }
    requires some { 1 ≤ count }
    requires few { count ≤ 60000 }
    ensures spelled { IfOk result (λ t. Spells (document_text number count) t) }
    ensures counted { IfOk result (λ t. steps.new ≤ steps.old + nodes_of t) }
{
    document_laws();
    bytes_have_one_fault();
    let text = generated(alloc, number, count)?;
    match tx_tm_read::read(alloc, &text, steps) {
        Ok(tree) => Ok(tree),
        Err(fault) => Err(want_of_memory(fault)),
    }
}

/// The one buffer, `gen`, of the document that is generated from the number with so many paragraphs.
pub(crate) fn generated_buffer<L: Ledger>(
    alloc: Global,
    number: u32,
    count: u32,
    steps: &mut Steps<L>,
) -> Result<Buffers, Memory>
    requires number { number < 2 ^ 31 }
    requires some { 1 ≤ count }
    requires few { count ≤ 60000 }
    ensures made { IfOk result
        (λ buffers. (buffer : SomeBuffer) × (buffers ≡ buffer ∷ []) × IsGenerated number count buffer) }
    ensures counted { IfOk result (λ buffers. steps.new ≤ steps.old + nodes_in_buffers buffers) }
{
    let name = Vec::from_slice(alloc, b"gen")?;
    let tree = tree(alloc, number, count, steps)?;
    let mut buffers = Vec::new(alloc);
    buffers.push(Buffer {
        name: Name::from(name),
        tree,
    })?;
    Ok(Buffers::from(buffers))
}
