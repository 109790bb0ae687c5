// A file, loaded and read.
ghost use Rattle.std.specs.Prelude.{◌≡◌, ◌≢◌, ◌≤◌, ◌+◌, ◌*◌, IfOk, IfErr, OnOk, Ok};
ghost use Rattle.tx_outside.specs.Outside.{StoreGoesOn};
ghost use Rattle.tx_tree.specs.Limits.{IsWithinLimits};
ghost use Rattle.tx_tree.specs.WideTree.{nodes_of};
ghost use Rattle.tx_words.specs.Seen.{named_of};
ghost use Rattle.tx_open.specs.Forms.{SpellsIn, IsFaultIn};
ghost use Rattle.tx_open.specs.Loads.{IsLastLoad};
ghost use Rattle.tx_open.specs.Openings.{failed_as};
ghost use Rattle.tx_open.specs.Outcomes.{EndsAt, IsReadAs, IsTreeOfFile};

use crate::failure::Failure;
use std::alloc::Global;
use std::sync::ledger::Ledger;
use tx_base::{Memory, Steps};
use tx_doc::{Buffer, Form, Name, form_of, modern};
use tx_outside::{LoadFault, Store};
use tx_tree::{ReadFault, Tree};
use tx_words::FileWord;

// The tree that the bytes spell in this form.
fn read<L: Ledger>(
    alloc: Global,
    form: Form,
    bytes: &[u8],
    steps: &mut Steps<L>,
) -> Result<Tree, ReadFault>
    ensures spelled { IfOk result (λ t. SpellsIn form bytes.now t) }
    ensures within { IfOk result IsWithinLimits }
    ensures refused { IfErr result (λ fault. fault ≢ ReadFault.Memory → IsFaultIn form bytes.now fault) }
    ensures counted { IfOk result (λ t. steps.new ≤ steps.old + nodes_of t) }
{
    match form {
        Form::Scheme => tx_scm::read(alloc, bytes, steps),
        Form::Tm => tx_tm_read::read(alloc, bytes, steps),
    }
}

// The tree of the file of this word, as its bytes spell it.
fn read_tree<'a, S: Store, L: Ledger>(
    alloc: Global,
    word: &'a [u8],
    store: &mut S,
    steps: &mut Steps<L>,
) -> Result<Tree, Failure<'a>>
    ensures tree { IfOk result (λ t. IsTreeOfFile (S.seen store.old).files word.entry.now t) }
    ensures failed { IfErr result (λ failure. EndsAt (S.seen store.old).files word.entry.now (failed_as failure)) }
    ensures loaded { OnOk result (S.load_leaves word.entry.now (Ok tt) store.old store.new) }
    ensures last { IfErr result (λ failure.
        IsLastLoad S.load_leaves S.seen word.entry.now (failed_as failure) store.old store.new) }
    ensures counted { IfOk result (λ t. steps.new ≤ steps.old + nodes_of t) }
    ensures files_kept { (S.seen store.new).files ≡ (S.seen store.old).files }
    ensures store_goes_on { StoreGoesOn (S.seen store.old) (S.seen store.new) }
{
    let mut bytes = Vec::new(alloc);
    match store.load(word, &mut bytes) {
        Ok(()) => match read(alloc, form_of(word), &bytes, steps) {
            Ok(tree) => Ok(tree),
            Err(ReadFault::Memory) => Err(Failure::NoMemory),
            Err(fault) => Err(Failure::NoTree(word, fault)),
        },
        Err(LoadFault::Missing) => Err(Failure::Missing(word)),
        Err(LoadFault::TooLong) => Err(Failure::TooLong(word)),
        Err(LoadFault::Failed) => Err(Failure::StoreFault(word)),
        Err(LoadFault::Memory) => Err(Failure::NoMemory),
    }
}

/// The buffer of a file: the modern form of its tree, under the file's name.
pub(crate) fn read_file<'a, S: Store, L: Ledger>(
    alloc: Global,
    file: FileWord<'a>,
    store: &mut S,
    steps: &mut Steps<L>,
) -> Result<Buffer, Failure<'a>>
    ensures read { IfOk result (λ buffer. IsReadAs (S.seen store.old).files (named_of file.entry) buffer) }
    ensures failed { IfErr result (λ failure. EndsAt (S.seen store.old).files file.entry.word.now (failed_as failure)) }
    ensures loaded { OnOk result (S.load_leaves file.entry.word.now (Ok tt) store.old store.new) }
    ensures last { IfErr result (λ failure.
        IsLastLoad S.load_leaves S.seen file.entry.word.now (failed_as failure) store.old store.new) }
    ensures counted { IfOk result (λ buffer. steps.new ≤ steps.old + 2 * nodes_of buffer.tree) }
    ensures files_kept { (S.seen store.new).files ≡ (S.seen store.old).files }
    ensures store_goes_on { StoreGoesOn (S.seen store.old) (S.seen store.new) }
{
    let name = Vec::from_slice(alloc, file.name)?;
    let spelled = read_tree(alloc, file.word.as_bytes(), store, steps)?;
    match modern(alloc, &spelled, steps) {
        Ok(tree) => Ok(Buffer {
            name: Name::from(name),
            tree,
        }),
        Err(Memory) => Err(Failure::NoMemory),
    }
}
