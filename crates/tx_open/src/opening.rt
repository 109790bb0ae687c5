// All files that the words name, loaded and read.
ghost use Rattle.std.specs.Prelude.{◌≡◌, ◌<◌, ◌≤◌, ◌+◌, ◌*◌, ◌^◌, ◌⊎◌, ℕ, List, [], ◌∷◌, map, length};
ghost use Rattle.std.specs.Prelude.{IfOk, IfErr, OnOk};
ghost use Rattle.std.specs.String.{string_bytes};
ghost use Rattle.tx_outside.specs.Outside.{StoreGoesOn, StoreIsFaultless};
ghost use Rattle.tx_doc.specs.Buffers.{NamesDiffer};
ghost use Rattle.tx_doc.specs.declared.buffer.Buffer.{Buffer as SomeBuffer};
ghost use Rattle.tx_words.specs.Seen.{named_of};
ghost use Rattle.tx_words.specs.declared.asked.Source.{Source as SomeSource};
ghost use Rattle.tx_words.specs.Words.{Ask, AreFaulty};
ghost use Rattle.tx_open.specs.Openings.{IfOpened, failed_as, open_outcome, reading_cost};
ghost use Rattle.tx_open.specs.Loads.{AreLoaded, AreLoadedUpTo, StoreIsAsked};
ghost use Rattle.tx_open.specs.Outcomes.{AreRead, AskForFiles, CanBeOpened, ComesTo, EndsIn, IsGenerated};
ghost use Rattle.tx_open.specs.Outcomes.{no_memory, nodes_in_buffers};
ghost use Rattle.tx_open.specs.declared.opening.Opened.{Opened as WasOpened};

use crate::buffers::Buffers;
use crate::failure::Failure;
use crate::file::read_file;
use crate::generating::generated_buffer;
use std::alloc::Global;
use std::sync::ledger::Ledger;
use tx_base::{Memory, Steps};
use tx_doc::Buffer;
use tx_outside::Store;
use tx_tree::ReadFault;
use tx_words::{
    FileWord, FileWords, MOST_FILES, Source, Words, WordsFault, one_asking, read_words,
};

/// What was opened.
#[derive(Drop)]
pub struct Opened {
    /// The width of a page, 20 to 500 cells.
    pub width: u32,
    /// The height of a page, 5 to 500 lines.
    pub height: u32,
    /// The document, and the styles after it, 1 to 64 buffers, no two of one name.
    pub buffers: Buffers,
}

/// The outcome of opening. A file is named by its word.
#[derive(Drop)]
pub enum Opening<'a> {
    /// The words ask for nothing.
    FaultyWords,
    /// Memory ran out while the words were read.
    UnreadWords,
    /// There is no such file.
    Missing(&'a [u8]),
    /// The file has more than 2^24 bytes.
    TooLong(&'a [u8]),
    /// The file's bytes spell no tree within the limits.
    NoTree(&'a [u8], ReadFault),
    /// The store failed at this file.
    StoreFault(&'a [u8]),
    /// Memory ran out when the words had been read, which ask for something.
    NoMemory,
    /// The files were loaded and read.
    Opened(Opened),
    /// The document was generated, which is one buffer.
    Generated(Opened),
}

impl<'a> From<Failure<'a>> for Opening<'a> {
    ghost use Rattle.std.specs.Prelude.{◌≡◌, ◌≢◌};
    ghost use Rattle.tx_open.specs.Openings.{failed_as, open_outcome};
    ghost use Rattle.tx_open.specs.declared.opening.Opening.TheVariants.{UnreadWords};

    ghost from_gives = { λ failure opening. (open_outcome opening ≡ failed_as failure) × (opening ≢ UnreadWords) };

    fn from(failure: Failure<'a>) -> Opening<'a> {
        match failure {
            Failure::Missing(word) => Opening::Missing(word),
            Failure::TooLong(word) => Opening::TooLong(word),
            Failure::NoTree(word, fault) => Opening::NoTree(word, fault),
            Failure::StoreFault(word) => Opening::StoreFault(word),
            Failure::NoMemory => Opening::NoMemory,
        }
    }
}

// Reads the files in their order, up to the first that isn't read.
fn add_files<'a, S: Store, L: Ledger>(
    alloc: Global,
    buffers: &mut Vec<Buffer>,
    files: &[FileWord<'a>],
    store: &mut S,
    steps: &mut Steps<L>,
) -> Result<(), Failure<'a>>
    requires { buffers.old.items ≡ [] }
    ensures read { OnOk result (AreRead (S.seen store.old).files (map named_of files.now) buffers.new.items) }
    ensures failed { IfErr result
        (λ failure. EndsIn (S.seen store.old).files (map named_of files.now) (failed_as failure)) }
    ensures loaded { OnOk result (AreLoaded S.load_leaves (map named_of files.now) store.old store.new) }
    ensures last { IfErr result (λ failure.
        AreLoadedUpTo S.load_leaves S.seen (map named_of files.now) (failed_as failure) store.old store.new) }
    ensures counted { OnOk result (steps.new ≤ steps.old + 2 * nodes_in_buffers buffers.new.items) }
    ensures files_kept { (S.seen store.new).files ≡ (S.seen store.old).files }
    ensures store_goes_on { StoreGoesOn (S.seen store.old) (S.seen store.new) }
{
    for file in files {
        buffers.push(read_file(alloc, *file, store, steps)?)?;
    }
    Ok(())
}

// Reads these files, which are asked for.
fn read_files<'a, S: Store, L: Ledger>(
    alloc: Global,
    width: u32,
    height: u32,
    files: &FileWords<'a>,
    store: &mut S,
    steps: &mut Steps<L>,
) -> Result<Opened, Failure<'a>>
    ensures size { IfOk result (λ all. (all.width ≡ width) × (all.height ≡ height)) }
    ensures read { IfOk result (λ all. AreRead (S.seen store.old).files files.now all.buffers) }
    ensures failed { IfErr result (λ failure. EndsIn (S.seen store.old).files files.now (failed_as failure)) }
    ensures loaded { OnOk result (AreLoaded S.load_leaves files.now store.old store.new) }
    ensures last { IfErr result (λ failure.
        AreLoadedUpTo S.load_leaves S.seen files.now (failed_as failure) store.old store.new) }
    ensures counted { IfOk result (λ all. steps.new ≤ steps.old + 2 * nodes_in_buffers all.buffers) }
    ensures files_kept { (S.seen store.new).files ≡ (S.seen store.old).files }
    ensures store_goes_on { StoreGoesOn (S.seen store.old) (S.seen store.new) }
{
    let mut buffers = Vec::new(alloc);
    add_files(alloc, &mut buffers, files.as_slice(), store, steps)?;
    Ok(Opened {
        width,
        height,
        buffers: Buffers::from(buffers),
    })
}

// Generates and reads the document of this number and this count of paragraphs, which is asked for.
fn generate<L: Ledger>(
    alloc: Global,
    width: u32,
    height: u32,
    number: u32,
    count: u32,
    steps: &mut Steps<L>,
) -> Result<Opened, Memory>
    requires number { number < 2 ^ 31 }
    requires some { 1 ≤ count }
    requires few { count ≤ 60000 }
    ensures size { IfOk result (λ all. (all.width ≡ width) × (all.height ≡ height)) }
    ensures made { IfOk result
        (λ all. (buffer : SomeBuffer) × (all.buffers ≡ buffer ∷ []) × IsGenerated number count buffer) }
    ensures counted { IfOk result (λ all. steps.new ≤ steps.old + nodes_in_buffers all.buffers) }
{
    Ok(Opened {
        width,
        height,
        buffers: generated_buffer(alloc, number, count, steps)?,
    })
}

/// Loads and reads the files that the words name, the program's name first, in the order of the words. The words are
/// `tmx [--width N] [--height N] FILE [STYLE]...`; a file is in the Scheme syntax where its word ends in `.scm` or
/// `.stm`, and else in TM.
///
/// The first file that isn't there, is too long, spells no tree within the limits, or at which the store fails, is the
/// outcome, and no later file is loaded. Faulty words ask nothing of the store, nor do words that memory doesn't
/// suffice to read. The buffers hold the modern forms of the files' trees (`tx_doc::modern`). Where files are opened,
/// the steps rise by at most twice the nodes of their trees that aren't leaves: each is read, and may be made modern.
///
/// Where FILE is `gen:number:count`, the document of `tx_generated` is generated and read, as the one buffer `gen`, and
/// nothing is asked of the store.
pub fn open<'a, S: Store, L: Ledger>(
    alloc: Global,
    words: &'a [String],
    store: &mut S,
    steps: &mut Steps<L>,
) -> Opening<'a>
    ensures comes { ComesTo (map string_bytes words.now) (S.seen store.old).files (open_outcome result) }
    ensures complete { CanBeOpened (map string_bytes words.now) (S.seen store.old).files
        → StoreIsFaultless (S.seen store.old) (S.seen store.new)
        → (open_outcome result ≡ no_memory) ⊎ ((all : WasOpened) × (result ≡ Opening.Opened all)) }

    // A generated document needs memory alone.
    ensures generated { (width height number count : ℕ)
        → Ask (map string_bytes words.now) width height (Source.Generated number count)
        → (open_outcome result ≡ no_memory) ⊎ ((all : WasOpened) × (result ≡ Opening.Generated all)) }

    // It says whether memory ran out while the words were read or afterwards.
    ensures words_read { result ≡ Opening.NoMemory
        → (width height : ℕ) × (source : SomeSource) × Ask (map string_bytes words.now) width height source }

    // What is asked of the store. Where it is blamed, its count rose in the load of the printed word.
    ensures loads { StoreIsAsked S.load_leaves S.seen (map string_bytes words.now) (open_outcome result)
        store.old store.new }

    // What was opened is what a session begins with.
    ensures width { IfOpened result (λ all. (20 ≤ all.width) × (all.width ≤ 500)) }
    ensures height { IfOpened result (λ all. (5 ≤ all.height) × (all.height ≤ 500)) }
    ensures number { IfOpened result (λ all. (1 ≤ length all.buffers) × (length all.buffers ≤ MOST_FILES)) }
    ensures names { IfOpened result (λ all. NamesDiffer all.buffers) }
    ensures counted { IfOpened result (λ all. steps.new ≤ steps.old + reading_cost result) }

    // What is as before, and what never falls.
    ensures untouched { AreFaulty (map string_bytes words.now) → (store.new ≡ store.old) × (steps.new ≡ steps.old) }
    ensures untouched_unread { result ≡ Opening.UnreadWords → (store.new ≡ store.old) × (steps.new ≡ steps.old) }
    ensures untouched_unless_asked { (store.new ≡ store.old) ⊎ AskForFiles (map string_bytes words.now) }
    ensures not_asked { (width height number count : ℕ)
        → Ask (map string_bytes words.now) width height (Source.Generated number count) → store.new ≡ store.old }
    ensures files_kept { (S.seen store.new).files ≡ (S.seen store.old).files }
    ensures store_goes_on { StoreGoesOn (S.seen store.old) (S.seen store.new) }
{
    one_asking();
    match read_words(alloc, words) {
        Ok(asked) => {
            let Words {
                width,
                height,
                source,
            } = asked;
            match source {
                Source::Files(files) => {
                    match read_files(alloc, width, height, &files, store, steps) {
                        Ok(all) => Opening::Opened(all),
                        Err(failure) => Opening::from(failure),
                    }
                }
                Source::Generated { number, count } => {
                    match generate(alloc, width, height, number, count, steps) {
                        Ok(all) => Opening::Generated(all),
                        Err(_) => Opening::NoMemory,
                    }
                }
            }
        }
        Err(WordsFault::Faulty) => Opening::FaultyWords,
        Err(WordsFault::Memory) => Opening::UnreadWords,
    }
}
