// A run of the screen: what is shown for what is read.
ghost use Rattle.std.specs.Prelude.{◌≡◌, ◌≢◌, ◌⊎◌, ◌≤◌, ◌+◌, ℕ, List, [], map, length, IfOk, IfErr, IfSome, OnErr};
ghost use Rattle.std.specs.String.{string_bytes};
ghost use Rattle.tx_outside.specs.Counts.{Rose};
ghost use Rattle.tx_outside.specs.Outside.{SinkGoesOn, SourceGoesOn, StoreGoesOn};
ghost use Rattle.tx_doc.specs.Buffers.{NamesDiffer};
ghost use Rattle.tx_units.specs.Units.{made};
ghost use Rattle.tx_words.specs.Words.{AreFaulty};
ghost use Rattle.tx_session.specs.Runs.{whole_start};
ghost use Rattle.tx_session.specs.Worlds.{world};
ghost use Rattle.tx_screen.specs.Runs.{Begins, EndsAtOpening, EndsUnopened, HasCause, IsScreenRun};
ghost use Rattle.tx_screen.specs.Screens.{IsTold};

use crate::ending::Ending;
use crate::modes::Size;
use crate::screen::Screen;
use std::alloc::{AllocError, Global};
use std::mem;
use std::sync::ledger::Ledger;
use tx_base::{Memory, Steps};
use tx_keys::{Begun, Key, read_keys};
use tx_open::{Opened, Opening, open};
use tx_outside::{Failed, Sink, Source, Store, WriteFault, write_all};
use tx_state::MOST_BUFFERS;
use tx_words::{FileWord, Source as Asked, Words, WordsFault, read_words};

// The most bytes of a read.
const MOST_READ: usize = 4096;

// The most keys of a read: an escape and the byte that breaks it off, at most, for each byte, and an escape at the end.
const MOST_KEYS: usize = 8193;

// Asks a terminal for its size: the cursor goes far out, and where it is then is asked for.
const SIZE_ASKED: &[u8] = b"\x1b[999;999H\x1b[6n";

// What goes on from read to read.
#[derive(Drop)]
struct Terminal {
    // what the last read left begun
    begun: Begun,
    // the keys of a read
    keys: Vec<Key>,
    // the bytes of a frame
    frame: Vec<u8>,
    // whether the size was asked for, and the answer hasn't come
    asked: bool,
    // whether memory has run out since a frame was made
    short: bool,
}

impl Terminal {
    // A terminal of which nothing has been read.
    fn new(alloc: Global) -> Result<Terminal, AllocError> {
        Ok(Terminal {
            begun: Begun::Nothing,
            keys: Vec::with_capacity(alloc, MOST_KEYS)?,
            frame: Vec::new(alloc),
            asked: false,
            short: false,
        })
    }

    // Asks for the size, where the screen has begun to want it.
    fn ask_size<O: Sink>(&mut self, screen: &Screen, out: &mut O) -> Result<(), WriteFault>
        ensures failed_rose { OnErr result (Rose (O.seen out.old).faults (O.seen out.new).faults) }
        ensures output_goes_on { SinkGoesOn (O.seen out.old) (O.seen out.new) }
    {
        let wanted = screen.asks_size();
        if wanted && !self.asked {
            write_all(out, SIZE_ASKED)?;
        }
        self.asked = wanted;
        Ok(())
    }

    // Has the terminal show the screen, by one piece of bytes. Where memory runs out, it is left as it is.
    fn show<S: Store, O: Sink, L: Ledger>(
        &mut self,
        alloc: Global,
        screen: &mut Screen,
        store: &mut S,
        out: &mut O,
        steps: &mut Steps<L>,
    ) -> Result<(), WriteFault>
        ensures told { (lines : List (List ℕ)) × IsTold (world screen.old.session (S.seen store.old) steps.old) lines
            (world screen.new.session (S.seen store.new) steps.new) }
        ensures failed_rose { OnErr result (Rose (O.seen out.old).faults (O.seen out.new).faults) }
        ensures output_goes_on { SinkGoesOn (O.seen out.old) (O.seen out.new) }
    {
        self.ask_size(screen, out)?;
        if self.short {
            screen.say_memory();
        }
        self.frame.clear();
        match screen.draw(alloc, store, &mut self.frame, steps) {
            Ok(()) => {
                self.short = false;
                write_all(out, &self.frame)
            }
            Err(Memory) => {
                self.short = true;
                Ok(())
            }
        }
    }

    // Takes the keys of a read.
    fn read_keys(&mut self, read: &[u8]) {
        self.keys.clear();
        match read_keys(self.begun, read, &mut self.keys) {
            Ok(begun) => self.begun = begun,
            Err(Memory) => {
                self.begun = Begun::Nothing;
                self.short = true;
            }
        }
    }

    // Does what the keys of a read ask for, in order, until the user has left.
    fn take<S: Store, L: Ledger>(
        &mut self,
        alloc: Global,
        screen: &mut Screen,
        read: &[u8],
        store: &mut S,
        steps: &mut Steps<L>,
    )
        ensures told { (lines : List (List ℕ)) × IsTold (world screen.old.session (S.seen store.old) steps.old) lines
            (world screen.new.session (S.seen store.new) steps.new) }
    {
        self.read_keys(read);
        let short = take_keys(alloc, screen, &self.keys, store, steps);
        if short {
            self.short = true;
        }
    }
}

// Does what a key asks for, unless the user has left. Returns whether memory ran out.
fn take_key<S: Store, L: Ledger>(
    alloc: Global,
    screen: &mut Screen,
    key: Key,
    store: &mut S,
    steps: &mut Steps<L>,
) -> bool
    ensures told { (lines : List (List ℕ)) × IsTold (world screen.old.session (S.seen store.old) steps.old) lines
        (world screen.new.session (S.seen store.new) steps.new) }
{
    if screen.has_ended() {
        return false;
    }
    screen.key(alloc, key, store, steps).is_err()
}

// Does what keys ask for, in order, until the user has left. Returns whether memory ran out for one of them.
fn take_keys<S: Store, L: Ledger>(
    alloc: Global,
    screen: &mut Screen,
    keys: &[Key],
    store: &mut S,
    steps: &mut Steps<L>,
) -> bool
    ensures told { (lines : List (List ℕ)) × IsTold (world screen.old.session (S.seen store.old) steps.old) lines
        (world screen.new.session (S.seen store.new) steps.new) }
{
    let mut short = false;
    for key in keys {
        if take_key(alloc, screen, *key, store, steps) {
            short = true;
        }
    }
    short
}

// How a run ends where the input has ended.
fn input_ended(screen: &Screen) -> Ending
    ensures { (result ≡ Ending.InputEnded) ⊎ (result ≡ Ending.Unsaved) }
{
    if screen.has_changes() {
        Ending::Unsaved
    } else {
        Ending::InputEnded
    }
}

// Shows the screen and does what the keys of the next read ask for. Returns how the run ends, where it does.
fn serve_once<S: Store, I: Source, O: Sink, L: Ledger>(
    alloc: Global,
    screen: &mut Screen,
    terminal: &mut Terminal,
    store: &mut S,
    input: &mut I,
    out: &mut O,
    steps: &mut Steps<L>,
) -> Option<Ending>
    ensures told { (lines : List (List ℕ)) × IsTold (world screen.old.session (S.seen store.old) steps.old) lines
        (world screen.new.session (S.seen store.new) steps.new) }
    ensures caused { IfSome result (λ ending.
        HasCause ending (I.seen input.old) (I.seen input.new) (O.seen out.old) (O.seen out.new)) }
    ensures input_goes_on { SourceGoesOn (I.seen input.old) (I.seen input.new) }
    ensures output_goes_on { SinkGoesOn (O.seen out.old) (O.seen out.new) }
{
    if terminal.show(alloc, screen, store, out, steps).is_err() {
        return Some(Ending::OutputFault);
    }
    let mut read = [0u8; MOST_READ];
    let count = match input.read(&mut read) {
        Ok(0) => return Some(input_ended(screen)),
        Ok(count) => count,
        Err(Failed) => return Some(Ending::InputFault),
    };
    terminal.take(alloc, screen, &read[..count], store, steps);
    if screen.has_ended() {
        return Some(Ending::Left);
    }
    None
}

// Shows the screen and does what the keys of the next read ask for, in turn, until the user has left or the input has
// ended.
fn serve<S: Store, I: Source, O: Sink, L: Ledger>(
    alloc: Global,
    screen: &mut Screen,
    terminal: &mut Terminal,
    store: &mut S,
    input: &mut I,
    out: &mut O,
    steps: &mut Steps<L>,
) -> Ending
    ensures told { (lines : List (List ℕ)) × IsTold (world screen.old.session (S.seen store.old) steps.old) lines
        (world screen.new.session (S.seen store.new) steps.new) }
    ensures caused { HasCause result (I.seen input.old) (I.seen input.new) (O.seen out.old) (O.seen out.new) }
    ensures input_goes_on { SourceGoesOn (I.seen input.old) (I.seen input.new) }
    ensures output_goes_on { SinkGoesOn (O.seen out.old) (O.seen out.new) }
{
    for _ in 0..u64::MAX {
        if let Some(ending) = serve_once(alloc, screen, terminal, store, input, out, steps) {
            return ending;
        }
    }
    Ending::InputLong
}

// The word of the first file.
fn first_word(alloc: Global, files: &[FileWord]) -> Result<Vec<u8>, Memory> {
    match files.first() {
        Some(file) => Ok(Vec::from_slice(alloc, file.word.as_bytes())?),
        None => Ok(Vec::new(alloc)),
    }
}

// The word under which the document is saved: its file's, and none where it is generated.
fn document_word(alloc: Global, words: &[String]) -> Result<Vec<u8>, Memory> {
    let source = match read_words(alloc, words) {
        Ok(Words { source, .. }) => source,
        Err(WordsFault::Faulty) => return Ok(Vec::new(alloc)),
        Err(WordsFault::Memory) => return Err(Memory),
    };
    match source {
        Asked::Files(files) => first_word(alloc, files.as_slice()),
        Asked::Generated { .. } => Ok(Vec::new(alloc)),
    }
}

// The screen of what was opened.
fn screen_of<L: Ledger>(
    alloc: Global,
    size: Size,
    words: &[String],
    all: Opened,
    steps: &mut Steps<L>,
) -> Result<Screen, Memory>
    requires width { (20 ≤ all.width) × (all.width ≤ 500) }
    requires height { (5 ≤ all.height) × (all.height ≤ 500) }
    requires number { (1 ≤ length all.buffers) × (length all.buffers ≤ MOST_BUFFERS) }
    requires names { NamesDiffer all.buffers }
    ensures session { IfOk result (λ screen. screen.session ≡ whole_start all) }
    ensures counted { steps.new ≤ steps.old + made all.buffers }
{
    let word = document_word(alloc, words)?;
    let page = (all.width, all.height);
    Screen::start(alloc, all.buffers.into_vec(), word, page, size, steps)
}

// Starts the screen of what was opened.
fn begin<L: Ledger>(
    alloc: Global,
    size: Size,
    words: &[String],
    all: Opened,
    steps: &mut Steps<L>,
) -> Result<Screen, Ending>
    requires width { (20 ≤ all.width) × (all.width ≤ 500) }
    requires height { (5 ≤ all.height) × (all.height ≤ 500) }
    requires number { (1 ≤ length all.buffers) × (length all.buffers ≤ MOST_BUFFERS) }
    requires names { NamesDiffer all.buffers }
    ensures session { IfOk result (λ screen. screen.session ≡ whole_start all) }
    ensures memory { IfErr result (λ ending. ending ≡ Ending.NoMemory) }
    ensures counted { steps.new ≤ steps.old + made all.buffers }
{
    match screen_of(alloc, size, words, all, steps) {
        Ok(screen) => Ok(screen),
        Err(Memory) => Err(Ending::NoMemory),
    }
}

/// Opens the files that the words name, as `tmx` takes them, the program's name first, and starts the screen on a
/// terminal of this size. Else it returns how a run ends so.
pub fn open_screen<S: Store, L: Ledger>(
    alloc: Global,
    size: Size,
    words: &[String],
    store: &mut S,
    steps: &mut Steps<L>,
) -> Result<Screen, Ending>
    ensures begins { IfOk result (λ screen. Begins (map string_bytes words.now) (S.seen store.old) (S.seen store.new)
        steps.old steps.new screen.session) }
    ensures unopened { IfErr result (λ ending.
        EndsUnopened (map string_bytes words.now) ending (S.seen store.old) (S.seen store.new)) }
{
    match open(alloc, words, store, steps) {
        Opening::Opened(all) => begin(alloc, size, words, all, steps),
        Opening::Generated(all) => begin(alloc, size, words, all, steps),
        Opening::FaultyWords => Err(Ending::Words),
        Opening::Missing(_) => Err(Ending::Missing),
        Opening::TooLong(_) => Err(Ending::Refused),
        Opening::NoTree(..) => Err(Ending::Refused),
        Opening::StoreFault(_) => Err(Ending::StoreFault),
        Opening::UnreadWords => Err(Ending::NoMemory),
        Opening::NoMemory => Err(Ending::NoMemory),
    }
}

// Runs a screen on a terminal.
fn run_opened<S: Store, I: Source, O: Sink, L: Ledger>(
    alloc: Global,
    screen: &mut Screen,
    store: &mut S,
    input: &mut I,
    out: &mut O,
    steps: &mut Steps<L>,
) -> Ending
    ensures told { (lines : List (List ℕ)) × IsTold (world screen.old.session (S.seen store.old) steps.old) lines
        (world screen.new.session (S.seen store.new) steps.new) }
    ensures caused { HasCause result (I.seen input.old) (I.seen input.new) (O.seen out.old) (O.seen out.new) }
    ensures input_goes_on { SourceGoesOn (I.seen input.old) (I.seen input.new) }
    ensures output_goes_on { SinkGoesOn (O.seen out.old) (O.seen out.new) }
{
    match Terminal::new(alloc) {
        Ok(mut terminal) => serve(alloc, screen, &mut terminal, store, input, out, steps),
        Err(AllocError) => Ending::NoMemory,
    }
}

/// Runs the screen on a terminal of this size, over the document and the styles that the words name, as `tmx` takes
/// them, the program's name first. It shows the page of the cursor, takes one read of at most 4096 bytes, does what its
/// keys ask for, and so on, until the user has left or the input has ended. A generated document is shown like any
/// other.
///
/// Each read is shown once, by one piece of bytes. Where memory runs out, the last page stays, and the next one says
/// so. Nothing is written where nothing is opened.
///
/// The session executes lines, as those of a script, and nothing else is done to it. So the files, the history and the
/// cursor are those of a script with these lines.
pub fn run_screen<S: Store, I: Source, O: Sink, L: Ledger>(
    alloc: Global,
    size: Size,
    words: &[String],
    store: &mut S,
    input: &mut I,
    out: &mut O,
    steps: &mut Steps<L>,
) -> Ending
    ensures run { IsScreenRun (map string_bytes words.now) result (S.seen store.old) (S.seen store.new)
        steps.old steps.new }

    // Where each ending comes.
    ensures words { result ≡ Ending.Words → AreFaulty (map string_bytes words.now) }
    ensures missing_counted { result ≡ Ending.Missing → Rose (S.seen store.old).misses (S.seen store.new).misses }
    ensures store_fault_counted { result ≡ Ending.StoreFault
        → Rose (S.seen store.old).faults (S.seen store.new).faults }
    ensures input_fault_counted { result ≡ Ending.InputFault
        → Rose (I.seen input.old).faults (I.seen input.new).faults }
    ensures output_fault_counted { result ≡ Ending.OutputFault → Rose (O.seen out.old).faults (O.seen out.new).faults }
    ensures at_end { (result ≡ Ending.InputEnded) ⊎ (result ≡ Ending.Unsaved)
        → IfSome (I.seen input.new).left (λ bytes. bytes ≡ []) }

    // What is as before, and what goes on.
    ensures untouched { EndsAtOpening result → (input.new ≡ input.old) × (out.new ≡ out.old) }
    ensures store_goes_on { StoreGoesOn (S.seen store.old) (S.seen store.new) }
    ensures devices_go_on { SourceGoesOn (I.seen input.old) (I.seen input.new)
        × SinkGoesOn (O.seen out.old) (O.seen out.new) }
{
    match open_screen(alloc, size, words, store, steps) {
        Ok(mut screen) => {
            let ending = run_opened(alloc, &mut screen, store, input, out, steps);
            // The program ends after a run, and the system takes all memory at once.
            mem::forget(screen);
            ending
        }
        Err(ending) => ending,
    }
}
