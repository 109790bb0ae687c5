// The top call.
ghost use Rattle.std.specs.Prelude.{◌≡◌, ◌⊎◌, ◌≤◌, ◌<◌, ◌+◌, ◌≢◌, ◌++◌, ◌∷◌, [], ℕ, map, length, None};
ghost use Rattle.std.specs.Prelude.{Some, true, false, List, Bool, Option, is_some, IfOk, IfSome};
ghost use Rattle.std.specs.String.{string_bytes};
ghost use Rattle.std.specs.Io.KnownBytes.{append_known};
ghost use Rattle.tx_outside.specs.Counts.{Rose};
ghost use Rattle.tx_outside.specs.Files.{Files};
ghost use Rattle.tx_outside.specs.Known.{AppendsPart};
ghost use Rattle.tx_outside.specs.Outside.{SinkGoesOn, SourceGoesOn, StoreGoesOn, StoreIsFaultless};
ghost use Rattle.tx_words.specs.Words.{AreFaulty};
ghost use Rattle.tx_open.specs.declared.opening.Opened.{Opened as WasOpened};
ghost use Rattle.tx_open.specs.Openings.{open_outcome};
ghost use Rattle.tx_open.specs.Outcomes.{AskForFiles, CanBeOpened, ComesTo, OpenOutcome, generated, no_memory, opened};
ghost use Rattle.tx_doc.specs.Buffers.{NamesDiffer};
ghost use Rattle.tx_units.specs.Units.{made};
ghost use Rattle.tx_session.specs.Runs.{AskToGenerate, CanBeRead, IsFinal, IsFileRefused, IsRun, IsWhole, Outside};
ghost use Rattle.tx_session.specs.Runs.{generating_cost, seen_outside, own_line, seen_start, start_with, whole_start};
ghost use Rattle.tx_session.specs.Differences.{EndsAtOpening, HoldSameFiles, Suffices};
ghost use Rattle.tx_session.specs.Playing.{IsUnopenedLine, IsServed, IsServedAlone};
ghost use Rattle.tx_session.specs.Scripts.{Answered};
ghost use Rattle.tx_session.specs.Worlds.{LineMark, WholeSession, World, RoseBy, unsaved_in, untold, world};
ghost use Rattle.tx_session.specs.EarlyEnds.{HasOpenedNothing};
ghost use Rattle.tx_session.specs.declared.status.Status.{Status};

use crate::fixed_script::{FixedScript, GENERATED_SCRIPT};
use crate::no_files::NoFiles;
use crate::script::play;
use crate::session::Session;
use crate::status::Status;
use crate::unopened::{OUT_OF_MEMORY, USAGE, status_of, text_of};
use std::alloc::Global;
use std::mem;
use std::sync::ledger::Ledger;
use tx_base::{Memory, Steps};
use tx_open::{Opened, Opening, one_outcome, open};
use tx_outside::{Sink, Source, Store, WriteFault, write_all};
use tx_state::MOST_BUFFERS;
use tx_view_form::one_view;

// Writes the text, and returns the status unless the output failed.
fn finish<O: Sink>(out: &mut O, text: &[u8], status: Status) -> Status
    requires { status ≢ Status.OutputFault }
    ensures done { result ≢ Status.OutputFault
        → (result ≡ status) × ((O.seen out.new).written ≡ append_known (O.seen out.old).written text.now) }
    ensures cut { result ≡ Status.OutputFault → AppendsPart text.now (O.seen out.old).written (O.seen out.new).written }
    ensures counted { result ≡ Status.OutputFault → Rose (O.seen out.old).faults (O.seen out.new).faults }
    ensures output_goes_on { SinkGoesOn (O.seen out.old) (O.seen out.new) }
{
    match write_all(out, text) {
        Ok(()) => status,
        Err(WriteFault::Failed) => Status::OutputFault,
    }
}

// Writes the line that says why nothing was opened.
fn report<O: Sink>(alloc: Global, failed: &Opening, out: &mut O) -> Status
    requires unopened { (all : WasOpened) → (open_outcome failed.now ≢ opened all)
        × (open_outcome failed.now ≢ generated all) }
    ensures line { IsUnopenedLine (open_outcome failed.now) result (O.seen out.old).written (O.seen out.new).written
        ⊎ IsUnopenedLine no_memory result (O.seen out.old).written (O.seen out.new).written }
    ensures counted { result ≡ Status.OutputFault → Rose (O.seen out.old).faults (O.seen out.new).faults }
    ensures output_goes_on { SinkGoesOn (O.seen out.old) (O.seen out.new) }
{
    match text_of(alloc, failed) {
        Ok(text) => finish(out, &text, status_of(failed)),
        Err(Memory) => finish(out, OUT_OF_MEMORY, Status::NoMemory),
    }
}

// A status's own line.
fn own_line(status: Status) -> &'static [u8]
    ensures { result.now ≡ own_line status }
{
    match status {
        Status::InputFault => b"input\n",
        Status::ScriptLong => b"script-long\n",
        Status::NoMemory => OUT_OF_MEMORY,
        _ => b"",
    }
}

// The session of what was opened.
fn session_of<L: Ledger>(
    alloc: Global,
    all: Opened,
    steps: &mut Steps<L>,
) -> Result<Session, Memory>
    requires width { (20 ≤ all.width) × (all.width ≤ 500) }
    requires height { (5 ≤ all.height) × (all.height ≤ 500) }
    requires number { (1 ≤ length all.buffers) × (length all.buffers ≤ MOST_BUFFERS) }
    requires names { NamesDiffer all.buffers }
    ensures session { IfOk result (λ session. session.seen ≡ seen_start all) }
    ensures keep { IfOk result (λ session. session.keep ≡ (whole_start all).keep) }
    ensures counted { steps.new ≤ steps.old + made all.buffers }
{
    Session::start(alloc, all.buffers.into_vec(), all.width, all.height, steps)
}

// Runs the script over the session, and writes the status's own line.
fn serve<S: Store, I: Source, O: Sink, L: Ledger>(
    alloc: Global,
    session: &mut Session,
    store: &mut S,
    input: &mut I,
    out: &mut O,
    steps: &mut Steps<L>,
) -> Status
    ensures ended { IsServed (Rose (I.seen input.old).faults (I.seen input.new).faults) result
        (world session.old (S.seen store.old) steps.old) (world session.new (S.seen store.new) steps.new)
        (I.seen input.old).left (I.seen input.new).left (O.seen out.old).written (O.seen out.new).written }
    ensures input_fault_counted { result ≡ Status.InputFault
        → Rose (I.seen input.old).faults (I.seen input.new).faults }
    ensures output_fault_counted { result ≡ Status.OutputFault → Rose (O.seen out.old).faults (O.seen out.new).faults }
    ensures store_goes_on { StoreGoesOn (S.seen store.old) (S.seen store.new) }
    ensures input_goes_on { SourceGoesOn (I.seen input.old) (I.seen input.new) }
    ensures output_goes_on { SinkGoesOn (O.seen out.old) (O.seen out.new) }
{
    match play(alloc, session, store, input, out, steps) {
        Status::OutputFault => Status::OutputFault,
        status => finish(out, own_line(status), status),
    }
}

// Runs the script of the session of what was opened, unless the session can't be made.
fn run_opened<S: Store, I: Source, O: Sink, L: Ledger>(
    alloc: Global,
    all: Opened,
    store: &mut S,
    input: &mut I,
    out: &mut O,
    steps: &mut Steps<L>,
) -> Status
    requires width { (20 ≤ all.width) × (all.width ≤ 500) }
    requires height { (5 ≤ all.height) × (all.height ≤ 500) }
    requires number { (1 ≤ length all.buffers) × (length all.buffers ≤ MOST_BUFFERS) }
    requires names { NamesDiffer all.buffers }
    ensures ended { ((store.new ≡ store.old) × (input.new ≡ input.old)
        × IsUnopenedLine no_memory result (O.seen out.old).written (O.seen out.new).written)
        ⊎ ((begun : ℕ) × (last : WholeSession) × (begun ≤ steps.old + made all.buffers)
        × IsServed (Rose (I.seen input.old).faults (I.seen input.new).faults) result
        (start_with all (S.seen store.old) begun) (world last (S.seen store.new) steps.new)
        (I.seen input.old).left (I.seen input.new).left
        (O.seen out.old).written (O.seen out.new).written) }
    ensures served { ¬ EndsAtOpening result }
    ensures script_long { result ≡ Status.ScriptLong → IfSome (I.seen input.old).left (λ script. ¬ CanBeRead script) }
    ensures complete { ((script : List ℕ) × ((I.seen input.old).left ≡ Some script) × CanBeRead script)
        → ¬ Rose (I.seen input.old).faults (I.seen input.new).faults
        → ¬ Rose (O.seen out.old).faults (O.seen out.new).faults
        → (result ≡ Status.Ok) ⊎ (result ≡ Status.NoMemory) }
    ensures input_fault_counted { result ≡ Status.InputFault
        → Rose (I.seen input.old).faults (I.seen input.new).faults }
    ensures output_fault_counted { result ≡ Status.OutputFault → Rose (O.seen out.old).faults (O.seen out.new).faults }
    ensures store_goes_on { StoreGoesOn (S.seen store.old) (S.seen store.new) }
    ensures input_goes_on { SourceGoesOn (I.seen input.old) (I.seen input.new) }
    ensures output_goes_on { SinkGoesOn (O.seen out.old) (O.seen out.new) }
{
    match session_of(alloc, all, steps) {
        Ok(mut session) => {
            let status = serve(alloc, &mut session, store, input, out, steps);
            // The program ends after a run, and the system takes all memory at once.
            mem::forget(session);
            status
        }
        Err(Memory) => finish(out, OUT_OF_MEMORY, Status::NoMemory),
    }
}

// Runs the fixed script of the session of a generated document, without the run's store and input.
fn run_alone<O: Sink, L: Ledger>(
    alloc: Global,
    all: Opened,
    out: &mut O,
    steps: &mut Steps<L>,
) -> Status
    requires width { (20 ≤ all.width) × (all.width ≤ 500) }
    requires height { (5 ≤ all.height) × (all.height ≤ 500) }
    requires number { (1 ≤ length all.buffers) × (length all.buffers ≤ MOST_BUFFERS) }
    requires names { NamesDiffer all.buffers }
    ensures ended { IsUnopenedLine no_memory result (O.seen out.old).written (O.seen out.new).written
        ⊎ ((old : ℕ) → steps.old + made all.buffers ≤ old + generating_cost all
        → IsServedAlone all old steps.new result (O.seen out.old).written (O.seen out.new).written) }
    ensures served { ¬ EndsAtOpening result }
    ensures no_input { result ≢ Status.InputFault }
    ensures not_long { result ≢ Status.ScriptLong }
    ensures complete { ¬ Rose (O.seen out.old).faults (O.seen out.new).faults
        → (result ≡ Status.Ok) ⊎ (result ≡ Status.NoMemory) }
    ensures output_fault_counted { result ≡ Status.OutputFault → Rose (O.seen out.old).faults (O.seen out.new).faults }
    ensures output_goes_on { SinkGoesOn (O.seen out.old) (O.seen out.new) }
{
    let mut files = NoFiles;
    let mut script = FixedScript {
        rest: GENERATED_SCRIPT,
    };
    run_opened(alloc, all, &mut files, &mut script, out, steps)
}

/// Runs the program on the words of its command line, the program's name first: `tmx [--width N] [--height N] FILE
/// [STYLE]...`. It opens the files that they name, in their order, or writes one line that says why the first that
/// can't be opened wasn't. Then it executes the lines of the script that comes from the input, each as soon as it has
/// ended.
///
/// The script ends at a line `quit` or with the input, and has at most 2^24 bytes. After a fault of the input the lines
/// that had ended in what was taken are executed. Of a script that is too long these are the lines that end within the
/// limit. When out of memory they are the lines before the one that couldn't be stored. Then one line says why. After a
/// fault of the output, what was written is a part of that, from its start on.
///
/// The view's cache and the steps go on from line to line, as `Session::step` says, from an empty cache on. `work`
/// prints the steps of the last refresh.
///
/// Where FILE is `gen:number:count`, the document that is generated from the number is opened, and the script is a
/// fixed one (`generated_lines` of `specs/Runs.antt`): neither the store nor the input is called.
pub fn run<S: Store, I: Source, O: Sink, L: Ledger>(
    alloc: Global,
    words: &[String],
    store: &mut S,
    input: &mut I,
    out: &mut O,
    steps: &mut Steps<L>,
) -> Status
    ensures run { IsRun (map string_bytes words.now) result
        (seen_outside (S.seen store.old) (I.seen input.old) (O.seen out.old) steps.old)
        (seen_outside (S.seen store.new) (I.seen input.new) (O.seen out.new) steps.new) }

    // Where each status comes.
    ensures words { result ≡ Status.Words → AreFaulty (map string_bytes words.now) }
    ensures words_only { AreFaulty (map string_bytes words.now)
        → (result ≡ Status.Words) ⊎ (result ≡ Status.NoMemory) ⊎ (result ≡ Status.OutputFault) }
    ensures missing_counted { result ≡ Status.Missing → Rose (S.seen store.old).misses (S.seen store.new).misses }
    ensures loads { EndsAtOpening result → HasOpenedNothing S.load_leaves S.seen (map string_bytes words.now) result
        store.old store.new (O.seen out.old).written (O.seen out.new).written }
    ensures refused { result ≡ Status.Refused
        → IsFileRefused (map string_bytes words.now) (S.seen store.old) (S.seen store.new) }
    ensures store_fault_counted { result ≡ Status.StoreFault
        → Rose (S.seen store.old).faults (S.seen store.new).faults }
    ensures input_fault_counted { result ≡ Status.InputFault
        → Rose (I.seen input.old).faults (I.seen input.new).faults }
    ensures output_fault_counted { result ≡ Status.OutputFault → Rose (O.seen out.old).faults (O.seen out.new).faults }
    ensures script_long { result ≡ Status.ScriptLong → IfSome (I.seen input.old).left (λ script. ¬ CanBeRead script) }
    ensures complete { CanBeOpened (map string_bytes words.now) (S.seen store.old).files
        → ((script : List ℕ) × ((I.seen input.old).left ≡ Some script) × CanBeRead script)
        → StoreIsFaultless (S.seen store.old) (S.seen store.new)
        → ¬ Rose (I.seen input.old).faults (I.seen input.new).faults
        → ¬ Rose (O.seen out.old).faults (O.seen out.new).faults
        → (result ≡ Status.Ok) ⊎ (result ≡ Status.NoMemory) }
    ensures complete_generated { AskToGenerate (map string_bytes words.now)
        → ¬ Rose (O.seen out.old).faults (O.seen out.new).faults
        → (result ≡ Status.Ok) ⊎ (result ≡ Status.NoMemory) }

    // What is as before, and what goes on.
    ensures words_touch_nothing { AreFaulty (map string_bytes words.now)
        → (store.new ≡ store.old) × (input.new ≡ input.old) × (steps.new ≡ steps.old) }
    ensures generated_touches_nothing { AskToGenerate (map string_bytes words.now)
        → (store.new ≡ store.old) × (input.new ≡ input.old) }
    ensures untouched_unless_asked { (store.new ≡ store.old) ⊎ AskForFiles (map string_bytes words.now) }
    ensures unread { EndsAtOpening result → input.new ≡ input.old }
    ensures unread_unless_opened { (input.new ≡ input.old)
        ⊎ ((all : WasOpened) × ComesTo (map string_bytes words.now) (S.seen store.old).files (opened all)) }
    ensures store_goes_on { StoreGoesOn (S.seen store.old) (S.seen store.new) }
    ensures input_goes_on { SourceGoesOn (I.seen input.old) (I.seen input.new) }
    ensures output_goes_on { SinkGoesOn (O.seen out.old) (O.seen out.new) }
{
    let opening = open(alloc, words, store, steps);
    match opening {
        Opening::FaultyWords => finish(out, USAGE, Status::Words),
        Opening::Opened(all) => run_opened(alloc, all, store, input, out, steps),
        Opening::Generated(all) => run_alone(alloc, all, out, steps),
        failed => report(alloc, &failed, out),
    }
}

/// A law: words, files, a script and marks have one status and one text, where no device failed otherwise and memory
/// sufficed otherwise. The marks say at which lines memory ran out or the store failed and which numbers `work`
/// printed. Where the store never failed, they leave the same files.
pub fn one_run()
    ensures { (words : List (List ℕ)) (all : Files) (script : List ℕ) (marks : List LineMark) (o p : OpenOutcome)
        (v w x y : Outside) (s t : Status) (a b : List ℕ)
        → IsFinal s → IsFinal t → v.store.files ≡ Some all → w.store.files ≡ Some all
        → v.input.left ≡ Some script → w.input.left ≡ Some script
        → ComesTo words (Some all) o → ComesTo words (Some all) p
        → IsWhole o v x marks s a → IsWhole p w y marks t b
        → (s ≡ t) × (a ≡ b) × (unsaved_in marks ≡ 0 → HoldSameFiles x.store.files y.store.files) }
{
    one_view();
    one_outcome();
}

/// A law: where memory sufficed at each line, the numbers that `work` printed are determined too. Of two runs of the
/// same words, files and script whose marks differ in those numbers alone, the marks are the same.
pub fn numbers_determined()
    ensures { (words : List (List ℕ)) (all : Files) (script : List ℕ) (marks others : List LineMark) (o p : OpenOutcome)
        (v w x y : Outside) (s t : Status) (a b : List ℕ)
        → IsFinal s → IsFinal t → v.input.left ≡ Some script → w.input.left ≡ Some script
        → ComesTo words (Some all) o → ComesTo words (Some all) p
        → Suffices marks → map untold marks ≡ map untold others
        → IsWhole o v x marks s a → IsWhole p w y others t b
        → marks ≡ others }
{
    one_view();
    one_outcome();
}

/// A law: the store's count of faults rises by at least the number of lines that are marked so, or is at its last
/// value: over lines that are executed, and over a whole run.
pub fn failures_counted()
    ensures lines { (before last : World) (lines : List (List ℕ)) (marks : List LineMark) (text : List ℕ)
        → Answered before lines marks last text → RoseBy (unsaved_in marks) before.store.faults last.store.faults }
    ensures whole { (o : OpenOutcome) (before after : Outside) (marks : List LineMark) (status : Status) (text : List ℕ)
        → IsWhole o before after marks status text
        → RoseBy (unsaved_in marks) before.store.faults after.store.faults }
{}
