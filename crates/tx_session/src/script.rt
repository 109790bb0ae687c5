// The lines of a script, read and executed in order.
ghost use Rattle.std.specs.Prelude.{◌≡◌, ◌≢◌, ◌≤◌, ◌<◌, ◌+◌, ◌∷◌, ◌++◌, ◌⊎◌, ℕ, List, [], Option};
ghost use Rattle.std.specs.Prelude.{Bool, length, decimal, IfOk, OnOk, OnErr, IfErr, IfSome, Ok};
ghost use Rattle.tx_outside.specs.Counts.{Rose};
ghost use Rattle.tx_outside.specs.Outside.{SinkGoesOn, SourceGoesOn, StoreGoesOn};
ghost use Rattle.tx_cmd.specs.declared.command.CmdFault.{CmdFault};
ghost use Rattle.tx_session.specs.Replies.{refusal, wanting_reply};
ghost use Rattle.tx_session.specs.Worlds.{World, world};
ghost use Rattle.tx_session.specs.Scripts.{command_line, is_quit};
ghost use Rattle.tx_session.specs.Runs.{TellsScript};
ghost use Rattle.tx_session.specs.Executed.{IsExecuted};
ghost use Rattle.tx_session.specs.Writing.{IsSaid};
ghost use Rattle.tx_session.specs.Keeping.{KeepsLine, StandsWith, TurnLeadsTo, IsTurned};
ghost use Rattle.tx_session.specs.Playing.{IsEnd};

use crate::MOST_SCRIPT;
use crate::kept_line::KeptLine;
use crate::replies::{say, unread};
use crate::session::{Next, Session};
use crate::status::Status;
use std::alloc::Global;
use std::sync::ledger::Ledger;
use tx_base::{Memory, Steps};
use tx_cmd::{CmdFault, MOST_LINE, parse};
use tx_outside::{Failed, Sink, Source, Store, WriteFault};

// Refuses a line that is no command.
fn refuse<O: Sink>(alloc: Global, out: &mut O, fault: CmdFault) -> Result<Next, WriteFault>
    ensures said { (reply : List ℕ) × ((reply ≡ refusal fault) ⊎ (reply ≡ wanting_reply))
        × IsSaid result reply (O.seen out.old).written (O.seen out.new).written }
    ensures goes { result ≢ Ok Next.Quit }
    ensures failed_rose { OnErr result (Rose (O.seen out.old).faults (O.seen out.new).faults) }
    ensures output_goes_on { SinkGoesOn (O.seen out.old) (O.seen out.new) }
{
    say(out, unread(alloc, fault).text())
}

impl Session {
    /// Executes a line of a script, as `run` does. The line has no newline, and no return that belongs to one. An empty
    /// line has no reply, and one that is no command is refused with its first cause (docs/COMMANDS.md). The replies
    /// are the session's, whatever the lines before were. The one error is a failed output.
    pub fn line<S: Store, O: Sink, L: Ledger>(
        &mut self,
        alloc: Global,
        text: &[u8],
        store: &mut S,
        out: &mut O,
        steps: &mut Steps<L>,
    ) -> Result<Next, WriteFault>
        ensures executed { IsExecuted result (world self.old (S.seen store.old) steps.old) text.now
            (world self.new (S.seen store.new) steps.new) (O.seen out.old).written (O.seen out.new).written }
        ensures failed_rose { OnErr result (Rose (O.seen out.old).faults (O.seen out.new).faults) }
        ensures store_goes_on { StoreGoesOn (S.seen store.old) (S.seen store.new) }
        ensures output_goes_on { SinkGoesOn (O.seen out.old) (O.seen out.new) }
    {
        if text.len() > MOST_LINE {
            return refuse(alloc, out, CmdFault::Long(text.len() as u64));
        }
        if text.is_empty() {
            return Ok(Next::Go);
        }
        match parse(alloc, text, steps) {
            Ok(command) => self.step(alloc, &command, store, out, steps),
            Err(fault) => refuse(alloc, out, fault),
        }
    }
}

// Executes a line that has ended.
fn answer_line<S: Store, O: Sink, L: Ledger>(
    alloc: Global,
    session: &mut Session,
    line: &KeptLine,
    store: &mut S,
    out: &mut O,
    steps: &mut Steps<L>,
) -> Result<Next, WriteFault>
    requires kept { (bytes : List ℕ) × KeepsLine line.now bytes }
    ensures answered { (bytes : List ℕ) → KeepsLine line.now bytes
        → IsTurned result (world session.old (S.seen store.old) steps.old) bytes
        (world session.new (S.seen store.new) steps.new) (O.seen out.old).written (O.seen out.new).written }
    ensures failed_rose { OnErr result (Rose (O.seen out.old).faults (O.seen out.new).faults) }
    ensures store_goes_on { StoreGoesOn (S.seen store.old) (S.seen store.new) }
    ensures output_goes_on { SinkGoesOn (O.seen out.old) (O.seen out.new) }
{
    match line.text() {
        Ok(text) => session.line(alloc, text, store, out, steps),
        Err(count) => refuse(alloc, out, CmdFault::Long(count as u64)),
    }
}

// What a byte of the script leads to.
pub(crate) enum Turn {
    Go,
    Quit,
    NoMemory,
    OutputFailed,
}

// Takes the next byte of the script.
fn take_byte<S: Store, O: Sink, L: Ledger>(
    alloc: Global,
    session: &mut Session,
    line: &mut KeptLine,
    byte: u8,
    store: &mut S,
    out: &mut O,
    steps: &mut Steps<L>,
) -> Turn
    requires kept { (bytes : List ℕ) × KeepsLine line.old bytes }
    requires room { line.old.count < MOST_SCRIPT }
    ensures leads { (start : World) (before : Option (List ℕ)) (bytes : List ℕ)
        → StandsWith start before bytes (world session.old (S.seen store.old) steps.old) line.old
        (O.seen out.old).written
        → TurnLeadsTo result start before (bytes ++ byte ∷ [])
        (world session.new (S.seen store.new) steps.new) line.new (O.seen out.new).written }
    ensures kept { result ≡ Turn.Go → (bytes : List ℕ) × KeepsLine line.new bytes }
    ensures count { line.new.count ≤ line.old.count + 1 }
    ensures output_failed { result ≡ Turn.OutputFailed → Rose (O.seen out.old).faults (O.seen out.new).faults }
    ensures store_goes_on { StoreGoesOn (S.seen store.old) (S.seen store.new) }
    ensures output_goes_on { SinkGoesOn (O.seen out.old) (O.seen out.new) }
{
    if byte != b'\n' {
        return match line.add(byte) {
            Ok(()) => Turn::Go,
            Err(Memory) => Turn::NoMemory,
        };
    }
    match answer_line(alloc, session, line, store, out, steps) {
        Ok(Next::Go) => {
            line.clear();
            Turn::Go
        }
        Ok(Next::Quit) => Turn::Quit,
        Err(WriteFault::Failed) => Turn::OutputFailed,
    }
}

// Takes the next bytes of the script.
fn take_piece<S: Store, O: Sink, L: Ledger>(
    alloc: Global,
    session: &mut Session,
    line: &mut KeptLine,
    piece: &[u8],
    store: &mut S,
    out: &mut O,
    steps: &mut Steps<L>,
) -> Turn
    requires kept { (bytes : List ℕ) × KeepsLine line.old bytes }
    requires room { line.old.count + length piece.now ≤ MOST_SCRIPT }
    ensures leads { (start : World) (before : Option (List ℕ)) (bytes : List ℕ)
        → StandsWith start before bytes (world session.old (S.seen store.old) steps.old) line.old
        (O.seen out.old).written
        → TurnLeadsTo result start before (bytes ++ piece.now)
        (world session.new (S.seen store.new) steps.new) line.new (O.seen out.new).written }
    ensures kept { result ≡ Turn.Go → (bytes : List ℕ) × KeepsLine line.new bytes }
    ensures count { line.new.count ≤ line.old.count + length piece.now }
    ensures output_failed { result ≡ Turn.OutputFailed → Rose (O.seen out.old).faults (O.seen out.new).faults }
    ensures store_goes_on { StoreGoesOn (S.seen store.old) (S.seen store.new) }
    ensures output_goes_on { SinkGoesOn (O.seen out.old) (O.seen out.new) }
{
    for byte in piece {
        match take_byte(alloc, session, line, *byte, store, out, steps) {
            Turn::Go => {}
            turn => return turn,
        }
    }
    Turn::Go
}

// Executes the script's last line, which ends with the script.
fn end_script<S: Store, O: Sink, L: Ledger>(
    alloc: Global,
    session: &mut Session,
    line: &KeptLine,
    store: &mut S,
    out: &mut O,
    steps: &mut Steps<L>,
) -> Status
    requires kept { (bytes : List ℕ) × KeepsLine line.now bytes }
    ensures end { (start : World) (told : Option (List ℕ)) (before : Option (List ℕ)) (script : List ℕ)
        → StandsWith start before script (world session.old (S.seen store.old) steps.old) line.now
        (O.seen out.old).written → TellsScript told script → length script ≤ MOST_SCRIPT
        → (rest : Option (List ℕ)) → IfSome rest (λ bytes. bytes ≡ []) → IsEnd result start
        (world session.new (S.seen store.new) steps.new) told rest before (O.seen out.new).written }
    ensures status { (result ≡ Status.Ok) ⊎ (result ≡ Status.OutputFault) }
    ensures output_fault_counted { result ≡ Status.OutputFault → Rose (O.seen out.old).faults (O.seen out.new).faults }
    ensures store_goes_on { StoreGoesOn (S.seen store.old) (S.seen store.new) }
    ensures output_goes_on { SinkGoesOn (O.seen out.old) (O.seen out.new) }
{
    match answer_line(alloc, session, line, store, out, steps) {
        Ok(_) => Status::Ok,
        Err(WriteFault::Failed) => Status::OutputFault,
    }
}

/// Reads the script from its source, piece by piece, and executes each line as soon as it has ended. The status says
/// how the script ended; its own line isn't written.
pub(crate) fn play<S: Store, I: Source, O: Sink, L: Ledger>(
    alloc: Global,
    session: &mut Session,
    store: &mut S,
    input: &mut I,
    out: &mut O,
    steps: &mut Steps<L>,
) -> Status
    ensures end { IsEnd result (world session.old (S.seen store.old) steps.old)
        (world session.new (S.seen store.new) steps.new) (I.seen input.old).left (I.seen input.new).left
        (O.seen out.old).written (O.seen out.new).written }
    ensures input_fault_counted { result ≡ Status.InputFault
        → Rose (I.seen input.old).faults (I.seen input.new).faults }
    ensures output_fault_counted { result ≡ Status.OutputFault → Rose (O.seen out.old).faults (O.seen out.new).faults }
    ensures store_goes_on { StoreGoesOn (S.seen store.old) (S.seen store.new) }
    ensures input_goes_on { SourceGoesOn (I.seen input.old) (I.seen input.new) }
    ensures output_goes_on { SinkGoesOn (O.seen out.old) (O.seen out.new) }
{
    let mut line = KeptLine::new(alloc);
    let mut piece = [0u8; 4096];
    let mut room = MOST_SCRIPT;
    loop {
        let count = match input.read(&mut piece) {
            Ok(0) => return end_script(alloc, session, &line, store, out, steps),
            Ok(count) => count,
            Err(Failed) => return Status::InputFault,
        };
        let within = count.min(room);
        match take_piece(
            alloc,
            session,
            &mut line,
            &piece[..within],
            store,
            out,
            steps,
        ) {
            Turn::Go => {}
            Turn::Quit => return Status::Ok,
            Turn::NoMemory => return Status::NoMemory,
            Turn::OutputFailed => return Status::OutputFault,
        }
        if within < count {
            return Status::ScriptLong;
        }
        room -= within;
    }
}
