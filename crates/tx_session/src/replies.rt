// Replies, and how they are written.
ghost use Rattle.std.specs.Prelude.{◌≡◌, ◌≢◌, ◌++◌, ◌∷◌, ◌⊎◌, ◌≤◌, ℕ, List, length, codes, decimal, IfOk, OnErr, Ok};
ghost use Rattle.tx_cmd.specs.declared.command.Command.{Command};
ghost use Rattle.tx_outside.specs.Counts.{Rose};
ghost use Rattle.tx_outside.specs.Outside.{SinkGoesOn};
ghost use Rattle.tx_session.specs.Asking.{is_plain_mark};
ghost use Rattle.tx_session.specs.Causes.{cause_reply, astray_reply, key_reply, leave_reply, numbered_line};
ghost use Rattle.tx_session.specs.FaultTexts.{read_fault_text};
ghost use Rattle.tx_print.specs.Lines.{line};
ghost use Rattle.tx_print.specs.Work.{work_reply};
ghost use Rattle.tx_session.specs.Differences.{IsPlainReply};
ghost use Rattle.tx_session.specs.Replies.{IsDone, refusal};
ghost use Rattle.tx_session.specs.Saying.{Says, reply_mark, reply_text};
ghost use Rattle.tx_session.specs.Worlds.{SeenWorld, plain};
ghost use Rattle.tx_session.specs.Writing.{IsSaid};

use crate::fault_lines::line_of_fault;
use crate::session::Next;
use std::alloc::Global;
use tx_base::Memory;
use tx_cmd::CmdFault;
use tx_edit::EditFault;
use tx_mod::ModFault;
use tx_outside::{Sink, WriteFault, write_all};
use tx_state::LeaveFault;
use tx_tree::{PlaceFault, ReadFault};

/// The reply where memory ran out.
pub(crate) const NO_MEMORY: &[u8] = b"no memory\n";

/// The reply to a command.
#[derive(Drop)]
pub(crate) enum Reply {
    /// What was asked for is done.
    Done,
    /// A reply that is always the same.
    Fixed(&'static [u8]),
    /// A reply that was made.
    Made(Vec<u8>),
    /// Memory ran out, and nothing was done.
    Wanting,
    /// The store failed in saving a file.
    Unsaved,
}

impl Reply {
    /// The reply's bytes.
    pub(crate) fn text(&self) -> &[u8]
        ensures { result.now ≡ reply_text self.now }
    {
        match self {
            Reply::Done => b"ok\n",
            Reply::Fixed(text) => text,
            Reply::Made(text) => text,
            Reply::Wanting => NO_MEMORY,
            Reply::Unsaved => b"no store\n",
        }
    }

    /// Whether the command was done or refused: memory didn't run out, and the store didn't fail.
    pub(crate) fn is_plain(&self) -> bool
        ensures { result ≡ is_plain_mark (reply_mark self.now) }
    {
        match self {
            Reply::Done | Reply::Fixed(_) | Reply::Made(_) => true,
            Reply::Wanting | Reply::Unsaved => false,
        }
    }
}

/// A line of words and a number.
pub(crate) fn numbered(alloc: Global, words: &str, number: u64) -> Reply
    ensures { Says result (numbered_line words.now number) }
{
    match format!(in alloc; "{words}{number}\n") {
        Ok(text) => Reply::Made(text.into_bytes()),
        Err(_) => Reply::Wanting,
    }
}

/// The reply where there is no such cell: how many rows the view has, and how many columns.
pub(crate) fn no_cell(alloc: Global, rows: u32, width: u32) -> Reply
    ensures { Says result (line (codes "no cell " ++ decimal rows ++ 32 ∷ decimal width)) }
{
    match format!(in alloc; "no cell {rows} {width}\n") {
        Ok(text) => Reply::Made(text.into_bytes()),
        Err(_) => Reply::Wanting,
    }
}

/// The reply to a key that does nothing.
pub(crate) fn idle(fault: EditFault) -> Reply
    ensures named { fault ≢ EditFault.Memory → (reply_text result ≡ key_reply fault) × (reply_mark result ≡ plain) }
    ensures wanting { fault ≡ EditFault.Memory → result ≡ Reply.Wanting }
{
    match fault {
        EditFault::NoText => Reply::Fixed(b"no text\n"),
        EditFault::AtStart => Reply::Fixed(b"no start\n"),
        EditFault::AtEnd => Reply::Fixed(b"no end\n"),
        EditFault::NotInParagraph => Reply::Fixed(b"no paragraph\n"),
        EditFault::Memory => Reply::Wanting,
    }
}

/// The reply to an edit that is refused.
pub(crate) fn refused(alloc: Global, cause: ModFault) -> Reply
    ensures { Says result (cause_reply cause) }
{
    match cause {
        ModFault::NoPath(n) => numbered(alloc, "no path-end ", u64::from(n)),
        ModFault::NotString => Reply::Fixed(b"no not-string\n"),
        ModFault::NotNode => Reply::Fixed(b"no not-node\n"),
        ModFault::BadPlace(n) => numbered(alloc, "no bad-place ", n),
        ModFault::Differ => Reply::Fixed(b"no differ\n"),
        ModFault::CutsSymbol(n) => numbered(alloc, "no cuts-symbol ", n),
        ModFault::TooLong(n) => numbered(alloc, "no too-long ", n),
        ModFault::TooWide(n) => numbered(alloc, "no too-wide ", n),
        ModFault::TooDeep(n) => numbered(alloc, "no too-deep ", n),
        ModFault::TooBig(n) => numbered(alloc, "no too-big ", n),
    }
}

/// The reply where an earlier edit can't be taken back.
pub(crate) fn not_left(alloc: Global, fault: LeaveFault) -> Reply
    ensures named { fault ≢ LeaveFault.Memory → Says result (leave_reply fault) }
    ensures wanting { fault ≡ LeaveFault.Memory → result ≡ Reply.Wanting }
{
    match fault {
        LeaveFault::Nothing => Reply::Fixed(b"no undo\n"),
        LeaveFault::Entangled(j) => numbered(alloc, "no entangled ", u64::from(j)),
        LeaveFault::Refused(cause) => refused(alloc, cause),
        LeaveFault::Memory => Reply::Wanting,
    }
}

// The reply where a line's tree is none.
fn no_tree(alloc: Global, fault: ReadFault) -> Reply
    ensures { Says result (line (codes "no tree " ++ read_fault_text fault)) }
{
    match line_of_fault(alloc, b"no tree ", fault) {
        Ok(text) => Reply::Made(text),
        Err(Memory) => Reply::Wanting,
    }
}

/// The reply to a line that is no command.
pub(crate) fn unread(alloc: Global, fault: CmdFault) -> Reply
    ensures { Says result (refusal fault) }
{
    match fault {
        CmdFault::Long(length) => numbered(alloc, "no long ", length),
        CmdFault::Unknown => Reply::Fixed(b"no unknown\n"),
        CmdFault::Args(at) => numbered(alloc, "no args ", at as u64),
        CmdFault::Path(at) => numbered(alloc, "no path ", at as u64),
        CmdFault::Tree(fault) => no_tree(alloc, fault),
        CmdFault::Memory => Reply::Wanting,
    }
}

/// The reply to a move of the cursor to what is no place.
pub(crate) fn astray(alloc: Global, cause: PlaceFault) -> Reply
    ensures { Says result (astray_reply cause) }
{
    match cause {
        PlaceFault::NoPath(n) => numbered(alloc, "no path-end ", u64::from(n)),
        PlaceFault::BadPlace(n) => numbered(alloc, "no bad-place ", n),
        PlaceFault::CutsSymbol(n) => numbered(alloc, "no cuts-symbol ", n),
    }
}

/// Writes a reply.
pub(crate) fn say<O: Sink>(out: &mut O, reply: &[u8]) -> Result<Next, WriteFault>
    ensures said { IsSaid result reply.now (O.seen out.old).written (O.seen out.new).written }
    ensures goes { result ≢ Ok Next.Quit }
    ensures failed_rose { OnErr result (Rose (O.seen out.old).faults (O.seen out.new).faults) }
    ensures output_goes_on { SinkGoesOn (O.seen out.old) (O.seen out.new) }
{
    write_all(out, reply)?;
    Ok(Next::Go)
}

/// A law: what is said of a command that was done, of the steps of a refresh, and of a line that is no command, is
/// never the line where memory ran out or the one where the store failed.
pub fn replies_tell_marks()
    ensures done { (before after : SeenWorld) (it : Command) (reply : List ℕ) → IsDone before it after reply
        → IsPlainReply reply }
    ensures told { (n : ℕ) → IsPlainReply (work_reply n) }
    ensures refused { (cause : CmdFault) → cause ≢ CmdFault.Memory → IsPlainReply (refusal cause) }
{}
