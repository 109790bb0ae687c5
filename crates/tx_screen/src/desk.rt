// What a screen has beside its session.
ghost use Rattle.std.specs.Prelude.{◌≡◌, ◌⊎◌, ◌<◌, ◌++◌, ℕ, List, [], true, length, IfOk, OnOk, OnErr, Option};
ghost use Rattle.tx_terminal.specs.Painter.{Repaints};
ghost use Rattle.tx_screen.specs.Frames.{IsDrawn};
ghost use Rattle.tx_screen.specs.Keys.{KeyLines};

use crate::frames::{Frame, frame_of};
use crate::lines::Line;
use crate::modes::{Mode, Question, Size};
use crate::moving::is_vertical;
use std::alloc::Global;
use std::marker::Model;
use std::mem;
use tx_base::Memory;
use tx_keys::Key;
use tx_session::Session;
use tx_terminal::Painter;
use tx_tree::Tree;

/// What keys mean, what the status line says, and what is shown.
///
/// Contracts see whether keys edit the document.
#[derive(Drop)]
pub(crate) struct Desk {
    pub(crate) mode: Mode,
    // what the status line says until the next key
    pub(crate) message: Vec<u8>,
    // the column that moves up and down keep
    pub(crate) goal: Option<u32>,
    // the page that is shown, from 0
    pub(crate) page: u32,
    pub(crate) size: Size,
    // whether the terminal was asked for its size
    pub(crate) asked_size: bool,
    pub(crate) painter: Painter,
    // the word under which the document is saved
    pub(crate) word: Vec<u8>,
    // the trees of all buffers as they were opened, or as the document was saved last
    pub(crate) saved: Vec<Tree>,
    // whether a line was accepted that may have changed a buffer since
    pub(crate) edited: bool,
    // whether the whole reply to the next line is shown
    pub(crate) shows_reply: bool,
    pub(crate) ended: bool,
}

impl Model for Desk {
    ghost use Rattle.tx_screen.specs.Screens.{DeskSeen, edits_in};

    ghost Value = { DeskSeen };

    ghost view = { λ d. record { edits = edits_in d.mode; size = d.size; painted = d.painter } };
}

impl Desk {
    // The lines that a key asks for, in order.
    pub(crate) fn plan(
        &mut self,
        alloc: Global,
        session: &Session,
        key: Key,
    ) -> Result<Vec<Line>, Memory>
        ensures lines { self.old.edits ≡ true → IfOk result (λ lines. KeyLines session.now.seen.state key lines.items) }
        ensures painted { (self.new.painted ≡ self.old.painted) ⊎ (self.new.painted ≡ []) }
    {
        self.message.clear();
        self.shows_reply = false;
        if !is_vertical(key) {
            self.goal = None;
        }
        if let Key::Report(rows, columns) = key {
            self.resize(rows, columns);
            return Ok(Vec::new(alloc));
        }
        match mem::replace(&mut self.mode, Mode::Text) {
            Mode::Text => self.text_key(alloc, session, key),
            Mode::Asked(question, typed) => self.answer_key(alloc, session, question, typed, key),
            Mode::Errors(chosen) => self.error_key(alloc, session, chosen, key),
            Mode::Shown(_) => Ok(Vec::new(alloc)),
            Mode::Leaving => {
                self.leave_key(key);
                Ok(Vec::new(alloc))
            }
            Mode::Pasted(text) => self.pasted_key(alloc, text, key),
        }
    }

    // Appends the bytes that show a frame.
    pub(crate) fn show(&mut self, frame: Frame, out: &mut Vec<u8>) -> Result<(), Memory>
        requires { length frame.rows.items < 65536 }
        ensures shown { OnOk result ((bytes : List ℕ) × (out.new.items ≡ out.old.items ++ bytes)
            × Repaints bytes self.old.painted frame.rows.items frame.cursor
            × (self.new ≡ record self.old { painted = frame.rows.items })) }
        ensures refused { OnErr result ((out.new.items ≡ out.old.items) × (self.new ≡ self.old)) }
    {
        let Frame { rows, cursor, page } = frame;
        self.painter.paint(rows, cursor, out)?;
        self.page = page;
        Ok(())
    }

    // Appends the bytes that show the page of the cursor, and the status line below it.
    pub(crate) fn show_page(
        &mut self,
        alloc: Global,
        session: &Session,
        out: &mut Vec<u8>,
    ) -> Result<(), Memory>
        ensures drawn { OnOk result (IsDrawn self.old session.now.seen out.old.items out.new.items self.new) }
        ensures refused { OnErr result ((out.new.items ≡ out.old.items) × (self.new.painted ≡ self.old.painted)) }
        ensures as_was { (self.new.edits ≡ self.old.edits) × (self.new.size ≡ self.old.size) }
    {
        let frame = frame_of(alloc, session, self)?;
        self.show(frame, out)
    }

    // Takes the size that the terminal says, where it was asked. What a terminal of another size shows isn't known.
    fn resize(&mut self, rows: u32, columns: u32)
        ensures { (self.new.painted ≡ self.old.painted) ⊎ (self.new.painted ≡ []) }
    {
        if self.asked_size {
            self.asked_size = false;
            self.painter.forget();
            self.size = Size {
                columns: columns.min(65535) as u16,
                rows: rows.min(65535) as u16,
            };
        }
    }

    // Takes the reply to a line.
    pub(crate) fn take_reply(
        &mut self,
        alloc: Global,
        session: &Session,
        line: &[u8],
        reply: &[u8],
    ) -> Result<(), Memory>
        ensures painted { self.new.painted ≡ self.old.painted }
    {
        if reply.starts_with(b"no ") {
            return self.take_refusal(alloc, line, reply);
        }
        if reply.starts_with(b"saved ") {
            return self.take_saved(alloc, session, line, reply);
        }
        if !is_look(line) {
            self.edited = true;
        }
        if self.shows_reply {
            return self.show_reply(alloc, reply);
        }
        Ok(())
    }

    // Takes a refusal. Where a key asked for a save, another name is asked for.
    fn take_refusal(&mut self, alloc: Global, line: &[u8], reply: &[u8]) -> Result<(), Memory>
        ensures painted { self.new.painted ≡ self.old.painted }
    {
        if line.starts_with(b"save ") && !self.shows_reply {
            self.mode = Mode::Asked(Question::Name, Vec::new(alloc));
        }
        self.say_refusal(reply)
    }
}

// Whether a line changes no buffer: it only goes somewhere, selects, prints, or saves.
fn is_look(line: &[u8]) -> bool {
    line.starts_with(b"go ")
        || line.starts_with(b"at ")
        || line.starts_with(b"left")
        || line.starts_with(b"right")
        || line.starts_with(b"click")
        || line.starts_with(b"show")
        || line.starts_with(b"page")
        || line.starts_with(b"errors")
        || line.starts_with(b"where")
        || line.starts_with(b"attrs")
        || line.starts_with(b"work")
        || line.starts_with(b"cursor")
        || line.starts_with(b"tree")
        || line.starts_with(b"save")
}
