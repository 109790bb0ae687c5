// The screen.
ghost use Rattle.std.specs.Prelude.{◌≡◌, ◌⊎◌, ◌≤◌, ◌+◌, ℕ, List, [], ◌∷◌, ◌++◌, true, false, codes, length};
ghost use Rattle.std.specs.Prelude.{IfOk, OnOk, OnErr, Option};
ghost use Rattle.tx_doc.specs.Buffers.{NamesDiffer};
ghost use Rattle.tx_state.specs.declared.TheConstants.{MOST_BUFFERS};
ghost use Rattle.tx_state.specs.States.{opening_state};
ghost use Rattle.tx_units.specs.Units.{made};
ghost use Rattle.tx_view.specs.Names.{Empty};
ghost use Rattle.std.specs.Str.{bytes_eq};
ghost use Rattle.tx_session.specs.Worlds.{world};
ghost use Rattle.tx_screen.specs.Frames.{IsDrawn};
ghost use Rattle.tx_screen.specs.Keys.{AreLinesOf, KeyLines};
ghost use Rattle.tx_screen.specs.Screens.{IsTold};

use crate::desk::Desk;
use crate::lines::Line;
use crate::modes::{Mode, Size};
use crate::moving::needs_view;
use crate::saving::trees_of;
use std::alloc::Global;
use std::marker::Model;
use std::sync::ledger::Ledger;
use tx_base::{Memory, Steps};
use tx_doc::Buffer;
use tx_keys::Key;
use tx_outside::{MemSink, Store};
use tx_session::Session;
use tx_terminal::Painter;

// The most bytes of a reply that are looked at. The rest is left out.
const MOST_REPLY: usize = 65536;

/// A session that is shown on a terminal, and the keys that are typed there.
///
/// Contracts see the session, and whether keys edit the document: nothing is asked, shown or pasted.
#[derive(Drop)]
pub struct Screen {
    session: Session,
    desk: Desk,
}

impl Model for Screen {
    ghost use Rattle.tx_screen.specs.Screens.{ScreenSeen};

    ghost Value = { ScreenSeen };

    ghost use Rattle.tx_screen.specs.Codes.{screen_code};

    ghost coded = { screen_code };

    ghost view = { λ s. record { session = s.session; desk = s.desk } };
}

impl Screen {
    /// A screen over these buffers, the document first, on a terminal of this size. `word` is the word by which the
    /// document was opened, and is saved. `page` is the width and the height of pages. There are 1 to 64 buffers, no
    /// two of one name; pages have 20 to 500 columns and 5 to 500 rows.
    pub fn start<L: Ledger>(
        alloc: Global,
        buffers: Vec<Buffer>,
        word: Vec<u8>,
        page: (u32, u32),
        size: Size,
        steps: &mut Steps<L>,
    ) -> Result<Screen, Memory>
        requires number { (1 ≤ length buffers.items) × (length buffers.items ≤ MOST_BUFFERS) }
        requires names { NamesDiffer buffers.items }
        requires width { (20 ≤ page.0) × (page.0 ≤ 500) }
        requires height { (5 ≤ page.1) × (page.1 ≤ 500) }
        ensures seen { IfOk result (λ s. s.session.seen ≡ record {
          state = opening_state buffers.items;
          width = page.0;
          height = page.1;
          fresh = false;
        }) }
        ensures keep { IfOk result (λ s. s.session.keep ≡ record {
          fresh = false;
          stores = Empty buffers.items;
          work = 0;
        }) }
        ensures counted { steps.new ≤ steps.old + made buffers.items }
    {
        let saved = trees_of(alloc, &buffers)?;
        let desk = Desk {
            mode: Mode::Text,
            message: Vec::new(alloc),
            goal: None,
            page: 0,
            size,
            asked_size: false,
            painter: Painter::new(alloc),
            word,
            saved,
            edited: false,
            shows_reply: false,
            ended: false,
        };
        let session = Session::start(alloc, buffers, page.0, page.1, steps)?;
        Ok(Screen { session, desk })
    }

    /// Whether the user has left.
    pub fn has_ended(&self) -> bool {
        self.desk.ended
    }

    /// Whether the terminal is to be asked for its size, which it says as a key.
    pub fn asks_size(&self) -> bool {
        self.desk.asked_size
    }

    /// Whether a buffer has another tree than when it was opened, or the document than when it was saved last.
    pub fn has_changes(&self) -> bool {
        self.desk.has_changes(&self.session)
    }

    /// The status line says that memory has run out, until the next key.
    pub fn say_memory(&mut self)
        ensures session { self.new.session ≡ self.old.session }
        ensures painted { self.new.desk.painted ≡ self.old.desk.painted }
    {
        self.desk.say_memory();
    }

    // Has the session execute a line that isn't `quit`. Its reply is appended.
    fn execute<S: Store, L: Ledger>(
        &mut self,
        alloc: Global,
        line: &[u8],
        store: &mut S,
        out: &mut MemSink,
        steps: &mut Steps<L>,
    )
        requires { bytes_eq line.now (codes "quit") ≡ false }
        ensures told { IsTold (world self.old.session (S.seen store.old) steps.old) (line.now ∷ [])
            (world self.new.session (S.seen store.new) steps.new) }
        ensures desk { self.new.desk ≡ self.old.desk }
    {
        let _ = self.session.line(alloc, line, store, out, steps);
    }

    // Has the session execute a line, and returns its reply. It isn't told `quit`.
    fn tell<S: Store, L: Ledger>(
        &mut self,
        alloc: Global,
        line: &[u8],
        store: &mut S,
        steps: &mut Steps<L>,
    ) -> Result<MemSink, Memory>
        ensures told { OnOk result (IsTold (world self.old.session (S.seen store.old) steps.old) (line.now ∷ [])
            (world self.new.session (S.seen store.new) steps.new)) }
        ensures refused { OnErr result (world self.new.session (S.seen store.new) steps.new
            ≡ world self.old.session (S.seen store.old) steps.old) }
        ensures desk { self.new.desk ≡ self.old.desk }
    {
        let mut out = MemSink::new(alloc, MOST_REPLY, Vec::new(alloc))?;
        if line != b"quit".as_slice() {
            self.execute(alloc, line, store, &mut out, steps);
        }
        Ok(out)
    }

    // Has the session execute lines in order, and takes their replies.
    fn tell_all<S: Store, L: Ledger>(
        &mut self,
        alloc: Global,
        lines: &[Line],
        store: &mut S,
        steps: &mut Steps<L>,
    ) -> Result<(), Memory>
        ensures told { (all : List (List ℕ)) × IsTold (world self.old.session (S.seen store.old) steps.old) all
            (world self.new.session (S.seen store.new) steps.new) × OnOk result (all ≡ lines.now) }
        ensures painted { self.new.desk.painted ≡ self.old.desk.painted }
    {
        match lines.split_first() {
            None => Ok(()),
            Some((line, rest)) => {
                self.tell_one(alloc, line.bytes(), store, steps)?;
                self.tell_all(alloc, rest, store, steps)
            }
        }
    }

    // Has the session execute a line, and takes its reply.
    fn tell_one<S: Store, L: Ledger>(
        &mut self,
        alloc: Global,
        line: &[u8],
        store: &mut S,
        steps: &mut Steps<L>,
    ) -> Result<(), Memory>
        ensures told { OnOk result (IsTold (world self.old.session (S.seen store.old) steps.old) (line.now ∷ [])
            (world self.new.session (S.seen store.new) steps.new)) }
        ensures refused { OnErr result ((all : List (List ℕ)) × IsTold
            (world self.old.session (S.seen store.old) steps.old) all
            (world self.new.session (S.seen store.new) steps.new)) }
        ensures painted { self.new.desk.painted ≡ self.old.desk.painted }
    {
        let reply = self.tell(alloc, line, store, steps)?;
        self.take_reply(alloc, line, reply.written())
    }

    // The desk takes the reply to a line.
    fn take_reply(&mut self, alloc: Global, line: &[u8], reply: &[u8]) -> Result<(), Memory>
        ensures session { self.new.session ≡ self.old.session }
        ensures painted { self.new.desk.painted ≡ self.old.desk.painted }
    {
        self.desk.take_reply(alloc, &self.session, line, reply)
    }

    // Has the session execute `work`, which makes the view. Where memory runs out for that, there is no page to show.
    fn look<S: Store, L: Ledger>(
        &mut self,
        alloc: Global,
        store: &mut S,
        steps: &mut Steps<L>,
    ) -> Result<(), Memory>
        ensures told { (lines : List (List ℕ)) × IsTold (world self.old.session (S.seen store.old) steps.old) lines
            (world self.new.session (S.seen store.new) steps.new) × OnOk result (lines ≡ codes "work" ∷ []) }
        ensures desk { self.new.desk ≡ self.old.desk }
    {
        let reply = self.tell(alloc, b"work", store, steps)?;
        if reply.written().starts_with(b"no ") {
            return Err(Memory);
        }
        Ok(())
    }

    // Does what a key asks for, where the view is made.
    fn key_here<S: Store, L: Ledger>(
        &mut self,
        alloc: Global,
        key: Key,
        store: &mut S,
        steps: &mut Steps<L>,
    ) -> Result<(), Memory>
        ensures told { (lines : List (List ℕ)) × IsTold (world self.old.session (S.seen store.old) steps.old) lines
            (world self.new.session (S.seen store.new) steps.new)
            × (self.old.desk.edits ≡ true → OnOk result (KeyLines self.old.session.seen.state key lines)) }
        ensures painted { (self.new.desk.painted ≡ self.old.desk.painted) ⊎ (self.new.desk.painted ≡ []) }
    {
        let lines = self.desk.plan(alloc, &self.session, key)?;
        self.tell_all(alloc, &lines, store, steps)
    }

    /// Does what a key asks for. The session executes the lines that the key stands for, and before them `work` where
    /// that depends on the view. After an `Err`, which is `Memory`, it has executed some of them.
    pub fn key<S: Store, L: Ledger>(
        &mut self,
        alloc: Global,
        key: Key,
        store: &mut S,
        steps: &mut Steps<L>,
    ) -> Result<(), Memory>
        ensures told { (lines : List (List ℕ)) × IsTold (world self.old.session (S.seen store.old) steps.old) lines
            (world self.new.session (S.seen store.new) steps.new)
            × (self.old.desk.edits ≡ true → OnOk result (AreLinesOf self.old.session.seen.state key lines)) }
        ensures painted { (self.new.desk.painted ≡ self.old.desk.painted) ⊎ (self.new.desk.painted ≡ []) }
    {
        if !needs_view(key) {
            return self.key_here(alloc, key, store, steps);
        }
        self.look(alloc, store, steps)?;
        self.key_here(alloc, key, store, steps)
    }

    // Appends the bytes after which the terminal shows the page of the cursor, and the status line below it.
    fn show_page(&mut self, alloc: Global, out: &mut Vec<u8>) -> Result<(), Memory>
        ensures session { self.new.session ≡ self.old.session }
        ensures drawn { OnOk result (IsDrawn self.old.desk self.new.session.seen out.old.items out.new.items
            self.new.desk) }
        ensures refused { OnErr result ((out.new.items ≡ out.old.items)
            × (self.new.desk.painted ≡ self.old.desk.painted)) }
        ensures as_was { (self.new.desk.edits ≡ self.old.desk.edits) × (self.new.desk.size ≡ self.old.desk.size) }
    {
        self.desk.show_page(alloc, &self.session, out)
    }

    /// Appends the bytes after which the terminal shows the page of the cursor, and the status line below it. It has
    /// the session execute `work`, which makes the view. Only rows that differ from those that were drawn before are
    /// written. Where memory runs out, also for the view, nothing is added.
    pub fn draw<S: Store, L: Ledger>(
        &mut self,
        alloc: Global,
        store: &mut S,
        out: &mut Vec<u8>,
        steps: &mut Steps<L>,
    ) -> Result<(), Memory>
        ensures told { (lines : List (List ℕ)) × IsTold (world self.old.session (S.seen store.old) steps.old) lines
            (world self.new.session (S.seen store.new) steps.new) × OnOk result (lines ≡ codes "work" ∷ []) }
        ensures drawn { OnOk result (IsDrawn self.old.desk self.new.session.seen out.old.items out.new.items
            self.new.desk) }
        ensures refused { OnErr result ((out.new.items ≡ out.old.items)
            × (self.new.desk.painted ≡ self.old.desk.painted)) }
        ensures as_was { (self.new.desk.edits ≡ self.old.desk.edits) × (self.new.desk.size ≡ self.old.desk.size) }
    {
        self.look(alloc, store, steps)?;
        self.show_page(alloc, out)
    }
}
