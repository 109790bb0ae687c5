// A session over a document and its styles.
ghost use Rattle.std.specs.Prelude.{◌≡◌, ◌≢◌, ◌≤◌, ◌<◌, ◌+◌, ◌↔◌, ℕ, List, [], ◌∷◌, ◌++◌, Bool, true, All};
ghost use Rattle.std.specs.Prelude.{false, length, is_err, IfOk, IfErr, OnOk, OnErr, Ok, Some, None, Result};
ghost use Rattle.tx_outside.specs.Counts.{Rose};
ghost use Rattle.tx_outside.specs.Outside.{SinkGoesOn, StoreGoesOn, StoreSeen};
ghost use Rattle.tx_scm.specs.Canonical.{scheme_text};
ghost use Rattle.tx_print.specs.Lines.{line};
ghost use Rattle.tx_tree.specs.Places.{IsPlace};
ghost use Rattle.tx_mod.specs.InTurn.{changed_in_turn, cost_of};
ghost use Rattle.tx_doc.specs.Buffers.{document_of, tree_of, with_tree, NamesDiffer, AreFormed};
ghost use Rattle.tx_state.specs.States.{opening_state};
ghost use Rattle.tx_state.specs.Edits.{edited};
ghost use Rattle.tx_edit.specs.declared.faults.EditFault.{EditFault as KeyFault};
ghost use Rattle.tx_edit.specs.declared.moves.Move.{Move as KeyMove};
ghost use Rattle.tx_edit.specs.Stops.{to_left, to_right};
ghost use Rattle.tx_view_form.specs.Views.{IsView};
ghost use Rattle.tx_view_form.specs.Stops.{stops_of};
ghost use Rattle.tx_units.specs.Units.{made};
ghost use Rattle.tx_view.specs.Names.{Empty, Holds};
ghost use Rattle.tx_session.specs.Asking.{IsChange, IsKeyChange, IsArrival, IsClicked, IsEdit, GoesIn, Makes, Prints};
ghost use Rattle.tx_session.specs.Asking.{next_after, IsEditKept, IsKeyKept};
ghost use Rattle.tx_session.specs.Sessions.{view_with};
ghost use Rattle.tx_session.specs.States.{selected_edit, selected_tree, saved_by, by_typing, by_backspace, by_enter};
ghost use Rattle.tx_session.specs.Effects.{asks_view};
ghost use Rattle.tx_session.specs.Replies.{IsReply, unsaved_reply};
ghost use Rattle.tx_session.specs.Keeps.{Keeps, Takes, edit_cost, key_cost, most_steps};
ghost use Rattle.tx_session.specs.Worlds.{LineMark, plain, seen_world};
ghost use Rattle.tx_session.specs.Saying.{reply_mark, reply_text};
ghost use Rattle.tx_cmd.specs.declared.command.Command.{Command};
ghost use Rattle.tx_session.specs.Writing.{IsSaid};

use crate::printing::print_view;
use crate::replies::{NO_MEMORY, Reply, astray, idle, no_cell, not_left, refused, say};
use crate::saving::save;
use std::alloc::Global;
use std::marker::Model;
use std::sync::ledger::Ledger;
use tx_base::{Memory, Steps};
use tx_cmd::Command;
use tx_doc::{Buffer, Name};
use tx_edit::{EditFault, Move, backspace, enter, left, right, type_text};
use tx_mod::{ApplyFault, Mod, ModList};
use tx_outside::{Sink, Store, WriteFault};
use tx_print::{print_cursor, print_work};
use tx_state::{Edit, EditorState, GoFault, MOST_BUFFERS, NoBuffer, Prepared, UndoFault};
use tx_tree::{Path, Place, Text, Tree};
use tx_view::View;
use tx_view_form::place_law;

/// What a session does after a command.
#[derive(Clone, Copy, Debug, PartialEq, Eq)]
pub enum Next {
    /// It goes on.
    Go,
    /// It ends.
    Quit,
}

/// A session over a document and its styles, on pages of one size.
///
/// Contracts see its state, the size of its pages, and whether a command that asks the view was done since a buffer
/// last changed, and besides what it keeps of its view (`specs/Worlds.antt`).
#[derive(Drop)]
pub struct Session {
    state: EditorState,
    // the view of the state's buffers
    view: View,
    // a command that asks the view was done since a buffer last changed
    asked: bool,
}

impl Model for Session {
    ghost use Rattle.tx_session.specs.Worlds.{WholeSession};

    ghost Value = { WholeSession };

    ghost use Rattle.tx_session.specs.Sessions.{whole_session_code, whole_session, IsSession};

    ghost coded = { whole_session_code };

    ghost view = { whole_session };

    ghost invariant = { IsSession };
}

// One modification of the selected buffer.
fn selected_edit(alloc: Global, state: &EditorState, m: &Mod) -> Result<Edit, Memory>
    ensures edit { IfOk result (λ edit. edit ≡ selected_edit state.now m.now) }
    ensures within { IfOk result (λ edit. edit.buffer < length state.now.buffers) }
{
    let _buffers = state.buffers();
    let buffer = state.selected() as u32;
    let mods = vec![in alloc; m.copy(alloc)?]?;
    Ok(Edit {
        buffer,
        mods: ModList::from(mods),
        cursor: None,
    })
}

// Gives the view a change that is ready.
fn tell<L: Ledger>(
    alloc: Global,
    view: &mut View,
    prepared: &Prepared,
    steps: &mut Steps<L>,
) -> Result<(), Memory>
    requires within { prepared.now.buffer < length view.old.buffers }
    requires changed { changed_in_turn prepared.now.mods (tree_of view.old.buffers prepared.now.buffer)
        ≡ Ok prepared.now.tree }
    ensures ok { OnOk result (view.new ≡ view_with view.old prepared.now) }
    ensures err { OnErr result (view.new ≡ view.old) }
    ensures counted { steps.new ≤ steps.old + (cost_of prepared.now.mods
        + made (with_tree view.old.buffers prepared.now.buffer prepared.now.tree)) }
{
    let mods = prepared.mods.as_slice();
    view.edited(alloc, prepared.buffer, mods, &prepared.tree, steps)
}

// The session goes on after what was printed.
fn going(printed: Result<(), WriteFault>) -> Result<Next, WriteFault>
    ensures { result ≡ next_after printed }
{
    match printed {
        Ok(()) => Ok(Next::Go),
        Err(fault) => Err(fault),
    }
}

// Puts the cursor where a key leads it, unless it leads nowhere.
fn arrive(state: &mut EditorState, made: Result<Move, EditFault>) -> Reply
    requires { IfOk made (GoesIn (document_of state.old.buffers)) }
    ensures { (outcome : Result KeyMove KeyFault) → Makes made outcome
        → IsArrival outcome state.old (reply_mark result) state.new (reply_text result) }
{
    match made {
        Ok(Move::Go(place)) => {
            state.move_to(place);
            Reply::Done
        }
        Ok(Move::Edit(_, _)) => unreachable!(),
        Err(fault) => idle(fault),
    }
}

// Puts the cursor at the place of a cell, unless there is no such cell.
fn go_to_cell(alloc: Global, state: &mut EditorState, view: &View, r: u32, c: u32) -> Reply
    requires { IsView state.old.buffers view.now.width view.now.height view.now.shown }
    ensures { IsClicked view.now.width view.now.shown r c state.old (reply_mark result) state.new (reply_text result) }
{
    place_law(state.buffers());
    match view.position(r, c) {
        Some(spot) => match spot.place(alloc) {
            Ok(at) => {
                state.move_to(at);
                Reply::Done
            }
            Err(Memory) => Reply::Wanting,
        },
        None => no_cell(alloc, view.rows(), view.width()),
    }
}

// Puts the cursor at the stop before it, unless there is none.
fn go_left(alloc: Global, state: &mut EditorState, view: &View) -> Reply
    requires { IsView state.old.buffers view.now.width view.now.height view.now.shown }
    ensures { IsArrival (to_left (stops_of view.now.shown.units) state.old.cursor) state.old (reply_mark result)
        state.new (reply_text result) }
{
    place_law(state.buffers());
    let cursor = state.cursor();
    match view.stops_near(alloc, cursor) {
        Ok(stops) => {
            let made = left(alloc, &stops, cursor);
            arrive(state, made)
        }
        Err(Memory) => Reply::Wanting,
    }
}

// Puts the cursor at the next stop, unless there is none.
fn go_right(alloc: Global, state: &mut EditorState, view: &View) -> Reply
    requires { IsView state.old.buffers view.now.width view.now.height view.now.shown }
    ensures { IsArrival (to_right (stops_of view.now.shown.units) state.old.cursor) state.old (reply_mark result)
        state.new (reply_text result) }
{
    place_law(state.buffers());
    let cursor = state.cursor();
    match view.stops_near(alloc, cursor) {
        Ok(stops) => {
            let made = right(alloc, &stops, cursor);
            arrive(state, made)
        }
        Err(Memory) => Reply::Wanting,
    }
}

impl Session {
    /// A session over these buffers, the document first, on pages of this width, 20 to 500 cells, and this height, 5 to
    /// 500 lines. There are 1 to 64 buffers, no two of one name. The steps rise by at most the nodes that are made for
    /// units. The one error is `Memory`.
    pub fn start<L: Ledger>(
        alloc: Global,
        buffers: Vec<Buffer>,
        width: u32,
        height: u32,
        steps: &mut Steps<L>,
    ) -> Result<Session, Memory>
        requires some { 1 ≤ length buffers.items }
        requires few { length buffers.items ≤ MOST_BUFFERS }
        requires names { NamesDiffer buffers.items }
        requires least_width { 20 ≤ width }
        requires most_width { width ≤ 500 }
        requires least_height { 5 ≤ height }
        requires most_height { height ≤ 500 }
        ensures session { IfOk result (λ s.
            s.seen ≡ record { state = opening_state buffers.items; width = width; height = height; fresh = false }) }
        ensures keep { IfOk result (λ s.
            s.keep ≡ record { fresh = false; stores = Empty buffers.items; work = 0 }) }
        ensures cursor { IfOk result (λ s.
            IsPlace (document_of s.seen.state.buffers) s.seen.state.cursor.path s.seen.state.cursor.offset) }
        ensures names { IfOk result (λ s. NamesDiffer s.seen.state.buffers) }
        ensures formed { IfOk result (λ s. AreFormed s.seen.state.buffers) }
        ensures holds { IfOk result (λ s. Holds s.seen.state.buffers s.keep.stores) }
        ensures counted { steps.new ≤ steps.old + made buffers.items }
    {
        let state = EditorState::open(alloc, buffers)?;
        let _cursor = state.cursor();
        let view = View::new(alloc, state.buffers(), width, height, steps)?;
        let _fresh = view.fresh();
        Ok(Session {
            state,
            view,
            asked: false,
        })
    }

    /// The documents, the cursor, and what can be undone and made again.
    pub fn state(&self) -> &EditorState
        ensures { result.now ≡ self.now.seen.state }
    {
        &self.state
    }

    /// The view. It is that of the present documents where a command that asks the view, or `work`, was the last that
    /// was done since a document changed.
    pub fn view(&self) -> &View
        ensures shown { self.now.seen.fresh ≡ true → IsView self.now.seen.state.buffers self.now.seen.width
            self.now.seen.height result.now.shown }
        ensures width { result.now.width ≡ self.now.seen.width }
        ensures height { result.now.height ≡ self.now.seen.height }
    {
        let _fresh = self.view.fresh();
        &self.view
    }

    // The tree of the selected buffer.
    fn selected(&self) -> &Tree
        ensures { result.now ≡ selected_tree self.now.seen.state }
    {
        &self.state.buffers()[self.state.selected()].tree
    }

    // The reply to `tree`.
    fn tree_text(&self, alloc: Global) -> Result<Vec<u8>, Memory>
        ensures { IfOk result (λ text. text.items ≡ line (scheme_text (selected_tree self.now.seen.state))) }
    {
        let mut text = Vec::new(alloc);
        tx_scm::write(self.selected(), &mut text)?;
        text.push(b'\n')?;
        Ok(text)
    }

    // Prints the selected buffer's tree.
    fn tree(&self, alloc: Global) -> Reply
        ensures { (store : StoreSeen) → IsReply (record { session = self.now.seen; store = store }) Command.Tree
            (reply_mark result) (record { session = self.now.seen; store = store }) (reply_text result) }
    {
        match self.tree_text(alloc) {
            Ok(text) => Reply::Made(text),
            Err(Memory) => Reply::Wanting,
        }
    }

    // Puts an edit in place, unless it is refused.
    fn edit<L: Ledger>(&mut self, alloc: Global, edit: Edit, steps: &mut Steps<L>) -> Reply
        requires buffer { edit.buffer < length self.old.seen.state.buffers }
        requires moving { edit.cursor ≡ None }
        ensures changed { IsChange (edited edit self.old.seen.state) self.old.seen (reply_mark result) self.new.seen
            (reply_text result) }
        ensures keeps { IsEditKept (is_err (edited edit self.old.seen.state)) (edit.buffer, edit.mods) self.old
            (reply_mark result) self.new }
        ensures counted { steps.new ≤ steps.old + edit_cost edit.mods (edited edit self.old.seen.state) }
    {
        match self.state.prepare_edit(alloc, edit, steps) {
            Ok(prepared) => {
                if let Err(Memory) = tell(alloc, &mut self.view, &prepared, steps) {
                    return Reply::Wanting;
                }
                self.asked = false;
                let _former = self.state.finish_edit(prepared);
                Reply::Done
            }
            Err(ApplyFault::Refused(cause)) => refused(alloc, cause),
            Err(ApplyFault::Memory) => Reply::Wanting,
        }
    }

    // Changes the selected buffer.
    fn change<L: Ledger>(&mut self, alloc: Global, m: &Mod, steps: &mut Steps<L>) -> Reply
        ensures replied { (store : StoreSeen) → IsReply (record { session = self.old.seen; store = store })
            (Command.Change m.now) (reply_mark result) (record { session = self.new.seen; store = store })
            (reply_text result) }
        ensures keeps { Keeps self.old (Command.Change m.now) (reply_mark result) self.new }
        ensures takes { Takes self.old (Command.Change m.now) (reply_mark result) steps.old steps.new }
    {
        match selected_edit(alloc, &self.state, m) {
            Ok(edit) => self.edit(alloc, edit, steps),
            Err(Memory) => Reply::Wanting,
        }
    }

    // Puts what a key made in place, unless it made nothing.
    fn keyed<L: Ledger>(
        &mut self,
        alloc: Global,
        made: Result<Move, EditFault>,
        steps: &mut Steps<L>,
    ) -> Reply
        requires { IfOk made IsEdit }
        ensures changed { (outcome : Result KeyMove KeyFault) → Makes made outcome
            → IsKeyChange outcome self.old.seen (reply_mark result) self.new.seen (reply_text result) }
        ensures keeps { (outcome : Result KeyMove KeyFault) → Makes made outcome
            → IsKeyKept outcome self.old (reply_mark result) self.new }
        ensures counted { (outcome : Result KeyMove KeyFault) → Makes made outcome
            → steps.new ≤ steps.old + key_cost self.old.seen.state outcome }
    {
        let _buffers = self.state.buffers();
        match made {
            Ok(Move::Edit(mods, _)) => {
                let edit = Edit {
                    buffer: 0,
                    mods,
                    cursor: None,
                };
                self.edit(alloc, edit, steps)
            }
            Ok(Move::Go(_)) => unreachable!(),
            Err(fault) => idle(fault),
        }
    }

    // Types a text.
    fn typed<L: Ledger>(&mut self, alloc: Global, text: &Text, steps: &mut Steps<L>) -> Reply
        ensures replied { (store : StoreSeen) → IsReply (record { session = self.old.seen; store = store })
            (Command.Typed text.now) (reply_mark result) (record { session = self.new.seen; store = store })
            (reply_text result) }
        ensures keeps { Keeps self.old (Command.Typed text.now) (reply_mark result) self.new }
        ensures takes { Takes self.old (Command.Typed text.now) (reply_mark result) steps.old steps.new }
    {
        let made = type_text(alloc, self.state.document(), self.state.cursor(), text);
        self.keyed(alloc, made, steps)
    }

    // Takes back what is before the cursor.
    fn backspace<L: Ledger>(&mut self, alloc: Global, steps: &mut Steps<L>) -> Reply
        ensures replied { (store : StoreSeen) → IsReply (record { session = self.old.seen; store = store })
            Command.Backspace (reply_mark result) (record { session = self.new.seen; store = store })
            (reply_text result) }
        ensures keeps { Keeps self.old Command.Backspace (reply_mark result) self.new }
        ensures takes { Takes self.old Command.Backspace (reply_mark result) steps.old steps.new }
    {
        let made = backspace(alloc, self.state.document(), self.state.cursor());
        self.keyed(alloc, made, steps)
    }

    // Begins a paragraph at the cursor.
    fn enter<L: Ledger>(&mut self, alloc: Global, steps: &mut Steps<L>) -> Reply
        ensures replied { (store : StoreSeen) → IsReply (record { session = self.old.seen; store = store })
            Command.Enter (reply_mark result) (record { session = self.new.seen; store = store }) (reply_text result) }
        ensures keeps { Keeps self.old Command.Enter (reply_mark result) self.new }
        ensures takes { Takes self.old Command.Enter (reply_mark result) steps.old steps.new }
    {
        let made = enter(alloc, self.state.document(), self.state.cursor());
        self.keyed(alloc, made, steps)
    }

    // Takes the last edit back.
    fn undo<L: Ledger>(&mut self, alloc: Global, steps: &mut Steps<L>) -> Reply
        ensures replied { (store : StoreSeen) → IsReply (record { session = self.old.seen; store = store })
            Command.Undo (reply_mark result) (record { session = self.new.seen; store = store }) (reply_text result) }
        ensures keeps { Keeps self.old Command.Undo (reply_mark result) self.new }
        ensures takes { Takes self.old Command.Undo (reply_mark result) steps.old steps.new }
    {
        match self.state.prepare_undo(alloc, steps) {
            Ok(prepared) => {
                if let Err(Memory) = tell(alloc, &mut self.view, &prepared, steps) {
                    return Reply::Wanting;
                }
                self.asked = false;
                let _former = self.state.finish_undo(prepared);
                Reply::Done
            }
            Err(UndoFault::Nothing) => Reply::Fixed(b"no undo\n"),
            Err(UndoFault::Memory) => Reply::Wanting,
        }
    }

    // Takes an earlier edit back alone.
    fn undo_at<L: Ledger>(&mut self, alloc: Global, n: u32, steps: &mut Steps<L>) -> Reply
        ensures replied { (store : StoreSeen) → IsReply (record { session = self.old.seen; store = store })
            (Command.UndoAt n) (reply_mark result) (record { session = self.new.seen; store = store })
            (reply_text result) }
        ensures keeps { Keeps self.old (Command.UndoAt n) (reply_mark result) self.new }
        ensures takes { Takes self.old (Command.UndoAt n) (reply_mark result) steps.old steps.new }
    {
        match self.state.prepare_leave(alloc, n, steps) {
            Ok(edit) => self.edit(alloc, edit, steps),
            Err(fault) => not_left(alloc, fault),
        }
    }

    // Makes the edit again that was taken back last.
    fn redo<L: Ledger>(&mut self, alloc: Global, steps: &mut Steps<L>) -> Reply
        ensures replied { (store : StoreSeen) → IsReply (record { session = self.old.seen; store = store })
            Command.Redo (reply_mark result) (record { session = self.new.seen; store = store }) (reply_text result) }
        ensures keeps { Keeps self.old Command.Redo (reply_mark result) self.new }
        ensures takes { Takes self.old Command.Redo (reply_mark result) steps.old steps.new }
    {
        match self.state.prepare_redo(alloc, steps) {
            Ok(prepared) => {
                if let Err(Memory) = tell(alloc, &mut self.view, &prepared, steps) {
                    return Reply::Wanting;
                }
                self.asked = false;
                let _former = self.state.finish_redo(prepared);
                Reply::Done
            }
            Err(UndoFault::Nothing) => Reply::Fixed(b"no redo\n"),
            Err(UndoFault::Memory) => Reply::Wanting,
        }
    }

    // Selects the buffer of a name.
    fn choose(&mut self, name: &Name) -> Reply
        ensures replied { (store : StoreSeen) → IsReply (record { session = self.old.seen; store = store })
            (Command.At name.now) (reply_mark result) (record { session = self.new.seen; store = store })
            (reply_text result) }
        ensures keep { self.new.keep ≡ self.old.keep }
    {
        match self.state.select(name.bytes()) {
            Ok(()) => Reply::Done,
            Err(NoBuffer) => Reply::Fixed(b"no buffer\n"),
        }
    }

    // Puts the cursor at a place.
    fn go(&mut self, alloc: Global, numbers: &Path) -> Reply
        ensures replied { (store : StoreSeen) → IsReply (record { session = self.old.seen; store = store })
            (Command.Go numbers.now) (reply_mark result) (record { session = self.new.seen; store = store })
            (reply_text result) }
        ensures keep { self.new.keep ≡ self.old.keep }
    {
        match self.state.go(alloc, numbers) {
            Ok(()) => Reply::Done,
            Err(GoFault::Astray(cause)) => astray(alloc, cause),
            Err(GoFault::Memory) => Reply::Wanting,
        }
    }

    // Puts the cursor at the place of a cell.
    fn click<L: Ledger>(&mut self, alloc: Global, r: u32, c: u32, steps: &mut Steps<L>) -> Reply
        ensures replied { (store : StoreSeen) → IsReply (record { session = self.old.seen; store = store })
            (Command.Click r c) (reply_mark result) (record { session = self.new.seen; store = store })
            (reply_text result) }
        ensures keeps { Keeps self.old (Command.Click r c) (reply_mark result) self.new }
        ensures takes { Takes self.old (Command.Click r c) (reply_mark result) steps.old steps.new }
    {
        if let Err(Memory) = self.view.refresh(alloc, steps) {
            return Reply::Wanting;
        }
        let reply = go_to_cell(alloc, &mut self.state, &self.view, r, c);
        self.asked |= reply.is_plain();
        reply
    }

    // Puts the cursor at the stop before it.
    fn left<L: Ledger>(&mut self, alloc: Global, steps: &mut Steps<L>) -> Reply
        ensures replied { (store : StoreSeen) → IsReply (record { session = self.old.seen; store = store })
            Command.Left (reply_mark result) (record { session = self.new.seen; store = store }) (reply_text result) }
        ensures keeps { Keeps self.old Command.Left (reply_mark result) self.new }
        ensures takes { Takes self.old Command.Left (reply_mark result) steps.old steps.new }
    {
        if let Err(Memory) = self.view.refresh(alloc, steps) {
            return Reply::Wanting;
        }
        let reply = go_left(alloc, &mut self.state, &self.view);
        self.asked |= reply.is_plain();
        reply
    }

    // Puts the cursor at the next stop.
    fn right<L: Ledger>(&mut self, alloc: Global, steps: &mut Steps<L>) -> Reply
        ensures replied { (store : StoreSeen) → IsReply (record { session = self.old.seen; store = store })
            Command.Right (reply_mark result) (record { session = self.new.seen; store = store }) (reply_text result) }
        ensures keeps { Keeps self.old Command.Right (reply_mark result) self.new }
        ensures takes { Takes self.old Command.Right (reply_mark result) steps.old steps.new }
    {
        if let Err(Memory) = self.view.refresh(alloc, steps) {
            return Reply::Wanting;
        }
        let reply = go_right(alloc, &mut self.state, &self.view);
        self.asked |= reply.is_plain();
        reply
    }

    // Prints the view, which takes no memory where it is fresh.
    fn print<O: Sink, L: Ledger>(
        &mut self,
        alloc: Global,
        command: &Command,
        out: &mut O,
        steps: &mut Steps<L>,
    ) -> Result<Next, WriteFault>
        requires { Prints command.now }
        ensures said { (mark : LineMark) × (reply : List ℕ)
            × ((store : StoreSeen) → IsReply (record { session = self.old.seen; store = store }) command.now mark
            (record { session = self.new.seen; store = store }) reply)
            × IsSaid result reply (O.seen out.old).written (O.seen out.new).written
            × Keeps self.old command.now mark self.new × Takes self.old command.now mark steps.old steps.new }
        ensures goes { result ≢ Ok Next.Quit }
        ensures failed_rose { OnErr result (Rose (O.seen out.old).faults (O.seen out.new).faults) }
        ensures output_goes_on { SinkGoesOn (O.seen out.old) (O.seen out.new) }
    {
        if let Err(Memory) = self.view.refresh(alloc, steps) {
            return say(out, NO_MEMORY);
        }
        self.asked = true;
        going(print_view(&self.view, command, out))
    }

    // Prints by how many steps the last refresh raised the count, which takes no memory where the view is fresh.
    fn say_work<O: Sink, L: Ledger>(
        &mut self,
        alloc: Global,
        out: &mut O,
        steps: &mut Steps<L>,
    ) -> Result<Next, WriteFault>
        ensures said { (mark : LineMark) × (reply : List ℕ)
            × ((store : StoreSeen) → IsReply (record { session = self.old.seen; store = store }) Command.Work mark
            (record { session = self.new.seen; store = store }) reply)
            × IsSaid result reply (O.seen out.old).written (O.seen out.new).written
            × Keeps self.old Command.Work mark self.new × Takes self.old Command.Work mark steps.old steps.new }
        ensures goes { result ≢ Ok Next.Quit }
        ensures failed_rose { OnErr result (Rose (O.seen out.old).faults (O.seen out.new).faults) }
        ensures output_goes_on { SinkGoesOn (O.seen out.old) (O.seen out.new) }
    {
        match self.view.refresh(alloc, steps) {
            Ok(()) => {
                self.asked = true;
                let number = self.view.work();
                going(print_work(number, out))
            }
            Err(Memory) => say(out, NO_MEMORY),
        }
    }

    // Prints the cursor's place, which takes no memory.
    fn say_cursor<O: Sink>(&self, out: &mut O) -> Result<Next, WriteFault>
        ensures said { (reply : List ℕ)
            × ((store : StoreSeen) → IsReply (record { session = self.now.seen; store = store }) Command.Cursor plain
            (record { session = self.now.seen; store = store }) reply)
            × IsSaid result reply (O.seen out.old).written (O.seen out.new).written }
        ensures goes { result ≢ Ok Next.Quit }
        ensures failed_rose { OnErr result (Rose (O.seen out.old).faults (O.seen out.new).faults) }
        ensures output_goes_on { SinkGoesOn (O.seen out.old) (O.seen out.new) }
    {
        going(print_cursor(self.state.cursor(), out))
    }

    // Saves the selected buffer's tree.
    fn save<S: Store>(&self, alloc: Global, name: &Name, store: &mut S) -> Reply
        ensures saved { IsReply (seen_world self.now.seen (S.seen store.old)) (Command.Save name.now)
            (reply_mark result) (seen_world self.now.seen (S.seen store.new)) (reply_text result) }
        ensures store_goes_on { StoreGoesOn (S.seen store.old) (S.seen store.new) }
        ensures store_untouched { saved_by self.now.seen.state (Command.Save name.now) ≡ None → store.new ≡ store.old }
    {
        save(alloc, self.selected(), name.bytes(), store)
    }

    // Does a command, and writes its reply.
    fn answer<S: Store, O: Sink, L: Ledger>(
        &mut self,
        alloc: Global,
        command: &Command,
        store: &mut S,
        out: &mut O,
        steps: &mut Steps<L>,
    ) -> Result<Next, WriteFault>
        ensures replied { (mark : LineMark) × (reply : List ℕ)
            × IsReply (seen_world self.old.seen (S.seen store.old)) command.now mark
            (seen_world self.new.seen (S.seen store.new)) reply
            × IsSaid result reply (O.seen out.old).written (O.seen out.new).written
            × Keeps self.old command.now mark self.new × Takes self.old command.now mark steps.old steps.new }
        ensures quits { result ≡ Ok Next.Quit ↔ command.now ≡ Command.Quit }
        ensures quit_writes_nothing { command.now ≡ Command.Quit → out.new ≡ out.old }
        ensures quit_takes_nothing { command.now ≡ Command.Quit → steps.new ≡ steps.old }
        ensures failed_rose { OnErr result (Rose (O.seen out.old).faults (O.seen out.new).faults) }
        ensures store_untouched { saved_by self.old.seen.state command.now ≡ None → store.new ≡ store.old }
        ensures store_goes_on { StoreGoesOn (S.seen store.old) (S.seen store.new) }
        ensures output_goes_on { SinkGoesOn (O.seen out.old) (O.seen out.new) }
    {
        match command {
            Command::Quit => Ok(Next::Quit),
            Command::Cursor => self.say_cursor(out),
            Command::Show
            | Command::Page(_)
            | Command::Errors
            | Command::PlaceOf(_, _)
            | Command::Attrs(_) => self.print(alloc, command, out, steps),
            Command::Work => self.say_work(alloc, out, steps),
            Command::Tree => say(out, self.tree(alloc).text()),
            Command::Change(m) => say(out, self.change(alloc, m, steps).text()),
            Command::Undo => say(out, self.undo(alloc, steps).text()),
            Command::UndoAt(n) => say(out, self.undo_at(alloc, *n, steps).text()),
            Command::Redo => say(out, self.redo(alloc, steps).text()),
            Command::At(name) => say(out, self.choose(name).text()),
            Command::Go(numbers) => say(out, self.go(alloc, numbers).text()),
            Command::Click(r, c) => say(out, self.click(alloc, *r, *c, steps).text()),
            Command::Left => say(out, self.left(alloc, steps).text()),
            Command::Right => say(out, self.right(alloc, steps).text()),
            Command::Typed(text) => say(out, self.typed(alloc, text, steps).text()),
            Command::Backspace => say(out, self.backspace(alloc, steps).text()),
            Command::Enter => say(out, self.enter(alloc, steps).text()),
            Command::Save(name) => say(out, self.save(alloc, name, store).text()),
        }
    }

    /// Does a command: changes the state as it says, and writes its reply. Where memory runs out the reply is `no
    /// memory`, and nothing has changed; where the store fails in saving a file the reply is `no store`, and nothing is
    /// known of that file.
    ///
    /// After a fault of the output a part of the reply is written, and the state is the one that the command leads to.
    /// `quit` writes nothing, and is the one command for which `Quit` is returned. `cursor` and `at` take no memory,
    /// nor do `show`, `page`, `errors`, `where`, `attrs` and `work` where the view was asked since a buffer last
    /// changed.
    ///
    /// The view's cache is carried with each edit. Where the view is asked, the steps rise by what a refresh takes.
    pub fn step<S: Store, O: Sink, L: Ledger>(
        &mut self,
        alloc: Global,
        command: &Command,
        store: &mut S,
        out: &mut O,
        steps: &mut Steps<L>,
    ) -> Result<Next, WriteFault>
        ensures replied { (mark : LineMark) × (reply : List ℕ)
            × IsReply (seen_world self.old.seen (S.seen store.old)) command.now mark
            (seen_world self.new.seen (S.seen store.new)) reply
            × IsSaid result reply (O.seen out.old).written (O.seen out.new).written
            × Keeps self.old command.now mark self.new × Takes self.old command.now mark steps.old steps.new }
        ensures quits { result ≡ Ok Next.Quit ↔ command.now ≡ Command.Quit }
        ensures quit_writes_nothing { command.now ≡ Command.Quit → out.new ≡ out.old }
        ensures quit_takes_nothing { command.now ≡ Command.Quit → steps.new ≡ steps.old }
        ensures failed_rose { OnErr result (Rose (O.seen out.old).faults (O.seen out.new).faults) }
        ensures no_store_counted { OnOk result ((before : List ℕ) → (O.seen out.old).written ≡ Some before
            → (O.seen out.new).written ≡ Some (before ++ unsaved_reply)
            → Rose (S.seen store.old).faults (S.seen store.new).faults) }
        ensures cursor { IsPlace (document_of self.new.seen.state.buffers)
            self.new.seen.state.cursor.path self.new.seen.state.cursor.offset }
        ensures few { length self.new.seen.state.buffers ≤ MOST_BUFFERS }
        ensures names { NamesDiffer self.new.seen.state.buffers }
        ensures formed { AreFormed self.new.seen.state.buffers }
        ensures fresh { self.new.seen.fresh ≡ true → self.new.keep.fresh ≡ true }
        ensures holds { Holds self.new.seen.state.buffers self.new.keep.stores }

        // What doesn't change, and what never falls.
        ensures store_untouched { saved_by self.old.seen.state command.now ≡ None → store.new ≡ store.old }
        ensures counted { asks_view command.now ≡ false
            → steps.new ≤ steps.old + most_steps self.old.seen.state command.now }
        ensures store_goes_on { StoreGoesOn (S.seen store.old) (S.seen store.new) }
        ensures output_goes_on { SinkGoesOn (O.seen out.old) (O.seen out.new) }
    {
        let next = self.answer(alloc, command, store, out, steps);
        let _cursor = self.state.cursor();
        let _buffers = self.state.buffers();
        let _fresh = self.view.fresh();
        next
    }
}
