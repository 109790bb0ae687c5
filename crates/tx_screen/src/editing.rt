// Keys that edit the document.
ghost use Rattle.std.specs.Prelude.{◌≡◌, ◌⊎◌, [], IfOk, IfSome};
ghost use Rattle.std.specs.List.{AllByRecursion};
ghost use Rattle.tx_screen.specs.Keys.{ControlLines, InDocument, IsDeletion, IsMove, KeyLines};

use crate::desk::Desk;
use crate::lines::{Line, go_lines, line_or_none, no_lines, one_line};
use crate::modes::{Mode, Question};
use crate::moving::{cell_of, is_vertical, target};
use std::alloc::Global;
use tx_base::Memory;
use tx_keys::Key;
use tx_session::Session;
use tx_telling::{join_line, remove_line, typed_line};
use tx_tree::{Place, Text, Tree};

impl Desk {
    // A key where the document is edited.
    pub(crate) fn text_key(
        &mut self,
        alloc: Global,
        session: &Session,
        key: Key,
    ) -> Result<Vec<Line>, Memory>
        ensures lines { IfOk result (λ lines. KeyLines session.now.seen.state key lines.items) }
        ensures painted { (self.new.painted ≡ self.old.painted) ⊎ (self.new.painted ≡ []) }
    {
        match key {
            Key::Char(code) => line_or_none(alloc, typed_line(alloc, code)?),
            Key::Enter => one_line(alloc, b"enter"),
            Key::Backspace => one_line(alloc, b"backspace"),
            Key::Left => one_line(alloc, b"left"),
            Key::Right => one_line(alloc, b"right"),
            Key::Delete => self.delete(alloc, session),
            Key::Control(byte) => self.control_key(alloc, session, byte),
            Key::Click(column, row) => self.click(alloc, session, column, row),
            Key::F1 => {
                self.show_help(alloc)?;
                no_lines(alloc)
            }
            Key::PasteBegins => {
                self.mode = Mode::Pasted(Vec::new(alloc));
                no_lines(alloc)
            }
            Key::Escape | Key::PasteEnds | Key::Report(..) => no_lines(alloc),
            _ => self.move_by(alloc, session, key),
        }
    }

    // A control character where the document is edited.
    fn control_key(
        &mut self,
        alloc: Global,
        session: &Session,
        byte: u8,
    ) -> Result<Vec<Line>, Memory>
        ensures lines { IfOk result (λ lines. ControlLines session.now.seen.state byte lines.items) }
        ensures painted { (self.new.painted ≡ self.old.painted) ⊎ (self.new.painted ≡ []) }
    {
        match byte {
            // Ctrl-Z, Ctrl-Y, Ctrl-S
            26 => one_line(alloc, b"undo"),
            25 => one_line(alloc, b"redo"),
            19 => self.save(alloc, session),
            _ => {
                self.desk_key(alloc, session, byte)?;
                no_lines(alloc)
            }
        }
    }

    // A control character that has no lines.
    fn desk_key(&mut self, alloc: Global, session: &Session, byte: u8) -> Result<(), Memory>
        ensures painted { (self.new.painted ≡ self.old.painted) ⊎ (self.new.painted ≡ []) }
    {
        match byte {
            // Ctrl-Q, Ctrl-E, Ctrl-T
            17 => return self.leave(session),
            5 => return self.show_errors(session),
            20 => return self.say_where(alloc, session),
            // Ctrl-X, Ctrl-F, Ctrl-L
            24 => self.ask(alloc, Question::Line),
            6 => self.ask(alloc, Question::Find),
            12 => self.draw_anew(),
            _ => {}
        }
        Ok(())
    }

    // All rows are drawn again, and the terminal is asked for its size.
    fn draw_anew(&mut self)
        ensures painted { self.new.painted ≡ [] }
    {
        self.painter.forget();
        self.asked_size = true;
    }

    // Takes out the item after the cursor, or, at the end of a text, joins it to the text after it.
    fn delete(&mut self, alloc: Global, session: &Session) -> Result<Vec<Line>, Memory>
        ensures lines { IfOk result (λ lines.
            InDocument session.now.seen.state (IsDeletion session.now.seen.state.cursor) lines.items) }
        ensures painted { self.new.painted ≡ self.old.painted }
    {
        let state = session.state();
        let cursor = state.cursor();
        let Some(text) = state
            .document()
            .at(&cursor.path)
            .and_then(|tree| tree.text())
        else {
            return self.say_alone(alloc, "The cursor is in no text here");
        };
        match deletion_line(alloc, state.document(), text, cursor)? {
            Some(line) => self.in_document(alloc, session, line),
            None => self.say_alone(alloc, "Nothing can be taken out after the cursor"),
        }
    }

    // Moves by a key that goes to another row, or along this one.
    fn move_by(&mut self, alloc: Global, session: &Session, key: Key) -> Result<Vec<Line>, Memory>
        ensures lines { IfOk result (λ lines. AllByRecursion IsMove lines.items) }
        ensures painted { self.new.painted ≡ self.old.painted }
    {
        let view = session.view();
        let Some((row, column)) = cell_of(alloc, view, session.state().cursor())? else {
            return no_lines(alloc);
        };
        let goal = self.goal.unwrap_or(column);
        let place = target(alloc, view, key, row, goal)?;
        if is_vertical(key) {
            self.goal = Some(goal);
        }
        go_lines(alloc, place)
    }
}

// How many bytes the item of a text has that begins at a byte; 0 at the end.
fn item_length(text: &Text, from: u32) -> u32 {
    let length = text.bytes().len() as u32;
    for at in from.saturating_add(1)..length.saturating_add(1) {
        if !text.cuts(at as usize) {
            return at - from;
        }
    }
    0
}

// The line that takes out the item of a text that begins at a place, or joins the text to the next one, if there is
// either.
fn deletion_line(
    alloc: Global,
    document: &Tree,
    text: &Text,
    at: &Place,
) -> Result<Option<Vec<u8>>, Memory>
    ensures { IfOk result (λ told. IfSome told (λ line. IsDeletion at.now line.items)) }
{
    let length = item_length(text, at.offset);
    if length == 0 {
        return join_line_after(alloc, document, at);
    }
    remove_line(alloc, &at.path, at.offset, length)
}

// The line that joins the text of a place to the text that is next to it in its node, if there is one.
fn join_line_after(alloc: Global, document: &Tree, at: &Place) -> Result<Option<Vec<u8>>, Memory>
    ensures { IfOk result (λ told. IfSome told (λ line. IsDeletion at.now line.items)) }
{
    let mut parent = at.path.copy(alloc)?;
    let Some(child) = parent.pop() else {
        return Ok(None);
    };
    let node = document.at(&parent);
    match node
        .and_then(|node| node.child(child.saturating_add(1)))
        .and_then(|next| next.text())
    {
        Some(_) => join_line(alloc, &parent, child),
        None => Ok(None),
    }
}
