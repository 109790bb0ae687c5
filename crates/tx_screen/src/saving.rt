// Saving and leaving.
ghost use Rattle.std.specs.Prelude.{◌≡◌, [], IfOk, IfSome};
ghost use Rattle.tx_screen.specs.Keys.{InDocument, IsSave, IsSelection};

use crate::desk::Desk;
use crate::lines::{Line, no_lines, one_line, three_lines};
use crate::modes::{Mode, Question};
use std::alloc::Global;
use tx_base::Memory;
use tx_doc::Buffer;
use tx_keys::Key;
use tx_session::Session;
use tx_telling::{at_line, save_line};
use tx_tree::Tree;

// What is said where a buffer would have to be selected whose name no line has.
const UNTOLD: &str = "The document's buffer has a name that can't be selected";

/// Shares of the trees of buffers.
pub(crate) fn trees_of(alloc: Global, buffers: &[Buffer]) -> Result<Vec<Tree>, Memory> {
    let mut trees = Vec::new(alloc);
    for buffer in buffers {
        trees.push(buffer.tree.share()?)?;
    }
    Ok(trees)
}

// Whether each buffer has the tree of its number.
fn are_same(buffers: &[Buffer], trees: &[Tree]) -> bool {
    buffers
        .iter()
        .zip(trees)
        .all(|(buffer, tree)| buffer.tree.same(tree))
}

// The line that selects the buffer of this number. None where its name can't be told.
fn select_line(alloc: Global, session: &Session, number: usize) -> Result<Option<Vec<u8>>, Memory>
    ensures { IfOk result (λ told. IfSome told (λ line.
        IsSelection session.now.seen.state number line.items)) }
{
    match session.state().buffers().get(number) {
        Some(buffer) => at_line(alloc, buffer.name.bytes()),
        None => Ok(None),
    }
}

impl Desk {
    // Whether a buffer has another tree than when it was opened, or the document than when it was saved last.
    pub(crate) fn has_changes(&self, session: &Session) -> bool {
        !are_same(session.state().buffers(), &self.saved)
    }

    // Says this, and has no lines.
    pub(crate) fn say_alone(&mut self, alloc: Global, text: &str) -> Result<Vec<Line>, Memory>
        ensures lines { IfOk result (λ lines. lines.items ≡ []) }
        ensures painted { self.new.painted ≡ self.old.painted }
    {
        self.say(text)?;
        no_lines(alloc)
    }

    // A line that is executed while the document is selected. No lines where the document, or the buffer that is
    // selected, has a name that can't be told.
    pub(crate) fn in_document(
        &mut self,
        alloc: Global,
        session: &Session,
        line: Vec<u8>,
    ) -> Result<Vec<Line>, Memory>
        ensures around { IfOk result (λ lines.
            InDocument session.now.seen.state (λ it. it ≡ line.items) lines.items) }
        ensures painted { self.new.painted ≡ self.old.painted }
    {
        let selected = session.state().selected();
        if selected == 0 {
            return one_line(alloc, &line);
        }
        let Some(there) = select_line(alloc, session, 0)? else {
            return self.say_alone(alloc, UNTOLD);
        };
        let Some(back) = select_line(alloc, session, selected)? else {
            return self.say_alone(alloc, UNTOLD);
        };
        three_lines(alloc, there, line, back)
    }

    // Saves the document under its own word, or asks for a name where it can't be one.
    pub(crate) fn save(&mut self, alloc: Global, session: &Session) -> Result<Vec<Line>, Memory>
        ensures lines { IfOk result (λ lines. InDocument session.now.seen.state IsSave lines.items) }
        ensures painted { self.new.painted ≡ self.old.painted }
    {
        match save_line(alloc, &self.word)? {
            Some(line) => self.in_document(alloc, session, line),
            None => {
                self.ask(alloc, Question::Name);
                no_lines(alloc)
            }
        }
    }

    // Takes the reply to a line that has saved a file. A name that a key asked for is the document's from then on.
    pub(crate) fn take_saved(
        &mut self,
        alloc: Global,
        session: &Session,
        line: &[u8],
        reply: &[u8],
    ) -> Result<(), Memory>
        ensures painted { self.new.painted ≡ self.old.painted }
    {
        let name = line.strip_prefix(b"save ").unwrap_or(line);
        self.note_saved(alloc, session, name)?;
        self.say_saved(name, reply)
    }

    // The buffer that is selected was saved under this name.
    fn note_saved(&mut self, alloc: Global, session: &Session, name: &[u8]) -> Result<(), Memory>
        ensures painted { self.new.painted ≡ self.old.painted }
    {
        if session.state().selected() != 0 {
            return Ok(());
        }
        if !self.shows_reply {
            self.word = Vec::from_slice(alloc, name)?;
        }
        if self.word.as_slice() != name {
            return Ok(());
        }
        self.keep_saved(session)
    }

    // The document's file has the document as it is.
    fn keep_saved(&mut self, session: &Session) -> Result<(), Memory>
        ensures painted { self.new.painted ≡ self.old.painted }
    {
        let tree = session.state().document().share()?;
        if let Some(kept) = self.saved.get_mut(0) {
            *kept = tree;
        }
        self.edited = self.has_changes(session);
        Ok(())
    }

    // Leaves, or asks whether to leave where there are changes.
    pub(crate) fn leave(&mut self, session: &Session) -> Result<(), Memory>
        ensures painted { self.new.painted ≡ self.old.painted }
    {
        if !self.has_changes(session) {
            self.ended = true;
            return Ok(());
        }
        self.mode = Mode::Leaving;
        self.say("There are changes that aren't saved. Leave without saving? y or n")
    }

    // A key that says whether to leave.
    pub(crate) fn leave_key(&mut self, key: Key)
        ensures painted { self.new.painted ≡ self.old.painted }
    {
        if key == Key::Char(121) || key == Key::Char(89) {
            self.ended = true;
        }
    }
}
