// Questions in the status line, their answers, and pasted text.
ghost use Rattle.std.specs.Prelude.{◌≡◌, IfOk};
ghost use Rattle.std.specs.List.{AllByRecursion};
ghost use Rattle.tx_screen.specs.Keys.{IsMove};

use crate::desk::Desk;
use crate::finding::find;
use crate::lines::{Line, go_lines, line_or_none, no_lines};
use crate::modes::{Mode, Question};
use crate::moving::place_on_page;
use std::alloc::Global;
use tx_base::Memory;
use tx_keys::{Key, push_typed};
use tx_session::Session;
use tx_telling::{SURE_CHARACTERS, save_line, text_line};

// The most code points of an answer.
const MOST_TYPED: usize = 10_000;

// Bytes for code points: themselves where they are ASCII, and else the items that are typed for them.
fn bytes_of(alloc: Global, codes: &[u32]) -> Result<Vec<u8>, Memory> {
    let mut bytes = Vec::new(alloc);
    for code in codes {
        if *code < 128 {
            bytes.push(*code as u8)?;
        } else {
            push_typed(*code, &mut bytes)?;
        }
    }
    Ok(bytes)
}

// The items that are typed for code points.
fn items_of(alloc: Global, codes: &[u32]) -> Result<Vec<u8>, Memory> {
    let mut bytes = Vec::new(alloc);
    for code in codes {
        push_typed(*code, &mut bytes)?;
    }
    Ok(bytes)
}

impl Desk {
    // Asks a question.
    pub(crate) fn ask(&mut self, alloc: Global, question: Question)
        ensures painted { self.new.painted ≡ self.old.painted }
    {
        self.mode = Mode::Asked(question, Vec::new(alloc));
    }

    // A key of an answer.
    pub(crate) fn answer_key(
        &mut self,
        alloc: Global,
        session: &Session,
        question: Question,
        mut typed: Vec<u32>,
        key: Key,
    ) -> Result<Vec<Line>, Memory>
        ensures painted { self.new.painted ≡ self.old.painted }
    {
        match key {
            Key::Enter => return self.answered(alloc, session, question, &typed),
            Key::Escape => return no_lines(alloc),
            Key::Char(code) => {
                if typed.len() < MOST_TYPED {
                    typed.push(code)?;
                }
            }
            Key::Backspace => {
                typed.pop();
            }
            _ => {}
        }
        self.mode = Mode::Asked(question, typed);
        no_lines(alloc)
    }

    // Does what the answer asks for.
    fn answered(
        &mut self,
        alloc: Global,
        session: &Session,
        question: Question,
        typed: &[u32],
    ) -> Result<Vec<Line>, Memory>
        ensures painted { self.new.painted ≡ self.old.painted }
    {
        match question {
            Question::Line => self.typed_command(alloc, session, typed),
            Question::Name => self.save_as(alloc, session, typed),
            Question::Find => self.find_typed(alloc, session, typed),
        }
    }

    // The line that was typed. `quit` leaves as Ctrl-Q does.
    fn typed_command(
        &mut self,
        alloc: Global,
        session: &Session,
        typed: &[u32],
    ) -> Result<Vec<Line>, Memory>
        ensures painted { self.new.painted ≡ self.old.painted }
    {
        let line = bytes_of(alloc, typed)?;
        if line.as_slice() == b"quit".as_slice() {
            self.leave(session)?;
            return no_lines(alloc);
        }
        self.shows_reply = true;
        line_or_none(alloc, Some(line))
    }

    // Shows a reply: in the status line where it is one line that fits, and else in place of the page.
    pub(crate) fn show_reply(&mut self, alloc: Global, reply: &[u8]) -> Result<(), Memory>
        ensures painted { self.new.painted ≡ self.old.painted }
    {
        let lines = reply.iter().filter(|byte| **byte == b'\n').count();
        if lines > 1 || reply.len() > usize::from(self.size.columns) {
            self.mode = Mode::Shown(Vec::from_slice(alloc, reply)?);
            return self.say("Any key goes back to the page");
        }
        self.say_bytes(reply)
    }

    // Saves under the name that was typed.
    fn save_as(
        &mut self,
        alloc: Global,
        session: &Session,
        typed: &[u32],
    ) -> Result<Vec<Line>, Memory>
        ensures painted { self.new.painted ≡ self.old.painted }
    {
        let word = bytes_of(alloc, typed)?;
        match save_line(alloc, &word)? {
            Some(line) => self.in_document(alloc, session, line),
            None => {
                self.ask(alloc, Question::Name);
                self.say_alone(alloc, "A name has 1 to 255 characters from ! to ~")
            }
        }
    }

    // Goes to the next place at which the text stands that was typed.
    fn find_typed(
        &mut self,
        alloc: Global,
        session: &Session,
        typed: &[u32],
    ) -> Result<Vec<Line>, Memory>
        ensures painted { self.new.painted ≡ self.old.painted }
    {
        let text = items_of(alloc, typed)?;
        let state = session.state();
        let found = find(alloc, state.document(), state.cursor(), &text)?;
        if found.is_none() {
            self.say("Not found")?;
        }
        go_lines(alloc, found)
    }

    // A press of the mouse on a cell of the terminal, from 1.
    pub(crate) fn click(
        &mut self,
        alloc: Global,
        session: &Session,
        column: u32,
        row: u32,
    ) -> Result<Vec<Line>, Memory>
        ensures lines { IfOk result (λ lines. AllByRecursion IsMove lines.items) }
        ensures painted { self.new.painted ≡ self.old.painted }
    {
        let view = session.view();
        let (row, column) = (row.saturating_sub(1), column.saturating_sub(1));
        go_lines(alloc, place_on_page(alloc, view, self.page, row, column)?)
    }

    // A key of what is pasted. The end of a line begins a paragraph.
    pub(crate) fn pasted_key(
        &mut self,
        alloc: Global,
        mut text: Vec<u32>,
        key: Key,
    ) -> Result<Vec<Line>, Memory>
        ensures painted { self.new.painted ≡ self.old.painted }
    {
        match key {
            Key::PasteEnds => return line_or_none(alloc, text_line(alloc, &text)?),
            Key::Enter | Key::Control(10) => {
                self.mode = Mode::Pasted(Vec::new(alloc));
                let mut lines = line_or_none(alloc, text_line(alloc, &text)?)?;
                lines.push(Line::new(Vec::from_slice(alloc, b"enter")?))?;
                return Ok(lines);
            }
            Key::Char(code) => text.push(code)?,
            Key::Control(9) => text.push(32)?,
            _ => {}
        }
        if text.len() < SURE_CHARACTERS {
            self.mode = Mode::Pasted(text);
            return no_lines(alloc);
        }
        self.mode = Mode::Pasted(Vec::new(alloc));
        line_or_none(alloc, text_line(alloc, &text)?)
    }
}
