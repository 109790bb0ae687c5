// What the status line says.
ghost use Rattle.std.specs.Prelude.{◌≡◌};

use crate::desk::Desk;
use std::alloc::Global;
use tx_base::Memory;
use tx_session::Session;
use tx_tree::{Path, Tree};

// What refusals mean to a person, each by the word after `no`.
const MEANINGS: [(&str, &str); 29] = [
    ("args", "These are not the words that this command takes"),
    ("bad-place", "There is no such place"),
    ("buffer", "There is no such buffer"),
    ("cell", "There is no such row or column"),
    ("cuts-symbol", "That would cut a symbol"),
    ("differ", "These can't be joined"),
    ("end", "Nothing after the cursor"),
    ("entangled", "A later edit depends on that one"),
    ("file-long", "The file would be too long"),
    (
        "form",
        "This document can't be saved in the TM syntax: give a name that ends in .scm",
    ),
    ("long", "The line is too long"),
    ("memory", "Out of memory: nothing has changed"),
    ("not-node", "A node is wanted here"),
    ("not-string", "A text is wanted here"),
    ("page", "There is no such page"),
    ("paragraph", "No new paragraph can begin here"),
    ("path", "This is no path"),
    ("path-end", "The path leads nowhere"),
    ("redo", "Nothing to redo"),
    ("start", "Nothing before the cursor"),
    ("store", "The file can't be written"),
    ("text", "The cursor is in no text here"),
    ("too-big", "The document would be too big"),
    ("too-deep", "The document would be too deep"),
    ("too-long", "The text would be too long"),
    ("too-wide", "The node would have too many children"),
    ("tree", "This is no tree"),
    ("undo", "Nothing to undo"),
    ("unknown", "There is no such command"),
];

// The meaning of the first of these rows that has the word.
fn meaning_in(rows: &[(&'static str, &'static str)], word: &[u8]) -> Option<&'static str> {
    for row in rows {
        if row.0.as_bytes() == word {
            return Some(row.1);
        }
    }
    None
}

// The word after `no` in a refusal.
fn kind_of(reply: &[u8]) -> &[u8] {
    let rest = reply.strip_prefix(b"no ").unwrap_or(reply);
    let end = rest
        .iter()
        .position(|byte| *byte == b' ' || *byte == b'\n')
        .unwrap_or(rest.len());
    &rest[..end]
}

// The bytes up to the first newline.
fn first_line(bytes: &[u8]) -> &[u8] {
    match bytes.iter().position(|byte| *byte == b'\n') {
        Some(end) => &bytes[..end],
        None => bytes,
    }
}

impl Desk {
    // Says this in the status line.
    pub(crate) fn say(&mut self, text: &str) -> Result<(), Memory>
        ensures painted { self.new.painted ≡ self.old.painted }
    {
        self.message.clear();
        self.message.extend_from_slice(text.as_bytes())?;
        Ok(())
    }

    // Says why a line was refused, and the refusal itself where the line was typed.
    pub(crate) fn say_refusal(&mut self, reply: &[u8]) -> Result<(), Memory>
        ensures painted { self.new.painted ≡ self.old.painted }
    {
        let Some(meaning) = meaning_in(&MEANINGS, kind_of(reply)) else {
            return self.say_bytes(reply);
        };
        self.say(meaning)?;
        if !self.shows_reply {
            return Ok(());
        }
        self.message.extend_from_slice(b": ")?;
        self.add_line(reply)
    }

    // Adds the first line of a reply to what is said.
    fn add_line(&mut self, reply: &[u8]) -> Result<(), Memory>
        ensures painted { self.new.painted ≡ self.old.painted }
    {
        self.message.extend_from_slice(first_line(reply))?;
        Ok(())
    }

    // Says the first line of a reply.
    pub(crate) fn say_bytes(&mut self, reply: &[u8]) -> Result<(), Memory>
        ensures painted { self.new.painted ≡ self.old.painted }
    {
        self.message.clear();
        self.add_line(reply)
    }

    // Says that a file of this name was saved, by the reply that has its length.
    pub(crate) fn say_saved(&mut self, name: &[u8], reply: &[u8]) -> Result<(), Memory>
        ensures painted { self.new.painted ≡ self.old.painted }
    {
        let length = reply.strip_prefix(b"saved ").unwrap_or(reply);
        self.say("Saved ")?;
        self.message.extend_from_slice(name)?;
        self.message.extend_from_slice(b": ")?;
        self.add_line(length)?;
        self.message.extend_from_slice(b" bytes")?;
        Ok(())
    }

    // Says that memory has run out, where there is memory for that.
    pub(crate) fn say_memory(&mut self)
        ensures painted { self.new.painted ≡ self.old.painted }
    {
        let _ = self.say("Out of memory: the last key may have done nothing");
    }

    // Says where the cursor is: its path, and the tags round it.
    pub(crate) fn say_where(&mut self, alloc: Global, session: &Session) -> Result<(), Memory>
        ensures painted { self.new.painted ≡ self.old.painted }
    {
        let state = session.state();
        let cursor = state.cursor();
        let text = format!(in alloc; "{cursor}")?;
        let tags = tags_round(alloc, state.document(), &cursor.path)?;
        self.message.clear();
        self.message.extend_from_slice(text.as_bytes())?;
        self.message.extend_from_slice(&tags)?;
        Ok(())
    }
}

// The labels of the nodes that a path goes through, each after a space.
pub(crate) fn tags_round(alloc: Global, document: &Tree, path: &Path) -> Result<Vec<u8>, Memory> {
    let mut tags = Vec::new(alloc);
    let mut tree = document;
    for number in path.steps() {
        if let Some(label) = tree.label() {
            tags.push(b' ')?;
            tags.extend_from_slice(label.bytes())?;
        }
        match tree.child(*number) {
            Some(child) => tree = child,
            None => return Ok(tags),
        }
    }
    Ok(tags)
}
