// The line that is being read.
ghost use Rattle.std.specs.Prelude.{◌≡◌, ◌<◌, ◌≤◌, ◌+◌, ◌∷◌, ◌++◌, ℕ, List, [], length, IfOk, IfErr, MatchResult};
ghost use Rattle.tx_session.specs.Keeping.{KeepsLine};
ghost use Rattle.tx_session.specs.Scripts.{command_line};
ghost use Rattle.tx_cmd.specs.declared.TheConstants.{MOST_LINE};

use crate::MOST_SCRIPT;
use std::alloc::Global;
use tx_base::Memory;
use tx_cmd::MOST_LINE;

/// What is stored of a line while it is read: its first bytes, as many as a command can need, how many it has, and
/// whether the last one is a return.
#[derive(Drop)]
pub(crate) struct KeptLine {
    front: Vec<u8>,
    count: usize,
    returned: bool,
}

impl KeptLine {
    /// A line without bytes.
    pub(crate) fn new(alloc: Global) -> KeptLine
        ensures { KeepsLine result [] }
    {
        KeptLine {
            front: Vec::new(alloc),
            count: 0,
            returned: false,
        }
    }

    /// Begins a new line.
    pub(crate) fn clear(&mut self)
        ensures { KeepsLine self.new [] }
    {
        self.front.clear();
        self.count = 0;
        self.returned = false;
    }

    /// Adds the next byte.
    pub(crate) fn add(&mut self, byte: u8) -> Result<(), Memory>
        requires room { self.old.count < MOST_SCRIPT }
        ensures kept { IfOk result (λ _.
            (bytes : List ℕ) → KeepsLine self.old bytes → KeepsLine self.new (bytes ++ byte ∷ [])) }
        ensures count { self.new.count ≤ self.old.count + 1 }
        ensures short { IfErr result (λ _. (bytes : List ℕ) → KeepsLine self.old bytes → length bytes ≤ MOST_LINE) }
    {
        self.count += 1;
        self.returned = byte == b'\r';
        if self.front.len() > MOST_LINE {
            return Ok(());
        }
        self.front.push(byte)?;
        Ok(())
    }

    // How many bytes the line has without the return at its end.
    fn text_count(&self) -> usize
        requires kept { (bytes : List ℕ) × KeepsLine self.now bytes }
        ensures { (bytes : List ℕ) → KeepsLine self.now bytes → result ≡ length (command_line bytes) }
    {
        if self.returned {
            return self.count - 1;
        }
        self.count
    }

    /// The line without the return at its end, or how many bytes it then has where they are too many for a command.
    pub(crate) fn text(&self) -> Result<&[u8], usize>
        requires kept { (bytes : List ℕ) × KeepsLine self.now bytes }
        ensures text { (bytes : List ℕ) → KeepsLine self.now bytes → MatchResult result
            (λ text. text.now ≡ command_line bytes)
            (λ count. (count ≡ length (command_line bytes)) × (MOST_LINE < count)) }
        ensures short { IfOk result (λ text. length text.now ≤ MOST_LINE) }
    {
        let count = self.text_count();
        if count > MOST_LINE {
            return Err(count);
        }
        Ok(&self.front[..count])
    }
}
