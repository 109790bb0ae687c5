// Commands, and why a line is none.
ghost use Rattle.std.specs.Prelude.{◌≡◌};
ghost use Rattle.tx_cmd.specs.declared.command.CmdFault.TheVariants.{Memory as NoMemory};

use thiserror::Error;
use tx_base::Memory;
use tx_doc::Name;
use tx_mod::Mod;
use tx_tree::{Path, ReadFault, Text};

/// A command of a script.
#[derive(Drop)]
pub enum Command {
    /// Changes the document.
    Change(Mod),
    /// Takes the last change back.
    Undo,
    /// Takes back the change of this number alone, the last one being 1, and leaves those after it.
    UndoAt(u32),
    /// Makes the change again that was taken back last.
    Redo,
    /// Selects the buffer of this name.
    At(Name),
    /// Puts the cursor at a place. The last number of the path is the offset.
    Go(Path),
    /// Puts the cursor at the place that is shown in this row and column, both from 0.
    Click(u32, u32),
    /// Puts the cursor at the stop before it.
    Left,
    /// Puts the cursor at the stop after it.
    Right,
    /// Inserts the text at the cursor.
    Typed(Text),
    /// Removes what is before the cursor.
    Backspace,
    /// Begins a paragraph at the cursor.
    Enter,
    /// Shows the pages of the document.
    Show,
    /// Shows the page of this number, from 1.
    Page(u32),
    /// Lists the errors of the document.
    Errors,
    /// Prints the place that is shown in this row and column, both from 0.
    PlaceOf(u32, u32),
    /// Prints the cursor's place.
    Cursor,
    /// Prints the attributes of the cells of this row, from 0.
    Attrs(u32),
    /// Prints by how many steps the last making of the view raised the count.
    Work,
    /// Prints the tree of the selected buffer.
    Tree,
    /// Writes the tree of the selected buffer into the file of this name.
    Save(Name),
    /// Ends the script.
    Quit,
}

/// Why a line is no command: the first of these causes, in this order. Places count the line's bytes from 0.
#[derive(Clone, Copy, Debug, PartialEq, Eq, Error)]
pub enum CmdFault {
    /// The line has so many bytes, of which 1,048,576 are allowed.
    #[error("a line of {0} bytes")]
    Long(u64),
    /// No command begins with the line's first word.
    #[error("an unknown command")]
    Unknown,
    /// So many bytes and no more of the line begin a command with its first word, where any bytes without a space
    /// count as a path, and any bytes as a tree or a text. Or the line is such a command, and the tree that begins at
    /// this byte is a node where a text is asked for.
    #[error("no such arguments, at byte {0}")]
    Args(usize),
    /// What stands for the path spells none: so many bytes of the line and no more lead to one.
    #[error("no path, at byte {0}")]
    Path(usize),
    /// What stands for the tree or the text spells no tree within the limits: why, with places of the line.
    /// `ReadFault::Memory` doesn't occur here.
    #[error("no tree: {0}")]
    Tree(ReadFault),
    /// Memory ran out.
    #[error("out of memory")]
    Memory,
}

impl From<Memory> for CmdFault {
    ghost from_gives = { λ _ fault. fault ≡ NoMemory };

    fn from(_cause: Memory) -> CmdFault {
        CmdFault::Memory
    }
}
