// What keys mean, and the size of a terminal.

/// The columns and rows of a terminal.
#[derive(Clone, Copy, Debug, PartialEq, Eq)]
pub struct Size {
    pub columns: u16,
    pub rows: u16,
}

/// What the status line asks for.
#[derive(Clone, Copy, Debug, PartialEq, Eq)]
pub(crate) enum Question {
    /// A line of commands.
    Line,
    /// The name of a file to save.
    Name,
    /// A text to find.
    Find,
}

/// What keys mean.
#[derive(Drop)]
pub(crate) enum Mode {
    /// They edit the document, and move in it.
    Text,
    /// They answer a question. These code points have been typed.
    Asked(Question, Vec<u32>),
    /// They choose among the errors. This one is chosen.
    Errors(u32),
    /// Any key ends what is shown in place of the page.
    Shown(Vec<u8>),
    /// They decide whether to leave unsaved changes.
    Leaving,
    /// They are pasted. These code points are of the line that has begun.
    Pasted(Vec<u32>),
}
