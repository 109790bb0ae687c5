// The beginnings of tags, and where content is.

/// How a tag's beginning is written.
#[derive(Clone, Copy, Debug, PartialEq, Eq)]
pub enum TagForm {
    /// `<label`: a short tag.
    Short,
    /// `<\label`: a long tag.
    Long,
    /// `<|label`: a middle tag.
    Middle,
    /// `</label`: the end of a long tag.
    Closing,
}

/// Of what an argument is one.
#[derive(Clone, Copy, Debug, PartialEq, Eq)]
pub enum TagPlace {
    /// Of a short tag.
    InShort,
    /// Of the beginning of a long tag, or of a middle tag.
    InHeader,
    /// Of a closing tag.
    InClosing,
}

/// What a block holds so far, white aside.
#[derive(Clone, Copy, Debug, PartialEq, Eq)]
pub enum Stage {
    /// Nothing.
    Empty,
    /// One collection tag.
    Alone,
    /// Anything else.
    Ordinary,
}
