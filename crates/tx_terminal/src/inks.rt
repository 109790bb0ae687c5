// How the characters of a row are shown.

/// A color of ECMA-48, in the order of its numbers.
#[derive(Clone, Copy, PartialEq, Eq)]
pub enum Color {
    Black,
    Red,
    Green,
    Yellow,
    Blue,
    Magenta,
    Cyan,
    White,
}

/// How a character is shown. Where `color` is None it has the terminal's own color.
#[derive(Clone, Copy, PartialEq, Eq)]
pub struct Ink {
    pub bold: bool,
    pub italic: bool,
    pub reverse: bool,
    pub color: Option<Color>,
}

impl Ink {
    /// Neither bold nor italic nor reverse, in the terminal's own color.
    pub const PLAIN: Ink = Ink {
        bold: false,
        italic: false,
        reverse: false,
        color: None,
    };
}
