// What a byte is to the syntax.
ghost use Rattle.std.specs.Prelude.{◌≡◌};
ghost use Rattle.tx_tm_form.specs.Bytes.{kind_of, escape_of, white_of, joint_run};

use tx_tree::is_label_byte;

/// What a byte is to the syntax.
#[derive(Clone, Copy, Debug, PartialEq, Eq)]
pub enum ByteKind {
    /// A byte that may be in a label.
    Name,
    /// A space or a tab.
    Blank,
    /// Byte 10.
    Newline,
    /// Byte 13.
    Return,
    /// `<`.
    Less,
    /// `>`.
    Greater,
    /// `|`.
    Bar,
    /// `\`.
    Backslash,
    /// `#`.
    Hash,
    /// `/`.
    Slash,
    /// Any other byte, which stands for itself.
    Other,
}

/// What a backslash and a byte stand for, outside symbols.
#[derive(Clone, Copy, Debug, PartialEq, Eq)]
pub enum Escaped {
    /// An item of no bytes.
    Mark,
    /// This byte.
    Byte(u8),
}

/// White: how many bytes 10 a run of it has.
#[derive(Clone, Copy, Debug, PartialEq, Eq)]
pub enum White {
    /// None.
    Spaces,
    /// One.
    Line,
    /// Two or more, which separate paragraphs.
    Break,
}

/// What the byte is to the syntax.
#[tactic(auto, unfolding(crate::specs::Bytes::kind_of))]
pub fn kind_of(byte: u8) -> ByteKind
    ensures { result ≡ kind_of byte }
{
    if is_label_byte(byte) {
        return ByteKind::Name;
    }
    match byte {
        b' ' | b'\t' => ByteKind::Blank,
        b'\n' => ByteKind::Newline,
        b'\r' => ByteKind::Return,
        b'<' => ByteKind::Less,
        b'>' => ByteKind::Greater,
        b'|' => ByteKind::Bar,
        b'\\' => ByteKind::Backslash,
        b'#' => ByteKind::Hash,
        b'/' => ByteKind::Slash,
        _ => ByteKind::Other,
    }
}

/// What a backslash and the byte stand for outside symbols, or None where they stand for nothing: `\;` for the
/// mark, `\|`, `\\` and `\ ` for the byte itself, `\0` for the byte 0, and a byte from `@` to `_` but `I`, `J`
/// and `M` for the byte less 64.
#[tactic(auto, unfolding(crate::specs::Bytes::escape_of))]
pub fn escape_of(byte: u8) -> Option<Escaped>
    ensures { result ≡ escape_of byte }
{
    match byte {
        b';' => Some(Escaped::Mark),
        b'|' | b'\\' | b' ' => Some(Escaped::Byte(byte)),
        b'0' => Some(Escaped::Byte(0)),
        b'I' | b'J' | b'M' => None,
        b'@'..=b'_' => Some(Escaped::Byte(byte - 64)),
        _ => None,
    }
}

/// A byte of white as a run.
pub fn white_of(byte: u8) -> White
    ensures { result ≡ white_of byte }
{
    if byte == b'\n' {
        White::Line
    } else {
        White::Spaces
    }
}

impl White {
    /// The run of both.
    pub fn joint_run(self, behind: White) -> White
        ensures { result ≡ joint_run self behind }
    {
        match (self, behind) {
            (White::Spaces, _) => behind,
            (_, White::Spaces) => self,
            _ => White::Break,
        }
    }
}
