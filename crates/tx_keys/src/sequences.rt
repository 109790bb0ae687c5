// Keys, and what one byte makes of a sequence of bytes that has begun.
ghost use Rattle.std.specs.Prelude.{◌≡◌};
ghost use Rattle.tx_keys.specs.Keys.{bracket_byte, char_byte, char_key, cursor_key, first_byte, held_key};
ghost use Rattle.tx_keys.specs.Keys.{later_byte, number_byte, numbered_key, sequence_key, with_ctrl};

/// A key, a press of the mouse, or a reply of the terminal.
#[derive(Clone, Copy, Debug, PartialEq, Eq)]
pub enum Key {
    /// A character by its code point, no control.
    Char(u32),
    /// A control character by its byte: 1 to 26 for Ctrl-A to Ctrl-Z, but for those that have a key here.
    Control(u8),
    /// The byte 13.
    Enter,
    /// The byte 127 or 8.
    Backspace,
    /// The byte 27 alone.
    Escape,
    Up,
    Down,
    Right,
    Left,
    Home,
    End,
    CtrlHome,
    CtrlEnd,
    PageUp,
    PageDown,
    Delete,
    F1,
    /// The first button of the mouse was pressed at this column and row, from 1.
    Click(u32, u32),
    /// The terminal says that its cursor is at this row and column, from 1.
    Report(u32, u32),
    /// What follows up to [`Key::PasteEnds`] is pasted.
    PasteBegins,
    PasteEnds,
}

/// What the bytes so far have begun.
#[derive(Clone, Copy, Debug, PartialEq, Eq)]
pub enum Begun {
    Nothing,
    /// An escape in this read.
    Escape,
    /// Nothing, and the read before ended with an escape.
    LoneEscape,
    /// `ESC O`.
    SingleShift,
    /// `ESC [`, which is called CSI.
    Bracket,
    /// CSI with numbers: whether `<` comes before them, and the last three, 0 where there are less.
    Numbers(bool, u32, u32, u32),
    /// CSI and something that no key has.
    Foreign,
    /// So many bytes are to be dropped.
    Skipping(u8),
    /// A character: how many of its bytes are to come, its bits so far, and the least code point of this length.
    Character(u8, u32, u32),
}

// The key of a character, unless there is none with this code point, or it has a shorter form.
fn char_key(code: u32, least: u32) -> Option<Key>
    ensures { result ≡ char_key code least }
{
    if code < least || code > 0x10_ffff || (0xd800 <= code && code <= 0xdfff) {
        return None;
    }
    Some(Key::Char(code))
}

// The key of a sequence that ends with this letter.
fn cursor_key(byte: u8) -> Option<Key>
    ensures { result ≡ cursor_key byte }
{
    match byte {
        b'A' => Some(Key::Up),
        b'B' => Some(Key::Down),
        b'C' => Some(Key::Right),
        b'D' => Some(Key::Left),
        b'F' => Some(Key::End),
        b'H' => Some(Key::Home),
        b'P' => Some(Key::F1),
        _ => None,
    }
}

// The key of a sequence that ends with `~` after this number.
fn numbered_key(number: u32) -> Option<Key>
    ensures { result ≡ numbered_key number }
{
    match number {
        1 | 7 => Some(Key::Home),
        3 => Some(Key::Delete),
        4 | 8 => Some(Key::End),
        5 => Some(Key::PageUp),
        6 => Some(Key::PageDown),
        11 => Some(Key::F1),
        200 => Some(Key::PasteBegins),
        201 => Some(Key::PasteEnds),
        _ => None,
    }
}

// The key with Ctrl.
fn with_ctrl(key: Option<Key>) -> Option<Key>
    ensures { result ≡ with_ctrl key }
{
    match key {
        Some(Key::Home) => Some(Key::CtrlHome),
        Some(Key::End) => Some(Key::CtrlEnd),
        other => other,
    }
}

// A key, with Ctrl where the number after it says so.
fn held_key(key: Option<Key>, held: u32) -> Option<Key>
    ensures { result ≡ held_key key held }
{
    if held == 5 {
        return with_ctrl(key);
    }
    key
}

// The key that a byte ends after numbers.
fn sequence_key(marked: bool, first: u32, second: u32, last: u32, byte: u8) -> Option<Key>
    ensures { result ≡ sequence_key marked first second last byte }
{
    let is_place = 1 <= second && 1 <= last;
    if marked {
        if byte == b'M' && first == 0 && is_place {
            return Some(Key::Click(second, last));
        }
        return None;
    }
    if byte == b'R' {
        if is_place {
            return Some(Key::Report(second, last));
        }
        return None;
    }
    if byte == b'~' {
        if second == 0 {
            return numbered_key(last);
        }
        return held_key(numbered_key(second), last);
    }
    held_key(cursor_key(byte), last)
}

// What a byte makes of numbers after CSI, and the key that it ends.
fn number_byte(
    marked: bool,
    first: u32,
    second: u32,
    last: u32,
    byte: u8,
) -> Option<(Begun, Option<Key>)>
    ensures { result ≡ number_byte marked first second last byte }
{
    match byte {
        b'0'..=b'9' => {
            if last < 10_000 {
                let number = last * 10 + (u32::from(byte) - 48);
                return Some((Begun::Numbers(marked, first, second, number), None));
            }
            Some((Begun::Foreign, None))
        }
        b';' => Some((Begun::Numbers(marked, second, last, 0), None)),
        32..=63 => Some((Begun::Foreign, None)),
        64..=126 => Some((
            Begun::Nothing,
            sequence_key(marked, first, second, last, byte),
        )),
        _ => None,
    }
}

// What a byte makes of a character, and the key that it ends.
fn char_byte(left: u8, bits: u32, least: u32, byte: u8) -> Option<(Begun, Option<Key>)>
    ensures { result ≡ char_byte left bits least byte }
{
    if byte < 128 || byte > 191 || bits >= 65536 {
        return None;
    }
    let code = bits * 64 + (u32::from(byte) - 128);
    if left <= 1 {
        return Some((Begun::Nothing, char_key(code, least)));
    }
    Some((Begun::Character(left - 1, code, least), None))
}

// What a byte makes right after CSI, and the key that it ends.
fn bracket_byte(byte: u8) -> Option<(Begun, Option<Key>)>
    ensures { result ≡ bracket_byte byte }
{
    match byte {
        b'<' => Some((Begun::Numbers(true, 0, 0, 0), None)),
        b'M' => Some((Begun::Skipping(3), None)),
        b'[' => Some((Begun::Skipping(1), None)),
        _ => number_byte(false, 0, 0, 0, byte),
    }
}

/// What a byte makes of what has begun, and the key that it ends. None where the byte doesn't go on with it.
pub fn later_byte(begun: Begun, byte: u8) -> Option<(Begun, Option<Key>)>
    ensures { result ≡ later_byte begun byte }
{
    match begun {
        Begun::Nothing | Begun::LoneEscape => None,
        Begun::Escape => match byte {
            b'O' => Some((Begun::SingleShift, None)),
            b'[' => Some((Begun::Bracket, None)),
            _ => None,
        },
        Begun::SingleShift => match byte {
            64..=126 => Some((Begun::Nothing, cursor_key(byte))),
            _ => None,
        },
        Begun::Bracket => bracket_byte(byte),
        Begun::Numbers(marked, first, second, last) => {
            number_byte(marked, first, second, last, byte)
        }
        Begun::Foreign => match byte {
            32..=63 => Some((Begun::Foreign, None)),
            64..=126 => Some((Begun::Nothing, None)),
            _ => None,
        },
        Begun::Skipping(left) => {
            if left <= 1 {
                return Some((Begun::Nothing, None));
            }
            Some((Begun::Skipping(left - 1), None))
        }
        Begun::Character(left, bits, least) => char_byte(left, bits, least, byte),
    }
}

/// What a byte begins where nothing has begun, and its key.
pub fn first_byte(byte: u8) -> (Begun, Option<Key>)
    ensures { result ≡ first_byte byte }
{
    match byte {
        13 => (Begun::Nothing, Some(Key::Enter)),
        8 | 127 => (Begun::Nothing, Some(Key::Backspace)),
        27 => (Begun::Escape, None),
        0..=31 => (Begun::Nothing, Some(Key::Control(byte))),
        32..=126 => (Begun::Nothing, Some(Key::Char(u32::from(byte)))),
        194..=223 => (Begun::Character(1, u32::from(byte) - 192, 0x80), None),
        224..=239 => (Begun::Character(2, u32::from(byte) - 224, 0x800), None),
        240..=244 => (Begun::Character(3, u32::from(byte) - 240, 0x1_0000), None),
        _ => (Begun::Nothing, None),
    }
}
