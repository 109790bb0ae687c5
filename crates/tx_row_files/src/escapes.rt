// Texts with escapes: `\\`, `\n`, `\r`, `\t`, `\s` for a space, and `\x` with two hexadecimal digits for any byte.

// What the escape that is being read still needs.
#[derive(Clone, Copy)]
enum Escape {
    None,
    Letter,
    TwoDigits,
    OneDigit(u8),
}

fn digit(byte: u8) -> Option<u8> {
    match byte {
        b'0'..=b'9' => Some(byte - b'0'),
        b'a'..=b'f' => Some(byte - b'a' + 10),
        b'A'..=b'F' => Some(byte - b'A' + 10),
        _ => None,
    }
}

// The byte that a backslash and this letter stand for.
fn letter(byte: u8) -> Option<u8> {
    match byte {
        b'\\' => Some(b'\\'),
        b'n' => Some(b'\n'),
        b'r' => Some(b'\r'),
        b't' => Some(b'\t'),
        b's' => Some(b' '),
        _ => None,
    }
}

// Reads the next byte of a text. Appends the byte that is complete with it, if there is one.
fn take(escape: Escape, byte: u8, out: &mut Vec<u8>) -> Option<Escape> {
    let complete = match escape {
        Escape::None if byte == b'\\' => return Some(Escape::Letter),
        Escape::None => byte,
        Escape::Letter if byte == b'x' => return Some(Escape::TwoDigits),
        Escape::Letter => letter(byte)?,
        Escape::TwoDigits => return Some(Escape::OneDigit(digit(byte)?)),
        Escape::OneDigit(first) => (first << 4) | digit(byte)?,
    };
    out.push(complete).ok()?;
    Some(Escape::None)
}

// Appends the bytes that the text stands for. None where it has a faulty escape, or where memory runs out.
pub fn push_unescaped(text: &str, out: &mut Vec<u8>) -> Option<()> {
    let mut escape = Escape::None;
    for byte in text.as_bytes() {
        escape = take(escape, *byte, out)?;
    }
    match escape {
        Escape::None => Some(()),
        _ => None,
    }
}

// Appends a byte as the report shows it: a visible byte or a space as it is, any other as an escape.
pub fn push_visible(byte: u8, out: &mut Vec<u8>) -> Option<()> {
    const DIGITS: &[u8; 16] = b"0123456789abcdef";
    if byte >= b' ' && byte < 127 {
        return out.push(byte).ok();
    }
    out.push(b'\\').ok()?;
    out.push(b'x').ok()?;
    out.push(DIGITS[usize::from(byte >> 4)]).ok()?;
    out.push(DIGITS[usize::from(byte & 15)]).ok()
}
