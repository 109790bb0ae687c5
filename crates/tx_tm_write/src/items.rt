// The items of a text.
ghost use Rattle.std.specs.Prelude.{◌≡◌, ◌≤◌, ◌+◌, ◌++◌, length, take, drop, OnOk};
ghost use Rattle.tx_tm_write.specs.Canonical.{is_marked, is_control, byte_text, is_held, items_text};

use tx_base::Memory;

// Whether the byte is written after a backslash as it is.
pub(crate) fn is_marked(byte: u8) -> bool
    ensures { result ≡ is_marked byte }
{
    matches!(byte, b'<' | b'>' | b'\\' | b'|')
}

// Whether the byte is written after a backslash as the byte 64 more.
pub(crate) fn is_control(byte: u8) -> bool
    ensures { result ≡ is_control byte }
{
    byte < 32 && byte != 28
}

// Whether a part that is no space is at this place of a text, or after the text.
pub(crate) fn is_held(text: &[u8], at: usize, behind: bool) -> bool
    requires { at ≤ length text.now }
    ensures { result ≡ is_held behind (drop at text.now) }
{
    if at == text.len() {
        behind
    } else {
        text[at] != b' '
    }
}

// Appends a byte of a text.
fn append_byte(byte: u8, raw: bool, out: &mut Vec<u8>) -> Result<(), Memory>
    ensures ok { OnOk result (out.new.items ≡ out.old.items ++ byte_text raw byte) }
    ensures grows { take (length out.old.items) out.new.items ≡ out.old.items }
{
    if is_marked(byte) || (byte == b' ' && !raw) {
        out.push(b'\\')?;
        out.push(byte)?;
    } else if is_control(byte) {
        out.push(b'\\')?;
        out.push(byte + 64)?;
    } else {
        out.push(byte)?;
    }
    Ok(())
}

// Appends the items of a text, where there may be parts that are no spaces before and after it.
pub(crate) fn append_items(
    text: &[u8],
    before: bool,
    behind: bool,
    out: &mut Vec<u8>,
) -> Result<(), Memory>
    ensures ok { OnOk result (out.new.items ≡ out.old.items ++ items_text before behind text.now) }
    ensures grows { take (length out.old.items) out.new.items ≡ out.old.items }
{
    let mut held = before;
    for (i, byte) in text.iter().enumerate() {
        append_byte(*byte, held && is_held(text, i + 1, behind), out)?;
        held = *byte != b' ';
    }
    Ok(())
}
