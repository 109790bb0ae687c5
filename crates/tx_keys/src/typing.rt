// What is written into a text for a typed character.
ghost use Rattle.std.specs.Prelude.{◌≡◌, ◌≢◌, ◌≤◌, ℕ, ◌<◌, true, false, ◌++◌, [], ◌∷◌, take, length, codes};
ghost use Rattle.std.specs.Prelude.{IfOk, OnOk, OnErr};
ghost use Rattle.std.specs.List.{take_while};
ghost use Rattle.tx_tree.specs.Texts.{Item, IsItem, item_bytes, symbol as Symbol};
ghost use Rattle.tx_text.specs.Displays.{is_shown_code, item_codes};
ghost use Rattle.tx_keys.specs.Typing.{IsTyped, byte_among, byte_of, hex_digit, hex_name, is_nought, six_digits};

use tx_base::Memory;

// The code points that bytes of a text show but those that show their own number, each with its byte.
const SHOWN_BYTES: [(u32, u8); 97] = [
    (0xb4, 1),
    (0x2c6, 2),
    (0x2dc, 3),
    (0xa8, 4),
    (0x2dd, 5),
    (0x2da, 6),
    (0x2c7, 7),
    (0x2d8, 8),
    (0xb8, 11),
    (0x2db, 12),
    (0x2039, 14),
    (0x203a, 15),
    (0x201c, 16),
    (0x201d, 17),
    (0x201e, 18),
    (0xab, 19),
    (0xbb, 20),
    (0x2013, 21),
    (0x2014, 22),
    (0xfffd, 23),
    (0x2080, 24),
    (0x131, 25),
    (0x237, 26),
    (0xfb00, 27),
    (0xfb01, 28),
    (0xfb02, 29),
    (0xfb03, 30),
    (0xfb04, 31),
    (0x2010, 127),
    (0x102, 128),
    (0x104, 129),
    (0x106, 130),
    (0x10c, 131),
    (0x10e, 132),
    (0x11a, 133),
    (0x118, 134),
    (0x11e, 135),
    (0x139, 136),
    (0x13d, 137),
    (0x141, 138),
    (0x143, 139),
    (0x147, 140),
    (0x14a, 141),
    (0x150, 142),
    (0x154, 143),
    (0x158, 144),
    (0x15a, 145),
    (0x160, 146),
    (0x15e, 147),
    (0x164, 148),
    (0x162, 149),
    (0x170, 150),
    (0x16e, 151),
    (0x178, 152),
    (0x179, 153),
    (0x17d, 154),
    (0x17b, 155),
    (0x132, 156),
    (0x130, 157),
    (0x111, 158),
    (0xa7, 159),
    (0x103, 160),
    (0x105, 161),
    (0x107, 162),
    (0x10d, 163),
    (0x10f, 164),
    (0x11b, 165),
    (0x119, 166),
    (0x11f, 167),
    (0x13a, 168),
    (0x13e, 169),
    (0x142, 170),
    (0x144, 171),
    (0x148, 172),
    (0x14b, 173),
    (0x151, 174),
    (0x155, 175),
    (0x159, 176),
    (0x15b, 177),
    (0x161, 178),
    (0x15f, 179),
    (0x165, 180),
    (0x163, 181),
    (0x171, 182),
    (0x16f, 183),
    (0xff, 184),
    (0x17a, 185),
    (0x17e, 186),
    (0x17c, 187),
    (0x133, 188),
    (0xa1, 189),
    (0xbf, 190),
    (0xa3, 191),
    (0x152, 215),
    (0x1e9e, 223),
    (0x153, 247),
    (0xdf, 255),
];

// The byte of the first row with this code point.
fn byte_among(rows: &[(u32, u8)], code: u32) -> Option<u8>
    ensures { result ≡ byte_among rows.now code }
{
    for row in rows {
        if row.0 == code {
            return Some(row.1);
        }
    }
    None
}

// The byte that shows a code point in a text, if one does.
fn byte_of(code: u32) -> Option<u8>
    ensures { result ≡ byte_of code }
{
    match code {
        0x3c | 0x3e => None,
        0x20..=0x7e | 0xc0..=0xd6 | 0xd8..=0xde | 0xe0..=0xf6 | 0xf8..=0xfe => Some(code as u8),
        _ => byte_among(&SHOWN_BYTES, code),
    }
}

// The digit of a number below 16.
fn hex_digit(value: u32) -> u8
    requires { value < 16 }
    ensures { result ≡ hex_digit value }
{
    if value < 10 {
        return b'0' + value as u8;
    }
    b'A' + (value as u8 - 10)
}

// The six hexadecimal digits of a code point.
fn six_digits(code: u32) -> [u8; 6]
    ensures { result ≡ six_digits code }
{
    [
        hex_digit(code / 0x10_0000 % 16),
        hex_digit(code / 0x1_0000 % 16),
        hex_digit(code / 0x1000 % 16),
        hex_digit(code / 0x100 % 16),
        hex_digit(code / 0x10 % 16),
        hex_digit(code % 16),
    ]
}

// How many zeros are in front.
fn noughts(digits: &[u8]) -> usize
    ensures { result ≡ length (take_while is_nought digits.now) }
{
    digits.iter().take_while(|digit| **digit == b'0').count()
}

// Adds a symbol.
fn push_symbol(name: &[u8], out: &mut Vec<u8>) -> Result<(), Memory>
    ensures added { OnOk result (out.new.items ≡ out.old.items ++ item_bytes (Symbol name.now)) }
    ensures grows { take (length out.old.items) out.new.items ≡ out.old.items }
{
    out.push(b'<')?;
    out.extend_from_slice(name)?;
    out.push(b'>')?;
    Ok(())
}

// Adds the symbol that shows a code point by its number.
fn push_number(code: u32, out: &mut Vec<u8>) -> Result<(), Memory>
    ensures added { OnOk result (out.new.items ≡ out.old.items ++ item_bytes (Symbol (hex_name code))) }
    ensures grows { take (length out.old.items) out.new.items ≡ out.old.items }
{
    let digits = six_digits(code);
    let from = noughts(&digits);
    out.extend_from_slice(b"<#")?;
    out.extend_from_slice(&digits[from..])?;
    out.push(b'>')?;
    Ok(())
}

// Adds the item that shows a code point.
fn push_item(code: u32, out: &mut Vec<u8>) -> Result<(), Memory>
    requires { is_shown_code code ≡ true }
    ensures added { OnOk result ((item : Item) × IsTyped code item
        × (out.new.items ≡ out.old.items ++ item_bytes item)) }
    ensures grows { take (length out.old.items) out.new.items ≡ out.old.items }
{
    if let Some(byte) = byte_of(code) {
        out.push(byte)?;
        return Ok(());
    }
    match code {
        0x3c => push_symbol(b"less", out),
        0x3e => push_symbol(b"gtr", out),
        0xa0 => push_symbol(b"nbsp", out),
        _ => push_number(code, out),
    }
}

// Whether an item shows a code point alone: no control, and no surrogate.
fn is_shown_code(code: u32) -> bool
    ensures { result ≡ is_shown_code code }
{
    matches!(code, 0x20..=0x7e | 0xa0..=0xd7ff | 0xe000..=0x10_ffff)
}

/// Adds the item of a text that shows a code point, and returns whether there is one: a byte where the table of bytes
/// has it, else `<less>`, `<gtr>` or `<nbsp>`, else `<#HEX>`. Nothing is added for a control, for a surrogate, and
/// after an `Err`.
pub fn push_typed(code: u32, out: &mut Vec<u8>) -> Result<bool, Memory>
    ensures shown { IfOk result (λ shown. shown ≡ is_shown_code code) }
    ensures added { IfOk result (λ shown. shown ≡ true → (item : Item) × IsTyped code item
        × (out.new.items ≡ out.old.items ++ item_bytes item)) }
    ensures nothing { IfOk result (λ shown. shown ≡ false → out.new.items ≡ out.old.items) }
    ensures refused { OnErr result (out.new.items ≡ out.old.items) }
{
    if !is_shown_code(code) {
        return Ok(false);
    }
    let count = out.len();
    match push_item(code, out) {
        Ok(()) => Ok(true),
        Err(fault) => {
            out.truncate(count);
            Err(fault)
        }
    }
}
