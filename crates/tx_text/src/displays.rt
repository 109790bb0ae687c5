// What the items of a text show as, appended to other text.
ghost use Rattle.std.specs.Prelude.{◌≡◌, ◌≤◌, ◌++◌, length, nat_lt, if◌then◌else◌, Some, None, OnOk};
ghost use Rattle.std.specs.Prelude.{encode_utf8_all, string_bytes};
ghost use Rattle.std.specs.Char.{digit_value};
ghost use Rattle.tx_text.specs.Displays.{hex_behind, symbol_code, numbered_code, item_text};
ghost use Rattle.tx_tree.specs.Texts.{byte as Byte, symbol as Symbol};

use crate::tables::{byte_char, named_char};
use std::alloc::AllocError;

// What a hexadecimal digit is worth.
fn hex_digit(digit: u8) -> Option<u8>
    ensures { result ≡ (if nat_lt (digit_value digit) 16 then Some (digit_value digit) else None) }
{
    match digit {
        b'0'..=b'9' => Some(digit - b'0'),
        b'a'..=b'f' => Some(digit - b'a' + 10),
        b'A'..=b'F' => Some(digit - b'A' + 10),
        _ => None,
    }
}

// The number that hexadecimal digits spell.
fn hex_value(digits: &[u8]) -> Option<u32>
    requires { length digits.now ≤ 6 }
    ensures { result ≡ hex_behind 0 digits.now }
{
    let mut value: u32 = 0;
    for digit in digits {
        let worth = hex_digit(*digit)?;
        value = value * 16 + u32::from(worth);
    }
    Some(value)
}

// The character of a symbol that is known by the digits of its number.
fn numbered_char(digits: &[u8]) -> Option<char>
    ensures { result ≡ numbered_code digits.now }
{
    if digits.is_empty() || digits.len() > 6 {
        return None;
    }
    let code = hex_value(digits)?;
    match code {
        0x20..=0x7E | 0xA0..=0xD7FF | 0xE000..=0x10FFFF => char::from_u32(code),
        _ => None,
    }
}

/// The character that a symbol shows as, or None where it shows as its own bytes.
pub fn symbol_char(name: &[u8]) -> Option<char>
    ensures { result ≡ symbol_code name.now }
{
    match name {
        [b'#', digits @ ..] => numbered_char(digits),
        _ => named_char(name),
    }
}

/// Adds a byte's display text.
pub fn push_byte(text: &mut String, byte: u8) -> Result<(), AllocError>
    ensures { OnOk result (string_bytes text.new ≡ string_bytes text.old ++ item_text (Byte byte)) }
{
    text.push(byte_char(byte))
}

// Adds bytes, each as the character of its code.
fn push_codes(text: &mut String, codes: &[u8]) -> Result<(), AllocError>
    ensures { OnOk result (string_bytes text.new ≡ string_bytes text.old ++ encode_utf8_all codes.now) }
{
    for code in codes {
        text.push(char::from(*code))?;
    }
    Ok(())
}

/// Adds a symbol's display text.
pub fn push_symbol(text: &mut String, name: &[u8]) -> Result<(), AllocError>
    ensures { OnOk result (string_bytes text.new ≡ string_bytes text.old ++ item_text (Symbol name.now)) }
{
    match symbol_char(name) {
        Some(code) => text.push(code),
        None => {
            text.push('<')?;
            push_codes(text, name)?;
            text.push('>')
        }
    }
}
