// Lengths as they are written in texts.
ghost use Rattle.std.specs.Prelude.{◌≡◌, ◌<◌, ◌≤◌, ◌-◌, ◌++◌, true, codes, length, take, IfOk, IfSome};
ghost use Rattle.std.specs.List.{list_all, prefix_len};
ghost use Rattle.std.specs.Str.{bytes_eq};
ghost use Rattle.tx_tree.specs.PathSpelling.{is_digit, number_after};
ghost use Rattle.tx_prim.specs.Lengths.{unit_of, measured_length, digits_front, digits_rest};
ghost use Rattle.tx_prim.specs.Lengths.{length_behind, length_of, length_text};

use crate::MOST_WHOLE;
use crate::making::known_text;
use crate::numbers::{digits_value, is_digit, signed, split_minus};
use itoa::Buffer;
use std::alloc::Global;
use tx_tree::{Memory, Text};

fn is_word(bytes: &[u8], word: &[u8]) -> bool
    ensures { result ≡ bytes_eq bytes.now word.now }
{
    bytes == word
}

// The thousandths of a cell of the unit with this name.
fn unit_of(name: &[u8]) -> Option<u64>
    ensures is { result ≡ unit_of name.now }
    ensures some { IfSome result (λ u. 1 ≤ u) }
    ensures small { IfSome result (λ u. u ≤ 12700) }
{
    if is_word(name, b"mcell") {
        Some(1)
    } else if is_word(name, b"spc") {
        Some(1000)
    } else if is_word(name, b"em") {
        Some(2000)
    } else if is_word(name, b"fn") {
        Some(2000)
    } else if is_word(name, b"tab") {
        Some(4000)
    } else if is_word(name, b"mm") {
        Some(500)
    } else if is_word(name, b"cm") {
        Some(5000)
    } else if is_word(name, b"in") {
        Some(12700)
    } else if is_word(name, b"pt") {
        Some(176)
    } else {
        None
    }
}

// The number of digits in front.
fn count_digits(bytes: &[u8]) -> usize
    ensures count { result ≡ prefix_len is_digit bytes.now }
    ensures within { result ≤ length bytes.now }
{
    for (i, byte) in bytes.iter().enumerate() {
        if !is_digit(*byte) {
            return i;
        }
    }
    bytes.len()
}

// The digits in front, and what comes after them.
#[tactic(auto, using(crate::proofs::Digits::digits_seen, std::proofs::lemmas::Grind::common_steps))]
fn split_digits(bytes: &[u8]) -> (&[u8], &[u8])
    ensures front { result.0.now ≡ digits_front bytes.now }
    ensures rest { result.1.now ≡ digits_rest bytes.now }
    ensures digits { list_all is_digit result.0.now ≡ true }
{
    bytes.split_at(count_digits(bytes))
}

// The number of the digit.
fn digit_value(digit: u8) -> u64
    requires { is_digit digit ≡ true }
    ensures { result ≡ digit - 48 }
{
    u64::from(digit - b'0')
}

// The thousandths of what digits after a point write, without those past the third.
fn first_three(decimals: &[u8]) -> u64
    requires { list_all is_digit decimals.now ≡ true }
    ensures value { result ≡ number_after 0 (take 3 (decimals.now ++ codes "000")) }
    ensures small { result < 1000 }
{
    match decimals {
        [] => 0,
        [a] => 100 * digit_value(*a),
        [a, b] => 100 * digit_value(*a) + 10 * digit_value(*b),
        [a, b, c, ..] => 100 * digit_value(*a) + 10 * digit_value(*b) + digit_value(*c),
    }
}

// So many thousandths of the unit of this name, cut toward zero, where 64 bits hold them.
fn measured_length(minus: bool, whole: &[u8], decimals: &[u8], unit: &[u8]) -> Option<i64>
    requires whole { list_all is_digit whole.now ≡ true }
    requires decimals { list_all is_digit decimals.now ≡ true }
    ensures { result ≡ measured_length minus whole.now decimals.now unit.now }
{
    let unit = unit_of(unit)?;
    let whole = digits_value(whole)?;
    let size = whole
        .checked_mul(unit)?
        .checked_add(first_three(decimals) * unit / 1000)?;
    signed(minus, size)
}

// The length after the digits of the whole: a point, digits and a unit, or a unit alone.
fn length_behind(minus: bool, whole: &[u8], bytes: &[u8]) -> Option<i64>
    requires { list_all is_digit whole.now ≡ true }
    ensures { result ≡ length_behind minus whole.now bytes.now }
{
    match bytes {
        [] => None,
        [b'.', bytes @ ..] => {
            let (decimals, unit) = split_digits(bytes);
            if decimals.is_empty() {
                return None;
            }
            measured_length(minus, whole, decimals, unit)
        }
        unit => {
            if whole.is_empty() {
                return None;
            }
            measured_length(minus, whole, &[], unit)
        }
    }
}

// The length that the bytes write, if they do and 64 bits hold it.
pub(crate) fn length_of(bytes: &[u8]) -> Option<i64>
    ensures { result ≡ length_of bytes.now }
{
    let (minus, bytes) = split_minus(bytes);
    let (whole, rest) = split_digits(bytes);
    if whole.len() > MOST_WHOLE {
        return None;
    }
    length_behind(minus, whole, rest)
}

/// The length that the text writes, in thousandths of a cell, cut toward zero: a minus sign or none, at most 18 digits,
/// a point and digits or none, and a unit, with a digit somewhere and one after a point. Digits past the third after
/// the point don't count. None where the text writes no length, or one that 64 bits don't hold.
pub fn parse_length(t: &Text) -> Option<i64>
    ensures { result ≡ length_of t.now }
{
    length_of(t.bytes())
}

/// The text of a length of so many thousandths of a cell: the number, and `mcell`.
pub fn print_length(alloc: Global, mcell: i64) -> Result<Text, Memory>
    ensures { IfOk result (λ t. t ≡ length_text mcell) }
{
    let mut digits = Buffer::new();
    let mut bytes = Vec::from_slice(alloc, digits.format(mcell).as_bytes())?;
    bytes.extend_from_slice(b"mcell")?;
    known_text(alloc, &bytes)
}
