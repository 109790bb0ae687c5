// Numbers as they are written in texts.
ghost use Rattle.std.specs.Prelude.{◌≡◌, ◌<◌, ◌+◌, ◌-◌, ◌*◌, ◌^◌, true};
ghost use Rattle.std.specs.List.{list_all};
ghost use Rattle.std.specs.Option.{SomeIff};
ghost use Rattle.tx_tree.specs.PathSpelling.{is_digit, number_after};
ghost use Rattle.tx_prim.specs.Numbers.{has_minus, behind_minus, signed, if_fits, are_digits, integer_of};

use tx_tree::Text;

pub(crate) fn is_digit(byte: u8) -> bool
    ensures { result ≡ is_digit byte }
{
    byte.is_ascii_digit()
}

// Whether there is a minus sign in front, and what comes after it.
pub(crate) fn split_minus(bytes: &[u8]) -> (bool, &[u8])
    ensures minus { result.0 ≡ has_minus bytes.now }
    ensures rest { result.1.now ≡ behind_minus bytes.now }
{
    match bytes {
        [b'-', rest @ ..] => (true, rest),
        _ => (false, bytes),
    }
}

// The value with one digit more, where it is below 2 ^ 64.
fn next_value(value: u64, digit: u8) -> Option<u64>
    requires { is_digit digit ≡ true }
    ensures { SomeIff result (value * 10 + (digit - 48) < 2 ^ 64) (value * 10 + (digit - 48)) }
{
    value.checked_mul(10)?.checked_add(u64::from(digit - b'0'))
}

// What the digits write, where it is below 2 ^ 64.
pub(crate) fn digits_value(digits: &[u8]) -> Option<u64>
    requires { list_all is_digit digits.now ≡ true }
    ensures { SomeIff result (number_after 0 digits.now < 2 ^ 64) (number_after 0 digits.now) }
{
    let mut value = 0u64;
    for digit in digits {
        value = next_value(value, *digit)?;
    }
    Some(value)
}

// The number with this sign, where 64 bits hold it.
pub(crate) fn signed(minus: bool, magnitude: u64) -> Option<i64>
    ensures { result ≡ if_fits (signed minus magnitude) }
{
    if minus {
        0i64.checked_sub_unsigned(magnitude)
    } else {
        0i64.checked_add_unsigned(magnitude)
    }
}

fn all_digits(bytes: &[u8]) -> bool
    ensures { result ≡ list_all is_digit bytes.now }
{
    bytes.iter().all(|byte| is_digit(*byte))
}

// Whether the bytes are one digit or more.
fn are_digits(bytes: &[u8]) -> bool
    ensures { result ≡ are_digits bytes.now }
{
    !bytes.is_empty() && all_digits(bytes)
}

// The number that the bytes write, if they do and 64 bits hold it.
pub(crate) fn integer_of(bytes: &[u8]) -> Option<i64>
    ensures { result ≡ integer_of bytes.now }
{
    let (minus, digits) = split_minus(bytes);
    if !are_digits(digits) {
        return None;
    }
    signed(minus, digits_value(digits)?)
}

/// The number that the text writes: a minus sign or none, and one digit or more. None where it writes none, or one that
/// 64 bits don't hold.
pub fn parse_number(t: &Text) -> Option<i64>
    ensures { result ≡ integer_of t.now }
{
    integer_of(t.bytes())
}
