// Versions, as a document has one of the TeXmacs that wrote it.
ghost use Rattle.std.specs.Prelude.{◌≡◌, ◌≤◌, ◌∷◌, [], ◌+◌, true, length, IfOk, IfSome, ◌<◌, option_map};
ghost use Rattle.std.specs.List.{slice_split, list_all};
ghost use Rattle.std.specs.Option.{option_map_or};
ghost use Rattle.std.specs.Ordering.{is_lt, nat_cmp};
ghost use Rattle.std.specs.Cmp.Lexicographic.{slice_cmp};
ghost use Rattle.tx_tree.specs.PathSpelling.{is_digit, number_after};
ghost use Rattle.tx_doc.specs.Versions.{number_of_digits, is_point, version_of, is_old_version};

use std::alloc::Global;
use tx_base::Memory;

// The version from which on documents aren't old.
const MODERN: [u32; 3] = [1, 0, 2];
// The most digits of a number of a version.
const MOST_DIGITS: usize = 9;

// Whether all of these bytes are digits.
fn all_digits(bytes: &[u8]) -> bool
    ensures { result ≡ list_all is_digit bytes.now }
{
    bytes.iter().all(|byte| byte.is_ascii_digit())
}

// The number that so few digits write.
fn value_of(digits: &[u8]) -> u32
    requires digits { list_all is_digit digits.now ≡ true }
    requires few { length digits.now ≤ MOST_DIGITS }
    ensures { result ≡ number_after 0 digits.now }
{
    let mut value = 0;
    for digit in digits {
        value = value * 10 + u32::from(*digit - b'0');
    }
    value
}

// The number that one to nine digits write.
fn number_of_digits(digits: &[u8]) -> Option<u32>
    ensures { result ≡ number_of_digits digits.now }
{
    if digits.is_empty() || digits.len() > MOST_DIGITS || !all_digits(digits) {
        return None;
    }
    Some(value_of(digits))
}

// The bytes before the first point, and those after it. Without a point all bytes come before it.
fn split_at_point(bytes: &[u8]) -> (&[u8], Option<&[u8]>)
    ensures pieces { slice_split is_point bytes.now
        ≡ result.0.now ∷ option_map_or (λ rest. slice_split is_point rest.now) result.1 [] }
    ensures shorter { IfSome result.1 (λ rest. length rest.now < length bytes.now) }
{
    for (at, byte) in bytes.iter().enumerate() {
        if *byte == b'.' {
            return (&bytes[..at], Some(&bytes[at + 1..]));
        }
    }
    (bytes, None)
}

// The numbers of a version, or None where the bytes aren't numbers of one to nine digits with points between them.
fn version_of(alloc: Global, bytes: &[u8]) -> Result<Option<Vec<u32>>, Memory>
    ensures { IfOk result (λ version. option_map (λ v. v.items) version ≡ version_of bytes.now) }
{
    let mut numbers = Vec::new(alloc);
    let mut left = Some(bytes);
    while let Some(text) = left {
        let (digits, rest) = split_at_point(text);
        let Some(number) = number_of_digits(digits) else {
            return Ok(None);
        };
        numbers.push(number)?;
        left = rest;
    }
    Ok(Some(numbers))
}

// Whether the numbers are those of a version before 1.0.2.
fn is_before_modern(numbers: &[u32]) -> bool
    ensures { result ≡ is_lt (slice_cmp nat_cmp numbers.now (1 ∷ 0 ∷ 2 ∷ [])) }
{
    numbers.cmp(MODERN.as_slice()).is_lt()
}

// Whether the bytes are a version before 1.0.2.
pub(crate) fn is_old_version(alloc: Global, bytes: &[u8]) -> Result<bool, Memory>
    ensures { IfOk result (λ old. old ≡ is_old_version bytes.now) }
{
    match version_of(alloc, bytes)? {
        Some(numbers) => Ok(is_before_modern(numbers.as_slice())),
        None => Ok(false),
    }
}
