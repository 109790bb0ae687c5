// Bytes at the front that are taken at once.
ghost use Rattle.std.specs.Prelude.{◌≡◌, ◌≢◌, ◌≤◌, ◌<◌, ◌+◌, ℕ, min, true, false, length, take, slice_index};
ghost use Rattle.std.specs.Bool.{OnTrue};
ghost use Rattle.tx_tm_form.specs.Bytes.{kind_of, is_plain, is_white};
ghost use Rattle.tx_tm_words.specs.Runs.{AreWords, IsWhiteRun};

use tx_scan::{Stops, first_stop};
use tx_tm_form::{ByteKind, White, kind_of, white_of};

/// How many bytes are looked at for the end of words. With this limit it takes no longer where there are many short
/// runs of them before a stop that is far away.
pub const MOST_RUN: usize = 256;

// How many bytes at the front are spaces or stand for themselves. There may be more of them where a byte below 32 is
// one.
fn text_len(bytes: &[u8]) -> usize
    ensures within { result ≤ length bytes.now }
    ensures plain { (k : ℕ) → k < result → slice_index bytes.now k ≢ 32
        → is_plain (kind_of (slice_index bytes.now k)) ≡ true }
    ensures stop { result < length bytes.now → 32 ≤ slice_index bytes.now result
        → is_plain (kind_of (slice_index bytes.now result)) ≡ false }
{
    match Stops::new(b"<>|\\") {
        Some(stops) => first_stop(bytes, 0, &stops),
        None => 0,
    }
}

// How many of the bytes are looked at.
fn looked_at(bytes: &[u8]) -> usize
    ensures { result ≡ min MOST_RUN (length bytes.now) }
{
    bytes.len().min(MOST_RUN)
}

// How many bytes at the front are spaces or stand for themselves, where only the first `MOST_RUN` bytes are looked at.
fn short_text_len(bytes: &[u8]) -> usize
    ensures within { result ≤ length bytes.now }
    ensures plain { (k : ℕ) → k < result → slice_index bytes.now k ≢ 32
        → is_plain (kind_of (slice_index bytes.now k)) ≡ true }
    ensures stop { result < length bytes.now → result < MOST_RUN → 32 ≤ slice_index bytes.now result
        → is_plain (kind_of (slice_index bytes.now result)) ≡ false }
{
    let size = looked_at(bytes);
    text_len(&bytes[..size])
}

// Whether the byte is no space.
#[inline(always)]
fn is_no_space(byte: u8) -> bool
    ensures other { OnTrue result (byte ≢ 32) }
    ensures space { result ≡ false → byte ≡ 32 }
{
    byte != b' '
}

// Whether a space is at the place, and no space after it, before the place `most`.
#[inline(always)]
fn is_spaced(bytes: &[u8], at: usize, most: usize) -> bool
    requires front { at < most }
    requires within { most ≤ length bytes.now }
    ensures there { OnTrue result (at + 1 < most) }
    ensures space { OnTrue result (slice_index bytes.now at ≡ 32) }
    ensures behind { OnTrue result (slice_index bytes.now (at + 1) ≢ 32) }
{
    bytes[at] == b' ' && at + 1 < most && bytes[at + 1] != b' '
}

/// How many bytes at the front stand for themselves, with single spaces between some of them. There may be more of them
/// where a byte below 32 is one, or after the first 256 bytes.
#[inline(always)]
pub fn words_len(bytes: &[u8]) -> usize
    ensures within { result ≤ length bytes.now }
    ensures words { 0 < result → AreWords (take result bytes.now) }
    ensures stop { result < length bytes.now → result < MOST_RUN → 32 ≤ slice_index bytes.now result
        → is_plain (kind_of (slice_index bytes.now result)) ≡ false }
{
    let most = short_text_len(bytes);
    let mut end = 0;
    'words: while end < most {
        if is_no_space(bytes[end]) {
            end += 1;
        } else if end > 0 && is_spaced(bytes, end, most) {
            end += 2;
        } else {
            return end;
        }
    }
    end
}

// Whether the byte is white.
#[inline(always)]
fn is_white(byte: u8) -> bool
    ensures { result ≡ is_white (kind_of byte) }
{
    match kind_of(byte) {
        ByteKind::Blank | ByteKind::Newline | ByteKind::Return => true,
        _ => false,
    }
}

/// How many bytes of white are at the front, and the run that they are.
#[inline(always)]
pub fn white_front(bytes: &[u8]) -> (usize, White)
    ensures within { result.0 ≤ length bytes.now }
    ensures white { IsWhiteRun (take result.0 bytes.now) result.1 }
    ensures stop { result.0 < length bytes.now → is_white (kind_of (slice_index bytes.now result.0)) ≡ false }
{
    let mut white = White::Spaces;
    for (i, byte) in bytes.iter().enumerate() {
        if is_white(*byte) {
            white = white.joint_run(white_of(*byte));
        } else {
            return (i, white);
        }
    }
    (bytes.len(), white)
}
