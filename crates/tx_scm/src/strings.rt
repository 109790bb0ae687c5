// The texts of strings.
ghost use Rattle.std.specs.Prelude.{◌≡◌, ◌≢◌, ◌<◌, ◌≤◌, ◌⊎◌, ℕ, List, [], length, get_or, IfOk};
ghost use Rattle.std.specs.Bool.{OnTrue, OnFalse};
ghost use Rattle.tx_tree.specs.WideTree.{leaf};
ghost use Rattle.tx_scm.specs.Machine.{Open, put_tree, texting};
ghost use Rattle.tx_scm.specs.Plain.{IsPlain};
ghost use Rattle.tx_scm.specs.States.{Goes, GoesBehind};

use std::alloc::Global;
use tx_base::Memory;
use tx_scan::{Stops, first_stop};
use tx_tree::{Text, TextBuilder};

// Whether the byte is written as it is in a string.
fn is_plain(byte: u8) -> bool
    ensures { OnTrue result (IsPlain byte) }
{
    byte != b'"' && byte != b'\\'
}

// The end of the run of plain bytes that begins at `at`. The search stops also at bytes below 32, which are plain.
fn plain_end(bytes: &[u8], at: usize) -> usize
    requires at { at < length bytes.now }
    requires plain { IsPlain (get_or bytes.now at 0) }
    ensures later { at < result }
    ensures there { result ≤ length bytes.now }
    ensures plain { (k : ℕ) → at ≤ k → k < result → IsPlain (get_or bytes.now k 0) }
{
    let Some(stops) = Stops::new(b"\"\\") else {
        unreachable!()
    };
    let mut end = at + 1;
    while end < bytes.len() && is_plain(bytes[end]) {
        if bytes[end] < b' ' {
            end += 1;
        } else {
            end = first_stop(bytes, end + 1, &stops);
        }
    }
    end
}

// Adds the run of plain bytes that begins at `at`, and returns the place after them, or None where no text goes on so.
fn text_run(text: &mut TextBuilder, bytes: &[u8], at: usize) -> Result<Option<usize>, Memory>
    requires at { at < length bytes.now }
    requires plain { IsPlain (get_or bytes.now at 0) }
    ensures next { (opens : List Open) → IfOk result (λ found.
        Goes bytes.now (texting text.old opens) at found (texting text.new opens)) }
{
    let end = plain_end(bytes, at);
    let run = &bytes[at..end];
    let taken = text.extend(run)?;
    if taken < run.len() {
        return Ok(None);
    }
    Ok(Some(end))
}

// Whether a backslash may come before the byte.
fn is_escapable(byte: u8) -> bool
    ensures yes { OnTrue result ((byte ≡ 34) ⊎ (byte ≡ 92)) }
    ensures no { OnFalse result ((byte ≢ 34) × (byte ≢ 92)) }
{
    byte == b'"' || byte == b'\\'
}

// Adds the byte after the backslash at `at`, and returns the place after it, or None where no text goes on with it.
fn escaped_byte(text: &mut TextBuilder, bytes: &[u8], at: usize) -> Result<Option<usize>, Memory>
    requires at { at < length bytes.now }
    requires backslash { get_or bytes.now at 0 ≡ 92 }
    ensures next { (opens : List Open) → IfOk result (λ found.
        Goes bytes.now (texting text.old opens) at found (texting text.new opens)) }
{
    if at + 1 == bytes.len() {
        return Ok(None);
    }
    let byte = bytes[at + 1];
    if !is_escapable(byte) {
        return Ok(None);
    }
    if !text.push(byte)? {
        return Ok(None);
    }
    Ok(Some(at + 2))
}

// Adds what is at `at`, which is no quote, and returns the place after it, or None where no text goes on with it.
fn string_part(text: &mut TextBuilder, bytes: &[u8], at: usize) -> Result<Option<usize>, Memory>
    requires at { at < length bytes.now }
    requires no_quote { get_or bytes.now at 0 ≢ 34 }
    ensures next { (opens : List Open) → IfOk result (λ found.
        Goes bytes.now (texting text.old opens) at found (texting text.new opens)) }
{
    if bytes[at] == b'\\' {
        escaped_byte(text, bytes, at)
    } else {
        text_run(text, bytes, at)
    }
}

// The text of the string whose bytes begin at `at`, and the place after its last quote, or None where there is none.
pub(crate) fn string_text(
    alloc: Global,
    bytes: &[u8],
    at: usize,
) -> Result<Option<(Text, usize)>, Memory>
    requires { at ≤ length bytes.now }
    ensures { (opens : List Open) → IfOk result
        (GoesBehind bytes.now (texting [] opens) at (λ text. put_tree (leaf text) opens)) }
{
    let mut text = TextBuilder::new(alloc);
    let mut end = at;
    while end < bytes.len() {
        if bytes[end] == b'"' {
            return match text.finish(alloc)? {
                None => Ok(None),
                Some(text) => Ok(Some((text, end + 1))),
            };
        }
        match string_part(&mut text, bytes, end)? {
            None => return Ok(None),
            Some(next) => end = next,
        }
    }
    Ok(None)
}
