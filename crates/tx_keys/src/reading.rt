// The keys of a read.
ghost use Rattle.std.specs.Prelude.{◌≡◌, ◌≢◌, ℕ, List, [], ◌∷◌, ◌++◌, take, length, map, encode_utf8_all};
ghost use Rattle.std.specs.Prelude.{IfOk, OnOk, OnErr};
ghost use Rattle.std.specs.List.{AllByRecursion};
ghost use Rattle.tx_keys.specs.Encodings.{IsKeyRow, IsPlace, IsTypable, click_bytes, in_turn, key_rows, report_bytes};
ghost use Rattle.tx_keys.specs.Keys.{byte_keys, bytes_keys, listed, read_keys, whole_key};

use crate::sequences::{Begun, Key, first_byte, later_byte};
use tx_base::Memory;

// The one key of all these bytes, which follow an escape.
fn whole_key(bytes: &[u8]) -> Option<Key>
    ensures { result ≡ whole_key bytes.now }
{
    let mut last = (Begun::Escape, None);
    for byte in bytes {
        last = later_byte(last.0, *byte)?;
    }
    last.1
}

// Adds a key, if there is one.
fn push_some(keys: &mut Vec<Key>, key: Option<Key>) -> Result<(), Memory>
    ensures added { OnOk result (keys.new.items ≡ keys.old.items ++ listed key) }
    ensures grows { take (length keys.old.items) keys.new.items ≡ keys.old.items }
{
    if let Some(key) = key {
        keys.push(key)?;
    }
    Ok(())
}

// Adds the keys that a byte ends, at most two.
fn add_byte(begun: Begun, byte: u8, keys: &mut Vec<Key>) -> Result<Begun, Memory>
    ensures begun { IfOk result (λ next. next ≡ (byte_keys begun byte).0) }
    ensures added { IfOk result (λ next. keys.new.items ≡ keys.old.items ++ (byte_keys begun byte).1) }
    ensures grows { take (length keys.old.items) keys.new.items ≡ keys.old.items }
{
    if let Some((next, key)) = later_byte(begun, byte) {
        push_some(keys, key)?;
        return Ok(next);
    }
    if begun == Begun::Escape {
        keys.push(Key::Escape)?;
    }
    let (next, key) = first_byte(byte);
    push_some(keys, key)?;
    Ok(next)
}

// Adds the keys of bytes.
fn add_bytes(begun: Begun, bytes: &[u8], keys: &mut Vec<Key>) -> Result<Begun, Memory>
    ensures begun { IfOk result (λ next. next ≡ (bytes_keys begun bytes.now).0) }
    ensures added { IfOk result (λ next. keys.new.items ≡ keys.old.items ++ (bytes_keys begun bytes.now).1) }
    ensures grows { take (length keys.old.items) keys.new.items ≡ keys.old.items }
{
    let mut now = begun;
    for byte in bytes {
        now = add_byte(now, *byte, keys)?;
    }
    Ok(now)
}

// Adds the keys of a read.
fn add_read(begun: Begun, read: &[u8], keys: &mut Vec<Key>) -> Result<Begun, Memory>
    ensures begun { IfOk result (λ next. next ≡ (read_keys begun read.now).0) }
    ensures added { IfOk result (λ next. keys.new.items ≡ keys.old.items ++ (read_keys begun read.now).1) }
    ensures grows { take (length keys.old.items) keys.new.items ≡ keys.old.items }
{
    if begun == Begun::LoneEscape {
        if let Some(key) = whole_key(read) {
            keys.push(key)?;
            return Ok(Begun::Nothing);
        }
    }
    let now = add_bytes(begun, read, keys)?;
    if now == Begun::Escape {
        keys.push(Key::Escape)?;
        return Ok(Begun::LoneEscape);
    }
    Ok(now)
}

/// Adds the keys of what the terminal sent in one read, and returns what the read leaves begun. The end of a read
/// decides what an escape is: it is a key where the read ends after it. A sequence or a character may go on in the
/// next read. After an `Err` no key is added.
pub fn read_keys(begun: Begun, read: &[u8], keys: &mut Vec<Key>) -> Result<Begun, Memory>
    ensures begun { IfOk result (λ next. next ≡ (read_keys begun read.now).0) }
    ensures added { IfOk result (λ next. keys.new.items ≡ keys.old.items ++ (read_keys begun read.now).1) }
    ensures refused { OnErr result (keys.new.items ≡ keys.old.items) }
{
    let count = keys.len();
    match add_read(begun, read, keys) {
        Ok(next) => Ok(next),
        Err(fault) => {
            keys.truncate(count);
            Err(fault)
        }
    }
}

/// What the definition of keys means. What xterm and a vt220 send is their keys; a text in UTF-8 is its characters; the
/// replies of the terminal are theirs; and where a read ends matters only after an escape.
pub fn key_laws()
    ensures rows { AllByRecursion IsKeyRow key_rows }
    ensures texts { (cs : List ℕ) → AllByRecursion IsTypable cs
        → read_keys Begun.Nothing (encode_utf8_all cs) ≡ (Begun.Nothing, map Key.Char cs) }
    ensures reports { (r c : ℕ) → IsPlace r → IsPlace c
        → read_keys Begun.Nothing (report_bytes r c) ≡ (Begun.Nothing, Key.Report r c ∷ []) }
    ensures clicks { (c r : ℕ) → IsPlace c → IsPlace r
        → read_keys Begun.Nothing (click_bytes c r) ≡ (Begun.Nothing, Key.Click c r ∷ []) }
    ensures cuts { (begun : Begun) (xs ys : List ℕ) → begun ≢ Begun.LoneEscape
        → (read_keys begun xs).0 ≢ Begun.LoneEscape → read_keys begun (xs ++ ys) ≡ in_turn begun xs ys }
{}
