// All strings of up to five of six bytes, read in Scheme syntax and compared with the plain recogniser.

use crate::readers::{read, refusal};
use std::alloc::{AllocError, Global};
use std::test::Fail;
use tx_base::Memory;
use tx_doc::Form;
use tx_tree::{ReadFault, Tree};

// The string of so many of six bytes that has this number.
fn numbered(alloc: Global, length: usize, number: u32) -> Result<Vec<u8>, AllocError> {
    let mut bytes = Vec::new(alloc);
    let mut rest = number;
    for _ in 0..length {
        bytes.push(b"()\"\\ a"[(rest % 6) as usize])?;
        rest /= 6;
    }
    Ok(bytes)
}

fn short_strings(alloc: Global) -> Result<Vec<Vec<u8>>, AllocError> {
    let mut strings = Vec::new(alloc);
    for (length, count) in [1u32, 6, 36, 216, 1_296, 7_776].into_iter().enumerate() {
        for number in 0..count {
            strings.push(numbered(alloc, length, number)?)?;
        }
    }
    Ok(strings)
}

// The tree that is read from each of the strings.
fn read_each(alloc: Global, strings: &[Vec<u8>]) -> Result<Vec<Option<Tree>>, Memory> {
    let mut trees = Vec::new(alloc);
    for string in strings {
        match read(alloc, Form::Scheme, string) {
            Ok(tree) => trees.push(Some(tree))?,
            Err(ReadFault::Memory) => return Err(Memory),
            Err(_) => trees.push(None)?,
        }
    }
    Ok(trees)
}

// The canonical text of a tree, or nothing where there is none.
fn text_of(alloc: Global, found: &Option<Tree>) -> Result<Vec<u8>, Memory> {
    let mut text = Vec::new(alloc);
    if let Some(tree) = found {
        tx_scm::write(tree, &mut text)?;
    }
    Ok(text)
}

// Whether the strings that spell the tree are those that are read as a tree of its text.
fn agrees(
    alloc: Global,
    strings: &[Vec<u8>],
    found: &[Option<Tree>],
    tree: &Tree,
) -> Result<bool, Memory> {
    let mut text = Vec::new(alloc);
    tx_scm::write(tree, &mut text)?;
    for (string, other) in strings.iter().zip(found) {
        let same = text_of(alloc, other)?.as_slice() == text.as_slice();
        if tx_scm::spells(alloc, string, tree)? != same {
            return Ok(false);
        }
    }
    Ok(true)
}

// How many of the strings spell a tree, where all agree on each of these.
fn agreeing(alloc: Global, strings: &[Vec<u8>]) -> Result<Option<u32>, Memory> {
    let found = read_each(alloc, strings)?;
    let mut count = 0u32;
    for tree in found.iter().flatten() {
        if !agrees(alloc, strings, &found, tree)? {
            return Ok(None);
        }
        count = count.saturating_add(1);
    }
    Ok(Some(count))
}

#[test]
fn short_strings_are_read_as_they_are_spelled(rt: HostRuntime) -> Result<(), Fail> {
    let strings = short_strings(rt.alloc())?;
    assert_eq!(rt; agreeing(rt.alloc(), &strings)?, Some(190));
    Ok(())
}

// The place of a fault, where it has one.
fn place_of(fault: ReadFault) -> Option<usize> {
    match fault {
        ReadFault::Stray(n) | ReadFault::BadEscape(n) | ReadFault::BadLabel(n) => Some(n),
        ReadFault::BadText(n) | ReadFault::After(n) => Some(n),
        _ => None,
    }
}

// Whether the bytes spell a tree, as the plain recogniser says of the tree that is read.
fn is_spelled(alloc: Global, bytes: &[u8]) -> Result<bool, Memory> {
    match read(alloc, Form::Scheme, bytes) {
        Ok(tree) => tx_scm::spells(alloc, bytes, &tree),
        Err(ReadFault::Memory) => Err(Memory),
        Err(_) => Ok(false),
    }
}

// The bytes with one of four ends, and up to five closing brackets.
fn ended(alloc: Global, bytes: &[u8], number: u32) -> Result<Vec<u8>, AllocError> {
    let ends: [&[u8]; 4] = [b"", b"\"\"", b"\"", b"a)"];
    let mut whole = Vec::from_slice(alloc, bytes)?;
    whole.extend_from_slice(ends[(number % 4) as usize])?;
    for _ in 0..number / 4 {
        whole.push(b')')?;
    }
    Ok(whole)
}

// Whether the bytes, of which few are brackets, are the beginning of a tree: with one of these ends they are one.
fn is_front(alloc: Global, bytes: &[u8]) -> Result<bool, Memory> {
    for number in 0..24u32 {
        let whole = ended(alloc, bytes, number)?;
        if is_spelled(alloc, &whole)? {
            return Ok(true);
        }
    }
    Ok(false)
}

// Whether the fault has the place where the longest beginning of a tree ends.
fn has_place(alloc: Global, bytes: &[u8], fault: ReadFault) -> Result<bool, Memory> {
    match place_of(fault) {
        None => Ok(fault == ReadFault::Unclosed(bytes.len()) && is_front(alloc, bytes)?),
        Some(n) => {
            if n >= bytes.len() {
                return Ok(false);
            }
            Ok(is_front(alloc, &bytes[..n])? && !is_front(alloc, &bytes[..n + 1])?)
        }
    }
}

fn first_displaced(alloc: Global, strings: &[Vec<u8>]) -> Result<Option<usize>, Memory> {
    for (i, string) in strings.iter().enumerate() {
        if let Some(fault) = refusal(alloc, Form::Scheme, string) {
            if !has_place(alloc, string, fault)? {
                return Ok(Some(i));
            }
        }
    }
    Ok(None)
}

#[test]
fn places_in_short_strings(rt: HostRuntime) -> Result<(), Fail> {
    let strings = short_strings(rt.alloc())?;
    assert_eq!(rt; first_displaced(rt.alloc(), &strings)?, None);
    Ok(())
}

// How many of the faults are of each kind: unclosed, stray, no escape, no label, no text, more after a tree.
fn numbers(alloc: Global, strings: &[Vec<u8>]) -> [u32; 6] {
    let mut counts = [0u32; 6];
    for string in strings {
        let kind = match refusal(alloc, Form::Scheme, string) {
            Some(ReadFault::Unclosed(_)) => 0,
            Some(ReadFault::Stray(_)) => 1,
            Some(ReadFault::BadEscape(_)) => 2,
            Some(ReadFault::BadLabel(_)) => 3,
            Some(ReadFault::BadText(_)) => 4,
            Some(ReadFault::After(_)) => 5,
            _ => continue,
        };
        let count: u32 = counts[kind];
        counts[kind] = count.saturating_add(1);
    }
    counts
}

#[test]
fn kinds_in_short_strings(rt: HostRuntime) -> Result<(), Fail> {
    let strings = short_strings(rt.alloc())?;
    assert_eq!(rt;
        numbers(rt.alloc(), &strings),
        [885, 5_619, 408, 1_599, 0, 630]
    );
    Ok(())
}
