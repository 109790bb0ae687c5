// Lines, byte by byte.
use crate::{at_line, go_line, save_line, text_line, typed_line};
use std::alloc::Global;
use tx_base::Memory;
use tx_tree::{Path, Place};

// Code points, and the line that types them, which is empty where there is none.
const TYPED: &[(&[u32], &[u8])] = &[
    (&[0x61], b"type \"a\""),
    (&[0x20], b"type \" \""),
    (&[0x22], b"type \"\\\"\""),
    (&[0x5c], b"type \"\\\\\""),
    (&[0x3c], b"type \"<less>\""),
    (&[0x3e], b"type \"<gtr>\""),
    (&[0xa0], b"type \"<nbsp>\""),
    (&[0xe9], b"type \"\xe9\""),
    (&[0x201c], b"type \"\x10\""),
    (&[0x3b1], b"type \"<#3B1>\""),
    (&[0x10_ffff], b"type \"<#10FFFF>\""),
    (&[0x0a], b""),
    (&[0x7f], b""),
    (&[0xd800], b""),
    (&[], b""),
    (&[0x0a, 0xdfff], b""),
    (&[0x09, 0x5c], b"type \"\\\\\""),
    (
        &[0x61, 0x0d, 0x0a, 0x22, 0xe9, 0x1_f600],
        b"type \"a\\\"\xe9<#1F600>\"",
    ),
];

// A path, an offset, and the line of the place.
const PLACES: &[(&[u8], u32, &[u8])] = &[
    (b"/0/1", 3, b"go /0/1/3"),
    (b"/", 1, b"go /1"),
    (b"/4294967295", 4_294_967_295, b"go /4294967295/4294967295"),
];

// A name, and its lines with `at` and `save`.
const NAMES: &[(&[u8], &[u8], &[u8])] = &[
    (b"d", b"at d", b"save d"),
    (b"../a/~x.tm!", b"at ../a/~x.tm!", b"save ../a/~x.tm!"),
    (b"", b"", b""),
    (b"a b", b"", b""),
    (b"a\n", b"", b""),
];

// Whether the line is this one, or there is none where this is empty.
fn is_told(line: Result<Option<Vec<u8>>, Memory>, told: &[u8]) -> bool {
    match line {
        Ok(Some(line)) => line.as_slice() == told,
        Ok(None) => told.is_empty(),
        Err(_) => false,
    }
}

// The number of the first row that is wrong.
fn first_wrong_text(alloc: Global) -> Option<usize> {
    for (number, row) in TYPED.iter().enumerate() {
        if !is_told(text_line(alloc, row.0), row.1) {
            return Some(number);
        }
        if row.0.len() == 1 && !is_told(typed_line(alloc, row.0[0]), row.1) {
            return Some(number);
        }
    }
    None
}

fn first_wrong_place(alloc: Global) -> Option<usize> {
    for (number, row) in PLACES.iter().enumerate() {
        let Ok(path) = Path::parse(alloc, row.0) else {
            return Some(number);
        };
        let at = Place {
            path,
            offset: row.1,
        };
        if !is_told(go_line(alloc, &at), row.2) {
            return Some(number);
        }
    }
    None
}

fn first_wrong_name(alloc: Global) -> Option<usize> {
    for (number, row) in NAMES.iter().enumerate() {
        if !is_told(at_line(alloc, row.0), row.1) || !is_told(save_line(alloc, row.0), row.2) {
            return Some(number);
        }
    }
    None
}

// The bytes of the line that types so many letters, or None where there is no line.
fn letters_line(alloc: Global, count: usize) -> Option<usize> {
    let letters = vec![in alloc; 0x61; count].ok()?;
    Some(text_line(alloc, &letters).ok()??.len())
}

#[test]
fn lines(rt: HostRuntime) {
    assert_eq!(rt; first_wrong_text(rt.alloc()), None);
    assert_eq!(rt; first_wrong_place(rt.alloc()), None);
    assert_eq!(rt; first_wrong_name(rt.alloc()), None);
    assert_eq!(rt; letters_line(rt.alloc(), 1_048_569), Some(1_048_576));
    assert_eq!(rt; letters_line(rt.alloc(), 1_048_570), None);
}
