// Keys of reads, and what is typed for characters.
use std::alloc::Global;
use tx_base::Memory;
use tx_keys::{Begun, Key, push_typed, read_keys};

// Reads with a byte 0 between each two, and their keys.
const READS: &[(&[u8], &[Key])] = &[
    (b"a~", &[Key::Char(97), Key::Char(126)]),
    (
        b"\x13\x0d\x7f\x08",
        &[Key::Control(19), Key::Enter, Key::Backspace, Key::Backspace],
    ),
    (b"\xc3\0\xa9\x1b", &[Key::Char(0xe9), Key::Escape]),
    (b"\x1b[\x005~\x1b[1;\x005H", &[Key::PageUp, Key::CtrlHome]),
    (b"\x1b\0[A", &[Key::Escape, Key::Up]),
    (b"\x1b\0[\0A", &[Key::Escape, Key::Char(91), Key::Char(65)]),
    (
        b"\x1b\0[Ab",
        &[Key::Escape, Key::Char(91), Key::Char(65), Key::Char(98)],
    ),
    (
        b"\x1bx\x1b\x1bOH",
        &[Key::Escape, Key::Char(120), Key::Escape, Key::Home],
    ),
    (b"\x1b[<0;10;5M\x1b[<0;10;5m", &[Key::Click(10, 5)]),
    (b"\x1b[M\x20a\0bc", &[Key::Char(99)]),
    (b"\x1b[20;70R", &[Key::Report(20, 70)]),
    (
        b"\x1b[200~x\x1b[201~",
        &[Key::PasteBegins, Key::Char(120), Key::PasteEnds],
    ),
    (b"\x1b[?1;2c\x1b[1;2A", &[Key::Up]),
    (
        b"\xc3(\xff\xed\xa0\x80\xf4\x90\x80\x80\xc0\xaf.",
        &[Key::Char(40), Key::Char(46)],
    ),
];

// The keys of reads with a byte 0 between each two.
fn keys_of(alloc: Global, reads: &[u8]) -> Result<Vec<Key>, Memory> {
    let mut keys = Vec::new(alloc);
    let mut begun = Begun::Nothing;
    for read in reads.split(|byte| *byte == 0) {
        begun = read_keys(begun, read, &mut keys)?;
    }
    Ok(keys)
}

// The number of the first row that is wrong.
fn first_wrong_read(alloc: Global) -> Option<usize> {
    for (number, row) in READS.iter().enumerate() {
        let keys = keys_of(alloc, row.0);
        if !keys.is_ok_and(|keys| keys.as_slice() == row.1) {
            return Some(number);
        }
    }
    None
}

// Code points, and what is typed for them.
const TYPED: &[(u32, &[u8])] = &[
    (0x41, b"A"),
    (0x3c, b"<less>"),
    (0x3e, b"<gtr>"),
    (0x60, b"\x60"),
    (0xa0, b"<nbsp>"),
    (0xe9, b"\xe9"),
    (0x159, b"\xb0"),
    (0xd7, b"<#D7>"),
    (0xdf, b"\xff"),
    (0x4e2d, b"<#4E2D>"),
    (0x1f600, b"<#1F600>"),
    (0x10_ffff, b"<#10FFFF>"),
    (0x7f, b""),
    (0x85, b""),
    (0xd800, b""),
];

// The number of the first row that is wrong.
fn first_wrong_code(alloc: Global) -> Option<usize> {
    for (number, row) in TYPED.iter().enumerate() {
        let mut out = Vec::new(alloc);
        let shown = push_typed(row.0, &mut out);
        if !shown.is_ok_and(|shown| shown != row.1.is_empty()) || out.as_slice() != row.1 {
            return Some(number);
        }
    }
    None
}

#[test]
fn reads_are_keys(rt: HostRuntime) {
    assert_eq!(rt; first_wrong_read(rt.alloc()), None);
}

#[test]
fn characters_are_typed(rt: HostRuntime) {
    assert_eq!(rt; first_wrong_code(rt.alloc()), None);
}
