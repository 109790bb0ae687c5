// The report: what the program prints about rows.
use crate::escapes::push_visible;
use std::alloc::Global;

// The most bytes of a line that are printed.
const MOST_SHOWN: usize = 400;

pub fn push_text(text: &str, out: &mut Vec<u8>) -> Option<()> {
    out.extend_from_slice(text.as_bytes()).ok()
}

pub fn push_number(alloc: Global, number: usize, out: &mut Vec<u8>) -> Option<()> {
    let text = format!(in alloc; "{number}").ok()?;
    out.extend_from_slice(text.as_bytes()).ok()
}

// The number of the first line, from 0, in which the bytes differ. The first bytes have no newline at their end.
pub fn line_of_difference(wanted: &[u8], given: &[u8]) -> usize {
    let mut line = 0usize;
    for (i, byte) in wanted.iter().enumerate() {
        if given.get(i) != Some(byte) {
            return line;
        }
        if *byte == b'\n' {
            line = line.saturating_add(1);
        }
    }
    match given.get(wanted.len()) {
        Some(b'\n') => line.saturating_add(1),
        _ => line,
    }
}

// Appends the line of this number, from 0, in brackets. A long line is cut.
pub fn push_line(bytes: &[u8], number: usize, out: &mut Vec<u8>) -> Option<()> {
    let mut line = 0usize;
    let mut shown = 0usize;
    out.push(b'[').ok()?;
    for byte in bytes {
        if *byte == b'\n' {
            line = line.saturating_add(1);
        } else if line == number {
            if shown == MOST_SHOWN {
                return push_text("..]", out);
            }
            shown = shown.saturating_add(1);
            push_visible(*byte, out)?;
        }
    }
    out.push(b']').ok()
}
