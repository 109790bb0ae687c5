// Byte search, at lengths at which a block begins or ends, and with sets of each size.
ghost use Rattle.std.specs.Prelude.{◌<◌, ◌≤◌};

use tx_scan::{Stops, count_of, first_stop};

const LENGTHS: &[usize] = &[0, 1, 31, 32, 33, 64, 65];

// The stop at its place, and the letter a at each other.
fn text_with(stop: u8, place: usize) -> [u8; 66]
    requires { place < 66 }
{
    let mut text = [b'a'; 66];
    text[place] = stop;
    text
}

// Whether from each start `place` holds the first stop of the text, or is its length.
fn is_found(text: &[u8], stops: &Stops, place: usize) -> bool {
    for from in 0..=text.len() {
        let want = if from <= place { place } else { text.len() };
        if first_stop(text, from, stops) != want {
            return false;
        }
    }
    true
}

// Whether the stop is found at each place in turn of a text of this length, and last at the place just past the end.
fn is_found_at_each(length: usize, stop: u8, stops: &Stops) -> bool
    requires { length ≤ 65 }
{
    for place in 0..=length {
        let text = text_with(stop, place);
        if !is_found(&text[..length], stops, place) {
            return false;
        }
    }
    true
}

fn first_lost(lengths: &[usize], stop: u8) -> Option<usize> {
    let stops = Stops::new(b"<|>")?;
    for length in lengths {
        if !is_found_at_each((*length).min(65), stop, &stops) {
            return Some(*length);
        }
    }
    None
}

#[test]
fn each_place_is_found_from_each_start(rt: HostRuntime) {
    let lost = (
        first_lost(LENGTHS, b'>'),
        first_lost(LENGTHS, 31),
        first_lost(LENGTHS, 0),
    );
    assert_eq!(rt; lost, (None, None, None));
}

// A set, a byte, and whether the byte is a stop then.
const SETS: &[(&str, u8, bool)] = &[
    ("", 0, true),
    ("", 31, true),
    ("", 32, false),
    ("", 255, false),
    ("a", b'a', true),
    ("a", b'b', false),
    ("aaaaaaaa", b'a', true),
    ("12345678", b'1', true),
    ("12345678", b'8', true),
    ("12345678", b'9', false),
    ("12345678", 32, false),
];

// Whether the same byte 33 times, a block and a rest of one, is stopped at as is wanted.
fn is_stopped_at(set: &[u8], byte: u8, want: bool) -> bool {
    let Some(stops) = Stops::new(set) else {
        return false;
    };
    let text = [byte; 33];
    let (first, last) = if want { (0, 32) } else { (33, 33) };
    first_stop(&text, 0, &stops) == first && first_stop(&text, 32, &stops) == last
}

fn first_mistaken(rows: &[(&str, u8, bool)]) -> Option<usize> {
    for (i, row) in rows.iter().enumerate() {
        if !is_stopped_at(row.0.as_bytes(), row.1, row.2) {
            return Some(i);
        }
    }
    None
}

#[test]
fn each_byte_of_a_set_is_a_stop(rt: HostRuntime) {
    assert_eq!(rt; first_mistaken(SETS), None);
}

#[test]
fn nine_bytes_are_no_set(rt: HostRuntime) {
    let some = (
        Stops::new(b"12345678").is_some(),
        Stops::new(b"123456789").is_some(),
        Stops::new(b"aaaaaaaaa").is_some(),
    );
    assert_eq!(rt; some, (true, false, false));
}

// Whether both bytes of a text are counted, of which one fills it up to each place in turn.
fn is_counted(length: usize) -> bool
    requires { length ≤ 65 }
{
    let mut text = [b'a'; 65];
    for place in 0..length {
        let front = &text[..length];
        if count_of(front, b'b') != place || count_of(front, b'a') != length - place {
            return false;
        }
        text[place] = b'b';
    }
    count_of(&text[..length], b'b') == length && count_of(&text[..length], b'c') == 0
}

fn first_miscounted(lengths: &[usize]) -> Option<usize> {
    for length in lengths {
        if !is_counted((*length).min(65)) {
            return Some(*length);
        }
    }
    None
}

#[test]
fn each_front_is_counted(rt: HostRuntime) {
    assert_eq!(rt; first_miscounted(LENGTHS), None);
}
