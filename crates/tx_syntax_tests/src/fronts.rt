// The places of faults, against a slow search for bytes that continue a beginning.
ghost use Rattle.std.specs.Prelude.{◌≡◌};

use std::alloc::Global;
use std::marker::Brand;
use std::sync::ledger::{Blank, Ledger};
use std::test::Fail;
use tx_base::Steps;
use tx_doc::Form;
use tx_tree::ReadFault;

// Why the bytes spell no tree, or None where they spell one. One past the limits is a tree too.
fn misspelled<L: Ledger>(
    alloc: Global,
    form: Form,
    bytes: &[u8],
    steps: &mut Steps<L>,
) -> Option<ReadFault> {
    let read = match form {
        Form::Tm => tx_tm_read::read(alloc, bytes, steps),
        Form::Scheme => tx_scm::read(alloc, bytes, steps),
    };
    match read {
        Ok(_) => None,
        Err(ReadFault::Limit(_, _)) => None,
        Err(fault) => Some(fault),
    }
}

// How many strings of up to so many of k letters there are.
fn count_of_strings(k: usize, most: u32) -> usize {
    let mut count = 1usize;
    for _ in 0..most {
        count = count.saturating_mul(k).saturating_add(1);
    }
    count
}

// Appends a string of these letters: another one for each number.
fn append_string(letters: &[u8], number: usize, out: &mut Vec<u8>) -> Option<()> {
    let mut rest = number;
    for _ in 0..20 {
        if rest == 0 {
            break;
        }
        let last = (rest - 1) % letters.len().max(1);
        out.push(*letters.get(last)?).ok()?;
        rest = (rest - 1) / letters.len().max(1);
    }
    Some(())
}

// Beginnings of up to so many of some letters. What is tried after them is up to so many of other letters, and then
// nothing, or the end of a long tag whose label is once or twice one letter.
#[derive(Clone, Copy)]
struct Search<'a> {
    form: Form,
    letters: &'a [u8],
    most: u32,
    closing: &'a [u8],
    most_closing: u32,
    label: u8,
}

// Appends nothing, or the end of a long tag.
fn append_end(label: u8, labels: usize, out: &mut Vec<u8>) -> Option<()> {
    if labels == 0 {
        return Some(());
    }
    out.extend_from_slice(b"></").ok()?;
    for _ in 0..labels {
        out.push(label).ok()?;
    }
    out.push(b'>').ok()
}

// Whether bytes that spell a tree begin so.
fn is_front<L: Ledger>(
    alloc: Global,
    search: &Search,
    start: &[u8],
    steps: &mut Steps<L>,
) -> Option<bool> {
    let mut bytes = Vec::from_slice(alloc, start).ok()?;
    for number in 0..count_of_strings(search.closing.len(), search.most_closing) {
        for labels in 0..3 {
            bytes.truncate(start.len());
            append_string(search.closing, number, &mut bytes)?;
            append_end(search.label, labels, &mut bytes)?;
            if misspelled(alloc, search.form, &bytes, steps).is_none() {
                return Some(true);
            }
        }
    }
    Some(false)
}

// A string, and the length of its longest front.
#[derive(Drop)]
struct Beginning {
    bytes: Vec<u8>,
    front: usize,
}

// The string with one letter more. What can't be continued with fewer letters can't with more.
fn longer<L: Ledger>(
    alloc: Global,
    search: &Search,
    shorter: &Beginning,
    letter: u8,
    steps: &mut Steps<L>,
) -> Option<Beginning> {
    let mut bytes = Vec::from_slice(alloc, &shorter.bytes).ok()?;
    bytes.push(letter).ok()?;
    let mut front = shorter.front;
    if front == shorter.bytes.len() && is_front(alloc, search, &bytes, steps)? {
        front = bytes.len();
    }
    Some(Beginning { bytes, front })
}

// Whether this is the right result for a string of such length whose longest front has this length.
fn is_right(fault: Option<ReadFault>, len: usize, front: usize) -> bool {
    match fault {
        None => front == len,
        Some(ReadFault::Unclosed(place)) => place == len && front == len,
        Some(ReadFault::Stray(place))
        | Some(ReadFault::BadEscape(place))
        | Some(ReadFault::BadLabel(place))
        | Some(ReadFault::BadText(place))
        | Some(ReadFault::Mismatch(_, place))
        | Some(ReadFault::After(place)) => place == front && front < len,
        Some(_) => false,
    }
}

// How many strings are trees, can be continued, and can't; and the first one with another result.
#[derive(Drop)]
struct Tally {
    trees: u32,
    unclosed: u32,
    refused: u32,
    wrong: Option<Vec<u8>>,
}

impl Tally {
    fn count(&self) -> u32 {
        self.trees
            .saturating_add(self.unclosed)
            .saturating_add(self.refused)
    }

    fn add(&mut self, alloc: Global, string: &Beginning, fault: Option<ReadFault>) -> Option<()> {
        match fault {
            None => self.trees = self.trees.saturating_add(1),
            Some(ReadFault::Unclosed(_)) => self.unclosed = self.unclosed.saturating_add(1),
            Some(_) => self.refused = self.refused.saturating_add(1),
        }
        let right = is_right(fault, string.bytes.len(), string.front);
        if !right && self.wrong.is_none() {
            self.wrong = Some(Vec::from_slice(alloc, &string.bytes).ok()?);
        }
        Some(())
    }
}

// Judges the results for all strings of up to so many letters.
fn judged<L: Ledger>(alloc: Global, search: &Search, blank: Blank) -> Option<Tally>
    requires name { blank.name ≡ L.name }
    requires parts { blank.parts ≡ L.parts }
    requires whole { blank.parts ≡ 1 }
{
    let mut steps = Steps::<L>::new(blank);
    let mut tally = Tally {
        trees: 0,
        unclosed: 0,
        refused: 0,
        wrong: None,
    };
    let empty = Vec::new(alloc);
    let mut strings = vec![in alloc;
        Beginning {
            bytes: empty,
            front: 0
        },
    ]
    .ok()?;
    let k = search.letters.len().max(1);
    for number in 0..count_of_strings(search.letters.len(), search.most) {
        if number > 0 {
            let letter = *search.letters.get((number - 1) % k)?;
            let shorter = strings.get((number - 1) / k)?;
            let string = longer(alloc, search, shorter, letter, &mut steps)?;
            strings.push(string).ok()?;
        }
        let string = strings.get(number)?;
        let fault = misspelled(alloc, search.form, &string.bytes, &mut steps);
        tally.add(alloc, string, fault)?;
    }
    Some(tally)
}

#[test]
fn places_in_tags(rt: HostRuntime) -> Result<(), Fail> {
    let search = Search {
        form: Form::Tm,
        letters: b"<>\\a/|",
        most: 4,
        closing: b"</>\\a",
        most_closing: 4,
        label: b'a',
    };
    let got = judged::<Brand>(rt.alloc(), &search, Blank::new(1)).ok_or("no answers")?;
    assert_eq!(rt; got.count(), 1555);
    let wrong = got.wrong;
    assert!(rt; wrong.is_none(), "at {wrong:?}");
    Ok(())
}

#[test]
fn places_in_raw_data(rt: HostRuntime) -> Result<(), Fail> {
    let search = Search {
        form: Form::Tm,
        letters: b"<#\\;>1",
        most: 4,
        closing: b"</>\\1\n",
        most_closing: 3,
        label: b'1',
    };
    let got = judged::<Brand>(rt.alloc(), &search, Blank::new(1)).ok_or("no answers")?;
    assert_eq!(rt; got.count(), 1555);
    let wrong = got.wrong;
    assert!(rt; wrong.is_none(), "at {wrong:?}");
    Ok(())
}

#[test]
fn places_at_newlines(rt: HostRuntime) -> Result<(), Fail> {
    let search = Search {
        form: Form::Tm,
        letters: b"\\\n\r <a",
        most: 4,
        closing: b"</>\\a\n",
        most_closing: 4,
        label: b'a',
    };
    let got = judged::<Brand>(rt.alloc(), &search, Blank::new(1)).ok_or("no answers")?;
    assert_eq!(rt; got.count(), 1555);
    let wrong = got.wrong;
    assert!(rt; wrong.is_none(), "at {wrong:?}");
    Ok(())
}

#[test]
fn places_in_scheme(rt: HostRuntime) -> Result<(), Fail> {
    let search = Search {
        form: Form::Scheme,
        letters: b"()\"\\a <",
        most: 4,
        closing: b"a>\\\")",
        most_closing: 5,
        label: b'a',
    };
    let got = judged::<Brand>(rt.alloc(), &search, Blank::new(1)).ok_or("no answers")?;
    assert_eq!(rt; got.count(), 2801);
    let wrong = got.wrong;
    assert!(rt; wrong.is_none(), "at {wrong:?}");
    Ok(())
}
