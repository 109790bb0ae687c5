// Why nothing was opened, in words for people.
use crate::spots::{place_of, spot_of};
use std::alloc::Global;
use std::str;
use std::sync::ledger::Ledger;
use tx_base::{Memory, Steps};
use tx_open::{Opening, open};
use tx_outside::{MOST_FILE, Store};
use tx_tree::ReadFault;
use tx_words::faulty_because;

// The word of a file, which is text.
fn text_of(word: &[u8]) -> &str {
    str::from_utf8(word).unwrap_or("the file")
}

// Why the file's bytes spell no tree, with line and column where the fault is at a place.
fn misspelled<S: Store>(
    alloc: Global,
    word: &[u8],
    fault: ReadFault,
    store: &mut S,
) -> Result<String, Memory> {
    let file = text_of(word);
    let mut bytes = Vec::new(alloc);
    let Some(at) = place_of(fault) else {
        return Ok(format!(in alloc; "{file}: {fault}")?);
    };
    if store.load(word, &mut bytes).is_err() {
        return Ok(format!(in alloc; "{file}: {fault}")?);
    }
    let spot = spot_of(&bytes, at);
    let line = spot.line;
    let column = spot.column;
    Ok(format!(in alloc; "{file}: line {line}, column {column}: {fault}")?)
}

/// Why the words of a command line are refused, as a text for people without a line's end, or None where they aren't.
/// For words that ask for help the text is the commands of a script.
pub fn refused_because(alloc: Global, words: &[String]) -> Result<Option<String>, Memory> {
    faulty_because(alloc, words)
}

/// Why the files that the words name can't be opened now, as a text for people without a line's end, or None where they
/// can. The files are loaded once more.
pub fn unopened_because<S: Store, L: Ledger>(
    alloc: Global,
    words: &[String],
    store: &mut S,
    steps: &mut Steps<L>,
) -> Result<Option<String>, Memory> {
    let reason = match open(alloc, words, store, steps) {
        Opening::Missing(word) => {
            let file = text_of(word);
            format!(in alloc; "there is no file {file}")?
        }
        Opening::TooLong(word) => {
            let file = text_of(word);
            format!(in alloc; "{file} has more than {MOST_FILE} bytes")?
        }
        Opening::NoTree(word, fault) => misspelled(alloc, word, fault, store)?,
        Opening::StoreFault(word) => {
            let file = text_of(word);
            format!(in alloc; "{file} can't be read")?
        }
        _ => return Ok(None),
    };
    Ok(Some(reason))
}
