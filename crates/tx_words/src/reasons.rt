// Why words are faulty, in words for people.
ghost use Rattle.std.specs.Prelude.{◌≡◌, map, None, IfOk};
ghost use Rattle.std.specs.String.{string_bytes};
ghost use Rattle.tx_words.specs.Words.{AreFaulty};

use crate::MOST_FILES;
use crate::asked::FileWord;
use crate::faults::WordsFault;
use crate::generators::{behind_gen, numbers};
use crate::parsing::tried;
use crate::reading::{files_of, has_styles, is_free, read_words};
use crate::sizes::size;
use clap::ArgMatches;
use clap::error::{Error, ErrorKind};
use std::alloc::Global;
use std::str;
use tx_base::Memory;

// The text for a request for help.
const HELP: &str = "tmx [--width N] [--height N] FILE [STYLE]... reads commands, a line each:
assign PATH TREE, insert PATH N TREE, remove PATH I N, split PATH I J, join PATH I,
assign-node PATH LABEL, insert-node PATH I TREE, remove-node PATH I,
undo, redo, undo-at N, at NAME,
go PATH, click R C, left, right, type TREE, backspace, enter,
show, page N, errors, where R C, cursor, attrs R, tree, save NAME, work, quit";

const NO_FILE: &str = "no file is named";

// The first line of a text, without the word before what it says.
fn first_line(text: &str) -> &str {
    let line = match text.split_once('\n') {
        Some((first, _)) => first,
        None => text,
    };
    line.strip_prefix("error: ").unwrap_or(line)
}

// What `clap` says against the words.
fn said_by_clap(alloc: Global, error: &Error) -> Result<String, Memory> {
    let text = format!(in alloc; "{error}")?;
    Ok(String::from_str(alloc, first_line(&text))?)
}

// Why `clap` doesn't take the words.
fn not_taken(alloc: Global, error: &Error) -> Result<String, Memory> {
    match error.kind() {
        ErrorKind::OutOfMemory => Err(Memory),
        ErrorKind::DisplayHelp => Ok(String::from_str(alloc, HELP)?),
        ErrorKind::MissingRequiredArgument => Ok(String::from_str(alloc, NO_FILE)?),
        _ => said_by_clap(alloc, error),
    }
}

// Why these files can't be opened together.
fn unfit_files(alloc: Global, files: &[FileWord]) -> Result<Option<String>, Memory> {
    if files.len() > MOST_FILES {
        return Ok(Some(format!(in alloc; "at most {MOST_FILES} files are named")?));
    }
    for (i, file) in files.iter().enumerate() {
        if file.name.is_empty() {
            let word = file.word;
            return Ok(Some(format!(in alloc; "the name of \"{word}\" is empty")?));
        }
        if !is_free(file.name, &files[i + 1..]) {
            let name = str::from_utf8(file.name).unwrap_or(file.word);
            return Ok(Some(format!(in alloc; "two files are called {name}")?));
        }
    }
    Ok(None)
}

// Why no document is generated from this word.
fn unfit_document(
    alloc: Global,
    rest: &str,
    matches: &ArgMatches,
) -> Result<Option<String>, Memory> {
    let reason = if has_styles(matches) {
        "no style stands with a generated document"
    } else if numbers(rest).is_none() {
        "a generated document is gen:NUMBER:COUNT, with NUMBER below 2147483648 and COUNT from 1 to 60000"
    } else {
        return Ok(None);
    };
    Ok(Some(String::from_str(alloc, reason)?))
}

// Why the sizes that the words give aren't taken.
fn unfit_size(matches: &ArgMatches) -> Option<&'static str> {
    if size(matches.get_str("width"), 80, 20, 500).is_none() {
        return Some("a width is 20 to 500");
    }
    if size(matches.get_str("height"), 24, 5, 500).is_none() {
        return Some("a height is 5 to 500");
    }
    None
}

// Why what `clap` found in the words asks for nothing.
fn unfit<'a>(alloc: Global, matches: &ArgMatches<'a>) -> Result<Option<String>, Memory> {
    if let Some(reason) = unfit_size(matches) {
        return Ok(Some(String::from_str(alloc, reason)?));
    }
    let Some(document) = matches.get_str("FILE") else {
        return Ok(Some(String::from_str(alloc, NO_FILE)?));
    };
    if let Some(rest) = behind_gen(document) {
        return unfit_document(alloc, rest, matches);
    }
    let files = files_of(alloc, document, matches)?;
    unfit_files(alloc, &files)
}

// Why the words ask for nothing.
fn explained(alloc: Global, words: &[String]) -> Result<String, Memory> {
    match tried(alloc, words)? {
        Ok(matches) => Ok(unfit(alloc, &matches)?.unwrap_or(String::new(alloc))),
        Err(error) => not_taken(alloc, &error),
    }
}

/// Why the words ask for nothing, as a text for people without a line's end, or None where they ask for something. What
/// `clap` refuses is said in its words. For words that ask for help the text is the commands of a script.
pub fn faulty_because(alloc: Global, words: &[String]) -> Result<Option<String>, Memory>
    ensures none { IfOk result (λ reason. reason ≡ None → AreFaulty (map string_bytes words.now) → ⊥) }
{
    match read_words(alloc, words) {
        Ok(_) => return Ok(None),
        Err(WordsFault::Memory) => return Err(Memory),
        Err(WordsFault::Faulty) => {}
    }
    Ok(Some(explained(alloc, words)?))
}
