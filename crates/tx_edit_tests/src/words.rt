// Words of a command line that have spaces, and other names of the program.
use std::alloc::{AllocError, Global};
use std::str;
use tx_base::Memory;
use tx_words::{FileWords, Source, Words, WordsFault, faulty_because, read_words};

// Words, each after a bar, and what they ask for: the width, the height, and each file with its buffer's name.
const ROWS: &[(&str, &str)] = &[
    ("", "faulty"),
    ("||a.tm", "80 24 a.tm:a"),
    ("|--width|a.tm", "80 24 a.tm:a"),
    ("|tmx|--width= 40|a.tm", "faulty"),
    ("|tmx|--width=20 |a.tm", "faulty"),
    ("|tmx|a b.tm|a  b", "80 24 a b.tm:a b a  b:a  b"),
    ("|tmx|gen:1: 3", "faulty"),
];

// The words, each after a bar.
fn words_in(alloc: Global, line: &str) -> Result<Vec<String>, AllocError> {
    let mut words = Vec::new(alloc);
    for (i, word) in line.split('|').enumerate() {
        if i > 0 {
            words.push(String::from_str(alloc, word)?)?;
        }
    }
    Ok(words)
}

// Each file with its buffer's name.
fn add_files(alloc: Global, text: &mut String, files: &FileWords) -> Result<(), AllocError> {
    for file in files.as_slice() {
        let name = str::from_utf8(file.name).unwrap_or("?");
        let more = format!(in alloc; " {}:{}", file.word, name)?;
        text.push_str(&more)?;
    }
    Ok(())
}

// The width, the height, and what is to be opened.
fn shown(alloc: Global, asked: &Words) -> Result<String, AllocError> {
    let mut text = format!(in alloc; "{} {}", asked.width, asked.height)?;
    match &asked.source {
        Source::Files(files) => add_files(alloc, &mut text, files)?,
        Source::Generated { number, count } => {
            let more = format!(in alloc; " number {number} count {count}")?;
            text.push_str(&more)?;
        }
    }
    Ok(text)
}

// What the words of the line ask for, as text.
fn asked_by(alloc: Global, line: &str) -> Result<String, AllocError> {
    let words = words_in(alloc, line)?;
    match read_words(alloc, &words) {
        Ok(asked) => shown(alloc, &asked),
        Err(WordsFault::Faulty) => String::from_str(alloc, "faulty"),
        Err(WordsFault::Memory) => String::from_str(alloc, "memory"),
    }
}

// Whether the words of the line ask for this.
fn asks(alloc: Global, line: &str, wanted: &str) -> Result<bool, AllocError> {
    let asked = asked_by(alloc, line)?;
    Ok(asked.as_str() == wanted)
}

// The number of the first line that asks for something else.
fn first_wrong(alloc: Global, rows: &[(&str, &str)]) -> Option<usize> {
    rows.iter()
        .position(|row| asks(alloc, row.0, row.1) != Ok(true))
}

// Words, each after a bar, and why they are faulty, up to the end of a line, or `none`.
const REASONS: &[(&str, &str)] = &[
    ("|tmx|a.tm", "none"),
    ("|tmx|--height=5|a.tm|--width|20", "none"),
    ("|tmx", "no file is named"),
    ("|tmx|--width|19|a.tm", "a width is 20 to 500"),
    ("|tmx|--width|0x20|a.tm", "a width is 20 to 500"),
    ("|tmx|--height|501|a.tm", "a height is 5 to 500"),
    ("|tmx|--tall|a.tm", "unexpected argument '--tall' found"),
    (
        "|tmx|--height|5|--height|6|a.tm",
        "the argument '--height <height>' cannot be used multiple times",
    ),
    ("|tmx|a.tm|b/a.scm", "two files are called a"),
    ("|tmx|a.tm|b/", "the name of \"b/\" is empty"),
    (
        "|tmx|gen:1:0",
        "a generated document is gen:NUMBER:COUNT, with NUMBER below 2147483648 and COUNT from 1 to 60000",
    ),
    (
        "|tmx|gen:1:1|a.tm",
        "no style stands with a generated document",
    ),
    (
        "|tmx|--help",
        "tmx [--width N] [--height N] FILE [STYLE]... reads commands, a line each:",
    ),
];

// Whether the words of the line are faulty for this reason.
fn is_because(alloc: Global, line: &str, wanted: &str) -> Result<bool, Memory> {
    let words = words_in(alloc, line)?;
    Ok(match &faulty_because(alloc, &words)? {
        Some(reason) => reason.as_str().lines().next() == Some(wanted),
        None => wanted == "none",
    })
}

// The number of the first line with another reason.
fn first_wrong_reason(alloc: Global, rows: &[(&str, &str)]) -> Option<usize> {
    rows.iter()
        .position(|row| is_because(alloc, row.0, row.1) != Ok(true))
}

#[test]
fn words_of_command_lines(rt: HostRuntime) {
    assert_eq!(rt; first_wrong(rt.alloc(), ROWS), None);
    assert_eq!(rt; first_wrong_reason(rt.alloc(), REASONS), None);
}
