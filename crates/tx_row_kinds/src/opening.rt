// What the words of a command line ask for.
use std::alloc::Global;
use std::str;
use tx_row_files::{command_words, push_number, push_text};
use tx_words::{FileWord, Source, Words, WordsFault, read_words};

// Appends a number after a space.
fn push_next(alloc: Global, number: u32, out: &mut Vec<u8>) -> Option<()> {
    push_text(" ", out)?;
    push_number(alloc, number as usize, out)
}

// Appends the word of each file and its buffer's name.
fn push_files(files: &[FileWord], out: &mut Vec<u8>) -> Option<()> {
    for file in files {
        push_text(" ", out)?;
        push_text(file.word, out)?;
        push_text(":", out)?;
        out.extend_from_slice(file.name).ok()?;
    }
    Some(())
}

fn push_source(alloc: Global, source: &Source, out: &mut Vec<u8>) -> Option<()> {
    match source {
        Source::Files(files) => push_files(files.as_slice(), out),
        Source::Generated { number, count } => {
            push_text(" gen", out)?;
            push_next(alloc, *number, out)?;
            push_next(alloc, *count, out)
        }
    }
}

// Appends the size of the pages and what is to be opened.
fn push_words(alloc: Global, words: &Words, out: &mut Vec<u8>) -> Option<()> {
    push_number(alloc, words.width as usize, out)?;
    push_next(alloc, words.height, out)?;
    push_source(alloc, &words.source, out)?;
    push_text("\n", out)
}

// Appends what the words of the line ask for, or `none` where they are faulty.
pub(crate) fn answer_words(alloc: Global, line: &[u8], out: &mut Vec<u8>) -> Option<()> {
    let all = command_words(alloc, str::from_utf8(line).ok()?)?;
    match read_words(alloc, &all) {
        Ok(words) => push_words(alloc, &words, out),
        Err(WordsFault::Faulty) => push_text("none\n", out),
        Err(WordsFault::Memory) => None,
    }
}
