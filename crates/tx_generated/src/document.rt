// The text, paragraph by paragraph.
ghost use Rattle.std.specs.Prelude.{◌≡◌, ◌<◌, ◌≤◌, ◌^◌, ◌++◌, IfOk, OnOk, flat_map};
ghost use Rattle.tx_generated.specs.Document.{document_text, leading_word, more_words, next, generated_paragraph, word};

use std::alloc::Global;
use tx_base::Memory;

// The words, by their numbers.
const WORDS: [&str; 8] = [
    "tree", "path", "style", "macro", "value", "cell", "line", "page",
];

// No paragraph has more bytes, with the white before it.
const MOST_BYTES: usize = 53;

// The number after this one.
fn next(x: u32) -> u32
    ensures { result ≡ next x }
{
    ((u64::from(x) * 1_103_515_245 + 12_345) % 2_147_483_648) as u32
}

// The word of this number, where the words go round.
fn word(n: u32) -> &'static str
    ensures { result.now ≡ word n }
{
    WORDS[n as usize % 8]
}

// Appends the pieces.
fn append(pieces: &[&str], out: &mut Vec<u8>) -> Result<(), Memory>
    ensures { OnOk result (out.new.items ≡ out.old.items ++ flat_map (λ piece. piece.now) pieces.now) }
{
    for piece in pieces {
        out.extend_from_slice(piece.as_bytes())?;
    }
    Ok(())
}

// Appends the first word, in the form of this kind.
fn append_first(kind: u32, word: &str, out: &mut Vec<u8>) -> Result<(), Memory>
    ensures { OnOk result (out.new.items ≡ out.old.items ++ leading_word kind word.now) }
{
    match kind {
        0 => append(&[word], out),
        1 => append(&["<em|", word, ">"], out),
        2 => append(&["<assign|v|", word, ">", word], out),
        _ => append(&["<value|v> ", word], out),
    }
}

// Appends five words, each this step further than the one before, a space before each.
fn append_more(a: u32, step: u32, out: &mut Vec<u8>) -> Result<(), Memory>
    requires a { a < 8 }
    requires step { step < 16 }
    ensures { OnOk result (out.new.items ≡ out.old.items ++ more_words a step) }
{
    for j in 1..6 {
        append(&[" ", word(a + j * step)], out)?;
    }
    Ok(())
}

// Appends the paragraph of a number that was drawn.
fn append_paragraph(drawn: u32, out: &mut Vec<u8>) -> Result<(), Memory>
    ensures { OnOk result (out.new.items ≡ out.old.items ++ generated_paragraph drawn) }
{
    let a = drawn % 8;
    append_first(drawn / 64 % 4, word(a), out)?;
    append_more(a, 2 * (drawn / 8 % 8) + 1, out)
}

/// The text of a document in TM, generated from a number below 2^31: an assignment, and after it `count` paragraphs, 1
/// to 60,000, with an empty line between two paragraphs and nothing after the last one. Each paragraph is six of eight
/// words, in one of four forms, which the linear congruential generator x * 1103515245 + 12345 modulo 2^31 picks.
///
/// It has fewer than 2^22 bytes. Memory may run out at any time.
pub fn generated(alloc: Global, number: u32, count: u32) -> Result<Vec<u8>, Memory>
    requires number { number < 2 ^ 31 }
    requires some { 1 ≤ count }
    requires few { count ≤ 60000 }
    ensures { IfOk result (λ text. text.items ≡ document_text number count) }
{
    let mut text = Vec::with_capacity(alloc, (count as usize + 1) * MOST_BYTES)?;
    text.extend_from_slice(b"<assign|v|tree>")?;
    let mut x = number;
    for i in 0..count {
        x = next(x);
        text.extend_from_slice(b"\n\n")?;
        append_paragraph(x / 65_536, &mut text)?;
    }
    Ok(text)
}
