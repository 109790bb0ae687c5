// A word more, with the places of the open tags in place of their trees.
ghost use Rattle.std.specs.Prelude.{◌≡◌, ℕ, ◌≤◌, ◌<◌, ◌+◌, ◌^◌, ◌∷◌, ◌==◌, ◌||◌, List, length};
ghost use Rattle.std.specs.Prelude.{reverse, true, nat_lt, nat_le, if◌then◌else◌, IfOk, None};
ghost use Rattle.tx_tree.specs.Texts.{is_name_byte};
ghost use Rattle.tx_tm_form.specs.Bytes.{escape_of, is_digit};
ghost use Rattle.tx_tm_form.specs.Parts.{same_bytes};
ghost use Rattle.tx_tm_form.specs.Tokens.{form_mark, written};
ghost use Rattle.tx_tm_form.specs.Marks.{with_inner, mark_bar, mark_close, mark_next, mark_last, bar_marks};
ghost use Rattle.tx_tm_form.specs.Marks.{close_marks, next_marks, last_marks, begun_marks, escape_marks};
ghost use Rattle.tx_tm_form.specs.Marks.{part_marks, name_marks, symbol_marks, digit_marks, feed_marks};
ghost use Rattle.tx_tm_words.specs.Words.{token_of};
ghost use Rattle.tx_tm_faults.specs.Stands.{label_of_mark, mark_in, tag_marks, stood, BytesStandAt};

use std::alloc::Global;
use tx_base::Memory;
use tx_tm_form::{Escaped, Inside, TagForm, TagPlace, escape_of};
use tx_tm_words::{TmWord, header_place, is_digit, same_bytes};
use tx_tree::{Label, MOST_NAME, is_name_byte};

/// An open tag. Its label is stored as its place in the bytes, so that each takes 24 bytes.
#[derive(Clone, Copy)]
pub(crate) struct OpenMark {
    /// The place of its `<`.
    pub(crate) at: usize,
    /// The place of its label.
    pub(crate) label_at: usize,
    /// How many bytes the label has.
    pub(crate) label_len: u8,
    /// The argument of it that is open, or None where a block is.
    pub(crate) inner: Option<TagPlace>,
}

impl OpenMark {
    // Its label in the bytes. Neither minimum ever cuts it: with them no bound has to be carried along.
    pub(crate) fn label<'a>(&self, bytes: &'a [u8]) -> &'a [u8]
        ensures { result.now ≡ label_of_mark bytes.now self.now }
    {
        let rest = &bytes[self.label_at.min(bytes.len())..];
        &rest[..(self.label_len as usize).min(rest.len())]
    }
}

/// Where a byte is, and the open tags round it, the innermost last.
#[derive(Drop)]
pub(crate) struct Stand {
    pub(crate) inside: Inside,
    pub(crate) marks: Vec<OpenMark>,
}

// Between parts.
fn between(marks: Vec<OpenMark>) -> Option<Stand>
    ensures { (bytes : List ℕ)
        → stood bytes result ≡ Some (record { inside = Inside.Parts; marks = tag_marks bytes marks.items }) }
{
    Some(Stand {
        inside: Inside::Parts,
        marks,
    })
}

// In an argument of the tag, or in a block of it.
fn within(
    mut mark: OpenMark,
    inner: Option<TagPlace>,
    mut marks: Vec<OpenMark>,
) -> Result<Option<Stand>, Memory>
    ensures { (bytes : List ℕ) → IfOk result (λ next. stood bytes next ≡ Some (record {
      inside = Inside.Parts;
      marks = with_inner inner (mark_in bytes mark) ∷ tag_marks bytes marks.items;
    })) }
{
    mark.inner = inner;
    marks.push(mark)?;
    Ok(between(marks))
}

// The state after `|` in what is open of the tag.
fn bar_in(mark: OpenMark, marks: Vec<OpenMark>) -> Result<Option<Stand>, Memory>
    ensures { (bytes : List ℕ) → IfOk result (λ next.
        stood bytes next ≡ mark_bar mark.inner (mark_in bytes mark ∷ tag_marks bytes marks.items)) }
{
    match mark.inner {
        None => Ok(None),
        Some(place) => within(mark, Some(place), marks),
    }
}

// The state after `>` in what is open of the tag.
fn close_in(mark: OpenMark, marks: Vec<OpenMark>) -> Result<Option<Stand>, Memory>
    ensures { (bytes : List ℕ) → IfOk result (λ next.
        stood bytes next ≡ mark_close mark.inner (mark_in bytes mark) (tag_marks bytes marks.items)) }
{
    match mark.inner {
        None => Ok(None),
        Some(TagPlace::InHeader) => within(mark, None, marks),
        Some(TagPlace::InShort | TagPlace::InClosing) => Ok(between(marks)),
    }
}

// The state after the beginning of a middle or closing tag of this label, with an argument, or with a block after it.
fn next_in(
    bytes: &[u8],
    label: &Label,
    inner: Option<TagPlace>,
    mark: OpenMark,
    marks: Vec<OpenMark>,
) -> Result<Option<Stand>, Memory>
    ensures { IfOk result (λ next. stood bytes.now next
        ≡ mark_next mark.inner label.now inner (mark_in bytes.now mark) (tag_marks bytes.now marks.items)) }
{
    if mark.inner.is_some() || !same_bytes(label.bytes(), mark.label(bytes)) {
        return Ok(None);
    }
    within(mark, inner, marks)
}

// The state after a closing tag of this label without arguments.
fn last_in(bytes: &[u8], label: &Label, mark: OpenMark, marks: Vec<OpenMark>) -> Option<Stand>
    ensures { stood bytes.now result
        ≡ mark_last mark.inner label.now (mark_in bytes.now mark) (tag_marks bytes.now marks.items) }
{
    if mark.inner.is_some() || !same_bytes(label.bytes(), mark.label(bytes)) {
        return None;
    }
    between(marks)
}

fn bar_marks(mut marks: Vec<OpenMark>) -> Result<Option<Stand>, Memory>
    ensures { (bytes : List ℕ) → IfOk result (λ next. stood bytes next ≡ bar_marks (tag_marks bytes marks.items)) }
{
    match marks.pop() {
        None => Ok(None),
        Some(mark) => bar_in(mark, marks),
    }
}

fn close_marks(mut marks: Vec<OpenMark>) -> Result<Option<Stand>, Memory>
    ensures { (bytes : List ℕ) → IfOk result (λ next. stood bytes next ≡ close_marks (tag_marks bytes marks.items)) }
{
    match marks.pop() {
        None => Ok(None),
        Some(mark) => close_in(mark, marks),
    }
}

fn next_marks(
    bytes: &[u8],
    label: &Label,
    inner: Option<TagPlace>,
    mut marks: Vec<OpenMark>,
) -> Result<Option<Stand>, Memory>
    ensures { IfOk result (λ next. stood bytes.now next
        ≡ next_marks label.now inner (tag_marks bytes.now marks.items)) }
{
    match marks.pop() {
        None => Ok(None),
        Some(mark) => next_in(bytes, label, inner, mark, marks),
    }
}

fn last_marks(bytes: &[u8], label: &Label, mut marks: Vec<OpenMark>) -> Option<Stand>
    ensures { stood bytes.now result ≡ last_marks label.now (tag_marks bytes.now marks.items) }
{
    match marks.pop() {
        None => None,
        Some(mark) => last_in(bytes, label, mark, marks),
    }
}

// The state after the beginning of a tag that begins, whose `<` is at this place, and its label at that one.
fn new_mark(
    at: usize,
    label_at: usize,
    label: &Label,
    inner: Option<TagPlace>,
    marks: Vec<OpenMark>,
) -> Result<Option<Stand>, Memory>
    ensures { (bytes : List ℕ) → BytesStandAt bytes label_at label.now
        → IfOk result (λ next. stood bytes next ≡ Some (record {
          inside = Inside.Parts;
          marks = record { at = at; label = label.now; inner = inner } ∷ tag_marks bytes marks.items;
        })) }
{
    let mark = OpenMark {
        at,
        label_at,
        label_len: label.bytes().len() as u8,
        inner: None,
    };
    within(mark, inner, marks)
}

// The state after the beginning of a tag.
fn begun_marks(
    bytes: &[u8],
    at: usize,
    form: TagForm,
    more: bool,
    label: &Label,
    marks: Vec<OpenMark>,
) -> Result<Option<Stand>, Memory>
    requires small { at < 2 ^ 63 }
    requires there { BytesStandAt bytes.now (at + (1 + length (form_mark form))) label.now }
    ensures { IfOk result (λ next.
        stood bytes.now next ≡ begun_marks at form more label.now (tag_marks bytes.now marks.items)) }
{
    match form {
        TagForm::Short => {
            if more {
                new_mark(at, at + 1, label, Some(TagPlace::InShort), marks)
            } else {
                Ok(between(marks))
            }
        }
        TagForm::Long => new_mark(at, at + 2, label, header_place(more), marks),
        TagForm::Middle => next_marks(bytes, label, header_place(more), marks),
        TagForm::Closing => {
            if more {
                next_marks(bytes, label, Some(TagPlace::InClosing), marks)
            } else {
                Ok(last_marks(bytes, label, marks))
            }
        }
    }
}

// The state after a backslash and a byte.
fn escape_marks(byte: u8, marks: Vec<OpenMark>) -> Option<Stand>
    ensures { (bytes : List ℕ) → stood bytes result ≡ escape_marks (escape_of byte) byte (tag_marks bytes marks.items) }
{
    match escape_of(byte) {
        Some(Escaped::Mark | Escaped::Byte(_)) => between(marks),
        None => {
            if byte == b'<' {
                Some(Stand {
                    inside: Inside::Symbol(0),
                    marks,
                })
            } else {
                None
            }
        }
    }
}

// A word more between parts, at this place.
#[tactic(auto, using(crate::proofs::Lexing::label_there))]
fn part_marks(
    bytes: &[u8],
    at: usize,
    marks: Vec<OpenMark>,
    word: &TmWord,
) -> Result<Option<Stand>, Memory>
    requires small { at < 2 ^ 63 }
    requires there { BytesStandAt bytes.now at (written (token_of word.now)) }
    ensures { IfOk result (λ next.
        stood bytes.now next ≡ part_marks at (tag_marks bytes.now marks.items) (token_of word.now)) }
{
    match word {
        TmWord::White(_) | TmWord::Plain(_) => Ok(between(marks)),
        TmWord::Join(_) => Ok(None),
        TmWord::Escape(byte) => Ok(escape_marks(*byte, marks)),
        TmWord::Raw => Ok(Some(Stand {
            inside: Inside::Digits,
            marks,
        })),
        TmWord::Head(form, label, more) => begun_marks(bytes, at, *form, *more, label, marks),
        TmWord::Bar => bar_marks(marks),
        TmWord::Close => close_marks(marks),
    }
}

// The state after a byte of a symbol's name, which is after so many.
fn name_marks(good: bool, length: usize, marks: Vec<OpenMark>) -> Option<Stand>
    ensures { (bytes : List ℕ) → stood bytes result ≡ name_marks good length (tag_marks bytes marks.items) }
{
    if !good || length >= MOST_NAME {
        return None;
    }
    Some(Stand {
        inside: Inside::Symbol(length + 1),
        marks,
    })
}

// The state after a word more in the name of a symbol, which is after so many bytes of it.
fn symbol_marks(length: usize, marks: Vec<OpenMark>, word: &TmWord) -> Option<Stand>
    ensures { (bytes : List ℕ)
        → stood bytes result ≡ symbol_marks length (tag_marks bytes marks.items) (token_of word.now) }
{
    match word {
        TmWord::Plain(byte) => name_marks(is_name_byte(*byte), length, marks),
        TmWord::Escape(b'>') => {
            if length == 0 {
                return None;
            }
            between(marks)
        }
        TmWord::Escape(byte) => name_marks(*byte == b'|' || *byte == b'\\', length, marks),
        _ => None,
    }
}

// A word more in raw data.
fn digit_marks(marks: Vec<OpenMark>, word: &TmWord) -> Option<Stand>
    ensures { (bytes : List ℕ) → stood bytes result ≡ digit_marks (tag_marks bytes marks.items) (token_of word.now) }
{
    match word {
        TmWord::Plain(byte) => {
            if !is_digit(*byte) {
                return None;
            }
            Some(Stand {
                inside: Inside::Digits,
                marks,
            })
        }
        TmWord::Close => between(marks),
        _ => None,
    }
}

impl Stand {
    /// The state after the word, which begins at this place, or None where it cannot be there.
    pub(crate) fn take(
        self,
        bytes: &[u8],
        at: usize,
        word: &TmWord,
    ) -> Result<Option<Stand>, Memory>
        requires small { at < 2 ^ 63 }
        requires there { BytesStandAt bytes.now at (written (token_of word.now)) }
        ensures { IfOk result (λ next. stood bytes.now next
            ≡ feed_marks at self.inside (tag_marks bytes.now self.marks.items) (token_of word.now)) }
    {
        match self.inside {
            Inside::Parts => part_marks(bytes, at, self.marks, word),
            Inside::Symbol(length) => Ok(symbol_marks(length, self.marks, word)),
            Inside::Digits => Ok(digit_marks(self.marks, word)),
        }
    }
}
