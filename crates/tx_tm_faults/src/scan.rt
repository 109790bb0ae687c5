// Why bytes spell no tree: a second pass, with no trees.
ghost use Rattle.std.specs.Prelude.{◌≡◌, ℕ, ◌≤◌, ◌<◌, ◌+◌, ◌^◌, ◌∷◌, [], ◌++◌, ◌||◌, List, length};
ghost use Rattle.std.specs.Prelude.{reverse, true, false, if◌then◌else◌, option_copied, Some, None, IfOk};
ghost use Rattle.tx_tm_form.specs.Tokens.{form_mark, written};
ghost use Rattle.tx_tm_form.specs.Machine.{ready, at, step};
ghost use Rattle.tx_tm_form.specs.Fronts.{begins};
ghost use Rattle.tx_tm_form.specs.Faults.{begun_bytes};
ghost use Rattle.tx_tm_form.specs.Marks.{is_parts, is_symbol, begins_marks, form_goes_on, keep_marks, start_marks};
ghost use Rattle.tx_tm_form.specs.Marks.{marks_go_on, mismatch, fault_by, stop_fault, is_whole, spells_whole};
ghost use Rattle.tx_tm_words.specs.Words.{token_of, lex_of};
ghost use Rattle.tx_tm_faults.specs.Stands.{tag_marks, first_mark, standing_of, BytesStandAt};
ghost use Rattle.tx_tm_faults.specs.Scans.{scan_of, IsScan, Tells};

use crate::marking::{OpenMark, Stand};
use std::alloc::Global;
use tx_base::Memory;
use tx_tm_form::{Inside, TagForm};
use tx_tm_words::{LabelFront, Lexed, Lexer, TmWord, is_dropped};
use tx_tree::ReadFault;

// The innermost open tag.
#[tactic(auto, using(crate::proofs::Innermost::last_is_first))]
fn innermost(marks: &[OpenMark]) -> Option<&OpenMark>
    ensures { option_copied result ≡ first_mark (reverse marks.now) }
{
    marks.last()
}

// Whether the bytes are the first of others, or all.
#[tactic(auto, using(crate::proofs::Innermost::begins_is))]
fn begins(bytes: &[u8], others: &[u8]) -> bool
    ensures { result ≡ begins bytes.now others.now }
{
    others.starts_with(bytes)
}

// Whether the label so far goes on to that of the innermost tag, of which a block is open.
fn begins_marks(bytes: &[u8], label: &LabelFront, marks: &[OpenMark]) -> bool
    ensures { result ≡ begins_marks label.now (tag_marks bytes.now marks.now) }
{
    match innermost(marks) {
        None => false,
        Some(mark) => mark.inner.is_none() && begins(label.bytes(), mark.label(bytes)),
    }
}

fn form_goes_on(bytes: &[u8], form: TagForm, label: &LabelFront, marks: &[OpenMark]) -> bool
    ensures { result ≡ form_goes_on form label.now (tag_marks bytes.now marks.now) }
{
    match form {
        TagForm::Short | TagForm::Long => true,
        TagForm::Middle | TagForm::Closing => begins_marks(bytes, label, marks),
    }
}

fn is_parts(inside: Inside) -> bool
    ensures { result ≡ is_parts inside }
{
    matches!(inside, Inside::Parts)
}

fn is_symbol(inside: Inside) -> bool
    ensures { result ≡ is_symbol inside }
{
    matches!(inside, Inside::Symbol(_))
}

// The fault of a byte in the label of a middle or closing tag.
fn mismatch(marks: &[OpenMark], place: usize) -> ReadFault
    ensures { (bytes : List ℕ) → result ≡ mismatch (tag_marks bytes marks.now) place }
{
    match innermost(marks) {
        None => ReadFault::Stray(place),
        Some(mark) => ReadFault::Mismatch(mark.at, place),
    }
}

fn mark_len(form: TagForm) -> usize
    ensures { result ≡ length (form_mark form) }
{
    match form {
        TagForm::Short => 0,
        TagForm::Long | TagForm::Middle | TagForm::Closing => 1,
    }
}

// How many bytes the word has.
#[tactic(auto, using(crate::proofs::Innermost::head_length))]
fn word_len(word: &TmWord) -> usize
    ensures is { result ≡ length (written (token_of word.now)) }
    ensures short { result < 2 ^ 32 }
{
    match word {
        TmWord::White(_) | TmWord::Plain(_) | TmWord::Bar | TmWord::Close => 1,
        TmWord::Escape(_) | TmWord::Raw => 2,
        TmWord::Join(returned) => { if *returned { 3 } else { 2 } }
        TmWord::Head(form, label, _) => mark_len(*form) + label.bytes().len() + 2,
    }
}

/// What has been read: as whole words, so many bytes, and of a word that has begun.
#[derive(Drop)]
pub(crate) struct Scan {
    lexer: Lexer,
    taken: usize,
    behind_join: bool,
    stand: Stand,
}

// The state after a word.
fn behind_word(
    bytes: &[u8],
    taken: usize,
    behind_join: bool,
    stand: Stand,
    word: &TmWord,
) -> Result<Option<Scan>, Memory>
    requires small { taken < 2 ^ 63 }
    requires there { BytesStandAt bytes.now taken (written (token_of word.now)) }
    ensures { IfOk result (λ next. IsScan bytes.now next (at ready
        (keep_marks
        (record { taken = taken; behind_join = behind_join; now = Some (standing_of bytes.now stand) })
        (token_of word.now)))) }
{
    let length = word_len(word);
    if is_dropped(behind_join, word) {
        return Ok(Some(Scan {
            lexer: Lexer::Ready,
            taken: taken + length,
            behind_join: true,
            stand,
        }));
    }
    match stand.take(bytes, taken, word)? {
        None => Ok(None),
        Some(stand) => Ok(Some(Scan {
            lexer: Lexer::Ready,
            taken: taken + length,
            behind_join: false,
            stand,
        })),
    }
}

impl Scan {
    fn new(alloc: Global) -> Scan
        ensures { (bytes : List ℕ) → scan_of bytes result ≡ start_marks }
    {
        Scan {
            lexer: Lexer::Ready,
            taken: 0,
            behind_join: false,
            stand: Stand {
                inside: Inside::Parts,
                marks: Vec::new(alloc),
            },
        }
    }

    // Whether a word that has begun can go on to one that may be here.
    fn goes_on(&self, bytes: &[u8]) -> bool
        ensures { result ≡ marks_go_on (scan_of bytes.now self.now) }
    {
        match &self.lexer {
            Lexer::Ready | Lexer::Slashed | Lexer::Returned => true,
            Lexer::Angled => is_parts(self.stand.inside),
            Lexer::Labelled(form, label) => {
                is_parts(self.stand.inside) && form_goes_on(bytes, *form, label, &self.stand.marks)
            }
        }
    }

    // The fault of the byte at the place, where no tree goes on with it.
    fn fault(&self, byte: u8, place: usize) -> ReadFault
        ensures { (bytes : List ℕ) → result ≡ stop_fault (scan_of bytes self.now) byte place }
    {
        match &self.lexer {
            Lexer::Ready => {
                if is_symbol(self.stand.inside) {
                    ReadFault::BadText(place)
                } else {
                    ReadFault::Stray(place)
                }
            }
            Lexer::Slashed => {
                if is_symbol(self.stand.inside) || byte == b'>' {
                    ReadFault::BadText(place)
                } else {
                    ReadFault::BadEscape(place)
                }
            }
            Lexer::Returned => ReadFault::BadEscape(place),
            Lexer::Angled => {
                if byte == b'|' || byte == b'/' {
                    ReadFault::Stray(place)
                } else {
                    ReadFault::BadLabel(place)
                }
            }
            Lexer::Labelled(TagForm::Short | TagForm::Long, _) => ReadFault::BadLabel(place),
            Lexer::Labelled(TagForm::Middle | TagForm::Closing, _) => mismatch(
                &self.stand.marks,
                place,
            ),
        }
    }

    // The state after a byte, or None where no word goes on so, or where it cannot be there.
    fn step(self, alloc: Global, bytes: &[u8], byte: u8) -> Result<Option<Scan>, Memory>
        requires small { self.taken < 2 ^ 63 }
        requires there { BytesStandAt bytes.now self.taken (begun_bytes (lex_of self.lexer) ++ byte ∷ []) }
        ensures { IfOk result (λ next. IsScan bytes.now next (step keep_marks (scan_of bytes.now self) byte)) }
    {
        let Scan {
            lexer,
            taken,
            behind_join,
            stand,
        } = self;
        match lexer.step(alloc, byte)? {
            None => Ok(None),
            Some(Lexed::Within(lexer)) => Ok(Some(Scan {
                lexer,
                taken,
                behind_join,
                stand,
            })),
            Some(Lexed::Done(word)) => behind_word(bytes, taken, behind_join, stand, &word),
        }
    }

    // Whether the bytes so far spell a tree.
    fn is_whole(&self) -> bool
        ensures { (bytes : List ℕ) → result ≡ spells_whole (scan_of bytes self.now) }
    {
        match &self.lexer {
            Lexer::Ready => is_parts(self.stand.inside) && self.stand.marks.is_empty(),
            _ => false,
        }
    }
}

/// Why the bytes spell no tree, whatever its size, or None where they spell one.
pub(crate) fn misspelled(alloc: Global, bytes: &[u8]) -> Result<Option<ReadFault>, Memory>
    ensures { IfOk result (λ found. Tells bytes.now found) }
{
    let mut scan = Scan::new(alloc);
    for (place, byte) in bytes.iter().enumerate() {
        let fault = scan.fault(*byte, place);
        match scan.step(alloc, bytes, *byte)? {
            None => return Ok(Some(fault)),
            Some(next) => {
                if !next.goes_on(bytes) {
                    return Ok(Some(fault));
                }
                scan = next;
            }
        }
    }
    if scan.is_whole() {
        return Ok(None);
    }
    Ok(Some(ReadFault::Unclosed(bytes.len())))
}
