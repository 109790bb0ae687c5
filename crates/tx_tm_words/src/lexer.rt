// Words from bytes.
ghost use Rattle.std.specs.Prelude.{◌≡◌, ◌≤◌, ◌<◌, ◌∷◌, ◌++◌, [], true, length, nat_lt, if◌then◌else◌, IfOk, OnErr};
ghost use Rattle.tx_tree.specs.Labels.{is_label_byte};
ghost use Rattle.tx_tm_form.specs.Bytes.{kind_of, can_escape};
ghost use Rattle.tx_tm_form.specs.Tokens.{is_dropped};
ghost use Rattle.tx_tm_form.specs.Machine.{lex_ready, lex_slashed, lex_returned, lex_angled, lex_labelled, lex};
ghost use Rattle.tx_tm_form.specs.Machine.{header_place};
ghost use Rattle.tx_tm_words.specs.Words.{token_of, lex_of, lexed_of, IsGoodLexed};

use std::alloc::Global;
use std::marker::Model;
use tx_base::Memory;
use tx_tm_form::{ByteKind, TagForm, TagPlace, escape_of, kind_of};
use tx_tree::{Label, LabelFault, MOST_LABEL};

/// The first bytes of a label, which may be none. Contracts see them.
#[derive(Drop)]
pub struct LabelFront {
    bytes: Vec<u8>,
}

impl Model for LabelFront {
    ghost use Rattle.std.specs.Prelude.{List, ℕ};
    ghost use Rattle.tx_tm_words.specs.LabelFronts.{IsLabelFront};

    ghost Value = { List ℕ };

    ghost view = { λ l. l.bytes.items };

    ghost invariant = { λ l. IsLabelFront l.bytes.items };
}

impl LabelFront {
    fn new(alloc: Global) -> LabelFront
        ensures { result ≡ [] }
    {
        LabelFront {
            bytes: Vec::new(alloc),
        }
    }

    /// How many bytes they are.
    pub fn len(&self) -> usize
        ensures { result ≡ length self.now }
    {
        self.bytes.len()
    }

    /// The bytes.
    pub fn bytes(&self) -> &[u8]
        ensures { result.now ≡ self.now }
    {
        &self.bytes
    }

    // With a byte more.
    #[tactic(auto, using(crate::proofs::Labels::one_more))]
    fn with(self, byte: u8) -> Result<LabelFront, Memory>
        requires label { is_label_byte byte ≡ true }
        requires room { length self < MOST_LABEL }
        ensures { IfOk result (λ l. l ≡ self ++ byte ∷ []) }
    {
        let LabelFront { mut bytes } = self;
        bytes.push(byte)?;
        Ok(LabelFront { bytes })
    }

    // The label of all bytes.
    #[tactic(auto, using(crate::proofs::Labels::no_fault))]
    fn finish(self, alloc: Global) -> Result<Label, Memory>
        requires { 1 ≤ length self }
        ensures { IfOk result (λ l. l ≡ self) }
    {
        match Label::new(alloc, &self.bytes) {
            Ok(label) => Ok(label),
            Err(LabelFault::Memory) => Err(Memory),
            Err(LabelFault::BadLabel(_)) => unreachable!(),
        }
    }
}

/// A word of TM.
#[derive(Drop)]
pub enum TmWord {
    /// A byte of white.
    White(u8),
    /// A join, and whether byte 13 is in it.
    Join(bool),
    /// A byte that stands for itself.
    Plain(u8),
    /// A backslash and this byte.
    Escape(u8),
    /// `<#`.
    Raw,
    /// The beginning of a tag, and whether an argument follows.
    Head(TagForm, Label, bool),
    /// `|`.
    Bar,
    /// `>`.
    Close,
}

/// What of a word has been read.
#[derive(Drop)]
pub enum Lexer {
    /// Nothing.
    Ready,
    /// `\`.
    Slashed,
    /// `\` and byte 13.
    Returned,
    /// `<`.
    Angled,
    /// The beginning of a tag, up to some bytes of its label.
    Labelled(TagForm, LabelFront),
}

/// What a byte more gives.
#[derive(Drop)]
pub enum Lexed {
    /// So much of a word.
    Within(Lexer),
    /// This word.
    Done(TmWord),
}

#[tactic(auto, unfolding(tx_tm_form::specs::Machine::lex_ready))]
fn lex_ready(kind: ByteKind, byte: u8) -> Lexed
    requires { kind ≡ kind_of byte }
    ensures next { lexed_of (Some result) ≡ lex_ready kind byte }
    ensures good { IsGoodLexed (Some result) }
{
    match kind {
        ByteKind::Blank | ByteKind::Newline | ByteKind::Return => Lexed::Done(TmWord::White(byte)),
        ByteKind::Less => Lexed::Within(Lexer::Angled),
        ByteKind::Greater => Lexed::Done(TmWord::Close),
        ByteKind::Bar => Lexed::Done(TmWord::Bar),
        ByteKind::Backslash => Lexed::Within(Lexer::Slashed),
        ByteKind::Name | ByteKind::Hash | ByteKind::Slash | ByteKind::Other => {
            Lexed::Done(TmWord::Plain(byte))
        }
    }
}

fn can_escape(byte: u8) -> bool
    ensures { result ≡ can_escape byte }
{
    escape_of(byte).is_some() || byte == b'<' || byte == b'>'
}

#[tactic(auto, unfolding(tx_tm_form::specs::Machine::lex_slashed))]
fn lex_slashed(kind: ByteKind, byte: u8) -> Option<Lexed>
    ensures next { lexed_of result ≡ lex_slashed kind byte }
    ensures good { IsGoodLexed result }
{
    match kind {
        ByteKind::Newline => Some(Lexed::Done(TmWord::Join(false))),
        ByteKind::Return => Some(Lexed::Within(Lexer::Returned)),
        _ => {
            if can_escape(byte) {
                Some(Lexed::Done(TmWord::Escape(byte)))
            } else {
                None
            }
        }
    }
}

#[tactic(auto, unfolding(tx_tm_form::specs::Machine::lex_returned))]
fn lex_returned(kind: ByteKind) -> Option<Lexed>
    ensures next { lexed_of result ≡ lex_returned kind }
    ensures good { IsGoodLexed result }
{
    match kind {
        ByteKind::Newline => Some(Lexed::Done(TmWord::Join(true))),
        _ => None,
    }
}

#[tactic(auto, unfolding(tx_tm_form::specs::Machine::lex_angled), using(crate::proofs::Labels::name_rules))]
fn lex_angled(alloc: Global, kind: ByteKind, byte: u8) -> Result<Option<Lexed>, Memory>
    requires { kind ≡ kind_of byte }
    ensures next { IfOk result (λ next. lexed_of next ≡ lex_angled kind byte) }
    ensures good { IfOk result IsGoodLexed }
{
    let label = LabelFront::new(alloc);
    match kind {
        ByteKind::Backslash => Ok(Some(Lexed::Within(Lexer::Labelled(TagForm::Long, label)))),
        ByteKind::Bar => Ok(Some(Lexed::Within(Lexer::Labelled(TagForm::Middle, label)))),
        ByteKind::Slash => Ok(Some(Lexed::Within(Lexer::Labelled(TagForm::Closing, label)))),
        ByteKind::Hash => Ok(Some(Lexed::Done(TmWord::Raw))),
        ByteKind::Name => Ok(Some(Lexed::Within(Lexer::Labelled(
            TagForm::Short,
            label.with(byte)?,
        )))),
        _ => Ok(None),
    }
}

#[tactic(auto, unfolding(tx_tm_form::specs::Machine::lex_labelled), using(crate::proofs::Labels::is_name))]
fn lex_labelled(
    alloc: Global,
    form: TagForm,
    label: LabelFront,
    kind: ByteKind,
    byte: u8,
) -> Result<Option<Lexed>, Memory>
    requires { kind ≡ kind_of byte }
    ensures next { IfOk result (λ next. lexed_of next ≡ lex_labelled form label kind byte) }
    ensures good { IfOk result IsGoodLexed }
{
    match kind {
        ByteKind::Name => {
            if label.len() >= MOST_LABEL {
                return Ok(None);
            }
            Ok(Some(Lexed::Within(Lexer::Labelled(form, label.with(byte)?))))
        }
        ByteKind::Bar | ByteKind::Greater => {
            if label.len() == 0 {
                return Ok(None);
            }
            let more = kind == ByteKind::Bar;
            Ok(Some(Lexed::Done(TmWord::Head(form, label.finish(alloc)?, more))))
        }
        _ => Ok(None),
    }
}

impl Lexer {
    /// What a byte more gives, or None where no word goes on so.
    pub fn step(self, alloc: Global, byte: u8) -> Result<Option<Lexed>, Memory>
        ensures next { IfOk result (λ next. lexed_of next ≡ lex (lex_of self) (kind_of byte) byte) }
        ensures good { IfOk result IsGoodLexed }
    {
        let kind = kind_of(byte);
        match self {
            Lexer::Ready => Ok(Some(lex_ready(kind, byte))),
            Lexer::Slashed => Ok(lex_slashed(kind, byte)),
            Lexer::Returned => Ok(lex_returned(kind)),
            Lexer::Angled => lex_angled(alloc, kind, byte),
            Lexer::Labelled(form, label) => lex_labelled(alloc, form, label, kind, byte),
        }
    }
}

/// Whether the word stands for nothing: a join, or a space or a tab after one.
pub fn is_dropped(behind_join: bool, word: &TmWord) -> bool
    ensures { result ≡ is_dropped behind_join (token_of word.now) }
{
    match word {
        TmWord::Join(_) => true,
        TmWord::White(byte) => behind_join && (*byte == b' ' || *byte == b'\t'),
        _ => false,
    }
}

/// The argument of a long or middle tag that is open after its beginning, where one follows.
pub fn header_place(more: bool) -> Option<TagPlace>
    ensures { result ≡ header_place more }
{
    if more { Some(TagPlace::InHeader) } else { None }
}
