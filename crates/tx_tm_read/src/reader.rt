// The tree that bytes spell.
ghost use Rattle.std.specs.Prelude.{◌≡◌, ◌≢◌, ◌≤◌, ◌<◌, ◌+◌, [], Bool, true, false, length, take, drop};
ghost use Rattle.std.specs.Prelude.{IfOk, IfErr, IfSome, Some, None};
ghost use Rattle.tx_tree.specs.WideTree.{nodes_of};
ghost use Rattle.tx_tree.specs.Limits.{IsWithinLimits};
ghost use Rattle.tx_tm_form.specs.Forms.{Spells};
ghost use Rattle.tx_tm_form.specs.Faults.{IsTmFault};
ghost use Rattle.tx_tm_form.specs.Machine.{ready, at, reading, after_lexed, keep, step, start, run};
ghost use Rattle.tx_tm_words.specs.Words.{token_of, IsGoodWord, lexed_of, IsGoodLexed};
ghost use Rattle.tx_tm_content.specs.Blocks.{content_of};
ghost use Rattle.tx_tm_read.specs.Nodes.{state_nodes};
ghost use Rattle.tx_tm_read.specs.Spots.{opens_of, state_of};
ghost use Rattle.tx_tm_read.specs.Readers.{reader_between_words, byte_machine, IsReader, ReaderRose};
ghost use Rattle.tx_tm_words.specs.Runs.{AreWords, IsWhiteRun};
ghost use Rattle.tx_tm_read.specs.Heads.{StandsInFront};
ghost use Rattle.tx_tm_read.specs.PlainTags.{HasArguments};
ghost use Rattle.tx_tm_read.specs.Readers.{IsAdvance, AdvanceRose, IsTreeOf, IsTree, IsTreeRead};
ghost use Rattle.tx_tm_read.specs.Credits.{state_credit, token_credit, lexed_credit};
ghost use Rattle.tx_tm_content.specs.ContentCredits.{left};
ghost use Rattle.tx_tm_read.specs.Credits.{reader_credit, advance_credit, AdvancePaid};

use crate::heads::{Head, head_front};
use crate::plain_tags::plain_arguments;
use crate::tags::{OpenTag, Spot, let_go};
use crate::taking::begin;
use crate::walk::{put_node, put_text, put_white};
use std::alloc::Global;
use std::sync::ledger::Ledger;
use tx_base::{Memory, Steps};
use tx_tm_content::{Body, Labels, Paragraphs};
use tx_tm_faults::fault_of;
use tx_tm_form::{TagForm, White};
use tx_tm_words::{Lexed, Lexer, TmWord, is_dropped, white_front, words_len};
use tx_tree::{ReadFault, Tree};

/// What has been read.
#[derive(Drop)]
pub(crate) struct Reader {
    lexer: Lexer,
    behind_join: bool,
    spot: Spot,
}

/// What has been read, and how many bytes that took.
#[derive(Drop)]
pub(crate) struct Advance {
    reader: Reader,
    taken: usize,
}

// The state after a word.
fn behind_word<L: Ledger>(
    labels: &Labels,
    behind_join: bool,
    spot: Spot,
    word: TmWord,
    steps: &mut Steps<L>,
) -> Result<Option<Reader>, Memory>
    requires { IsGoodWord word }
    ensures next { IfOk result (λ next.
        IsReader next (at ready (keep (record { behind_join = behind_join; state = state_of spot }) (token_of word)))) }
    ensures counted { IfOk result (ReaderRose steps.old steps.new (state_nodes (state_of spot))) }
    ensures bounded { steps.new + left reader_credit result
        ≤ steps.old + state_credit (state_of spot) + token_credit (token_of word) }
    ensures rises { steps.old ≤ steps.new }
{
    if is_dropped(behind_join, &word) {
        return Ok(Some(Reader {
            lexer: Lexer::Ready,
            behind_join: true,
            spot,
        }));
    }
    match spot.take(labels, word, steps)? {
        None => Ok(None),
        Some(spot) => Ok(Some(Reader {
            lexer: Lexer::Ready,
            behind_join: false,
            spot,
        })),
    }
}

// The state after what a byte gave.
fn behind_lexed<L: Ledger>(
    labels: &Labels,
    behind_join: bool,
    spot: Spot,
    lexed: Option<Lexed>,
    steps: &mut Steps<L>,
) -> Result<Option<Reader>, Memory>
    requires { IsGoodLexed lexed }
    ensures next { IfOk result (λ next.
        IsReader next (after_lexed keep (record { behind_join = behind_join; state = state_of spot })
        (lexed_of lexed))) }
    ensures counted { IfOk result (ReaderRose steps.old steps.new (state_nodes (state_of spot))) }
    ensures bounded { steps.new + left reader_credit result
        ≤ steps.old + state_credit (state_of spot) + lexed_credit (lexed_of lexed) }
    ensures rises { steps.old ≤ steps.new }
{
    match lexed {
        None => {
            spot.let_go();
            Ok(None)
        }
        Some(Lexed::Within(lexer)) => Ok(Some(Reader {
            lexer,
            behind_join,
            spot,
        })),
        Some(Lexed::Done(word)) => behind_word(labels, behind_join, spot, word, steps),
    }
}

// The tree of content outside all tags, or None where a tag is open or a limit is passed.
fn whole_tree<L: Ledger>(
    labels: &Labels,
    here: Body,
    mut opens: Vec<OpenTag>,
    steps: &mut Steps<L>,
) -> Result<Option<Tree>, Memory>
    ensures found { IfOk result (λ found. IsTreeOf found (reading (content_of here) (opens_of opens.items))) }
    ensures counted { IfOk result (λ found. IfSome found (λ t.
        steps.new + state_nodes (reading (content_of here) (opens_of opens.items)) ≤ steps.old + nodes_of t)) }
    ensures bounded { steps.new ≤ steps.old + state_credit (reading (content_of here) (opens_of opens.items)) + 1 }
    ensures rises { steps.old ≤ steps.new }
{
    match opens.pop() {
        None => here.finish_block(labels, steps),
        Some(_) => Ok(None),
    }
}

impl Spot {
    // Drops what was read. A function that drops a spot at an exit of its own takes the prover long.
    fn let_go(self) {}

    // The tree, or None where what was read spells none within the limits.
    fn finish<L: Ledger>(
        self,
        labels: &Labels,
        steps: &mut Steps<L>,
    ) -> Result<Option<Tree>, Memory>
        ensures found { IfOk result (λ found. IsTreeOf found (state_of self)) }
        ensures counted { IfOk result (λ found.
            IfSome found (λ t. steps.new + state_nodes (state_of self) ≤ steps.old + nodes_of t)) }
        ensures bounded { steps.new ≤ steps.old + state_credit (state_of self) + 1 }
        ensures rises { steps.old ≤ steps.new }
    {
        match self {
            Spot::Reading(here, opens) => whole_tree(labels, here, opens, steps),
            _ => Ok(None),
        }
    }
}

// The state after so many bytes at the front, which are words.
#[inline(always)]
fn with_words<L: Ledger>(
    labels: &Labels,
    rest: &[u8],
    taken: usize,
    here: Body,
    opens: Vec<OpenTag>,
    steps: &mut Steps<L>,
) -> Result<Option<Advance>, Memory>
    requires some { 0 < taken }
    requires within { taken ≤ length rest.now }
    requires words { AreWords (take taken rest.now) }
    ensures next { (behind_join : Bool) → IfOk result (λ next.
        IsAdvance next (reader_between_words behind_join (content_of here) (opens_of opens.items)) rest.now) }
    ensures counted { IfOk result
        (AdvanceRose steps.old steps.new (state_nodes (reading (content_of here) (opens_of opens.items)))) }
    ensures bounded { steps.new + left advance_credit result
        ≤ steps.old + state_credit (reading (content_of here) (opens_of opens.items)) }
    ensures rises { steps.old ≤ steps.new }
{
    match put_text(labels, &rest[..taken], here, opens, steps)? {
        None => Ok(None),
        Some(spot) => Ok(Some(Advance {
            reader: Reader {
                lexer: Lexer::Ready,
                behind_join: false,
                spot,
            },
            taken,
        })),
    }
}

// The state after so many bytes at the front, which are this run of white.
#[inline(always)]
fn with_white(
    rest: &[u8],
    taken: usize,
    white: White,
    here: Body,
    opens: Vec<OpenTag>,
) -> Result<Option<Advance>, Memory>
    requires some { 0 < taken }
    requires within { taken ≤ length rest.now }
    requires white { IsWhiteRun (take taken rest.now) white }
    ensures next { IfOk result (λ next.
        IsAdvance next (reader_between_words false (content_of here) (opens_of opens.items)) rest.now) }
    ensures counted { IfOk result
        (AdvanceRose 0 0 (state_nodes (reading (content_of here) (opens_of opens.items)))) }
    ensures bounded { left advance_credit result ≤ state_credit (reading (content_of here) (opens_of opens.items)) }
{
    match put_white(white, here, opens)? {
        None => Ok(None),
        Some(spot) => Ok(Some(Advance {
            reader: Reader {
                lexer: Lexer::Ready,
                behind_join: false,
                spot,
            },
            taken,
        })),
    }
}

// The state after the beginning of a short tag at the front.
fn with_head<L: Ledger>(
    labels: &Labels,
    rest: &[u8],
    found: Head,
    here: Body,
    opens: Vec<OpenTag>,
    steps: &mut Steps<L>,
) -> Result<Option<Advance>, Memory>
    requires { StandsInFront rest.now found }
    ensures next { (behind_join : Bool) → IfOk result (λ next.
        IsAdvance next (reader_between_words behind_join (content_of here) (opens_of opens.items)) rest.now) }
    ensures counted { IfOk result
        (AdvanceRose steps.old steps.new (state_nodes (reading (content_of here) (opens_of opens.items)))) }
    ensures paid { IfOk result
        (AdvancePaid steps.old steps.new (state_credit (reading (content_of here) (opens_of opens.items)))) }
    ensures bounded { steps.new ≤ steps.old + state_credit (reading (content_of here) (opens_of opens.items)) + 2 }
    ensures rises { steps.old ≤ steps.new }
{
    let Head { label, more, taken } = found;
    match begin(labels, TagForm::Short, more, label, here, opens, steps)? {
        None => Ok(None),
        Some(spot) => Ok(Some(Advance {
            reader: Reader {
                lexer: Lexer::Ready,
                behind_join: false,
                spot,
            },
            taken,
        })),
    }
}

// The state after a short tag at the front of which these are the children, and which has so many bytes after its
// beginning.
fn with_plain_tag<L: Ledger>(
    labels: &Labels,
    rest: &[u8],
    found: Head,
    children: Vec<Tree>,
    count: usize,
    here: Body,
    opens: Vec<OpenTag>,
    steps: &mut Steps<L>,
) -> Result<Option<Advance>, Memory>
    requires there { StandsInFront rest.now found }
    requires more { found.more ≡ true }
    requires arguments { HasArguments (drop found.taken rest.now) children.items count }
    ensures next { (behind_join : Bool) → IfOk result (λ next.
        IsAdvance next (reader_between_words behind_join (content_of here) (opens_of opens.items)) rest.now) }
    ensures counted { IfOk result
        (AdvanceRose steps.old steps.new (state_nodes (reading (content_of here) (opens_of opens.items)))) }
    ensures paid { IfOk result
        (AdvancePaid steps.old steps.new (state_credit (reading (content_of here) (opens_of opens.items)))) }
    ensures bounded { steps.new ≤ steps.old + state_credit (reading (content_of here) (opens_of opens.items)) + 2 }
    ensures rises { steps.old ≤ steps.new }
{
    let Head {
        label,
        more: _,
        taken,
    } = found;
    match put_node(labels, label, children, here, opens, steps)? {
        None => Ok(None),
        Some(spot) => Ok(Some(Advance {
            reader: Reader {
                lexer: Lexer::Ready,
                behind_join: false,
                spot,
            },
            taken: taken + count,
        })),
    }
}

// The state after a short tag at the front whose arguments are words alone, or else after its beginning.
fn with_tag<L: Ledger>(
    labels: &Labels,
    rest: &[u8],
    found: Head,
    here: Body,
    opens: Vec<OpenTag>,
    steps: &mut Steps<L>,
) -> Result<Option<Advance>, Memory>
    requires { StandsInFront rest.now found }
    ensures next { (behind_join : Bool) → IfOk result (λ next.
        IsAdvance next (reader_between_words behind_join (content_of here) (opens_of opens.items)) rest.now) }
    ensures counted { IfOk result
        (AdvanceRose steps.old steps.new (state_nodes (reading (content_of here) (opens_of opens.items)))) }
    ensures paid { IfOk result
        (AdvancePaid steps.old steps.new (state_credit (reading (content_of here) (opens_of opens.items)))) }
    ensures bounded { steps.new ≤ steps.old + state_credit (reading (content_of here) (opens_of opens.items)) + 2 }
    ensures rises { steps.old ≤ steps.new }
{
    if !found.more {
        return with_head(labels, rest, found, here, opens, steps);
    }
    match plain_arguments(labels.alloc, &rest[found.taken..rest.len()]) {
        Ok(Some((children, count))) => {
            with_plain_tag(labels, rest, found, children, count, here, opens, steps)
        }
        Ok(None) => with_head(labels, rest, found, here, opens, steps),
        Err(Memory) => {
            let_go(here, opens);
            Err(Memory)
        }
    }
}

impl Reader {
    fn new(alloc: Global) -> Reader
        ensures { byte_machine result ≡ start }
    {
        Reader {
            lexer: Lexer::Ready,
            behind_join: false,
            spot: Spot::Reading(Body::Block(Paragraphs::new(alloc)), Vec::new(alloc)),
        }
    }

    // The state after a byte, or None where no tree within the limits goes on so.
    fn step<L: Ledger>(
        self,
        labels: &Labels,
        byte: u8,
        steps: &mut Steps<L>,
    ) -> Result<Option<Reader>, Memory>
        ensures next { IfOk result (λ next. IsReader next (step keep (byte_machine self) byte)) }
        ensures counted { IfOk result (ReaderRose steps.old steps.new (state_nodes (state_of self.spot))) }
        ensures bounded { steps.new + left reader_credit result ≤ steps.old + reader_credit self + 1 }
        ensures rises { steps.old ≤ steps.new }
    {
        let Reader {
            lexer,
            behind_join,
            spot,
        } = self;
        match lexer.step(labels.alloc, byte) {
            Ok(lexed) => behind_lexed(labels, behind_join, spot, lexed, steps),
            Err(Memory) => {
                spot.let_go();
                Err(Memory)
            }
        }
    }

    // The state after the first byte.
    fn first<L: Ledger>(
        self,
        labels: &Labels,
        rest: &[u8],
        steps: &mut Steps<L>,
    ) -> Result<Option<Advance>, Memory>
        requires { 0 < length rest.now }
        ensures next { IfOk result (λ next. IsAdvance next (byte_machine self) rest.now) }
        ensures counted { IfOk result (AdvanceRose steps.old steps.new (state_nodes (state_of self.spot))) }
        ensures paid { IfOk result (AdvancePaid steps.old steps.new (reader_credit self)) }
        ensures bounded { steps.new ≤ steps.old + reader_credit self + 2 }
        ensures rises { steps.old ≤ steps.new }
    {
        match self.step(labels, rest[0], steps)? {
            None => Ok(None),
            Some(reader) => Ok(Some(Advance { reader, taken: 1 })),
        }
    }

    // The state after what of the front is taken at once, or else after the first byte.
    #[inline(always)]
    fn advance<L: Ledger>(
        self,
        labels: &mut Labels,
        rest: &[u8],
        steps: &mut Steps<L>,
    ) -> Result<Option<Advance>, Memory>
        requires { 0 < length rest.now }
        ensures next { IfOk result (λ next. IsAdvance next (byte_machine self) rest.now) }
        ensures counted { IfOk result (AdvanceRose steps.old steps.new (state_nodes (state_of self.spot))) }
        ensures paid { IfOk result (AdvancePaid steps.old steps.new (reader_credit self)) }
        ensures bounded { steps.new ≤ steps.old + reader_credit self + 2 }
        ensures rises { steps.old ≤ steps.new }
    {
        let Reader {
            lexer,
            behind_join,
            spot,
        } = self;
        match (lexer, spot) {
            (Lexer::Ready, Spot::Reading(here, opens)) => {
                advance_between(labels, behind_join, rest, here, opens, steps)
            }
            (lexer, spot) => {
                let reader = Reader {
                    lexer,
                    behind_join,
                    spot,
                };
                reader.first(labels, rest, steps)
            }
        }
    }

    // The tree, or None where the bytes so far spell none within the limits.
    fn finish<L: Ledger>(
        self,
        labels: &Labels,
        steps: &mut Steps<L>,
    ) -> Result<Option<Tree>, Memory>
        ensures found { IfOk result (λ found. IsTree found (byte_machine self)) }
        ensures counted { IfOk result (λ found.
            IfSome found (λ t. steps.new + state_nodes (state_of self.spot) ≤ steps.old + nodes_of t)) }
        ensures bounded { steps.new ≤ steps.old + reader_credit self + 1 }
        ensures rises { steps.old ≤ steps.new }
    {
        let Reader {
            lexer,
            behind_join: _,
            spot,
        } = self;
        match lexer {
            Lexer::Ready => spot.finish(labels, steps),
            _ => {
                spot.let_go();
                Ok(None)
            }
        }
    }
}

// The state after a short tag at the front, or its beginning, or else after the first byte.
fn advance_by_head<L: Ledger>(
    labels: &mut Labels,
    behind_join: bool,
    rest: &[u8],
    here: Body,
    opens: Vec<OpenTag>,
    steps: &mut Steps<L>,
) -> Result<Option<Advance>, Memory>
    requires { 0 < length rest.now }
    ensures next { IfOk result (λ next.
        IsAdvance next (reader_between_words behind_join (content_of here) (opens_of opens.items)) rest.now) }
    ensures counted { IfOk result
        (AdvanceRose steps.old steps.new (state_nodes (reading (content_of here) (opens_of opens.items)))) }
    ensures paid { IfOk result
        (AdvancePaid steps.old steps.new (state_credit (reading (content_of here) (opens_of opens.items)))) }
    ensures bounded { steps.new ≤ steps.old + state_credit (reading (content_of here) (opens_of opens.items)) + 2 }
    ensures rises { steps.old ≤ steps.new }
{
    match head_front(labels, rest) {
        Ok(Some(found)) => with_tag(labels, rest, found, here, opens, steps),
        Ok(None) => {
            let reader = Reader {
                lexer: Lexer::Ready,
                behind_join,
                spot: Spot::Reading(here, opens),
            };
            reader.first(labels, rest, steps)
        }
        Err(Memory) => {
            let_go(here, opens);
            Err(Memory)
        }
    }
}

// The state after words, white or the beginning of a short tag at the front, or else after the first byte.
#[inline(always)]
fn advance_between<L: Ledger>(
    labels: &mut Labels,
    behind_join: bool,
    rest: &[u8],
    here: Body,
    opens: Vec<OpenTag>,
    steps: &mut Steps<L>,
) -> Result<Option<Advance>, Memory>
    requires { 0 < length rest.now }
    ensures next { IfOk result (λ next.
        IsAdvance next (reader_between_words behind_join (content_of here) (opens_of opens.items)) rest.now) }
    ensures counted { IfOk result
        (AdvanceRose steps.old steps.new (state_nodes (reading (content_of here) (opens_of opens.items)))) }
    ensures paid { IfOk result
        (AdvancePaid steps.old steps.new (state_credit (reading (content_of here) (opens_of opens.items)))) }
    ensures bounded { steps.new ≤ steps.old + state_credit (reading (content_of here) (opens_of opens.items)) + 2 }
    ensures rises { steps.old ≤ steps.new }
{
    if !behind_join {
        let (taken, white) = white_front(rest);
        if taken > 0 {
            return with_white(rest, taken, white, here, opens);
        }
    }
    if rest[0] != b'<' {
        let words = words_len(rest);
        if words > 0 {
            return with_words(labels, rest, words, here, opens, steps);
        }
    }
    advance_by_head(labels, behind_join, rest, here, opens, steps)
}

// The tree that the bytes spell, or None where they spell none within the limits.
fn read_all<L: Ledger>(
    labels: &mut Labels,
    bytes: &[u8],
    steps: &mut Steps<L>,
) -> Result<Option<Tree>, Memory>
    ensures found { IfOk result (λ found. IsTreeRead found bytes.now) }
    ensures counted { IfOk result (λ found. IfSome found (λ t. steps.new ≤ steps.old + nodes_of t)) }
    ensures bounded { steps.new ≤ steps.old + length bytes.now + 1 }
    ensures rises { steps.old ≤ steps.new }
{
    let mut reader = Reader::new(labels.alloc);
    let mut rest = bytes;
    'bytes: while !rest.is_empty() {
        match reader.advance(labels, rest, steps)? {
            None => return Ok(None),
            Some(advance) => {
                reader = advance.reader;
                rest = &rest[advance.taken..];
            }
        }
    }
    reader.finish(labels, steps)
}

// The tree that the bytes spell, as `read_all` has it, with labels that begin with none of a tag.
fn read_anew<L: Ledger>(
    alloc: Global,
    bytes: &[u8],
    steps: &mut Steps<L>,
) -> Result<Option<Tree>, Memory>
    ensures found { IfOk result (λ found. IsTreeRead found bytes.now) }
    ensures counted { IfOk result (λ found. IfSome found (λ t. steps.new ≤ steps.old + nodes_of t)) }
    ensures bounded { steps.new ≤ steps.old + length bytes.now + 1 }
    ensures rises { steps.old ≤ steps.new }
{
    let mut labels = Labels::new(alloc)?;
    read_all(&mut labels, bytes, steps)
}

/// The tree that the bytes spell. Whatever it returns, the steps rise by at most one more than the bytes. Where it
/// returns a tree, they rise by at most its nodes that aren't leaves.
///
/// A fault other than `Memory` is returned exactly where the bytes spell no tree within the limits. It is the one that
/// the table of faults gives (`IsTmFault` of `tx_tm_form`). It is found in one or two passes more, which make no tree.
pub fn read<L: Ledger>(alloc: Global, bytes: &[u8], steps: &mut Steps<L>) -> Result<Tree, ReadFault>
    ensures found { IfOk result (λ t. Spells bytes.now t) }
    ensures within { IfOk result IsWithinLimits }
    ensures refused { IfErr result (λ fault. fault ≢ ReadFault.Memory → IsTmFault bytes.now fault) }
    ensures counted { IfOk result (λ t. steps.new ≤ steps.old + nodes_of t) }
    ensures bounded { steps.new ≤ steps.old + length bytes.now + 1 }
    ensures rises { steps.old ≤ steps.new }
{
    match read_anew(alloc, bytes, steps) {
        Ok(Some(tree)) => {
            let _size = tree.size();
            Ok(tree)
        }
        Ok(None) => Err(fault_of(alloc, bytes)),
        Err(Memory) => Err(ReadFault::Memory),
    }
}
