// The measures of the tree that bytes spell, and the limit that it passes.
ghost use Rattle.std.specs.Prelude.{◌≡◌, ◌+◌, ◌∷◌, [], ◌==◌, true, false, length};
ghost use Rattle.std.specs.Prelude.{reverse, if◌then◌else◌, IfOk, Some, None};
ghost use Rattle.tx_tree.specs.WideTree.{WideTree};
ghost use Rattle.tx_tree.specs.Limits.{IsWithinLimits};
ghost use Rattle.tx_tree.specs.ReadFaults.{IsPassed};
ghost use Rattle.tx_tm_form.specs.Bytes.{escape_of, escaped_bytes};
ghost use Rattle.tx_tm_form.specs.Parts.{same_bytes, collection_label};
ghost use Rattle.tx_tm_form.specs.Forms.{Spells};
ghost use Rattle.tx_tm_form.specs.Machine.{ready, at, step};
ghost use Rattle.tx_tm_form.specs.Measures.{sums_of, gauge_between, in_open, closed_open, bar_gauge, close_gauge};
ghost use Rattle.tx_tm_form.specs.Measures.{next_gauge, last_gauge, begun_gauge, escape_gauge, part_gauge};
ghost use Rattle.tx_tm_form.specs.Measures.{symbol_gauge, digit_gauge, feed_gauge, keep_gauge, start_gauge, put_sums};
ghost use Rattle.tx_tm_words.specs.Words.{token_of};
ghost use Rattle.tx_tm_faults.specs.Gauges.{open_of, opens_of, gauge_of, meter_of, IsMeter};
ghost use Rattle.tx_tm_faults.specs.Bounds.{IsSmallCount, most_of, most_in_content, most_in_open, most_in, HasRoom};

use crate::opens::{OpenGauge, kept};
use crate::sums::{
    body_sums, empty_file, leaf_sums, line_sums, long_sums, no_sums, node_sums, opening_sums,
    put_sums,
};
use std::alloc::Global;
use tx_base::Memory;
use tx_tm_form::{
    ContentSums, Escaped, PartSums, Sums, TagForm, TagPlace, Within, escape_of, white_of,
};
use tx_tm_words::{Lexed, Lexer, TmWord, header_place, is_collection, is_dropped};
use tx_tree::{Label, MOST_ARITY, MOST_DEPTH, MOST_SIZE, MOST_TEXT, Which};

/// What was measured so far: of the innermost content, and of the open tags round it, the innermost last.
#[derive(Drop)]
pub(crate) struct Gauge {
    within: Within,
    here: ContentSums,
    opens: Vec<OpenGauge>,
}

fn gauge_between(here: ContentSums, opens: Vec<OpenGauge>) -> Gauge
    ensures { gauge_of result ≡ gauge_between here (opens_of opens.items) }
{
    Gauge {
        within: Within::Parts,
        here,
        opens,
    }
}

// In an argument or a block of the tag.
fn in_open(
    inner: Option<TagPlace>,
    tag: OpenGauge,
    mut opens: Vec<OpenGauge>,
) -> Result<Gauge, Memory>
    ensures { IfOk result (λ next. gauge_of next ≡ in_open inner (open_of tag) (opens_of opens.items)) }
{
    let here = opening_sums(inner, tag.collects, tag.children);
    opens.push(tag)?;
    Ok(gauge_between(here, opens))
}

// The state after the tag.
fn closed_open(tag: OpenGauge, opens: Vec<OpenGauge>) -> Gauge
    requires { IsSmallCount (most_in_open (open_of tag) + 1) }
    ensures { gauge_of result ≡ closed_open (open_of tag) (opens_of opens.items) }
{
    let node = PartSums::Tag(false, node_sums(tag.children));
    gauge_between(put_sums(tag.before.sums(), node), opens)
}

fn bar_gauge(here: ContentSums, mut opens: Vec<OpenGauge>) -> Result<Gauge, Memory>
    requires { HasRoom here (opens_of opens.items) }
    ensures { IfOk result (λ next. gauge_of next ≡ bar_gauge here (opens_of opens.items)) }
{
    match here {
        ContentSums::Argument(place, line) => match opens.pop() {
            None => Ok(gauge_between(here, opens)),
            Some(tag) => in_open(Some(place), tag.with_child(line_sums(line)), opens),
        },
        ContentSums::Block(_) | ContentSums::Tags(_, _) => Ok(gauge_between(here, opens)),
    }
}

fn close_gauge(here: ContentSums, mut opens: Vec<OpenGauge>) -> Result<Gauge, Memory>
    requires { HasRoom here (opens_of opens.items) }
    ensures { IfOk result (λ next. gauge_of next ≡ close_gauge here (opens_of opens.items)) }
{
    match here {
        ContentSums::Argument(place, line) => match opens.pop() {
            None => Ok(gauge_between(here, opens)),
            Some(tag) => {
                let tag = tag.with_child(line_sums(line));
                match place {
                    TagPlace::InHeader => in_open(None, tag, opens),
                    TagPlace::InShort | TagPlace::InClosing => Ok(closed_open(tag, opens)),
                }
            }
        },
        ContentSums::Block(_) | ContentSums::Tags(_, _) => Ok(gauge_between(here, opens)),
    }
}

fn next_gauge(
    inner: Option<TagPlace>,
    here: ContentSums,
    mut opens: Vec<OpenGauge>,
) -> Result<Gauge, Memory>
    requires { HasRoom here (opens_of opens.items) }
    ensures { IfOk result (λ next. gauge_of next ≡ next_gauge inner here (opens_of opens.items)) }
{
    match opens.pop() {
        None => Ok(gauge_between(here, opens)),
        Some(tag) => in_open(inner, tag.with_child(body_sums(here)), opens),
    }
}

fn last_gauge(here: ContentSums, mut opens: Vec<OpenGauge>) -> Gauge
    requires { HasRoom here (opens_of opens.items) }
    ensures { gauge_of result ≡ last_gauge here (opens_of opens.items) }
{
    match opens.pop() {
        None => gauge_between(here, opens),
        Some(tag) => {
            let part = long_sums(tag.children, here);
            gauge_between(put_sums(tag.before.sums(), part), opens)
        }
    }
}

// In a tag that begins.
fn new_open(
    alloc: Global,
    inner: Option<TagPlace>,
    label: &Label,
    here: ContentSums,
    opens: Vec<OpenGauge>,
) -> Result<Gauge, Memory>
    ensures { IfOk result (λ next. gauge_of next
        ≡ in_open inner
        (record { before = here; collects = same_bytes label.now collection_label; children = sums_of [] })
        (opens_of opens.items)) }
{
    let tag = OpenGauge {
        before: kept(alloc, here)?,
        collects: is_collection(label),
        children: no_sums(),
    };
    in_open(inner, tag, opens)
}

// The state after the beginning of a tag.
fn begun_gauge(
    alloc: Global,
    form: TagForm,
    more: bool,
    label: &Label,
    here: ContentSums,
    opens: Vec<OpenGauge>,
) -> Result<Gauge, Memory>
    requires { HasRoom here (opens_of opens.items) }
    ensures { IfOk result (λ next. gauge_of next ≡ begun_gauge form more label.now here (opens_of opens.items)) }
{
    match form {
        TagForm::Short => {
            if more {
                return new_open(alloc, Some(TagPlace::InShort), label, here, opens);
            }
            let node = PartSums::Tag(false, node_sums(no_sums()));
            Ok(gauge_between(put_sums(here, node), opens))
        }
        TagForm::Long => new_open(alloc, header_place(more), label, here, opens),
        TagForm::Middle => next_gauge(header_place(more), here, opens),
        TagForm::Closing => {
            if more {
                next_gauge(Some(TagPlace::InClosing), here, opens)
            } else {
                Ok(last_gauge(here, opens))
            }
        }
    }
}

// The state after so many bytes of a text.
fn text_gauge(length: u64, here: ContentSums, opens: Vec<OpenGauge>) -> Gauge
    requires { IsSmallCount (most_in_content here + length) }
    ensures { gauge_of result ≡ gauge_between (put_sums here (PartSums.Text length)) (opens_of opens.items) }
{
    gauge_between(put_sums(here, PartSums::Text(length)), opens)
}

// The state after a backslash and a byte.
fn escape_gauge(byte: u8, here: ContentSums, opens: Vec<OpenGauge>) -> Gauge
    requires { IsSmallCount (most_in_content here + 1) }
    ensures { gauge_of result ≡ escape_gauge (escape_of byte) here (opens_of opens.items) }
{
    match escape_of(byte) {
        Some(Escaped::Mark) => text_gauge(0, here, opens),
        Some(Escaped::Byte(_)) => text_gauge(1, here, opens),
        None => Gauge {
            within: Within::Symbol(0),
            here,
            opens,
        },
    }
}

// A word more between parts.
fn part_gauge(
    alloc: Global,
    here: ContentSums,
    opens: Vec<OpenGauge>,
    word: &TmWord,
) -> Result<Gauge, Memory>
    requires { HasRoom here (opens_of opens.items) }
    ensures { IfOk result (λ next. gauge_of next ≡ part_gauge here (opens_of opens.items) (token_of word.now)) }
{
    match word {
        TmWord::White(byte) => {
            let gap = PartSums::Gap(white_of(*byte));
            Ok(gauge_between(put_sums(here, gap), opens))
        }
        TmWord::Join(_) => Ok(gauge_between(here, opens)),
        TmWord::Plain(_) => Ok(text_gauge(1, here, opens)),
        TmWord::Escape(byte) => Ok(escape_gauge(*byte, here, opens)),
        TmWord::Raw => Ok(Gauge {
            within: Within::Digits(0),
            here,
            opens,
        }),
        TmWord::Head(form, label, more) => begun_gauge(alloc, *form, *more, label, here, opens),
        TmWord::Bar => bar_gauge(here, opens),
        TmWord::Close => close_gauge(here, opens),
    }
}

// The state after a word more in the name of a symbol, which is after so many bytes of it.
fn symbol_gauge(length: u64, here: ContentSums, opens: Vec<OpenGauge>, word: &TmWord) -> Gauge
    requires { IsSmallCount (length + most_in_content here + 2) }
    ensures { gauge_of result ≡ symbol_gauge length here (opens_of opens.items) (token_of word.now) }
{
    match word {
        TmWord::Escape(b'>') => text_gauge(length + 2, here, opens),
        _ => Gauge {
            within: Within::Symbol(length + 1),
            here,
            opens,
        },
    }
}

// The state after a word more in raw data, which is after so many digits.
fn digit_gauge(length: u64, here: ContentSums, opens: Vec<OpenGauge>, word: &TmWord) -> Gauge
    requires { IsSmallCount (length + most_in_content here + 4) }
    ensures { gauge_of result ≡ digit_gauge length here (opens_of opens.items) (token_of word.now) }
{
    match word {
        TmWord::Close => {
            let node = PartSums::Tag(false, node_sums(leaf_sums(length)));
            gauge_between(put_sums(here, node), opens)
        }
        _ => Gauge {
            within: Within::Digits(length + 1),
            here,
            opens,
        },
    }
}

impl Gauge {
    // The state after the word.
    fn take(self, alloc: Global, word: &TmWord) -> Result<Gauge, Memory>
        requires { IsSmallCount (most_in (gauge_of self) + 4) }
        ensures { IfOk result (λ next. gauge_of next ≡ feed_gauge (gauge_of self) (token_of word.now)) }
    {
        match self.within {
            Within::Parts => part_gauge(alloc, self.here, self.opens, word),
            Within::Symbol(length) => { Ok(symbol_gauge(length, self.here, self.opens, word)) }
            Within::Digits(length) => Ok(digit_gauge(length, self.here, self.opens, word)),
        }
    }
}

/// What has been read, with measures in place of trees.
#[derive(Drop)]
pub(crate) struct Meter {
    lexer: Lexer,
    behind_join: bool,
    gauge: Gauge,
}

impl Meter {
    fn new(alloc: Global) -> Meter
        ensures { meter_of result ≡ start_gauge }
    {
        Meter {
            lexer: Lexer::Ready,
            behind_join: false,
            gauge: gauge_between(empty_file(), Vec::new(alloc)),
        }
    }

    // The state after a byte, or None where no word goes on so.
    fn step(self, alloc: Global, byte: u8) -> Result<Option<Meter>, Memory>
        requires { IsSmallCount (most_in (gauge_of self.gauge) + 4) }
        ensures { IfOk result (λ next. IsMeter next (step keep_gauge (meter_of self) byte)) }
    {
        let Meter {
            lexer,
            behind_join,
            gauge,
        } = self;
        match lexer.step(alloc, byte)? {
            None => Ok(None),
            Some(Lexed::Within(lexer)) => Ok(Some(Meter {
                lexer,
                behind_join,
                gauge,
            })),
            Some(Lexed::Done(word)) => {
                let dropped = is_dropped(behind_join, &word);
                let gauge = if dropped {
                    gauge
                } else {
                    gauge.take(alloc, &word)?
                };
                Ok(Some(Meter {
                    lexer: Lexer::Ready,
                    behind_join: dropped,
                    gauge,
                }))
            }
        }
    }
}

// The measures of the tree that the bytes spell.
fn measure(alloc: Global, bytes: &[u8]) -> Result<Sums, Memory>
    ensures { IfOk result (λ sums. (t : WideTree) → Spells bytes.now t → sums ≡ sums_of (t ∷ [])) }
{
    let mut meter = Meter::new(alloc);
    for byte in bytes {
        match meter.step(alloc, *byte)? {
            None => return Ok(no_sums()),
            Some(next) => meter = next,
        }
    }
    Ok(body_sums(meter.gauge.here))
}

// The first limit that is passed, and the number there, where one is.
fn first_passed(sums: Sums) -> (Which, u64)
    ensures { (t : WideTree) → sums ≡ sums_of (t ∷ []) → (IsWithinLimits t → ⊥) → IsPassed t result.0 result.1 }
{
    if sums.text > MOST_TEXT as u64 {
        (Which::Text, sums.text)
    } else if sums.arity > MOST_ARITY as u64 {
        (Which::Arity, sums.arity)
    } else if sums.depth > MOST_DEPTH as u64 {
        (Which::Depth, sums.depth)
    } else {
        (Which::Size, sums.size)
    }
}

/// The first limit that the tree passes that the bytes spell, and its number there.
pub(crate) fn limit(alloc: Global, bytes: &[u8]) -> Result<(Which, u64), Memory>
    ensures { IfOk result (λ passed.
        (t : WideTree) → Spells bytes.now t → (IsWithinLimits t → ⊥) → IsPassed t passed.0 passed.1) }
{
    let sums = measure(alloc, bytes)?;
    Ok(first_passed(sums))
}
