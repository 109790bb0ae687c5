// A word more.
ghost use Rattle.std.specs.Prelude.{◌≡◌, ◌≤◌, ◌+◌, ◌∷◌, ◌++◌, [], true, false};
ghost use Rattle.std.specs.Prelude.{◌==◌, ◌||◌, if◌then◌else◌, IfOk, Some, None};
ghost use Rattle.tx_tree.specs.Texts.{is_name_byte};
ghost use Rattle.tx_tree.specs.WideTree.{leaf};
ghost use Rattle.tx_tm_form.specs.Bytes.{escape_of, is_digit};
ghost use Rattle.tx_tm_form.specs.Tokens.{escape, plain};
ghost use Rattle.tx_tm_form.specs.Parts.{raw_data_label};
ghost use Rattle.tx_tm_form.specs.Growing.{place_of};
ghost use Rattle.tx_tm_form.specs.Machine.{go, with_node, reading, naming, counting, open_tag, in_tag, next_argument};
ghost use Rattle.tx_tm_form.specs.Machine.{last_argument, next_block, last_block, begun, by_escape};
ghost use Rattle.tx_tm_form.specs.Machine.{name_byte, name_end, feed_reading, feed_naming, feed_counting, feed};
ghost use Rattle.tx_tm_words.specs.Words.{token_of, IsGoodWord};
ghost use Rattle.tx_tm_content.specs.Blocks.{content_of};
ghost use Rattle.tx_tm_read.specs.Nodes.{state_nodes};
ghost use Rattle.tx_tm_read.specs.Spots.{opens_of, state_of, IsState, StepsRose};
ghost use Rattle.tx_tm_content.specs.ContentCredits.{left};
ghost use Rattle.tx_tm_read.specs.Credits.{state_credit, token_credit, spot_credit};

use crate::tags::{Digits, NameFront, OpenTag, Spot, let_go};
use crate::walk::{bar_in, close_in, in_place, last_in, next_in, put_node, put_text, put_white};
use std::alloc::Global;
use std::sync::ledger::Ledger;
use tx_base::{Memory, Steps};
use tx_tm_content::{Body, Labels, Siblings, raw_data_label};
use tx_tm_form::{Escaped, TagForm, TagPlace, escape_of, white_of};
use tx_tm_words::{TmWord, header_place, is_digit};
use tx_tree::{Label, Tree, is_name_byte};

// In a tag that begins.
fn open_tag(
    alloc: Global,
    place: Option<TagPlace>,
    label: Label,
    here: Body,
    opens: Vec<OpenTag>,
) -> Result<Option<Spot>, Memory>
    ensures next { IfOk result (λ next.
        IsState next (in_tag place (open_tag (content_of here) label []) (opens_of opens.items))) }
    ensures counted { IfOk result (StepsRose 0 0 (state_nodes (reading (content_of here) (opens_of opens.items)))) }
    ensures bounded { left spot_credit result ≤ state_credit (reading (content_of here) (opens_of opens.items)) + 1 }
{
    let tag = OpenTag {
        before: here,
        label,
        children: Siblings::new(alloc),
    };
    in_place(alloc, place, tag, opens)
}

// The state after a block, where a middle or closing tag of this label goes on at the place.
fn go_on<L: Ledger>(
    labels: &Labels,
    label: Label,
    place: Option<TagPlace>,
    here: Body,
    mut opens: Vec<OpenTag>,
    steps: &mut Steps<L>,
) -> Result<Option<Spot>, Memory>
    ensures next { IfOk result (λ next.
        IsState next (next_block (place_of (content_of here)) label place (content_of here) (opens_of opens.items))) }
    ensures counted { IfOk result
        (StepsRose steps.old steps.new (state_nodes (reading (content_of here) (opens_of opens.items)))) }
    ensures bounded { steps.new + left spot_credit result
        ≤ steps.old + state_credit (reading (content_of here) (opens_of opens.items)) + 1 }
    ensures rises { steps.old ≤ steps.new }
{
    match opens.pop() {
        None => Ok(None),
        Some(tag) => next_in(labels, &label, place, here, tag, opens, steps),
    }
}

// The state after a block, where there is a closing tag of this label without arguments.
fn end_tag<L: Ledger>(
    labels: &Labels,
    label: Label,
    here: Body,
    mut opens: Vec<OpenTag>,
    steps: &mut Steps<L>,
) -> Result<Option<Spot>, Memory>
    ensures next { IfOk result (λ next.
        IsState next (last_block (place_of (content_of here)) label (content_of here) (opens_of opens.items))) }
    ensures counted { IfOk result
        (StepsRose steps.old steps.new (state_nodes (reading (content_of here) (opens_of opens.items)))) }
    ensures bounded { steps.new + left spot_credit result
        ≤ steps.old + state_credit (reading (content_of here) (opens_of opens.items)) + 2 }
    ensures rises { steps.old ≤ steps.new }
{
    match opens.pop() {
        None => Ok(None),
        Some(tag) => last_in(labels, &label, here, tag, opens, steps),
    }
}

// The state after the beginning of a tag.
pub(crate) fn begin<L: Ledger>(
    labels: &Labels,
    form: TagForm,
    more: bool,
    label: Label,
    here: Body,
    opens: Vec<OpenTag>,
    steps: &mut Steps<L>,
) -> Result<Option<Spot>, Memory>
    ensures next { IfOk result (λ next. IsState next (begun form more label (content_of here) (opens_of opens.items))) }
    ensures counted { IfOk result
        (StepsRose steps.old steps.new (state_nodes (reading (content_of here) (opens_of opens.items)))) }
    ensures bounded { steps.new + left spot_credit result
        ≤ steps.old + state_credit (reading (content_of here) (opens_of opens.items)) + 2 }
    ensures rises { steps.old ≤ steps.new }
{
    match form {
        TagForm::Short => {
            if more {
                open_tag(labels.alloc, Some(TagPlace::InShort), label, here, opens)
            } else {
                put_node(labels, label, Vec::new(labels.alloc), here, opens, steps)
            }
        }
        TagForm::Long => open_tag(labels.alloc, header_place(more), label, here, opens),
        TagForm::Middle => go_on(labels, label, header_place(more), here, opens, steps),
        TagForm::Closing => {
            if more {
                go_on(labels, label, Some(TagPlace::InClosing), here, opens, steps)
            } else {
                end_tag(labels, label, here, opens, steps)
            }
        }
    }
}

// The state after `|`.
fn take_bar<L: Ledger>(
    labels: &Labels,
    here: Body,
    mut opens: Vec<OpenTag>,
    steps: &mut Steps<L>,
) -> Result<Option<Spot>, Memory>
    ensures next { IfOk result (λ next.
        IsState next (next_argument (place_of (content_of here)) (content_of here) (opens_of opens.items))) }
    ensures counted { IfOk result
        (StepsRose steps.old steps.new (state_nodes (reading (content_of here) (opens_of opens.items)))) }
    ensures bounded { steps.new + left spot_credit result
        ≤ steps.old + state_credit (reading (content_of here) (opens_of opens.items)) }
    ensures rises { steps.old ≤ steps.new }
{
    match here {
        Body::Argument(place, line) => match opens.pop() {
            None => Ok(None),
            Some(tag) => bar_in(labels, place, line, tag, opens, steps),
        },
        Body::Block(_) | Body::Tags(_) => Ok(None),
    }
}

// The state after `>`.
fn take_close<L: Ledger>(
    labels: &Labels,
    here: Body,
    mut opens: Vec<OpenTag>,
    steps: &mut Steps<L>,
) -> Result<Option<Spot>, Memory>
    ensures next { IfOk result (λ next.
        IsState next (last_argument (place_of (content_of here)) (content_of here) (opens_of opens.items))) }
    ensures counted { IfOk result
        (StepsRose steps.old steps.new (state_nodes (reading (content_of here) (opens_of opens.items)))) }
    ensures bounded { steps.new + left spot_credit result
        ≤ steps.old + state_credit (reading (content_of here) (opens_of opens.items)) + 1 }
    ensures rises { steps.old ≤ steps.new }
{
    match here {
        Body::Argument(place, line) => match opens.pop() {
            None => Ok(None),
            Some(tag) => close_in(labels, place, line, tag, opens, steps),
        },
        Body::Block(_) | Body::Tags(_) => Ok(None),
    }
}

// The state after a backslash and a byte.
fn take_escape<L: Ledger>(
    labels: &Labels,
    byte: u8,
    here: Body,
    opens: Vec<OpenTag>,
    steps: &mut Steps<L>,
) -> Result<Option<Spot>, Memory>
    ensures next { IfOk result (λ next.
        IsState next (by_escape (escape_of byte) byte (content_of here) (opens_of opens.items))) }
    ensures counted { IfOk result
        (StepsRose steps.old steps.new (state_nodes (reading (content_of here) (opens_of opens.items)))) }
    ensures bounded { steps.new + left spot_credit result
        ≤ steps.old + state_credit (reading (content_of here) (opens_of opens.items)) }
    ensures rises { steps.old ≤ steps.new }
{
    match escape_of(byte) {
        Some(Escaped::Mark) => put_text(labels, &[], here, opens, steps),
        Some(Escaped::Byte(meant)) => put_text(labels, &[meant], here, opens, steps),
        None => {
            if byte == b'<' {
                Ok(Some(Spot::Naming(NameFront::new(labels.alloc), here, opens)))
            } else {
                Ok(None)
            }
        }
    }
}

// A word more between parts of the content.
fn take_part<L: Ledger>(
    labels: &Labels,
    word: TmWord,
    here: Body,
    opens: Vec<OpenTag>,
    steps: &mut Steps<L>,
) -> Result<Option<Spot>, Memory>
    requires { IsGoodWord word }
    ensures next { IfOk result (λ next.
        IsState next (feed_reading (content_of here) (opens_of opens.items) (token_of word))) }
    ensures counted { IfOk result
        (StepsRose steps.old steps.new (state_nodes (reading (content_of here) (opens_of opens.items)))) }
    ensures bounded { steps.new + left spot_credit result
        ≤ steps.old + state_credit (reading (content_of here) (opens_of opens.items)) + token_credit (token_of word) }
    ensures rises { steps.old ≤ steps.new }
{
    match word {
        TmWord::White(byte) => put_white(white_of(byte), here, opens),
        TmWord::Join(_) => Ok(None),
        TmWord::Plain(byte) => put_text(labels, &[byte], here, opens, steps),
        TmWord::Escape(byte) => take_escape(labels, byte, here, opens, steps),
        TmWord::Raw => Ok(Some(Spot::Counting(Digits::new(labels.alloc), here, opens))),
        TmWord::Head(form, label, more) => begin(labels, form, more, label, here, opens, steps),
        TmWord::Bar => take_bar(labels, here, opens, steps),
        TmWord::Close => take_close(labels, here, opens, steps),
    }
}

// A byte more of a symbol's name.
fn name_on(
    byte: u8,
    name: NameFront,
    here: Body,
    opens: Vec<OpenTag>,
) -> Result<Option<Spot>, Memory>
    requires { is_name_byte byte ≡ true }
    ensures { IfOk result (λ next. IsState next (name_byte true name byte (content_of here) (opens_of opens.items))) }
{
    match name.with(byte)? {
        None => Ok(None),
        Some(name) => Ok(Some(Spot::Naming(name, here, opens))),
    }
}

// A byte that stands for itself more, which may be none of a name.
fn plain_on(
    byte: u8,
    name: NameFront,
    here: Body,
    opens: Vec<OpenTag>,
) -> Result<Option<Spot>, Memory>
    ensures { IfOk result (λ next.
        IsState next (name_byte (is_name_byte byte) name byte (content_of here) (opens_of opens.items))) }
{
    if !is_name_byte(byte) {
        return Ok(None);
    }
    name_on(byte, name, here, opens)
}

// At the end of a symbol's name.
fn name_over<L: Ledger>(
    labels: &Labels,
    name: NameFront,
    here: Body,
    opens: Vec<OpenTag>,
    steps: &mut Steps<L>,
) -> Result<Option<Spot>, Memory>
    ensures next { IfOk result (λ next. IsState next (name_end name (content_of here) (opens_of opens.items))) }
    ensures counted { IfOk result
        (StepsRose steps.old steps.new (state_nodes (reading (content_of here) (opens_of opens.items)))) }
    ensures bounded { steps.new + left spot_credit result
        ≤ steps.old + state_credit (reading (content_of here) (opens_of opens.items)) }
    ensures rises { steps.old ≤ steps.new }
{
    if name.is_empty() {
        let_go(here, opens);
        return Ok(None);
    }
    match name.symbol(labels.alloc) {
        Ok(symbol) => put_text(labels, &symbol, here, opens, steps),
        Err(Memory) => {
            let_go(here, opens);
            Err(Memory)
        }
    }
}

// A word more in the name of a symbol.
fn take_name<L: Ledger>(
    labels: &Labels,
    word: &TmWord,
    name: NameFront,
    here: Body,
    opens: Vec<OpenTag>,
    steps: &mut Steps<L>,
) -> Result<Option<Spot>, Memory>
    ensures next { IfOk result (λ next.
        IsState next (feed_naming name (content_of here) (opens_of opens.items) (token_of word.now))) }
    ensures counted { IfOk result
        (StepsRose steps.old steps.new (state_nodes (reading (content_of here) (opens_of opens.items)))) }
    ensures bounded { steps.new + left spot_credit result
        ≤ steps.old + state_credit (reading (content_of here) (opens_of opens.items)) }
    ensures rises { steps.old ≤ steps.new }
{
    match word {
        TmWord::Plain(byte) => plain_on(*byte, name, here, opens),
        TmWord::Escape(b'>') => name_over(labels, name, here, opens, steps),
        TmWord::Escape(b'|') => name_on(b'|', name, here, opens),
        TmWord::Escape(b'\\') => name_on(b'\\', name, here, opens),
        _ => Ok(None),
    }
}

// A byte more of raw data.
fn digit_on(
    byte: u8,
    digits: Digits,
    here: Body,
    opens: Vec<OpenTag>,
) -> Result<Option<Spot>, Memory>
    ensures { IfOk result (λ next.
        IsState next (go (is_digit byte) (counting (digits ++ byte ∷ []) (content_of here) (opens_of opens.items)))) }
{
    if !is_digit(byte) {
        return Ok(None);
    }
    match digits.with(byte)? {
        None => Ok(None),
        Some(digits) => Ok(Some(Spot::Counting(digits, here, opens))),
    }
}

// The label of raw data, and its one child.
fn raw_parts(alloc: Global, digits: Digits) -> Result<(Label, Vec<Tree>), Memory>
    ensures label { IfOk result (λ parts. parts.0 ≡ raw_data_label) }
    ensures children { IfOk result (λ parts. parts.1.items ≡ leaf digits ∷ []) }
{
    let leaf = digits.leaf(alloc)?;
    let children = vec![in alloc; leaf]?;
    Ok((raw_data_label(alloc)?, children))
}

// At the end of raw data.
fn digits_over<L: Ledger>(
    labels: &Labels,
    digits: Digits,
    here: Body,
    opens: Vec<OpenTag>,
    steps: &mut Steps<L>,
) -> Result<Option<Spot>, Memory>
    ensures next { IfOk result (λ next.
        IsState next (with_node raw_data_label (leaf digits ∷ []) (content_of here) (opens_of opens.items))) }
    ensures counted { IfOk result
        (StepsRose steps.old steps.new (state_nodes (reading (content_of here) (opens_of opens.items)))) }
    ensures bounded { steps.new + left spot_credit result
        ≤ steps.old + state_credit (reading (content_of here) (opens_of opens.items)) + 2 }
    ensures rises { steps.old ≤ steps.new }
{
    let (label, children) = raw_parts(labels.alloc, digits)?;
    put_node(labels, label, children, here, opens, steps)
}

// A word more in raw data.
fn take_digit<L: Ledger>(
    labels: &Labels,
    word: &TmWord,
    digits: Digits,
    here: Body,
    opens: Vec<OpenTag>,
    steps: &mut Steps<L>,
) -> Result<Option<Spot>, Memory>
    ensures next { IfOk result (λ next.
        IsState next (feed_counting digits (content_of here) (opens_of opens.items) (token_of word.now))) }
    ensures counted { IfOk result
        (StepsRose steps.old steps.new (state_nodes (reading (content_of here) (opens_of opens.items)))) }
    ensures bounded { steps.new + left spot_credit result
        ≤ steps.old + state_credit (reading (content_of here) (opens_of opens.items)) + 2 }
    ensures rises { steps.old ≤ steps.new }
{
    match word {
        TmWord::Plain(byte) => digit_on(*byte, digits, here, opens),
        TmWord::Close => digits_over(labels, digits, here, opens, steps),
        _ => Ok(None),
    }
}

impl Spot {
    /// The state after the word, or None where no tree within the limits goes on so.
    #[tactic(auto, unfolding(tx_tm_form::specs::Machine::feed))]
    pub(crate) fn take<L: Ledger>(
        self,
        labels: &Labels,
        word: TmWord,
        steps: &mut Steps<L>,
    ) -> Result<Option<Spot>, Memory>
        requires { IsGoodWord word }
        ensures next { IfOk result (λ next. IsState next (feed (state_of self) (token_of word))) }
        ensures counted { IfOk result (StepsRose steps.old steps.new (state_nodes (state_of self))) }
        ensures bounded { steps.new + left spot_credit result
            ≤ steps.old + state_credit (state_of self) + token_credit (token_of word) }
        ensures rises { steps.old ≤ steps.new }
    {
        match self {
            Spot::Reading(here, opens) => take_part(labels, word, here, opens, steps),
            Spot::Naming(name, here, opens) => take_name(labels, &word, name, here, opens, steps),
            Spot::Counting(digits, here, opens) => {
                take_digit(labels, &word, digits, here, opens, steps)
            }
        }
    }
}
