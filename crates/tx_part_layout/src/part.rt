// A part laid out.
ghost use Rattle.std.specs.Prelude.{◌≡◌, ◌+◌, ◌≤◌, ◌<◌, ◌^◌, ℕ, List, [], ◌∷◌, IfOk, OnOk, All, length, true, false};
ghost use Rattle.std.specs.Prelude.{if◌then◌else◌};
ghost use Rattle.std.specs.List.{IsDistinct};
ghost use Rattle.std.specs.Str.{bytes_eq};
ghost use Rattle.tx_tree.specs.WideTree.{size_of};
ghost use Rattle.tx_origin.specs.Values.{plain};
ghost use Rattle.tx_items.specs.Drawing.{paragraph};
ghost use Rattle.tx_items.specs.Narrow.{IsNarrow};
ghost use Rattle.tx_items.specs.Shows.{show, part_paragraphs};
ghost use Rattle.tx_view_form.specs.Views.{AreLines};
ghost use Rattle.tx_items.specs.declared.attributes.Attrs.{Attrs as OneAttrs};
ghost use Rattle.tx_part_layout.specs.declared.laid.PlacedPart.{PlacedPart as Placed};
ghost use Rattle.tx_part_layout.specs.LaidParts.{IsLaidPart, IsOfValue, laid_paths, is_reused, items_in};
ghost use Rattle.tx_part_layout.specs.Finding.{IsReused};
ghost use Rattle.tx_part_layout.specs.Laying.{given_back_by, IsNewSlot, IsSlotOf};

use crate::finding::reused;
use crate::laid::{LaidPart, PlacedPart};
use crate::line_list::LineList;
use crate::settings::{Frame, give_back};
use crate::slots::Slot;
use std::alloc::Global;
use std::rc::Rc;
use std::sync::ledger::Ledger;
use tx_base::{Memory, Steps};
use tx_items::{Attrs, ErrorAt, Paragraph, part_items};
use tx_layout::{Line, lines};
use tx_origin::Value;
use tx_view_form::weight_laws;
use tx_walk::Part;

/// The lines of paragraphs, in order. The steps rise by the number of items.
pub fn lines_of<L: Ledger>(
    alloc: Global,
    paragraphs: &[Paragraph],
    width: u32,
    steps: &mut Steps<L>,
) -> Result<Vec<Line>, Memory>
    requires least_width { 20 ≤ width }
    requires most_width { width ≤ 500 }
    requires few { All (λ p. length p.items < 2 ^ 32) paragraphs.now }
    requires narrow { All (λ p. All IsNarrow p.items) paragraphs.now }
    ensures lines { IfOk result (λ ls. AreLines width paragraphs.now ls.items) }
    ensures counted { OnOk result (steps.new ≡ steps.old + items_in paragraphs.now) }
    ensures rises { steps.old ≤ steps.new }
{
    let mut all = Vec::with_capacity(alloc, paragraphs.len())?;
    for paragraph in paragraphs {
        let mut own = lines(alloc, paragraph, width, steps)?;
        all.append(&mut own)?;
    }
    Ok(all)
}

/// How many items paragraphs have.
pub fn item_count(paragraphs: &[Paragraph]) -> u64
    requires few { items_in paragraphs.now < 2 ^ 63 }
    ensures { result ≡ items_in paragraphs.now }
{
    let mut count = 0;
    for paragraph in paragraphs {
        count += paragraph.items.all().len() as u64;
    }
    count
}

// The paragraph of a part that shows in a line without an item, where these are the attributes after it, and the
// `with`s round it.
fn blank_paragraphs(
    alloc: Global,
    after: &Attrs,
    frames: &[Frame],
) -> Result<Vec<Paragraph>, Memory>
    ensures { IfOk result (λ ps. ps.items ≡ paragraph [] (given_back_by frames.now after.now) ∷ []) }
{
    let mut end = after.copy()?;
    give_back(frames, &mut end)?;
    let paragraph = Paragraph::blank(alloc, &end)?;
    let all = vec![in alloc; paragraph]?;
    Ok(all)
}

// The paragraphs of a part, where these are its own. A blank part has one, with the attributes after the part, of which
// the `with`s have given back what they set.
fn ended_paragraphs(
    alloc: Global,
    blank: bool,
    own: Vec<Paragraph>,
    after: &Attrs,
    frames: &[Frame],
) -> Result<Vec<Paragraph>, Memory>
    ensures { IfOk result (λ ps. ps.items
        ≡ if blank then paragraph [] (given_back_by frames.now after.now) ∷ [] else own.items) }
{
    if blank {
        return blank_paragraphs(alloc, after, frames);
    }
    Ok(own)
}

// What a part with this value shows, where these are the attributes before it, and the `with`s round it.
fn laid_anew<L: Ledger>(
    alloc: Global,
    value: Value,
    before: Attrs,
    frames: &[Frame],
    width: u32,
    steps: &mut Steps<L>,
) -> Result<LaidPart, Memory>
    requires least_width { 20 ≤ width }
    requires most_width { width ≤ 500 }
    requires small { size_of (plain value) ≤ 1000000 }
    ensures laid { IfOk result (λ p. IsLaidPart width p) }
    ensures value { IfOk result (λ p. p.value ≡ value) }
    ensures before { IfOk result (λ p. p.before ≡ before) }
    ensures paragraphs { IfOk result (λ p. p.paragraphs.items
        ≡ part_paragraphs (show before value).form (given_back_by frames.now (show before value).after)) }
    ensures few { IfOk result (λ p. items_in p.paragraphs.items ≤ 242000000) }
    ensures counted { IfOk result (λ p. steps.new ≡ steps.old + items_in p.paragraphs.items) }
    ensures rises { steps.old ≤ steps.new }
{
    let _size = value.size();
    weight_laws();
    let shown = part_items(alloc, &value, &before)?;
    let paragraphs = ended_paragraphs(alloc, shown.blank, shown.paragraphs, &shown.after, frames)?;
    let lines = lines_of(alloc, &paragraphs, width, steps)?;
    Ok(LaidPart {
        value,
        before,
        after: shown.after,
        blank: shown.blank,
        paragraphs,
        errors: shown.errors,
        lines: LineList::new(lines),
    })
}

// What a part shows, by the value of its trace. Returns also how many items were laid out.
fn new_laid<L: Ledger>(
    alloc: Global,
    part: &Part,
    attrs: &Attrs,
    frames: &[Frame],
    width: u32,
    steps: &mut Steps<L>,
) -> Result<(Rc<LaidPart>, u64), Memory>
    requires least_width { 20 ≤ width }
    requires most_width { width ≤ 500 }
    requires small { size_of (plain part.now.trace.value) ≤ 1000000 }
    ensures laid { IfOk result (λ r. IsLaidPart width r.0.value) }
    ensures value { IfOk result (λ r. r.0.value.value ≡ part.now.trace.value) }
    ensures before { IfOk result (λ r. r.0.value.before ≡ attrs.now) }
    ensures paragraphs { IfOk result (λ r. r.0.value.paragraphs.items
        ≡ part_paragraphs (show attrs.now part.now.trace.value).form
        (given_back_by frames.now (show attrs.now part.now.trace.value).after)) }
    ensures items { IfOk result (λ r. r.1 ≡ items_in r.0.value.paragraphs.items) }
    ensures few { IfOk result (λ r. r.1 ≤ 242000000) }
    ensures counted { IfOk result (λ r. steps.new ≡ steps.old + r.1) }
    ensures rises { steps.old ≤ steps.new }
{
    let value = part.trace.value.share()?;
    let before = attrs.copy()?;
    let laid = laid_anew(alloc, value, before, frames, width, steps)?;
    let items = item_count(&laid.paragraphs);
    Ok((Rc::new(alloc, laid)?, items))
}

// A copy of the errors.
fn same_errors(alloc: Global, errors: &[ErrorAt]) -> Result<Vec<ErrorAt>, Memory>
    ensures { IfOk result (λ es. es.items ≡ errors.now) }
{
    let mut all = Vec::with_capacity(alloc, errors.len())?;
    for error in errors {
        all.push(ErrorAt {
            kind: error.kind.copy()?,
            detail: error.detail.copy()?,
        })?;
    }
    Ok(all)
}

// The layout of a part that shows in a line without an item, inside these `with`s, by a former layout.
fn blank_again<L: Ledger>(
    alloc: Global,
    laid: &LaidPart,
    frames: &[Frame],
    width: u32,
    steps: &mut Steps<L>,
) -> Result<LaidPart, Memory>
    requires least_width { 20 ≤ width }
    requires most_width { width ≤ 500 }
    requires laid { IsLaidPart width laid.now }
    requires blank { laid.now.blank ≡ true }
    ensures laid { IfOk result (λ p. IsLaidPart width p) }
    ensures value { IfOk result (λ p. p.value ≡ laid.now.value) }
    ensures before { IfOk result (λ p. p.before ≡ laid.now.before) }
    ensures paragraphs { IfOk result (λ p. p.paragraphs.items
        ≡ part_paragraphs (show laid.now.before laid.now.value).form
        (given_back_by frames.now (show laid.now.before laid.now.value).after)) }
    ensures counted { OnOk result (steps.new ≡ steps.old) }
    ensures rises { steps.old ≤ steps.new }
{
    let paragraphs = blank_paragraphs(alloc, &laid.after, frames)?;
    let lines = lines_of(alloc, &paragraphs, width, steps)?;
    Ok(LaidPart {
        value: laid.value.share()?,
        before: laid.before.copy()?,
        after: laid.after.copy()?,
        blank: true,
        paragraphs,
        errors: same_errors(alloc, &laid.errors)?,
        lines: LineList::new(lines),
    })
}

// A law: the layout of a part that isn't blank is the same inside any `with`s.
fn unblank_law(laid: &LaidPart, frames: &[Frame], width: u32)
    requires laid { IsLaidPart width laid.now }
    requires unblank { laid.now.blank ≡ false }
    ensures { laid.now.paragraphs.items ≡ part_paragraphs (show laid.now.before laid.now.value).form
        (given_back_by frames.now (show laid.now.before laid.now.value).after) }
{}

// This layout at the part's path, below so many lines of its unit.
fn new_slot(alloc: Global, part: &Part, above: u64, laid: Rc<LaidPart>) -> Result<Slot, Memory>
    ensures { IfOk result (λ s. (old : List Placed) → IsNewSlot old part.now.path above laid.value s) }
{
    let path = part.path.copy(alloc)?;
    let placed = PlacedPart::new(path, above, laid)?;
    Ok(Slot::Anew(Box::new(alloc, placed)?))
}

// The layout of a part inside these `with`s, below so many lines of its unit, where the former layout of this number is
// reused. It is unchanged, unless the part is blank. It is moved where its number is free, and else shared.
fn again<L: Ledger>(
    alloc: Global,
    part: &Part,
    frames: &[Frame],
    above: u64,
    old: &[PlacedPart],
    i: usize,
    free: usize,
    width: u32,
    steps: &mut Steps<L>,
) -> Result<Slot, Memory>
    requires least_width { 20 ≤ width }
    requires most_width { width ≤ 500 }
    requires there { i < length old.now }
    requires laid { All (λ p. IsLaidPart width p.laid.value) old.now }
    requires same { All (λ p. IsOfValue p part.now) old.now }
    ensures slot { IfOk result (λ s. (a : OneAttrs) → IsReused old.now part.now a i
        → IsSlotOf width old.now part.now a frames.now above free s 0) }
    ensures counted { OnOk result (steps.new ≡ steps.old) }
    ensures rises { steps.old ≤ steps.new }
{
    let former = &old[i];
    if former.brief.blank {
        let laid = blank_again(alloc, &former.laid, frames, width, steps)?;
        return new_slot(alloc, part, above, Rc::new(alloc, laid)?);
    }
    unblank_law(&former.laid, frames, width);
    if i < free {
        return new_slot(alloc, part, above, former.laid.clone()?);
    }
    Ok(Slot::Again(i, above))
}

// The layout of a part, where no former layout of it can be reused. Returns also how many items were laid out.
fn anew<L: Ledger>(
    alloc: Global,
    part: &Part,
    attrs: &Attrs,
    frames: &[Frame],
    above: u64,
    width: u32,
    steps: &mut Steps<L>,
) -> Result<(Slot, u64), Memory>
    requires least_width { 20 ≤ width }
    requires most_width { width ≤ 500 }
    requires small { size_of (plain part.now.trace.value) ≤ 1000000 }
    ensures slot { IfOk result (λ r. (old : List Placed) → is_reused old part.now attrs.now ≡ false
        → (free : ℕ) → IsSlotOf width old part.now attrs.now frames.now above free r.0 r.1) }
    ensures counted { IfOk result (λ r. steps.new ≡ steps.old + r.1) }
    ensures rises { steps.old ≤ steps.new }
{
    let (laid, items) = new_laid(alloc, part, attrs, frames, width, steps)?;
    let slot = new_slot(alloc, part, above, laid)?;
    Ok((slot, items))
}

/// The layout of a part below so many lines of its unit, with these attributes before it, inside these `with`s. Former
/// layouts from number `free` on may be moved. Returns also how many items were laid out anew.
pub(crate) fn next_slot<L: Ledger>(
    alloc: Global,
    part: &Part,
    attrs: &Attrs,
    frames: &[Frame],
    above: u64,
    old: &[PlacedPart],
    free: usize,
    near: &mut usize,
    width: u32,
    steps: &mut Steps<L>,
) -> Result<(Slot, u64), Memory>
    requires least_width { 20 ≤ width }
    requires most_width { width ≤ 500 }
    requires small { size_of (plain part.now.trace.value) ≤ 1000000 }
    requires distinct { IsDistinct bytes_eq (laid_paths old.now) }
    requires laid { All (λ p. IsLaidPart width p.laid.value) old.now }
    requires same { All (λ p. IsOfValue p part.now) old.now }
    ensures slot { IfOk result (λ r. IsSlotOf width old.now part.now attrs.now frames.now above free r.0 r.1) }
    ensures counted { IfOk result (λ r. steps.new ≡ steps.old + r.1) }
    ensures rises { steps.old ≤ steps.new }
{
    match reused(old, part, attrs, near) {
        Some(i) => {
            let slot = again(alloc, part, frames, above, old, i, free, width, steps)?;
            Ok((slot, 0))
        }
        None => anew(alloc, part, attrs, frames, above, width, steps),
    }
}
