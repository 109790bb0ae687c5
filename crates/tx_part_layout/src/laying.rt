// A unit laid out part by part.
ghost use Rattle.std.specs.Prelude.{◌≡◌, ◌+◌, ◌≤◌, ◌<◌, ◌^◌, ◌++◌, ◌∷◌, [], ℕ, List, OnOk, All, length, true, false};
ghost use Rattle.std.specs.Prelude.{not, ◌||◌, ◌==◌};
ghost use Rattle.std.specs.List.{IsDistinct};
ghost use Rattle.std.specs.Str.{bytes_eq};
ghost use Rattle.tx_tree.specs.WideTree.{WideTree, size_of, children_of};
ghost use Rattle.tx_origin.specs.Values.{plain};
ghost use Rattle.tx_items.specs.Shows.{or_one};
ghost use Rattle.tx_parts.specs.Openness.{Settings, Document, With, Shut, openness};
ghost use Rattle.tx_view_form.specs.Views.{AreLines};
ghost use Rattle.tx_part_items.specs.ShownParts.{parts_shown, shown_as, shut_shown};
ghost use Rattle.tx_part_layout.specs.declared.laid.PlacedPart.{PlacedPart as Placed};
ghost use Rattle.tx_part_layout.specs.LaidParts.{IsLaidPart, IsOfValue, laid_paths, placed_paragraphs};
ghost use Rattle.tx_part_layout.specs.Laying.{HasLaid, IsAdded, IsRightSoFar, left_values, given_back_by, so_far};
ghost use Rattle.tx_part_layout.specs.Slots.{slot_part, put_below};
ghost use Rattle.tx_part_layout.specs.declared.slots.Slot.TheVariants.{Again, Anew};

use crate::laid::{LaidUnit, PlacedPart};
use crate::line_list::LineList;
use crate::part::next_slot;
use crate::settings::{Frame, inner_of, restore_each, set_each, settings_of};
use crate::slots::Slot;
use std::alloc::Global;
use std::mem;
use std::sync::ledger::Ledger;
use tx_base::{Memory, Steps};
use tx_items::{Attrs, ErrorAt, Paragraph};
use tx_layout::lines;
use tx_tree::Tree;
use tx_view_form::weight_laws;
use tx_walk::{Descent, Part, descent_of};

/// The progress of a unit's layout.
#[derive(Drop)]
pub(crate) struct Laying {
    /// The attributes after what is laid out.
    pub attrs: Attrs,
    /// The `with`s round the next part, up to the nearest `document`, the outer first.
    pub frames: Vec<Frame>,
    /// The number of the next part.
    pub next: usize,
    /// The number of the former layout that is likely next.
    pub near: usize,
    /// The number after the former layouts that are reused so far.
    pub free: usize,
    /// How many lines are laid out.
    pub rows: u64,
    /// Whether a part has a paragraph.
    pub some: bool,
    /// The layouts of the parts before the next one.
    pub slots: Vec<Slot>,
    /// The rest of the unit's layout. Its parts are put in at the end.
    pub unit: LaidUnit,
}

impl Laying {
    /// Nothing is laid out, and these are the attributes.
    pub(crate) fn new(alloc: Global, attrs: Attrs) -> Laying
        ensures attrs { result.attrs ≡ attrs }
        ensures frames { result.frames.items ≡ [] }
        ensures next { result.next ≡ 0 }
        ensures free { result.free ≡ 0 }
        ensures rows { result.rows ≡ 0 }
        ensures some { result.some ≡ false }
        ensures slots { result.slots.items ≡ [] }
        ensures paragraphs { result.unit.paragraphs.items ≡ [] }
        ensures lines { result.unit.lines ≡ [] }
        ensures errors { result.unit.errors.items ≡ [] }
        ensures items { result.unit.items ≡ 0 }
    {
        Laying {
            attrs,
            frames: Vec::new(alloc),
            next: 0,
            near: 0,
            free: 0,
            rows: 0,
            some: false,
            slots: Vec::new(alloc),
            unit: LaidUnit {
                parts: Vec::new(alloc),
                paragraphs: Vec::new(alloc),
                lines: LineList::none(alloc),
                errors: Vec::new(alloc),
                items: 0,
            },
        }
    }
}

// Puts copies of the errors after the others.
fn add_errors(errors: &[ErrorAt], all: &mut Vec<ErrorAt>) -> Result<(), Memory>
    ensures { OnOk result (all.new.items ≡ all.old.items ++ errors.now) }
{
    for error in errors {
        all.push(ErrorAt {
            kind: error.kind.copy()?,
            detail: error.detail.copy()?,
        })?;
    }
    Ok(())
}

// Goes past a part that is laid out.
fn pass(part: &PlacedPart, laying: &mut Laying) -> Result<(), Memory>
    requires few { laying.old.rows + length part.now.laid.value.lines < 2 ^ 63 }
    requires before { part.now.laid.value.before ≡ laying.old.attrs }
    ensures errors { OnOk result
        (laying.new.unit.errors.items ≡ laying.old.unit.errors.items ++ part.now.laid.value.errors.items) }
    ensures rows { OnOk result (laying.new.rows ≡ laying.old.rows + length part.now.laid.value.lines) }
    ensures some { OnOk result
        (laying.new.some ≡ (laying.old.some || not (length part.now.laid.value.paragraphs.items == 0))) }
    ensures attrs { OnOk result (laying.new.attrs ≡ part.now.laid.value.after) }
    ensures slots { OnOk result (laying.new.slots ≡ laying.old.slots) }
    ensures free { OnOk result (laying.new.free ≡ laying.old.free) }
    ensures frames { OnOk result (laying.new.frames ≡ laying.old.frames) }
    ensures next { OnOk result (laying.new.next ≡ laying.old.next) }
    ensures rest { OnOk result (laying.new.unit.paragraphs ≡ laying.old.unit.paragraphs) }
    ensures rest_lines { OnOk result (laying.new.unit.lines ≡ laying.old.unit.lines) }
    ensures items { OnOk result (laying.new.unit.items ≡ laying.old.unit.items) }
{
    if part.brief.faulty {
        add_errors(&part.laid.errors, &mut laying.unit.errors)?;
    }
    if !part.brief.plain {
        laying.attrs = part.laid.after.copy()?;
    }
    laying.some = laying.some || part.brief.some;
    laying.rows += part.brief.rows;
    Ok(())
}

// Adds this part below so many lines. It is reused, and has the number i among the former ones.
fn add_again(part: &PlacedPart, i: usize, above: u64, laying: &mut Laying) -> Result<(), Memory>
    requires number { i < 2 ^ 63 }
    requires few { laying.old.rows + length part.now.laid.value.lines < 2 ^ 63 }
    requires before { part.now.laid.value.before ≡ laying.old.attrs }
    ensures { OnOk result (IsAdded (Again i above) (put_below above part.now) laying.old laying.new) }
{
    pass(part, laying)?;
    laying.free = i + 1;
    laying.slots.push(Slot::Again(i, above))?;
    Ok(())
}

// Adds this part, which is new.
fn add_anew(part: Box<PlacedPart>, laying: &mut Laying) -> Result<(), Memory>
    requires few { laying.old.rows + length part.value.laid.value.lines < 2 ^ 63 }
    requires before { part.value.laid.value.before ≡ laying.old.attrs }
    ensures { OnOk result (IsAdded (Anew part) part.value laying.old laying.new) }
{
    pass(&part, laying)?;
    laying.slots.push(Slot::Anew(part))?;
    Ok(())
}

// Puts the layout of a part after those of the others.
fn add_slot(old: &[PlacedPart], slot: Slot, laying: &mut Laying) -> Result<(), Memory>
    requires few { (q : Placed) → slot_part old.now slot ≡ Some q
        → laying.old.rows + length q.laid.value.lines < 2 ^ 63 }
    requires there { (q : Placed) × (slot_part old.now slot ≡ Some q)
        × (q.laid.value.before ≡ laying.old.attrs) }
    ensures { (q : Placed) → slot_part old.now slot ≡ Some q
        → OnOk result (IsAdded slot q laying.old laying.new) }
{
    match slot {
        Slot::Again(i, above) => {
            let Some(part) = old.get(i) else {
                unreachable!()
            };
            add_again(part, i, above, laying)
        }
        Slot::Anew(part) => add_anew(part, laying),
    }
}

// Lays the next part out, if there is one. It can be any tree.
fn next_part<L: Ledger>(
    alloc: Global,
    parts: &[Part],
    old: &[PlacedPart],
    width: u32,
    laying: &mut Laying,
    steps: &mut Steps<L>,
) -> Result<(), Memory>
    requires least_width { 20 ≤ width }
    requires most_width { width ≤ 500 }
    requires few { length parts.now < 2 ^ 32 }
    requires small { All (λ d. size_of (plain d.trace.value) ≤ 1000000) parts.now }
    requires distinct { IsDistinct bytes_eq (laid_paths old.now) }
    requires laid { All (λ p. IsLaidPart width p.laid.value) old.now }
    requires same { All (λ d. All (λ p. IsOfValue p d) old.now) parts.now }
    requires right { IsRightSoFar width old.now laying.old }
    ensures laid { OnOk result ((t : WideTree) → HasLaid old.now parts.now
        (shut_shown (given_back_by laying.old.frames.items) laying.old.attrs
        (left_values parts.now laying.old.next) t) laying.old laying.new) }
    ensures right { OnOk result (IsRightSoFar width old.now laying.new) }
    ensures counted { OnOk result (steps.new + laying.old.unit.items ≡ steps.old + laying.new.unit.items) }
    ensures rises { steps.old ≤ steps.new }
{
    let Some(part) = parts.get(laying.next) else {
        return Ok(());
    };
    let _size = part.trace.value.size();
    weight_laws();
    let mut near = laying.near;
    let (slot, items) = next_slot(
        alloc,
        part,
        &laying.attrs,
        &laying.frames,
        laying.rows,
        old,
        laying.free,
        &mut near,
        width,
        steps,
    )?;
    laying.near = near;
    add_slot(old, slot, laying)?;
    laying.next += 1;
    laying.unit.items += items;
    Ok(())
}

/// Ends a unit. Where no part has a paragraph, it has an empty one.
pub(crate) fn end_unit<L: Ledger>(
    alloc: Global,
    width: u32,
    laying: &mut Laying,
    steps: &mut Steps<L>,
) -> Result<(), Memory>
    requires least_width { 20 ≤ width }
    requires most_width { width ≤ 500 }
    requires nothing { laying.old.unit.paragraphs.items ≡ [] }
    requires no_line { laying.old.unit.lines ≡ [] }
    ensures paragraphs { OnOk result ((old : List Placed) → IsRightSoFar width old laying.old
        → placed_paragraphs (so_far old laying.old) ++ laying.new.unit.paragraphs.items
        ≡ or_one laying.old.attrs (placed_paragraphs (so_far old laying.old))) }
    ensures lines { OnOk result (AreLines width laying.new.unit.paragraphs.items laying.new.unit.lines) }
    ensures slots { OnOk result (laying.new.slots ≡ laying.old.slots) }
    ensures errors { OnOk result (laying.new.unit.errors ≡ laying.old.unit.errors) }
    ensures items { OnOk result (laying.new.unit.items ≡ laying.old.unit.items) }
    ensures steps { steps.new ≡ steps.old }
{
    let some = laying.some;
    if some {
        return Ok(());
    }
    let paragraph = Paragraph::blank(alloc, &laying.attrs)?;
    let own = lines(alloc, &paragraph, width, steps)?;
    laying.unit.paragraphs.push(paragraph)?;
    laying.unit.lines = LineList::new(own);
    Ok(())
}

/// Lays a tree out.
#[cycle(lay)]
pub(crate) fn lay_tree<L: Ledger>(
    alloc: Global,
    t: &Tree,
    levels: u32,
    parts: &[Part],
    old: &[PlacedPart],
    width: u32,
    laying: &mut Laying,
    steps: &mut Steps<L>,
) -> Result<(), Memory>
    requires levels { levels ≤ 400 }
    requires least_width { 20 ≤ width }
    requires most_width { width ≤ 500 }
    requires few { length parts.now < 2 ^ 32 }
    requires small { All (λ d. size_of (plain d.trace.value) ≤ 1000000) parts.now }
    requires distinct { IsDistinct bytes_eq (laid_paths old.now) }
    requires laid { All (λ p. IsLaidPart width p.laid.value) old.now }
    requires same { All (λ d. All (λ p. IsOfValue p d) old.now) parts.now }
    requires right { IsRightSoFar width old.now laying.old }
    ensures laid { OnOk result (HasLaid old.now parts.now
        (parts_shown levels (given_back_by laying.old.frames.items) laying.old.attrs
        (left_values parts.now laying.old.next) t.now) laying.old laying.new) }
    ensures right { OnOk result (IsRightSoFar width old.now laying.new) }
    ensures counted { OnOk result (steps.new + laying.old.unit.items ≡ steps.old + laying.new.unit.items) }
    ensures rises { steps.old ≤ steps.new }
{
    if levels == 0 {
        return Ok(());
    }
    match descent_of(t) {
        Descent::Document => lay_children(alloc, t, levels - 1, parts, old, width, laying, steps),
        Descent::With => lay_with(alloc, t, levels - 1, parts, old, width, laying, steps),
        Descent::Shut => next_part(alloc, parts, old, width, laying, steps),
    }
}

// Lays a child of a `document` out. A paragraph ends within it.
#[cycle(lay)]
fn lay_child<L: Ledger>(
    alloc: Global,
    t: &Tree,
    levels: u32,
    parts: &[Part],
    old: &[PlacedPart],
    width: u32,
    laying: &mut Laying,
    steps: &mut Steps<L>,
) -> Result<(), Memory>
    requires levels { levels < 400 }
    requires least_width { 20 ≤ width }
    requires most_width { width ≤ 500 }
    requires few { length parts.now < 2 ^ 32 }
    requires small { All (λ d. size_of (plain d.trace.value) ≤ 1000000) parts.now }
    requires distinct { IsDistinct bytes_eq (laid_paths old.now) }
    requires laid { All (λ p. IsLaidPart width p.laid.value) old.now }
    requires same { All (λ d. All (λ p. IsOfValue p d) old.now) parts.now }
    requires right { IsRightSoFar width old.now laying.old }
    ensures laid { OnOk result (HasLaid old.now parts.now
        (parts_shown levels (λ b. b) laying.old.attrs (left_values parts.now laying.old.next) t.now)
        laying.old laying.new) }
    ensures right { OnOk result (IsRightSoFar width old.now laying.new) }
    ensures counted { OnOk result (steps.new + laying.old.unit.items ≡ steps.old + laying.new.unit.items) }
    ensures rises { steps.old ≤ steps.new }
{
    let outer = mem::replace(&mut laying.frames, Vec::new(alloc));
    lay_tree(alloc, t, levels, parts, old, width, laying, steps)?;
    laying.frames = outer;
    Ok(())
}

// Lays the children of a `document` out, in order.
#[cycle(lay)]
fn lay_children<L: Ledger>(
    alloc: Global,
    t: &Tree,
    levels: u32,
    parts: &[Part],
    old: &[PlacedPart],
    width: u32,
    laying: &mut Laying,
    steps: &mut Steps<L>,
) -> Result<(), Memory>
    requires opens { openness t.now ≡ Document (children_of t.now) }
    requires levels { levels < 400 }
    requires least_width { 20 ≤ width }
    requires most_width { width ≤ 500 }
    requires few { length parts.now < 2 ^ 32 }
    requires small { All (λ d. size_of (plain d.trace.value) ≤ 1000000) parts.now }
    requires distinct { IsDistinct bytes_eq (laid_paths old.now) }
    requires laid { All (λ p. IsLaidPart width p.laid.value) old.now }
    requires same { All (λ d. All (λ p. IsOfValue p d) old.now) parts.now }
    requires right { IsRightSoFar width old.now laying.old }
    ensures laid { OnOk result (HasLaid old.now parts.now
        (shown_as (openness t.now) (parts_shown levels) (given_back_by laying.old.frames.items) laying.old.attrs
        (left_values parts.now laying.old.next) t.now) laying.old laying.new) }
    ensures right { OnOk result (IsRightSoFar width old.now laying.new) }
    ensures counted { OnOk result (steps.new + laying.old.unit.items ≡ steps.old + laying.new.unit.items) }
    ensures rises { steps.old ≤ steps.new }
{
    for kid in t.children() {
        lay_child(alloc, kid, levels, parts, old, width, laying, steps)?;
    }
    Ok(())
}

// Lays a `with` out.
#[cycle(lay)]
fn lay_with<L: Ledger>(
    alloc: Global,
    t: &Tree,
    levels: u32,
    parts: &[Part],
    old: &[PlacedPart],
    width: u32,
    laying: &mut Laying,
    steps: &mut Steps<L>,
) -> Result<(), Memory>
    requires opens { (ps : Settings) × (b : WideTree) × (openness t.now ≡ With ps b) }
    requires levels { levels < 400 }
    requires least_width { 20 ≤ width }
    requires most_width { width ≤ 500 }
    requires few { length parts.now < 2 ^ 32 }
    requires small { All (λ d. size_of (plain d.trace.value) ≤ 1000000) parts.now }
    requires distinct { IsDistinct bytes_eq (laid_paths old.now) }
    requires laid { All (λ p. IsLaidPart width p.laid.value) old.now }
    requires same { All (λ d. All (λ p. IsOfValue p d) old.now) parts.now }
    requires right { IsRightSoFar width old.now laying.old }
    ensures laid { OnOk result (HasLaid old.now parts.now
        (shown_as (openness t.now) (parts_shown levels) (given_back_by laying.old.frames.items) laying.old.attrs
        (left_values parts.now laying.old.next) t.now) laying.old laying.new) }
    ensures right { OnOk result (IsRightSoFar width old.now laying.new) }
    ensures counted { OnOk result (steps.new + laying.old.unit.items ≡ steps.old + laying.new.unit.items) }
    ensures rises { steps.old ≤ steps.new }
{
    let before = laying.attrs.copy()?;
    let settings = settings_of(alloc, t)?;
    let inner = inner_of(t);
    set_each(alloc, &settings, &mut laying.attrs)?;
    laying.frames.push(Frame { settings, before })?;
    lay_tree(alloc, inner, levels, parts, old, width, laying, steps)?;
    let Some(frame) = laying.frames.pop() else {
        unreachable!();
    };
    restore_each(&frame.settings, &frame.before, &mut laying.attrs)
}
