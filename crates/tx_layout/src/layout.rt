// The lines of a paragraph.
ghost use Rattle.std.specs.Prelude.{◌≡◌, ◌≢◌, ℕ, ◌≤◌, ◌<◌, ◌+◌, ◌^◌, ◌++◌, ◌∷◌, [], Bool, List, map, length, All, IfOk, OnOk};
ghost use Rattle.std.specs.Prelude.{IsTrue, Some, filter, slice_get, slice_range};
ghost use Rattle.std.specs.List.{flat_map};
ghost use Rattle.tx_items.specs.declared.drawing.Item.{Item};
ghost use Rattle.tx_items.specs.declared.drawing.Paragraph.{Paragraph};
ghost use Rattle.tx_items.specs.Narrow.{IsNarrow};
ghost use Rattle.tx_lines.specs.FirstFit.{width_of};
ghost use Rattle.tx_layout.specs.declared.layout.Line.{Line};
ghost use Rattle.tx_layout.specs.declared.measures.Frame.{Frame as Measures};
ghost use Rattle.tx_layout.specs.declared.measures.Side.TheVariants.{Justify};
ghost use Rattle.tx_layout.specs.Frames.{side_of};
ghost use Rattle.tx_layout.specs.Segments.{HasWords, width_at};
ghost use Rattle.tx_layout.specs.Spread.{spaces_among, gap_of, spread_by, spread};
ghost use Rattle.tx_items.specs.Cells.{cells_across};
ghost use Rattle.tx_layout.specs.Words.{capped_item};
ghost use Rattle.tx_layout.specs.Shapes.{items_shown, IsShape, is_ink, is_ink_cluster};
ghost use Rattle.tx_layout.specs.OneLine.{IsOneLine, one_line};
ghost use Rattle.tx_layout.specs.Rows.{IsWithin, line_at};

use crate::measures::line_frame;
use crate::pieces::is_blank_item;
use crate::segments::{Row, least_width};
use crate::shapes::shape;
use std::alloc::Global;
use std::marker::Model;
use std::sync::ledger::Ledger;
use tx_base::{Memory, Steps};
use tx_items::{Item, Items, Paragraph};

/// The items on a line. Contracts see their list. The lines of a paragraph share one list of items, which is that of
/// the paragraph unless a gap is cut; a line that is spread has a list of its own.
#[derive(Drop)]
pub struct LineItems {
    all: Items,
    from: u32,
    to: u32,
}

impl Model for LineItems {
    ghost use Rattle.std.specs.Prelude.{List, ◌≤◌, length, slice_range};
    ghost use Rattle.tx_items.specs.declared.drawing.Item.{Item};

    ghost Value = { List Item };

    ghost view = { λ l. slice_range l.all l.from l.to };

    ghost invariant = { λ l. (l.from ≤ l.to) × (l.to ≤ length l.all) };
}

impl LineItems {
    /// The items.
    pub fn all(&self) -> &[Item]
        ensures { result.now ≡ self.now }
    {
        &self.all.all()[self.from as usize..self.to as usize]
    }

    // A share of the items.
    fn share(&self) -> Result<LineItems, Memory>
        ensures { IfOk result (λ l. l ≡ self.now) }
    {
        Ok(LineItems {
            all: self.all.share()?,
            from: self.from,
            to: self.to,
        })
    }
}

/// A line of a paragraph.
#[derive(Drop)]
pub struct Line {
    /// The free cells before it.
    pub indent: u32,
    /// What is on it, a gap with the cells that it takes here.
    pub items: LineItems,
    /// Whether it is the last of its page.
    pub page_end: bool,
}

impl Line {
    /// A share of the line, which shares its items.
    pub fn share(&self) -> Result<Line, Memory>
        ensures { IfOk result (λ l. l ≡ self.now) }
    {
        Ok(Line {
            indent: self.indent,
            items: self.items.share()?,
            page_end: self.page_end,
        })
    }
}

// The item as it is shown on a line of a paragraph with this least width.
fn item_shown(item: &Item, least: u32) -> Result<Item, Memory>
    ensures { IfOk result (λ i. i ≡ capped_item least item.now) }
{
    match item {
        Item::Glyph(drawn) => Ok(Item::Glyph(drawn.copy()?)),
        Item::Space(drawn) => Ok(Item::Space(drawn.copy()?)),
        Item::Chance(drawn) => Ok(Item::Chance(drawn.copy()?)),
        Item::Gap(cells) => Ok(Item::Gap((*cells).min(least))),
        Item::Break => Ok(Item::Break),
        Item::PageEnd => Ok(Item::PageEnd),
        Item::Down(count) => Ok(Item::Down(*count)),
    }
}

// Whether the item is on lines as it is, where this is the least width.
fn is_kept(item: &Item, least: u32) -> bool
    ensures { IsTrue result → capped_item least item.now ≡ item.now }
{
    match item {
        Item::Glyph(_) => true,
        Item::Space(_) => true,
        Item::Chance(_) => true,
        Item::Gap(cells) => *cells <= least,
        Item::Break => true,
        Item::PageEnd => true,
        Item::Down(_) => true,
    }
}

// Whether all items are on lines as they are.
fn are_kept(items: &[Item], least: u32) -> bool
    ensures { IsTrue result → map (capped_item least) items.now ≡ items.now }
{
    for item in items {
        if !is_kept(item, least) {
            return false;
        }
    }
    true
}

// The items as they are shown on lines, with gaps cut.
fn items_cut(alloc: Global, items: &[Item], least: u32) -> Result<Items, Memory>
    ensures { IfOk result (λ shown. shown ≡ map (capped_item least) items.now) }
{
    let mut shown = Vec::with_capacity(alloc, items.len())?;
    for item in items {
        shown.push(item_shown(item, least)?)?;
    }
    Items::new(alloc, shown)
}

// The items as they are shown on lines.
fn items_shown(alloc: Global, items: &Items, least: u32) -> Result<Items, Memory>
    ensures { IfOk result (λ shown. shown ≡ map (capped_item least) items.now) }
{
    if are_kept(items.all(), least) {
        return items.share();
    }
    items_cut(alloc, items.all(), least)
}

// So many spaces are among items.
fn spaces_among(items: &[Item]) -> u32
    requires { length items.now < 2 ^ 32 }
    ensures { result ≡ spaces_among items.now }
{
    let mut count = 0;
    for item in items {
        if is_blank_item(item) {
            count += 1;
        }
    }
    count
}

// Adds an item as it is, and a gap after it, unless that has no cells.
fn push_spaced(spread: &mut Vec<Item>, item: &Item, gap: u32) -> Result<(), Memory>
    ensures { OnOk result (spread.new.items ≡ spread.old.items ++ item.now ∷ gap_of gap) }
{
    spread.push(item.copy()?)?;
    if gap > 0 {
        spread.push(Item::Gap(gap))?;
    }
    Ok(())
}

// Adds items, with so many cells after each space, and one more after each of the first ones.
#[tactic(auto, using(crate::proofs::Spreading::spread_step, crate::proofs::Spreading::plain_step))]
fn push_spread(spread: &mut Vec<Item>, items: &[Item], each: u32, more: u32) -> Result<(), Memory>
    requires { each < 2 ^ 31 }
    ensures { OnOk result (spread.new.items ≡ spread.old.items ++ spread_by each more items.now) }
{
    let mut left = more;
    for item in items {
        if is_blank_item(item) {
            push_spaced(spread, item, each + left.min(1))?;
            left = left.saturating_sub(1);
        } else {
            push_spaced(spread, item, 0)?;
        }
    }
    Ok(())
}

// The items with so many cells put in after their spaces.
#[tactic(auto, using(crate::proofs::Spreading::spread_is, crate::proofs::Spreading::spread_plain))]
fn spread(alloc: Global, items: &[Item], free: u32) -> Result<Vec<Item>, Memory>
    requires some { 0 < free }
    requires few_cells { free < 2 ^ 31 }
    requires few { length items.now < 2 ^ 32 }
    ensures { IfOk result (λ all. all.items ≡ spread free items.now) }
{
    let mut all = Vec::with_capacity(alloc, items.len())?;
    let spaces = spaces_among(items);
    if spaces == 0 {
        push_spread(&mut all, items, 0, 0)?;
    } else {
        push_spread(&mut all, items, free / spaces, free % spaces)?;
    }
    Ok(all)
}

// The items of a row: shared, or spread.
fn items_of(alloc: Global, items: &Items, row: &Row) -> Result<LineItems, Memory>
    requires within { IsWithin (length items.now) row.now }
    requires few { length items.now < 2 ^ 32 }
    ensures { IfOk result (λ l. l ≡ spread row.now.put (slice_range items.now row.now.from row.now.to)) }
{
    if row.put == 0 {
        return Ok(LineItems {
            all: items.share()?,
            from: row.from,
            to: row.to,
        });
    }
    let all = spread(
        alloc,
        &items.all()[row.from as usize..row.to as usize],
        row.put,
    )?;
    let Ok(to) = u32::try_from(all.len()) else {
        return Err(Memory);
    };
    Ok(LineItems {
        all: Items::new(alloc, all)?,
        from: 0,
        to,
    })
}

// The lines of rows.
fn share_out(alloc: Global, items: &Items, rows: &[Row]) -> Result<Vec<Line>, Memory>
    requires within { All (IsWithin (length items.now)) rows.now }
    requires few { length items.now < 2 ^ 32 }
    ensures { IfOk result (λ lines. lines.items ≡ map (line_at items.now) rows.now) }
{
    let mut lines = Vec::with_capacity(alloc, rows.len())?;
    for row in rows {
        lines.push(Line {
            indent: row.indent,
            items: items_of(alloc, items, row)?,
            page_end: row.page_end,
        })?;
    }
    Ok(lines)
}

/// The lines of a paragraph on a page of this width, from 20 to 500 cells. The paragraph has fewer than 2^32 items, and
/// no cluster has more than 2 cells. The steps rise by the number of its items. The one error is `Memory`.
pub fn lines<L: Ledger>(
    alloc: Global,
    paragraph: &Paragraph,
    width: u32,
    steps: &mut Steps<L>,
) -> Result<Vec<Line>, Memory>
    requires least_width { 20 ≤ width }
    requires most_width { width ≤ 500 }
    requires few { length paragraph.now.items < 2 ^ 32 }
    requires narrow { All IsNarrow paragraph.now.items }
    ensures shape { IfOk result (λ lines. IsShape paragraph.now width lines.items) }
    ensures steps { steps.new ≡ steps.old + length paragraph.now.items }
{
    steps.add(paragraph.items.all().len() as u64);
    let frame = line_frame(paragraph, width);
    let shown = items_shown(alloc, &paragraph.items, least_width(frame))?;
    let rows = shape(alloc, frame, shown.all())?;
    share_out(alloc, &shown, &rows)
}

/// A law: a paragraph has at most one list of lines on a page of given width. That there is one is the contract of
/// [`lines`].
pub fn one_shape()
    ensures { (p : Paragraph) (width : ℕ) (lines others : List Line) →
        IsShape p width lines → IsShape p width others → lines ≡ others }
{}

/// A law: the lines of a paragraph hold each glyph and each chance of it once and in order, and where no line is spread
/// each gap too, with the cells that it takes on a line.
pub fn items_kept()
    ensures clusters { (p : Paragraph) (width : ℕ) (lines : List Line) → IsShape p width lines →
        filter is_ink_cluster (flat_map (λ line. line.items) lines) ≡ filter is_ink_cluster (items_shown p width) }
    ensures gaps { (p : Paragraph) (width : ℕ) (lines : List Line) → side_of p.mode ≢ Justify → IsShape p width lines →
        filter is_ink (flat_map (λ line. line.items) lines) ≡ filter is_ink (items_shown p width) }
{}

/// A law: a line of a justified segment that isn't its last one, and has a space, has exactly its width.
pub fn spread_full()
    ensures { (frame : Measures) (is_first : Bool) (segment : List Item) (lines : List Line) (k : ℕ) (line next : Line) →
        frame.side ≡ Justify → HasWords frame is_first segment lines → slice_get lines k ≡ Some line →
        slice_get lines (k + 1) ≡ Some next → 0 < spaces_among line.items →
        cells_across line.items ≡ width_of (width_at frame is_first) frame.later_width k }
{}

/// A law: no line of a paragraph reaches beyond its page.
pub fn within_page()
    ensures { (p : Paragraph) (width : ℕ) (lines : List Line) → IsShape p width lines →
        All (λ line. line.indent + cells_across line.items ≤ width) lines }
{}

/// A law: a paragraph that nothing cuts, that has no space at its ends and takes at most the least width of its lines,
/// is in one line, with all its items, at the indent of its side.
pub fn one_line_law()
    ensures { (p : Paragraph) (width : ℕ) (lines : List Line) → IsShape p width lines → IsOneLine p width →
        lines ≡ one_line p width ∷ [] }
{}
