// What is laid out.
ghost use Rattle.std.specs.Prelude.{◌≡◌, ◌==◌, length, not, true, false, IfOk};
ghost use Rattle.std.specs.List.{All};
ghost use Rattle.tx_layout.specs.Paging.{Unmarked};

use crate::attributes::same_attrs;
use crate::line_list::LineList;
use std::rc::Rc;
use tx_base::Memory;
use tx_items::{Attrs, ErrorAt, Paragraph};
use tx_origin::Value;
use tx_tree::Path;

/// What a part shows by itself. All places in it begin at the part, so it is unchanged where the part moves.
#[derive(Drop)]
pub struct LaidPart {
    /// Its value.
    pub value: Value,
    /// The attributes before it.
    pub before: Attrs,
    /// The attributes after it.
    pub after: Attrs,
    /// It shows in a line, without an item.
    pub blank: bool,
    /// One, where it shows in a line, and else those of a list, maybe none. That of a blank part has the attributes at
    /// the end of the paragraph.
    pub paragraphs: Vec<Paragraph>,
    /// The errors in it, in order.
    pub errors: Vec<ErrorAt>,
    /// The lines of its paragraphs.
    pub lines: LineList,
}

/// What each layout of a unit asks of a part. It is stored beside the part's place, so reused parts are gone through in
/// a row, without access to what they show.
#[derive(Drop)]
pub struct Brief {
    /// The attributes before it.
    pub before: Attrs,
    /// The attributes after it are those before it. False says nothing.
    pub plain: bool,
    /// How many lines it has.
    pub rows: u64,
    /// It has a paragraph.
    pub some: bool,
    /// It shows in a line, without an item.
    pub blank: bool,
    /// It has an error.
    pub faulty: bool,
    /// One of its lines may end its page.
    pub marked: bool,
}

/// A part in its place.
#[derive(Drop)]
pub struct PlacedPart {
    /// Its path, from the tree of the unit.
    pub path: Path,
    /// How many lines of its unit are above it.
    pub above: u64,
    /// What it shows.
    pub laid: Rc<LaidPart>,
    /// What it shows, in brief.
    pub brief: Brief,
    ghost before: { brief.before ≡ laid.value.before },
    ghost plain: { brief.plain ≡ true → laid.value.after ≡ laid.value.before },
    ghost rows: { brief.rows ≡ length laid.value.lines },
    ghost some: { brief.some ≡ not (length laid.value.paragraphs.items == 0) },
    ghost blank: { brief.blank ≡ laid.value.blank },
    ghost faulty: { brief.faulty ≡ not (length laid.value.errors.items == 0) },
    ghost marked: { brief.marked ≡ false → All Unmarked laid.value.lines },
}

/// What a unit shows, by its parts.
#[derive(Drop)]
pub struct LaidUnit {
    /// Its parts in order. A later layout may use them again.
    pub parts: Vec<PlacedPart>,
    /// Where no part has a paragraph, an empty one, and else none.
    pub paragraphs: Vec<Paragraph>,
    /// The lines of that paragraph.
    pub lines: LineList,
    /// The errors in all parts, in order.
    pub errors: Vec<ErrorAt>,
    /// How many items were laid out.
    pub items: u64,
}

impl LaidPart {
    // Its brief.
    fn brief(&self) -> Result<Brief, Memory>
        ensures before { IfOk result (λ b. b.before ≡ self.now.before) }
        ensures plain { IfOk result (λ b. b.plain ≡ true → self.now.after ≡ self.now.before) }
        ensures rows { IfOk result (λ b. b.rows ≡ length self.now.lines) }
        ensures some { IfOk result (λ b. b.some ≡ not (length self.now.paragraphs.items == 0)) }
        ensures blank { IfOk result (λ b. b.blank ≡ self.now.blank) }
        ensures faulty { IfOk result (λ b. b.faulty ≡ not (length self.now.errors.items == 0)) }
        ensures marked { IfOk result (λ b. b.marked ≡ false → All Unmarked self.now.lines) }
    {
        Ok(Brief {
            before: self.before.copy()?,
            plain: same_attrs(&self.after, &self.before),
            rows: self.lines.all().len() as u64,
            some: !self.paragraphs.is_empty(),
            blank: self.blank,
            faulty: !self.errors.is_empty(),
            marked: !self.lines.is_unmarked(),
        })
    }
}

impl Brief {
    // A copy.
    fn copy(&self) -> Result<Brief, Memory>
        ensures { IfOk result (λ b. b ≡ self.now) }
    {
        Ok(Brief {
            before: self.before.copy()?,
            plain: self.plain,
            rows: self.rows,
            some: self.some,
            blank: self.blank,
            faulty: self.faulty,
            marked: self.marked,
        })
    }
}

impl PlacedPart {
    /// The part at this path, below so many lines of its unit, shows this.
    pub(crate) fn new(path: Path, above: u64, laid: Rc<LaidPart>) -> Result<PlacedPart, Memory>
        ensures path { IfOk result (λ p. p.path ≡ path) }
        ensures above { IfOk result (λ p. p.above ≡ above) }
        ensures laid { IfOk result (λ p. p.laid ≡ laid) }
    {
        let brief = laid.brief()?;
        Ok(PlacedPart {
            path,
            above,
            laid,
            brief,
        })
    }

    /// A copy at another path, which shares what it shows.
    pub fn at(&self, path: Path) -> Result<PlacedPart, Memory>
        ensures path { IfOk result (λ p. p.path ≡ path) }
        ensures above { IfOk result (λ p. p.above ≡ self.now.above) }
        ensures laid { IfOk result (λ p. p.laid.value ≡ self.now.laid.value) }
    {
        Ok(PlacedPart {
            path,
            above: self.above,
            laid: self.laid.clone()?,
            brief: self.brief.copy()?,
        })
    }
}
