// The pages of lines.
ghost use Rattle.std.specs.Prelude.{◌≡◌, ℕ, ◌≤◌, ◌<◌, ◌+◌, ◌^◌, ◌++◌, [], ◌∷◌, List, length, take, slice_range};
ghost use Rattle.std.specs.Prelude.{All, IfOk, OnOk, OnErr, true};
ghost use Rattle.std.specs.List.{flat_map};
ghost use Rattle.tx_lines.specs.declared.cut.Cut.{Cut};
ghost use Rattle.tx_layout.specs.declared.layout.Line.{Line};
ghost use Rattle.tx_layout.specs.Paging.{Unmarked, PagesFrom};
ghost use Rattle.tx_layout.specs.Told.{HasTold, lines_told};

use crate::layout::Line;
use std::alloc::Global;
use tx_base::Memory;
use tx_lines::Cut;

// Whether the line is the last of its page. It isn't looked at where none of its list is.
fn is_last(line: &Line, unmarked: bool) -> bool
    requires { unmarked ≡ true → Unmarked line.now }
    ensures { result ≡ line.now.page_end }
{
    !unmarked && line.page_end
}

/// The pages of lines that are given in order, in as many slices as there are. No line is copied or stored.
#[derive(Drop)]
pub struct Paginator {
    height: u32,
    // the pages that have ended
    ended: Vec<Cut>,
    // the number of the first line after these
    from: u32,
    // how many lines were given
    count: u32,
}

impl Paginator {
    /// No line is given yet. A page has this height, from 5 to 500 lines.
    pub fn new(alloc: Global, height: u32) -> Paginator
        requires least_height { 5 ≤ height }
        requires most_height { height ≤ 500 }
        ensures { HasTold [] height result }
    {
        Paginator {
            height,
            ended: Vec::new(alloc),
            from: 0,
            count: 0,
        }
    }

    // Takes one line more.
    fn add_line(&mut self, line: &Line, unmarked: bool) -> Result<(), Memory>
        requires few { lines_told self.old + 1 < 2 ^ 32 }
        requires unmarked { unmarked ≡ true → Unmarked line.now }
        ensures told { OnOk result ((lines : List Line) (height : ℕ) → HasTold lines height self.old
            → HasTold (lines ++ line.now ∷ []) height self.new) }
        ensures number { OnOk result (lines_told self.new ≡ lines_told self.old + 1) }
        ensures ended { take (length self.old.ended.items) self.new.ended.items ≡ self.old.ended.items }
        ensures height { self.new.height ≡ self.old.height }
    {
        let to = self.count + 1;
        let last = is_last(line, unmarked);
        if !last && (to as u64) < self.from as u64 + self.height as u64 {
            self.count = to;
            return Ok(());
        }
        self.ended.push(Cut {
            from: self.from,
            to,
        })?;
        self.from = to;
        self.count = to;
        Ok(())
    }

    // Takes lines, and where memory runs out some of them.
    fn add_each(&mut self, lines: &[Line], unmarked: bool) -> Result<(), Memory>
        requires few { lines_told self.old + length lines.now < 2 ^ 32 }
        requires unmarked { unmarked ≡ true → All Unmarked lines.now }
        ensures told { OnOk result ((before : List Line) (height : ℕ) → HasTold before height self.old
            → HasTold (before ++ lines.now) height self.new) }
        ensures ended { take (length self.old.ended.items) self.new.ended.items ≡ self.old.ended.items }
        ensures height { self.new.height ≡ self.old.height }
    {
        for line in lines {
            self.add_line(line, unmarked)?;
        }
        Ok(())
    }

    // Takes lines, or where memory runs out none of them.
    fn add_all(&mut self, lines: &[Line], unmarked: bool) -> Result<(), Memory>
        requires few { lines_told self.old + length lines.now < 2 ^ 32 }
        requires unmarked { unmarked ≡ true → All Unmarked lines.now }
        ensures told { OnOk result ((before : List Line) (height : ℕ) → HasTold before height self.old
            → HasTold (before ++ lines.now) height self.new) }
        ensures err { OnErr result ((before : List Line) (height : ℕ) → HasTold before height self.old
            → HasTold before height self.new) }
    {
        let number = self.ended.len();
        let from = self.from;
        let count = self.count;
        match self.add_each(lines, unmarked) {
            Ok(()) => Ok(()),
            Err(memory) => {
                self.ended.truncate(number);
                self.from = from;
                self.count = count;
                Err(memory)
            }
        }
    }

    /// Takes lines that are after those given so far. There are fewer than 2^32 with these. The one error is `Memory`,
    /// and then just those given before are given.
    pub fn add(&mut self, lines: &[Line]) -> Result<(), Memory>
        requires few { lines_told self.old + length lines.now < 2 ^ 32 }
        ensures told { OnOk result ((before : List Line) (height : ℕ) → HasTold before height self.old
            → HasTold (before ++ lines.now) height self.new) }
        ensures err { OnErr result ((before : List Line) (height : ℕ) → HasTold before height self.old
            → HasTold before height self.new) }
    {
        self.add_all(lines, false)
    }

    /// Takes lines none of which is the last of its page. They are counted, and not looked at.
    pub fn add_unmarked(&mut self, lines: &[Line]) -> Result<(), Memory>
        requires few { lines_told self.old + length lines.now < 2 ^ 32 }
        requires unmarked { All Unmarked lines.now }
        ensures told { OnOk result ((before : List Line) (height : ℕ) → HasTold before height self.old
            → HasTold (before ++ lines.now) height self.new) }
        ensures err { OnErr result ((before : List Line) (height : ℕ) → HasTold before height self.old
            → HasTold before height self.new) }
    {
        self.add_all(lines, true)
    }

    /// The pages of all lines that were given, by the lines' places. The one error is `Memory`.
    pub fn finish(self) -> Result<Vec<Cut>, Memory>
        ensures { IfOk result (λ pages. (lines : List Line) (height : ℕ) → HasTold lines height self
            → PagesFrom lines height 0 pages.items) }
    {
        let mut pages = self.ended;
        if self.from < self.count {
            pages.push(Cut {
                from: self.from,
                to: self.count,
            })?;
        }
        Ok(pages)
    }
}

/// The pages of lines, by their places, on pages of this height, from 5 to 500 lines. A page ends after a line that is
/// the last of its page, after as many lines as the height, or after the last line. No lines give no page. There are
/// fewer than 2^32 lines. The one error is `Memory`.
pub fn pages(alloc: Global, lines: &[Line], height: u32) -> Result<Vec<Cut>, Memory>
    requires least_height { 5 ≤ height }
    requires most_height { height ≤ 500 }
    requires few { length lines.now < 2 ^ 32 }
    ensures { IfOk result (λ pages. PagesFrom lines.now height 0 pages.items) }
{
    let mut paginator = Paginator::new(alloc, height);
    paginator.add(lines)?;
    paginator.finish()
}

/// A law: lines have at most one list of pages of given height. That there is one is the contract of [`pages`].
pub fn one_paging()
    ensures { (lines : List Line) (height : ℕ) (pages others : List Cut) →
        PagesFrom lines height 0 pages → PagesFrom lines height 0 others → pages ≡ others }
{}

/// A law: what is on the pages is, page after page, the lines themselves.
pub fn lines_kept()
    ensures { (lines : List Line) (height : ℕ) (pages : List Cut) → PagesFrom lines height 0 pages →
        flat_map (λ page. slice_range lines page.from page.to) pages ≡ lines }
{}
