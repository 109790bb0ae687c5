// Lines, with what is known of them.
ghost use Rattle.std.specs.Prelude.{◌≡◌, ℕ, List, ◌+◌, ◌<◌, ◌^◌, ◌++◌, [], length, false, All, OnOk, OnErr, IsFalse};
ghost use Rattle.std.specs.Prelude.{IsTrue};
ghost use Rattle.tx_layout.specs.declared.layout.Line.{Line as Shape};
ghost use Rattle.tx_layout.specs.Paging.{Unmarked};
ghost use Rattle.tx_layout.specs.Told.{HasTold, lines_told};

use std::alloc::Global;
use std::marker::Model;
use tx_base::Memory;
use tx_layout::{Line, Paginator};

/// Lines. Contracts see their list.
#[derive(Drop)]
pub struct LineList {
    all: Vec<Line>,
    // Whether one of them may end its page. Else pages are cut without a look at them.
    marked: bool,
}

impl Model for LineList {
    ghost use Rattle.std.specs.Prelude.{◌≡◌, false, List, All};
    ghost use Rattle.tx_layout.specs.declared.layout.Line.{Line};
    ghost use Rattle.tx_layout.specs.Paging.{Unmarked};

    ghost Value = { List Line };

    ghost view = { λ l. l.all.items };

    ghost invariant = { λ l. l.marked ≡ false → All Unmarked l.all.items };
}

// Whether one of the lines ends its page.
fn is_marked(lines: &[Line]) -> bool
    ensures { IsFalse result → All Unmarked lines.now }
{
    for line in lines {
        if line.page_end {
            return true;
        }
    }
    false
}

impl LineList {
    /// No lines.
    pub fn none(alloc: Global) -> LineList
        ensures { result ≡ [] }
    {
        LineList {
            all: Vec::new(alloc),
            marked: false,
        }
    }

    /// These lines.
    pub fn new(lines: Vec<Line>) -> LineList
        ensures { result ≡ lines.items }
    {
        let marked = is_marked(&lines);
        LineList { all: lines, marked }
    }

    /// All of them.
    pub fn all(&self) -> &[Line]
        ensures { result.now ≡ self.now }
    {
        &self.all
    }

    /// No line ends its page. False says nothing.
    pub fn is_unmarked(&self) -> bool
        ensures { IsTrue result → All Unmarked self.now }
    {
        !self.marked
    }

    /// Gives the paginator these lines. After `Memory` it has only those that it was given before.
    pub fn tell(&self, paginator: &mut Paginator) -> Result<(), Memory>
        requires few { lines_told paginator.old + length self.now < 2 ^ 32 }
        ensures told { OnOk result ((before : List Shape) (height : ℕ) → HasTold before height paginator.old
            → HasTold (before ++ self.now) height paginator.new) }
        ensures err { OnErr result ((before : List Shape) (height : ℕ) → HasTold before height paginator.old
            → HasTold before height paginator.new) }
    {
        if self.marked {
            paginator.add(&self.all)
        } else {
            paginator.add_unmarked(&self.all)
        }
    }
}
