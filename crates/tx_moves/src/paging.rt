// The page of a row.
ghost use Rattle.std.specs.Prelude.{◌≡◌, ◌<◌, ◌↔◌, ℕ, List, length, Some, IsSome};
ghost use Rattle.tx_lines.specs.declared.cut.Cut.{Cut as Page};
ghost use Rattle.tx_layout.specs.declared.layout.Line.{Line};
ghost use Rattle.tx_layout.specs.Paging.{PagesFrom};
ghost use Rattle.tx_moves.specs.PageNumbers.{page_of, IsOnPage};

use tx_lines::Cut;

/// The number of the page that a row is on. It goes over the pages, in order.
pub fn page_of(pages: &[Cut], r: u32) -> Option<usize>
    ensures { result ≡ page_of pages.now r }
{
    pages.iter().position(|page| page.from <= r && r < page.to)
}

/// A law: a row that has a page is on it. Of the pages of some lines, each row is on one, which has its number, and
/// what is no row is on none.
pub fn page_law()
    ensures on { (pages : List Page) (r k : ℕ) → page_of pages r ≡ Some k → IsOnPage pages r k }
    ensures only { (lines : List Line) (height : ℕ) (pages : List Page) (r k : ℕ) → PagesFrom lines height 0 pages →
        IsOnPage pages r k → page_of pages r ≡ Some k }
    ensures rows { (lines : List Line) (height : ℕ) (pages : List Page) (r : ℕ) → PagesFrom lines height 0 pages →
        IsSome (page_of pages r) ↔ (r < length lines) }
{}
