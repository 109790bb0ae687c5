// The pages of units, and how many rows and errors come before each.
ghost use Rattle.std.specs.Prelude.{◌≡◌, ◌≤◌, ◌<◌, ◌^◌, [], ◌∷◌, All, length, IfOk};
ghost use Rattle.tx_view_form.specs.Views.{lines_of};
ghost use Rattle.tx_view_form.specs.Errors.{errors_of};
ghost use Rattle.tx_layout.specs.Paging.{PagesFrom};
ghost use Rattle.tx_moves.specs.PageNumbers.{page_of};
ghost use Rattle.tx_view.specs.Units.{unit_views, IsBelow};
ghost use Rattle.tx_view.specs.Lone.{IsPaged};

use crate::searching::{first_errors, first_rows};
use std::alloc::Global;
use tx_base::Memory;
use tx_layout::Paginator;
use tx_lines::Cut;
use tx_unit_layout::Shown;

/// The pages of units, how many rows and how many errors come before each unit, and how many there are.
#[derive(Drop)]
pub(crate) struct Pagination {
    pub(crate) pages: Vec<Cut>,
    pub(crate) rows: Vec<u32>,
    pub(crate) errors: Vec<u32>,
}

// The sums before no unit.
fn zero(alloc: Global) -> Result<Vec<u32>, Memory>
    ensures { IfOk result (λ sums. sums.items ≡ 0 ∷ []) }
{
    let sums = vec![in alloc; 0u32]?;
    Ok(sums)
}

/// That of no units.
pub(crate) fn nothing_paged(alloc: Global) -> Result<Pagination, Memory>
    ensures pages { IfOk result (λ p. p.pages.items ≡ []) }
    ensures rows { IfOk result (λ p. p.rows.items ≡ 0 ∷ []) }
    ensures errors { IfOk result (λ p. p.errors.items ≡ 0 ∷ []) }
{
    Ok(Pagination {
        pages: Vec::new(alloc),
        rows: zero(alloc)?,
        errors: zero(alloc)?,
    })
}

// The pages of units.
fn paged(alloc: Global, units: &[Shown], height: u32) -> Result<Vec<Cut>, Memory>
    requires least_height { 5 ≤ height }
    requires most_height { height ≤ 500 }
    requires few { length (lines_of (unit_views units.now)) < 2 ^ 32 }
    ensures { IfOk result (λ cuts. PagesFrom (lines_of (unit_views units.now)) height 0 cuts.items) }
{
    let mut paginator = Paginator::new(alloc, height);
    for unit in units {
        unit.tell(&mut paginator)?;
    }
    paginator.finish()
}

/// That of these units.
pub(crate) fn all_paged(alloc: Global, units: &[Shown], height: u32) -> Result<Pagination, Memory>
    requires least_height { 5 ≤ height }
    requires most_height { height ≤ 500 }
    requires few { length (lines_of (unit_views units.now)) < 2 ^ 32 }
    requires below { All IsBelow units.now }
    requires few_errors { length (errors_of (unit_views units.now)) < 2 ^ 32 }
    ensures { IfOk result (λ p. IsPaged height (unit_views units.now) p) }
{
    Ok(Pagination {
        pages: paged(alloc, units, height)?,
        rows: first_rows(alloc, units)?,
        errors: first_errors(alloc, units)?,
    })
}

/// The number of the page of a row, from 0.
pub(crate) fn page_of(pages: &[Cut], r: u32) -> Option<u32>
    requires { length pages.now < 2 ^ 32 }
    ensures { result ≡ page_of pages.now r }
{
    match tx_moves::page_of(pages, r) {
        None => None,
        Some(number) => Some(number as u32),
    }
}
