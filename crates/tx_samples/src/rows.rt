// Tables, and their first row that doesn't hold.
ghost use Rattle.std.specs.Prelude.{◌≡◌};

use std::alloc::Global;
use std::sync::ledger::{Blank, Ledger};
use tx_base::Steps;

/// A row of a table.
pub trait Row {
    /// Whether the row holds. None where that can't be decided, as when out of memory.
    fn holds<L: Ledger>(&self, alloc: Global, steps: &mut Steps<L>) -> Option<bool>;
}

/// The number of the first row that doesn't hold, or that can't be decided.
pub fn first_untrue<L: Ledger, R: Row>(alloc: Global, rows: &[R], blank: Blank) -> Option<usize>
    requires name { blank.name ≡ L.name }
    requires parts { blank.parts ≡ L.parts }
    requires whole { blank.parts ≡ 1 }
{
    let mut steps = Steps::<L>::new(blank);
    for (i, row) in rows.iter().enumerate() {
        if row.holds(alloc, &mut steps) != Some(true) {
            return Some(i);
        }
    }
    None
}
