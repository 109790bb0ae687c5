// The helper of tables, which tests of other crates use.
use std::alloc::Global;
use std::marker::Brand;
use std::sync::ledger::{Blank, Ledger};
use tx_base::Steps;
use tx_samples::{Row, first_untrue};

// A row that says whether it holds.
struct SaidRow(Option<bool>);

impl Row for SaidRow {
    fn holds<L: Ledger>(&self, _alloc: Global, _steps: &mut Steps<L>) -> Option<bool> {
        self.0
    }
}

const ALL_HOLD: &[SaidRow] = &[SaidRow(Some(true)), SaidRow(Some(true))];

const SECOND_FALSE: &[SaidRow] = &[SaidRow(Some(true)), SaidRow(Some(false)), SaidRow(None)];

const FIRST_UNTOLD: &[SaidRow] = &[SaidRow(None), SaidRow(Some(false))];

#[test]
fn no_row_is_told_where_all_hold(rt: HostRuntime) {
    let first = first_untrue::<Brand, _>(rt.alloc(), ALL_HOLD, Blank::new(1));
    assert_eq!(rt; first, None);
}

#[test]
fn the_first_row_that_is_false_is_told(rt: HostRuntime) {
    let first = first_untrue::<Brand, _>(rt.alloc(), SECOND_FALSE, Blank::new(1));
    assert_eq!(rt; first, Some(1));
}

#[test]
fn a_row_of_which_nothing_can_be_told_is_told(rt: HostRuntime) {
    let first = first_untrue::<Brand, _>(rt.alloc(), FIRST_UNTOLD, Blank::new(1));
    assert_eq!(rt; first, Some(0));
}
