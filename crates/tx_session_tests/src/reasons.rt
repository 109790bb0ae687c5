// Why files aren't opened, in words for people.
use crate::outside::{failing_calls, words_of};
use std::alloc::Global;
use std::marker::Brand;
use std::sync::ledger::{Blank, Ledger};
use tx_base::Steps;
use tx_outside::{MemStore, Store};
use tx_program::unopened_because;
use tx_samples::{Row, first_untrue};

// Words between bars, the bytes of `a.scm` or of `a.tm`, the load that fails, if one does, and the reason, or `none`.
struct ReasonRow(&'static str, &'static str, Option<u64>, &'static str);

const REASONS: &[ReasonRow] = &[
    ReasonRow("tmx|a.scm", "(f)", None, "none"),
    ReasonRow("tmx", "(f)", None, "none"),
    ReasonRow("tmx|a.scm|b.scm", "(f)", None, "there is no file b.scm"),
    ReasonRow("tmx|a.scm", "(f)", Some(0), "a.scm can't be read"),
    ReasonRow(
        "tmx|a.scm",
        "(f",
        None,
        "a.scm: line 1, column 3: unfinished at 2",
    ),
    ReasonRow(
        "tmx|a.scm",
        "(f\n\n  ) \"x\"",
        None,
        "a.scm: line 3, column 5: more than a tree at 8",
    ),
    ReasonRow(
        "tmx|a.tm",
        "one\n<em|two>\n<\\a></b>",
        None,
        "a.tm: line 3, column 7: another label at 19 than that of the tag at 13",
    ),
];

// A store with the files of a row.
fn store_of(alloc: Global, row: &ReasonRow) -> Option<MemStore> {
    let loads = failing_calls(alloc, 2, row.2).ok()?;
    let mut store = MemStore::new(Vec::new(alloc), loads);
    store.save(b"a.scm", row.1.as_bytes()).ok()?;
    store.save(b"a.tm", row.1.as_bytes()).ok()?;
    Some(store)
}

impl ReasonRow {
    fn is_said<L: Ledger>(
        &self,
        alloc: Global,
        store: &mut MemStore,
        steps: &mut Steps<L>,
    ) -> Option<bool> {
        let words = words_of(alloc, self.0).ok()?;
        let reason = unopened_because(alloc, &words, store, steps).ok()?;
        Some(match &reason {
            Some(text) => text.as_str() == self.3,
            None => self.3 == "none",
        })
    }
}

impl Row for ReasonRow {
    fn holds<L: Ledger>(&self, alloc: Global, steps: &mut Steps<L>) -> Option<bool> {
        let mut store = store_of(alloc, self)?;
        self.is_said(alloc, &mut store, steps)
    }
}

#[test]
fn reasons_why_files_are_not_opened(rt: HostRuntime) {
    let wrong = first_untrue::<Brand, _>(rt.alloc(), REASONS, Blank::new(1));
    assert_eq!(rt; wrong, None);
}
