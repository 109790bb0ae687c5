// The kinds of rows, and the result of a row of each kind.
use crate::running::answer_run;
use std::alloc::Global;
use std::sync::ledger::Ledger;
use tx_base::Steps;
use tx_row_files::{Mark, Row, RowKind};
use tx_row_kinds::CallKind;

// A run of the editor, or one call of a library.
#[derive(Clone, Copy)]
pub(crate) enum Kind {
    Run,
    Call(CallKind),
}

impl RowKind for Kind {
    fn named(word: &str, rest: &str) -> Option<Kind> {
        if word == "run" {
            return Some(Kind::Run);
        }
        let kind = CallKind::named(word, rest)?;
        Some(Kind::Call(kind))
    }

    fn has_files(self) -> bool {
        match self {
            Kind::Run => true,
            Kind::Call(kind) => kind.has_files(),
        }
    }

    fn takes(self, mark: Mark, is_in_file: bool) -> bool {
        match self {
            Kind::Run => mark != Mark::Given || is_in_file,
            Kind::Call(kind) => kind.takes(mark, is_in_file),
        }
    }

    fn push_result<L: Ledger>(
        self,
        alloc: Global,
        words: &str,
        row: &mut Row,
        out: &mut Vec<u8>,
        steps: &mut Steps<L>,
    ) -> Option<()> {
        match self {
            Kind::Run => answer_run(alloc, words, row, out, steps),
            Kind::Call(kind) => kind.push_result(alloc, words, row, out, steps),
        }
    }
}
