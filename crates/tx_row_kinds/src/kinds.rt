// The kinds of rows that try one call, and the result of a row of each kind.
use crate::applying::answer_apply;
use crate::clustering::answer_clusters;
use crate::evaluating::{answer_eval, answer_value};
use crate::opening::answer_words;
use crate::reading::{answer_judge, answer_read};
use crate::writing::answer_write;
use std::alloc::Global;
use std::sync::ledger::Ledger;
use tx_base::Steps;
use tx_doc::Form;
use tx_row_files::{Mark, Row, RowKind};

/// A kind of rows that try one call of a library. They have no files.
#[derive(Clone, Copy)]
pub enum CallKind {
    /// What bytes in the syntax spell.
    Read(Form),
    /// Whether bytes in the syntax spell a tree.
    Judge(Form),
    /// The TM text of a tree.
    Write,
    /// The value of a tree, with origins, looks, writes, cost and height.
    Eval,
    /// The value of a tree alone.
    Value,
    /// What a modification makes of a tree, and where places and paths are afterwards.
    Apply,
    /// The clusters of a text.
    Clusters,
    /// What a command line asks for.
    Words,
}

impl RowKind for CallKind {
    fn named(word: &str, rest: &str) -> Option<CallKind> {
        match (word, rest) {
            ("read", "scheme") => Some(CallKind::Read(Form::Scheme)),
            ("read", "tm") => Some(CallKind::Read(Form::Tm)),
            ("judge", "scheme") => Some(CallKind::Judge(Form::Scheme)),
            ("judge", "tm") => Some(CallKind::Judge(Form::Tm)),
            ("write", "tm") => Some(CallKind::Write),
            ("eval", "") => Some(CallKind::Eval),
            ("value", "") => Some(CallKind::Value),
            ("apply", "") => Some(CallKind::Apply),
            ("clusters", "") => Some(CallKind::Clusters),
            ("words", "") => Some(CallKind::Words),
            _ => None,
        }
    }

    fn has_files(self) -> bool {
        false
    }

    fn takes(self, mark: Mark, _is_in_file: bool) -> bool {
        match self {
            CallKind::Eval | CallKind::Value | CallKind::Apply => true,
            _ => mark != Mark::Given,
        }
    }

    fn push_result<L: Ledger>(
        self,
        alloc: Global,
        _words: &str,
        row: &mut Row,
        out: &mut Vec<u8>,
        steps: &mut Steps<L>,
    ) -> Option<()> {
        match self {
            CallKind::Read(form) => answer_read(alloc, form, &row.asked.bytes, out, steps),
            CallKind::Judge(form) => answer_judge(alloc, form, &row.asked.bytes, out, steps),
            CallKind::Write => answer_write(alloc, &row.asked.bytes, out, steps),
            CallKind::Eval => answer_eval(alloc, row, out, steps),
            CallKind::Value => answer_value(alloc, row, out, steps),
            CallKind::Apply => answer_apply(alloc, row, out, steps),
            CallKind::Clusters => answer_clusters(alloc, &row.asked.bytes, out, steps),
            CallKind::Words => answer_words(alloc, &row.asked.bytes, out),
        }
    }
}
