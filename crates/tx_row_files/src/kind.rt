// Kinds of rows.
use crate::lines::Mark;
use crate::row::Row;
use std::alloc::Global;
use std::sync::ledger::Ledger;
use tx_base::Steps;

/// The kinds of rows that a program tries.
pub trait RowKind: Copy {
    /// The kind of the rows that a line begins with this word and what follows it.
    fn named(word: &str, rest: &str) -> Option<Self>;

    /// Whether a row of the kind has files, and goes on up to an empty line.
    fn has_files(self) -> bool;

    /// Whether a row of the kind may have a line with this mark, in a file or elsewhere.
    fn takes(self, mark: Mark, is_in_file: bool) -> bool;

    /// Appends the result of a row of this kind, whose head has these words after its first. None where it has none, as
    /// where its tree can't be read, and where memory runs out.
    fn push_result<L: Ledger>(
        self,
        alloc: Global,
        words: &str,
        row: &mut Row,
        out: &mut Vec<u8>,
        steps: &mut Steps<L>,
    ) -> Option<()>;
}
