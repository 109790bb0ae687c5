// A file of rows.
use crate::kind::RowKind;
use crate::lines::{Line, Mark, Spelling, line_of};
use crate::report::{line_of_difference, push_line, push_number, push_text};
use crate::row::Row;
use std::alloc::Global;
use std::str;
use std::sync::ledger::Ledger;
use tx_base::Steps;

// How many rows there are, and how many of them differ.
#[derive(Clone, Copy)]
pub struct Counts {
    pub rows: usize,
    pub differ: usize,
}

// A file of rows, as far as it is read.
#[derive(Drop)]
struct Table<'a, K: RowKind> {
    // The file's name.
    name: &'a str,
    // The kind of the rows, and the words that follow it.
    kind: Option<K>,
    words: &'a str,
    // The row that is being read.
    row: Row,
    counts: Counts,
}

// Begins a line of the report, about this line of the file.
fn report_at(alloc: Global, name: &str, number: usize, report: &mut Vec<u8>) -> Option<()> {
    push_text(name, report)?;
    push_text(":", report)?;
    push_number(alloc, number, report)?;
    push_text(": ", report)
}

// Reports the first line in which the result differs.
fn report_difference(
    alloc: Global,
    name: &str,
    row: &Row,
    answer: &[u8],
    report: &mut Vec<u8>,
) -> Option<()> {
    let line = line_of_difference(&row.wanted.bytes, answer);
    let number = match row.wanted.numbers.get(line) {
        Some(number) => *number,
        None => row.begins,
    };
    report_at(alloc, name, number, report)?;
    push_text("wanted ", report)?;
    push_line(&row.wanted.bytes, line, report)?;
    push_text(", got ", report)?;
    push_line(answer, line, report)?;
    push_text("\n", report)
}

// Whether the result is the lines that are wanted, with a newline after each.
fn is_wanted(row: &Row, answer: &[u8]) -> bool {
    let wanted = row.wanted.bytes.as_slice();
    if row.wanted.is_empty() {
        return answer.is_empty();
    }
    match answer.split_last() {
        Some((last, front)) => *last == b'\n' && front == wanted,
        None => false,
    }
}

impl<'a, K: RowKind> Table<'a, K> {
    // The result of the row that was read. None where it has none.
    fn answer<L: Ledger>(&mut self, alloc: Global, steps: &mut Steps<L>) -> Option<Vec<u8>> {
        let mut answer = Vec::new(alloc);
        let kind = self.kind?;
        kind.push_result(alloc, self.words, &mut self.row, &mut answer, steps)?;
        Some(answer)
    }

    // Tries the row that was read, and reports where it differs.
    fn try_row<L: Ledger>(
        &mut self,
        alloc: Global,
        report: &mut Vec<u8>,
        steps: &mut Steps<L>,
    ) -> Option<()> {
        let answer = self.answer(alloc, steps);
        if let Some(answer) = answer {
            if is_wanted(&self.row, &answer) {
                return Some(());
            }
            self.counts.differ = self.counts.differ.saturating_add(1);
            return report_difference(alloc, self.name, &self.row, &answer, report);
        }
        self.counts.differ = self.counts.differ.saturating_add(1);
        report_at(alloc, self.name, self.row.begins, report)?;
        push_text("this row can't be tried\n", report)
    }

    // Ends the row that is being read, if there is one.
    fn end_row<L: Ledger>(
        &mut self,
        alloc: Global,
        report: &mut Vec<u8>,
        steps: &mut Steps<L>,
    ) -> Option<()> {
        if !self.row.is_empty() {
            self.counts.rows = self.counts.rows.saturating_add(1);
            self.try_row(alloc, report, steps)?;
            self.row.clear(alloc);
        }
        Some(())
    }

    // Whether rows of the kind have files.
    fn has_files(&self) -> bool {
        match self.kind {
            Some(kind) => kind.has_files(),
            None => false,
        }
    }

    // Whether a line with this mark begins another row.
    fn begins_row(&self, mark: Mark) -> bool {
        mark != Mark::Wanted && !self.row.wanted.is_empty() && !self.has_files()
    }

    fn take_text<L: Ledger>(
        &mut self,
        alloc: Global,
        number: usize,
        line: (Mark, &str, Spelling),
        report: &mut Vec<u8>,
        steps: &mut Steps<L>,
    ) -> Option<()> {
        if !self.kind?.takes(line.0, self.row.is_in_file()) {
            return None;
        }
        if self.begins_row(line.0) {
            self.end_row(alloc, report, steps)?;
        }
        if self.row.is_empty() {
            self.row.begins = number;
        }
        self.row.add(number, line.0, line.1, line.2)
    }

    fn take_head<L: Ledger>(
        &mut self,
        alloc: Global,
        number: usize,
        head: (&'a str, &'a str),
        report: &mut Vec<u8>,
        steps: &mut Steps<L>,
    ) -> Option<()> {
        if head.0 == "file" || head.0 == "saved" {
            return self.take_name(alloc, number, head);
        }
        self.end_row(alloc, report, steps)?;
        self.words = head.1;
        self.kind = K::named(head.0, head.1);
        self.kind?;
        Some(())
    }

    // Takes the name of a file that is given, or that is to be saved.
    fn take_name(&mut self, alloc: Global, number: usize, head: (&str, &str)) -> Option<()> {
        if !self.has_files() || head.1.is_empty() {
            return None;
        }
        if self.row.is_empty() {
            self.row.begins = number;
        }
        if head.0 == "file" {
            self.row.begin_file(alloc, head.1)
        } else {
            self.row.begin_saved(alloc, number, head.1)
        }
    }

    fn take_line<L: Ledger>(
        &mut self,
        alloc: Global,
        number: usize,
        line: &'a str,
        report: &mut Vec<u8>,
        steps: &mut Steps<L>,
    ) -> Option<()> {
        match line_of(line) {
            Line::Empty => self.end_row(alloc, report, steps),
            Line::Comment => Some(()),
            Line::Text(mark, text, spelling) => {
                self.take_text(alloc, number, (mark, text, spelling), report, steps)
            }
            Line::Head(word, rest) => self.take_head(alloc, number, (word, rest), report, steps),
            Line::Faulty => None,
        }
    }
}

// Takes all lines of the text. A line that can't be read is reported and left out.
fn take_all<'a, K: RowKind, L: Ledger>(
    alloc: Global,
    table: &mut Table<'a, K>,
    text: &'a str,
    report: &mut Vec<u8>,
    steps: &mut Steps<L>,
) -> Option<()> {
    for (i, line) in text.split('\n').enumerate() {
        let number = i.saturating_add(1);
        if table
            .take_line(alloc, number, line, report, steps)
            .is_none()
        {
            report_at(alloc, table.name, number, report)?;
            push_text("this line can't be read\n", report)?;
        }
    }
    table.end_row(alloc, report, steps)
}

// Tries the rows of a file, reports those that differ, and counts them. None where the bytes aren't UTF-8, or where
// memory runs out.
pub fn try_rows<K: RowKind, L: Ledger>(
    alloc: Global,
    name: &str,
    bytes: &[u8],
    report: &mut Vec<u8>,
    steps: &mut Steps<L>,
) -> Option<Counts> {
    let text = str::from_utf8(bytes).ok()?;
    let mut table: Table<'_, K> = Table {
        name,
        kind: None,
        words: "",
        row: Row::new(alloc),
        counts: Counts { rows: 0, differ: 0 },
    };
    take_all(alloc, &mut table, text, report, steps)?;
    Some(table.counts)
}
