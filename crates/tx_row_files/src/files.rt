// The files that a program of rows tries.
ghost use Rattle.std.specs.Prelude.{◌≡◌};

use crate::kind::RowKind;
use crate::report::{push_number, push_text};
use crate::table::{Counts, try_rows};
use std::alloc::Global;
use std::process::ExitCode;
use std::rt::{Env, Files};
use std::sync::ledger::{Blank, Ledger};
use std::{env, io};
use tx_base::Steps;
use tx_outside::{Store, write_all};
use tx_system::{FileStore, StandardOutput};

// The bytes of a file.
fn file_bytes<R: Files>(alloc: Global, rt: &R, name: &str) -> Option<Vec<u8>> {
    let mut bytes = Vec::new(alloc);
    let mut store = FileStore::new(alloc, rt);
    store.load(name.as_bytes(), &mut bytes).ok()?;
    Some(bytes)
}

// Reports how many rows a file has, and how many of them differ.
fn report_counts(alloc: Global, name: &str, counts: Counts, report: &mut Vec<u8>) -> Option<()> {
    push_text(name, report)?;
    push_text(": ", report)?;
    push_number(alloc, counts.rows, report)?;
    push_text(" rows, ", report)?;
    push_number(alloc, counts.differ, report)?;
    push_text(" differ\n", report)
}

// Tries the rows of a file. None where the file can't be read.
fn try_file<K: RowKind, R: Files, L: Ledger>(
    alloc: Global,
    rt: &R,
    name: &str,
    report: &mut Vec<u8>,
    steps: &mut Steps<L>,
) -> Option<()> {
    let bytes = file_bytes(alloc, rt, name)?;
    let counts = try_rows::<K, L>(alloc, name, &bytes, report, steps)?;
    report_counts(alloc, name, counts, report)
}

// Tries the files of these names, in order. Returns whether all could be read.
fn try_files<K: RowKind, R: Files, L: Ledger>(
    alloc: Global,
    rt: &R,
    names: &[String],
    report: &mut Vec<u8>,
    blank: Blank,
) -> Option<bool>
    requires name { blank.name ≡ L.name }
    requires parts { blank.parts ≡ L.parts }
    requires whole { blank.parts ≡ 1 }
{
    let mut steps = Steps::<L>::new(blank);
    let mut all = true;
    for name in names {
        match try_file::<K, R, L>(alloc, rt, name, report, &mut steps) {
            Some(()) => {}
            None => {
                all = false;
                push_text(name, report)?;
                push_text(": can't be read\n", report)?;
            }
        }
    }
    Some(all)
}

// The words of the command line after the program's name.
fn file_names<R: Env + AllocGlobal>(rt: &R) -> Option<Vec<String>> {
    let mut names = Vec::new(rt.alloc());
    for (number, word) in env::args(rt).ok()?.enumerate() {
        if number > 0 {
            names.push(word).ok()?;
        }
    }
    Some(names)
}

/// Tries all files that the command line names and prints the report. Returns whether all could be read. None where
/// memory runs out or the report can't be written.
pub fn try_all<K: RowKind, R: Env + Files + Print + AllocGlobal, L: Ledger>(
    rt: &R,
    blank: Blank,
) -> Option<bool>
    requires name { blank.name ≡ L.name }
    requires parts { blank.parts ≡ L.parts }
    requires whole { blank.parts ≡ 1 }
{
    let names = file_names(rt)?;
    let mut report = Vec::new(rt.alloc());
    let all = try_files::<K, R, L>(rt.alloc(), rt, &names, &mut report, blank)?;
    let mut output = StandardOutput::new(io::writer(rt));
    write_all(&mut output, &report).ok()?;
    Some(all)
}

/// The code with which a program of rows ends: 0 where all files could be read, 1 where not, and else 2.
pub fn exit_code(tried: Option<bool>) -> ExitCode {
    match tried {
        Some(true) => ExitCode::from(0),
        Some(false) => ExitCode::from(1),
        None => ExitCode::from(2),
    }
}
