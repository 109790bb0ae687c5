// The program.
ghost use Rattle.std.specs.Prelude.{◌≡◌};
ghost use Rattle.std.specs.Process.{exit_status};
ghost use Rattle.tx_session.specs.Statuses.{status_number};
ghost use Rattle.tx_session.specs.declared.status.Status.{Status as HowItEnds};

use crate::reasons::{refused_because, unopened_because};
use std::alloc::AllocError;
use std::io::ErrorKind;
use std::marker::Brand;
use std::process::ExitCode;
use std::rt::{Env, Files};
use std::sync::ledger::{Blank, Ledger};
use std::{env, io};
use tx_base::{Memory, Steps};
use tx_session::{Status, run};
use tx_system::{FileStore, StandardInput, StandardOutput};

/// The words of the command line. Where memory sufficed, there are none if they can't be had or are no text.
pub fn words<R: Env + AllocGlobal>(rt: &R) -> Result<Vec<String>, AllocError> {
    let mut words = Vec::new(rt.alloc());
    match env::args(rt) {
        Ok(args) => {
            for word in args {
                words.push(word)?;
            }
        }
        Err(cause) => {
            if cause.kind() == ErrorKind::OutOfMemory {
                return Err(AllocError);
            }
        }
    }
    Ok(words)
}

// Runs the program, with a count of steps that nobody asks for.
fn run_counted<R: Files + Print + Input + AllocGlobal, L: Ledger>(
    rt: &R,
    words: &[String],
    blank: Blank,
) -> Status
    requires name { blank.name ≡ L.name }
    requires parts { blank.parts ≡ L.parts }
    requires whole { blank.parts ≡ 1 }
{
    let mut steps = Steps::<L>::new(blank);
    let mut store = FileStore::new(rt.alloc(), rt);
    let mut input = StandardInput::new(rt.reader());
    let mut output = StandardOutput::new(io::writer(rt));
    run(
        rt.alloc(),
        words,
        &mut store,
        &mut input,
        &mut output,
        &mut steps,
    )
}

// Memory ran out before the words were at hand.
fn run_without_words<R: Print>(rt: &R) -> Status {
    match println!(rt; "memory") {
        Ok(()) => Status::NoMemory,
        Err(_) => Status::OutputFault,
    }
}

// Why the words or a file were refused, where the run ended so.
fn reason<R: Files + AllocGlobal, L: Ledger>(
    rt: &R,
    words: &[String],
    status: Status,
    blank: Blank,
) -> Result<Option<String>, Memory>
    requires name { blank.name ≡ L.name }
    requires parts { blank.parts ≡ L.parts }
    requires whole { blank.parts ≡ 1 }
{
    match status {
        Status::Words => refused_because(rt.alloc(), words),
        Status::Missing | Status::Refused | Status::StoreFault => {
            let mut steps = Steps::<L>::new(blank);
            let mut store = FileStore::new(rt.alloc(), rt);
            unopened_because(rt.alloc(), words, &mut store, &mut steps)
        }
        _ => Ok(None),
    }
}

// Says on the standard error why the words or a file were refused, where the run ended so.
fn explain<R: Files + Eprint + AllocGlobal>(rt: &R, words: &[String], status: Status) {
    if let Ok(Some(text)) = reason::<R, Brand>(rt, words, status, Blank::new(1)) {
        let _ = eprintln!(rt; "tmx: {text}");
    }
}

/// The code with which the program ends.
pub fn exit_code(status: Status) -> ExitCode
    ensures { exit_status result ≡ status_number status }
{
    ExitCode::from(status.number())
}

/// Runs the program over the words of its command line, the files, the standard input and the standard output, as `run`
/// of `tx_session` says. Where words or a file are refused, it also says why on the standard error. It ends with the
/// number of the status.
pub fn run_program<R: Env + Files + Print + Eprint + Input + AllocGlobal>(rt: &R) -> ExitCode
    ensures { (status : HowItEnds) × (exit_status result ≡ status_number status) }
{
    let status = match words(rt) {
        Ok(words) => {
            let status = run_counted::<R, Brand>(rt, &words, Blank::new(1));
            explain(rt, &words, status);
            status
        }
        Err(AllocError) => run_without_words(rt),
    };
    exit_code(status)
}
