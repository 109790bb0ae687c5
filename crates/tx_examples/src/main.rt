//! Examples of use of the view and of sessions, one function each. `main` prints what each one returns, and the READMEs
//! of `tx_view` and `tx_session` quote the functions. `tx_low_examples` has those of the libraries below the view.
#![tactic(auto)]

ghost use Rattle.std.specs.Prelude.{◌≡◌};

use std::alloc::Global;
use std::marker::Brand;
use std::process::ExitCode;
use std::sync::ledger::{Blank, Ledger};
use tx_base::Steps;
use tx_doc::{Buffer, Name};
use tx_outside::{MemSink, MemStore};
use tx_session::Session;
use tx_view::View;

// The buffer of a TM document, under a name.
fn buffer_of<L: Ledger>(
    alloc: Global,
    name: &[u8],
    bytes: &[u8],
    steps: &mut Steps<L>,
) -> Option<Buffer> {
    let tree = tx_tm_read::read(alloc, bytes, steps).ok()?;
    let name = Name::from(Vec::from_slice(alloc, name).ok()?);
    Some(Buffer { name, tree })
}

// `tx_view`: shows a TM document on pages of 40 columns and 24 lines.
fn shown<L: Ledger>(alloc: Global, steps: &mut Steps<L>) -> Option<String> {
    let bytes = b"<section|Hi>\n\nAn <em|important> note.";
    let buffers = vec![in alloc; buffer_of(alloc, b"note", bytes, steps)?].ok()?;
    let mut view = View::new(alloc, &buffers, 40, 24, steps).ok()?;
    pages_and_place(alloc, &mut view, steps)
}

// The pages of a view, and the place of the document that its row 1, column 4 shows.
fn pages_and_place<L: Ledger>(
    alloc: Global,
    view: &mut View,
    steps: &mut Steps<L>,
) -> Option<String> {
    view.refresh(alloc, steps).ok()?;
    let mut out = MemSink::new(alloc, 1000, Vec::new(alloc)).ok()?;
    tx_print::print_pages(view, &mut out).ok()?;
    let place = view.position(1, 4)?.place(alloc).ok()?;
    format!(in alloc; "{}place {place}", str::from_utf8(out.written()).ok()?).ok()
}

// `tx_session`: carries out two commands over a document.
fn carried_out<L: Ledger>(alloc: Global, steps: &mut Steps<L>) -> Option<String> {
    let bytes = b"An <em|important> note.";
    let buffers = vec![in alloc; buffer_of(alloc, b"note", bytes, steps)?].ok()?;
    let mut session = Session::start(alloc, buffers, 40, 24, steps).ok()?;
    replies(alloc, &mut session, &["type \"So: \"", "show"], steps)
}

// What a session replies to these lines.
fn replies<L: Ledger>(
    alloc: Global,
    session: &mut Session,
    lines: &[&str],
    steps: &mut Steps<L>,
) -> Option<String> {
    let mut store = MemStore::new(Vec::new(alloc), Vec::new(alloc));
    let mut out = MemSink::new(alloc, 1000, Vec::new(alloc)).ok()?;
    for line in lines {
        let command = tx_cmd::parse(alloc, line.as_bytes(), steps).ok()?;
        let next = session.step(alloc, &command, &mut store, &mut out, steps);
        next.ok()?;
    }
    format!(in alloc; "{}", str::from_utf8(out.written()).ok()?).ok()
}

// Prints what an example returned. False where it returned nothing, or the output failed.
fn printed<R: Print>(rt: &R, name: &str, returned: &Option<String>) -> bool {
    match returned {
        Some(text) => println!(rt; "{name}: {text}").is_ok(),
        None => false,
    }
}

// Prints all examples.
fn print_all<R: Print + AllocGlobal, L: Ledger>(rt: &R, blank: Blank) -> bool
    requires name { blank.name ≡ L.name }
    requires parts { blank.parts ≡ L.parts }
    requires whole { blank.parts ≡ 1 }
{
    let alloc = rt.alloc();
    let mut steps = Steps::<L>::new(blank);
    printed(rt, "tx_view", &shown(alloc, &mut steps))
        && printed(rt, "tx_session", &carried_out(alloc, &mut steps))
}

fn main(rt: HostRuntime) -> ExitCode {
    if print_all::<HostRuntime, Brand>(&rt, Blank::new(1)) {
        ExitCode::from(0)
    } else {
        ExitCode::from(1)
    }
}
