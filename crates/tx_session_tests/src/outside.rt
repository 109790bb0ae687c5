// What a run has outside itself: files, an input and an output in memory; and what came of the run.
ghost use Rattle.tx_outside.specs.InMemory.{seen_source};

use std::alloc::{AllocError, Global};
use std::sync::ledger::Ledger;
use tx_base::Steps;
use tx_outside::{Failed, MemSink, MemSource, MemStore, Source, Store};
use tx_session::{Status, run};

// How a run is set up: the files of the store, the words between bars, the script, the call of the store, of the input
// and of the sink that fails, if one does, the room of the sink, and whether the input gives one byte a call.
#[derive(Clone, Copy)]
pub(crate) struct Setup {
    pub(crate) files: &'static [(&'static str, &'static str)],
    pub(crate) words: &'static str,
    pub(crate) script: &'static str,
    pub(crate) store_failing: Option<u64>,
    pub(crate) input_failing: Option<u64>,
    pub(crate) sink_failing: Option<u64>,
    pub(crate) room: usize,
    pub(crate) slowly: bool,
}

// The file `a.scm` with the tree `(f)`, and no fault.
pub(crate) const OF_A: Setup = Setup {
    files: &[("a.scm", "(f )")],
    words: "tmx|a.scm",
    script: "",
    store_failing: None,
    input_failing: None,
    sink_failing: None,
    room: 500,
    slowly: false,
};

// A source that gives one byte a call, and counts the calls.
#[derive(Drop)]
struct SlowSource {
    source: MemSource,
    reads: usize,
}

impl Source for SlowSource {
    ghost seen = { λ slow. seen_source slow.source };

    fn read(&mut self, into: &mut [u8]) -> Result<usize, Failed> {
        let mut one = [0u8];
        self.reads = self.reads.saturating_add(1);
        let count = self.source.read(&mut one)?;
        if count > 0 {
            into[0] = one[0];
        }
        Ok(count)
    }
}

// What a run is given.
#[derive(Drop)]
struct Outside {
    words: Vec<String>,
    store: MemStore,
    input: SlowSource,
    out: MemSink,
}

// What came of a run: its status, what it wrote, how often the input was read a byte a call, and what a file then
// holds, or `none`.
#[derive(Drop)]
pub(crate) struct Ended {
    pub(crate) status: Status,
    pub(crate) written: Vec<u8>,
    pub(crate) reads: usize,
    pub(crate) file: Vec<u8>,
}

pub(crate) fn words_of(alloc: Global, words: &str) -> Result<Vec<String>, AllocError> {
    let mut owned = Vec::new(alloc);
    for word in words.split('|') {
        owned.push(String::from_str(alloc, word)?)?;
    }
    Ok(owned)
}

// The list of the call that fails, if one does, where others are made first.
pub(crate) fn failing_calls(
    alloc: Global,
    others: usize,
    failing: Option<u64>,
) -> Result<Vec<u64>, AllocError> {
    let mut calls = Vec::new(alloc);
    if let Some(call) = failing {
        calls.push(call.saturating_add(others as u64))?;
    }
    Ok(calls)
}

fn sink_of(alloc: Global, setup: &Setup) -> Result<MemSink, AllocError> {
    let calls = failing_calls(alloc, 0, setup.sink_failing)?;
    match MemSink::new(alloc, setup.room, calls) {
        Ok(sink) => Ok(sink),
        Err(_) => Err(AllocError),
    }
}

// What the run is given, but for the files.
fn outside_of(alloc: Global, setup: &Setup) -> Result<Outside, AllocError> {
    let words = words_of(alloc, setup.words)?;
    let script = Vec::from_slice(alloc, setup.script.as_bytes())?;
    let loads = failing_calls(alloc, setup.files.len(), setup.store_failing)?;
    let reads = failing_calls(alloc, 0, setup.input_failing)?;
    let out = sink_of(alloc, setup)?;
    Ok(Outside {
        words,
        store: MemStore::new(Vec::new(alloc), loads),
        input: SlowSource {
            source: MemSource::new(script, reads),
            reads: 0,
        },
        out,
    })
}

fn put_files(
    store: &mut MemStore,
    files: &[(&'static str, &'static str)],
) -> Result<(), AllocError> {
    for (name, bytes) in files {
        if store.save(name.as_bytes(), bytes.as_bytes()).is_err() {
            return Err(AllocError);
        }
    }
    Ok(())
}

// The status of the run.
fn status_of<L: Ledger>(
    alloc: Global,
    outside: &mut Outside,
    slowly: bool,
    steps: &mut Steps<L>,
) -> Status {
    let Outside {
        words,
        store,
        input,
        out,
    } = outside;
    if slowly {
        run(alloc, words, store, input, out, steps)
    } else {
        run(alloc, words, store, &mut input.source, out, steps)
    }
}

fn came_of(
    alloc: Global,
    status: Status,
    outside: &Outside,
    file: &str,
) -> Result<Ended, AllocError> {
    let held = outside.store.file(file.as_bytes()).unwrap_or(b"none");
    Ok(Ended {
        status,
        written: Vec::from_slice(alloc, outside.out.written())?,
        reads: outside.input.reads,
        file: Vec::from_slice(alloc, held)?,
    })
}

fn ran_in<L: Ledger>(
    alloc: Global,
    setup: &Setup,
    outside: &mut Outside,
    file: &str,
    steps: &mut Steps<L>,
) -> Result<Ended, AllocError> {
    put_files(&mut outside.store, setup.files)?;
    let status = status_of(alloc, outside, setup.slowly, steps);
    came_of(alloc, status, outside, file)
}

// What comes of the run, and what this file then holds.
pub(crate) fn ran<L: Ledger>(
    alloc: Global,
    setup: &Setup,
    file: &str,
    steps: &mut Steps<L>,
) -> Result<Ended, AllocError> {
    let mut outside = outside_of(alloc, setup)?;
    ran_in(alloc, setup, &mut outside, file, steps)
}
