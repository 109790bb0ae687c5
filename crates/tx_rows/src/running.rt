// Whole runs of the editor over files in memory.
use std::alloc::Global;
use std::sync::ledger::Ledger;
use tx_base::Steps;
use tx_outside::{MemSink, MemSource, MemStore};
use tx_row_files::{Row, command_words, push_files, push_number, push_text, store_of};
use tx_session::{Status, run};

// The most bytes that a run writes.
const ROOM: usize = 1_000_000;

// What a run is given, and what it writes.
#[derive(Drop)]
struct World {
    words: Vec<String>,
    store: MemStore,
    input: MemSource,
    out: MemSink,
}

fn world_of(alloc: Global, words: &str, row: &Row) -> Option<World> {
    let script = Vec::from_slice(alloc, &row.asked.bytes).ok()?;
    Some(World {
        words: command_words(alloc, words)?,
        store: store_of(alloc, &row.files)?,
        input: MemSource::new(script, Vec::new(alloc)),
        out: MemSink::new(alloc, ROOM, Vec::new(alloc)).ok()?,
    })
}

fn status_of<L: Ledger>(alloc: Global, world: &mut World, steps: &mut Steps<L>) -> Status {
    let World {
        words,
        store,
        input,
        out,
    } = world;
    run(alloc, words, store, input, out, steps)
}

// Runs, and appends what the run writes, and its status where that isn't 0.
fn push_run<L: Ledger>(
    alloc: Global,
    world: &mut World,
    out: &mut Vec<u8>,
    steps: &mut Steps<L>,
) -> Option<()> {
    let status = status_of(alloc, world, steps);
    out.extend_from_slice(world.out.written()).ok()?;
    if status != Status::Ok {
        push_text("status ", out)?;
        push_number(alloc, usize::from(status.number()), out)?;
        push_text("\n", out)?;
    }
    Some(())
}

// Appends what a run of these words over the row's files and script writes, its status where that isn't 0, and the
// files that the row names.
pub(crate) fn answer_run<L: Ledger>(
    alloc: Global,
    words: &str,
    row: &mut Row,
    out: &mut Vec<u8>,
    steps: &mut Steps<L>,
) -> Option<()> {
    row.end_file(alloc)?;
    let mut world = world_of(alloc, words, row)?;
    push_run(alloc, &mut world, out, steps)?;
    push_files(&world.store, &row.saved, out)
}
