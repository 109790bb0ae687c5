// What trees evaluate to.
use std::alloc::Global;
use std::str;
use std::sync::ledger::Ledger;
use tx_base::Steps;
use tx_env::{Env, Writes};
use tx_exec::{Looks, Outcome, Trace, eval};
use tx_origin::{Ip, Tagged, Value};
use tx_row_files::{Row, push_number, push_text};
use tx_tree::{Text, Tree};

// The steps that an evaluation may take.
const ALLOWANCE: u64 = 1_000_000;

// Sets a name to the tree that follows it.
fn set<L: Ledger>(alloc: Global, env: &mut Env, pair: &str, steps: &mut Steps<L>) -> Option<()> {
    let (name, words) = pair.split_once(' ')?;
    let tree = tx_scm::read(alloc, words.as_bytes(), steps).ok()?;
    env.set(Text::new(alloc, name.as_bytes()).ok()?, tree).ok()
}

// Sets the name of each line.
fn set_all<L: Ledger>(
    alloc: Global,
    env: &mut Env,
    lines: &[u8],
    steps: &mut Steps<L>,
) -> Option<()> {
    for pair in str::from_utf8(lines).ok()?.split('\n') {
        if !pair.is_empty() {
            set(alloc, env, pair, steps)?;
        }
    }
    Some(())
}

// The tree that is asked for, with the root as its origin.
fn tagged_of<L: Ledger>(alloc: Global, row: &Row, steps: &mut Steps<L>) -> Option<Tagged> {
    let tree = tx_scm::read(alloc, &row.asked.bytes, steps).ok()?;
    Some(Tagged {
        tree,
        at: Some(Ip::root()),
    })
}

// How the evaluation of the row's tree ends where it may take so many steps.
fn outcome<L: Ledger>(
    alloc: Global,
    row: &Row,
    allowance: u64,
    steps: &mut Steps<L>,
) -> Option<Outcome> {
    let tagged = tagged_of(alloc, row, steps)?;
    let mut env = Env::new(alloc);
    set_all(alloc, &mut env, &row.given.bytes, steps)?;
    eval(alloc, &tagged, &mut env, allowance.min(ALLOWANCE), steps).ok()
}

fn push_origin(alloc: Global, ip: Option<&Ip>, out: &mut Vec<u8>) -> Option<()> {
    match ip {
        None => push_text(" -", out),
        Some(ip) => {
            let path = ip.path(alloc).ok()?;
            let text = format!(in alloc; " {path}").ok()?;
            push_text(&text, out)
        }
    }
}

fn push_plain<L: Ledger>(
    alloc: Global,
    value: &Value,
    out: &mut Vec<u8>,
    steps: &mut Steps<L>,
) -> Option<()> {
    let plain = value.plain(alloc, steps).ok()?;
    tx_scm::write(&plain, out).ok()
}

// Appends the value, and a line with the origins of it and of its direct parts.
fn push_value<L: Ledger>(
    alloc: Global,
    value: &Value,
    out: &mut Vec<u8>,
    steps: &mut Steps<L>,
) -> Option<()> {
    push_plain(alloc, value, out, steps)?;
    push_text("\norigins", out)?;
    push_origin(alloc, value.origin(), out)?;
    for part in value.parts() {
        push_origin(alloc, part.origin(), out)?;
    }
    push_text("\n", out)
}

// A line of a word, a name, and its tree where it has one.
fn pair_line(alloc: Global, word: &str, name: &Text, tree: Option<&Tree>) -> Option<Vec<u8>> {
    let mut line = Vec::new(alloc);
    push_text(word, &mut line)?;
    line.extend_from_slice(name.bytes()).ok()?;
    if let Some(tree) = tree {
        push_text(" ", &mut line)?;
        tx_scm::write(tree, &mut line).ok()?;
    }
    push_text("\n", &mut line)?;
    Some(line)
}

// Appends the lines, sorted.
fn push_sorted(mut lines: Vec<Vec<u8>>, out: &mut Vec<u8>) -> Option<()> {
    lines.sort().ok()?;
    for line in &lines {
        out.extend_from_slice(line).ok()?;
    }
    Some(())
}

fn push_looks(alloc: Global, looks: &Looks, out: &mut Vec<u8>) -> Option<()> {
    let mut lines = Vec::new(alloc);
    for (name, found) in looks.pairs() {
        lines
            .push(pair_line(alloc, "look ", name, found.as_ref())?)
            .ok()?;
    }
    push_sorted(lines, out)
}

fn push_writes(alloc: Global, writes: &Writes, out: &mut Vec<u8>) -> Option<()> {
    let mut lines = Vec::new(alloc);
    for (name, tree) in writes.pairs() {
        lines
            .push(pair_line(alloc, "write ", name, Some(tree))?)
            .ok()?;
    }
    push_sorted(lines, out)
}

fn push_trace<L: Ledger>(
    alloc: Global,
    trace: &Trace,
    out: &mut Vec<u8>,
    steps: &mut Steps<L>,
) -> Option<()> {
    push_value(alloc, &trace.value, out, steps)?;
    push_looks(alloc, &trace.looks, out)?;
    push_writes(alloc, &trace.writes, out)?;
    push_text("cost ", out)?;
    push_number(alloc, trace.cost as usize, out)?;
    push_text(" height ", out)?;
    push_number(alloc, trace.height as usize, out)?;
    push_text("\n", out)
}

// Appends a line where the evaluation also ends with one step less than it costs.
fn push_less<L: Ledger>(
    alloc: Global,
    row: &Row,
    cost: u64,
    out: &mut Vec<u8>,
    steps: &mut Steps<L>,
) -> Option<()> {
    match outcome(alloc, row, cost.checked_sub(1)?, steps)? {
        Outcome::Over => Some(()),
        Outcome::Done(_) => push_text("ends with one step less\n", out),
    }
}

// Appends the value of the row's tree, with origins, looks, writes, cost and height; or `over` where the evaluation runs
// out of steps or levels.
pub(crate) fn answer_eval<L: Ledger>(
    alloc: Global,
    row: &Row,
    out: &mut Vec<u8>,
    steps: &mut Steps<L>,
) -> Option<()> {
    match outcome(alloc, row, ALLOWANCE, steps)? {
        Outcome::Over => push_text("over\n", out),
        Outcome::Done(trace) => {
            push_trace(alloc, &trace, out, steps)?;
            push_less(alloc, row, trace.cost, out, steps)
        }
    }
}

// Appends the value of the row's tree alone; or `over` where the evaluation runs out of steps or levels.
pub(crate) fn answer_value<L: Ledger>(
    alloc: Global,
    row: &Row,
    out: &mut Vec<u8>,
    steps: &mut Steps<L>,
) -> Option<()> {
    match outcome(alloc, row, ALLOWANCE, steps)? {
        Outcome::Over => push_text("over\n", out),
        Outcome::Done(trace) => {
            push_plain(alloc, &trace.value, out, steps)?;
            push_text("\n", out)
        }
    }
}
