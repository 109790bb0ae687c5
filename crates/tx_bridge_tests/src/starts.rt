// Refreshes from a start, and with a spare.
ghost use Rattle.std.specs.Prelude.{◌≡◌, ◌≤◌, [], length, IfSome};
ghost use Rattle.tx_units.specs.Units.{units};
ghost use Rattle.tx_bridge.specs.Entries.{units_of};

use crate::buffers::{are_fresh, buffers_of};
use crate::parts::are_marked;
use std::alloc::Global;
use std::marker::Brand;
use std::sync::ledger::{Blank, Ledger};
use tx_base::Steps;
use tx_bridge::{Bridges, unit_list_laws};
use tx_doc::Buffer;
use tx_env::Writes;
use tx_samples::{Row, first_untrue, tree_of};
use tx_tree::{Text, Tree};
use tx_units::units;

// Names and texts, `;` between them.
pub(crate) type Start = &'static str;

// Buffers, from which start the cache and the spare were refreshed, or None where nothing is cached, the start of a
// refresh, its charges, and for each unit after those of the base style, a `/` between them, a mark for each part: a
// cross where nothing that fits was cached of it, and else a point.
//
// The name `n` costs 2, and `(value "n")` that, 1 and the size of what it gives: the text's length and 1, or 13 where
// the name is unset.
struct StartRow(
    &'static str,
    Option<Start>,
    Option<Start>,
    Start,
    u64,
    &'static str,
);

const STARTS: &[StartRow] = &[
    // a name that a paragraph looks up, and one that the document sets before
    StartRow(
        "d (document \"a\" (value \"n\"))",
        Some(""),
        None,
        "n \"xy\"",
        6,
        "./x",
    ),
    StartRow(
        "d (document \"a\" (value \"n\"))",
        Some("n \"xy\""),
        None,
        "",
        16,
        "./x",
    ),
    StartRow(
        "d (document (assign \"n\" \"1\") (value \"n\"))",
        Some(""),
        None,
        "n \"9\"",
        0,
        "./.",
    ),
    // the spare holds all, where nothing is cached, and where something else is
    StartRow(
        "d (document \"a\" (value \"n\"))",
        None,
        Some("n \"xy\""),
        "n \"xy\"",
        0,
        "x/x",
    ),
    StartRow(
        "d (document \"a\" (value \"n\"))",
        Some("n \"z\""),
        Some("n \"xy\""),
        "n \"xy\"",
        0,
        "./x",
    ),
    // it holds one part of two
    StartRow(
        "d (document (document \"ab\" (value \"n\")) \"c\")",
        None,
        Some("n \"1\""),
        "n \"2\"",
        5,
        "xx/x",
    ),
    // the cache holds one part, and the spare the other
    StartRow(
        "d (document (document (value \"n\") (value \"m\")))",
        Some("n \"1\";m \"1\""),
        Some("n \"2\";m \"2\""),
        "n \"1\";m \"2\"",
        0,
        ".x",
    ),
    // a unit without parts
    StartRow(
        "d (document (style \"s\") (body (document \"a\")));s (document (value \"n\"))",
        None,
        Some("n \"xy\""),
        "n \"xy\"",
        0,
        "/x",
    ),
    StartRow(
        "d (document (style \"s\") (body (document \"a\")));s (document (value \"n\"))",
        None,
        Some("n \"xy\""),
        "n \"z\"",
        5,
        "/x",
    ),
    // a unit that runs out of steps is no spare
    StartRow(
        "d (document (while \"true\" \"abcdefghij\") \"b\")",
        Some(""),
        Some(""),
        "",
        1_000_000,
        "/.",
    ),
];

// A name with its tree.
fn pair_of<L: Ledger>(alloc: Global, words: &str, steps: &mut Steps<L>) -> Option<(Text, Tree)> {
    let (name, words) = words.split_once(' ')?;
    let tree = tree_of(alloc, words, steps)?;
    Some((Text::new(alloc, name.as_bytes()).ok()?, tree))
}

// The names with their trees.
pub(crate) fn writes_of<L: Ledger>(
    alloc: Global,
    words: &str,
    steps: &mut Steps<L>,
) -> Option<Writes> {
    let mut pairs = Vec::new(alloc);
    if words.is_empty() {
        return Some(Writes::new(pairs));
    }
    for part in words.split(';') {
        pairs.push(pair_of(alloc, part, steps)?).ok()?;
    }
    Some(Writes::new(pairs))
}

// The units, refreshed from this start, if there is one.
pub(crate) fn kept_from<L: Ledger>(
    alloc: Global,
    buffers: &[Buffer],
    start: Option<&str>,
    steps: &mut Steps<L>,
) -> Option<Bridges>
    requires some { 1 ≤ length buffers.now }
    requires few { length buffers.now ≤ 16 }
    ensures units { IfSome result (λ b. units_of b.kept ≡ units buffers.now) }
    ensures strays { IfSome result (λ b. b.strays ≡ []) }
{
    unit_list_laws();
    let units = units(alloc, buffers, steps).ok()?;
    let mut bridges = Bridges::start(alloc, units).ok()?;
    if let Some(words) = start {
        let names = writes_of(alloc, words, steps)?;
        bridges.refresh_from(alloc, &names, None, steps).ok()?;
    }
    Some(bridges)
}

// The charges of a refresh from this start, and with a spare.
fn charged<L: Ledger>(
    alloc: Global,
    bridges: &mut Bridges,
    spare: &Bridges,
    words: &str,
    steps: &mut Steps<L>,
) -> Option<u64>
    requires same { units_of spare.now.kept ≡ units_of bridges.old.kept }
{
    let start = writes_of(alloc, words, steps)?;
    bridges.refresh_from(alloc, &start, Some(spare), steps).ok()
}

// Whether all outcomes are those of a refresh from nothing, with this start.
pub(crate) fn are_from_start<L: Ledger>(
    alloc: Global,
    buffers: &[Buffer],
    bridges: &Bridges,
    words: &str,
    steps: &mut Steps<L>,
) -> Option<bool>
    requires some { 1 ≤ length buffers.now }
    requires few { length buffers.now ≤ 16 }
{
    let fresh = kept_from(alloc, buffers, Some(words), steps)?;
    are_fresh(alloc, bridges, &fresh, steps)
}

// Whether the refresh costs what it is to cost, leaves what a refresh from nothing leaves, and marks these parts.
fn is_refreshed<L: Ledger>(
    alloc: Global,
    buffers: &[Buffer],
    bridges: &mut Bridges,
    spare: &Bridges,
    row: &StartRow,
    steps: &mut Steps<L>,
) -> Option<bool>
    requires some { 1 ≤ length buffers.now }
    requires few { length buffers.now ≤ 16 }
    requires same { units_of spare.now.kept ≡ units_of bridges.old.kept }
{
    let charge = charged(alloc, bridges, spare, row.3, steps)?;
    let fresh = are_from_start(alloc, buffers, bridges, row.3, steps)?;
    let marked = are_marked(bridges, row.5)?;
    Some(charge == row.4 && fresh && marked)
}

impl Row for StartRow {
    fn holds<L: Ledger>(&self, alloc: Global, steps: &mut Steps<L>) -> Option<bool> {
        let buffers = buffers_of(alloc, self.0, steps)?;
        let mut bridges = kept_from(alloc, &buffers, self.1, steps)?;
        let spare = kept_from(alloc, &buffers, self.2, steps)?;
        is_refreshed(alloc, &buffers, &mut bridges, &spare, self, steps)
    }
}

#[test]
fn what_fits_from_a_start_is_used_again(rt: HostRuntime) {
    let wrong = first_untrue::<Brand, _>(rt.alloc(), STARTS, Blank::new(1));
    assert_eq!(rt; wrong, None);
}
