// Edits of paragraphs with shells, and refreshes with the same opener after them.
ghost use Rattle.std.specs.Prelude.{◌≡◌, ◌≤◌, [], length, IfSome};
ghost use Rattle.tx_bridge.specs.Entries.{units_of};
ghost use Rattle.tx_units.specs.Units.{units};

use crate::boxes::{BoxRow, Boxes, first_untold};
use crate::buffers::buffers_of;
use crate::opened::{Refresh, document_of, kept_by, refreshed, units_told};
use crate::starts::{Start, are_from_start};
use crate::ways::Way;
use std::alloc::Global;
use std::marker::Brand;
use std::sync::ledger::{Blank, Ledger};
use tx_base::Steps;
use tx_bridge::Bridges;
use tx_doc::Buffer;

// The paragraphs after one that sets `box`, the start of all refreshes, an edit after the first one, the charges of the
// second one, and what that leaves: of each paragraph, a space between them, a cross where it was reached, else a
// point, and its parts, each with its path in the paragraph and a cross where nothing that fits was cached of it, else
// a point.
//
// A text costs 1 and its bytes, and `(value "k")` costs 3 and 1 and the bytes of the text that `k` has. So the layers
// of a box cost 4 for `"red"`, and 5 for `(value "m")` where `m` has a text of one byte.
struct ShellEditRow(&'static str, Start, Way, u64, &'static str);

const SHELL_EDITS: &[ShellEditRow] = &[
    // what is cached of layers is still known where the one paragraph is changed in place
    ShellEditRow(
        "(box (document \"abc\" (value \"k\")))",
        "m \"7\";k \"ab\"",
        Way::InPlace("assign /1/0/0 \"x\""),
        2,
        "./. x/0/0x/0/1.",
    ),
    ShellEditRow(
        "(box (document \"abc\" (value \"k\")))",
        "m \"7\";k \"ab\"",
        Way::InPlace("insert /1/0/0 3 \"de\""),
        6,
        "./. x/0/0x/0/1.",
    ),
    ShellEditRow(
        "(box (document \"abc\" (value \"k\")))",
        "m \"7\";k \"ab\"",
        Way::InPlace("assign /1/0/1/0 \"m\""),
        5,
        "./. x/0/0./0/1x",
    ),
    // a part more, and two modifications at once
    ShellEditRow(
        "(box (document \"abc\" (value \"k\")))",
        "m \"7\";k \"ab\"",
        Way::InPlace("insert /1/0 1 (tuple \"de\")"),
        3,
        "./. x/0/0./0/1x/0/2.",
    ),
    ShellEditRow(
        "(box (document \"abc\" (value \"k\")))",
        "m \"7\";k \"ab\"",
        Way::InPlace("remove /1/0 0 1;assign /1/0/0 \"wxyz\""),
        5,
        "./. x/0/0x",
    ),
    // what a layer sets
    ShellEditRow(
        "(box (document \"abc\" (value \"k\")))",
        "m \"7\";k \"ab\"",
        Way::InPlace("assign /1/0/1 (value \"n\")"),
        5,
        "./. x/0/0./0/1x",
    ),
    // a box in a box
    ShellEditRow(
        "(box (box (document \"abc\" \"de\")))",
        "m \"7\"",
        Way::InPlace("assign /1/0/0/1 \"x\""),
        2,
        "./. x/0/0/0./0/0/1x",
    ),
    // layers whose names are set to nodes
    ShellEditRow(
        "(box (document \"abc\" \"de\"))",
        "m (tuple \"p\" (tuple \"q\"))",
        Way::InPlace("assign /1/0/1 \"x\""),
        2,
        "./. x/0/0./0/1x",
    ),
    // where another paragraph changes
    ShellEditRow(
        "(box (document \"abc\" (value \"k\"))) \"de\"",
        "m \"7\";k \"ab\"",
        Way::InPlace("assign /2 \"x\""),
        2,
        "./. ./0/0./0/1. x/x",
    ),
    // also where it is carried with its paragraph to another number
    ShellEditRow(
        "(box (document \"abc\" (value \"k\"))) \"de\"",
        "m \"7\";k \"ab\"",
        Way::Listed(0, "insert / 1 (tuple \"x\")"),
        2,
        "./. x/x ./0/0./0/1. ./.",
    ),
    ShellEditRow(
        "(box (document \"abc\" (value \"k\"))) \"de\"",
        "m \"7\";k \"ab\"",
        Way::Listed(0, "assign /2 \"x\""),
        2,
        "./. ./0/0./0/1. x/x",
    ),
    // a paragraph that is none of those before has its parts, and 9 for the layers are charged anew
    ShellEditRow(
        "(box (document \"abc\" (value \"k\")))",
        "m \"7\";k \"ab\"",
        Way::Listed(0, "assign /1/0/0 \"x\""),
        11,
        "./. x/0/0x/0/1.",
    ),
    ShellEditRow(
        "(box (document \"abc\" (value \"k\")))",
        "m \"7\";k \"ab\"",
        Way::Listed(0, "insert-node /1 0 (document)"),
        9,
        "./. x/0/0/0./0/0/1.",
    ),
];

// Whether the refresh leaves this.
fn is_left(alloc: Global, bridges: &Bridges, told: &str) -> bool {
    match units_told(alloc, bridges) {
        Some(words) => words.as_str() == told,
        None => false,
    }
}

// Whether the edit, and a refresh after it, cost what they are to cost, and leave what they are to leave.
fn is_led<L: Ledger>(
    alloc: Global,
    bridges: &mut Bridges,
    buffers: &mut [Buffer],
    row: &ShellEditRow,
    opener: &Boxes,
    steps: &mut Steps<L>,
) -> Option<bool>
    requires some { 1 ≤ length buffers.old }
    requires few { length buffers.old ≤ 16 }
    requires units { units_of bridges.old.kept ≡ units buffers.old }
    requires strays { bridges.old.strays ≡ [] }
{
    row.2.go(alloc, bridges, buffers, steps)?;
    let charge = refreshed(alloc, bridges, &Refresh(row.1, true), None, opener, steps)?;
    let fresh = are_from_start(alloc, buffers, bridges, row.1, steps)?;
    Some(charge == row.3 && fresh && is_left(alloc, bridges, row.4))
}

// Whether they do, from the cache of these buffers.
fn is_led_from<L: Ledger>(
    alloc: Global,
    buffers: &mut [Buffer],
    row: &ShellEditRow,
    opener: &Boxes,
    steps: &mut Steps<L>,
) -> Option<bool>
    requires some { 1 ≤ length buffers.old }
    requires few { length buffers.old ≤ 16 }
{
    let mut bridges = kept_by(alloc, buffers, &Some(Refresh(row.1, true)), opener, steps)?;
    is_led(alloc, &mut bridges, buffers, row, opener, steps)
}

// The buffer of a document with these paragraphs.
fn buffers_with<L: Ledger>(
    alloc: Global,
    paragraphs: &str,
    steps: &mut Steps<L>,
) -> Option<Vec<Buffer>>
    ensures some { IfSome result (λ bs. 1 ≤ length bs.items) }
    ensures few { IfSome result (λ bs. length bs.items ≤ 16) }
{
    let words = document_of(alloc, paragraphs)?;
    buffers_of(alloc, words.as_str(), steps)
}

impl BoxRow for ShellEditRow {
    fn is_told<L: Ledger>(
        &self,
        alloc: Global,
        opener: &Boxes,
        steps: &mut Steps<L>,
    ) -> Option<bool> {
        let mut buffers = buffers_with(alloc, self.0, steps)?;
        is_led_from(alloc, &mut buffers, self, opener, steps)
    }
}

#[test]
fn layers_stay_known_through_edits(rt: HostRuntime) {
    let wrong = first_untold::<Brand, _>(rt.alloc(), SHELL_EDITS, Blank::new(1));
    assert_eq!(rt; wrong, Ok(None));
}
