// Refreshes with an opener, and with none after one.
ghost use Rattle.std.specs.Prelude.{◌≡◌, ◌≤◌, [], length, IfSome, OnSome, option_copied};
ghost use Rattle.tx_units.specs.Units.{units};
ghost use Rattle.tx_bridge.specs.Entries.{units_of};

use crate::boxes::Boxes;
use crate::buffers::{BASE, buffers_of};
use crate::moves::push_parts;
use crate::starts::{Start, are_from_start, writes_of};
use std::alloc::Global;
use std::fmt::Write;
use std::marker::Brand;
use std::sync::ledger::{Blank, Ledger};
use tx_base::Steps;
use tx_bridge::{Bridges, unit_list_laws};
use tx_doc::Buffer;
use tx_samples::{Row, first_untrue};
use tx_units::units;

// A refresh: names and texts from which it starts, `;` between them, and whether boxes are opened.
#[derive(Drop)]
pub(crate) struct Refresh(pub Start, pub bool);

// The paragraphs after one that sets `box`, the refreshes of the cache and of the spare, or None where nothing is
// cached, a refresh, its charges, and what it leaves: of each paragraph, a space between them, a cross where it was
// reached, else a point, and its parts, each with its path in the paragraph and a cross where nothing that fits was
// cached of it, else a point.
//
// A text costs 1 and its bytes, and `(value "k")` costs 3 and 1 and the bytes of the text that `k` has. So the layers
// of a box cost 4 for `"red"`, and 5 for `(value "m")` where `m` has a text of one byte.
struct OpenedRow(
    &'static str,
    Option<Refresh>,
    Option<Refresh>,
    Refresh,
    u64,
    &'static str,
);

const OPENED: &[OpenedRow] = &[
    // first: the spare has the whole box as one part, and it holds what is before
    OpenedRow(
        "(box (document \"abc\" (value \"k\")))",
        None,
        Some(Refresh("m \"7\";k \"ab\"", false)),
        Refresh("m \"7\";k \"ab\"", true),
        19,
        "x/x x/0/0x/0/1x",
    ),
    // it was opened there too: its parts and its layers hold all
    OpenedRow(
        "(box (document \"abc\" (value \"k\")))",
        None,
        Some(Refresh("m \"7\";k \"ab\"", true)),
        Refresh("m \"7\";k \"ab\"", true),
        0,
        "x/x x/0/0x/0/1x",
    ),
    // the layer that looks up another name is evaluated, and the other one is held
    OpenedRow(
        "(box (document \"abc\" (value \"k\")))",
        None,
        Some(Refresh("m \"7\";k \"ab\"", true)),
        Refresh("m \"89\";k \"ab\"", true),
        6,
        "x/x x/0/0x/0/1x",
    ),
    // again
    OpenedRow(
        "(box (document \"abc\" (value \"k\")))",
        Some(Refresh("m \"7\";k \"ab\"", true)),
        None,
        Refresh("m \"7\";k \"ab\"", true),
        0,
        "./. ./0/0./0/1.",
    ),
    // a name that one part looks up has something else
    OpenedRow(
        "(box (document \"abc\" (value \"k\")))",
        Some(Refresh("m \"7\";k \"ab\"", true)),
        None,
        Refresh("m \"7\";k \"abc\"", true),
        7,
        "./. x/0/0./0/1x",
    ),
    // one that a layer looks up
    OpenedRow(
        "(box (document \"abc\" (value \"k\")))",
        Some(Refresh("m \"7\";k \"ab\"", true)),
        None,
        Refresh("m \"89\";k \"ab\"", true),
        6,
        "./. x/0/0./0/1.",
    ),
    // and that a part has through the layer
    OpenedRow(
        "(box (value \"n\"))",
        Some(Refresh("m \"7\"", true)),
        None,
        Refresh("m \"89\"", true),
        12,
        "./. x/0x",
    ),
    // a box in a box has four layers
    OpenedRow(
        "(box (box \"abc\")) \"de\"",
        Some(Refresh("m \"7\"", true)),
        None,
        Refresh("m \"7\"", true),
        0,
        "./. ./0/0. ./.",
    ),
    // the spare holds what isn't cached any more
    OpenedRow(
        "(box (document \"abc\" (value \"k\")))",
        Some(Refresh("m \"7\";k \"ab\"", true)),
        Some(Refresh("m \"7\";k \"abc\"", true)),
        Refresh("m \"7\";k \"abc\"", true),
        0,
        "./. x/0/0./0/1x",
    ),
    // after a refresh with no opener, and the other way round: the box costs 1, and within 3 for its tags, 6 and 2 for
    // names, 4 and 5 for what they are set to, 4 and 2 as that is set, and 11 for the document
    OpenedRow(
        "(box (document \"abc\" (value \"k\")))",
        Some(Refresh("m \"7\";k \"ab\"", false)),
        None,
        Refresh("m \"7\";k \"ab\"", true),
        19,
        "./. x/0/0x/0/1x",
    ),
    OpenedRow(
        "(box (document \"abc\" (value \"k\")))",
        Some(Refresh("m \"7\";k \"ab\"", true)),
        None,
        Refresh("m \"7\";k \"ab\"", false),
        38,
        "./. x/x",
    ),
    // what has no shell has the same parts, and isn't reached
    OpenedRow(
        "(document \"abc\" (value \"k\"))",
        Some(Refresh("k \"ab\"", true)),
        None,
        Refresh("k \"ab\"", false),
        0,
        "./. ./0./1.",
    ),
    OpenedRow(
        "(document \"abc\" (value \"k\"))",
        Some(Refresh("k \"ab\"", false)),
        None,
        Refresh("k \"abc\"", true),
        7,
        "./. x/0./1x",
    ),
];

// The document with these paragraphs, the first of which sets `box`.
pub(crate) fn document_of(alloc: Global, paragraphs: &str) -> Option<String> {
    let mut text = String::new(alloc);
    text.push_str("d (document (assign \"box\" (macro \"x\" (with \"color\" \"red\"")
        .ok()?;
    text.push_str(" (with \"n\" (value \"m\") (arg \"x\"))))) ")
        .ok()?;
    write!(text, "{paragraphs})").ok()?;
    Some(text)
}

// The charges of the refresh, with this spare, if there is one.
pub(crate) fn refreshed<L: Ledger>(
    alloc: Global,
    bridges: &mut Bridges,
    refresh: &Refresh,
    spare: Option<&Bridges>,
    opener: &Boxes,
    steps: &mut Steps<L>,
) -> Option<u64>
    requires same { IfSome (option_copied spare) (λ others. units_of others.kept ≡ units_of bridges.old.kept) }
    ensures units { units_of bridges.new.kept ≡ units_of bridges.old.kept }
    ensures strays { OnSome result (bridges.new.strays ≡ []) }
{
    let start = writes_of(alloc, refresh.0, steps)?;
    if refresh.1 {
        return bridges
            .refresh_with(alloc, &start, spare, opener, steps)
            .ok();
    }
    bridges.refresh_from(alloc, &start, spare, steps).ok()
}

// The units, refreshed so, if they are.
pub(crate) fn kept_by<L: Ledger>(
    alloc: Global,
    buffers: &[Buffer],
    refresh: &Option<Refresh>,
    opener: &Boxes,
    steps: &mut Steps<L>,
) -> Option<Bridges>
    requires some { 1 ≤ length buffers.now }
    requires few { length buffers.now ≤ 16 }
    ensures units { IfSome result (λ b. units_of b.kept ≡ units buffers.now) }
    ensures strays { IfSome result (λ b. b.strays ≡ []) }
{
    unit_list_laws();
    let units = units(alloc, buffers, steps).ok()?;
    let mut bridges = Bridges::start(alloc, units).ok()?;
    if let Some(refresh) = refresh {
        refreshed(alloc, &mut bridges, refresh, None, opener, steps)?;
    }
    Some(bridges)
}

// The paragraphs, and their parts.
pub(crate) fn units_told(alloc: Global, bridges: &Bridges) -> Option<String> {
    let mut text = String::new(alloc);
    for i in BASE..1000 {
        let Some(parts) = bridges.parts(i) else {
            return Some(text);
        };
        if i > BASE {
            text.push(' ').ok()?;
        }
        text.push(if bridges.reached(i) { 'x' } else { '.' }).ok()?;
        push_parts(&mut text, parts)?;
    }
    None
}

// Whether the refresh costs what it is to cost, and leaves what it is to leave.
fn is_refreshed<L: Ledger>(
    alloc: Global,
    buffers: &[Buffer],
    bridges: &mut Bridges,
    spare: &Bridges,
    row: &OpenedRow,
    opener: &Boxes,
    steps: &mut Steps<L>,
) -> Option<bool>
    requires some { 1 ≤ length buffers.now }
    requires few { length buffers.now ≤ 16 }
    requires same { units_of spare.now.kept ≡ units_of bridges.old.kept }
{
    let charge = refreshed(alloc, bridges, &row.3, Some(spare), opener, steps)?;
    let fresh = are_from_start(alloc, buffers, bridges, row.3.0, steps)?;
    let told = units_told(alloc, bridges)?;
    Some(charge == row.4 && fresh && told.as_str() == row.5)
}

// Whether what the row says of these buffers is so.
fn is_told<L: Ledger>(
    alloc: Global,
    buffers: &[Buffer],
    row: &OpenedRow,
    opener: &Boxes,
    steps: &mut Steps<L>,
) -> Option<bool>
    requires some { 1 ≤ length buffers.now }
    requires few { length buffers.now ≤ 16 }
{
    let mut bridges = kept_by(alloc, buffers, &row.1, opener, steps)?;
    let spare = kept_by(alloc, buffers, &row.2, opener, steps)?;
    is_refreshed(alloc, buffers, &mut bridges, &spare, row, opener, steps)
}

impl Row for OpenedRow {
    fn holds<L: Ledger>(&self, alloc: Global, steps: &mut Steps<L>) -> Option<bool> {
        let opener = Boxes::new(alloc, steps).ok()?;
        let words = document_of(alloc, self.0)?;
        let buffers = buffers_of(alloc, words.as_str(), steps)?;
        is_told(alloc, &buffers, self, &opener, steps)
    }
}

#[test]
fn boxes_are_opened_at_each_refresh(rt: HostRuntime) {
    let wrong = first_untrue::<Brand, _>(rt.alloc(), OPENED, Blank::new(1));
    assert_eq!(rt; wrong, None);
}
