// Places that modifications are found to leave as they are.
ghost use Rattle.std.specs.Prelude.{◌≡◌};
ghost use Rattle.tx_mod.specs.Mods.{path_of};
ghost use Rattle.tx_bridge.specs.InPlace.{begins_path, are_within};

use crate::buffers::modifications;
use std::alloc::Global;
use std::marker::Brand;
use std::sync::ledger::{Blank, Ledger};
use tx_base::Steps;
use tx_bridge::all_keep_place;
use tx_mod::Mod;
use tx_samples::{Row, first_untrue};
use tx_tree::Path;

// Modifications, `;` between them, a path that all of them are below, a path from there, and whether the place is found
// to be unchanged.
struct PlaceRow(&'static str, &'static str, &'static str, bool);

const PLACES: &[PlaceRow] = &[
    // beside the modification, above it, and what it changes
    PlaceRow("assign /1/2 \"x\"", "/1", "/1", true),
    PlaceRow("assign /1/2 \"x\"", "/1", "/3/2", true),
    PlaceRow("assign /1/2/0 \"x\"", "/1", "/2", false),
    PlaceRow("assign /1/2 \"x\"", "/1", "/", false),
    PlaceRow("assign /1/2 \"x\"", "/1", "/2", false),
    PlaceRow("assign /1/2 \"x\"", "/1", "/2/0", false),
    PlaceRow("insert /1 2 (tuple \"x\")", "/1", "/1/5", true),
    PlaceRow("insert /1 2 (tuple \"x\")", "/1", "/2", false),
    PlaceRow("insert /1 2 (tuple \"x\")", "/1", "/", false),
    PlaceRow("remove /1/0 2 3", "/1", "/0/1", true),
    PlaceRow("remove /1/0 2 3", "/1", "/0/2", false),
    PlaceRow("remove /1/0 2 3", "/1", "/0/5", false),
    // of the child that is split, what is before the cut
    PlaceRow("split /1 2 3", "/1", "/1", true),
    PlaceRow("split /1 2 3", "/1", "/2", false),
    PlaceRow("split /1 2 3", "/1", "/2/2/0", true),
    PlaceRow("split /1 2 3", "/1", "/2/3", false),
    PlaceRow("split /1 2 3", "/1", "/3", false),
    // of two children that are joined, what is in the first
    PlaceRow("join /1 2", "/1", "/1", true),
    PlaceRow("join /1 2", "/1", "/2", false),
    PlaceRow("join /1 2", "/1", "/2/0", true),
    PlaceRow("join /1 2", "/1", "/3/0", false),
    PlaceRow("join /1 2", "/1", "/4", false),
    PlaceRow("assign-node /1/0 em", "/1", "/0", false),
    PlaceRow("assign-node /1/0 em", "/1", "/0/7", true),
    PlaceRow("insert-node /1/0 0 (f)", "/1", "/0", false),
    PlaceRow("insert-node /1/0 0 (f)", "/1", "/0/0", false),
    PlaceRow("remove-node /1/0 0", "/1", "/0/0", false),
    // all of them
    PlaceRow("insert /1 2 (tuple \"x\");remove /1 1 1", "/1", "/0", true),
    PlaceRow("insert /1 2 (tuple \"x\");remove /1 1 1", "/1", "/1", false),
    PlaceRow("remove /1 1 1;insert /1 2 (tuple \"x\")", "/1", "/1", false),
    PlaceRow(
        "insert / 2 (tuple \"x\");assign /0/1 \"x\"",
        "/",
        "/0/0",
        true,
    ),
];

fn begins(base: &Path, m: &Mod) -> bool
    ensures { result ≡ begins_path base.now (path_of m.now) }
{
    m.path().steps().starts_with(base.steps())
}

fn are_within(base: &Path, mods: &[Mod]) -> bool
    ensures { result ≡ are_within base.now mods.now }
{
    mods.iter().all(|m| begins(base, m))
}

// Whether the place at the path below the base is found to be unchanged. None where a modification isn't below the
// base.
fn is_kept(alloc: Global, mods: &[Mod], base: &str, below: &str) -> Option<bool> {
    let base = Path::parse(alloc, base.as_bytes()).ok()?;
    let below = Path::parse(alloc, below.as_bytes()).ok()?;
    if !are_within(&base, mods) {
        return None;
    }
    Some(all_keep_place(mods, &base, &below))
}

impl Row for PlaceRow {
    // Whether the row says what is found.
    fn holds<L: Ledger>(&self, alloc: Global, steps: &mut Steps<L>) -> Option<bool> {
        let PlaceRow(lines, base, below, stays) = *self;
        let mods = modifications(alloc, lines, steps)?;
        Some(is_kept(alloc, &mods, base, below)? == stays)
    }
}

#[test]
fn places_that_stay_are_found(rt: HostRuntime) {
    let wrong = first_untrue::<Brand, _>(rt.alloc(), PLACES, Blank::new(1));
    assert_eq!(rt; wrong, None);
}
