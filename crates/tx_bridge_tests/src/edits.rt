// Edits, and the units that are reached after them.
ghost use Rattle.std.specs.Prelude.{◌≡◌, ◌≤◌, [], Some, length, IfSome};
ghost use Rattle.tx_mod.specs.Followed.{changed_by_all};
ghost use Rattle.tx_bridge.specs.Carrying.{AllStand, StandsNow};
ghost use Rattle.tx_bridge.specs.Entries.{units_of};
ghost use Rattle.tx_bridge.specs.UnitLists.{AreUnits};
ghost use Rattle.tx_units.specs.Units.{units};

use crate::buffers::{BASE, are_from_nothing, behind, buffers_of, from_nothing, modifications};
use crate::outcomes::alike;
use crate::series::{Edit, Series, change};
use std::alloc::Global;
use std::marker::Brand;
use std::sync::ledger::{Blank, Ledger};
use tx_base::Steps;
use tx_bridge::{Bridges, unit_list_laws};
use tx_doc::Buffer;
use tx_mod::Mod;
use tx_samples::{Row, first_untrue};
use tx_tree::Tree;

// The number of a buffer, an edit of it, and a mark for each unit after those of the base style: a cross where the edit
// reached it, and else a point.
struct Change(u32, &'static str, &'static str);

const EDITS: &[Series<Change>] = &[
    Series(
        "d (document \"a\" \"b\" \"c\")",
        &[
            Change(0, "insert / 0 (tuple \"top\")", "x..."),
            Change(0, "remove / 1 1", "..."),
            Change(0, "assign /1 \"yz\"", ".x."),
            Change(0, "split / 1 1", ".xx."),
            Change(0, "join / 1", ".x."),
            Change(0, "insert /2 0 \"c\"", "..x"),
        ],
    ),
    // a variable, also where it is unset
    Series(
        "d (document (assign \"n\" \"1\") \"text\" (value \"n\") (provides \"n\"))",
        &[
            Change(0, "assign /0/1 \"2\"", "x.xx"),
            Change(0, "assign /1 \"t\"", ".x.."),
            Change(0, "remove / 0 1", ".xx"),
            Change(0, "insert / 1 (tuple (assign \"n\" \"1\"))", ".xxx"),
            Change(0, "insert / 0 (tuple (assign \"n\" \"1\"))", "x...."),
        ],
    ),
    // a macro, and what it writes
    Series(
        "d (document (assign \"g\" (macro (assign \"n\" \"1\"))) (g) \"x\" (value \"n\"))",
        &[
            Change(0, "assign /0/1/0/1 \"2\"", "xx.x"),
            Change(0, "remove / 1 1", "..x"),
        ],
    ),
    // a style, an initial environment, and the document
    Series(
        "d (document (style \"s\") (initial (collection (associate \"k\" \"v\"))) (body (document \"a\" \
            (value \"n\"))));s (document (assign \"n\" \"1\"))",
        &[
            Change(1, "assign /0/1 \"2\"", "x..x"),
            Change(1, "insert / 0 (tuple \"a\")", "xxx.."),
            Change(0, "assign /2/0/0 \"b\"", "...x."),
            Change(0, "assign /0/0 \"none\"", "xx.x"),
        ],
    ),
    // a unit that runs out of steps is never cached
    Series(
        "d (document (while \"true\" \"abcdefghij\") \"b\")",
        &[
            Change(0, "assign /1 \"c\"", "xx"),
            Change(0, "remove / 1 1", "x"),
        ],
    ),
];

fn is_marked(marks: &[u8], i: u32) -> bool {
    i >= BASE && marks.get((i - BASE) as usize) == Some(&b'x')
}

// Whether each outcome is the fresh one, and just the units with a cross were reached.
fn are_marked<L: Ledger>(
    alloc: Global,
    bridges: &Bridges,
    fresh: &Bridges,
    marks: &[u8],
    steps: &mut Steps<L>,
) -> Option<bool> {
    for i in 0..1000 {
        let marked = is_marked(marks, i);
        match (bridges.outcome(i), fresh.outcome(i)) {
            (None, None) => return Some(u64::from(i) == u64::from(BASE) + marks.len() as u64),
            (Some(one), Some(other)) => {
                if !alike(alloc, one, other, steps)? || bridges.reached(i) != marked {
                    return Some(false);
                }
            }
            _ => return Some(false),
        }
    }
    None
}

// Whether each outcome is that from nothing, and just the units with a cross were reached.
fn are_right<L: Ledger>(
    alloc: Global,
    bridges: &Bridges,
    buffers: &[Buffer],
    marks: &str,
    steps: &mut Steps<L>,
) -> Option<bool>
    requires some { 1 ≤ length buffers.now }
    requires few { length buffers.now ≤ 16 }
{
    let fresh = from_nothing(alloc, buffers, steps)?;
    are_marked(alloc, bridges, &fresh, marks.as_bytes(), steps)
}

impl Edit for Change {
    // Changes a buffer, and evaluates what that reaches. Whether that is what it is to reach.
    fn holds<L: Ledger>(
        &self,
        alloc: Global,
        bridges: &mut Bridges,
        buffers: &mut [Buffer],
        steps: &mut Steps<L>,
    ) -> Option<bool> {
        let Change(k, line, marks) = *self;
        if k as usize >= buffers.len() {
            return None;
        }
        change(alloc, bridges, buffers, k, line, steps)?;
        bridges.refresh(alloc, steps).ok()?;
        are_right(alloc, bridges, buffers, marks, steps)
    }
}

#[test]
fn edits_reach_what_they_change(rt: HostRuntime) {
    let wrong = first_untrue::<Brand, _>(rt.alloc(), EDITS, Blank::new(1));
    assert_eq!(rt; wrong, None);
}

// A buffer, an edit inside one paragraph of it, and the marks as above.
struct InPlaceRow(&'static str, &'static str, &'static str);

const IN_PLACE: &[InPlaceRow] = &[
    InPlaceRow("d (document \"a\" \"b\" \"c\")", "insert /1 0 \"x\"", ".x."),
    InPlaceRow(
        "d (document (assign \"n\" \"1\") \"b\" (value \"n\"))",
        "assign /1 (value \"n\")",
        ".x.",
    ),
    // a paragraph that sets a name now, one that sets it to another tree, and one that did
    InPlaceRow(
        "d (document \"a\" (value \"n\"))",
        "assign /0 (assign \"n\" \"1\")",
        "xx",
    ),
    InPlaceRow(
        "d (document (assign \"n\" \"1\") (value \"n\"))",
        "assign /0/1 \"2\"",
        "xx",
    ),
    InPlaceRow(
        "d (document (assign \"n\" \"1\") (value \"n\"))",
        "assign /0 \"a\"",
        "xx",
    ),
];

// A buffer, an edit inside one paragraph, and the charges after it.
struct NestedRow(&'static str, &'static str, u64);

const NESTED: &[NestedRow] = &[
    NestedRow(
        "d (document (document \"a\" \"bc\") \"d\")",
        "insert /0/0 0 \"x\"",
        3,
    ),
    // of two parts the one that changes, and the one that looks the variable up
    NestedRow(
        "d (document (assign \"n\" \"1\") (with \"color\" \"red\" (document \"long text\" (value \"n\"))))",
        "assign /1/2/0 \"x\"",
        2,
    ),
    NestedRow(
        "d (document (assign \"n\" \"1\") (with \"color\" \"red\" (document \"long text\" (value \"n\"))))",
        "assign /0/1 \"5\"",
        12,
    ),
    // parts after a new one move, and those of a part that is split are new
    NestedRow(
        "d (document (with \"color\" \"red\" (document \"long text\" \"more\")))",
        "insert /0/2 0 (tuple \"ab\")",
        3,
    ),
    NestedRow(
        "d (document (with \"color\" \"red\" (document \"long text\" \"more\")))",
        "split /0/2 0 4",
        11,
    ),
    // a name that a part sets for those after it
    NestedRow(
        "d (document (document (assign \"n\" \"1\") \"long text\" (value \"n\")))",
        "assign /0/0/1 \"2\"",
        12,
    ),
    // a `with` inside a `with`, and one that names another variable now
    NestedRow(
        "d (document (with \"a\" \"1\" (with \"b\" \"2\" (document (value \"a\") (value \"b\") \"c\"))))",
        "assign /0/2/1 \"3\"",
        5,
    ),
    NestedRow(
        "d (document (with \"a\" \"1\" (with \"b\" \"2\" (document (value \"a\") (value \"b\") \"c\"))))",
        "assign /0/2/0 \"c\"",
        16,
    ),
];

// The paragraph of the unit of this number in the tree afterwards.
fn paragraph_in(bridges: &Bridges, changed: usize, after: &Tree) -> Option<Tree>
    ensures { IfSome result (λ t. StandsNow changed t after.now (units_of bridges.now.kept)) }
{
    let unit = bridges.unit(u32::try_from(changed).ok()?)?;
    after.at(unit.path.as_ref()?)?.share().ok()
}

// Carries what is cached in place, where this is the tree afterwards.
fn carry_to<L: Ledger>(
    alloc: Global,
    bridges: &mut Bridges,
    before: &Tree,
    mods: &[Mod],
    after: &Tree,
    steps: &mut Steps<L>,
) -> Option<()>
    requires after { changed_by_all mods.now before.now ≡ Some after.now }
    requires units { AreUnits (units_of bridges.old.kept) }
    requires stand { AllStand before.now (units_of bridges.old.kept) }
    requires strays { bridges.old.strays ≡ [] }
{
    let changed = bridges.one_changed(0, mods)?;
    let tree = paragraph_in(bridges, changed, after)?;
    let moved = match bridges.moved_parts(alloc, before, mods, changed, steps) {
        Ok(moved) => moved,
        Err(_) => return None,
    };
    bridges.carry_in_place(before, mods, tree, changed, moved);
    Some(())
}

// So, and gives that tree.
fn carry_in_place<L: Ledger>(
    alloc: Global,
    bridges: &mut Bridges,
    before: &Tree,
    mods: &[Mod],
    steps: &mut Steps<L>,
) -> Option<Tree>
    requires units { AreUnits (units_of bridges.old.kept) }
    requires stand { AllStand before.now (units_of bridges.old.kept) }
    requires strays { bridges.old.strays ≡ [] }
{
    let after = behind(alloc, before, mods, steps)?;
    carry_to(alloc, bridges, before, mods, &after, steps)?;
    Some(after)
}

// Changes the first buffer, and carries what is cached in place.
pub(crate) fn change_in_place<L: Ledger>(
    alloc: Global,
    bridges: &mut Bridges,
    buffers: &mut [Buffer],
    line: &str,
    steps: &mut Steps<L>,
) -> Option<()>
    requires some { 1 ≤ length buffers.old }
    requires units { units_of bridges.old.kept ≡ units buffers.old }
    requires strays { bridges.old.strays ≡ [] }
    ensures many { length buffers.new ≡ length buffers.old }
{
    unit_list_laws();
    let mods = modifications(alloc, line, steps)?;
    buffers[0].tree = carry_in_place(alloc, bridges, &buffers[0].tree, &mods, steps)?;
    Some(())
}

// What is cached after an edit of the first buffer that is carried in place, and the charges.
pub(crate) fn edited_in_place<L: Ledger>(
    alloc: Global,
    buffers: &mut [Buffer],
    line: &str,
    steps: &mut Steps<L>,
) -> Option<(Bridges, u64)>
    requires some { 1 ≤ length buffers.old }
    requires few { length buffers.old ≤ 16 }
    ensures many { length buffers.new ≡ length buffers.old }
{
    let mut bridges = from_nothing(alloc, buffers, steps)?;
    change_in_place(alloc, &mut bridges, buffers, line, steps)?;
    let charges = bridges.refresh(alloc, steps).ok()?;
    Some((bridges, charges))
}

impl Row for InPlaceRow {
    // Whether the edit reaches what it is to reach.
    fn holds<L: Ledger>(&self, alloc: Global, steps: &mut Steps<L>) -> Option<bool> {
        let mut buffers = buffers_of(alloc, self.0, steps)?;
        let (bridges, _) = edited_in_place(alloc, &mut buffers, self.1, steps)?;
        are_right(alloc, &bridges, &buffers, self.2, steps)
    }
}

#[test]
fn edits_in_place_reach_what_they_change(rt: HostRuntime) {
    let wrong = first_untrue::<Brand, _>(rt.alloc(), IN_PLACE, Blank::new(1));
    assert_eq!(rt; wrong, None);
}

impl Row for NestedRow {
    // Whether the edit costs what it is to cost.
    fn holds<L: Ledger>(&self, alloc: Global, steps: &mut Steps<L>) -> Option<bool> {
        let mut buffers = buffers_of(alloc, self.0, steps)?;
        let (bridges, charges) = edited_in_place(alloc, &mut buffers, self.1, steps)?;
        let fresh = are_from_nothing(alloc, &bridges, &buffers, steps)?;
        Some(fresh && charges == self.2)
    }
}

#[test]
fn edits_of_nested_paragraphs_reach_their_parts(rt: HostRuntime) {
    let wrong = first_untrue::<Brand, _>(rt.alloc(), NESTED, Blank::new(1));
    assert_eq!(rt; wrong, None);
}
