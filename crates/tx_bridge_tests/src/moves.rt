// Parts that are carried to where they are after an edit, also in other paragraphs.
ghost use Rattle.std.specs.Prelude.{◌≡◌, ◌≤◌, [], length, OnSome};
ghost use Rattle.tx_bridge.specs.Entries.{units_of};

use crate::buffers::{BASE, are_from_nothing};
use crate::series::{Edit, Series, change};
use std::alloc::Global;
use std::fmt::Write;
use std::marker::Brand;
use std::sync::ledger::{Blank, Ledger};
use tx_base::Steps;
use tx_bridge::Bridges;
use tx_doc::Buffer;
use tx_samples::first_untrue;
use tx_walk::Part;

// One or two modifications of the document, `;` between them, and what the refresh after them leaves: of each
// paragraph, a space between them, its parts, each with its path in the paragraph and a cross where nothing that fits
// was cached of it, else a point; and the charges. Where this is empty, there is no refresh.
struct Move(&'static str, &'static str, u64);

// A text of n bytes is charged n + 1.
const MOVES: &[Series<Move>] = &[
    // A paragraph is its own part. Wrapped in a `document` and taken out again.
    Series(
        "d (document \"abc\" \"de\" \"f\")",
        &[
            Move("insert-node /1 0 (document)", "/. /0. /.", 0),
            Move("remove-node /1 0", "/. /. /.", 0),
            Move(
                "insert-node /1 1 (document \"ghi\" \"j\")",
                "/. /0x/1./2x /.",
                6,
            ),
            Move("remove-node /1 1", "/. /. /.", 0),
        ],
    ),
    // in a `with`
    Series(
        "d (document \"abc\" \"de\" \"f\")",
        &[
            Move("insert-node /1 2 (with \"color\" \"red\")", "/. /2. /.", 0),
            Move("insert-node /1 0 (document)", "/. /0/2. /.", 0),
            Move("remove-node /1/0 2", "/. /0. /.", 0),
            Move("remove-node /1 0", "/. /. /.", 0),
        ],
    ),
    // in one that sets what the part looks up: its `value` is charged 5
    Series(
        "d (document (assign \"n\" \"1\") (value \"n\") \"x\")",
        &[
            Move("insert-node /1 2 (with \"n\" \"2\")", "/. /2x /.", 5),
            Move("insert-node /2 2 (with \"n\" \"3\")", "/. /2. /2.", 0),
            Move("remove-node /1 2", "/. /x /2.", 5),
        ],
    ),
    // all paragraphs
    Series(
        "d (document \"abc\" \"de\" \"f\")",
        &[
            Move("insert-node / 0 (document)", "/0./1./2.", 0),
            Move("remove-node / 0", "/. /. /.", 0),
            Move(
                "insert-node / 2 (with \"color\" \"red\")",
                "/2/0./2/1./2/2.",
                0,
            ),
            Move("remove-node / 2", "/. /. /.", 0),
            Move("assign-node / concat", "/x", 10),
        ],
    ),
    // out of the document that they are in
    Series(
        "d (document (with \"color\" \"red\" (document \"ab\" \"cd\")) \"e\")",
        &[
            Move("remove-node /0 2", "/0./1. /.", 0),
            Move("remove-node /0 1", "/. /.", 0),
            Move("insert-node /0 1 (document \"ab\")", "/0x/1. /.", 3),
            Move("remove-node / 0", "/. /.", 0),
            Move("insert-node / 0 (document \"e\")", "/0./1. /x", 2),
        ],
    ),
    // two parts of one paragraph at once, and parts of two
    Series(
        "d (document (with \"color\" \"red\" (document \"ab\" \"cd\" \"ef\")))",
        &[
            Move(
                "assign /0/2/0 \"x\";assign /0/2/2 \"yzz\"",
                "/2/0x/2/1./2/2x",
                6,
            ),
            Move(
                "assign /0/2/2 \"ef\";assign /0/2/0 \"ab\"",
                "/2/0x/2/1./2/2x",
                6,
            ),
        ],
    ),
    Series(
        "d (document (document \"ab\" \"cd\") \"e\" (with \"color\" \"red\" (document \"fg\" \"hi\")))",
        &[
            Move(
                "assign /0/0 \"x\";insert /2/2 1 (tuple \"yzz\")",
                "/0x/1. /. /2/0./2/1x/2/2.",
                6,
            ),
            Move(
                "remove /2/2 1 1;assign /0/0 \"ab\"",
                "/0x/1. /. /2/0./2/1.",
                3,
            ),
        ],
    ),
    // a paragraph with parts is split, two are joined
    Series(
        "d (document \"z\" (document \"ab\" \"cd\" \"ef\"))",
        &[
            Move("split / 1 1", "/. /0. /0./1.", 0),
            Move("join / 1", "/. /0./1./2.", 0),
            Move("split / 1 0", "/. /x /0./1./2.", 1),
            Move("join / 1", "/. /0./1./2.", 0),
        ],
    ),
    Series(
        "d (document (with \"color\" \"red\" (document \"ab\" (document \"cd\" \"ef\"))))",
        &[
            Move("split /0/2 1 1", "/2/0./2/1/0./2/2/0.", 0),
            Move("join /0/2 1", "/2/0./2/1/0./2/1/1.", 0),
        ],
    ),
    // what is split or joined itself is another part
    Series(
        "d (document \"abcd\" \"e\")",
        &[
            Move("split / 0 2", "/x /x /.", 6),
            Move("join / 0", "/x /.", 5),
            Move("split / 0 4", "/x /x /.", 6),
        ],
    ),
    Series(
        "d (document (document \"abcd\" \"e\"))",
        &[
            Move("split /0 0 2", "/0x/1x/2.", 6),
            Move("join /0 0", "/0x/1.", 5),
        ],
    ),
    // A `with` of six children isn't open, and is the error `bad with`, which is charged 11.
    Series(
        "d (document (with \"a\" \"1\" \"x\") (with \"b\" \"2\" \"y\"))",
        &[
            Move("join / 0", "/x", 11),
            Move("split / 0 3", "/2x /2x", 4),
        ],
    ),
    // what is cached of parts is carried through all edits up to the next refresh
    Series(
        "d (document (with \"a\" \"1\" \"x\") (with \"b\" \"2\" \"y\"))",
        &[Move("join / 0", "", 0), Move("split / 0 3", "/2. /2.", 0)],
    ),
    Series(
        "d (document \"abc\" \"de\" \"f\")",
        &[
            Move("insert-node /1 0 (document)", "", 0),
            Move("insert /1 0 (tuple \"z\")", "/. /0x/1. /.", 2),
            Move("remove-node /1 1;remove / 0 1", "", 0),
            Move("insert-node / 0 (document)", "/0./1.", 0),
        ],
    ),
    Series(
        "d (document (document \"ab\" \"cd\") \"e\")",
        &[
            Move("assign-node /0 concat", "", 0),
            Move("insert-node /1 0 (concat)", "", 0),
            Move("remove-node /1 0;assign-node /0 document", "/0./1. /.", 0),
            Move("assign-node /0 concat", "/x /.", 7),
            Move("assign-node /0 document", "/0x/1x /.", 6),
        ],
    ),
    // a body that is put in: what was in the document is cached until it is taken out again, or till a refresh
    Series(
        "d (document \"abc\" (document \"de\" \"f\"))",
        &[
            Move("insert / 0 (tuple (body \"x\"))", "", 0),
            Move("remove / 0 1", "/. /0./1.", 0),
            Move("insert / 0 (tuple (body \"x\"))", "", 0),
            Move("assign /2/1 \"ghi\";insert / 1 (tuple \"z\")", "", 0),
            Move("remove / 0 2", "/. /0./1x", 4),
            Move("insert / 0 (tuple (body \"x\"))", "/x", 2),
            Move("remove / 0 1", "/x /0x/1x", 11),
        ],
    ),
    // an edit of a paragraph of that body leaves it, and it is in a paragraph again where the body is none any more
    Series(
        "d (document \"abc\" \"de\")",
        &[
            Move("insert / 0 (tuple (body \"x\"))", "", 0),
            Move("assign /0/0 \"yz\"", "", 0),
            Move("assign-node /0 document", "/0x /. /.", 3),
        ],
    ),
    // a body that gets a frame, and one that leaves it
    Series(
        "d (document \"ab\" (document \"cd\" \"e\"))",
        &[
            Move(
                "insert-node / 0 (body);insert-node / 0 (document)",
                "/. /0./1.",
                0,
            ),
            Move("remove-node / 0;remove-node / 0", "/. /0./1.", 0),
        ],
    ),
];

pub(crate) fn push_parts(text: &mut String, parts: &[Part]) -> Option<()> {
    for part in parts {
        let mark = if part.renewed { 'x' } else { '.' };
        let path = &part.path;
        write!(text, "{path}{mark}").ok()?;
    }
    Some(())
}

// The parts of all paragraphs.
fn parts_told(alloc: Global, bridges: &Bridges) -> Option<String> {
    let mut text = String::new(alloc);
    for i in BASE..1000 {
        let Some(parts) = bridges.parts(i) else {
            return Some(text);
        };
        if i > BASE {
            text.push(' ').ok()?;
        }
        push_parts(&mut text, parts)?;
    }
    None
}

// Evaluates what isn't cached. Whether its parts and the charges are these, and all outcomes those from nothing.
fn is_brought_to<L: Ledger>(
    alloc: Global,
    bridges: &mut Bridges,
    buffers: &[Buffer],
    row: &Move,
    steps: &mut Steps<L>,
) -> Option<bool>
    requires some { 1 ≤ length buffers.now }
    requires few { length buffers.now ≤ 16 }
    ensures units { units_of bridges.new.kept ≡ units_of bridges.old.kept }
    ensures strays { OnSome result (bridges.new.strays ≡ []) }
{
    let charges = bridges.refresh(alloc, steps).ok()?;
    let fresh = are_from_nothing(alloc, bridges, buffers, steps)?;
    let told = parts_told(alloc, bridges)?;
    Some(fresh && charges == row.2 && told.as_str() == row.1)
}

impl Edit for Move {
    // Changes the document, and looks what the refresh does, where there is one.
    fn holds<L: Ledger>(
        &self,
        alloc: Global,
        bridges: &mut Bridges,
        buffers: &mut [Buffer],
        steps: &mut Steps<L>,
    ) -> Option<bool> {
        change(alloc, bridges, buffers, 0, self.0, steps)?;
        if self.1.is_empty() {
            return Some(true);
        }
        is_brought_to(alloc, bridges, buffers, self, steps)
    }
}

#[test]
fn parts_go_where_they_stand(rt: HostRuntime) {
    let wrong = first_untrue::<Brand, _>(rt.alloc(), MOVES, Blank::new(1));
    assert_eq!(rt; wrong, None);
}
