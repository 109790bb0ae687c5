// The parts of paragraphs.
ghost use Rattle.std.specs.Prelude.{◌≡◌};

use crate::buffers::{BASE, buffers_of};
use crate::edits::edited_in_place;
use std::alloc::Global;
use std::marker::Brand;
use std::sync::ledger::{Blank, Ledger};
use tx_base::Steps;
use tx_bridge::Bridges;
use tx_samples::{Row, first_untrue};
use tx_walk::Part;

// A buffer, an edit inside one paragraph, and for each paragraph, a `/` between them, a mark for each part: a cross
// where nothing that fits was cached of it, and else a point.
struct MarksRow(&'static str, &'static str, &'static str);

const MARKS: &[MarksRow] = &[
    MarksRow(
        "d (document (assign \"n\" \"1\") (with \"color\" \"red\" (document \"long text\" (value \"n\"))))",
        "assign /1/2/0 \"x\"",
        "./x.",
    ),
    MarksRow(
        "d (document (assign \"n\" \"1\") (with \"color\" \"red\" (document \"long text\" (value \"n\"))))",
        "assign /0/1 \"5\"",
        "x/.x",
    ),
    // a paragraph that isn't reached
    MarksRow(
        "d (document (document \"a\" \"b\") (document \"c\" \"d\"))",
        "insert /1/0 0 \"x\"",
        "../x.",
    ),
    // one that isn't open is its own part
    MarksRow(
        "d (document \"a\" \"b\" (value \"n\") (concat \"c\" (document \"d\")) \"e\")",
        "insert /1 0 \"x\"",
        "./x/././.",
    ),
    MarksRow(
        "d (document \"a\" (value \"n\") (concat \"c\" (document \"d\")) \"e\")",
        "assign /0 (assign \"n\" \"1\")",
        "x/x/./.",
    ),
    // also one that is opened or closed now
    MarksRow(
        "d (document (concat \"a\" \"bc\") \"d\")",
        "assign-node /0 document",
        "xx/.",
    ),
    MarksRow(
        "d (document (document \"a\" \"bc\") \"d\")",
        "assign-node /0 concat",
        "x/.",
    ),
    MarksRow(
        "d (document (document \"a\") \"d\")",
        "remove /0 0 1",
        "x/.",
    ),
];

fn all_marked(parts: &[Part], marks: &[u8]) -> bool {
    for i in 0..parts.len() {
        if parts[i].renewed != (marks.get(i) == Some(&b'x')) {
            return false;
        }
    }
    parts.len() == marks.len()
}

// Whether the parts of the paragraphs have these marks.
pub(crate) fn are_marked(bridges: &Bridges, marks: &str) -> Option<bool> {
    for (i, own) in marks.split('/').enumerate() {
        let parts = bridges.parts(BASE.checked_add(u32::try_from(i).ok()?)?)?;
        if !all_marked(parts, own.as_bytes()) {
            return Some(false);
        }
    }
    Some(true)
}

impl Row for MarksRow {
    fn holds<L: Ledger>(&self, alloc: Global, steps: &mut Steps<L>) -> Option<bool> {
        let mut buffers = buffers_of(alloc, self.0, steps)?;
        let (bridges, _) = edited_in_place(alloc, &mut buffers, self.1, steps)?;
        are_marked(&bridges, self.2)
    }
}

#[test]
fn parts_that_change_are_told(rt: HostRuntime) {
    let wrong = first_untrue::<Brand, _>(rt.alloc(), MARKS, Blank::new(1));
    assert_eq!(rt; wrong, None);
}
