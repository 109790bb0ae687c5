// Views of buffers: the path from which places in a row are given, and the stops near a place.
use std::alloc::Global;
use std::marker::Brand;
use std::sync::ledger::{Blank, Ledger};
use tx_base::Steps;
use tx_doc::Buffer;
use tx_samples::{Row, first_untrue, told_buffers};
use tx_tree::{Path, Place};
use tx_view::View;

// The view of these buffers before any refresh, on pages of 80 columns and 24 lines.
fn view_of<L: Ledger>(alloc: Global, buffers: &[Buffer], steps: &mut Steps<L>) -> Option<View> {
    if buffers.is_empty() || buffers.len() > 16 {
        return None;
    }
    View::new(alloc, buffers, 80, 24, steps).ok()
}

// A question about a fresh view.
trait Question {
    // Whether the view returns what is wanted.
    fn is_answered(&self, alloc: Global, view: &View) -> Option<bool>;
}

// Whether the view is made fresh, and returns what is wanted then.
fn answers<L: Ledger, Q: Question>(
    alloc: Global,
    view: &mut View,
    question: &Q,
    steps: &mut Steps<L>,
) -> Option<bool> {
    let stale = !view.fresh();
    view.refresh(alloc, steps).ok()?;
    Some(stale && view.fresh() && question.is_answered(alloc, view)?)
}

// Whether the view of the buffers that are given in words returns what is wanted.
fn view_answers<L: Ledger, Q: Question>(
    alloc: Global,
    told: &str,
    question: &Q,
    steps: &mut Steps<L>,
) -> Option<bool> {
    let buffers = told_buffers(alloc, told, steps)?;
    let mut view = view_of(alloc, &buffers, steps)?;
    answers(alloc, &mut view, question, steps)
}

// Buffers, a row, and the path from which places in it are given, or a dash past the view.
struct BasedRow(&'static str, u32, &'static str);

const NESTED: &str =
    "d (document (assign \"n\" \"1\") (with \"color\" \"red\" (document \"long text\" (value \"n\"))))";

const BLANK: &str = "d (document (with \"color\" \"red\" (document \"\" (document) \"b\")))";

const BASED: &[BasedRow] = &[
    // a paragraph that isn't open is its own part
    BasedRow(NESTED, 0, "/0"),
    BasedRow(NESTED, 1, "/1/2/0"),
    BasedRow(NESTED, 2, "/1/2/1"),
    BasedRow(NESTED, 3, "-"),
    BasedRow("d \"ab\"", 0, "/"),
    // a part without an item has a row, and one without a paragraph has none
    BasedRow(BLANK, 0, "/0/2/0"),
    BasedRow(BLANK, 1, "/0/2/2"),
    BasedRow(BLANK, 2, "-"),
    // where no part has a paragraph, the row is that of the unit
    BasedRow("d (document (with \"color\" \"red\" (document)))", 0, "/0"),
    BasedRow("d (document \"a\" (document))", 1, "/1"),
];

// The path from which places in a row are given, or a dash past the last row.
fn base_told(alloc: Global, view: &View, r: u32) -> Option<String> {
    match view.base(r) {
        None => Some(format!(in alloc; "-").ok()?),
        Some(base) => {
            let path = base.path(alloc).ok()?;
            Some(format!(in alloc; "{path}").ok()?)
        }
    }
}

impl Question for BasedRow {
    fn is_answered(&self, alloc: Global, view: &View) -> Option<bool> {
        Some(base_told(alloc, view, self.1)?.as_str() == self.2)
    }
}

impl Row for BasedRow {
    fn holds<L: Ledger>(&self, alloc: Global, steps: &mut Steps<L>) -> Option<bool> {
        view_answers(alloc, self.0, self, steps)
    }
}

// Buffers, the path and the offset of a place, and the stops near it.
struct NearRow(&'static str, &'static str, u32, &'static str);

const FOUR: &str = "d (document \"a\" \"bc\" \"d\" \"e\")";

const TWICE: &str =
    "d (document (assign \"f\" (macro \"x\" \"y\" (concat (arg \"x\") (arg \"y\") (arg \"x\")))) \
    (f \"a\" \"b\") \"c\")";

const NEAR: &[NearRow] = &[
    NearRow(FOUR, "/0", 0, "/0/0 /0/1 /1/0 "),
    NearRow(FOUR, "/1", 1, "/0/1 /1/0 /1/1 /1/2 "),
    NearRow(FOUR, "/3", 1, "/2/1 /3/0 /3/1 "),
    // places that are no stops
    NearRow(FOUR, "/1", 3, "/0/0 "),
    NearRow(FOUR, "/4", 0, "/0/0 "),
    NearRow(FOUR, "/1/0", 0, "/0/0 "),
    NearRow(FOUR, "/", 0, "/0/0 "),
    // what occurs twice has its stops once, and after it all stops of the units are listed
    NearRow(TWICE, "/2", 0, "/1/0/0 /1/0/1 /1/1/0 /1/1/1 /2/0 /2/1 "),
    NearRow(TWICE, "/1/0", 1, "/0/0 /1/0/0 /1/0/1 /1/1/0 /1/1/1 "),
    // a single unit, whose path is that of the root, and none
    NearRow("d \"a\"", "/", 1, "/0 /1 "),
    NearRow("d (document)", "/", 0, ""),
];

fn places_told(alloc: Global, places: &[Place]) -> Option<String> {
    let mut text = String::new(alloc);
    for place in places {
        text.push_str(format!(in alloc; "{place} ").ok()?.as_str())
            .ok()?;
    }
    Some(text)
}

// The stops near the place with this path and this offset.
fn near_told(alloc: Global, view: &View, path: &str, offset: u32) -> Option<String> {
    let path = Path::parse(alloc, path.as_bytes()).ok()?;
    let stops = view.stops_near(alloc, &Place { path, offset }).ok()?;
    places_told(alloc, &stops)
}

impl Question for NearRow {
    fn is_answered(&self, alloc: Global, view: &View) -> Option<bool> {
        Some(near_told(alloc, view, self.1, self.2)?.as_str() == self.3)
    }
}

impl Row for NearRow {
    fn holds<L: Ledger>(&self, alloc: Global, steps: &mut Steps<L>) -> Option<bool> {
        view_answers(alloc, self.0, self, steps)
    }
}

#[test]
fn bases_of_rows(rt: HostRuntime) {
    let wrong = first_untrue::<Brand, _>(rt.alloc(), BASED, Blank::new(1));
    assert_eq!(rt; wrong, None);
}

#[test]
fn stops_near_a_place(rt: HostRuntime) {
    let wrong = first_untrue::<Brand, _>(rt.alloc(), NEAR, Blank::new(1));
    assert_eq!(rt; wrong, None);
}
