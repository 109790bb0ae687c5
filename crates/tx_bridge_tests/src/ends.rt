// What names have after all units.
ghost use Rattle.std.specs.Prelude.{◌≡◌, ◌≤◌, [], length, OnSome};
ghost use Rattle.tx_bridge.specs.Entries.{units_of};
ghost use Rattle.tx_units.specs.Units.{units};

use crate::boxes::{BoxRow, Boxes, first_untold};
use crate::buffers::buffers_of;
use crate::starts::{Start, kept_from, writes_of};
use crate::ways::Way;
use std::alloc::Global;
use std::marker::Brand;
use std::sync::ledger::{Blank, Ledger};
use tx_base::Steps;
use tx_bridge::Bridges;
use tx_doc::Buffer;
use tx_env::{Env, Writes};
use tx_tree::{Text, Tree, text_of};

// What refreshes units.
enum Call {
    Nothing,
    // where no name is set before them
    Refresh,
    // where these names have these trees before them
    RefreshFrom(Start),
    // so, and boxes are opened
    RefreshWith(Start),
}

struct EndRow {
    buffers: &'static str,
    call: Call,
    edit: Option<Way>,
    // the call after the edit
    then: Call,
    // names with the trees that they have, `;` between them
    has: Start,
    // names that have nothing, a space between them
    lacks: &'static str,
}

const ENDS: &[EndRow] = &[
    // before any refresh no name has anything, none of the base style either, nor after an edit
    EndRow {
        buffers: "d (document (assign \"n\" \"1\"))",
        call: Call::Nothing,
        edit: None,
        then: Call::Nothing,
        has: "",
        lacks: "n color section-nr",
    },
    EndRow {
        buffers: "d (document (assign \"n\" \"1\"))",
        call: Call::Nothing,
        edit: Some(Way::InPlace("assign /0/1 \"2\"")),
        then: Call::Nothing,
        has: "",
        lacks: "n color section-nr",
    },
    EndRow {
        buffers: "d (document (assign \"n\" \"1\"))",
        call: Call::Nothing,
        edit: Some(Way::Listed(0, "insert / 0 (tuple (assign \"m\" \"2\"))")),
        then: Call::Nothing,
        has: "",
        lacks: "n m color section-nr",
    },
    // what was set last
    EndRow {
        buffers: "d (document (assign \"n\" \"1\") \"a\" (document (assign \"n\" \"2\") \"b\"))",
        call: Call::Refresh,
        edit: None,
        then: Call::Nothing,
        has: "n \"2\";color \"black\";section-nr \"0\"",
        lacks: "m",
    },
    // a `with` gives its name back
    EndRow {
        buffers: "d (document (with \"n\" \"1\" (assign \"m\" (value \"n\"))))",
        call: Call::Refresh,
        edit: None,
        then: Call::Nothing,
        has: "m \"1\"",
        lacks: "n",
    },
    // units that are none of the base style and no paragraphs
    EndRow {
        buffers: "d (document (style \"s\") (initial (collection (associate \"k\" \"v\"))) (body (document \
            (assign \"n\" \"1\"))));s (document (assign \"m\" \"2\"))",
        call: Call::Refresh,
        edit: None,
        then: Call::Nothing,
        has: "k \"v\";n \"1\";m \"2\";color \"black\"",
        lacks: "s",
    },
    // a unit that runs out of steps sets nothing
    EndRow {
        buffers: "d (document (assign \"n\" \"1\") (document (assign \"n\" \"2\") (while \"true\" \"abcdefghij\")))",
        call: Call::Refresh,
        edit: None,
        then: Call::Nothing,
        has: "n \"1\"",
        lacks: "m",
    },
    // what is set before the first unit, unless it is set anew
    EndRow {
        buffers: "d (document (value \"n\"))",
        call: Call::RefreshFrom("n \"xy\""),
        edit: None,
        then: Call::Nothing,
        has: "n \"xy\";color \"black\"",
        lacks: "m",
    },
    EndRow {
        buffers: "d (document (assign \"n\" \"1\"))",
        call: Call::RefreshFrom("n \"xy\";m (tuple \"z\");color \"red\""),
        edit: None,
        then: Call::Nothing,
        has: "n \"1\";m (tuple \"z\");color \"black\"",
        lacks: "k",
    },
    EndRow {
        buffers: "d (document \"a\")",
        call: Call::RefreshFrom("n \"1\";n \"2\""),
        edit: None,
        then: Call::Nothing,
        has: "n \"2\"",
        lacks: "m",
    },
    // so where boxes are opened, whose layers give their names back
    EndRow {
        buffers: "d (document (assign \"box\" (macro \"x\" (with \"color\" \"red\" (with \"n\" (value \"m\") \
            (arg \"x\"))))) (box (document (assign \"k\" (value \"n\")) (assign \"l\" (value \"color\")))))",
        call: Call::RefreshWith("m \"7\""),
        edit: None,
        then: Call::Nothing,
        has: "k \"7\";l \"red\";m \"7\";color \"black\"",
        lacks: "n",
    },
    // an edit leaves all of it
    EndRow {
        buffers: "d (document (assign \"n\" \"1\") \"a\")",
        call: Call::Refresh,
        edit: Some(Way::InPlace("assign /0/1 \"2\"")),
        then: Call::Nothing,
        has: "n \"1\";color \"black\"",
        lacks: "m",
    },
    EndRow {
        buffers: "d (document (assign \"n\" \"1\") \"a\")",
        call: Call::Refresh,
        edit: Some(Way::Listed(0, "remove / 0 1;assign /0 (assign \"m\" \"3\")")),
        then: Call::Nothing,
        has: "n \"1\";color \"black\"",
        lacks: "m",
    },
    EndRow {
        buffers: "d (document (style \"s\") (body (document \"a\")));s (document (assign \"m\" \"2\"))",
        call: Call::Refresh,
        edit: Some(Way::Listed(1, "assign /0/1 \"3\"")),
        then: Call::Nothing,
        has: "m \"2\"",
        lacks: "n",
    },
    EndRow {
        buffers: "d (document (assign \"n\" \"1\") \"a\")",
        call: Call::RefreshFrom("m \"z\""),
        edit: Some(Way::InPlace("assign /0/0 \"m\"")),
        then: Call::Nothing,
        has: "n \"1\";m \"z\"",
        lacks: "k",
    },
    EndRow {
        buffers: "d (document (assign \"n\" \"1\") \"a\")",
        call: Call::RefreshWith("m \"z\""),
        edit: Some(Way::Listed(0, "insert / 2 (tuple (assign \"m\" \"3\"))")),
        then: Call::Nothing,
        has: "n \"1\";m \"z\"",
        lacks: "k",
    },
    // the next refresh brings it up to date
    EndRow {
        buffers: "d (document (assign \"n\" \"1\") \"a\")",
        call: Call::Refresh,
        edit: Some(Way::InPlace("assign /0/1 \"2\"")),
        then: Call::Refresh,
        has: "n \"2\";color \"black\"",
        lacks: "m",
    },
    EndRow {
        buffers: "d (document (assign \"n\" \"1\") \"a\")",
        call: Call::RefreshFrom("k \"5\""),
        edit: Some(Way::Listed(0, "remove / 0 1;assign /0 (assign \"m\" \"3\")")),
        then: Call::RefreshWith("k \"6\""),
        has: "m \"3\";k \"6\"",
        lacks: "n",
    },
    // names that it does not start from have nothing any more
    EndRow {
        buffers: "d (document (assign \"n\" \"1\") \"a\")",
        call: Call::RefreshFrom("n \"9\";m \"z\""),
        edit: None,
        then: Call::Refresh,
        has: "n \"1\"",
        lacks: "m",
    },
];

// Refreshes the units from these names.
fn refresh_from<L: Ledger>(
    alloc: Global,
    bridges: &mut Bridges,
    words: &str,
    steps: &mut Steps<L>,
) -> Option<()>
    ensures units { units_of bridges.new.kept ≡ units_of bridges.old.kept }
    ensures strays { OnSome result (bridges.new.strays ≡ []) }
{
    let start = writes_of(alloc, words, steps)?;
    bridges.refresh_from(alloc, &start, None, steps).ok()?;
    Some(())
}

// So, where boxes are opened.
fn refresh_with<L: Ledger>(
    alloc: Global,
    bridges: &mut Bridges,
    words: &str,
    opener: &Boxes,
    steps: &mut Steps<L>,
) -> Option<()>
    ensures units { units_of bridges.new.kept ≡ units_of bridges.old.kept }
    ensures strays { OnSome result (bridges.new.strays ≡ []) }
{
    let start = writes_of(alloc, words, steps)?;
    bridges
        .refresh_with(alloc, &start, None, opener, steps)
        .ok()?;
    Some(())
}

impl Call {
    fn make<L: Ledger>(
        &self,
        alloc: Global,
        bridges: &mut Bridges,
        opener: &Boxes,
        steps: &mut Steps<L>,
    ) -> Option<()>
        ensures units { units_of bridges.new.kept ≡ units_of bridges.old.kept }
        ensures strays { OnSome result (bridges.old.strays ≡ [] → bridges.new.strays ≡ []) }
    {
        match self {
            Call::Nothing => Some(()),
            Call::Refresh => {
                bridges.refresh(alloc, steps).ok()?;
                Some(())
            }
            Call::RefreshFrom(words) => refresh_from(alloc, bridges, words, steps),
            Call::RefreshWith(words) => refresh_with(alloc, bridges, words, opener, steps),
        }
    }
}

// Changes the buffers, if there is an edit.
fn edit<L: Ledger>(
    alloc: Global,
    bridges: &mut Bridges,
    buffers: &mut [Buffer],
    way: &Option<Way>,
    steps: &mut Steps<L>,
) -> Option<()>
    requires some { 1 ≤ length buffers.old }
    requires few { length buffers.old ≤ 16 }
    requires units { units_of bridges.old.kept ≡ units buffers.old }
    requires strays { bridges.old.strays ≡ [] }
{
    match way {
        Some(way) => way.go(alloc, bridges, buffers, steps),
        None => Some(()),
    }
}

// Whether the name has this tree.
fn has_tree(env: &Env, name: &Text, tree: &Tree) -> bool {
    match env.get(name) {
        Some(found) => found.same(tree),
        None => false,
    }
}

fn has_all(env: &Env, names: &Writes) -> bool {
    for (name, tree) in names.pairs() {
        if !has_tree(env, name, tree) {
            return false;
        }
    }
    true
}

fn lacks_all(alloc: Global, env: &Env, names: &str) -> Option<bool> {
    for name in names.split(' ') {
        if env.get(&text_of(alloc, name.as_bytes()).ok()?).is_some() {
            return Some(false);
        }
    }
    Some(true)
}

// Whether names have what the row says.
fn ends_so<L: Ledger>(
    alloc: Global,
    env: &Env,
    row: &EndRow,
    steps: &mut Steps<L>,
) -> Option<bool> {
    let names = writes_of(alloc, row.has, steps)?;
    let lacks = lacks_all(alloc, env, row.lacks)?;
    Some(lacks && has_all(env, &names))
}

// Whether names have what the row says after the row's calls and edit.
fn is_led<L: Ledger>(
    alloc: Global,
    bridges: &mut Bridges,
    buffers: &mut [Buffer],
    row: &EndRow,
    opener: &Boxes,
    steps: &mut Steps<L>,
) -> Option<bool>
    requires some { 1 ≤ length buffers.old }
    requires few { length buffers.old ≤ 16 }
    requires units { units_of bridges.old.kept ≡ units buffers.old }
    requires strays { bridges.old.strays ≡ [] }
{
    row.call.make(alloc, bridges, opener, steps)?;
    edit(alloc, bridges, buffers, &row.edit, steps)?;
    row.then.make(alloc, bridges, opener, steps)?;
    ends_so(alloc, bridges.end(), row, steps)
}

// Whether they do, from the cache of these buffers.
fn is_led_from<L: Ledger>(
    alloc: Global,
    buffers: &mut [Buffer],
    row: &EndRow,
    opener: &Boxes,
    steps: &mut Steps<L>,
) -> Option<bool>
    requires some { 1 ≤ length buffers.old }
    requires few { length buffers.old ≤ 16 }
{
    let mut bridges = kept_from(alloc, buffers, None, steps)?;
    is_led(alloc, &mut bridges, buffers, row, opener, steps)
}

impl BoxRow for EndRow {
    fn is_told<L: Ledger>(
        &self,
        alloc: Global,
        opener: &Boxes,
        steps: &mut Steps<L>,
    ) -> Option<bool> {
        let mut buffers = buffers_of(alloc, self.buffers, steps)?;
        is_led_from(alloc, &mut buffers, self, opener, steps)
    }
}

#[test]
fn the_end_has_what_the_last_refresh_left(rt: HostRuntime) {
    let wrong = first_untold::<Brand, _>(rt.alloc(), ENDS, Blank::new(1));
    assert_eq!(rt; wrong, Ok(None));
}
