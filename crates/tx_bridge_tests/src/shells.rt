// Units with tags that an opener opens.
ghost use Rattle.std.specs.Prelude.{◌≡◌, [], IfSome};
ghost use Rattle.std.specs.List.{All, IsDistinct};
ghost use Rattle.std.specs.Str.{bytes_eq};
ghost use Rattle.tx_walk.specs.Held.{IsSound};
ghost use Rattle.tx_walk.specs.Walked.{IsTidy, kept_in, paths_of};

use crate::boxes::{BoxRow, Boxes, first_untold};
use crate::outcomes::{evaluated, same};
use std::alloc::Global;
use std::marker::Brand;
use std::sync::ledger::{Blank, Ledger};
use tx_base::Steps;
use tx_env::Env;
use tx_exec::Outcome;
use tx_samples::tree_of;
use tx_tree::{Tree, text_of};
use tx_walk::{LayerTrace, Part, Walked, kept_law, walk_with, walked_law};

// How many steps are allowed.
const ALLOWANCE: u64 = 1_000_000;

// What the opener opens.
const BOX: &str = "(macro \"x\" (with \"color\" \"red\" (with \"n\" (value \"m\") (arg \"x\"))))";

// A tree, and what the names `box` and `m` have, if anything.
struct ShellRow {
    tree: &'static str,
    label: Option<&'static str>,
    m: Option<&'static str>,
    // how many parts it has, what they and the layers cost, and what the layers cost alone
    parts: usize,
    charge: u64,
    again: u64,
}

// A text costs 1 and its bytes, and `(value "m")` costs 3 and the size of what `m` has. So where that is a text of one
// byte, a box costs 4 for `"red"` and 5 for `(value "m")`.
const SHELLS: &[ShellRow] = &[
    // "abc" costs 4
    ShellRow {
        tree: "(box \"abc\")",
        label: Some(BOX),
        m: Some("\"7\""),
        parts: 1,
        charge: 13,
        again: 9,
    },
    // "a" and "b" cost 2 each, and the value of `n`, which is that of `m`, costs 5
    ShellRow {
        tree: "(document \"a\" (box (document \"b\" (value \"n\"))))",
        label: Some(BOX),
        m: Some("\"7\""),
        parts: 3,
        charge: 18,
        again: 9,
    },
    // after the box `n` has nothing, and the error costs 13 with 3 for its tag
    ShellRow {
        tree: "(document (box (value \"n\")) (value \"n\"))",
        label: Some(BOX),
        m: Some("\"7\""),
        parts: 2,
        charge: 30,
        again: 9,
    },
    // a box in a box
    ShellRow {
        tree: "(box (box \"a\"))",
        label: Some(BOX),
        m: Some("\"7\""),
        parts: 1,
        charge: 20,
        again: 18,
    },
    // of the value's 6 steps 2 are nodes, for which a step more is taken each
    ShellRow {
        tree: "(box \"abc\")",
        label: Some(BOX),
        m: Some("(tuple \"p\" (tuple \"q\"))"),
        parts: 1,
        charge: 19,
        again: 15,
    },
    // the error is a node
    ShellRow {
        tree: "(box \"abc\")",
        label: Some(BOX),
        m: None,
        parts: 1,
        charge: 25,
        again: 21,
    },
    // no macro
    ShellRow {
        tree: "(box \"abc\")",
        label: None,
        m: Some("\"7\""),
        parts: 1,
        charge: 5,
        again: 0,
    },
    // another macro: the tag, the argument's tag and the argument
    ShellRow {
        tree: "(box \"abc\")",
        label: Some("(macro \"x\" (arg \"x\"))"),
        m: Some("\"7\""),
        parts: 1,
        charge: 6,
        again: 0,
    },
    // Two children: the tag, 3 tags within, the names for 6 and 2, what they are set to for 4 and 5, that once more as
    // it is set, by its size, 4 and 2, and the argument for 4.
    ShellRow {
        tree: "(box \"abc\" \"d\")",
        label: Some(BOX),
        m: Some("\"7\""),
        parts: 1,
        charge: 31,
        again: 0,
    },
];

// A tree, what the name `m` has in a first walk and in a second one, if anything, and `box` has a box's macro.
struct LentRow {
    tree: &'static str,
    m: Option<&'static str>,
    m_then: Option<&'static str>,
    // how many trees of layers are cached after the first walk
    layers: usize,
    // what the second walk costs, where the first one's parts are cached, and its layers are cached or are spare
    charge: u64,
}

// A box keeps `"red"`, which looks nothing up, and `(value "m")`.
const LENT: &[LentRow] = &[
    LentRow {
        tree: "(box \"abc\")",
        m: Some("\"7\""),
        m_then: Some("\"7\""),
        layers: 2,
        charge: 0,
    },
    // each tree is cached once
    LentRow {
        tree: "(box (box \"a\"))",
        m: Some("\"7\""),
        m_then: Some("\"7\""),
        layers: 2,
        charge: 0,
    },
    // nor are the nodes counted of what a name is set to
    LentRow {
        tree: "(box \"abc\")",
        m: Some("(tuple \"p\" (tuple \"q\"))"),
        m_then: Some("(tuple \"p\" (tuple \"q\"))"),
        layers: 2,
        charge: 0,
    },
    // the name that is looked up has changed: 3 for the tag, and 2 for the text
    LentRow {
        tree: "(box \"abc\")",
        m: Some("\"7\""),
        m_then: Some("\"8\""),
        layers: 2,
        charge: 5,
    },
    // in each of both boxes
    LentRow {
        tree: "(box (box \"a\"))",
        m: Some("\"7\""),
        m_then: Some("\"8\""),
        layers: 2,
        charge: 10,
    },
    // and the part that looks up what the layer sets costs 5
    LentRow {
        tree: "(document \"a\" (box (document \"b\" (value \"n\"))))",
        m: Some("\"7\""),
        m_then: Some("\"8\""),
        layers: 2,
        charge: 10,
    },
    // 3 for the tag, 6 for the value, and 2 for its nodes
    LentRow {
        tree: "(box \"abc\")",
        m: Some("\"7\""),
        m_then: Some("(tuple \"p\" (tuple \"q\"))"),
        layers: 2,
        charge: 11,
    },
    // it had nothing before
    LentRow {
        tree: "(box \"abc\")",
        m: None,
        m_then: Some("\"7\""),
        layers: 2,
        charge: 5,
    },
    // it has nothing now: the error costs 16, and is a node
    LentRow {
        tree: "(box \"abc\")",
        m: Some("\"7\""),
        m_then: None,
        layers: 2,
        charge: 17,
    },
    // one tree with two traces
    LentRow {
        tree: "(document (box \"a\") (assign \"m\" \"8\") (box \"b\"))",
        m: Some("\"7\""),
        m_then: Some("\"7\""),
        layers: 3,
        charge: 0,
    },
    // of which the second one fits
    LentRow {
        tree: "(document (box \"a\") (assign \"m\" \"8\") (box \"b\"))",
        m: Some("\"7\""),
        m_then: Some("\"9\""),
        layers: 3,
        charge: 5,
    },
];

// Sets the name to the tree that these words spell, if there are any.
fn set<L: Ledger>(
    alloc: Global,
    env: &mut Env,
    name: &[u8],
    words: Option<&str>,
    steps: &mut Steps<L>,
) -> Option<()>
    ensures { env.new.scopes ≡ env.old.scopes }
{
    let Some(words) = words else {
        return Some(());
    };
    let tree = tree_of(alloc, words, steps)?;
    let name = text_of(alloc, name).ok()?;
    env.set(name, tree).ok()
}

// An environment where `box` and `m` have this.
fn env_of<L: Ledger>(
    alloc: Global,
    label: Option<&str>,
    m: Option<&str>,
    steps: &mut Steps<L>,
) -> Option<Env>
    ensures { IfSome result (λ env. env.scopes ≡ []) }
{
    let mut env = Env::new(alloc);
    set(alloc, &mut env, b"box".as_slice(), label, steps)?;
    set(alloc, &mut env, b"m".as_slice(), m, steps)?;
    Some(env)
}

// The tree by its parts, of which nothing is cached.
fn by_parts<L: Ledger>(
    alloc: Global,
    t: &Tree,
    label: Option<&str>,
    m: Option<&str>,
    opener: &Boxes,
    steps: &mut Steps<L>,
) -> Option<Walked>
    ensures sound { IfSome result (λ w. IsSound (kept_in w.parts.items) [] t.now) }
    ensures distinct { IfSome result (λ w. IsDistinct bytes_eq (paths_of w.parts.items)) }
    ensures tidy { IfSome result (λ w. All IsTidy w.parts.items) }
{
    kept_law();
    walked_law();
    let mut env = env_of(alloc, label, m, steps)?;
    match walk_with(
        alloc,
        t,
        &mut env,
        ALLOWANCE,
        opener,
        &[],
        &[],
        &[],
        &[],
        steps,
    ) {
        Ok(walked) => Some(walked),
        Err(_) => None,
    }
}

// The tree by its parts, of which these are cached, and of its layers these, and others are spare.
fn again<L: Ledger>(
    alloc: Global,
    t: &Tree,
    label: Option<&str>,
    m: Option<&str>,
    opener: &Boxes,
    kept: &[Part],
    layers: &[LayerTrace],
    spare: &[LayerTrace],
    steps: &mut Steps<L>,
) -> Option<Walked>
    requires sound { IsSound (kept_in kept.now) [] t.now }
    requires distinct { IsDistinct bytes_eq (paths_of kept.now) }
    requires tidy { All IsTidy kept.now }
{
    kept_law();
    let mut env = env_of(alloc, label, m, steps)?;
    walk_with(
        alloc,
        t,
        &mut env,
        ALLOWANCE,
        opener,
        kept,
        &[],
        layers,
        spare,
        steps,
    )
    .ok()
}

// The outcome of the whole tree.
fn whole<L: Ledger>(
    alloc: Global,
    t: &Tree,
    label: Option<&str>,
    m: Option<&str>,
    steps: &mut Steps<L>,
) -> Option<Outcome> {
    let mut env = env_of(alloc, label, m, steps)?;
    evaluated(alloc, t, &mut env, ALLOWANCE, steps)
}

// Whether the outcome is what evaluating the whole tree gives.
fn is_whole<L: Ledger>(
    alloc: Global,
    label: Option<&str>,
    m: Option<&str>,
    t: &Tree,
    outcome: &Outcome,
    steps: &mut Steps<L>,
) -> Option<bool> {
    let whole = whole(alloc, t, label, m, steps)?;
    same(alloc, outcome, &whole, steps)
}

// Whether the outcome is the whole tree's, and there are as many parts as the row says, all renewed or none.
fn is_as_told<L: Ledger>(
    alloc: Global,
    row: &ShellRow,
    t: &Tree,
    walked: &Walked,
    renewed: bool,
    steps: &mut Steps<L>,
) -> Option<bool> {
    let alike = is_whole(alloc, row.label, row.m, t, &walked.outcome, steps)?;
    let all = walked.parts.iter().all(|part| part.renewed == renewed);
    Some(alike && all && walked.parts.len() == row.parts)
}

// Whether a second walk holds each part, and costs what the layers do.
fn is_held<L: Ledger>(
    alloc: Global,
    row: &ShellRow,
    t: &Tree,
    opener: &Boxes,
    kept: &[Part],
    steps: &mut Steps<L>,
) -> Option<bool>
    requires sound { IsSound (kept_in kept.now) [] t.now }
    requires distinct { IsDistinct bytes_eq (paths_of kept.now) }
    requires tidy { All IsTidy kept.now }
{
    let walked = again(alloc, t, row.label, row.m, opener, kept, &[], &[], steps)?;
    let told = is_as_told(alloc, row, t, &walked, false, steps)?;
    Some(told && walked.charge == row.again)
}

// Whether the walk is as the row says, with its charge, and a second one costs what the layers do.
fn is_charged<L: Ledger>(
    alloc: Global,
    row: &ShellRow,
    t: &Tree,
    opener: &Boxes,
    walked: &Walked,
    steps: &mut Steps<L>,
) -> Option<bool>
    requires sound { IsSound (kept_in walked.now.parts.items) [] t.now }
    requires distinct { IsDistinct bytes_eq (paths_of walked.now.parts.items) }
    requires tidy { All IsTidy walked.now.parts.items }
{
    let told = is_as_told(alloc, row, t, walked, true, steps)?;
    let held = is_held(alloc, row, t, opener, &walked.parts, steps)?;
    Some(told && held && walked.charge == row.charge)
}

// Whether a first walk is as the row says, and a second one costs what the layers do.
fn is_walked<L: Ledger>(
    alloc: Global,
    row: &ShellRow,
    t: &Tree,
    opener: &Boxes,
    steps: &mut Steps<L>,
) -> Option<bool> {
    let walked = by_parts(alloc, t, row.label, row.m, opener, steps)?;
    is_charged(alloc, row, t, opener, &walked, steps)
}

impl BoxRow for ShellRow {
    fn is_told<L: Ledger>(
        &self,
        alloc: Global,
        opener: &Boxes,
        steps: &mut Steps<L>,
    ) -> Option<bool> {
        let tree = tree_of(alloc, self.tree, steps)?;
        is_walked(alloc, self, &tree, opener, steps)
    }
}

// Whether a second walk for which these are lent is as the row says.
fn is_cheap<L: Ledger>(
    alloc: Global,
    row: &LentRow,
    t: &Tree,
    opener: &Boxes,
    kept: &[Part],
    layers: &[LayerTrace],
    spare: &[LayerTrace],
    steps: &mut Steps<L>,
) -> Option<bool>
    requires sound { IsSound (kept_in kept.now) [] t.now }
    requires distinct { IsDistinct bytes_eq (paths_of kept.now) }
    requires tidy { All IsTidy kept.now }
{
    let walked = again(
        alloc,
        t,
        Some(BOX),
        row.m_then,
        opener,
        kept,
        layers,
        spare,
        steps,
    )?;
    let alike = is_whole(alloc, Some(BOX), row.m_then, t, &walked.outcome, steps)?;
    Some(alike && walked.charge == row.charge)
}

// Whether what this walk returns serves a second one, as its cache and as its spare.
fn is_lent<L: Ledger>(
    alloc: Global,
    row: &LentRow,
    t: &Tree,
    opener: &Boxes,
    walked: &Walked,
    steps: &mut Steps<L>,
) -> Option<bool>
    requires sound { IsSound (kept_in walked.now.parts.items) [] t.now }
    requires distinct { IsDistinct bytes_eq (paths_of walked.now.parts.items) }
    requires tidy { All IsTidy walked.now.parts.items }
{
    let kept = is_cheap(
        alloc,
        row,
        t,
        opener,
        &walked.parts,
        &walked.layers,
        &[],
        steps,
    )?;
    let spare = is_cheap(
        alloc,
        row,
        t,
        opener,
        &walked.parts,
        &[],
        &walked.layers,
        steps,
    )?;
    Some(kept && spare && walked.layers.len() == row.layers)
}

// Whether what a first walk of this tree returns serves a second one, as its cache and as its spare.
fn is_walked_twice<L: Ledger>(
    alloc: Global,
    row: &LentRow,
    t: &Tree,
    opener: &Boxes,
    steps: &mut Steps<L>,
) -> Option<bool> {
    let walked = by_parts(alloc, t, Some(BOX), row.m, opener, steps)?;
    is_lent(alloc, row, t, opener, &walked, steps)
}

impl BoxRow for LentRow {
    fn is_told<L: Ledger>(
        &self,
        alloc: Global,
        opener: &Boxes,
        steps: &mut Steps<L>,
    ) -> Option<bool> {
        let tree = tree_of(alloc, self.tree, steps)?;
        is_walked_twice(alloc, self, &tree, opener, steps)
    }
}

#[test]
fn tags_with_shells_are_gone_into(rt: HostRuntime) {
    let wrong = first_untold::<Brand, _>(rt.alloc(), SHELLS, Blank::new(1));
    assert_eq!(rt; wrong, Ok(None));
}

#[test]
fn layers_that_are_kept_cost_nothing(rt: HostRuntime) {
    let wrong = first_untold::<Brand, _>(rt.alloc(), LENT, Blank::new(1));
    assert_eq!(rt; wrong, Ok(None));
}
