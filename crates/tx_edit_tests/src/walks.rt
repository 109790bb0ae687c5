// Units by their parts.
ghost use Rattle.std.specs.Prelude.{◌≡◌, ◌≤◌, [], IfSome};
ghost use Rattle.std.specs.List.{All, IsDistinct};
ghost use Rattle.std.specs.Str.{bytes_eq};
ghost use Rattle.tx_walk.specs.Held.{IsSound, AreSound};
ghost use Rattle.tx_walk.specs.Walked.{IsTidy, kept_in, stores_in, paths_of};

use std::alloc::Global;
use std::marker::Brand;
use std::sync::ledger::{Blank, Ledger};
use tx_base::Steps;
use tx_env::Env;
use tx_exec::{Outcome, eval};
use tx_origin::{Ip, Tagged};
use tx_samples::{Row, first_untrue, tree_of};
use tx_tree::{Text, Tree};
use tx_walk::{Part, Walked, kept_law, walk, walked_law};

// The outcome of the whole tree.
fn evaluated<L: Ledger>(
    alloc: Global,
    t: &Tree,
    env: &mut Env,
    allowance: u64,
    steps: &mut Steps<L>,
) -> Option<Outcome>
    requires { allowance ≤ 1000000 }
{
    let tagged = Tagged {
        tree: t.share().ok()?,
        at: Some(Ip::root()),
    };
    eval(alloc, &tagged, env, allowance, steps).ok()
}

// Whether both are done, with one value, cost and height.
fn same<L: Ledger>(
    alloc: Global,
    one: &Outcome,
    other: &Outcome,
    steps: &mut Steps<L>,
) -> Option<bool> {
    match (one, other) {
        (Outcome::Done(a), Outcome::Done(b)) => {
            let value = a.value.plain(alloc, steps).ok()?;
            let fresh = b.value.plain(alloc, steps).ok()?;
            Some(value.same(&fresh) && a.cost == b.cost && a.height == b.height)
        }
        _ => Some(false),
    }
}

// How many steps are allowed.
const ALLOWANCE: u64 = 1_000_000;

// A tree, what the name `n` has, and how many parts the tree has.
struct WholeRow(&'static str, &'static str, usize);

const WHOLES: &[WholeRow] = &[
    WholeRow("\"text\"", "1", 1),
    WholeRow("(value \"n\")", "1", 1),
    WholeRow("(document)", "1", 1),
    WholeRow("(document \"a\" (value \"n\") \"b\")", "1", 3),
    WholeRow(
        "(document (document (value \"n\") \"a\") (concat \"b\" (value \"n\")))",
        "2",
        3,
    ),
    WholeRow(
        "(with \"color\" \"red\" (document \"a\" (value \"n\")))",
        "1",
        2,
    ),
    WholeRow("(document (assign \"n\" \"5\") (value \"n\"))", "1", 2),
    WholeRow("(with \"n\" \"5\" (document (value \"n\") \"a\"))", "1", 2),
    WholeRow(
        "(document (with \"n\" \"5\" (value \"n\")) (value \"n\"))",
        "1",
        2,
    ),
    // no names and texts alone
    WholeRow("(with \"m\" (value \"n\") (document \"a\" \"b\"))", "1", 1),
    WholeRow("(document (while \"true\" \"ab\") (value \"n\"))", "1", 2),
];

// A tree, and what the name `n` had where it was walked for the cache and for the spare, and what it has now.
struct SpareRow {
    tree: &'static str,
    kept: &'static str,
    spare: &'static str,
    now: &'static str,
    // what the walk costs, and which parts are renewed
    charge: u64,
    renewed: &'static [bool],
}

const SPARES: &[SpareRow] = &[
    // the spare alone serves
    SpareRow {
        tree: "(document \"a\" (value \"n\"))",
        kept: "1",
        spare: "2",
        now: "2",
        charge: 0,
        renewed: &[false, true],
    },
    // both do
    SpareRow {
        tree: "(document \"a\" (value \"n\"))",
        kept: "2",
        spare: "2",
        now: "2",
        charge: 0,
        renewed: &[false, false],
    },
    // the cache alone does
    SpareRow {
        tree: "(document (value \"n\") \"a\")",
        kept: "2",
        spare: "1",
        now: "2",
        charge: 0,
        renewed: &[false, false],
    },
    // neither does
    SpareRow {
        tree: "(document \"a\" (value \"n\"))",
        kept: "1",
        spare: "2",
        now: "3",
        charge: 5,
        renewed: &[false, true],
    },
    // where the name is set before it, what it had doesn't count
    SpareRow {
        tree: "(document (value \"n\") (with \"n\" \"5\" (value \"n\")))",
        kept: "1",
        spare: "2",
        now: "2",
        charge: 0,
        renewed: &[true, false],
    },
];

fn leaf_of(alloc: Global, words: &str) -> Option<Tree> {
    let text = Text::new(alloc, words.as_bytes()).ok()?;
    Tree::leaf(alloc, text).ok()
}

// An environment where `n` has this text.
fn env_of(alloc: Global, words: &str) -> Option<Env>
    ensures { IfSome result (λ env. env.scopes ≡ []) }
{
    let tree = leaf_of(alloc, words)?;
    let name = Text::new(alloc, b"n".as_slice()).ok()?;
    let mut env = Env::new(alloc);
    env.set(name, tree).ok()?;
    Some(env)
}

// The tree by its parts, of which nothing is cached, where so many steps are allowed.
fn by_parts<L: Ledger>(
    alloc: Global,
    t: &Tree,
    words: &str,
    allowance: u64,
    steps: &mut Steps<L>,
) -> Option<Walked>
    requires { allowance ≤ 1000000 }
    ensures sound { IfSome result (λ w. IsSound (kept_in w.parts.items) [] t.now) }
    ensures distinct { IfSome result (λ w. IsDistinct bytes_eq (paths_of w.parts.items)) }
    ensures tidy { IfSome result (λ w. All IsTidy w.parts.items) }
{
    kept_law();
    walked_law();
    let mut env = env_of(alloc, words)?;
    match walk(alloc, t, &mut env, allowance, &[], &[], steps) {
        Ok(walked) => Some(walked),
        Err(_) => None,
    }
}

// The tree by its parts, of which these are cached, and these are spare.
fn again<L: Ledger>(
    alloc: Global,
    t: &Tree,
    words: &str,
    kept: &[Part],
    spare: &[Part],
    steps: &mut Steps<L>,
) -> Option<Walked>
    requires sound { AreSound (stores_in kept.now spare.now) [] t.now }
    requires distinct { IsDistinct bytes_eq (paths_of kept.now) }
    requires tidy { All IsTidy kept.now }
    requires spare_distinct { IsDistinct bytes_eq (paths_of spare.now) }
    requires spare_tidy { All IsTidy spare.now }
{
    let mut env = env_of(alloc, words)?;
    walk(alloc, t, &mut env, ALLOWANCE, kept, spare, steps).ok()
}

// Whether so many steps suffice. Where they don't there are no parts.
fn suffice<L: Ledger>(
    alloc: Global,
    t: &Tree,
    words: &str,
    allowance: u64,
    steps: &mut Steps<L>,
) -> Option<bool> {
    if allowance > ALLOWANCE {
        return None;
    }
    let walked = by_parts(alloc, t, words, allowance, steps)?;
    match &walked.outcome {
        Outcome::Done(_) => Some(true),
        Outcome::Over => walked.parts.is_empty().then_some(false),
    }
}

// Whether just as many steps suffice as evaluating the whole tree takes.
fn is_exact<L: Ledger>(
    alloc: Global,
    t: &Tree,
    words: &str,
    whole: &Outcome,
    steps: &mut Steps<L>,
) -> Option<bool> {
    let Outcome::Done(trace) = whole else {
        return None;
    };
    let fewer = trace.cost.checked_sub(1)?;
    let enough = suffice(alloc, t, words, trace.cost, steps)?;
    Some(enough && !suffice(alloc, t, words, fewer, steps)?)
}

// The outcome of the whole tree.
fn whole<L: Ledger>(alloc: Global, t: &Tree, words: &str, steps: &mut Steps<L>) -> Option<Outcome> {
    let mut env = env_of(alloc, words)?;
    evaluated(alloc, t, &mut env, ALLOWANCE, steps)
}

// Whether the walk has the outcome of the whole, held each part, and has as many parts as the row says.
fn are_held<L: Ledger>(
    alloc: Global,
    row: &WholeRow,
    walked: &Walked,
    whole: &Outcome,
    steps: &mut Steps<L>,
) -> Option<bool> {
    let alike = same(alloc, &walked.outcome, whole, steps)?;
    let held = walked
        .parts
        .iter()
        .all(|part| !part.renewed && part.placed.is_some());
    Some(alike && held && walked.parts.len() == row.2)
}

// Whether a second walk does.
fn is_held<L: Ledger>(
    alloc: Global,
    row: &WholeRow,
    t: &Tree,
    kept: &[Part],
    whole: &Outcome,
    steps: &mut Steps<L>,
) -> Option<bool>
    requires sound { IsSound (kept_in kept.now) [] t.now }
    requires distinct { IsDistinct bytes_eq (paths_of kept.now) }
    requires tidy { All IsTidy kept.now }
{
    kept_law();
    let walked = again(alloc, t, row.1, kept, &[], steps)?;
    are_held(alloc, row, &walked, whole, steps)
}

// Whether the walk has the outcome of the whole, with so many parts, all of them evaluated, and a second one holds
// them.
fn is_whole<L: Ledger>(
    alloc: Global,
    row: &WholeRow,
    t: &Tree,
    walked: &Walked,
    whole: &Outcome,
    steps: &mut Steps<L>,
) -> Option<bool>
    requires sound { IsSound (kept_in walked.now.parts.items) [] t.now }
    requires distinct { IsDistinct bytes_eq (paths_of walked.now.parts.items) }
    requires tidy { All IsTidy walked.now.parts.items }
{
    let alike = same(alloc, &walked.outcome, whole, steps)?;
    let anew = walked.parts.iter().all(|part| part.renewed);
    let held = is_held(alloc, row, t, &walked.parts, whole, steps)?;
    Some(alike && anew && held && walked.parts.len() == row.2)
}

// Whether a first walk has it, with such parts, and a second one holds them.
fn is_walked<L: Ledger>(
    alloc: Global,
    row: &WholeRow,
    t: &Tree,
    whole: &Outcome,
    steps: &mut Steps<L>,
) -> Option<bool> {
    let walked = by_parts(alloc, t, row.1, ALLOWANCE, steps)?;
    is_whole(alloc, row, t, &walked, whole, steps)
}

// Whether the row holds of a first walk, and of one with just as many steps as evaluating the whole takes.
fn is_told<L: Ledger>(
    alloc: Global,
    row: &WholeRow,
    t: &Tree,
    whole: &Outcome,
    steps: &mut Steps<L>,
) -> Option<bool> {
    let walked = is_walked(alloc, row, t, whole, steps)?;
    let exact = is_exact(alloc, t, row.1, whole, steps)?;
    Some(walked && exact)
}

impl Row for WholeRow {
    fn holds<L: Ledger>(&self, alloc: Global, steps: &mut Steps<L>) -> Option<bool> {
        let tree = tree_of(alloc, self.0, steps)?;
        let whole = whole(alloc, &tree, self.1, steps)?;
        is_told(alloc, self, &tree, &whole, steps)
    }
}

#[test]
fn the_whole_is_what_its_parts_come_to(rt: HostRuntime) {
    let wrong = first_untrue::<Brand, _>(rt.alloc(), WHOLES, Blank::new(1));
    assert_eq!(rt; wrong, None);
}

// The tree by its parts, over these and the spare.
fn with_spare<L: Ledger>(
    alloc: Global,
    row: &SpareRow,
    t: &Tree,
    kept: &[Part],
    steps: &mut Steps<L>,
) -> Option<Walked>
    requires sound { IsSound (kept_in kept.now) [] t.now }
    requires distinct { IsDistinct bytes_eq (paths_of kept.now) }
    requires tidy { All IsTidy kept.now }
{
    let spare = by_parts(alloc, t, row.spare, ALLOWANCE, steps)?;
    again(alloc, t, row.now, kept, &spare.parts, steps)
}

// The tree by its parts, over the cache and the spare.
fn walked_over<L: Ledger>(
    alloc: Global,
    row: &SpareRow,
    t: &Tree,
    steps: &mut Steps<L>,
) -> Option<Walked> {
    let kept = by_parts(alloc, t, row.kept, ALLOWANCE, steps)?;
    with_spare(alloc, row, t, &kept.parts, steps)
}

// Whether the outcome is what evaluating the whole tree gives.
fn is_like_whole<L: Ledger>(
    alloc: Global,
    t: &Tree,
    words: &str,
    outcome: &Outcome,
    steps: &mut Steps<L>,
) -> Option<bool> {
    let whole = whole(alloc, t, words, steps)?;
    same(alloc, outcome, &whole, steps)
}

// Whether the outcome is what evaluating the tree gives, for this charge, and these parts are renewed.
fn is_spared<L: Ledger>(
    alloc: Global,
    row: &SpareRow,
    t: &Tree,
    walked: &Walked,
    steps: &mut Steps<L>,
) -> Option<bool> {
    let alike = is_like_whole(alloc, t, row.now, &walked.outcome, steps)?;
    let flags = walked.parts.iter().map(|part| part.renewed);
    Some(alike && flags.eq(row.renewed.iter().copied()) && walked.charge == row.charge)
}

impl Row for SpareRow {
    fn holds<L: Ledger>(&self, alloc: Global, steps: &mut Steps<L>) -> Option<bool> {
        let tree = tree_of(alloc, self.tree, steps)?;
        let walked = walked_over(alloc, self, &tree, steps)?;
        is_spared(alloc, self, &tree, &walked, steps)
    }
}

#[test]
fn a_spare_serves_where_what_is_kept_does_not(rt: HostRuntime) {
    let wrong = first_untrue::<Brand, _>(rt.alloc(), SPARES, Blank::new(1));
    assert_eq!(rt; wrong, None);
}
