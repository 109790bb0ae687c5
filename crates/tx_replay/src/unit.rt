// A unit by its parts.
ghost use Rattle.std.specs.Prelude.{◌≡◌, ◌≤◌, ◌+◌, [], IfOk, Some, length, map};
ghost use Rattle.std.specs.FinMap.{get};
ghost use Rattle.tx_exec_form.specs.declared.TheConstants.{MOST_LEVELS};
ghost use Rattle.tx_exec_form.specs.Evaluated.{trace_of};
ghost use Rattle.tx_exec.specs.States.{before_of};
ghost use Rattle.tx_exec.specs.Outcomes.{wide_outcome, NamesOnce};
ghost use Rattle.tx_parts.specs.Composed.{evaluates};
ghost use Rattle.tx_parts.specs.Parts.{parts};
ghost use Rattle.tx_kept.specs.Entries.{IsInOrder};
ghost use Rattle.tx_replay.specs.Cached.{stores_of, stores_in, closed, seen, AllBelow};
ghost use Rattle.tx_replay.specs.Going.{last_map};
ghost use Rattle.tx_replay.specs.Gives.{Walks};
ghost use Rattle.tx_replay.specs.Held.{AreSound, charges};
ghost use Rattle.tx_replay.specs.Seen.{seen_parts};
ghost use Rattle.tx_replay.specs.Replays.{state_by};
ghost use Rattle.tx_replay.specs.Walks.{walk};
ghost use Rattle.tx_replay.specs.Ending.{first_stage, last_stage, Ends};

use crate::cached::{CachedPart, Caches, Source};
use crate::finding::NextNumbers;
use crate::progress::{Noted, Progress};
use crate::stop::Stop;
use crate::walking::UnitWalk;
use std::alloc::Global;
use std::mem;
use std::sync::ledger::Ledger;
use tx_base::{Memory, Steps};
use tx_env::Env;
use tx_exec::{Outcome, Trace, looks_of, writes_of};
use tx_kept::Entry;
use tx_origin::Value;
use tx_tree::{Path, Tree};

/// What a unit evaluates to, and its parts.
#[derive(Drop)]
pub struct ByParts {
    /// Its trace, or `Over` where it ran out of steps or levels.
    pub outcome: Outcome,
    /// Its parts in order, at their paths in the document, and none where it ran out.
    pub parts: Vec<Entry<CachedPart>>,
}

// How the walk of a unit ended, with the environment.
#[derive(Drop)]
pub(crate) struct UnitWalked {
    walked: Result<Value, Stop>,
    env: Env,
    noted: Noted,
    parts: Vec<Entry<CachedPart>>,
}

// The trace with this value, where the rest of the allowance was used.
fn trace_by(alloc: Global, value: Value, noted: Noted, allowance: u64) -> Result<Outcome, Memory>
    requires left { noted.left ≤ allowance }
    requires slack { noted.slack ≤ 400 }
    ensures trace { IfOk result (λ o. wide_outcome o ≡ Some (trace_of 400 allowance value (state_by noted))) }
    ensures once { IfOk result NamesOnce }
{
    let cost = allowance - noted.left;
    let height = 400 - noted.slack;
    let looks = looks_of(noted.looks, alloc)?;
    let writes = writes_of(noted.own, alloc)?;
    Ok(Outcome::Done(Trace {
        value,
        looks,
        writes,
        cost,
        height,
    }))
}

// What a walk that ended so comes to.
fn by_parts(
    alloc: Global,
    walked: Result<Value, Stop>,
    noted: Noted,
    parts: Vec<Entry<CachedPart>>,
    allowance: u64,
) -> Result<ByParts, Memory>
    requires left { IfOk walked (λ v. noted.left ≤ allowance) }
    requires slack { IfOk walked (λ v. noted.slack ≤ 400) }
    ensures ends { IfOk result (λ w. Ends allowance walked (state_by noted) parts.items w) }
    ensures once { IfOk result (λ w. NamesOnce w.outcome) }
{
    match walked {
        Ok(value) => Ok(ByParts {
            outcome: trace_by(alloc, value, noted, allowance)?,
            parts,
        }),
        Err(Stop::Over) => Ok(ByParts {
            outcome: Outcome::Over,
            parts: Vec::new(alloc),
        }),
        Err(Stop::Memory) => Err(Memory),
    }
}

// The walk of a tree at the root, with all levels, in an environment with a scope of its own.
fn walk_root<L: Ledger>(
    t: &Tree,
    env: Env,
    allowance: u64,
    source: &Source<'_>,
    steps: &mut Steps<L>,
) -> UnitWalked
    requires allowance { allowance ≤ 1000000 }
    requires begun { env.map ≡ last_map env.scopes }
    requires sound { AreSound (stores_in source.now) [] t.now }
    ensures walks { Walks (λ v. v) result.walked (walk (closed source.now) 400 [] t.now
        (get (last_map env.scopes)) (first_stage allowance steps.old)) (last_stage result steps.new) }
    ensures left { IfOk result.walked (λ v. result.noted.left ≤ allowance) }
    ensures slack { IfOk result.walked (λ v. result.noted.slack ≤ 400) }
    ensures scopes { result.env.scopes ≡ env.scopes }
{
    let root = Path::root(source.alloc);
    let mut walk = UnitWalk {
        progress: Progress::begin(source.alloc, env, allowance),
        parts: Vec::new(source.alloc),
        next: NextNumbers { own: 0, spare: 0 },
    };
    let walked = walk.tree(source, steps, t, &root, 400);
    let UnitWalk {
        progress,
        parts,
        ..
    } = walk;
    let (env, noted) = progress.end();
    UnitWalked {
        walked,
        env,
        noted,
        parts,
    }
}

/// What the tree of a unit evaluates to without a frame. It is what evaluating the whole tree gives, where this many
/// steps are allowed, at most 1,000,000, and 400 levels. The origins of its value begin at the tree.
///
/// The walk goes into each `document` with a child and each `with` of names, texts and a last child. The trees of other
/// kinds at the ends of these ways are the parts. A part is held where the cached trace at its path, or the spare's,
/// fits what names have before the part. This trace is the part's then, and costs nothing. A part that the cache
/// doesn't hold is marked as renewed. Each cached trace at a path in the unit has to support the tree there.
///
/// The other parts are evaluated. The steps rise by their costs. A part that runs out costs all the steps that it has.
/// The parts are returned in order, at paths of the document, all below the unit's, so that they can take the place of
/// the unit's in the cache. The environment is unchanged, whatever is returned. The one error is `Memory`.
pub fn evaluate_by_parts<L: Ledger>(
    alloc: Global,
    t: &Tree,
    env: &mut Env,
    allowance: u64,
    caches: &Caches<'_>,
    steps: &mut Steps<L>,
) -> Result<ByParts, Memory>
    requires allowance { allowance ≤ 1000000 }
    requires scopes { length env.old.scopes ≤ 1000000 }
    requires sound { AreSound (stores_of caches.now) [] t.now }
    ensures exact { IfOk result
        (λ w. wide_outcome w.outcome ≡ evaluates MOST_LEVELS allowance t.now (before_of env.old)) }
    ensures parts { IfOk result (λ w. map seen w.parts.items ≡ seen_parts (stores_of caches.now)
        (parts MOST_LEVELS allowance [] t.now (before_of env.old)) (wide_outcome w.outcome)) }
    ensures order { IfOk result (λ w. IsInOrder w.parts.items) }
    ensures below { IfOk result (λ w. AllBelow caches.now.base.now w.parts.items) }
    ensures counted { IfOk result (λ w. steps.new ≡ steps.old + charges (stores_of caches.now)
        (parts MOST_LEVELS allowance [] t.now (before_of env.old))) }
    ensures once { IfOk result (λ w. NamesOnce w.outcome) }
    ensures env { env.new ≡ env.old }
{
    let source = Source { alloc, caches };
    let mark = env.enter();
    let lent = mem::replace(env, Env::new(alloc));
    let UnitWalked {
        walked,
        env: given_back,
        noted,
        parts,
    } = walk_root(t, lent, allowance, &source, steps);
    *env = given_back;
    env.leave(mark);
    by_parts(alloc, walked, noted, parts, allowance)
}
