// The walk over a tree by its parts.
ghost use Rattle.std.specs.Prelude.{◌≡◌, ◌≤◌, ◌<◌, ◌+◌, ◌-◌, ◌^◌, ◌++◌, ◌∷◌, [], Some, None, IfOk, OnOk, length};
ghost use Rattle.std.specs.List.{All};
ghost use Rattle.std.specs.Option.{option_map};
ghost use Rattle.std.specs.FinMap.{get};
ghost use Rattle.tx_tree.specs.WideTree.{WideTree, children_of};
ghost use Rattle.tx_env.specs.Environments.{overlaid};
ghost use Rattle.tx_exec.specs.States.{before_of};
ghost use Rattle.tx_exec.specs.Outcomes.{wide_outcome, NamesOnce};
ghost use Rattle.tx_parts.specs.Openness.{Settings as TextSettings, Document, With, openness};
ghost use Rattle.tx_parts.specs.Opening.{shells_by};
ghost use Rattle.tx_parts.specs.Composed.{evaluates, nothing_yet};
ghost use Rattle.tx_parts.specs.Parts.{parts_by};
ghost use Rattle.tx_walk.specs.Held.{AreSound};
ghost use Rattle.tx_walk.specs.Guides.{guide_of, charged};
ghost use Rattle.tx_walk.specs.Finding.{AreFindable};
ghost use Rattle.tx_walk.specs.LayerTraces.{AreKnownBy};
ghost use Rattle.tx_walk.specs.Prior.{stores_of};
ghost use Rattle.tx_walk.specs.Scopes.{IsScope};
ghost use Rattle.tx_walk.specs.Spending.{RisesAlike};
ghost use Rattle.tx_walk.specs.Steps.{trace_under, IsReady, IsBehind, IsAdded};
ghost use Rattle.tx_walk.specs.Steps.{so_far_of, stage_of, ChildComes, ChildrenCome};

use crate::descent::{Descent, descent_of};
use crate::joined::Joined;
use crate::layering::shelled;
use crate::part::Part;
use crate::prior::PriorStores;
use crate::progress::WalkProgress;
use crate::scopes::{set_all, with_of};
use crate::settings::{Settings, settings_of};
use crate::shelled::shell_of;
use crate::shells::Opener;
use crate::shut_trees::part;
use crate::traces::document_of;
use std::alloc::Global;
use std::sync::ledger::Ledger;
use tx_base::{Memory, Steps};
use tx_env::Env;
use tx_exec::Outcome;
use tx_tree::{Path, Text, Tree};

/// What a tree evaluates to.
#[cycle(walk)]
pub(crate) fn walk_tree<O: Opener, L: Ledger>(
    alloc: Global,
    t: &Tree,
    path: Path,
    env: &mut Env,
    levels: u32,
    left: u64,
    opener: &O,
    kept: &PriorStores<'_>,
    progress: &mut WalkProgress,
    done: &mut Vec<Part>,
    steps: &mut Steps<L>,
) -> Result<Outcome, Memory>
    requires levels { levels ≤ 400 }
    requires left { left ≤ 1000000 }
    requires scopes { length env.old.scopes + levels < 2 ^ 32 - 1 }
    requires sound { AreSound (stores_of kept.now) path t.now }
    requires own { AreFindable kept.now.own }
    requires spare { AreFindable kept.now.spare }
    requires done_ready { All IsReady done.old.items }
    ensures exact { IfOk result
        (λ o. wide_outcome o ≡ option_map (trace_under path) (evaluates levels left t.now (before_of env.old))) }
    ensures behind { IfOk result (λ o. IsBehind (before_of env.old) (before_of env.new) (wide_outcome o)) }
    ensures added { IfOk result (λ o. IsAdded (stores_of kept.now)
        (parts_by (shells_by (O.opens opener.now)) levels left path t.now (before_of env.old))
        done.old.items done.new.items (wide_outcome o)) }
    ensures counted { OnOk result (steps.new
        ≡ steps.old + charged (guide_of (O.opens opener.now) kept.now) levels left path t.now (before_of env.old)) }
    ensures layers { IfOk result (λ o. AreKnownBy (shells_by (O.opens opener.now)) levels left t.now (before_of env.old)
        progress.old.layers.items progress.new.layers.items (wide_outcome o)) }
    ensures spent { OnOk result (RisesAlike steps.old progress.old.spent steps.new progress.new.spent) }
    ensures names_once { IfOk result NamesOnce }
    ensures done_ready { All IsReady done.new.items }
    ensures scopes { env.new.scopes ≡ env.old.scopes }
{
    if levels == 0 {
        return Ok(Outcome::Over);
    }
    match shell_of(alloc, opener, t, env)? {
        None => unshelled(
            alloc, t, path, env, levels, left, opener, kept, progress, done, steps,
        ),
        Some(shell) => shelled(
            alloc, t, &path, env, levels, left, opener, kept, progress, done, &shell, steps,
        ),
    }
}

// What a tree that has no shell evaluates to.
#[cycle(walk)]
fn unshelled<O: Opener, L: Ledger>(
    alloc: Global,
    t: &Tree,
    path: Path,
    env: &mut Env,
    levels: u32,
    left: u64,
    opener: &O,
    kept: &PriorStores<'_>,
    progress: &mut WalkProgress,
    done: &mut Vec<Part>,
    steps: &mut Steps<L>,
) -> Result<Outcome, Memory>
    requires unshelled { shells_by (O.opens opener.now) t.now (before_of env.old) ≡ None }
    requires some { 0 < levels }
    requires levels { levels ≤ 400 }
    requires left { left ≤ 1000000 }
    requires scopes { length env.old.scopes + levels < 2 ^ 32 - 1 }
    requires sound { AreSound (stores_of kept.now) path t.now }
    requires own { AreFindable kept.now.own }
    requires spare { AreFindable kept.now.spare }
    requires done_ready { All IsReady done.old.items }
    ensures exact { IfOk result
        (λ o. wide_outcome o ≡ option_map (trace_under path) (evaluates levels left t.now (before_of env.old))) }
    ensures behind { IfOk result (λ o. IsBehind (before_of env.old) (before_of env.new) (wide_outcome o)) }
    ensures added { IfOk result (λ o. IsAdded (stores_of kept.now)
        (parts_by (shells_by (O.opens opener.now)) levels left path t.now (before_of env.old))
        done.old.items done.new.items (wide_outcome o)) }
    ensures counted { OnOk result (steps.new
        ≡ steps.old
        + charged (guide_of (O.opens opener.now) kept.now) levels left path t.now (before_of env.old)) }
    ensures layers { IfOk result (λ o. AreKnownBy (shells_by (O.opens opener.now)) levels left t.now (before_of env.old)
        progress.old.layers.items progress.new.layers.items (wide_outcome o)) }
    ensures spent { OnOk result (RisesAlike steps.old progress.old.spent steps.new progress.new.spent) }
    ensures names_once { IfOk result NamesOnce }
    ensures done_ready { All IsReady done.new.items }
    ensures scopes { env.new.scopes ≡ env.old.scopes }
{
    match descent_of(t) {
        Descent::Document => document(
            alloc, t, &path, env, levels, left, opener, kept, progress, done, steps,
        ),
        Descent::With => scope(
            alloc, t, &path, env, levels, left, opener, kept, progress, done, steps,
        ),
        Descent::Shut => part(
            alloc, t, path, env, levels, left, opener, kept, progress, done, steps,
        ),
    }
}

// What a `document` evaluates to.
#[cycle(walk)]
fn document<O: Opener, L: Ledger>(
    alloc: Global,
    t: &Tree,
    path: &Path,
    env: &mut Env,
    levels: u32,
    left: u64,
    opener: &O,
    kept: &PriorStores<'_>,
    progress: &mut WalkProgress,
    done: &mut Vec<Part>,
    steps: &mut Steps<L>,
) -> Result<Outcome, Memory>
    requires opens { openness t.now ≡ Document (children_of t.now) }
    requires unshelled { shells_by (O.opens opener.now) t.now (before_of env.old) ≡ None }
    requires some { 0 < levels }
    requires levels { levels ≤ 400 }
    requires left { left ≤ 1000000 }
    requires scopes { length env.old.scopes + levels < 2 ^ 32 - 1 }
    requires sound { AreSound (stores_of kept.now) path.now t.now }
    requires own { AreFindable kept.now.own }
    requires spare { AreFindable kept.now.spare }
    requires done_ready { All IsReady done.old.items }
    ensures exact { IfOk result
        (λ o. wide_outcome o ≡ option_map (trace_under path.now) (evaluates levels left t.now (before_of env.old))) }
    ensures behind { IfOk result (λ o. IsBehind (before_of env.old) (before_of env.new) (wide_outcome o)) }
    ensures added { IfOk result (λ o. IsAdded (stores_of kept.now)
        (parts_by (shells_by (O.opens opener.now)) levels left path.now t.now (before_of env.old))
        done.old.items done.new.items (wide_outcome o)) }
    ensures counted { OnOk result (steps.new
        ≡ steps.old
        + charged (guide_of (O.opens opener.now) kept.now) levels left path.now t.now (before_of env.old)) }
    ensures layers { IfOk result (λ o. AreKnownBy (shells_by (O.opens opener.now)) levels left t.now (before_of env.old)
        progress.old.layers.items progress.new.layers.items (wide_outcome o)) }
    ensures spent { OnOk result (RisesAlike steps.old progress.old.spent steps.new progress.new.spent) }
    ensures names_once { IfOk result NamesOnce }
    ensures done_ready { All IsReady done.new.items }
    ensures scopes { env.new.scopes ≡ env.old.scopes }
{
    let _size = t.size();
    if left == 0 {
        return Ok(Outcome::Over);
    }
    let mut joined = Joined::new(alloc);
    let went = children(
        alloc,
        t,
        path,
        env,
        levels - 1,
        left - 1,
        opener,
        kept,
        progress,
        done,
        &mut joined,
        steps,
    )?;
    document_of(alloc, t, path, joined, went)
}

// What the children evaluate to, in order. Returns false where one runs out.
#[cycle(walk)]
fn children<O: Opener, L: Ledger>(
    alloc: Global,
    t: &Tree,
    path: &Path,
    env: &mut Env,
    levels: u32,
    left: u64,
    opener: &O,
    kept: &PriorStores<'_>,
    progress: &mut WalkProgress,
    done: &mut Vec<Part>,
    joined: &mut Joined,
    steps: &mut Steps<L>,
) -> Result<bool, Memory>
    requires levels { levels < 400 }
    requires left { left ≤ 1000000 }
    requires scopes { length env.old.scopes + levels < 2 ^ 32 - 1 }
    requires sound { AreSound (stores_of kept.now) path.now t.now }
    requires own { AreFindable kept.now.own }
    requires spare { AreFindable kept.now.spare }
    requires done_ready { All IsReady done.old.items }
    requires nothing { so_far_of joined.old ≡ nothing_yet }
    ensures comes { IfOk result (λ went. ChildrenCome (guide_of (O.opens opener.now) kept.now) levels left path.now
        (children_of t.now) (stage_of joined.old env.old done.old.items steps.old progress.old.layers.items)
        (stage_of joined.new env.new done.new.items steps.new progress.new.layers.items) went) }
    ensures spent { OnOk result (RisesAlike steps.old progress.old.spent steps.new progress.new.spent) }
    ensures done_ready { All IsReady done.new.items }
    ensures scopes { env.new.scopes ≡ env.old.scopes }
{
    for i in 0..t.arity() {
        let Some(kid) = t.child(i) else {
            unreachable!()
        };
        let went = one_child(
            alloc, kid, i, path, env, levels, left, opener, kept, progress, done, joined, steps,
        )?;
        if !went {
            return Ok(false);
        }
    }
    Ok(true)
}

// What one child more evaluates to. Returns false where it runs out.
#[cycle(walk)]
fn one_child<O: Opener, L: Ledger>(
    alloc: Global,
    t: &Tree,
    i: u32,
    path: &Path,
    env: &mut Env,
    levels: u32,
    left: u64,
    opener: &O,
    kept: &PriorStores<'_>,
    progress: &mut WalkProgress,
    done: &mut Vec<Part>,
    joined: &mut Joined,
    steps: &mut Steps<L>,
) -> Result<bool, Memory>
    requires levels { levels < 400 }
    requires left { left ≤ 1000000 }
    requires scopes { length env.old.scopes + levels < 2 ^ 32 - 1 }
    requires sound { AreSound (stores_of kept.now) (path.now ++ i ∷ []) t.now }
    requires own { AreFindable kept.now.own }
    requires spare { AreFindable kept.now.spare }
    requires done_ready { All IsReady done.old.items }
    requires cost { joined.old.cost ≤ left }
    ensures comes { IfOk result (λ went. ChildComes (guide_of (O.opens opener.now) kept.now) levels left path.now i
        t.now (stage_of joined.old env.old done.old.items steps.old progress.old.layers.items)
        (stage_of joined.new env.new done.new.items steps.new progress.new.layers.items)
        went) }
    ensures spent { OnOk result (RisesAlike steps.old progress.old.spent steps.new progress.new.spent) }
    ensures done_ready { All IsReady done.new.items }
    ensures scopes { env.new.scopes ≡ env.old.scopes }
{
    let below = path.child(alloc, i)?;
    let rest = left - joined.cost;
    let outcome = walk_tree(
        alloc, t, below, env, levels, rest, opener, kept, progress, done, steps,
    )?;
    joined.add_outcome(outcome)
}

// What a `with` evaluates to.
#[cycle(walk)]
fn scope<O: Opener, L: Ledger>(
    alloc: Global,
    t: &Tree,
    path: &Path,
    env: &mut Env,
    levels: u32,
    left: u64,
    opener: &O,
    kept: &PriorStores<'_>,
    progress: &mut WalkProgress,
    done: &mut Vec<Part>,
    steps: &mut Steps<L>,
) -> Result<Outcome, Memory>
    requires opens { (ps : TextSettings) × (b : WideTree) × (openness t.now ≡ With ps b) }
    requires unshelled { shells_by (O.opens opener.now) t.now (before_of env.old) ≡ None }
    requires some { 0 < levels }
    requires levels { levels ≤ 400 }
    requires left { left ≤ 1000000 }
    requires scopes { length env.old.scopes + levels < 2 ^ 32 - 1 }
    requires sound { AreSound (stores_of kept.now) path.now t.now }
    requires own { AreFindable kept.now.own }
    requires spare { AreFindable kept.now.spare }
    requires done_ready { All IsReady done.old.items }
    ensures exact { IfOk result
        (λ o. wide_outcome o ≡ option_map (trace_under path.now) (evaluates levels left t.now (before_of env.old))) }
    ensures behind { IfOk result (λ o. IsBehind (before_of env.old) (before_of env.new) (wide_outcome o)) }
    ensures added { IfOk result (λ o. IsAdded (stores_of kept.now)
        (parts_by (shells_by (O.opens opener.now)) levels left path.now t.now (before_of env.old))
        done.old.items done.new.items (wide_outcome o)) }
    ensures counted { OnOk result (steps.new
        ≡ steps.old
        + charged (guide_of (O.opens opener.now) kept.now) levels left path.now t.now (before_of env.old)) }
    ensures layers { IfOk result (λ o. AreKnownBy (shells_by (O.opens opener.now)) levels left t.now (before_of env.old)
        progress.old.layers.items progress.new.layers.items (wide_outcome o)) }
    ensures spent { OnOk result (RisesAlike steps.old progress.old.spent steps.new progress.new.spent) }
    ensures names_once { IfOk result NamesOnce }
    ensures done_ready { All IsReady done.new.items }
    ensures scopes { env.new.scopes ≡ env.old.scopes }
{
    match settings_of(alloc, t, path, left)? {
        None => Ok(Outcome::Over),
        Some(settings) => scope_with(
            alloc, t, path, env, levels, left, opener, kept, progress, done, settings, steps,
        ),
    }
}

// What a `with` of these names and texts evaluates to.
#[cycle(walk)]
fn scope_with<O: Opener, L: Ledger>(
    alloc: Global,
    t: &Tree,
    path: &Path,
    env: &mut Env,
    levels: u32,
    left: u64,
    opener: &O,
    kept: &PriorStores<'_>,
    progress: &mut WalkProgress,
    done: &mut Vec<Part>,
    settings: Settings,
    steps: &mut Steps<L>,
) -> Result<Outcome, Memory>
    requires scope { IsScope t.now path.now settings }
    requires unshelled { shells_by (O.opens opener.now) t.now (before_of env.old) ≡ None }
    requires some { 0 < levels }
    requires levels { levels ≤ 400 }
    requires left { left ≤ 1000000 }
    requires scopes { length env.old.scopes + levels < 2 ^ 32 - 1 }
    requires sound { AreSound (stores_of kept.now) path.now t.now }
    requires own { AreFindable kept.now.own }
    requires spare { AreFindable kept.now.spare }
    requires done_ready { All IsReady done.old.items }
    ensures exact { IfOk result
        (λ o. wide_outcome o ≡ option_map (trace_under path.now) (evaluates levels left t.now (before_of env.old))) }
    ensures behind { IfOk result (λ o. IsBehind (before_of env.old) (before_of env.new) (wide_outcome o)) }
    ensures added { IfOk result (λ o. IsAdded (stores_of kept.now)
        (parts_by (shells_by (O.opens opener.now)) levels left path.now t.now (before_of env.old))
        done.old.items done.new.items (wide_outcome o)) }
    ensures counted { OnOk result (steps.new
        ≡ steps.old
        + charged (guide_of (O.opens opener.now) kept.now) levels left path.now t.now (before_of env.old)) }
    ensures layers { IfOk result (λ o. AreKnownBy (shells_by (O.opens opener.now)) levels left t.now (before_of env.old)
        progress.old.layers.items progress.new.layers.items (wide_outcome o)) }
    ensures spent { OnOk result (RisesAlike steps.old progress.old.spent steps.new progress.new.spent) }
    ensures names_once { IfOk result NamesOnce }
    ensures done_ready { All IsReady done.new.items }
    ensures scopes { env.new.scopes ≡ env.old.scopes }
{
    let _size = t.size();
    let last = t.arity() - 1;
    let Some(inner) = t.child(last) else {
        unreachable!()
    };
    if settings.cost >= left {
        return Ok(Outcome::Over);
    }
    let rest = left - 1 - settings.cost;
    let outcome = inside(
        alloc,
        inner,
        last,
        path,
        env,
        levels - 1,
        rest,
        opener,
        kept,
        progress,
        done,
        &settings.pairs,
        steps,
    )?;
    with_of(alloc, t, path, env, settings, outcome)
}

// What the child of this number evaluates to where these pairs are set. The environment is unchanged afterwards.
#[cycle(walk)]
fn inside<O: Opener, L: Ledger>(
    alloc: Global,
    t: &Tree,
    i: u32,
    path: &Path,
    env: &mut Env,
    levels: u32,
    left: u64,
    opener: &O,
    kept: &PriorStores<'_>,
    progress: &mut WalkProgress,
    done: &mut Vec<Part>,
    pairs: &[(Text, Tree)],
    steps: &mut Steps<L>,
) -> Result<Outcome, Memory>
    requires levels { levels < 400 }
    requires left { left ≤ 1000000 }
    requires sound { AreSound (stores_of kept.now) (path.now ++ i ∷ []) t.now }
    requires own { AreFindable kept.now.own }
    requires spare { AreFindable kept.now.spare }
    requires done_ready { All IsReady done.old.items }
    requires scopes { length env.old.scopes + levels < 2 ^ 32 - 2 }
    ensures exact { IfOk result (λ o. wide_outcome o ≡ option_map (trace_under (path.now ++ i ∷ []))
        (evaluates levels left t.now (get (overlaid env.old.map pairs.now)))) }
    ensures added { IfOk result (λ o. IsAdded (stores_of kept.now)
        (parts_by (shells_by (O.opens opener.now)) levels left (path.now ++ i ∷ []) t.now
        (get (overlaid env.old.map pairs.now)))
        done.old.items done.new.items (wide_outcome o)) }
    ensures counted { OnOk result (steps.new ≡ steps.old + charged (guide_of (O.opens opener.now) kept.now)
        levels left (path.now ++ i ∷ []) t.now (get (overlaid env.old.map pairs.now))) }
    ensures layers { IfOk result (λ o. AreKnownBy (shells_by (O.opens opener.now)) levels left t.now
        (get (overlaid env.old.map pairs.now)) progress.old.layers.items progress.new.layers.items (wide_outcome o)) }
    ensures spent { OnOk result (RisesAlike steps.old progress.old.spent steps.new progress.new.spent) }
    ensures names_once { IfOk result NamesOnce }
    ensures done_ready { All IsReady done.new.items }
    ensures same { env.new ≡ env.old }
{
    let mark = env.enter();
    let outcome = set_inside(
        alloc, t, i, path, env, levels, left, opener, kept, progress, done, pairs, steps,
    );
    env.leave(mark);
    outcome
}

// Sets these pairs, and returns what the child of this number evaluates to.
#[cycle(walk)]
fn set_inside<O: Opener, L: Ledger>(
    alloc: Global,
    t: &Tree,
    i: u32,
    path: &Path,
    env: &mut Env,
    levels: u32,
    left: u64,
    opener: &O,
    kept: &PriorStores<'_>,
    progress: &mut WalkProgress,
    done: &mut Vec<Part>,
    pairs: &[(Text, Tree)],
    steps: &mut Steps<L>,
) -> Result<Outcome, Memory>
    requires levels { levels < 400 }
    requires left { left ≤ 1000000 }
    requires sound { AreSound (stores_of kept.now) (path.now ++ i ∷ []) t.now }
    requires own { AreFindable kept.now.own }
    requires spare { AreFindable kept.now.spare }
    requires done_ready { All IsReady done.old.items }
    requires scopes { length env.old.scopes + levels < 2 ^ 32 - 1 }
    ensures exact { IfOk result (λ o. wide_outcome o ≡ option_map (trace_under (path.now ++ i ∷ []))
        (evaluates levels left t.now (get (overlaid env.old.map pairs.now)))) }
    ensures added { IfOk result (λ o. IsAdded (stores_of kept.now)
        (parts_by (shells_by (O.opens opener.now)) levels left (path.now ++ i ∷ []) t.now
        (get (overlaid env.old.map pairs.now)))
        done.old.items done.new.items (wide_outcome o)) }
    ensures counted { OnOk result (steps.new ≡ steps.old + charged (guide_of (O.opens opener.now) kept.now)
        levels left (path.now ++ i ∷ []) t.now (get (overlaid env.old.map pairs.now))) }
    ensures layers { IfOk result (λ o. AreKnownBy (shells_by (O.opens opener.now)) levels left t.now
        (get (overlaid env.old.map pairs.now)) progress.old.layers.items progress.new.layers.items (wide_outcome o)) }
    ensures spent { OnOk result (RisesAlike steps.old progress.old.spent steps.new progress.new.spent) }
    ensures names_once { IfOk result NamesOnce }
    ensures done_ready { All IsReady done.new.items }
    ensures scopes { env.new.scopes ≡ env.old.scopes }
{
    set_all(env, pairs)?;
    let below = path.child(alloc, i)?;
    walk_tree(
        alloc, t, below, env, levels, left, opener, kept, progress, done, steps,
    )
}
