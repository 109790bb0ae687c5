// What a tree that isn't open evaluates to: a part.
ghost use Rattle.std.specs.Prelude.{◌≡◌, ◌≤◌, ◌<◌, ◌+◌, ◌++◌, ◌∷◌, [], Some, None, IfOk, OnOk};
ghost use Rattle.std.specs.List.{All};
ghost use Rattle.std.specs.Option.{option_map};
ghost use Rattle.tx_origin.specs.Under.{value_under};
ghost use Rattle.tx_exec_form.specs.Evaluated.{paid};
ghost use Rattle.tx_exec.specs.States.{before_of};
ghost use Rattle.tx_exec.specs.Outcomes.{wide_trace, wide_outcome, NamesOnce};
ghost use Rattle.tx_parts.specs.Openness.{Shut, openness};
ghost use Rattle.tx_parts.specs.Opening.{shells_by};
ghost use Rattle.tx_parts.specs.Composed.{evaluates};
ghost use Rattle.tx_parts.specs.Parts.{parts_by};
ghost use Rattle.tx_walk.specs.Held.{AreSound};
ghost use Rattle.tx_walk.specs.Guides.{guide_of, charged};
ghost use Rattle.tx_walk.specs.Walked.{AreOnce, IsTidy, IsPlaced};
ghost use Rattle.tx_walk.specs.Finding.{AreFindable};
ghost use Rattle.tx_walk.specs.LayerTraces.{AreKnownBy};
ghost use Rattle.tx_walk.specs.Prior.{stores_of};
ghost use Rattle.tx_walk.specs.Steps.{trace_under, settled, IsReady, IsBehind, IsAdded, IsPushed, IsNewPushed};
ghost use Rattle.tx_walk.specs.Spending.{RisesAlike};

use crate::evaluating::spend_on;
use crate::fitting::held;
use crate::part::Part;
use crate::prior::PriorStores;
use crate::progress::WalkProgress;
use crate::scopes::set_all;
use crate::sharing::{placed_trace, placed_value, share_trace, value_at};
use crate::shells::Opener;
use std::alloc::Global;
use std::sync::ledger::Ledger;
use tx_base::{Memory, Steps};
use tx_env::Env;
use tx_exec::{Outcome, Trace};
use tx_origin::Ip;
use tx_tree::{Path, Tree};

// The trace of this part in the whole. What it sets is set.
fn trace_of(alloc: Global, part: &Part, env: &mut Env) -> Result<Trace, Memory>
    requires part_tidy { IsTidy part.now }
    ensures comes { IfOk result (λ t. wide_trace t ≡ trace_under part.now.path (wide_trace part.now.trace)) }
    ensures behind { IfOk result (λ t. IsBehind (before_of env.old) (before_of env.new) (Some (wide_trace t))) }
    ensures once { IfOk result AreOnce }
    ensures scopes { env.new.scopes ≡ env.old.scopes }
{
    set_all(env, part.trace.writes.pairs())?;
    placed_trace(alloc, part)
}

// What this part evaluates to. It is put after the other parts, and what it sets is set.
fn settle(alloc: Global, part: Part, env: &mut Env, done: &mut Vec<Part>) -> Result<Outcome, Memory>
    requires part_tidy { IsTidy part }
    requires part_placed { IsPlaced part }
    requires done_ready { All IsReady done.old.items }
    ensures comes { IfOk result (λ o. wide_outcome o ≡ Some (trace_under part.path (wide_trace part.trace))) }
    ensures behind { IfOk result (λ o. IsBehind (before_of env.old) (before_of env.new) (wide_outcome o)) }
    ensures pushed { OnOk result (done.new.items ≡ done.old.items ++ part ∷ []) }
    ensures names_once { IfOk result NamesOnce }
    ensures done_ready { All IsReady done.new.items }
    ensures scopes { env.new.scopes ≡ env.old.scopes }
{
    let trace = trace_of(alloc, &part, env)?;
    done.push(part)?;
    Ok(Outcome::Done(trace))
}

// A part that is held by this one, where so many steps and levels are left.
fn held_part(
    alloc: Global,
    found: &Part,
    renewed: bool,
    path: Path,
    env: &mut Env,
    levels: u32,
    left: u64,
    done: &mut Vec<Part>,
) -> Result<Outcome, Memory>
    requires stands { found.now.path ≡ path }
    requires found_tidy { IsTidy found.now }
    requires done_ready { All IsReady done.old.items }
    ensures settled { IfOk result (λ o. wide_outcome o ≡ settled levels left path (wide_trace found.now.trace)) }
    ensures behind { IfOk result (λ o. IsBehind (before_of env.old) (before_of env.new) (wide_outcome o)) }
    ensures pushed { IfOk result (λ o. IsPushed done.old.items
        (record {
          path = path;
          trace = found.now.trace;
          renewed = renewed;
          placed = Some (value_under path found.now.trace.value);
        }) done.new.items (wide_outcome o)) }
    ensures names_once { IfOk result NamesOnce }
    ensures done_ready { All IsReady done.new.items }
    ensures scopes { env.new.scopes ≡ env.old.scopes }
{
    if found.trace.cost > left || found.trace.height > levels {
        return Ok(Outcome::Over);
    }
    let trace = share_trace(alloc, &found.trace)?;
    let placed = placed_value(alloc, found)?;
    let part = Part {
        path,
        trace,
        renewed,
        placed: Some(placed),
    };
    settle(alloc, part, env, done)
}

// A part that is evaluated.
fn new_part<L: Ledger>(
    alloc: Global,
    t: &Tree,
    path: Path,
    env: &mut Env,
    levels: u32,
    left: u64,
    progress: &mut WalkProgress,
    done: &mut Vec<Part>,
    steps: &mut Steps<L>,
) -> Result<Outcome, Memory>
    requires levels { levels ≤ 400 }
    requires left { left ≤ 1000000 }
    requires done_ready { All IsReady done.old.items }
    ensures exact { IfOk result
        (λ o. wide_outcome o ≡ option_map (trace_under path) (evaluates levels left t.now (before_of env.old))) }
    ensures behind { IfOk result (λ o. IsBehind (before_of env.old) (before_of env.new) (wide_outcome o)) }
    ensures pushed { IfOk result (λ o. IsNewPushed levels left path t.now (before_of env.old) done.old.items
        done.new.items (wide_outcome o)) }
    ensures counted { OnOk result (steps.new
        ≡ steps.old + paid left (evaluates levels left t.now (before_of env.old))) }
    ensures layers { progress.new.layers ≡ progress.old.layers }
    ensures spent { OnOk result (RisesAlike steps.old progress.old.spent steps.new progress.new.spent) }
    ensures names_once { IfOk result NamesOnce }
    ensures done_ready { All IsReady done.new.items }
    ensures scopes { env.new.scopes ≡ env.old.scopes }
{
    match spend_on(
        alloc,
        t,
        Some(Ip::root()),
        env,
        levels,
        left,
        progress,
        steps,
    )? {
        Outcome::Over => Ok(Outcome::Over),
        Outcome::Done(trace) => {
            let placed = value_at(alloc, &path, &trace.value)?;
            let part = Part {
                path,
                trace,
                renewed: true,
                placed: Some(placed),
            };
            settle(alloc, part, env, done)
        }
    }
}

// What a tree that isn't open evaluates to.
pub(crate) fn part<O: Opener, L: Ledger>(
    alloc: Global,
    t: &Tree,
    path: Path,
    env: &mut Env,
    levels: u32,
    left: u64,
    opener: &O,
    kept: &PriorStores<'_>,
    progress: &mut WalkProgress,
    done: &mut Vec<Part>,
    steps: &mut Steps<L>,
) -> Result<Outcome, Memory>
    requires shut { openness t.now ≡ Shut }
    requires unshelled { shells_by (O.opens opener.now) t.now (before_of env.old) ≡ None }
    requires some { 0 < levels }
    requires levels { levels ≤ 400 }
    requires left { left ≤ 1000000 }
    requires sound { AreSound (stores_of kept.now) path t.now }
    requires own { AreFindable kept.now.own }
    requires spare { AreFindable kept.now.spare }
    requires done_ready { All IsReady done.old.items }
    ensures exact { IfOk result
        (λ o. wide_outcome o ≡ option_map (trace_under path) (evaluates levels left t.now (before_of env.old))) }
    ensures behind { IfOk result (λ o. IsBehind (before_of env.old) (before_of env.new) (wide_outcome o)) }
    ensures added { IfOk result (λ o. IsAdded (stores_of kept.now)
        (parts_by (shells_by (O.opens opener.now)) levels left path t.now (before_of env.old))
        done.old.items done.new.items (wide_outcome o)) }
    ensures counted { OnOk result (steps.new
        ≡ steps.old + charged (guide_of (O.opens opener.now) kept.now) levels left path t.now (before_of env.old)) }
    ensures layers { IfOk result (λ o. AreKnownBy (shells_by (O.opens opener.now)) levels left t.now (before_of env.old)
        progress.old.layers.items progress.new.layers.items (wide_outcome o)) }
    ensures spent { OnOk result (RisesAlike steps.old progress.old.spent steps.new progress.new.spent) }
    ensures names_once { IfOk result NamesOnce }
    ensures done_ready { All IsReady done.new.items }
    ensures scopes { env.new.scopes ≡ env.old.scopes }
{
    match held(env, kept, &path, &mut progress.next) {
        Some(held) => held_part(
            alloc,
            held.part,
            held.renewed,
            path,
            env,
            levels,
            left,
            done,
        ),
        None => new_part(alloc, t, path, env, levels, left, progress, done, steps),
    }
}
