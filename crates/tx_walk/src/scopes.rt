// What a `with` evaluates to, by its last child.
ghost use Rattle.std.specs.Prelude.{◌≡◌, ◌<◌, ◌++◌, ◌∷◌, [], length, codes, IfOk, OnOk, IfSome, Some};
ghost use Rattle.std.specs.Option.{option_map};
ghost use Rattle.std.specs.FinMap.{empty};
ghost use Rattle.tx_tree.specs.WideTree.{label_of, total_size, deepest};
ghost use Rattle.tx_origin.specs.Values.{made, vals, plains};
ghost use Rattle.tx_env.specs.Environments.{overlaid};
ghost use Rattle.tx_exec.specs.States.{before_of};
ghost use Rattle.tx_exec.specs.Outcomes.{wide_trace, wide_outcome, NamesOnce};
ghost use Rattle.tx_walk.specs.Walked.{AreOnce};
ghost use Rattle.tx_walk.specs.Steps.{IsBehind};
ghost use Rattle.tx_walk.specs.Scopes.{with_at, FitsWith};

use crate::origins::node_at;
use crate::outside::{looks_outside, writes_outside};
use crate::settings::Settings;
use std::alloc::Global;
use tx_base::Memory;
use tx_env::Env;
use tx_exec::{Outcome, Trace};
use tx_origin::Value;
use tx_tree::{Path, Text, Tree};

/// Sets each name to its tree, in order, up to the first for which there is no memory.
pub(crate) fn set_all(env: &mut Env, pairs: &[(Text, Tree)]) -> Result<(), Memory>
    ensures map { OnOk result (env.new.map ≡ overlaid env.old.map pairs.now) }
    ensures scopes { env.new.scopes ≡ env.old.scopes }
{
    for (name, tree) in pairs {
        env.set(name.copy()?, tree.share()?)?;
    }
    Ok(())
}

// The value of the `with` at this origin, of the values of names and texts and that of its last child.
fn with_value(
    alloc: Global,
    t: &Tree,
    path: &Path,
    mut values: Vec<Value>,
    inner: Value,
) -> Result<Value, Memory>
    requires label { label_of t.now ≡ Some (codes "with") }
    requires arity { length values.items < 65535 }
    requires depth { deepest (plains (vals (values.items ++ inner ∷ []))) < 400 }
    requires size { total_size (plains (vals (values.items ++ inner ∷ []))) < 1000000 }
    ensures { IfOk result (λ v. v ≡ made (codes "with") (vals (values.items ++ inner ∷ [])) (Some path.now)) }
{
    values.push(inner)?;
    node_at(alloc, t, path, values)
}

// The trace of the `with` at this origin, which sets these pairs, of the values of names and texts, what they cost, and
// the trace of its last child.
fn with_trace(
    alloc: Global,
    t: &Tree,
    path: &Path,
    pairs: &[(Text, Tree)],
    values: Vec<Value>,
    cost: u64,
    trace: Trace,
) -> Result<Trace, Memory>
    requires label { label_of t.now ≡ Some (codes "with") }
    requires fits { FitsWith values.items cost (wide_trace trace) }
    requires once { AreOnce trace }
    ensures trace { IfOk result (λ w. wide_trace w
        ≡ with_at path.now (overlaid empty pairs.now) values.items cost (wide_trace trace)) }
    ensures once { IfOk result AreOnce }
{
    let cost = 1 + cost + trace.cost;
    let height = 1 + trace.height;
    let looks = looks_outside(alloc, pairs, &trace.looks)?;
    let writes = writes_outside(alloc, pairs, &trace.writes)?;
    let value = with_value(alloc, t, path, values, trace.value)?;
    Ok(Trace {
        value,
        looks,
        writes,
        cost,
        height,
    })
}

// What the `with` at this origin evaluates to, where its last child has this trace. What it sets is set.
fn close(
    alloc: Global,
    t: &Tree,
    path: &Path,
    env: &mut Env,
    settings: Settings,
    trace: Trace,
) -> Result<Outcome, Memory>
    requires label { label_of t.now ≡ Some (codes "with") }
    requires fits { FitsWith settings.values.items settings.cost (wide_trace trace) }
    requires once { AreOnce trace }
    ensures outcome { IfOk result (λ o. wide_outcome o ≡ Some (with_at path.now (overlaid empty settings.pairs.items)
        settings.values.items settings.cost (wide_trace trace))) }
    ensures behind { IfOk result (λ o. IsBehind (before_of env.old) (before_of env.new) (wide_outcome o)) }
    ensures once { IfOk result NamesOnce }
    ensures scopes { env.new.scopes ≡ env.old.scopes }
{
    let Settings {
        pairs,
        values,
        cost,
    } = settings;
    let trace = with_trace(alloc, t, path, &pairs, values, cost, trace)?;
    set_all(env, trace.writes.pairs())?;
    Ok(Outcome::Done(trace))
}

/// What the `with` at this origin evaluates to, where its last child evaluated to this.
pub(crate) fn with_of(
    alloc: Global,
    t: &Tree,
    path: &Path,
    env: &mut Env,
    settings: Settings,
    inner: Outcome,
) -> Result<Outcome, Memory>
    requires label { label_of t.now ≡ Some (codes "with") }
    requires fits { IfSome (wide_outcome inner) (λ w. FitsWith settings.values.items settings.cost w) }
    requires once { NamesOnce inner }
    ensures outcome { IfOk result (λ o. wide_outcome o ≡ option_map (with_at path.now
        (overlaid empty settings.pairs.items) settings.values.items settings.cost) (wide_outcome inner)) }
    ensures behind { IfOk result (λ o. IsBehind (before_of env.old) (before_of env.new) (wide_outcome o)) }
    ensures once { IfOk result NamesOnce }
    ensures scopes { env.new.scopes ≡ env.old.scopes }
{
    match inner {
        Outcome::Over => Ok(Outcome::Over),
        Outcome::Done(trace) => close(alloc, t, path, env, settings, trace),
    }
}
