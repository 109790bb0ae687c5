// Tags with shells, and trees in layers.
ghost use Rattle.std.specs.Prelude.{◌≡◌, ◌<◌, ◌++◌, ◌∷◌, [], length, codes, IfOk, OnOk, IfSome, None};
ghost use Rattle.std.specs.Option.{option_map};
ghost use Rattle.std.specs.FinMap.{get, empty, from_entries};
ghost use Rattle.tx_tree.specs.WideTree.{total_size, deepest};
ghost use Rattle.tx_origin.specs.Values.{made, vals, plains};
ghost use Rattle.tx_exec_form.specs.Maps.{noted};
ghost use Rattle.tx_env.specs.Changes.{map_of};
ghost use Rattle.tx_parts.specs.Atop.{atop, env_atop, past, both_looks};
ghost use Rattle.tx_env.specs.Environments.{overlaid};
ghost use Rattle.tx_parts.specs.Shells.{is_other_tag};
ghost use Rattle.tx_parts.specs.Opening.{shells_by};
ghost use Rattle.tx_parts.specs.Layered.{label_look};
ghost use Rattle.tx_exec.specs.States.{before_of};
ghost use Rattle.tx_exec.specs.Outcomes.{wide_trace, wide_outcome, NamesOnce};
ghost use Rattle.tx_walk.specs.Walked.{AreOnce};
ghost use Rattle.tx_walk.specs.Shells.{wide_shell};
ghost use Rattle.tx_walk.specs.Steps.{so_far_of};
ghost use Rattle.tx_walk.specs.Shelled.{step_more, look_before, layer_by, FitsLayer, IsCountedTrace, BehindLayer};

use crate::joined::{Joined, join_looks, join_writes, note_look};
use crate::outside::{looks_outside, writes_outside};
use crate::scopes::set_all;
use crate::shells::{Opener, Shell};
use std::alloc::Global;
use tx_base::Memory;
use tx_env::{Env, Pairs};
use tx_exec::{Outcome, Trace, looks_of, writes_of};
use tx_exec_form::{Row, row_for};
use tx_origin::Value;
use tx_prim::Prim;
use tx_tree::{Label, Text, Tree, share_tree, text_of};

// ---- shells

// Whether it is the label of any other tag than those of the table of evaluation.
fn is_other(label: &Label) -> bool
    ensures { result ≡ is_other_tag label.now }
{
    matches!(row_for(label.bytes()), Row::Tag) && Prim::named(label.bytes()).is_none()
}

/// The shell of the tree where names have this, or none.
pub(crate) fn shell_of<O: Opener>(
    alloc: Global,
    opener: &O,
    t: &Tree,
    env: &Env,
) -> Result<Option<Shell>, Memory>
    ensures { IfOk result
        (λ s. option_map wide_shell s ≡ shells_by (O.opens opener.now) t.now (before_of env.now)) }
{
    let Some(label) = t.label() else {
        return Ok(None);
    };
    let name = text_of(alloc, label.bytes())?;
    let Some(meaning) = env.get(&name) else {
        return Ok(None);
    };
    if !is_other(label) {
        return Ok(None);
    }
    opener.shell(alloc, t, meaning)
}

// ---- the tag

// The look at this name alone.
fn one_look(alloc: Global, env: &Env, name: Text) -> Result<Pairs, Memory>
    ensures { IfOk result
        (λ looks. from_entries looks ≡ noted empty name (get env.now.map name)) }
{
    let mut looks = Pairs::new(alloc);
    let found = match env.get(&name) {
        None => None,
        Some(tree) => Some(tree.share()?),
    };
    note_look(&mut looks, &name, &found)?;
    Ok(looks)
}

/// The look at the label of the tree.
pub(crate) fn look_at_label(alloc: Global, t: &Tree, env: &Env) -> Result<Pairs, Memory>
    ensures { IfOk result (λ looks. from_entries looks ≡ label_look t.now (before_of env.now)) }
{
    match t.label() {
        None => Ok(Pairs::new(alloc)),
        Some(label) => one_look(alloc, env, text_of(alloc, label.bytes())?),
    }
}

// The trace with this look before it, a step more, and a level more.
fn tag_trace(alloc: Global, mut looks: Pairs, trace: Trace) -> Result<Trace, Memory>
    requires counted { IsCountedTrace (wide_trace trace) }
    requires once { AreOnce trace }
    ensures trace { IfOk result (λ w. wide_trace w ≡ look_before (from_entries looks) (wide_trace trace)) }
    ensures once { IfOk result AreOnce }
{
    let own = Pairs::new(alloc);
    join_looks(&own, &mut looks, &trace.looks)?;
    Ok(Trace {
        value: trace.value,
        looks: looks_of(looks, alloc)?,
        writes: trace.writes,
        cost: 1 + trace.cost,
        height: 1 + trace.height,
    })
}

/// What a tag evaluates to that has this look at its label, where its child in its layers evaluates to this.
pub(crate) fn tag_of(alloc: Global, looks: Pairs, inside: Outcome) -> Result<Outcome, Memory>
    requires counted { IfSome (wide_outcome inside) IsCountedTrace }
    requires once { NamesOnce inside }
    ensures outcome { IfOk result
        (λ o. wide_outcome o ≡ option_map (look_before (from_entries looks)) (wide_outcome inside)) }
    ensures once { IfOk result NamesOnce }
{
    match inside {
        Outcome::Over => Ok(Outcome::Over),
        Outcome::Done(trace) => Ok(Outcome::Done(tag_trace(alloc, looks, trace)?)),
    }
}

/// The outcome with a step and a level more.
pub(crate) fn stepped(outcome: Outcome) -> Outcome
    requires counted { IfSome (wide_outcome outcome) IsCountedTrace }
    requires once { NamesOnce outcome }
    ensures outcome { wide_outcome result ≡ option_map step_more (wide_outcome outcome) }
    ensures once { NamesOnce result }
{
    match outcome {
        Outcome::Over => Outcome::Over,
        Outcome::Done(trace) => Outcome::Done(Trace {
            value: trace.value,
            looks: trace.looks,
            writes: trace.writes,
            cost: 1 + trace.cost,
            height: 1 + trace.height,
        }),
    }
}

// ---- a layer

// The value of a layer, of those of its names and trees, and of what is inside.
fn layer_value(alloc: Global, mut values: Vec<Value>, inner: Value) -> Result<Value, Memory>
    requires arity { length values.items < 65535 }
    requires depth { deepest (plains (vals (values.items ++ inner ∷ []))) < 400 }
    requires size { total_size (plains (vals (values.items ++ inner ∷ []))) < 1000000 }
    ensures { IfOk result (λ v. v ≡ made (codes "with") (vals (values.items ++ inner ∷ [])) None) }
{
    values.push(inner)?;
    match Label::new(alloc, b"with".as_slice()) {
        Ok(label) => Value::node(alloc, label, values, None),
        Err(_) => Err(Memory),
    }
}

// Adds what is looked up and set at other names than these, after the others.
fn join_outside(
    alloc: Global,
    pairs: &[(Text, Tree)],
    joined: &mut Joined,
    trace: &Trace,
) -> Result<(), Memory>
    requires once { AreOnce trace.now }
    ensures looks { OnOk result (from_entries joined.new.looks ≡ both_looks (from_entries joined.old.looks)
        (map_of joined.old.writes) (past (overlaid empty pairs.now) (wide_trace trace.now).looks)) }
    ensures writes { OnOk result (map_of joined.new.writes
        ≡ atop (past (overlaid empty pairs.now) (wide_trace trace.now).writes) (map_of joined.old.writes)) }
    ensures values { joined.new.values ≡ joined.old.values }
    ensures height { joined.new.height ≡ joined.old.height }
{
    let looks = looks_outside(alloc, pairs, &trace.looks)?;
    let writes = writes_outside(alloc, pairs, &trace.writes)?;
    join_looks(&joined.writes, &mut joined.looks, &looks)?;
    join_writes(&mut joined.writes, &writes)
}

// The trace of a layer that costs so much, made of what its names and trees and what is inside it evaluated to.
fn layer_trace(
    alloc: Global,
    joined: Joined,
    cost: u64,
    height: u32,
    inner: Value,
) -> Result<Trace, Memory>
    requires arity { length joined.values.items < 65535 }
    requires depth { deepest (plains (vals (joined.values.items ++ inner ∷ []))) < 400 }
    requires size { total_size (plains (vals (joined.values.items ++ inner ∷ []))) < 1000000 }
    ensures trace { IfOk result (λ w. wide_trace w ≡ record {
      value = made (codes "with") (vals (joined.values.items ++ inner ∷ [])) None;
      looks = from_entries joined.looks;
      writes = map_of joined.writes;
      cost = cost;
      height = height;
    }) }
    ensures once { IfOk result AreOnce }
{
    let looks = looks_of(joined.looks, alloc)?;
    let writes = writes_of(joined.writes, alloc)?;
    let value = layer_value(alloc, joined.values, inner)?;
    Ok(Trace {
        value,
        looks,
        writes,
        cost,
        height,
    })
}

/// What a layer evaluates to that sets these pairs and costs so much, where its names and trees, and what is inside,
/// evaluated to this. What is set inside, at other names than those of the layer, is set.
pub(crate) fn layer_of(
    alloc: Global,
    env: &mut Env,
    pairs: &[(Text, Tree)],
    joined: &mut Joined,
    cost: u64,
    inside: Outcome,
) -> Result<Outcome, Memory>
    requires fits { IfSome (wide_outcome inside) (FitsLayer (so_far_of joined.old) cost) }
    requires once { NamesOnce inside }
    ensures outcome { IfOk result (λ o. wide_outcome o
        ≡ option_map (layer_by (overlaid empty pairs.now) (so_far_of joined.old) cost) (wide_outcome inside)) }
    ensures behind { OnOk result (BehindLayer (overlaid empty pairs.now) (before_of env.old) (before_of env.new)
        (wide_outcome inside)) }
    ensures once { IfOk result NamesOnce }
    ensures scopes { env.new.scopes ≡ env.old.scopes }
{
    match inside {
        Outcome::Over => Ok(Outcome::Over),
        Outcome::Done(trace) => {
            set_outside(alloc, env, pairs, &trace)?;
            join_outside(alloc, pairs, joined, &trace)?;
            let cost = cost + trace.cost;
            let height = 1 + joined.height.max(trace.height);
            let layer = layer_trace(alloc, joined.take(alloc), cost, height, trace.value)?;
            Ok(Outcome::Done(layer))
        }
    }
}

// Sets what the trace sets at other names than these.
fn set_outside(
    alloc: Global,
    env: &mut Env,
    pairs: &[(Text, Tree)],
    trace: &Trace,
) -> Result<(), Memory>
    requires once { AreOnce trace.now }
    ensures behind { OnOk result (before_of env.new
        ≡ env_atop (past (overlaid empty pairs.now) (wide_trace trace.now).writes) (before_of env.old)) }
    ensures scopes { env.new.scopes ≡ env.old.scopes }
{
    let writes = writes_outside(alloc, pairs, &trace.writes)?;
    set_all(env, writes.pairs())
}
