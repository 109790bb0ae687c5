// The walk through the layers of shells.
ghost use Rattle.std.specs.Prelude.{◌≡◌, ◌≤◌, ◌<◌, ◌+◌, ◌-◌, ◌^◌, ◌++◌, ◌∷◌, [], Some, IfOk, OnOk, length};
ghost use Rattle.std.specs.List.{All, AllByRecursion};
ghost use Rattle.std.specs.Option.{option_map};
ghost use Rattle.std.specs.FinMap.{get};
ghost use Rattle.tx_env.specs.Environments.{overlaid};
ghost use Rattle.tx_exec.specs.States.{before_of};
ghost use Rattle.tx_exec.specs.Outcomes.{wide_outcome, NamesOnce};
ghost use Rattle.tx_parts.specs.Shells.{IsFull};
ghost use Rattle.tx_parts.specs.Opening.{shells_by};
ghost use Rattle.tx_parts.specs.Composed.{evaluates, nothing_yet};
ghost use Rattle.tx_parts.specs.Layered.{evaluates_in};
ghost use Rattle.tx_parts.specs.Parts.{parts_by, parts_in};
ghost use Rattle.tx_walk.specs.Held.{AreSound};
ghost use Rattle.tx_walk.specs.Guides.{guide_of, charged, charged_in};
ghost use Rattle.tx_walk.specs.Finding.{AreFindable};
ghost use Rattle.tx_walk.specs.Layers.{LayerStage, LayerDone, stage_in};
ghost use Rattle.tx_walk.specs.LayerTraces.{AreKnownBy, AreKnownIn};
ghost use Rattle.tx_walk.specs.Prior.{stores_of, holder_of};
ghost use Rattle.tx_walk.specs.Shells.{wide_layer, wide_layers, wide_shell};
ghost use Rattle.tx_walk.specs.Spending.{RisesAlike};
ghost use Rattle.tx_walk.specs.Steps.{so_far_of, trace_under, IsReady, IsBehind, IsAdded};

use crate::layers::{LayerSoFar, cost_within};
use crate::part::Part;
use crate::prior::PriorStores;
use crate::progress::WalkProgress;
use crate::scopes::set_all;
use crate::shelled::{layer_of, look_at_label, stepped, tag_of};
use crate::shells::{Layer, Opener, Shell};
use crate::tree_settings::pairs_to_set;
use crate::walking::walk_tree;
use std::alloc::Global;
use std::sync::ledger::Ledger;
use tx_base::{Memory, Steps};
use tx_env::Env;
use tx_exec::Outcome;
use tx_tree::{Path, Text, Tree};

/// What a tag with this shell evaluates to.
#[cycle(walk)]
pub(crate) fn shelled<O: Opener, L: Ledger>(
    alloc: Global,
    t: &Tree,
    path: &Path,
    env: &mut Env,
    levels: u32,
    left: u64,
    opener: &O,
    kept: &PriorStores<'_>,
    progress: &mut WalkProgress,
    done: &mut Vec<Part>,
    shell: &Shell,
    steps: &mut Steps<L>,
) -> Result<Outcome, Memory>
    requires shelled { shells_by (O.opens opener.now) t.now (before_of env.old) ≡ Some (wide_shell shell.now) }
    requires some { 0 < levels }
    requires levels { levels ≤ 400 }
    requires left { left ≤ 1000000 }
    requires scopes { length env.old.scopes + levels < 2 ^ 32 - 1 }
    requires sound { AreSound (stores_of kept.now) path.now t.now }
    requires own { AreFindable kept.now.own }
    requires spare { AreFindable kept.now.spare }
    requires done_ready { All IsReady done.old.items }
    ensures exact { IfOk result
        (λ o. wide_outcome o ≡ option_map (trace_under path.now) (evaluates levels left t.now (before_of env.old))) }
    ensures behind { IfOk result (λ o. IsBehind (before_of env.old) (before_of env.new) (wide_outcome o)) }
    ensures added { IfOk result (λ o. IsAdded (stores_of kept.now)
        (parts_by (shells_by (O.opens opener.now)) levels left path.now t.now (before_of env.old))
        done.old.items done.new.items (wide_outcome o)) }
    ensures counted { OnOk result (steps.new
        ≡ steps.old
        + charged (guide_of (O.opens opener.now) kept.now) levels left path.now t.now (before_of env.old)) }
    ensures layers { IfOk result (λ o. AreKnownBy (shells_by (O.opens opener.now)) levels left t.now (before_of env.old)
        progress.old.layers.items progress.new.layers.items (wide_outcome o)) }
    ensures spent { OnOk result (RisesAlike steps.old progress.old.spent steps.new progress.new.spent) }
    ensures names_once { IfOk result NamesOnce }
    ensures done_ready { All IsReady done.new.items }
    ensures scopes { env.new.scopes ≡ env.old.scopes }
{
    if left == 0 {
        return Ok(Outcome::Over);
    }
    let Some(inner) = t.child(shell.inner) else {
        unreachable!()
    };
    let look = look_at_label(alloc, t, env)?;
    let outcome = in_layers(
        alloc,
        inner,
        shell.inner,
        path,
        env,
        levels - 1,
        left - 1,
        opener,
        kept,
        progress,
        done,
        &shell.layers,
        steps,
    )?;
    tag_of(alloc, look, outcome)
}

// What a tree in layers, which is the child of this number, evaluates to.
#[cycle(walk)]
fn in_layers<O: Opener, L: Ledger>(
    alloc: Global,
    t: &Tree,
    i: u32,
    path: &Path,
    env: &mut Env,
    levels: u32,
    left: u64,
    opener: &O,
    kept: &PriorStores<'_>,
    progress: &mut WalkProgress,
    done: &mut Vec<Part>,
    layers: &[Layer],
    steps: &mut Steps<L>,
) -> Result<Outcome, Memory>
    requires full { AllByRecursion IsFull (wide_layers layers.now) }
    requires levels { levels ≤ 400 }
    requires left { left ≤ 1000000 }
    requires scopes { length env.old.scopes + levels < 2 ^ 32 - 1 }
    requires sound { AreSound (stores_of kept.now) (path.now ++ i ∷ []) t.now }
    requires own { AreFindable kept.now.own }
    requires spare { AreFindable kept.now.spare }
    requires done_ready { All IsReady done.old.items }
    ensures exact { IfOk result
        (λ o. wide_outcome o ≡ option_map (trace_under path.now)
        (evaluates_in levels (wide_layers layers.now) i left t.now (before_of env.old))) }
    ensures behind { IfOk result (λ o. IsBehind (before_of env.old) (before_of env.new) (wide_outcome o)) }
    ensures added { IfOk result (λ o. IsAdded (stores_of kept.now)
        (parts_in (shells_by (O.opens opener.now)) levels (wide_layers layers.now) i left
        path.now t.now (before_of env.old)) done.old.items done.new.items (wide_outcome o)) }
    ensures counted { OnOk result (steps.new
        ≡ steps.old
        + charged_in (guide_of (O.opens opener.now) kept.now) levels (wide_layers layers.now) i left
        path.now t.now (before_of env.old)) }
    ensures layers { IfOk result (λ o. AreKnownIn (shells_by (O.opens opener.now)) levels (wide_layers layers.now) left
        t.now (before_of env.old) progress.old.layers.items progress.new.layers.items (wide_outcome o)) }
    ensures spent { OnOk result (RisesAlike steps.old progress.old.spent steps.new progress.new.spent) }
    ensures names_once { IfOk result NamesOnce }
    ensures done_ready { All IsReady done.new.items }
    ensures scopes { env.new.scopes ≡ env.old.scopes }
{
    if levels == 0 {
        return Ok(Outcome::Over);
    }
    if left == 0 {
        return Ok(Outcome::Over);
    }
    match layers.split_first() {
        None => in_child(
            alloc, t, i, path, env, levels, left, opener, kept, progress, done, steps,
        ),
        Some((layer, inner)) => in_layer(
            alloc, t, i, path, env, levels, left, opener, kept, progress, done, layer, inner, steps,
        ),
    }
}

// What a tree in no more layers evaluates to.
#[cycle(walk)]
fn in_child<O: Opener, L: Ledger>(
    alloc: Global,
    t: &Tree,
    i: u32,
    path: &Path,
    env: &mut Env,
    levels: u32,
    left: u64,
    opener: &O,
    kept: &PriorStores<'_>,
    progress: &mut WalkProgress,
    done: &mut Vec<Part>,
    steps: &mut Steps<L>,
) -> Result<Outcome, Memory>
    requires some { 0 < levels }
    requires allowed { 0 < left }
    requires levels { levels ≤ 400 }
    requires left { left ≤ 1000000 }
    requires scopes { length env.old.scopes + levels < 2 ^ 32 - 1 }
    requires sound { AreSound (stores_of kept.now) (path.now ++ i ∷ []) t.now }
    requires own { AreFindable kept.now.own }
    requires spare { AreFindable kept.now.spare }
    requires done_ready { All IsReady done.old.items }
    ensures exact { IfOk result
        (λ o. wide_outcome o ≡ option_map (trace_under path.now)
        (evaluates_in levels [] i left t.now (before_of env.old))) }
    ensures behind { IfOk result (λ o. IsBehind (before_of env.old) (before_of env.new) (wide_outcome o)) }
    ensures added { IfOk result (λ o. IsAdded (stores_of kept.now)
        (parts_in (shells_by (O.opens opener.now)) levels [] i left
        path.now t.now (before_of env.old)) done.old.items done.new.items (wide_outcome o)) }
    ensures counted { OnOk result (steps.new
        ≡ steps.old
        + charged_in (guide_of (O.opens opener.now) kept.now) levels [] i left
        path.now t.now (before_of env.old)) }
    ensures layers { IfOk result (λ o. AreKnownIn (shells_by (O.opens opener.now)) levels [] left t.now
        (before_of env.old) progress.old.layers.items progress.new.layers.items (wide_outcome o)) }
    ensures spent { OnOk result (RisesAlike steps.old progress.old.spent steps.new progress.new.spent) }
    ensures names_once { IfOk result NamesOnce }
    ensures done_ready { All IsReady done.new.items }
    ensures scopes { env.new.scopes ≡ env.old.scopes }
{
    let below = path.child(alloc, i)?;
    let outcome = walk_tree(
        alloc,
        t,
        below,
        env,
        levels - 1,
        left - 1,
        opener,
        kept,
        progress,
        done,
        steps,
    )?;
    Ok(stepped(outcome))
}

// What a tree in this layer and the inner ones evaluates to.
#[cycle(walk)]
fn in_layer<O: Opener, L: Ledger>(
    alloc: Global,
    t: &Tree,
    i: u32,
    path: &Path,
    env: &mut Env,
    levels: u32,
    left: u64,
    opener: &O,
    kept: &PriorStores<'_>,
    progress: &mut WalkProgress,
    done: &mut Vec<Part>,
    layer: &Layer,
    inner: &[Layer],
    steps: &mut Steps<L>,
) -> Result<Outcome, Memory>
    requires full { IsFull (wide_layer layer.now) }
    requires inner_full { AllByRecursion IsFull (wide_layers inner.now) }
    requires some { 0 < levels }
    requires allowed { 0 < left }
    requires levels { levels ≤ 400 }
    requires left { left ≤ 1000000 }
    requires scopes { length env.old.scopes + levels < 2 ^ 32 - 1 }
    requires sound { AreSound (stores_of kept.now) (path.now ++ i ∷ []) t.now }
    requires own { AreFindable kept.now.own }
    requires spare { AreFindable kept.now.spare }
    requires done_ready { All IsReady done.old.items }
    ensures exact { IfOk result
        (λ o. wide_outcome o ≡ option_map (trace_under path.now)
        (evaluates_in levels (wide_layer layer.now ∷ wide_layers inner.now) i left t.now (before_of env.old))) }
    ensures behind { IfOk result (λ o. IsBehind (before_of env.old) (before_of env.new) (wide_outcome o)) }
    ensures added { IfOk result (λ o. IsAdded (stores_of kept.now)
        (parts_in (shells_by (O.opens opener.now)) levels (wide_layer layer.now ∷ wide_layers inner.now) i left
        path.now t.now (before_of env.old)) done.old.items done.new.items (wide_outcome o)) }
    ensures counted { OnOk result (steps.new
        ≡ steps.old
        + charged_in (guide_of (O.opens opener.now) kept.now) levels (wide_layer layer.now ∷ wide_layers inner.now) i
        left path.now t.now (before_of env.old)) }
    ensures layers { IfOk result (λ o. AreKnownIn (shells_by (O.opens opener.now)) levels
        (wide_layer layer.now ∷ wide_layers inner.now) left t.now (before_of env.old)
        progress.old.layers.items progress.new.layers.items (wide_outcome o)) }
    ensures spent { OnOk result (RisesAlike steps.old progress.old.spent steps.new progress.new.spent) }
    ensures names_once { IfOk result NamesOnce }
    ensures done_ready { All IsReady done.new.items }
    ensures scopes { env.new.scopes ≡ env.old.scopes }
{
    let mut so_far = LayerSoFar::new(alloc);
    through_layer(
        alloc,
        t,
        i,
        path,
        env,
        levels,
        left,
        opener,
        kept,
        progress,
        done,
        layer,
        inner,
        &mut so_far,
        steps,
    )
}

// What a tree in this layer and the inner ones evaluates to, where nothing of the layer was evaluated yet.
#[cycle(walk)]
fn through_layer<O: Opener, L: Ledger>(
    alloc: Global,
    t: &Tree,
    i: u32,
    path: &Path,
    env: &mut Env,
    levels: u32,
    left: u64,
    opener: &O,
    kept: &PriorStores<'_>,
    progress: &mut WalkProgress,
    done: &mut Vec<Part>,
    layer: &Layer,
    inner: &[Layer],
    so_far: &mut LayerSoFar,
    steps: &mut Steps<L>,
) -> Result<Outcome, Memory>
    requires joined { so_far_of so_far.old.joined ≡ nothing_yet }
    requires settings { so_far.old.settings.items ≡ [] }
    requires full { IsFull (wide_layer layer.now) }
    requires inner_full { AllByRecursion IsFull (wide_layers inner.now) }
    requires some { 0 < levels }
    requires allowed { 0 < left }
    requires levels { levels ≤ 400 }
    requires left { left ≤ 1000000 }
    requires scopes { length env.old.scopes + levels < 2 ^ 32 - 1 }
    requires sound { AreSound (stores_of kept.now) (path.now ++ i ∷ []) t.now }
    requires own { AreFindable kept.now.own }
    requires spare { AreFindable kept.now.spare }
    requires done_ready { All IsReady done.old.items }
    ensures exact { IfOk result
        (λ o. wide_outcome o ≡ option_map (trace_under path.now)
        (evaluates_in levels (wide_layer layer.now ∷ wide_layers inner.now) i left t.now (before_of env.old))) }
    ensures behind { IfOk result (λ o. IsBehind (before_of env.old) (before_of env.new) (wide_outcome o)) }
    ensures added { IfOk result (λ o. IsAdded (stores_of kept.now)
        (parts_in (shells_by (O.opens opener.now)) levels (wide_layer layer.now ∷ wide_layers inner.now) i left
        path.now t.now (before_of env.old)) done.old.items done.new.items (wide_outcome o)) }
    ensures counted { OnOk result (steps.new
        ≡ steps.old
        + charged_in (guide_of (O.opens opener.now) kept.now) levels (wide_layer layer.now ∷ wide_layers inner.now) i
        left path.now t.now (before_of env.old)) }
    ensures layers { IfOk result (λ o. AreKnownIn (shells_by (O.opens opener.now)) levels
        (wide_layer layer.now ∷ wide_layers inner.now) left t.now (before_of env.old)
        progress.old.layers.items progress.new.layers.items (wide_outcome o)) }
    ensures spent { OnOk result (RisesAlike steps.old progress.old.spent steps.new progress.new.spent) }
    ensures names_once { IfOk result NamesOnce }
    ensures done_ready { All IsReady done.new.items }
    ensures scopes { env.new.scopes ≡ env.old.scopes }
{
    let went = so_far.add_layer(
        alloc,
        layer,
        env,
        levels - 1,
        left - 1,
        kept,
        progress,
        steps,
    )?;
    if !went {
        return Ok(Outcome::Over);
    }
    behind_values(
        alloc, t, i, path, env, levels, left, opener, kept, progress, done, layer, inner, so_far,
        steps,
    )
}

// What a tree in this layer and the inner ones evaluates to, after the names and the trees of the layer.
#[cycle(walk)]
fn behind_values<O: Opener, L: Ledger>(
    alloc: Global,
    t: &Tree,
    i: u32,
    path: &Path,
    env: &mut Env,
    levels: u32,
    left: u64,
    opener: &O,
    kept: &PriorStores<'_>,
    progress: &mut WalkProgress,
    done: &mut Vec<Part>,
    layer: &Layer,
    inner: &[Layer],
    so_far: &mut LayerSoFar,
    steps: &mut Steps<L>,
) -> Result<Outcome, Memory>
    requires full { IsFull (wide_layer layer.now) }
    requires inner_full { AllByRecursion IsFull (wide_layers inner.now) }
    requires some { 0 < levels }
    requires allowed { 0 < left }
    requires comes { (s : LayerStage) × LayerDone (holder_of kept.now) (levels - 1) (left - 1) (wide_layer layer.now) s
        (stage_in so_far.old env.old steps.old) }
    requires levels { levels ≤ 400 }
    requires left { left ≤ 1000000 }
    requires scopes { length env.old.scopes + levels < 2 ^ 32 - 1 }
    requires sound { AreSound (stores_of kept.now) (path.now ++ i ∷ []) t.now }
    requires own { AreFindable kept.now.own }
    requires spare { AreFindable kept.now.spare }
    requires done_ready { All IsReady done.old.items }
    ensures exact { (s : LayerStage) → LayerDone (holder_of kept.now) (levels - 1) (left - 1) (wide_layer layer.now) s
        (stage_in so_far.old env.old steps.old) → IfOk result
        (λ o. wide_outcome o ≡ option_map (trace_under path.now)
        (evaluates_in levels (wide_layer layer.now ∷ wide_layers inner.now) i left t.now s.names)) }
    ensures behind { (s : LayerStage) → LayerDone (holder_of kept.now) (levels - 1) (left - 1) (wide_layer layer.now) s
        (stage_in so_far.old env.old steps.old) → IfOk result
        (λ o. IsBehind s.names (before_of env.new) (wide_outcome o)) }
    ensures added { (s : LayerStage) → LayerDone (holder_of kept.now) (levels - 1) (left - 1) (wide_layer layer.now) s
        (stage_in so_far.old env.old steps.old) → IfOk result
        (λ o. IsAdded (stores_of kept.now)
        (parts_in (shells_by (O.opens opener.now)) levels (wide_layer layer.now ∷ wide_layers inner.now) i left
        path.now t.now s.names) done.old.items done.new.items (wide_outcome o)) }
    ensures counted { (s : LayerStage) → LayerDone (holder_of kept.now) (levels - 1) (left - 1) (wide_layer layer.now) s
        (stage_in so_far.old env.old steps.old) → OnOk result (steps.new ≡ s.count
        + charged_in (guide_of (O.opens opener.now) kept.now) levels
        (wide_layer layer.now ∷ wide_layers inner.now) i left path.now t.now s.names) }
    ensures layers { (s : LayerStage) → LayerDone (holder_of kept.now) (levels - 1) (left - 1) (wide_layer layer.now) s
        (stage_in so_far.old env.old steps.old) → IfOk result
        (λ o. AreKnownIn (shells_by (O.opens opener.now)) levels (wide_layer layer.now ∷ wide_layers inner.now) left
        t.now s.names progress.old.layers.items progress.new.layers.items (wide_outcome o)) }
    ensures spent { OnOk result (RisesAlike steps.old progress.old.spent steps.new progress.new.spent) }
    ensures names_once { IfOk result NamesOnce }
    ensures done_ready { All IsReady done.new.items }
    ensures scopes { env.new.scopes ≡ env.old.scopes }
{
    let Some(cost) = cost_within(&so_far.settings, 1 + so_far.joined.cost, left) else {
        return Ok(Outcome::Over);
    };
    let pairs = pairs_to_set(alloc, &so_far.settings, progress, steps)?;
    let outcome = inside_layer(
        alloc,
        t,
        i,
        path,
        env,
        levels - 1,
        left - cost,
        opener,
        kept,
        progress,
        done,
        inner,
        &pairs,
        steps,
    )?;
    layer_of(alloc, env, &pairs, &mut so_far.joined, cost, outcome)
}

// What a tree in layers evaluates to where these pairs are set. The environment is unchanged afterwards.
#[cycle(walk)]
fn inside_layer<O: Opener, L: Ledger>(
    alloc: Global,
    t: &Tree,
    i: u32,
    path: &Path,
    env: &mut Env,
    levels: u32,
    left: u64,
    opener: &O,
    kept: &PriorStores<'_>,
    progress: &mut WalkProgress,
    done: &mut Vec<Part>,
    layers: &[Layer],
    pairs: &[(Text, Tree)],
    steps: &mut Steps<L>,
) -> Result<Outcome, Memory>
    requires full { AllByRecursion IsFull (wide_layers layers.now) }
    requires levels { levels < 400 }
    requires left { left ≤ 1000000 }
    requires scopes { length env.old.scopes + levels < 2 ^ 32 - 2 }
    requires sound { AreSound (stores_of kept.now) (path.now ++ i ∷ []) t.now }
    requires own { AreFindable kept.now.own }
    requires spare { AreFindable kept.now.spare }
    requires done_ready { All IsReady done.old.items }
    ensures exact { IfOk result (λ o. wide_outcome o ≡ option_map (trace_under path.now)
        (evaluates_in levels (wide_layers layers.now) i left t.now (get (overlaid env.old.map pairs.now)))) }
    ensures added { IfOk result (λ o. IsAdded (stores_of kept.now)
        (parts_in (shells_by (O.opens opener.now)) levels (wide_layers layers.now) i left path.now t.now
        (get (overlaid env.old.map pairs.now))) done.old.items done.new.items (wide_outcome o)) }
    ensures counted { OnOk result (steps.new ≡ steps.old + charged_in (guide_of (O.opens opener.now) kept.now)
        levels (wide_layers layers.now) i left path.now t.now (get (overlaid env.old.map pairs.now))) }
    ensures layers { IfOk result (λ o. AreKnownIn (shells_by (O.opens opener.now)) levels (wide_layers layers.now) left
        t.now (get (overlaid env.old.map pairs.now)) progress.old.layers.items progress.new.layers.items
        (wide_outcome o)) }
    ensures spent { OnOk result (RisesAlike steps.old progress.old.spent steps.new progress.new.spent) }
    ensures names_once { IfOk result NamesOnce }
    ensures done_ready { All IsReady done.new.items }
    ensures same { env.new ≡ env.old }
{
    let mark = env.enter();
    let outcome = set_layer(
        alloc, t, i, path, env, levels, left, opener, kept, progress, done, layers, pairs, steps,
    );
    env.leave(mark);
    outcome
}

// Sets these pairs, and returns what the tree in layers evaluates to.
#[cycle(walk)]
fn set_layer<O: Opener, L: Ledger>(
    alloc: Global,
    t: &Tree,
    i: u32,
    path: &Path,
    env: &mut Env,
    levels: u32,
    left: u64,
    opener: &O,
    kept: &PriorStores<'_>,
    progress: &mut WalkProgress,
    done: &mut Vec<Part>,
    layers: &[Layer],
    pairs: &[(Text, Tree)],
    steps: &mut Steps<L>,
) -> Result<Outcome, Memory>
    requires full { AllByRecursion IsFull (wide_layers layers.now) }
    requires levels { levels < 400 }
    requires left { left ≤ 1000000 }
    requires scopes { length env.old.scopes + levels < 2 ^ 32 - 1 }
    requires sound { AreSound (stores_of kept.now) (path.now ++ i ∷ []) t.now }
    requires own { AreFindable kept.now.own }
    requires spare { AreFindable kept.now.spare }
    requires done_ready { All IsReady done.old.items }
    ensures exact { IfOk result (λ o. wide_outcome o ≡ option_map (trace_under path.now)
        (evaluates_in levels (wide_layers layers.now) i left t.now (get (overlaid env.old.map pairs.now)))) }
    ensures added { IfOk result (λ o. IsAdded (stores_of kept.now)
        (parts_in (shells_by (O.opens opener.now)) levels (wide_layers layers.now) i left path.now t.now
        (get (overlaid env.old.map pairs.now))) done.old.items done.new.items (wide_outcome o)) }
    ensures counted { OnOk result (steps.new ≡ steps.old + charged_in (guide_of (O.opens opener.now) kept.now)
        levels (wide_layers layers.now) i left path.now t.now (get (overlaid env.old.map pairs.now))) }
    ensures layers { IfOk result (λ o. AreKnownIn (shells_by (O.opens opener.now)) levels (wide_layers layers.now) left
        t.now (get (overlaid env.old.map pairs.now)) progress.old.layers.items progress.new.layers.items
        (wide_outcome o)) }
    ensures spent { OnOk result (RisesAlike steps.old progress.old.spent steps.new progress.new.spent) }
    ensures names_once { IfOk result NamesOnce }
    ensures done_ready { All IsReady done.new.items }
    ensures scopes { env.new.scopes ≡ env.old.scopes }
{
    set_all(env, pairs)?;
    in_layers(
        alloc, t, i, path, env, levels, left, opener, kept, progress, done, layers, steps,
    )
}
