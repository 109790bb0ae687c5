// What trees in order evaluate to together.
ghost use Rattle.std.specs.Prelude.{◌≡◌, ◌≤◌, ◌+◌, [], ◌∷◌, ◌++◌, is_some, cond, IfOk, OnOk, IfSome};
ghost use Rattle.std.specs.List.{IsDistinct};
ghost use Rattle.std.specs.Map.{keys_of};
ghost use Rattle.std.specs.Str.{bytes_eq};
ghost use Rattle.std.specs.FinMap.{get, empty, from_entries};
ghost use Rattle.tx_env.specs.Changes.{map_of};
ghost use Rattle.tx_exec_form.specs.Maps.{noted};
ghost use Rattle.tx_parts.specs.Atop.{atop, both_looks};
ghost use Rattle.tx_parts.specs.Composed.{nothing_yet};
ghost use Rattle.tx_exec.specs.Outcomes.{wide_trace, wide_outcome, NamesOnce};
ghost use Rattle.tx_walk.specs.Steps.{so_far_of, joined_with, look_behind, IsJoined};

use std::alloc::Global;
use std::mem;
use tx_base::Memory;
use tx_env::{Pairs, Writes};
use tx_exec::{Looks, Outcome, Trace};
use tx_origin::Value;
use tx_tree::{Text, Tree, share_tree};

/// What trees in order evaluate to together: their values, what they looked up and none before them had set, what they
/// have set, what they cost, and the levels that they need.
#[derive(Drop)]
pub(crate) struct Joined {
    pub values: Vec<Value>,
    pub looks: Pairs,
    pub writes: Pairs,
    pub cost: u64,
    pub height: u32,
}

// A look more, where the name has none yet.
pub(crate) fn note_look(looks: &mut Pairs, name: &Text, found: &Option<Tree>) -> Result<(), Memory>
    ensures { OnOk result (from_entries looks.new ≡ noted (from_entries looks.old) name.now found.now) }
{
    if looks.lists(name) {
        return Ok(());
    }
    looks.put(name.copy()?, share_tree(found)?)
}

// Adds a look after others, unless the name is one of those that were set.
fn join_look(
    own: &Pairs,
    looks: &mut Pairs,
    name: &Text,
    found: &Option<Tree>,
) -> Result<(), Memory>
    ensures { OnOk result (from_entries looks.new
        ≡ look_behind (map_of own.now) (from_entries looks.old) name.now found.now) }
{
    match own.get(name) {
        Some(_) => Ok(()),
        None => note_look(looks, name, found),
    }
}

// Adds looks after others, but those at names that were set.
pub(crate) fn join_looks(own: &Pairs, looks: &mut Pairs, more: &Looks) -> Result<(), Memory>
    ensures { OnOk result (from_entries looks.new
        ≡ both_looks (from_entries looks.old) (map_of own.now) (from_entries more.now)) }
{
    for (name, found) in more.pairs() {
        join_look(own, looks, name, found)?;
    }
    Ok(())
}

// Adds what is set after what was set.
pub(crate) fn join_writes(own: &mut Pairs, more: &Writes) -> Result<(), Memory>
    requires { IsDistinct bytes_eq (keys_of more.now) }
    ensures { OnOk result (map_of own.new ≡ atop (from_entries more.now) (map_of own.old)) }
{
    for (name, tree) in more.pairs() {
        own.put(name.copy()?, Some(tree.share()?))?;
    }
    Ok(())
}

impl Joined {
    /// Nothing yet.
    pub(crate) fn new(alloc: Global) -> Joined
        ensures { so_far_of result ≡ nothing_yet }
    {
        Joined {
            values: Vec::new(alloc),
            looks: Pairs::new(alloc),
            writes: Pairs::new(alloc),
            cost: 0,
            height: 0,
        }
    }

    // Adds this trace after the others.
    pub(crate) fn add(&mut self, trace: Trace) -> Result<(), Memory>
        requires cost { self.old.cost + trace.cost ≤ 1000000 }
        requires once { IsDistinct bytes_eq (keys_of trace.writes) }
        ensures { OnOk result (so_far_of self.new ≡ joined_with (so_far_of self.old) (wide_trace trace)) }
    {
        join_looks(&self.writes, &mut self.looks, &trace.looks)?;
        join_writes(&mut self.writes, &trace.writes)?;
        self.cost += trace.cost;
        self.height = self.height.max(trace.height);
        self.values.push(trace.value)?;
        Ok(())
    }

    /// All of it. Nothing is left.
    pub(crate) fn take(&mut self, alloc: Global) -> Joined
        ensures { result ≡ self.old }
    {
        mem::replace(self, Joined::new(alloc))
    }

    /// Adds this trace after the others, and returns whether there is one.
    pub(crate) fn add_outcome(&mut self, outcome: Outcome) -> Result<bool, Memory>
        requires cost { IfSome (wide_outcome outcome) (λ t. self.old.cost + t.cost ≤ 1000000) }
        requires once { NamesOnce outcome }
        ensures { IfOk result (λ went. IsJoined (so_far_of self.old) (so_far_of self.new) (wide_outcome outcome) went) }
    {
        match outcome {
            Outcome::Over => Ok(false),
            Outcome::Done(trace) => {
                self.add(trace)?;
                Ok(true)
            }
        }
    }
}
