// The names that a `with` sets.
ghost use Rattle.std.specs.Prelude.{◌≡◌, ◌+◌, ℕ, [], Ok, Some, None, Option, IfOk, OnOk};
ghost use Rattle.tx_exec_form.specs.Runs.{Before, Done};
ghost use Rattle.tx_exec_form.specs.Rows.{set_all, kept_of};
ghost use Rattle.tx_exec.specs.Settings.{sets_of, held_of, nodes_in};
ghost use Rattle.tx_exec.specs.States.{state_of};
ghost use Rattle.tx_env.specs.Changes.{map_of};
ghost use Rattle.std.specs.Prelude.{◌<◌, ◌≤◌, ◌*◌, ◌++◌, ◌∷◌, length, MatchOption};
ghost use Rattle.tx_tree.specs.WideTree.{size_of, total_size, depth_of, deepest, nodes_of};
ghost use Rattle.tx_origin.specs.Values.{value_text, made, vals, plain, plains};

use crate::progress::Progress;
use std::alloc::Global;
use std::sync::ledger::Ledger;
use tx_base::{Memory, Steps};
use tx_origin::{Tagged, Value, share_origin};
use tx_tree::{Label, Text, Tree, share_tree};

/// A name with the value that it is to have.
#[derive(Drop)]
pub(crate) struct Setting {
    pub name: Text,
    pub value: Value,
}

/// A name with what it has, or nothing.
#[derive(Drop)]
pub(crate) struct Held {
    pub name: Text,
    pub tree: Option<Tree>,
}

/// A name, its text, and the value after it.
#[derive(Drop)]
pub(crate) struct Pair {
    pub name: Value,
    pub words: Text,
    pub value: Value,
}

/// The names and values of a `with`, in order: the parts of its value, what is to be set, and the sizes and the nodes
/// of all values together.
#[derive(Drop)]
pub(crate) struct Parts {
    pub values: Vec<Value>,
    pub settings: Vec<Setting>,
    pub total: u64,
    pub nodes: u64,
}

impl Parts {
    pub(crate) fn new(alloc: Global) -> Parts
        ensures values { result.values.items ≡ [] }
        ensures settings { result.settings.items ≡ [] }
        ensures total { result.total ≡ 0 }
        ensures nodes { result.nodes ≡ 0 }
    {
        Parts {
            values: Vec::new(alloc),
            settings: Vec::new(alloc),
            total: 0,
            nodes: 0,
        }
    }

    /// Puts the pair after the others.
    #[tactic(auto, using(crate::proofs::SettingLoops::pair_rules))]
    pub(crate) fn add(&mut self, pair: Pair) -> Result<(), Memory>
        requires total { self.old.total + size_of (plain pair.value) ≤ 1000000 }
        requires nodes { self.old.nodes + nodes_of (plain pair.value) ≤ 1000000 }
        ensures values { OnOk result
            (self.new.values.items ≡ self.old.values.items ++ pair.name ∷ pair.value ∷ []) }
        ensures settings { OnOk result (sets_of self.new.settings.items
            ≡ sets_of self.old.settings.items ++ (pair.words, Some (plain pair.value)) ∷ []) }
        ensures counted { OnOk result (nodes_in self.new.settings.items
            ≡ nodes_in self.old.settings.items + nodes_of (plain pair.value)) }
        ensures total { OnOk result (self.new.total ≡ self.old.total + size_of (plain pair.value)) }
        ensures nodes { OnOk result (self.new.nodes ≡ self.old.nodes + nodes_of (plain pair.value)) }
    {
        self.total += pair.value.size();
        self.nodes += pair.value.nodes();
        let value = pair.value.share()?;
        self.settings.push(Setting {
            name: pair.words,
            value,
        })?;
        self.values.push(pair.name)?;
        self.values.push(pair.value)?;
        Ok(())
    }
}

/// The names with the trees of the values, without origins. A step is taken for each node.
#[tactic(auto, using(crate::proofs::SettingLoops::tree_rules, std::proofs::lemmas::Grind::common_steps))]
pub(crate) fn trees_of<L: Ledger>(
    alloc: Global,
    steps: &mut Steps<L>,
    settings: &[Setting],
) -> Result<Vec<Held>, Memory>
    ensures ok { IfOk result (λ h. held_of h.items ≡ sets_of settings.now) }
    ensures counted { OnOk result (steps.new ≡ steps.old + nodes_in settings.now) }
{
    let mut held = Vec::new(alloc);
    for setting in settings {
        let name = setting.name.copy()?;
        let tree = setting.value.plain(alloc, steps)?;
        held.push(Held {
            name,
            tree: Some(tree),
        })?;
    }
    Ok(held)
}

impl Progress {
    /// These names with what the evaluation has set them to, or nothing.
    #[tactic(auto, using(crate::proofs::SettingLoops::kept_rules, std::proofs::lemmas::Grind::common_steps))]
    pub(crate) fn kept(&self, alloc: Global, names: &[Held]) -> Result<Vec<Held>, Memory>
        ensures { IfOk result (λ h. held_of h.items ≡ kept_of (held_of names.now) (map_of self.now.own)) }
    {
        let mut kept = Vec::new(alloc);
        for held in names {
            let name = held.name.copy()?;
            let tree = self.own_tree(&name)?;
            kept.push(Held { name, tree })?;
        }
        Ok(kept)
    }

    /// Gives each name what it is to have.
    #[tactic(auto, using(crate::proofs::SettingLoops::set_rules, std::proofs::lemmas::Grind::common_steps))]
    pub(crate) fn set_all(&mut self, names: &[Held]) -> Result<(), Memory>
        ensures gives { (e : Before) → OnOk result
            (set_all (held_of names.now) e (state_of self.old) ≡ Done tt (state_of self.new)) }
        ensures left { self.new.left ≡ self.old.left }
    {
        for held in names {
            let name = held.name.copy()?;
            let tree = share_tree(&held.tree)?;
            self.set(name, tree)?;
        }
        Ok(())
    }
}

/// How many pairs are before a last child, or None where none is left over.
pub(crate) fn pairs_in(arity: u32) -> Option<u32>
    ensures { MatchOption result ((n : ℕ) × (arity ≡ 2 * n)) (λ n. arity ≡ 2 * n + 1) }
{
    let half = arity / 2;
    if arity == 2 * half { None } else { Some(half) }
}

/// The text of a value, or None where it is a node.
pub(crate) fn words_of(value: &Value) -> Result<Option<Text>, Memory>
    ensures { IfOk result (λ r. r ≡ value_text value.now) }
{
    match value.text() {
        None => Ok(None),
        Some(words) => Ok(Some(words.copy()?)),
    }
}

/// The node with this value after the others.
#[tactic(auto, using(crate::proofs::SettingLoops::push_rules))]
pub(crate) fn made_with(
    alloc: Global,
    t: &Tagged,
    label: &Label,
    mut values: Vec<Value>,
    value: Value,
) -> Result<Value, Memory>
    requires arity { length values.items < 65535 }
    requires size { total_size (plains (vals values.items)) ≤ 1000000 }
    requires depth { deepest (plains (vals values.items)) < 400 }
    requires value_size { size_of (plain value) ≤ 1000000 }
    requires value_depth { depth_of (plain value) < 400 }
    ensures { IfOk result (λ v. v ≡ made label.now (vals (values.items ++ value ∷ [])) t.now.at) }
{
    values.push(value)?;
    Value::node(alloc, label.copy()?, values, share_origin(&t.at)?)
}

/// The node of these two parts.
pub(crate) fn made_of_two(
    alloc: Global,
    t: &Tagged,
    label: &Label,
    first: Value,
    second: Value,
) -> Result<Value, Memory>
    requires size { size_of (plain first) ≤ 1000000 }
    requires depth { depth_of (plain first) < 400 }
    requires second_size { size_of (plain second) ≤ 1000000 }
    requires second_depth { depth_of (plain second) < 400 }
    ensures { IfOk result (λ v. v ≡ made label.now (vals (first ∷ second ∷ [])) t.now.at) }
{
    let mut parts = Vec::new(alloc);
    parts.push(first)?;
    made_with(alloc, t, label, parts, second)
}
