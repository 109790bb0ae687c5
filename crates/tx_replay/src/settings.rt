// The names and texts of a `with`.
ghost use Rattle.std.specs.Prelude.{◌≡◌, ◌<◌, ◌≤◌, ◌+◌, ◌*◌, ◌∷◌, ◌++◌, [], ℕ, length, IfOk, OnOk, MatchOption};
ghost use Rattle.std.specs.Prelude.{Some, None};
ghost use Rattle.std.specs.Prelude.{slice_get, List};
ghost use Rattle.tx_tree.specs.WideTree.{WideTree, leaf, children_of};
ghost use Rattle.tx_origin.specs.Values.{text};
ghost use Rattle.tx_parts.specs.Openness.{Settings as TextSettings, settings_in};
ghost use Rattle.tx_parts.specs.Composed.{settings_cost};
ghost use Rattle.tx_replay.specs.Descent.{AreSettings, SettingsFit};

use crate::origins::origin_of;
use std::alloc::Global;
use tx_base::Memory;
use tx_origin::{Ip, Value};
use tx_tree::{Path, Text, Tree};

/// The names that a `with` sets to texts, in order, the values of both, and what these cost.
#[derive(Drop)]
pub(crate) struct Settings {
    pub pairs: Vec<(Text, Tree)>,
    pub values: Vec<Value>,
    pub cost: u64,
}

// The value of the text that is the child of this number.
fn text_value(alloc: Global, base: &Ip, i: u32, words: &Text) -> Result<Value, Memory>
    ensures { IfOk result (λ v. v ≡ text words.now (Some (base.now ++ i ∷ []))) }
{
    let at = base.child(alloc, i)?;
    Value::leaf(alloc, words.copy()?, Some(at))
}

// Adds the values of a name and its text, which are the children from number i on, after the others.
fn add_values(
    alloc: Global,
    base: &Ip,
    i: u32,
    name: &Text,
    words: &Text,
    values: &mut Vec<Value>,
) -> Result<(), Memory>
    requires number { i < 65535 }
    ensures { OnOk result (values.new.items ≡ values.old.items
        ++ text name.now (Some (base.now ++ i ∷ [])) ∷ text words.now (Some (base.now ++ (i + 1) ∷ [])) ∷ []) }
{
    values.push(text_value(alloc, base, i, name)?)?;
    values.push(text_value(alloc, base, i + 1, words)?)?;
    Ok(())
}

// Adds the name with its text after the others.
fn add_pair(
    alloc: Global,
    name: &Text,
    words: &Text,
    pairs: &mut Vec<(Text, Tree)>,
) -> Result<(), Memory>
    ensures { OnOk result (pairs.new.items ≡ pairs.old.items ++ (name.now, leaf words.now) ∷ []) }
{
    let tree = Tree::leaf(alloc, words.copy()?)?;
    pairs.push((name.copy()?, tree))?;
    Ok(())
}

impl Settings {
    fn new(alloc: Global) -> Settings
        ensures pairs { result.pairs.items ≡ [] }
        ensures values { result.values.items ≡ [] }
        ensures cost { result.cost ≡ 0 }
    {
        Settings {
            pairs: Vec::new(alloc),
            values: Vec::new(alloc),
            cost: 0,
        }
    }

    // Adds this name and this text, which are the children from number i on, after the others.
    fn add(
        &mut self,
        alloc: Global,
        base: &Ip,
        i: u32,
        name: &Text,
        words: &Text,
    ) -> Result<(), Memory>
        requires number { i < 65535 }
        requires cost { self.old.cost ≤ 1000000 }
        ensures pairs { OnOk result
            (self.new.pairs.items ≡ self.old.pairs.items ++ (name.now, leaf words.now) ∷ []) }
        ensures values { OnOk result (self.new.values.items ≡ self.old.values.items
            ++ text name.now (Some (base.now ++ i ∷ [])) ∷ text words.now (Some (base.now ++ (i + 1) ∷ [])) ∷ []) }
        ensures cost { OnOk result (self.new.cost
            ≡ self.old.cost + ((1 + length name.now) + (1 + length words.now) + (1 + length words.now))) }
    {
        let first = 1 + name.bytes().len() as u64;
        let second = 1 + words.bytes().len() as u64;
        self.cost += first + second + second;
        add_values(alloc, base, i, name, words, &mut self.values)?;
        add_pair(alloc, name, words, &mut self.pairs)
    }
}

/// The text that is the child of this number, or None where that isn't a text.
pub fn text_at(t: &Tree, i: u32) -> Option<&Text>
    ensures { MatchOption result ((words : List ℕ) → slice_get (children_of t.now) i ≡ Some (leaf words) → ⊥)
        (λ words. slice_get (children_of t.now) i ≡ Some (leaf words.now)) }
{
    match t.child(i) {
        None => None,
        Some(kid) => kid.text(),
    }
}

// Whether the names and texts cost no more than this. They are put after those so far.
fn add_all(
    alloc: Global,
    t: &Tree,
    base: &Ip,
    left: u64,
    settings: &mut Settings,
) -> Result<bool, Memory>
    requires left { left ≤ 1000000 }
    requires pairs { settings.old.pairs.items ≡ [] }
    requires values { settings.old.values.items ≡ [] }
    requires cost { settings.old.cost ≡ 0 }
    requires opens { (ps : TextSettings) × (b : WideTree) × (settings_in (children_of t.now) ≡ Some (ps, b)) }
    ensures { (ps : TextSettings) (b : WideTree) → settings_in (children_of t.now) ≡ Some (ps, b) →
        IfOk result (λ went. SettingsFit left base.now ps settings.new went) }
{
    let _size = t.size();
    for i in 0..t.arity() / 2 {
        let Some(name) = text_at(t, 2 * i) else {
            unreachable!()
        };
        let Some(words) = text_at(t, 2 * i + 1) else {
            unreachable!()
        };
        settings.add(alloc, base, 2 * i, name, words)?;
        if settings.cost > left {
            return Ok(false);
        }
    }
    Ok(true)
}

/// The names and texts of a `with`, or None where they cost more than this.
pub(crate) fn settings_of(
    alloc: Global,
    t: &Tree,
    path: &Path,
    left: u64,
) -> Result<Option<Settings>, Memory>
    requires left { left ≤ 1000000 }
    requires opens { (ps : TextSettings) × (b : WideTree) × (settings_in (children_of t.now) ≡ Some (ps, b)) }
    ensures { (ps : TextSettings) (b : WideTree) → settings_in (children_of t.now) ≡ Some (ps, b) →
        IfOk result (λ r. MatchOption r (left < settings_cost ps) (λ s. AreSettings path.now ps s)) }
{
    let base = origin_of(alloc, path)?;
    let mut settings = Settings::new(alloc);
    if add_all(alloc, t, &base, left, &mut settings)? {
        Ok(Some(settings))
    } else {
        Ok(None)
    }
}
