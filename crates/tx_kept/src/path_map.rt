// A map from paths to values.
ghost use Rattle.std.specs.Prelude.{◌≡◌, ℕ, ◌≤◌, ◌<◌, ◌+◌, ◌↔◌, [], length, slice_get, MatchOption, OnErr, OnOk, Some};
ghost use Rattle.std.specs.Option.{IsSome};
ghost use Rattle.std.specs.List.{splice};
ghost use Rattle.tx_tree.specs.WideTree.{WideTree};
ghost use Rattle.tx_mod.specs.Followed.{changed_by_all};
ghost use Rattle.tx_mod.specs.InTurn.{cost_of};
ghost use Rattle.tx_mod.specs.Moves.{rest_behind};
ghost use Rattle.tx_mod.specs.Orders.{IsBefore};
ghost use Rattle.tx_kept.specs.declared.path_map.Entry.{Entry};
ghost use Rattle.tx_kept.specs.Carrying.{carry, trees_before};
ghost use Rattle.tx_kept.specs.Entries.{AllLead, IsAt, IsInOrder, NoneAt, with_value};

use crate::carrying::{moves_of, settle};
use crate::course::trees_before;
use crate::finding::{end_of, number_at, start_of};
use std::alloc::Global;
use std::marker::Model;
use std::mem;
use std::ops::Range;
use std::sync::ledger::Ledger;
use tx_base::{Memory, Steps};
use tx_mod::Mod;
use tx_tree::{Path, Tree};

/// A value at a path of the document.
#[derive(Drop)]
pub struct Entry<X: Drop> {
    pub path: Path,
    pub value: X,
}

/// Values at paths of the document, in the order of the document: a tree comes before those in it, and these come
/// before the next tree. No two have one path.
///
/// Contracts see the list of the entries.
#[derive(Drop)]
pub struct PathMap<X: Drop> {
    entries: Vec<Entry<X>>,
}

impl<X: Drop> Model for PathMap<X> {
    ghost use Rattle.std.specs.Prelude.{List};
    ghost use Rattle.tx_kept.specs.declared.path_map.Entry.{Entry};
    ghost use Rattle.tx_kept.specs.Entries.{IsInOrder};

    ghost Value = { List (Entry X) };

    ghost view = { λ m. m.entries.items };

    ghost invariant = { λ m. IsInOrder m.entries.items };
}

impl<X: Drop> PathMap<X> {
    /// No entries.
    pub fn empty(alloc: Global) -> PathMap<X>
        ensures { result ≡ [] }
    {
        PathMap {
            entries: Vec::new(alloc),
        }
    }

    /// These entries, which are in order.
    pub fn new(entries: Vec<Entry<X>>) -> PathMap<X>
        requires order { IsInOrder entries.items }
        ensures { result ≡ entries.items }
    {
        PathMap { entries }
    }

    /// All entries.
    pub fn entries(&self) -> &[Entry<X>]
        ensures entries { result.now ≡ self.now }
        ensures order { IsInOrder self.now }
    {
        &self.entries
    }

    /// The number of the entry at the path, or None where there is none. Where it is the hint, nothing is searched.
    pub fn find(&self, path: &Path, hint: usize) -> Option<usize>
        ensures { MatchOption result (NoneAt path.now self.now) (λ i. IsAt path.now self.now i) }
    {
        number_at(&self.entries, path, hint)
    }

    /// The numbers of the entries at the path and below: from `start` on, and before `end`.
    pub fn range(&self, path: &Path) -> Range<usize>
        ensures before { (i : ℕ) (x : Entry X) → slice_get self.now i ≡ Some x
            → (i < result.start) ↔ IsBefore x.path path.now }
        ensures below { (i : ℕ) (x : Entry X) → slice_get self.now i ≡ Some x
            → ((result.start ≤ i) × (i < result.end)) ↔ IsSome (rest_behind path.now x.path) }
        ensures start { result.start ≤ result.end }
        ensures end { result.end ≤ length self.now }
    {
        let start = start_of(&self.entries, path);
        let end = end_of(&self.entries, path);
        start..end
    }

    /// Puts another value in the place of the one of this number, which is returned.
    pub fn set(&mut self, number: usize, value: X) -> X
        requires { number < length self.old }
        ensures set { self.new ≡ with_value self.old number value }
        ensures old { with_value self.new number result ≡ self.old }
    {
        mem::replace(&mut self.entries[number].value, value)
    }

    /// Puts entries in the place of those from number `start` up to number `end`. After `Memory` all is as before.
    pub fn replace(
        &mut self,
        start: usize,
        end: usize,
        entries: Vec<Entry<X>>,
    ) -> Result<(), Memory>
        requires start { start ≤ end }
        requires end { end ≤ length self.old }
        requires order { IsInOrder (splice self.old start end entries.items) }
        ensures replaced { OnOk result (self.new ≡ splice self.old start end entries.items) }
        ensures refused { OnErr result (self.new ≡ self.old) }
    {
        self.entries.splice(start..end, entries)?;
        Ok(())
    }

    /// Carries the entries through modifications of the document, which apply in turn to the tree `before`, to which
    /// all paths lead. `trees` are those before each modification. An entry moves to where its path is carried, and one
    /// whose tree doesn't survive goes. After `Memory` all is as before.
    pub fn carry_along(
        &mut self,
        alloc: Global,
        before: &Tree,
        mods: &[Mod],
        trees: &[Tree],
    ) -> Result<(), Memory>
        requires applies { (u : WideTree) × (changed_by_all mods.now before.now ≡ Some u) }
        requires trees { trees.now ≡ trees_before mods.now before.now }
        requires lead { AllLead before.now self.old }
        ensures carried { OnOk result (self.new ≡ carry mods.now before.now self.old) }
        ensures refused { OnErr result (self.new ≡ self.old) }
    {
        let moves = moves_of(alloc, before, mods, trees, &self.entries)?;
        settle(&mut self.entries, moves);
        Ok(())
    }

    /// Carries the entries as `carry_along` does, and applies the modifications for that.
    pub fn carry<L: Ledger>(
        &mut self,
        alloc: Global,
        before: &Tree,
        mods: &[Mod],
        steps: &mut Steps<L>,
    ) -> Result<(), Memory>
        requires applies { (u : WideTree) × (changed_by_all mods.now before.now ≡ Some u) }
        requires lead { AllLead before.now self.old }
        ensures carried { OnOk result (self.new ≡ carry mods.now before.now self.old) }
        ensures refused { OnErr result (self.new ≡ self.old) }
        ensures counted { steps.new ≤ steps.old + cost_of mods.now }
    {
        let trees = trees_before(alloc, before, mods, steps)?;
        self.carry_along(alloc, before, mods, &trees)
    }
}
