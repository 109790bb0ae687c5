// All units with what is cached of them.
ghost use Rattle.std.specs.Prelude.{◌≡◌, ℕ, ◌+◌, ◌≤◌, ◌++◌, take, map, IfOk, OnOk, OnErr, Some, None};
ghost use Rattle.std.specs.Prelude.{[], false, MatchOption, slice_get, IsSome, IfSome, option_and_then};
ghost use Rattle.std.specs.Prelude.{length, List};
ghost use Rattle.std.specs.Option.{unwrap_or, option_map};
ghost use Rattle.std.specs.List.{All, IsDistinct};
ghost use Rattle.std.specs.Str.{bytes_eq};
ghost use Rattle.std.specs.FinMap.{empty};
ghost use Rattle.tx_tree.specs.WideTree.{WideTree};
ghost use Rattle.tx_mod.specs.InTurn.{cost_of};
ghost use Rattle.tx_mod.specs.Followed.{changed_by_all};
ghost use Rattle.tx_exec.specs.Outcomes.{wide_outcome};
ghost use Rattle.tx_walk.specs.Walked.{IsTidy, paths_of};
ghost use Rattle.tx_units.specs.Units.{units_with};
ghost use Rattle.tx_units.specs.declared.kinds.Unit.{Unit as DocUnit};
ghost use Rattle.tx_view_form.specs.Outcomes.{behind, unit_value};
ghost use Rattle.tx_bridge.specs.Moments.{IsPaid};
ghost use Rattle.tx_bridge.specs.Entries.{Entry, units_of, outcome_of};
ghost use Rattle.tx_bridge.specs.MovedParts.{AreMovedParts};
ghost use Rattle.tx_bridge.specs.PartsKept.{KeptParts};
ghost use Rattle.tx_bridge.specs.HeldParts.{AllPartsHold, kept_parts, flags_of_parts};
ghost use Rattle.tx_bridge.specs.Sound.{IsSoundBridge, AllHold, source_by};
ghost use Rattle.tx_bridge.specs.UnitLists.{AreUnits, HasPathIfBody};
ghost use Rattle.tx_bridge.specs.Carrying.{AllStand, StandsNow, AreSameBodies, HaveSameTrees};
ghost use Rattle.tx_bridge.specs.Carrying.{through};
ghost use Rattle.tx_bridge.specs.Slots.{paths_in};
ghost use Rattle.tx_bridge.specs.Courses.{given_with, strays_left};
ghost use Rattle.tx_mod.specs.declared.mods.Mod.{Mod as Change};
ghost use Rattle.tx_bridge.specs.InPlace.{IsOneChanged, NoneChanged, numbers_but};
ghost use Rattle.tx_bridge.specs.Names.{EmptyTraces, EmptyParts};
ghost use Rattle.tx_bridge.specs.Names.{CarryTraces, CarryParts, CarryStrays, CarryWithin, IsCourse, PartMoves};
ghost use Rattle.tx_bridge.specs.Names.{Sources};
ghost use Rattle.tx_bridge.specs.Names.{CarryLayers, StraysBeside};
ghost use Rattle.tx_bridge.specs.Strays.{AreStrays, StandAside, kept_strays};

use crate::arriving::put_moves;
use crate::bridge::{Bridge, Way};
use crate::course::{Course, edit_course};
use crate::giving::give_all;
use crate::in_place::{change_one, one_changed, others_of_changed};
use crate::moments::Moment;
use crate::strays::{Stray, keep_beside};
use std::alloc::Global;
use std::marker::Model;
use std::sync::ledger::Ledger;
use tx_base::{Memory, Steps};
use tx_env::Env;
use tx_exec::Outcome;
use tx_exec_form::{size_law, trace_laws};
use tx_mod::{Mod, carried_law, carried_list_law};
use tx_tree::Tree;
use tx_units::Unit;
use tx_walk::{LayerTrace, Part};

/// All units, each with its cached trace, or nothing.
///
/// At every moment what is cached of a unit supports its tree: it is the trace in every environment that agrees with
/// its looks. This is true of each cached part too, and of each stray. A stray is a cached part that is in no unit
/// since an edit.
#[derive(Drop)]
pub struct Bridges {
    pub(crate) bridges: Vec<Bridge>,
    way: Way,
    // Whether all looks are known to agree with what the cached traces before them set.
    pub(crate) settled: bool,
    pub(crate) strays: Vec<Stray>,
    // What names had after the last unit at the last refresh.
    pub(crate) end: Env,
}

impl Model for Bridges {
    ghost use Rattle.tx_bridge.specs.Bridged.{Bridged, coded_Bridged};
    ghost use Rattle.tx_bridge.specs.Sound.{AreRight, entries_of, stored_parts_in, part_flags_in, layers_in};
    ghost use Rattle.tx_bridge.specs.Sound.{flags_of, sources_by};
    ghost use Rattle.tx_bridge.specs.Strays.{strays_in};

    ghost Value = { Bridged };

    ghost coded = { coded_Bridged };

    ghost view = { λ b. record {
      kept = entries_of b.bridges.items;
      parts = stored_parts_in b.bridges.items;
      part_flags = part_flags_in b.bridges.items;
      layers = layers_in b.bridges.items;
      reached = flags_of b.bridges.items;
      sources = sources_by b.way b.bridges.items;
      strays = strays_in b.strays.items;
      end = b.end.map;
    } };

    ghost invariant = { λ b. AreRight b.settled b.bridges.items b.strays.items };
}

// The units, with nothing cached.
fn bridges_of(alloc: Global, units: Vec<Unit>) -> Result<Vec<Bridge>, Memory>
    ensures { IfOk result (λ v. v.items
        ≡ map (λ u. record {
          unit = u;
          kept = Outcome.Over;
          parts = [];
          layers = [];
          shelled = false;
          reached = false;
          source = None;
        })
        units.items) }
{
    Ok(
        units
            .into_iter()
            .map(|unit| Bridge::new(alloc, unit))
            .collect(alloc)?,
    )
}

// Replaces the units by the new ones. These have what the old ones give through an edit of a buffer, and the parts that
// move to them. The new strays replace the old ones. When memory runs out, the old units and strays are unchanged.
fn give_over(
    alloc: Global,
    bridges: &mut Vec<Bridge>,
    strays: &mut Vec<Stray>,
    units: Vec<Unit>,
    course: Course,
) -> Result<(), Memory>
    requires units { AreUnits units.items }
    requires sound { All IsSoundBridge bridges.old.items }
    requires places { (ms : List Change) × (t : WideTree)
        × (course.places.items ≡ map (through ms t) (paths_in bridges.old.items)) }
    ensures given { OnOk result ((ms : List Change) (t : WideTree)
        → course.places.items ≡ map (through ms t) (paths_in bridges.old.items)
        → bridges.new.items ≡ given_with course.moves.items ms t bridges.old.items units.items) }
    ensures strays { OnOk result (strays.new.items ≡ strays_left course.moves.items (length units.items)) }
    ensures refused { OnErr result (bridges.new ≡ bridges.old) }
    ensures strays_stay { OnErr result (strays.new ≡ strays.old) }
{
    let mut new = bridges_of(alloc, units)?;
    let mut left = Vec::new(alloc);
    put_moves(&mut new, course.moves, &mut left)?;
    give_all(&mut new, &course.places, bridges);
    *bridges = new;
    *strays = left;
    Ok(())
}

// The number that the unit of number i had before the last edit.
fn source_of(way: Way, bridge: &Bridge, i: usize) -> Option<usize>
    ensures { result ≡ source_by way i bridge.now }
{
    match way {
        Way::Listed => bridge.source,
        Way::InPlace(changed) => { if i == changed { None } else { Some(i) } }
    }
}

impl Bridges {
    /// The units, with nothing cached.
    #[tactic(auto, unfolding(crate::specs::Names::EmptyTraces, crate::specs::Names::EmptyParts))]
    pub fn start(alloc: Global, units: Vec<Unit>) -> Result<Bridges, Memory>
        requires units { AreUnits units.items }
        ensures empty { IfOk result (λ b. b.kept ≡ EmptyTraces units.items) }
        ensures parts { IfOk result (λ b. b.parts ≡ EmptyParts units.items) }
        ensures units { IfOk result (λ b. units_of b.kept ≡ units.items) }
        ensures sources { IfOk result (λ b. b.sources ≡ map (λ u. None) units.items) }
        ensures strays { IfOk result (λ b. b.strays ≡ []) }
        ensures end { IfOk result (λ b. b.end ≡ empty) }
    {
        Ok(Bridges {
            bridges: bridges_of(alloc, units)?,
            way: Way::Listed,
            settled: false,
            strays: Vec::new(alloc),
            end: Env::new(alloc),
        })
    }

    /// Replaces the units by the new ones after an edit of a buffer. A new unit that is an old one takes what was
    /// cached of it. A paragraph of the body is the old one from whose path the modifications lead to its path, or,
    /// where another buffer than 0 was edited, the one with its path. Another unit is the old one of its number, where
    /// kind and tree are the same.
    ///
    /// The cached parts of an old unit that is none of the new ones move to the new units in which they are then, and
    /// so do strays. Those that are in none are the strays afterwards. Where another buffer than 0 was edited, strays
    /// are unchanged, but one that would be in a new unit is dropped.
    ///
    /// `before` is the tree of the buffer before the edit. Afterwards `source` says which old unit a new one is, and no
    /// two are the same one. A new unit has the tree of the old one that it is, and a path where that has one. When
    /// memory runs out, all is as before.
    pub fn carry<L: Ledger>(
        &mut self,
        alloc: Global,
        buffer: u32,
        before: &Tree,
        mods: &[Mod],
        units: Vec<Unit>,
        steps: &mut Steps<L>,
    ) -> Result<(), Memory>
        requires applies { (u : WideTree) × (changed_by_all mods.now before.now ≡ Some u) }
        requires units { AreUnits units.items }
        requires old { buffer ≡ 0 → AllStand before.now (units_of self.old.kept) }
        requires new { buffer ≡ 0 → (u : WideTree) → changed_by_all mods.now before.now ≡ Some u
            → AllStand u units.items }
        requires same { (buffer ≡ 0 → ⊥) → AreSameBodies (units_of self.old.kept) units.items }
        requires strays { buffer ≡ 0 → StandAside before.now self.old.strays }
        ensures carried { OnOk result (self.new.kept ≡ CarryTraces buffer mods.now before.now self.old.kept
            units.items) }
        ensures parts { OnOk result (self.new.parts ≡ CarryParts self.old.parts
            (PartMoves buffer mods.now before.now (units_of self.old.kept) self.old.parts
            (kept_strays self.old.strays) units.items)
            self.new.sources) }
        ensures strays { OnOk result (kept_strays self.new.strays ≡ CarryStrays
            (PartMoves buffer mods.now before.now (units_of self.old.kept) self.old.parts
            (kept_strays self.old.strays) units.items)
            (length units.items)) }
        ensures stand { OnOk result (buffer ≡ 0 → (u : WideTree) → changed_by_all mods.now before.now ≡ Some u
            → StandAside u self.new.strays) }
        ensures stay { OnOk result ((buffer ≡ 0 → ⊥) → (u : WideTree) → StandAside u self.old.strays
            → StandAside u self.new.strays) }
        ensures layers { OnOk result (self.new.layers ≡ CarryLayers self.old.layers self.new.sources) }
        ensures sources { OnOk result
            (self.new.sources ≡ Sources buffer mods.now before.now (units_of self.old.kept) units.items) }
        ensures once { OnOk result ((i j k : ℕ) → slice_get self.new.sources j ≡ Some (Some i)
            → slice_get self.new.sources k ≡ Some (Some i) → j ≡ k) }
        ensures same_trees { OnOk result
            (HaveSameTrees (units_of self.old.kept) units.items self.new.sources) }
        ensures units { OnOk result (units_of self.new.kept ≡ units.items) }
        ensures end { self.new.end ≡ self.old.end }
        ensures counted { steps.new ≤ steps.old + cost_of mods.now }
        ensures refused { OnErr result (self.new ≡ self.old) }
    {
        let course = self.course(alloc, buffer, before, mods, &units, steps)?;
        self.carry_along(alloc, buffer, before, mods, units, course)
    }

    /// Where the units are after an edit of a buffer, after which the units are these. For the parts of old units that
    /// are none of these, and for strays, it says in which of these they are. `carry_along` takes it. Nothing changes.
    pub fn course<L: Ledger>(
        &self,
        alloc: Global,
        buffer: u32,
        before: &Tree,
        mods: &[Mod],
        units: &[Unit],
        steps: &mut Steps<L>,
    ) -> Result<Course, Memory>
        requires applies { (u : WideTree) × (changed_by_all mods.now before.now ≡ Some u) }
        requires units { AreUnits units.now }
        requires old { buffer ≡ 0 → AllStand before.now (units_of self.now.kept) }
        requires strays { buffer ≡ 0 → StandAside before.now self.now.strays }
        ensures course { IfOk result (λ c. IsCourse buffer mods.now before.now (units_of self.now.kept) self.now.parts
            self.now.strays units.now c) }
        ensures counted { steps.new ≤ steps.old + cost_of mods.now }
    {
        edit_course(
            alloc,
            buffer,
            before,
            mods,
            &self.bridges,
            &self.strays,
            units,
            steps,
        )
    }

    /// Does what `carry` does, by the course through the edit that `course` returns. It takes no step, and doesn't
    /// follow the modifications again: only its contract speaks of them.
    pub fn carry_along(
        &mut self,
        alloc: Global,
        buffer: u32,
        before: &Tree,
        mods: &[Mod],
        units: Vec<Unit>,
        course: Course,
    ) -> Result<(), Memory>
        requires applies { (u : WideTree) × (changed_by_all mods.now before.now ≡ Some u) }
        requires units { AreUnits units.items }
        requires old { buffer ≡ 0 → AllStand before.now (units_of self.old.kept) }
        requires new { buffer ≡ 0 → (u : WideTree) → changed_by_all mods.now before.now ≡ Some u
            → AllStand u units.items }
        requires same { (buffer ≡ 0 → ⊥) → AreSameBodies (units_of self.old.kept) units.items }
        requires strays { buffer ≡ 0 → StandAside before.now self.old.strays }
        requires course { IsCourse buffer mods.now before.now (units_of self.old.kept) self.old.parts self.old.strays
            units.items course }
        ensures carried { OnOk result (self.new.kept ≡ CarryTraces buffer mods.now before.now self.old.kept
            units.items) }
        ensures parts { OnOk result (self.new.parts ≡ CarryParts self.old.parts
            (PartMoves buffer mods.now before.now (units_of self.old.kept) self.old.parts
            (kept_strays self.old.strays) units.items)
            self.new.sources) }
        ensures strays { OnOk result (kept_strays self.new.strays ≡ CarryStrays
            (PartMoves buffer mods.now before.now (units_of self.old.kept) self.old.parts
            (kept_strays self.old.strays) units.items)
            (length units.items)) }
        ensures stand { OnOk result (buffer ≡ 0 → (u : WideTree) → changed_by_all mods.now before.now ≡ Some u
            → StandAside u self.new.strays) }
        ensures stay { OnOk result ((buffer ≡ 0 → ⊥) → (u : WideTree) → StandAside u self.old.strays
            → StandAside u self.new.strays) }
        ensures layers { OnOk result (self.new.layers ≡ CarryLayers self.old.layers self.new.sources) }
        ensures sources { OnOk result
            (self.new.sources ≡ Sources buffer mods.now before.now (units_of self.old.kept) units.items) }
        ensures once { OnOk result ((i j k : ℕ) → slice_get self.new.sources j ≡ Some (Some i)
            → slice_get self.new.sources k ≡ Some (Some i) → j ≡ k) }
        ensures same_trees { OnOk result
            (HaveSameTrees (units_of self.old.kept) units.items self.new.sources) }
        ensures units { OnOk result (units_of self.new.kept ≡ units.items) }
        ensures end { self.new.end ≡ self.old.end }
        ensures refused { OnErr result (self.new ≡ self.old) }
    {
        carried_list_law();
        carried_law();
        give_over(alloc, &mut self.bridges, &mut self.strays, units, course)?;
        self.way = Way::Listed;
        self.settled = false;
        Ok(())
    }

    /// The number of the one unit inside whose paragraph all modifications are, and which they leave nowhere, or None
    /// where there is none. Where its paragraph alone changes, `carry_in_place` does what `carry` does, and keeps its
    /// layers besides.
    pub fn one_changed(&self, buffer: u32, mods: &[Mod]) -> Option<usize>
        ensures { MatchOption result (NoneChanged buffer mods.now (units_of self.now.kept))
            (λ i. IsOneChanged i buffer mods.now (units_of self.now.kept)) }
    {
        one_changed(buffer, &self.bridges, mods)
    }

    /// The parts of the unit of number `changed`, which `one_changed` returns, that aren't found to keep their places.
    /// They are in order, with their numbers: each as it is in the unit afterwards, or None where it isn't in the unit
    /// any more. Each other part keeps its path.
    pub fn moved_parts<L: Ledger>(
        &self,
        alloc: Global,
        before: &Tree,
        mods: &[Mod],
        changed: usize,
        steps: &mut Steps<L>,
    ) -> Result<Vec<(usize, Option<Part>)>, Memory>
        requires applies { (u : WideTree) × (changed_by_all mods.now before.now ≡ Some u) }
        requires changed { IsOneChanged changed 0 mods.now (units_of self.now.kept) }
        requires old { AllStand before.now (units_of self.now.kept) }
        ensures moved { IfOk result (λ os. (u : DocUnit) (ks : KeptParts)
            → slice_get (units_of self.now.kept) changed ≡ Some u → slice_get self.now.parts changed ≡ Some ks
            → AreMovedParts mods.now before.now u ks os.items) }
        ensures counted { steps.new ≤ steps.old + cost_of mods.now }
    {
        carried_list_law();
        others_of_changed(alloc, before, mods, &self.bridges, changed, steps)
    }

    /// Does what `carry` does where the unit of number `changed`, which `one_changed` returns, has this tree
    /// afterwards, and each other one is unchanged. There is one difference: what is cached of the layers of that unit
    /// is not dropped. `moved` are the parts that `moved_parts` returns. Strays whose trees hold that unit's are
    /// dropped, and the others are unchanged. It goes over no lists but that of that unit's parts and that of strays,
    /// and takes no memory.
    pub fn carry_in_place(
        &mut self,
        before: &Tree,
        mods: &[Mod],
        tree: Tree,
        changed: usize,
        moved: Vec<(usize, Option<Part>)>,
    )
        requires applies { (u : WideTree) × (changed_by_all mods.now before.now ≡ Some u) }
        requires units { AreUnits (units_of self.old.kept) }
        requires changed { IsOneChanged changed 0 mods.now (units_of self.old.kept) }
        requires old { AllStand before.now (units_of self.old.kept) }
        requires new { (u : WideTree) → changed_by_all mods.now before.now ≡ Some u
            → StandsNow changed tree u (units_of self.old.kept) }
        requires moved { (u : DocUnit) (ks : KeptParts) → slice_get (units_of self.old.kept) changed ≡ Some u
            → slice_get self.old.parts changed ≡ Some ks → AreMovedParts mods.now before.now u ks moved.items }
        requires strays { StandAside before.now self.old.strays }
        ensures carried { self.new.kept ≡ CarryTraces 0 mods.now before.now self.old.kept
            (units_with changed tree (units_of self.old.kept)) }
        ensures parts { self.new.parts ≡ CarryParts self.old.parts
            (PartMoves 0 mods.now before.now (units_of self.old.kept) self.old.parts
            (kept_strays self.old.strays) (units_with changed tree (units_of self.old.kept)))
            self.new.sources }
        ensures within { self.new.parts
            ≡ CarryWithin changed mods.now before.now (units_of self.old.kept) self.old.parts }
        ensures sources { self.new.sources ≡ Sources 0 mods.now before.now (units_of self.old.kept)
            (units_with changed tree (units_of self.old.kept)) }
        ensures once { (i j k : ℕ) → slice_get self.new.sources j ≡ Some (Some i)
            → slice_get self.new.sources k ≡ Some (Some i) → j ≡ k }
        ensures layers { self.new.layers ≡ self.old.layers }
        ensures end { self.new.end ≡ self.old.end }
        ensures numbers { self.new.sources ≡ numbers_but changed 0 (length (units_of self.old.kept)) }
        ensures units { units_of self.new.kept ≡ units_with changed tree (units_of self.old.kept) }
        ensures strays { kept_strays self.new.strays ≡ CarryStrays
            (PartMoves 0 mods.now before.now (units_of self.old.kept) self.old.parts
            (kept_strays self.old.strays) (units_with changed tree (units_of self.old.kept)))
            (length (units_with changed tree (units_of self.old.kept))) }
        ensures beside { self.new.strays ≡ StraysBeside changed (units_of self.old.kept) self.old.strays }
        ensures stand { (u : WideTree) → changed_by_all mods.now before.now ≡ Some u
            → StandAside u self.new.strays }
    {
        carried_list_law();
        carried_law();
        keep_beside(&mut self.strays, &self.bridges[changed].unit);
        let silent = change_one(&mut self.bridges, tree, moved, changed);
        self.way = Way::InPlace(changed);
        self.settled = self.settled && silent;
    }

    /// What is cached of the unit. After a refresh it is the unit's outcome. None past the last unit.
    pub fn outcome(&self, i: u32) -> Option<&Outcome>
        ensures found { MatchOption result (slice_get self.now.kept i ≡ None)
            (λ o. option_map (λ e. e.trace) (slice_get self.now.kept i) ≡ Some (wide_outcome o.now)) }
        ensures holds { AllHold self.now.kept }
        ensures parts_hold { AllPartsHold self.now.kept self.now.parts }
        ensures strays_hold { AreStrays (units_of self.now.kept) self.now.strays }
    {
        match self.bridges.get(i as usize) {
            None => None,
            Some(bridge) => Some(&bridge.kept),
        }
    }

    /// What is cached of the parts of the unit, in the order of the document, each with its path from the unit's tree.
    /// None past the last unit. After a refresh a paragraph of the body has some, unless it runs out of steps or
    /// levels. Where its tree is neither a `document` with a child nor a `with` of names, texts and a last child, the
    /// one part is the paragraph itself, with the empty path. Another unit has none. After an edit, a unit that runs
    /// out may have some until the next refresh.
    ///
    /// After a refresh a part's `renewed` says whether nothing that fits was cached at its path when that began.
    pub fn parts(&self, i: u32) -> Option<&[Part]>
        ensures found { MatchOption result (slice_get self.now.kept i ≡ None)
            (λ ps. slice_get self.now.parts i ≡ Some (kept_parts ps.now)) }
        ensures renewed { IfSome result (λ ps. slice_get self.now.part_flags i ≡ Some (flags_of_parts ps.now)) }
        ensures tidy { IfSome result (λ ps. All IsTidy ps.now) }
        ensures distinct { IfSome result (λ ps. IsDistinct bytes_eq (paths_of ps.now)) }
    {
        match self.bridges.get(i as usize) {
            None => None,
            Some(bridge) => Some(bridge.parts.all()),
        }
    }

    /// What is cached of the trees of the unit's layers, and None past the last unit. Each trace is its tree's wherever
    /// the names that it looked up have the same values.
    pub fn layers(&self, i: u32) -> Option<&[LayerTrace]>
        ensures { MatchOption result (slice_get self.now.kept i ≡ None)
            (λ ls. slice_get self.now.layers i ≡ Some ls.now) }
    {
        match self.bridges.get(i as usize) {
            None => None,
            Some(bridge) => Some(bridge.layers.all()),
        }
    }

    /// The unit of this number, or None past the last one. It has a path where it is a paragraph of the body, and then
    /// the root is its origin; another unit has neither.
    pub fn unit(&self, i: u32) -> Option<&Unit>
        ensures found { MatchOption result (slice_get self.now.kept i ≡ None)
            (λ u. option_map (λ e. e.unit) (slice_get self.now.kept i) ≡ Some u.now) }
        ensures placed { IfSome result (λ u. HasPathIfBody u.now) }
    {
        match self.bridges.get(i as usize) {
            None => None,
            Some(bridge) => Some(&bridge.unit),
        }
    }

    /// After a refresh, whether the unit was reached when that began: what was cached of it couldn't be used, or its
    /// parts weren't these, whatever is spare. After an edit, no clause says what it is. Past the last unit it is
    /// false.
    pub fn reached(&self, i: u32) -> bool
        ensures { result ≡ unwrap_or (slice_get self.now.reached i) false }
    {
        match self.bridges.get(i as usize) {
            None => false,
            Some(bridge) => bridge.reached,
        }
    }

    /// The number that the unit of this number had before the last edit, or None where it is none of those before, or
    /// there was no edit. Past the last unit it is None.
    pub fn source(&self, i: u32) -> Option<usize>
        ensures { result ≡ option_and_then (λ s. s) (slice_get self.now.sources i) }
    {
        match self.bridges.get(i as usize) {
            None => None,
            Some(bridge) => source_of(self.way, bridge, i as usize),
        }
    }

    /// Takes the moment before a unit to the moment after it, by what is cached of the unit, which is its outcome.
    pub fn pass(&self, i: u32, moment: &mut Moment) -> Result<(), Memory>
        requires there { IsSome (slice_get self.now.kept i) }
        requires fresh { (e : Entry) → slice_get self.now.kept i ≡ Some e → e.trace ≡ outcome_of moment.old e.unit }
        ensures behind { OnOk result ((e : Entry) → slice_get self.now.kept i ≡ Some e
            → moment.new ≡ behind moment.old e.trace) }
        ensures paid { OnOk result ((e : Entry) → slice_get self.now.kept i ≡ Some e
            → IsPaid moment.old moment.new (unit_value e.trace)) }
        ensures err { OnErr result (moment.new ≡ moment.old) }
    {
        size_law();
        trace_laws();
        match self.bridges.get(i as usize) {
            None => unreachable!(),
            Some(bridge) => moment.go_behind(&bridge.kept),
        }
    }

    /// What names have after all units, as the last refresh left it. Before the first one no name has anything. An edit
    /// leaves it as it is.
    pub fn end(&self) -> &Env
        ensures { result.now.map ≡ self.now.end }
    {
        &self.end
    }
}
