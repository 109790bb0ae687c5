// What is shown of units, and of strays, which are parts that are in no unit, is carried through an edit.
ghost use Rattle.std.specs.Prelude.{◌≡◌, ℕ, [], ◌+◌, ◌≤◌, ◌<◌, ◌^◌, List, length, slice_get, if◌then◌else◌, IfOk};
ghost use Rattle.std.specs.Prelude.{OnOk, OnErr, Some, None, IfSome, IsTrue, MatchOption, true, false, All, option_map};
ghost use Rattle.tx_tree.specs.WideTree.{WideTree};
ghost use Rattle.tx_mod.specs.Followed.{changed_by_all};
ghost use Rattle.tx_mod.specs.InTurn.{cost_of};
ghost use Rattle.tx_doc.specs.Buffers.{document_of, tree_of, with_tree};
ghost use Rattle.tx_doc.specs.declared.buffer.Buffer.{Buffer as Named};
ghost use Rattle.tx_units.specs.Units.{units, made};
ghost use Rattle.tx_bridge.specs.Entries.{Entry, units_of};
ghost use Rattle.tx_bridge.specs.InPlace.{IsOneChanged};
ghost use Rattle.tx_bridge.specs.MovedParts.{moves_of};
ghost use Rattle.tx_bridge.specs.Names.{CarryTraces, CarryParts, CarryStrays, PartMoves, Sources};
ghost use Rattle.tx_bridge.specs.Strays.{StandAside, kept_strays};
ghost use Rattle.tx_bridge.specs.Settled.{IsSilent};
ghost use Rattle.tx_bridge.specs.UnitLists.{AreUnits};
ghost use Rattle.tx_bridge.specs.Carrying.{AllStand, AreSameBodies, HaveSameTrees};
ghost use Rattle.tx_layout.specs.Paging.{Unmarked};
ghost use Rattle.tx_unit_layout.specs.Views.{unit_view};
ghost use Rattle.tx_view.specs.Exchanged.{IsNow, IsExchanged, stays_alone, exchanged_in, parts_after, strays_after};
ghost use Rattle.tx_view.specs.Laid.{IsBlank, AreBlank, HaveArrived, placed_in, placed_beside, going, taking_shown};
ghost use Rattle.tx_view.specs.Laid.{source_shown, moved};
ghost use Rattle.tx_view.specs.Laid.{left_with, StayBut, IsLeft, IsWay, IsTarget, IsFew, HasGone, SetNoName};
ghost use Rattle.tx_view.specs.Laid.{WasShown, IsFormer, AreLaid, LaidGoes};

use crate::arriving::put_either;
use crate::base::units_anew;
use std::alloc::Global;
use std::mem;
use std::sync::ledger::Ledger;
use tx_base::{Memory, Steps};
use tx_bridge::{Bridges, in_place_law, is_silent, unit_list_laws};
use tx_doc::{Buffer, share_buffers};
use tx_items::Attrs;
use tx_mod::Mod;
use tx_part_layout::LineList;
use tx_tree::{Path, Tree};
use tx_unit_layout::{LaidParts, Shown};
use tx_units::{Unit, inside_law, leaves_others, unit_count_law};
use tx_walk::Part;

// The buffers with this tree in place of that of one of them.
fn with_tree(
    alloc: Global,
    buffers: &[Buffer],
    buffer: u32,
    tree: &Tree,
) -> Result<Vec<Buffer>, Memory>
    requires { buffer < length buffers.now }
    ensures { IfOk result (λ bs. bs.items ≡ with_tree buffers.now buffer tree.now) }
{
    let mut all = share_buffers(alloc, buffers)?;
    all[buffer as usize].tree = tree.share()?;
    Ok(all)
}

// The unit without a layout.
fn blank(alloc: Global, unit: &Unit) -> Result<Shown, Memory>
    ensures { IfOk result (λ x. IsBlank unit.now.path [] x) }
{
    Ok(Shown {
        path: unit.copy_path(alloc)?,
        laid: None,
        errors: Vec::new(alloc),
        paragraphs: Vec::new(alloc),
        lines: LineList::none(alloc),
        parts: LaidParts::none(alloc),
    })
}

/// The units without a layout.
pub(crate) fn blanks(alloc: Global, units: &[Unit]) -> Result<Vec<Shown>, Memory>
    ensures { IfOk result (λ all. AreBlank units.now all.items) }
{
    let mut all = Vec::with_capacity(alloc, units.len())?;
    for unit in units {
        let own = blank(alloc, unit)?;
        all.push(own)?;
    }
    Ok(all)
}

// Takes what is shown of the other unit, but for its path.
fn take(shown: &mut Shown, other: &mut Shown)
    ensures { shown.new ≡ taking_shown shown.old (Some other.old) }
{
    mem::swap(&mut shown.laid, &mut other.laid);
    mem::swap(&mut shown.errors, &mut other.errors);
    mem::swap(&mut shown.paragraphs, &mut other.paragraphs);
    mem::swap(&mut shown.lines, &mut other.lines);
    mem::swap(&mut shown.parts, &mut other.parts);
}

// Takes what is shown of the old unit that this one is, if there is one.
fn take_from(shown: &mut Shown, source: Option<usize>, old: &mut [Shown])
    ensures shown { shown.new ≡ taking_shown shown.old (source_shown old.old source) }
    ensures others { (k : ℕ) → (source ≡ Some k → ⊥) → slice_get old.new k ≡ slice_get old.old k }
{
    if let Some(i) = source {
        if i < old.len() {
            take(shown, &mut old[i]);
        }
    }
}

// Gives what is shown of the old units to the new ones that they are. It takes no memory.
fn move_all(new: &mut [Shown], bridges: &Bridges, old: &mut [Shown])
    requires few { length new.old < 2 ^ 32 }
    requires once { (i j k : ℕ) → slice_get bridges.now.sources j ≡ Some (Some i)
        → slice_get bridges.now.sources k ≡ Some (Some i) → j ≡ k }
    ensures { new.new ≡ moved bridges.now.sources old.old new.old }
{
    for j in 0..new.len() {
        let from = bridges.source(j as u32);
        take_from(&mut new[j], from, old);
    }
}

// Gives what is shown of the old units to the new ones, where the old ones are the units that are shown, or else the
// hidden ones.
fn move_either(
    new: &mut [Shown],
    bridges: &Bridges,
    fresh: bool,
    shown: &mut [Shown],
    hidden: &mut [Shown],
)
    requires few { length new.old < 2 ^ 32 }
    requires once { (i j k : ℕ) → slice_get bridges.now.sources j ≡ Some (Some i)
        → slice_get bridges.now.sources k ≡ Some (Some i) → j ≡ k }
    ensures { new.new ≡ moved bridges.now.sources (if fresh then shown.old else hidden.old) new.old }
{
    if fresh {
        move_all(new, bridges, shown);
    } else {
        move_all(new, bridges, hidden);
    }
}

/// The one unit that has changed since the view was fresh, where its cached trace set no name: its number, the
/// attributes for which it was laid out, and whether none of its lines was the last of a page. False says nothing.
#[derive(Drop)]
pub(crate) struct Former {
    pub(crate) unit: usize,
    pub(crate) attrs: Attrs,
    pub(crate) unmarked: bool,
}

// Drops the layout of the unit, and moves the lines of its parts to these places. Returns for which attributes it was
// laid out, and whether no line was the last of its page.
fn reset(shown: &mut Shown, places: Vec<(usize, Option<Path>)>) -> (Option<Attrs>, bool)
    ensures shown { shown.new ≡ left_with places.items shown.old }
    ensures attrs { result.0 ≡ shown.old.laid }
    ensures unmarked { result.1 ≡ true → All Unmarked (unit_view shown.old).lines }
{
    let unmarked = shown.is_unmarked();
    shown.parts.put(places);
    (mem::replace(&mut shown.laid, None), unmarked)
}

// Drops the layout of the unit of this number, and moves the lines of its parts to these places.
fn reset_at(all: &mut [Shown], unit: usize, places: Vec<(usize, Option<Path>)>) -> Option<Former>
    ensures stay { StayBut places.items unit 0 all.old all.new }
    ensures former { IfSome result (λ f. WasShown all.old unit f) }
{
    if unit < all.len() {
        let (laid, unmarked) = reset(&mut all[unit], places);
        let attrs = laid?;
        return Some(Former {
            unit,
            attrs,
            unmarked,
        });
    }
    None
}

// Carries what is shown of all units unchanged, or else what is hidden, but drops the layout of this one.
fn move_in_place(
    unit: usize,
    places: Vec<(usize, Option<Path>)>,
    fresh: bool,
    shown: &mut Vec<Shown>,
    hidden: &mut Vec<Shown>,
) -> Option<Former>
    ensures stay { StayBut places.items unit 0 (if fresh then shown.old.items else hidden.old.items)
        hidden.new.items }
    ensures former { IfSome result
        (λ f. WasShown (if fresh then shown.old.items else hidden.old.items) unit f) }
{
    if fresh {
        mem::swap(shown, hidden);
    }
    reset_at(hidden, unit, places)
}

/// Where what is shown of units goes through an edit. It is unchanged in place but for one unit, or it moves to these
/// units, which have no layout. Of that one unit it is said whether its cached trace is known to set no name, and where
/// its parts are then, as `LaidParts::put` takes them.
#[derive(Drop)]
pub(crate) enum Target {
    InPlace(usize, bool, Vec<(usize, Option<Path>)>),
    Onto(Vec<Shown>),
}

// The unit that has changed, if the view was fresh and the unit set no name.
fn former_of(silent: bool, fresh: bool, former: Option<Former>) -> Option<Former>
    ensures { IfSome result (λ f. (silent ≡ true) × (fresh ≡ true) × (former ≡ Some f)) }
{
    if !silent {
        return None;
    }
    if !fresh {
        return None;
    }
    former
}

// What is shown moves to these, or else what is hidden, and is hidden then.
fn move_onto(
    blanks: Vec<Shown>,
    bridges: &Bridges,
    fresh: bool,
    shown: &mut Vec<Shown>,
    hidden: &mut Vec<Shown>,
)
    requires few { length blanks.items < 2 ^ 32 }
    requires once { (i j k : ℕ) → slice_get bridges.now.sources j ≡ Some (Some i)
        → slice_get bridges.now.sources k ≡ Some (Some i) → j ≡ k }
    ensures { hidden.new.items
        ≡ moved bridges.now.sources (if fresh then shown.old.items else hidden.old.items) blanks.items }
{
    let mut new = blanks;
    move_either(&mut new, bridges, fresh, shown, hidden);
    *hidden = new;
}

/// What is shown of the units, or else what is hidden, is carried with them, and is hidden then. It takes no memory.
/// Returns which one has changed alone since the view was fresh, if that is known.
pub(crate) fn move_shown(
    target: Target,
    bridges: &Bridges,
    fresh: bool,
    shown: &mut Vec<Shown>,
    hidden: &mut Vec<Shown>,
) -> Option<Former>
    requires few { IsFew target }
    requires once { (i j k : ℕ) → slice_get bridges.now.sources j ≡ Some (Some i)
        → slice_get bridges.now.sources k ≡ Some (Some i) → j ≡ k }
    ensures moved { HasGone target bridges.now.sources (if fresh then shown.old.items else hidden.old.items)
        hidden.new.items }
    ensures former { IfSome result
        (λ f. IsFormer target fresh (if fresh then shown.old.items else hidden.old.items) f) }
{
    match target {
        Target::InPlace(unit, silent, places) => {
            let former = move_in_place(unit, places, fresh, shown, hidden);
            former_of(silent, fresh, former)
        }
        Target::Onto(blanks) => {
            move_onto(blanks, bridges, fresh, shown, hidden);
            None
        }
    }
}

// The tree that is now where the unit's paragraph was, if it is found to leave all other units.
fn paragraph_now<'a>(unit: &Unit, tree: &'a Tree) -> Option<&'a Tree>
    ensures { MatchOption result (stays_alone tree.now unit.now ≡ false)
        (λ x. IsNow unit.now tree.now x.now × (stays_alone tree.now unit.now ≡ true)) }
{
    let path = unit.path.as_ref()?;
    let paragraph = tree.at(path)?;
    if leaves_others(path, &unit.tagged.tree, paragraph) {
        Some(paragraph)
    } else {
        None
    }
}

// The number of the unit inside whose paragraph all modifications are, and the paragraph afterwards, if it is found to
// leave all other units.
fn exchanged(
    bridges: &Bridges,
    buffer: u32,
    mods: &[Mod],
    tree: &Tree,
) -> Result<Option<(usize, Tree)>, Memory>
    requires few { length (units_of bridges.now.kept) < 2 ^ 32 }
    requires units { AreUnits (units_of bridges.now.kept) }
    ensures { IfOk result (λ o. MatchOption o
        (exchanged_in buffer mods.now tree.now (units_of bridges.now.kept) ≡ None)
        (λ p. IsExchanged p.0 buffer mods.now tree.now p.1 (units_of bridges.now.kept)
        × (exchanged_in buffer mods.now tree.now (units_of bridges.now.kept) ≡ Some p.0))) }
{
    unit_list_laws();
    let Some(changed) = bridges.one_changed(buffer, mods) else {
        return Ok(None);
    };
    let Some(unit) = bridges.unit(changed as u32) else {
        unreachable!();
    };
    match paragraph_now(unit, tree) {
        None => Ok(None),
        Some(paragraph) => Ok(Some((changed, paragraph.share()?))),
    }
}

// Carries what is cached of the old units to those of the buffers after the edit. The new units have no lines but those
// of parts of other old units, which are carried with these. The units of the base style are shared.
fn carried_anew<L: Ledger>(
    alloc: Global,
    bridges: &mut Bridges,
    fresh: bool,
    shown: &[Shown],
    hidden: &[Shown],
    strays: &mut LaidParts,
    after: &[Buffer],
    buffer: u32,
    before: &Tree,
    mods: &[Mod],
    steps: &mut Steps<L>,
) -> Result<Vec<Shown>, Memory>
    requires some { 1 ≤ length after.now }
    requires few { length after.now ≤ 64 }
    requires applies { (u : WideTree) × (changed_by_all mods.now before.now ≡ Some u) }
    requires of_buffers { (bs : List Named) × (units_of bridges.old.kept ≡ units bs) }
    requires old { buffer ≡ 0 → AllStand before.now (units_of bridges.old.kept) }
    requires new { buffer ≡ 0 → (u : WideTree) → changed_by_all mods.now before.now ≡ Some u
        → AllStand u (units after.now) }
    requires same { (buffer ≡ 0 → ⊥) → AreSameBodies (units_of bridges.old.kept) (units after.now) }
    requires aside { buffer ≡ 0 → StandAside before.now bridges.old.strays }
    ensures arrived { IfOk result (λ new. HaveArrived (placed_in (if fresh then shown.now else hidden.now) strays.old)
        (going (placed_in (if fresh then shown.now else hidden.now) strays.old) (PartMoves buffer mods.now before.now
        (units_of bridges.old.kept) bridges.old.parts (kept_strays bridges.old.strays) (units after.now)))
        (units after.now) new.items strays.new) }
    ensures few { IfOk result (λ new. length new.items < 2 ^ 32) }
    ensures carried { OnOk result
        (bridges.new.kept ≡ CarryTraces buffer mods.now before.now bridges.old.kept (units after.now)) }
    ensures parts { OnOk result (bridges.new.parts ≡ CarryParts bridges.old.parts
        (PartMoves buffer mods.now before.now (units_of bridges.old.kept) bridges.old.parts
        (kept_strays bridges.old.strays) (units after.now)) bridges.new.sources) }
    ensures strays { OnOk result (kept_strays bridges.new.strays ≡ CarryStrays
        (PartMoves buffer mods.now before.now (units_of bridges.old.kept) bridges.old.parts
        (kept_strays bridges.old.strays) (units after.now)) (length (units after.now))) }
    ensures stand { OnOk result (buffer ≡ 0 → (u : WideTree) → changed_by_all mods.now before.now ≡ Some u
        → StandAside u bridges.new.strays) }
    ensures stay { OnOk result ((buffer ≡ 0 → ⊥) → (u : WideTree) → StandAside u bridges.old.strays
        → StandAside u bridges.new.strays) }
    ensures sources { OnOk result
        (bridges.new.sources ≡ Sources buffer mods.now before.now (units_of bridges.old.kept) (units after.now)) }
    ensures once { OnOk result ((i j k : ℕ) → slice_get bridges.new.sources j ≡ Some (Some i)
        → slice_get bridges.new.sources k ≡ Some (Some i) → j ≡ k) }
    ensures units { OnOk result (units_of bridges.new.kept ≡ units after.now) }
    ensures same_trees { OnOk result
        (HaveSameTrees (units_of bridges.old.kept) (units after.now) bridges.new.sources) }
    ensures counted { steps.new ≤ steps.old + (cost_of mods.now + made after.now) }
    ensures refused { OnErr result (bridges.new ≡ bridges.old) }
    ensures still { OnErr result (strays.new ≡ strays.old) }
{
    unit_list_laws();
    unit_count_law(after);
    let made = units_anew(alloc, bridges, after, steps)?;
    let mut new = blanks(alloc, &made)?;
    let mut new_strays = LaidParts::none(alloc);
    let course = bridges.course(alloc, buffer, before, mods, &made, steps)?;
    put_either(
        alloc,
        fresh,
        shown,
        hidden,
        strays.all(),
        &course.moves,
        &mut new,
        &mut new_strays,
    )?;
    bridges.carry_along(alloc, buffer, before, mods, made, course)?;
    *strays = new_strays;
    Ok(new)
}

// Whether the cached trace of the unit of this number sets no name. False says nothing.
fn is_silent_at(bridges: &Bridges, unit: usize) -> bool
    requires { unit < 2 ^ 32 }
    ensures { IsTrue result → (e : Entry) → slice_get bridges.now.kept unit ≡ Some e → IsSilent e.trace }
{
    match bridges.outcome(unit as u32) {
        None => false,
        Some(outcome) => is_silent(outcome),
    }
}

// The path of the part, if there is one.
fn place_told(alloc: Global, part: &Option<Part>) -> Result<Option<Path>, Memory>
    ensures { IfOk result (λ o. o ≡ option_map (λ d. d.path) part.now) }
{
    match part {
        None => Ok(None),
        Some(there) => Ok(Some(there.path.copy(alloc)?)),
    }
}

// The numbers of these parts, with the paths at which they are then.
fn places_told(
    alloc: Global,
    moved: &[(usize, Option<Part>)],
) -> Result<Vec<(usize, Option<Path>)>, Memory>
    ensures { IfOk result (λ places. places.items ≡ moves_of moved.now) }
{
    let mut places = Vec::with_capacity(alloc, moved.len())?;
    for part in moved {
        let place = place_told(alloc, &part.1)?;
        places.push((part.0, place))?;
    }
    Ok(places)
}

// Where the unit of this number changes alone, the strays' lines are unchanged, but those of strays whose trees hold
// the unit are dropped.
fn keep_beside(bridges: &Bridges, unit: usize, strays: &mut LaidParts)
    requires { unit < 2 ^ 32 }
    ensures { strays.new ≡ placed_beside unit (units_of bridges.now.kept) strays.old }
{
    let Some(changed) = bridges.unit(unit as u32) else {
        return;
    };
    if let Some(path) = &changed.path {
        strays.drop_fronts(path);
    }
}

// A law: where the unit of this number alone changes, and has this tree then, the lines of parts that are left are
// carried by their paths.
fn laid_goes_law(bridges: &Bridges, before: &Tree, mods: &[Mod], tree: &Tree, changed: usize)
    requires applies { (u : WideTree) × (changed_by_all mods.now before.now ≡ Some u) }
    requires units { AreUnits (units_of bridges.now.kept) }
    requires changed { IsOneChanged changed 0 mods.now (units_of bridges.now.kept) }
    ensures { LaidGoes changed mods.now before.now tree.now (units_of bridges.now.kept) }
{
    in_place_law();
}

// Carries what is cached of the old units to those of the buffers after the edit. Returns the target to which what is
// shown is to move.
fn carried_kept<L: Ledger>(
    alloc: Global,
    bridges: &mut Bridges,
    fresh: bool,
    shown: &[Shown],
    hidden: &[Shown],
    strays: &mut LaidParts,
    buffers: &[Buffer],
    after: &[Buffer],
    buffer: u32,
    mods: &[Mod],
    tree: &Tree,
    steps: &mut Steps<L>,
) -> Result<Target, Memory>
    requires some { 1 ≤ length buffers.now }
    requires few { length buffers.now ≤ 64 }
    requires within { buffer < length buffers.now }
    requires changed { changed_by_all mods.now (tree_of buffers.now buffer) ≡ Some tree.now }
    requires of_buffers { units_of bridges.old.kept ≡ units buffers.now }
    requires after { after.now ≡ with_tree buffers.now buffer tree.now }
    requires laid { (width : ℕ) × AreLaid width bridges.old.kept bridges.old.parts
        (if fresh then shown.now else hidden.now) }
    requires aside { StandAside (document_of buffers.now) bridges.old.strays }
    ensures left { IfOk result (λ to. IsLeft mods.now (tree_of buffers.now buffer) (units_of bridges.old.kept)
        (PartMoves buffer mods.now (tree_of buffers.now buffer) (units_of bridges.old.kept) bridges.old.parts
        (kept_strays bridges.old.strays) (units after.now)) (units after.now) to
        (if fresh then shown.now else hidden.now) strays.old strays.new) }
    ensures target { IfOk result
        (λ to. IsTarget (units_of bridges.old.kept) (units after.now) bridges.new.sources to) }
    ensures way { IfOk result (λ to. IsWay buffer mods.now (tree_of buffers.now buffer) (units_of bridges.old.kept)
        (units after.now) bridges.new.sources to) }
    ensures few { IfOk result (λ to. IsFew to) }
    ensures silent { IfOk result (λ to. SetNoName bridges.old.kept to) }
    ensures kept { OnOk result (bridges.new.kept
        ≡ CarryTraces buffer mods.now (tree_of buffers.now buffer) bridges.old.kept (units after.now)) }
    ensures parts { OnOk result (bridges.new.parts ≡ CarryParts bridges.old.parts
        (PartMoves buffer mods.now (tree_of buffers.now buffer) (units_of bridges.old.kept) bridges.old.parts
        (kept_strays bridges.old.strays) (units after.now)) bridges.new.sources) }
    ensures strays { OnOk result (kept_strays bridges.new.strays ≡ CarryStrays
        (PartMoves buffer mods.now (tree_of buffers.now buffer) (units_of bridges.old.kept) bridges.old.parts
        (kept_strays bridges.old.strays) (units after.now)) (length (units after.now))) }
    ensures within { OnOk result (bridges.new.parts ≡ parts_after buffer mods.now (tree_of buffers.now buffer)
        (units_of bridges.old.kept) bridges.old.parts (kept_strays bridges.old.strays) (units after.now)
        bridges.new.sources) }
    ensures beside { OnOk result (kept_strays bridges.new.strays ≡ strays_after buffer mods.now
        (tree_of buffers.now buffer) (units_of bridges.old.kept) bridges.old.parts (kept_strays bridges.old.strays)
        (units after.now)) }
    ensures aside { OnOk result (StandAside (document_of after.now) bridges.new.strays) }
    ensures sources { OnOk result (bridges.new.sources ≡ Sources buffer mods.now (tree_of buffers.now buffer)
        (units_of bridges.old.kept) (units after.now)) }
    ensures once { OnOk result ((i j k : ℕ) → slice_get bridges.new.sources j ≡ Some (Some i)
        → slice_get bridges.new.sources k ≡ Some (Some i) → j ≡ k) }
    ensures units { OnOk result (units_of bridges.new.kept ≡ units after.now) }
    ensures counted { steps.new ≤ steps.old + (cost_of mods.now + made after.now) }
    ensures refused { OnErr result (bridges.new ≡ bridges.old) }
    ensures still { OnErr result (strays.new ≡ strays.old) }
{
    unit_list_laws();
    inside_law();
    unit_count_law(buffers);
    let before = &buffers[buffer as usize].tree;
    match exchanged(bridges, buffer, mods, tree)? {
        Some((changed, paragraph)) => {
            let silent = is_silent_at(bridges, changed);
            let moved = bridges.moved_parts(alloc, before, mods, changed, steps)?;
            let places = places_told(alloc, &moved)?;
            keep_beside(bridges, changed, strays);
            laid_goes_law(bridges, before, mods, &paragraph, changed);
            bridges.carry_in_place(before, mods, paragraph, changed, moved);
            Ok(Target::InPlace(changed, silent, places))
        }
        None => Ok(Target::Onto(carried_anew(
            alloc, bridges, fresh, shown, hidden, strays, after, buffer, before, mods, steps,
        )?)),
    }
}

/// The buffers after an edit of one of them, and where what is shown of the units is to move. What is cached of the old
/// units is carried with them. What is cached of strays, and their lines, are carried to the places where they are
/// then.
pub(crate) fn carried<L: Ledger>(
    alloc: Global,
    bridges: &mut Bridges,
    fresh: bool,
    shown: &[Shown],
    hidden: &[Shown],
    strays: &mut LaidParts,
    buffers: &[Buffer],
    buffer: u32,
    mods: &[Mod],
    tree: &Tree,
    steps: &mut Steps<L>,
) -> Result<(Vec<Buffer>, Target), Memory>
    requires some { 1 ≤ length buffers.now }
    requires few { length buffers.now ≤ 64 }
    requires within { buffer < length buffers.now }
    requires changed { changed_by_all mods.now (tree_of buffers.now buffer) ≡ Some tree.now }
    requires of_buffers { units_of bridges.old.kept ≡ units buffers.now }
    requires laid { (width : ℕ) × AreLaid width bridges.old.kept bridges.old.parts
        (if fresh then shown.now else hidden.now) }
    requires aside { StandAside (document_of buffers.now) bridges.old.strays }
    ensures left { IfOk result (λ p. IsLeft mods.now (tree_of buffers.now buffer) (units_of bridges.old.kept)
        (PartMoves buffer mods.now (tree_of buffers.now buffer) (units_of bridges.old.kept) bridges.old.parts
        (kept_strays bridges.old.strays) (units (with_tree buffers.now buffer tree.now)))
        (units (with_tree buffers.now buffer tree.now)) p.1 (if fresh then shown.now else hidden.now) strays.old
        strays.new) }
    ensures buffers { IfOk result (λ p. p.0.items ≡ with_tree buffers.now buffer tree.now) }
    ensures target { IfOk result (λ p. IsTarget (units_of bridges.old.kept)
        (units (with_tree buffers.now buffer tree.now)) bridges.new.sources p.1) }
    ensures way { IfOk result (λ p. IsWay buffer mods.now (tree_of buffers.now buffer) (units_of bridges.old.kept)
        (units (with_tree buffers.now buffer tree.now)) bridges.new.sources p.1) }
    ensures kept { OnOk result (bridges.new.kept ≡ CarryTraces buffer mods.now (tree_of buffers.now buffer)
        bridges.old.kept
        (units (with_tree buffers.now buffer tree.now))) }
    ensures parts { OnOk result (bridges.new.parts ≡ CarryParts bridges.old.parts
        (PartMoves buffer mods.now (tree_of buffers.now buffer) (units_of bridges.old.kept) bridges.old.parts
        (kept_strays bridges.old.strays) (units (with_tree buffers.now buffer tree.now))) bridges.new.sources) }
    ensures strays { OnOk result (kept_strays bridges.new.strays ≡ CarryStrays
        (PartMoves buffer mods.now (tree_of buffers.now buffer) (units_of bridges.old.kept) bridges.old.parts
        (kept_strays bridges.old.strays) (units (with_tree buffers.now buffer tree.now))) (length (units (with_tree
        buffers.now buffer tree.now)))) }
    ensures within { OnOk result (bridges.new.parts ≡ parts_after buffer mods.now (tree_of buffers.now buffer)
        (units_of bridges.old.kept) bridges.old.parts (kept_strays bridges.old.strays)
        (units (with_tree buffers.now buffer tree.now)) bridges.new.sources) }
    ensures beside { OnOk result (kept_strays bridges.new.strays ≡ strays_after buffer mods.now
        (tree_of buffers.now buffer) (units_of bridges.old.kept) bridges.old.parts (kept_strays bridges.old.strays)
        (units (with_tree buffers.now buffer tree.now))) }
    ensures aside { OnOk result
        (StandAside (document_of (with_tree buffers.now buffer tree.now)) bridges.new.strays) }
    ensures sources { OnOk result (bridges.new.sources ≡ Sources buffer mods.now (tree_of buffers.now buffer)
        (units_of bridges.old.kept) (units (with_tree buffers.now buffer tree.now))) }
    ensures once { OnOk result ((i j k : ℕ) → slice_get bridges.new.sources j ≡ Some (Some i)
        → slice_get bridges.new.sources k ≡ Some (Some i) → j ≡ k) }
    ensures units { OnOk result (units_of bridges.new.kept ≡ units (with_tree buffers.now buffer tree.now)) }
    ensures few { IfOk result (λ p. IsFew p.1) }
    ensures silent { IfOk result (λ p. SetNoName bridges.old.kept p.1) }
    ensures refused { OnErr result (bridges.new ≡ bridges.old) }
    ensures still { OnErr result (strays.new ≡ strays.old) }
    ensures counted { steps.new ≤ steps.old
        + (cost_of mods.now + made (with_tree buffers.now buffer tree.now)) }
{
    let after = with_tree(alloc, buffers, buffer, tree)?;
    let target = carried_kept(
        alloc, bridges, fresh, shown, hidden, strays, buffers, &after, buffer, mods, tree, steps,
    )?;
    Ok((after, target))
}
