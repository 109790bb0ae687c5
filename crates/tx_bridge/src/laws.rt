// Laws of what calls ask for.
ghost use Rattle.std.specs.Prelude.{◌≡◌, ◌≤◌, ℕ, List, [], Some, true, slice_get};
ghost use Rattle.tx_tree.specs.WideTree.{WideTree};
ghost use Rattle.tx_doc.specs.Buffers.{document_of};
ghost use Rattle.tx_doc.specs.declared.buffer.Buffer.{Buffer};
ghost use Rattle.tx_units.specs.declared.kinds.Unit.{Unit as DocUnit};
ghost use Rattle.tx_units.specs.Units.{units};
ghost use Rattle.tx_mod.specs.declared.mods.Mod.{Mod as Change};
ghost use Rattle.tx_mod.specs.Followed.{changed_by_all, carried_by_all};
ghost use Rattle.tx_bridge.specs.InPlace.{is_changed};
ghost use Rattle.tx_exec_form.specs.Evaluated.{WideTrace};
ghost use Rattle.tx_view_form.specs.Outcomes.{Moment};
ghost use Rattle.tx_env.specs.Pairs.{Name};
ghost use Rattle.tx_bridge.specs.Entries.{Entry, Kept, units_of, outcome_of};
ghost use Rattle.tx_parts.specs.Opening.{Sheller, no_shells};
ghost use Rattle.tx_parts.specs.Shellers.{IsSheller};
ghost use Rattle.tx_parts.specs.LayerCosts.{Holder};
ghost use Rattle.tx_walk.specs.LayerTraces.{TreeTrace, holds_either};
ghost use Rattle.tx_bridge.specs.Reached.{can_be_used, unit_stays_by};
ghost use Rattle.tx_bridge.specs.PartsKept.{fresh_parts, fresh_parts_by};
ghost use Rattle.tx_bridge.specs.Spares.{UnitSpare, Spares};
ghost use Rattle.tx_bridge.specs.Names.{ChargeBy, BoundBy};
ghost use Rattle.tx_bridge.specs.Charges.{layers_charge, charge_by, charge_with, charges_with, charges_from};
ghost use Rattle.tx_bridge.specs.Charges.{AreLayersSound, UnitLayersKnown};
ghost use Rattle.tx_bridge.specs.UnitLists.{AreUnits, HasPathIfBody};
ghost use Rattle.tx_bridge.specs.Carrying.{AllStand, AreSameBodies};
ghost use Rattle.tx_bridge.specs.PartsKept.{KeptParts};
ghost use Rattle.tx_bridge.specs.CarryingParts.{StaysKept};
ghost use Rattle.tx_bridge.specs.Keeping.{all_keep_place};

use tx_exec_form::trace_laws;
use tx_mod::carried_law;
use tx_parts::{opened_cost_law, opened_fitting_law, opened_standing_law, opener_law};
use tx_units::body_laws;

/// A law: the units of buffers are as `Bridges` needs them, and their trees are at their paths in the document. Units
/// of one document that have one path have one tree. There is at most one unit such that all modifications are inside
/// its tree and its tree is carried nowhere.
pub fn unit_list_laws()
    ensures units { (buffers : List Buffer) → AreUnits (units buffers) }
    ensures stand { (buffers : List Buffer) → AllStand (document_of buffers) (units buffers) }
    ensures once { (ms : List Change) (us : List DocUnit) → AreUnits us → (j k : ℕ) (u v : DocUnit)
        → slice_get us j ≡ Some u → slice_get us k ≡ Some v → is_changed ms u ≡ true → is_changed ms v ≡ true
        → j ≡ k }
    ensures same { (t : WideTree) (us vs : List DocUnit) → AllStand t us → AllStand t vs → AreSameBodies us vs }
{
    body_laws();
}

/// A law: where modifications apply, what is cached of a part of the unit at a path is cached at the part's path
/// afterwards, if they carry the part's place in the document to itself.
pub fn staying_parts_law()
    ensures { (ms : List Change) (t : WideTree) (path : List ℕ) (kept : KeptParts) → StaysKept ms t path kept }
{
    carried_law();
}

/// A law: where modifications apply, and are found to keep a place, the subtree there is carried to that very path.
pub fn keeping_law()
    ensures { (ms : List Change) (t u : WideTree) (q : List ℕ) → changed_by_all ms t ≡ Some u
        → all_keep_place ms q ≡ true → carried_by_all ms t q ≡ Some q }
{}

/// A law: where nothing is spare, `refresh_from` charges what `refresh` does. A unit is charged nothing where a trace
/// that is spare of it can be used at the moment, and its parts are spare as well, as a refresh leaves both of them, at
/// whatever moment. Where trees have shells, the unit is then charged what its layers cost, by what is cached of them
/// and what is spare. This is nothing where nothing was left to evaluate of them at the moment of the spare's refresh.
pub fn spare_law()
    ensures nothing { (m : Moment) (es : Kept) (pss : List KeptParts)
        → charges_with m es pss [] ≡ charges_from m es pss }
    ensures whole { (m n : Moment) (e : Entry) (ps : KeptParts) (rs : List TreeTrace) (trace : WideTrace)
        → HasPathIfBody e.unit → outcome_of n e.unit ≡ Some trace → can_be_used m (Some trace) ≡ true
        → charge_with m e ps (record { trace = Some trace; parts = fresh_parts n e.unit; layers = rs }) ≡ 0 }
    ensures layers { (sheller : Sheller) → IsSheller sheller → (m n : Moment) (e : Entry) (ps : KeptParts)
        (ls rs : List TreeTrace) (trace : WideTrace) → HasPathIfBody e.unit → outcome_of n e.unit ≡ Some trace
        → can_be_used m (Some trace) ≡ true → charge_by sheller m e ps ls
        (record { trace = Some trace; parts = fresh_parts_by sheller n e.unit; layers = rs })
        ≡ layers_charge (holds_either ls rs) sheller m e.unit }
    ensures again { (sheller : Sheller) → IsSheller sheller → (m n : Moment) (e : Entry) (ps : KeptParts)
        (ls rs : List TreeTrace) (trace : WideTrace) → HasPathIfBody e.unit → outcome_of n e.unit ≡ Some trace
        → can_be_used m (Some trace) ≡ true → AreLayersSound rs → UnitLayersKnown sheller n e.unit rs
        → charge_by sheller m e ps ls
        (record { trace = Some trace; parts = fresh_parts_by sheller n e.unit; layers = rs }) ≡ 0 }
{
    trace_laws();
    opener_law();
    opened_fitting_law();
    opened_standing_law();
    opened_cost_law();
}

/// A law: a unit isn't reached where its trace can be used at the moment, and its parts are cached as well, as a
/// refresh leaves both of them, at whatever moment. Such a unit is charged what its layers cost, by what is cached of
/// them and what is spare. This is nothing where nothing has a shell. It is nothing too where nothing was left to
/// evaluate of its layers at the moment of its refresh, and what is cached of them is what it was then.
pub fn staying_law()
    ensures stays { (sheller : Sheller) → IsSheller sheller → (m n : Moment) (e : Entry) (trace : WideTrace)
        → HasPathIfBody e.unit → e.trace ≡ Some trace → outcome_of n e.unit ≡ Some trace
        → can_be_used m (Some trace) ≡ true
        → unit_stays_by sheller m e (fresh_parts_by sheller n e.unit) ≡ true }
    ensures layers { (sheller : Sheller) (m : Moment) (e : Entry) (ks : KeptParts)
        (ls : List TreeTrace) (s : UnitSpare) → unit_stays_by sheller m e ks ≡ true
        → charge_by sheller m e ks ls s ≡ layers_charge (holds_either ls s.layers) sheller m e.unit }
    ensures again { (sheller : Sheller) → IsSheller sheller → (m n : Moment) (e : Entry) (ls : List TreeTrace)
        (s : UnitSpare) (trace : WideTrace) → HasPathIfBody e.unit → e.trace ≡ Some trace
        → outcome_of n e.unit ≡ Some trace → can_be_used m (Some trace) ≡ true → AreLayersSound ls
        → UnitLayersKnown sheller n e.unit ls → charge_by sheller m e (fresh_parts_by sheller n e.unit) ls s ≡ 0 }
    ensures nothing { (held : Holder) (m : Moment) (e : Entry) → layers_charge held no_shells m e.unit ≡ 0 }
{
    trace_laws();
    opened_fitting_law();
    opened_standing_law();
    opened_cost_law();
}

/// A law: what a refresh is charged is at most the bound. For each unit that runs out of steps or levels, the bound
/// counts all that it may take. For a paragraph of the body that is touched, it counts the costs of its parts that
/// aren't held, and of all trees of its layers; for one that isn't touched, what is left to evaluate of its layers. For
/// another unit, where nothing of it can be used, it counts its cost.
///
/// A paragraph is touched where neither its trace can be used nor the spare's, or where one of its parts isn't held.
/// What is left of the layers of one that isn't touched is nothing where the trace that can be used, its own or the
/// spare's, came with the layers that are held, as `staying_law` and `spare_law` say (`again`).
pub fn bound_law()
    ensures { (start : List (Name × WideTree)) (sheller : Sheller) → IsSheller sheller → (kept : Kept)
        (parts : List KeptParts) (layers : List (List TreeTrace)) (spares : Spares) → AreUnits (units_of kept)
        → ChargeBy start sheller kept parts layers spares ≤ BoundBy start sheller kept parts layers spares }
{
    opened_cost_law();
}
