// Laws of what is cached, through an edit.
ghost use Rattle.std.specs.Prelude.{◌≡◌, ℕ, List, Some, length};
ghost use Rattle.tx_tree.specs.WideTree.{WideTree};
ghost use Rattle.tx_mod.specs.declared.mods.Mod.{Mod as Change};
ghost use Rattle.tx_mod.specs.Followed.{changed_by_all};
ghost use Rattle.tx_exec_form.specs.Evaluated.{WideTrace};
ghost use Rattle.tx_units.specs.declared.kinds.Unit.{Unit as DocUnit};
ghost use Rattle.tx_units.specs.Units.{units_with};
ghost use Rattle.tx_bridge.specs.Carrying.{AllStand};
ghost use Rattle.tx_bridge.specs.Entries.{Kept, units_of};
ghost use Rattle.tx_bridge.specs.HeldParts.{AllPartsHold};
ghost use Rattle.tx_bridge.specs.InPlace.{IsOneChanged};
ghost use Rattle.tx_bridge.specs.KeptInDocument.{kept_behind, CameAlong};
ghost use Rattle.tx_bridge.specs.Names.{CarryParts, CarryStrays, CarryWithin, PartMoves, Sources, StraysBeside};
ghost use Rattle.tx_bridge.specs.PartsKept.{KeptParts};
ghost use Rattle.tx_bridge.specs.Strays.{Stray, AreOutside, AreStrays, StandAside, kept_strays};
ghost use Rattle.tx_bridge.specs.UnitLists.{AreUnits};

use tx_mod::{carried_law, carried_list_law};

/// A law: where an edit of the document changes the tree of one paragraph alone, what `carry_in_place` says of parts
/// and of strays is what `carry` says. Nothing is asked of the new tree, of the traces, or of the strays' trees: only
/// that no stray is in a unit, and that there is a list of parts for each unit.
pub fn in_place_law()
    ensures parts { (i : ℕ) (ms : List Change) (t u tree : WideTree) (us : List DocUnit) (parts : List KeptParts)
        (strays : List Stray) → changed_by_all ms t ≡ Some u → AreUnits us → IsOneChanged i 0 ms us
        → length parts ≡ length us → AreOutside us strays
        → CarryWithin i ms t us parts
        ≡ CarryParts parts (PartMoves 0 ms t us parts (kept_strays strays) (units_with i tree us))
        (Sources 0 ms t us (units_with i tree us)) }
    ensures strays { (i : ℕ) (ms : List Change) (t u tree : WideTree) (us : List DocUnit) (parts : List KeptParts)
        (strays : List Stray) → changed_by_all ms t ≡ Some u → AreUnits us → IsOneChanged i 0 ms us
        → length parts ≡ length us → AreOutside us strays
        → kept_strays (StraysBeside i us strays)
        ≡ CarryStrays (PartMoves 0 ms t us parts (kept_strays strays) (units_with i tree us))
        (length (units_with i tree us)) }
{}

/// A law: what `carry` says of parts and strays, read by paths of the document. An edit of the document changes t,
/// which has the trees of the old units and of the strays at their paths. Afterwards a trace is cached at a path
/// exactly where it was cached before at a path from which the modifications lead there. There is at most one such
/// path.
pub fn carry_paths_law()
    ensures came { (ms : List Change) (t u : WideTree) (kept : Kept) (parts : List KeptParts) (strays : List Stray)
        (path : List ℕ) → changed_by_all ms t ≡ Some u → AreUnits (units_of kept) → AllStand t (units_of kept)
        → AllPartsHold kept parts → AreStrays (units_of kept) strays → StandAside t strays
        → (news : List DocUnit) → AreUnits news → (trace : WideTrace)
        → kept_behind parts (PartMoves 0 ms t (units_of kept) parts (kept_strays strays) news)
        (Sources 0 ms t (units_of kept) news) news path ≡ Some trace
        → CameAlong ms t (units_of kept) parts (kept_strays strays) path trace }
    ensures kept { (ms : List Change) (t u : WideTree) (kept : Kept) (parts : List KeptParts) (strays : List Stray)
        (path : List ℕ) → changed_by_all ms t ≡ Some u → AreUnits (units_of kept) → AllStand t (units_of kept)
        → AllPartsHold kept parts → AreStrays (units_of kept) strays → StandAside t strays
        → (news : List DocUnit) → AreUnits news → (trace : WideTrace)
        → CameAlong ms t (units_of kept) parts (kept_strays strays) path trace
        → kept_behind parts (PartMoves 0 ms t (units_of kept) parts (kept_strays strays) news)
        (Sources 0 ms t (units_of kept) news) news path ≡ Some trace }
    ensures once { (ms : List Change) (t u : WideTree) (kept : Kept) (parts : List KeptParts) (strays : List Stray)
        (path : List ℕ) → changed_by_all ms t ≡ Some u → AreUnits (units_of kept) → AllStand t (units_of kept)
        → AllPartsHold kept parts → AreStrays (units_of kept) strays → StandAside t strays
        → (a b : WideTrace) (x : CameAlong ms t (units_of kept) parts (kept_strays strays) path a)
        (y : CameAlong ms t (units_of kept) parts (kept_strays strays) path b) → x.from ≡ y.from }
{
    carried_law();
    carried_list_law();
}
