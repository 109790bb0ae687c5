// Laws of units.
ghost use Rattle.std.specs.Prelude.{◌≡◌, ℕ, List, [], Some};
ghost use Rattle.std.specs.List.{AllByRecursion};
ghost use Rattle.tx_tree.specs.WideTree.{WideTree};
ghost use Rattle.tx_doc.specs.Buffers.{document_of};
ghost use Rattle.tx_doc.specs.declared.buffer.Buffer.{Buffer};
ghost use Rattle.tx_mod.specs.declared.mods.Mod.{Mod as Change};
ghost use Rattle.tx_mod.specs.Followed.{changed_by_all};
ghost use Rattle.tx_units.specs.declared.kinds.Unit.{Unit as DocUnit};
ghost use Rattle.tx_units.specs.Units.{units, body_units};
ghost use Rattle.tx_unit_traces.specs.declared.cached_unit.CachedUnit.{CachedUnit as Cached};
ghost use Rattle.tx_unit_traces.specs.Units.{units_of};
ghost use Rattle.tx_unit_traces.specs.UnitLists.{AreUnits, AllStand, HasPathIfBody, paragraphs_of};
ghost use Rattle.tx_unit_traces.specs.Carrying.{carried_units, IsFromIfCached};

use tx_mod::carried_list_law;
use tx_prim::sameness_law;
use tx_units::body_laws;

/// A law: the units of buffers are such lists, and their trees are at their paths in the document. Their
/// paragraphs are those of the document.
pub fn unit_list_laws()
    ensures units { (buffers : List Buffer) → AreUnits (units buffers) }
    ensures stand { (buffers : List Buffer) → AllStand (document_of buffers) (units buffers) }
    ensures paragraphs { (buffers : List Buffer) →
        paragraphs_of (units buffers) ≡ body_units (document_of buffers) }
{
    body_laws();
}

/// A law: a trace that is cached of a unit after an edit was cached before of a unit with its tree and its origin. A
/// paragraph was at the path that is carried to its own.
pub fn carried_units_law()
    ensures document { (ms : List Change) (t u : WideTree) (old : List Cached) (new : List DocUnit) →
        changed_by_all ms t ≡ Some u → AreUnits (units_of old) → AllByRecursion HasPathIfBody new →
        AllStand t (units_of old) → AllStand u new →
        AllByRecursion (IsFromIfCached ms t old) (carried_units ms t old new) }
    ensures other { (t : WideTree) (old : List Cached) (new : List DocUnit) →
        AreUnits (units_of old) → AllByRecursion HasPathIfBody new → paragraphs_of new ≡ paragraphs_of (units_of old) →
        AllByRecursion (IsFromIfCached [] t old) (carried_units [] t old new) }
    ensures units { (ms : List Change) (t : WideTree) (old : List Cached) (new : List DocUnit) →
        units_of (carried_units ms t old new) ≡ new }
{
    sameness_law();
    carried_list_law();
}
