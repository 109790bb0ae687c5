// Laws of an edit.
ghost use Rattle.std.specs.Prelude.{◌≡◌, ℕ, List, Some, Ok};
ghost use Rattle.tx_tree.specs.WideTree.{WideTree};
ghost use Rattle.tx_mod.specs.declared.mods.Mod.{Mod as Change};
ghost use Rattle.tx_mod.specs.Followed.{changed_by_all};
ghost use Rattle.tx_kept.specs.declared.path_map.Entry.{Entry};
ghost use Rattle.tx_kept.specs.Carrying.{carry};
ghost use Rattle.tx_kept.specs.Entries.{AllHold, AllLead, IsInOrder, IsOf};

/// A law: what an edit leaves of entries whose paths lead. Each value is that of an entry before, and its path leads to
/// the tree to which that one's led. Entries in order are in order afterwards.
pub fn carry_law<X: Drop>()
    ensures same { (ms : List Change) (t u : WideTree) (xs : List (Entry X)) →
        changed_by_all ms t ≡ Some u → AllLead t xs → AllHold (IsOf t xs) u (carry ms t xs) }
    ensures lead { (ms : List Change) (t u : WideTree) (xs : List (Entry X)) →
        changed_by_all ms t ≡ Some u → AllLead t xs → AllLead u (carry ms t xs) }
    ensures order { (ms : List Change) (t u : WideTree) (xs : List (Entry X)) →
        changed_by_all ms t ≡ Some u → AllLead t xs → IsInOrder xs → IsInOrder (carry ms t xs) }
{}
