// What holds of all canonical TM texts.
ghost use Rattle.std.specs.Prelude.{◌≡◌, true, [], ◌∷◌, ◌++◌};
ghost use Rattle.tx_tree.specs.WideTree.{WideTree};
ghost use Rattle.tx_tree.specs.Limits.{IsWellFormed};
ghost use Rattle.tx_tm_write.specs.Shapes.{is_block};
ghost use Rattle.tx_tm_write.specs.Canonical.{tm_text};
ghost use Rattle.tx_tm_write.specs.Alone.{SpellsAlone};

/// The canonical text of a block spells that block and no other tree, and still does with a newline after it.
pub fn canonical_laws()
    ensures text { (t : WideTree) → IsWellFormed t → is_block t ≡ true → SpellsAlone (tm_text t) t }
    ensures line { (t : WideTree) → IsWellFormed t → is_block t ≡ true → SpellsAlone (tm_text t ++ 10 ∷ []) t }
{}
