// What holds of all spellings and of all canonical texts.
ghost use Rattle.std.specs.Prelude.{◌≡◌, ◌<◌, ℕ, ◌⊎◌, true, List, [], ◌∷◌, ◌++◌};
ghost use Rattle.std.specs.List.{AllByRecursion};
ghost use Rattle.tx_tree.specs.WideTree.{WideTree};
ghost use Rattle.tx_tree.specs.Limits.{IsWellFormed, IsWithinLimits};
ghost use Rattle.tx_tree.specs.declared.faults.ReadFault.{ReadFault};
ghost use Rattle.tx_scm.specs.Spelling.{Spells, SpellsAlone};
ghost use Rattle.tx_tree.specs.ReadFaults.{SpellsSome};
ghost use Rattle.tx_scm.specs.Faults.{IsSchemeFault};
ghost use Rattle.tx_scm.specs.Spots.{scan_goes_on};
ghost use Rattle.tx_scm.specs.Canonical.{scheme_text};

/// Bytes spell at most one tree, and a well formed one, within the limits or not.
pub fn spelling_laws()
    ensures once { (bytes : List ℕ) (t u : WideTree) → Spells bytes t → Spells bytes u → t ≡ u }
    ensures well_formed { (bytes : List ℕ) (t : WideTree) → Spells bytes t → IsWellFormed t }
{}

/// First bytes can be continued to bytes that spell a tree exactly where the scan, which takes bytes one by one, goes
/// on after them. What is open has a closing text, and after a byte that can't be taken no bytes help.
pub fn scan_goes_on_along_fronts()
    ensures closed { (bytes : List ℕ) → scan_goes_on bytes ≡ true
        → (more : List ℕ) × SpellsSome Spells (bytes ++ more) }
    ensures stopped { (bytes more : List ℕ) → SpellsSome Spells (bytes ++ more) → scan_goes_on bytes ≡ true }
{}

/// First bytes that any numbers continue to a tree are continued to one by bytes, which are below 256.
pub fn fronts_go_on_by_bytes()
    ensures { (front more : List ℕ) → SpellsSome Spells (front ++ more)
        → (bytes : List ℕ) × AllByRecursion (λ b. b < 256) bytes × SpellsSome Spells (front ++ bytes) }
{}

/// Bytes have at most one fault, none where they spell a tree within the limits, and one where they don't.
pub fn fault_laws()
    ensures once { (bytes : List ℕ) (f g : ReadFault) → IsSchemeFault bytes f → IsSchemeFault bytes g → f ≡ g }
    ensures none { (bytes : List ℕ) (f : ReadFault) (t : WideTree) → IsSchemeFault bytes f → Spells bytes t
        → IsWithinLimits t → ⊥ }
    ensures some { (bytes : List ℕ)
        → ((t : WideTree) × Spells bytes t × IsWithinLimits t) ⊎ ((f : ReadFault) × IsSchemeFault bytes f) }
{}

/// The canonical text of a tree spells that tree and no other, and still does with a newline after it.
pub fn canonical_laws()
    ensures text { (t : WideTree) → IsWellFormed t → SpellsAlone (scheme_text t) t }
    ensures line { (t : WideTree) → IsWellFormed t → SpellsAlone (scheme_text t ++ 10 ∷ []) t }
{}
