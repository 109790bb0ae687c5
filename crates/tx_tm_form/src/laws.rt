// The laws of the definition.
ghost use Rattle.std.specs.Prelude.{◌≡◌, ◌≢◌, ◌<◌, ◌⊎◌, ℕ, Bool, List, [], ◌∷◌, ◌++◌, length, take, get_or};
ghost use Rattle.std.specs.Prelude.{true, Some, None};
ghost use Rattle.std.specs.List.{AllByRecursion, flat_map};
ghost use Rattle.tx_tree.specs.WideTree.{WideTree};
ghost use Rattle.tx_tree.specs.declared.faults.ReadFault.{ReadFault};
ghost use Rattle.tx_tree.specs.Limits.{IsWellFormed, IsWithinLimits};
ghost use Rattle.tx_tm_form.specs.declared.places.TagForm.{TagForm};
ghost use Rattle.tx_tm_form.specs.Tokens.{Token, head, written, IsTokenList};
ghost use Rattle.tx_tm_form.specs.Forms.{Spells};
ghost use Rattle.tx_tm_form.specs.Machine.{reads, labelled, keep, start, run};
ghost use Rattle.tx_tm_form.specs.Fronts.{goes_on, StopsAt, IsLongestTmFront};
ghost use Rattle.tx_tm_form.specs.Faults.{IsTmFault, IsOpenTag, IsScanned, IsInBlock, Differs};
ghost use Rattle.tx_tm_form.specs.Marks.{fault_of};
ghost use Rattle.tx_tm_form.specs.Measures.{keep_gauge, start_gauge, IsMeasured};

/// Bytes have at most one list of tokens.
pub fn bytes_have_one_list_of_tokens()
    ensures { (bytes : List ℕ) (ts us : List Token) → IsTokenList bytes ts → IsTokenList bytes us → ts ≡ us }
{}

/// Bytes spell at most one tree.
pub fn bytes_spell_one_tree()
    ensures { (bytes : List ℕ) (t u : WideTree) → Spells bytes t → Spells bytes u → t ≡ u }
{}

/// The leaves of a tree that is spelled are texts, and its nodes have labels.
pub fn spelled_is_well_formed()
    ensures { (bytes : List ℕ) (t : WideTree) → Spells bytes t → IsWellFormed t }
{}

/// The machine reads a tree exactly where the bytes spell it.
pub fn machine_reads_what_is_spelled()
    ensures complete { (bytes : List ℕ) (t : WideTree) → Spells bytes t → reads bytes ≡ Some t }
    ensures sound { (bytes : List ℕ) (t : WideTree) → reads bytes ≡ Some t → Spells bytes t }
{}

/// Bytes that the machine has taken can be continued to bytes that spell a tree, exactly where it goes on: what is open
/// has a closing text, and where it cannot go on, no bytes help.
pub fn machine_goes_on_along_fronts()
    ensures closed { (bytes : List ℕ) → goes_on (run keep start bytes) ≡ true
        → (more : List ℕ) × (t : WideTree) × Spells (bytes ++ more) t }
    ensures stopped { (bytes more : List ℕ) (t : WideTree) → Spells (bytes ++ more) t
        → goes_on (run keep start bytes) ≡ true }
{}

/// First bytes that any numbers continue to a tree are continued to one by bytes, which are below 256.
pub fn fronts_go_on_by_bytes()
    ensures { (front more : List ℕ) (t : WideTree) → Spells (front ++ more) t
        → (bytes : List ℕ) × AllByRecursion (λ b. b < 256) bytes × (u : WideTree) × Spells (front ++ bytes) u }
{}

/// The longest front of bytes ends exactly where the machine stops.
pub fn longest_front_ends_at_the_stop()
    ensures ends { (bytes : List ℕ) (n : ℕ) → StopsAt bytes n → IsLongestTmFront bytes n }
    ensures only { (bytes : List ℕ) (n : ℕ) → IsLongestTmFront bytes n → StopsAt bytes n }
{}

/// Bytes have at most one fault, none where they spell a tree within the limits, and one where they don't.
pub fn bytes_have_one_fault()
    ensures once { (bytes : List ℕ) (one other : ReadFault) → IsTmFault bytes one → IsTmFault bytes other
        → one ≡ other }
    ensures none { (bytes : List ℕ) (fault : ReadFault) (t : WideTree) → IsTmFault bytes fault → Spells bytes t
        → IsWithinLimits t → ⊥ }
    ensures some { (bytes : List ℕ)
        → ((t : WideTree) × Spells bytes t × IsWithinLimits t) ⊎ ((fault : ReadFault) × IsTmFault bytes fault) }
{}

/// Where bytes have a mismatch, its second place is in the label of a middle or closing tag, in a block of the long tag
/// that is open from its first place (`stands`). Up to there this label is as that of the open tag, and the byte there
/// differs from it (`differs`). So where the middle or closing tag begins with a whole label, that is another one
/// (`labels`).
pub fn mismatched_labels_differ()
    ensures stands { (bytes : List ℕ) (place n : ℕ) → IsTmFault bytes (ReadFault.Mismatch place n)
        → (n < length bytes) × IsOpenTag (take n bytes) place }
    ensures differs { (bytes : List ℕ) (place n : ℕ) (tokens : List Token) (form : TagForm) (label : List ℕ)
        → IsTmFault bytes (ReadFault.Mismatch place n) → IsScanned (take n bytes) tokens (labelled form label)
        → (tag : IsInBlock tokens place) → Differs tag.label label (get_or bytes n 0) }
    ensures labels { (bytes : List ℕ) (place n : ℕ) (tokens : List Token) (form : TagForm) (label other : List ℕ)
        (more : Bool) (rest : List ℕ)
        → IsTmFault bytes (ReadFault.Mismatch place n) → IsScanned (take n bytes) tokens (labelled form label)
        → (tag : IsInBlock tokens place) → bytes ≡ flat_map written (tokens ++ head form other more ∷ []) ++ rest
        → other ≢ tag.label }
{}

/// The machine with marks finds the fault of bytes that spell no tree, and none where they spell one.
pub fn marks_tell_the_fault()
    ensures fault { (bytes : List ℕ) (fault : ReadFault) → fault_of bytes ≡ Some fault → IsTmFault bytes fault }
    ensures tree { (bytes : List ℕ) → fault_of bytes ≡ None → (t : WideTree) × Spells bytes t }
{}

/// The machine with measures has those of the tree that the bytes spell.
pub fn measures_are_those_of_the_tree()
    ensures { (bytes : List ℕ) (t : WideTree) → Spells bytes t → IsMeasured (run keep_gauge start_gauge bytes) t }
{}
