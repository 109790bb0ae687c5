// What holds of all faults: there is one at most, none of what is right, and one of what is wrong.
ghost use Rattle.std.specs.Prelude.{◌≡◌, ℕ, ◌+◌, ◌≤◌, ◌<◌, ◌⊎◌, ◌++◌, List, length, take, true, Some, slice_get};
ghost use Rattle.std.specs.List.{AllByRecursion};
ghost use Rattle.tx_tree.specs.Labels.{IsLabel, IsLabelFault};
ghost use Rattle.tx_tree.specs.Limits.{IsWithinLimits, IsTreeFault};
ghost use Rattle.tx_tree.specs.PathSpelling.{SpellsPath, IsPathSpelling, IsPathFault};
ghost use Rattle.tx_tree.specs.Places.{IsPlace, IsPlaceFault};
ghost use Rattle.tx_tree.specs.Texts.{IsText, IsTextFault, begins_no_item};
ghost use Rattle.tx_tree.specs.WideTree.{WideTree, node, forest};

use crate::MOST_TEXT;
use crate::faults::{PathFault, PlaceFault, TreeFault};
use crate::labels::LabelFault;
use crate::texts::TextFault;

/// A law: bytes are a text within the limit, or have one fault. At a `BadByte` there is a tab, a newline, a return or
/// `>`, and with the byte at a fault no text goes on.
pub fn text_fault_laws()
    ensures once { (bytes : List ℕ) (one other : TextFault) → IsTextFault bytes one → IsTextFault bytes other →
        one ≡ other }
    ensures none { (bytes : List ℕ) (fault : TextFault) → IsText bytes → length bytes ≤ MOST_TEXT →
        IsTextFault bytes fault → ⊥ }
    ensures some { (bytes : List ℕ) → (IsText bytes × (length bytes ≤ MOST_TEXT))
        ⊎ ((fault : TextFault) × IsTextFault bytes fault) }
    ensures bad_byte { (bytes : List ℕ) (n b : ℕ) → IsTextFault bytes (TextFault.BadByte n) →
        slice_get bytes n ≡ Some b → begins_no_item b ≡ true }
    ensures stops_at_byte { (bytes more : List ℕ) (n : ℕ) → IsTextFault bytes (TextFault.BadByte n) →
        IsText (take (n + 1) bytes ++ more) → ⊥ }
    ensures stops_in_symbol { (bytes more : List ℕ) (n : ℕ) → IsTextFault bytes (TextFault.BadSymbol n) →
        n < length bytes → IsText (take (n + 1) bytes ++ more) → ⊥ }
{}

/// A law: first bytes that any numbers continue to a text, a label or a path are continued to one by bytes, which are
/// below 256. Each longest front, by which faults are placed, is then continued by bytes.
pub fn front_laws()
    ensures text { (front more : List ℕ) → IsText (front ++ more) →
        (bytes : List ℕ) × AllByRecursion (λ b. b < 256) bytes × IsText (front ++ bytes) }
    ensures label { (front more : List ℕ) → IsLabel (front ++ more) →
        (bytes : List ℕ) × AllByRecursion (λ b. b < 256) bytes × IsLabel (front ++ bytes) }
    ensures path { (front more : List ℕ) → IsPathSpelling (front ++ more) →
        (bytes : List ℕ) × AllByRecursion (λ b. b < 256) bytes × IsPathSpelling (front ++ bytes) }
{}

/// A law: bytes are a label or have one fault.
pub fn label_fault_laws()
    ensures once { (bytes : List ℕ) (one other : LabelFault) → IsLabelFault bytes one → IsLabelFault bytes other →
        one ≡ other }
    ensures none { (bytes : List ℕ) (fault : LabelFault) → IsLabel bytes → IsLabelFault bytes fault → ⊥ }
    ensures some { (bytes : List ℕ) → IsLabel bytes ⊎ ((fault : LabelFault) × IsLabelFault bytes fault) }
{}

/// A law: bytes spell a path or have one fault.
pub fn path_fault_laws()
    ensures once { (bytes : List ℕ) (one other : PathFault) → IsPathFault bytes one → IsPathFault bytes other →
        one ≡ other }
    ensures none { (bytes path : List ℕ) (fault : PathFault) → SpellsPath bytes path → IsPathFault bytes fault → ⊥ }
    ensures some { (bytes : List ℕ) → ((path : List ℕ) × SpellsPath bytes path)
        ⊎ ((fault : PathFault) × IsPathFault bytes fault) }
{}

/// A law: a path and an offset are a place of a tree or have one fault.
pub fn place_fault_laws()
    ensures once { (t : WideTree) (path : List ℕ) (o : ℕ) (one other : PlaceFault) → IsPlaceFault t path o one →
        IsPlaceFault t path o other → one ≡ other }
    ensures none { (t : WideTree) (path : List ℕ) (o : ℕ) (fault : PlaceFault) → IsPlace t path o →
        IsPlaceFault t path o fault → ⊥ }
    ensures some { (t : WideTree) (path : List ℕ) (o : ℕ) → IsPlace t path o
        ⊎ ((fault : PlaceFault) × IsPlaceFault t path o fault) }
{}

/// A law: a label and trees within the limits make a node within the limits or have one fault.
pub fn tree_fault_laws()
    ensures once { (label : List ℕ) (ts : List WideTree) (one other : TreeFault) → IsTreeFault label ts one →
        IsTreeFault label ts other → one ≡ other }
    ensures none { (label : List ℕ) (ts : List WideTree) (fault : TreeFault) → IsWithinLimits (node label (forest ts)) →
        IsTreeFault label ts fault → ⊥ }
    ensures some { (label : List ℕ) (ts : List WideTree) → AllByRecursion IsWithinLimits ts →
        IsWithinLimits (node label (forest ts)) ⊎ ((fault : TreeFault) × IsTreeFault label ts fault) }
{}
