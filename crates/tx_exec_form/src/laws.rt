// Laws of evaluation.
ghost use Rattle.std.specs.Prelude.{Some, None, ◌≡◌, ◌<◌, ◌≤◌, ◌⊎◌, ◌↔◌, ℕ, List, [], true};
ghost use Rattle.std.specs.FinMap.{empty};
ghost use Rattle.tx_tree.specs.WideTree.{size_of, depth_of, total_size, deepest};
ghost use Rattle.tx_tree.specs.Labels.{IsLabel};
ghost use Rattle.tx_origin.specs.Values.{plain, plains, vals};
ghost use Rattle.tx_origin.specs.TaggedTrees.{TaggedTree};
ghost use Rattle.tx_exec_form.specs.Runs.{Before};
ghost use Rattle.tx_exec_form.specs.Frames.{Frame, top};
ghost use Rattle.tx_exec_form.specs.Words.{is_label};
ghost use Rattle.tx_exec_form.specs.Evaluated.{WideTrace, evaluated_in};
ghost use Rattle.tx_exec_form.specs.Laws.{Agrees, Supports, IsPast, ComesFrom};
ghost use Rattle.tx_exec_form.specs.Framed.{framed, SupportsFramed, IsPastFramed, RunTrace, run_framed, SupportsRun};
ghost use Rattle.tx_exec_form.specs.Framed.{IsPastRun};

use crate::{MOST_LEVELS, MOST_TURNS};

/// A trace supports its tree: in every environment that agrees with its looks the tree has this trace, exactly where
/// cost and height are allowed.
pub fn trace_laws()
    ensures supports { (k c : ℕ) (t : TaggedTree) (e : Before) (trace : WideTrace) → evaluated_in k c t e ≡ Some trace →
        Supports trace t }
    ensures over { (k c : ℕ) (t : TaggedTree) (e : Before) (trace : WideTrace) → evaluated_in k c t e ≡ Some trace →
        (k' c' : ℕ) (e' : Before) → Agrees e' trace.looks → (c' < trace.cost) ⊎ (k' < trace.height) →
        evaluated_in k' c' t e' ≡ None }
    ensures exactly { (k c : ℕ) (t : TaggedTree) (e : Before) → (evaluated_in k c t e ≡ None) ↔ IsPast k c t e }
    ensures agrees { (k c : ℕ) (t : TaggedTree) (e : Before) (trace : WideTrace) → evaluated_in k c t e ≡ Some trace →
        Agrees e trace.looks }
    ensures allowed { (k c : ℕ) (t : TaggedTree) (e : Before) (trace : WideTrace) → evaluated_in k c t e ≡ Some trace →
        (trace.cost ≤ c) × (trace.height ≤ k) }
{}

/// A value is no larger than its cost, and no deeper than its height.
pub fn size_law()
    ensures { (k c : ℕ) (t : TaggedTree) (e : Before) (trace : WideTrace) → evaluated_in k c t e ≡ Some trace →
        (size_of (plain trace.value) ≤ trace.cost) × (depth_of (plain trace.value) ≤ trace.height) }
{}

/// What the laws of traces and of size say of a tree holds in any frame. Without a frame this is evaluation itself.
pub fn frame_laws()
    ensures top { (k c : ℕ) (t : TaggedTree) (e : Before) → framed top k c t e ≡ evaluated_in k c t e }
    ensures supports { (f : Frame) (k c : ℕ) (t : TaggedTree) (e : Before) (trace : WideTrace) →
        framed f k c t e ≡ Some trace → SupportsFramed f trace t }
    ensures over { (f : Frame) (trace : WideTrace) (k c : ℕ) (t : TaggedTree) (e : Before) → SupportsFramed f trace t →
        Agrees e trace.looks → (c < trace.cost) ⊎ (k < trace.height) → framed f k c t e ≡ None }
    ensures exactly { (f : Frame) (k c : ℕ) (t : TaggedTree) (e : Before) →
        (framed f k c t e ≡ None) ↔ IsPastFramed f k c t e }
    ensures agrees { (f : Frame) (k c : ℕ) (t : TaggedTree) (e : Before) (trace : WideTrace) →
        framed f k c t e ≡ Some trace → Agrees e trace.looks }
    ensures cost { (f : Frame) (k c : ℕ) (t : TaggedTree) (e : Before) (trace : WideTrace) →
        framed f k c t e ≡ Some trace → trace.cost ≤ c }
    ensures height { (f : Frame) (k c : ℕ) (t : TaggedTree) (e : Before) (trace : WideTrace) →
        framed f k c t e ≡ Some trace → trace.height ≤ k }
    ensures size { (f : Frame) (k c : ℕ) (t : TaggedTree) (e : Before) (trace : WideTrace) →
        framed f k c t e ≡ Some trace → size_of (plain trace.value) ≤ trace.cost }
    ensures depth { (f : Frame) (k c : ℕ) (t : TaggedTree) (e : Before) (trace : WideTrace) →
        framed f k c t e ≡ Some trace → depth_of (plain trace.value) ≤ trace.height }
{}

/// What these laws say of a tree holds of trees that are evaluated one after the other in any frame. The values of all
/// together are no larger than the cost. No trees cost nothing, and look nothing up.
pub fn run_laws()
    ensures nothing { (f : Frame) (k c : ℕ) (e : Before) → run_framed f k c [] e ≡
        Some (record { values = []; looks = empty; writes = empty; cost = 0; height = 0 }) }
    ensures supports { (f : Frame) (k c : ℕ) (ts : List TaggedTree) (e : Before) (trace : RunTrace) →
        run_framed f k c ts e ≡ Some trace → SupportsRun f trace ts }
    ensures over { (f : Frame) (trace : RunTrace) (k c : ℕ) (ts : List TaggedTree) (e : Before) →
        SupportsRun f trace ts → Agrees e trace.looks → (c < trace.cost) ⊎ (k < trace.height) →
        run_framed f k c ts e ≡ None }
    ensures exactly { (f : Frame) (k c : ℕ) (ts : List TaggedTree) (e : Before) →
        (run_framed f k c ts e ≡ None) ↔ IsPastRun f k c ts e }
    ensures agrees { (f : Frame) (k c : ℕ) (ts : List TaggedTree) (e : Before) (trace : RunTrace) →
        run_framed f k c ts e ≡ Some trace → Agrees e trace.looks }
    ensures cost { (f : Frame) (k c : ℕ) (ts : List TaggedTree) (e : Before) (trace : RunTrace) →
        run_framed f k c ts e ≡ Some trace → trace.cost ≤ c }
    ensures height { (f : Frame) (k c : ℕ) (ts : List TaggedTree) (e : Before) (trace : RunTrace) →
        run_framed f k c ts e ≡ Some trace → trace.height ≤ k }
    ensures size { (f : Frame) (k c : ℕ) (ts : List TaggedTree) (e : Before) (trace : RunTrace) →
        run_framed f k c ts e ≡ Some trace → total_size (plains (vals trace.values)) ≤ trace.cost }
    ensures depth { (f : Frame) (k c : ℕ) (ts : List TaggedTree) (e : Before) (trace : RunTrace) →
        run_framed f k c ts e ≡ Some trace → deepest (plains (vals trace.values)) ≤ trace.height }
{}

/// Where the tree has an origin, each text of its value that has one is the text that is there in the tree, and the
/// origin of each node leads in it. A tree without an origin gives a value without origins.
pub fn origin_law()
    ensures { (k c : ℕ) (t : TaggedTree) (e : Before) (trace : WideTrace) → evaluated_in k c t e ≡ Some trace →
        ComesFrom t trace.value }
{}

/// `map-args` takes for its two tags just what is a label.
pub fn label_law()
    ensures { (l : List ℕ) → (is_label l ≡ true) ↔ IsLabel l }
{}

/// A law: the limits of evaluation, by which contracts and definitions name them, are these numbers.
pub fn limit_laws()
    ensures levels { MOST_LEVELS ≡ 400 }
    ensures turns { MOST_TURNS ≡ 65535 }
{}
