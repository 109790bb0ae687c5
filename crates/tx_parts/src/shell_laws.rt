// Laws of evaluation by parts where some tags have shells.
ghost use Rattle.std.specs.Prelude.{Some, ◌≡◌, ◌≤◌, ◌+◌, ℕ, suc, List, [], ◌∷◌, map};
ghost use Rattle.std.specs.List.{AllByRecursion, IsDistinct, sum_by};
ghost use Rattle.std.specs.Str.{bytes_eq};
ghost use Rattle.tx_tree.specs.WideTree.{WideTree, Forest, node};
ghost use Rattle.tx_env.specs.Pairs.{Name};
ghost use Rattle.tx_origin.specs.TaggedTrees.{TaggedTree};
ghost use Rattle.tx_exec_form.specs.Runs.{Before, State};
ghost use Rattle.tx_exec_form.specs.Frames.{top};
ghost use Rattle.tx_exec_form.specs.Evaluated.{WideTrace, paid};
ghost use Rattle.tx_exec_form.specs.Laws.{Agrees};
ghost use Rattle.tx_parts.specs.Atop.{env_atop};
ghost use Rattle.tx_parts.specs.Adding.{part_ran};
ghost use Rattle.tx_parts.specs.Shells.{Layer, Shell, IsShell, Opener, IsOpener, in_layers};
ghost use Rattle.tx_parts.specs.MacroBodies.{IsCallOf};
ghost use Rattle.tx_parts.specs.Opening.{Sheller, no_shells, opens_nothing, shells_by, opening};
ghost use Rattle.tx_parts.specs.Composed.{evaluates};
ghost use Rattle.tx_parts.specs.Layered.{layer_values, evaluates_in, composed_layers, composed_opened, composed_by};
ghost use Rattle.tx_parts.specs.Shellers.{IsSheller};
ghost use Rattle.tx_parts.specs.Parts.{HasTrace, stored_part, part_cost, parts_by, parts_in};
ghost use Rattle.tx_parts.specs.LayerCosts.{Holder, HoldsMore, StaysHeld, layer_costs_by, layer_costs_in};
ghost use Rattle.tx_parts.specs.Fitting.{AllFit};
ghost use Rattle.tx_parts.specs.Standing.{StandsIn};

/// A law: the shell that an opener gives for any other tag is the tag's shell. It is the same in each environment that
/// agrees with the looks of the tag's evaluation. An opener may open nothing.
pub fn opener_law()
    ensures sheller { (opener : Opener) → IsOpener opener → IsSheller (shells_by opener) }
    ensures closed { IsSheller no_shells }
    ensures nothing { IsOpener opens_nothing }
    ensures nothing_opened { shells_by opens_nothing ≡ no_shells }
{}

/// A law: a tag whose label has a macro, the body of which is layers of `with` round an argument, has the shell of
/// these layers, where their trees do in the tag's frame what they do without one.
pub fn macro_law()
    ensures { (label : List ℕ) (ts : Forest) (e : Before) (params : List Name) (ls : List Layer) (x : Name) (i : ℕ) →
        IsCallOf label ts e params ls x i → IsShell (record { layers = ls; inner = i }) (node label ts) e }
{}

/// A law: the trace of a tree in layers is composed of the traces of the layers' trees and of the tree. What a layer
/// sets is set after its trees are evaluated. In the whole, the tree in layers does what its trace says.
pub fn layers_law()
    ensures inner { (k : ℕ) (ls : List Layer) (i c : ℕ) (t : WideTree) (e : Before) →
        evaluates_in (suc k) ls i c t e ≡ composed_layers k (evaluates k) (evaluates_in k) ls i c t e }
    ensures part { (k : ℕ) (ls : List Layer) (i : ℕ) (t : WideTree) (e : Before) (s : State) → s.slack ≤ k →
        in_layers k ls (record { tree = t; at = Some (i ∷ []) }) top e s ≡
        part_ran k [] s (evaluates_in k ls i s.left t (env_atop s.own e)) }
    ensures cost { (k : ℕ) (ls : List Layer) (i c : ℕ) (t : WideTree) (e : Before) (trace : WideTrace) →
        evaluates_in k ls i c t e ≡ Some trace → trace.cost ≤ c }
    ensures height { (k : ℕ) (ls : List Layer) (i c : ℕ) (t : WideTree) (e : Before) (trace : WideTrace) →
        evaluates_in k ls i c t e ≡ Some trace → trace.height ≤ k }
    ensures agrees { (k : ℕ) (ls : List Layer) (i c : ℕ) (t : WideTree) (e : Before) (trace : WideTrace) →
        evaluates_in k ls i c t e ≡ Some trace → Agrees e trace.looks }
    ensures again { (k : ℕ) (ls : List Layer) (i c n : ℕ) (t : WideTree) (e d : Before) (trace : WideTrace) →
        evaluates_in k ls i c t e ≡ Some trace → Agrees d trace.looks → trace.cost ≤ n →
        evaluates_in k ls i n t d ≡ Some trace }
    ensures same_values { (k : ℕ) (l : Layer) (ls : List Layer) (i c n : ℕ) (t : WideTree) (e d : Before)
        (trace : WideTrace) → evaluates_in (suc k) (l ∷ ls) i c t e ≡ Some trace → Agrees d trace.looks →
        trace.cost ≤ n → layer_values k l n d ≡ layer_values k l c e }
{}

/// A law: where these are shells of trees, the trace of a tree is composed of those of its inner trees. By induction,
/// it is composed of the traces of its parts and of the trees of layers.
pub fn opened_composition_law()
    ensures inner { (sheller : Sheller) → IsSheller sheller → (k c : ℕ) (t : WideTree) (e : Before) →
        evaluates (suc k) c t e ≡ composed_opened (opening sheller t e) k (evaluates k) (evaluates_in k) c t e }
    ensures nested { (sheller : Sheller) → IsSheller sheller → (k c : ℕ) (t : WideTree) (e : Before) →
        evaluates k c t e ≡ composed_by sheller k c t e }
{}

/// A law: where the trace of a tree fits in another environment, so do the traces of its parts, as in `fitting_law`.
pub fn opened_fitting_law()
    ensures same_parts { (sheller : Sheller) → IsSheller sheller → (k c n : ℕ) (path : List ℕ) (t : WideTree)
        (e d : Before) (trace : WideTrace) → evaluates k c t e ≡ Some trace → Agrees d trace.looks → trace.cost ≤ n →
        AllFit (parts_by sheller k c path t e) (parts_by sheller k n path t d) }
    ensures same_stored { (sheller : Sheller) → IsSheller sheller → (k c n : ℕ) (path : List ℕ) (t : WideTree)
        (e d : Before) (trace : WideTrace) → evaluates k c t e ≡ Some trace → Agrees d trace.looks → trace.cost ≤ n →
        map stored_part (parts_by sheller k n path t d) ≡ map stored_part (parts_by sheller k c path t e) }
    ensures all_traced { (sheller : Sheller) → IsSheller sheller → (k c : ℕ) (path : List ℕ) (t : WideTree)
        (e : Before) (trace : WideTrace) → evaluates k c t e ≡ Some trace →
        AllByRecursion HasTrace (parts_by sheller k c path t e) }
{}

/// A law: each part is the tree to which its path leads, and no two parts have one path, whatever shells trees have.
pub fn opened_standing_law()
    ensures stand { (sheller : Sheller) (k c : ℕ) (path : List ℕ) (t : WideTree) (e : Before) →
        AllByRecursion (StandsIn path t) (parts_by sheller k c path t e) }
    ensures distinct { (sheller : Sheller) (k c : ℕ) (path : List ℕ) (t : WideTree) (e : Before) →
        IsDistinct bytes_eq (map (λ p. p.path) (parts_by sheller k c path t e)) }
{}

/// A law: the parts of a tree and the trees of its layers together cost at most what the tree costs, or all its steps
/// where it runs out. This is true whatever is held of the layers, and of a tree in layers too. Where nothing has a
/// shell, no layer costs anything. Where more is held, layers cost no more. Where layers cost nothing, they cost
/// nothing in each environment that agrees with the looks of the tree's trace.
pub fn opened_cost_law()
    ensures tree { (held : Holder) (sheller : Sheller) → IsSheller sheller → (k c : ℕ) (path : List ℕ)
        (t : WideTree) (e : Before) →
        sum_by part_cost (parts_by sheller k c path t e) + layer_costs_by held sheller k c t e ≤
        paid c (evaluates k c t e) }
    ensures inside { (held : Holder) (sheller : Sheller) → IsSheller sheller → (k : ℕ) (ls : List Layer) (i c : ℕ)
        (path : List ℕ) (t : WideTree) (e : Before) → sum_by part_cost (parts_in sheller k ls i c path t e)
        + layer_costs_in held sheller k ls c t e ≤ paid c (evaluates_in k ls i c t e) }
    ensures nothing { (held : Holder) (k c : ℕ) (t : WideTree) (e : Before)
        → layer_costs_by held no_shells k c t e ≡ 0 }
    ensures fewer { (held more : Holder) (sheller : Sheller) → HoldsMore held more → (k c : ℕ) (t : WideTree)
        (e : Before) → layer_costs_by more sheller k c t e ≤ layer_costs_by held sheller k c t e }
    ensures again { (held : Holder) → StaysHeld held → (sheller : Sheller) → IsSheller sheller → (k c n : ℕ)
        (t : WideTree) (e d : Before) (trace : WideTrace) → evaluates k c t e ≡ Some trace →
        Agrees d trace.looks → trace.cost ≤ n → layer_costs_by held sheller k c t e ≡ 0 →
        layer_costs_by held sheller k n t d ≡ 0 }
{}
