// A law of evaluation by what is stored of parts.
ghost use Rattle.std.specs.Prelude.{Some, None, ◌≡◌, ℕ, List, ◌++◌, map};
ghost use Rattle.tx_tree.specs.WideTree.{WideTree};
ghost use Rattle.tx_exec_form.specs.Runs.{Before};
ghost use Rattle.tx_exec_form.specs.Evaluated.{WideTrace};
ghost use Rattle.tx_parts.specs.Opening.{Sheller, no_shells};
ghost use Rattle.tx_parts.specs.Composed.{evaluates};
ghost use Rattle.tx_parts.specs.Shellers.{IsSheller};
ghost use Rattle.tx_parts.specs.Parts.{Stored, stored_part, parts, parts_by};
ghost use Rattle.tx_parts.specs.Recomposed.{recomposed_by};

/// A law: a tree's trace is put together from what is stored of its parts, in order, and none of them is evaluated.
/// Each of them is taken, and what follows in the list is left. Where the tree runs out of steps or levels, there is no
/// result.
pub fn recomposition_law()
    ensures whole { (sheller : Sheller) → IsSheller sheller → (k c : ℕ) (path : List ℕ) (t : WideTree) (e : Before)
        (trace : WideTrace) (rest : List Stored) → evaluates k c t e ≡ Some trace →
        recomposed_by sheller k c t e (map stored_part (parts_by sheller k c path t e) ++ rest) ≡ Some (trace, rest) }
    ensures over { (sheller : Sheller) → IsSheller sheller → (k c : ℕ) (path : List ℕ) (t : WideTree) (e : Before)
        (rest : List Stored) → evaluates k c t e ≡ None →
        recomposed_by sheller k c t e (map stored_part (parts_by sheller k c path t e) ++ rest) ≡ None }
    ensures closed { (k c : ℕ) (path : List ℕ) (t : WideTree) (e : Before) (trace : WideTrace) (rest : List Stored) →
        evaluates k c t e ≡ Some trace →
        recomposed_by no_shells k c t e (map stored_part (parts k c path t e) ++ rest) ≡ Some (trace, rest) }
{}
