// Laws of what parts show.
ghost use Rattle.std.specs.Prelude.{◌≡◌, ℕ, List, [], ◌∷◌, Some, map};
ghost use Rattle.tx_tree.specs.WideTree.{WideTree};
ghost use Rattle.tx_origin.specs.Under.{value_under};
ghost use Rattle.tx_origin.specs.Values.{WideValue};
ghost use Rattle.tx_exec_form.specs.Runs.{Before};
ghost use Rattle.tx_exec_form.specs.Evaluated.{WideTrace};
ghost use Rattle.tx_parts.specs.Composed.{evaluates};
ghost use Rattle.tx_parts.specs.Parts.{parts, stored_part};
ghost use Rattle.tx_items.specs.declared.attributes.Attrs.{Attrs};
ghost use Rattle.tx_items.specs.Shows.{show, part_paragraphs, shown_paragraphs};
ghost use Rattle.tx_part_items.specs.ItemsUnder.{shown_under, paragraph_under};
ghost use Rattle.tx_part_items.specs.ShownParts.{ShownPart, paragraphs_in_tree, kept_values, own_value, tree_shown};
ghost use Rattle.tx_part_items.specs.ShownParts.{paragraphs_by_parts, errors_by_parts};

/// A law: a value whose origins are under a path shows what the value shows, with the items' origins under the path.
/// The paragraphs of a part in the tree are those that its value with origins under its path shows.
pub fn items_under_law()
    ensures shown { (base : List ℕ) (a : Attrs) (v : WideValue) →
        show a (value_under base v) ≡ shown_under base (show a v) }
    ensures paragraphs { (base : List ℕ) (a : Attrs) (v : WideValue) →
        shown_paragraphs a (value_under base v) ≡ map (paragraph_under base) (shown_paragraphs a v) }
    ensures part { (p : ShownPart) →
        paragraphs_in_tree p ≡ part_paragraphs (show p.before (value_under p.path p.value)).form p.end }
{}

/// A law: where a tree doesn't run out of steps or levels, it shows what its parts show, in order. Each part is shown
/// once, by its value alone.
pub fn parts_shown_law()
    ensures each { (k c : ℕ) (t : WideTree) (e : Before) (trace : WideTrace) (a : Attrs) →
        evaluates k c t e ≡ Some trace →
        map own_value (tree_shown k a (map stored_part (parts k c [] t e)) t).each
        ≡ kept_values (map stored_part (parts k c [] t e)) }
    ensures paragraphs { (k c : ℕ) (t : WideTree) (e : Before) (trace : WideTrace) (a : Attrs) →
        evaluates k c t e ≡ Some trace →
        shown_paragraphs a trace.value ≡ paragraphs_by_parts (tree_shown k a (map stored_part (parts k c [] t e)) t) }
    ensures errors { (k c : ℕ) (t : WideTree) (e : Before) (trace : WideTrace) (a : Attrs) →
        evaluates k c t e ≡ Some trace →
        (show a trace.value).errors ≡ errors_by_parts (tree_shown k a (map stored_part (parts k c [] t e)) t) }
    ensures after { (k c : ℕ) (t : WideTree) (e : Before) (trace : WideTrace) (a : Attrs) →
        evaluates k c t e ≡ Some trace →
        (show a trace.value).after ≡ (tree_shown k a (map stored_part (parts k c [] t e)) t).after }
{}
