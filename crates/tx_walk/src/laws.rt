// Laws of what a walk returns.
ghost use Rattle.std.specs.Prelude.{◌≡◌, ◌≤◌, ℕ, List, [], map};
ghost use Rattle.std.specs.List.{IsDistinct};
ghost use Rattle.std.specs.Str.{bytes_eq};
ghost use Rattle.tx_tree.specs.WideTree.{WideTree};
ghost use Rattle.tx_exec_form.specs.Runs.{Before};
ghost use Rattle.tx_exec_form.specs.Evaluated.{paid};
ghost use Rattle.tx_parts.specs.Composed.{evaluates};
ghost use Rattle.tx_parts.specs.Opening.{Sheller};
ghost use Rattle.tx_parts.specs.Parts.{parts, parts_by};
ghost use Rattle.tx_walk.specs.declared.part.Part.{Part as DonePart};
ghost use Rattle.tx_walk.specs.Held.{Store, Stores, IsSound, AreSound, only, charges};
ghost use Rattle.tx_walk.specs.Walked.{kept_in, paths_of, seen, seen_in};

/// A law: the parts that a walk returns are such as the next walk of the tree requires, whatever shells trees have.
pub fn walked_law()
    ensures sound { (kept : Stores) (sheller : Sheller) (k c : ℕ) (t : WideTree) (e : Before) (done : List DonePart) →
        map seen done ≡ map (seen_in kept) (parts_by sheller k c [] t e) → IsSound (kept_in done) [] t }
    ensures distinct { (kept : Stores) (sheller : Sheller) (k c : ℕ) (t : WideTree) (e : Before)
        (done : List DonePart) → map seen done ≡ map (seen_in kept) (parts_by sheller k c [] t e) →
        IsDistinct bytes_eq (paths_of done) }
{}

/// A law: an empty cache is such as a walk of any tree requires. A cache that is sound is sound with an empty spare.
pub fn kept_law()
    ensures nothing { (t : WideTree) → IsSound (kept_in []) [] t }
    ensures distinct { IsDistinct bytes_eq (paths_of []) }
    ensures alone { (kept : Store) (t : WideTree) → IsSound kept [] t → AreSound (only kept) [] t }
{}

/// A law: the parts that aren't held are charged no more than the tree costs, or than its steps where it runs out.
pub fn charges_law()
    ensures { (kept : Stores) (k c : ℕ) (path : List ℕ) (t : WideTree) (e : Before) →
        charges kept (parts k c path t e) ≤ paid c (evaluates k c t e) }
{}
