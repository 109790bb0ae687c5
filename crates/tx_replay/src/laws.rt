// Laws of a walk by parts.
ghost use Rattle.std.specs.Prelude.{◌≡◌, ◌≤◌, ℕ, List, [], map, Option};
ghost use Rattle.tx_tree.specs.WideTree.{WideTree};
ghost use Rattle.tx_exec_form.specs.Runs.{Before};
ghost use Rattle.tx_exec_form.specs.Evaluated.{WideTrace};
ghost use Rattle.tx_kept.specs.declared.path_map.Entry.{Entry};
ghost use Rattle.tx_parts.specs.Parts.{parts};
ghost use Rattle.tx_parts.specs.Shellers.{IsSheller};
ghost use Rattle.tx_replay.specs.declared.cached.CachedPart.{CachedPart as OnePart};
ghost use Rattle.tx_replay.specs.Cached.{seen, store_below};
ghost use Rattle.tx_replay.specs.Held.{Stores, IsSound};
ghost use Rattle.tx_replay.specs.Seen.{Guide, seen_parts};
ghost use Rattle.tx_replay.specs.Walks.{Stage, walk, tree_told};

/// A law: where these are shells of trees, a walk comes to what evaluation of the tree does. It has the parts of the
/// tree, and is charged what they and the layers cost.
pub fn walking_law()
    ensures { (g : Guide) → IsSheller g.sheller → (k : ℕ) (path : List ℕ) (t : WideTree) (e : Before) (s : Stage) →
        s.state.slack ≤ k → walk g k path t e s ≡ tree_told g k path t e s }
{}

/// A law: the parts that are returned of a unit are such as the next evaluation of it requires of a cache, and so is an
/// empty cache.
pub fn returned_law()
    ensures sound { (kept : Stores) (k c : ℕ) (t : WideTree) (e : Before) (o : Option WideTrace)
        (xs : List (Entry OnePart)) → map seen xs ≡ seen_parts kept (parts k c [] t e) o →
        IsSound (store_below kept.base xs) [] t }
    ensures nothing { (base : List ℕ) (t : WideTree) → IsSound (store_below base []) [] t }
{}
