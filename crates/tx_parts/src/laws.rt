// Laws of evaluation by parts.
ghost use Rattle.std.specs.Prelude.{Some, None, ◌≡◌, ◌<◌, ◌≤◌, ◌⊎◌, ℕ, suc, List};
ghost use Rattle.std.specs.Prelude.{map, ◌++◌, [], ◌∷◌, Option};
ghost use Rattle.std.specs.List.{AllByRecursion, IsDistinct, sum_by};
ghost use Rattle.std.specs.Map.{keys_of};
ghost use Rattle.std.specs.Ordering.{nat_cmp};
ghost use Rattle.std.specs.Cmp.Lexicographic.{slice_cmp};
ghost use Rattle.std.specs.FinMap.{get, empty, insert, from_entries};
ghost use Rattle.std.specs.Str.{bytes_eq};
ghost use Rattle.tx_tree.specs.WideTree.{WideTree};
ghost use Rattle.tx_env.specs.Environments.{NameMap, overlaid};
ghost use Rattle.tx_env.specs.Pairs.{Name};
ghost use Rattle.tx_origin.specs.Values.{WideValue, plain};
ghost use Rattle.tx_origin.specs.TaggedTrees.{TaggedTree};
ghost use Rattle.tx_exec_form.specs.Maps.{LookMap, noted};
ghost use Rattle.tx_exec_form.specs.Runs.{Before, State, Done, Over};
ghost use Rattle.tx_exec_form.specs.Frames.{Frame, top};
ghost use Rattle.tx_exec_form.specs.Rows.{ex, each};
ghost use Rattle.tx_exec_form.specs.Evaluated.{WideTrace, evaluated_in, paid};
ghost use Rattle.tx_exec_form.specs.Laws.{Agrees, Supports};
ghost use Rattle.tx_exec_form.specs.Framed.{framed, SupportsFramed, run_framed};
ghost use Rattle.tx_parts.specs.Atop.{atop, env_atop, past, both_looks};
ghost use Rattle.tx_origin.specs.Under.{tree_under, value_under};
ghost use Rattle.tx_parts.specs.Adding.{after_part, part_ran};
ghost use Rattle.tx_parts.specs.InFrames.{frame_under, ran_here, run_ran, run_joined};
ghost use Rattle.tx_parts.specs.Openness.{openness};
ghost use Rattle.tx_parts.specs.Composed.{evaluates, composed_as};
ghost use Rattle.tx_parts.specs.Layered.{composed};
ghost use Rattle.tx_parts.specs.Parts.{HasTrace, stored_part, part_cost, parts};
ghost use Rattle.tx_parts.specs.Fitting.{AllFit};
ghost use Rattle.tx_parts.specs.Standing.{StandsIn};

/// A law: a part does in the whole what it does alone. Alone it has the steps that the whole has left at `s`. Its
/// environment is that of the whole, overlaid with what the whole has set so far. A cached trace that agrees with this
/// environment replaces the part's evaluation where its cost and its height are allowed. Where they are not, the part
/// runs out of steps or levels, and the whole with it.
pub fn part_law()
    ensures part { (k : ℕ) (path : List ℕ) (t : TaggedTree) (e : Before) (s : State) → s.slack ≤ k →
        ex k (tree_under path t) top e s ≡ part_ran k path s (evaluated_in k s.left t (env_atop s.own e)) }
    ensures kept { (trace : WideTrace) (k : ℕ) (path : List ℕ) (t : TaggedTree) (e : Before) (s : State) → s.slack ≤ k →
        Supports trace t → Agrees (env_atop s.own e) trace.looks → trace.cost ≤ s.left → trace.height ≤ k →
        ex k (tree_under path t) top e s ≡ Done (value_under path trace.value) (after_part k s trace) }
    ensures too_dear { (trace : WideTrace) (k : ℕ) (path : List ℕ) (t : TaggedTree) (e : Before) (s : State) →
        s.slack ≤ k → Supports trace t → Agrees (env_atop s.own e) trace.looks →
        (s.left < trace.cost) ⊎ (k < trace.height) → ex k (tree_under path t) top e s ≡ Over }
    ensures over { (trace : WideTrace) (k c : ℕ) (t : TaggedTree) (e : Before) → Supports trace t →
        Agrees e trace.looks → (c < trace.cost) ⊎ (k < trace.height) → evaluated_in k c t e ≡ None }
{}

/// A law: in any frame a part does in the whole what it does alone, as without one. The frame of the whole has the
/// arguments of the part's frame, with their origins under the part's path. Where the origins are those of the whole
/// already, `here` says the same without a path. Trees one after the other do in the whole what they do alone, and
/// their trace is that of the first joined with that of the others.
pub fn frame_law()
    ensures part { (f : Frame) (k : ℕ) (path : List ℕ) (t : TaggedTree) (e : Before) (s : State) → s.slack ≤ k →
        ex k (tree_under path t) (frame_under path f) e s ≡
        part_ran k path s (framed f k s.left t (env_atop s.own e)) }
    ensures here { (f : Frame) (k : ℕ) (t : TaggedTree) (e : Before) (s : State) → s.slack ≤ k →
        ex k t f e s ≡ ran_here k s (framed f k s.left t (env_atop s.own e)) }
    ensures kept { (f : Frame) (trace : WideTrace) (k : ℕ) (path : List ℕ) (t : TaggedTree) (e : Before) (s : State) →
        s.slack ≤ k → SupportsFramed f trace t → Agrees (env_atop s.own e) trace.looks → trace.cost ≤ s.left →
        trace.height ≤ k →
        ex k (tree_under path t) (frame_under path f) e s ≡
        Done (value_under path trace.value) (after_part k s trace) }
    ensures too_dear { (f : Frame) (trace : WideTrace) (k : ℕ) (path : List ℕ) (t : TaggedTree) (e : Before)
        (s : State) → s.slack ≤ k → SupportsFramed f trace t → Agrees (env_atop s.own e) trace.looks →
        (s.left < trace.cost) ⊎ (k < trace.height) → ex k (tree_under path t) (frame_under path f) e s ≡ Over }
    ensures run { (f : Frame) (k : ℕ) (path : List ℕ) (ts : List TaggedTree) (e : Before) (s : State) → s.slack ≤ k →
        each (ex k) (frame_under path f) [] (map (tree_under path) ts) e s ≡
        run_ran k path s (run_framed f k s.left ts (env_atop s.own e)) }
    ensures next { (f : Frame) (k c : ℕ) (t : TaggedTree) (ts : List TaggedTree) (e : Before) →
        run_framed f k c (t ∷ ts) e ≡ run_joined f k c t ts e }
{}

/// A law: the trace of an open tree is composed of the traces of its inner trees, each evaluated alone in the
/// environment before it. By induction, it is composed of the traces of trees that aren't open. The open tree runs out
/// of steps or levels exactly where one of them does, or where the steps or the levels round them run out.
pub fn composition_law()
    ensures inner { (k c : ℕ) (t : WideTree) (e : Before) →
        evaluates (suc k) c t e ≡ composed_as (openness t) k (evaluates k) c t e }
    ensures nested { (k c : ℕ) (t : WideTree) (e : Before) → evaluates k c t e ≡ composed k c t e }
{}

/// A law: where the trace of a tree fits in another environment, so do the traces of its parts. There the tree has the
/// same parts with the same traces, with any number of steps that is enough for its trace. Each part has a trace.
pub fn fitting_law()
    ensures same_parts { (k c n : ℕ) (path : List ℕ) (t : WideTree) (e d : Before) (trace : WideTrace) →
        evaluates k c t e ≡ Some trace → Agrees d trace.looks → trace.cost ≤ n →
        AllFit (parts k c path t e) (parts k n path t d) }
    ensures same_stored { (k c n : ℕ) (path : List ℕ) (t : WideTree) (e d : Before) (trace : WideTrace) →
        evaluates k c t e ≡ Some trace → Agrees d trace.looks → trace.cost ≤ n →
        map stored_part (parts k n path t d) ≡ map stored_part (parts k c path t e) }
    ensures all_traced { (k c : ℕ) (path : List ℕ) (t : WideTree) (e : Before) (trace : WideTrace) →
        evaluates k c t e ≡ Some trace → AllByRecursion HasTrace (parts k c path t e) }
{}

/// A law: each part is the tree to which its path leads below that of the whole, and no two parts have one path.
pub fn standing_law()
    ensures stand { (k c : ℕ) (path : List ℕ) (t : WideTree) (e : Before) →
        AllByRecursion (StandsIn path t) (parts k c path t e) }
    ensures distinct { (k c : ℕ) (path : List ℕ) (t : WideTree) (e : Before) →
        IsDistinct bytes_eq (map (λ p. p.path) (parts k c path t e)) }
{}

/// A law: the parts of a tree together cost at most what the tree costs, or all its steps where it runs out.
pub fn cost_law()
    ensures { (k c : ℕ) (path : List ℕ) (t : WideTree) (e : Before) →
        sum_by part_cost (parts k c path t e) ≤ paid c (evaluates k c t e) }
{}

/// A law: the looks of two evaluations in order. The first has set `own` and looked up `looks`, the second `more`.
pub fn looks_law()
    ensures both { (e : Before) (own : NameMap) (looks more : LookMap) → Agrees e looks →
        Agrees (env_atop own e) more → Agrees e (both_looks looks own more) }
    ensures first { (d : Before) (own : NameMap) (looks more : LookMap) → Agrees d (both_looks looks own more) →
        Agrees d looks }
    ensures second { (d e : Before) (own : NameMap) (looks more : LookMap) → Agrees e looks →
        Agrees (env_atop own e) more → Agrees d (both_looks looks own more) → Agrees (env_atop own d) more }
    ensures nothing { (own : NameMap) (looks : LookMap) → both_looks looks own empty ≡ looks }
    ensures at_set { (own : NameMap) (looks more : LookMap) (x : Name) (t : WideTree) (found : Option WideTree) →
        get own x ≡ Some t → both_looks looks own (noted more x found) ≡ both_looks looks own more }
    ensures at_unset { (own : NameMap) (looks more : LookMap) (x : Name) (found : Option WideTree) →
        get own x ≡ None → both_looks looks own (noted more x found) ≡ noted (both_looks looks own more) x found }
    ensures more { (looks : List (Name × Option WideTree)) (x : Name) (found : Option WideTree) →
        from_entries {R = slice_cmp nat_cmp} (looks ++ (x, found) ∷ []) ≡ noted (from_entries looks) x found }
{}

/// A law: what two evaluations in order have set.
pub fn atop_law()
    ensures twice { (later earlier : NameMap) (e : Before) →
        env_atop (atop later earlier) e ≡ env_atop later (env_atop earlier e) }
    ensures nothing { (earlier : NameMap) → atop empty earlier ≡ earlier }
    ensures set { (later earlier : NameMap) (x : Name) (t : WideTree) →
        atop (insert later x t) earlier ≡ insert (atop later earlier) x t }
    ensures overlaid { (m : NameMap) (pairs : List (Name × WideTree)) → IsDistinct bytes_eq (keys_of pairs) →
        get (overlaid m pairs) ≡ env_atop (from_entries pairs) (get m) }
{}

/// A law: what a `with` leaves of its inner tree's looks and writes, name by name.
pub fn past_law()
    ensures looks { (own : NameMap) (looks : LookMap) → both_looks empty own looks ≡ past own looks }
    ensures nothing { (own : NameMap) → past own (empty {X = WideTree}) ≡ empty }
    ensures at_set { (own writes : NameMap) (x : Name) (t v : WideTree) → get own x ≡ Some t →
        past own (insert writes x v) ≡ past own writes }
    ensures at_unset { (own writes : NameMap) (x : Name) (v : WideTree) → get own x ≡ None →
        past own (insert writes x v) ≡ insert (past own writes) x v }
{}
