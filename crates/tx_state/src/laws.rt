// Laws of undo and redo.
ghost use Rattle.std.specs.Prelude.{◌≡◌, ℕ, List, Some, None, Ok};
ghost use Rattle.tx_state.specs.declared.edits.Edit.{Edit as OneEdit};
ghost use Rattle.tx_state.specs.States.{State};
ghost use Rattle.tx_state.specs.Edits.{edited, redone_state};
ghost use Rattle.tx_state.specs.Undoing.{undone_times, redone_times, Restores, RunsOut};

/// As many undos as edits, if they are at most 1,000, give back the buffers and the cursor as they were. Past the last
/// 1,000 edits there is no undo, and not before. Redos make all again that undos took back, and undos take back all
/// that redos made again: buffers, cursor, past and future are as before. After an edit nothing can be redone.
pub fn undo_law()
    ensures restores { (es : List OneEdit) (s u : State) → Restores es s u }
    ensures no_more { (es : List OneEdit) (s u : State) → RunsOut es s u }
    ensures redoes { (n : ℕ) (u v : State) → undone_times n u ≡ Some v → redone_times n v ≡ Some u }
    ensures undoes { (n : ℕ) (u v : State) → redone_times n u ≡ Some v → undone_times n v ≡ Some u }
    ensures no_redo { (e : OneEdit) (s u : State) → edited e s ≡ Ok u → redone_state u ≡ None }
{}
