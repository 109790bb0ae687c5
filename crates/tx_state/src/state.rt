// The buffers, the cursor and the history.
ghost use Rattle.std.specs.Prelude.{◌≡◌, ◌≢◌, ◌≤◌, ◌<◌, ◌+◌, ◌*◌, ◌∷◌, ◌==◌, List, length, take, if◌then◌else◌};
ghost use Rattle.std.specs.Prelude.{IfOk, IfErr, OnOk, OnErr, Some, None, Ok, Err};
ghost use Rattle.std.specs.Option.{option_map_or};
ghost use Rattle.tx_tree.specs.Places.{IsPlace};
ghost use Rattle.tx_mod.specs.InTurn.{inverses_of, AreSoundMods};
ghost use Rattle.tx_mod.specs.declared.faults.ApplyFault.{ApplyFault};
ghost use Rattle.tx_mod.specs.declared.faults.ModFault.{ModFault as Cause};
ghost use Rattle.tx_tree.specs.declared.faults.PlaceFault.{PlaceFault as PlaceCause};
ghost use Rattle.tx_doc.specs.Buffers.{document_of, tree_of, with_tree, number_of, NamesDiffer, AreFormed};
ghost use Rattle.tx_state.specs.declared.faults.GoFault.{GoFault};
ghost use Rattle.tx_state.specs.declared.faults.LeaveFault.{LeaveFault};
ghost use Rattle.tx_state.specs.declared.faults.UndoFault.{UndoFault};
ghost use Rattle.tx_state.specs.States.{KeptEdit, State as WholeState, opening_state};
ghost use Rattle.tx_state.specs.Edits.{edited, undone_state, redone_state, cursor_after, GivesPlace, CursorGoes};
ghost use Rattle.tx_state.specs.Edits.{IsAstray, Selects};
ghost use Rattle.tx_state.specs.Leaving.{leaving, tree_without, mods_among};
ghost use Rattle.tx_state.specs.Ready.{IsReadyChange, IsReadyUndo, IsReadyRedo, with_edit, cost_both_ways, first_cost};

use crate::backward::all_sound;
use crate::changing::change_in_turn;
use crate::cursors::first_cursor;
use crate::edits::{Edit, Entry, Prepared};
use crate::faults::{GoFault, LeaveFault, NoBuffer, UndoFault};
use crate::leaving::left_of;
use crate::preparing::{chosen, step_along, tree_at};
use crate::{MOST_BUFFERS, MOST_UNDO};
use std::alloc::Global;
use std::marker::Model;
use std::mem;
use std::sync::ledger::Ledger;
use tx_base::{Memory, Steps};
use tx_commute::Left;
use tx_doc::{Buffer, formed_law, number_of};
use tx_history::History;
use tx_mod::{ApplyFault, ModList};
use tx_tree::{Path, Place, PlaceFault, Tree};

/// The buffers of a session, the document first, with a cursor in the document, and the edits that can be undone and
/// redone.
///
/// Contracts see the buffers, the number of the selected one, the cursor, and all former and later moments whole, with
/// the edits between them (`specs/States.antt`).
#[derive(Drop)]
pub struct EditorState {
    buffers: Vec<Buffer>,
    selected: usize,
    cursor: Place,
    history: History<Entry>,
}

impl Model for EditorState {
    ghost use Rattle.tx_state.specs.States.{State};

    ghost Value = { State };

    ghost use Rattle.tx_state.specs.Kept.{state_code, stored_state, IsKept};

    ghost coded = { state_code };

    ghost view = { stored_state };

    ghost invariant = { IsKept };
}

// Puts a tree and a cursor in place of the present ones, and returns the former ones.
fn exchange(
    buffers: &mut Vec<Buffer>,
    cursor: &mut Place,
    buffer: u32,
    tree: Tree,
    to: Place,
) -> (Tree, Place)
    requires { buffer < length buffers.old.items }
    ensures buffers { buffers.new.items ≡ with_tree buffers.old.items buffer tree }
    ensures cursor { cursor.new ≡ to }
    ensures tree { result.0 ≡ tree_of buffers.old.items buffer }
    ensures former { result.1 ≡ cursor.old }
{
    let former = mem::replace(&mut buffers[buffer as usize].tree, tree);
    (former, mem::replace(cursor, to))
}

impl EditorState {
    #[tactic(auto, using(crate::proofs::Leaves::first_place, std::proofs::lemmas::Grind::common_steps))]
    /// The state in which a session begins with these buffers, of which there are 1 to 64, no two of one name. The
    /// document is selected. The cursor is before the first leaf of the document's body, or before the body where it
    /// has none, or before the root where there is no body. The one error is `Memory`.
    pub fn open(alloc: Global, buffers: Vec<Buffer>) -> Result<EditorState, Memory>
        requires some { 1 ≤ length buffers.items }
        requires few { length buffers.items ≤ MOST_BUFFERS }
        requires names { NamesDiffer buffers.items }
        ensures { IfOk result (λ state. state ≡ opening_state buffers.items) }
    {
        let document = &buffers[0].tree;
        let _size = document.size();
        let cursor = first_cursor(alloc, document)?;
        Ok(EditorState {
            buffers,
            selected: 0,
            cursor,
            history: History::new(alloc, MOST_UNDO)?,
        })
    }

    /// The buffers, the document first: 1 to 64, no two of one name, each tree well formed and within the limits. At
    /// most 1,000 edits can be undone or redone, at any time.
    #[tactic(auto, using(crate::proofs::Moments::count_rules))]
    pub fn buffers(&self) -> &[Buffer]
        ensures buffers { result.now ≡ self.now.buffers }
        ensures some { 1 ≤ length self.now.buffers }
        ensures few { length self.now.buffers ≤ MOST_BUFFERS }
        ensures names { NamesDiffer self.now.buffers }
        ensures formed { AreFormed self.now.buffers }
        ensures kept { length self.now.past + length self.now.future ≤ MOST_UNDO }
    {
        let _len = self.history.len();
        formed_law(&self.buffers);
        &self.buffers
    }

    /// The number of the selected buffer.
    pub fn selected(&self) -> usize
        ensures selected { result ≡ self.now.selected }
        ensures within { self.now.selected < length self.now.buffers }
    {
        self.selected
    }

    /// The tree of the document.
    pub fn document(&self) -> &Tree
        ensures { result.now ≡ document_of self.now.buffers }
    {
        &self.buffers[0].tree
    }

    /// The cursor, which is a place of the document.
    pub fn cursor(&self) -> &Place
        ensures cursor { result.now ≡ self.now.cursor }
        ensures valid { IsPlace (document_of self.now.buffers) self.now.cursor.path self.now.cursor.offset }
    {
        &self.cursor
    }

    /// Selects the buffer of this name. `NoBuffer` comes exactly where no buffer has it, and changes nothing.
    pub fn select(&mut self, name: &[u8]) -> Result<(), NoBuffer>
        ensures ok { OnOk result (Selects self.old name.now self.new) }
        ensures none { OnErr result (number_of self.old.buffers name.now ≡ None) }
        ensures kept { OnErr result (self.new ≡ self.old) }
    {
        match number_of(&self.buffers, name) {
            Some(k) => {
                self.selected = k;
                Ok(())
            }
            None => Err(NoBuffer),
        }
    }

    // The cursor, where the edit's modifications move it.
    fn moving_cursor(&self, alloc: Global, edit: &Edit) -> Result<Option<Place>, Memory>
        ensures { IfOk result (λ at. at ≡ (if edit.now.buffer == 0 then Some self.now.cursor else None)) }
    {
        if edit.buffer == 0 {
            Ok(Some(self.cursor.copy(alloc)?))
        } else {
            Ok(None)
        }
    }

    /// Makes an edit ready: its modifications are applied in order, and the first cause why one can't be refuses the
    /// whole. A cursor that the edit gives is a place of the document afterwards. The state is unchanged. It takes at
    /// most twice as many steps as all paths have numbers, and six more for each modification.
    pub fn prepare_edit<L: Ledger>(
        &self,
        alloc: Global,
        edit: Edit,
        steps: &mut Steps<L>,
    ) -> Result<Prepared, ApplyFault>
        requires buffer { edit.buffer < length self.now.buffers }
        requires cursor { GivesPlace edit self.now }
        ensures ready { IfOk result (IsReadyChange self.now) }
        ensures edit { IfOk result (λ p.
            (p.buffer ≡ edit.buffer) × (p.mods ≡ edit.mods) × (p.cursor ≡ cursor_after edit self.now)) }
        ensures ok { IfOk result (λ p. edited edit self.now ≡ Ok (with_edit self.now p)) }
        ensures refused { IfErr result (λ fault.
            (cause : Cause) → fault ≡ ApplyFault.Refused cause → edited edit self.now ≡ Err cause) }
        ensures counted { steps.new ≤ steps.old + cost_both_ways edit.mods }
    {
        let moving = self.moving_cursor(alloc, &edit)?;
        let tree = tree_at(&self.buffers, edit.buffer);
        let changed = change_in_turn(alloc, tree, edit.mods.as_slice(), moving, steps)?;
        let Edit {
            buffer,
            mods,
            cursor,
        } = edit;
        let cursor = chosen(alloc, cursor, changed.place, &self.cursor)?;
        Ok(Prepared {
            buffer,
            tree: changed.tree,
            mods,
            back: ModList::from(changed.back),
            cursor,
        })
    }

    /// Puts an edit in place that was made ready for this state, and returns the buffer's former tree. It takes no
    /// memory. The moment before can be undone, of the last 1,000, and what was undone can't be redone any more.
    pub fn finish_edit(&mut self, prepared: Prepared) -> Tree
        requires { IsReadyChange self.old prepared }
        ensures done { self.new ≡ with_edit self.old prepared }
        ensures former { result ≡ tree_of self.old.buffers prepared.buffer }
    {
        let Prepared {
            buffer,
            tree,
            back,
            cursor,
            ..
        } = prepared;
        let (former, at) = exchange(&mut self.buffers, &mut self.cursor, buffer, tree, cursor);
        self.history.done(Entry {
            buffer,
            mods: back,
            cursor: at,
        });
        former
    }

    /// Makes ready that the last edit is taken back, by the inverses of its modifications, from the last to the first.
    /// `Nothing` comes exactly where there is none of the last 1,000 edits left to take back. The state is unchanged.
    /// As many steps are allowed as for the edit.
    pub fn prepare_undo<L: Ledger>(
        &self,
        alloc: Global,
        steps: &mut Steps<L>,
    ) -> Result<Prepared, UndoFault>
        ensures ready { IfOk result (IsReadyUndo self.now) }
        ensures inverses { IfOk result (λ p. (e : KeptEdit) (past : List KeptEdit) → self.now.past ≡ e ∷ past
            → (p.buffer ≡ e.buffer) × (p.mods ≡ inverses_of e.mods (tree_of e.moment.buffers e.buffer))) }
        ensures nothing { result ≡ Err UndoFault.Nothing → undone_state self.now ≡ None }
        ensures counted { steps.new ≤ steps.old + first_cost self.now.past }
    {
        match self.history.last_done() {
            Some(entry) => Ok(step_along(alloc, &self.buffers, entry, steps)?),
            None => Err(UndoFault::Nothing),
        }
    }

    /// Puts in place that the last edit is taken back, as it was made ready for this state, and returns the buffer's
    /// former tree. It takes no memory. Buffers and cursor are those before the edit.
    pub fn finish_undo(&mut self, prepared: Prepared) -> Tree
        requires { IsReadyUndo self.old prepared }
        ensures done { undone_state self.old ≡ Some self.new }
        ensures former { result ≡ tree_of self.old.buffers prepared.buffer }
    {
        let _len = self.history.len();
        let Ok(_entry) = self.history.undo() else {
            unreachable!();
        };
        let Prepared {
            buffer,
            tree,
            back,
            cursor,
            ..
        } = prepared;
        let (former, at) = exchange(&mut self.buffers, &mut self.cursor, buffer, tree, cursor);
        self.history.undone(Entry {
            buffer,
            mods: back,
            cursor: at,
        });
        former
    }

    /// Makes ready that the edit is made again that was taken back last, by its modifications. `Nothing` comes exactly
    /// where there is none. The state is unchanged. As many steps are allowed as for the edit.
    pub fn prepare_redo<L: Ledger>(
        &self,
        alloc: Global,
        steps: &mut Steps<L>,
    ) -> Result<Prepared, UndoFault>
        ensures ready { IfOk result (IsReadyRedo self.now) }
        ensures same { IfOk result (λ p. (e : KeptEdit) (future : List KeptEdit) → self.now.future ≡ e ∷ future
            → (p.buffer ≡ e.buffer) × (p.mods ≡ e.mods)) }
        ensures nothing { result ≡ Err UndoFault.Nothing → redone_state self.now ≡ None }
        ensures counted { steps.new ≤ steps.old + first_cost self.now.future }
    {
        match self.history.last_undone() {
            Some(entry) => Ok(step_along(alloc, &self.buffers, entry, steps)?),
            None => Err(UndoFault::Nothing),
        }
    }

    /// Puts in place that an edit is made again, as it was made ready for this state, and returns the buffer's former
    /// tree. It takes no memory.
    pub fn finish_redo(&mut self, prepared: Prepared) -> Tree
        requires { IsReadyRedo self.old prepared }
        ensures done { redone_state self.old ≡ Some self.new }
        ensures former { result ≡ tree_of self.old.buffers prepared.buffer }
    {
        let _len = self.history.len();
        let Ok(_entry) = self.history.redo() else {
            unreachable!();
        };
        let Prepared {
            buffer,
            tree,
            back,
            cursor,
            ..
        } = prepared;
        let (former, at) = exchange(&mut self.buffers, &mut self.cursor, buffer, tree, cursor);
        self.history.redone(Entry {
            buffer,
            mods: back,
            cursor: at,
        });
        former
    }

    /// The edit that takes the n-th last edit back, the last one being 1, and leaves what later edits did. It is for
    /// `prepare_edit`, and the buffer's tree is then the one that the later edits, as they are without that edit, make
    /// of the tree before it. `Nothing` comes exactly where there is no such edit, `Entangled` where the first later
    /// edit that fails has a modification that doesn't commute with what is left of that edit, and `Refused` where it
    /// has one that passes a limit without that edit. The state is unchanged. It takes at most 1,609 steps for each
    /// modification of the last n edits.
    pub fn prepare_leave<L: Ledger>(
        &self,
        alloc: Global,
        n: u32,
        steps: &mut Steps<L>,
    ) -> Result<Edit, LeaveFault>
        ensures edit { IfOk result (λ edit. leaving n self.now ≡ Ok edit) }
        ensures buffer { IfOk result (λ edit. edit.buffer < length self.now.buffers) }
        ensures cursor { IfOk result (λ edit. edit.cursor ≡ None) }
        ensures sound { IfOk result (λ edit. AreSoundMods edit.mods) }
        ensures without { IfOk result (λ edit. (next : WholeState) → edited edit self.now ≡ Ok next
            → tree_without n self.now ≡ Some (tree_of next.buffers edit.buffer)) }
        ensures refused { IfErr result (λ fault. fault ≢ LeaveFault.Memory → leaving n self.now ≡ Err fault) }
        ensures counted { steps.new ≤ steps.old + 1609 * mods_among (take n self.now.past) }
    {
        let Some(entry) = self.history.past(n) else {
            return Err(LeaveFault::Nothing);
        };
        let buffer = entry.buffer;
        let tree = tree_at(&self.buffers, buffer);
        match left_of(alloc, &self.history, tree, buffer, n, steps)? {
            Left::Mods(mods) => {
                all_sound(mods.as_slice());
                Ok(Edit {
                    buffer,
                    mods,
                    cursor: None,
                })
            }
            Left::Entangled(k) => Err(LeaveFault::Entangled(n - 1 - k)),
            Left::Refused(_, cause) => Err(LeaveFault::Refused(cause)),
        }
    }

    /// Puts the cursor at a place of the document. It takes no memory.
    pub fn move_to(&mut self, place: Place)
        requires { IsPlace (document_of self.old.buffers) place.path place.offset }
        ensures { self.new ≡ record self.old { cursor = place } }
    {
        self.cursor = place;
    }

    /// Puts the cursor at the place that these numbers name, of which the last one is the offset. Without a number
    /// there is no place (`NoPath(0)`). After an error the state is as before.
    pub fn go(&mut self, alloc: Global, numbers: &Path) -> Result<(), GoFault>
        ensures ok { OnOk result (CursorGoes self.old numbers.now self.new) }
        ensures astray { IfErr result (λ fault.
            (cause : PlaceCause) → fault ≡ GoFault.Astray cause → IsAstray self.old numbers.now cause) }
        ensures kept { OnErr result (self.new ≡ self.old) }
    {
        let mut path = numbers.copy(alloc)?;
        let Some(offset) = path.pop() else {
            return Err(GoFault::Astray(PlaceFault::NoPath(0)));
        };
        let place = Place { path, offset };
        if let Err(cause) = place.check(self.document()) {
            return Err(GoFault::Astray(cause));
        }
        self.cursor = place;
        Ok(())
    }
}
