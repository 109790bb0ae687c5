// Two rings of entries.
ghost use Rattle.std.specs.Prelude.{◌≡◌, ◌↔◌, ◌⊎◌, ◌+◌, ◌<◌, ◌≤◌, ◌++◌, ◌∷◌, [], length, None};
ghost use Rattle.std.specs.Prelude.{if◌then◌else◌, IfOk, IfErr, option_copied};
ghost use Rattle.tx_history.specs.Lists.{newest, last, kth_newest};

use circular_buffer::HeapCircularBuffer;
use std::alloc::Global;
use std::marker::Model;
use thiserror::Error;
use tx_base::Memory;

/// There is no entry to take.
#[derive(Clone, Copy, Debug, PartialEq, Eq, Error)]
#[error("nothing to undo or to redo")]
pub struct Nothing;

/// The edits that can be undone and redone, each an entry of any type.
#[derive(Drop)]
pub struct History<E: Drop> {
    past: HeapCircularBuffer<E>,
    future: HeapCircularBuffer<E>,
    depth: usize,
}

impl<E: Drop> Model for History<E> {
    ghost use Rattle.tx_history.specs.Lists.{Lists};
    ghost use Rattle.tx_history.specs.Codes.{lists_code};

    ghost Value = { Lists E };

    ghost coded = { lists_code E.code };

    ghost use Rattle.tx_history.specs.Rings.{AreRings};

    ghost view = { λ h. record { past = h.past.items; future = h.future.items; depth = h.depth } };

    ghost invariant = { AreRings };
}

impl<E: Drop> History<E> {
    /// No entries, with room for so many, at least 1. It takes all the memory that the history needs.
    pub fn new(alloc: Global, depth: usize) -> Result<History<E>, Memory>
        requires { 1 ≤ depth }
        ensures { IfOk result (λ h. h ≡ record { past = []; future = []; depth = depth }) }
    {
        Ok(History {
            past: HeapCircularBuffer::with_capacity(alloc, depth)?,
            future: HeapCircularBuffer::with_capacity(alloc, depth)?,
            depth,
        })
    }

    /// Puts the entry of a new edit at the end of the past, drops the oldest where there are more than the depth, and
    /// empties the future.
    pub fn done(&mut self, entry: E)
        ensures past { self.new.past ≡ newest self.old.depth (self.old.past ++ entry ∷ []) }
        ensures future { self.new.future ≡ [] }
        ensures depth { self.new.depth ≡ self.old.depth }
    {
        self.future.clear();
        self.past.push_back(entry);
    }

    /// Takes the last entry of the past. `Nothing` comes exactly where there is none, and changes nothing.
    #[tactic(auto, using(crate::proofs::Ends::end_rules))]
    pub fn undo(&mut self) -> Result<E, Nothing>
        ensures taken { IfOk result (λ entry. self.old.past ≡ self.new.past ++ entry ∷ []) }
        ensures nothing { IfErr result (λ _. (self.old.past ≡ []) × (self.new.past ≡ [])) }
        ensures future { self.new.future ≡ self.old.future }
        ensures depth { self.new.depth ≡ self.old.depth }
    {
        match self.past.pop_back() {
            Some(entry) => Ok(entry),
            None => Err(Nothing),
        }
    }

    /// Takes the last entry of the future. `Nothing` comes exactly where there is none, and changes nothing.
    #[tactic(auto, using(crate::proofs::Ends::end_rules))]
    pub fn redo(&mut self) -> Result<E, Nothing>
        ensures taken { IfOk result (λ entry. self.old.future ≡ self.new.future ++ entry ∷ []) }
        ensures nothing { IfErr result (λ _. (self.old.future ≡ []) × (self.new.future ≡ [])) }
        ensures past { self.new.past ≡ self.old.past }
        ensures depth { self.new.depth ≡ self.old.depth }
    {
        match self.future.pop_back() {
            Some(entry) => Ok(entry),
            None => Err(Nothing),
        }
    }

    /// The last entry of the past, which `undo` would take.
    pub fn last_done(&self) -> Option<&E>
        ensures { option_copied result ≡ last self.now.past }
    {
        self.past.back()
    }

    /// The last entry of the future, which `redo` would take.
    pub fn last_undone(&self) -> Option<&E>
        ensures { option_copied result ≡ last self.now.future }
    {
        self.future.back()
    }

    /// The `k`-th newest entry of the past, the newest being 1. None comes exactly where `k` is 0, or greater than the
    /// number of entries of the past.
    #[tactic(auto, using(crate::proofs::Newest::none_newest, crate::proofs::Newest::kth_is))]
    pub fn past(&self, k: u32) -> Option<&E>
        ensures entry { option_copied result ≡ kth_newest k self.now.past }
        ensures none { (result ≡ None) ↔ ((k ≡ 0) ⊎ (length self.now.past < k)) }
    {
        if k == 0 {
            return None;
        }
        self.past.nth_back(k as usize - 1)
    }

    /// Puts the entry of an edit that was undone at the end of the future. Both lists together have fewer entries than
    /// the depth.
    pub fn undone(&mut self, entry: E)
        requires { length self.old.past + length self.old.future < self.old.depth }
        ensures future { self.new.future ≡ self.old.future ++ entry ∷ [] }
        ensures past { self.new.past ≡ self.old.past }
        ensures depth { self.new.depth ≡ self.old.depth }
    {
        self.future.push_back(entry);
    }

    /// Puts the entry of an edit that was made again at the end of the past. Both lists together have fewer entries
    /// than the depth.
    pub fn redone(&mut self, entry: E)
        requires { length self.old.past + length self.old.future < self.old.depth }
        ensures past { self.new.past ≡ self.old.past ++ entry ∷ [] }
        ensures future { self.new.future ≡ self.old.future }
        ensures depth { self.new.depth ≡ self.old.depth }
    {
        self.past.push_back(entry);
    }

    /// Puts back an entry that was taken and could not be applied: at the end of the past, or of the future where
    /// `past` is false. Both lists together have fewer entries than the depth.
    pub fn keep(&mut self, entry: E, past: bool)
        requires { length self.old.past + length self.old.future < self.old.depth }
        ensures past { self.new.past ≡ (if past then self.old.past ++ entry ∷ [] else self.old.past) }
        ensures future { self.new.future ≡ (if past then self.old.future else self.old.future ++ entry ∷ []) }
        ensures depth { self.new.depth ≡ self.old.depth }
    {
        if past {
            self.redone(entry);
        } else {
            self.undone(entry);
        }
    }

    /// How many entries the past and the future have together: at most the depth.
    pub fn len(&self) -> usize
        ensures len { result ≡ length self.now.past + length self.now.future }
        ensures within { length self.now.past + length self.now.future ≤ self.now.depth }
    {
        self.past.len() + self.future.len()
    }
}
