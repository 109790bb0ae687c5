// Names that are set for a while.
ghost use Rattle.std.specs.Prelude.{◌≡◌, ◌<◌, ◌+◌, IfOk, OnOk, Option};
ghost use Rattle.std.specs.Option.{option_or};
ghost use Rattle.std.specs.FinMap.{get};
ghost use Rattle.tx_env.specs.Changes.{with_pair};
ghost use Rattle.tx_exec_form.specs.Runs.{Before, Done};
ghost use Rattle.tx_exec_form.specs.Rows.{set_all, kept_of};
ghost use Rattle.tx_parts.specs.Layered.{as_sets};
ghost use Rattle.tx_replay.specs.Going.{names_of};
ghost use Rattle.tx_replay.specs.Gives.{Gives};
ghost use Rattle.tx_replay.specs.Holding.{held_of, IsHeldFor, AreHeldFor};
ghost use Rattle.tx_replay.specs.OpenRows.{names_set, names_begun};

use crate::progress::Progress;
use crate::stop::Stop;
use std::alloc::Global;
use tx_base::Memory;
use tx_tree::{Text, Tree, share_tree};

/// A name with what the evaluation had set it to, or nothing, and with what it had.
#[derive(Drop)]
pub(crate) struct Held {
    pub name: Text,
    pub own: Option<Tree>,
    pub names: Option<Tree>,
}

impl Progress {
    // The name with what it has.
    fn hold(&self, name: &Text) -> Result<Held, Memory>
        ensures name { IfOk result (λ h. h.name ≡ name.now) }
        ensures own { IfOk result (λ h. h.own ≡ get self.now.state.own name.now) }
        ensures held { IfOk result (λ h. IsHeldFor (names_of self.now) h) }
    {
        let own = self.own_tree(name)?;
        let names = self.tree_now(name)?;
        Ok(Held {
            name: name.copy()?,
            own,
            names,
        })
    }

    // These names with what they have.
    fn hold_all(&self, alloc: Global, pairs: &[(Text, Tree)]) -> Result<Vec<Held>, Memory>
        ensures kept { IfOk result (λ h. held_of h.items ≡ kept_of (as_sets pairs.now) self.now.state.own) }
        ensures held { IfOk result (λ h. AreHeldFor (names_of self.now) h.items) }
    {
        let mut held = Vec::new(alloc);
        for (name, _) in pairs {
            held.push(self.hold(name)?)?;
        }
        Ok(held)
    }

    /// Sets these names, and returns what each had before.
    pub(crate) fn set_names(
        &mut self,
        alloc: Global,
        pairs: &[(Text, Tree)],
    ) -> Result<Vec<Held>, Memory>
        ensures gives { (e : Before) → IfOk result (λ h. names_set (as_sets pairs.now) e self.old.state
            ≡ Done (held_of h.items) self.new.state) }
        ensures held { IfOk result (λ h. AreHeldFor (names_of self.old) h.items) }
        ensures left { OnOk result (self.new.state.left ≡ self.old.state.left) }
        ensures slack { OnOk result (self.new.state.slack ≡ self.old.state.slack) }
        ensures scopes { self.new.scopes ≡ self.old.scopes }
    {
        let held = self.hold_all(alloc, pairs)?;
        self.set_all(pairs)?;
        Ok(held)
    }

    // Sets the name back.
    fn set_one_back(&mut self, held: &Held) -> Result<(), Memory>
        requires { IsHeldFor (names_of self.old) held.now }
        ensures state { OnOk result (self.new.state
            ≡ record (self.old.state) { own = with_pair held.now.name held.now.own self.old.state.own }) }
        ensures scopes { self.new.scopes ≡ self.old.scopes }
    {
        let own = share_tree(&held.own)?;
        let names = share_tree(&held.names)?;
        self.change(held.name.copy()?, own, names)
    }

    /// Sets the names back to what they had.
    pub(crate) fn set_back(&mut self, held: &[Held]) -> Result<(), Memory>
        requires { AreHeldFor (names_of self.old) held.now }
        ensures gives { (e : Before) → OnOk result
            (set_all (held_of held.now) e self.old.state ≡ Done tt self.new.state) }
        ensures left { OnOk result (self.new.state.left ≡ self.old.state.left) }
        ensures slack { OnOk result (self.new.state.slack ≡ self.old.state.slack) }
        ensures scopes { self.new.scopes ≡ self.old.scopes }
    {
        for one in held {
            self.set_one_back(one)?;
        }
        Ok(())
    }

    /// Takes a level, a step and n steps more, and sets these names. Returns what each had before.
    pub(crate) fn begin_with(
        &mut self,
        alloc: Global,
        levels: u32,
        n: u64,
        pairs: &[(Text, Tree)],
    ) -> Result<Vec<Held>, Stop>
        ensures gives { (e : Before) → Gives (λ h. held_of h.items) result
            (names_begun levels n (as_sets pairs.now) e self.old.state) self.new.state }
        ensures held { IfOk result (λ h. AreHeldFor (names_of self.old) h.items) }
        ensures left { IfOk result (λ h. self.new.state.left + (1 + n) ≡ self.old.state.left) }
        ensures slack { IfOk result (λ h. self.new.state.slack < levels) }
        ensures scopes { self.new.scopes ≡ self.old.scopes }
    {
        self.enter(levels)?;
        self.pay(n)?;
        Ok(self.set_names(alloc, pairs)?)
    }
}
