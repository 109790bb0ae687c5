// The environment.
ghost use Rattle.std.specs.Prelude.{◌≡◌, ◌+◌, ◌-◌, ◌<◌, ◌^◌, ◌++◌, ◌∷◌, []};
ghost use Rattle.std.specs.Prelude.{length, MatchOption, OnOk, OnErr, None, Some};
ghost use Rattle.std.specs.FinMap as maps;
ghost use Rattle.tx_env.specs.Environments.{overlaid};

use crate::scoped::ScopedPairs;
use crate::writes::Writes;
use std::alloc::Global;
use std::marker::Model;
use tx_base::Memory;
use tx_tree::{Text, Tree};

/// How many scopes were open when one was opened. It is what leaves that scope.
#[derive(Drop)]
pub struct Mark {
    number: u64,
}

impl Model for Mark {
    ghost use Rattle.std.specs.Prelude.{ℕ};

    ghost Value = { ℕ };

    ghost view = { λ m. m.number };
}

/// What names have, and what they go back to where an open scope is left.
///
/// Contracts see a finite map from the names that are set to their trees, and the list of the maps to which the open
/// scopes go back (`specs/Environments.antt`).
#[derive(Drop)]
pub struct Env {
    scoped: ScopedPairs,
}

impl Model for Env {
    ghost use Rattle.std.specs.Prelude.{◌<◌, ◌^◌, length};
    ghost use Rattle.tx_env.specs.Environments.{Environment, coded_Environment};

    ghost Value = { Environment };

    ghost coded = { coded_Environment };

    ghost view = { λ e. e.scoped };

    ghost invariant = { λ e. length e.scoped.scopes < 2 ^ 32 };
}

impl Env {
    /// No name is set, and no scope is open. It takes no memory until the first name.
    pub fn new(alloc: Global) -> Env
        ensures map { result.map ≡ maps.empty }
        ensures scopes { result.scopes ≡ [] }
    {
        Env {
            scoped: ScopedPairs::new(alloc),
        }
    }

    /// What the name has, or None where it is unset.
    pub fn get(&self, name: &Text) -> Option<&Tree>
        ensures { let value = maps.get self.now.map name.now in
            MatchOption result (value ≡ None) (λ t. value ≡ Some t.now) }
    {
        self.scoped.get(name)
    }

    /// Gives the name this value. When out of memory nothing changes.
    pub fn set(&mut self, name: Text, value: Tree) -> Result<(), Memory>
        ensures map { OnOk result (self.new.map ≡ maps.insert self.old.map name value) }
        ensures scopes { OnOk result (self.new.scopes ≡ self.old.scopes) }
        ensures err { OnErr result (self.new ≡ self.old) }
    {
        self.scoped.change(name, Some(value))
    }

    /// The name is unset from then on. When out of memory nothing changes.
    pub fn unset(&mut self, name: &Text) -> Result<(), Memory>
        ensures map { OnOk result (self.new.map ≡ maps.remove self.old.map name.now) }
        ensures scopes { OnOk result (self.new.scopes ≡ self.old.scopes) }
        ensures err { OnErr result (self.new ≡ self.old) }
    {
        let name = name.copy()?;
        self.scoped.change(name, None)
    }

    /// Opens a scope, which goes back to the present map. It takes no memory.
    pub fn enter(&mut self) -> Mark
        requires { length self.old.scopes < 2 ^ 32 - 1 }
        ensures mark { result ≡ length self.old.scopes }
        ensures map { self.new.map ≡ self.old.map }
        ensures scopes { self.new.scopes ≡ self.old.scopes ++ self.old.map ∷ [] }
    {
        Mark {
            number: self.scoped.enter(),
        }
    }

    /// Leaves the last open scope, whose mark this is: the map is again what it was when the scope was opened. It takes
    /// no memory.
    pub fn leave(&mut self, mark: Mark)
        requires { mark + 1 ≡ length self.old.scopes }
        ensures { self.old.scopes ≡ self.new.scopes ++ self.new.map ∷ [] }
    {
        self.scoped.leave(mark.number);
    }

    /// Sets each name to its tree, in order. When out of memory nothing changes.
    #[tactic(auto, using(crate::proofs::Overlays::overlay_rules, std::proofs::lemmas::Grind::common_steps))]
    pub fn overlay(&mut self, writes: &Writes) -> Result<(), Memory>
        ensures map { OnOk result (self.new.map ≡ overlaid self.old.map writes.now) }
        ensures scopes { OnOk result (self.new.scopes ≡ self.old.scopes) }
        ensures err { OnErr result (self.new ≡ self.old) }
    {
        let number = self.scoped.enter();
        match set_all(&mut self.scoped, writes) {
            Ok(()) => {
                self.scoped.keep(number);
                Ok(())
            }
            Err(memory) => {
                self.scoped.leave(number);
                Err(memory)
            }
        }
    }
}

// Sets each name to its tree, in order, up to the first for which there is no memory.
#[tactic(auto, using(crate::proofs::Overlays::overlay_rules, std::proofs::lemmas::Grind::common_steps))]
fn set_all(scoped: &mut ScopedPairs, writes: &Writes) -> Result<(), Memory>
    ensures map { OnOk result (scoped.new.map ≡ overlaid scoped.old.map writes.now) }
    ensures scopes { scoped.new.scopes ≡ scoped.old.scopes }
{
    for (name, value) in writes.pairs() {
        scoped.change(name.copy()?, Some(value.share()?))?;
    }
    Ok(())
}
