// Pairs with scopes.
ghost use Rattle.std.specs.Prelude.{◌≡◌, ℕ, ◌+◌, ◌-◌, ◌<◌, ◌^◌, ◌++◌, ◌∷◌, [], length};
ghost use Rattle.std.specs.Prelude.{MatchOption, IfOk, OnOk, OnErr, None, Some};
ghost use Rattle.std.specs.FinMap as maps;
ghost use Rattle.tx_env.specs.Changes.{capped_changes, with_pair};
ghost use Rattle.tx_env.specs.Environments.{NameMap};
ghost use Rattle.tx_env.specs.Pairs.{find};
ghost use Rattle.tx_env.specs.ScopedView.{changes_of, EndsOutside};

use crate::pairs::Pairs;
use std::alloc::Global;
use std::marker::Model;
use tx_base::Memory;
use tx_tree::{Text, Tree};

// A name that was changed in an open scope, and what it had before.
#[derive(Drop)]
struct Past {
    name: Text,
    before: Option<Tree>,
    scope: u64,
}

// What names have, and for each change in an open scope what the name had. Contracts see the map of the names that have
// something, and the maps to which the open scopes go back.
#[derive(Drop)]
pub(crate) struct ScopedPairs {
    pairs: Pairs,
    pasts: Vec<Past>,
    open_count: u64,
}

impl Model for ScopedPairs {
    ghost use Rattle.tx_env.specs.Environments.{Environment, coded_Environment};

    ghost Value = { Environment };

    ghost coded = { coded_Environment };

    ghost use Rattle.tx_env.specs.ScopedView.{environment_of, IsKept};

    ghost view = { environment_of };

    ghost invariant = { IsKept };
}

impl ScopedPairs {
    pub(crate) fn new(alloc: Global) -> ScopedPairs
        ensures map { result.map ≡ maps.empty }
        ensures scopes { result.scopes ≡ [] }
    {
        ScopedPairs {
            pairs: Pairs::new(alloc),
            pasts: Vec::new(alloc),
            open_count: 0,
        }
    }

    // What the name has.
    #[tactic(auto, using(crate::proofs::Maps::map_rules, std::proofs::lemmas::Grind::common_steps))]
    pub(crate) fn get(&self, name: &Text) -> Option<&Tree>
        ensures { let value = maps.get self.now.map name.now in
            MatchOption result (value ≡ None) (λ t. value ≡ Some t.now) }
    {
        self.pairs.get(name)
    }

    // Opens a scope, and returns its number.
    #[tactic(auto, using(crate::proofs::Scopes::enter_rules, std::proofs::lemmas::Grind::common_steps))]
    pub(crate) fn enter(&mut self) -> u64
        requires { length self.old.scopes < 2 ^ 32 }
        ensures number { result ≡ length self.old.scopes }
        ensures map { self.new.map ≡ self.old.map }
        ensures scopes { self.new.scopes ≡ self.old.scopes ++ self.old.map ∷ [] }
    {
        let number = self.open_count;
        self.open_count += 1;
        number
    }

    // Gives the name this value, or nothing.
    #[tactic(auto, using(crate::proofs::Scopes::change_rules, std::proofs::lemmas::Grind::common_steps))]
    pub(crate) fn change(&mut self, name: Text, value: Option<Tree>) -> Result<(), Memory>
        ensures map { OnOk result (self.new.map ≡ with_pair name value self.old.map) }
        ensures scopes { OnOk result (self.new.scopes ≡ self.old.scopes) }
        ensures err { OnErr result (self.new ≡ self.old) }
    {
        if self.open_count == 0 {
            return self.pairs.put(name, value);
        }
        let past = past_of(&self.pairs, &name, self.open_count - 1)?;
        self.pasts.push(past)?;
        match self.pairs.put(name, value) {
            Ok(()) => Ok(()),
            Err(memory) => {
                self.pasts.pop();
                Err(memory)
            }
        }
    }

    // Leaves the last open scope, of this number.
    #[tactic(auto, using(crate::proofs::Scopes::leave_rules, std::proofs::lemmas::Grind::common_steps))]
    pub(crate) fn leave(&mut self, number: u64)
        requires { number + 1 ≡ length self.old.scopes }
        ensures { self.old.scopes ≡ self.new.scopes ++ self.new.map ∷ [] }
    {
        while let Some(past) = pop_in(&mut self.pasts, number) {
            self.pairs.put_back(past.name, past.before);
        }
        self.open_count = number;
    }

    // Closes the last open scope, of this number, whose changes are from then on those of the scope before it.
    #[tactic(auto, using(crate::proofs::Scopes::keep_rules, std::proofs::lemmas::Grind::common_steps))]
    pub(crate) fn keep(&mut self, number: u64)
        requires { number + 1 ≡ length self.old.scopes }
        ensures map { self.new.map ≡ self.old.map }
        ensures scopes { (scope : NameMap) × (self.old.scopes ≡ self.new.scopes ++ scope ∷ []) }
    {
        close_last(&mut self.pasts, number);
        self.open_count = number;
    }
}

// What the name has, as what it had before a change in the scope of this number.
fn past_of(pairs: &Pairs, name: &Text, scope: u64) -> Result<Past, Memory>
    ensures scope { IfOk result (λ p. p.scope ≡ scope) }
    ensures name { IfOk result (λ p. p.name ≡ name.now) }
    ensures before { IfOk result (λ p. p.before ≡ find name.now pairs.now) }
{
    let before = match pairs.get(name) {
        None => None,
        Some(tree) => Some(tree.share()?),
    };
    Ok(Past {
        name: name.copy()?,
        before,
        scope,
    })
}

// Takes the last change off, if it was made in the scope of this number.
#[tactic(auto, using(crate::proofs::Undoing::last_of, std::proofs::lemmas::Grind::common_steps))]
fn pop_in(pasts: &mut Vec<Past>, scope: u64) -> Option<Past>
    ensures { MatchOption result ((pasts.new.items ≡ pasts.old.items) × EndsOutside scope pasts.old.items)
        (λ p. (pasts.old.items ≡ pasts.new.items ++ p ∷ []) × (p.scope ≡ scope)) }
{
    let inside = match pasts.last() {
        None => false,
        Some(past) => past.scope == scope,
    };
    if inside { pasts.pop() } else { None }
}

// The changes in the scope of this number, the last one, count as made in the scope before it. Without one before it
// nothing goes back any more.
fn close_last(pasts: &mut Vec<Past>, number: u64)
    ensures outermost { number ≡ 0 → changes_of pasts.new.items ≡ [] }
    ensures inner { 0 < number → changes_of pasts.new.items ≡ capped_changes (number - 1) (changes_of pasts.old.items) }
{
    if number == 0 {
        pasts.clear();
    } else {
        cap(pasts, number - 1);
    }
}

// The changes in scopes after this number count as made in the scope of this number.
#[tactic(auto, using(crate::proofs::Capping::capped_rules, std::proofs::lemmas::Grind::common_steps))]
fn cap(pasts: &mut Vec<Past>, scope: u64)
    ensures { changes_of pasts.new.items ≡ capped_changes scope (changes_of pasts.old.items) }
{
    for past in pasts.iter_mut() {
        past.scope = past.scope.min(scope);
    }
}
