// The walk of a tree by its parts.
ghost use Rattle.std.specs.Prelude.{◌≡◌, ◌≤◌, ◌<◌, ◌-◌, [], ℕ, IfOk};
ghost use Rattle.tx_tree.specs.WideTree.{WideTree, children_of};
ghost use Rattle.tx_parts.specs.Atop.{env_atop};
ghost use Rattle.tx_parts.specs.Openness.{Settings as TextSettings, Document, With, openness};
ghost use Rattle.tx_replay.specs.Cached.{stores_in, closed};
ghost use Rattle.tx_replay.specs.Descent.{IsScope};
ghost use Rattle.tx_replay.specs.Gives.{Walks, IsBounded};
ghost use Rattle.tx_replay.specs.Going.{names_of};
ghost use Rattle.tx_replay.specs.Held.{AreSound, IsUnheld};
ghost use Rattle.tx_replay.specs.Stages.{stage_of, Settles, AreBounded};
ghost use Rattle.tx_replay.specs.Walks.{walk, part_walk, children_walk, document_walk};

use crate::cached::{CachedPart, Source};
use crate::descent::{Descent, descent_of};
use crate::finding::{NextNumbers, held};
use crate::origins::node_at;
use crate::part_trace::PartTrace;
use crate::progress::Progress;
use crate::settings::{Settings, settings_of};
use crate::stop::Stop;
use crate::values::with_value;
use std::sync::ledger::Ledger;
use tx_base::Steps;
use tx_exec::Outcome;
use tx_kept::Entry;
use tx_origin::{Ip, Value};
use tx_tree::{Path, Tree};

/// The walk of a unit: the evaluation, the parts that are done, and the numbers of cached parts that are likely next.
#[derive(Drop)]
pub(crate) struct UnitWalk {
    pub progress: Progress,
    pub parts: Vec<Entry<CachedPart>>,
    pub next: NextNumbers,
}

impl UnitWalk {
    // A part, which had so many levels. It is put after the other parts.
    fn settle(
        &mut self,
        source: &Source<'_>,
        part: CachedPart,
        path: &Path,
        levels: u32,
    ) -> Result<Value, Stop>
        ensures settles { (count : ℕ) → Settles result (stores_in source.now).base levels path.now part
            (stage_of self.old count) (stage_of self.new count) }
        ensures scopes { self.new.progress.scopes ≡ self.old.progress.scopes }
    {
        self.progress.replay(part.trace.trace(), levels)?;
        let value = part.trace.value_at(source.alloc, path)?;
        self.parts.push(Entry {
            path: source.place(path)?,
            value: part,
        })?;
        Ok(value)
    }

    // A part that nothing holds: it is evaluated.
    fn new_part<L: Ledger>(
        &mut self,
        source: &Source<'_>,
        steps: &mut Steps<L>,
        t: &Tree,
        path: &Path,
        levels: u32,
    ) -> Result<Value, Stop>
        requires levels { levels ≤ 400 }
        requires left { self.old.progress.state.left ≤ 1000000 }
        requires unheld { IsUnheld (env_atop self.old.progress.state.own (names_of self.old.progress)) path.now
            (stores_in source.now) }
        ensures walks { Walks (λ v. v) result
            (part_walk (stores_in source.now) levels path.now t.now (names_of self.old.progress)
            (stage_of self.old steps.old)) (stage_of self.new steps.new) }
        ensures scopes { self.new.progress.scopes ≡ self.old.progress.scopes }
    {
        let alloc = source.alloc;
        match self
            .progress
            .evaluate(alloc, steps, t, Some(Ip::root()), levels)?
        {
            Outcome::Over => Err(Stop::Over),
            Outcome::Done(trace) => {
                let trace = PartTrace::new(alloc, path, trace)?;
                let part = CachedPart {
                    trace,
                    renewed: true,
                };
                self.settle(source, part, path, levels)
            }
        }
    }

    // A tree that isn't open: a part. What is cached of it is used where it fits, and else it is evaluated.
    fn part<L: Ledger>(
        &mut self,
        source: &Source<'_>,
        steps: &mut Steps<L>,
        t: &Tree,
        path: &Path,
        levels: u32,
    ) -> Result<Value, Stop>
        requires levels { levels ≤ 400 }
        requires left { self.old.progress.state.left ≤ 1000000 }
        requires sound { AreSound (stores_in source.now) path.now t.now }
        ensures walks { Walks (λ v. v) result
            (part_walk (stores_in source.now) levels path.now t.now (names_of self.old.progress)
            (stage_of self.old steps.old)) (stage_of self.new steps.new) }
        ensures scopes { self.new.progress.scopes ≡ self.old.progress.scopes }
    {
        match held(&self.progress, source, path, &mut self.next)? {
            Some(found) => {
                let part = CachedPart {
                    trace: found.trace.moved(source.alloc, path)?,
                    renewed: found.renewed,
                };
                self.settle(source, part, path, levels)
            }
            None => self.new_part(source, steps, t, path, levels),
        }
    }

    /// The tree's value.
    #[cycle(walk)]
    pub(crate) fn tree<L: Ledger>(
        &mut self,
        source: &Source<'_>,
        steps: &mut Steps<L>,
        t: &Tree,
        path: &Path,
        levels: u32,
    ) -> Result<Value, Stop>
        requires levels { levels ≤ 400 }
        requires left { self.old.progress.state.left ≤ 1000000 }
        requires slack { self.old.progress.state.slack ≤ levels }
        requires sound { AreSound (stores_in source.now) path.now t.now }
        ensures walks { Walks (λ v. v) result
            (walk (closed source.now) levels path.now t.now
            (names_of self.old.progress) (stage_of self.old steps.old)) (stage_of self.new steps.new) }
        ensures bounds { IfOk result
            (λ v. IsBounded v levels self.old.progress.state self.new.progress.state) }
        ensures scopes { self.new.progress.scopes ≡ self.old.progress.scopes }
    {
        self.level(source, steps, t, path, levels)
    }

    // The tree's value, by how it is gone into.
    #[cycle(walk)]
    fn level<L: Ledger>(
        &mut self,
        source: &Source<'_>,
        steps: &mut Steps<L>,
        t: &Tree,
        path: &Path,
        levels: u32,
    ) -> Result<Value, Stop>
        requires levels { levels ≤ 400 }
        requires left { self.old.progress.state.left ≤ 1000000 }
        requires slack { self.old.progress.state.slack ≤ levels }
        requires sound { AreSound (stores_in source.now) path.now t.now }
        ensures walks { Walks (λ v. v) result
            (walk (closed source.now) levels path.now t.now
            (names_of self.old.progress) (stage_of self.old steps.old)) (stage_of self.new steps.new) }
        ensures scopes { self.new.progress.scopes ≡ self.old.progress.scopes }
    {
        if levels == 0 {
            return Err(Stop::Over);
        }
        match descent_of(t) {
            Descent::Document => self.document(source, steps, t, path, levels),
            Descent::With => self.scope(source, steps, t, path, levels),
            Descent::Shut => self.part(source, steps, t, path, levels),
        }
    }

    // The value of a `document`.
    #[cycle(walk)]
    fn document<L: Ledger>(
        &mut self,
        source: &Source<'_>,
        steps: &mut Steps<L>,
        t: &Tree,
        path: &Path,
        levels: u32,
    ) -> Result<Value, Stop>
        requires some { 0 < levels }
        requires levels { levels ≤ 400 }
        requires left { self.old.progress.state.left ≤ 1000000 }
        requires opens { openness t.now ≡ Document (children_of t.now) }
        requires sound { AreSound (stores_in source.now) path.now t.now }
        ensures walks { Walks (λ v. v) result
            (document_walk levels
            (walk (closed source.now) (levels - 1)) path.now
            (children_of t.now) (names_of self.old.progress) (stage_of self.old steps.old))
            (stage_of self.new steps.new) }
        ensures scopes { self.new.progress.scopes ≡ self.old.progress.scopes }
    {
        let _size = t.size();
        self.progress.enter(levels)?;
        let values = self.children(source, steps, t, path, levels - 1)?;
        Ok(node_at(source.alloc, t, path, values)?)
    }

    // The values of the children, in order.
    #[cycle(walk)]
    fn children<L: Ledger>(
        &mut self,
        source: &Source<'_>,
        steps: &mut Steps<L>,
        t: &Tree,
        path: &Path,
        levels: u32,
    ) -> Result<Vec<Value>, Stop>
        requires levels { levels < 400 }
        requires left { self.old.progress.state.left ≤ 1000000 }
        requires slack { self.old.progress.state.slack ≤ levels }
        requires sound { AreSound (stores_in source.now) path.now t.now }
        ensures walks { Walks (λ v. v.items) result
            (children_walk (walk (closed source.now) levels)
            path.now 0 [] (children_of t.now) (names_of self.old.progress) (stage_of self.old steps.old))
            (stage_of self.new steps.new) }
        ensures bounds { IfOk result
            (λ v. AreBounded (children_of t.now) levels self.old.progress.state self.new.progress.state v.items) }
        ensures scopes { self.new.progress.scopes ≡ self.old.progress.scopes }
    {
        let mut values = Vec::new(source.alloc);
        for i in 0..t.arity() {
            let Some(kid) = t.child(i) else {
                unreachable!()
            };
            let below = path.child(source.alloc, i)?;
            let value = self.tree(source, steps, kid, &below, levels)?;
            values.push(value)?;
        }
        Ok(values)
    }

    // The value of a `with`.
    #[cycle(walk)]
    fn scope<L: Ledger>(
        &mut self,
        source: &Source<'_>,
        steps: &mut Steps<L>,
        t: &Tree,
        path: &Path,
        levels: u32,
    ) -> Result<Value, Stop>
        requires some { 0 < levels }
        requires levels { levels ≤ 400 }
        requires left { self.old.progress.state.left ≤ 1000000 }
        requires opens { (ps : TextSettings) × (b : WideTree) × (openness t.now ≡ With ps b) }
        requires sound { AreSound (stores_in source.now) path.now t.now }
        ensures walks { Walks (λ v. v) result
            (walk (closed source.now) levels path.now t.now
            (names_of self.old.progress) (stage_of self.old steps.old)) (stage_of self.new steps.new) }
        ensures scopes { self.new.progress.scopes ≡ self.old.progress.scopes }
    {
        match settings_of(source.alloc, t, path, self.progress.left())? {
            None => Err(Stop::Over),
            Some(settings) => self.scope_with(source, steps, t, path, levels, settings),
        }
    }

    // The value of a `with` of these names and texts.
    #[cycle(walk)]
    fn scope_with<L: Ledger>(
        &mut self,
        source: &Source<'_>,
        steps: &mut Steps<L>,
        t: &Tree,
        path: &Path,
        levels: u32,
        settings: Settings,
    ) -> Result<Value, Stop>
        requires some { 0 < levels }
        requires levels { levels ≤ 400 }
        requires left { self.old.progress.state.left ≤ 1000000 }
        requires scope { IsScope t.now path.now settings }
        requires sound { AreSound (stores_in source.now) path.now t.now }
        ensures walks { Walks (λ v. v) result
            (walk (closed source.now) levels path.now t.now
            (names_of self.old.progress) (stage_of self.old steps.old)) (stage_of self.new steps.new) }
        ensures scopes { self.new.progress.scopes ≡ self.old.progress.scopes }
    {
        let _size = t.size();
        let last = t.arity() - 1;
        let Some(inner) = t.child(last) else {
            unreachable!()
        };
        let below = path.child(source.alloc, last)?;
        let before = self
            .progress
            .begin_with(source.alloc, levels, settings.cost, &settings.pairs)?;
        let value = self.tree(source, steps, inner, &below, levels - 1)?;
        self.progress.set_back(&before)?;
        Ok(with_value(source.alloc, t, path, settings.values, value)?)
    }
}
