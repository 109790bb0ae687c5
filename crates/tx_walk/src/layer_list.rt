// A list of what trees of layers evaluate to, each once.
ghost use Rattle.std.specs.Prelude.{◌≡◌, [], OnOk};
ghost use Rattle.tx_origin.specs.Values.{plain};
ghost use Rattle.tx_exec_form.specs.Laws.{Supports};
ghost use Rattle.tx_exec.specs.Outcomes.{wide_trace};
ghost use Rattle.tx_parts.specs.Shells.{bare};
ghost use Rattle.tx_parts.specs.LayerCosts.{HoldsMore};
ghost use Rattle.tx_walk.specs.Walked.{AreOnce};
ghost use Rattle.tx_walk.specs.LayerTraces.{holds_in, IsHeldWith, AreEachOnce};

use crate::layer_traces::{LayerTrace, is_listed};
use crate::sharing::share_trace;
use std::alloc::Global;
use std::marker::Model;
use tx_base::Memory;
use tx_exec::Trace;
use tx_tree::Tree;

/// What trees of layers evaluate to. No two have the same tree and the same looks.
#[derive(Drop)]
pub(crate) struct LayerList {
    list: Vec<LayerTrace>,
}

impl Model for LayerList {
    ghost use Rattle.tx_walk.specs.LayerTraces.{Listed, coded_Listed, AreEachOnce};

    ghost Value = { Listed };

    ghost coded = { coded_Listed };

    ghost view = { λ l. record { items = l.list.items } };

    ghost invariant = { λ l. AreEachOnce l.list.items };
}

impl LayerList {
    /// None.
    pub(crate) fn new(alloc: Global) -> LayerList
        ensures { result.items ≡ [] }
    {
        LayerList {
            list: Vec::new(alloc),
        }
    }

    /// Adds what the tree evaluates to, unless it is there.
    pub(crate) fn keep(
        &mut self,
        alloc: Global,
        tree: &Tree,
        trace: &Trace,
        set: &Tree,
    ) -> Result<(), Memory>
        requires supports { Supports (wide_trace trace.now) (bare tree.now) }
        requires once { AreOnce trace.now }
        requires is_set { set.now ≡ plain trace.now.value }
        ensures more { OnOk result (HoldsMore (holds_in self.old.items) (holds_in self.new.items)) }
        ensures held { OnOk result (IsHeldWith (holds_in self.new.items)
            (record { tree = tree.now; trace = wide_trace trace.now })) }
    {
        if is_listed(&self.list, tree, &trace.looks) {
            return Ok(());
        }
        let layer = LayerTrace::new(tree.share()?, share_trace(alloc, trace)?, set.share()?);
        self.list.push(layer)?;
        Ok(())
    }

    /// The traces in order.
    pub(crate) fn into_traces(self) -> Vec<LayerTrace>
        ensures items { result.items ≡ self.items }
        ensures each_once { AreEachOnce result.items }
    {
        self.list
    }
}
