// What is cached of the trees of a unit's layers.
ghost use Rattle.std.specs.Prelude.{◌≡◌, []};

use std::alloc::Global;
use std::marker::Model;
use tx_walk::LayerTrace;

/// The cached traces of the trees of a unit's layers. Contracts see their list.
#[derive(Drop)]
pub(crate) struct UnitLayers {
    all: Vec<LayerTrace>,
}

impl Model for UnitLayers {
    ghost use Rattle.std.specs.Prelude.{List};
    ghost use Rattle.std.specs.Coded.{coded_list};
    ghost use Rattle.tx_walk.specs.LayerTraces.{TreeTrace, coded_TreeTrace};

    ghost Value = { List TreeTrace };

    ghost coded = { coded_list coded_TreeTrace };

    ghost view = { λ p. p.all.items };
}

impl UnitLayers {
    /// None of them.
    pub(crate) fn none(alloc: Global) -> UnitLayers
        ensures { result ≡ [] }
    {
        UnitLayers {
            all: Vec::new(alloc),
        }
    }

    /// These.
    pub(crate) fn new(layers: Vec<LayerTrace>) -> UnitLayers
        ensures { result ≡ layers.items }
    {
        UnitLayers { all: layers }
    }

    /// All of them.
    pub(crate) fn all(&self) -> &[LayerTrace]
        ensures { result.now ≡ self.now }
    {
        &self.all
    }
}
