// Edits one after the other.
ghost use Rattle.std.specs.Prelude.{◌≡◌, ◌<◌, ◌≤◌, length, OnSome};
ghost use Rattle.tx_doc.specs.Buffers.{document_of};
ghost use Rattle.tx_bridge.specs.Entries.{units_of};
ghost use Rattle.tx_bridge.specs.Strays.{StandAside};
ghost use Rattle.tx_units.specs.Units.{units};

use crate::buffers::{behind, buffers_of, from_nothing, modifications};
use std::alloc::Global;
use std::sync::ledger::Ledger;
use tx_base::Steps;
use tx_bridge::{Bridges, unit_list_laws};
use tx_doc::Buffer;
use tx_mod::Mod;
use tx_samples::Row;
use tx_units::units;

// An edit, and what it is to do to the cache.
pub(crate) trait Edit {
    // Changes the buffers. Whether that does what it is to do.
    fn holds<L: Ledger>(
        &self,
        alloc: Global,
        bridges: &mut Bridges,
        buffers: &mut [Buffer],
        steps: &mut Steps<L>,
    ) -> Option<bool>
        requires some { 1 ≤ length buffers.old }
        requires few { length buffers.old ≤ 16 }
        requires units { units_of bridges.old.kept ≡ units buffers.old }
        requires strays { StandAside (document_of buffers.old) bridges.old.strays }
        ensures units { OnSome result (units_of bridges.new.kept ≡ units buffers.new) }
        ensures strays { OnSome result (StandAside (document_of buffers.new) bridges.new.strays) }
        ensures many { length buffers.new ≡ length buffers.old };
}

// Changes buffer k, and carries what is cached.
fn carry<L: Ledger>(
    alloc: Global,
    bridges: &mut Bridges,
    buffers: &mut [Buffer],
    k: u32,
    mods: &[Mod],
    steps: &mut Steps<L>,
) -> Option<()>
    requires some { k < length buffers.old }
    requires few { length buffers.old ≤ 16 }
    requires units { units_of bridges.old.kept ≡ units buffers.old }
    requires strays { StandAside (document_of buffers.old) bridges.old.strays }
    ensures units { OnSome result (units_of bridges.new.kept ≡ units buffers.new) }
    ensures strays { OnSome result (k ≡ 0 → StandAside (document_of buffers.new) bridges.new.strays) }
    ensures many { length buffers.new ≡ length buffers.old }
{
    unit_list_laws();
    let before = buffers[k as usize].tree.share().ok()?;
    buffers[k as usize].tree = behind(alloc, &before, mods, steps)?;
    let units = units(alloc, buffers, steps).ok()?;
    bridges.carry(alloc, k, &before, mods, units, steps).ok()
}

// So, by modifications as the lines of a script.
pub(crate) fn change<L: Ledger>(
    alloc: Global,
    bridges: &mut Bridges,
    buffers: &mut [Buffer],
    k: u32,
    lines: &str,
    steps: &mut Steps<L>,
) -> Option<()>
    requires some { k < length buffers.old }
    requires few { length buffers.old ≤ 16 }
    requires units { units_of bridges.old.kept ≡ units buffers.old }
    requires strays { StandAside (document_of buffers.old) bridges.old.strays }
    ensures units { OnSome result (units_of bridges.new.kept ≡ units buffers.new) }
    ensures strays { OnSome result (k ≡ 0 → StandAside (document_of buffers.new) bridges.new.strays) }
    ensures many { length buffers.new ≡ length buffers.old }
{
    let mods = modifications(alloc, lines, steps)?;
    carry(alloc, bridges, buffers, k, &mods, steps)
}

fn all_hold<L: Ledger, E: Edit>(
    alloc: Global,
    bridges: &mut Bridges,
    buffers: &mut [Buffer],
    edits: &[E],
    steps: &mut Steps<L>,
) -> bool
    requires some { 1 ≤ length buffers.old }
    requires few { length buffers.old ≤ 16 }
    requires units { units_of bridges.old.kept ≡ units buffers.old }
    requires strays { StandAside (document_of buffers.old) bridges.old.strays }
{
    for edit in edits {
        let Some(true) = edit.holds(alloc, bridges, buffers, steps) else {
            return false;
        };
    }
    true
}

// Buffers, and edits one after the other.
pub(crate) struct Series<E: 'static>(pub &'static str, pub &'static [E]);

impl<E: Edit> Row for Series<E> {
    // Whether each edit does what it is to do, where the cache is at first that of the buffers from nothing.
    fn holds<L: Ledger>(&self, alloc: Global, steps: &mut Steps<L>) -> Option<bool> {
        let mut buffers = buffers_of(alloc, self.0, steps)?;
        let mut bridges = from_nothing(alloc, &buffers, steps)?;
        Some(all_hold(alloc, &mut bridges, &mut buffers, self.1, steps))
    }
}
