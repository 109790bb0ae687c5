// Buffers, modifications, and what is cached of units that are evaluated from nothing.
ghost use Rattle.std.specs.Prelude.{◌≡◌, ◌≤◌, Some, [], length, IfSome};
ghost use Rattle.tx_mod.specs.Followed.{changed_by_all};
ghost use Rattle.tx_units.specs.Units.{units};
ghost use Rattle.tx_bridge.specs.Entries.{units_of};

use crate::outcomes::alike;
use std::alloc::Global;
use std::sync::ledger::Ledger;
use tx_base::Steps;
use tx_bridge::{Bridges, unit_list_laws};
use tx_cmd::{Command, parse};
use tx_doc::Buffer;
use tx_mod::{Mod, apply};
use tx_samples::told_buffers;
use tx_tree::Tree;
use tx_units::units;

// How many units the base style has.
pub(crate) const BASE: u32 = 26;

// Buffers, each a name and a tree, `;` between them, 16 at most.
pub(crate) fn buffers_of<L: Ledger>(
    alloc: Global,
    words: &str,
    steps: &mut Steps<L>,
) -> Option<Vec<Buffer>>
    ensures some { IfSome result (λ bs. 1 ≤ length bs.items) }
    ensures few { IfSome result (λ bs. length bs.items ≤ 16) }
{
    let buffers = told_buffers(alloc, words, steps)?;
    if buffers.is_empty() || buffers.len() > 16 {
        return None;
    }
    Some(buffers)
}

// A modification as the line of a script.
fn change_of<L: Ledger>(alloc: Global, line: &str, steps: &mut Steps<L>) -> Option<Mod> {
    match parse(alloc, line.as_bytes(), steps) {
        Ok(Command::Change(m)) => Some(m),
        _ => None,
    }
}

// Modifications, `;` between them.
pub(crate) fn modifications<L: Ledger>(
    alloc: Global,
    lines: &str,
    steps: &mut Steps<L>,
) -> Option<Vec<Mod>> {
    let mut mods = Vec::new(alloc);
    for line in lines.split(';') {
        mods.push(change_of(alloc, line, steps)?).ok()?;
    }
    Some(mods)
}

// What one or two modifications make of the tree.
pub(crate) fn behind<L: Ledger>(
    alloc: Global,
    before: &Tree,
    mods: &[Mod],
    steps: &mut Steps<L>,
) -> Option<Tree>
    ensures { IfSome result (λ t. changed_by_all mods.now before.now ≡ Some t) }
{
    match mods {
        [m] => apply(alloc, before, m, steps).ok(),
        [m, n] => {
            let between = apply(alloc, before, m, steps).ok()?;
            apply(alloc, &between, n, steps).ok()
        }
        _ => None,
    }
}

// What evaluating from nothing gives.
pub(crate) fn from_nothing<L: Ledger>(
    alloc: Global,
    buffers: &[Buffer],
    steps: &mut Steps<L>,
) -> Option<Bridges>
    requires some { 1 ≤ length buffers.now }
    requires few { length buffers.now ≤ 16 }
    ensures units { IfSome result (λ b. units_of b.kept ≡ units buffers.now) }
    ensures strays { IfSome result (λ b. b.strays ≡ []) }
{
    unit_list_laws();
    let units = units(alloc, buffers, steps).ok()?;
    let mut bridges = Bridges::start(alloc, units).ok()?;
    bridges.refresh(alloc, steps).ok()?;
    Some(bridges)
}

// Whether all outcomes are the fresh ones.
pub(crate) fn are_fresh<L: Ledger>(
    alloc: Global,
    bridges: &Bridges,
    fresh: &Bridges,
    steps: &mut Steps<L>,
) -> Option<bool> {
    for i in 0..1000 {
        match (bridges.outcome(i), fresh.outcome(i)) {
            (None, None) => return Some(true),
            (Some(one), Some(other)) => {
                if !alike(alloc, one, other, steps)? {
                    return Some(false);
                }
            }
            _ => return Some(false),
        }
    }
    None
}

// Whether all outcomes are those from nothing.
pub(crate) fn are_from_nothing<L: Ledger>(
    alloc: Global,
    bridges: &Bridges,
    buffers: &[Buffer],
    steps: &mut Steps<L>,
) -> Option<bool>
    requires some { 1 ≤ length buffers.now }
    requires few { length buffers.now ≤ 16 }
{
    let fresh = from_nothing(alloc, buffers, steps)?;
    are_fresh(alloc, bridges, &fresh, steps)
}
