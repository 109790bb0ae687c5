// The units of the base style. They are made once, when a view begins, and shared from then on.
ghost use Rattle.std.specs.Prelude.{◌≡◌, ◌+◌, ◌≤◌, ◌<◌, ◌^◌, List, take, length, IfOk};
ghost use Rattle.tx_doc.specs.declared.buffer.Buffer.{Buffer as Named};
ghost use Rattle.tx_bridge.specs.Entries.{units_of};
ghost use Rattle.tx_units.specs.Units.{base_units, units, made};

use std::alloc::Global;
use std::sync::ledger::Ledger;
use tx_base::{Memory, Steps};
use tx_bridge::Bridges;
use tx_doc::Buffer;
use tx_units::{BASE_UNITS, Unit, base_law, units_over};

// The first units of the cache, shared: as many as the base style has. No text is read, and no step is taken.
fn shared_base(alloc: Global, bridges: &Bridges) -> Result<Vec<Unit>, Memory>
    ensures { IfOk result (λ us. us.items ≡ take BASE_UNITS (units_of bridges.now.kept)) }
{
    let mut base = Vec::with_capacity(alloc, BASE_UNITS as usize)?;
    for i in 0..BASE_UNITS {
        if let Some(unit) = bridges.unit(i) {
            base.push(unit.share(alloc)?)?;
        }
    }
    Ok(base)
}

// A law: the cache begins with the units of the base style.
fn base_kept(bridges: &Bridges)
    requires { (bs : List Named) × (units_of bridges.now.kept ≡ units bs) }
    ensures { take BASE_UNITS (units_of bridges.now.kept) ≡ base_units }
{
    base_law();
}

/// The units of the buffers. Those of the base style are shared with the cache, which is of the units of some buffers.
pub(crate) fn units_anew<L: Ledger>(
    alloc: Global,
    bridges: &Bridges,
    buffers: &[Buffer],
    steps: &mut Steps<L>,
) -> Result<Vec<Unit>, Memory>
    requires some { 1 ≤ length buffers.now }
    requires few { length buffers.now ≤ 64 }
    requires of_buffers { (bs : List Named) × (units_of bridges.now.kept ≡ units bs) }
    ensures units { IfOk result (λ us. us.items ≡ units buffers.now) }
    ensures counted { steps.new ≤ steps.old + made buffers.now }
{
    base_law();
    base_kept(bridges);
    let base = shared_base(alloc, bridges)?;
    units_over(alloc, base, buffers, steps)
}
