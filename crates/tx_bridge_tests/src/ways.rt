// The ways in which what is cached is carried through an edit.
ghost use Rattle.std.specs.Prelude.{◌≡◌, ◌≤◌, [], length};
ghost use Rattle.tx_bridge.specs.Entries.{units_of};
ghost use Rattle.tx_units.specs.Units.{units};

use crate::edits::change_in_place;
use crate::series::change;
use std::alloc::Global;
use std::sync::ledger::Ledger;
use tx_base::Steps;
use tx_bridge::Bridges;
use tx_doc::Buffer;

// One or two modifications, `;` between them.
pub(crate) enum Way {
    // of the buffer of this number, by `carry`
    Listed(u32, &'static str),
    // of the document, all of them inside one paragraph, by `carry_in_place`
    InPlace(&'static str),
}

impl Way {
    // Changes the buffers, and carries what is cached.
    pub(crate) fn go<L: Ledger>(
        &self,
        alloc: Global,
        bridges: &mut Bridges,
        buffers: &mut [Buffer],
        steps: &mut Steps<L>,
    ) -> Option<()>
        requires some { 1 ≤ length buffers.old }
        requires few { length buffers.old ≤ 16 }
        requires units { units_of bridges.old.kept ≡ units buffers.old }
        requires strays { bridges.old.strays ≡ [] }
        ensures many { length buffers.new ≡ length buffers.old }
    {
        match *self {
            Way::Listed(k, lines) => {
                if k as usize >= buffers.len() {
                    return None;
                }
                change(alloc, bridges, buffers, k, lines, steps)
            }
            Way::InPlace(lines) => change_in_place(alloc, bridges, buffers, lines, steps),
        }
    }
}
