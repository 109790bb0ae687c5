// The fault of bytes.
ghost use Rattle.std.specs.Prelude.{◌≡◌, ◌≢◌};
ghost use Rattle.tx_tree.specs.WideTree.{WideTree};
ghost use Rattle.tx_tree.specs.Limits.{IsWithinLimits};
ghost use Rattle.tx_tm_form.specs.Forms.{Spells};
ghost use Rattle.tx_tm_form.specs.Faults.{IsTmFault};

use crate::measuring::limit;
use crate::scan::misspelled;
use std::alloc::Global;
use tx_base::Memory;
use tx_tree::ReadFault;

/// Why the bytes spell no tree within the limits, by the table of faults, or `Memory`.
pub fn fault_of(alloc: Global, bytes: &[u8]) -> ReadFault
    requires none { (t : WideTree) → Spells bytes.now t → IsWithinLimits t → ⊥ }
    ensures fault { result ≢ ReadFault.Memory → IsTmFault bytes.now result }
{
    match misspelled(alloc, bytes) {
        Ok(Some(fault)) => fault,
        Ok(None) => match limit(alloc, bytes) {
            Ok((which, number)) => ReadFault::Limit(which, number),
            Err(Memory) => ReadFault::Memory,
        },
        Err(Memory) => ReadFault::Memory,
    }
}
