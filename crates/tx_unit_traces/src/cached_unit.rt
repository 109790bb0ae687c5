// A unit with the trace that is cached of it.
ghost use Rattle.std.specs.Prelude.{◌≡◌, IfOk};
ghost use Rattle.tx_unit_traces.specs.Units.{without_traces};

use crate::unit_trace::UnitTrace;
use std::alloc::Global;
use tx_base::Memory;
use tx_units::Unit;

/// A unit with the trace that it evaluated to last, or none where nothing is cached.
#[derive(Drop)]
pub struct CachedUnit {
    /// The unit.
    pub unit: Unit,
    /// Its trace.
    pub trace: UnitTrace,
}

/// The units, of which nothing is cached.
pub fn without_traces(alloc: Global, units: Vec<Unit>) -> Result<Vec<CachedUnit>, Memory>
    ensures { IfOk result (λ v. v.items ≡ without_traces units.items) }
{
    Ok(
        units
            .into_iter()
            .map(|unit| CachedUnit {
                unit,
                trace: UnitTrace::none(),
            })
            .collect(alloc)?,
    )
}
