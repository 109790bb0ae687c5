// Units evaluated and laid out.
ghost use Rattle.std.specs.Prelude.{◌≡◌, ◌+◌, ◌≤◌, ◌<◌, ◌^◌, length, All, IfOk, OnOk, OnErr, Some, true, false};
ghost use Rattle.std.specs.Prelude.{IsSome, IfSome, None, [], ◌⊎◌};
ghost use Rattle.tx_items.specs.declared.attributes.Attrs.{Attrs};
ghost use Rattle.tx_view_form.specs.Outcomes.{beginning};
ghost use Rattle.tx_view_form.specs.Views.{AreShown, lines_of};
ghost use Rattle.tx_view_form.specs.Errors.{errors_of};
ghost use Rattle.tx_bridge.specs.Entries.{units_of, fresh_from};
ghost use Rattle.tx_bridge.specs.Names.{Charge};
ghost use Rattle.tx_bridge.specs.PartsKept.{fresh_parts_from};
ghost use Rattle.tx_view.specs.Units.{unit_views};
ghost use Rattle.tx_unit_layout.specs.Views.{unit_view, IsReadable};
ghost use Rattle.tx_view.specs.Stores.{attributes_from, laid_parts_from, fresh_stores, IsPartlyFresh};
ghost use Rattle.tx_view.specs.Costs.{items_relaid_from};
ghost use Rattle.tx_view.specs.Laid.{AreLaid, laid_in, laid_parts_in, dropped, without_parts, view_stores_in};
ghost use Rattle.tx_view.specs.Lone.{IsLone, KeepPages};

use crate::evaluating::{evaluate, forget_all_parts};
use crate::laying::lay_all;
use crate::lone::{Lone, is_alone_quietly, lay_if};
use std::alloc::Global;
use std::sync::ledger::Ledger;
use tx_base::{Memory, Steps};
use tx_bridge::Bridges;
use tx_exec_form::trace_laws;
use tx_unit_layout::Shown;

// Evaluates the units for which nothing that is cached fits, and lays out all units. Returns by how much the steps
// rose.
fn lay_out_all<L: Ledger>(
    alloc: Global,
    bridges: &mut Bridges,
    units: &mut [Shown],
    width: u32,
    steps: &mut Steps<L>,
) -> Result<u64, Memory>
    requires least_width { 20 ≤ width }
    requires most_width { width ≤ 500 }
    requires few { length bridges.old.kept < 2 ^ 23 }
    requires laid { AreLaid width bridges.old.kept bridges.old.parts units.old }
    requires readable { All IsReadable units.old }
    ensures shown { OnOk result (AreShown width beginning (units_of bridges.old.kept) (unit_views units.new)) }
    ensures kept { OnOk result (bridges.new.kept ≡ fresh_from beginning (units_of bridges.old.kept)) }
    ensures parts { OnOk result (bridges.new.parts ≡ fresh_parts_from beginning (units_of bridges.old.kept)) }
    ensures attributes { OnOk result (laid_in units.new ≡ attributes_from beginning (units_of bridges.old.kept)) }
    ensures laid_parts { OnOk result
        (laid_parts_in units.new ≡ laid_parts_from beginning (units_of bridges.old.kept)) }
    ensures lines { OnOk result (length (lines_of (unit_views units.new)) < 2 ^ 32) }
    ensures errors { OnOk result (length (errors_of (unit_views units.new)) < 2 ^ 32) }
    ensures counted { IfOk result (λ n. steps.new ≡ steps.old + n) }
    ensures work { IfOk result (λ n. n
        ≡ Charge bridges.old.kept bridges.old.parts + items_relaid_from beginning bridges.old.kept bridges.old.parts
        (laid_in units.old) (laid_parts_in units.old)) }
    ensures refused { OnErr result (IsPartlyFresh (view_stores_in bridges.old units.old)
        (fresh_stores (units_of bridges.old.kept)) (view_stores_in bridges.new (without_parts units.new))) }
    ensures units { units_of bridges.new.kept ≡ units_of bridges.old.kept }
    ensures laid { OnOk result (AreLaid width bridges.new.kept bridges.new.parts units.new) }
    ensures left { OnErr result (AreLaid width bridges.new.kept bridges.new.parts (without_parts units.new)) }
    ensures strays { OnOk result (bridges.new.strays ≡ []) }
    ensures strays_left { OnErr result
        ((bridges.new.strays ≡ bridges.old.strays) ⊎ (bridges.new.strays ≡ [])) }
    ensures readable { All IsReadable units.new }
{
    let none = units.len();
    let (charges, _) = evaluate(alloc, bridges, units, none, steps)?;
    let items = lay_all(alloc, bridges, units, width, steps)?;
    Ok(charges + items)
}

// Lays out the units, where one alone has changed since all were laid out. Also returns whether the pages are
// unchanged.
fn lay_out_lone<L: Ledger>(
    alloc: Global,
    bridges: &mut Bridges,
    lone: &Lone,
    units: &mut [Shown],
    width: u32,
    steps: &mut Steps<L>,
) -> Result<(u64, bool), Memory>
    requires least_width { 20 ≤ width }
    requires most_width { width ≤ 500 }
    requires few { length bridges.old.kept < 2 ^ 23 }
    requires lone { IsLone bridges.old.kept units.old lone.now.unit lone.now.attrs }
    requires laid { AreLaid width bridges.old.kept bridges.old.parts units.old }
    requires readable { All IsReadable units.old }
    ensures shown { OnOk result (AreShown width beginning (units_of bridges.old.kept) (unit_views units.new)) }
    ensures kept { OnOk result (bridges.new.kept ≡ fresh_from beginning (units_of bridges.old.kept)) }
    ensures parts { OnOk result (bridges.new.parts ≡ fresh_parts_from beginning (units_of bridges.old.kept)) }
    ensures attributes { OnOk result (laid_in units.new ≡ attributes_from beginning (units_of bridges.old.kept)) }
    ensures laid_parts { OnOk result
        (laid_parts_in units.new ≡ laid_parts_from beginning (units_of bridges.old.kept)) }
    ensures lines { IfOk result (λ p. p.1 ≡ false → length (lines_of (unit_views units.new)) < 2 ^ 32) }
    ensures errors { IfOk result (λ p. p.1 ≡ false → length (errors_of (unit_views units.new)) < 2 ^ 32) }
    ensures pages { IfOk result (λ p. p.1 ≡ true → KeepPages lone.now units.old units.new) }
    ensures counted { IfOk result (λ p. steps.new ≡ steps.old + p.0) }
    ensures work { IfOk result (λ p. p.0
        ≡ Charge bridges.old.kept bridges.old.parts + items_relaid_from beginning bridges.old.kept bridges.old.parts
        (laid_in units.old) (laid_parts_in units.old)) }
    ensures refused { OnErr result (IsPartlyFresh (view_stores_in bridges.old units.old)
        (fresh_stores (units_of bridges.old.kept)) (view_stores_in bridges.new (without_parts units.new))) }
    ensures units { units_of bridges.new.kept ≡ units_of bridges.old.kept }
    ensures laid { OnOk result (AreLaid width bridges.new.kept bridges.new.parts units.new) }
    ensures left { OnErr result (AreLaid width bridges.new.kept bridges.new.parts (without_parts units.new)) }
    ensures strays { OnOk result (bridges.new.strays ≡ []) }
    ensures strays_left { OnErr result
        ((bridges.new.strays ≡ bridges.old.strays) ⊎ (bridges.new.strays ≡ [])) }
    ensures readable { All IsReadable units.new }
{
    trace_laws();
    let (charges, alone) = evaluate(alloc, bridges, units, lone.unit, steps)?;
    let quiet = is_alone_quietly(alone, bridges, lone.unit);
    let (items, alike) = lay_if(alloc, bridges, quiet, lone, units, width, steps)?;
    let work = charges + items;
    if alike {
        return Ok((work, true));
    }
    let rest = lay_all(alloc, bridges, units, width, steps)?;
    Ok((work + rest, false))
}

// Evaluates the units for which nothing that is cached fits, and lays out those that aren't laid out as they should be,
// one alone or all. When out of memory the lines of parts are to be dropped.
fn lay_out_by<L: Ledger>(
    alloc: Global,
    bridges: &mut Bridges,
    lone: &Option<Lone>,
    units: &mut [Shown],
    width: u32,
    steps: &mut Steps<L>,
) -> Result<(u64, bool), Memory>
    requires least_width { 20 ≤ width }
    requires most_width { width ≤ 500 }
    requires few { length bridges.old.kept < 2 ^ 23 }
    requires lone { IfSome lone.now (λ l. IsLone bridges.old.kept units.old l.unit l.attrs) }
    requires laid { AreLaid width bridges.old.kept bridges.old.parts units.old }
    requires readable { All IsReadable units.old }
    ensures shown { OnOk result (AreShown width beginning (units_of bridges.old.kept) (unit_views units.new)) }
    ensures kept { OnOk result (bridges.new.kept ≡ fresh_from beginning (units_of bridges.old.kept)) }
    ensures parts { OnOk result (bridges.new.parts ≡ fresh_parts_from beginning (units_of bridges.old.kept)) }
    ensures attributes { OnOk result (laid_in units.new ≡ attributes_from beginning (units_of bridges.old.kept)) }
    ensures laid_parts { OnOk result
        (laid_parts_in units.new ≡ laid_parts_from beginning (units_of bridges.old.kept)) }
    ensures lines { IfOk result (λ p. p.1 ≡ false → length (lines_of (unit_views units.new)) < 2 ^ 32) }
    ensures errors { IfOk result (λ p. p.1 ≡ false → length (errors_of (unit_views units.new)) < 2 ^ 32) }
    ensures pages { IfOk result (λ p. p.1 ≡ true
        → IsSome lone.now × IfSome lone.now (λ l. KeepPages l units.old units.new)) }
    ensures counted { IfOk result (λ p. steps.new ≡ steps.old + p.0) }
    ensures work { IfOk result (λ p. p.0
        ≡ Charge bridges.old.kept bridges.old.parts + items_relaid_from beginning bridges.old.kept bridges.old.parts
        (laid_in units.old) (laid_parts_in units.old)) }
    ensures refused { OnErr result (IsPartlyFresh (view_stores_in bridges.old units.old)
        (fresh_stores (units_of bridges.old.kept)) (view_stores_in bridges.new (without_parts units.new))) }
    ensures units { units_of bridges.new.kept ≡ units_of bridges.old.kept }
    ensures laid { OnOk result (AreLaid width bridges.new.kept bridges.new.parts units.new) }
    ensures left { OnErr result (AreLaid width bridges.new.kept bridges.new.parts (without_parts units.new)) }
    ensures strays { OnOk result (bridges.new.strays ≡ []) }
    ensures strays_left { OnErr result
        ((bridges.new.strays ≡ bridges.old.strays) ⊎ (bridges.new.strays ≡ [])) }
    ensures readable { All IsReadable units.new }
{
    match lone {
        None => {
            let work = lay_out_all(alloc, bridges, units, width, steps)?;
            Ok((work, false))
        }
        Some(lone) => lay_out_lone(alloc, bridges, lone, units, width, steps),
    }
}

/// Evaluates the units for which nothing that is cached fits, and lays out those that aren't laid out as they should
/// be. Returns by how much the steps rose, and whether the pages of the units, which are in `lone`, are unchanged. When
/// out of memory no part has lines.
pub(crate) fn lay_out<L: Ledger>(
    alloc: Global,
    bridges: &mut Bridges,
    lone: &Option<Lone>,
    units: &mut [Shown],
    width: u32,
    steps: &mut Steps<L>,
) -> Result<(u64, bool), Memory>
    requires least_width { 20 ≤ width }
    requires most_width { width ≤ 500 }
    requires few { length bridges.old.kept < 2 ^ 23 }
    requires lone { IfSome lone.now (λ l. IsLone bridges.old.kept units.old l.unit l.attrs) }
    requires laid { AreLaid width bridges.old.kept bridges.old.parts units.old }
    requires readable { All IsReadable units.old }
    ensures shown { OnOk result (AreShown width beginning (units_of bridges.old.kept) (unit_views units.new)) }
    ensures kept { OnOk result (bridges.new.kept ≡ fresh_from beginning (units_of bridges.old.kept)) }
    ensures parts { OnOk result (bridges.new.parts ≡ fresh_parts_from beginning (units_of bridges.old.kept)) }
    ensures attributes { OnOk result (laid_in units.new ≡ attributes_from beginning (units_of bridges.old.kept)) }
    ensures laid_parts { OnOk result
        (laid_parts_in units.new ≡ laid_parts_from beginning (units_of bridges.old.kept)) }
    ensures lines { IfOk result (λ p. p.1 ≡ false → length (lines_of (unit_views units.new)) < 2 ^ 32) }
    ensures errors { IfOk result (λ p. p.1 ≡ false → length (errors_of (unit_views units.new)) < 2 ^ 32) }
    ensures pages { IfOk result (λ p. p.1 ≡ true
        → IsSome lone.now × IfSome lone.now (λ l. KeepPages l units.old units.new)) }
    ensures counted { IfOk result (λ p. steps.new ≡ steps.old + p.0) }
    ensures work { IfOk result (λ p. p.0
        ≡ Charge bridges.old.kept bridges.old.parts + items_relaid_from beginning bridges.old.kept bridges.old.parts
        (laid_in units.old) (laid_parts_in units.old)) }
    ensures refused { OnErr result (IsPartlyFresh (view_stores_in bridges.old units.old)
        (fresh_stores (units_of bridges.old.kept)) (view_stores_in bridges.new units.new)) }
    ensures units { units_of bridges.new.kept ≡ units_of bridges.old.kept }
    ensures laid { AreLaid width bridges.new.kept bridges.new.parts units.new }
    ensures strays { OnOk result (bridges.new.strays ≡ []) }
    ensures strays_left { OnErr result
        ((bridges.new.strays ≡ bridges.old.strays) ⊎ (bridges.new.strays ≡ [])) }
    ensures readable { All IsReadable units.new }
{
    match lay_out_by(alloc, bridges, lone, units, width, steps) {
        Ok(done) => Ok(done),
        Err(memory) => {
            forget_all_parts(units);
            Err(memory)
        }
    }
}
