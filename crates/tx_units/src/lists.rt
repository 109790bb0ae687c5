// The list of units.
ghost use Rattle.std.specs.Prelude.{◌≡◌, ◌+◌, ◌≤◌, ◌<◌, ◌^◌, ◌++◌, drop, length, IfOk, OnOk};
ghost use Rattle.tx_doc.specs.Buffers.{document_of};
ghost use Rattle.tx_units.specs.Units.{units, units_over, style_units, initial_units, nodes_made, made, made_over};

use crate::base::base_units;
use crate::bodies::add_body;
use crate::initial::add_initial;
use crate::kinds::Unit;
use crate::styles::add_styles;
use std::alloc::Global;
use std::sync::ledger::Ledger;
use tx_base::{Memory, Steps};
use tx_doc::Buffer;

// Adds the units of styles and of the initial environment.
fn add_front<L: Ledger>(
    alloc: Global,
    units: &mut Vec<Unit>,
    buffers: &[Buffer],
    steps: &mut Steps<L>,
) -> Result<(), Memory>
    requires some { 1 ≤ length buffers.now }
    requires few { length buffers.now < 2 ^ 32 }
    ensures ok { OnOk result (units.new.items ≡ units.old.items
        ++ (style_units (document_of buffers.now) (drop 1 buffers.now) ++ initial_units (document_of buffers.now))) }
    ensures counted { steps.new ≤ steps.old
        + (nodes_made (style_units (document_of buffers.now) (drop 1 buffers.now))
        + nodes_made (initial_units (document_of buffers.now))) }
{
    let Some((document, styles)) = buffers.split_first() else {
        unreachable!()
    };
    add_styles(alloc, units, &document.tree, styles, steps)?;
    add_initial(alloc, units, &document.tree, steps)
}

/// The units of buffers over these, which stand for those of the base style: after them those of the styles that the
/// document names, of its initial environment, and the paragraphs of its body. Buffer 0 is the document, and the others
/// are the loaded styles.
///
/// Whatever it returns, the steps rise by at most the nodes that are made, without those of the given units.
pub fn units_over<L: Ledger>(
    alloc: Global,
    base: Vec<Unit>,
    buffers: &[Buffer],
    steps: &mut Steps<L>,
) -> Result<Vec<Unit>, Memory>
    requires some { 1 ≤ length buffers.now }
    requires few { length buffers.now < 2 ^ 32 }
    ensures units { IfOk result (λ us. us.items ≡ units_over base.items buffers.now) }
    ensures counted { steps.new ≤ steps.old + made_over buffers.now }
{
    let mut units = base;
    add_front(alloc, &mut units, buffers, steps)?;
    add_body(alloc, &mut units, &buffers[0].tree)?;
    Ok(units)
}

/// The units of buffers, in the order in which they are evaluated: those of the base style, of the styles that the
/// document names, of its initial environment, and the paragraphs of its body. Buffer 0 is the document, and the others
/// are the loaded styles.
///
/// Whatever it returns, the steps rise by at most the nodes that are made, those of the base style included.
pub fn units<L: Ledger>(
    alloc: Global,
    buffers: &[Buffer],
    steps: &mut Steps<L>,
) -> Result<Vec<Unit>, Memory>
    requires some { 1 ≤ length buffers.now }
    requires few { length buffers.now < 2 ^ 32 }
    ensures units { IfOk result (λ us. us.items ≡ units buffers.now) }
    ensures counted { steps.new ≤ steps.old + made buffers.now }
{
    let base = base_units(alloc, steps)?;
    units_over(alloc, base, buffers, steps)
}
