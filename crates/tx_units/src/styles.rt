// The units of styles.
ghost use Rattle.std.specs.Prelude.{◌≡◌, ◌+◌, ◌≤◌, ◌<◌, ◌^◌, ◌++◌, ◌∷◌, [], length, IfOk, OnOk};
ghost use Rattle.tx_units.specs.Units.{loaded_units, absent_unit, named_units, style_units, nodes_made};

use crate::documents::{paragraphs, style_names};
use crate::kinds::{Unit, UnitKind};
use crate::tags::{label, tag, words};
use std::alloc::Global;
use std::sync::ledger::Ledger;
use tx_base::{Memory, Steps};
use tx_doc::{Buffer, number_of};
use tx_tree::{Text, Tree};

// Adds the paragraphs of the style in buffer k, which has this tree.
fn add_loaded(alloc: Global, units: &mut Vec<Unit>, k: u32, t: &Tree) -> Result<(), Memory>
    ensures { OnOk result (units.new.items ≡ units.old.items ++ loaded_units k t.now) }
{
    let all = paragraphs(alloc, t)?;
    for paragraph in all {
        units.push(Unit::new(UnitKind::Style(k), paragraph.share()?))?;
    }
    Ok(())
}

// The error in place of a style that isn't loaded.
fn absent_unit<L: Ledger>(alloc: Global, name: &Text, steps: &mut Steps<L>) -> Result<Unit, Memory>
    ensures ok { IfOk result (λ u. u ≡ absent_unit name.now) }
    ensures counted { steps.new ≤ steps.old + 1 }
{
    let _bytes = name.bytes();
    let kind = words(alloc, "undefined-style")?;
    let detail = Tree::leaf(alloc, name.copy()?)?;
    let children = vec![in alloc; kind, detail]?;
    let tree = tag(alloc, label(alloc, "error")?, children, steps)?;
    Ok(Unit::new(UnitKind::Absent, tree))
}

// Adds what a name gives.
fn add_named<L: Ledger>(
    alloc: Global,
    units: &mut Vec<Unit>,
    styles: &[Buffer],
    name: &Text,
    steps: &mut Steps<L>,
) -> Result<(), Memory>
    requires { length styles.now + 1 < 2 ^ 32 }
    ensures ok { OnOk result (units.new.items ≡ units.old.items ++ named_units styles.now name.now) }
    ensures counted { steps.new ≤ steps.old + nodes_made (named_units styles.now name.now) }
{
    if name.bytes() == b"generic".as_slice() {
        return Ok(());
    }
    match number_of(styles, name.bytes()) {
        Some(k) => add_loaded(alloc, units, k as u32 + 1, &styles[k].tree),
        None => {
            units.push(absent_unit(alloc, name, steps)?)?;
            Ok(())
        }
    }
}

/// Adds the units of the styles that the document names.
pub(crate) fn add_styles<L: Ledger>(
    alloc: Global,
    units: &mut Vec<Unit>,
    document: &Tree,
    styles: &[Buffer],
    steps: &mut Steps<L>,
) -> Result<(), Memory>
    requires { length styles.now + 1 < 2 ^ 32 }
    ensures ok { OnOk result (units.new.items ≡ units.old.items ++ style_units document.now styles.now) }
    ensures counted { steps.new ≤ steps.old + nodes_made (style_units document.now styles.now) }
{
    let names = style_names(alloc, document)?;
    let each = names.as_slice();
    for name in each {
        add_named(alloc, units, styles, name, steps)?;
    }
    Ok(())
}
