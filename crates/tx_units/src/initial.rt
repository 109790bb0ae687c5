// The units of the initial environment.
ghost use Rattle.std.specs.Prelude.{◌≡◌, ◌+◌, ◌≤◌, ◌<◌, max, ◌++◌, ◌∷◌, [], codes, IfOk, OnOk, MatchOption};
ghost use Rattle.tx_tree.specs.WideTree.{node, cons, nil, size_of, depth_of};
ghost use Rattle.tx_tree.specs.declared.TheConstants.{MOST_DEPTH, MOST_SIZE};
ghost use Rattle.tx_units.specs.BaseStyle.{tag, assign_tag};
ghost use Rattle.tx_units.specs.Units.{unit, entry_units, initial_units, nodes_made};
ghost use Rattle.tx_units.specs.declared.kinds.UnitKind.TheVariants.{Initial};

use crate::documents::entries;
use crate::kinds::{Unit, UnitKind};
use crate::tags::{label, tag};
use std::alloc::Global;
use std::sync::ledger::Ledger;
use tx_base::{Memory, Steps};
use tx_doc::is_labelled;
use tx_tree::{Label, Tree};

// The labels of the two nodes that an entry gets.
#[derive(Drop)]
struct Labels {
    assign: Label,
    quote: Label,
}

impl Labels {
    fn new(alloc: Global) -> Result<Labels, Memory>
        ensures assign { IfOk result (λ l. l.assign ≡ codes "assign") }
        ensures quote { IfOk result (λ l. l.quote ≡ codes "quote") }
    {
        Ok(Labels {
            assign: label(alloc, "assign")?,
            quote: label(alloc, "quote")?,
        })
    }
}

// The name and the value of an `associate` of two, or None for any other tree.
fn association(entry: &Tree) -> Option<(&Tree, &Tree)>
    ensures { MatchOption result (entry_units entry.now ≡ [])
        (λ p. entry.now ≡ node (codes "associate") (cons p.0.now (cons p.1.now nil))) }
{
    if !is_labelled(entry, b"associate") {
        return None;
    }
    match entry.children() {
        [name, value] => Some((name, value)),
        _ => None,
    }
}

// The unit that sets the name to the value, unevaluated.
fn initial_unit<L: Ledger>(
    alloc: Global,
    labels: &Labels,
    name: &Tree,
    value: &Tree,
    steps: &mut Steps<L>,
) -> Result<Unit, Memory>
    requires assign { labels.now.assign ≡ codes "assign" }
    requires quote { labels.now.quote ≡ codes "quote" }
    requires size { size_of name.now + size_of value.now + 2 ≤ MOST_SIZE }
    requires depth { max (depth_of name.now) (depth_of value.now + 1) + 1 ≤ MOST_DEPTH }
    ensures ok { IfOk result (λ u. u ≡
        unit Initial (assign_tag name.now (tag (codes "quote") (value.now ∷ [])))) }
    ensures counted { steps.new ≤ steps.old + 2 }
{
    let _size = name.size();
    let _sizes = value.size();
    let quoted = tag(
        alloc,
        labels.quote.copy()?,
        vec![in alloc; value.share()?]?,
        steps,
    )?;
    let children = vec![in alloc; name.share()?, quoted]?;
    let tree = tag(alloc, labels.assign.copy()?, children, steps)?;
    Ok(Unit::new(UnitKind::Initial, tree))
}

// Adds the unit of an entry, if it has one.
fn add_entry<L: Ledger>(
    alloc: Global,
    units: &mut Vec<Unit>,
    labels: &Labels,
    entry: &Tree,
    steps: &mut Steps<L>,
) -> Result<(), Memory>
    requires assign { labels.now.assign ≡ codes "assign" }
    requires quote { labels.now.quote ≡ codes "quote" }
    requires size { size_of entry.now < MOST_SIZE }
    requires depth { depth_of entry.now < MOST_DEPTH }
    ensures ok { OnOk result (units.new.items ≡ units.old.items ++ entry_units entry.now) }
    ensures counted { steps.new ≤ steps.old + nodes_made (entry_units entry.now) }
{
    if let Some((name, value)) = association(entry) {
        units.push(initial_unit(alloc, labels, name, value, steps)?)?;
    }
    Ok(())
}

/// Adds the units of the document's initial environment.
pub(crate) fn add_initial<L: Ledger>(
    alloc: Global,
    units: &mut Vec<Unit>,
    document: &Tree,
    steps: &mut Steps<L>,
) -> Result<(), Memory>
    ensures ok { OnOk result (units.new.items ≡ units.old.items ++ initial_units document.now) }
    ensures counted { steps.new ≤ steps.old + nodes_made (initial_units document.now) }
{
    let labels = Labels::new(alloc)?;
    let _size = document.size();
    let all = entries(document);
    for entry in all {
        add_entry(alloc, units, &labels, entry, steps)?;
    }
    Ok(())
}
