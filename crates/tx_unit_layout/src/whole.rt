// A unit laid out whole.
ghost use Rattle.std.specs.Prelude.{◌≡◌, ◌+◌, ◌*◌, ◌≤◌, [], Some, length, IfOk, OnOk, OnErr};
ghost use Rattle.tx_tree.specs.WideTree.{size_of};
ghost use Rattle.tx_origin.specs.Values.{plain};
ghost use Rattle.tx_exec.specs.Outcomes.{wide_outcome};
ghost use Rattle.tx_items.specs.Shows.{shown_paragraphs};
ghost use Rattle.tx_items.specs.declared.attributes.Attrs.{Attrs};
ghost use Rattle.tx_view_form.specs.Outcomes.{unit_value};
ghost use Rattle.tx_view_form.specs.Views.{IsShown, paragraphs_at};
ghost use Rattle.tx_view_form.specs.Weights.{weight_of};
ghost use Rattle.tx_part_layout.specs.LaidParts.{items_in};
ghost use Rattle.tx_unit_layout.specs.LaidUnits.{IsLaidOut};
ghost use Rattle.tx_unit_layout.specs.Views.{unit_view, IsReadable};

use crate::laid_parts::LaidParts;
use crate::shown::Shown;
use std::alloc::Global;
use std::sync::ledger::Ledger;
use tx_base::{Memory, Steps};
use tx_exec::Outcome;
use tx_items::{Attrs, items};
use tx_origin::Value;
use tx_part_layout::{LineList, item_count, lines_of};
use tx_tree::Path;
use tx_view_form::{short_law, weight_laws};

/// A law: what a unit with this outcome shows weighs at most 242 for each unit of its size.
pub fn outcome_weight_law(outcome: &Outcome)
    ensures { (a : Attrs) → weight_of (shown_paragraphs a (unit_value (wide_outcome outcome.now)))
        ≤ 242 * size_of (plain (unit_value (wide_outcome outcome.now))) }
{
    weight_laws();
    if let Outcome::Done(trace) = outcome {
        let _size = trace.value.size();
    }
}

// What a unit with this path shows, where these are its value and the attributes before it.
fn show<L: Ledger>(
    alloc: Global,
    path: &Option<Path>,
    value: &Value,
    attrs: Attrs,
    width: u32,
    steps: &mut Steps<L>,
) -> Result<Shown, Memory>
    requires least_width { 20 ≤ width }
    requires most_width { width ≤ 500 }
    requires small { size_of (plain value.now) ≤ 1000000 }
    ensures shown { IfOk result (λ s. IsShown width attrs value.now path.now (unit_view s)) }
    ensures laid { IfOk result (λ s. s.laid ≡ Some attrs) }
    ensures no_parts { IfOk result (λ s. s.parts ≡ []) }
    ensures readable { IfOk result (λ s. IsReadable s) }
    ensures few_lines { IfOk result (λ s. length (unit_view s).lines ≤ weight_of (shown_paragraphs attrs value.now)) }
    ensures few_errors { IfOk result (λ s. length s.errors.items ≤ size_of (plain value.now)) }
    ensures counted { OnOk result (steps.new ≡ steps.old + items_in (paragraphs_at path.now attrs value.now)) }
{
    let _size = value.size();
    weight_laws();
    short_law();
    let (paragraphs, errors) = items(alloc, value, &attrs)?;
    let Some(path) = path else {
        return Ok(Shown {
            path: None,
            laid: Some(attrs),
            errors,
            paragraphs: Vec::new(alloc),
            lines: LineList::none(alloc),
            parts: LaidParts::none(alloc),
        });
    };
    let own = path.copy(alloc)?;
    let lines = lines_of(alloc, &paragraphs, width, steps)?;
    Ok(Shown {
        path: Some(own),
        laid: Some(attrs),
        errors,
        paragraphs,
        lines: LineList::new(lines),
        parts: LaidParts::none(alloc),
    })
}

/// Lays out a unit with this value whole, and returns how many items were laid out.
pub(crate) fn lay_whole<L: Ledger>(
    alloc: Global,
    value: &Value,
    attrs: Attrs,
    shown: &mut Shown,
    width: u32,
    steps: &mut Steps<L>,
) -> Result<u64, Memory>
    requires least_width { 20 ≤ width }
    requires most_width { width ≤ 500 }
    requires small { size_of (plain value.now) ≤ 1000000 }
    ensures shown { OnOk result (IsLaidOut width attrs value.now shown.old.path shown.new) }
    ensures laid { OnOk result (shown.new.laid ≡ Some attrs) }
    ensures no_parts { OnOk result (shown.new.parts ≡ []) }
    ensures readable { OnOk result (IsReadable shown.new) }
    ensures items { IfOk result (λ n. n ≡ items_in (paragraphs_at shown.old.path attrs value.now)) }
    ensures counted { IfOk result (λ n. steps.new ≡ steps.old + n) }
    ensures err { OnErr result (shown.new ≡ shown.old) }
{
    let _size = value.size();
    weight_laws();
    let new = show(alloc, &shown.path, value, attrs, width, steps)?;
    let items = item_count(&new.paragraphs);
    *shown = new;
    Ok(items)
}
