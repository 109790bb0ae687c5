// What a unit shows.
ghost use Rattle.std.specs.Prelude.{◌≡◌, ◌&&◌, not, All, IfOk};
ghost use Rattle.tx_items.specs.Narrow.{IsNarrow};
ghost use Rattle.tx_items.specs.Running.{state_of, is_nothing};
ghost use Rattle.tx_items.specs.Shows.{show, shown_paragraphs, is_blank, part_paragraphs};

use crate::attributes::Attrs;
use crate::drawing::{ErrorAt, Paragraph};
use crate::plans::Plan;
use crate::showing::Showing;
use std::alloc::Global;
use tx_base::Memory;
use tx_origin::Value;

/// The paragraphs of a unit with this value, at least one, and its errors in order, where these are the attributes at
/// its start. The one error is `Memory`.
pub fn items(
    alloc: Global,
    value: &Value,
    attrs: &Attrs,
) -> Result<(Vec<Paragraph>, Vec<ErrorAt>), Memory>
    ensures paragraphs { IfOk result (λ r. r.0.items ≡ shown_paragraphs attrs.now value.now) }
    ensures narrow { IfOk result (λ r. All (λ p. All IsNarrow p.items) r.0.items) }
    ensures errors { IfOk result (λ r. r.1.items ≡ (show attrs.now value.now).errors) }
{
    let plan = Plan::of(alloc, value)?;
    let mut showing = Showing::new(alloc, attrs)?;
    showing.show(alloc, value, &plan)?;
    showing.finish(alloc, plan.is_list())?;
    let Showing {
        paragraphs,
        errors,
        ..
    } = showing;
    Ok((paragraphs, errors))
}

/// The attributes after a value, where these are the ones before it. The one error is `Memory`.
pub fn after(alloc: Global, value: &Value, attrs: &Attrs) -> Result<Attrs, Memory>
    ensures { IfOk result (λ a. a ≡ (show attrs.now value.now).after) }
{
    let plan = Plan::of(alloc, value)?;
    let mut showing = Showing::new(alloc, attrs)?;
    showing.show(alloc, value, &plan)?;
    let Showing { attrs, .. } = showing;
    Ok(attrs)
}

/// What a part of a unit shows beside the others.
#[derive(Drop)]
pub struct PartItems {
    /// One, where it shows in a line, and else those of a list, maybe none.
    pub paragraphs: Vec<Paragraph>,
    pub errors: Vec<ErrorAt>,
    /// The attributes after it.
    pub after: Attrs,
    /// It shows in a line, without an item. Its paragraph has the attributes after it.
    pub blank: bool,
}

// What is shown so far is a list or not, and has no item that is in no paragraph.
fn is_blank(showing: &Showing, is_list: bool) -> bool
    ensures { result ≡ (not is_list && is_nothing (state_of showing.now).run) }
{
    if is_list {
        return false;
    }
    showing.run.is_empty()
}

/// What a part with this value shows, where these are the attributes before it. The one error is `Memory`.
pub fn part_items(alloc: Global, value: &Value, attrs: &Attrs) -> Result<PartItems, Memory>
    ensures paragraphs { IfOk result (λ r. r.paragraphs.items
        ≡ part_paragraphs (show attrs.now value.now).form (show attrs.now value.now).after) }
    ensures narrow { IfOk result (λ r. All (λ p. All IsNarrow p.items) r.paragraphs.items) }
    ensures errors { IfOk result (λ r. r.errors.items ≡ (show attrs.now value.now).errors) }
    ensures after { IfOk result (λ r. r.after ≡ (show attrs.now value.now).after) }
    ensures blank { IfOk result (λ r. r.blank ≡ is_blank (show attrs.now value.now).form) }
{
    let plan = Plan::of(alloc, value)?;
    let mut showing = Showing::new(alloc, attrs)?;
    showing.show(alloc, value, &plan)?;
    let blank = is_blank(&showing, plan.is_list());
    showing.finish_part(alloc, plan.is_list())?;
    let Showing {
        attrs: after,
        paragraphs,
        errors,
        ..
    } = showing;
    Ok(PartItems {
        paragraphs,
        errors,
        after,
        blank,
    })
}
