// The limit that a spelled tree passes.
ghost use Rattle.std.specs.Prelude.{◌≡◌, ◌+◌, ◌<◌, ◌≤◌, ◌^◌, ℕ, IfOk};
ghost use Rattle.tx_tree.specs.Limits.{IsWithinLimits};
ghost use Rattle.tx_tree.specs.ReadFaults.{IsPassed};
ghost use Rattle.tx_tree.specs.WideTree.{WideTree};
ghost use Rattle.tx_scm.specs.Spelling.{Spells};
ghost use Rattle.tx_scm.specs.Measuring.{AreCountsBelow, IsSmallGauge, Measures, counted, outside_step, gauge_longer};
ghost use Rattle.tx_scm.specs.Measuring.{inside_step, step};
ghost use Rattle.tx_scm.specs.Gauges.{counts_of, gauge_of};

use crate::kinds::{Kind, kind_of};
use std::alloc::Global;
use tx_base::Memory;
use tx_tree::{MOST_ARITY, MOST_DEPTH, MOST_TEXT, Which};

/// The part of the syntax in which measuring is.
#[derive(Clone, Copy, Debug, PartialEq, Eq)]
pub(crate) enum Part {
    /// Outside strings.
    Outside,
    /// In a string, after so many bytes of its text.
    Inside(usize),
    /// In a string, after so many bytes of its text and a backslash.
    Escaped(usize),
}

/// What was measured so far.
#[derive(Drop)]
pub(crate) struct Gauge {
    part: Part,
    /// The children so far of each open bracket, of the innermost last.
    counts: Vec<usize>,
    /// The greatest length of a text.
    text: usize,
    /// The greatest arity of a node.
    arity: usize,
    /// The greatest depth.
    depth: usize,
    /// The size.
    size: usize,
}

// A child more in the innermost bracket.
fn counted(mut counts: Vec<usize>) -> Result<Vec<usize>, Memory>
    requires { AreCountsBelow (2 ^ 63) (counts_of counts.items) }
    ensures { IfOk result (λ next. counts_of next.items ≡ counted (counts_of counts.items)) }
{
    if let Some(last) = counts.pop() {
        counts.push(last + 1)?;
    }
    Ok(counts)
}

#[tactic(auto, unfolding(crate::specs::Measuring::outside_step))]
fn outside_step(mut gauge: Gauge, kind: Kind) -> Result<Gauge, Memory>
    requires { IsSmallGauge (2 ^ 63) (gauge_of gauge) }
    ensures { IfOk result (λ next. gauge_of next ≡ outside_step (gauge_of gauge) kind) }
{
    match kind {
        Kind::Opens => {
            gauge.counts.push(0)?;
            gauge.depth = gauge.depth.max(gauge.counts.len());
            gauge.size += 1;
            Ok(gauge)
        }
        Kind::Quote => {
            gauge.depth = gauge.depth.max(gauge.counts.len() + 1);
            gauge.size += 1;
            gauge.part = Part::Inside(0);
            Ok(gauge)
        }
        Kind::Closes => {
            let Some(count) = gauge.counts.pop() else {
                return Ok(gauge);
            };
            gauge.arity = gauge.arity.max(count);
            gauge.counts = counted(gauge.counts)?;
            Ok(gauge)
        }
        _ => Ok(gauge),
    }
}

// A byte more of a text of so many.
fn gauge_longer(mut gauge: Gauge, length: usize) -> Gauge
    requires size { (gauge_of gauge).size < 2 ^ 63 }
    requires text { length < 2 ^ 63 }
    ensures { gauge_of result ≡ gauge_longer (gauge_of gauge) length }
{
    gauge.part = Part::Inside(length + 1);
    gauge.size += 1;
    gauge
}

#[tactic(auto, unfolding(crate::specs::Measuring::inside_step))]
fn inside_step(mut gauge: Gauge, length: usize, kind: Kind) -> Result<Gauge, Memory>
    requires small { IsSmallGauge (2 ^ 63) (gauge_of gauge) }
    requires text { length < 2 ^ 63 }
    ensures { IfOk result (λ next. gauge_of next ≡ inside_step (gauge_of gauge) length kind) }
{
    match kind {
        Kind::Quote => {
            gauge.part = Part::Outside;
            gauge.text = gauge.text.max(length);
            gauge.counts = counted(gauge.counts)?;
            Ok(gauge)
        }
        Kind::Backslash => {
            gauge.part = Part::Escaped(length);
            Ok(gauge)
        }
        _ => Ok(gauge_longer(gauge, length)),
    }
}

// The measures after one byte more.
fn step(gauge: Gauge, kind: Kind) -> Result<Gauge, Memory>
    requires { IsSmallGauge (2 ^ 63) (gauge_of gauge) }
    ensures { IfOk result (λ next. gauge_of next ≡ step (gauge_of gauge) kind) }
{
    match gauge.part {
        Part::Outside => outside_step(gauge, kind),
        Part::Inside(length) => inside_step(gauge, length, kind),
        Part::Escaped(length) => Ok(gauge_longer(gauge, length)),
    }
}

// The measures of the tree that the bytes spell.
fn measure(alloc: Global, bytes: &[u8]) -> Result<Gauge, Memory>
    ensures { IfOk result (λ gauge. (t : WideTree) → Spells bytes.now t → Measures (gauge_of gauge) t) }
{
    let mut gauge = Gauge {
        part: Part::Outside,
        counts: Vec::new(alloc),
        text: 0,
        arity: 0,
        depth: 0,
        size: 0,
    };
    for byte in bytes {
        gauge = step(gauge, kind_of(*byte))?;
    }
    Ok(gauge)
}

// The first limit that is passed, and the number there, where one is.
fn first_passed(gauge: &Gauge) -> (Which, u64)
    ensures { (t : WideTree) → Measures (gauge_of gauge.now) t → (IsWithinLimits t → ⊥) → IsPassed t result.0 result.1 }
{
    if gauge.text > MOST_TEXT {
        (Which::Text, gauge.text as u64)
    } else if gauge.arity > MOST_ARITY {
        (Which::Arity, gauge.arity as u64)
    } else if gauge.depth > MOST_DEPTH as usize {
        (Which::Depth, gauge.depth as u64)
    } else {
        (Which::Size, gauge.size as u64)
    }
}

// The first limit that the tree passes that the bytes spell, and its number there.
pub(crate) fn limit(alloc: Global, bytes: &[u8]) -> Result<(Which, u64), Memory>
    ensures { IfOk result (λ passed.
        (t : WideTree) → Spells bytes.now t → (IsWithinLimits t → ⊥) → IsPassed t passed.0 passed.1) }
{
    let gauge = measure(alloc, bytes)?;
    Ok(first_passed(&gauge))
}
