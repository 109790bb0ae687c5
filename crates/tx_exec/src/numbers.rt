// The numbers of `arg` and `quote-arg`, and the parts to which they lead.
ghost use Rattle.std.specs.Prelude.{◌≡◌, IfOk, Option, Some, None};
ghost use Rattle.std.specs.Option.{option_map};
ghost use Rattle.tx_origin.specs.TaggedTrees.{tagged_of};
ghost use Rattle.tx_exec_form.specs.Numbers.{integers_of, value_number, kid_at, part_of};

use std::alloc::Global;
use tx_base::Memory;
use tx_origin::{Tagged, Value, share_origin};
use tx_prim::parse_number;

// The number that a value is.
fn number_in(value: &Value) -> Option<i64>
    ensures { result ≡ value_number value.now }
{
    match value.text() {
        None => None,
        Some(words) => parse_number(words),
    }
}

/// Each of the values as a number, or None where one of them is none.
#[tactic(auto, using(crate::proofs::Leading::number_rules, std::proofs::lemmas::Grind::common_steps))]
pub(crate) fn numbers_in(alloc: Global, values: &[Value]) -> Result<Option<Vec<i64>>, Memory>
    ensures { IfOk result (λ r. option_map (λ ns. ns.items) r ≡ integers_of values.now) }
{
    let mut numbers = Vec::new(alloc);
    for value in values {
        let Some(number) = number_in(value) else {
            return Ok(None);
        };
        numbers.push(number)?;
    }
    Ok(Some(numbers))
}

// The child of this number.
#[tactic(auto, using(crate::proofs::Leading::kid_rules))]
fn kid_at(alloc: Global, t: &Tagged, number: i64) -> Result<Option<Tagged>, Memory>
    ensures { IfOk result (λ r. option_map tagged_of r ≡ kid_at (tagged_of t.now) number) }
{
    let _size = t.tree.size();
    if number < 0 {
        return Ok(None);
    }
    if number > 4_294_967_295 {
        return Ok(None);
    }
    t.child(alloc, number as u32)
}

/// The part to which the numbers lead, with its origin, or None where one of them doesn't lead.
#[tactic(auto, using(crate::proofs::Leading::part_rules, std::proofs::lemmas::Grind::common_steps))]
pub(crate) fn part_at(alloc: Global, t: &Tagged, numbers: &[i64]) -> Result<Option<Tagged>, Memory>
    ensures { IfOk result (λ r. option_map tagged_of r ≡ part_of (tagged_of t.now) numbers.now) }
{
    let [first, others @ ..] = numbers else {
        return Ok(Some(Tagged {
            tree: t.tree.share()?,
            at: share_origin(&t.at)?,
        }));
    };
    match kid_at(alloc, t, *first)? {
        None => Ok(None),
        Some(kid) => part_at(alloc, &kid, others),
    }
}
