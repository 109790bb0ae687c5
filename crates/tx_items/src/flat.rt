// Which values show in a line that nothing in them ends, found before anything is shown.
ghost use Rattle.std.specs.Prelude.{◌≡◌, IfOk};
ghost use Rattle.tx_origin.specs.Values.{vals, value_parts};
ghost use Rattle.tx_items.specs.Flat.{is_flat, all_flat, last_flat, flat_space, shows_table};

use crate::rows::{Row, row_of};
use std::alloc::Global;
use tx_base::Memory;
use tx_origin::Value;
use tx_prim::parse_length;
use tx_table::grid_of;

// Whether a value shows in a line that nothing in it ends.
#[tactic(auto, using(crate::proofs::FlatLoops::looping, std::proofs::lemmas::Grind::common_steps))]
#[cycle(flat)]
fn is_flat(alloc: Global, value: &Value) -> Result<bool, Memory>
    ensures { IfOk result (λ b. b ≡ is_flat value.now) }
{
    let Some(label) = value.label() else {
        return Ok(true);
    };
    match row_of(label.bytes()) {
        Row::Concat => all_flat(alloc, value.parts()),
        Row::Document => Ok(false),
        Row::With => last_flat(alloc, value),
        Row::Assign => Ok(true),
        Row::Silent => Ok(true),
        Row::NextLine => Ok(false),
        Row::NewPage => Ok(false),
        Row::Hspace => Ok(true),
        Row::Vspace => Ok(flat_space(value)),
        Row::Error => Ok(true),
        Row::Tabular => Ok(!shows_table(alloc, value)?),
        Row::Other => all_flat(alloc, value.parts()),
    }
}

// Whether all parts are flat.
#[tactic(auto, using(crate::proofs::FlatLoops::looping, std::proofs::lemmas::Grind::common_steps))]
#[cycle(flat)]
fn all_flat(alloc: Global, parts: &[Value]) -> Result<bool, Memory>
    ensures { IfOk result (λ b. b ≡ all_flat (vals parts.now)) }
{
    for part in parts {
        if !is_flat(alloc, part)? {
            return Ok(false);
        }
    }
    Ok(true)
}

// Whether the last part after pairs is flat. Where there is none, an error is shown.
#[tactic(auto, using(crate::proofs::FlatLoops::looping, std::proofs::lemmas::Grind::common_steps))]
#[cycle(flat)]
fn last_flat(alloc: Global, value: &Value) -> Result<bool, Memory>
    ensures { IfOk result (λ b. b ≡ last_flat (vals (value_parts value.now))) }
{
    let parts = value.parts();
    if parts.len() % 2 == 0 {
        return Ok(true);
    }
    is_flat(alloc, &parts[parts.len() - 1])
}

// Whether a value is a `tabular` that shows as a table: of the asked form, with cells that are flat.
#[tactic(auto, using(crate::proofs::FlatLoops::looping, std::proofs::lemmas::Grind::common_steps))]
#[cycle(flat)]
pub(crate) fn shows_table(alloc: Global, value: &Value) -> Result<bool, Memory>
    ensures { IfOk result (λ b. b ≡ shows_table value.now) }
{
    let Some(grid) = grid_of(alloc, value)? else {
        return Ok(false);
    };
    for row in grid.rows.all() {
        if !all_flat(alloc, row.all())? {
            return Ok(false);
        }
    }
    Ok(true)
}

// Whether a space down is an error, so that it ends no line.
#[tactic(auto, using(crate::proofs::FlatLoops::spaces, std::proofs::lemmas::Grind::common_steps))]
fn flat_space(value: &Value) -> bool
    ensures { result ≡ flat_space (vals (value_parts value.now)) }
{
    let [part] = value.parts() else {
        return true;
    };
    match part.text() {
        Some(text) => parse_length(text).is_none(),
        None => true,
    }
}
