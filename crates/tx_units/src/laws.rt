// What holds of all units.
ghost use Rattle.std.specs.Prelude.{◌≡◌, ◌+◌, ◌≤◌, ◌<◌, ◌^◌, ℕ, List, length, take};
ghost use Rattle.std.specs.List.{AllByRecursion};
ghost use Rattle.tx_tree.specs.WideTree.{WideTree};
ghost use Rattle.tx_doc.specs.declared.buffer.Buffer.{Buffer as Named};
ghost use Rattle.tx_units.specs.Inside.{ChangesOne};
ghost use Rattle.tx_units.specs.Places.{UnitStandsIn, NoneBegins};
ghost use Rattle.tx_units.specs.Units.{base_units, body_units, units, units_over, nodes_made, made, made_over};

use crate::base::BASE_UNITS;
use tx_doc::{Buffer, formed_law};

/// A law: a document and at most 63 loaded styles have fewer than 2^23 units.
pub fn unit_count_law(buffers: &[Buffer])
    requires few { length buffers.now ≤ 64 }
    ensures { length (units buffers.now) < 2 ^ 23 }
{
    formed_law(buffers);
}

/// A law: the base style has `BASE_UNITS` units, and they are the first of the units of any buffers. The units over them
/// are all units, and what all are made of is what these are made of and what the others are.
pub fn base_law()
    ensures count { length base_units ≡ BASE_UNITS }
    ensures first { (buffers : List Named) → take BASE_UNITS (units buffers) ≡ base_units }
    ensures over { (buffers : List Named) → units_over base_units buffers ≡ units buffers }
    ensures made { (buffers : List Named) → made buffers ≡ nodes_made base_units + made_over buffers }
{}

/// A law: the units of a body are paragraphs of the document, with its root as origin, and their trees are at their
/// paths. No path is that of another, or begins one.
pub fn body_laws()
    ensures stand { (t : WideTree) → AllByRecursion (UnitStandsIn t) (body_units t) }
    ensures apart { (t : WideTree) → NoneBegins (body_units t) }
{}

/// A law: where another tree takes the place of a paragraph of the document, as `leaves_others` allows, the unit of
/// this paragraph has the other tree, and all other units are unchanged, with their paths.
pub fn inside_law()
    ensures { (buffers : List Named) (i : ℕ) (t x : WideTree) → ChangesOne buffers i t x }
{}
