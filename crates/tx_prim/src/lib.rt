//! The primitives of the style language on values: arithmetic, comparisons, texts and tuples.
//!
//! What a primitive makes of its operands is one table over wide trees, a row a name (`specs/Table.antt`). Numbers
//! there are integers without bounds, and 64 bits are a bound that the table names (`specs/Numbers.antt`).
#![tactic(auto)]

mod amounts;
mod arithmetic;
mod comparing;
mod items;
mod laws;
mod lengths;
mod lists;
mod making;
mod names;
mod numbers;
mod operands;
mod shapes;
mod table;

pub use amounts::{Amount, Answer, ValueFault};
pub use items::item_laws;
pub use laws::{length_laws, name_law, number_law, sameness_law};
pub use lengths::{parse_length, print_length};
pub use making::known_text;
pub use names::Prim;
pub use numbers::parse_number;
pub use table::primitive;

/// The most digits of a length before the place of its point.
pub const MOST_WHOLE: usize = 18;
/// The greatest sum of the sizes of operands.
pub const MOST_OPERANDS: u64 = 1_000_000;
