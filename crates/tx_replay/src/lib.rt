//! A unit evaluated by its parts, in the state of one evaluation: the cached trace of a part is replayed where it still
//! fits.
#![tactic(auto)]

mod cached;
mod descent;
mod evaluating;
mod finding;
mod fitting;
mod holding;
mod laws;
mod looking;
mod origins;
mod part_trace;
mod progress;
mod settings;
mod stop;
mod unit;
mod values;
mod walking;

pub use cached::{CachedPart, Caches};
pub use descent::{Descent, descent_of};
pub use fitting::{looks_agree, same_trees};
pub use laws::{returned_law, walking_law};
pub use part_trace::PartTrace;
pub use settings::text_at;
pub use unit::{ByParts, evaluate_by_parts};
