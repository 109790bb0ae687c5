//! What TM bytes spell: the words of the bytes (`specs/Tokens.antt`), the forms of the syntax and the relation
//! of bytes and trees (`specs/Forms.antt`), what content and blocks stand for (`specs/Parts.antt`), and a machine
//! that takes the bytes one by one (`specs/Machine.antt`). The laws are contracts of functions without a body.
#![tactic(auto)]

mod bytes;
mod laws;
mod marks;
mod measures;
mod places;

pub use bytes::{ByteKind, Escaped, White, escape_of, kind_of, white_of};
pub use laws::{
    bytes_have_one_fault, bytes_have_one_list_of_tokens, bytes_spell_one_tree,
    fronts_go_on_by_bytes, longest_front_ends_at_the_stop, machine_goes_on_along_fronts,
    machine_reads_what_is_spelled, marks_tell_the_fault, measures_are_those_of_the_tree,
    mismatched_labels_differ, spelled_is_well_formed,
};
pub use marks::{Inside, TagMark};
pub use measures::{BlockSums, ContentSums, LineSums, OpenSums, PartSums, Sums, Within};
pub use places::{Stage, TagForm, TagPlace};
