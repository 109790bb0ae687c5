//! A large document from a number: a text in TM of words that a linear congruential generator picks, the same one each
//! time.
//!
//! `document_text` of `specs/Document.antt` says what the text is, and `specs/Tree.antt` has the tree that it spells.
#![tactic(auto)]

mod document;
mod laws;

pub use document::generated;
pub use laws::document_laws;
