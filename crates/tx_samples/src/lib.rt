//! What tests are made from: tables of rows, and trees and buffers in words.
#![tactic(auto)]

mod rows;

ghost use Rattle.std.specs.Prelude.{◌≡◌, IfSome};
ghost use Rattle.tx_scm.specs.Spelling.{Spells};

pub use rows::{Row, first_untrue};
use std::alloc::Global;
use std::sync::ledger::Ledger;
use tx_base::Steps;
use tx_doc::{Buffer, Name};
use tx_tree::Tree;

/// The tree that the words spell in the Scheme syntax. None where they spell none, and when out of memory.
pub fn tree_of<L: Ledger>(alloc: Global, words: &str, steps: &mut Steps<L>) -> Option<Tree>
    ensures { IfSome result (λ t. Spells words.now t) }
{
    tx_scm::read(alloc, words.as_bytes(), steps).ok()
}

/// The buffer of this name with the tree that the words spell. None where they spell none, and when out of memory.
pub fn buffer_of<L: Ledger>(
    alloc: Global,
    name: &str,
    words: &str,
    steps: &mut Steps<L>,
) -> Option<Buffer>
    ensures name { IfSome result (λ b. b.name ≡ name.now) }
    ensures tree { IfSome result (λ b. Spells words.now b.tree) }
{
    let tree = tree_of(alloc, words, steps)?;
    let name = Name::from(Vec::from_slice(alloc, name.as_bytes()).ok()?);
    Some(Buffer { name, tree })
}

/// The buffers that are given in words: of each a name, a space and a tree, with `;` between them. None where one has
/// another form, and when out of memory.
pub fn told_buffers<L: Ledger>(
    alloc: Global,
    told: &str,
    steps: &mut Steps<L>,
) -> Option<Vec<Buffer>> {
    let mut buffers = Vec::new(alloc);
    for part in told.split(';') {
        let (name, words) = part.split_once(' ')?;
        buffers.push(buffer_of(alloc, name, words, steps)?).ok()?;
    }
    Some(buffers)
}
