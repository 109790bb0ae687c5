// The length of the canonical text. A count stops at its greatest value, which no text within the limits reaches.
ghost use Rattle.std.specs.Prelude.{◌≡◌, ◌<◌, ◌+◌, ◌^◌, length};
ghost use Rattle.std.specs.List.{flat_map};
ghost use Rattle.tx_scm.specs.Spelling.{escaped};
ghost use Rattle.tx_scm.specs.Canonical.{scheme_text};
ghost use Rattle.tx_scm.specs.Counts.{capped};

use tx_scan::count_of;
use tx_tree::Tree;

fn plus(count: u64, more: u64) -> u64
    ensures { result ≡ capped (count + more) }
{
    count.saturating_add(more)
}

// The length of a text as it is written in a string: each quote and each backslash takes one byte more.
#[tactic(auto, using(crate::proofs::Escapes::escaped_length))]
fn escaped_length(bytes: &[u8]) -> u64
    ensures { result ≡ capped (length (flat_map escaped bytes.now)) }
{
    let quotes = count_of(bytes, b'"') as u64;
    let backslashes = count_of(bytes, b'\\') as u64;
    plus(bytes.len() as u64, plus(quotes, backslashes))
}

// The length of the text of a tree.
#[tactic(auto, using(crate::proofs::Writing::length_rules))]
fn tree_length(t: &Tree) -> u64
    ensures { result ≡ capped (length (scheme_text t.now)) }
{
    if let Some(text) = t.text() {
        return plus(2, escaped_length(text.bytes()));
    }
    let Some(label) = t.label() else {
        unreachable!()
    };
    let mut count = 2 + label.bytes().len() as u64;
    for child in t.children() {
        count = plus(count, plus(1, tree_length(child)));
    }
    count
}

/// The bytes of the canonical text of the tree, counted without writing. There is room for one byte more in 64 bits.
#[tactic(auto, using(crate::proofs::Bounds::text_short))]
pub fn length(t: &Tree) -> u64
    ensures value { result ≡ length (scheme_text t.now) }
    ensures short { result + 1 < 2 ^ 64 }
{
    let _size = t.size();
    tree_length(t)
}
