// Whether bytes spell a given tree.
ghost use Rattle.std.specs.Prelude.{◌≡◌, ◌≤◌, ◌↔◌, IsTrue, IfOk, [], ◌∷◌, length, drop};
ghost use Rattle.tx_scm.specs.Spelling.{Spells};
ghost use Rattle.tx_scm.specs.Recognising.{behind_white, behind_bytes, behind_tree, EndsWith};

use crate::writer::append_string;
use std::alloc::Global;
use tx_base::Memory;
use tx_tree::Tree;

// The place after the white at `at`.
pub(crate) fn behind_white(bytes: &[u8], at: usize) -> usize
    requires { at ≤ length bytes.now }
    ensures from { at ≤ result }
    ensures end { result ≤ length bytes.now }
    ensures rest { drop result bytes.now ≡ behind_white (drop at bytes.now) }
{
    for i in at..bytes.len() {
        if !matches!(bytes[i], b'\t' | b'\n' | b'\r' | b' ') {
            return i;
        }
    }
    bytes.len()
}

// The place after the wanted bytes, if these are at `at`.
fn behind_bytes(bytes: &[u8], at: usize, wanted: &[u8]) -> Option<usize>
    requires { at ≤ length bytes.now }
    ensures { EndsWith bytes.now result (behind_bytes wanted.now (drop at bytes.now)) }
{
    let mut end = at;
    for byte in wanted {
        if end == bytes.len() || bytes[end] != *byte {
            return None;
        }
        end += 1;
    }
    Some(end)
}

// The place after the tree, if bytes that spell it are at `at`.
#[tactic(auto, using(tx_tree::proofs::Walks::leaf_or_node, tx_tree::proofs::Walks::item_shallower))]
fn behind_tree(alloc: Global, bytes: &[u8], at: usize, tree: &Tree) -> Result<Option<usize>, Memory>
    requires { at ≤ length bytes.now }
    ensures { IfOk result (λ found. EndsWith bytes.now found (behind_tree tree.now (drop at bytes.now))) }
{
    if let Some(text) = tree.text() {
        let mut string = Vec::new(alloc);
        append_string(text.bytes(), &mut string)?;
        return Ok(behind_bytes(bytes, at, &string));
    }
    let Some(label) = tree.label() else {
        unreachable!()
    };
    let Some(opened) = behind_bytes(bytes, at, b"(") else {
        return Ok(None);
    };
    let Some(mut end) = behind_bytes(bytes, behind_white(bytes, opened), label.bytes()) else {
        return Ok(None);
    };
    for child in tree.children() {
        match behind_tree(alloc, bytes, behind_white(bytes, end), child)? {
            None => return Ok(None),
            Some(next) => end = next,
        }
    }
    Ok(behind_bytes(bytes, behind_white(bytes, end), b")"))
}

/// Whether the bytes spell the tree. It tries the tree's parts one after the other, and is slower than `read`.
pub fn spells(alloc: Global, bytes: &[u8], tree: &Tree) -> Result<bool, Memory>
    ensures { IfOk result (λ spelled. IsTrue spelled ↔ Spells bytes.now tree.now) }
{
    let _size = tree.size();
    match behind_tree(alloc, bytes, behind_white(bytes, 0), tree)? {
        None => Ok(false),
        Some(end) => Ok(behind_white(bytes, end) == bytes.len()),
    }
}
