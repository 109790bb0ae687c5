// What is at a path, and above it.
ghost use Rattle.std.specs.Prelude.{◌≡◌, None, Some, MatchOption, IfOk};
ghost use Rattle.tx_edit.specs.Keys.{text_at, is_document_at, is_concat_at, parent_of};

use std::alloc::Global;
use tx_base::Memory;
use tx_doc::is_labelled;
use tx_tree::{Path, Text, Tree};

// The text of the leaf at the path, if a leaf is there.
pub(crate) fn text_at<'a>(t: &'a Tree, path: &Path) -> Option<&'a Text>
    ensures { MatchOption result (text_at t.now path.now ≡ None) (λ text. text_at t.now path.now ≡ Some text.now) }
{
    match t.at(path) {
        Some(s) => s.text(),
        None => None,
    }
}

// Whether a `document` is at the path.
pub(crate) fn is_document_at(t: &Tree, path: &Path) -> bool
    ensures { result ≡ is_document_at t.now path.now }
{
    match t.at(path) {
        Some(s) => is_labelled(s, b"document"),
        None => false,
    }
}

// Whether a `concat` is at the path.
pub(crate) fn is_concat_at(t: &Tree, path: &Path) -> bool
    ensures { result ≡ is_concat_at t.now path.now }
{
    match t.at(path) {
        Some(s) => is_labelled(s, b"concat"),
        None => false,
    }
}

// The path to the parent, and the number among its children, or None for the root.
pub(crate) fn parent_of(alloc: Global, path: &Path) -> Result<Option<(Path, u32)>, Memory>
    ensures { IfOk result (λ last. last ≡ parent_of path.now) }
{
    let mut above = path.copy(alloc)?;
    match above.pop() {
        Some(i) => Ok(Some((above, i))),
        None => Ok(None),
    }
}
