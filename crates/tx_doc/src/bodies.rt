// The body of a buffer.
ghost use Rattle.std.specs.Prelude.{◌≡◌, IfOk, IsTrue, ◌↔◌, codes, MatchOption, None, Some, true, slice_get};
ghost use Rattle.std.specs.List.{position};
ghost use Rattle.tx_tree.specs.WideTree.{children_of};
ghost use Rattle.tx_doc.specs.Bodies.{body_of, is_body, is_labelled};

use std::alloc::Global;
use tx_base::Memory;
use tx_tree::{Path, Tree};

/// Whether the tree is a node with this label.
pub fn is_labelled(t: &Tree, label: &[u8]) -> bool
    ensures { result ≡ is_labelled label.now t.now }
{
    match t.label() {
        Some(own) => own.bytes() == label,
        None => false,
    }
}

// Whether the tree is a `body`.
fn is_body(t: &Tree) -> bool
    ensures { result ≡ is_body t.now }
{
    is_labelled(t, b"body")
}

// The number of the first child that is a `body`.
fn body_child(t: &Tree) -> Option<usize>
    ensures { result ≡ position is_body (children_of t.now) }
{
    t.children().iter().position(is_body)
}

/// The path to the body of a buffer with this tree. Where the root is a `document` with a child `body`, that is the
/// first child of the first such child; of every other tree it is the root. None comes exactly where that `body` has no
/// child.
pub fn body(alloc: Global, t: &Tree) -> Result<Option<Path>, Memory>
    ensures { IfOk result (λ path. path ≡ body_of t.now) }
{
    let mut path = Path::root(alloc);
    if !is_labelled(t, b"document") {
        return Ok(Some(path));
    }
    let Some(i) = body_child(t) else {
        return Ok(Some(path));
    };
    let _arity = t.arity();
    match t.children()[i].child(0) {
        None => Ok(None),
        Some(_) => {
            path.push(i as u32)?;
            path.push(0)?;
            Ok(Some(path))
        }
    }
}
