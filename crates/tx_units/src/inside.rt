// An edit inside one paragraph of the document.
ghost use Rattle.std.specs.Prelude.{◌≡◌};
ghost use Rattle.tx_units.specs.Inside.{is_part, leaves_others};

use crate::documents::is_document;
use tx_doc::is_labelled;
use tx_tree::{Path, Tree};

// Whether a tree at this depth has a label by which a part of the document is found there.
fn is_part(depth: usize, t: &Tree) -> bool
    ensures { result ≡ is_part depth t.now }
{
    match depth {
        0 | 2 => is_document(t),
        1 => is_labelled(t, b"body") || is_labelled(t, b"style") || is_labelled(t, b"initial"),
        _ => false,
    }
}

/// Whether `new` can take the place of `old`, the paragraph at this path, and all other units are unchanged, as
/// `inside_law` says. It can where neither has a label by which a part of the document is found there. At the root and
/// two deep, where the body may be, this label is `document`. For a child of the root, it is `body`, `style` or
/// `initial`. Deeper there is none.
pub fn leaves_others(path: &Path, old: &Tree, new: &Tree) -> bool
    ensures { result ≡ leaves_others path.now old.now new.now }
{
    let depth = path.steps().len();
    !is_part(depth, old) && !is_part(depth, new)
}
