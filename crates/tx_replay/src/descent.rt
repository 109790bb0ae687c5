// Which trees are gone into. Here alone it is decided.
ghost use Rattle.std.specs.Prelude.{◌≡◌, is_some, codes};
ghost use Rattle.std.specs.List.{list_all};
ghost use Rattle.std.specs.Str.{bytes_eq};
ghost use Rattle.tx_tree.specs.WideTree.{text_of};
ghost use Rattle.tx_parts.specs.Openness.{settings_in};
ghost use Rattle.tx_replay.specs.Descent.{Descends};

use tx_tree::{Label, Tree};

/// How a tree is gone into.
#[derive(Clone, Copy, Debug, PartialEq, Eq)]
pub enum Descent {
    /// Into each child.
    Document,
    /// Into the last child, with names set to texts.
    With,
    /// It is a part.
    Shut,
}

fn is_document(label: &Label) -> bool
    ensures { result ≡ bytes_eq label.now (codes "document") }
{
    label.bytes() == b"document".as_slice()
}

fn is_with(label: &Label) -> bool
    ensures { result ≡ bytes_eq label.now (codes "with") }
{
    label.bytes() == b"with".as_slice()
}

fn are_texts(children: &[Tree]) -> bool
    ensures { result ≡ list_all (λ t. is_some (text_of t)) children.now }
{
    children.iter().all(|t| t.text().is_some())
}

// Whether these are names and texts in turn, and a last child.
fn has_settings(children: &[Tree]) -> bool
    ensures { result ≡ is_some (settings_in children.now) }
{
    let count = children.len();
    if count % 2 == 0 {
        return false;
    }
    are_texts(&children[..count - 1])
}

/// How the tree is gone into.
pub fn descent_of(t: &Tree) -> Descent
    ensures { Descends t.now result }
{
    let Some(label) = t.label() else {
        return Descent::Shut;
    };
    if is_document(label) {
        if t.arity() == 0 {
            return Descent::Shut;
        }
        return Descent::Document;
    }
    if is_with(label) && has_settings(t.children()) {
        return Descent::With;
    }
    Descent::Shut
}
