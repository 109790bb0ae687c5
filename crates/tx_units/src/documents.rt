// The parts of a document.
ghost use Rattle.std.specs.Prelude.{◌≡◌, [], codes, IfOk, OnOk, MatchOption, None, Some};
ghost use Rattle.std.specs.List.{filter_map, position};
ghost use Rattle.std.specs.Option.{option_map_or};
ghost use Rattle.tx_tree.specs.WideTree.{children_of, text_of};
ghost use Rattle.tx_doc.specs.Bodies.{is_labelled};
ghost use Rattle.tx_units.specs.Documents.{is_document, section, names_in, each_once, put_name, style_names, entries};
ghost use Rattle.tx_units.specs.Documents.{paragraphs_in, paragraphs};

use indexmap::IndexSet;
use std::alloc::Global;
use std::slice;
use tx_base::Memory;
use tx_doc::{body, is_labelled};
use tx_tree::{Text, Tree};

// Whether the tree is a `document`.
pub(crate) fn is_document(t: &Tree) -> bool
    ensures { result ≡ is_document t.now }
{
    is_labelled(t, b"document")
}

// The number of the first child with this label.
fn first_labelled(t: &Tree, label: &[u8]) -> Option<usize>
    ensures { result ≡ position (is_labelled label.now) (children_of t.now) }
{
    t.children()
        .iter()
        .position(|part| is_labelled(part, label))
}

// The first child of the first section with this label.
fn section<'a>(t: &'a Tree, label: &[u8]) -> Option<&'a Tree>
    ensures { MatchOption result (section label.now t.now ≡ None) (λ c. section label.now t.now ≡ Some c.now) }
{
    if !is_document(t) {
        return None;
    }
    match first_labelled(t, label) {
        Some(i) => t.children()[i].child(0),
        None => None,
    }
}

// The trees of a `style` that may be names: those of them that are texts are names.
fn name_trees(t: &Tree) -> &[Tree]
    ensures { filter_map text_of result.now ≡ names_in t.now }
{
    if t.label().is_none() {
        slice::from_ref(t)
    } else if is_labelled(t, b"tuple") {
        t.children()
    } else {
        &[]
    }
}

// The trees among which the names of the document's styles are.
fn style_trees(document: &Tree) -> &[Tree]
    ensures { filter_map text_of result.now ≡ option_map_or names_in (section (codes "style") document.now) [] }
{
    match section(document, b"style") {
        Some(style) => name_trees(style),
        None => &[],
    }
}

// Adds the text of a leaf, unless it is there already.
fn add_name(names: &mut IndexSet<Text>, tree: &Tree) -> Result<(), Memory>
    ensures { OnOk result (names.new.keys ≡ put_name names.old.keys (text_of tree.now)) }
{
    match tree.text() {
        None => Ok(()),
        Some(name) => {
            names.insert(name.copy()?)?;
            Ok(())
        }
    }
}

// The texts among the trees, each once, in their order.
fn names_among(alloc: Global, trees: &[Tree]) -> Result<IndexSet<Text>, Memory>
    ensures { IfOk result (λ names. names.keys ≡ each_once (filter_map text_of trees.now)) }
{
    let mut names = IndexSet::new(alloc);
    for tree in trees {
        add_name(&mut names, tree)?;
    }
    Ok(names)
}

/// The styles that the document names, each once, in their order.
pub(crate) fn style_names(alloc: Global, document: &Tree) -> Result<IndexSet<Text>, Memory>
    ensures { IfOk result (λ names. names.keys ≡ style_names document.now) }
{
    names_among(alloc, style_trees(document))
}

// The entries of the initial environment, of any form.
pub(crate) fn entries(document: &Tree) -> &[Tree]
    ensures { result.now ≡ entries document.now }
{
    match section(document, b"initial") {
        Some(initial) if is_labelled(initial, b"collection") => initial.children(),
        _ => &[],
    }
}

// The paragraphs of a body.
fn paragraphs_in(body: &Tree) -> &[Tree]
    ensures { result.now ≡ paragraphs_in body.now }
{
    if is_document(body) {
        body.children()
    } else {
        slice::from_ref(body)
    }
}

// The paragraphs of a buffer with this tree.
pub(crate) fn paragraphs(alloc: Global, t: &Tree) -> Result<&[Tree], Memory>
    ensures { IfOk result (λ ts. ts.now ≡ paragraphs t.now) }
{
    let Some(path) = body(alloc, t)? else {
        return Ok(&[]);
    };
    match t.at(&path) {
        Some(body) => Ok(paragraphs_in(body)),
        None => Ok(&[]),
    }
}
