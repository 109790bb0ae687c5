// What gives boxes their shells.
ghost use Rattle.std.specs.Prelude.{◌≡◌, ◌∷◌, [], IfOk, codes};
ghost use Rattle.tx_tree.specs.WideTree.{leaf, node, forest, children_of};
ghost use Rattle.tx_walk.specs.Shells.{wide_layer, wide_shell};
ghost use Rattle.tx_bridge_tests.specs.Boxes.{value_of_m, inner_body, outer_body, box_macro};
ghost use Rattle.tx_bridge_tests.specs.Boxes.{box_shell, is_box, opens_boxes};
ghost use Rattle.tx_bridge_tests.specs.BoxShells.{boxes_open};

use std::alloc::Global;
use std::sync::ledger::{Blank, Ledger};
use tx_base::{Memory, Steps};
use tx_tree::{Label, Tree, text_of};
use tx_walk::{Layer, Opener, Shell, same_trees};

/// An opener of boxes: tags with one child, whose label has
/// `(macro "x" (with "color" "red" (with "n" (value "m") (arg "x"))))`.
#[derive(Drop)]
pub(crate) struct Boxes {
    // that macro
    meaning: Tree,
    // `(value "m")`
    value: Tree,
    ghost is_macro: { meaning ≡ box_macro },
    ghost is_value: { value ≡ value_of_m },
}

// The leaf with these bytes.
fn leaf_of(alloc: Global, bytes: &[u8]) -> Result<Tree, Memory>
    ensures { IfOk result (λ t. t ≡ leaf bytes.now) }
{
    Tree::leaf(alloc, text_of(alloc, bytes)?)
}

// The node with this label and these children.
fn node_of<L: Ledger>(
    alloc: Global,
    label: &[u8],
    children: Vec<Tree>,
    steps: &mut Steps<L>,
) -> Result<Tree, Memory>
    ensures { IfOk result (λ t. t ≡ node label.now (forest children.items)) }
{
    let Ok(label) = Label::new(alloc, label) else {
        return Err(Memory);
    };
    match Tree::node(alloc, label, children, steps) {
        Ok(tree) => Ok(tree),
        Err(_) => Err(Memory),
    }
}

// A node with one text.
fn about<L: Ledger>(
    alloc: Global,
    label: &[u8],
    text: &[u8],
    steps: &mut Steps<L>,
) -> Result<Tree, Memory>
    ensures { IfOk result (λ t. t ≡ node label.now (forest (leaf text.now ∷ []))) }
{
    let children = vec![in alloc; leaf_of(alloc, text)?]?;
    node_of(alloc, label, children, steps)
}

// The `with` that sets the name to this round a body.
fn with_of<L: Ledger>(
    alloc: Global,
    name: &[u8],
    value: Tree,
    body: Tree,
    steps: &mut Steps<L>,
) -> Result<Tree, Memory>
    ensures { IfOk result (λ t. t ≡ node (codes "with") (forest (leaf name.now ∷ value ∷ body ∷ []))) }
{
    let children = vec![in alloc; leaf_of(alloc, name)?, value, body]?;
    node_of(alloc, b"with".as_slice(), children, steps)
}

fn value_of_m<L: Ledger>(alloc: Global, steps: &mut Steps<L>) -> Result<Tree, Memory>
    ensures { IfOk result (λ t. t ≡ value_of_m) }
{
    about(alloc, b"value".as_slice(), b"m".as_slice(), steps)
}

fn inner_body<L: Ledger>(alloc: Global, steps: &mut Steps<L>) -> Result<Tree, Memory>
    ensures { IfOk result (λ t. t ≡ inner_body) }
{
    let value = value_of_m(alloc, steps)?;
    let argument = about(alloc, b"arg".as_slice(), b"x".as_slice(), steps)?;
    with_of(alloc, b"n".as_slice(), value, argument, steps)
}

fn outer_body<L: Ledger>(alloc: Global, steps: &mut Steps<L>) -> Result<Tree, Memory>
    ensures { IfOk result (λ t. t ≡ outer_body) }
{
    let red = leaf_of(alloc, b"red".as_slice())?;
    let inner = inner_body(alloc, steps)?;
    with_of(alloc, b"color".as_slice(), red, inner, steps)
}

fn box_macro<L: Ledger>(alloc: Global, steps: &mut Steps<L>) -> Result<Tree, Memory>
    ensures { IfOk result (λ t. t ≡ box_macro) }
{
    let parameter = leaf_of(alloc, b"x".as_slice())?;
    let children = vec![in alloc; parameter, outer_body(alloc, steps)?]?;
    node_of(alloc, b"macro".as_slice(), children, steps)
}

// The layer that sets the name to this.
fn layer_of(alloc: Global, name: &[u8], value: Tree) -> Result<Layer, Memory>
    ensures { IfOk result (λ l. wide_layer l ≡ record { names = name.now ∷ []; trees = value ∷ [] }) }
{
    Ok(Layer {
        names: vec![in alloc; text_of(alloc, name)?]?,
        values: vec![in alloc; value]?,
    })
}

impl Boxes {
    /// The steps are those of the trees that it needs.
    pub(crate) fn new<L: Ledger>(alloc: Global, steps: &mut Steps<L>) -> Result<Boxes, Memory> {
        Ok(Boxes {
            meaning: box_macro(alloc, steps)?,
            value: value_of_m(alloc, steps)?,
        })
    }

    fn is_box(&self, tag: &Tree, meaning: &Tree) -> bool
        ensures { result ≡ is_box (children_of tag.now) meaning.now }
    {
        tag.arity() == 1 && same_trees(meaning, &self.meaning)
    }

    // The shell of each box.
    fn shell_of_boxes(&self, alloc: Global) -> Result<Shell, Memory>
        ensures { IfOk result (λ s. wide_shell s ≡ box_shell) }
    {
        let red = leaf_of(alloc, b"red".as_slice())?;
        let outer = layer_of(alloc, b"color".as_slice(), red)?;
        let inner = layer_of(alloc, b"n".as_slice(), self.value.share()?)?;
        Ok(Shell {
            layers: vec![in alloc; outer, inner]?,
            inner: 0,
        })
    }
}

impl Opener for Boxes {
    ghost opens = { λ boxes. opens_boxes };

    fn shell(&self, alloc: Global, tag: &Tree, meaning: &Tree) -> Result<Option<Shell>, Memory> {
        if !self.is_box(tag, meaning) {
            return Ok(None);
        }
        Ok(Some(self.shell_of_boxes(alloc)?))
    }

    ghost sound = { λ boxes. boxes_open };
}

// A row of a table about what is opened.
pub(crate) trait BoxRow {
    // Whether what the row says is true, where this opener opens boxes. None when memory runs out.
    fn is_told<L: Ledger>(
        &self,
        alloc: Global,
        opener: &Boxes,
        steps: &mut Steps<L>,
    ) -> Option<bool>;
}

fn untold<L: Ledger, R: BoxRow>(
    alloc: Global,
    rows: &[R],
    opener: &Boxes,
    steps: &mut Steps<L>,
) -> Option<usize> {
    for (i, row) in rows.iter().enumerate() {
        if row.is_told(alloc, opener, steps) != Some(true) {
            return Some(i);
        }
    }
    None
}

// The number of the first row that doesn't hold.
pub(crate) fn first_untold<L: Ledger, R: BoxRow>(
    alloc: Global,
    rows: &[R],
    blank: Blank,
) -> Result<Option<usize>, Memory>
    requires name { blank.name ≡ L.name }
    requires parts { blank.parts ≡ L.parts }
    requires whole { blank.parts ≡ 1 }
{
    let mut steps = Steps::<L>::new(blank);
    let opener = Boxes::new(alloc, &mut steps)?;
    Ok(untold(alloc, rows, &opener, &mut steps))
}
