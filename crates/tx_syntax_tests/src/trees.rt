// Texts, labels and trees on both sides of each limit.
ghost use Rattle.std.specs.Prelude.{◌≡◌};

use std::alloc::{AllocError, Global};
use std::marker::Brand;
use std::sync::ledger::{Blank, Ledger};
use std::test::Fail;
use tx_base::{Memory, Steps};
use tx_tree::{
    Kind, Label, LabelFault, MOST_ARITY, MOST_DEPTH, Text, TextBuilder, TextFault, Tree, TreeFault,
};

// The letter that long rows repeat.
const LETTER: u8 = b'n';

// What is before so many letters, what is after them, and why the whole is no text.
type Long<'a, F> = (&'a [u8], usize, &'a [u8], Option<F>);

const TEXTS: &[Long<'static, TextFault>] = &[
    (b"", 0, b"", None),
    (b"a<alpha>b\\\"|", 0, b"", None),
    (b"\x00\x1f\x7f\xff", 0, b"", None),
    (b"a\tb", 0, b"", Some(TextFault::BadByte(1))),
    (b"ab\n", 0, b"", Some(TextFault::BadByte(2))),
    (b"a>b", 0, b"", Some(TextFault::BadByte(1))),
    (b"a<", 0, b"", Some(TextFault::BadSymbol(2))),
    (b"<>", 0, b"", Some(TextFault::BadSymbol(1))),
    (b"<a b>", 0, b"", Some(TextFault::BadSymbol(2))),
    (b"<a\x7f>", 0, b"", Some(TextFault::BadSymbol(2))),
    (b"<", 255, b">", None),
    (b"<", 256, b">", Some(TextFault::BadSymbol(256))),
    (b"", 1_048_575, b"", None),
    (b"", 1_048_576, b"", Some(TextFault::TooLong(1_048_576))),
];

const LABELS: &[Long<'static, LabelFault>] = &[
    (b"", 0, b"", Some(LabelFault::BadLabel(0))),
    (b"a-_+*:.?!=~@$%&^9Z", 0, b"", None),
    (b"a b", 0, b"", Some(LabelFault::BadLabel(1))),
    (b"a\xe9", 0, b"", Some(LabelFault::BadLabel(1))),
    (b"(", 0, b"", Some(LabelFault::BadLabel(0))),
    (b"", 64, b"", None),
    (b"", 70, b"", Some(LabelFault::BadLabel(64))),
];

fn long(alloc: Global, before: &[u8], count: usize, after: &[u8]) -> Result<Vec<u8>, AllocError> {
    let mut bytes = Vec::from_slice(alloc, before)?;
    bytes.append(&mut vec![in alloc; LETTER; count]?)?;
    bytes.extend_from_slice(after)?;
    Ok(bytes)
}

fn first_wrong_text(
    alloc: Global,
    rows: &[Long<'_, TextFault>],
) -> Result<Option<usize>, AllocError> {
    for (number, row) in rows.iter().enumerate() {
        let bytes = long(alloc, row.0, row.1, row.2)?;
        if Text::new(alloc, &bytes).err() != row.3 {
            return Ok(Some(number));
        }
    }
    Ok(None)
}

fn first_wrong_label(
    alloc: Global,
    rows: &[Long<'_, LabelFault>],
) -> Result<Option<usize>, AllocError> {
    for (number, row) in rows.iter().enumerate() {
        let bytes = long(alloc, row.0, row.1, row.2)?;
        if Label::new(alloc, &bytes).err() != row.3 {
            return Ok(Some(number));
        }
    }
    Ok(None)
}

#[test]
fn texts_and_labels_have_their_faults(rt: HostRuntime) -> Result<(), Fail> {
    assert_eq!(rt; first_wrong_text(rt.alloc(), TEXTS)?, None);
    assert_eq!(rt; first_wrong_label(rt.alloc(), LABELS)?, None);
    Ok(())
}

fn leaf_of(alloc: Global, letters: usize) -> Result<Tree, TreeFault> {
    let bytes = vec![in alloc; LETTER; letters]?;
    let Ok(text) = Text::new(alloc, &bytes) else {
        return Err(TreeFault::Memory);
    };
    Tree::leaf(alloc, text).map_err(|_| TreeFault::Memory)
}

// A node of so many shares of one child.
fn fan<L: Ledger>(
    alloc: Global,
    child: &Tree,
    count: usize,
    steps: &mut Steps<L>,
) -> Result<Tree, TreeFault> {
    let mut children = Vec::new(alloc);
    for _ in 0..count {
        let Ok(share) = child.share() else {
            return Err(TreeFault::Memory);
        };
        children.push(share)?;
    }
    let Ok(label) = Label::new(alloc, b"document") else {
        return Err(TreeFault::Memory);
    };
    Tree::node(alloc, label, children, steps)
}

// A tower of so many levels with a leaf on its ground.
fn tower<L: Ledger>(alloc: Global, levels: u32, steps: &mut Steps<L>) -> Result<Tree, TreeFault> {
    let mut tree = leaf_of(alloc, 0)?;
    for _ in 1..levels {
        tree = fan(alloc, &tree, 1, steps)?;
    }
    Ok(tree)
}

// The faults past the limits of arity, depth and size.
fn past_limits<L: Ledger>(alloc: Global, blank: Blank) -> Result<[Option<TreeFault>; 5], TreeFault>
    requires name { blank.name ≡ L.name }
    requires parts { blank.parts ≡ L.parts }
    requires whole { blank.parts ≡ 1 }
{
    let mut steps = Steps::<L>::new(blank);
    let leaf = leaf_of(alloc, 0)?;
    let longest = leaf_of(alloc, 1_048_575)?;
    Ok([
        fan(alloc, &leaf, MOST_ARITY, &mut steps).err(),
        fan(alloc, &leaf, MOST_ARITY + 1, &mut steps).err(),
        tower(alloc, MOST_DEPTH, &mut steps).err(),
        tower(alloc, MOST_DEPTH + 1, &mut steps).err(),
        fan(alloc, &longest, 8, &mut steps).err(),
    ])
}

#[test]
fn nodes_have_their_limits(rt: HostRuntime) -> Result<(), Fail> {
    let wanted = [
        None,
        Some(TreeFault::TooWide(65_536)),
        None,
        Some(TreeFault::TooDeep(401)),
        Some(TreeFault::TooBig(8_388_609)),
    ];
    assert!(rt; past_limits::<Brand>(rt.alloc(), Blank::new(1))? == wanted);
    Ok(())
}

// Bytes one by one, and whether each can be next in a text.
const GROWING: &[(u8, bool)] = &[
    (b'a', true),
    (b'>', false),
    (b'<', true),
    (b' ', false),
    (b'x', true),
    (b'>', true),
];

// The first byte that isn't taken as is wanted.
fn first_misfit(builder: &mut TextBuilder, rows: &[(u8, bool)]) -> Result<Option<usize>, Memory> {
    for (number, row) in rows.iter().enumerate() {
        if builder.push(row.0)? != row.1 {
            return Ok(Some(number));
        }
    }
    Ok(None)
}

fn is_leaf_of(leaf: &Tree, bytes: &[u8]) -> bool {
    let text = match leaf.text() {
        Some(text) => text.bytes(),
        None => return false,
    };
    text == bytes
        && leaf.kind() == Kind::Leaf
        && leaf.size() == bytes.len() as u64 + 1
        && leaf.arity() == 0
        && leaf.child(0).is_none()
        && leaf.label().is_none()
}

#[test]
fn a_text_grows(rt: HostRuntime) -> Result<(), Fail> {
    let mut builder = TextBuilder::new(rt.alloc());
    assert_eq!(rt; first_misfit(&mut builder, GROWING)?, None);
    let text = builder.finish(rt.alloc())?.ok_or("unfinished")?;
    let leaf = Tree::leaf(rt.alloc(), text.copy()?)?;
    assert!(rt; is_leaf_of(&leaf, b"a<x>"));
    Ok(())
}
