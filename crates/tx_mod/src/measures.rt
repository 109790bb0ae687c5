// What a modification makes of a subtree, measured before it is made.
ghost use Rattle.std.specs.Prelude.{◌≡◌, ◌≤◌, ℕ, List, length, Ok, IfOk};
ghost use Rattle.tx_tree.specs.WideTree.{forest, total_size, deepest};
ghost use Rattle.tx_mod.specs.Mods.{extent, is_clean};
ghost use Rattle.tx_mod.specs.Changes.{changed_at, inserted, removed, split, joined};
ghost use Rattle.tx_mod.specs.Changes.{joined_at, labelled, wrapped, unwrapped};
ghost use Rattle.tx_mod.specs.Measures.{HasMeasure, MeasuresOutcome, IsSmallMeasure};

use crate::faults::ModFault;
use crate::mods::{Mod, TUPLE};
use crate::parts::{Parts, is_cut, parts_of};
use tx_tree::{MOST_ARITY, MOST_DEPTH, Tree};

// The bytes of the longest text and the most children of a node, where these pass a limit; the depth and the size.
#[derive(Clone, Copy)]
pub(crate) struct Measure {
    pub text: u64,
    pub arity: u64,
    pub depth: u64,
    pub size: u64,
}

fn measure_of(t: &Tree) -> Measure
    ensures made { HasMeasure (Ok t.now) result }
    ensures small { IsSmallMeasure result }
{
    Measure {
        text: 0,
        arity: 0,
        depth: u64::from(t.depth()),
        size: t.size(),
    }
}

#[tactic(auto, using(crate::proofs::Measuring::insert_rules))]
fn measured_insert(s: &Tree, i: u32, x: &Tree) -> Result<Measure, ModFault>
    ensures measured { MeasuresOutcome (inserted s.now i x.now) result }
    ensures small { IfOk result IsSmallMeasure }
{
    let depth = u64::from(s.depth().max(x.depth()));
    let size = s.size() + x.size() - 1;
    match (parts_of(s), parts_of(x)) {
        (Parts::Leaf(text), Parts::Leaf(more)) => {
            let len = text.bytes().len();
            if i as usize > len {
                return Err(ModFault::BadPlace(len as u64));
            }
            if !is_cut(text, i as usize) {
                return Err(ModFault::CutsSymbol(u64::from(i)));
            }
            let text = (len + more.bytes().len()) as u64;
            Ok(Measure {
                text,
                arity: 0,
                depth,
                size,
            })
        }
        (Parts::Leaf(_), Parts::Node(..)) => Err(ModFault::NotString),
        (Parts::Node(..), Parts::Leaf(_)) => Err(ModFault::NotNode),
        (Parts::Node(_, children), Parts::Node(label, more)) => {
            if label.bytes() != TUPLE {
                return Err(ModFault::NotNode);
            }
            if i as usize > children.len() {
                return Err(ModFault::BadPlace(children.len() as u64));
            }
            let arity = (children.len() + more.len()) as u64;
            Ok(Measure {
                text: 0,
                arity,
                depth,
                size,
            })
        }
    }
}

// The sizes of the trees together.
fn total_size(trees: &[Tree]) -> u64
    requires { length trees.now ≤ MOST_ARITY }
    ensures { result ≡ total_size (forest trees.now) }
{
    let mut total = 0;
    for tree in trees {
        total += tree.size();
    }
    total
}

// The depth of the deepest of the trees, 0 for none.
pub(crate) fn deepest(trees: &[Tree]) -> u32
    ensures depth { result ≡ deepest (forest trees.now) }
    ensures shallow { result ≤ MOST_DEPTH }
{
    let mut deepest = 0;
    for tree in trees {
        deepest = tree.depth().max(deepest);
    }
    deepest
}

#[tactic(auto, using(crate::proofs::Measuring::remove_rules))]
fn measured_remove(s: &Tree, i: u32, n: u32) -> Result<Measure, ModFault>
    ensures measured { MeasuresOutcome (removed s.now i n) result }
    ensures small { IfOk result IsSmallMeasure }
{
    let _size = s.size();
    let end = i as usize + n as usize;
    match parts_of(s) {
        Parts::Leaf(text) => {
            let len = text.bytes().len();
            if end > len {
                return Err(ModFault::BadPlace(len as u64));
            }
            if !is_cut(text, i as usize) {
                return Err(ModFault::CutsSymbol(u64::from(i)));
            }
            if !is_cut(text, end) {
                return Err(ModFault::CutsSymbol(end as u64));
            }
            let text = (len - n as usize) as u64;
            Ok(Measure {
                text,
                arity: 0,
                depth: 1,
                size: 1 + text,
            })
        }
        Parts::Node(_, children) => {
            if end > children.len() {
                return Err(ModFault::BadPlace(children.len() as u64));
            }
            let front = &children[..i as usize];
            let back = &children[end..];
            let size = 1 + total_size(front) + total_size(back);
            let depth = 1 + u64::from(deepest(front).max(deepest(back)));
            Ok(Measure {
                text: 0,
                arity: 0,
                depth,
                size,
            })
        }
    }
}

#[tactic(auto, using(crate::proofs::Measuring::extent_of_node, std::proofs::lemmas::Grind::common_steps))]
pub(crate) fn extent(t: &Tree) -> usize
    ensures { result ≡ extent t.now }
{
    match parts_of(t) {
        Parts::Leaf(text) => text.bytes().len(),
        Parts::Node(_, children) => children.len(),
    }
}

fn is_clean(t: &Tree, j: usize) -> bool
    ensures { result ≡ is_clean t.now j }
{
    match t.text() {
        Some(text) => is_cut(text, j),
        None => true,
    }
}

#[tactic(auto, using(crate::proofs::Measuring::split_rules))]
fn measured_split(s: &Tree, i: u32, j: u32) -> Result<Measure, ModFault>
    ensures measured { MeasuresOutcome (split s.now i j) result }
    ensures small { IfOk result IsSmallMeasure }
{
    let size = s.size() + 1;
    let depth = u64::from(s.depth());
    let Parts::Node(_, children) = parts_of(s) else {
        return Err(ModFault::NotNode);
    };
    if i as usize >= children.len() {
        return Err(ModFault::BadPlace(children.len() as u64));
    }
    let child = &children[i as usize];
    let len = extent(child);
    if j as usize > len {
        return Err(ModFault::BadPlace(len as u64));
    }
    if !is_clean(child, j as usize) {
        return Err(ModFault::CutsSymbol(u64::from(j)));
    }
    let arity = (children.len() + 1) as u64;
    Ok(Measure {
        text: 0,
        arity,
        depth,
        size,
    })
}

// Two trees made one: the bytes of the text, or the number of children, unless they can't be joined.
#[tactic(auto, using(crate::proofs::Measuring::pair_rules))]
fn measured_pair(a: &Tree, b: &Tree) -> Result<Measure, ModFault>
    ensures measured { MeasuresOutcome (joined a.now b.now) result }
    ensures small { IfOk result IsSmallMeasure }
{
    let depth = u64::from(a.depth().max(b.depth()));
    let size = a.size() + b.size() - 1;
    match (parts_of(a), parts_of(b)) {
        (Parts::Leaf(text), Parts::Leaf(more)) => {
            let text = (text.bytes().len() + more.bytes().len()) as u64;
            Ok(Measure {
                text,
                arity: 0,
                depth,
                size,
            })
        }
        (Parts::Node(label, children), Parts::Node(name, more)) => {
            if label.bytes() != name.bytes() {
                return Err(ModFault::Differ);
            }
            let arity = (children.len() + more.len()) as u64;
            Ok(Measure {
                text: 0,
                arity,
                depth,
                size,
            })
        }
        _ => Err(ModFault::Differ),
    }
}

#[tactic(auto, using(crate::proofs::Measuring::join_rules))]
fn measured_join(s: &Tree, i: u32) -> Result<Measure, ModFault>
    ensures measured { MeasuresOutcome (joined_at s.now i) result }
    ensures small { IfOk result IsSmallMeasure }
{
    let size = s.size() - 1;
    let depth = u64::from(s.depth());
    let Parts::Node(_, children) = parts_of(s) else {
        return Err(ModFault::NotNode);
    };
    if i as usize + 1 >= children.len() {
        return Err(ModFault::BadPlace(children.len() as u64));
    }
    let made = measured_pair(&children[i as usize], &children[i as usize + 1])?;
    Ok(Measure {
        depth,
        size,
        ..made
    })
}

fn measured_label(s: &Tree) -> Result<Measure, ModFault>
    ensures measured { (l : List ℕ) → MeasuresOutcome (labelled s.now l) result }
    ensures small { IfOk result IsSmallMeasure }
{
    let made = measure_of(s);
    match parts_of(s) {
        Parts::Leaf(_) => Err(ModFault::NotNode),
        Parts::Node(..) => Ok(made),
    }
}

#[tactic(auto, using(crate::proofs::Measuring::wrap_rules))]
fn measured_wrap(s: &Tree, i: u32, x: &Tree) -> Result<Measure, ModFault>
    ensures measured { MeasuresOutcome (wrapped s.now i x.now) result }
    ensures small { IfOk result IsSmallMeasure }
{
    let depth = u64::from(x.depth().max(s.depth() + 1));
    let size = s.size() + x.size();
    let Parts::Node(_, children) = parts_of(x) else {
        return Err(ModFault::NotNode);
    };
    if i as usize > children.len() {
        return Err(ModFault::BadPlace(children.len() as u64));
    }
    let arity = (children.len() + 1) as u64;
    Ok(Measure {
        text: 0,
        arity,
        depth,
        size,
    })
}

#[tactic(auto, using(crate::proofs::Measuring::unwrap_rules))]
fn measured_unwrap(s: &Tree, i: u32) -> Result<Measure, ModFault>
    ensures measured { MeasuresOutcome (unwrapped s.now i) result }
    ensures small { IfOk result IsSmallMeasure }
{
    let Parts::Node(_, children) = parts_of(s) else {
        return Err(ModFault::NotNode);
    };
    if i as usize >= children.len() {
        return Err(ModFault::BadPlace(children.len() as u64));
    }
    Ok(measure_of(&children[i as usize]))
}

/// What the modification makes of the subtree that its path leads to, measured.
pub(crate) fn measured(s: &Tree, m: &Mod) -> Result<Measure, ModFault>
    ensures measured { MeasuresOutcome (changed_at m.now s.now) result }
    ensures small { IfOk result IsSmallMeasure }
{
    match m {
        Mod::Assign(_, x) => Ok(measure_of(x)),
        Mod::Insert(_, i, x) => measured_insert(s, *i, x),
        Mod::Remove(_, i, n) => measured_remove(s, *i, *n),
        Mod::Split(_, i, j) => measured_split(s, *i, *j),
        Mod::Join(_, i) => measured_join(s, *i),
        Mod::AssignNode(_, _) => measured_label(s),
        Mod::InsertNode(_, i, x) => measured_wrap(s, *i, x),
        Mod::RemoveNode(_, i) => measured_unwrap(s, *i),
    }
}
