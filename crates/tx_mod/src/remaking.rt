// What a modification makes of the subtree that its path leads to.
ghost use Rattle.std.specs.Prelude.{◌≡◌, ◌+◌, ◌++◌, ◌≤◌, length, take, drop, true, Ok, IfOk, IsOkAnd};
ghost use Rattle.tx_tree.specs.Limits.{IsWithinLimits};
ghost use Rattle.tx_mod.specs.Mods.{tree_up_to, tree_from, extent, is_clean};
ghost use Rattle.tx_mod.specs.Changes.{changed_at, inserted, removed, split, joined};
ghost use Rattle.tx_mod.specs.Changes.{joined_at, labelled, wrapped, unwrapped};

use crate::making::{leaf_of, node_of, spliced};
use crate::mods::Mod;
use crate::parts::{Parts, parts_of};
use std::alloc::Global;
use std::sync::ledger::Ledger;
use tx_base::{Memory, Steps};
use tx_tree::{Label, Tree};

// The bytes before place `from`, others, and the bytes from place `to` on.
fn spliced_bytes(
    alloc: Global,
    bytes: &[u8],
    from: usize,
    to: usize,
    others: &[u8],
) -> Result<Vec<u8>, Memory>
    requires order { from ≤ to }
    requires there { to ≤ length bytes.now }
    ensures { IfOk result (λ v. v.items ≡ take from bytes.now ++ others.now ++ drop to bytes.now) }
{
    let mut all = Vec::from_slice(alloc, &bytes[..from])?;
    all.extend_from_slice(others)?;
    all.extend_from_slice(&bytes[to..])?;
    Ok(all)
}

fn insert<L: Ledger>(
    alloc: Global,
    s: &Tree,
    i: u32,
    x: &Tree,
    steps: &mut Steps<L>,
) -> Result<Tree, Memory>
    requires { IsOkAnd (inserted s.now i x.now) IsWithinLimits }
    ensures made { IfOk result (λ v. inserted s.now i x.now ≡ Ok v) }
    ensures counted { steps.new ≤ steps.old + 1 }
{
    let i = i as usize;
    match (parts_of(s), parts_of(x)) {
        (Parts::Leaf(text), Parts::Leaf(more)) => {
            let bytes = spliced_bytes(alloc, text.bytes(), i, i, more.bytes())?;
            leaf_of(alloc, &bytes)
        }
        (Parts::Node(label, children), Parts::Node(_, more)) => {
            let all = spliced(alloc, children, i, i, more)?;
            node_of(alloc, label, all, steps)
        }
        _ => unreachable!(),
    }
}

fn remove<L: Ledger>(
    alloc: Global,
    s: &Tree,
    i: u32,
    n: u32,
    steps: &mut Steps<L>,
) -> Result<Tree, Memory>
    requires { IsOkAnd (removed s.now i n) IsWithinLimits }
    ensures made { IfOk result (λ v. removed s.now i n ≡ Ok v) }
    ensures counted { steps.new ≤ steps.old + 1 }
{
    let from = i as usize;
    let to = from + n as usize;
    match parts_of(s) {
        Parts::Leaf(text) => {
            let bytes = spliced_bytes(alloc, text.bytes(), from, to, &[])?;
            leaf_of(alloc, &bytes)
        }
        Parts::Node(label, children) => {
            let all = spliced(alloc, children, from, to, &[])?;
            node_of(alloc, label, all, steps)
        }
    }
}

// The tree before place j.
fn front<L: Ledger>(alloc: Global, t: &Tree, j: usize, steps: &mut Steps<L>) -> Result<Tree, Memory>
    requires there { j ≤ extent t.now }
    requires clean { is_clean t.now j ≡ true }
    ensures made { IfOk result (λ v. v ≡ tree_up_to t.now j) }
    ensures counted { steps.new ≤ steps.old + 1 }
{
    let _size = t.size();
    match parts_of(t) {
        Parts::Leaf(text) => leaf_of(alloc, &text.bytes()[..j]),
        Parts::Node(label, children) => {
            let all = spliced(alloc, children, j, children.len(), &[])?;
            node_of(alloc, label, all, steps)
        }
    }
}

// The tree from place j on.
fn back<L: Ledger>(alloc: Global, t: &Tree, j: usize, steps: &mut Steps<L>) -> Result<Tree, Memory>
    requires there { j ≤ extent t.now }
    requires clean { is_clean t.now j ≡ true }
    ensures made { IfOk result (λ v. v ≡ tree_from t.now j) }
    ensures counted { steps.new ≤ steps.old + 1 }
{
    let _size = t.size();
    match parts_of(t) {
        Parts::Leaf(text) => {
            let bytes = spliced_bytes(alloc, text.bytes(), 0, j, &[])?;
            leaf_of(alloc, &bytes)
        }
        Parts::Node(label, children) => {
            let all = spliced(alloc, children, 0, j, &[])?;
            node_of(alloc, label, all, steps)
        }
    }
}

fn split<L: Ledger>(
    alloc: Global,
    s: &Tree,
    i: u32,
    j: u32,
    steps: &mut Steps<L>,
) -> Result<Tree, Memory>
    requires { IsOkAnd (split s.now i j) IsWithinLimits }
    ensures made { IfOk result (λ v. split s.now i j ≡ Ok v) }
    ensures counted { steps.new ≤ steps.old + 3 }
{
    let Parts::Node(label, children) = parts_of(s) else {
        unreachable!();
    };
    let i = i as usize;
    let child = &children[i];
    let first = front(alloc, child, j as usize, steps)?;
    let second = back(alloc, child, j as usize, steps)?;
    let all = spliced(alloc, children, i, i + 1, &[first, second])?;
    node_of(alloc, label, all, steps)
}

fn join_pair<L: Ledger>(
    alloc: Global,
    a: &Tree,
    b: &Tree,
    steps: &mut Steps<L>,
) -> Result<Tree, Memory>
    requires { IsOkAnd (joined a.now b.now) IsWithinLimits }
    ensures made { IfOk result (λ v. joined a.now b.now ≡ Ok v) }
    ensures counted { steps.new ≤ steps.old + 1 }
{
    match (parts_of(a), parts_of(b)) {
        (Parts::Leaf(text), Parts::Leaf(more)) => {
            let bytes = text.bytes();
            let all = spliced_bytes(alloc, bytes, bytes.len(), bytes.len(), more.bytes())?;
            leaf_of(alloc, &all)
        }
        (Parts::Node(label, children), Parts::Node(_, more)) => {
            let all = spliced(alloc, children, children.len(), children.len(), more)?;
            node_of(alloc, label, all, steps)
        }
        _ => unreachable!(),
    }
}

fn join<L: Ledger>(alloc: Global, s: &Tree, i: u32, steps: &mut Steps<L>) -> Result<Tree, Memory>
    requires { IsOkAnd (joined_at s.now i) IsWithinLimits }
    ensures made { IfOk result (λ v. joined_at s.now i ≡ Ok v) }
    ensures counted { steps.new ≤ steps.old + 2 }
{
    let Parts::Node(label, children) = parts_of(s) else {
        unreachable!();
    };
    let i = i as usize;
    let one = join_pair(alloc, &children[i], &children[i + 1], steps)?;
    let all = spliced(alloc, children, i, i + 2, &[one])?;
    node_of(alloc, label, all, steps)
}

fn assign_label<L: Ledger>(
    alloc: Global,
    s: &Tree,
    label: &Label,
    steps: &mut Steps<L>,
) -> Result<Tree, Memory>
    requires { IsOkAnd (labelled s.now label.now) IsWithinLimits }
    ensures made { IfOk result (λ v. labelled s.now label.now ≡ Ok v) }
    ensures counted { steps.new ≤ steps.old + 1 }
{
    let Parts::Node(_, children) = parts_of(s) else {
        unreachable!();
    };
    let all = spliced(alloc, children, 0, 0, &[])?;
    node_of(alloc, label, all, steps)
}

fn wrap<L: Ledger>(
    alloc: Global,
    s: &Tree,
    i: u32,
    x: &Tree,
    steps: &mut Steps<L>,
) -> Result<Tree, Memory>
    requires { IsOkAnd (wrapped s.now i x.now) IsWithinLimits }
    ensures made { IfOk result (λ v. wrapped s.now i x.now ≡ Ok v) }
    ensures counted { steps.new ≤ steps.old + 1 }
{
    let Parts::Node(label, children) = parts_of(x) else {
        unreachable!();
    };
    let i = i as usize;
    let shared = s.share()?;
    let all = spliced(alloc, children, i, i, &[shared])?;
    node_of(alloc, label, all, steps)
}

fn unwrap(s: &Tree, i: u32) -> Result<Tree, Memory>
    requires { IsOkAnd (unwrapped s.now i) IsWithinLimits }
    ensures { IfOk result (λ v. unwrapped s.now i ≡ Ok v) }
{
    let Parts::Node(_, children) = parts_of(s) else {
        unreachable!();
    };
    children[i as usize].share()
}

// What the modification makes of the subtree.
pub(crate) fn remade<L: Ledger>(
    alloc: Global,
    s: &Tree,
    m: &Mod,
    steps: &mut Steps<L>,
) -> Result<Tree, Memory>
    requires { IsOkAnd (changed_at m.now s.now) IsWithinLimits }
    ensures made { IfOk result (λ v. changed_at m.now s.now ≡ Ok v) }
    ensures counted { steps.new ≤ steps.old + 3 }
{
    match m {
        Mod::Assign(_, x) => x.share(),
        Mod::Insert(_, i, x) => insert(alloc, s, *i, x, steps),
        Mod::Remove(_, i, n) => remove(alloc, s, *i, *n, steps),
        Mod::Split(_, i, j) => split(alloc, s, *i, *j, steps),
        Mod::Join(_, i) => join(alloc, s, *i, steps),
        Mod::AssignNode(_, label) => assign_label(alloc, s, label, steps),
        Mod::InsertNode(_, i, x) => wrap(alloc, s, *i, x, steps),
        Mod::RemoveNode(_, i) => unwrap(s, *i),
    }
}
