// Where a place of the changed subtree is afterwards. Paths are seen from that subtree.
ghost use Rattle.std.specs.Prelude.{◌≡◌, ◌≤◌, ◌+◌, [], IfOk, IsOk, Ok, length};
ghost use Rattle.tx_tree.specs.Places.{IsPlace};
ghost use Rattle.tx_tree.specs.WideTree.{WideTree};
ghost use Rattle.tx_mod.specs.Changes.{changed, changed_at};
ghost use Rattle.tx_mod.specs.Mods.{extent};
ghost use Rattle.tx_mod.specs.Moves.{child_or_self, shifted, place, moved_by_insert};
ghost use Rattle.tx_mod.specs.Moves.{moved_by_remove, moved_in_split, moved_by_split, moved_in_join};
ghost use Rattle.tx_mod.specs.Moves.{moved_by_join, moved_by_unwrap, moved_at, moved_place};
ghost use Rattle.tx_mod.specs.Ways.{way_numbers, IsPlaceOf, AreChildNumbers};

use crate::laws::sound;
use crate::measures::extent;
use crate::mods::Mod;
use crate::parts::{Parts, parts_of};
use crate::ways::{Stand, Way, first_step, path_below, rest_behind};
use std::alloc::Global;
use tx_base::Memory;
use tx_tree::{Kind, Place, Tree};

// The bytes of a leaf, or the children of a node.
#[tactic(auto, using(crate::proofs::Undone::extent_small, std::proofs::lemmas::Grind::common_steps))]
pub(crate) fn extent_of(t: &Tree) -> u32
    ensures value { result ≡ extent t.now }
    ensures small { result ≤ 1048575 }
{
    let _size = t.size();
    extent(t) as u32
}

// Child i of the tree, or the tree itself where it has none.
pub(crate) fn child_or_self(s: &Tree, i: u32) -> &Tree
    ensures { result.now ≡ child_or_self s.now i }
{
    match s.child(i) {
        Some(child) => child,
        None => s,
    }
}

// The number, and n more from i on.
pub(crate) fn shifted(i: u32, n: u32, k: u32) -> u32
    requires extent { n ≤ 1048575 }
    requires small { k ≤ 1048575 }
    ensures { result ≡ shifted i n k }
{
    if i <= k { k + n } else { k }
}

fn moved_by_insert<'a>(s: &Tree, i: u32, n: u32, rest: &'a [u32], offset: u32) -> Stand<'a>
    requires extent { n ≤ 1048575 }
    requires small { AreChildNumbers rest.now }
    requires offset { offset ≤ 1048575 }
    ensures { IsPlaceOf result (moved_by_insert s.now i n rest.now offset) }
{
    match (s.kind(), first_step(rest)) {
        (Kind::Leaf, _) => Way::Rest(rest).at(shifted(i, n, offset)),
        (Kind::Node, None) => Way::Rest(&[]).at(offset),
        (Kind::Node, Some((k, others))) => Way::Step(shifted(i, n, k), others).at(offset),
    }
}

fn moved_by_remove<'a>(s: &Tree, i: u32, n: u32, rest: &'a [u32], offset: u32) -> Stand<'a>
    requires small { AreChildNumbers rest.now }
    requires offset { offset ≤ 1048575 }
    ensures { IsPlaceOf result (moved_by_remove s.now i n rest.now offset) }
{
    let end = u64::from(i) + u64::from(n);
    match (s.kind(), first_step(rest)) {
        (Kind::Leaf, _) => {
            if end <= u64::from(offset) {
                Way::Rest(rest).at(offset - n)
            } else if i <= offset {
                Way::Rest(rest).at(i)
            } else {
                Way::Rest(rest).at(offset)
            }
        }
        (Kind::Node, None) => Way::Rest(&[]).at(offset),
        (Kind::Node, Some((k, others))) => {
            if end <= u64::from(k) {
                Way::Step(k - n, others).at(offset)
            } else if i <= k {
                Way::Rest(&[]).at(0)
            } else {
                Way::Step(k, others).at(offset)
            }
        }
    }
}

// A place of child i, which becomes two before and from j.
fn moved_in_split<'a>(c: &Tree, i: u32, j: u32, rest: &'a [u32], offset: u32) -> Stand<'a>
    requires small { AreChildNumbers rest.now }
    requires child { i ≤ 65535 }
    ensures { IsPlaceOf result (moved_in_split c.now i j rest.now offset) }
{
    match (c.kind(), first_step(rest)) {
        (Kind::Leaf, _) => {
            if j <= offset {
                Way::Step(i + 1, rest).at(offset - j)
            } else {
                Way::Step(i, rest).at(offset)
            }
        }
        (Kind::Node, None) => {
            if offset == 1 {
                Way::Step(i + 1, &[]).at(1)
            } else {
                Way::Step(i, &[]).at(offset)
            }
        }
        (Kind::Node, Some((k, others))) => {
            if j <= k {
                Way::Steps(i + 1, k - j, others).at(offset)
            } else {
                Way::Steps(i, k, others).at(offset)
            }
        }
    }
}

fn moved_by_split<'a>(s: &Tree, i: u32, j: u32, rest: &'a [u32], offset: u32) -> Stand<'a>
    requires small { AreChildNumbers rest.now }
    ensures { IsPlaceOf result (moved_by_split s.now i j rest.now offset) }
{
    let Some((k, others)) = first_step(rest) else {
        return Way::Rest(&[]).at(offset);
    };
    if i < k {
        return Way::Step(k + 1, others).at(offset);
    }
    if k == i {
        return moved_in_split(child_or_self(s, i), i, j, others, offset);
    }
    Way::Step(k, others).at(offset)
}

// A place of child i + 1, which becomes the end of child i, after n bytes or children.
fn moved_in_join<'a>(c: &Tree, i: u32, n: u32, rest: &'a [u32], offset: u32) -> Stand<'a>
    requires extent { n ≤ 1048575 }
    requires small { AreChildNumbers rest.now }
    requires offset { offset ≤ 1048575 }
    ensures { IsPlaceOf result (moved_in_join c.now i n rest.now offset) }
{
    match (c.kind(), first_step(rest)) {
        (Kind::Leaf, _) => Way::Step(i, rest).at(offset + n),
        (Kind::Node, None) => Way::Step(i, &[]).at(offset),
        (Kind::Node, Some((k, others))) => Way::Steps(i, k + n, others).at(offset),
    }
}

fn moved_by_join<'a>(s: &Tree, i: u32, rest: &'a [u32], offset: u32) -> Stand<'a>
    requires small { AreChildNumbers rest.now }
    requires offset { offset ≤ 1048575 }
    ensures { IsPlaceOf result (moved_by_join s.now i rest.now offset) }
{
    let Some((k, others)) = first_step(rest) else {
        return Way::Rest(&[]).at(offset);
    };
    let next = u64::from(i) + 1;
    if next < u64::from(k) {
        return Way::Step(k - 1, others).at(offset);
    }
    if u64::from(k) == next {
        let n = extent_of(child_or_self(s, i));
        return moved_in_join(child_or_self(s, k), i, n, others, offset);
    }
    Way::Step(k, others).at(offset)
}

fn moved_by_unwrap(i: u32, rest: &[u32], offset: u32) -> Stand<'_>
    ensures { IsPlaceOf result (moved_by_unwrap i rest.now offset) }
{
    match first_step(rest) {
        Some((k, others)) => {
            if k == i {
                Way::Rest(others).at(offset)
            } else {
                Way::Rest(&[]).at(0)
            }
        }
        None => Way::Rest(&[]).at(0),
    }
}

fn moved_at<'a>(m: &Mod, s: &Tree, rest: &'a [u32], offset: u32) -> Stand<'a>
    requires small { AreChildNumbers rest.now }
    requires offset { offset ≤ 1048575 }
    ensures { IsPlaceOf result (moved_at m.now s.now rest.now offset) }
{
    match m {
        Mod::Assign(..) => Way::Rest(&[]).at(0),
        Mod::Insert(_, i, x) => moved_by_insert(s, *i, extent_of(x), rest, offset),
        Mod::Remove(_, i, n) => moved_by_remove(s, *i, *n, rest, offset),
        Mod::Split(_, i, j) => moved_by_split(s, *i, *j, rest, offset),
        Mod::Join(_, i) => moved_by_join(s, *i, rest, offset),
        Mod::AssignNode(..) => Way::Rest(rest).at(offset),
        Mod::InsertNode(_, i, _) => Way::Step(*i, rest).at(offset),
        Mod::RemoveNode(_, i) => moved_by_unwrap(*i, rest, offset),
    }
}

// The place, by the tables.
fn place_after(alloc: Global, t: &Tree, m: &Mod, place: &Place) -> Result<Place, Memory>
    requires applicable { IsOk (changed m.now t.now) }
    requires valid { IsPlace t.now place.now.path place.now.offset }
    ensures { IfOk result (λ at. at ≡ moved_place m.now t.now place.now) }
{
    let _size = t.size();
    let Some(s) = t.at(m.path()) else {
        unreachable!();
    };
    let Some(rest) = rest_behind(m.path().steps(), place.path.steps()) else {
        return place.copy(alloc);
    };
    let stand = moved_at(m, s, rest, place.offset);
    Ok(Place {
        path: path_below(alloc, m.path(), stand.way)?,
        offset: stand.offset,
    })
}

/// Where a place of the tree is after the modification, which applies; it is a place of the changed tree. What is
/// taken out is left for the place where it was taken out, or for the place before the changed subtree.
pub fn moved(alloc: Global, t: &Tree, m: &Mod, place: &Place) -> Result<Place, Memory>
    requires applicable { IsOk (changed m.now t.now) }
    requires valid { IsPlace t.now place.now.path place.now.offset }
    ensures place { IfOk result (λ at. at ≡ moved_place m.now t.now place.now) }
    ensures valid { (u : WideTree) → changed m.now t.now ≡ Ok u → IfOk result (λ at. IsPlace u at.path at.offset) }
{
    sound(m);
    let _size = t.size();
    place_after(alloc, t, m, place)
}
