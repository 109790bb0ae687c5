// Where an unchanged subtree is afterwards. Paths are seen from the changed subtree.
ghost use Rattle.std.specs.Prelude.{◌≡◌, ◌≤◌, IfOk, IsOk, IsSome, None, Some, MatchOption, OnErr, if◌then◌else◌, true, false, Ok};
ghost use Rattle.tx_tree.specs.Paths.{subtree};
ghost use Rattle.tx_mod.specs.Changes.{changed};
ghost use Rattle.tx_mod.specs.Moves.{carried_by_insert, carried_by_remove, carried_in_split};
ghost use Rattle.tx_mod.specs.Moves.{carried_by_split, carried_in_join, carried_by_join};
ghost use Rattle.tx_mod.specs.Moves.{carried_by_unwrap, carried_at, carried_path, some_path};
ghost use Rattle.tx_mod.specs.Ways.{way_numbers, AreChildNumbers};

use crate::mods::Mod;
use crate::moving::{child_or_self, extent_of, shifted};
use crate::ways::{Way, first_step, path_below, rest_behind};
use std::alloc::Global;
use tx_base::Memory;
use tx_tree::{Path, Tree};

fn carried_by_insert(i: u32, n: u32, rest: &[u32]) -> Option<Way<'_>>
    requires extent { n ≤ 1048575 }
    requires small { AreChildNumbers rest.now }
    ensures { MatchOption result (carried_by_insert i n rest.now ≡ None)
        (λ w. carried_by_insert i n rest.now ≡ Some (way_numbers w)) }
{
    let (k, others) = first_step(rest)?;
    Some(Way::Step(shifted(i, n, k), others))
}

/// Where a path is after a removal of n from place i. None is for what is taken out, and for the path of the changed
/// subtree itself.
pub fn carried_by_remove(i: u32, n: u32, rest: &[u32]) -> Option<Way<'_>>
    ensures { MatchOption result (carried_by_remove i n rest.now ≡ None)
        (λ w. carried_by_remove i n rest.now ≡ Some (way_numbers w)) }
{
    let end = u64::from(i) + u64::from(n);
    let (k, others) = first_step(rest)?;
    if end <= u64::from(k) {
        Some(Way::Step(k - n, others))
    } else if i <= k {
        None
    } else {
        Some(Way::Step(k, others))
    }
}

// A path below child i, which becomes two before and from j.
fn carried_in_split(i: u32, j: u32, rest: &[u32]) -> Option<Way<'_>>
    requires child { i ≤ 65535 }
    ensures { MatchOption result (carried_in_split i j rest.now ≡ None)
        (λ w. carried_in_split i j rest.now ≡ Some (way_numbers w)) }
{
    let (k, others) = first_step(rest)?;
    if j <= k {
        Some(Way::Steps(i + 1, k - j, others))
    } else {
        Some(Way::Steps(i, k, others))
    }
}

fn carried_by_split(i: u32, j: u32, rest: &[u32]) -> Option<Way<'_>>
    requires small { AreChildNumbers rest.now }
    ensures { MatchOption result (carried_by_split i j rest.now ≡ None)
        (λ w. carried_by_split i j rest.now ≡ Some (way_numbers w)) }
{
    let (k, others) = first_step(rest)?;
    if i < k {
        return Some(Way::Step(k + 1, others));
    }
    if k == i {
        return carried_in_split(i, j, others);
    }
    Some(Way::Step(k, others))
}

// A path below child i + 1, which becomes the end of child i, after n children.
fn carried_in_join(i: u32, n: u32, rest: &[u32]) -> Option<Way<'_>>
    requires extent { n ≤ 1048575 }
    requires small { AreChildNumbers rest.now }
    ensures { MatchOption result (carried_in_join i n rest.now ≡ None)
        (λ w. carried_in_join i n rest.now ≡ Some (way_numbers w)) }
{
    let (k, others) = first_step(rest)?;
    Some(Way::Steps(i, k + n, others))
}

fn carried_by_join(i: u32, n: u32, rest: &[u32]) -> Option<Way<'_>>
    requires extent { n ≤ 1048575 }
    requires small { AreChildNumbers rest.now }
    ensures { MatchOption result (carried_by_join i n rest.now ≡ None)
        (λ w. carried_by_join i n rest.now ≡ Some (way_numbers w)) }
{
    let (k, others) = first_step(rest)?;
    let next = u64::from(i) + 1;
    if next < u64::from(k) {
        return Some(Way::Step(k - 1, others));
    }
    if u64::from(k) == next {
        return carried_in_join(i, n, others);
    }
    if k == i && others.is_empty() {
        return None;
    }
    Some(Way::Step(k, others))
}

/// Where a path is after child i has come in the place of its parent. None is for the parent and its other children.
pub fn carried_by_unwrap(i: u32, rest: &[u32]) -> Option<Way<'_>>
    ensures { MatchOption result (carried_by_unwrap i rest.now ≡ None)
        (λ w. carried_by_unwrap i rest.now ≡ Some (way_numbers w)) }
{
    let (k, others) = first_step(rest)?;
    if k == i {
        Some(Way::Rest(others))
    } else {
        None
    }
}

/// The path, or None where it is that of the changed subtree itself.
pub fn some_path(rest: &[u32]) -> Option<Way<'_>>
    ensures { MatchOption result (some_path rest.now ≡ None) (λ w. some_path rest.now ≡ Some (way_numbers w)) }
{
    let (k, others) = first_step(rest)?;
    Some(Way::Step(k, others))
}

fn carried_at<'a>(m: &Mod, s: &Tree, rest: &'a [u32]) -> Option<Way<'a>>
    requires small { AreChildNumbers rest.now }
    ensures { MatchOption result (carried_at m.now s.now rest.now ≡ None)
        (λ w. carried_at m.now s.now rest.now ≡ Some (way_numbers w)) }
{
    match m {
        Mod::Assign(..) => None,
        Mod::Insert(_, i, x) => carried_by_insert(*i, extent_of(x), rest),
        Mod::Remove(_, i, n) => carried_by_remove(*i, *n, rest),
        Mod::Split(_, i, j) => carried_by_split(*i, *j, rest),
        Mod::Join(_, i) => carried_by_join(*i, extent_of(child_or_self(s, *i)), rest),
        Mod::AssignNode(..) => some_path(rest),
        Mod::InsertNode(_, i, _) => Some(Way::Step(*i, rest)),
        Mod::RemoveNode(_, i) => carried_by_unwrap(*i, rest),
    }
}

/// Where the subtree that the path leads to is after the modification, or None where it is taken out, changed
/// or not a subtree any more. The modification applies, and the path leads to a subtree.
pub fn carried(alloc: Global, t: &Tree, m: &Mod, path: &Path) -> Result<Option<Path>, Memory>
    requires applicable { IsOk (changed m.now t.now) }
    requires leads { IsSome (subtree t.now path.now) }
    ensures { IfOk result (λ q. q ≡ carried_path m.now t.now path.now) }
{
    let _size = t.size();
    let Some(s) = t.at(m.path()) else {
        unreachable!();
    };
    let Some(rest) = rest_behind(m.path().steps(), path.steps()) else {
        if rest_behind(path.steps(), m.path().steps()).is_some() {
            return Ok(None);
        }
        return Ok(Some(path.copy(alloc)?));
    };
    match carried_at(m, s, rest) {
        Some(way) => Ok(Some(path_below(alloc, m.path(), way)?)),
        None => Ok(None),
    }
}

/// Carries the path in place, as `carried` does, and returns whether it leads on. A path that leads on nowhere is
/// unchanged, and so is one after `Memory`. Where the path of the modification neither begins this one nor goes on from
/// it, nothing is copied.
pub fn carry_in_place(alloc: Global, t: &Tree, m: &Mod, path: &mut Path) -> Result<bool, Memory>
    requires applicable { IsOk (changed m.now t.now) }
    requires leads { IsSome (subtree t.now path.old) }
    ensures carried { IfOk result (λ on. carried_path m.now t.now path.old ≡ (if on then Some path.new else None)) }
    ensures nowhere { result ≡ Ok false → path.new ≡ path.old }
    ensures refused { OnErr result (path.new ≡ path.old) }
{
    let Some(rest) = rest_behind(m.path().steps(), path.steps()) else {
        let is_above = rest_behind(path.steps(), m.path().steps()).is_some();
        return Ok(!is_above);
    };
    let _size = t.size();
    let Some(s) = t.at(m.path()) else {
        unreachable!();
    };
    let Some(way) = carried_at(m, s, rest) else {
        return Ok(false);
    };
    let carried = path_below(alloc, m.path(), way)?;
    *path = carried;
    Ok(true)
}
