// Where an unchanged subtree is after a modification of which the inverse is known.
ghost use Rattle.std.specs.Prelude.{◌≡◌, IfOk, None, Some, MatchOption};
ghost use Rattle.tx_mod.specs.Moves.{carried_by_insert, carried_in_split, carried_by_split};
ghost use Rattle.tx_mod.specs.Moves.{carried_in_join, carried_by_join};
ghost use Rattle.tx_mod.specs.Ways.{way_numbers};
ghost use Rattle.tx_commute.specs.Knowing.{carried_at_by, carried_by};

use crate::known::cut_of;
use crate::numbers::{extent_of, shifted, sum};
use std::alloc::Global;
use tx_base::Memory;
use tx_mod::{
    Mod, Way, carried_by_remove, carried_by_unwrap, first_step, path_below, rest_behind, some_path,
};
use tx_tree::Path;

fn carried_by_insert(i: u32, n: u32, rest: &[u32]) -> Result<Option<Way<'_>>, Memory>
    ensures { IfOk result (λ o. MatchOption o (carried_by_insert i n rest.now ≡ None)
        (λ w. carried_by_insert i n rest.now ≡ Some (way_numbers w))) }
{
    let Some((k, others)) = first_step(rest) else {
        return Ok(None);
    };
    Ok(Some(Way::Step(shifted(i, n, k)?, others)))
}

fn carried_in_split(i: u32, j: u32, rest: &[u32]) -> Result<Option<Way<'_>>, Memory>
    ensures { IfOk result (λ o. MatchOption o (carried_in_split i j rest.now ≡ None)
        (λ w. carried_in_split i j rest.now ≡ Some (way_numbers w))) }
{
    let Some((k, others)) = first_step(rest) else {
        return Ok(None);
    };
    if j <= k {
        Ok(Some(Way::Steps(sum(i, 1)?, k - j, others)))
    } else {
        Ok(Some(Way::Steps(i, k, others)))
    }
}

fn carried_by_split(i: u32, j: u32, rest: &[u32]) -> Result<Option<Way<'_>>, Memory>
    ensures { IfOk result (λ o. MatchOption o (carried_by_split i j rest.now ≡ None)
        (λ w. carried_by_split i j rest.now ≡ Some (way_numbers w))) }
{
    let Some((k, others)) = first_step(rest) else {
        return Ok(None);
    };
    if i < k {
        return Ok(Some(Way::Step(sum(k, 1)?, others)));
    }
    if k == i {
        return carried_in_split(i, j, others);
    }
    Ok(Some(Way::Step(k, others)))
}

fn carried_in_join(i: u32, n: u32, rest: &[u32]) -> Result<Option<Way<'_>>, Memory>
    ensures { IfOk result (λ o. MatchOption o (carried_in_join i n rest.now ≡ None)
        (λ w. carried_in_join i n rest.now ≡ Some (way_numbers w))) }
{
    let Some((k, others)) = first_step(rest) else {
        return Ok(None);
    };
    Ok(Some(Way::Steps(i, sum(k, n)?, others)))
}

fn carried_by_join(i: u32, n: u32, rest: &[u32]) -> Result<Option<Way<'_>>, Memory>
    ensures { IfOk result (λ o. MatchOption o (carried_by_join i n rest.now ≡ None)
        (λ w. carried_by_join i n rest.now ≡ Some (way_numbers w))) }
{
    let Some((k, others)) = first_step(rest) else {
        return Ok(None);
    };
    let next = u64::from(i) + 1;
    if next < u64::from(k) {
        return Ok(Some(Way::Step(k - 1, others)));
    }
    if u64::from(k) == next {
        return carried_in_join(i, n, others);
    }
    if k == i && others.is_empty() {
        return Ok(None);
    }
    Ok(Some(Way::Step(k, others)))
}

fn carried_at_by<'a>(m: &Mod, undo: &Mod, rest: &'a [u32]) -> Result<Option<Way<'a>>, Memory>
    ensures { IfOk result (λ o. MatchOption o (carried_at_by m.now undo.now rest.now ≡ None)
        (λ w. carried_at_by m.now undo.now rest.now ≡ Some (way_numbers w))) }
{
    match m {
        Mod::Assign(..) => Ok(None),
        Mod::Insert(_, i, x) => carried_by_insert(*i, extent_of(x), rest),
        Mod::Remove(_, i, n) => Ok(carried_by_remove(*i, *n, rest)),
        Mod::Split(_, i, j) => carried_by_split(*i, *j, rest),
        Mod::Join(_, i) => carried_by_join(*i, cut_of(undo), rest),
        Mod::AssignNode(..) => Ok(some_path(rest)),
        Mod::InsertNode(_, i, _) => Ok(Some(Way::Step(*i, rest))),
        Mod::RemoveNode(_, i) => Ok(carried_by_unwrap(*i, rest)),
    }
}

// Where the subtree at the path is after the modification, which the other one undoes, or None where it is taken out,
// changed or not a subtree any more.
pub(crate) fn carried_by(
    alloc: Global,
    m: &Mod,
    undo: &Mod,
    path: &Path,
) -> Result<Option<Path>, Memory>
    ensures { IfOk result (λ q. q ≡ carried_by m.now undo.now path.now) }
{
    let Some(rest) = rest_behind(m.path().steps(), path.steps()) else {
        if rest_behind(path.steps(), m.path().steps()).is_some() {
            return Ok(None);
        }
        return Ok(Some(path.copy(alloc)?));
    };
    match carried_at_by(m, undo, rest)? {
        Some(way) => Ok(Some(path_below(alloc, m.path(), way)?)),
        None => Ok(None),
    }
}
