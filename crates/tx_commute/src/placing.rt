// The table of insertions and removals at the same path.
ghost use Rattle.std.specs.Prelude.{◌≡◌, IfOk};
ghost use Rattle.tx_commute.specs.Knowing.{insert_places, remove_places, places};

use crate::numbers::{extent_of, sum};
use tx_base::Memory;
use tx_mod::Mod;

// The places of the later modification and of an earlier insertion of n.
fn insert_places(i: u32, n: u32, b: &Mod) -> Result<Option<(u32, u32)>, Memory>
    ensures { IfOk result (λ o. o ≡ insert_places i n b.now) }
{
    let end = u64::from(i) + u64::from(n);
    match b {
        Mod::Insert(_, j, y) => {
            if *j <= i {
                return Ok(Some((*j, sum(i, extent_of(y))?)));
            }
            if end <= u64::from(*j) {
                return Ok(Some((*j - n, i)));
            }
            Ok(None)
        }
        Mod::Remove(_, j, m) => {
            if u64::from(*j) + u64::from(*m) <= u64::from(i) {
                return Ok(Some((*j, i - *m)));
            }
            if end <= u64::from(*j) {
                return Ok(Some((*j - n, i)));
            }
            Ok(None)
        }
        _ => Ok(None),
    }
}

// The places of the later modification and of an earlier removal of n.
fn remove_places(i: u32, n: u32, b: &Mod) -> Result<Option<(u32, u32)>, Memory>
    ensures { IfOk result (λ o. o ≡ remove_places i n b.now) }
{
    match b {
        Mod::Insert(_, j, y) => {
            if *j <= i {
                return Ok(Some((*j, sum(i, extent_of(y))?)));
            }
            Ok(Some((sum(*j, n)?, i)))
        }
        Mod::Remove(_, j, m) => {
            if u64::from(*j) + u64::from(*m) <= u64::from(i) {
                return Ok(Some((*j, i - *m)));
            }
            if i <= *j {
                return Ok(Some((sum(*j, n)?, i)));
            }
            Ok(None)
        }
        _ => Ok(None),
    }
}

// The places to which the table moves the later modification and the earlier one.
pub(crate) fn places(a: &Mod, b: &Mod) -> Result<Option<(u32, u32)>, Memory>
    ensures { IfOk result (λ o. o ≡ places a.now b.now) }
{
    match a {
        Mod::Insert(_, i, x) => insert_places(*i, extent_of(x), b),
        Mod::Remove(_, i, n) => remove_places(*i, *n, b),
        _ => Ok(None),
    }
}
