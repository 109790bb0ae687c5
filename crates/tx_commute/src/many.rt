// One modification past many.
ghost use Rattle.std.specs.Prelude.{◌≡◌, IfOk, option_map};
ghost use Rattle.tx_commute.specs.Leaving.{past_all_known};

use crate::known::Known;
use crate::pairs::past_known;
use std::alloc::Global;
use tx_base::Memory;

// What is left of the later modification, which is taken past all, of which the last one comes first, and of these.
pub(crate) fn past_all(
    alloc: Global,
    known: Vec<Known>,
    b: Known,
) -> Result<Option<(Known, Vec<Known>)>, Memory>
    ensures { IfOk result (λ o. option_map (λ r. (r.0, r.1.items)) o ≡ past_all_known known.items b) }
{
    let mut left = Vec::new(alloc);
    let mut now = b;
    for a in known {
        let Some((later, earlier)) = past_known(alloc, a, now)? else {
            return Ok(None);
        };
        left.push(earlier)?;
        now = later;
    }
    Ok(Some((now, left)))
}
