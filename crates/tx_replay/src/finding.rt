// What holds a part.
ghost use Rattle.std.specs.Prelude.{◌≡◌, false, IfOk, MatchOption, None, Some};
ghost use Rattle.tx_parts.specs.Atop.{env_atop};
ghost use Rattle.tx_replay.specs.Cached.{trace_at, stores_in};
ghost use Rattle.tx_replay.specs.Going.{names_of};
ghost use Rattle.tx_replay.specs.Held.{fits, IsHeldBy, IsHeldIn, IsUnheld};

use crate::cached::{CachedPart, Source};
use crate::part_trace::PartTrace;
use crate::progress::Progress;
use tx_base::Memory;
use tx_kept::PathMap;
use tx_tree::Path;

/// The numbers of parts that are likely next, in the cache and in the spare.
#[derive(Drop)]
pub(crate) struct NextNumbers {
    pub own: usize,
    pub spare: usize,
}

/// A trace that holds a part. `renewed` says that no cached trace there fits, so that this is the spare's.
#[derive(Drop)]
pub(crate) struct HeldTrace<'a> {
    pub trace: &'a PartTrace,
    pub renewed: bool,
}

// The trace at the path of the document. `next` is the number that is likely next.
fn trace_near<'a>(
    cached: &'a PathMap<CachedPart>,
    path: &Path,
    next: &mut usize,
) -> Option<&'a PartTrace>
    ensures { MatchOption result (trace_at cached.now path.now ≡ None)
        (λ t. trace_at cached.now path.now ≡ Some t.now) }
{
    let i = cached.find(path, *next)?;
    *next = i.saturating_add(1);
    let entry = cached.entries().get(i)?;
    Some(&entry.value.trace)
}

// The trace at the path of the document, if it fits what names have.
fn found<'a>(
    progress: &Progress,
    cached: &'a PathMap<CachedPart>,
    path: &Path,
    next: &mut usize,
) -> Option<&'a PartTrace>
    ensures { MatchOption result
        (fits (env_atop progress.now.state.own (names_of progress.now)) (trace_at cached.now path.now) ≡ false)
        (λ t. IsHeldBy (env_atop progress.now.state.own (names_of progress.now)) (trace_at cached.now path.now)
        t.now) }
{
    let trace = trace_near(cached, path, next)?;
    if progress.fits(trace) {
        Some(trace)
    } else {
        None
    }
}

/// What holds the part at the path in the unit: the cached trace there, or else the spare's. `next` has the numbers
/// that are likely next.
pub(crate) fn held<'a>(
    progress: &Progress,
    source: &Source<'a>,
    path: &Path,
    next: &mut NextNumbers,
) -> Result<Option<HeldTrace<'a>>, Memory>
    ensures { IfOk result (λ r. MatchOption r
        (IsUnheld (env_atop progress.now.state.own (names_of progress.now)) path.now (stores_in source.now))
        (λ h. IsHeldIn (env_atop progress.now.state.own (names_of progress.now)) path.now
        (stores_in source.now) h.trace.now h.renewed)) }
{
    let caches = source.caches;
    let place = source.place(path)?;
    if let Some(trace) = found(progress, caches.own, &place, &mut next.own) {
        return Ok(Some(HeldTrace {
            trace,
            renewed: false,
        }));
    }
    match found(progress, caches.spare, &place, &mut next.spare) {
        None => Ok(None),
        Some(trace) => Ok(Some(HeldTrace {
            trace,
            renewed: true,
        })),
    }
}
