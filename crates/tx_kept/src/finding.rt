// Entries in order, found by their paths.
ghost use Rattle.std.specs.Prelude.{◌≡◌, ℕ, ◌<◌, ◌≤◌, ◌↔◌, ◌⊎◌};
ghost use Rattle.std.specs.Prelude.{◌||◌, Some, IsTrue, MatchOption, is_some, length, slice_get};
ghost use Rattle.std.specs.Option.{IsSome};
ghost use Rattle.std.specs.Str.{bytes_eq};
ghost use Rattle.tx_mod.specs.Moves.{rest_behind};
ghost use Rattle.tx_mod.specs.Orders.{IsBefore};
ghost use Rattle.tx_kept.specs.declared.path_map.Entry.{Entry};
ghost use Rattle.tx_kept.specs.Entries.{IsInOrder, IsAt, NoneAt};
ghost use Rattle.tx_kept.specs.Finding.{is_before, is_below};

use crate::path_map::Entry;
use tx_mod::rest_behind;
use tx_tree::Path;

// Whether the first path is before the other one in the document.
fn is_before(path: &[u32], other: &[u32]) -> bool
    ensures { result ≡ is_before path.now other.now }
{
    path.cmp(other).is_lt()
}

fn stands_before<X: Drop>(entry: &Entry<X>, path: &Path) -> bool
    ensures { result ≡ is_before entry.now.path path.now }
{
    is_before(entry.path.steps(), path.steps())
}

// Whether the entry is before the path, or at it or below.
fn stands_before_end<X: Drop>(entry: &Entry<X>, path: &Path) -> bool
    ensures { result ≡ (is_before entry.now.path path.now || is_below path.now entry.now.path) }
{
    is_before(entry.path.steps(), path.steps())
        || rest_behind(path.steps(), entry.path.steps()).is_some()
}

fn stands_at<X: Drop>(entry: &Entry<X>, path: &Path) -> bool
    ensures { result ≡ bytes_eq entry.now.path path.now }
{
    entry.path.steps() == path.steps()
}

// How many entries are before the path.
pub(crate) fn start_of<X: Drop>(entries: &[Entry<X>], path: &Path) -> usize
    requires { IsInOrder entries.now }
    ensures within { result ≤ length entries.now }
    ensures split { (i : ℕ) (x : Entry X) → slice_get entries.now i ≡ Some x
        → (i < result) ↔ IsBefore x.path path.now }
{
    entries.partition_point(|entry| stands_before(entry, path))
}

// How many entries are before the path, at it or below.
pub(crate) fn end_of<X: Drop>(entries: &[Entry<X>], path: &Path) -> usize
    requires { IsInOrder entries.now }
    ensures within { result ≤ length entries.now }
    ensures split { (i : ℕ) (x : Entry X) → slice_get entries.now i ≡ Some x
        → (i < result) ↔ (IsBefore x.path path.now ⊎ IsSome (rest_behind path.now x.path)) }
{
    entries.partition_point(|entry| stands_before_end(entry, path))
}

// The number of the entry at the path, if it is this one.
fn found_at<X: Drop>(entries: &[Entry<X>], path: &Path, number: usize) -> Option<usize>
    ensures { MatchOption result ((x : Entry X) → slice_get entries.now number ≡ Some x → x.path ≡ path.now → ⊥)
        (λ i. (i ≡ number) × IsAt path.now entries.now number) }
{
    let entry = entries.get(number)?;
    if stands_at(entry, path) {
        Some(number)
    } else {
        None
    }
}

// The number of the entry at the path. It mostly is the hint.
pub(crate) fn number_at<X: Drop>(entries: &[Entry<X>], path: &Path, hint: usize) -> Option<usize>
    requires { IsInOrder entries.now }
    ensures { MatchOption result (NoneAt path.now entries.now) (λ i. IsAt path.now entries.now i) }
{
    if let Some(number) = found_at(entries, path, hint) {
        return Some(number);
    }
    found_at(entries, path, start_of(entries, path))
}

/// Whether the entries are in order, as `PathMap::new` asks.
pub fn are_in_order<X: Drop>(entries: &[Entry<X>]) -> bool
    ensures { IsTrue result ↔ IsInOrder entries.now }
{
    for i in 1..entries.len() {
        let before = &entries[i - 1];
        if !stands_before(before, &entries[i].path) {
            return false;
        }
    }
    true
}
