// Some elements of a list are replaced or dropped, and each other one is unchanged.
ghost use Rattle.std.specs.Prelude.{◌≡◌, ◌++◌, ◌+◌, ◌<◌, ◌≤◌, [], ◌∷◌, List, take, drop, length};
ghost use Rattle.std.specs.Prelude.{MatchOption, slice_index_or, slice_set};
ghost use Rattle.tx_walk.specs.declared.part.Part.{Part as DonePart};
ghost use Rattle.tx_bridge.specs.Others.{and_some, put_from};

use tx_walk::Part;

// What replaces the part of number i, if the first other from number k on is for it.
fn taken(others: &mut [(usize, Option<Part>)], k: usize, i: usize) -> Option<Option<Part>>
    ensures { MatchOption result ((others.new ≡ others.old) × ((q : DonePart) (qs : List DonePart)
        → put_from i (drop k others.new) (q ∷ qs) ≡ q ∷ put_from (i + 1) (drop k others.new) qs))
        (λ o. (k < length others.old) × ((q : DonePart) (qs : List DonePart)
        → put_from i (drop k others.old) (q ∷ qs) ≡ and_some o (put_from (i + 1) (drop (k + 1) others.new) qs))) }
{
    if k < others.len() && others[k].0 == i {
        return Some(others[k].1.take());
    }
    None
}

// The part of number i moves down to the number `at`.
fn move_down(parts: &mut [Part], at: usize, i: usize)
    requires order { at ≤ i }
    requires there { i < length parts.old }
    ensures front { (d : DonePart) → take (at + 1) parts.new ≡ take at parts.old ++ slice_index_or parts.old i d ∷ [] }
    ensures back { drop (i + 1) parts.new ≡ drop (i + 1) parts.old }
    ensures long { length parts.new ≡ length parts.old }
{
    if at < i {
        parts.swap(at, i);
    }
}

fn put_at(parts: &mut [Part], at: usize, part: Part)
    requires there { at < length parts.old }
    ensures { parts.new ≡ slice_set parts.old at part }
{
    parts[at] = part;
}

// Takes one part more: moves it down to the number `at`, or puts another one there, or none. Returns the next such
// number, and the number of the next other.
fn put_next(
    parts: &mut [Part],
    others: &mut [(usize, Option<Part>)],
    i: usize,
    at: usize,
    k: usize,
) -> (usize, usize)
    requires there { i < length parts.old }
    requires order { at ≤ i }
    ensures same { take result.0 parts.new ++ put_from (i + 1) (drop result.1 others.new) (drop (i + 1) parts.new)
        ≡ take at parts.old ++ put_from i (drop k others.old) (drop i parts.old) }
    ensures order { result.0 ≤ i + 1 }
    ensures long { length parts.new ≡ length parts.old }
{
    match taken(others, k, i) {
        None => {
            move_down(parts, at, i);
            (at + 1, k)
        }
        Some(None) => (at, k + 1),
        Some(Some(part)) => {
            put_at(parts, at, part);
            (at + 1, k + 1)
        }
    }
}

/// Puts the others in the places of the parts of these numbers, which are in order. Where an other is None, the part is
/// dropped. Memory of the parts before the first one is only read.
pub(crate) fn put_all(parts: &mut Vec<Part>, others: Vec<(usize, Option<Part>)>)
    ensures { parts.new.items ≡ put_from 0 others.items parts.old.items }
{
    let mut others = others;
    let mut at = 0;
    let mut k = 0;
    for i in 0..parts.len() {
        let (next_at, next_k) = put_next(parts, &mut others, i, at, k);
        at = next_at;
        k = next_k;
    }
    parts.truncate(at);
}
