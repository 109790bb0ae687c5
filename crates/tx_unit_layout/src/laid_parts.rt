// The layouts of the parts of a unit.
ghost use Rattle.std.specs.Prelude.{◌≡◌, ◌++◌, ◌+◌, ◌<◌, ◌≤◌, [], ◌∷◌, List, take, drop, length, map, option_map};
ghost use Rattle.std.specs.Prelude.{slice_index_or, slice_set, All, IfOk, OnOk, OnErr, IsTrue, IsFalse, MatchOption};
ghost use Rattle.std.specs.Prelude.{not};
ghost use Rattle.std.specs.List.{cons_option, filter};
ghost use Rattle.tx_layout.specs.Paging.{Unmarked};
ghost use Rattle.tx_part_layout.specs.declared.laid.PlacedPart.{PlacedPart as Placed};
ghost use Rattle.tx_part_layout.specs.LaidParts.{placed_lines, put_to};
ghost use Rattle.tx_bridge.specs.InPlace.{begins_path};
ghost use Rattle.tx_unit_layout.specs.Moving.{wide_part, put_at, put_along};

use std::alloc::Global;
use std::marker::Model;
use std::mem;
use tx_base::Memory;
use tx_part_layout::PlacedPart;
use tx_tree::Path;

/// The layouts of the parts of a unit, in order. Contracts see their list.
#[derive(Drop)]
pub struct LaidParts {
    all: Vec<PlacedPart>,
    // Whether a line of one of them may end its page.
    marked: bool,
}

impl Model for LaidParts {
    ghost use Rattle.std.specs.Prelude.{◌≡◌, false, All, List};
    ghost use Rattle.tx_layout.specs.Paging.{Unmarked};
    ghost use Rattle.tx_part_layout.specs.declared.laid.PlacedPart.{PlacedPart};
    ghost use Rattle.tx_part_layout.specs.LaidParts.{placed_lines};
    ghost use Rattle.tx_unit_layout.specs.Codes.{coded_placed_parts};

    ghost Value = { List PlacedPart };

    ghost coded = { coded_placed_parts };

    ghost view = { λ l. l.all.items };

    ghost invariant = { λ l. l.marked ≡ false → All Unmarked (placed_lines l.all.items) };
}

// Whether a line of one of the parts may end its page.
fn are_marked(parts: &[PlacedPart]) -> bool
    ensures { IsFalse result → All Unmarked (placed_lines parts.now) }
{
    for part in parts {
        if part.brief.marked {
            return true;
        }
    }
    false
}

// The part at another path.
fn at_path(alloc: Global, part: &PlacedPart, path: &Path) -> Result<PlacedPart, Memory>
    ensures { IfOk result (λ p. wide_part p ≡ put_at path.now part.now) }
{
    part.at(path.copy(alloc)?)
}

// The new place of the part of number i, if the first of these places from number k on is for it.
fn taken(places: &mut [(usize, Option<Path>)], k: usize, i: usize) -> Option<Option<Path>>
    ensures { MatchOption result ((places.new ≡ places.old) × ((p : Placed) (ps : List Placed)
        → put_along i (drop k places.new) (p ∷ ps) ≡ p ∷ put_along (i + 1) (drop k places.new) ps))
        (λ o. (k < length places.old) × ((p : Placed) (ps : List Placed) → put_along i (drop k places.old) (p ∷ ps)
        ≡ cons_option (option_map (λ path. put_to path p) o) (put_along (i + 1) (drop (k + 1) places.new) ps))) }
{
    if k < places.len() && places[k].0 == i {
        return Some(places[k].1.take());
    }
    None
}

// The part of number i moves down to the number `at`.
fn move_down(parts: &mut [PlacedPart], at: usize, i: usize)
    requires order { at ≤ i }
    requires there { i < length parts.old }
    ensures front { (d : Placed) → take (at + 1) parts.new ≡ take at parts.old ++ slice_index_or parts.old i d ∷ [] }
    ensures back { drop (i + 1) parts.new ≡ drop (i + 1) parts.old }
    ensures long { length parts.new ≡ length parts.old }
{
    if at < i {
        parts.swap(at, i);
    }
}

// Moves the part of number i to another path.
fn set_path(parts: &mut [PlacedPart], i: usize, path: Path)
    requires there { i < length parts.old }
    ensures put { (d : Placed) → parts.new ≡ slice_set parts.old i (put_to path (slice_index_or parts.old i d)) }
    ensures long { length parts.new ≡ length parts.old }
{
    parts[i].put(path);
}

// Takes one part more: moves it down to the number `at`, at its path or at another one, or drops it. Returns the next
// such number, and the number of the next place.
fn put_next(
    parts: &mut [PlacedPart],
    places: &mut [(usize, Option<Path>)],
    i: usize,
    at: usize,
    k: usize,
) -> (usize, usize)
    requires there { i < length parts.old }
    requires order { at ≤ i }
    ensures same { take result.0 parts.new ++ put_along (i + 1) (drop result.1 places.new) (drop (i + 1) parts.new)
        ≡ take at parts.old ++ put_along i (drop k places.old) (drop i parts.old) }
    ensures order { result.0 ≤ i + 1 }
    ensures long { length parts.new ≡ length parts.old }
{
    match taken(places, k, i) {
        None => {
            move_down(parts, at, i);
            (at + 1, k)
        }
        Some(None) => (at, k + 1),
        Some(Some(path)) => {
            set_path(parts, i, path);
            move_down(parts, at, i);
            (at + 1, k + 1)
        }
    }
}

// Moves the parts of these numbers to these places, or drops them. Of the parts before the first one no memory is read.
fn put_all(parts: &mut Vec<PlacedPart>, places: Vec<(usize, Option<Path>)>)
    ensures { parts.new.items ≡ put_along 0 places.items parts.old.items }
{
    let mut places = places;
    let mut at = 0;
    let mut k = 0;
    for i in 0..parts.len() {
        let (next_at, next_k) = put_next(parts, &mut places, i, at, k);
        at = next_at;
        k = next_k;
    }
    parts.truncate(at);
}

// The path begins with that of the part.
fn is_front(part: &PlacedPart, path: &Path) -> bool
    ensures { result ≡ begins_path part.now.path path.now }
{
    path.steps().starts_with(part.path.steps())
}

// Drops the parts whose path this one begins with.
fn drop_fronts(all: &mut Vec<PlacedPart>, path: &Path)
    ensures { all.new.items ≡ filter (λ p. not (begins_path p.path path.now)) all.old.items }
{
    all.retain(|part| !is_front(part, path));
}

impl LaidParts {
    /// Of no part.
    pub fn none(alloc: Global) -> LaidParts
        ensures { result ≡ [] }
    {
        LaidParts {
            all: Vec::new(alloc),
            marked: false,
        }
    }

    /// These.
    pub fn new(all: Vec<PlacedPart>) -> LaidParts
        ensures { result ≡ all.items }
    {
        let marked = are_marked(&all);
        LaidParts { all, marked }
    }

    /// These, of which nothing is known.
    pub fn unread(all: Vec<PlacedPart>) -> LaidParts
        ensures { result ≡ all.items }
    {
        LaidParts { all, marked: true }
    }

    /// They are taken out.
    pub fn take(&mut self, alloc: Global) -> Vec<PlacedPart>
        ensures taken { result.items ≡ self.old }
        ensures left { self.new ≡ [] }
    {
        self.marked = false;
        mem::replace(&mut self.all, Vec::new(alloc))
    }

    /// All of them.
    pub fn all(&self) -> &[PlacedPart]
        ensures { result.now ≡ self.now }
    {
        &self.all
    }

    /// No line of any of them ends its page. False says nothing.
    pub fn is_unmarked(&self) -> bool
        ensures { IsTrue result → All Unmarked (placed_lines self.now) }
    {
        !self.marked
    }

    /// Drops all of them.
    pub fn forget(&mut self)
        ensures { self.new ≡ [] }
    {
        self.all.clear();
        self.marked = false;
    }

    /// Drops those whose path this one begins with.
    pub fn drop_fronts(&mut self, path: &Path)
        ensures { self.new ≡ filter (λ p. not (begins_path p.path path.now)) self.old }
    {
        self.marked = true;
        drop_fronts(&mut self.all, path);
    }

    /// Adds one more, with what is shown of this part, at this path. Nothing is laid out. When memory runs out, nothing
    /// changes.
    pub fn add(&mut self, alloc: Global, part: &PlacedPart, path: &Path) -> Result<(), Memory>
        ensures added { OnOk result
            (map wide_part self.new ≡ map wide_part self.old ++ put_at path.now part.now ∷ []) }
        ensures refused { OnErr result (self.new ≡ self.old) }
    {
        let own = at_path(alloc, part, path)?;
        self.marked = true;
        self.all.push(own)?;
        Ok(())
    }

    /// Moves the parts of these numbers, which are in order, to these places. One without a place is dropped, and each
    /// other one is unchanged. Nothing is laid out, nor copied, and it takes no memory.
    pub fn put(&mut self, places: Vec<(usize, Option<Path>)>)
        ensures { self.new ≡ put_along 0 places.items self.old }
    {
        self.marked = true;
        put_all(&mut self.all, places);
    }
}
