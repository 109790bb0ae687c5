// Cached parts, found by their paths.
ghost use Rattle.std.specs.Prelude.{◌≡◌, true, None, MatchOption, IsTrue};
ghost use Rattle.std.specs.List.{IsDistinct};
ghost use Rattle.std.specs.Str.{bytes_eq};
ghost use Rattle.tx_walk.specs.Walked.{kept_in, paths_of};
ghost use Rattle.tx_walk.specs.Finding.{AreSortedByPath, IsKeptAt, side};

use crate::layer_traces::LayerTrace;
use crate::part::Part;
use std::cmp::Ordering;
use std::marker::Model;
use tx_tree::Path;

/// Cached parts, and whether their paths are known to be in order, as those of each walk are. Contracts see the parts.
#[derive(Drop)]
pub(crate) struct PriorParts<'a> {
    all: &'a [Part],
    sorted: bool,
}

impl<'a> Model for PriorParts<'a> {
    ghost use Rattle.std.specs.Prelude.{◌≡◌, true, List};
    ghost use Rattle.tx_walk.specs.declared.part.Part.{Part};
    ghost use Rattle.tx_walk.specs.Codes.{coded_Parts};
    ghost use Rattle.tx_walk.specs.Finding.{AreSortedByPath};

    ghost Value = { List Part };

    ghost coded = { coded_Parts };

    ghost view = { λ k. k.all.now };

    ghost invariant = { λ k. k.sorted ≡ true → AreSortedByPath k.all.now };
}

// How the part's path compares with this one.
fn side_of(part: &Part, path: &Path) -> Ordering
    ensures { result ≡ side path.now part.now }
{
    part.path.steps().cmp(path.steps())
}

// Whether the paths are in order.
fn are_sorted(parts: &[Part]) -> bool
    ensures { IsTrue result → AreSortedByPath parts.now }
{
    for i in 1..parts.len() {
        if side_of(&parts[i], &parts[i - 1].path).is_lt() {
            return false;
        }
    }
    true
}

// Whether the part is at the path.
fn stands_at(part: &Part, path: &Path) -> bool
    ensures { result ≡ bytes_eq part.now.path path.now }
{
    part.path.steps() == path.steps()
}

// The number of the part at this path, by going through all.
fn searched_number(kept: &[Part], path: &Path) -> Option<usize>
    ensures { MatchOption result (kept_in kept.now path.now ≡ None)
        (λ i. IsKeptAt kept.now path.now i) }
{
    for i in 0..kept.len() {
        if stands_at(&kept[i], path) {
            return Some(i);
        }
    }
    None
}

// The number of the part at this path, where paths are in order.
fn sorted_number(kept: &[Part], path: &Path) -> Option<usize>
    requires sorted { AreSortedByPath kept.now }
    requires distinct { IsDistinct bytes_eq (paths_of kept.now) }
    ensures { MatchOption result (kept_in kept.now path.now ≡ None)
        (λ i. IsKeptAt kept.now path.now i) }
{
    match kept.binary_search_by(|part| side_of(part, path)) {
        Ok(i) => Some(i),
        Err(_) => None,
    }
}

impl<'a> PriorParts<'a> {
    /// These parts.
    pub(crate) fn new(all: &'a [Part]) -> PriorParts<'a>
        ensures { result ≡ all.now }
    {
        let sorted = are_sorted(all);
        PriorParts { all, sorted }
    }

    /// All of them.
    pub(crate) fn all(&self) -> &'a [Part]
        ensures { result.now ≡ self.now }
    {
        self.all
    }

    // The number of the part at this path.
    fn number_at(&self, path: &Path) -> Option<usize>
        requires distinct { IsDistinct bytes_eq (paths_of self.now) }
        ensures { MatchOption result (kept_in self.now path.now ≡ None)
            (λ i. IsKeptAt self.now path.now i) }
    {
        if self.sorted {
            sorted_number(self.all, path)
        } else {
            searched_number(self.all, path)
        }
    }

    /// The number of the part at this path. It mostly is the hint.
    pub(crate) fn number_near(&self, path: &Path, hint: usize) -> Option<usize>
        requires distinct { IsDistinct bytes_eq (paths_of self.now) }
        ensures { MatchOption result (kept_in self.now path.now ≡ None)
            (λ i. IsKeptAt self.now path.now i) }
    {
        if let Some(part) = self.all().get(hint) {
            if stands_at(part, path) {
                return Some(hint);
            }
        }
        self.number_at(path)
    }
}

/// The cached parts and those of the spare, the cached traces of layers' trees and those of the spare.
#[derive(Drop)]
pub(crate) struct PriorStores<'a> {
    pub own: PriorParts<'a>,
    pub spare: PriorParts<'a>,
    pub layers: &'a [LayerTrace],
    pub spare_layers: &'a [LayerTrace],
}

impl<'a> PriorStores<'a> {
    /// These parts and layers' trees.
    pub(crate) fn new(
        own: &'a [Part],
        spare: &'a [Part],
        layers: &'a [LayerTrace],
        spare_layers: &'a [LayerTrace],
    ) -> PriorStores<'a>
        ensures own { result.own ≡ own.now }
        ensures spare { result.spare ≡ spare.now }
        ensures layers { result.layers.now ≡ layers.now }
        ensures spare_layers { result.spare_layers.now ≡ spare_layers.now }
    {
        PriorStores {
            own: PriorParts::new(own),
            spare: PriorParts::new(spare),
            layers,
            spare_layers,
        }
    }
}
