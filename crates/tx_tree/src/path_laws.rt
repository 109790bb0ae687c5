// What holds of all spellings of paths.
ghost use Rattle.std.specs.Prelude.{◌≡◌, ◌≤◌, ◌<◌, ℕ, List, [], ◌∷◌, ◌++◌, length};
ghost use Rattle.std.specs.List.{AllByRecursion};
ghost use Rattle.tx_tree.specs.PathSpelling.{SpellsPath, path_text, place_text};

use crate::{MOST_NUMBER, MOST_STEPS};

/// A law: bytes spell at most one path. A path as it is printed spells that path, where it has at most 400 numbers, and
/// a place as it is printed spells its path with the offset after it.
pub fn path_law()
    ensures once { (bytes p q : List ℕ) → SpellsPath bytes p → SpellsPath bytes q → p ≡ q }
    ensures path { (path : List ℕ) → length path ≤ MOST_STEPS → AllByRecursion (λ n. n ≤ MOST_NUMBER) path →
        SpellsPath (path_text path) path }
    ensures place { (path : List ℕ) (o : ℕ) → length path < MOST_STEPS → AllByRecursion (λ n. n ≤ MOST_NUMBER) path →
        o ≤ MOST_NUMBER → SpellsPath (place_text path o) (path ++ o ∷ []) }
{}
