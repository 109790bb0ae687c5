// What holds of all words and files.
ghost use Rattle.std.specs.Prelude.{◌≡◌, ℕ, List, Some};
ghost use Rattle.tx_outside.specs.Files.{Files};
ghost use Rattle.tx_open.specs.Loads.{StoreIsAsked};
ghost use Rattle.tx_open.specs.Outcomes.{ComesTo, IsCaused, IsDecided, OpenOutcome};

use tx_outside::Store;
use tx_words::one_asking;

/// A law: words and files have one outcome, apart from faults of the store and running out of memory.
pub fn one_outcome()
    ensures { (words : List (List ℕ)) (told : Files) (o p : OpenOutcome) → ComesTo words (Some told) o
        → ComesTo words (Some told) p → IsDecided o → IsDecided p → o ≡ p }
{
    one_asking();
}

/// A law: what is asked of a store for words has its faults counted. Where the store is blamed, its count rose over all
/// loads.
pub fn loads_are_counted<S: Store>()
    ensures { (words : List (List ℕ)) (o : OpenOutcome) (old new : S)
        → StoreIsAsked S.load_leaves S.seen words o old new → IsCaused (S.seen old) (S.seen new) o }
{}
