// How names are hashed.
ghost use Rattle.std.specs.Prelude.{◌≡◌};

use indexmap::IndexMap;
use std::hash::{BuildHasher, DefaultHasher, Hash, Hasher};
use tx_tree::{Text, Tree};

// SipHash with a key. A map of names draws a new key from the names that it has whenever it grows, so names can't be
// chosen to collide in every map.
#[derive(Clone, Copy)]
pub(crate) struct NameHash {
    begun: DefaultHasher,
}

impl NameHash {
    // With the key of no names.
    pub(crate) fn new() -> NameHash {
        NameHash {
            begun: DefaultHasher::new(),
        }
    }

    // With the key of these names.
    pub(crate) fn of_names(map: &IndexMap<Text, Option<Tree>, NameHash>) -> NameHash {
        let mut names = map.hasher().begun;
        for name in map.keys() {
            name.hash(&mut names);
        }
        let mut begun = DefaultHasher::new();
        begun.write_u64(names.finish());
        NameHash { begun }
    }
}

impl BuildHasher for NameHash {
    type Hasher = DefaultHasher;

    ghost build_hasher = { λ h. h.begun };

    fn build_hasher(&self) -> DefaultHasher {
        self.begun
    }
}
