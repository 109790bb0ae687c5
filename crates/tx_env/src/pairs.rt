// A list of names with what they have, found by hashing.
ghost use Rattle.std.specs.Prelude.{◌≡◌, [], MatchOption, OnOk, OnErr, IfOk, None, Some, is_some, IsSome};
ghost use Rattle.std.specs.List.{IsDistinct};
ghost use Rattle.std.specs.Map.{keys_of};
ghost use Rattle.std.specs.Str.{bytes_eq};
ghost use Rattle.tx_env.specs.Pairs.{find, listed, put};

use crate::name_hash::NameHash;
use indexmap::IndexMap;
use std::alloc::Global;
use std::marker::Model;
use tx_base::Memory;
use tx_tree::{Text, Tree};

/// What names have: a tree, or nothing. A name is found by one hash of its bytes.
///
/// Contracts see a list of pairs, in the order in which the names first came.
#[derive(Drop)]
pub struct Pairs {
    map: IndexMap<Text, Option<Tree>, NameHash>,
}

impl Model for Pairs {
    ghost use Rattle.std.specs.Prelude.{List, ℕ, Option};
    ghost use Rattle.tx_tree.specs.WideTree.{WideTree};
    ghost use Rattle.tx_env.specs.Pairs.{coded_Pairs};

    ghost Value = { List (List ℕ × Option WideTree) };

    ghost coded = { coded_Pairs };

    ghost view = { λ p. p.map.entries };
}

impl Pairs {
    /// No names. It takes no memory until the first.
    pub fn new(alloc: Global) -> Pairs
        ensures { result ≡ [] }
    {
        Pairs {
            map: IndexMap::with_hasher(alloc, NameHash::new()),
        }
    }

    /// What the name has, or None where it has nothing.
    pub fn get(&self, name: &Text) -> Option<&Tree>
        ensures { MatchOption result (find name.now self.now ≡ None) (λ t. find name.now self.now ≡ Some t.now) }
    {
        match self.map.get(name) {
            None => None,
            Some(value) => value.as_ref(),
        }
    }

    /// Whether the name is listed, also where it has nothing.
    pub fn lists(&self, name: &Text) -> bool
        ensures { result ≡ is_some (listed name.now self.now) }
    {
        self.map.contains_key(name)
    }

    /// Puts this at the name. When out of memory nothing changes.
    pub fn put(&mut self, name: Text, value: Option<Tree>) -> Result<(), Memory>
        ensures ok { OnOk result (self.new ≡ put name value self.old) }
        ensures err { OnErr result (self.new ≡ self.old) }
    {
        if self.map.len() == self.map.capacity() {
            self.grow()?;
        }
        let _before = self.map.insert(name, value)?;
        Ok(())
    }

    // Makes room for as many pairs more, and hashes all names by a key that is made from them.
    fn grow(&mut self) -> Result<(), Memory>
        ensures { self.new ≡ self.old }
    {
        let room = (2 * self.map.len()).max(1);
        let hash = NameHash::of_names(&self.map);
        let mut map = IndexMap::with_capacity_and_hasher(*self.map.allocator(), room, hash)?;
        map.append(&mut self.map)?;
        self.map = map;
        Ok(())
    }

    /// Puts this at a name that is listed. It takes no memory.
    pub fn put_back(&mut self, name: Text, value: Option<Tree>)
        requires { IsSome (listed name self.old) }
        ensures { self.new ≡ put name value self.old }
    {
        match self.map.insert(name, value) {
            Ok(_) => (),
            Err(_) => unreachable!(),
        }
    }

    /// All pairs, each name once, in the order in which the names first came.
    #[tactic(auto, using(crate::proofs::Listing::listed_next))]
    pub fn into_vec(self, alloc: Global) -> Result<Vec<(Text, Option<Tree>)>, Memory>
        ensures all { IfOk result (λ v. v.items ≡ self) }
        ensures once { IsDistinct bytes_eq (keys_of self) }
    {
        let mut pairs = Vec::new(alloc);
        for pair in self.map {
            pairs.push(pair)?;
        }
        Ok(pairs)
    }
}
