//! The metadata pairs of a grid: texts under keys.
ghost use Rattle.std.specs.Prelude.{◌≡◌, ◌≤◌, ◌<◌, [], Some, length, IfOk};
ghost use Rattle.std.specs.List.{slice_get};
ghost use Rattle.std.specs.Map.Iter.{deref_pair};
ghost use Rattle.vdb_scene.specs.Metas.{HasRisingKeys, SetsPair, without_pair};

use crate::{MetaText, Name, Refusal};
use std::alloc::{AllocError, Global};
use std::collections::BTreeMap;
use std::marker::Model;

/// The maximum number of metadata pairs of a grid.
pub const META_LIMIT: usize = 16;

/// The metadata pairs of one grid: at most `META_LIMIT` texts under keys, by rising bytes of the keys.
#[derive(Drop)]
pub struct Metas {
    pairs: BTreeMap<Name, MetaText>,
}

impl Model for Metas {
    ghost use Rattle.std.specs.Prelude.{◌≤◌, length};
    ghost use Rattle.vdb_scene.specs.Metas.{HasRisingKeys, Pairs};

    ghost Value = { Pairs };

    ghost view = { λ m. m.pairs.entries };

    ghost invariant = { λ m. (length m.pairs.entries ≤ 16) × HasRisingKeys m.pairs.entries };
}

impl Metas {
    /// Creates an empty list of pairs. Allocates nothing.
    pub fn new(alloc: Global) -> Metas
        ensures { result ≡ [] }
    {
        Metas {
            pairs: BTreeMap::new(alloc),
        }
    }

    /// Returns the number of pairs, at most `META_LIMIT`.
    pub fn len(&self) -> usize
        ensures pairs { result ≡ length self.now }
        ensures few { length self.now ≤ META_LIMIT }
    {
        self.pairs.len()
    }

    /// Returns pair `i` by rising keys, counted from 0. `i` must be less than the number of pairs.
    pub fn pair(&self, i: usize) -> (&Name, &MetaText)
        requires { i < length self.now }
        ensures pair { slice_get self.now i ≡ Some (deref_pair result) }
        ensures rising { HasRisingKeys self.now }
    {
        match self.pairs.iter().nth(i) {
            Some(pair) => pair,
            None => unreachable!(),
        }
    }

    /// Sets the text of a key. An existing text is replaced, which allocates nothing.
    ///
    /// Fails with `MetaLimit` if the key is new and `META_LIMIT` pairs exist, and with `Memory` if the allocation for a new pair
    /// fails. An error leaves the pairs unchanged.
    pub fn set(&mut self, key: Name, text: MetaText) -> Result<(), Refusal>
        ensures { SetsPair self.old key text result self.new }
    {
        if self.pairs.len() >= META_LIMIT && !self.pairs.contains_key(&key) {
            return Err(Refusal::MetaLimit);
        }
        match self.pairs.insert(key, text) {
            Ok(_) => Ok(()),
            Err(_) => Err(Refusal::Memory),
        }
    }

    /// Removes the pair of a key. Changes nothing if no pair has it.
    pub fn remove(&mut self, key: &Name)
        ensures { self.new ≡ without_pair self.old key.now }
    {
        self.pairs.remove(key);
    }

    /// Returns a copy of the pairs. Fails if an allocation fails.
    pub fn try_copy(&self, alloc: Global) -> Result<Metas, AllocError>
        ensures { IfOk result (λ copy. copy ≡ self.now) }
    {
        let mut pairs = BTreeMap::new(alloc);
        for (key, text) in &self.pairs {
            pairs.insert(*key, *text)?;
        }
        Ok(Metas { pairs })
    }
}
