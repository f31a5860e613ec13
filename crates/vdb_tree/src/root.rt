//! The root table of a tree.

ghost use Rattle.std.specs.Prelude.{◌≡◌, ◌+◌, ◌≤◌, ℕ, List, Some, None, IfOk, OnOk, OnErr, if◌then◌else◌, is_some, IsSome, length};
ghost use Rattle.std.specs.Option.{option_map_or};
ghost use Rattle.std.specs.List.{IsDistinct};
ghost use Rattle.std.specs.Map.{keys_of};
ghost use Rattle.vdb_coord.specs.Space.{coord_eq};
ghost use Rattle.vdb_coord.specs.declared.Coord.{Coord};
ghost use Rattle.vdb_node.specs.declared.Entry.TheVariants.{Child, Tile};
ghost use Rattle.vdb_tree.specs.Layout.{root_at};
ghost use Rattle.vdb_tree.specs.Table.{IsNextEntry};

use std::alloc::{AllocError, Global};
use std::collections::BTreeMap;
use std::marker::Model;
use std::ops::Bound;
use vdb_coord::Coord;
use vdb_node::Entry;
use vdb_value::Cell;

/// Entries by the keys of their upper extents, in the order of keys (OpenVDB's `RootNode`).
#[derive(Drop)]
pub(crate) struct RootTable<V> {
    entries: BTreeMap<Coord, Entry<V>>,
}

impl<V> Model for RootTable<V> {
    ghost use Rattle.std.specs.Prelude.{List};
    ghost use Rattle.vdb_coord.specs.declared.Coord.{Coord};
    ghost use Rattle.vdb_node.specs.declared.Entry.{Entry};

    ghost Value = { List (Coord × Entry V) };

    ghost view = { λ r. r.entries.entries };
}

impl<V: Copy> RootTable<V> {
    /// Returns the table without entries. It takes no memory.
    pub(crate) fn new(alloc: Global) -> RootTable<V>
        ensures none { (k : Coord) → root_at result k ≡ None }
        ensures empty { length result ≡ 0 }
        ensures apart { IsDistinct coord_eq (keys_of result) }
    {
        RootTable {
            entries: BTreeMap::new(alloc),
        }
    }

    /// Returns the entry under a key.
    pub(crate) fn get(&self, key: Coord) -> Option<Entry<V>>
        ensures { result ≡ root_at self.now key }
    {
        self.entries.get(&key).copied()
    }

    /// Returns how many entries the table has.
    pub(crate) fn len(&self) -> usize
        ensures { result ≡ length self.now }
    {
        self.entries.len()
    }

    /// Returns the entry with the least key past `after`, or with the least of all without `after`, behind its key.
    pub(crate) fn next_entry(&self, after: Option<Coord>) -> Option<(Coord, Entry<V>)>
        ensures { IsNextEntry self.now after result }
    {
        match after {
            Some(key) => self.entry_after(key),
            None => self.first_entry(),
        }
    }

    fn first_entry(&self) -> Option<(Coord, Entry<V>)>
        ensures { IsNextEntry self.now None result }
    {
        match self
            .entries
            .range((Bound::<Coord>::Unbounded, Bound::Unbounded))
            .next()
        {
            Some((key, entry)) => Some((*key, *entry)),
            None => None,
        }
    }

    fn entry_after(&self, after: Coord) -> Option<(Coord, Entry<V>)>
        ensures { IsNextEntry self.now (Some after) result }
    {
        match self
            .entries
            .range((Bound::Excluded(after), Bound::Unbounded))
            .next()
        {
            Some((key, entry)) => Some((*key, *entry)),
            None => None,
        }
    }

    /// Gives a key this entry, if it has none. The error is an allocation failure; it never occurs if the key has an entry.
    pub(crate) fn enter(&mut self, key: Coord, entry: Entry<V>) -> Result<(), AllocError>
        ensures ok { OnOk result ((k : Coord) → root_at self.new k ≡ (if coord_eq key k then Some (option_map_or (λ e. e) (root_at self.old key) entry) else root_at self.old k)) }
        ensures size { OnOk result (length self.new ≤ length self.old + (if is_some (root_at self.old key) then 0 else 1)) }
        ensures apart { OnOk result (IsDistinct coord_eq (keys_of self.new)) }
        ensures err { OnErr result (self.new ≡ self.old) }
    {
        self.entries.entry(key)?.or_insert(entry);
        Ok(())
    }

    /// Returns a separate table with the same entries.
    pub(crate) fn try_copy(&self, alloc: Global) -> Result<RootTable<V>, AllocError>
        ensures entries { IfOk result (λ copy. (k : Coord) → root_at copy k ≡ root_at self.now k) }
        ensures size { IfOk result (λ copy. length copy ≤ length self.now) }
        ensures apart { IfOk result (λ copy. IsDistinct coord_eq (keys_of copy)) }
    {
        let mut copy = RootTable::new(alloc);
        let mut passed = None;
        while let Some((key, entry)) = self.next_entry(passed) {
            copy.enter(key, entry)?;
            passed = Some(key);
        }
        Ok(copy)
    }

    /// Changes the entry under a key that has one.
    pub(crate) fn set(&mut self, key: Coord, entry: Entry<V>)
        requires { IsSome (root_at self.old key) }
        ensures updates { (k : Coord) → root_at self.new k ≡ (if coord_eq key k then Some entry else root_at self.old k) }
        ensures size { length self.new ≡ length self.old }
        ensures apart { IsDistinct coord_eq (keys_of self.new) }
    {
        let Ok(_) = self.entries.insert(key, entry) else {
            unreachable!()
        };
    }

    /// Replaces the tile under a key by another tile. A child stays. Returns the entry that was there.
    pub(crate) fn set_tile(&mut self, key: Coord, cell: Cell<V>) -> Entry<V>
        requires { IsSome (root_at self.old key) }
        ensures was { root_at self.old key ≡ Some result }
        ensures child { (slot : ℕ) → result ≡ Child slot → self.new ≡ self.old }
        ensures tile { (tile : Cell V) → result ≡ Tile tile → (k : Coord) → root_at self.new k ≡ (if coord_eq key k then Some (Tile cell) else root_at self.old k) }
        ensures size { length self.new ≡ length self.old }
        ensures apart { IsDistinct coord_eq (keys_of self.new) }
    {
        let Some(entry) = self.entries.get_mut(&key) else {
            unreachable!()
        };
        let was = *entry;
        if let Entry::Child(_) = was {
            return was;
        }
        *entry = Entry::Tile(cell);
        was
    }

    /// Removes the entry under a key, if there is one.
    pub(crate) fn remove(&mut self, key: Coord)
        ensures updates { (k : Coord) → root_at self.new k ≡ (if coord_eq key k then None else root_at self.old k) }
        ensures size { length self.new ≤ length self.old }
        ensures apart { IsDistinct coord_eq (keys_of self.new) }
    {
        self.entries.remove(&key);
    }
}
