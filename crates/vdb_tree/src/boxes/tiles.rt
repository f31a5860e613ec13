//! Tiles in place of nodes and of other tiles. A node goes back to its pool once its block has only tiles, so the tree is sound
//! after each step.

ghost use Rattle.std.specs.Prelude.{◌≡◌, ◌+◌, ◌<◌, ◌≤◌, ℕ, IfSome, IsSome, Some, if◌then◌else◌};
ghost use Rattle.vdb_coord.specs.Blocks.{block_number, key};
ghost use Rattle.vdb_coord.specs.Space.{coord_eq};
ghost use Rattle.vdb_coord.specs.declared.Coord.{Coord};
ghost use Rattle.vdb_coord.specs.declared.Level.TheVariants.{Leaf, Lower, Upper};
ghost use Rattle.vdb_node.specs.Nodes.{entry_count};
ghost use Rattle.vdb_node.specs.declared.Entry.TheVariants.{Child, Tile};
ghost use Rattle.vdb_tree.specs.Changes.{Fills, KeepsBeyond, KeepsUppers, Turns};
ghost use Rattle.vdb_tree.specs.internal.Children.{ClearsFrom};
ghost use Rattle.vdb_tree.specs.Layout.{bits_of, lower_entry, root_at, root_entry, upper_entry};

use crate::TreeOf;
use crate::nodes::held_place;
use vdb_coord::{Coord, Level};
use vdb_node::{Entry, Stored};
use vdb_pool::Steps;
use vdb_value::Cell;

impl<
    V: Stored<WU> + Stored<WL> + Stored<WF>,
    const U: u32,
    const L: u32,
    const F: u32,
    const WU: usize,
    const WL: usize,
    const WF: usize,
> TreeOf<V, U, L, F, WU, WL, WF> {
    /// Collapses the leaf around p into a tile.
    pub(crate) fn drop_leaf(
        &mut self,
        lower: u32,
        leaf: u32,
        p: Coord,
        cell: Cell<V>,
        steps: &mut Steps,
    )
        requires lower { upper_entry (bits_of U L F) self.old p ≡ Child lower }
        requires leaf { lower_entry (bits_of U L F) self.old p ≡ Child leaf }
        ensures fills { Fills (bits_of U L F) Leaf self.old self.new p cell }
        ensures above { KeepsUppers self.old self.new }
        ensures entries { Turns (block_number (bits_of U L F) Leaf) p (lower_entry (bits_of U L F) self.old) (lower_entry (bits_of U L F) self.new) (Tile cell) }
        ensures steps { steps.new ≤ steps.old + 2 }
    {
        let offset = self.offset(p, Level::Lower);
        self.swept = false;
        let from = held_place(&self.leaves, leaf);
        let _ = self.leaves.take(from, steps);
        let place = held_place(&self.lowers, lower);
        self.lowers.at_mut(place, steps).set_tile(offset, cell);
    }

    /// Makes the leaf extent around p a tile.
    pub(crate) fn fill_leaf(&mut self, lower: u32, p: Coord, cell: Cell<V>, steps: &mut Steps)
        requires { upper_entry (bits_of U L F) self.old p ≡ Child lower }
        ensures fills { Fills (bits_of U L F) Leaf self.old self.new p cell }
        ensures above { KeepsUppers self.old self.new }
        ensures entries { Turns (block_number (bits_of U L F) Leaf) p (lower_entry (bits_of U L F) self.old) (lower_entry (bits_of U L F) self.new) (Tile cell) }
        ensures steps { steps.new ≤ steps.old + 3 }
    {
        match self.lower_entry(lower, p, steps) {
            Entry::Child(leaf) => self.drop_leaf(lower, leaf, p, cell, steps),
            Entry::Tile(_) => self.set_lower_tile(lower, p, cell, steps),
        }
    }

    /// Replaces p's tile in a lower node by another tile.
    pub(crate) fn set_lower_tile(&mut self, lower: u32, p: Coord, cell: Cell<V>, steps: &mut Steps)
        requires lower { upper_entry (bits_of U L F) self.old p ≡ Child lower }
        requires tiled { (tile : Cell V) × (lower_entry (bits_of U L F) self.old p ≡ Tile tile) }
        ensures fills { Fills (bits_of U L F) Leaf self.old self.new p cell }
        ensures above { KeepsUppers self.old self.new }
        ensures entries { Turns (block_number (bits_of U L F) Leaf) p (lower_entry (bits_of U L F) self.old) (lower_entry (bits_of U L F) self.new) (Tile cell) }
        ensures steps { steps.new ≤ steps.old + 1 }
    {
        let offset = self.offset(p, Level::Lower);
        self.swept = false;
        let place = held_place(&self.lowers, lower);
        self.lowers.at_mut(place, steps).set_tile(offset, cell);
    }

    /// Replaces p's tile in an upper node by another tile.
    pub(crate) fn set_upper_tile(&mut self, upper: u32, p: Coord, cell: Cell<V>, steps: &mut Steps)
        requires upper { root_entry (bits_of U L F) self.old p ≡ Child upper }
        requires tiled { (tile : Cell V) × (upper_entry (bits_of U L F) self.old p ≡ Tile tile) }
        ensures fills { Fills (bits_of U L F) Lower self.old self.new p cell }
        ensures root { self.new.root ≡ self.old.root }
        ensures uppers { Turns (block_number (bits_of U L F) Lower) p (upper_entry (bits_of U L F) self.old) (upper_entry (bits_of U L F) self.new) (Tile cell) }
        ensures lowers { Turns (block_number (bits_of U L F) Lower) p (lower_entry (bits_of U L F) self.old) (lower_entry (bits_of U L F) self.new) (Tile cell) }
    {
        let offset = self.offset(p, Level::Upper);
        self.swept = false;
        let place = held_place(&self.uppers, upper);
        self.uppers.at_mut(place, steps).set_tile(offset, cell);
    }

    /// Replaces the tile under p's key by another tile. A child stays. Returns the entry that was there.
    pub(crate) fn paint_root_tile(&mut self, p: Coord, cell: Cell<V>) -> Entry<V>
        requires { IsSome (root_at self.old.root (key (bits_of U L F) p)) }
        ensures was { root_entry (bits_of U L F) self.old p ≡ result }
        ensures child { (slot : ℕ) → result ≡ Child slot → self.new ≡ self.old }
        ensures fills { (tile : Cell V) → result ≡ Tile tile → Fills (bits_of U L F) Upper self.old self.new p cell }
        ensures table { (tile : Cell V) → result ≡ Tile tile → (k : Coord) → root_at self.new.root k ≡ (if coord_eq (key (bits_of U L F) p) k then Some (Tile cell) else root_at self.old.root k) }
        ensures uppers { (tile : Cell V) → result ≡ Tile tile → Turns (block_number (bits_of U L F) Upper) p (upper_entry (bits_of U L F) self.old) (upper_entry (bits_of U L F) self.new) (Tile cell) }
        ensures lowers { (tile : Cell V) → result ≡ Tile tile → Turns (block_number (bits_of U L F) Upper) p (lower_entry (bits_of U L F) self.old) (lower_entry (bits_of U L F) self.new) (Tile cell) }
    {
        let key = self.key(p);
        let was = self.root.set_tile(key, cell);
        if let Entry::Child(_) = was {
            return was;
        }
        self.swept = false;
        was
    }

    /// Collapses the lower node around p, which has no leaves, into a tile.
    pub(crate) fn drop_lower(
        &mut self,
        upper: u32,
        lower: u32,
        p: Coord,
        cell: Cell<V>,
        steps: &mut Steps,
    )
        requires upper { root_entry (bits_of U L F) self.old p ≡ Child upper }
        requires lower { upper_entry (bits_of U L F) self.old p ≡ Child lower }
        requires childless { (q : Coord) (slot : ℕ) → block_number (bits_of U L F) Lower q ≡ block_number (bits_of U L F) Lower p → lower_entry (bits_of U L F) self.old q ≡ Child slot → ⊥ }
        ensures fills { Fills (bits_of U L F) Lower self.old self.new p cell }
        ensures root { self.new.root ≡ self.old.root }
        ensures uppers { Turns (block_number (bits_of U L F) Lower) p (upper_entry (bits_of U L F) self.old) (upper_entry (bits_of U L F) self.new) (Tile cell) }
        ensures lowers { Turns (block_number (bits_of U L F) Lower) p (lower_entry (bits_of U L F) self.old) (lower_entry (bits_of U L F) self.new) (Tile cell) }
    {
        let offset = self.offset(p, Level::Upper);
        self.swept = false;
        let from = held_place(&self.lowers, lower);
        let _ = self.lowers.take(from, steps);
        let place = held_place(&self.uppers, upper);
        self.uppers.at_mut(place, steps).set_tile(offset, cell);
    }

    /// Collapses the upper node around p, which has no lower nodes, into a tile.
    pub(crate) fn drop_upper(&mut self, upper: u32, p: Coord, cell: Cell<V>, steps: &mut Steps)
        requires upper { root_entry (bits_of U L F) self.old p ≡ Child upper }
        requires childless { (q : Coord) (slot : ℕ) → block_number (bits_of U L F) Upper q ≡ block_number (bits_of U L F) Upper p → upper_entry (bits_of U L F) self.old q ≡ Child slot → ⊥ }
        ensures fills { Fills (bits_of U L F) Upper self.old self.new p cell }
        ensures table { (k : Coord) → root_at self.new.root k ≡ (if coord_eq (key (bits_of U L F) p) k then Some (Tile cell) else root_at self.old.root k) }
        ensures uppers { Turns (block_number (bits_of U L F) Upper) p (upper_entry (bits_of U L F) self.old) (upper_entry (bits_of U L F) self.new) (Tile cell) }
        ensures lowers { Turns (block_number (bits_of U L F) Upper) p (lower_entry (bits_of U L F) self.old) (lower_entry (bits_of U L F) self.new) (Tile cell) }
    {
        let key = p.key_in(self.bits());
        self.swept = false;
        let from = held_place(&self.uppers, upper);
        let _ = self.uppers.take(from, steps);
        self.root.set(key, Entry::Tile(cell));
    }

    /// Collapses each leaf of the lower node around p into a tile. It goes from leaf to leaf by the node's child mask.
    pub(crate) fn drop_leaves(&mut self, lower: u32, p: Coord, cell: Cell<V>, steps: &mut Steps)
        requires { upper_entry (bits_of U L F) self.old p ≡ Child lower }
        ensures above { KeepsUppers self.old self.new }
        ensures beyond { KeepsBeyond (bits_of U L F) Lower self.old self.new p }
        ensures childless { (q : Coord) (slot : ℕ) → block_number (bits_of U L F) Lower q ≡ block_number (bits_of U L F) Lower p → lower_entry (bits_of U L F) self.new q ≡ Child slot → ⊥ }
    {
        let mut from = 0;
        while let Some(next) = self.drop_next_leaf(lower, p, cell, from, steps) {
            from = next;
        }
    }

    /// Collapses the first leaf of the lower node around p from this offset on into a tile. Returns the offset after it.
    fn drop_next_leaf(
        &mut self,
        lower: u32,
        p: Coord,
        cell: Cell<V>,
        from: u32,
        steps: &mut Steps,
    ) -> Option<u32>
        requires lower { upper_entry (bits_of U L F) self.old p ≡ Child lower }
        requires within { from ≤ entry_count L }
        ensures above { KeepsUppers self.old self.new }
        ensures beyond { KeepsBeyond (bits_of U L F) Lower self.old self.new p }
        ensures clears { ClearsFrom (bits_of U L F) Lower p (lower_entry (bits_of U L F) self.old) (lower_entry (bits_of U L F) self.new) from result }
        ensures further { IfSome result (λ next. (from < next) × (next ≤ entry_count L)) }
    {
        let Some((offset, corner)) = self.next_leaf_corner(lower, p, from, steps) else {
            return None;
        };
        let leaf = match self.lower_entry(lower, corner, steps) {
            Entry::Child(leaf) => leaf,
            Entry::Tile(_) => unreachable!(),
        };
        self.drop_leaf(lower, leaf, corner, cell, steps);
        Some(offset + 1)
    }

    /// Collapses each lower node of the upper node around p into a tile, after it gives the leaves of each back.
    pub(crate) fn drop_lowers(&mut self, upper: u32, p: Coord, cell: Cell<V>, steps: &mut Steps)
        requires { root_entry (bits_of U L F) self.old p ≡ Child upper }
        ensures root { self.new.root ≡ self.old.root }
        ensures beyond { KeepsBeyond (bits_of U L F) Upper self.old self.new p }
        ensures childless { (q : Coord) (slot : ℕ) → block_number (bits_of U L F) Upper q ≡ block_number (bits_of U L F) Upper p → upper_entry (bits_of U L F) self.new q ≡ Child slot → ⊥ }
    {
        let mut from = 0;
        while let Some(next) = self.drop_next_lower(upper, p, cell, from, steps) {
            from = next;
        }
    }

    /// Collapses the first lower node of the upper node around p from this offset on into a tile. Returns the offset after it.
    fn drop_next_lower(
        &mut self,
        upper: u32,
        p: Coord,
        cell: Cell<V>,
        from: u32,
        steps: &mut Steps,
    ) -> Option<u32>
        requires upper { root_entry (bits_of U L F) self.old p ≡ Child upper }
        requires within { from ≤ entry_count U }
        ensures root { self.new.root ≡ self.old.root }
        ensures beyond { KeepsBeyond (bits_of U L F) Upper self.old self.new p }
        ensures clears { ClearsFrom (bits_of U L F) Upper p (upper_entry (bits_of U L F) self.old) (upper_entry (bits_of U L F) self.new) from result }
        ensures further { IfSome result (λ next. (from < next) × (next ≤ entry_count U)) }
    {
        let Some((offset, corner)) = self.next_lower_corner(upper, p, from, steps) else {
            return None;
        };
        let lower = match self.upper_entry(upper, corner, steps) {
            Entry::Child(lower) => lower,
            Entry::Tile(_) => unreachable!(),
        };
        self.drop_leaves(lower, corner, cell, steps);
        self.drop_lower(upper, lower, corner, cell, steps);
        Some(offset + 1)
    }
}
