//! The active voxels of a block, along the nodes over it: how many there are, and whether there is one.

ghost use Rattle.std.specs.Prelude.{◌≡◌, ◌<◌, ◌≤◌, ◌^◌, false, IsTrue};
ghost use Rattle.vdb_coord.specs.Blocks.{block_around, entries, sub_block};
ghost use Rattle.vdb_coord.specs.declared.Level.TheVariants.{Leaf as leaf_level, Lower, Upper};
ghost use Rattle.vdb_node.specs.declared.Entry.TheVariants.{Child, Tile};
ghost use Rattle.vdb_tree.specs.internal.Active.{IsCountTo, IsNextActive, HasActive, IsInactive};
ghost use Rattle.vdb_tree.specs.Layout.{bits_of, entry_over, field_of, lower_entry, root_entry, upper_entry};
ghost use Rattle.vdb_tree.specs.ConstantBlocks.{count as active_count};
ghost use Rattle.vdb_coord.specs.declared.Level.{Level};

use crate::TreeOf;
use crate::nodes::held_place;
use vdb_coord::{Coord, Level};
use vdb_node::{Entry, Stored};
use vdb_pool::Steps;
use vdb_value::Cell;

impl<
    V: Stored<WU> + Stored<WL> + Stored<WF>,
    const U: u32,
    const L: u32,
    const F: u32,
    const WU: usize,
    const WL: usize,
    const WF: usize,
> TreeOf<V, U, L, F, WU, WL, WF> {
    /// Returns how many voxels of the level's block around a coordinate are active (OpenVDB's `onVoxelCount` of a node). It
    /// counts an active tile at once, and a leaf by the words of its states. In an internal node the masks lead from one entry
    /// that may hold active voxels to the next. It takes no memory.
    pub fn active_in_block(&self, level: Level, p: Coord, steps: &mut Steps) -> u128
        ensures value { result ≡ active_count (field_of (bits_of U L F) self.now) (block_around (bits_of U L F) level p) }
        ensures bound { result ≤ 2 ^ 96 }
    {
        match level {
            Level::Upper => self.active_in_upper(self.root_entry(p), p, u128::MAX, steps),
            Level::Lower => {
                let entry = self.lower_block_entry(p, steps);
                self.active_in_lower(entry, p, u128::MAX, steps)
            }
            Level::Leaf => self.active_in_leaf(self.leaf_entry(p, steps), p, steps),
        }
    }

    /// Returns the entry of the upper node around p that holds p, or the tile above it.
    fn lower_block_entry(&self, p: Coord, steps: &mut Steps) -> Entry<V>
        ensures { upper_entry (bits_of U L F) self.now p ≡ result }
    {
        match self.root_entry(p) {
            Entry::Tile(cell) => Entry::Tile(cell),
            Entry::Child(upper) => self.upper_entry(upper, p, steps),
        }
    }

    /// Returns how many voxels of the level's block around p, which is part of this tile, are active.
    fn active_in_tile(&self, level: Level, p: Coord, cell: Cell<V>) -> u128
        requires { entry_over (bits_of U L F) level self.now p ≡ Tile cell }
        ensures value { result ≡ active_count (field_of (bits_of U L F) self.now) (block_around (bits_of U L F) level p) }
        ensures bound { result ≤ 2 ^ 96 }
    {
        let bits = self.bits();
        if cell.on {
            p.block_in(bits, level).volume()
        } else {
            0
        }
    }

    /// Returns how many voxels of the leaf extent around p, which has this entry, are active.
    fn active_in_leaf(&self, entry: Entry<V>, p: Coord, steps: &mut Steps) -> u128
        requires { lower_entry (bits_of U L F) self.now p ≡ entry }
        ensures value { result ≡ active_count (field_of (bits_of U L F) self.now) (block_around (bits_of U L F) leaf_level p) }
        ensures bound { result ≤ 2 ^ 96 }
    {
        match entry {
            Entry::Tile(cell) => self.active_in_tile(Level::Leaf, p, cell),
            Entry::Child(leaf) => u128::from(self.held_count(leaf, p, steps)),
        }
    }

    /// Returns how many voxels of the lower extent around p, which has this entry, are active. It may stop at `enough` of them.
    fn active_in_lower(&self, entry: Entry<V>, p: Coord, enough: u128, steps: &mut Steps) -> u128
        requires { upper_entry (bits_of U L F) self.now p ≡ entry }
        ensures value { IsCountTo enough (active_count (field_of (bits_of U L F) self.now) (block_around (bits_of U L F) Lower p)) result }
        ensures bound { result ≤ 2 ^ 96 }
    {
        match entry {
            Entry::Tile(cell) => self.active_in_tile(Level::Lower, p, cell),
            Entry::Child(lower) => self.active_in_lower_node(lower, p, enough, steps),
        }
    }

    /// Returns how many voxels of the upper extent around p, which has this entry, are active. It may stop at `enough` of them.
    fn active_in_upper(&self, entry: Entry<V>, p: Coord, enough: u128, steps: &mut Steps) -> u128
        requires { root_entry (bits_of U L F) self.now p ≡ entry }
        ensures value { IsCountTo enough (active_count (field_of (bits_of U L F) self.now) (block_around (bits_of U L F) Upper p)) result }
        ensures bound { result ≤ 2 ^ 96 }
    {
        match entry {
            Entry::Tile(cell) => self.active_in_tile(Level::Upper, p, cell),
            Entry::Child(upper) => self.active_in_upper_node(upper, p, enough, steps),
        }
    }

    /// Returns how many voxels of the lower node around p are active. It may stop at `enough` of them.
    fn active_in_lower_node(&self, lower: u32, p: Coord, enough: u128, steps: &mut Steps) -> u128
        requires { upper_entry (bits_of U L F) self.now p ≡ Child lower }
        ensures value { IsCountTo enough (active_count (field_of (bits_of U L F) self.now) (block_around (bits_of U L F) Lower p)) result }
        ensures bound { result ≤ 2 ^ 96 }
    {
        let _ = &self.root;
        let mut total = 0;
        let mut from = 0;
        'entries: while total < enough {
            let Some(index) = self.next_active_leaf(lower, p, from, steps) else {
                return total;
            };
            let corner = self.leaf_corner(lower, p, index);
            let entry = self.lower_entry(lower, corner, steps);
            total += self.active_in_leaf(entry, corner, steps);
            from = index + 1;
        }
        total
    }

    /// Returns the index, from this one on, of the first entry of the lower node around p that is a child or an active tile;
    /// `None` if no such entry is left.
    pub(crate) fn next_active_leaf(
        &self,
        lower: u32,
        p: Coord,
        from: u32,
        steps: &mut Steps,
    ) -> Option<u32>
        requires child { upper_entry (bits_of U L F) self.now p ≡ Child lower }
        requires within { from ≤ entries (bits_of U L F) Lower }
        ensures { IsNextActive (bits_of U L F) (field_of (bits_of U L F) self.now) Lower p from result }
    {
        let place = held_place(&self.lowers, lower);
        self.lowers.at(place, steps).next_active(from)
    }

    /// Returns how many voxels of the upper node around p are active. It may stop at `enough` of them.
    fn active_in_upper_node(&self, upper: u32, p: Coord, enough: u128, steps: &mut Steps) -> u128
        requires { root_entry (bits_of U L F) self.now p ≡ Child upper }
        ensures value { IsCountTo enough (active_count (field_of (bits_of U L F) self.now) (block_around (bits_of U L F) Upper p)) result }
        ensures bound { result ≤ 2 ^ 96 }
    {
        let _ = &self.root;
        let mut total = 0;
        let mut from = 0;
        'entries: while total < enough {
            let Some(index) = self.next_active_lower(upper, p, from, steps) else {
                return total;
            };
            let corner = self.lower_corner(upper, p, index);
            let entry = self.upper_entry(upper, corner, steps);
            total += self.active_in_lower(entry, corner, enough, steps);
            from = index + 1;
        }
        total
    }

    /// Returns the index, from this one on, of the first entry of the upper node around p that is a child or an active tile;
    /// `None` if no such entry is left.
    pub(crate) fn next_active_lower(
        &self,
        upper: u32,
        p: Coord,
        from: u32,
        steps: &mut Steps,
    ) -> Option<u32>
        requires child { root_entry (bits_of U L F) self.now p ≡ Child upper }
        requires within { from ≤ entries (bits_of U L F) Upper }
        ensures { IsNextActive (bits_of U L F) (field_of (bits_of U L F) self.now) Upper p from result }
    {
        let place = held_place(&self.uppers, upper);
        self.uppers.at(place, steps).next_active(from)
    }

    /// Returns whether a voxel of the upper extent around a coordinate is active. It takes no memory, and ends at the first
    /// active tile or leaf with an active voxel.
    pub(crate) fn has_active(&self, p: Coord, steps: &mut Steps) -> bool
        ensures found { IsTrue result → HasActive (bits_of U L F) (field_of (bits_of U L F) self.now) Upper p }
        ensures none { result ≡ false → IsInactive (bits_of U L F) (field_of (bits_of U L F) self.now) Upper p }
    {
        self.active_in_upper(self.root_entry(p), p, 1, steps) != 0
    }
}
