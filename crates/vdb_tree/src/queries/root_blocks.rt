//! A count of the upper extents that hold something.

ghost use Rattle.std.specs.Prelude.{◌≡◌, ◌<◌, ◌≤◌, ◌↔◌, IsTrue};
ghost use Rattle.vdb_coord.specs.Blocks.{block_number, entries, offset};
ghost use Rattle.vdb_coord.specs.declared.Level.TheVariants.{Leaf, Lower, Upper};
ghost use Rattle.vdb_node.specs.declared.Entry.TheVariants.{Child};
ghost use Rattle.vdb_tree.specs.Changes.{IsConstantBlock};
ghost use Rattle.vdb_tree.specs.Layout.{bits_of, cell_at, field_of, lower_entry, root_entry, upper_entry};
ghost use Rattle.vdb_tree.specs.ConstantBlocks.{roots};
ghost use Rattle.vdb_tree.specs.Unlike.{IsNextUnlike};

use crate::TreeOf;
use crate::nodes::held_place;
use crate::sweeps::entry_corner;
use vdb_coord::{Coord, Level};
use vdb_node::{Entry, Stored};
use vdb_pool::Steps;
use vdb_value::Cell;

impl<
    V: Stored<WU> + Stored<WL> + Stored<WF>,
    const U: u32,
    const L: u32,
    const F: u32,
    const WU: usize,
    const WL: usize,
    const WF: usize,
> TreeOf<V, U, L, F, WU, WL, WF> {
    /// Returns how many upper extents have a cell other than the inactive background. The tree needs a limit of at least this
    /// number, however many entries its table has. It visits the nodes below each entry up to the first such cell, and takes no
    /// memory.
    pub fn root_blocks(&self, steps: &mut Steps) -> u64
        ensures { result ≡ roots V.eq (bits_of U L F) (field_of (bits_of U L F) self.now) }
    {
        let background_cell = self.background_cell();
        let _limit = self.limit; // the count keeps to the limit
        let mut count: u64 = 0;
        let mut passed = None;
        while let Some(key) = self.next_key(passed) {
            passed = Some(key);
            if self.root_block_is(self.key_corner(key), background_cell, steps) {
                continue;
            }
            count += 1;
        }
        count
    }

    /// Returns whether each voxel of the upper extent around p is this cell.
    pub(crate) fn root_block_is(&self, p: Coord, cell: Cell<V>, steps: &mut Steps) -> bool
        ensures { IsTrue result ↔ IsConstantBlock (bits_of U L F) Upper self.now p cell }
    {
        match self.root_entry(p) {
            Entry::Tile(tile) => tile == cell,
            Entry::Child(upper) => self.upper_is(upper, p, cell, steps),
        }
    }

    /// Returns whether each voxel of the upper node around p is this cell.
    fn upper_is(&self, upper: u32, p: Coord, cell: Cell<V>, steps: &mut Steps) -> bool
        requires { root_entry (bits_of U L F) self.now p ≡ Child upper }
        ensures { IsTrue result ↔ IsConstantBlock (bits_of U L F) Upper self.now p cell }
    {
        let _ = &self.root;
        let mut from = 0;
        while let Some(index) = self.next_unlike_lower(upper, p, cell, from, steps) {
            let corner = self.lower_corner(upper, p, index);
            if !self.lower_block_is(upper, corner, cell, steps) {
                return false;
            }
            from = index + 1;
        }
        true
    }

    /// Returns the index, from this one on, of the first entry of the upper node around p that isn't a tile of this cell;
    /// `None` if no such entry is left.
    pub(crate) fn next_unlike_lower(
        &self,
        upper: u32,
        p: Coord,
        cell: Cell<V>,
        from: u32,
        steps: &mut Steps,
    ) -> Option<u32>
        requires child { root_entry (bits_of U L F) self.now p ≡ Child upper }
        requires within { from ≤ entries (bits_of U L F) Upper }
        ensures { IsNextUnlike (bits_of U L F) (cell_at (bits_of U L F) self.now) Upper p cell from result }
    {
        let place = held_place(&self.uppers, upper);
        self.uppers.at(place, steps).next_unlike(cell, from)
    }

    /// Returns the first coordinate of an entry of the upper node around p.
    pub(crate) fn lower_corner(&self, upper: u32, p: Coord, index: u32) -> Coord
        requires child { root_entry (bits_of U L F) self.now p ≡ Child upper }
        requires within { index < entries (bits_of U L F) Upper }
        ensures block { block_number (bits_of U L F) Upper result ≡ block_number (bits_of U L F) Upper p }
        ensures entry { offset (bits_of U L F) Upper result ≡ index }
        ensures inside { root_entry (bits_of U L F) self.now result ≡ Child upper }
    {
        entry_corner(p, self.bits(), Level::Upper, index)
    }

    /// Returns whether each voxel of the lower extent around p, in an upper node, is this cell.
    pub(crate) fn lower_block_is(
        &self,
        upper: u32,
        p: Coord,
        cell: Cell<V>,
        steps: &mut Steps,
    ) -> bool
        requires { root_entry (bits_of U L F) self.now p ≡ Child upper }
        ensures { IsTrue result ↔ IsConstantBlock (bits_of U L F) Lower self.now p cell }
    {
        match self.upper_entry(upper, p, steps) {
            Entry::Tile(tile) => tile == cell,
            Entry::Child(lower) => self.lower_is(lower, p, cell, steps),
        }
    }

    /// Returns whether each voxel of the lower node around p is this cell.
    fn lower_is(&self, lower: u32, p: Coord, cell: Cell<V>, steps: &mut Steps) -> bool
        requires { upper_entry (bits_of U L F) self.now p ≡ Child lower }
        ensures { IsTrue result ↔ IsConstantBlock (bits_of U L F) Lower self.now p cell }
    {
        let _ = &self.root;
        let mut from = 0;
        while let Some(index) = self.next_unlike_leaf(lower, p, cell, from, steps) {
            let corner = self.leaf_corner(lower, p, index);
            if !self.leaf_block_is(lower, corner, cell, steps) {
                return false;
            }
            from = index + 1;
        }
        true
    }

    /// Returns the index, from this one on, of the first entry of the lower node around p that isn't a tile of this cell;
    /// `None` if no such entry is left.
    pub(crate) fn next_unlike_leaf(
        &self,
        lower: u32,
        p: Coord,
        cell: Cell<V>,
        from: u32,
        steps: &mut Steps,
    ) -> Option<u32>
        requires child { upper_entry (bits_of U L F) self.now p ≡ Child lower }
        requires within { from ≤ entries (bits_of U L F) Lower }
        ensures { IsNextUnlike (bits_of U L F) (cell_at (bits_of U L F) self.now) Lower p cell from result }
    {
        let place = held_place(&self.lowers, lower);
        self.lowers.at(place, steps).next_unlike(cell, from)
    }

    /// Returns the first coordinate of an entry of the lower node around p.
    pub(crate) fn leaf_corner(&self, lower: u32, p: Coord, index: u32) -> Coord
        requires child { upper_entry (bits_of U L F) self.now p ≡ Child lower }
        requires within { index < entries (bits_of U L F) Lower }
        ensures block { block_number (bits_of U L F) Lower result ≡ block_number (bits_of U L F) Lower p }
        ensures entry { offset (bits_of U L F) Lower result ≡ index }
        ensures inside { upper_entry (bits_of U L F) self.now result ≡ Child lower }
    {
        entry_corner(p, self.bits(), Level::Lower, index)
    }

    /// Returns whether each voxel of the leaf extent around p, in a lower node, is this cell.
    fn leaf_block_is(&self, lower: u32, p: Coord, cell: Cell<V>, steps: &mut Steps) -> bool
        requires { upper_entry (bits_of U L F) self.now p ≡ Child lower }
        ensures { IsTrue result ↔ IsConstantBlock (bits_of U L F) Leaf self.now p cell }
    {
        match self.lower_entry(lower, p, steps) {
            Entry::Tile(tile) => tile == cell,
            Entry::Child(leaf) => self.leaf_is(leaf, p, cell, steps),
        }
    }

    /// Returns whether each voxel of the leaf around p is this cell.
    pub(crate) fn leaf_is(&self, leaf: u32, p: Coord, cell: Cell<V>, steps: &mut Steps) -> bool
        requires { lower_entry (bits_of U L F) self.now p ≡ Child leaf }
        ensures { IsTrue result ↔ IsConstantBlock (bits_of U L F) Leaf self.now p cell }
    {
        match self.leaf_constant(leaf, p, steps) {
            Some(one) => one == cell,
            None => false,
        }
    }
}
