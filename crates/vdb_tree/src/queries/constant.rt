//! Tests for blocks of one cell, and the next entry of a block that may have another one.

ghost use Rattle.std.specs.Prelude.{◌≡◌, ◌↔◌, is_some, IsTrue, Some, ◌≤◌};
ghost use Rattle.vdb_coord.specs.Blocks.{block_around, entries};
ghost use Rattle.vdb_coord.specs.declared.Level.TheVariants.{Leaf, Lower};
ghost use Rattle.vdb_tree.specs.Changes.{IsConstantBlock};
ghost use Rattle.vdb_tree.specs.Layout.{bits_of, field_of, entry_over};
ghost use Rattle.vdb_tree.specs.ConstantBlocks.{is_constant, is_uniform};
ghost use Rattle.vdb_tree.specs.Unlike.{IsOneCell, IsNextUnlike};
ghost use Rattle.vdb_node.specs.declared.Entry.TheVariants.{Tile};

use crate::TreeOf;
use vdb_coord::{Coord, Level};
use vdb_node::{Entry, Stored};
use vdb_pool::Steps;
use vdb_value::Cell;

impl<
    V: Stored<WU> + Stored<WL> + Stored<WF>,
    const U: u32,
    const L: u32,
    const F: u32,
    const WU: usize,
    const WL: usize,
    const WF: usize,
> TreeOf<V, U, L, F, WU, WL, WF> {
    /// Returns the one cell of the level's block around a coordinate, or `None` if two of its cells differ in value or state
    /// (OpenVDB's `InternalNode::isConstant` and `LeafNode::isConstant`, of all that is below a node and without a tolerance).
    /// It takes no memory. It visits the nodes of the block in order, reads the masks of each before its values, and ends at
    /// the first difference.
    pub fn constant(&self, level: Level, p: Coord, steps: &mut Steps) -> Option<Cell<V>>
        ensures cell { (cell : Cell V) → (result ≡ Some cell) ↔ IsOneCell (bits_of U L F) level (field_of (bits_of U L F) self.now) p cell }
        ensures test { is_some result ≡ is_constant V.eq (field_of (bits_of U L F) self.now) (block_around (bits_of U L F) level p) }
    {
        let _ = &self.root;
        let cell = self.cell(p, steps);
        if self.block_is(level, p, cell, steps) {
            Some(cell)
        } else {
            None
        }
    }

    /// Returns whether each voxel of the level's block around a coordinate has this cell (OpenVDB's `InternalNode::isConstant`
    /// and `LeafNode::isConstant`, for a known cell). It takes no memory, and ends at the first voxel that differs.
    pub fn is_block_of(&self, level: Level, p: Coord, cell: Cell<V>, steps: &mut Steps) -> bool
        ensures { result ≡ is_uniform V.eq (field_of (bits_of U L F) self.now) (block_around (bits_of U L F) level p) cell }
    {
        let _ = &self.root;
        self.block_is(level, p, cell, steps)
    }

    /// Returns whether each voxel of the level's block around p is this cell.
    fn block_is(&self, level: Level, p: Coord, cell: Cell<V>, steps: &mut Steps) -> bool
        ensures { IsTrue result ↔ IsConstantBlock (bits_of U L F) level self.now p cell }
    {
        match level {
            Level::Upper => self.root_block_is(p, cell, steps),
            Level::Lower => self.block_of_lower_is(p, cell, steps),
            Level::Leaf => self.block_of_leaf_is(p, cell, steps),
        }
    }

    /// Returns whether each voxel of the lower extent around p is this cell. p may lie in a node or in a tile.
    fn block_of_lower_is(&self, p: Coord, cell: Cell<V>, steps: &mut Steps) -> bool
        ensures { IsTrue result ↔ IsConstantBlock (bits_of U L F) Lower self.now p cell }
    {
        match self.root_entry(p) {
            Entry::Tile(tile) => tile == cell,
            Entry::Child(upper) => self.lower_block_is(upper, p, cell, steps),
        }
    }

    /// Returns whether each voxel of the leaf extent around p is this cell. p may lie in a node or in a tile.
    fn block_of_leaf_is(&self, p: Coord, cell: Cell<V>, steps: &mut Steps) -> bool
        ensures { IsTrue result ↔ IsConstantBlock (bits_of U L F) Leaf self.now p cell }
    {
        match self.leaf_entry(p, steps) {
            Entry::Tile(tile) => tile == cell,
            Entry::Child(leaf) => self.leaf_is(leaf, p, cell, steps),
        }
    }

    /// Returns an entry, from this one on, of the level's block around a coordinate, such that each voxel of the entries passed
    /// over has this cell; `None` if no entry is left. It takes no memory and visits at most two nodes. It passes over tiles of
    /// the cell, which it finds by words of the node's masks and by its values (OpenVDB's `InternalNode` iterators over
    /// children and tiles). In a leaf, and in a tile of another cell, it returns the first entry.
    pub fn next_unlike(
        &self,
        level: Level,
        p: Coord,
        cell: Cell<V>,
        from: u32,
        steps: &mut Steps,
    ) -> Option<u32>
        requires { from ≤ entries (bits_of U L F) level }
        ensures { IsNextUnlike (bits_of U L F) (field_of (bits_of U L F) self.now).cell level p cell from result }
    {
        let _ = &self.root;
        match level {
            Level::Upper => match self.root_entry(p) {
                Entry::Child(upper) => self.next_unlike_lower(upper, p, cell, from, steps),
                Entry::Tile(tile) => self.next_unlike_in_tile(level, p, tile, cell, from),
            },
            Level::Lower => match self.root_entry(p) {
                Entry::Child(upper) => match self.upper_entry(upper, p, steps) {
                    Entry::Child(lower) => self.next_unlike_leaf(lower, p, cell, from, steps),
                    Entry::Tile(tile) => self.next_unlike_in_tile(level, p, tile, cell, from),
                },
                Entry::Tile(tile) => self.next_unlike_in_tile(level, p, tile, cell, from),
            },
            Level::Leaf => self.next_entry(level, p, cell, from),
        }
    }

    /// Returns an entry of a block that has this cell all over.
    fn next_unlike_in_tile(
        &self,
        level: Level,
        p: Coord,
        tile: Cell<V>,
        cell: Cell<V>,
        from: u32,
    ) -> Option<u32>
        requires tile { entry_over (bits_of U L F) level self.now p ≡ Tile tile }
        requires within { from ≤ entries (bits_of U L F) level }
        ensures { IsNextUnlike (bits_of U L F) (field_of (bits_of U L F) self.now).cell level p cell from result }
    {
        let _ = &self.root;
        if tile == cell {
            return None;
        }
        self.next_entry(level, p, cell, from)
    }

    /// Returns the first entry, from this one on, of any block.
    fn next_entry(&self, level: Level, p: Coord, cell: Cell<V>, from: u32) -> Option<u32>
        requires { from ≤ entries (bits_of U L F) level }
        ensures { IsNextUnlike (bits_of U L F) (field_of (bits_of U L F) self.now).cell level p cell from result }
    {
        let _ = (p, cell);
        if from < u32::from(self.bits().entries(level)) {
            Some(from)
        } else {
            None
        }
    }
}
