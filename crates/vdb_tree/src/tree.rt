//! The tree itself.

ghost use Rattle.std.specs.Prelude.{◌≡◌, ◌<◌, ◌≤◌, ◌↔◌, [], IfSome, IsTrue, IfErr, IfOk};
ghost use Rattle.std.specs.declared.alloc.Global.{Global as Heap};
ghost use Rattle.vdb_coord.specs.Blocks.{block_number, block_numbers, key, node_bits, offset};
ghost use Rattle.vdb_coord.specs.Entries.{AreBits};
ghost use Rattle.vdb_coord.specs.Space.{is_inside};
ghost use Rattle.vdb_coord.specs.Walk.{IsNextBlock, coordinates_after};
ghost use Rattle.vdb_coord.specs.declared.Coord.{Coord};
ghost use Rattle.vdb_coord.specs.declared.Level.TheVariants.{Upper};
ghost use Rattle.vdb_node.specs.Nodes.{entry_count};
ghost use Rattle.vdb_tree.specs.Field.{new};
ghost use Rattle.vdb_tree.specs.Layout.{background_cell, bits_of, field_of};
ghost use Rattle.vdb_tree.specs.ConstantBlocks.{roots};
ghost use Rattle.vdb_tree.specs.SplitBox.{IsCovered};
ghost use Rattle.vdb_tree.specs.Sound.{IsConfigured};
ghost use Rattle.vdb_tree.specs.Nodes.{IsSameTree};
ghost use Rattle.vdb_tree.specs.declared.refusal.TreeRefusal.TheVariants.{Memory};

use crate::TreeRefusal;
use crate::root::RootTable;
use std::alloc::Global;
use std::marker::Model;
use vdb_coord::{Bits, Bounds, Coord, Level};
use vdb_node::{Internal, Leaf, Stored};
use vdb_pool::Pool;
use vdb_value::Cell;

/// A sparse grid: a root table over three pools of nodes, with upper nodes of 2 to the power `U` entries along each axis,
/// lower ones of 2 to the power `L` and leaves of 2 to the power `F`, whose masks have `WU`, `WL` and `WF` words.
///
/// It stands for a field, `field_of` in contracts, which gives each coordinate a cell. The layout in tiles and nodes never
/// changes a cell. OpenVDB's class `Tree`.
#[derive(Drop)]
pub struct TreeOf<
    V: Stored<WU> + Stored<WL> + Stored<WF>,
    const U: u32,
    const L: u32,
    const F: u32,
    const WU: usize,
    const WL: usize,
    const WF: usize,
> {
    pub(crate) alloc: Global,
    pub(crate) background: V,
    pub(crate) limit: u32,
    pub(crate) root: RootTable<V>,
    /// Whether it is known that no entry of the root table belongs to a background upper extent.
    pub(crate) swept: bool,
    pub(crate) uppers: Pool<Internal<V, U, WU>>,
    pub(crate) lowers: Pool<Internal<V, L, WL>>,
    pub(crate) leaves: Pool<Leaf<V, F, WF>>,
}

/// The standard VDB tree, whose blocks span 8, 128 and 4,096 voxels along each axis.
pub type Tree<V> = TreeOf<V, 5, 4, 3, 512, 64, 8>;

/// A tree of smaller nodes, whose blocks span 8, 64 and 1,024 voxels along each axis.
pub type Tree433<V> = TreeOf<V, 4, 3, 3, 64, 8, 8>;

impl<
    V: Stored<WU> + Stored<WL> + Stored<WF>,
    const U: u32,
    const L: u32,
    const F: u32,
    const WU: usize,
    const WL: usize,
    const WF: usize,
> Model for TreeOf<V, U, L, F, WU, WL, WF> {
    ghost use Rattle.std.specs.Prelude.{IsTrue};
    ghost use Rattle.vdb_tree.specs.Changes.{IsSwept};
    ghost use Rattle.vdb_tree.specs.Layout.{Layout, bits_of};
    ghost use Rattle.vdb_tree.specs.Sound.{IsConfigured, IsSound};

    ghost Value = { Layout V };

    ghost view = { λ t. record {
      background = t.background;
      limit = t.limit;
      root = t.root;
      uppers = t.uppers;
      lowers = t.lowers;
      leaves = t.leaves;
    } };

    ghost invariant = { λ t. IsConfigured U L F WU WL WF × IsSound (bits_of U L F) (record {
      background = t.background;
      limit = t.limit;
      root = t.root;
      uppers = t.uppers;
      lowers = t.lowers;
      leaves = t.leaves;
    }) × (IsTrue t.swept → IsSwept (bits_of U L F) (record {
      background = t.background;
      limit = t.limit;
      root = t.root;
      uppers = t.uppers;
      lowers = t.lowers;
      leaves = t.leaves;
    })) };
}

impl<
    V: Stored<WU> + Stored<WL> + Stored<WF>,
    const U: u32,
    const L: u32,
    const F: u32,
    const WU: usize,
    const WL: usize,
    const WF: usize,
> TreeOf<V, U, L, F, WU, WL, WF> {
    /// Returns the tree in which every cell is the inactive background, and whose root table may have up to `limit` entries. It
    /// takes no memory.
    pub fn new(alloc: Global, background: V, limit: u32) -> Self
        requires configured { IsConfigured U L F WU WL WF }
        ensures field { field_of (bits_of U L F) result ≡ new background }
        ensures limit { result.limit ≡ limit }
        ensures empty { result.root ≡ [] }
    {
        TreeOf {
            alloc,
            background,
            limit,
            root: RootTable::new(alloc),
            swept: false,
            uppers: Pool::new(alloc),
            lowers: Pool::new(alloc),
            leaves: Pool::new(alloc),
        }
    }

    /// Returns the background: the value of a voxel that was never written.
    pub fn background(&self) -> V
        ensures { result ≡ (field_of (bits_of U L F) self.now).background }
    {
        self.background
    }

    /// Returns the cell of a voxel that was never written: the inactive background.
    #[inline(always)]
    pub(crate) fn background_cell(&self) -> Cell<V>
        ensures { result ≡ background_cell self.now }
    {
        Cell {
            value: self.background,
            on: false,
        }
    }

    /// Returns how many entries the root table may have. At most this number of upper extents have a cell other than the
    /// inactive background.
    pub fn limit(&self) -> u32
        ensures value { result ≡ self.now.limit }
        ensures kept { roots V.eq (bits_of U L F) (field_of (bits_of U L F) self.now) ≤ result }
    {
        self.limit
    }

    /// Returns the allocator of its nodes and its table. There is no other.
    pub fn alloc(&self) -> Global
        ensures { (alloc : Heap) → alloc ≡ result }
    {
        self.alloc
    }

    /// Returns the bits of its nodes.
    #[inline(always)]
    pub fn bits(&self) -> Bits
        ensures value { result ≡ bits_of U L F }
        ensures configured { AreBits result }
    {
        let _ = &self.root;
        Bits {
            upper: U as u8,
            lower: L as u8,
            leaf: F as u8,
        }
    }

    /// Returns the key of p's upper extent.
    #[inline(always)]
    pub(crate) fn key(&self, p: Coord) -> Coord
        ensures value { result ≡ key (bits_of U L F) p }
        ensures within { IsTrue (is_inside (block_numbers (bits_of U L F) Upper) (key (bits_of U L F) p)) }
    {
        p.key_in(self.bits())
    }

    /// Returns the index of p's entry in the level's node around it.
    #[inline(always)]
    pub(crate) fn offset(&self, p: Coord, level: Level) -> u32
        ensures value { result ≡ offset (bits_of U L F) level p }
        ensures within { result < entry_count (node_bits (bits_of U L F) level) }
    {
        u32::from(p.offset_in(self.bits(), level))
    }

    /// Returns whether the level's block around p lies within the box.
    #[inline(always)]
    pub(crate) fn is_covered(&self, bounds: Bounds, level: Level, p: Coord) -> bool
        ensures { IsTrue result ↔ IsCovered (bits_of U L F) bounds level p }
    {
        bounds.covers(p.block_in(self.bits(), level))
    }

    /// Returns the coordinates that the box has in the level's block around p, which is one of them.
    #[inline(always)]
    pub(crate) fn part(&self, bounds: Bounds, level: Level, p: Coord) -> Bounds
        requires { IsTrue (is_inside bounds p) }
        ensures within { (q : Coord) → IsTrue (is_inside result q) → IsTrue (is_inside bounds q) × (block_number (bits_of U L F) level q ≡ block_number (bits_of U L F) level p) }
        ensures all { (q : Coord) → IsTrue (is_inside bounds q) → block_number (bits_of U L F) level q ≡ block_number (bits_of U L F) level p → IsTrue (is_inside result q) }
    {
        match bounds.intersect(p.block_in(self.bits(), level)) {
            Some(part) => part,
            None => unreachable!(),
        }
    }

    /// Returns a coordinate of the box in the level's next block that meets it, past the block around p.
    pub(crate) fn next_block(&self, bounds: Bounds, level: Level, p: Coord) -> Option<Coord>
        requires { IsTrue (is_inside bounds p) }
        ensures next { IsNextBlock (bits_of U L F) level bounds p result }
        ensures nearer { IfSome result (λ next. coordinates_after next < coordinates_after p) }
    {
        bounds.next_block_in(self.bits(), level, p)
    }

    /// Returns a tree with the same cells, background and limit, and with a root table and nodes of its own, so that a write to
    /// one leaves the other as it is (OpenVDB's `Grid::deepCopy`, by the copy constructor of `Tree`). It has the same tiles and
    /// nodes. `Memory`: an allocation failed; the partial copy is dropped. It passes over each node once, and counts no visit.
    pub fn try_copy(&self) -> Result<Self, TreeRefusal>
        ensures field { IfOk result (λ copy. field_of (bits_of U L F) copy ≡ field_of (bits_of U L F) self.now) }
        ensures limit { IfOk result (λ copy. copy.limit ≡ self.now.limit) }
        ensures same { IfOk result (IsSameTree (bits_of U L F) self.now) }
        ensures memory { IfErr result (λ refusal. refusal ≡ Memory) }
    {
        let root = self.root.try_copy(self.alloc)?;
        let uppers = self.uppers.try_copy()?;
        let lowers = self.lowers.try_copy()?;
        let leaves = self.leaves.try_copy()?;
        Ok(TreeOf {
            alloc: self.alloc,
            background: self.background,
            limit: self.limit,
            root,
            swept: self.swept,
            uppers,
            lowers,
            leaves,
        })
    }
}
