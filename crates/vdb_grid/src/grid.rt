//! The grid: its tree, its probes and its writes.

ghost use Rattle.std.specs.Prelude.{◌≡◌, ◌≢◌, ◌&&◌, ◌+◌, ◌-◌, ◌*◌, ◌<◌, ◌≤◌, ◌⊎◌, false, if◌then◌else◌, is_some, IfErr, IfOk, IfSome, IsOk, IsTrue, None, Ok, slice_set, Some, ℕ};
ghost use Rattle.vdb_coord.specs.Blocks.{block_around, block_number, key, vdb};
ghost use Rattle.vdb_coord.specs.declared.Coord.{Coord};
ghost use Rattle.vdb_coord.specs.declared.Level.TheVariants.{Leaf};
ghost use Rattle.vdb_tree.specs.ConstantBlocks.{is_constant};
ghost use Rattle.vdb_tree.specs.Field.{new, write, written};
ghost use Rattle.vdb_tree.specs.Layout.{field_of};
ghost use Rattle.vdb_tree.specs.Leaves.{IsVoxelWritten};
ghost use Rattle.vdb_tree.specs.Nodes.{IsSameTree, KeepsElsewhere};
ghost use Rattle.vdb_tree.specs.Outcome.{IsOutcome};
ghost use Rattle.vdb_tree.specs.Paths.{common, depth, down_count, in_leaf, IsWhole, Lives};
ghost use Rattle.vdb_tree.specs.Table.{HasCapacity};
ghost use Rattle.vdb_tree.specs.declared.path.PathOf.TheVariants.{Empty};
ghost use Rattle.vdb_tree.specs.declared.refusal.TreeRefusal.TheVariants.{Memory};
ghost use Rattle.vdb_grid.specs.Grid.{IsInLastLeaf, has_leaf, has_lower, last, path};

use crate::accessors::{nowhere, retrace};
use std::alloc::Global;
use std::marker::Model;
use vdb_coord::Coord;
use vdb_node::Stored;
use vdb_pool::Steps;
use vdb_tree::{Path, Tree, TreeRefusal, Write};
use vdb_value::Cell;

/// A tree of the standard configuration with `K` accessors (OpenVDB's `Grid` with `ValueAccessor`s that stay valid).
#[derive(Drop)]
pub struct Grid<V: Stored<512> + Stored<64> + Stored<8>, const K: usize> {
    pub(crate) tree: Tree<V>,
    // The coordinate that each accessor was last given.
    pub(crate) coords: [Option<Coord>; K],
    // The path to it; empty if there is none.
    pub(crate) paths: [Path<V>; K],
    // The coordinate of the last read without an accessor, and the path to it, or an empty one. No contract shows them.
    pub(crate) near: Coord,
    pub(crate) near_path: Path<V>,
}

impl<V: Stored<512> + Stored<64> + Stored<8>, const K: usize> Model for Grid<V, K> {
    ghost use Rattle.vdb_grid.specs.Grid.{ArePathsWhole, AreUnusedEmpty, GridOf, IsNear};

    ghost Value = { GridOf V };

    ghost view = { λ g. record {
      tree = g.tree;
      coords = g.coords;
      paths = g.paths;
    } };

    ghost invariant = { λ g. ArePathsWhole g.tree g.coords g.paths × AreUnusedEmpty g.coords g.paths
        × IsNear g.tree g.near_path g.near };
}

impl<V: Stored<512> + Stored<64> + Stored<8>, const K: usize> Grid<V, K> {
    /// Returns a grid without nodes, whose every coordinate has the background, inactive. At most `limit` of its upper
    /// extents may hold another cell; the limit is 1 to 65,536. Its accessors were given no coordinate and cache no node.
    pub fn new(alloc: Global, background: V, limit: u32) -> Self
        requires some { 1 ≤ limit }
        requires few { limit ≤ 65536 }
        ensures field { field_of vdb result.tree ≡ new background }
        ensures limit { result.tree.limit ≡ limit }
        ensures last { (k : ℕ) → last result.coords k ≡ None }
        ensures empty { (k : ℕ) → path result.paths k ≡ Empty }
    {
        Grid::from_tree(Tree::new(alloc, background, limit))
    }

    /// Returns the grid of a tree, whose limit is 1 to 65,536, with accessors that were given no coordinate and cache no
    /// node. It takes no memory.
    pub fn from_tree(tree: Tree<V>) -> Self
        requires some { 1 ≤ tree.limit }
        requires few { tree.limit ≤ 65536 }
        ensures tree { result.tree ≡ tree }
        ensures last { (k : ℕ) → last result.coords k ≡ None }
        ensures empty { (k : ℕ) → path result.paths k ≡ Empty }
    {
        Grid::with_unused_accessors(tree)
    }

    /// The same for a tree of any limit.
    fn with_unused_accessors(tree: Tree<V>) -> Self
        ensures tree { result.tree ≡ tree }
        ensures last { (k : ℕ) → last result.coords k ≡ None }
        ensures empty { (k : ℕ) → path result.paths k ≡ Empty }
    {
        Grid {
            tree,
            coords: [None; K],
            paths: [Path::Empty; K],
            near: Coord { x: 0, y: 0, z: 0 },
            near_path: Path::Empty,
        }
    }

    /// Returns the tree.
    pub fn tree(&self) -> &Tree<V>
        ensures { result.now ≡ self.now.tree }
    {
        &self.tree
    }

    /// Returns the coordinate that an accessor was last given, by a probe or by a write through it.
    pub fn cached(&self, k: usize) -> Option<Coord>
        requires { k < K }
        ensures { result ≡ last self.now.coords k }
    {
        self.coords[k]
    }

    /// Returns the cell of a voxel, by the descent from the lowest node that contains it of the path to the last voxel that
    /// was read without an accessor. No accessor's path changes.
    #[inline(always)]
    pub fn get(&mut self, p: Coord, steps: &mut Steps) -> Cell<V>
        ensures cell { result ≡ (field_of vdb self.old.tree).cell p }
        ensures kept { self.new ≡ self.old }
        ensures steps { steps.new ≤ steps.old + 3 }
    {
        match self.near_get(p, steps) {
            Some(cell) => cell,
            None => self.far_get(copied(p), steps),
        }
    }

    /// Returns the cell of a voxel, by one visit, if the leaf of the last voxel that was read without an accessor holds it.
    #[inline(always)]
    pub fn near_get(&self, p: Coord, steps: &mut Steps) -> Option<Cell<V>>
        ensures cell { IfSome result (λ cell. cell ≡ (field_of vdb self.now.tree).cell p) }
        ensures steps { steps.new ≤ steps.old + (if is_some result then 1 else 0) }
    {
        self.tree.cell_near(&self.near_path, self.near, p, steps)
    }

    /// Returns what `get` returns, by the descent. The next calls without an accessor then begin at the path to the voxel.
    #[inline(never)]
    pub fn far_get(&mut self, p: Coord, steps: &mut Steps) -> Cell<V>
        ensures cell { result ≡ (field_of vdb self.old.tree).cell p }
        ensures kept { self.new ≡ self.old }
        ensures steps { steps.new ≤ steps.old + 3 }
    {
        let cell = self.tree.descend(&mut self.near_path, self.near, p, steps);
        self.near = p;
        cell
    }

    /// Writes a voxel in the leaf of the last voxel that was read without an accessor, if that leaf holds it, by one visit
    /// and without memory. Returns whether it does; if not, nothing changes.
    #[inline(always)]
    pub fn near_set(&mut self, p: Coord, change: Write<V>, steps: &mut Steps) -> bool
        ensures outcome { IsTrue result → IsOutcome V.eq vdb self.old.tree.limit (field_of vdb self.old.tree)
            (write p change (field_of vdb self.old.tree)) (field_of vdb self.new.tree) (Ok tt) }
        ensures limit { self.new.tree.limit ≡ self.old.tree.limit }
        ensures alone { IsTrue result → IsVoxelWritten vdb self.old.tree self.new.tree p (written change ((field_of vdb self.old.tree).cell p)) }
        ensures elsewhere { KeepsElsewhere vdb self.old.tree self.new.tree p }
        ensures paths { self.new.paths ≡ self.old.paths }
        ensures last { self.new.coords ≡ self.old.coords }
        ensures untouched { result ≡ false → self.new ≡ self.old }
        ensures steps { steps.new ≤ steps.old + (if result then 1 else 0) }
    {
        let written = self
            .tree
            .write_near(&self.near_path, self.near, p, change, steps);
        let _ = self.tree.limit(); // no more upper extents than the limit hold anything but the background
        written
    }

    /// Writes a voxel, by the descent from the lowest node that contains it of the path to the last voxel that was read
    /// without an accessor. Only if no leaf holds the voxel, it writes as `write` does. It fails with `RootLimit` or
    /// `Memory`, and then every cell stays.
    pub fn set(&mut self, p: Coord, change: Write<V>, steps: &mut Steps) -> Result<(), TreeRefusal>
        ensures outcome { IsOutcome V.eq vdb self.old.tree.limit (field_of vdb self.old.tree)
            (write p change (field_of vdb self.old.tree)) (field_of vdb self.new.tree) result }
        ensures limit { self.new.tree.limit ≡ self.old.tree.limit }
        ensures last { self.new.coords ≡ self.old.coords }
        ensures unchanged { written change ((field_of vdb self.old.tree).cell p) ≡ (field_of vdb self.old.tree).cell p → IsOk result }
        ensures leaf { IsTrue (in_leaf vdb self.old.tree p) → IsOk result }
        ensures non_constant { is_constant V.eq (field_of vdb self.old.tree) (block_around vdb Leaf p) ≡ false → IsOk result }
        ensures elsewhere { HasCapacity self.old.tree (key vdb p) → KeepsElsewhere vdb self.old.tree self.new.tree p }
        ensures steps { HasCapacity self.old.tree (key vdb p)
            ⊎ (written change ((field_of vdb self.old.tree).cell p) ≡ (field_of vdb self.old.tree).cell p)
            → steps.new ≤ steps.old + (8 + 3 * K) }
    {
        if self.near_set(p, change, steps) {
            return Ok(());
        }
        let _ = self.far_get(p, steps);
        if self.near_set(p, change, steps) {
            return Ok(());
        }
        self.write(p, change, steps)
    }

    /// Returns the cell of a voxel through an accessor. The descent begins at the lowest node that the accessor
    /// caches and that contains the voxel (OpenVDB's `ValueAccessor::getValue`). It visits at most the nodes of the
    /// descent from the root. In the leaf extent of the last coordinate it visits at most one node.
    #[inline(always)]
    pub fn probe(&mut self, k: usize, p: Coord, steps: &mut Steps) -> Cell<V>
        requires { k < K }
        ensures cell { result ≡ (field_of vdb self.old.tree).cell p }
        ensures tree { self.new.tree ≡ self.old.tree }
        ensures last { self.new.coords ≡ slice_set self.old.coords k (Some p) }
        ensures others { (j : ℕ) → j ≢ k → path self.new.paths j ≡ path self.old.paths j }
        ensures below { (q : Coord) → last self.old.coords k ≡ Some q
            → steps.new ≤ steps.old + (down_count vdb self.old.tree p - (depth (common vdb q p (path self.old.paths k)) - 1)) }
        ensures near { (q : Coord) → last self.old.coords k ≡ Some q → block_number vdb Leaf q ≡ block_number vdb Leaf p
            → steps.new ≤ steps.old + 1 }
        ensures down { steps.new ≤ steps.old + down_count vdb self.old.tree p }
        ensures steps { steps.new ≤ steps.old + 3 }
    {
        match self.near_cell(k, p, steps) {
            Some(cell) => {
                self.coords[k] = Some(p);
                cell
            }
            None => self.go_to(k, copied(p), steps),
        }
    }

    /// Returns the cell of a voxel in the leaf that ends the accessor's path, if that leaf holds the voxel, by one visit.
    #[inline(always)]
    pub fn near_cell(&self, k: usize, p: Coord, steps: &mut Steps) -> Option<Cell<V>>
        requires { k < K }
        ensures answer { is_some result ≡ has_leaf (last self.now.coords k) (path self.now.paths k) p }
        ensures cell { IfSome result (λ cell. cell ≡ (field_of vdb self.now.tree).cell p) }
        ensures whole { IfSome result (λ _. IsWhole vdb self.now.tree (path self.now.paths k) p) }
        ensures steps { steps.new ≤ steps.old + (if is_some result then 1 else 0) }
    {
        let q = self.coords[k]?;
        self.tree.cell_near(&self.paths[k], q, p, steps)
    }

    /// Returns what `probe` returns, by the descent from the lowest node of the accessor's path that contains the voxel.
    /// The accessor then caches the path to the voxel.
    pub fn go_to(&mut self, k: usize, p: Coord, steps: &mut Steps) -> Cell<V>
        requires { k < K }
        ensures cell { result ≡ (field_of vdb self.old.tree).cell p }
        ensures tree { self.new.tree ≡ self.old.tree }
        ensures last { self.new.coords ≡ slice_set self.old.coords k (Some p) }
        ensures others { (j : ℕ) → j ≢ k → path self.new.paths j ≡ path self.old.paths j }
        ensures below { (q : Coord) → last self.old.coords k ≡ Some q
            → steps.new ≤ steps.old + (down_count vdb self.old.tree p - (depth (common vdb q p (path self.old.paths k)) - 1)) }
        ensures near { (q : Coord) → last self.old.coords k ≡ Some q → block_number vdb Leaf q ≡ block_number vdb Leaf p
            → steps.new ≤ steps.old + 1 }
        ensures down { steps.new ≤ steps.old + down_count vdb self.old.tree p }
        ensures steps { steps.new ≤ steps.old + 3 }
    {
        let q = self.start(k, p);
        let cell = self.tree.descend(&mut self.paths[k], q, p, steps);
        self.coords[k] = Some(p);
        cell
    }

    /// Returns the coordinate at which a descent to `p` through an accessor begins: the one that the accessor was
    /// last given, to which its path leads. If it was given none, its path is empty, and the descent begins at `p`
    /// itself.
    #[inline(always)]
    fn start(&self, k: usize, p: Coord) -> Coord
        requires { k < K }
        ensures value { (q : Coord) → last self.now.coords k ≡ Some q → result ≡ q }
        ensures lives { Lives vdb self.now.tree (path self.now.paths k) result }
    {
        match self.coords[k] {
            Some(q) => q,
            None => p,
        }
    }

    /// Writes a voxel, as the tree's `write` does, and traces the path of each accessor again. It fails with
    /// `RootLimit` or `Memory`, and then every cell stays.
    #[inline(never)]
    pub fn write(
        &mut self,
        p: Coord,
        change: Write<V>,
        steps: &mut Steps,
    ) -> Result<(), TreeRefusal>
        ensures outcome { IsOutcome V.eq vdb self.old.tree.limit (field_of vdb self.old.tree)
            (write p change (field_of vdb self.old.tree)) (field_of vdb self.new.tree) result }
        ensures limit { self.new.tree.limit ≡ self.old.tree.limit }
        ensures last { self.new.coords ≡ self.old.coords }
        ensures unchanged { written change ((field_of vdb self.old.tree).cell p) ≡ (field_of vdb self.old.tree).cell p → IsOk result }
        ensures leaf { IsTrue (in_leaf vdb self.old.tree p) → IsOk result }
        ensures non_constant { is_constant V.eq (field_of vdb self.old.tree) (block_around vdb Leaf p) ≡ false → IsOk result }
        ensures elsewhere { HasCapacity self.old.tree (key vdb p) → KeepsElsewhere vdb self.old.tree self.new.tree p }
        ensures steps { HasCapacity self.old.tree (key vdb p)
            ⊎ (written change ((field_of vdb self.old.tree).cell p) ≡ (field_of vdb self.old.tree).cell p)
            → steps.new ≤ steps.old + (5 + 3 * K) }
    {
        let outcome = self.tree.write(p, change, steps);
        retrace(&self.tree, &self.coords, &mut self.paths, steps);
        self.near_path = nowhere(&self.tree);
        outcome
    }

    /// Writes a voxel through an accessor, which then caches the path to it, with or without an error. If the cached
    /// path ends in a leaf that holds the voxel, that leaf alone is visited (OpenVDB's `ValueAccessor::setValue`). In
    /// any other leaf it takes the descent from the lowest cached node that contains the voxel. It fails with
    /// `RootLimit` or `Memory`, and then every cell stays.
    #[inline(always)]
    pub fn write_by(
        &mut self,
        k: usize,
        p: Coord,
        change: Write<V>,
        steps: &mut Steps,
    ) -> Result<(), TreeRefusal>
        requires { k < K }
        ensures outcome { IsOutcome V.eq vdb self.old.tree.limit (field_of vdb self.old.tree)
            (write p change (field_of vdb self.old.tree)) (field_of vdb self.new.tree) result }
        ensures limit { self.new.tree.limit ≡ self.old.tree.limit }
        ensures last { self.new.coords ≡ slice_set self.old.coords k (Some p) }
        ensures near { IsTrue (has_leaf (last self.old.coords k) (path self.old.paths k) p)
            → IsOk result × IsVoxelWritten vdb self.old.tree self.new.tree p (written change ((field_of vdb self.old.tree).cell p)) × (steps.new ≤ steps.old + 1) }
        ensures last_leaf { IsInLastLeaf self.old.tree (last self.old.coords k) p → steps.new ≤ steps.old + 1 }
        ensures elsewhere { HasCapacity self.old.tree (key vdb p) → KeepsElsewhere vdb self.old.tree self.new.tree p }
        ensures unchanged { written change ((field_of vdb self.old.tree).cell p) ≡ (field_of vdb self.old.tree).cell p → IsOk result }
        ensures leaf { IsTrue (in_leaf vdb self.old.tree p) → IsOk result }
        ensures non_constant { is_constant V.eq (field_of vdb self.old.tree) (block_around vdb Leaf p) ≡ false → IsOk result }
        ensures steps { HasCapacity self.old.tree (key vdb p)
            ⊎ (written change ((field_of vdb self.old.tree).cell p) ≡ (field_of vdb self.old.tree).cell p)
            → steps.new ≤ steps.old + (8 + 3 * K) }
    {
        if self.write_near(k, p, change, steps) {
            return Ok(());
        }
        let _ = self.go_to(k, p, steps);
        if self.write_near(k, p, change, steps) {
            return Ok(());
        }
        self.write(p, change, steps)
    }

    /// Writes a voxel in the leaf that ends the accessor's path, if that leaf holds the voxel, by one visit. Returns
    /// whether it does; if not, nothing changes.
    #[inline(always)]
    fn write_near(&mut self, k: usize, p: Coord, change: Write<V>, steps: &mut Steps) -> bool
        requires { k < K }
        ensures answer { result ≡ has_leaf (last self.old.coords k) (path self.old.paths k) p }
        ensures found { IsInLastLeaf self.old.tree (last self.old.coords k) p → IsTrue result }
        ensures outcome { IsTrue result → IsOutcome V.eq vdb self.old.tree.limit (field_of vdb self.old.tree)
            (write p change (field_of vdb self.old.tree)) (field_of vdb self.new.tree) (Ok tt) }
        ensures limit { self.new.tree.limit ≡ self.old.tree.limit }
        ensures alone { IsTrue result → IsVoxelWritten vdb self.old.tree self.new.tree p (written change ((field_of vdb self.old.tree).cell p)) }
        ensures elsewhere { KeepsElsewhere vdb self.old.tree self.new.tree p }
        ensures last { IsTrue result → self.new.coords ≡ slice_set self.old.coords k (Some p) }
        ensures untouched { result ≡ false → self.new ≡ self.old }
        ensures steps { steps.new ≤ steps.old + (if result then 1 else 0) }
    {
        if !self.write_in_leaf(k, p, change, steps) {
            return false;
        }
        self.coords[k] = Some(p);
        true
    }

    /// Writes a voxel in the leaf that ends the accessor's path, if that leaf holds the voxel, by one visit and without
    /// memory. Returns whether it does; if not, nothing changes. The accessor keeps the coordinate that it was given.
    #[inline(always)]
    pub fn write_in_leaf(&mut self, k: usize, p: Coord, change: Write<V>, steps: &mut Steps) -> bool
        requires { k < K }
        ensures answer { result ≡ has_leaf (last self.old.coords k) (path self.old.paths k) p }
        ensures found { IsInLastLeaf self.old.tree (last self.old.coords k) p → IsTrue result }
        ensures outcome { IsTrue result → IsOutcome V.eq vdb self.old.tree.limit (field_of vdb self.old.tree)
            (write p change (field_of vdb self.old.tree)) (field_of vdb self.new.tree) (Ok tt) }
        ensures limit { self.new.tree.limit ≡ self.old.tree.limit }
        ensures alone { IsTrue result → IsVoxelWritten vdb self.old.tree self.new.tree p (written change ((field_of vdb self.old.tree).cell p)) }
        ensures whole { IsTrue result → IsWhole vdb self.new.tree (path self.new.paths k) p }
        ensures elsewhere { KeepsElsewhere vdb self.old.tree self.new.tree p }
        ensures paths { self.new.paths ≡ self.old.paths }
        ensures last { self.new.coords ≡ self.old.coords }
        ensures untouched { result ≡ false → self.new ≡ self.old }
        ensures steps { steps.new ≤ steps.old + (if result then 1 else 0) }
    {
        let Some(q) = self.coords[k] else {
            return false;
        };
        let path = self.paths[k];
        let written = self.tree.write_near(&path, q, p, change, steps);
        let _ = self.tree.limit(); // no more upper extents than the limit hold anything but the background
        written
    }

    /// Writes a voxel that has a leaf, if the lowest node of the accessor's path that contains the voxel is a lower node,
    /// by two visits and without memory. The accessor then caches the path to the voxel. Returns whether this is so; if
    /// not, nothing changes, and at most the lower node is visited.
    #[inline(always)]
    pub fn write_in_lower(
        &mut self,
        k: usize,
        p: Coord,
        change: Write<V>,
        steps: &mut Steps,
    ) -> bool
        requires { k < K }
        ensures answer { result ≡ has_lower (last self.old.coords k) (path self.old.paths k) p && in_leaf vdb self.old.tree p }
        ensures outcome { IsTrue result → IsOutcome V.eq vdb self.old.tree.limit (field_of vdb self.old.tree)
            (write p change (field_of vdb self.old.tree)) (field_of vdb self.new.tree) (Ok tt) }
        ensures limit { self.new.tree.limit ≡ self.old.tree.limit }
        ensures alone { IsTrue result → IsVoxelWritten vdb self.old.tree self.new.tree p (written change ((field_of vdb self.old.tree).cell p)) }
        ensures whole { IsTrue result → IsWhole vdb self.new.tree (path self.new.paths k) p }
        ensures elsewhere { KeepsElsewhere vdb self.old.tree self.new.tree p }
        ensures others { (j : ℕ) → j ≢ k → path self.new.paths j ≡ path self.old.paths j }
        ensures last { IsTrue result → self.new.coords ≡ slice_set self.old.coords k (Some p) }
        ensures untouched { result ≡ false → self.new ≡ self.old }
        ensures steps { steps.new ≤ steps.old + ((if has_lower (last self.old.coords k) (path self.old.paths k) p then 1 else 0) + (if result then 1 else 0)) }
    {
        let Some(near) = self.coords[k] else {
            return false;
        };
        let mut path = self.paths[k];
        let written = self.tree.write_in_lower(&mut path, near, p, change, steps);
        let _ = self.tree.limit(); // no more upper extents than the limit hold anything but the background
        if written {
            self.paths[k] = path;
            self.coords[k] = Some(p);
        }
        written
    }

    /// Returns a grid with the same cells, tiles, nodes, background and limit, and with accessors that were given no
    /// coordinate and cache no node. It fails with `Memory` after an allocation failure.
    pub fn try_copy(&self) -> Result<Self, TreeRefusal>
        ensures field { IfOk result (λ copy. field_of vdb copy.tree ≡ field_of vdb self.now.tree) }
        ensures limit { IfOk result (λ copy. copy.tree.limit ≡ self.now.tree.limit) }
        ensures same { IfOk result (λ copy. IsSameTree vdb self.now.tree copy.tree) }
        ensures last { IfOk result (λ copy. (k : ℕ) → last copy.coords k ≡ None) }
        ensures empty { IfOk result (λ copy. (k : ℕ) → path copy.paths k ≡ Empty) }
        ensures memory { IfErr result (λ refusal. refusal ≡ Memory) }
    {
        let tree = self.tree.try_copy()?;
        Ok(Grid::with_unused_accessors(tree))
    }
}

/// Returns the same coordinate, made from its components. A call takes a coordinate by its address: one that is made
/// for a call alone leaves the other in registers.
#[inline(always)]
fn copied(p: Coord) -> Coord
    ensures { result ≡ p }
{
    let Coord { x, y, z } = p;
    Coord { x, y, z }
}
