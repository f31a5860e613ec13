//! Calls that change a grid beyond a voxel: each changes the tree, and then, unless every path stays, traces the path of
//! each accessor again.

ghost use Rattle.std.specs.Prelude.{◌≡◌, ◌≢◌, ◌+◌, ◌*◌, ◌≤◌, Err, false, IfErr, IsOk, IsTrue, OnErr, OnOk, true};
ghost use Rattle.vdb_coord.specs.Blocks.{key, vdb};
ghost use Rattle.vdb_coord.specs.declared.Coord.{Coord};
ghost use Rattle.vdb_coord.specs.declared.Level.{Level};
ghost use Rattle.vdb_node.specs.declared.Entry.TheVariants.{Tile};
ghost use Rattle.vdb_tree.specs.Changes.{AddsNodes};
ghost use Rattle.vdb_tree.specs.Field.{clip as clipped, combine, dilate as dilation, erode as erosion, fill as filled, intersect as intersected, replace as replaced, subtract as subtracted, iterations as iterated, unite as united};
ghost use Rattle.vdb_tree.specs.Layout.{entry_over, field_of, root_at};
ghost use Rattle.vdb_tree.specs.Leaves.{HasLeaves, IsLeafAround, with_leaf};
ghost use Rattle.vdb_tree.specs.Nodes.{IsActiveIn, KeepsElsewhere, MakesNoKey, MakesOnly};
ghost use Rattle.vdb_tree.specs.Outcome.{IsOutcome};
ghost use Rattle.vdb_tree.specs.Paths.{in_leaf};
ghost use Rattle.vdb_tree.specs.Smallest.{IsLeast};
ghost use Rattle.vdb_tree.specs.SplitBox.{IsCovered};
ghost use Rattle.vdb_tree.specs.Table.{HasCapacity};
ghost use Rattle.vdb_tree.specs.declared.refusal.TreeRefusal.TheVariants.{Memory, RootLimit};
ghost use Rattle.vdb_composite.specs.SumOutcome.{IsSumOutcome};
ghost use Rattle.vdb_morph.specs.Growth.{IsGrowth};

use crate::Grid;
use crate::accessors::{nowhere, retrace};
use vdb_composite::SumRefusal;
use vdb_coord::{Bounds, Coord};
use vdb_node::{Leaf, Stored};
use vdb_pool::Steps;
use vdb_tree::{Tree, TreeRefusal};
use vdb_value::Cell;

impl<V: Stored<512> + Stored<64> + Stored<8>, const K: usize> Grid<V, K> {
    /// Sets each coordinate of the box to this cell, as `vdb_region::fill` does. It fails with `RootLimit` or
    /// `Memory`, and then every cell stays.
    pub fn fill(
        &mut self,
        bounds: Bounds,
        cell: Cell<V>,
        steps: &mut Steps,
    ) -> Result<(), TreeRefusal>
        ensures outcome { IsOutcome V.eq vdb self.old.tree.limit (field_of vdb self.old.tree)
            (filled bounds cell (field_of vdb self.old.tree)) (field_of vdb self.new.tree) result }
        ensures limit { self.new.tree.limit ≡ self.old.tree.limit }
        ensures tiles { OnOk result ((level : Level) (p : Coord) → IsCovered vdb bounds level p → entry_over vdb level self.new.tree p ≡ Tile cell) }
        ensures last { self.new.coords ≡ self.old.coords }
        ensures given_back { result ≡ Err Memory → IsLeast V.eq vdb self.new.tree }
    {
        let outcome = vdb_region::fill(&mut self.tree, bounds, cell, steps);
        retrace(&self.tree, &self.coords, &mut self.paths, steps);
        self.near_path = nowhere(&self.tree);
        outcome
    }

    /// Sets each coordinate outside the box to the background, inactive, as `vdb_region::clip` does. It fails with
    /// `Memory`, and then every cell stays.
    pub fn clip(&mut self, bounds: Bounds, steps: &mut Steps) -> Result<(), TreeRefusal>
        ensures outcome { IsOutcome V.eq vdb self.old.tree.limit (field_of vdb self.old.tree)
            (clipped bounds (field_of vdb self.old.tree)) (field_of vdb self.new.tree) result }
        ensures limit { self.new.tree.limit ≡ self.old.tree.limit }
        ensures last { self.new.coords ≡ self.old.coords }
        ensures memory { IfErr result (λ refusal. refusal ≡ Memory) }
        ensures given_back { result ≡ Err Memory → IsLeast V.eq vdb self.new.tree }
    {
        let outcome = vdb_region::clip(&mut self.tree, bounds, steps);
        retrace(&self.tree, &self.coords, &mut self.paths, steps);
        self.near_path = nowhere(&self.tree);
        outcome
    }

    /// Collapses each node whose cells are all equal into a tile, as the tree's `prune` does. No cell changes.
    pub fn prune(&mut self, steps: &mut Steps)
        ensures field { field_of vdb self.new.tree ≡ field_of vdb self.old.tree }
        ensures limit { self.new.tree.limit ≡ self.old.tree.limit }
        ensures last { self.new.coords ≡ self.old.coords }
        ensures least { IsLeast V.eq vdb self.new.tree }
    {
        self.tree.prune(steps);
        retrace(&self.tree, &self.coords, &mut self.paths, steps);
        self.near_path = nowhere(&self.tree);
    }

    /// Gives each active voxel of the box a leaf, as the tree's `voxelise` does. It fails with `Memory`. Every cell
    /// stays, with or without an error.
    pub fn voxelise(&mut self, bounds: Bounds, steps: &mut Steps) -> Result<(), TreeRefusal>
        ensures field { field_of vdb self.new.tree ≡ field_of vdb self.old.tree }
        ensures limit { self.new.tree.limit ≡ self.old.tree.limit }
        ensures last { self.new.coords ≡ self.old.coords }
        ensures leaves { OnOk result (HasLeaves vdb self.new.tree bounds) }
        ensures made { OnOk result (MakesOnly vdb (IsActiveIn vdb bounds) self.old.tree self.new.tree) }
        ensures adds { OnOk result (AddsNodes vdb self.old.tree self.new.tree) }
        ensures keys { OnOk result (MakesNoKey self.old.tree self.new.tree) }
        ensures memory { IfErr result (λ refusal. refusal ≡ Memory) }
        ensures given_back { IfErr result (λ _. IsLeast V.eq vdb self.new.tree) }
    {
        let outcome = self.tree.voxelise(bounds, steps);
        retrace(&self.tree, &self.coords, &mut self.paths, steps);
        self.near_path = nowhere(&self.tree);
        outcome
    }

    /// Puts a leaf into the leaf extent around a coordinate, as the tree's `touch_leaf` does. No cell changes. It fails
    /// with `RootLimit` if the root table has neither an entry for the coordinate nor room for one, and with `Memory` if
    /// an allocation fails.
    pub fn touch_leaf(&mut self, p: Coord, steps: &mut Steps) -> Result<(), TreeRefusal>
        ensures field { field_of vdb self.new.tree ≡ field_of vdb self.old.tree }
        ensures limit { self.new.tree.limit ≡ self.old.tree.limit }
        ensures made { OnOk result (IsTrue (in_leaf vdb self.new.tree p)) }
        ensures leaves { (q : Coord) → IsTrue (in_leaf vdb self.old.tree q) → IsTrue (in_leaf vdb self.new.tree q) }
        ensures there { IsTrue (in_leaf vdb self.old.tree p) → IsOk result }
        ensures elsewhere { KeepsElsewhere vdb self.old.tree self.new.tree p }
        ensures table { (k : Coord) → k ≢ key vdb p → root_at self.new.tree.root k ≡ root_at self.old.tree.root k }
        ensures capacity { HasCapacity self.old.tree (key vdb p) → IfErr result (λ refusal. refusal ≡ Memory) }
        ensures full { (HasCapacity self.old.tree (key vdb p) → ⊥) → (result ≡ Err RootLimit) × (self.new.tree ≡ self.old.tree) }
        ensures last { self.new.coords ≡ self.old.coords }
        ensures steps { steps.new ≤ steps.old + (4 + 3 * K) }
    {
        let outcome = self.tree.touch_leaf(p, steps);
        retrace(&self.tree, &self.coords, &mut self.paths, steps);
        self.near_path = nowhere(&self.tree);
        outcome
    }

    /// Exchanges the leaf around a coordinate with another leaf, as the tree's `swap_leaf` does. It takes no memory.
    /// Returns whether the coordinate has a leaf; if not, nothing changes.
    pub fn swap_leaf(&mut self, p: Coord, leaf: &mut Leaf<V, 3, 8>, steps: &mut Steps) -> bool
        ensures answer { result ≡ in_leaf vdb self.old.tree p }
        ensures field { IsTrue result → field_of vdb self.new.tree ≡ with_leaf vdb p leaf.old (field_of vdb self.old.tree) }
        ensures taken { IsTrue result → IsLeafAround vdb (field_of vdb self.old.tree) p leaf.new }
        ensures leaves { (q : Coord) → in_leaf vdb self.new.tree q ≡ in_leaf vdb self.old.tree q }
        ensures untouched { result ≡ false → (self.new ≡ self.old) × (leaf.new ≡ leaf.old) }
        ensures limit { self.new.tree.limit ≡ self.old.tree.limit }
        ensures last { self.new.coords ≡ self.old.coords }
        ensures steps { steps.new ≤ steps.old + 3 }
    {
        self.tree.swap_leaf(p, leaf, steps) // each path stays whole, so none is traced again
    }

    /// Activates each voxel that is active in the other tree, as `vdb_topology::unite` does. It fails with
    /// `RootLimit` or `Memory`, and then every cell stays.
    pub fn unite<X: Stored<512> + Stored<64> + Stored<8>>(
        &mut self,
        other: &Tree<X>,
        steps: &mut Steps,
    ) -> Result<(), TreeRefusal>
        ensures outcome { IsOutcome V.eq vdb self.old.tree.limit (field_of vdb self.old.tree)
            (united (field_of vdb self.old.tree) (field_of vdb other.now)) (field_of vdb self.new.tree) result }
        ensures limit { self.new.tree.limit ≡ self.old.tree.limit }
        ensures last { self.new.coords ≡ self.old.coords }
    {
        let outcome = vdb_topology::unite(&mut self.tree, other, steps);
        retrace(&self.tree, &self.coords, &mut self.paths, steps);
        self.near_path = nowhere(&self.tree);
        outcome
    }

    /// Deactivates each voxel that is active in the other tree, as `vdb_topology::subtract` does. It fails with
    /// `Memory`, and then every cell stays.
    pub fn subtract<X: Stored<512> + Stored<64> + Stored<8>>(
        &mut self,
        other: &Tree<X>,
        steps: &mut Steps,
    ) -> Result<(), TreeRefusal>
        ensures outcome { IsOutcome V.eq vdb self.old.tree.limit (field_of vdb self.old.tree)
            (subtracted (field_of vdb self.old.tree) (field_of vdb other.now)) (field_of vdb self.new.tree) result }
        ensures limit { self.new.tree.limit ≡ self.old.tree.limit }
        ensures last { self.new.coords ≡ self.old.coords }
        ensures memory { IfErr result (λ refusal. refusal ≡ Memory) }
    {
        let outcome = vdb_topology::subtract(&mut self.tree, other, steps);
        retrace(&self.tree, &self.coords, &mut self.paths, steps);
        self.near_path = nowhere(&self.tree);
        outcome
    }

    /// Deactivates each voxel that isn't active in the other tree, as `vdb_topology::intersect` does. It fails with
    /// `Memory`, and then every cell stays.
    pub fn intersect<X: Stored<512> + Stored<64> + Stored<8>>(
        &mut self,
        other: &Tree<X>,
        steps: &mut Steps,
    ) -> Result<(), TreeRefusal>
        ensures outcome { IsOutcome V.eq vdb self.old.tree.limit (field_of vdb self.old.tree)
            (intersected (field_of vdb self.old.tree) (field_of vdb other.now)) (field_of vdb self.new.tree) result }
        ensures limit { self.new.tree.limit ≡ self.old.tree.limit }
        ensures last { self.new.coords ≡ self.old.coords }
        ensures memory { IfErr result (λ refusal. refusal ≡ Memory) }
    {
        let outcome = vdb_topology::intersect(&mut self.tree, other, steps);
        retrace(&self.tree, &self.coords, &mut self.paths, steps);
        self.near_path = nowhere(&self.tree);
        outcome
    }

    /// Sets each coordinate to the greater of the two trees' values, as `vdb_composite::maximum` does. It fails with
    /// `RootLimit` or `Memory`, and then the grid stays as it was.
    pub fn maximum(&mut self, other: &Tree<V>, steps: &mut Steps) -> Result<(), TreeRefusal>
        ensures outcome { IsOutcome V.eq vdb self.old.tree.limit (field_of vdb self.old.tree)
            (combine V.greater (field_of vdb self.old.tree) (field_of vdb other.now)) (field_of vdb self.new.tree) result }
        ensures limit { self.new.tree.limit ≡ self.old.tree.limit }
        ensures last { self.new.coords ≡ self.old.coords }
        ensures kept { OnErr result (self.new ≡ self.old) }
    {
        vdb_composite::maximum(&mut self.tree, other, steps)?;
        retrace(&self.tree, &self.coords, &mut self.paths, steps);
        self.near_path = nowhere(&self.tree);
        Ok(())
    }

    /// Sets each coordinate to the lesser of the two trees' values, as `vdb_composite::minimum` does. It fails with
    /// `RootLimit` or `Memory`, and then the grid stays as it was.
    pub fn minimum(&mut self, other: &Tree<V>, steps: &mut Steps) -> Result<(), TreeRefusal>
        ensures outcome { IsOutcome V.eq vdb self.old.tree.limit (field_of vdb self.old.tree)
            (combine V.lesser (field_of vdb self.old.tree) (field_of vdb other.now)) (field_of vdb self.new.tree) result }
        ensures limit { self.new.tree.limit ≡ self.old.tree.limit }
        ensures last { self.new.coords ≡ self.old.coords }
        ensures kept { OnErr result (self.new ≡ self.old) }
    {
        vdb_composite::minimum(&mut self.tree, other, steps)?;
        retrace(&self.tree, &self.coords, &mut self.paths, steps);
        self.near_path = nowhere(&self.tree);
        Ok(())
    }

    /// Copies the other tree's active cells, as `vdb_composite::replace` does. It fails with `RootLimit` or `Memory`,
    /// and then the grid stays as it was.
    pub fn replace(&mut self, other: &Tree<V>, steps: &mut Steps) -> Result<(), TreeRefusal>
        ensures outcome { IsOutcome V.eq vdb self.old.tree.limit (field_of vdb self.old.tree)
            (replaced (field_of vdb self.old.tree) (field_of vdb other.now)) (field_of vdb self.new.tree) result }
        ensures limit { self.new.tree.limit ≡ self.old.tree.limit }
        ensures last { self.new.coords ≡ self.old.coords }
        ensures kept { OnErr result (self.new ≡ self.old) }
    {
        vdb_composite::replace(&mut self.tree, other, steps)?;
        retrace(&self.tree, &self.coords, &mut self.paths, steps);
        self.near_path = nowhere(&self.tree);
        Ok(())
    }

    /// Sets each coordinate to the sum of its two values, as `vdb_composite::sum` does. Booleans have no sums. It
    /// fails with `SumRange`, `RootLimit` or `Memory`, and then the grid stays as it was.
    pub fn sum(&mut self, other: &Tree<V>, steps: &mut Steps) -> Result<(), SumRefusal>
        requires { V.SUMS ≡ true }
        ensures outcome { IsSumOutcome V.eq V.sum_of vdb self.old.tree.limit (field_of vdb self.old.tree)
            (field_of vdb other.now) (field_of vdb self.new.tree) result }
        ensures limit { self.new.tree.limit ≡ self.old.tree.limit }
        ensures last { self.new.coords ≡ self.old.coords }
        ensures kept { OnErr result (self.new ≡ self.old) }
    {
        vdb_composite::sum(&mut self.tree, other, steps)?;
        retrace(&self.tree, &self.coords, &mut self.paths, steps);
        self.near_path = nowhere(&self.tree);
        Ok(())
    }

    /// Activates, in each of 1 to 16 iterations, every voxel that has an active face neighbour, as
    /// `vdb_morph::dilate` does. It fails with `RootLimit` or `Memory`, and then every cell stays.
    pub fn dilate(&mut self, iterations: u32, steps: &mut Steps) -> Result<(), TreeRefusal>
        requires some { 1 ≤ iterations }
        requires few { iterations ≤ 16 }
        ensures outcome { IsGrowth V.eq vdb self.old.tree.limit (field_of vdb self.old.tree)
            (iterated iterations dilation (field_of vdb self.old.tree)) (field_of vdb self.new.tree) result }
        ensures limit { self.new.tree.limit ≡ self.old.tree.limit }
        ensures last { self.new.coords ≡ self.old.coords }
    {
        let outcome = vdb_morph::dilate(&mut self.tree, iterations, steps);
        retrace(&self.tree, &self.coords, &mut self.paths, steps);
        self.near_path = nowhere(&self.tree);
        outcome
    }

    /// Deactivates, in each of 1 to 16 iterations, every voxel that has an inactive face neighbour, as
    /// `vdb_morph::erode` does. It fails with `Memory`, and then every cell stays.
    pub fn erode(&mut self, iterations: u32, steps: &mut Steps) -> Result<(), TreeRefusal>
        requires some { 1 ≤ iterations }
        requires few { iterations ≤ 16 }
        ensures outcome { IsOutcome V.eq vdb self.old.tree.limit (field_of vdb self.old.tree)
            (iterated iterations erosion (field_of vdb self.old.tree)) (field_of vdb self.new.tree) result }
        ensures limit { self.new.tree.limit ≡ self.old.tree.limit }
        ensures last { self.new.coords ≡ self.old.coords }
        ensures memory { IfErr result (λ refusal. refusal ≡ Memory) }
    {
        let outcome = vdb_morph::erode(&mut self.tree, iterations, steps);
        retrace(&self.tree, &self.coords, &mut self.paths, steps);
        self.near_path = nowhere(&self.tree);
        outcome
    }
}
