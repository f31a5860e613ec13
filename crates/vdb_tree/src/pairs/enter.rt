//! Entries of the root table for the active upper extents of another tree.

ghost use Rattle.std.specs.Prelude.{◌≡◌, ◌⊎◌, ◌<◌, ◌≤◌, true, false, IfErr, IsSome, IsTrue, None, OnOk};
ghost use Rattle.vdb_coord.specs.Blocks.{key};
ghost use Rattle.vdb_coord.specs.declared.Coord.{Coord};
ghost use Rattle.vdb_tree.specs.internal.ActiveCapacity.{HasCapacityForActive, IsActiveKey, LacksCapacityForActive};
ghost use Rattle.vdb_tree.specs.Changes.{IsSwept, Keeps};
ghost use Rattle.vdb_tree.specs.ConstantBlocks.{roots};
ghost use Rattle.vdb_tree.specs.Field.{unite};
ghost use Rattle.vdb_tree.specs.Layout.{bits_of, cell_at, field_of, root_at};
ghost use Rattle.vdb_tree.specs.Nodes.{MakesNoNode};
ghost use Rattle.vdb_tree.specs.Outcome.{ObeysLimit};
ghost use Rattle.vdb_tree.specs.Table.{HasCapacity};
ghost use Rattle.vdb_tree.specs.declared.refusal.TreeRefusal.TheVariants.{Memory, RootLimit};

use crate::{TreeOf, TreeRefusal};
use vdb_coord::Coord;
use vdb_node::Stored;
use vdb_pool::Steps;

impl<
    V: Stored<WU> + Stored<WL> + Stored<WF>,
    const U: u32,
    const L: u32,
    const F: u32,
    const WU: usize,
    const WL: usize,
    const WF: usize,
> TreeOf<V, U, L, F, WU, WL, WF> {
    /// Gives an entry to each upper extent in which the other tree has an active voxel, so that voxels of it can become active.
    ///
    /// If the table has no capacity for these entries, this first removes the entries of upper extents that are all inactive
    /// background. `RootLimit`: with those voxels active there would be more upper extents with a cell other than the inactive
    /// background than the limit. `Memory`: an allocation failed, and the limit would hold. Both errors keep every cell.
    pub(crate) fn enter_active<X: Stored<WU> + Stored<WL> + Stored<WF>>(
        &mut self,
        other: &TreeOf<X, U, L, F, WU, WL, WF>,
        steps: &mut Steps,
    ) -> Result<(), TreeRefusal>
        ensures keeps { Keeps (bits_of U L F) self.old self.new }
        ensures nodes { MakesNoNode (bits_of U L F) self.old self.new }
        ensures entered { OnOk result ((q : Coord) → (cell_at (bits_of U L F) other.now q).on ≡ true → IsSome (root_at self.new.root (key (bits_of U L F) q))) }
        ensures limit { ObeysLimit V.eq (bits_of U L F) self.old.limit
            (unite (field_of (bits_of U L F) self.old) (field_of (bits_of U L F) other.now)) result }
    {
        self.make_capacity_for_active(other, steps)?;
        self.enter_active_blocks(other, steps)
    }

    /// Makes sure that the table has capacity for each upper extent in which the other tree has an active voxel, by removing
    /// background entries.
    fn make_capacity_for_active<X: Stored<WU> + Stored<WL> + Stored<WF>>(
        &mut self,
        other: &TreeOf<X, U, L, F, WU, WL, WF>,
        steps: &mut Steps,
    ) -> Result<(), TreeRefusal>
        ensures keeps { Keeps (bits_of U L F) self.old self.new }
        ensures nodes { MakesNoNode (bits_of U L F) self.old self.new }
        ensures capacity { OnOk result (HasCapacityForActive (bits_of U L F) other.now self.new) }
        ensures within { OnOk result (roots V.eq (bits_of U L F) (unite (field_of (bits_of U L F) self.old) (field_of (bits_of U L F) other.now)) ≤ self.old.limit) }
        ensures full { IfErr result (λ refusal. (refusal ≡ RootLimit)
            × (self.old.limit < roots V.eq (bits_of U L F) (unite (field_of (bits_of U L F) self.old) (field_of (bits_of U L F) other.now)))) }
    {
        self.keeps_unions_to_limit(other);
        if self.has_capacity_for_active(other, steps) {
            return Ok(());
        }
        self.erase_background(steps);
        self.keeps_unions_to_limit(other);
        if self.has_capacity_for_active(other, steps) {
            return Ok(());
        }
        Err(TreeRefusal::RootLimit)
    }

    /// Does nothing. Its contract states a fact of every two trees: if the table has capacity for the active upper extents of
    /// the other tree, the union keeps to the limit, and if a swept table hasn't, the union exceeds it.
    fn keeps_unions_to_limit<X: Stored<WU> + Stored<WL> + Stored<WF>>(
        &self,
        other: &TreeOf<X, U, L, F, WU, WL, WF>,
    )
        ensures within { HasCapacityForActive (bits_of U L F) other.now self.now
            → roots V.eq (bits_of U L F) (unite (field_of (bits_of U L F) self.now) (field_of (bits_of U L F) other.now)) ≤ self.now.limit }
        ensures full { LacksCapacityForActive (bits_of U L F) other.now self.now → IsSwept (bits_of U L F) self.now
            → self.now.limit < roots V.eq (bits_of U L F) (unite (field_of (bits_of U L F) self.now) (field_of (bits_of U L F) other.now)) }
    {
        let _ = &self.root;
        let _ = &other.root;
    }

    /// Returns whether the table has capacity for each upper extent in which the other tree has an active voxel.
    fn has_capacity_for_active<X: Stored<WU> + Stored<WL> + Stored<WF>>(
        &self,
        other: &TreeOf<X, U, L, F, WU, WL, WF>,
        steps: &mut Steps,
    ) -> bool
        ensures capacity { IsTrue result → HasCapacityForActive (bits_of U L F) other.now self.now }
        ensures full { result ≡ false → LacksCapacityForActive (bits_of U L F) other.now self.now }
    {
        let mut capacity = self.limit as usize - self.root.len();
        if other.root.len() <= capacity {
            return true;
        }
        let mut passed = None;
        'keys: while let Some(key) = other.next_key(passed) {
            if self.lacks_entry_for(other, other.key_corner(key), steps) {
                if capacity == 0 {
                    return false;
                }
                capacity -= 1;
            }
            passed = Some(key);
        }
        true
    }

    /// Returns whether the other tree has an active voxel in the upper extent around p, and this table has no entry for it.
    fn lacks_entry_for<X: Stored<WU> + Stored<WL> + Stored<WF>>(
        &self,
        other: &TreeOf<X, U, L, F, WU, WL, WF>,
        p: Coord,
        steps: &mut Steps,
    ) -> bool
        ensures lacks { IsTrue result → (root_at self.now.root (key (bits_of U L F) p) ≡ None) × IsActiveKey (bits_of U L F) other.now (key (bits_of U L F) p) }
        ensures held { result ≡ false → IsSome (root_at self.now.root (key (bits_of U L F) p))
            ⊎ ((q : Coord) → key (bits_of U L F) q ≡ key (bits_of U L F) p → (cell_at (bits_of U L F) other.now q).on ≡ false) }
    {
        if self.root.get(self.key(p)).is_some() {
            return false;
        }
        other.is_active_root(p, steps)
    }

    /// Returns whether the tree has an active voxel in the upper extent around p.
    fn is_active_root(&self, p: Coord, steps: &mut Steps) -> bool
        ensures found { IsTrue result → IsActiveKey (bits_of U L F) self.now (key (bits_of U L F) p) }
        ensures none { result ≡ false → (q : Coord) → key (bits_of U L F) q ≡ key (bits_of U L F) p → (cell_at (bits_of U L F) self.now q).on ≡ false }
    {
        let _ = &self.root;
        self.has_active(p, steps)
    }

    /// Gives an entry to each upper extent in which the other tree has an active voxel.
    fn enter_active_blocks<X: Stored<WU> + Stored<WL> + Stored<WF>>(
        &mut self,
        other: &TreeOf<X, U, L, F, WU, WL, WF>,
        steps: &mut Steps,
    ) -> Result<(), TreeRefusal>
        requires { HasCapacityForActive (bits_of U L F) other.now self.old }
        ensures keeps { Keeps (bits_of U L F) self.old self.new }
        ensures nodes { MakesNoNode (bits_of U L F) self.old self.new }
        ensures entered { OnOk result ((q : Coord) → (cell_at (bits_of U L F) other.now q).on ≡ true → IsSome (root_at self.new.root (key (bits_of U L F) q))) }
        ensures memory { IfErr result (λ refusal. refusal ≡ Memory) }
    {
        let mut passed = None;
        'keys: while let Some(key) = other.next_key(passed) {
            self.enter_if_active(other, other.key_corner(key), steps)?;
            passed = Some(key);
        }
        Ok(())
    }

    /// Gives the upper extent around p an entry if the other tree has an active voxel in it.
    fn enter_if_active<X: Stored<WU> + Stored<WL> + Stored<WF>>(
        &mut self,
        other: &TreeOf<X, U, L, F, WU, WL, WF>,
        p: Coord,
        steps: &mut Steps,
    ) -> Result<(), TreeRefusal>
        requires { HasCapacityForActive (bits_of U L F) other.now self.old }
        ensures keeps { Keeps (bits_of U L F) self.old self.new }
        ensures nodes { MakesNoNode (bits_of U L F) self.old self.new }
        ensures keys { (k : Coord) → IsSome (root_at self.old.root k) → IsSome (root_at self.new.root k) }
        ensures capacity { HasCapacityForActive (bits_of U L F) other.now self.new }
        ensures entered { OnOk result (IsActiveKey (bits_of U L F) other.now (key (bits_of U L F) p) → IsSome (root_at self.new.root (key (bits_of U L F) p))) }
        ensures memory { IfErr result (λ refusal. refusal ≡ Memory) }
    {
        if !other.is_active_root(p, steps) {
            return Ok(());
        }
        self.has_capacity_around(other, p);
        self.enter_root_block(p)
    }

    /// Does nothing. Its contract states a fact of every two trees: a table with capacity for the active upper extents of the
    /// other tree has capacity for each of them.
    fn has_capacity_around<X: Stored<WU> + Stored<WL> + Stored<WF>>(
        &self,
        other: &TreeOf<X, U, L, F, WU, WL, WF>,
        p: Coord,
    )
        requires active { IsActiveKey (bits_of U L F) other.now (key (bits_of U L F) p) }
        requires capacity { HasCapacityForActive (bits_of U L F) other.now self.now }
        ensures { HasCapacity self.now (key (bits_of U L F) p) }
    {
        let _ = &self.root;
        let _ = other;
        let _ = p;
    }
}
