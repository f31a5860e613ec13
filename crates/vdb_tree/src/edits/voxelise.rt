//! Leaves in place of active tiles.

ghost use Rattle.std.specs.Prelude.{◌≡◌, ◌<◌, false, true, Some, IfErr, IfNone, IfOk, IfSome, IsTrue, OnOk};
ghost use Rattle.vdb_coord.specs.Blocks.{key};
ghost use Rattle.vdb_coord.specs.Space.{is_inside};
ghost use Rattle.vdb_tree.specs.Changes.{AddsNodes, Keeps};
ghost use Rattle.vdb_tree.specs.Layout.{bits_of, cell_at, field_of};
ghost use Rattle.vdb_tree.specs.Leaves.{HasLeaves};
ghost use Rattle.vdb_tree.specs.Nodes.{IsActiveIn, MakesNoKey, MakesOnly};
ghost use Rattle.vdb_tree.specs.Parts.{IsEnd, end_level, left_count};
ghost use Rattle.vdb_tree.specs.Smallest.{IsLeast};
ghost use Rattle.vdb_tree.specs.Table.{HasCapacity};
ghost use Rattle.vdb_tree.specs.internal.Voxelised.{IsVoxelisedAround, IsVoxelisedFrom};
ghost use Rattle.vdb_tree.specs.declared.refusal.TreeRefusal.TheVariants.{Memory};

use crate::queries::ends::End;
use crate::{TreeOf, TreeRefusal};
use vdb_coord::{Bounds, Coord, Level};
use vdb_node::Stored;
use vdb_pool::Steps;

impl<
    V: Stored<WU> + Stored<WL> + Stored<WF>,
    const U: u32,
    const L: u32,
    const F: u32,
    const WU: usize,
    const WL: usize,
    const WF: usize,
> TreeOf<V, U, L, F, WU, WL, WF> {
    /// Makes a leaf of each active tile over a leaf extent that meets the box, so that every active voxel of the box lies in a
    /// leaf (OpenVDB's `Tree::voxelizeActiveTiles`, within a box). No cell changes. If the call succeeds, no other tile becomes
    /// a node and no node disappears. It goes through the leaves and the tiles that meet the box. It passes an active tile by
    /// leaf extents, and an inactive tile of any level, or an upper extent without an entry, at once.
    ///
    /// `Memory`: an allocation failed. The tree is then pruned, so that it has no node over a block of one cell, and the leaves
    /// that were made go back to their pool.
    pub fn voxelise(&mut self, bounds: Bounds, steps: &mut Steps) -> Result<(), TreeRefusal>
        ensures field { field_of (bits_of U L F) self.new ≡ field_of (bits_of U L F) self.old }
        ensures limit { self.new.limit ≡ self.old.limit }
        ensures leaves { OnOk result (HasLeaves (bits_of U L F) self.new bounds) }
        ensures made { OnOk result (MakesOnly (bits_of U L F) (IsActiveIn (bits_of U L F) bounds) self.old self.new) }
        ensures adds { OnOk result (AddsNodes (bits_of U L F) self.old self.new) }
        ensures keys { OnOk result (MakesNoKey self.old self.new) }
        ensures memory { IfErr result (λ refusal. refusal ≡ Memory) }
        ensures given_back { IfErr result (λ _. IsLeast V.eq (bits_of U L F) self.new) }
    {
        match self.make_leaves(bounds, steps) {
            Ok(()) => Ok(()),
            Err(refusal) => {
                self.prune(steps);
                Err(refusal)
            }
        }
    }

    /// Makes a leaf of each active tile over a leaf extent that meets the box, up to the first allocation that fails.
    fn make_leaves(&mut self, bounds: Bounds, steps: &mut Steps) -> Result<(), TreeRefusal>
        ensures field { field_of (bits_of U L F) self.new ≡ field_of (bits_of U L F) self.old }
        ensures limit { self.new.limit ≡ self.old.limit }
        ensures leaves { OnOk result (HasLeaves (bits_of U L F) self.new bounds) }
        ensures made { MakesOnly (bits_of U L F) (IsActiveIn (bits_of U L F) bounds) self.old self.new }
        ensures adds { AddsNodes (bits_of U L F) self.old self.new }
        ensures keys { MakesNoKey self.old self.new }
        ensures memory { IfErr result (λ refusal. refusal ≡ Memory) }
    {
        let mut next = Some(bounds.min());
        while let Some(p) = next {
            next = self.voxelise_from(bounds, p, steps)?;
        }
        Ok(())
    }

    /// Makes a leaf of the leaf extent around `p` if that is an active tile. Returns the first coordinate of the box past that
    /// leaf, or past the leaf or the inactive tile that was there.
    fn voxelise_from(
        &mut self,
        bounds: Bounds,
        p: Coord,
        steps: &mut Steps,
    ) -> Result<Option<Coord>, TreeRefusal>
        requires inside { IsTrue (is_inside bounds p) }
        ensures keeps { Keeps (bits_of U L F) self.old self.new }
        ensures adds { AddsNodes (bits_of U L F) self.old self.new }
        ensures made { MakesOnly (bits_of U L F) (IsActiveIn (bits_of U L F) bounds) self.old self.new }
        ensures keys { MakesNoKey self.old self.new }
        ensures done { IfOk result (IsVoxelisedFrom (bits_of U L F) self.new bounds p) }
        ensures inside { IfOk result (λ next. IfSome next (λ q. IsTrue (is_inside bounds q))) }
        ensures nearer { IfOk result (λ next. left_count (bits_of U L F) next < left_count (bits_of U L F) (Some p)) }
        ensures memory { IfErr result (λ refusal. refusal ≡ Memory) }
    {
        match self.inactive_after(bounds, p, steps) {
            Some(next) => Ok(next),
            None => self.voxelise_tile(bounds, p, steps),
        }
    }

    /// Returns the first coordinate of the box past the leaf or the inactive tile around `p`, or `None` if an active tile,
    /// under an entry of the table, is there.
    fn inactive_after(&self, bounds: Bounds, p: Coord, steps: &mut Steps) -> Option<Option<Coord>>
        requires inside { IsTrue (is_inside bounds p) }
        ensures done { IfSome result (IsVoxelisedFrom (bits_of U L F) self.now bounds p) }
        ensures inside { IfSome result (λ next. IfSome next (λ q. IsTrue (is_inside bounds q))) }
        ensures nearer { IfSome result (λ next. left_count (bits_of U L F) next < left_count (bits_of U L F) (Some p)) }
        ensures active { IfNone result ((cell_at (bits_of U L F) self.now p).on ≡ true) }
        ensures capacity { IfNone result (HasCapacity self.now (key (bits_of U L F) p)) }
    {
        let end = self.end_of(p, steps);
        if self.is_inactive(p, end) {
            return Some(self.start_past_inactive(bounds, p, end));
        }
        None
    }

    /// Returns the first coordinate of the box past the leaf or the inactive tile in which the descent to `p` ends.
    fn start_past_inactive(&self, bounds: Bounds, p: Coord, end: End<V>) -> Option<Coord>
        requires inside { IsTrue (is_inside bounds p) }
        requires end { IsEnd (bits_of U L F) self.now p end }
        ensures done { IsVoxelisedAround (bits_of U L F) self.now (end_level (bits_of U L F) self.now p) p → IsVoxelisedFrom (bits_of U L F) self.now bounds p result }
        ensures inside { IfSome result (λ q. IsTrue (is_inside bounds q)) }
        ensures nearer { left_count (bits_of U L F) result < left_count (bits_of U L F) (Some p) }
    {
        bounds.next_coord_in(self.bits(), self.level_of(p, end), p)
    }

    /// Returns the level of the tile or the leaf in which the descent to `p` ends.
    fn level_of(&self, p: Coord, end: End<V>) -> Level
        requires { IsEnd (bits_of U L F) self.now p end }
        ensures { result ≡ end_level (bits_of U L F) self.now p }
    {
        let _ = &self.root;
        match end {
            End::Leaf(_) => Level::Leaf,
            End::Tile(level, _) => level,
        }
    }

    /// Returns whether the descent to `p` ends in a leaf or an inactive tile.
    fn is_inactive(&self, p: Coord, end: End<V>) -> bool
        requires { IsEnd (bits_of U L F) self.now p end }
        ensures inactive { IsTrue result → IsVoxelisedAround (bits_of U L F) self.now (end_level (bits_of U L F) self.now p) p }
        ensures active { result ≡ false → (cell_at (bits_of U L F) self.now p).on ≡ true }
        ensures capacity { result ≡ false → HasCapacity self.now (key (bits_of U L F) p) }
    {
        let _ = &self.root;
        match end {
            End::Leaf(_) => true,
            End::Tile(_, cell) => !cell.on,
        }
    }

    /// Makes a leaf around `p`, which lies in a tile. Returns the first coordinate of the box past that leaf.
    fn voxelise_tile(
        &mut self,
        bounds: Bounds,
        p: Coord,
        steps: &mut Steps,
    ) -> Result<Option<Coord>, TreeRefusal>
        requires inside { IsTrue (is_inside bounds p) }
        requires capacity { HasCapacity self.old (key (bits_of U L F) p) }
        ensures keeps { Keeps (bits_of U L F) self.old self.new }
        ensures adds { AddsNodes (bits_of U L F) self.old self.new }
        ensures made { (cell_at (bits_of U L F) self.old p).on ≡ true → MakesOnly (bits_of U L F) (IsActiveIn (bits_of U L F) bounds) self.old self.new }
        ensures keys { (cell_at (bits_of U L F) self.old p).on ≡ true → MakesNoKey self.old self.new }
        ensures done { IfOk result (IsVoxelisedFrom (bits_of U L F) self.new bounds p) }
        ensures inside { IfOk result (λ next. IfSome next (λ q. IsTrue (is_inside bounds q))) }
        ensures nearer { IfOk result (λ next. left_count (bits_of U L F) next < left_count (bits_of U L F) (Some p)) }
        ensures memory { IfErr result (λ refusal. refusal ≡ Memory) }
    {
        self.leaf_around(p, steps)?;
        match bounds.next_coord_in(self.bits(), Level::Leaf, p) {
            Some(next) => Ok(Some(next)),
            None => Ok(None),
        }
    }
}
