//! Root table entries for the upper extents that meet a box, within the limit of the table.

ghost use Rattle.std.specs.Prelude.{◌≡◌, ◌≢◌, ◌⊎◌, ◌<◌, ◌≤◌, false, IfErr, IsOk, IsSome, IsTrue, OnOk};
ghost use Rattle.vdb_coord.specs.Blocks.{key};
ghost use Rattle.vdb_coord.specs.Entries.{blocks_meeting};
ghost use Rattle.vdb_coord.specs.Space.{Box, is_inside};
ghost use Rattle.vdb_coord.specs.declared.Coord.{Coord};
ghost use Rattle.vdb_coord.specs.declared.Level.TheVariants.{Upper};
ghost use Rattle.vdb_tree.specs.Changes.{AddsNodes, IsSwept, Keeps, SameDescent};
ghost use Rattle.vdb_tree.specs.internal.Erase.{AddsBackgroundTiles};
ghost use Rattle.vdb_tree.specs.Field.{fill};
ghost use Rattle.vdb_tree.specs.Layout.{bits_of, field_of, background_cell, root_at, root_entry};
ghost use Rattle.vdb_tree.specs.Nodes.{MakesKeysIn, MakesNoKey, MakesNoNode};
ghost use Rattle.vdb_tree.specs.Outcome.{ObeysLimit};
ghost use Rattle.vdb_tree.specs.ConstantBlocks.{roots};
ghost use Rattle.vdb_tree.specs.SplitBox.{IsSplit};
ghost use Rattle.vdb_tree.specs.Capacity.{HasCapacityFor, LacksCapacityFor};
ghost use Rattle.vdb_tree.specs.Table.{HasCapacity};
ghost use Rattle.vdb_tree.specs.declared.refusal.TreeRefusal.TheVariants.{Memory, RootLimit};

use crate::{TreeOf, TreeRefusal};
use vdb_coord::{Bounds, Coord, Level};
use vdb_node::{Entry, Stored};
use vdb_pool::Steps;
use vdb_value::Cell;

impl<
    V: Stored<WU> + Stored<WL> + Stored<WF>,
    const U: u32,
    const L: u32,
    const F: u32,
    const WU: usize,
    const WL: usize,
    const WF: usize,
> TreeOf<V, U, L, F, WU, WL, WF> {
    /// Gives each upper extent that meets the box an entry if the cell isn't the inactive background, so that the box can be
    /// filled with it.
    ///
    /// If the table has no capacity for these entries, this first removes the entries of upper extents that are all inactive
    /// background. `RootLimit`: the filled tree would have more upper extents with a cell other than the inactive background
    /// than the limit. `Memory`: an allocation failed, and the limit would hold. Both errors keep every cell. However large the
    /// box is, this passes over at most as many of its upper extents as the limit.
    pub(crate) fn enter_box(
        &mut self,
        bounds: Bounds,
        cell: Cell<V>,
        steps: &mut Steps,
    ) -> Result<(), TreeRefusal>
        ensures keeps { Keeps (bits_of U L F) self.old self.new }
        ensures nodes { MakesNoNode (bits_of U L F) self.old self.new }
        ensures keys { MakesKeysIn (bits_of U L F) bounds self.old self.new }
        ensures no_keys { cell ≡ background_cell self.old → MakesNoKey self.old self.new }
        ensures adds { (cell ≡ background_cell self.old) ⊎ HasCapacityFor (bits_of U L F) self.old bounds → AddsNodes (bits_of U L F) self.old self.new }
        ensures entered { OnOk result ((p : Coord) → IsTrue (is_inside bounds p) → (cell ≡ background_cell self.new) ⊎ IsSome (root_at self.new.root (key (bits_of U L F) p))) }
        ensures limit { ObeysLimit V.eq (bits_of U L F) self.old.limit (fill bounds cell (field_of (bits_of U L F) self.old)) result }
        ensures background_cell { cell ≡ background_cell self.old → IsOk result }
        ensures edges { (box : Box) → IsSplit (bits_of U L F) box (background_cell self.old) self.old → IsSplit (bits_of U L F) box (background_cell self.old) self.new }
    {
        self.keeps_fills_to_limit(bounds);
        if self.is_background(cell) {
            return Ok(());
        }
        self.make_capacity_for(bounds, steps)?;
        self.enter_blocks(bounds)
    }

    /// Makes sure that the table has capacity for each upper extent that meets the box, by removing background entries.
    fn make_capacity_for(&mut self, bounds: Bounds, steps: &mut Steps) -> Result<(), TreeRefusal>
        ensures adds { AddsBackgroundTiles (bits_of U L F) self.old self.new }
        ensures keys { MakesNoKey self.old self.new }
        ensures stays { HasCapacityFor (bits_of U L F) self.old bounds → self.new ≡ self.old }
        ensures capacity { OnOk result (HasCapacityFor (bits_of U L F) self.new bounds) }
        ensures within { OnOk result ((cell : Cell V) → roots V.eq (bits_of U L F) (fill bounds cell (field_of (bits_of U L F) self.old)) ≤ self.old.limit) }
        ensures full { IfErr result (λ refusal. (refusal ≡ RootLimit) × ((cell : Cell V) → cell ≢ background_cell self.old
            → self.old.limit < roots V.eq (bits_of U L F) (fill bounds cell (field_of (bits_of U L F) self.old)))) }
    {
        self.keeps_fills_to_limit(bounds);
        if bounds.blocks_meeting_in(self.bits(), Level::Upper) > u128::from(self.limit) {
            return Err(TreeRefusal::RootLimit);
        }
        if self.has_capacity_for(bounds) {
            return Ok(());
        }
        self.erase_background(steps);
        self.keeps_fills_to_limit(bounds);
        if self.has_capacity_for(bounds) {
            return Ok(());
        }
        Err(TreeRefusal::RootLimit)
    }

    /// Does nothing. Its contract states a fact of every tree. A box filled with the inactive background keeps to the limit,
    /// and so does a box for which the table has capacity. A box for which a swept table has no capacity exceeds the limit, and
    /// so does a box of more upper extents than the limit.
    fn keeps_fills_to_limit(&self, bounds: Bounds)
        ensures background_cell { roots V.eq (bits_of U L F) (fill bounds (background_cell self.now) (field_of (bits_of U L F) self.now)) ≤ self.now.limit }
        ensures within { HasCapacityFor (bits_of U L F) self.now bounds → (cell : Cell V)
            → roots V.eq (bits_of U L F) (fill bounds cell (field_of (bits_of U L F) self.now)) ≤ self.now.limit }
        ensures full { LacksCapacityFor (bits_of U L F) self.now bounds → IsSwept (bits_of U L F) self.now → (cell : Cell V) → cell ≢ background_cell self.now
            → self.now.limit < roots V.eq (bits_of U L F) (fill bounds cell (field_of (bits_of U L F) self.now)) }
        ensures wide { self.now.limit < blocks_meeting (bits_of U L F) Upper bounds → (cell : Cell V) → cell ≢ background_cell self.now
            → self.now.limit < roots V.eq (bits_of U L F) (fill bounds cell (field_of (bits_of U L F) self.now)) }
    {
        let _ = bounds.min(); // the proof learns from it that the box lies within the range
        let _ = &self.root;
    }

    /// Returns whether the table has capacity for each upper extent that meets the box.
    fn has_capacity_for(&self, bounds: Bounds) -> bool
        ensures capacity { IsTrue result → HasCapacityFor (bits_of U L F) self.now bounds }
        ensures full { result ≡ false → LacksCapacityFor (bits_of U L F) self.now bounds }
    {
        let mut capacity = self.limit as usize - self.root.len();
        let mut p = bounds.min();
        if bounds.blocks_meeting_in(self.bits(), Level::Upper) <= capacity as u128 {
            return true;
        }
        loop {
            if self.root.get(self.key(p)).is_none() {
                if capacity == 0 {
                    return false;
                }
                capacity -= 1;
            }
            match self.next_block(bounds, Level::Upper, p) {
                Some(next) => p = next,
                None => return true,
            }
        }
    }

    /// Gives each upper extent that meets the box an entry.
    fn enter_blocks(&mut self, bounds: Bounds) -> Result<(), TreeRefusal>
        requires { HasCapacityFor (bits_of U L F) self.old bounds }
        ensures keeps { Keeps (bits_of U L F) self.old self.new }
        ensures adds { AddsNodes (bits_of U L F) self.old self.new }
        ensures same { (q : Coord) → SameDescent (bits_of U L F) self.old self.new q }
        ensures keys { MakesKeysIn (bits_of U L F) bounds self.old self.new }
        ensures entered { OnOk result ((p : Coord) → IsTrue (is_inside bounds p) → IsSome (root_at self.new.root (key (bits_of U L F) p))) }
        ensures memory { IfErr result (λ refusal. refusal ≡ Memory) }
    {
        let mut p = bounds.min();
        loop {
            self.enter_block(bounds, p)?;
            match self.next_block(bounds, Level::Upper, p) {
                Some(next) => p = next,
                None => return Ok(()),
            }
        }
    }

    /// Gives the upper extent around p, a coordinate of the box, an entry.
    fn enter_block(&mut self, bounds: Bounds, p: Coord) -> Result<(), TreeRefusal>
        requires inside { IsTrue (is_inside bounds p) }
        requires capacity { HasCapacityFor (bits_of U L F) self.old bounds }
        ensures keeps { Keeps (bits_of U L F) self.old self.new }
        ensures adds { AddsNodes (bits_of U L F) self.old self.new }
        ensures same { (q : Coord) → SameDescent (bits_of U L F) self.old self.new q }
        ensures keys { MakesKeysIn (bits_of U L F) bounds self.old self.new }
        ensures capacity { HasCapacityFor (bits_of U L F) self.new bounds }
        ensures entered { OnOk result (IsSome (root_at self.new.root (key (bits_of U L F) p))) }
        ensures memory { IfErr result (λ refusal. refusal ≡ Memory) }
    {
        self.has_capacity_at(bounds, p);
        self.enter_root_block(p)
    }

    /// Gives the upper extent around p an entry, if it has none: the tile that its absence stands for.
    pub(crate) fn enter_root_block(&mut self, p: Coord) -> Result<(), TreeRefusal>
        requires { HasCapacity self.old (key (bits_of U L F) p) }
        ensures keeps { Keeps (bits_of U L F) self.old self.new }
        ensures adds { AddsNodes (bits_of U L F) self.old self.new }
        ensures same { (q : Coord) → SameDescent (bits_of U L F) self.old self.new q }
        ensures entry { root_entry (bits_of U L F) self.new p ≡ root_entry (bits_of U L F) self.old p }
        ensures table { (k : Coord) → k ≢ key (bits_of U L F) p → root_at self.new.root k ≡ root_at self.old.root k }
        ensures entered { OnOk result (IsSome (root_at self.new.root (key (bits_of U L F) p))) }
        ensures memory { IfErr result (λ refusal. refusal ≡ Memory) }
    {
        let key = self.key(p);
        let tile = Entry::Tile(self.background_cell());
        self.swept = false;
        self.root.enter(key, tile)?;
        Ok(())
    }

    /// Does nothing. Its contract states a fact of every tree: a table with capacity for the box has capacity for each upper
    /// extent of the box.
    fn has_capacity_at(&self, bounds: Bounds, p: Coord)
        requires inside { IsTrue (is_inside bounds p) }
        requires capacity { HasCapacityFor (bits_of U L F) self.now bounds }
        ensures { HasCapacity self.now (key (bits_of U L F) p) }
    {
        let _ = &self.root;
        let _ = bounds;
    }
}
