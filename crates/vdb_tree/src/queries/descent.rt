//! Reads of cells by the descent from the root.

ghost use Rattle.std.specs.Prelude.{◌≡◌, ◌+◌, ◌≤◌};
ghost use Rattle.vdb_node.specs.declared.Entry.TheVariants.{Child};
ghost use Rattle.vdb_tree.specs.Layout.{bits_of, cell_at, field_of, lower_entry, root_entry, upper_entry};
ghost use Rattle.vdb_tree.specs.Paths.{IsChildAt};

use crate::TreeOf;
use crate::nodes::held_place;
use vdb_coord::{Coord, Level};
use vdb_node::{Entry, Internal, Leaf, Stored};
use vdb_pool::{Place, Steps};
use vdb_value::Cell;

impl<
    V: Stored<WU> + Stored<WL> + Stored<WF>,
    const U: u32,
    const L: u32,
    const F: u32,
    const WU: usize,
    const WL: usize,
    const WF: usize,
> TreeOf<V, U, L, F, WU, WL, WF> {
    /// Returns the cell at a coordinate, by at most three node visits (OpenVDB's `Tree::getValue` and `isValueOn`).
    pub fn get(&self, p: Coord, steps: &mut Steps) -> Cell<V>
        ensures cell { result ≡ (field_of (bits_of U L F) self.now).cell p }
        ensures steps { steps.new ≤ steps.old + 3 }
    {
        self.cell(p, steps)
    }

    /// Returns the cell at a coordinate, like `get`, with a contract about the layout.
    #[tactic(auto, unfolding(crate::specs::Layout::cell_at))]
    pub(crate) fn cell(&self, p: Coord, steps: &mut Steps) -> Cell<V>
        ensures cell { cell_at (bits_of U L F) self.now p ≡ result }
        ensures steps { steps.new ≤ steps.old + 3 }
    {
        let upper = match self.root_entry(p) {
            Entry::Tile(cell) => return cell,
            Entry::Child(slot) => slot,
        };
        let lower = match self.upper_entry(upper, p, steps) {
            Entry::Tile(cell) => return cell,
            Entry::Child(slot) => slot,
        };
        let leaf = match self.lower_entry(lower, p, steps) {
            Entry::Tile(cell) => return cell,
            Entry::Child(slot) => slot,
        };
        self.voxel(leaf, p, steps)
    }

    /// Returns the entry of p's upper extent in the table, or the tile that an absent entry stands for.
    pub(crate) fn root_entry(&self, p: Coord) -> Entry<V>
        ensures { root_entry (bits_of U L F) self.now p ≡ result }
    {
        match self.root.get(self.key(p)) {
            Some(entry) => entry,
            None => Entry::Tile(self.background_cell()),
        }
    }

    /// Returns the entry of the upper node around p, in this slot, that holds p.
    #[inline(always)]
    pub(crate) fn upper_entry(&self, upper: u32, p: Coord, steps: &mut Steps) -> Entry<V>
        requires { root_entry (bits_of U L F) self.now p ≡ Child upper }
        ensures value { upper_entry (bits_of U L F) self.now p ≡ result }
        ensures steps { steps.new ≤ steps.old + 1 }
    {
        let offset = self.offset(p, Level::Upper);
        let place = held_place(&self.uppers, upper);
        self.uppers.at(place, steps).entry(offset)
    }

    /// Returns the entry of the upper node around p, at its place, that holds p.
    #[inline(always)]
    pub(crate) fn upper_entry_at(
        &self,
        upper: Place<Internal<V, U, WU>>,
        p: Coord,
        steps: &mut Steps,
    ) -> Entry<V>
        requires { IsChildAt self.now.uppers (root_entry (bits_of U L F) self.now p) upper }
        ensures value { upper_entry (bits_of U L F) self.now p ≡ result }
        ensures steps { steps.new ≤ steps.old + 1 }
    {
        let offset = self.offset(p, Level::Upper);
        self.uppers.at(upper, steps).entry(offset)
    }

    /// Returns the entry of the lower node around p, in this slot, that holds p.
    #[inline(always)]
    pub(crate) fn lower_entry(&self, lower: u32, p: Coord, steps: &mut Steps) -> Entry<V>
        requires { upper_entry (bits_of U L F) self.now p ≡ Child lower }
        ensures value { lower_entry (bits_of U L F) self.now p ≡ result }
        ensures steps { steps.new ≤ steps.old + 1 }
    {
        let offset = self.offset(p, Level::Lower);
        let place = held_place(&self.lowers, lower);
        self.lowers.at(place, steps).entry(offset)
    }

    /// Returns the entry of the lower node around p, at its place, that holds p.
    #[inline(always)]
    pub(crate) fn lower_entry_at(
        &self,
        lower: Place<Internal<V, L, WL>>,
        p: Coord,
        steps: &mut Steps,
    ) -> Entry<V>
        requires { IsChildAt self.now.lowers (upper_entry (bits_of U L F) self.now p) lower }
        ensures value { lower_entry (bits_of U L F) self.now p ≡ result }
        ensures steps { steps.new ≤ steps.old + 1 }
    {
        let offset = self.offset(p, Level::Lower);
        self.lowers.at(lower, steps).entry(offset)
    }

    /// Returns the voxel p of the leaf around it, in this slot.
    #[inline(always)]
    #[tactic(auto, unfolding(crate::specs::Layout::cell_at))]
    pub(crate) fn voxel(&self, leaf: u32, p: Coord, steps: &mut Steps) -> Cell<V>
        requires { lower_entry (bits_of U L F) self.now p ≡ Child leaf }
        ensures value { cell_at (bits_of U L F) self.now p ≡ result }
        ensures steps { steps.new ≤ steps.old + 1 }
    {
        let offset = self.offset(p, Level::Leaf);
        let place = held_place(&self.leaves, leaf);
        self.leaves.at(place, steps).entry(offset)
    }

    /// Returns the voxel p of the leaf around it, at its place.
    #[inline(always)]
    #[tactic(auto, unfolding(crate::specs::Layout::cell_at))]
    pub(crate) fn voxel_at(
        &self,
        leaf: Place<Leaf<V, F, WF>>,
        p: Coord,
        steps: &mut Steps,
    ) -> Cell<V>
        requires { IsChildAt self.now.leaves (lower_entry (bits_of U L F) self.now p) leaf }
        ensures value { cell_at (bits_of U L F) self.now p ≡ result }
        ensures steps { steps.new ≤ steps.old + 1 }
    {
        let offset = self.offset(p, Level::Leaf);
        self.leaves.at(leaf, steps).entry(offset)
    }

    /// Returns the place of the upper node around p in this slot.
    pub(crate) fn upper_place(&self, slot: u32, p: Coord) -> Place<Internal<V, U, WU>>
        requires { root_entry (bits_of U L F) self.now p ≡ Child slot }
        ensures { IsChildAt self.now.uppers (root_entry (bits_of U L F) self.now p) result }
    {
        held_place(&self.uppers, slot)
    }

    /// Returns the place of the lower node around p in this slot.
    pub(crate) fn lower_place(&self, slot: u32, p: Coord) -> Place<Internal<V, L, WL>>
        requires { upper_entry (bits_of U L F) self.now p ≡ Child slot }
        ensures { IsChildAt self.now.lowers (upper_entry (bits_of U L F) self.now p) result }
    {
        held_place(&self.lowers, slot)
    }

    /// Returns the place of the leaf around p in this slot.
    #[inline(always)]
    pub(crate) fn leaf_place(&self, slot: u32, p: Coord) -> Place<Leaf<V, F, WF>>
        requires { lower_entry (bits_of U L F) self.now p ≡ Child slot }
        ensures { IsChildAt self.now.leaves (lower_entry (bits_of U L F) self.now p) result }
    {
        held_place(&self.leaves, slot)
    }
}
