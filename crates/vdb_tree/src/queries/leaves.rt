//! Calls on a whole leaf or on a voxel of one, and the next leaf in block order.

ghost use Rattle.std.specs.Prelude.{◌≡◌, ◌+◌, ◌≤◌, false, is_some, IfSome, IsNone, IsTrue};
ghost use Rattle.vdb_coord.specs.Blocks.{block_around, block_number};
ghost use Rattle.vdb_coord.specs.Space.{everywhere, is_inside};
ghost use Rattle.vdb_coord.specs.declared.Coord.{Coord};
ghost use Rattle.vdb_coord.specs.declared.Level.TheVariants.{Leaf as leaf_level, Lower, Upper};
ghost use Rattle.vdb_node.specs.declared.Entry.TheVariants.{Child};
ghost use Rattle.vdb_tree.specs.Changes.{Changes, KeepsUppers, SameDescent};
ghost use Rattle.vdb_tree.specs.Field.{written};
ghost use Rattle.vdb_tree.specs.Layout.{bits_of, cell_at, field_of, lower_entry, root_entry};
ghost use Rattle.vdb_tree.specs.Leaves.{IsLeafAround, IsVoxelWritten, SetsStates, with_states_of, IsNextLeaf};
ghost use Rattle.vdb_tree.specs.Nodes.{AreStatesSet};
ghost use Rattle.vdb_tree.specs.internal.StateRuns.{SetsLeaf};
ghost use Rattle.vdb_tree.specs.Paths.{in_leaf, IsChildAt, IsWhole, TreePath};
ghost use Rattle.vdb_tree.specs.ConstantBlocks.{count as active_count};
ghost use Rattle.vdb_node.specs.Nodes.{entry_count};
ghost use Rattle.vdb_tree.specs.internal.Seeks.{IsFirstLeaf, IsFrom, IsKeyPast, IsNextLower};

use crate::nodes::held_place;
use crate::{TreeOf, Write};
use vdb_coord::{Coord, Level};
use vdb_mask::Mask;
use vdb_node::{Entry, Leaf, Stored};
use vdb_pool::{Place, Steps};
use vdb_value::Cell;

impl<
    V: Stored<WU> + Stored<WL> + Stored<WF>,
    const U: u32,
    const L: u32,
    const F: u32,
    const WU: usize,
    const WL: usize,
    const WF: usize,
> TreeOf<V, U, L, F, WU, WL, WF> {
    /// Returns the leaf around a coordinate, if there is one, by at most three node visits (OpenVDB's `Tree::probeConstLeaf`).
    /// If there is none, all cells of the coordinate's leaf extent are equal.
    pub fn leaf(&self, p: Coord, steps: &mut Steps) -> Option<&Leaf<V, F, WF>>
        ensures leaf { IfSome result (λ leaf. IsLeafAround (bits_of U L F) (field_of (bits_of U L F) self.now) p leaf.now) }
        ensures tile { IsNone result → (q : Coord) → IsTrue (is_inside everywhere q)
            → block_number (bits_of U L F) leaf_level q ≡ block_number (bits_of U L F) leaf_level p
            → (field_of (bits_of U L F) self.now).cell q ≡ (field_of (bits_of U L F) self.now).cell p }
        ensures there { is_some result ≡ in_leaf (bits_of U L F) self.now p }
        ensures steps { steps.new ≤ steps.old + 3 }
    {
        match self.leaf_entry(p, steps) {
            Entry::Child(slot) => Some(self.held_leaf(slot, p, steps)),
            Entry::Tile(_) => None,
        }
    }

    /// Returns how many voxels of the leaf around a coordinate are active, if there is a leaf, by at most three node visits
    /// (OpenVDB's `LeafNode::onVoxelCount`). It counts by the words of the leaf's states.
    pub fn leaf_count(&self, p: Coord, steps: &mut Steps) -> Option<u32>
        ensures active { IfSome result (λ active. active ≡ active_count (field_of (bits_of U L F) self.now) (block_around (bits_of U L F) leaf_level p)) }
        ensures there { is_some result ≡ in_leaf (bits_of U L F) self.now p }
        ensures steps { steps.new ≤ steps.old + 3 }
    {
        match self.leaf_entry(p, steps) {
            Entry::Child(slot) => Some(self.held_count(slot, p, steps)),
            Entry::Tile(_) => None,
        }
    }

    /// Gives the voxels of the leaf around a coordinate the states of the mask, and keeps their values, by at most three node
    /// visits. It takes no memory, and no other node or entry changes. Returns whether the leaf exists; if not, nothing changes
    /// (OpenVDB's `LeafNode::setValueMask`).
    pub fn set_states(&mut self, p: Coord, states: &Mask<WF>, steps: &mut Steps) -> bool
        ensures answer { result ≡ in_leaf (bits_of U L F) self.old p }
        ensures field { IsTrue result → field_of (bits_of U L F) self.new ≡ with_states_of (bits_of U L F) p states.now (field_of (bits_of U L F) self.old) }
        ensures sets { IsTrue result → SetsStates (bits_of U L F) (field_of (bits_of U L F) self.old) (field_of (bits_of U L F) self.new) p states.now }
        ensures alone { IsTrue result → AreStatesSet (bits_of U L F) self.old self.new p states.now }
        ensures untouched { result ≡ false → self.new ≡ self.old }
        ensures limit { self.new.limit ≡ self.old.limit }
        ensures paths { (path : TreePath V) (q : Coord) → IsWhole (bits_of U L F) self.old path q → IsWhole (bits_of U L F) self.new path q }
        ensures steps { steps.new ≤ steps.old + 3 }
    {
        match self.leaf_entry(p, steps) {
            Entry::Child(leaf) => {
                self.set_leaf_states(leaf, p, states, steps);
                true
            }
            Entry::Tile(_) => false,
        }
    }

    /// Returns the entry of the lower node around p that holds p, or the tile above it.
    pub(crate) fn leaf_entry(&self, p: Coord, steps: &mut Steps) -> Entry<V>
        ensures value { lower_entry (bits_of U L F) self.now p ≡ result }
        ensures steps { steps.new ≤ steps.old + 2 }
    {
        let upper = match self.root_entry(p) {
            Entry::Tile(cell) => return Entry::Tile(cell),
            Entry::Child(slot) => slot,
        };
        let lower = match self.upper_entry(upper, p, steps) {
            Entry::Tile(cell) => return Entry::Tile(cell),
            Entry::Child(slot) => slot,
        };
        self.lower_entry(lower, p, steps)
    }

    /// Returns the leaf around p.
    pub(crate) fn held_leaf(&self, slot: u32, p: Coord, steps: &mut Steps) -> &Leaf<V, F, WF>
        requires { lower_entry (bits_of U L F) self.now p ≡ Child slot }
        ensures leaf { IsLeafAround (bits_of U L F) (field_of (bits_of U L F) self.now) p result.now }
        ensures steps { steps.new ≤ steps.old + 1 }
    {
        let leaf = self.leaf_place(slot, p);
        self.placed_leaf(leaf, p, steps)
    }

    /// Returns the leaf around p, at its place.
    pub(crate) fn placed_leaf(
        &self,
        leaf: Place<Leaf<V, F, WF>>,
        p: Coord,
        steps: &mut Steps,
    ) -> &Leaf<V, F, WF>
        requires { IsChildAt self.now.leaves (lower_entry (bits_of U L F) self.now p) leaf }
        ensures leaf { IsLeafAround (bits_of U L F) (field_of (bits_of U L F) self.now) p result.now }
        ensures steps { steps.new ≤ steps.old + 1 }
    {
        self.leaves.at(leaf, steps)
    }

    /// Returns how many voxels of the leaf around p are active.
    pub(crate) fn held_count(&self, slot: u32, p: Coord, steps: &mut Steps) -> u32
        requires { lower_entry (bits_of U L F) self.now p ≡ Child slot }
        ensures active { result ≡ active_count (field_of (bits_of U L F) self.now) (block_around (bits_of U L F) leaf_level p) }
        ensures steps { steps.new ≤ steps.old + 1 }
    {
        let place = held_place(&self.leaves, slot);
        self.leaves.at(place, steps).count_on()
    }

    /// Gives the voxels of the leaf around p the states of the mask.
    pub(crate) fn set_leaf_states(
        &mut self,
        leaf: u32,
        p: Coord,
        states: &Mask<WF>,
        steps: &mut Steps,
    )
        requires { lower_entry (bits_of U L F) self.old p ≡ Child leaf }
        ensures field { field_of (bits_of U L F) self.new ≡ with_states_of (bits_of U L F) p states.now (field_of (bits_of U L F) self.old) }
        ensures alone { AreStatesSet (bits_of U L F) self.old self.new p states.now }
        ensures sets { SetsLeaf (bits_of U L F) self.old self.new p states.now }
        ensures above { KeepsUppers self.old self.new }
        ensures limit { self.new.limit ≡ self.old.limit }
        ensures paths { (path : TreePath V) (q : Coord) → IsWhole (bits_of U L F) self.old path q → IsWhole (bits_of U L F) self.new path q }
        ensures steps { steps.new ≤ steps.old + 1 }
    {
        self.swept = false;
        let place = held_place(&self.leaves, leaf);
        self.leaves.at_mut(place, steps).set_states(states);
    }

    /// Writes the voxel p of the leaf around it, in this slot.
    #[inline(always)]
    pub(crate) fn write_voxel(&mut self, leaf: u32, p: Coord, change: Write<V>, steps: &mut Steps)
        requires { lower_entry (bits_of U L F) self.old p ≡ Child leaf }
        ensures changes { Changes (bits_of U L F) self.old self.new p (written change (cell_at (bits_of U L F) self.old p)) }
        ensures alone { IsVoxelWritten (bits_of U L F) self.old self.new p (written change (cell_at (bits_of U L F) self.old p)) }
        ensures same { (q : Coord) → SameDescent (bits_of U L F) self.old self.new q }
        ensures paths { (path : TreePath V) (q : Coord) → IsWhole (bits_of U L F) self.old path q → IsWhole (bits_of U L F) self.new path q }
        ensures steps { steps.new ≤ steps.old + 1 }
    {
        let place = held_place(&self.leaves, leaf);
        self.write_voxel_at(place, p, change, steps);
    }

    /// Writes the voxel p of the leaf around it, at its place.
    #[inline(always)]
    pub(crate) fn write_voxel_at(
        &mut self,
        leaf: Place<Leaf<V, F, WF>>,
        p: Coord,
        change: Write<V>,
        steps: &mut Steps,
    )
        requires { IsChildAt self.old.leaves (lower_entry (bits_of U L F) self.old p) leaf }
        ensures changes { Changes (bits_of U L F) self.old self.new p (written change (cell_at (bits_of U L F) self.old p)) }
        ensures alone { IsVoxelWritten (bits_of U L F) self.old self.new p (written change (cell_at (bits_of U L F) self.old p)) }
        ensures same { (q : Coord) → SameDescent (bits_of U L F) self.old self.new q }
        ensures paths { (path : TreePath V) (q : Coord) → IsWhole (bits_of U L F) self.old path q → IsWhole (bits_of U L F) self.new path q }
        ensures steps { steps.new ≤ steps.old + 1 }
    {
        let offset = self.offset(p, Level::Leaf);
        let leaf = self.leaves.at_mut(leaf, steps);
        let cell = change.applied(leaf.entry(offset));
        if self.swept {
            let background_cell = Cell {
                value: self.background,
                on: false,
            };
            self.swept = cell != background_cell;
        }
        leaf.set(offset, cell);
    }

    /// Returns the first coordinate of the first leaf in block order that begins past `after`, or of the first leaf of all
    /// without `after`; `None` if no leaf is left. It takes no memory. It visits the nodes around `after`, and each node that
    /// it finds without a leaf (OpenVDB's `Tree::LeafCIter`).
    pub fn next_leaf(&self, after: Option<Coord>, steps: &mut Steps) -> Option<Coord>
        ensures { IsNextLeaf (bits_of U L F) self.now after result }
    {
        match after {
            Some(last) => self.next_leaf_past(last, steps),
            None => self.next_leaf_of_keys(None, steps),
        }
    }

    /// Returns the first leaf past a coordinate: in the lower node around it, in the upper node around it, or under a later
    /// key.
    fn next_leaf_past(&self, last: Coord, steps: &mut Steps) -> Option<Coord>
        ensures { IsNextLeaf (bits_of U L F) self.now (Some last) result }
    {
        let _ = &self.root;
        let next_entry = self.offset(last, Level::Lower) + 1;
        let in_lower = self.next_leaf_of_lower(last, next_entry, steps);
        if in_lower.is_some() {
            return in_lower;
        }
        let next_node = self.offset(last, Level::Upper) + 1;
        let in_upper = self.next_leaf_of_upper(last, next_node, steps);
        if in_upper.is_some() {
            return in_upper;
        }
        self.next_leaf_of_keys(Some(last.key_in(self.bits())), steps)
    }

    /// Returns the first leaf of the lower node around p from an entry on.
    pub(crate) fn next_leaf_of_lower(&self, p: Coord, from: u32, steps: &mut Steps) -> Option<Coord>
        requires { from ≤ entry_count L }
        ensures { IsFirstLeaf (bits_of U L F) self.now (IsFrom (bits_of U L F) Lower p from) result }
    {
        let upper = match self.root_entry(p) {
            Entry::Tile(_) => return None,
            Entry::Child(slot) => slot,
        };
        let lower = match self.upper_entry(upper, p, steps) {
            Entry::Tile(_) => return None,
            Entry::Child(slot) => slot,
        };
        let place = held_place(&self.lowers, lower);
        let index = self.lowers.at(place, steps).next_child(from)?;
        Some(
            p.entry_block_in(self.bits(), Level::Lower, index as u16)
                .min(),
        )
    }

    /// Returns the first leaf of the upper node around p from an entry on.
    pub(crate) fn next_leaf_of_upper(&self, p: Coord, from: u32, steps: &mut Steps) -> Option<Coord>
        requires { from ≤ entry_count U }
        ensures { IsFirstLeaf (bits_of U L F) self.now (IsFrom (bits_of U L F) Upper p from) result }
    {
        let _ = &self.root;
        let upper = match self.root_entry(p) {
            Entry::Tile(_) => return None,
            Entry::Child(slot) => slot,
        };
        let mut next = from;
        while let Some(corner) = self.next_lower(upper, p, next, steps) {
            let found = self.next_leaf_of_lower(corner, 0, steps);
            if found.is_some() {
                return found;
            }
            next = self.offset(corner, Level::Upper) + 1;
        }
        None
    }

    /// Returns the first coordinate of the first lower node in the upper node around p from an entry on.
    fn next_lower(&self, upper: u32, p: Coord, from: u32, steps: &mut Steps) -> Option<Coord>
        requires child { root_entry (bits_of U L F) self.now p ≡ Child upper }
        requires from { from ≤ entry_count U }
        ensures { IsNextLower (bits_of U L F) self.now p from result }
    {
        let place = held_place(&self.uppers, upper);
        let index = self.uppers.at(place, steps).next_child(from)?;
        Some(
            p.entry_block_in(self.bits(), Level::Upper, index as u16)
                .min(),
        )
    }

    /// Returns the first leaf of the upper extents past a key.
    fn next_leaf_of_keys(&self, after: Option<Coord>, steps: &mut Steps) -> Option<Coord>
        ensures { IsFirstLeaf (bits_of U L F) self.now (IsKeyPast (bits_of U L F) after) result }
    {
        let mut passed = after;
        while let Some(key) = self.next_key(passed) {
            let found = self.next_leaf_of_upper(self.key_corner(key), 0, steps);
            if found.is_some() {
                return found;
            }
            passed = Some(key);
        }
        None
    }
}
