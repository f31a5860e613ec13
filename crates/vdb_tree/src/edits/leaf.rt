//! Leaves made, exchanged and written as a whole.

ghost use Rattle.std.specs.Prelude.{◌≡◌, ◌≢◌, ◌+◌, ◌≤◌, Err, false, IfErr, IsErr, IsOk, IsTrue, OnOk};
ghost use Rattle.vdb_coord.specs.Blocks.{block_around, key};
ghost use Rattle.vdb_coord.specs.declared.Coord.{Coord};
ghost use Rattle.vdb_coord.specs.declared.Level.TheVariants.{Leaf as leaf_level};
ghost use Rattle.vdb_node.specs.Leaf.{IsConstantLeaf};
ghost use Rattle.vdb_node.specs.Nodes.{entry_count};
ghost use Rattle.vdb_node.specs.declared.Entry.TheVariants.{Child, Tile};
ghost use Rattle.vdb_tree.specs.Table.{HasCapacity};
ghost use Rattle.vdb_tree.specs.Changes.{Keeps, SameDescent};
ghost use Rattle.vdb_tree.specs.Field.{fill};
ghost use Rattle.vdb_tree.specs.Layout.{bits_of, field_of, lower_entry, root_at, upper_entry};
ghost use Rattle.vdb_tree.specs.Nodes.{KeepsElsewhere};
ghost use Rattle.vdb_tree.specs.Leaves.{IsLeafAround, with_leaf};
ghost use Rattle.vdb_tree.specs.Outcome.{IsOutcome};
ghost use Rattle.vdb_tree.specs.Paths.{in_leaf, IsWhole, TreePath};
ghost use Rattle.vdb_tree.specs.declared.refusal.TreeRefusal.TheVariants.{Memory, RootLimit};
ghost use Rattle.vdb_value.specs.declared.Cell.{Cell};

use crate::nodes::{held_place, insert_node};
use crate::{TreeOf, TreeRefusal};
use std::mem;
use vdb_coord::{Coord, Level};
use vdb_node::{Entry, Leaf, Stored};
use vdb_pool::Steps;
use vdb_value::Cell;

impl<
    V: Stored<WU> + Stored<WL> + Stored<WF>,
    const U: u32,
    const L: u32,
    const F: u32,
    const WU: usize,
    const WL: usize,
    const WF: usize,
> TreeOf<V, U, L, F, WU, WL, WF> {
    /// Gives the leaf extent around a coordinate the cells of a leaf (OpenVDB's `Tree::addLeaf`, which takes the leaf itself).
    /// If these cells are all equal, the extent becomes a tile.
    ///
    /// `RootLimit`: there would be more upper extents with a cell other than the inactive background than the limit. `Memory`:
    /// an allocation failed. Both errors leave every cell as it was. Neither error occurs if the leaf extent already has a
    /// leaf. Unless it sweeps, this visits at most 7 nodes, and each block that doesn't hold the coordinate keeps the entry
    /// over it.
    pub fn write_leaf(
        &mut self,
        p: Coord,
        leaf: &Leaf<V, F, WF>,
        steps: &mut Steps,
    ) -> Result<(), TreeRefusal>
        ensures outcome { IsOutcome V.eq (bits_of U L F) self.old.limit (field_of (bits_of U L F) self.old)
            (with_leaf (bits_of U L F) p leaf.now (field_of (bits_of U L F) self.old)) (field_of (bits_of U L F) self.new) result }
        ensures limit { self.new.limit ≡ self.old.limit }
        ensures there { IsTrue (in_leaf (bits_of U L F) self.old p) → IsOk result }
        ensures elsewhere { HasCapacity self.old (key (bits_of U L F) p) → KeepsElsewhere (bits_of U L F) self.old self.new p }
        ensures tile { OnOk result ((cell : Cell V) → IsConstantLeaf leaf.now (entry_count F) cell → lower_entry (bits_of U L F) self.new p ≡ Tile cell) }
        ensures steps { HasCapacity self.old (key (bits_of U L F) p) → steps.new ≤ steps.old + 7 }
    {
        if let Some(cell) = leaf.constant() {
            return self.fill_leaf_block(p, cell, steps);
        }
        let _ = leaf.states(); // the proof learns from it that the leaf has a value for each entry
        let _ = self.bits(); // the proof learns from it how many bits there are
        self.make_capacity(p, steps)?;
        self.put_leaf(p, leaf, steps)?;
        Ok(())
    }

    /// Gives the leaf extent around p the cells of a leaf. If p has no leaf, a copy of this one becomes p's.
    fn put_leaf(
        &mut self,
        p: Coord,
        leaf: &Leaf<V, F, WF>,
        steps: &mut Steps,
    ) -> Result<(), TreeRefusal>
        requires capacity { HasCapacity self.old (key (bits_of U L F) p) }
        ensures field { OnOk result (field_of (bits_of U L F) self.new ≡ with_leaf (bits_of U L F) p leaf.now (field_of (bits_of U L F) self.old)) }
        ensures kept { IsErr result → Keeps (bits_of U L F) self.old self.new }
        ensures memory { IfErr result (λ refusal. refusal ≡ Memory) }
        ensures limit { self.new.limit ≡ self.old.limit }
        ensures there { IsTrue (in_leaf (bits_of U L F) self.old p) → IsOk result }
        ensures elsewhere { KeepsElsewhere (bits_of U L F) self.old self.new p }
        ensures steps { steps.new ≤ steps.old + 4 }
    {
        let upper = self.upper_around(p)?;
        let lower = self.lower_in(upper, p, steps)?;
        match self.lower_entry(lower, p, steps) {
            Entry::Child(slot) => {
                self.copy_leaf(slot, p, leaf, steps);
                Ok(())
            }
            Entry::Tile(cell) => self.add_leaf(lower, p, cell, leaf, steps),
        }
    }

    /// Puts a leaf into the leaf extent around a coordinate, unless it has one, with the nodes above it (OpenVDB's
    /// `Tree::touchLeaf`). No cell changes, and no node is removed.
    ///
    /// `RootLimit`: the root table has no entry for the coordinate and as many entries as the limit allows; it isn't swept.
    /// `Memory`: an allocation failed; some nodes may have been made. Neither error occurs if the leaf extent already has a
    /// leaf.
    pub fn touch_leaf(&mut self, p: Coord, steps: &mut Steps) -> Result<(), TreeRefusal>
        ensures field { field_of (bits_of U L F) self.new ≡ field_of (bits_of U L F) self.old }
        ensures limit { self.new.limit ≡ self.old.limit }
        ensures made { OnOk result (IsTrue (in_leaf (bits_of U L F) self.new p)) }
        ensures leaves { (q : Coord) → IsTrue (in_leaf (bits_of U L F) self.old q) → IsTrue (in_leaf (bits_of U L F) self.new q) }
        ensures there { IsTrue (in_leaf (bits_of U L F) self.old p) → IsOk result }
        ensures elsewhere { KeepsElsewhere (bits_of U L F) self.old self.new p }
        ensures table { (k : Coord) → k ≢ key (bits_of U L F) p → root_at self.new.root k ≡ root_at self.old.root k }
        ensures capacity { HasCapacity self.old (key (bits_of U L F) p) → IfErr result (λ refusal. refusal ≡ Memory) }
        ensures full { (HasCapacity self.old (key (bits_of U L F) p) → ⊥) → (result ≡ Err RootLimit) × (self.new ≡ self.old) }
        ensures steps { steps.new ≤ steps.old + 4 }
    {
        if !self.has_capacity(p) {
            return Err(TreeRefusal::RootLimit);
        }
        let _ = self.leaf_around(p, steps)?;
        Ok(())
    }

    /// Exchanges the leaf around a coordinate with another leaf, by at most three node visits. It takes no memory, and no
    /// other node and no entry changes. Returns whether the coordinate has a leaf; if not, nothing changes.
    pub fn swap_leaf(&mut self, p: Coord, leaf: &mut Leaf<V, F, WF>, steps: &mut Steps) -> bool
        ensures answer { result ≡ in_leaf (bits_of U L F) self.old p }
        ensures field { IsTrue result → field_of (bits_of U L F) self.new ≡ with_leaf (bits_of U L F) p leaf.old (field_of (bits_of U L F) self.old) }
        ensures taken { IsTrue result → IsLeafAround (bits_of U L F) (field_of (bits_of U L F) self.old) p leaf.new }
        ensures same { (q : Coord) → SameDescent (bits_of U L F) self.old self.new q }
        ensures untouched { result ≡ false → (self.new ≡ self.old) × (leaf.new ≡ leaf.old) }
        ensures limit { self.new.limit ≡ self.old.limit }
        ensures paths { (path : TreePath V) (q : Coord) → IsWhole (bits_of U L F) self.old path q → IsWhole (bits_of U L F) self.new path q }
        ensures steps { steps.new ≤ steps.old + 3 }
    {
        match self.leaf_entry(p, steps) {
            Entry::Child(slot) => {
                self.exchange_leaf(slot, p, leaf, steps);
                true
            }
            Entry::Tile(_) => false,
        }
    }

    /// Exchanges the leaf around p, in this slot, with another.
    fn exchange_leaf(&mut self, slot: u32, p: Coord, leaf: &mut Leaf<V, F, WF>, steps: &mut Steps)
        requires { lower_entry (bits_of U L F) self.old p ≡ Child slot }
        ensures field { field_of (bits_of U L F) self.new ≡ with_leaf (bits_of U L F) p leaf.old (field_of (bits_of U L F) self.old) }
        ensures taken { IsLeafAround (bits_of U L F) (field_of (bits_of U L F) self.old) p leaf.new }
        ensures same { (q : Coord) → SameDescent (bits_of U L F) self.old self.new q }
        ensures limit { self.new.limit ≡ self.old.limit }
        ensures paths { (path : TreePath V) (q : Coord) → IsWhole (bits_of U L F) self.old path q → IsWhole (bits_of U L F) self.new path q }
        ensures steps { steps.new ≤ steps.old + 1 }
    {
        self.swept = false;
        let place = held_place(&self.leaves, slot);
        mem::swap(self.leaves.at_mut(place, steps), leaf);
    }

    /// Puts a copy of the leaf in the place of p's tile in a lower node.
    fn add_leaf(
        &mut self,
        lower: u32,
        p: Coord,
        cell: Cell<V>,
        leaf: &Leaf<V, F, WF>,
        steps: &mut Steps,
    ) -> Result<(), TreeRefusal>
        requires node { upper_entry (bits_of U L F) self.old p ≡ Child lower }
        requires tiled { lower_entry (bits_of U L F) self.old p ≡ Tile cell }
        ensures field { OnOk result (field_of (bits_of U L F) self.new ≡ with_leaf (bits_of U L F) p leaf.now (field_of (bits_of U L F) self.old)) }
        ensures kept { IsErr result → Keeps (bits_of U L F) self.old self.new }
        ensures memory { IfErr result (λ refusal. refusal ≡ Memory) }
        ensures limit { self.new.limit ≡ self.old.limit }
        ensures elsewhere { KeepsElsewhere (bits_of U L F) self.old self.new p }
        ensures steps { steps.new ≤ steps.old + 1 }
    {
        let offset = self.offset(p, Level::Lower);
        let node = leaf.try_copy(self.alloc)?;
        let slot = insert_node(&mut self.leaves, node)?;
        let place = held_place(&self.lowers, lower);
        self.swept = false;
        self.lowers.at_mut(place, steps).set_child(offset, slot);
        Ok(())
    }

    /// Makes p's leaf extent a tile of this cell.
    fn fill_leaf_block(
        &mut self,
        p: Coord,
        cell: Cell<V>,
        steps: &mut Steps,
    ) -> Result<(), TreeRefusal>
        ensures outcome { IsOutcome V.eq (bits_of U L F) self.old.limit (field_of (bits_of U L F) self.old)
            (fill (block_around (bits_of U L F) leaf_level p) cell (field_of (bits_of U L F) self.old)) (field_of (bits_of U L F) self.new) result }
        ensures limit { self.new.limit ≡ self.old.limit }
        ensures there { IsTrue (in_leaf (bits_of U L F) self.old p) → IsOk result }
        ensures elsewhere { HasCapacity self.old (key (bits_of U L F) p) → KeepsElsewhere (bits_of U L F) self.old self.new p }
        ensures tile { OnOk result (lower_entry (bits_of U L F) self.new p ≡ Tile cell) }
        ensures steps { HasCapacity self.old (key (bits_of U L F) p) → steps.new ≤ steps.old + 7 }
    {
        if let Entry::Tile(tile) = self.leaf_entry(p, steps) {
            if tile == cell {
                self.keeps_to_limit(p);
                return Ok(());
            }
        }
        self.make_capacity(p, steps)?;
        let upper = self.upper_around(p)?;
        let lower = self.lower_in(upper, p, steps)?;
        self.fill_leaf(lower, p, cell, steps);
        Ok(())
    }

    /// Gives the leaf around p the cells of another.
    fn copy_leaf(&mut self, slot: u32, p: Coord, leaf: &Leaf<V, F, WF>, steps: &mut Steps)
        requires { lower_entry (bits_of U L F) self.old p ≡ Child slot }
        ensures field { field_of (bits_of U L F) self.new ≡ with_leaf (bits_of U L F) p leaf.now (field_of (bits_of U L F) self.old) }
        ensures same { (q : Coord) → SameDescent (bits_of U L F) self.old self.new q }
        ensures limit { self.new.limit ≡ self.old.limit }
        ensures steps { steps.new ≤ steps.old + 1 }
    {
        self.swept = false;
        let place = held_place(&self.leaves, slot);
        self.leaves.at_mut(place, steps).copy_from(leaf);
    }
}
