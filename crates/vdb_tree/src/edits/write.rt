//! Writes of voxels.

ghost use Rattle.std.specs.Prelude.{◌≡◌, ◌≢◌, ◌+◌, ◌<◌, ◌≤◌, ◌⊎◌, ◌↔◌, false, ℕ, Ok, IfOk, IfErr, IsOk, IsTrue, OnOk};
ghost use Rattle.vdb_coord.specs.Blocks.{block_around, key};
ghost use Rattle.vdb_coord.specs.declared.Coord.{Coord};
ghost use Rattle.vdb_coord.specs.declared.Level.TheVariants.{Leaf, Lower, Upper};
ghost use Rattle.vdb_node.specs.declared.Entry.TheVariants.{Child, Tile};
ghost use Rattle.vdb_tree.specs.Changes.{AddsNodes, IsSwept, Keeps};
ghost use Rattle.vdb_tree.specs.Field.{Field, write, written};
ghost use Rattle.vdb_tree.specs.internal.Altered.{AreSameCells, IsAlteredIn};
ghost use Rattle.vdb_tree.specs.internal.Holders.{IsHeldIn, nodes_to};
ghost use Rattle.vdb_tree.specs.Layout.{bits_of, cell_at, field_of, lower_entry, root_at, root_entry, upper_entry};
ghost use Rattle.vdb_tree.specs.Nodes.{KeepsAllBut, KeepsElsewhere};
ghost use Rattle.vdb_tree.specs.Outcome.{IsOutcome};
ghost use Rattle.vdb_tree.specs.Paths.{in_leaf};
ghost use Rattle.vdb_tree.specs.ConstantBlocks.{is_constant, roots};
ghost use Rattle.vdb_tree.specs.Table.{HasCapacity};
ghost use Rattle.vdb_tree.specs.declared.Write.{Write};
ghost use Rattle.vdb_tree.specs.declared.refusal.TreeRefusal.TheVariants.{Memory, RootLimit};

use crate::queries::ends::{HeldEntry, Holder};
use crate::{TreeOf, TreeRefusal, Write};
use vdb_coord::Coord;
use vdb_node::{Entry, Stored};
use vdb_pool::Steps;
use vdb_value::Cell;

impl<
    V: Stored<WU> + Stored<WL> + Stored<WF>,
    const U: u32,
    const L: u32,
    const F: u32,
    const WU: usize,
    const WL: usize,
    const WF: usize,
> TreeOf<V, U, L, F, WU, WL, WF> {
    /// Writes the voxel at a coordinate (OpenVDB's `setValueOn`, `setValueOff`, `setActiveState` and `setValueOnly` of `Tree`).
    ///
    /// If a full root table needs one more entry, this first sweeps out background entries. `RootLimit`: even then there would
    /// be more upper extents with a cell other than the inactive background than the limit. `Memory`: an allocation failed.
    /// Both errors leave every cell as it was. Neither error occurs if the voxel has the new cell already or lies in a leaf,
    /// and it does lie in a leaf if the cells of its leaf extent aren't all equal. A write visits at most 5 nodes. Unless it
    /// sweeps, each block that doesn't hold the coordinate keeps the entry over it.
    pub fn write(
        &mut self,
        p: Coord,
        change: Write<V>,
        steps: &mut Steps,
    ) -> Result<(), TreeRefusal>
        ensures outcome { IsOutcome V.eq (bits_of U L F) self.old.limit (field_of (bits_of U L F) self.old)
            (write p change (field_of (bits_of U L F) self.old)) (field_of (bits_of U L F) self.new) result }
        ensures limit { self.new.limit ≡ self.old.limit }
        ensures elsewhere { HasCapacity self.old (key (bits_of U L F) p) → KeepsElsewhere (bits_of U L F) self.old self.new p }
        ensures unchanged { written change ((field_of (bits_of U L F) self.old).cell p) ≡ (field_of (bits_of U L F) self.old).cell p → IsOk result }
        ensures leaf { IsTrue (in_leaf (bits_of U L F) self.old p) → IsOk result }
        ensures non_constant { is_constant V.eq (field_of (bits_of U L F) self.old) (block_around (bits_of U L F) Leaf p) ≡ false → IsOk result }
        ensures steps { HasCapacity self.old (key (bits_of U L F) p)
            ⊎ (written change ((field_of (bits_of U L F) self.old).cell p) ≡ (field_of (bits_of U L F) self.old).cell p)
            → steps.new ≤ steps.old + 5 }
    {
        self.keeps_to_limit(p);
        self.has_leaf_if_non_constant(p);
        let HeldEntry { holder, entry } = self.held_entry(p, steps);
        let cell = match entry {
            Entry::Child(leaf) => {
                self.write_voxel(leaf, p, change, steps);
                return Ok(());
            }
            Entry::Tile(cell) => cell,
        };
        if change.applied(cell) == cell {
            return Ok(());
        }
        self.write_tile(holder, cell, p, change, steps)
    }

    /// Writes a voxel whose cell changes and that lies in a tile. It starts from the holder of that tile.
    #[inline(never)]
    fn write_tile(
        &mut self,
        holder: Holder,
        cell: Cell<V>,
        p: Coord,
        change: Write<V>,
        steps: &mut Steps,
    ) -> Result<(), TreeRefusal>
        requires { IsHeldIn (bits_of U L F) self.old p holder (Tile cell) }
        ensures outcome { written change ((field_of (bits_of U L F) self.old).cell p) ≢ (field_of (bits_of U L F) self.old).cell p
            → IsOutcome V.eq (bits_of U L F) self.old.limit (field_of (bits_of U L F) self.old)
            (write p change (field_of (bits_of U L F) self.old)) (field_of (bits_of U L F) self.new) result }
        ensures limit { self.new.limit ≡ self.old.limit }
        ensures elsewhere { HasCapacity self.old (key (bits_of U L F) p) → KeepsElsewhere (bits_of U L F) self.old self.new p }
        ensures steps { HasCapacity self.old (key (bits_of U L F) p) → steps.new + nodes_to holder ≤ steps.old + 5 }
    {
        match holder {
            Holder::Root => self.write_root_tile(p, change, steps),
            Holder::Upper(upper) => self.write_upper_tile(upper, cell, p, change, steps),
            Holder::Lower(lower) => self.write_lower_tile(lower, cell, p, change, steps),
        }
    }

    /// Writes a voxel that lies in a tile of an upper node.
    fn write_upper_tile(
        &mut self,
        upper: u32,
        cell: Cell<V>,
        p: Coord,
        change: Write<V>,
        steps: &mut Steps,
    ) -> Result<(), TreeRefusal>
        requires node { root_entry (bits_of U L F) self.old p ≡ Child upper }
        requires tiled { upper_entry (bits_of U L F) self.old p ≡ Tile cell }
        ensures outcome { IsOutcome V.eq (bits_of U L F) self.old.limit (field_of (bits_of U L F) self.old)
            (write p change (field_of (bits_of U L F) self.old)) (field_of (bits_of U L F) self.new) result }
        ensures limit { self.new.limit ≡ self.old.limit }
        ensures elsewhere { KeepsElsewhere (bits_of U L F) self.old self.new p }
        ensures steps { steps.new ≤ steps.old + 4 }
    {
        self.keeps_to_limit(p);
        let lower = self.split_upper(upper, p, cell, steps)?;
        let leaf = self.leaf_in(lower, p, steps)?;
        self.write_voxel(leaf, p, change, steps);
        Ok(())
    }

    /// Writes a voxel that lies in a tile of a lower node.
    fn write_lower_tile(
        &mut self,
        lower: u32,
        cell: Cell<V>,
        p: Coord,
        change: Write<V>,
        steps: &mut Steps,
    ) -> Result<(), TreeRefusal>
        requires node { upper_entry (bits_of U L F) self.old p ≡ Child lower }
        requires tiled { lower_entry (bits_of U L F) self.old p ≡ Tile cell }
        ensures outcome { IsOutcome V.eq (bits_of U L F) self.old.limit (field_of (bits_of U L F) self.old)
            (write p change (field_of (bits_of U L F) self.old)) (field_of (bits_of U L F) self.new) result }
        ensures limit { self.new.limit ≡ self.old.limit }
        ensures elsewhere { KeepsElsewhere (bits_of U L F) self.old self.new p }
        ensures steps { steps.new ≤ steps.old + 2 }
    {
        self.keeps_to_limit(p);
        let leaf = self.split_lower(lower, p, cell, steps)?;
        self.write_voxel(leaf, p, change, steps);
        Ok(())
    }

    /// Writes a voxel whose cell changes and that lies in a tile of the root table or in an upper extent without an entry.
    fn write_root_tile(
        &mut self,
        p: Coord,
        change: Write<V>,
        steps: &mut Steps,
    ) -> Result<(), TreeRefusal>
        ensures outcome { written change ((field_of (bits_of U L F) self.old).cell p) ≢ (field_of (bits_of U L F) self.old).cell p
            → IsOutcome V.eq (bits_of U L F) self.old.limit (field_of (bits_of U L F) self.old)
            (write p change (field_of (bits_of U L F) self.old)) (field_of (bits_of U L F) self.new) result }
        ensures limit { self.new.limit ≡ self.old.limit }
        ensures elsewhere { HasCapacity self.old (key (bits_of U L F) p) → KeepsElsewhere (bits_of U L F) self.old self.new p }
        ensures steps { HasCapacity self.old (key (bits_of U L F) p) → steps.new ≤ steps.old + 5 }
    {
        self.make_capacity(p, steps)?;
        let leaf = self.leaf_around(p, steps)?;
        self.write_voxel(leaf, p, change, steps);
        Ok(())
    }

    /// Does nothing. Its contract states a fact of every tree. The upper extents of its field with a cell other than the
    /// inactive background keep to the limit. If the table has capacity, so do those of any field that differs in p's upper
    /// extent alone. A swept table without capacity is full of such extents.
    pub(crate) fn keeps_to_limit(&self, p: Coord)
        ensures kept { roots V.eq (bits_of U L F) (field_of (bits_of U L F) self.now) ≤ self.now.limit }
        ensures within { HasCapacity self.now (key (bits_of U L F) p) → (changed : Field V)
            → IsAlteredIn (bits_of U L F) (key (bits_of U L F) p) (field_of (bits_of U L F) self.now) changed
            → roots V.eq (bits_of U L F) changed ≤ self.now.limit }
        ensures full { (HasCapacity self.now (key (bits_of U L F) p) → ⊥) → IsSwept (bits_of U L F) self.now → (changed : Field V)
            → IsAlteredIn (bits_of U L F) (key (bits_of U L F) p) (field_of (bits_of U L F) self.now) changed
            → (AreSameCells (field_of (bits_of U L F) self.now) changed → ⊥) → self.now.limit < roots V.eq (bits_of U L F) changed }
    {
        let _ = &self.root;
    }

    /// Does nothing. Its contract states a fact of every tree: p's leaf extent has a leaf if its cells aren't all equal.
    fn has_leaf_if_non_constant(&self, p: Coord)
        ensures { is_constant V.eq (field_of (bits_of U L F) self.now) (block_around (bits_of U L F) Leaf p) ≡ false → IsTrue (in_leaf (bits_of U L F) self.now p) }
    {
        let _ = &self.root;
    }

    /// Makes sure that p's upper extent has an entry or that the table has capacity for one, by sweeping out background
    /// entries.
    pub(crate) fn make_capacity(&mut self, p: Coord, steps: &mut Steps) -> Result<(), TreeRefusal>
        ensures keeps { Keeps (bits_of U L F) self.old self.new }
        ensures capacity { OnOk result (HasCapacity self.new (key (bits_of U L F) p)) }
        ensures there { HasCapacity self.old (key (bits_of U L F) p) → IsOk result × (self.new ≡ self.old) × (steps.new ≡ steps.old) }
        ensures within { OnOk result ((changed : Field V)
            → IsAlteredIn (bits_of U L F) (key (bits_of U L F) p) (field_of (bits_of U L F) self.old) changed
            → roots V.eq (bits_of U L F) changed ≤ self.old.limit) }
        ensures full { IfErr result (λ refusal. (refusal ≡ RootLimit) × ((changed : Field V)
            → IsAlteredIn (bits_of U L F) (key (bits_of U L F) p) (field_of (bits_of U L F) self.old) changed
            → (AreSameCells (field_of (bits_of U L F) self.old) changed → ⊥) → self.old.limit < roots V.eq (bits_of U L F) changed)) }
    {
        self.keeps_to_limit(p);
        if self.has_capacity(p) {
            return Ok(());
        }
        self.erase_background(steps);
        self.keeps_to_limit(p);
        if self.has_capacity(p) {
            return Ok(());
        }
        Err(TreeRefusal::RootLimit)
    }

    /// Returns whether p's upper extent has an entry or the table has capacity for one.
    pub(crate) fn has_capacity(&self, p: Coord) -> bool
        ensures { IsTrue result ↔ HasCapacity self.now (key (bits_of U L F) p) }
    {
        self.root.len() < self.limit as usize || self.root.get(self.key(p)).is_some()
    }

    /// Returns the slot of the leaf around p. If p has no leaf, this makes one, with the nodes above it.
    pub(crate) fn leaf_around(&mut self, p: Coord, steps: &mut Steps) -> Result<u32, TreeRefusal>
        requires capacity { HasCapacity self.old (key (bits_of U L F) p) }
        ensures keeps { Keeps (bits_of U L F) self.old self.new }
        ensures adds { AddsNodes (bits_of U L F) self.old self.new }
        ensures elsewhere { KeepsElsewhere (bits_of U L F) self.old self.new p }
        ensures table { (k : Coord) → k ≢ key (bits_of U L F) p → root_at self.new.root k ≡ root_at self.old.root k }
        ensures ok { IfOk result (λ slot. lower_entry (bits_of U L F) self.new p ≡ Child slot) }
        ensures there { IsTrue (in_leaf (bits_of U L F) self.old p) → IsOk result }
        ensures memory { IfErr result (λ refusal. refusal ≡ Memory) }
        ensures steps { steps.new ≤ steps.old + 4 }
    {
        let upper = self.upper_around(p)?;
        let lower = self.lower_in(upper, p, steps)?;
        self.leaf_in(lower, p, steps)
    }

    /// Returns the slot of the upper node around p. If p has none, this makes one.
    pub(crate) fn upper_around(&mut self, p: Coord) -> Result<u32, TreeRefusal>
        requires capacity { HasCapacity self.old (key (bits_of U L F) p) }
        ensures keeps { Keeps (bits_of U L F) self.old self.new }
        ensures adds { AddsNodes (bits_of U L F) self.old self.new }
        ensures but { KeepsAllBut (bits_of U L F) Upper self.old self.new p }
        ensures table { (k : Coord) → k ≢ key (bits_of U L F) p → root_at self.new.root k ≡ root_at self.old.root k }
        ensures ok { IfOk result (λ slot. root_entry (bits_of U L F) self.new p ≡ Child slot) }
        ensures there { (slot : ℕ) → root_entry (bits_of U L F) self.old p ≡ Child slot → (result ≡ Ok slot) × (self.new ≡ self.old) }
        ensures memory { IfErr result (λ refusal. refusal ≡ Memory) }
    {
        match self.root_entry(p) {
            Entry::Child(slot) => Ok(slot),
            Entry::Tile(cell) => {
                self.enter_root_block(p)?;
                self.split_root(p, cell)
            }
        }
    }

    /// Returns the slot of the lower node around p. If p has none, this makes one.
    pub(crate) fn lower_in(
        &mut self,
        upper: u32,
        p: Coord,
        steps: &mut Steps,
    ) -> Result<u32, TreeRefusal>
        requires { root_entry (bits_of U L F) self.old p ≡ Child upper }
        ensures keeps { Keeps (bits_of U L F) self.old self.new }
        ensures adds { AddsNodes (bits_of U L F) self.old self.new }
        ensures but { KeepsAllBut (bits_of U L F) Lower self.old self.new p }
        ensures root { self.new.root ≡ self.old.root }
        ensures ok { IfOk result (λ slot. upper_entry (bits_of U L F) self.new p ≡ Child slot) }
        ensures there { (slot : ℕ) → upper_entry (bits_of U L F) self.old p ≡ Child slot → (result ≡ Ok slot) × (self.new ≡ self.old) }
        ensures memory { IfErr result (λ refusal. refusal ≡ Memory) }
        ensures steps { steps.new ≤ steps.old + 2 }
    {
        match self.upper_entry(upper, p, steps) {
            Entry::Child(slot) => Ok(slot),
            Entry::Tile(cell) => self.split_upper(upper, p, cell, steps),
        }
    }

    /// Returns the slot of the leaf around p. If p has none, this makes one.
    fn leaf_in(&mut self, lower: u32, p: Coord, steps: &mut Steps) -> Result<u32, TreeRefusal>
        requires { upper_entry (bits_of U L F) self.old p ≡ Child lower }
        ensures keeps { Keeps (bits_of U L F) self.old self.new }
        ensures adds { AddsNodes (bits_of U L F) self.old self.new }
        ensures but { KeepsAllBut (bits_of U L F) Leaf self.old self.new p }
        ensures root { self.new.root ≡ self.old.root }
        ensures ok { IfOk result (λ slot. lower_entry (bits_of U L F) self.new p ≡ Child slot) }
        ensures there { (slot : ℕ) → lower_entry (bits_of U L F) self.old p ≡ Child slot → (result ≡ Ok slot) × (self.new ≡ self.old) }
        ensures memory { IfErr result (λ refusal. refusal ≡ Memory) }
        ensures steps { steps.new ≤ steps.old + 2 }
    {
        match self.lower_entry(lower, p, steps) {
            Entry::Child(slot) => Ok(slot),
            Entry::Tile(cell) => self.split_lower(lower, p, cell, steps),
        }
    }
}
