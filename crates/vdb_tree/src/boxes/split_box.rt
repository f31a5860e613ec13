//! Splits of the tiles that the edge of a box crosses, so that the box can be painted without memory.

ghost use Rattle.std.specs.Prelude.{◌≡◌, ◌≢◌, ◌⊎◌, IfErr, IfOk, IfSome, IsNone, IsSome, IsTrue, OnOk, Some};
ghost use Rattle.vdb_coord.specs.Blocks.{block_number, key};
ghost use Rattle.vdb_coord.specs.Space.{Box, is_inside};
ghost use Rattle.vdb_coord.specs.declared.Coord.{Coord};
ghost use Rattle.vdb_coord.specs.declared.Level.TheVariants.{Leaf, Lower, Upper};
ghost use Rattle.vdb_node.specs.declared.Entry.TheVariants.{Child};
ghost use Rattle.vdb_tree.specs.Changes.{AddsNodes, Keeps, KeepsUppers};
ghost use Rattle.vdb_tree.specs.Field.{fill};
ghost use Rattle.vdb_tree.specs.Layout.{bits_of, field_of, background_cell, root_at, root_entry, upper_entry};
ghost use Rattle.vdb_tree.specs.Nodes.{IsCut, MakesNoKey, MakesOnly, MakesKeysIn};
ghost use Rattle.vdb_tree.specs.Outcome.{ObeysLimit};
ghost use Rattle.vdb_tree.specs.SplitBox.{IsCovered, IsSplit, IsSplitTo};
ghost use Rattle.vdb_tree.specs.Capacity.{HasCapacityFor, IsNextMet};
ghost use Rattle.vdb_tree.specs.declared.refusal.TreeRefusal.TheVariants.{Memory};

use crate::{TreeOf, TreeRefusal};
use vdb_coord::{Bounds, Coord, Level};
use vdb_node::{Entry, Stored};
use vdb_pool::Steps;
use vdb_value::Cell;

impl<
    V: Stored<WU> + Stored<WL> + Stored<WF>,
    const U: u32,
    const L: u32,
    const F: u32,
    const WU: usize,
    const WL: usize,
    const WF: usize,
> TreeOf<V, U, L, F, WU, WL, WF> {
    /// Splits the tree for a box that is to be painted with this cell. Each tile of another cell that crosses the edge of the
    /// box becomes a node with that tile's cell all over. If the cell isn't the inactive background, each upper extent that
    /// meets the box gets an entry. No other node or entry is added, and none is removed if the table has capacity for the box.
    /// No cell changes, and what was split for the inactive background stays split.
    ///
    /// `RootLimit`: the filled box would leave more upper extents with a cell other than the inactive background than the
    /// limit. `Memory`: an allocation failed; some nodes may have been made. Both errors keep every cell. It visits the nodes
    /// that the box's edge crosses, and others only if it first has to sweep a full root table of background entries. OpenVDB's
    /// `Tree::fill` makes these nodes while it writes.
    pub fn split(
        &mut self,
        bounds: Bounds,
        cell: Cell<V>,
        steps: &mut Steps,
    ) -> Result<(), TreeRefusal>
        ensures field { field_of (bits_of U L F) self.new ≡ field_of (bits_of U L F) self.old }
        ensures kept { self.new.limit ≡ self.old.limit }
        ensures made { MakesOnly (bits_of U L F) (IsCut (bits_of U L F) bounds cell) self.old self.new }
        ensures keys { MakesKeysIn (bits_of U L F) bounds self.old self.new }
        ensures no_keys { cell ≡ background_cell self.old → MakesNoKey self.old self.new }
        ensures adds { (cell ≡ background_cell self.old) ⊎ HasCapacityFor (bits_of U L F) self.old bounds → AddsNodes (bits_of U L F) self.old self.new }
        ensures done { OnOk result (IsSplit (bits_of U L F) bounds cell self.new) }
        ensures limit { ObeysLimit V.eq (bits_of U L F) self.old.limit (fill bounds cell (field_of (bits_of U L F) self.old)) result }
        ensures background_cell { cell ≡ background_cell self.old → IfErr result (λ refusal. refusal ≡ Memory) }
        ensures edges { (box : Box) → IsSplit (bits_of U L F) box (background_cell self.old) self.old → IsSplit (bits_of U L F) box (background_cell self.old) self.new }
    {
        self.enter_box(bounds, cell, steps)?;
        self.split_root_blocks(bounds, cell, steps)
    }

    /// Splits the upper extents that have an entry.
    fn split_root_blocks(
        &mut self,
        bounds: Bounds,
        cell: Cell<V>,
        steps: &mut Steps,
    ) -> Result<(), TreeRefusal>
        ensures keeps { Keeps (bits_of U L F) self.old self.new }
        ensures adds { AddsNodes (bits_of U L F) self.old self.new }
        ensures made { MakesOnly (bits_of U L F) (IsCut (bits_of U L F) bounds cell) self.old self.new }
        ensures keys { MakesNoKey self.old self.new }
        ensures edges { OnOk result ((q : Coord) → IsTrue (is_inside bounds q) → (cell ≡ background_cell self.new) ⊎ IsSome (root_at self.new.root (key (bits_of U L F) q))
            → IsSplitTo (bits_of U L F) bounds cell Upper self.new q) }
        ensures memory { IfErr result (λ refusal. refusal ≡ Memory) }
    {
        if self.covers_roots(bounds) {
            return Ok(());
        }
        let mut passed = None;
        loop {
            match self.split_next_root(bounds, cell, passed, steps)? {
                Some(key) => passed = Some(key),
                None => return Ok(()),
            }
        }
    }

    /// Returns true only if the box covers each upper extent that it meets.
    fn covers_roots(&self, bounds: Bounds) -> bool
        ensures { IsTrue result → (p : Coord) → IsTrue (is_inside bounds p) → IsCovered (bits_of U L F) bounds Upper p }
    {
        self.is_covered(bounds, Level::Upper, bounds.min())
            && self.is_covered(bounds, Level::Upper, bounds.max())
    }

    /// Splits the first upper extent that `next_entry_in` finds past the key `after` (the first of all without `after`), if it
    /// meets the box. Returns that extent's key.
    fn split_next_root(
        &mut self,
        bounds: Bounds,
        cell: Cell<V>,
        after: Option<Coord>,
        steps: &mut Steps,
    ) -> Result<Option<Coord>, TreeRefusal>
        ensures keeps { Keeps (bits_of U L F) self.old self.new }
        ensures adds { AddsNodes (bits_of U L F) self.old self.new }
        ensures made { MakesOnly (bits_of U L F) (IsCut (bits_of U L F) bounds cell) self.old self.new }
        ensures keys { MakesNoKey self.old self.new }
        ensures next { IfOk result (λ next. IsNextMet (bits_of U L F) bounds self.old.root after next) }
        ensures edges { IfOk result (λ next. IfSome next (λ k. (q : Coord) → IsTrue (is_inside bounds q) → key (bits_of U L F) q ≡ k
            → IsSplitTo (bits_of U L F) bounds cell Upper self.new q)) }
        ensures table { IfOk result (λ next. (k : Coord) → next ≢ Some k → root_at self.new.root k ≡ root_at self.old.root k) }
        ensures memory { IfErr result (λ refusal. refusal ≡ Memory) }
    {
        let Some((key, entry)) = self.next_entry_in(bounds, after) else {
            return Ok(None);
        };
        if let Some(p) = self.within_root(bounds, key) {
            self.split_upper_block(bounds, p, entry, cell, steps)?;
        }
        Ok(Some(key))
    }

    /// Splits p's upper extent, which has this entry.
    fn split_upper_block(
        &mut self,
        bounds: Bounds,
        p: Coord,
        entry: Entry<V>,
        cell: Cell<V>,
        steps: &mut Steps,
    ) -> Result<(), TreeRefusal>
        requires inside { IsTrue (is_inside bounds p) }
        requires entered { root_at self.old.root (key (bits_of U L F) p) ≡ Some entry }
        ensures keeps { Keeps (bits_of U L F) self.old self.new }
        ensures adds { AddsNodes (bits_of U L F) self.old self.new }
        ensures made { MakesOnly (bits_of U L F) (IsCut (bits_of U L F) bounds cell) self.old self.new }
        ensures keys { MakesNoKey self.old self.new }
        ensures table { (k : Coord) → k ≢ key (bits_of U L F) p → root_at self.new.root k ≡ root_at self.old.root k }
        ensures edges { OnOk result ((q : Coord) → IsTrue (is_inside bounds q) → block_number (bits_of U L F) Upper q ≡ block_number (bits_of U L F) Upper p
            → IsSplitTo (bits_of U L F) bounds cell Upper self.new q) }
        ensures memory { IfErr result (λ refusal. refusal ≡ Memory) }
    {
        if self.is_covered(bounds, Level::Upper, p) {
            return Ok(());
        }
        if let Entry::Tile(tile) = &entry {
            if *tile == cell {
                return Ok(());
            }
        }
        let upper = self.upper_of(p, entry)?;
        let part = self.part(bounds, Level::Upper, p);
        self.split_lower_blocks(upper, bounds, p, part, cell, steps)
    }

    /// Splits the lower extents of the upper node around p that meet the box.
    fn split_lower_blocks(
        &mut self,
        upper: u32,
        bounds: Bounds,
        p: Coord,
        part: Bounds,
        cell: Cell<V>,
        steps: &mut Steps,
    ) -> Result<(), TreeRefusal>
        requires part { (q : Coord) → IsTrue (is_inside part q) → IsTrue (is_inside bounds q) × (block_number (bits_of U L F) Upper q ≡ block_number (bits_of U L F) Upper p) }
        requires node { root_entry (bits_of U L F) self.old p ≡ Child upper }
        ensures keeps { Keeps (bits_of U L F) self.old self.new }
        ensures adds { AddsNodes (bits_of U L F) self.old self.new }
        ensures made { MakesOnly (bits_of U L F) (IsCut (bits_of U L F) bounds cell) self.old self.new }
        ensures root { self.new.root ≡ self.old.root }
        ensures edges { OnOk result ((q : Coord) → IsTrue (is_inside part q) → IsSplitTo (bits_of U L F) bounds cell Lower self.new q) }
        ensures memory { IfErr result (λ refusal. refusal ≡ Memory) }
    {
        let mut at = part.min();
        loop {
            self.split_lower_block(upper, bounds, at, cell, steps)?;
            match self.next_block(part, Level::Lower, at) {
                Some(next) => at = next,
                None => return Ok(()),
            }
        }
    }

    /// Splits the lower extent around p if the edge of the box crosses it.
    fn split_lower_block(
        &mut self,
        upper: u32,
        bounds: Bounds,
        p: Coord,
        cell: Cell<V>,
        steps: &mut Steps,
    ) -> Result<(), TreeRefusal>
        requires inside { IsTrue (is_inside bounds p) }
        requires node { root_entry (bits_of U L F) self.old p ≡ Child upper }
        ensures keeps { Keeps (bits_of U L F) self.old self.new }
        ensures adds { AddsNodes (bits_of U L F) self.old self.new }
        ensures made { MakesOnly (bits_of U L F) (IsCut (bits_of U L F) bounds cell) self.old self.new }
        ensures root { self.new.root ≡ self.old.root }
        ensures edges { OnOk result ((q : Coord) → IsTrue (is_inside bounds q) → block_number (bits_of U L F) Lower q ≡ block_number (bits_of U L F) Lower p
            → IsSplitTo (bits_of U L F) bounds cell Lower self.new q) }
        ensures memory { IfErr result (λ refusal. refusal ≡ Memory) }
    {
        if self.is_covered(bounds, Level::Lower, p) {
            return Ok(());
        }
        if let Entry::Tile(tile) = self.upper_entry(upper, p, steps) {
            if tile == cell {
                return Ok(());
            }
        }
        let lower = self.lower_in(upper, p, steps)?;
        let part = self.part(bounds, Level::Lower, p);
        self.split_leaf_blocks(lower, bounds, p, part, cell, steps)
    }

    /// Splits the leaf extents of the lower node around p that meet the box.
    fn split_leaf_blocks(
        &mut self,
        lower: u32,
        bounds: Bounds,
        p: Coord,
        part: Bounds,
        cell: Cell<V>,
        steps: &mut Steps,
    ) -> Result<(), TreeRefusal>
        requires part { (q : Coord) → IsTrue (is_inside part q) → IsTrue (is_inside bounds q) × (block_number (bits_of U L F) Lower q ≡ block_number (bits_of U L F) Lower p) }
        requires node { upper_entry (bits_of U L F) self.old p ≡ Child lower }
        ensures keeps { Keeps (bits_of U L F) self.old self.new }
        ensures adds { AddsNodes (bits_of U L F) self.old self.new }
        ensures made { MakesOnly (bits_of U L F) (IsCut (bits_of U L F) bounds cell) self.old self.new }
        ensures above { KeepsUppers self.old self.new }
        ensures edges { OnOk result ((q : Coord) → IsTrue (is_inside part q) → IsSplitTo (bits_of U L F) bounds cell Leaf self.new q) }
        ensures memory { IfErr result (λ refusal. refusal ≡ Memory) }
    {
        let mut at = part.min();
        loop {
            self.split_leaf_block(lower, bounds, at, cell, steps)?;
            match self.next_block(part, Level::Leaf, at) {
                Some(next) => at = next,
                None => return Ok(()),
            }
        }
    }

    /// Splits the leaf extent around p if the edge of the box crosses it.
    fn split_leaf_block(
        &mut self,
        lower: u32,
        bounds: Bounds,
        p: Coord,
        cell: Cell<V>,
        steps: &mut Steps,
    ) -> Result<(), TreeRefusal>
        requires { upper_entry (bits_of U L F) self.old p ≡ Child lower }
        ensures keeps { Keeps (bits_of U L F) self.old self.new }
        ensures adds { AddsNodes (bits_of U L F) self.old self.new }
        ensures made { IsTrue (is_inside bounds p) → MakesOnly (bits_of U L F) (IsCut (bits_of U L F) bounds cell) self.old self.new }
        ensures above { KeepsUppers self.old self.new }
        ensures edges { OnOk result ((q : Coord) → block_number (bits_of U L F) Leaf q ≡ block_number (bits_of U L F) Leaf p
            → IsSplitTo (bits_of U L F) bounds cell Leaf self.new q) }
        ensures memory { IfErr result (λ refusal. refusal ≡ Memory) }
    {
        if self.is_covered(bounds, Level::Leaf, p) {
            return Ok(());
        }
        match self.lower_entry(lower, p, steps) {
            Entry::Child(_) => Ok(()),
            Entry::Tile(tile) => {
                if tile == cell {
                    return Ok(());
                }
                self.split_lower(lower, p, tile, steps)?;
                Ok(())
            }
        }
    }
}
