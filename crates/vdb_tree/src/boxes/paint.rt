//! Painting: gives every voxel of a box one cell. Painting takes no memory, because `split` has made the nodes before.

ghost use Rattle.std.specs.Prelude.{◌≡◌, ◌≢◌, ℕ, false, IfNone, IfSome, IsNone, IsSome, IsTrue};
ghost use Rattle.vdb_coord.specs.Blocks.{block_number, key};
ghost use Rattle.vdb_coord.specs.Boxes.{meets};
ghost use Rattle.vdb_coord.specs.Space.{Box, is_inside};
ghost use Rattle.vdb_coord.specs.declared.Coord.{Coord};
ghost use Rattle.vdb_coord.specs.declared.Level.{Level};
ghost use Rattle.vdb_coord.specs.declared.Level.TheVariants.{Leaf, Lower, Upper};
ghost use Rattle.vdb_node.specs.declared.Entry.TheVariants.{Child, Tile};
ghost use Rattle.vdb_tree.specs.Changes.{KeepsUppers};
ghost use Rattle.vdb_tree.specs.Field.{fill};
ghost use Rattle.vdb_tree.specs.Layout.{bits_of, cell_at, entry_over, field_of, lower_entry, root_at, root_entry, upper_entry};
ghost use Rattle.vdb_tree.specs.internal.Paints.{ArePainted, AreSplit, KeepsOutside};
ghost use Rattle.vdb_tree.specs.SplitBox.{IsCovered, IsSplit};
ghost use Rattle.vdb_tree.specs.Capacity.{IsNextMet};

use crate::TreeOf;
use crate::boxes::paint_voxels::paint_voxels;
use crate::nodes::held_place;
use vdb_coord::{Bounds, Coord, Level};
use vdb_node::{Entry, Stored};
use vdb_pool::Steps;
use vdb_value::Cell;

impl<
    V: Stored<WU> + Stored<WL> + Stored<WF>,
    const U: u32,
    const L: u32,
    const F: u32,
    const WU: usize,
    const WL: usize,
    const WF: usize,
> TreeOf<V, U, L, F, WU, WL, WF> {
    /// Gives each coordinate of the box this cell and keeps every other cell (OpenVDB's `Tree::fill`). It takes no memory:
    /// after `split` the tree has a node wherever the edge of the box would cross a tile of another cell. Each aligned block
    /// that lies within the box becomes a tile, and its nodes go back to their pools.
    pub fn paint(&mut self, bounds: Bounds, cell: Cell<V>, steps: &mut Steps)
        requires edges { IsSplit (bits_of U L F) bounds cell self.old }
        ensures field { field_of (bits_of U L F) self.new ≡ fill bounds cell (field_of (bits_of U L F) self.old) }
        ensures limit { self.new.limit ≡ self.old.limit }
        ensures tiles { (level : Level) (p : Coord) → IsCovered (bits_of U L F) bounds level p → entry_over (bits_of U L F) level self.new p ≡ Tile cell }
        ensures again { (box : Box) → IsSplit (bits_of U L F) box cell self.old → IsSplit (bits_of U L F) box cell self.new }
        ensures apart { (box : Box) (other : Cell V) → meets bounds box ≡ false → IsSplit (bits_of U L F) box other self.old → IsSplit (bits_of U L F) box other self.new }
    {
        let mut passed = None;
        while let Some(key) = self.paint_next_root(bounds, cell, passed, steps) {
            passed = Some(key);
        }
    }

    /// Paints the box in the first upper extent that `next_entry_in` finds past the key `after`, or in the first of all without
    /// `after`. Returns that extent's key.
    fn paint_next_root(
        &mut self,
        bounds: Bounds,
        cell: Cell<V>,
        after: Option<Coord>,
        steps: &mut Steps,
    ) -> Option<Coord>
        requires { AreSplit (bits_of U L F) bounds cell self.old }
        ensures next { IsNextMet (bits_of U L F) bounds self.old.root after result }
        ensures none { IsNone result → self.new ≡ self.old }
        ensures outside { IfSome result (λ k. KeepsOutside (bits_of U L F) bounds Upper self.old self.new k) }
        ensures painted { IfSome result (λ k. ArePainted (bits_of U L F) bounds cell Upper Upper self.new k) }
        ensures table { IfSome result (λ k. (j : Coord) → j ≢ k → root_at self.new.root j ≡ root_at self.old.root j) }
        ensures entered { IfSome result (λ k. IsSome (root_at self.new.root k)) }
    {
        let (key, entry) = self.next_entry_in(bounds, after)?;
        if let Some(p) = self.within_root(bounds, key) {
            self.paint_root_block(bounds, p, entry, cell, steps);
        }
        Some(key)
    }

    /// Paints the box in the upper extent around p, which has this entry.
    fn paint_root_block(
        &mut self,
        bounds: Bounds,
        p: Coord,
        entry: Entry<V>,
        cell: Cell<V>,
        steps: &mut Steps,
    )
        requires inside { IsTrue (is_inside bounds p) }
        requires entered { root_at self.old.root (key (bits_of U L F) p) ≡ Some entry }
        requires edges { AreSplit (bits_of U L F) bounds cell self.old }
        ensures outside { KeepsOutside (bits_of U L F) bounds Upper self.old self.new (block_number (bits_of U L F) Upper p) }
        ensures painted { ArePainted (bits_of U L F) bounds cell Upper Upper self.new (block_number (bits_of U L F) Upper p) }
        ensures table { (k : Coord) → k ≢ key (bits_of U L F) p → root_at self.new.root k ≡ root_at self.old.root k }
        ensures entered { IsSome (root_at self.new.root (key (bits_of U L F) p)) }
    {
        if self.is_covered(bounds, Level::Upper, p) {
            if let Entry::Child(upper) = self.paint_root_tile(p, cell) {
                self.drop_lowers(upper, p, cell, steps);
                self.drop_upper(upper, p, cell, steps);
            }
        } else if let Entry::Child(upper) = entry {
            self.paint_lower_blocks(upper, bounds, p, cell, steps);
        }
    }

    /// Paints the box in each lower extent of the upper node around p.
    fn paint_lower_blocks(
        &mut self,
        upper: u32,
        bounds: Bounds,
        p: Coord,
        cell: Cell<V>,
        steps: &mut Steps,
    )
        requires inside { IsTrue (is_inside bounds p) }
        requires upper { root_entry (bits_of U L F) self.old p ≡ Child upper }
        requires edges { AreSplit (bits_of U L F) bounds cell self.old }
        ensures root { self.new.root ≡ self.old.root }
        ensures outside { KeepsOutside (bits_of U L F) bounds Upper self.old self.new (block_number (bits_of U L F) Upper p) }
        ensures painted { ArePainted (bits_of U L F) bounds cell Upper Lower self.new (block_number (bits_of U L F) Upper p) }
        ensures upper { root_entry (bits_of U L F) self.new p ≡ Child upper }
    {
        let part = self.part(bounds, Level::Upper, p);
        let mut q = part.min();
        loop {
            self.paint_lower_block(upper, bounds, q, cell, steps);
            match self.next_block(part, Level::Lower, q) {
                Some(next) => q = next,
                None => return,
            }
        }
    }

    /// Paints the box in the lower extent around p.
    fn paint_lower_block(
        &mut self,
        upper: u32,
        bounds: Bounds,
        p: Coord,
        cell: Cell<V>,
        steps: &mut Steps,
    )
        requires inside { IsTrue (is_inside bounds p) }
        requires upper { root_entry (bits_of U L F) self.old p ≡ Child upper }
        requires edges { AreSplit (bits_of U L F) bounds cell self.old }
        ensures root { self.new.root ≡ self.old.root }
        ensures outside { KeepsOutside (bits_of U L F) bounds Lower self.old self.new (block_number (bits_of U L F) Lower p) }
        ensures painted { ArePainted (bits_of U L F) bounds cell Lower Lower self.new (block_number (bits_of U L F) Lower p) }
    {
        let covered = self.is_covered(bounds, Level::Lower, p);
        match self.upper_entry(upper, p, steps) {
            Entry::Tile(_) => {
                if covered {
                    self.set_upper_tile(upper, p, cell, steps);
                }
            }
            Entry::Child(lower) => {
                if covered {
                    self.drop_leaves(lower, p, cell, steps);
                    self.drop_lower(upper, lower, p, cell, steps);
                } else {
                    self.paint_leaf_blocks(lower, bounds, p, cell, steps);
                }
            }
        }
    }

    /// Paints the box in each leaf extent of the lower node around p.
    fn paint_leaf_blocks(
        &mut self,
        lower: u32,
        bounds: Bounds,
        p: Coord,
        cell: Cell<V>,
        steps: &mut Steps,
    )
        requires inside { IsTrue (is_inside bounds p) }
        requires lower { upper_entry (bits_of U L F) self.old p ≡ Child lower }
        requires edges { AreSplit (bits_of U L F) bounds cell self.old }
        ensures above { KeepsUppers self.old self.new }
        ensures outside { KeepsOutside (bits_of U L F) bounds Lower self.old self.new (block_number (bits_of U L F) Lower p) }
        ensures painted { ArePainted (bits_of U L F) bounds cell Lower Leaf self.new (block_number (bits_of U L F) Lower p) }
        ensures upper { (slot : ℕ) → root_entry (bits_of U L F) self.old p ≡ Child slot → root_entry (bits_of U L F) self.new p ≡ Child slot }
        ensures lower { upper_entry (bits_of U L F) self.new p ≡ Child lower }
    {
        let part = self.part(bounds, Level::Lower, p);
        let mut q = part.min();
        loop {
            self.paint_leaf_block(lower, bounds, q, cell, steps);
            match self.next_block(part, Level::Leaf, q) {
                Some(next) => q = next,
                None => return,
            }
        }
    }

    /// Paints the box in the leaf extent around p.
    fn paint_leaf_block(
        &mut self,
        lower: u32,
        bounds: Bounds,
        p: Coord,
        cell: Cell<V>,
        steps: &mut Steps,
    )
        requires inside { IsTrue (is_inside bounds p) }
        requires lower { upper_entry (bits_of U L F) self.old p ≡ Child lower }
        requires edges { AreSplit (bits_of U L F) bounds cell self.old }
        ensures above { KeepsUppers self.old self.new }
        ensures outside { KeepsOutside (bits_of U L F) bounds Leaf self.old self.new (block_number (bits_of U L F) Leaf p) }
        ensures painted { ArePainted (bits_of U L F) bounds cell Leaf Leaf self.new (block_number (bits_of U L F) Leaf p) }
    {
        if self.is_covered(bounds, Level::Leaf, p) {
            self.fill_leaf(lower, p, cell, steps);
            return;
        }
        match self.lower_entry(lower, p, steps) {
            Entry::Tile(_) => {}
            Entry::Child(leaf) => self.paint_leaf(leaf, bounds, p, cell, steps),
        }
    }

    /// Paints the voxels of the leaf around p that lie in the box.
    fn paint_leaf(&mut self, leaf: u32, bounds: Bounds, p: Coord, cell: Cell<V>, steps: &mut Steps)
        requires inside { IsTrue (is_inside bounds p) }
        requires leaf { lower_entry (bits_of U L F) self.old p ≡ Child leaf }
        ensures above { KeepsUppers self.old self.new }
        ensures outside { KeepsOutside (bits_of U L F) bounds Leaf self.old self.new (block_number (bits_of U L F) Leaf p) }
        ensures cells { (q : Coord) → IsTrue (is_inside bounds q) → block_number (bits_of U L F) Leaf q ≡ block_number (bits_of U L F) Leaf p
            → cell_at (bits_of U L F) self.new q ≡ cell }
    {
        let place = held_place(&self.leaves, leaf);
        let bits = self.bits();
        let part = self.part(bounds, Level::Leaf, p);
        self.swept = false;
        paint_voxels(self.leaves.at_mut(place, steps), bits, part, cell);
    }
}
