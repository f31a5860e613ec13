//! Sweeps: the nodes whose blocks are constant become tiles, and the root table loses its background entries.

ghost use Rattle.std.specs.Prelude.{◌≡◌, ◌≢◌, ◌<◌, ◌≤◌, ◌↔◌, ℕ, IfSome, IsNone, Some};
ghost use Rattle.vdb_coord.specs.Blocks.{block_around, block_number, entries, key, sub_block};
ghost use Rattle.vdb_coord.specs.Entries.{AreBits};
ghost use Rattle.vdb_coord.specs.declared.Coord.{Coord};
ghost use Rattle.vdb_coord.specs.declared.Level.TheVariants.{Leaf, Lower, Upper};
ghost use Rattle.vdb_node.specs.Nodes.{entry_count};
ghost use Rattle.vdb_node.specs.declared.Entry.TheVariants.{Child, Tile};
ghost use Rattle.vdb_tree.specs.Changes.{AreNeeded, IsConstantBlock, IsNeededTo, IsSwept, Keeps, KeepsUppers, PassesFrom, PassesTo, PrunesRoot, SameDescent};
ghost use Rattle.vdb_tree.specs.internal.Children.{IsNextCorner, IsTiled};
ghost use Rattle.vdb_tree.specs.Layout.{bits_of, field_of, lower_entry, background_cell, root_at, root_entry, upper_entry};
ghost use Rattle.vdb_tree.specs.Smallest.{IsLeast};
ghost use Rattle.vdb_tree.specs.Table.{IsNextKey};
ghost use Rattle.vdb_tree.specs.internal.Erase.{AddsBackgroundTiles, ErasesRoot};
ghost use Rattle.vdb_tree.specs.Nodes.{MakesNoKey};

use crate::TreeOf;
use crate::nodes::held_place;
use vdb_coord::{Bits, Coord, Level};
use vdb_node::{Entry, Stored};
use vdb_pool::Steps;
use vdb_value::Cell;

impl<
    V: Stored<WU> + Stored<WL> + Stored<WF>,
    const U: u32,
    const L: u32,
    const F: u32,
    const WU: usize,
    const WL: usize,
    const WF: usize,
> TreeOf<V, U, L, F, WU, WL, WF> {
    /// Returns the one cell of all voxels of the leaf around p, or `None` if two differ.
    pub(crate) fn leaf_constant(&self, leaf: u32, p: Coord, steps: &mut Steps) -> Option<Cell<V>>
        requires { lower_entry (bits_of U L F) self.now p ≡ Child leaf }
        ensures { (cell : Cell V) → (result ≡ Some cell) ↔ IsConstantBlock (bits_of U L F) Leaf self.now p cell }
    {
        let count = u32::from(self.bits().entries(Level::Leaf));
        let place = held_place(&self.leaves, leaf);
        let node = self.leaves.at(place, steps);
        let _ = node.entry(count - 1); // the proof learns from it that each entry has a cell
        node.constant()
    }

    /// Returns the one tile of all entries of the lower node around p, or `None` if the entries aren't one tile.
    fn lower_constant(&self, lower: u32, p: Coord, steps: &mut Steps) -> Option<Cell<V>>
        requires { upper_entry (bits_of U L F) self.now p ≡ Child lower }
        ensures constant { (cell : Cell V) → (result ≡ Some cell) ↔ IsTiled (bits_of U L F) Lower (lower_entry (bits_of U L F) self.now) p cell }
        ensures childless { IfSome result (λ _. (q : Coord) (slot : ℕ) → block_number (bits_of U L F) Lower q ≡ block_number (bits_of U L F) Lower p → lower_entry (bits_of U L F) self.now q ≡ Child slot → ⊥) }
    {
        let count = u32::from(self.bits().entries(Level::Lower));
        let place = held_place(&self.lowers, lower);
        let node = self.lowers.at(place, steps);
        let _ = node.entry(count - 1);
        node.constant()
    }

    /// Returns the one tile of all entries of the upper node around p, or `None` if the entries aren't one tile.
    fn upper_constant(&self, upper: u32, p: Coord, steps: &mut Steps) -> Option<Cell<V>>
        requires { root_entry (bits_of U L F) self.now p ≡ Child upper }
        ensures constant { (cell : Cell V) → (result ≡ Some cell) ↔ IsTiled (bits_of U L F) Upper (upper_entry (bits_of U L F) self.now) p cell }
        ensures childless { IfSome result (λ _. (q : Coord) (slot : ℕ) → block_number (bits_of U L F) Upper q ≡ block_number (bits_of U L F) Upper p → upper_entry (bits_of U L F) self.now q ≡ Child slot → ⊥) }
    {
        let count = u32::from(self.bits().entries(Level::Upper));
        let place = held_place(&self.uppers, upper);
        let node = self.uppers.at(place, steps);
        let _ = node.entry(count - 1);
        node.constant()
    }

    /// Returns the first leaf of the lower node around p from this offset on, as its offset and its least coordinate.
    pub(crate) fn next_leaf_corner(
        &self,
        lower: u32,
        p: Coord,
        from: u32,
        steps: &mut Steps,
    ) -> Option<(u32, Coord)>
        requires lower { upper_entry (bits_of U L F) self.now p ≡ Child lower }
        requires within { from ≤ entry_count L }
        ensures corner { IsNextCorner (bits_of U L F) Lower (lower_entry (bits_of U L F) self.now) p from result }
        ensures inside { IfSome result (λ next. upper_entry (bits_of U L F) self.now next.1 ≡ Child lower) }
        ensures few { IfSome result (λ next. next.0 < 32768) }
    {
        let bits = self.bits();
        let place = held_place(&self.lowers, lower);
        match self.lowers.at(place, steps).next_child(from) {
            Some(offset) => Some((offset, entry_corner(p, bits, Level::Lower, offset))),
            None => None,
        }
    }

    /// Returns the first lower node of the upper node around p from this offset on, as its offset and its least coordinate.
    pub(crate) fn next_lower_corner(
        &self,
        upper: u32,
        p: Coord,
        from: u32,
        steps: &mut Steps,
    ) -> Option<(u32, Coord)>
        requires upper { root_entry (bits_of U L F) self.now p ≡ Child upper }
        requires within { from ≤ entry_count U }
        ensures corner { IsNextCorner (bits_of U L F) Upper (upper_entry (bits_of U L F) self.now) p from result }
        ensures inside { IfSome result (λ next. root_entry (bits_of U L F) self.now next.1 ≡ Child upper) }
        ensures few { IfSome result (λ next. next.0 < 32768) }
    {
        let bits = self.bits();
        let place = held_place(&self.uppers, upper);
        match self.uppers.at(place, steps).next_child(from) {
            Some(offset) => Some((offset, entry_corner(p, bits, Level::Upper, offset))),
            None => None,
        }
    }

    /// Collapses the leaf around p, if there is one, into a tile if its voxels are all one cell.
    fn prune_leaf(&mut self, lower: u32, p: Coord, steps: &mut Steps)
        requires { upper_entry (bits_of U L F) self.old p ≡ Child lower }
        ensures keeps { Keeps (bits_of U L F) self.old self.new }
        ensures above { KeepsUppers self.old self.new }
        ensures others { (q : Coord) → block_number (bits_of U L F) Leaf q ≢ block_number (bits_of U L F) Leaf p → SameDescent (bits_of U L F) self.old self.new q }
        ensures needed { AreNeeded (bits_of U L F) Leaf self.new p }
    {
        let leaf = match self.lower_entry(lower, p, steps) {
            Entry::Tile(_) => return,
            Entry::Child(leaf) => leaf,
        };
        if let Some(cell) = self.leaf_constant(leaf, p, steps) {
            self.drop_leaf(lower, leaf, p, cell, steps);
        }
    }

    /// Prunes the first leaf of the lower node around p from this offset on. Returns the offset after it.
    fn prune_next_leaf(&mut self, lower: u32, p: Coord, from: u32, steps: &mut Steps) -> Option<u32>
        requires lower { upper_entry (bits_of U L F) self.old p ≡ Child lower }
        requires within { from ≤ entry_count L }
        ensures above { KeepsUppers self.old self.new }
        ensures passes { PassesFrom (bits_of U L F) Lower Leaf self.old self.new p from result }
        ensures further { IfSome result (λ next. (from < next) × (next ≤ entry_count L)) }
    {
        match self.next_leaf_corner(lower, p, from, steps) {
            Some((offset, corner)) => {
                self.prune_leaf(lower, corner, steps);
                Some(offset + 1)
            }
            None => None,
        }
    }

    /// Prunes each leaf of the lower node around p.
    fn prune_leaves(&mut self, lower: u32, p: Coord, steps: &mut Steps)
        requires { upper_entry (bits_of U L F) self.old p ≡ Child lower }
        ensures above { KeepsUppers self.old self.new }
        ensures upper { (slot : ℕ) → root_entry (bits_of U L F) self.old p ≡ Child slot → root_entry (bits_of U L F) self.new p ≡ Child slot }
        ensures lower { upper_entry (bits_of U L F) self.new p ≡ Child lower }
        ensures done { PassesTo (bits_of U L F) Lower Leaf self.old self.new p 0 (entries (bits_of U L F) Lower) }
    {
        let mut from = 0;
        while let Some(next) = self.prune_next_leaf(lower, p, from, steps) {
            from = next;
        }
    }

    /// Collapses the lower node around p, if there is one, into a tile if its cells are all one after its leaves were pruned.
    fn prune_lower(&mut self, upper: u32, p: Coord, steps: &mut Steps)
        requires { root_entry (bits_of U L F) self.old p ≡ Child upper }
        ensures keeps { Keeps (bits_of U L F) self.old self.new }
        ensures root { self.new.root ≡ self.old.root }
        ensures others { (q : Coord) → block_number (bits_of U L F) Lower q ≢ block_number (bits_of U L F) Lower p → SameDescent (bits_of U L F) self.old self.new q }
        ensures needed { AreNeeded (bits_of U L F) Lower self.new p }
    {
        let lower = match self.upper_entry(upper, p, steps) {
            Entry::Tile(_) => return,
            Entry::Child(lower) => lower,
        };
        self.prune_leaves(lower, p, steps);
        if let Some(cell) = self.lower_constant(lower, p, steps) {
            self.drop_lower(upper, lower, p, cell, steps);
        }
    }

    /// Prunes the first lower node of the upper node around p from this offset on. Returns the offset after it.
    fn prune_next_lower(
        &mut self,
        upper: u32,
        p: Coord,
        from: u32,
        steps: &mut Steps,
    ) -> Option<u32>
        requires upper { root_entry (bits_of U L F) self.old p ≡ Child upper }
        requires within { from ≤ entry_count U }
        ensures above { self.new.root ≡ self.old.root }
        ensures passes { PassesFrom (bits_of U L F) Upper Lower self.old self.new p from result }
        ensures further { IfSome result (λ next. (from < next) × (next ≤ entry_count U)) }
    {
        match self.next_lower_corner(upper, p, from, steps) {
            Some((offset, corner)) => {
                self.prune_lower(upper, corner, steps);
                Some(offset + 1)
            }
            None => None,
        }
    }

    /// Prunes each lower node of the upper node around p.
    fn prune_lowers(&mut self, upper: u32, p: Coord, steps: &mut Steps)
        requires { root_entry (bits_of U L F) self.old p ≡ Child upper }
        ensures above { self.new.root ≡ self.old.root }
        ensures upper { root_entry (bits_of U L F) self.new p ≡ Child upper }
        ensures done { PassesTo (bits_of U L F) Upper Lower self.old self.new p 0 (entries (bits_of U L F) Upper) }
    {
        let mut from = 0;
        while let Some(next) = self.prune_next_lower(upper, p, from, steps) {
            from = next;
        }
    }

    /// Collapses the upper node around p, if there is one, into a tile if its cells are all one after its lower nodes were
    /// pruned.
    pub(crate) fn prune_upper(&mut self, p: Coord, steps: &mut Steps)
        ensures keeps { Keeps (bits_of U L F) self.old self.new }
        ensures others { (q : Coord) → block_number (bits_of U L F) Upper q ≢ block_number (bits_of U L F) Upper p → SameDescent (bits_of U L F) self.old self.new q }
        ensures table { (k : Coord) → k ≢ key (bits_of U L F) p → root_at self.new.root k ≡ root_at self.old.root k }
        ensures needed { AreNeeded (bits_of U L F) Upper self.new p }
    {
        let upper = match self.root_entry(p) {
            Entry::Tile(_) => return,
            Entry::Child(upper) => upper,
        };
        self.prune_lowers(upper, p, steps);
        if let Some(cell) = self.upper_constant(upper, p, steps) {
            self.drop_upper(upper, p, cell, steps);
        }
    }

    /// Removes the entry of p's upper extent if it is a tile of the inactive background.
    pub(crate) fn drop_background(&mut self, p: Coord)
        ensures keeps { Keeps (bits_of U L F) self.old self.new }
        ensures same { (q : Coord) → SameDescent (bits_of U L F) self.old self.new q }
        ensures table { (k : Coord) → k ≢ key (bits_of U L F) p → root_at self.new.root k ≡ root_at self.old.root k }
        ensures gone { root_at self.new.root (key (bits_of U L F) p) ≡ Some (Tile (background_cell self.new)) → ⊥ }
    {
        let key = self.key(p);
        let background_cell = Cell {
            value: self.background,
            on: false,
        };
        if self.root.get(key) == Some(Entry::Tile(background_cell)) {
            self.root.remove(key);
        }
    }

    /// Prunes the first upper extent past a key, or the first of all, and removes its entry if it is all background. Returns
    /// its key.
    fn prune_next_root(&mut self, after: Option<Coord>, steps: &mut Steps) -> Option<Coord>
        ensures next { IsNextKey self.old.root after result }
        ensures none { IsNone result → self.new ≡ self.old }
        ensures pruned { IfSome result (λ k. PrunesRoot (bits_of U L F) self.old self.new k) }
    {
        let key = self.next_key(after)?;
        let corner = self.key_corner(key);
        self.prune_upper(corner, steps);
        self.drop_background(corner);
        Some(key)
    }

    /// Prunes each upper extent, in the order of keys, and removes the entries of background upper extents.
    fn sweep(&mut self, steps: &mut Steps)
        ensures keeps { Keeps (bits_of U L F) self.old self.new }
        ensures needed { (p : Coord) → IsNeededTo (bits_of U L F) Upper self.new p }
        ensures swept { IsSwept (bits_of U L F) self.new }
    {
        let mut passed = None;
        while let Some(key) = self.prune_next_root(passed, steps) {
            passed = Some(key);
        }
    }

    /// Makes the tree as small as its field allows: collapses each node whose block has one cell into a tile, and removes the
    /// entries of background upper extents from the table. It passes over each node once, from below, and takes no memory
    /// (OpenVDB's `tools::prune` without a tolerance, with `RootNode::eraseBackgroundTiles`).
    pub fn prune(&mut self, steps: &mut Steps)
        ensures field { field_of (bits_of U L F) self.new ≡ field_of (bits_of U L F) self.old }
        ensures limit { self.new.limit ≡ self.old.limit }
        ensures least { IsLeast V.eq (bits_of U L F) self.new }
    {
        self.sweep(steps);
        let _ = &self.root;
    }

    /// Removes the entry of each upper extent whose cells are all the inactive background, with the nodes below it. Other nodes
    /// and tiles stay (OpenVDB's `RootNode::eraseBackgroundTiles`, if such extents were pruned before).
    pub(crate) fn erase_background(&mut self, steps: &mut Steps)
        ensures keeps { Keeps (bits_of U L F) self.old self.new }
        ensures adds { AddsBackgroundTiles (bits_of U L F) self.old self.new }
        ensures keys { MakesNoKey self.old self.new }
        ensures swept { IsSwept (bits_of U L F) self.new }
    {
        if self.swept {
            return;
        }
        let mut passed = None;
        while let Some(key) = self.erase_next_background(passed, steps) {
            passed = Some(key);
        }
        self.swept = true;
    }

    /// Removes the entry of the first upper extent past a key, or of the first of all, if the extent is all background. Returns
    /// its key.
    fn erase_next_background(&mut self, after: Option<Coord>, steps: &mut Steps) -> Option<Coord>
        ensures next { IsNextKey self.old.root after result }
        ensures none { IsNone result → self.new ≡ self.old }
        ensures erased { IfSome result (λ k. ErasesRoot (bits_of U L F) self.old self.new k) }
    {
        let key = self.next_key(after)?;
        let corner = self.key_corner(key);
        if self.root_block_is(corner, self.background_cell(), steps) {
            self.prune_upper(corner, steps);
            self.drop_background(corner);
        }
        Some(key)
    }
}

/// Returns the least coordinate of the entry at this offset in the level's node around p.
pub(crate) fn entry_corner(p: Coord, bits: Bits, level: Level, offset: u32) -> Coord
    requires configured { AreBits bits }
    requires within { offset < entries bits level }
    ensures { result ≡ (sub_block bits level (block_around bits level p) offset).min }
{
    p.entry_block_in(bits, level, offset as u16).min()
}
