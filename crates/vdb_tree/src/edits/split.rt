//! Splits of tiles into nodes that keep every cell.

ghost use Rattle.std.specs.Prelude.{◌≡◌, ◌≢◌, ◌+◌, ◌<◌, ◌≤◌, ℕ, IfErr, IfOk, IsSome, OnOk, Some, length};
ghost use Rattle.vdb_coord.specs.Blocks.{key};
ghost use Rattle.vdb_coord.specs.declared.Coord.{Coord};
ghost use Rattle.vdb_coord.specs.declared.Level.TheVariants.{Leaf as leaf_level, Lower, Upper};
ghost use Rattle.vdb_node.specs.declared.Entry.TheVariants.{Child, Tile};
ghost use Rattle.vdb_tree.specs.Changes.{AddsNodes, Keeps, KeepsUppers, SameDescent};
ghost use Rattle.vdb_tree.specs.Layout.{bits_of, lower_entry, root_at, root_entry, upper_entry};
ghost use Rattle.vdb_tree.specs.Nodes.{KeepsAllBut};
ghost use Rattle.vdb_tree.specs.declared.refusal.TreeRefusal.TheVariants.{Memory};

use crate::nodes::{held_place, insert_node};
use crate::{TreeOf, TreeRefusal};
use vdb_coord::{Coord, Level};
use vdb_node::{Entry, Internal, Leaf, Stored};
use vdb_pool::Steps;
use vdb_value::Cell;

impl<
    V: Stored<WU> + Stored<WL> + Stored<WF>,
    const U: u32,
    const L: u32,
    const F: u32,
    const WU: usize,
    const WL: usize,
    const WF: usize,
> TreeOf<V, U, L, F, WU, WL, WF> {
    /// Returns the slot of the upper node around p, whose key has this entry. If that is a tile, this splits it.
    pub(crate) fn upper_of(&mut self, p: Coord, entry: Entry<V>) -> Result<u32, TreeRefusal>
        requires { root_at self.old.root (key (bits_of U L F) p) ≡ Some entry }
        ensures keeps { Keeps (bits_of U L F) self.old self.new }
        ensures adds { AddsNodes (bits_of U L F) self.old self.new }
        ensures but { KeepsAllBut (bits_of U L F) Upper self.old self.new p }
        ensures table { (k : Coord) → k ≢ key (bits_of U L F) p → root_at self.new.root k ≡ root_at self.old.root k }
        ensures ok { IfOk result (λ slot. root_entry (bits_of U L F) self.new p ≡ Child slot) }
        ensures there { (slot : ℕ) → entry ≡ Child slot → self.new ≡ self.old }
        ensures memory { IfErr result (λ refusal. refusal ≡ Memory) }
    {
        match entry {
            Entry::Child(slot) => Ok(slot),
            Entry::Tile(cell) => self.split_root(p, cell),
        }
    }

    /// Splits the tile under p's key: makes an upper node with that tile's cell all over. Returns the node's slot.
    pub(crate) fn split_root(&mut self, p: Coord, cell: Cell<V>) -> Result<u32, TreeRefusal>
        requires tiled { root_entry (bits_of U L F) self.old p ≡ Tile cell }
        requires entered { IsSome (root_at self.old.root (key (bits_of U L F) p)) }
        ensures keeps { Keeps (bits_of U L F) self.old self.new }
        ensures adds { AddsNodes (bits_of U L F) self.old self.new }
        ensures but { KeepsAllBut (bits_of U L F) Upper self.old self.new p }
        ensures table { (k : Coord) → k ≢ key (bits_of U L F) p → root_at self.new.root k ≡ root_at self.old.root k }
        ensures ok { IfOk result (λ slot. root_entry (bits_of U L F) self.new p ≡ Child slot) }
        ensures memory { IfErr result (λ refusal. refusal ≡ Memory) }
    {
        let key = self.key(p);
        let node = Internal::new_constant(self.alloc, cell)?;
        let slot = insert_node(&mut self.uppers, node)?;
        self.root.set(key, Entry::Child(slot));
        Ok(slot)
    }

    /// Splits p's tile in an upper node: makes a lower node with the tile's cell all over.
    pub(crate) fn split_upper(
        &mut self,
        upper: u32,
        p: Coord,
        cell: Cell<V>,
        steps: &mut Steps,
    ) -> Result<u32, TreeRefusal>
        requires node { root_entry (bits_of U L F) self.old p ≡ Child upper }
        requires tiled { upper_entry (bits_of U L F) self.old p ≡ Tile cell }
        ensures keeps { Keeps (bits_of U L F) self.old self.new }
        ensures adds { AddsNodes (bits_of U L F) self.old self.new }
        ensures but { KeepsAllBut (bits_of U L F) Lower self.old self.new p }
        ensures root { self.new.root ≡ self.old.root }
        ensures ok { IfOk result (λ slot. upper_entry (bits_of U L F) self.new p ≡ Child slot) }
        ensures memory { IfErr result (λ refusal. refusal ≡ Memory) }
        ensures steps { steps.new ≤ steps.old + 1 }
    {
        let offset = self.offset(p, Level::Upper);
        let node = Internal::new_constant(self.alloc, cell)?;
        let slot = insert_node(&mut self.lowers, node)?;
        let place = held_place(&self.uppers, upper);
        self.uppers.at_mut(place, steps).set_child(offset, slot);
        Ok(slot)
    }

    /// Splits p's tile in a lower node: makes a leaf with the tile's cell all over.
    pub(crate) fn split_lower(
        &mut self,
        lower: u32,
        p: Coord,
        cell: Cell<V>,
        steps: &mut Steps,
    ) -> Result<u32, TreeRefusal>
        requires node { upper_entry (bits_of U L F) self.old p ≡ Child lower }
        requires tiled { lower_entry (bits_of U L F) self.old p ≡ Tile cell }
        ensures keeps { Keeps (bits_of U L F) self.old self.new }
        ensures adds { AddsNodes (bits_of U L F) self.old self.new }
        ensures but { KeepsAllBut (bits_of U L F) leaf_level self.old self.new p }
        ensures above { KeepsUppers self.old self.new }
        ensures ok { IfOk result (λ slot. lower_entry (bits_of U L F) self.new p ≡ Child slot) }
        ensures memory { IfErr result (λ refusal. refusal ≡ Memory) }
        ensures steps { steps.new ≤ steps.old + 1 }
    {
        let offset = self.offset(p, Level::Lower);
        let node = Leaf::new_constant(self.alloc, cell)?;
        let slot = insert_node(&mut self.leaves, node)?;
        let place = held_place(&self.lowers, lower);
        self.lowers.at_mut(place, steps).set_child(offset, slot);
        Ok(slot)
    }
}
