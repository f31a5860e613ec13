//! Ends of descents: a tile of some level or a leaf, and the holder of that entry.

ghost use Rattle.std.specs.Prelude.{◌≡◌, ◌+◌, ◌≤◌};
ghost use Rattle.vdb_node.specs.declared.Entry.TheVariants.{Child};
ghost use Rattle.vdb_tree.specs.internal.Holders.{IsHeldIn, nodes_to};
ghost use Rattle.vdb_tree.specs.Layout.{bits_of, lower_entry, root_entry, upper_entry};
ghost use Rattle.vdb_tree.specs.Parts.{IsEnd};
ghost use Rattle.vdb_tree.specs.Paths.{IsChildAt, Lives};

use crate::{PathOf, TreeOf};
use vdb_coord::{Coord, Level};
use vdb_node::{Entry, Internal, Leaf, Stored};
use vdb_pool::{Place, Steps};
use vdb_value::Cell;

/// The end of a descent: the tile of this level, or the leaf in this slot.
#[derive(Clone, Copy)]
pub(crate) enum End<V> {
    Tile(Level, Cell<V>),
    Leaf(u32),
}

/// A path with the end of the descent.
#[derive(Drop)]
pub(crate) struct Reached<Upper, Lower, Leaf, V> {
    pub(crate) path: PathOf<Upper, Lower, Leaf>,
    pub(crate) end: End<V>,
}

/// The holder of the entry in which a descent ends: the root table, or the internal node in this slot.
#[derive(Clone, Copy)]
pub(crate) enum Holder {
    Root,
    Upper(u32),
    Lower(u32),
}

/// The entry in which a descent ends, with its holder.
#[derive(Clone, Copy)]
pub(crate) struct HeldEntry<V> {
    pub(crate) holder: Holder,
    pub(crate) entry: Entry<V>,
}

impl<
    V: Stored<WU> + Stored<WL> + Stored<WF>,
    const U: u32,
    const L: u32,
    const F: u32,
    const WU: usize,
    const WL: usize,
    const WF: usize,
> TreeOf<V, U, L, F, WU, WL, WF> {
    /// Returns where the descent to `p` ends, with the nodes on its way. It starts from the lowest internal node of the path to
    /// `q` that contains `p`. It doesn't visit a leaf.
    pub(crate) fn reached(
        &self,
        path: PathOf<Internal<V, U, WU>, Internal<V, L, WL>, Leaf<V, F, WF>>,
        q: Coord,
        p: Coord,
        steps: &mut Steps,
    ) -> Reached<Internal<V, U, WU>, Internal<V, L, WL>, Leaf<V, F, WF>, V>
        requires { Lives (bits_of U L F) self.now path q }
        ensures end { IsEnd (bits_of U L F) self.now p result.end }
        ensures lives { Lives (bits_of U L F) self.now result.path p }
    {
        match self.shared(path, q, p) {
            PathOf::Empty => self.reached_from_root(p, steps),
            PathOf::ToUpper(upper) => self.reached_from_upper(upper, p, steps),
            PathOf::ToLower(upper, lower) => self.reached_from_lower(upper, lower, p, steps),
            PathOf::ToLeaf(upper, lower, _) => self.reached_from_lower(upper, lower, p, steps),
        }
    }

    /// Returns the entry in which the descent to `p` ends, a tile or a leaf, with its holder. It visits the nodes down to the
    /// holder.
    pub(crate) fn held_entry(&self, p: Coord, steps: &mut Steps) -> HeldEntry<V>
        ensures value { lower_entry (bits_of U L F) self.now p ≡ result.entry }
        ensures held { IsHeldIn (bits_of U L F) self.now p result.holder result.entry }
        ensures steps { steps.new ≤ steps.old + nodes_to result.holder }
    {
        let upper = match self.root_entry(p) {
            Entry::Tile(cell) => {
                return HeldEntry {
                    holder: Holder::Root,
                    entry: Entry::Tile(cell),
                };
            }
            Entry::Child(slot) => slot,
        };
        let lower = match self.upper_entry(upper, p, steps) {
            Entry::Tile(cell) => {
                return HeldEntry {
                    holder: Holder::Upper(upper),
                    entry: Entry::Tile(cell),
                };
            }
            Entry::Child(slot) => slot,
        };
        let entry = self.lower_entry(lower, p, steps);
        HeldEntry {
            holder: Holder::Lower(lower),
            entry,
        }
    }

    /// Returns where the descent to `p` ends, by at most two node visits.
    pub(crate) fn end_of(&self, p: Coord, steps: &mut Steps) -> End<V>
        ensures end { IsEnd (bits_of U L F) self.now p result }
        ensures steps { steps.new ≤ steps.old + 2 }
    {
        let _ = &self.root;
        let reached = self.reached_from_root(p, steps);
        reached.end
    }

    /// Returns where the descent to `p` ends, with the internal nodes on its way, by at most two node visits.
    fn reached_from_root(
        &self,
        p: Coord,
        steps: &mut Steps,
    ) -> Reached<Internal<V, U, WU>, Internal<V, L, WL>, Leaf<V, F, WF>, V>
        ensures end { IsEnd (bits_of U L F) self.now p result.end }
        ensures lives { Lives (bits_of U L F) self.now result.path p }
        ensures steps { steps.new ≤ steps.old + 2 }
    {
        match self.root_entry(p) {
            Entry::Tile(cell) => Reached {
                path: PathOf::Empty,
                end: End::Tile(Level::Upper, cell),
            },
            Entry::Child(slot) => {
                let upper = self.upper_place(slot, p);
                self.reached_from_upper(upper, p, steps)
            }
        }
    }

    fn reached_from_upper(
        &self,
        upper: Place<Internal<V, U, WU>>,
        p: Coord,
        steps: &mut Steps,
    ) -> Reached<Internal<V, U, WU>, Internal<V, L, WL>, Leaf<V, F, WF>, V>
        requires { IsChildAt self.now.uppers (root_entry (bits_of U L F) self.now p) upper }
        ensures end { IsEnd (bits_of U L F) self.now p result.end }
        ensures lives { Lives (bits_of U L F) self.now result.path p }
        ensures steps { steps.new ≤ steps.old + 2 }
    {
        match self.upper_entry_at(upper, p, steps) {
            Entry::Tile(cell) => Reached {
                path: PathOf::ToUpper(upper),
                end: End::Tile(Level::Lower, cell),
            },
            Entry::Child(slot) => {
                let lower = self.lower_place(slot, p);
                self.reached_from_lower(upper, lower, p, steps)
            }
        }
    }

    #[inline(always)]
    pub(crate) fn reached_from_lower(
        &self,
        upper: Place<Internal<V, U, WU>>,
        lower: Place<Internal<V, L, WL>>,
        p: Coord,
        steps: &mut Steps,
    ) -> Reached<Internal<V, U, WU>, Internal<V, L, WL>, Leaf<V, F, WF>, V>
        requires upper { IsChildAt self.now.uppers (root_entry (bits_of U L F) self.now p) upper }
        requires lower { IsChildAt self.now.lowers (upper_entry (bits_of U L F) self.now p) lower }
        ensures end { IsEnd (bits_of U L F) self.now p result.end }
        ensures lives { Lives (bits_of U L F) self.now result.path p }
        ensures steps { steps.new ≤ steps.old + 1 }
    {
        match self.lower_entry_at(lower, p, steps) {
            Entry::Tile(cell) => Reached {
                path: PathOf::ToLower(upper, lower),
                end: End::Tile(Level::Leaf, cell),
            },
            Entry::Child(slot) => Reached {
                path: PathOf::ToLeaf(upper, lower, self.leaf_place(slot, p)),
                end: End::Leaf(slot),
            },
        }
    }
}
