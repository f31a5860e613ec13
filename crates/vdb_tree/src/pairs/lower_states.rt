//! States of a lower node and its leaves, set by a rule.

ghost use Rattle.std.specs.Prelude.{◌≡◌, ◌<◌, ◌≤◌, ℕ, IfNone, IfSome};
ghost use Rattle.vdb_coord.specs.Blocks.{block_around, block_number, entries, sub_block};
ghost use Rattle.vdb_coord.specs.declared.Level.TheVariants.{Leaf as leaf_level, Lower};
ghost use Rattle.vdb_mask.specs.Mask.{is_on};
ghost use Rattle.vdb_node.specs.declared.Entry.TheVariants.{Child, Tile};
ghost use Rattle.vdb_tree.specs.Changes.{Fills, KeepsUppers, Turns};
ghost use Rattle.vdb_tree.specs.Layout.{bits_of, lower_entry, upper_entry};
ghost use Rattle.vdb_tree.specs.internal.Pairing.{IsRefinedFor, made, SetsBlock, state_of};
ghost use Rattle.vdb_tree.specs.internal.StateRuns.{acts, AreSettled, AreStatesOf, FillsLeafStates, IsNextToSet, IsNextToSetAt, SetsFrom};

use crate::TreeOf;
use crate::nodes::held_place;
use crate::pairs::StateRule;
use crate::sweeps::entry_corner;
use vdb_coord::{Coord, Level};
use vdb_mask::Mask;
use vdb_node::{Entry, Stored};
use vdb_pool::Steps;
use vdb_value::Cell;

impl<
    V: Stored<WU> + Stored<WL> + Stored<WF>,
    const U: u32,
    const L: u32,
    const F: u32,
    const WU: usize,
    const WL: usize,
    const WF: usize,
> TreeOf<V, U, L, F, WU, WL, WF> {
    /// Combines the states of the lower node around p with those of the other tree's entry there by a rule. The values stay,
    /// and no node is added or removed.
    pub(crate) fn set_lower_states<X: Stored<WU> + Stored<WL> + Stored<WF>>(
        &mut self,
        lower: u32,
        other: &TreeOf<X, U, L, F, WU, WL, WF>,
        over: Entry<X>,
        p: Coord,
        rule: StateRule,
        steps: &mut Steps,
    )
        requires node { upper_entry (bits_of U L F) self.old p ≡ Child lower }
        requires over { upper_entry (bits_of U L F) other.now p ≡ over }
        requires refined { IsRefinedFor (bits_of U L F) rule self.old other.now }
        ensures sets { SetsBlock (bits_of U L F) rule other.now Lower self.old self.new p }
        ensures above { KeepsUppers self.old self.new }
    {
        let mut from = 0;
        while let Some(next) = self.set_next_states(lower, other, over, p, rule, from, steps) {
            from = next;
        }
    }

    /// Sets the states of the first entry of the lower node around p, from this offset on, in which a state may change. Returns
    /// the offset after it.
    fn set_next_states<X: Stored<WU> + Stored<WL> + Stored<WF>>(
        &mut self,
        lower: u32,
        other: &TreeOf<X, U, L, F, WU, WL, WF>,
        over: Entry<X>,
        p: Coord,
        rule: StateRule,
        from: u32,
        steps: &mut Steps,
    ) -> Option<u32>
        requires node { upper_entry (bits_of U L F) self.old p ≡ Child lower }
        requires over { upper_entry (bits_of U L F) other.now p ≡ over }
        requires refined { IsRefinedFor (bits_of U L F) rule self.old other.now }
        requires within { from ≤ entries (bits_of U L F) Lower }
        ensures above { KeepsUppers self.old self.new }
        ensures sets { SetsFrom (bits_of U L F) rule other.now Lower self.old self.new p from result }
        ensures further { IfSome result (λ next. (from < next) × (next ≤ entries (bits_of U L F) Lower)) }
    {
        match self.next_corner_to_set(lower, other, over, p, rule, from, steps) {
            Some((offset, corner)) => {
                self.set_entry_states(lower, other, over, corner, rule, steps);
                Some(offset + 1)
            }
            None => None,
        }
    }

    /// Returns the first entry of the lower node around p, from this offset on, in which a state may change, as its offset and
    /// its least coordinate; `None` if no such entry is left.
    fn next_corner_to_set<X: Stored<WU> + Stored<WL> + Stored<WF>>(
        &self,
        lower: u32,
        other: &TreeOf<X, U, L, F, WU, WL, WF>,
        over: Entry<X>,
        p: Coord,
        rule: StateRule,
        from: u32,
        steps: &mut Steps,
    ) -> Option<(u32, Coord)>
        requires node { upper_entry (bits_of U L F) self.now p ≡ Child lower }
        requires over { upper_entry (bits_of U L F) other.now p ≡ over }
        requires within { from ≤ entries (bits_of U L F) Lower }
        ensures sets { IfSome result (λ next. IsNextToSetAt (bits_of U L F) rule other.now Lower self.now p from next.0
            × (next.1 ≡ (sub_block (bits_of U L F) Lower (block_around (bits_of U L F) Lower p) next.0).min)) }
        ensures node { IfSome result (λ next. upper_entry (bits_of U L F) self.now next.1 ≡ Child lower) }
        ensures over { IfSome result (λ next. upper_entry (bits_of U L F) other.now next.1 ≡ over) }
        ensures few { IfSome result (λ next. next.0 < 32768) }
        ensures none { IfNone result (AreSettled (bits_of U L F) rule other.now Lower self.now p from (entries (bits_of U L F) Lower)) }
    {
        let bits = self.bits();
        match self.next_to_set(lower, other, over, p, rule, from, steps) {
            Some(offset) => Some((offset, entry_corner(p, bits, Level::Lower, offset))),
            None => None,
        }
    }

    /// Returns the offset, from this one on, of the first entry of the lower node around p in which a state may change; `None`
    /// if no such entry is left.
    fn next_to_set<X: Stored<WU> + Stored<WL> + Stored<WF>>(
        &self,
        lower: u32,
        other: &TreeOf<X, U, L, F, WU, WL, WF>,
        over: Entry<X>,
        p: Coord,
        rule: StateRule,
        from: u32,
        steps: &mut Steps,
    ) -> Option<u32>
        requires node { upper_entry (bits_of U L F) self.now p ≡ Child lower }
        requires over { upper_entry (bits_of U L F) other.now p ≡ over }
        requires within { from ≤ entries (bits_of U L F) Lower }
        ensures { IsNextToSet (bits_of U L F) rule other.now Lower self.now p from result }
    {
        match over {
            Entry::Tile(tile) => self.next_below_tile(lower, other, tile, p, rule, from, steps),
            Entry::Child(node) => self.next_below_node(lower, other, node, p, rule, from, steps),
        }
    }

    /// Answers `next_to_set` if the other tree has a tile over the lower extent.
    fn next_below_tile<X: Stored<WU> + Stored<WL> + Stored<WF>>(
        &self,
        lower: u32,
        other: &TreeOf<X, U, L, F, WU, WL, WF>,
        tile: Cell<X>,
        p: Coord,
        rule: StateRule,
        from: u32,
        steps: &mut Steps,
    ) -> Option<u32>
        requires node { upper_entry (bits_of U L F) self.now p ≡ Child lower }
        requires over { upper_entry (bits_of U L F) other.now p ≡ Tile tile }
        requires within { from ≤ entries (bits_of U L F) Lower }
        ensures { IsNextToSet (bits_of U L F) rule other.now Lower self.now p from result }
    {
        let _ = &self.root;
        let _ = &other.root;
        if is_acting(rule, tile.on) {
            if made_state(rule) {
                self.next_index(from)
            } else {
                self.next_active_leaf(lower, p, from, steps)
            }
        } else {
            None
        }
    }

    /// Answers `next_to_set` if the other tree has a lower node over the lower extent.
    fn next_below_node<X: Stored<WU> + Stored<WL> + Stored<WF>>(
        &self,
        lower: u32,
        other: &TreeOf<X, U, L, F, WU, WL, WF>,
        node: u32,
        p: Coord,
        rule: StateRule,
        from: u32,
        steps: &mut Steps,
    ) -> Option<u32>
        requires node { upper_entry (bits_of U L F) self.now p ≡ Child lower }
        requires over { upper_entry (bits_of U L F) other.now p ≡ Child node }
        requires within { from ≤ entries (bits_of U L F) Lower }
        ensures { IsNextToSet (bits_of U L F) rule other.now Lower self.now p from result }
    {
        let _ = &self.root;
        if made_state(rule) {
            other.next_active_leaf(node, p, from, steps)
        } else {
            self.next_active_leaf(lower, p, from, steps)
        }
    }

    /// Returns this index, or `None` if it is past the last entry of a lower node.
    fn next_index(&self, from: u32) -> Option<u32>
        ensures some { IfSome result (λ index. (index ≡ from) × (from < entries (bits_of U L F) Lower)) }
        ensures none { IfNone result (entries (bits_of U L F) Lower ≤ from) }
    {
        let count = u32::from(self.bits().entries(Level::Lower));
        if from < count { Some(from) } else { None }
    }

    /// Returns what this entry over the lower extent around p, a tile or a lower node, has at p.
    fn entry_within(&self, over: Entry<V>, p: Coord, steps: &mut Steps) -> Entry<V>
        requires { upper_entry (bits_of U L F) self.now p ≡ over }
        ensures { lower_entry (bits_of U L F) self.now p ≡ result }
    {
        match over {
            Entry::Tile(cell) => Entry::Tile(cell),
            Entry::Child(lower) => self.lower_entry(lower, p, steps),
        }
    }

    /// Sets the states of the leaf extent around p, an entry of this lower node, by what the other tree has over the lower
    /// extent.
    fn set_entry_states<X: Stored<WU> + Stored<WL> + Stored<WF>>(
        &mut self,
        lower: u32,
        other: &TreeOf<X, U, L, F, WU, WL, WF>,
        over: Entry<X>,
        p: Coord,
        rule: StateRule,
        steps: &mut Steps,
    )
        requires node { upper_entry (bits_of U L F) self.old p ≡ Child lower }
        requires over { upper_entry (bits_of U L F) other.now p ≡ over }
        requires refined { IsRefinedFor (bits_of U L F) rule self.old other.now }
        ensures sets { SetsBlock (bits_of U L F) rule other.now leaf_level self.old self.new p }
        ensures above { KeepsUppers self.old self.new }
    {
        let over = other.entry_within(over, p, steps);
        match self.lower_entry(lower, p, steps) {
            Entry::Tile(cell) => self.set_tile_state(lower, cell, other, over, p, rule, steps),
            Entry::Child(leaf) => self.set_states_in_leaf(leaf, other, over, p, rule, steps),
        }
    }

    /// Sets the state of this tile of the lower node by the other tree's entry there.
    fn set_tile_state<X: Stored<WU> + Stored<WL> + Stored<WF>>(
        &mut self,
        lower: u32,
        cell: Cell<V>,
        other: &TreeOf<X, U, L, F, WU, WL, WF>,
        over: Entry<X>,
        p: Coord,
        rule: StateRule,
        steps: &mut Steps,
    )
        requires node { upper_entry (bits_of U L F) self.old p ≡ Child lower }
        requires tile { lower_entry (bits_of U L F) self.old p ≡ Tile cell }
        requires over { lower_entry (bits_of U L F) other.now p ≡ over }
        requires refined { IsRefinedFor (bits_of U L F) rule self.old other.now }
        ensures sets { SetsBlock (bits_of U L F) rule other.now leaf_level self.old self.new p }
        ensures above { KeepsUppers self.old self.new }
    {
        let _ = &other.root;
        match over {
            Entry::Tile(tile) => {
                if is_acting(rule, tile.on) {
                    let on = made_state(rule);
                    self.put_tile_state(lower, cell, p, on, steps);
                }
            }
            Entry::Child(_) => {}
        }
    }

    /// Gives this tile of the lower node this state.
    fn put_tile_state(&mut self, lower: u32, cell: Cell<V>, p: Coord, on: bool, steps: &mut Steps)
        requires node { upper_entry (bits_of U L F) self.old p ≡ Child lower }
        requires tile { lower_entry (bits_of U L F) self.old p ≡ Tile cell }
        ensures fills { Fills (bits_of U L F) leaf_level self.old self.new p (record { value = cell.value; on = on }) }
        ensures above { KeepsUppers self.old self.new }
        ensures entries { Turns (block_number (bits_of U L F) leaf_level) p (lower_entry (bits_of U L F) self.old) (lower_entry (bits_of U L F) self.new) (Tile (record { value = cell.value; on = on })) }
    {
        let changed = Cell {
            value: cell.value,
            on,
        };
        self.set_lower_tile(lower, p, changed, steps);
    }

    /// Sets the states of the leaf around p by the other tree's entry there.
    fn set_states_in_leaf<X: Stored<WU> + Stored<WL> + Stored<WF>>(
        &mut self,
        leaf: u32,
        other: &TreeOf<X, U, L, F, WU, WL, WF>,
        over: Entry<X>,
        p: Coord,
        rule: StateRule,
        steps: &mut Steps,
    )
        requires leaf { lower_entry (bits_of U L F) self.old p ≡ Child leaf }
        requires over { lower_entry (bits_of U L F) other.now p ≡ over }
        ensures sets { SetsBlock (bits_of U L F) rule other.now leaf_level self.old self.new p }
        ensures above { KeepsUppers self.old self.new }
    {
        match over {
            Entry::Tile(tile) => self.set_states_by_tile(leaf, other, tile, p, rule, steps),
            Entry::Child(node) => self.set_states_by_leaf(leaf, other, node, p, rule, steps),
        }
    }

    /// Sets the states of the leaf around p by the other tree's tile there.
    fn set_states_by_tile<X: Stored<WU> + Stored<WL> + Stored<WF>>(
        &mut self,
        leaf: u32,
        other: &TreeOf<X, U, L, F, WU, WL, WF>,
        tile: Cell<X>,
        p: Coord,
        rule: StateRule,
        steps: &mut Steps,
    )
        requires leaf { lower_entry (bits_of U L F) self.old p ≡ Child leaf }
        requires over { lower_entry (bits_of U L F) other.now p ≡ Tile tile }
        ensures sets { SetsBlock (bits_of U L F) rule other.now leaf_level self.old self.new p }
        ensures above { KeepsUppers self.old self.new }
    {
        let _ = &other.root;
        if is_acting(rule, tile.on) {
            let on = made_state(rule);
            self.fill_states(leaf, p, on, steps);
        }
    }

    /// Gives each voxel of the leaf around p this state.
    fn fill_states(&mut self, leaf: u32, p: Coord, on: bool, steps: &mut Steps)
        requires { lower_entry (bits_of U L F) self.old p ≡ Child leaf }
        ensures sets { FillsLeafStates (bits_of U L F) self.old self.new p on }
        ensures above { KeepsUppers self.old self.new }
    {
        let _ = &self.root;
        let states = Mask::filled(on);
        self.set_leaf_states(leaf, p, &states, steps);
    }

    /// Sets the states of the leaf around p by those of the other tree's leaf there, a word at a time.
    fn set_states_by_leaf<X: Stored<WU> + Stored<WL> + Stored<WF>>(
        &mut self,
        leaf: u32,
        other: &TreeOf<X, U, L, F, WU, WL, WF>,
        node: u32,
        p: Coord,
        rule: StateRule,
        steps: &mut Steps,
    )
        requires leaf { lower_entry (bits_of U L F) self.old p ≡ Child leaf }
        requires over { lower_entry (bits_of U L F) other.now p ≡ Child node }
        ensures sets { SetsBlock (bits_of U L F) rule other.now leaf_level self.old self.new p }
        ensures above { KeepsUppers self.old self.new }
    {
        let _ = &self.root;
        let mut states = self.states_around(leaf, p, steps).copied();
        set_mask(&mut states, other.states_around(node, p, steps), rule);
        self.set_leaf_states(leaf, p, &states, steps);
    }

    /// Returns the states of the leaf around p.
    fn states_around(&self, leaf: u32, p: Coord, steps: &mut Steps) -> &Mask<WF>
        requires { lower_entry (bits_of U L F) self.now p ≡ Child leaf }
        ensures { AreStatesOf (bits_of U L F) self.now p result.now }
    {
        let place = held_place(&self.leaves, leaf);
        self.leaves.at(place, steps).states()
    }
}

/// Returns whether the rule changes a state if the other tree has this one.
fn is_acting(rule: StateRule, on: bool) -> bool
    ensures { result ≡ acts rule on }
{
    match rule {
        StateRule::Unite => on,
        StateRule::Subtract => on,
        StateRule::Intersect => !on,
    }
}

/// Returns the state that the rule sets if it changes a state.
fn made_state(rule: StateRule) -> bool
    ensures { result ≡ made rule }
{
    match rule {
        StateRule::Unite => true,
        StateRule::Subtract => false,
        StateRule::Intersect => false,
    }
}

/// Sets each state of the mask to the one that the rule makes.
fn set_mask<const W: usize>(states: &mut Mask<W>, others: &Mask<W>, rule: StateRule)
    ensures { (i : ℕ) → is_on states.new i ≡ state_of rule (is_on states.old i) (is_on others.now i) }
{
    match rule {
        StateRule::Unite => states.union(others),
        StateRule::Subtract => states.minus(others),
        StateRule::Intersect => states.both(others),
    }
}
