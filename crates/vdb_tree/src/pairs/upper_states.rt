//! States of an upper node and of what is below it, set by a rule.

ghost use Rattle.std.specs.Prelude.{◌≡◌, ◌<◌, ◌≤◌, IfSome, IsTrue, false};
ghost use Rattle.vdb_coord.specs.Blocks.{block_number};
ghost use Rattle.vdb_coord.specs.declared.Level.TheVariants.{Lower, Upper};
ghost use Rattle.vdb_node.specs.Nodes.{entry_count};
ghost use Rattle.vdb_node.specs.declared.Entry.TheVariants.{Child, Tile};
ghost use Rattle.vdb_value.specs.declared.Cell.{Cell};
ghost use Rattle.vdb_tree.specs.Changes.{Fills, Turns};
ghost use Rattle.vdb_tree.specs.Layout.{bits_of, cell_at, lower_entry, root_entry, upper_entry};
ghost use Rattle.vdb_tree.specs.internal.Pairing.{IsRefinedFor, SetsBlock, acts_at, made};
ghost use Rattle.vdb_tree.specs.internal.Ruled.{IsIdleTile, IsNextWithout, IsSettled, SetsFrom, made_tile};

use crate::TreeOf;
use crate::nodes::held_place;
use crate::pairs::StateRule;
use vdb_coord::{Coord, Level};
use vdb_node::{Entry, Stored};
use vdb_pool::Steps;
use vdb_value::Cell;

impl<
    V: Stored<WU> + Stored<WL> + Stored<WF>,
    const U: u32,
    const L: u32,
    const F: u32,
    const WU: usize,
    const WL: usize,
    const WF: usize,
> TreeOf<V, U, L, F, WU, WL, WF> {
    /// Combines the states of the upper node around p with those of the other tree's entry there by a rule. The values stay,
    /// and no node is added or removed.
    pub(crate) fn set_upper_states<X: Stored<WU> + Stored<WL> + Stored<WF>>(
        &mut self,
        upper: u32,
        other: &TreeOf<X, U, L, F, WU, WL, WF>,
        over: Entry<X>,
        p: Coord,
        rule: StateRule,
        steps: &mut Steps,
    )
        requires node { root_entry (bits_of U L F) self.old p ≡ Child upper }
        requires over { root_entry (bits_of U L F) other.now p ≡ over }
        requires refined { IsRefinedFor (bits_of U L F) rule self.old other.now }
        ensures sets { SetsBlock (bits_of U L F) rule other.now Upper self.old self.new p }
        ensures root { self.new.root ≡ self.old.root }
    {
        let mut from = 0;
        while let Some(next) = self.set_next_lower(upper, other, over, p, from, rule, steps) {
            from = next;
        }
    }

    /// Combines the states of the first entry of the upper node around p, from this offset on, that the rule may change.
    /// Returns the offset after it.
    fn set_next_lower<X: Stored<WU> + Stored<WL> + Stored<WF>>(
        &mut self,
        upper: u32,
        other: &TreeOf<X, U, L, F, WU, WL, WF>,
        over: Entry<X>,
        p: Coord,
        from: u32,
        rule: StateRule,
        steps: &mut Steps,
    ) -> Option<u32>
        requires node { root_entry (bits_of U L F) self.old p ≡ Child upper }
        requires over { root_entry (bits_of U L F) other.now p ≡ over }
        requires refined { IsRefinedFor (bits_of U L F) rule self.old other.now }
        requires within { from ≤ entry_count U }
        ensures root { self.new.root ≡ self.old.root }
        ensures sets { SetsFrom (bits_of U L F) rule other.now Upper self.old self.new p from result }
        ensures further { IfSome result (λ next. (from < next) × (next ≤ entry_count U)) }
    {
        let _ = &self.root;
        let Some(index) = self.next_unsettled(upper, other, over, p, from, rule, steps) else {
            return None;
        };
        let corner = self.lower_corner(upper, p, index);
        let beside = other.entry_below_root(over, corner, steps);
        self.set_lower_block(upper, other, beside, corner, rule, steps);
        Some(index + 1)
    }

    /// Combines the states of p's entry of an upper node with those of the other tree's entry there by a rule.
    fn set_lower_block<X: Stored<WU> + Stored<WL> + Stored<WF>>(
        &mut self,
        upper: u32,
        other: &TreeOf<X, U, L, F, WU, WL, WF>,
        over: Entry<X>,
        p: Coord,
        rule: StateRule,
        steps: &mut Steps,
    )
        requires node { root_entry (bits_of U L F) self.old p ≡ Child upper }
        requires over { upper_entry (bits_of U L F) other.now p ≡ over }
        requires refined { IsRefinedFor (bits_of U L F) rule self.old other.now }
        ensures sets { SetsBlock (bits_of U L F) rule other.now Lower self.old self.new p }
        ensures root { self.new.root ≡ self.old.root }
    {
        if is_idle_tile(over, rule) {
            return;
        }
        match self.upper_entry(upper, p, steps) {
            Entry::Child(lower) => self.set_lower_states(lower, other, over, p, rule, steps),
            Entry::Tile(tile) => {
                if let Entry::Tile(_) = over {
                    self.exchange_upper_tile(upper, p, tile, tile_made(tile, rule), steps);
                }
            }
        }
    }

    /// Replaces `was`, p's tile in an upper node, by another tile. A caller with two types of values names the tile, because it
    /// would be costly for its proof to find it.
    fn exchange_upper_tile(
        &mut self,
        upper: u32,
        p: Coord,
        was: Cell<V>,
        cell: Cell<V>,
        steps: &mut Steps,
    )
        requires node { root_entry (bits_of U L F) self.old p ≡ Child upper }
        requires tiled { upper_entry (bits_of U L F) self.old p ≡ Tile was }
        ensures fills { Fills (bits_of U L F) Lower self.old self.new p cell }
        ensures root { self.new.root ≡ self.old.root }
        ensures uppers { Turns (block_number (bits_of U L F) Lower) p (upper_entry (bits_of U L F) self.old) (upper_entry (bits_of U L F) self.new) (Tile cell) }
        ensures lowers { Turns (block_number (bits_of U L F) Lower) p (lower_entry (bits_of U L F) self.old) (lower_entry (bits_of U L F) self.new) (Tile cell) }
    {
        let _ = was;
        self.set_upper_tile(upper, p, cell, steps);
    }

    /// Returns the index, from this one on, of the first entry of the upper node around p whose states the rule may change;
    /// `None` if no such entry is left. It goes by the masks of the node whose active states decide.
    fn next_unsettled<X: Stored<WU> + Stored<WL> + Stored<WF>>(
        &self,
        upper: u32,
        other: &TreeOf<X, U, L, F, WU, WL, WF>,
        over: Entry<X>,
        p: Coord,
        from: u32,
        rule: StateRule,
        steps: &mut Steps,
    ) -> Option<u32>
        requires node { root_entry (bits_of U L F) self.now p ≡ Child upper }
        requires over { root_entry (bits_of U L F) other.now p ≡ over }
        requires within { from ≤ entry_count U }
        ensures next { IsNextWithout (bits_of U L F) Upper p (IsSettled (bits_of U L F) rule other.now self.now) from result }
    {
        match rule {
            StateRule::Unite => other.next_active_below(over, p, from, steps),
            StateRule::Subtract => self.next_active_index(upper, p, from, steps),
            StateRule::Intersect => self.next_active_index(upper, p, from, steps),
        }
    }

    /// Returns the index, from this one on, of the first entry below p's root entry that may be active; `None` if no such entry
    /// is left. Below a tile each entry may be active.
    fn next_active_below(
        &self,
        over: Entry<V>,
        p: Coord,
        from: u32,
        steps: &mut Steps,
    ) -> Option<u32>
        requires over { root_entry (bits_of U L F) self.now p ≡ over }
        requires within { from ≤ entry_count U }
        ensures next { IsNextWithout (bits_of U L F) Upper p (λ q. (cell_at (bits_of U L F) self.now q).on ≡ false) from result }
    {
        let count = u32::from(self.bits().entries(Level::Upper));
        match over {
            Entry::Child(upper) => self.next_active_index(upper, p, from, steps),
            Entry::Tile(_) => { if from < count { Some(from) } else { None } }
        }
    }

    /// Returns the index, from this one on, of the first entry of the upper node around p that is a child or an active tile;
    /// `None` if no such entry is left.
    fn next_active_index(&self, upper: u32, p: Coord, from: u32, steps: &mut Steps) -> Option<u32>
        requires node { root_entry (bits_of U L F) self.now p ≡ Child upper }
        requires within { from ≤ entry_count U }
        ensures next { IsNextWithout (bits_of U L F) Upper p (λ q. (cell_at (bits_of U L F) self.now q).on ≡ false) from result }
    {
        let place = held_place(&self.uppers, upper);
        self.uppers.at(place, steps).next_active(from)
    }

    /// Returns the entry of the upper node that holds p, below this entry of the root table; if this is a tile, the tile.
    fn entry_below_root(&self, over: Entry<V>, p: Coord, steps: &mut Steps) -> Entry<V>
        requires { root_entry (bits_of U L F) self.now p ≡ over }
        ensures { upper_entry (bits_of U L F) self.now p ≡ result }
    {
        match over {
            Entry::Tile(cell) => Entry::Tile(cell),
            Entry::Child(upper) => self.upper_entry(upper, p, steps),
        }
    }
}

/// Returns whether the other tree's entry is a tile with a state at which the rule changes nothing.
pub(crate) fn is_idle_tile<X: Copy>(entry: Entry<X>, rule: StateRule) -> bool
    ensures idle { IsTrue result → IsIdleTile rule entry }
    ensures acts { result ≡ false → (tile : Cell X) → entry ≡ Tile tile → tile.on ≡ acts_at rule }
{
    match entry {
        Entry::Child(_) => false,
        Entry::Tile(tile) => tile.on != acting_state(rule),
    }
}

/// Returns the tile with the state that the rule makes.
pub(crate) fn tile_made<V: Copy>(tile: Cell<V>, rule: StateRule) -> Cell<V>
    ensures { result ≡ made_tile rule tile }
{
    Cell {
        value: tile.value,
        on: made_state(rule),
    }
}

/// Returns the state of the other tree at which the rule changes a state.
fn acting_state(rule: StateRule) -> bool
    ensures { result ≡ acts_at rule }
{
    match rule {
        StateRule::Unite => true,
        StateRule::Subtract => true,
        StateRule::Intersect => false,
    }
}

/// Returns the state that the rule sets if it changes a state.
fn made_state(rule: StateRule) -> bool
    ensures { result ≡ made rule }
{
    match rule {
        StateRule::Unite => true,
        StateRule::Subtract => false,
        StateRule::Intersect => false,
    }
}
