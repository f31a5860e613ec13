//! Splits of tiles, where another tree has nodes and a state is to change.

ghost use Rattle.std.specs.Prelude.{◌≡◌, ◌≢◌, ◌<◌, ◌≤◌, false, None, IfErr, IfOk, IfSome, IsSome, IsTrue, OnOk};
ghost use Rattle.vdb_coord.specs.Blocks.{block_number, key};
ghost use Rattle.vdb_coord.specs.declared.Coord.{Coord};
ghost use Rattle.vdb_coord.specs.declared.Level.TheVariants.{Leaf, Lower, Upper};
ghost use Rattle.vdb_node.specs.Nodes.{entry_count};
ghost use Rattle.vdb_node.specs.declared.Entry.TheVariants.{Child, Tile};
ghost use Rattle.vdb_value.specs.declared.Cell.{Cell};
ghost use Rattle.vdb_tree.specs.Changes.{AddsNodes, Keeps, KeepsUppers};
ghost use Rattle.vdb_tree.specs.Layout.{bits_of, lower_entry, root_at, root_entry, upper_entry};
ghost use Rattle.vdb_tree.specs.Nodes.{MakesOnly};
ghost use Rattle.vdb_tree.specs.internal.Children.{IsNextCorner};
ghost use Rattle.vdb_tree.specs.internal.Pairing.{IsRefinedFor, IsIdleAt, made};
ghost use Rattle.vdb_tree.specs.internal.Refining.{IsNodeOrMade, IsRefinable, IsRefinedTo, MakesNode, Refines};
ghost use Rattle.vdb_tree.specs.declared.pairs.StateRule.TheVariants.{Unite as unites};
ghost use Rattle.vdb_tree.specs.declared.refusal.TreeRefusal.TheVariants.{Memory};

use crate::pairs::StateRule;
use crate::{TreeOf, TreeRefusal};
use vdb_coord::Coord;
use vdb_node::{Entry, Stored};
use vdb_pool::Steps;

impl<
    V: Stored<WU> + Stored<WL> + Stored<WF>,
    const U: u32,
    const L: u32,
    const F: u32,
    const WU: usize,
    const WL: usize,
    const WF: usize,
> TreeOf<V, U, L, F, WU, WL, WF> {
    /// Splits tiles whose states are to change by the rule wherever the other tree has nodes, so that the states can be set
    /// without memory. No cell changes. `Memory`: an allocation failed; some nodes may have been made.
    pub(crate) fn refine<X: Stored<WU> + Stored<WL> + Stored<WF>>(
        &mut self,
        other: &TreeOf<X, U, L, F, WU, WL, WF>,
        rule: StateRule,
        steps: &mut Steps,
    ) -> Result<(), TreeRefusal>
        requires entered { rule ≡ unites → (q : Coord) → root_at self.old.root (key (bits_of U L F) q) ≡ None → IsIdleAt (bits_of U L F) rule self.old other.now q }
        ensures keeps { Keeps (bits_of U L F) self.old self.new }
        ensures adds { AddsNodes (bits_of U L F) self.old self.new }
        ensures made { MakesOnly (bits_of U L F) (IsRefinable (bits_of U L F) rule other.now) self.old self.new }
        ensures refined { OnOk result (IsRefinedFor (bits_of U L F) rule self.new other.now) }
        ensures memory { IfErr result (λ refusal. refusal ≡ Memory) }
    {
        let mut passed = None;
        while let Some(key) = other.next_key(passed) {
            self.refine_root_block(other, rule, other.key_corner(key), steps)?;
            passed = Some(key);
        }
        Ok(())
    }

    /// Makes the nodes of p's upper extent, if it has an entry.
    fn refine_root_block<X: Stored<WU> + Stored<WL> + Stored<WF>>(
        &mut self,
        other: &TreeOf<X, U, L, F, WU, WL, WF>,
        rule: StateRule,
        p: Coord,
        steps: &mut Steps,
    ) -> Result<(), TreeRefusal>
        ensures refines { Refines (bits_of U L F) rule other.now self.old self.new }
        ensures refined { OnOk result (IsSome (root_at self.old.root (key (bits_of U L F) p))
            → (q : Coord) → block_number (bits_of U L F) Upper q ≡ block_number (bits_of U L F) Upper p → IsRefinedTo (bits_of U L F) rule other.now Upper self.new q) }
        ensures memory { IfErr result (λ refusal. refusal ≡ Memory) }
    {
        let Some(entry) = self.root.get(self.key(p)) else {
            return Ok(());
        };
        let Entry::Child(over) = other.root_entry(p) else {
            return Ok(());
        };
        match self.upper_to_change(rule, p, entry)? {
            Some(upper) => self.refine_lowers(upper, other, over, rule, p, steps),
            None => Ok(()),
        }
    }

    /// Returns the slot of the upper node around p, whose key has this entry. If that is a tile whose state the rule can change,
    /// this makes the node.
    fn upper_to_change(
        &mut self,
        rule: StateRule,
        p: Coord,
        entry: Entry<V>,
    ) -> Result<Option<u32>, TreeRefusal>
        requires { root_at self.old.root (key (bits_of U L F) p) ≡ Some entry }
        ensures makes { MakesNode (bits_of U L F) rule Upper self.old self.new p }
        ensures refined { IfOk result (λ node. IsNodeOrMade (bits_of U L F) rule Upper self.new p node) }
        ensures memory { IfErr result (λ refusal. refusal ≡ Memory) }
    {
        match entry {
            Entry::Child(upper) => Ok(Some(upper)),
            Entry::Tile(tile) => {
                if !can_change(rule, tile.on) {
                    return Ok(None);
                }
                let upper = self.split_root(p, tile)?;
                Ok(Some(upper))
            }
        }
    }

    /// Makes the nodes of the upper node around p that the other tree's upper node has.
    fn refine_lowers<X: Stored<WU> + Stored<WL> + Stored<WF>>(
        &mut self,
        upper: u32,
        other: &TreeOf<X, U, L, F, WU, WL, WF>,
        over: u32,
        rule: StateRule,
        p: Coord,
        steps: &mut Steps,
    ) -> Result<(), TreeRefusal>
        requires node { root_entry (bits_of U L F) self.old p ≡ Child upper }
        requires over { root_entry (bits_of U L F) other.now p ≡ Child over }
        ensures refines { Refines (bits_of U L F) rule other.now self.old self.new }
        ensures root { self.new.root ≡ self.old.root }
        ensures refined { OnOk result ((q : Coord) → block_number (bits_of U L F) Upper q ≡ block_number (bits_of U L F) Upper p → IsRefinedTo (bits_of U L F) rule other.now Lower self.new q) }
        ensures memory { IfErr result (λ refusal. refusal ≡ Memory) }
    {
        let mut from = 0;
        while let Some((offset, corner)) = self.next_lower_of(upper, other, over, p, from, steps) {
            self.refine_lower_block(upper, other, over, rule, corner, steps)?;
            from = offset + 1;
        }
        Ok(())
    }

    /// Returns the first lower node of the other tree's upper node around p from this offset on, as its offset and its least
    /// coordinate, which lies in this tree's upper node as well.
    fn next_lower_of<X: Stored<WU> + Stored<WL> + Stored<WF>>(
        &self,
        upper: u32,
        other: &TreeOf<X, U, L, F, WU, WL, WF>,
        over: u32,
        p: Coord,
        from: u32,
        steps: &mut Steps,
    ) -> Option<(u32, Coord)>
        requires node { root_entry (bits_of U L F) self.now p ≡ Child upper }
        requires over { root_entry (bits_of U L F) other.now p ≡ Child over }
        requires within { from ≤ entry_count U }
        ensures corner { IsNextCorner (bits_of U L F) Upper (upper_entry (bits_of U L F) other.now) p from result }
        ensures node { IfSome result (λ next. root_entry (bits_of U L F) self.now next.1 ≡ Child upper) }
        ensures over { IfSome result (λ next. root_entry (bits_of U L F) other.now next.1 ≡ Child over) }
        ensures few { IfSome result (λ next. next.0 < 32768) }
    {
        other.next_lower_corner(over, p, from, steps)
    }

    /// Makes the nodes of p's lower extent if the other tree has a lower node there.
    fn refine_lower_block<X: Stored<WU> + Stored<WL> + Stored<WF>>(
        &mut self,
        upper: u32,
        other: &TreeOf<X, U, L, F, WU, WL, WF>,
        over: u32,
        rule: StateRule,
        p: Coord,
        steps: &mut Steps,
    ) -> Result<(), TreeRefusal>
        requires node { root_entry (bits_of U L F) self.old p ≡ Child upper }
        requires over { root_entry (bits_of U L F) other.now p ≡ Child over }
        ensures refines { Refines (bits_of U L F) rule other.now self.old self.new }
        ensures root { self.new.root ≡ self.old.root }
        ensures refined { OnOk result ((q : Coord) → block_number (bits_of U L F) Lower q ≡ block_number (bits_of U L F) Lower p → IsRefinedTo (bits_of U L F) rule other.now Lower self.new q) }
        ensures memory { IfErr result (λ refusal. refusal ≡ Memory) }
    {
        let Entry::Child(within) = other.upper_entry(over, p, steps) else {
            return Ok(());
        };
        match self.lower_to_change(upper, rule, p, steps)? {
            Some(lower) => self.refine_leaves(lower, other, within, rule, p, steps),
            None => Ok(()),
        }
    }

    /// Returns the slot of the lower node around p. If p has a tile whose state the rule can change, this makes the node.
    fn lower_to_change(
        &mut self,
        upper: u32,
        rule: StateRule,
        p: Coord,
        steps: &mut Steps,
    ) -> Result<Option<u32>, TreeRefusal>
        requires node { root_entry (bits_of U L F) self.old p ≡ Child upper }
        ensures makes { MakesNode (bits_of U L F) rule Lower self.old self.new p }
        ensures root { self.new.root ≡ self.old.root }
        ensures refined { IfOk result (λ node. IsNodeOrMade (bits_of U L F) rule Lower self.new p node) }
        ensures memory { IfErr result (λ refusal. refusal ≡ Memory) }
    {
        match self.upper_entry(upper, p, steps) {
            Entry::Child(lower) => Ok(Some(lower)),
            Entry::Tile(tile) => {
                if !can_change(rule, tile.on) {
                    return Ok(None);
                }
                let lower = self.split_upper(upper, p, tile, steps)?;
                Ok(Some(lower))
            }
        }
    }

    /// Makes the leaves of the lower node around p that the other tree's lower node has.
    fn refine_leaves<X: Stored<WU> + Stored<WL> + Stored<WF>>(
        &mut self,
        lower: u32,
        other: &TreeOf<X, U, L, F, WU, WL, WF>,
        within: u32,
        rule: StateRule,
        p: Coord,
        steps: &mut Steps,
    ) -> Result<(), TreeRefusal>
        requires node { upper_entry (bits_of U L F) self.old p ≡ Child lower }
        requires over { upper_entry (bits_of U L F) other.now p ≡ Child within }
        ensures refines { Refines (bits_of U L F) rule other.now self.old self.new }
        ensures above { KeepsUppers self.old self.new }
        ensures refined { OnOk result ((q : Coord) → block_number (bits_of U L F) Lower q ≡ block_number (bits_of U L F) Lower p → IsRefinedTo (bits_of U L F) rule other.now Leaf self.new q) }
        ensures memory { IfErr result (λ refusal. refusal ≡ Memory) }
    {
        let mut from = 0;
        while let Some((offset, corner)) = self.next_leaf_of(lower, other, within, p, from, steps) {
            self.refine_leaf_block(lower, rule, corner, steps)?;
            from = offset + 1;
        }
        Ok(())
    }

    /// Returns the first leaf of the other tree's lower node around p from this offset on, as its offset and its least
    /// coordinate, which lies in this tree's lower node as well.
    fn next_leaf_of<X: Stored<WU> + Stored<WL> + Stored<WF>>(
        &self,
        lower: u32,
        other: &TreeOf<X, U, L, F, WU, WL, WF>,
        within: u32,
        p: Coord,
        from: u32,
        steps: &mut Steps,
    ) -> Option<(u32, Coord)>
        requires node { upper_entry (bits_of U L F) self.now p ≡ Child lower }
        requires over { upper_entry (bits_of U L F) other.now p ≡ Child within }
        requires within { from ≤ entry_count L }
        ensures corner { IsNextCorner (bits_of U L F) Lower (lower_entry (bits_of U L F) other.now) p from result }
        ensures node { IfSome result (λ next. upper_entry (bits_of U L F) self.now next.1 ≡ Child lower) }
        ensures few { IfSome result (λ next. next.0 < 32768) }
    {
        other.next_leaf_corner(within, p, from, steps)
    }

    /// Makes a leaf of p's leaf extent if it is a tile whose state the rule can change.
    fn refine_leaf_block(
        &mut self,
        lower: u32,
        rule: StateRule,
        p: Coord,
        steps: &mut Steps,
    ) -> Result<(), TreeRefusal>
        requires node { upper_entry (bits_of U L F) self.old p ≡ Child lower }
        ensures makes { MakesNode (bits_of U L F) rule Leaf self.old self.new p }
        ensures above { KeepsUppers self.old self.new }
        ensures refined { OnOk result ((tile : Cell V) → lower_entry (bits_of U L F) self.new p ≡ Tile tile → tile.on ≡ made rule) }
        ensures memory { IfErr result (λ refusal. refusal ≡ Memory) }
    {
        match self.lower_entry(lower, p, steps) {
            Entry::Child(_) => Ok(()),
            Entry::Tile(tile) => {
                if !can_change(rule, tile.on) {
                    return Ok(());
                }
                self.split_lower(lower, p, tile, steps)?;
                Ok(())
            }
        }
    }
}

/// Returns whether the rule can change this state.
fn can_change(rule: StateRule, state: bool) -> bool
    ensures changes { IsTrue result → state ≢ made rule }
    ensures stays { result ≡ false → state ≡ made rule }
{
    match rule {
        StateRule::Unite => !state,
        StateRule::Subtract | StateRule::Intersect => state,
    }
}
