//! A walk over the parts of two trees together.

ghost use Rattle.std.specs.Prelude.{◌≡◌, ◌⊎◌, ◌<◌, IfNone, IfSome, IsTrue, Some, None, false};
ghost use Rattle.vdb_coord.specs.Blocks.{block_around, block_number, key};
ghost use Rattle.vdb_coord.specs.Order.{ComesBefore, IsNextCoord, coordinates_past};
ghost use Rattle.vdb_coord.specs.Space.{everywhere, is_inside};
ghost use Rattle.vdb_coord.specs.declared.Coord.{Coord};
ghost use Rattle.vdb_coord.specs.declared.Level.TheVariants.{Leaf as leaf_level};
ghost use Rattle.vdb_tree.specs.Layout.{bits_of, field_of};
ghost use Rattle.vdb_tree.specs.Pairs.{IsPairWalk, PassesPairs, YieldsPair, lower_level, pair_level};
ghost use Rattle.vdb_tree.specs.Parts.{IsEnd, IsPartOfLeaf, IsStartAfter, IsSkipped, OnLeaf, OnTile, end_level, is_left, left_count};
ghost use Rattle.vdb_tree.specs.Paths.{Lives};
ghost use Rattle.vdb_tree.specs.internal.PairBlocks.{IsOver};
ghost use Rattle.vdb_tree.specs.declared.queries.parts.Skip.TheVariants.{Background};

use crate::queries::ends::End;
use crate::queries::parts::{Content, Skip};
use crate::{PathOf, TreeOf};
use std::cmp::Ordering;
use std::marker::Model;
use vdb_coord::{Bounds, Coord, Level};
use vdb_node::{Internal, Leaf, Stored};
use vdb_pool::Steps;

/// What two trees have over one block: a tile or a leaf each.
#[derive(Clone, Copy)]
pub struct Pair<V, L> {
    /// The block: the smaller one of the blocks of the two tiles or leaves.
    pub bounds: Bounds,
    /// What the first tree has there.
    pub first: Content<V, L>,
    /// What the second tree has there.
    pub second: Content<V, L>,
}

/// The progress of a walk over the pairs of two trees: the coordinates that are left, and the paths of nodes to the last pair.
/// It owns nothing, and is valid for the two trees as long as neither changes.
#[derive(Drop)]
pub struct PairWalk<Upper, Lower, Leaf> {
    at: Option<Coord>,
    first: PathOf<Upper, Lower, Leaf>,
    second: PathOf<Upper, Lower, Leaf>,
    near: Coord,
}

impl<Upper, Lower, Leaf> Model for PairWalk<Upper, Lower, Leaf> {
    ghost use Rattle.vdb_tree.specs.Pairs.{PairWalkOf};

    ghost Value = { PairWalkOf Upper Lower Leaf };

    ghost view = { λ w. record { at = w.at; first = w.first; second = w.second; near = w.near } };
}

impl<Upper, Lower, Leaf> PairWalk<Upper, Lower, Leaf> {
    /// Returns the first coordinate, in block order, of what is left.
    fn at(&self) -> Option<Coord>
        ensures { result ≡ self.now.at }
    {
        self.at
    }

    /// Returns the path in the first tree.
    fn first(&self) -> PathOf<Upper, Lower, Leaf>
        ensures { result ≡ self.now.first }
    {
        self.first
    }

    /// Returns the path in the second tree.
    fn second(&self) -> PathOf<Upper, Lower, Leaf>
        ensures { result ≡ self.now.second }
    {
        self.second
    }

    /// Returns the coordinate to which both paths lead.
    fn near(&self) -> Coord
        ensures { result ≡ self.now.near }
    {
        self.near
    }

    fn go_to(&mut self, next: Option<Coord>)
        ensures { self.new ≡ record self.old { at = next } }
    {
        self.at = next;
    }

    fn keep(
        &mut self,
        first: PathOf<Upper, Lower, Leaf>,
        second: PathOf<Upper, Lower, Leaf>,
        near: Coord,
    )
        ensures { self.new ≡ record self.old { first = first; second = second; near = near } }
    {
        self.first = first;
        self.second = second;
        self.near = near;
    }
}

impl<
    V: Stored<WU> + Stored<WL> + Stored<WF>,
    const U: u32,
    const L: u32,
    const F: u32,
    const WU: usize,
    const WL: usize,
    const WF: usize,
> TreeOf<V, U, L, F, WU, WL, WF> {
    /// Starts a walk, in block order, over the blocks at which this tree and another have a tile or a leaf each. It passes over
    /// blocks that are a tile of the inactive background in both.
    pub fn pairs(
        &self,
        other: &Self,
    ) -> PairWalk<Internal<V, U, WU>, Internal<V, L, WL>, Leaf<V, F, WF>>
        ensures walk { IsPairWalk (bits_of U L F) self.now other.now result }
        ensures at { result.at ≡ Some everywhere.min }
    {
        let _ = &self.root;
        let _ = &other.root;
        let start = Bounds::all().min();
        PairWalk {
            at: Some(start),
            first: PathOf::Empty,
            second: PathOf::Empty,
            near: start,
        }
    }

    /// Returns the next pair of a walk, or `None` if no pair is left. It takes no memory.
    pub fn next_pair<'a>(
        &'a self,
        other: &'a Self,
        walk: &mut PairWalk<Internal<V, U, WU>, Internal<V, L, WL>, Leaf<V, F, WF>>,
        steps: &mut Steps,
    ) -> Option<Pair<V, &'a Leaf<V, F, WF>>>
        requires { IsPairWalk (bits_of U L F) self.now other.now walk.old }
        ensures walk { IsPairWalk (bits_of U L F) self.now other.now walk.new }
        ensures block { IfSome result (λ pair. YieldsPair (bits_of U L F) self.now other.now walk.old walk.new pair.bounds) }
        ensures root { IfSome result (λ pair. (q r : Coord) → IsTrue (is_inside pair.bounds q) → IsTrue (is_inside pair.bounds r) → key (bits_of U L F) q ≡ key (bits_of U L F) r) }
        ensures first_tile { IfSome result (λ pair. OnTile pair.first (λ cell. (q : Coord) → IsTrue (is_inside pair.bounds q) → (field_of (bits_of U L F) self.now).cell q ≡ cell)) }
        ensures first_leaf { IfSome result (λ pair. OnLeaf pair.first (λ leaf. IsPartOfLeaf (bits_of U L F) (field_of (bits_of U L F) self.now) pair.bounds leaf.now × (pair.bounds ≡ block_around (bits_of U L F) leaf_level pair.bounds.min))) }
        ensures second_tile { IfSome result (λ pair. OnTile pair.second (λ cell. (q : Coord) → IsTrue (is_inside pair.bounds q) → (field_of (bits_of U L F) other.now).cell q ≡ cell)) }
        ensures second_leaf { IfSome result (λ pair. OnLeaf pair.second (λ leaf. IsPartOfLeaf (bits_of U L F) (field_of (bits_of U L F) other.now) pair.bounds leaf.now × (pair.bounds ≡ block_around (bits_of U L F) leaf_level pair.bounds.min))) }
        ensures nearer { IfSome result (λ pair. left_count (bits_of U L F) walk.new.at < left_count (bits_of U L F) walk.old.at) }
        ensures end { IfNone result (PassesPairs (bits_of U L F) self.now other.now walk.old walk.new (λ q. false)) }
        ensures none_left { IfNone result (walk.new.at ≡ None) }
    {
        'starts: while let Some(p) = walk.at() {
            let pair = self.pair_step(other, walk, p, steps);
            if pair.is_some() {
                return pair;
            }
        }
        None
    }

    /// Continues the walk from a start: yields the pair around it, unless both trees have the inactive background there.
    fn pair_step<'a>(
        &'a self,
        other: &'a Self,
        walk: &mut PairWalk<Internal<V, U, WU>, Internal<V, L, WL>, Leaf<V, F, WF>>,
        p: Coord,
        steps: &mut Steps,
    ) -> Option<Pair<V, &'a Leaf<V, F, WF>>>
        requires walk { IsPairWalk (bits_of U L F) self.now other.now walk.old }
        requires at { walk.old.at ≡ Some p }
        ensures walk { IsPairWalk (bits_of U L F) self.now other.now walk.new }
        ensures block { IfSome result (λ pair. YieldsPair (bits_of U L F) self.now other.now walk.old walk.new pair.bounds) }
        ensures root { IfSome result (λ pair. (q r : Coord) → IsTrue (is_inside pair.bounds q) → IsTrue (is_inside pair.bounds r) → key (bits_of U L F) q ≡ key (bits_of U L F) r) }
        ensures first_tile { IfSome result (λ pair. OnTile pair.first (λ cell. (q : Coord) → IsTrue (is_inside pair.bounds q) → (field_of (bits_of U L F) self.now).cell q ≡ cell)) }
        ensures first_leaf { IfSome result (λ pair. OnLeaf pair.first (λ leaf. IsPartOfLeaf (bits_of U L F) (field_of (bits_of U L F) self.now) pair.bounds leaf.now × (pair.bounds ≡ block_around (bits_of U L F) leaf_level pair.bounds.min))) }
        ensures second_tile { IfSome result (λ pair. OnTile pair.second (λ cell. (q : Coord) → IsTrue (is_inside pair.bounds q) → (field_of (bits_of U L F) other.now).cell q ≡ cell)) }
        ensures second_leaf { IfSome result (λ pair. OnLeaf pair.second (λ leaf. IsPartOfLeaf (bits_of U L F) (field_of (bits_of U L F) other.now) pair.bounds leaf.now × (pair.bounds ≡ block_around (bits_of U L F) leaf_level pair.bounds.min))) }
        ensures passed { IfNone result (PassesPairs (bits_of U L F) self.now other.now walk.old walk.new (λ q. false)) }
        ensures nearer { left_count (bits_of U L F) walk.new.at < left_count (bits_of U L F) walk.old.at }
    {
        let (first, second) = self.pair_ends(other, walk, p, steps);
        if self.is_background_end(p, first) && other.is_background_end(p, second) {
            self.pass_background(other, walk, p, first, second, steps);
            None
        } else {
            Some(self.take_pair(other, walk, p, first, second, steps))
        }
    }

    /// Returns where the descents to `p` end in the two trees. The paths become those to `p`.
    fn pair_ends(
        &self,
        other: &Self,
        walk: &mut PairWalk<Internal<V, U, WU>, Internal<V, L, WL>, Leaf<V, F, WF>>,
        p: Coord,
        steps: &mut Steps,
    ) -> (End<V>, End<V>)
        requires { IsPairWalk (bits_of U L F) self.now other.now walk.old }
        ensures first { IsEnd (bits_of U L F) self.now p result.0 }
        ensures second { IsEnd (bits_of U L F) other.now p result.1 }
        ensures first_lives { Lives (bits_of U L F) self.now walk.new.first p }
        ensures second_lives { Lives (bits_of U L F) other.now walk.new.second p }
        ensures walk { IsPairWalk (bits_of U L F) self.now other.now walk.new }
        ensures at { walk.new.at ≡ walk.old.at }
    {
        let first = self.reached(walk.first(), walk.near(), p, steps);
        let second = other.reached(walk.second(), walk.near(), p, steps);
        walk.keep(first.path, second.path, p);
        (first.end, second.end)
    }

    /// Returns whether `end`, the end of the descent to `p`, is a tile of the inactive background.
    fn is_background_end(&self, p: Coord, end: End<V>) -> bool
        requires { IsEnd (bits_of U L F) self.now p end }
        ensures { IsTrue result → (q : Coord) → block_number (bits_of U L F) (end_level (bits_of U L F) self.now p) q ≡ block_number (bits_of U L F) (end_level (bits_of U L F) self.now p) p → IsSkipped (bits_of U L F) Background self.now q }
    {
        match end {
            End::Tile(_, cell) => self.is_background(cell),
            End::Leaf(_) => false,
        }
    }

    /// Returns the level of the tile or the leaf around `p`, given the end of the descent.
    fn level_of_end(&self, p: Coord, end: End<V>) -> Level
        requires { IsEnd (bits_of U L F) self.now p end }
        ensures { result ≡ end_level (bits_of U L F) self.now p }
    {
        let _ = p;
        match end {
            End::Tile(level, _) => level,
            End::Leaf(_) => Level::Leaf,
        }
    }
}

impl<
    V: Stored<WU> + Stored<WL> + Stored<WF>,
    const U: u32,
    const L: u32,
    const F: u32,
    const WU: usize,
    const WL: usize,
    const WF: usize,
> TreeOf<V, U, L, F, WU, WL, WF> {
    /// Moves the walk past what both trees have as background from `p` on: to the lesser of the two next starts.
    fn pass_background(
        &self,
        other: &Self,
        walk: &mut PairWalk<Internal<V, U, WU>, Internal<V, L, WL>, Leaf<V, F, WF>>,
        p: Coord,
        first: End<V>,
        second: End<V>,
        steps: &mut Steps,
    )
        requires walk { IsPairWalk (bits_of U L F) self.now other.now walk.old }
        requires at { walk.old.at ≡ Some p }
        requires first_end { IsEnd (bits_of U L F) self.now p first }
        requires second_end { IsEnd (bits_of U L F) other.now p second }
        requires first_lives { Lives (bits_of U L F) self.now walk.old.first p }
        requires second_lives { Lives (bits_of U L F) other.now walk.old.second p }
        requires first_background { (q : Coord) → block_number (bits_of U L F) (end_level (bits_of U L F) self.now p) q ≡ block_number (bits_of U L F) (end_level (bits_of U L F) self.now p) p → IsSkipped (bits_of U L F) Background self.now q }
        requires second_background { (q : Coord) → block_number (bits_of U L F) (end_level (bits_of U L F) other.now p) q ≡ block_number (bits_of U L F) (end_level (bits_of U L F) other.now p) p → IsSkipped (bits_of U L F) Background other.now q }
        ensures walk { IsPairWalk (bits_of U L F) self.now other.now walk.new }
        ensures passed { PassesPairs (bits_of U L F) self.now other.now walk.old walk.new (λ q. false) }
        ensures nearer { left_count (bits_of U L F) walk.new.at < left_count (bits_of U L F) walk.old.at }
    {
        let after_first = self.start_past_background(p, first, walk.first(), steps);
        let after_second = other.start_past_background(p, second, walk.second(), steps);
        let next = self.lesser_start(after_first, after_second);
        walk.go_to(next);
    }

    /// Returns the first coordinate past the background around `p`.
    fn start_past_background(
        &self,
        p: Coord,
        end: End<V>,
        path: PathOf<Internal<V, U, WU>, Internal<V, L, WL>, Leaf<V, F, WF>>,
        steps: &mut Steps,
    ) -> Option<Coord>
        requires end { IsEnd (bits_of U L F) self.now p end }
        requires lives { Lives (bits_of U L F) self.now path p }
        ensures next { IsStartAfter (bits_of U L F) self.now everywhere Background (end_level (bits_of U L F) self.now p) p result }
        ensures nearer { IfSome result (λ next. coordinates_past (bits_of U L F) next < coordinates_past (bits_of U L F) p) }
    {
        self.start_after(Bounds::all(), Skip::Background, p, end, path, steps)
    }

    /// Returns the lesser of two starts in block order; `None` comes last.
    fn lesser_start(&self, a: Option<Coord>, b: Option<Coord>) -> Option<Coord>
        ensures one { (result ≡ a) ⊎ (result ≡ b) }
        ensures least { (q : Coord) → is_left (bits_of U L F) result q ≡ false → (is_left (bits_of U L F) a q ≡ false) × (is_left (bits_of U L F) b q ≡ false) }
    {
        match (a, b) {
            (Some(p), Some(q)) => Some(self.lesser(p, q)),
            (None, _) => b,
            (_, None) => a,
        }
    }

    /// Returns the lesser of two coordinates in block order.
    fn lesser(&self, p: Coord, q: Coord) -> Coord
        ensures one { (result ≡ p) ⊎ (result ≡ q) }
        ensures least { (r : Coord) → ComesBefore (bits_of U L F) r result → ComesBefore (bits_of U L F) r p × ComesBefore (bits_of U L F) r q }
    {
        match p.block_cmp_in(self.bits(), &q) {
            Ordering::Less => p,
            Ordering::Equal => p,
            Ordering::Greater => q,
        }
    }

    /// Returns the pair around `p`, given the ends of the descents, and moves the walk past it.
    fn take_pair<'a>(
        &'a self,
        other: &'a Self,
        walk: &mut PairWalk<Internal<V, U, WU>, Internal<V, L, WL>, Leaf<V, F, WF>>,
        p: Coord,
        first: End<V>,
        second: End<V>,
        steps: &mut Steps,
    ) -> Pair<V, &'a Leaf<V, F, WF>>
        requires walk { IsPairWalk (bits_of U L F) self.now other.now walk.old }
        requires at { walk.old.at ≡ Some p }
        requires first_end { IsEnd (bits_of U L F) self.now p first }
        requires second_end { IsEnd (bits_of U L F) other.now p second }
        ensures walk { IsPairWalk (bits_of U L F) self.now other.now walk.new }
        ensures block { YieldsPair (bits_of U L F) self.now other.now walk.old walk.new result.bounds }
        ensures root { (q r : Coord) → IsTrue (is_inside result.bounds q) → IsTrue (is_inside result.bounds r) → key (bits_of U L F) q ≡ key (bits_of U L F) r }
        ensures first_tile { OnTile result.first (λ cell. (q : Coord) → IsTrue (is_inside result.bounds q) → (field_of (bits_of U L F) self.now).cell q ≡ cell) }
        ensures first_leaf { OnLeaf result.first (λ leaf. IsPartOfLeaf (bits_of U L F) (field_of (bits_of U L F) self.now) result.bounds leaf.now × (result.bounds ≡ block_around (bits_of U L F) leaf_level result.bounds.min)) }
        ensures second_tile { OnTile result.second (λ cell. (q : Coord) → IsTrue (is_inside result.bounds q) → (field_of (bits_of U L F) other.now).cell q ≡ cell) }
        ensures second_leaf { OnLeaf result.second (λ leaf. IsPartOfLeaf (bits_of U L F) (field_of (bits_of U L F) other.now) result.bounds leaf.now × (result.bounds ≡ block_around (bits_of U L F) leaf_level result.bounds.min)) }
        ensures nearer { left_count (bits_of U L F) walk.new.at < left_count (bits_of U L F) walk.old.at }
    {
        let (level, bounds) = self.pair_block(other, p, first, second);
        self.go_past_pair(other, walk, p, level, bounds);
        self.pair_over(other, bounds, p, first, second, steps)
    }

    /// Returns the level and the block of the pair around `p`, given the ends of the descents.
    fn pair_block(&self, other: &Self, p: Coord, first: End<V>, second: End<V>) -> (Level, Bounds)
        requires first_end { IsEnd (bits_of U L F) self.now p first }
        requires second_end { IsEnd (bits_of U L F) other.now p second }
        ensures level { result.0 ≡ pair_level (bits_of U L F) self.now other.now p }
        ensures block { result.1 ≡ block_around (bits_of U L F) result.0 p }
        ensures first { IsOver (bits_of U L F) self.now p first result.1 }
        ensures second { IsOver (bits_of U L F) other.now p second result.1 }
    {
        let _ = &self.root;
        let level = lower_of(self.level_of_end(p, first), other.level_of_end(p, second));
        let bounds = p.block_in(self.bits(), level);
        (level, bounds)
    }

    /// Moves the walk past the pair around `p`, which has this level and this block.
    fn go_past_pair(
        &self,
        other: &Self,
        walk: &mut PairWalk<Internal<V, U, WU>, Internal<V, L, WL>, Leaf<V, F, WF>>,
        p: Coord,
        level: Level,
        bounds: Bounds,
    )
        requires walk { IsPairWalk (bits_of U L F) self.now other.now walk.old }
        requires at { walk.old.at ≡ Some p }
        requires level { level ≡ pair_level (bits_of U L F) self.now other.now p }
        requires block { bounds ≡ block_around (bits_of U L F) level p }
        ensures walk { IsPairWalk (bits_of U L F) self.now other.now walk.new }
        ensures yields { YieldsPair (bits_of U L F) self.now other.now walk.old walk.new bounds }
        ensures nearer { left_count (bits_of U L F) walk.new.at < left_count (bits_of U L F) walk.old.at }
    {
        let _ = &self.root;
        let _ = &other.root;
        let _ = bounds;
        let next = self.start_past_block(level, p);
        walk.go_to(next);
    }

    /// Returns what both trees have over a box in their tiles or leaves around `p`, given the ends of the descents.
    fn pair_over<'a>(
        &'a self,
        other: &'a Self,
        bounds: Bounds,
        p: Coord,
        first: End<V>,
        second: End<V>,
        steps: &mut Steps,
    ) -> Pair<V, &'a Leaf<V, F, WF>>
        requires first_over { IsOver (bits_of U L F) self.now p first bounds }
        requires second_over { IsOver (bits_of U L F) other.now p second bounds }
        ensures bounds { result.bounds ≡ bounds }
        ensures first_tile { OnTile result.first (λ cell. (q : Coord) → IsTrue (is_inside result.bounds q) → (field_of (bits_of U L F) self.now).cell q ≡ cell) }
        ensures first_leaf { OnLeaf result.first (λ leaf. IsPartOfLeaf (bits_of U L F) (field_of (bits_of U L F) self.now) result.bounds leaf.now × (result.bounds ≡ block_around (bits_of U L F) leaf_level result.bounds.min)) }
        ensures second_tile { OnTile result.second (λ cell. (q : Coord) → IsTrue (is_inside result.bounds q) → (field_of (bits_of U L F) other.now).cell q ≡ cell) }
        ensures second_leaf { OnLeaf result.second (λ leaf. IsPartOfLeaf (bits_of U L F) (field_of (bits_of U L F) other.now) result.bounds leaf.now × (result.bounds ≡ block_around (bits_of U L F) leaf_level result.bounds.min)) }
    {
        let first = self.content_of(bounds, p, first, steps);
        let second = other.content_of(bounds, p, second, steps);
        Pair {
            bounds,
            first,
            second,
        }
    }

    /// Returns the first coordinate, in block order, past the level's block around `p`.
    fn start_past_block(&self, level: Level, p: Coord) -> Option<Coord>
        ensures next { IsNextCoord (bits_of U L F) level everywhere p result }
        ensures nearer { IfSome result (λ next. coordinates_past (bits_of U L F) next < coordinates_past (bits_of U L F) p) }
    {
        Bounds::all().next_coord_in(self.bits(), level, p)
    }

    /// Returns what the tree has over a box in the tile or the leaf around `p`, given the end of the descent.
    fn content_of<'a>(
        &'a self,
        bounds: Bounds,
        p: Coord,
        end: End<V>,
        steps: &mut Steps,
    ) -> Content<V, &'a Leaf<V, F, WF>>
        requires { IsOver (bits_of U L F) self.now p end bounds }
        ensures tile { OnTile result (λ cell. (q : Coord) → IsTrue (is_inside bounds q) → (field_of (bits_of U L F) self.now).cell q ≡ cell) }
        ensures leaf { OnLeaf result (λ leaf. IsPartOfLeaf (bits_of U L F) (field_of (bits_of U L F) self.now) bounds leaf.now × (bounds ≡ block_around (bits_of U L F) leaf_level bounds.min)) }
    {
        let _ = bounds;
        match end {
            End::Tile(_, cell) => Content::Tile(cell),
            End::Leaf(slot) => Content::Leaf(self.held_leaf(slot, p, steps)),
        }
    }
}

/// Returns the lower of two levels.
fn lower_of(first: Level, second: Level) -> Level
    ensures { result ≡ lower_level first second }
{
    match (first, second) {
        (Level::Leaf, _) | (_, Level::Leaf) => Level::Leaf,
        (Level::Lower, _) | (_, Level::Lower) => Level::Lower,
        (Level::Upper, Level::Upper) => Level::Upper,
    }
}
