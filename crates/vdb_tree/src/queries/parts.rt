//! The parts of a tree in block order, one after another.

ghost use Rattle.std.specs.Prelude.{◌↔◌, ◌≡◌, ◌+◌, ◌*◌, ◌<◌, ◌≤◌, if◌then◌else◌, is_some, IfNone, IfSome, IsNone, IsTrue, Some, None, false};
ghost use Rattle.vdb_coord.specs.Blocks.{block_number, entries};
ghost use Rattle.vdb_coord.specs.Order.{ComesBefore, coordinates_past};
ghost use Rattle.vdb_coord.specs.Space.{everywhere, is_inside};
ghost use Rattle.vdb_coord.specs.declared.Coord.{Coord};
ghost use Rattle.vdb_coord.specs.declared.Level.TheVariants.{Leaf as leaf_level, Lower, Upper};
ghost use Rattle.vdb_node.specs.declared.Entry.TheVariants.{Tile};
ghost use Rattle.vdb_tree.specs.Layout.{bits_of, entry_over, field_of, background_cell};
ghost use Rattle.vdb_tree.specs.Leaves.{IsLeafAround};
ghost use Rattle.vdb_tree.specs.Parts.{IsEnd, IsPartAround, IsPartOfLeaf, IsStart, IsSkipped, IsWalk, OnLeaf, OnTile, Passes, YieldsBox, end_level, is_left, left_count};
ghost use Rattle.vdb_tree.specs.Paths.{common, ends_in_leaf, in_leaf, Lives};
ghost use Rattle.vdb_tree.specs.Sound.{IsConfigured};

use crate::queries::ends::End;
use crate::{PathOf, TreeOf};
use std::marker::Model;
use vdb_coord::{Bounds, Coord, Level};
use vdb_node::{Internal, Leaf, Stored};
use vdb_pool::Steps;
use vdb_value::Cell;

/// What a walk over parts passes over.
#[derive(Clone, Copy, Debug, PartialEq, Eq)]
pub enum Skip {
    /// Upper extents without an entry in the table, and nothing else.
    Absent,
    /// Upper extents without an entry, and tiles of the inactive background.
    Background,
    /// Upper extents without an entry, and every inactive tile.
    Inactive,
}

/// What a part consists of: a tile's cell, or a leaf.
#[derive(Clone, Copy)]
pub enum Content<V, L> {
    /// One cell all over the part.
    Tile(Cell<V>),
    /// A leaf, with the cells of the leaf extent around the part.
    Leaf(L),
}

/// A tile or a leaf, cut to a box.
#[derive(Clone, Copy)]
pub struct Part<V, L> {
    /// The coordinates that the box has in the block of the tile or the leaf.
    pub bounds: Bounds,
    /// The tile or the leaf.
    pub content: Content<V, L>,
}

/// The progress of a walk over the parts of a tree: the coordinates that are left of a box, and the path of nodes to the last
/// part. It owns nothing, and is valid for the tree that made it as long as that tree doesn't change.
#[derive(Drop)]
pub struct Walk<Upper, Lower, Leaf> {
    bounds: Bounds,
    skip: Skip,
    at: Option<Coord>,
    path: PathOf<Upper, Lower, Leaf>,
    near: Coord,
}

impl<Upper, Lower, Leaf> Model for Walk<Upper, Lower, Leaf> {
    ghost use Rattle.vdb_tree.specs.Parts.{WalkOf};

    ghost Value = { WalkOf Upper Lower Leaf };

    ghost view = { λ w. record { box = w.bounds; skip = w.skip; at = w.at; path = w.path; near = w.near } };
}

impl<Upper, Lower, Leaf> Walk<Upper, Lower, Leaf> {
    /// Returns the box to which the parts are cut.
    pub fn bounds(&self) -> Bounds
        ensures { result ≡ self.now.box }
    {
        self.bounds
    }

    /// Returns what the walk passes over.
    pub fn skip(&self) -> Skip
        ensures { result ≡ self.now.skip }
    {
        self.skip
    }

    /// Returns the first coordinate, in block order, of what is left of the box.
    fn at(&self) -> Option<Coord>
        ensures { result ≡ self.now.at }
    {
        self.at
    }

    fn path(&self) -> PathOf<Upper, Lower, Leaf>
        ensures { result ≡ self.now.path }
    {
        self.path
    }

    /// Returns the coordinate to which the path leads.
    fn near(&self) -> Coord
        ensures { result ≡ self.now.near }
    {
        self.near
    }

    fn go_to(&mut self, next: Option<Coord>)
        ensures { self.new ≡ record self.old { at = next } }
    {
        self.at = next;
    }

    fn keep(&mut self, path: PathOf<Upper, Lower, Leaf>, near: Coord)
        ensures { self.new ≡ record self.old { path = path; near = near } }
    {
        self.path = path;
        self.near = near;
    }
}

impl<
    V: Stored<WU> + Stored<WL> + Stored<WF>,
    const U: u32,
    const L: u32,
    const F: u32,
    const WU: usize,
    const WL: usize,
    const WF: usize,
> TreeOf<V, U, L, F, WU, WL, WF> {
    /// Starts a walk, in block order, over the parts of the tree that meet the box: its leaves and its tiles, except what
    /// `skip` passes over (OpenVDB's node and value iterators of a tree go over these).
    pub fn parts(
        &self,
        bounds: Bounds,
        skip: Skip,
    ) -> Walk<Internal<V, U, WU>, Internal<V, L, WL>, Leaf<V, F, WF>>
        ensures walk { IsWalk (bits_of U L F) self.now result }
        ensures bounds { result.box ≡ bounds }
        ensures skip { result.skip ≡ skip }
        ensures at { result.at ≡ Some bounds.min }
    {
        Walk {
            bounds,
            skip,
            at: Some(bounds.min()),
            path: PathOf::Empty,
            near: bounds.min(),
        }
    }

    /// Starts the walk of `parts` at the part around `start`, or at the first part if the box doesn't have `start`.
    pub fn parts_from(
        &self,
        bounds: Bounds,
        skip: Skip,
        start: Coord,
        steps: &mut Steps,
    ) -> Walk<Internal<V, U, WU>, Internal<V, L, WL>, Leaf<V, F, WF>>
        ensures walk { IsWalk (bits_of U L F) self.now result }
        ensures bounds { result.box ≡ bounds }
        ensures skip { result.skip ≡ skip }
        ensures earlier { (q : Coord) → IsTrue (is_inside bounds q) → is_left (bits_of U L F) result.at q ≡ false → ComesBefore (bits_of U L F) q start }
    {
        let mut walk = self.parts(bounds, skip);
        if bounds.contains(start) {
            let end = self.end_at(&mut walk, start, steps);
            let first = self.start_around(bounds, start, end);
            walk.go_to(Some(first));
        }
        walk
    }

    /// Returns the first coordinate, in block order, that the box has in the tile or the leaf around `p`.
    fn start_around(&self, bounds: Bounds, p: Coord, end: End<V>) -> Coord
        requires inside { IsTrue (is_inside bounds p) }
        requires end { IsEnd (bits_of U L F) self.now p end }
        ensures start { IsStart (bits_of U L F) self.now bounds result }
        ensures earlier { (q : Coord) → ComesBefore (bits_of U L F) q result → ComesBefore (bits_of U L F) q p }
    {
        match end {
            End::Tile(level, _) => self.part(bounds, level, p).min(),
            End::Leaf(_) => self.part(bounds, Level::Leaf, p).min(),
        }
    }

    /// Does nothing. Its contract states a fact of every tree: the mask of a leaf is long enough for its voxels, and has at
    /// most 512 words.
    pub fn has_leaf_words(&self)
        ensures few { WF ≤ 512 }
        ensures capacity { entries (bits_of U L F) leaf_level ≤ 64 * WF }
    {
        let _ = &self.root;
    }

    /// Returns how many words the masks of an upper node, of a lower node and of a leaf have.
    pub fn mask_words(&self) -> (usize, usize, usize)
        ensures words { result ≡ (WU, WL, WF) }
        ensures configured { IsConfigured U L F WU WL WF }
        ensures upper { WU ≤ 512 }
        ensures lower { WL ≤ 512 }
        ensures leaf { WF ≤ 512 }
    {
        let _ = &self.root;
        (WU, WL, WF)
    }

    /// Returns the next part of a walk, or `None` if no part is left. It takes no memory. It visits the internal nodes from
    /// the lowest one that the part shares with the last, and those around what it passes over.
    pub fn next_part(
        &self,
        walk: &mut Walk<Internal<V, U, WU>, Internal<V, L, WL>, Leaf<V, F, WF>>,
        steps: &mut Steps,
    ) -> Option<Part<V, &Leaf<V, F, WF>>>
        requires { IsWalk (bits_of U L F) self.now walk.old }
        ensures walk { IsWalk (bits_of U L F) self.now walk.new }
        ensures part { IfSome result (λ part. YieldsBox (bits_of U L F) self.now walk.old walk.new part.bounds) }
        ensures tile { IfSome result (λ part. OnTile part.content (λ cell. (q : Coord) → IsTrue (is_inside part.bounds q) → (field_of (bits_of U L F) self.now).cell q ≡ cell)) }
        ensures leaf { IfSome result (λ part. OnLeaf part.content (λ leaf. IsPartOfLeaf (bits_of U L F) (field_of (bits_of U L F) self.now) part.bounds leaf.now)) }
        ensures nearer { IfSome result (λ part. left_count (bits_of U L F) walk.new.at < left_count (bits_of U L F) walk.old.at) }
        ensures end { IfNone result (Passes (bits_of U L F) self.now walk.old walk.new (λ q. false)) }
        ensures none_left { IfNone result (walk.new.at ≡ None) }
    {
        'starts: while let Some(p) = walk.at() {
            let part = self.step(walk, p, steps);
            if part.is_some() {
                return part;
            }
        }
        None
    }

    /// Returns what `leaf` returns, the leaf around a coordinate. If the walk's path ends in that leaf, as after the walk has
    /// yielded a part of the leaf, this takes one node visit (OpenVDB's `ValueAccessor::probeConstLeaf`).
    pub fn leaf_of(
        &self,
        walk: &Walk<Internal<V, U, WU>, Internal<V, L, WL>, Leaf<V, F, WF>>,
        p: Coord,
        steps: &mut Steps,
    ) -> Option<&Leaf<V, F, WF>>
        requires { IsWalk (bits_of U L F) self.now walk.now }
        ensures leaf { IfSome result (λ leaf. IsLeafAround (bits_of U L F) (field_of (bits_of U L F) self.now) p leaf.now) }
        ensures tile { IsNone result → (q : Coord) → IsTrue (is_inside everywhere q)
            → block_number (bits_of U L F) leaf_level q ≡ block_number (bits_of U L F) leaf_level p
            → (field_of (bits_of U L F) self.now).cell q ≡ (field_of (bits_of U L F) self.now).cell p }
        ensures there { is_some result ≡ in_leaf (bits_of U L F) self.now p }
        ensures steps { steps.new ≤ steps.old + (if ends_in_leaf (common (bits_of U L F) walk.now.near p walk.now.path) then 1 else 3) }
    {
        match self.shared(walk.path(), walk.near(), p) {
            PathOf::ToLeaf(_, _, leaf) => Some(self.placed_leaf(leaf, p, steps)),
            _ => self.leaf(p, steps),
        }
    }

    /// Continues the walk from a start: yields the part around it, unless the walk passes over that.
    fn step(
        &self,
        walk: &mut Walk<Internal<V, U, WU>, Internal<V, L, WL>, Leaf<V, F, WF>>,
        p: Coord,
        steps: &mut Steps,
    ) -> Option<Part<V, &Leaf<V, F, WF>>>
        requires walk { IsWalk (bits_of U L F) self.now walk.old }
        requires at { walk.old.at ≡ Some p }
        ensures walk { IsWalk (bits_of U L F) self.now walk.new }
        ensures part { IfSome result (λ part. YieldsBox (bits_of U L F) self.now walk.old walk.new part.bounds) }
        ensures tile { IfSome result (λ part. OnTile part.content (λ cell. (q : Coord) → IsTrue (is_inside part.bounds q) → (field_of (bits_of U L F) self.now).cell q ≡ cell)) }
        ensures leaf { IfSome result (λ part. OnLeaf part.content (λ leaf. IsPartOfLeaf (bits_of U L F) (field_of (bits_of U L F) self.now) part.bounds leaf.now)) }
        ensures passed { IfNone result (Passes (bits_of U L F) self.now walk.old walk.new (λ q. false)) }
        ensures nearer { left_count (bits_of U L F) walk.new.at < left_count (bits_of U L F) walk.old.at }
    {
        let end = self.end_at(walk, p, steps);
        let (bounds, skip) = (walk.bounds(), walk.skip());
        let next = self.start_after(bounds, skip, p, end, walk.path(), steps);
        let part = self.part_around(bounds, skip, p, end, steps);
        walk.go_to(next);
        part
    }

    /// Returns where the descent to `p` ends. The path becomes that to `p`.
    fn end_at(
        &self,
        walk: &mut Walk<Internal<V, U, WU>, Internal<V, L, WL>, Leaf<V, F, WF>>,
        p: Coord,
        steps: &mut Steps,
    ) -> End<V>
        requires { IsWalk (bits_of U L F) self.now walk.old }
        ensures end { IsEnd (bits_of U L F) self.now p result }
        ensures lives { Lives (bits_of U L F) self.now walk.new.path p }
        ensures walk { IsWalk (bits_of U L F) self.now walk.new }
        ensures bounds { walk.new.box ≡ walk.old.box }
        ensures skip { walk.new.skip ≡ walk.old.skip }
        ensures at { walk.new.at ≡ walk.old.at }
    {
        if let PathOf::ToLower(upper, lower) = self.shared(walk.path(), walk.near(), p) {
            let reached = self.reached_from_lower(upper, lower, p, steps);
            walk.keep(reached.path, p);
            return reached.end;
        }
        let reached = self.reached(walk.path(), walk.near(), p, steps);
        walk.keep(reached.path, p);
        reached.end
    }
}

impl<
    V: Stored<WU> + Stored<WL> + Stored<WF>,
    const U: u32,
    const L: u32,
    const F: u32,
    const WU: usize,
    const WL: usize,
    const WF: usize,
> TreeOf<V, U, L, F, WU, WL, WF> {
    /// Returns the part around `p`, given the end of the descent; `None` if the walk passes over it.
    fn part_around(
        &self,
        bounds: Bounds,
        skip: Skip,
        p: Coord,
        end: End<V>,
        steps: &mut Steps,
    ) -> Option<Part<V, &Leaf<V, F, WF>>>
        requires inside { IsTrue (is_inside bounds p) }
        requires end { IsEnd (bits_of U L F) self.now p end }
        ensures bounds { IfSome result (λ part. IsPartAround (bits_of U L F) self.now bounds p part.bounds) }
        ensures tile { IfSome result (λ part. OnTile part.content (λ cell. (q : Coord) → IsTrue (is_inside part.bounds q) → (field_of (bits_of U L F) self.now).cell q ≡ cell)) }
        ensures leaf { IfSome result (λ part. OnLeaf part.content (λ leaf. IsPartOfLeaf (bits_of U L F) (field_of (bits_of U L F) self.now) part.bounds leaf.now)) }
        ensures passed { IfNone result ((q : Coord) → IsTrue (is_inside bounds q) → block_number (bits_of U L F) (end_level (bits_of U L F) self.now p) q ≡ block_number (bits_of U L F) (end_level (bits_of U L F) self.now p) p → IsSkipped (bits_of U L F) skip self.now q) }
    {
        let _ = &self.root;
        match end {
            End::Leaf(slot) => {
                let bounds = self.part(bounds, Level::Leaf, p);
                let leaf = self.held_leaf(slot, p, steps);
                Some(Part {
                    bounds,
                    content: Content::Leaf(leaf),
                })
            }
            End::Tile(level, cell) => {
                if self.is_skipped(skip, level, p, cell) {
                    return None;
                }
                let bounds = self.part(bounds, level, p);
                Some(Part {
                    bounds,
                    content: Content::Tile(cell),
                })
            }
        }
    }

    /// Returns whether a walk passes over the tile around p, or the upper extent without an entry.
    fn is_skipped(&self, skip: Skip, level: Level, p: Coord, cell: Cell<V>) -> bool
        requires { entry_over (bits_of U L F) level self.now p ≡ Tile cell }
        ensures { IsTrue result → (q : Coord) → block_number (bits_of U L F) level q ≡ block_number (bits_of U L F) level p → IsSkipped (bits_of U L F) skip self.now q }
    {
        match skip {
            Skip::Absent => level == Level::Upper && self.root.get(self.key(p)).is_none(),
            Skip::Background => self.is_background(cell),
            Skip::Inactive => !cell.on,
        }
    }

    /// Returns whether this is the cell of a voxel that was never written: the inactive background.
    pub(crate) fn is_background(&self, cell: Cell<V>) -> bool
        ensures { IsTrue result ↔ (cell ≡ background_cell self.now) }
    {
        cell == self.background_cell()
    }
}
