//! The next start of a walk over parts: in the same node, or past it.

ghost use Rattle.std.specs.Prelude.{◌≡◌, ◌<◌, IfSome, IsTrue};
ghost use Rattle.vdb_coord.specs.Order.{coordinates_past};
ghost use Rattle.vdb_coord.specs.Space.{is_inside};
ghost use Rattle.vdb_coord.specs.declared.Level.TheVariants.{Leaf as leaf_level, Lower, Upper};
ghost use Rattle.vdb_tree.specs.internal.Jumps.{IsJump, IsNextPart, IsNextPartAt};
ghost use Rattle.vdb_tree.specs.Layout.{bits_of, root_entry, upper_entry};
ghost use Rattle.vdb_tree.specs.Parts.{IsEnd, IsNextAbove, IsStartAfter, end_level};
ghost use Rattle.vdb_tree.specs.Paths.{IsChildAt, Lives};
ghost use Rattle.vdb_tree.specs.declared.queries.parts.Skip.TheVariants.{Background, Inactive};

use crate::queries::ends::End;
use crate::queries::parts::Skip;
use crate::{PathOf, TreeOf};
use vdb_coord::{Bounds, Coord, Level};
use vdb_node::{Internal, Leaf, Stored};
use vdb_pool::{Place, Steps};
use vdb_value::Cell;

impl<
    V: Stored<WU> + Stored<WL> + Stored<WF>,
    const U: u32,
    const L: u32,
    const F: u32,
    const WU: usize,
    const WL: usize,
    const WF: usize,
> TreeOf<V, U, L, F, WU, WL, WF> {
    /// Returns the first coordinate of the box past the part around `p`, given the end of the descent. The nodes of a path to
    /// `p` show which of their entries the walk passes over, for one visit each.
    #[inline(always)]
    pub(crate) fn start_after(
        &self,
        bounds: Bounds,
        skip: Skip,
        p: Coord,
        end: End<V>,
        path: PathOf<Internal<V, U, WU>, Internal<V, L, WL>, Leaf<V, F, WF>>,
        steps: &mut Steps,
    ) -> Option<Coord>
        requires inside { IsTrue (is_inside bounds p) }
        requires end { IsEnd (bits_of U L F) self.now p end }
        requires lives { Lives (bits_of U L F) self.now path p }
        ensures next { IsStartAfter (bits_of U L F) self.now bounds skip (end_level (bits_of U L F) self.now p) p result }
        ensures nearer { IfSome result (λ next. coordinates_past (bits_of U L F) next < coordinates_past (bits_of U L F) p) }
    {
        match self.start_past(bounds, skip, p, end, path, steps) {
            Some(next) => Some(next),
            None => None,
        }
    }

    #[inline(always)]
    fn start_past(
        &self,
        bounds: Bounds,
        skip: Skip,
        p: Coord,
        end: End<V>,
        path: PathOf<Internal<V, U, WU>, Internal<V, L, WL>, Leaf<V, F, WF>>,
        steps: &mut Steps,
    ) -> Option<Coord>
        requires inside { IsTrue (is_inside bounds p) }
        requires end { IsEnd (bits_of U L F) self.now p end }
        requires lives { Lives (bits_of U L F) self.now path p }
        ensures { IsStartAfter (bits_of U L F) self.now bounds skip (end_level (bits_of U L F) self.now p) p result }
    {
        match end {
            End::Tile(Level::Upper, _) => self.start_after_key(bounds, skip, p),
            End::Tile(Level::Lower, _) => self.start_after_lower(bounds, skip, p, path, steps),
            End::Tile(Level::Leaf, _) => self.start_after_leaf(bounds, skip, p, path, steps),
            End::Leaf(_) => self.start_after_leaf(bounds, skip, p, path, steps),
        }
    }

    /// Returns the first coordinate past the leaf extent around `p`, which lies in a lower node.
    #[inline(always)]
    fn start_after_leaf(
        &self,
        bounds: Bounds,
        skip: Skip,
        p: Coord,
        path: PathOf<Internal<V, U, WU>, Internal<V, L, WL>, Leaf<V, F, WF>>,
        steps: &mut Steps,
    ) -> Option<Coord>
        requires inside { IsTrue (is_inside bounds p) }
        requires node { end_level (bits_of U L F) self.now p ≡ leaf_level }
        requires lives { Lives (bits_of U L F) self.now path p }
        ensures { IsStartAfter (bits_of U L F) self.now bounds skip leaf_level p result }
    {
        match self.start_in_lower(bounds, skip, p, path, steps) {
            Some(next) => Some(next),
            None => self.start_after_lower(bounds, skip, p, path, steps),
        }
    }

    /// Returns the first coordinate past the lower extent around `p`, which lies in an upper node.
    fn start_after_lower(
        &self,
        bounds: Bounds,
        skip: Skip,
        p: Coord,
        path: PathOf<Internal<V, U, WU>, Internal<V, L, WL>, Leaf<V, F, WF>>,
        steps: &mut Steps,
    ) -> Option<Coord>
        requires inside { IsTrue (is_inside bounds p) }
        requires node { end_level (bits_of U L F) self.now p ≡ Upper → ⊥ }
        requires lives { Lives (bits_of U L F) self.now path p }
        ensures { IsStartAfter (bits_of U L F) self.now bounds skip Lower p result }
    {
        match self.start_in_upper(bounds, skip, p, path, steps) {
            Some(next) => Some(next),
            None => self.start_after_key(bounds, skip, p),
        }
    }

    /// Returns the first coordinate past the leaf extent around `p` in the lower extent around it.
    #[inline(always)]
    fn start_in_lower(
        &self,
        bounds: Bounds,
        skip: Skip,
        p: Coord,
        path: PathOf<Internal<V, U, WU>, Internal<V, L, WL>, Leaf<V, F, WF>>,
        steps: &mut Steps,
    ) -> Option<Coord>
        requires inside { IsTrue (is_inside bounds p) }
        requires lives { Lives (bits_of U L F) self.now path p }
        ensures { IsJump (bits_of U L F) self.now skip bounds Lower leaf_level p result }
    {
        match path {
            PathOf::ToLower(_, lower) => self.start_in_lower_node(bounds, skip, p, lower, steps),
            PathOf::ToLeaf(_, lower, _) => self.start_in_lower_node(bounds, skip, p, lower, steps),
            _ => self.start_within(bounds, skip, Level::Lower, Level::Leaf, p),
        }
    }

    /// Returns the first coordinate past the lower extent around `p` in the upper extent around it.
    fn start_in_upper(
        &self,
        bounds: Bounds,
        skip: Skip,
        p: Coord,
        path: PathOf<Internal<V, U, WU>, Internal<V, L, WL>, Leaf<V, F, WF>>,
        steps: &mut Steps,
    ) -> Option<Coord>
        requires inside { IsTrue (is_inside bounds p) }
        requires lives { Lives (bits_of U L F) self.now path p }
        ensures { IsJump (bits_of U L F) self.now skip bounds Upper Lower p result }
    {
        match path {
            PathOf::Empty => self.start_within(bounds, skip, Level::Upper, Level::Lower, p),
            PathOf::ToUpper(upper) => self.start_in_upper_node(bounds, skip, p, upper, steps),
            PathOf::ToLower(upper, _) => self.start_in_upper_node(bounds, skip, p, upper, steps),
            PathOf::ToLeaf(upper, _, _) => self.start_in_upper_node(bounds, skip, p, upper, steps),
        }
    }

    /// Returns the first coordinate past the leaf extent around `p` in this lower node around it.
    #[inline(always)]
    fn start_in_lower_node(
        &self,
        bounds: Bounds,
        skip: Skip,
        p: Coord,
        lower: Place<Internal<V, L, WL>>,
        steps: &mut Steps,
    ) -> Option<Coord>
        requires inside { IsTrue (is_inside bounds p) }
        requires lower { IsChildAt self.now.lowers (upper_entry (bits_of U L F) self.now p) lower }
        ensures { IsJump (bits_of U L F) self.now skip bounds Lower leaf_level p result }
    {
        match skip {
            Skip::Absent => self.start_within(bounds, skip, Level::Lower, Level::Leaf, p),
            Skip::Background => match self.next_unlike_in_lower(p, lower, steps) {
                Some(entry) => self.start_of_entry(
                    bounds,
                    skip,
                    Level::Lower,
                    Level::Leaf,
                    p,
                    entry,
                ),
                None => None,
            },
            Skip::Inactive => match self.next_active_in_lower(p, lower, steps) {
                Some(entry) => self.start_of_entry(
                    bounds,
                    skip,
                    Level::Lower,
                    Level::Leaf,
                    p,
                    entry,
                ),
                None => None,
            },
        }
    }

    /// Returns the first coordinate past the lower extent around `p` in this upper node around it.
    fn start_in_upper_node(
        &self,
        bounds: Bounds,
        skip: Skip,
        p: Coord,
        upper: Place<Internal<V, U, WU>>,
        steps: &mut Steps,
    ) -> Option<Coord>
        requires inside { IsTrue (is_inside bounds p) }
        requires upper { IsChildAt self.now.uppers (root_entry (bits_of U L F) self.now p) upper }
        ensures { IsJump (bits_of U L F) self.now skip bounds Upper Lower p result }
    {
        match skip {
            Skip::Absent => self.start_within(bounds, skip, Level::Upper, Level::Lower, p),
            Skip::Background => match self.next_unlike_in_upper(p, upper, steps) {
                Some(entry) => self.start_of_entry(
                    bounds,
                    skip,
                    Level::Upper,
                    Level::Lower,
                    p,
                    entry,
                ),
                None => None,
            },
            Skip::Inactive => match self.next_active_in_upper(p, upper, steps) {
                Some(entry) => self.start_of_entry(
                    bounds,
                    skip,
                    Level::Upper,
                    Level::Lower,
                    p,
                    entry,
                ),
                None => None,
            },
        }
    }

    /// Returns the block of the first entry of this lower node around `p`, past that of `p`, that isn't a tile of the inactive
    /// background.
    fn next_unlike_in_lower(
        &self,
        p: Coord,
        lower: Place<Internal<V, L, WL>>,
        steps: &mut Steps,
    ) -> Option<Bounds>
        requires { IsChildAt self.now.lowers (upper_entry (bits_of U L F) self.now p) lower }
        ensures { IsNextPart (bits_of U L F) self.now Background Lower p result }
    {
        let _ = &self.root;
        let from = self.offset(p, Level::Lower) + 1;
        match self
            .lowers
            .at(lower, steps)
            .next_unlike(self.background_cell(), from)
        {
            Some(index) => Some(p.entry_block_in(self.bits(), Level::Lower, index as u16)),
            None => None,
        }
    }

    /// Returns the block of the first entry of this lower node around `p`, past that of `p`, that isn't an inactive tile.
    fn next_active_in_lower(
        &self,
        p: Coord,
        lower: Place<Internal<V, L, WL>>,
        steps: &mut Steps,
    ) -> Option<Bounds>
        requires { IsChildAt self.now.lowers (upper_entry (bits_of U L F) self.now p) lower }
        ensures { IsNextPart (bits_of U L F) self.now Inactive Lower p result }
    {
        let _ = &self.root;
        let from = self.offset(p, Level::Lower) + 1;
        match self.lowers.at(lower, steps).next_active(from) {
            Some(index) => Some(p.entry_block_in(self.bits(), Level::Lower, index as u16)),
            None => None,
        }
    }

    /// Returns the block of the first entry of this upper node around `p`, past that of `p`, that isn't a tile of the inactive
    /// background.
    fn next_unlike_in_upper(
        &self,
        p: Coord,
        upper: Place<Internal<V, U, WU>>,
        steps: &mut Steps,
    ) -> Option<Bounds>
        requires { IsChildAt self.now.uppers (root_entry (bits_of U L F) self.now p) upper }
        ensures { IsNextPart (bits_of U L F) self.now Background Upper p result }
    {
        let _ = &self.root;
        let from = self.offset(p, Level::Upper) + 1;
        match self
            .uppers
            .at(upper, steps)
            .next_unlike(self.background_cell(), from)
        {
            Some(index) => Some(p.entry_block_in(self.bits(), Level::Upper, index as u16)),
            None => None,
        }
    }

    /// Returns the block of the first entry of this upper node around `p`, past that of `p`, that isn't an inactive tile.
    fn next_active_in_upper(
        &self,
        p: Coord,
        upper: Place<Internal<V, U, WU>>,
        steps: &mut Steps,
    ) -> Option<Bounds>
        requires { IsChildAt self.now.uppers (root_entry (bits_of U L F) self.now p) upper }
        ensures { IsNextPart (bits_of U L F) self.now Inactive Upper p result }
    {
        let _ = &self.root;
        let from = self.offset(p, Level::Upper) + 1;
        match self.uppers.at(upper, steps).next_active(from) {
            Some(index) => Some(p.entry_block_in(self.bits(), Level::Upper, index as u16)),
            None => None,
        }
    }

    /// Returns the first coordinate that the box has in an entry of the outer level's node around `p`, or a coordinate before
    /// it if the box has nothing of that entry.
    fn start_of_entry(
        &self,
        bounds: Bounds,
        skip: Skip,
        outer: Level,
        level: Level,
        p: Coord,
        entry: Bounds,
    ) -> Option<Coord>
        requires inside { IsTrue (is_inside bounds p) }
        requires next_above { IsNextAbove outer level }
        ensures { IsNextPartAt (bits_of U L F) self.now skip outer p entry → IsJump (bits_of U L F) self.now skip bounds outer level p result }
    {
        match bounds.intersect(entry) {
            Some(part) => Some(part.min()),
            None => self.start_within(bounds, skip, outer, level, p),
        }
    }

    /// Returns the first coordinate of the box past the level's block around `p` that lies in the outer block around `p`.
    #[inline(always)]
    fn start_within(
        &self,
        bounds: Bounds,
        skip: Skip,
        outer: Level,
        level: Level,
        p: Coord,
    ) -> Option<Coord>
        requires inside { IsTrue (is_inside bounds p) }
        requires next_above { IsNextAbove outer level }
        ensures { IsJump (bits_of U L F) self.now skip bounds outer level p result }
    {
        let _ = skip;
        self.part(bounds, outer, p)
            .next_coord_in(self.bits(), level, p)
    }

    /// Returns the first coordinate under the keys past that of `p`.
    fn start_after_key(&self, bounds: Bounds, skip: Skip, p: Coord) -> Option<Coord>
        requires { IsTrue (is_inside bounds p) }
        ensures { IsStartAfter (bits_of U L F) self.now bounds skip Upper p result }
    {
        let _ = skip;
        let last = self.key(bounds.max());
        let mut passed = self.key(p);
        while let Some(key) = self.next_key(Some(passed)) {
            if last < key {
                return None;
            }
            let found = self.first_within_root(bounds, key);
            if found.is_some() {
                return found;
            }
            passed = key;
        }
        None
    }
}
