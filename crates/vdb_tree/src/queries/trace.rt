//! Paths of nodes, and reads and writes of cells by the paths that earlier calls returned.

ghost use Rattle.std.specs.Option.{is_some};
ghost use Rattle.std.specs.Prelude.{◌≡◌, ◌&&◌, ◌+◌, ◌-◌, ◌≤◌, false, if◌then◌else◌, IfSome, IsTrue};
ghost use Rattle.vdb_coord.specs.Blocks.{block_number};
ghost use Rattle.vdb_coord.specs.Space.{coord_eq};
ghost use Rattle.vdb_coord.specs.declared.Coord.{Coord};
ghost use Rattle.vdb_tree.specs.Field.{write, written};
ghost use Rattle.vdb_tree.specs.Layout.{bits_of, cell_at, field_of, lower_entry, root_entry, upper_entry};
ghost use Rattle.vdb_tree.specs.Leaves.{IsVoxelWritten};
ghost use Rattle.vdb_tree.specs.Nodes.{KeepsElsewhere};
ghost use Rattle.vdb_tree.specs.Paths.{common, common_lower, common_upper, depth, down_count, ends_in_leaf, ends_in_lower, in_leaf, IsChildAt, IsWhole, Lives, TreePath};

use crate::{PathOf, TreeOf, Write};
use vdb_coord::{Coord, Level};
use vdb_node::{Entry, Internal, Leaf, Stored};
use vdb_pool::{Place, Steps};
use vdb_value::Cell;

impl<
    V: Stored<WU> + Stored<WL> + Stored<WF>,
    const U: u32,
    const L: u32,
    const F: u32,
    const WU: usize,
    const WL: usize,
    const WF: usize,
> TreeOf<V, U, L, F, WU, WL, WF> {
    /// Returns the path from the root down to a coordinate, as far as there are nodes, by at most three node visits.
    pub fn trace(
        &self,
        p: Coord,
        steps: &mut Steps,
    ) -> PathOf<Internal<V, U, WU>, Internal<V, L, WL>, Leaf<V, F, WF>>
        ensures whole { IsWhole (bits_of U L F) self.now result p }
        ensures steps { steps.new ≤ steps.old + 3 }
    {
        let mut path = PathOf::Empty;
        self.descend_from_root(&mut path, p, steps);
        path
    }

    /// Returns the cell at `p`, by the descent from the lowest node of the path to `q` that contains `p`; this visits that
    /// node, too. It sets `path` to the path to `p` (OpenVDB's `ValueAccessor::getValue` does this with the nodes that it
    /// caches).
    #[inline(always)]
    pub fn descend(
        &self,
        path: &mut PathOf<Internal<V, U, WU>, Internal<V, L, WL>, Leaf<V, F, WF>>,
        q: Coord,
        p: Coord,
        steps: &mut Steps,
    ) -> Cell<V>
        requires { Lives (bits_of U L F) self.now path.old q }
        ensures cell { result ≡ (field_of (bits_of U L F) self.now).cell p }
        ensures whole { IsWhole (bits_of U L F) self.now path.new p }
        ensures steps { steps.new ≤ steps.old + (down_count (bits_of U L F) self.now p - (depth (common (bits_of U L F) q p path.old) - 1)) }
    {
        let common = self.shared(*path, q, p);
        self.descend_from(common, path, p, steps)
    }

    /// Writes the voxel at `p`, by one node visit and without memory, if the path to `q` ends in a leaf that contains `p`.
    /// Returns whether it does; if not, nothing changes and this visits no node. Every path stays whole (OpenVDB's
    /// `ValueAccessor::setValue` in its cached leaf).
    #[inline(always)]
    pub fn write_near(
        &mut self,
        path: &PathOf<Internal<V, U, WU>, Internal<V, L, WL>, Leaf<V, F, WF>>,
        q: Coord,
        p: Coord,
        change: Write<V>,
        steps: &mut Steps,
    ) -> bool
        requires { Lives (bits_of U L F) self.old path.now q }
        ensures answer { result ≡ ends_in_leaf (common (bits_of U L F) q p path.now) }
        ensures field { IsTrue result → field_of (bits_of U L F) self.new ≡ write p change (field_of (bits_of U L F) self.old) }
        ensures alone { IsTrue result → IsVoxelWritten (bits_of U L F) self.old self.new p (written change ((field_of (bits_of U L F) self.old).cell p)) }
        ensures elsewhere { KeepsElsewhere (bits_of U L F) self.old self.new p }
        ensures untouched { result ≡ false → self.new ≡ self.old }
        ensures limit { self.new.limit ≡ self.old.limit }
        ensures paths { (other : TreePath V) (r : Coord) → IsWhole (bits_of U L F) self.old other r → IsWhole (bits_of U L F) self.new other r }
        ensures steps { steps.new ≤ steps.old + (if result then 1 else 0) }
    {
        match self.near_leaf(path, q, p) {
            Some(leaf) => {
                self.write_voxel_at(leaf, p, change, steps);
                true
            }
            None => false,
        }
    }

    /// Returns the cell at `p`, by one node visit, if the path to `q` ends in a leaf that contains `p`. Otherwise returns
    /// `None` and visits no node (OpenVDB's `ValueAccessor::getValue` in its cached leaf).
    #[inline(always)]
    pub fn cell_near(
        &self,
        path: &PathOf<Internal<V, U, WU>, Internal<V, L, WL>, Leaf<V, F, WF>>,
        q: Coord,
        p: Coord,
        steps: &mut Steps,
    ) -> Option<Cell<V>>
        requires { Lives (bits_of U L F) self.now path.now q }
        ensures answer { is_some result ≡ ends_in_leaf (common (bits_of U L F) q p path.now) }
        ensures cell { IfSome result (λ cell. cell ≡ (field_of (bits_of U L F) self.now).cell p) }
        ensures steps { steps.new ≤ steps.old + (if is_some result then 1 else 0) }
    {
        let leaf = self.near_leaf(path, q, p)?;
        Some(self.voxel_at(leaf, p, steps))
    }

    /// Writes the voxel at `p`, by at most two node visits and without memory, if the lowest node of the path to `q` that contains
    /// `p` is a lower node, and `p` has a leaf. `path` is then the path to `p`. Returns whether this is so; if not, nothing changes.
    /// Every path stays whole (OpenVDB's `ValueAccessor::setValue` in its cached internal node).
    #[inline(always)]
    pub fn write_in_lower(
        &mut self,
        path: &mut PathOf<Internal<V, U, WU>, Internal<V, L, WL>, Leaf<V, F, WF>>,
        q: Coord,
        p: Coord,
        change: Write<V>,
        steps: &mut Steps,
    ) -> bool
        requires { Lives (bits_of U L F) self.old path.old q }
        ensures answer { result ≡ (ends_in_lower (common (bits_of U L F) q p path.old) && in_leaf (bits_of U L F) self.old p) }
        ensures field { IsTrue result → field_of (bits_of U L F) self.new ≡ write p change (field_of (bits_of U L F) self.old) }
        ensures alone { IsTrue result → IsVoxelWritten (bits_of U L F) self.old self.new p (written change ((field_of (bits_of U L F) self.old).cell p)) }
        ensures elsewhere { KeepsElsewhere (bits_of U L F) self.old self.new p }
        ensures whole { IsTrue result → IsWhole (bits_of U L F) self.new path.new p }
        ensures untouched { result ≡ false → (self.new ≡ self.old) × (path.new ≡ path.old) }
        ensures limit { self.new.limit ≡ self.old.limit }
        ensures paths { (other : TreePath V) (r : Coord) → IsWhole (bits_of U L F) self.old other r → IsWhole (bits_of U L F) self.new other r }
        ensures steps { steps.new ≤ steps.old + ((if ends_in_lower (common (bits_of U L F) q p path.old) then 1 else 0) + (if result then 1 else 0)) }
    {
        match self.shared(*path, q, p) {
            PathOf::ToLower(upper, lower) => match self.lower_entry_at(lower, p, steps) {
                Entry::Child(slot) => {
                    let leaf = self.leaf_place(slot, p);
                    *path = PathOf::ToLeaf(upper, lower, leaf);
                    self.write_voxel_at(leaf, p, change, steps);
                    true
                }
                Entry::Tile(_) => false,
            },
            _ => false,
        }
    }

    /// Returns the leaf in which the path to `q` ends, if it contains `p`.
    #[inline(always)]
    fn near_leaf(
        &self,
        path: &PathOf<Internal<V, U, WU>, Internal<V, L, WL>, Leaf<V, F, WF>>,
        q: Coord,
        p: Coord,
    ) -> Option<Place<Leaf<V, F, WF>>>
        requires { Lives (bits_of U L F) self.now path.now q }
        ensures answer { is_some result ≡ ends_in_leaf (common (bits_of U L F) q p path.now) }
        ensures leaf { IfSome result (λ leaf. IsChildAt self.now.leaves (lower_entry (bits_of U L F) self.now p) leaf) }
    {
        match path {
            PathOf::ToLeaf(_, _, leaf) => {
                if self.is_same_block(q, p, Level::Leaf) {
                    Some(*leaf)
                } else {
                    None
                }
            }
            PathOf::ToLower(_, _) => None,
            PathOf::ToUpper(_) => None,
            PathOf::Empty => None,
        }
    }

    /// Returns the nodes of the path to `q` that contain `p`.
    #[inline(always)]
    pub(crate) fn shared(
        &self,
        path: PathOf<Internal<V, U, WU>, Internal<V, L, WL>, Leaf<V, F, WF>>,
        q: Coord,
        p: Coord,
    ) -> PathOf<Internal<V, U, WU>, Internal<V, L, WL>, Leaf<V, F, WF>>
        requires { Lives (bits_of U L F) self.now path q }
        ensures value { result ≡ common (bits_of U L F) q p path }
        ensures lives { Lives (bits_of U L F) self.now result p }
    {
        self.common(path, q, p)
    }

    /// Returns the nodes of the path to `q` that contain `p`, even if some of them don't live.
    #[inline(always)]
    fn common(
        &self,
        path: PathOf<Internal<V, U, WU>, Internal<V, L, WL>, Leaf<V, F, WF>>,
        q: Coord,
        p: Coord,
    ) -> PathOf<Internal<V, U, WU>, Internal<V, L, WL>, Leaf<V, F, WF>>
        ensures { result ≡ common (bits_of U L F) q p path }
    {
        match path {
            PathOf::ToLeaf(upper, lower, _) => {
                if self.is_same_block(q, p, Level::Leaf) {
                    path
                } else {
                    self.common_lower(upper, lower, q, p)
                }
            }
            PathOf::ToLower(upper, lower) => self.common_lower(upper, lower, q, p),
            PathOf::ToUpper(upper) => self.common_upper(upper, q, p),
            PathOf::Empty => path,
        }
    }

    /// Returns those of these two nodes around `q` that contain `p`.
    #[inline(always)]
    fn common_lower(
        &self,
        upper: Place<Internal<V, U, WU>>,
        lower: Place<Internal<V, L, WL>>,
        q: Coord,
        p: Coord,
    ) -> PathOf<Internal<V, U, WU>, Internal<V, L, WL>, Leaf<V, F, WF>>
        ensures { result ≡ common_lower (bits_of U L F) q p upper lower }
    {
        if self.is_same_block(q, p, Level::Lower) {
            PathOf::ToLower(upper, lower)
        } else {
            self.common_upper(upper, q, p)
        }
    }

    /// Returns this upper node around `q`, if it contains `p`.
    #[inline(always)]
    fn common_upper(
        &self,
        upper: Place<Internal<V, U, WU>>,
        q: Coord,
        p: Coord,
    ) -> PathOf<Internal<V, U, WU>, Internal<V, L, WL>, Leaf<V, F, WF>>
        ensures { result ≡ common_upper (bits_of U L F) q p upper }
    {
        if self.is_same_block(q, p, Level::Upper) {
            PathOf::ToUpper(upper)
        } else {
            PathOf::Empty
        }
    }

    /// Returns whether one block of the level holds both coordinates.
    #[inline(always)]
    fn is_same_block(&self, q: Coord, p: Coord, level: Level) -> bool
        ensures { result ≡ coord_eq (block_number (bits_of U L F) level q) (block_number (bits_of U L F) level p) }
    {
        let bits = self.bits();
        let a = q.block_number_in(bits, level);
        let b = p.block_number_in(bits, level);
        (a.x == b.x) & (a.y == b.y) & (a.z == b.z) // one branch for the three
    }

    /// Returns the cell at `p`, by the descent from the last of some nodes around `p`, or from the root if there is none. It
    /// sets `path` to the path to `p`.
    #[inline(always)]
    fn descend_from(
        &self,
        nodes: PathOf<Internal<V, U, WU>, Internal<V, L, WL>, Leaf<V, F, WF>>,
        path: &mut PathOf<Internal<V, U, WU>, Internal<V, L, WL>, Leaf<V, F, WF>>,
        p: Coord,
        steps: &mut Steps,
    ) -> Cell<V>
        requires { Lives (bits_of U L F) self.now nodes p }
        ensures cell { cell_at (bits_of U L F) self.now p ≡ result }
        ensures whole { IsWhole (bits_of U L F) self.now path.new p }
        ensures steps { steps.new ≤ steps.old + (down_count (bits_of U L F) self.now p - (depth nodes - 1)) }
    {
        match nodes {
            PathOf::Empty => self.descend_from_root(path, p, steps),
            PathOf::ToUpper(upper) => self.descend_from_upper(path, upper, p, steps),
            PathOf::ToLower(upper, lower) => self.descend_from_lower(path, upper, lower, p, steps),
            PathOf::ToLeaf(upper, lower, leaf) => self.descend_from_leaf(
                path, upper, lower, leaf, p, steps,
            ),
        }
    }

    /// Returns the cell at `p`, by the descent from the root. It sets `path` to the path to `p`, as do the descents from an
    /// upper node, a lower node and a leaf.
    #[tactic(auto, unfolding(crate::specs::Layout::cell_at))]
    fn descend_from_root(
        &self,
        path: &mut PathOf<Internal<V, U, WU>, Internal<V, L, WL>, Leaf<V, F, WF>>,
        p: Coord,
        steps: &mut Steps,
    ) -> Cell<V>
        ensures cell { cell_at (bits_of U L F) self.now p ≡ result }
        ensures whole { IsWhole (bits_of U L F) self.now path.new p }
        ensures steps { steps.new ≤ steps.old + down_count (bits_of U L F) self.now p }
    {
        match self.root_entry(p) {
            Entry::Tile(cell) => {
                *path = PathOf::Empty;
                cell
            }
            Entry::Child(slot) => {
                let upper = self.upper_place(slot, p);
                self.descend_from_upper(path, upper, p, steps)
            }
        }
    }

    #[tactic(auto, unfolding(crate::specs::Layout::cell_at))]
    fn descend_from_upper(
        &self,
        path: &mut PathOf<Internal<V, U, WU>, Internal<V, L, WL>, Leaf<V, F, WF>>,
        upper: Place<Internal<V, U, WU>>,
        p: Coord,
        steps: &mut Steps,
    ) -> Cell<V>
        requires { IsChildAt self.now.uppers (root_entry (bits_of U L F) self.now p) upper }
        ensures cell { cell_at (bits_of U L F) self.now p ≡ result }
        ensures whole { IsWhole (bits_of U L F) self.now path.new p }
        ensures steps { steps.new ≤ steps.old + down_count (bits_of U L F) self.now p }
    {
        match self.upper_entry_at(upper, p, steps) {
            Entry::Tile(cell) => {
                *path = PathOf::ToUpper(upper);
                cell
            }
            Entry::Child(slot) => {
                let lower = self.lower_place(slot, p);
                self.descend_from_lower(path, upper, lower, p, steps)
            }
        }
    }

    #[inline(always)]
    #[tactic(auto, unfolding(crate::specs::Layout::cell_at))]
    fn descend_from_lower(
        &self,
        path: &mut PathOf<Internal<V, U, WU>, Internal<V, L, WL>, Leaf<V, F, WF>>,
        upper: Place<Internal<V, U, WU>>,
        lower: Place<Internal<V, L, WL>>,
        p: Coord,
        steps: &mut Steps,
    ) -> Cell<V>
        requires upper { IsChildAt self.now.uppers (root_entry (bits_of U L F) self.now p) upper }
        requires lower { IsChildAt self.now.lowers (upper_entry (bits_of U L F) self.now p) lower }
        ensures cell { cell_at (bits_of U L F) self.now p ≡ result }
        ensures whole { IsWhole (bits_of U L F) self.now path.new p }
        ensures steps { steps.new ≤ steps.old + (down_count (bits_of U L F) self.now p - 1) }
    {
        match self.lower_entry_at(lower, p, steps) {
            Entry::Tile(cell) => {
                *path = PathOf::ToLower(upper, lower);
                cell
            }
            Entry::Child(slot) => {
                let leaf = self.leaf_place(slot, p);
                self.descend_from_leaf(path, upper, lower, leaf, p, steps)
            }
        }
    }

    #[inline(always)]
    fn descend_from_leaf(
        &self,
        path: &mut PathOf<Internal<V, U, WU>, Internal<V, L, WL>, Leaf<V, F, WF>>,
        upper: Place<Internal<V, U, WU>>,
        lower: Place<Internal<V, L, WL>>,
        leaf: Place<Leaf<V, F, WF>>,
        p: Coord,
        steps: &mut Steps,
    ) -> Cell<V>
        requires upper { IsChildAt self.now.uppers (root_entry (bits_of U L F) self.now p) upper }
        requires lower { IsChildAt self.now.lowers (upper_entry (bits_of U L F) self.now p) lower }
        requires leaf { IsChildAt self.now.leaves (lower_entry (bits_of U L F) self.now p) leaf }
        ensures cell { cell_at (bits_of U L F) self.now p ≡ result }
        ensures whole { IsWhole (bits_of U L F) self.now path.new p }
        ensures steps { steps.new ≤ steps.old + 1 }
    {
        *path = PathOf::ToLeaf(upper, lower, leaf);
        self.voxel_at(leaf, p, steps)
    }
}
