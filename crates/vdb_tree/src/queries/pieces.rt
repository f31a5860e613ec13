//! The blocks of one cell that make up a tree.

ghost use Rattle.std.specs.Prelude.{◌≡◌, ◌+◌, ◌≤◌, IsTrue};
ghost use Rattle.vdb_coord.specs.Blocks.{block_around};
ghost use Rattle.vdb_coord.specs.Space.{is_inside};
ghost use Rattle.vdb_coord.specs.declared.Coord.{Coord};
ghost use Rattle.vdb_node.specs.declared.Entry.TheVariants.{Child, Tile};
ghost use Rattle.vdb_tree.specs.Layout.{bits_of, entry_over, field_of, lower_entry};
ghost use Rattle.vdb_tree.specs.Paths.{in_leaf};
ghost use Rattle.vdb_tree.specs.Pieces.{piece_around};

use crate::TreeOf;
use vdb_coord::{Bounds, Coord, Level};
use vdb_node::{Entry, Stored};
use vdb_pool::Steps;
use vdb_value::Cell;

/// A box of coordinates that all have one cell: a tile's block, or one voxel (OpenVDB's value iterators point at these, and
/// their `getBoundingBox` gives the box).
#[derive(Clone, Copy, Debug, PartialEq, Eq)]
pub struct Piece<V> {
    /// The coordinates of the box.
    pub bounds: Bounds,
    /// The cell of each coordinate.
    pub cell: Cell<V>,
}

impl<
    V: Stored<WU> + Stored<WL> + Stored<WF>,
    const U: u32,
    const L: u32,
    const F: u32,
    const WU: usize,
    const WL: usize,
    const WF: usize,
> TreeOf<V, U, L, F, WU, WL, WF> {
    /// Returns the piece where the descent to a coordinate ends, by at most three node visits: a tile's block, the voxel itself
    /// in a leaf, or the upper extent if the root table has no entry. It holds the coordinate, and may be smaller than the
    /// largest box with that cell.
    pub fn piece(&self, p: Coord, steps: &mut Steps) -> Piece<V>
        ensures bounds { result.bounds ≡ piece_around (bits_of U L F) self.now p }
        ensures holds { IsTrue (is_inside result.bounds p) }
        ensures cells { (q : Coord) → IsTrue (is_inside result.bounds q) → (field_of (bits_of U L F) self.now).cell q ≡ result.cell }
        ensures steps { steps.new ≤ steps.old + 3 }
    {
        let upper = match self.root_entry(p) {
            Entry::Tile(cell) => return self.tile_piece(p, Level::Upper, cell),
            Entry::Child(slot) => slot,
        };
        let lower = match self.upper_entry(upper, p, steps) {
            Entry::Tile(cell) => return self.tile_piece(p, Level::Lower, cell),
            Entry::Child(slot) => slot,
        };
        let leaf = match self.lower_entry(lower, p, steps) {
            Entry::Tile(cell) => return self.tile_piece(p, Level::Leaf, cell),
            Entry::Child(slot) => slot,
        };
        self.voxel_piece(leaf, p, steps)
    }

    /// Returns whether there is a leaf over a coordinate, by at most two node visits, because this doesn't visit the leaf
    /// itself (whether OpenVDB's `Tree::probeConstLeaf` finds one).
    pub fn leaf_at(&self, p: Coord, steps: &mut Steps) -> bool
        ensures answer { result ≡ in_leaf (bits_of U L F) self.now p }
        ensures steps { steps.new ≤ steps.old + 2 }
    {
        match self.leaf_entry(p, steps) {
            Entry::Child(_) => true,
            Entry::Tile(_) => false,
        }
    }

    /// Returns the block of the level around p, which is a tile's block.
    fn tile_piece(&self, p: Coord, level: Level, cell: Cell<V>) -> Piece<V>
        requires { entry_over (bits_of U L F) level self.now p ≡ Tile cell }
        ensures bounds { result.bounds ≡ block_around (bits_of U L F) level p }
        ensures holds { IsTrue (is_inside result.bounds p) }
        ensures cells { (q : Coord) → IsTrue (is_inside result.bounds q) → (field_of (bits_of U L F) self.now).cell q ≡ result.cell }
    {
        let _ = &self.root;
        let bounds = p.block_in(self.bits(), level);
        Piece { bounds, cell }
    }

    /// Returns the voxel p of the leaf around it.
    fn voxel_piece(&self, leaf: u32, p: Coord, steps: &mut Steps) -> Piece<V>
        requires { lower_entry (bits_of U L F) self.now p ≡ Child leaf }
        ensures bounds { result.bounds ≡ record { min = p; max = p } }
        ensures holds { IsTrue (is_inside result.bounds p) }
        ensures cells { (q : Coord) → IsTrue (is_inside result.bounds q) → (field_of (bits_of U L F) self.now).cell q ≡ result.cell }
        ensures steps { steps.new ≤ steps.old + 1 }
    {
        let bounds = single(p);
        let cell = self.voxel(leaf, p, steps);
        Piece { bounds, cell }
    }
}

/// Returns the box of one coordinate.
fn single(p: Coord) -> Bounds
    ensures { result ≡ record { min = p; max = p } }
{
    match Bounds::new(p, p) {
        Some(bounds) => bounds,
        None => unreachable!(),
    }
}
