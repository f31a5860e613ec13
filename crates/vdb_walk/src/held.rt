//! Defines the part of a tree that a listing is in.

ghost use Rattle.std.specs.Prelude.{◌≡◌, ◌<◌, ◌≤◌, ◌+◌, ◌%◌, ◌<ℤ◌, ◌+ℤ◌, pos, slice_index_or};
ghost use Rattle.vdb_coord.specs.Space.{coord};
ghost use Rattle.vdb_walk.specs.internal.Listings.{tile_of};

use vdb_coord::{Bounds, Coord};
use vdb_tree::{Content, Part};
use vdb_value::Cell;

/// A part of a tree without its leaf: its bounds, and its cell if it is part of a tile.
#[derive(Clone, Copy)]
pub(crate) struct Held<V> {
    pub(crate) bounds: Bounds,
    pub(crate) tile: Option<Cell<V>>,
}

/// A run of voxels of a leaf that follow one another along z: their entries, from `entry` on and below `end`, and the values of
/// eight entries, the value of each at the rest of the entry by eight.
#[derive(Clone, Copy)]
pub(crate) struct Run<V> {
    pub(crate) entry: u32,
    pub(crate) end: u32,
    pub(crate) values: [V; 8],
}

impl<V: Copy> Run<V> {
    /// Returns a run of no voxel.
    pub(crate) fn empty(value: V) -> Run<V>
        ensures { result.end ≤ result.entry }
    {
        Run {
            entry: 0,
            end: 0,
            values: [value; 8],
        }
    }

    /// Takes the first voxel of the run, which follows `p` along z, and returns it with its value.
    #[inline(always)]
    pub(crate) fn step(&mut self, p: Coord) -> (Coord, V)
        requires some { self.old.entry < self.old.end }
        requires fits { p.z <ℤ pos 2147483647 }
        ensures voxel { result.0 ≡ coord p.x p.y (p.z +ℤ pos 1) }
        ensures value { (e : V) → slice_index_or self.old.values (self.old.entry % 8) e ≡ result.1 }
        ensures rest { self.new ≡ record self.old { entry = self.old.entry + 1 } }
    {
        let value = self.values[(self.entry % 8) as usize];
        self.entry += 1;
        let mut next = p;
        next.z += 1;
        (next, value)
    }
}

/// Returns the part without its leaf.
pub(crate) fn without_leaf<V: Copy, L: Copy>(part: &Part<V, L>) -> Held<V>
    ensures bounds { result.bounds ≡ part.now.bounds }
    ensures tile { result.tile ≡ tile_of part.now.content }
{
    let bounds = part.bounds;
    match part.content {
        Content::Tile(cell) => Held {
            bounds,
            tile: Some(cell),
        },
        Content::Leaf(_) => Held { bounds, tile: None },
    }
}
