//! The voxels of a box, one after another.
ghost use Rattle.std.specs.Int.{int_gap};
ghost use Rattle.std.specs.Prelude.{◌≡◌, ◌+◌, ◌<◌, ◌^◌, ◌&&◌, IfSome, IsTrue, nat_le};
ghost use Rattle.vdb_coord.specs.Space.{coord, is_inside};
ghost use Rattle.vdb_coord.specs.Walk.{coordinates_after};
ghost use Rattle.vdb_c.specs.BoxVoxels.{IsNextVoxel};

use crate::boxes::elements::{gap, gaps};
use vdb_coord::{Bounds, Coord};

/// Returns the next voxel of a box, by x, then y, then z: `None` after the last one.
pub(crate) fn next_voxel(bounds: Bounds, p: Coord) -> Option<Coord>
    requires { IsTrue (is_inside bounds p) }
    ensures next { IsNextVoxel bounds p result }
    ensures nearer { IfSome result (λ next. coordinates_after next < coordinates_after p) }
{
    let (min, max) = (bounds.min(), bounds.max());
    if p.z < max.z {
        return Some(Coord {
            x: p.x,
            y: p.y,
            z: p.z + 1,
        });
    }
    if p.y < max.y {
        return Some(Coord {
            x: p.x,
            y: p.y + 1,
            z: min.z,
        });
    }
    if p.x < max.x {
        return Some(Coord {
            x: p.x + 1,
            y: min.y,
            z: min.z,
        });
    }
    None
}

/// Returns the last voxel of a box along z from one on.
pub(crate) fn row_end(bounds: Bounds, p: Coord) -> Coord
    requires { IsTrue (is_inside bounds p) }
    ensures value { result ≡ coord p.x p.y bounds.max.z }
    ensures inside { IsTrue (is_inside bounds result) }
{
    let max = bounds.max();
    Coord {
        x: p.x,
        y: p.y,
        z: max.z,
    }
}

/// Returns how many voxels a box has along z from one on.
pub(crate) fn row_size(bounds: Bounds, p: Coord) -> usize
    requires { IsTrue (is_inside bounds p) }
    ensures value { result ≡ int_gap p.z bounds.max.z + 1 }
    ensures small { result < 2 ^ 33 }
{
    let max = bounds.max();
    gap(p.z, max.z) + 1
}

/// Returns whether a box has as many voxels along each axis as a leaf, or more.
pub(crate) fn is_wide(bounds: Bounds) -> bool
    ensures { result ≡ (nat_le 7 (int_gap bounds.min.x bounds.max.x) && (nat_le 7 (int_gap bounds.min.y bounds.max.y) && nat_le 7 (int_gap bounds.min.z bounds.max.z))) }
{
    let min = bounds.min();
    let (dx, dy, dz) = gaps(min, bounds.max());
    dx >= 7 && (dy >= 7 && dz >= 7)
}
