//! The rings around a box, and their sides.

ghost use Rattle.std.specs.Prelude.{◌≡◌, ◌&&◌, false, IfNone, IfSome};
ghost use Rattle.vdb_coord.specs.Entries.{AreBits};
ghost use Rattle.vdb_coord.specs.Space.{everywhere, is_inside};
ghost use Rattle.vdb_coord.specs.declared.Coord.{Coord};
ghost use Rattle.vdb_region.specs.internal.Beyond.{is_beyond};
ghost use Rattle.vdb_region.specs.internal.Rings.{hull as hull_of, inner as inner_of, outer as outer_of};

use crate::beyond::half;
use vdb_coord::{Bits, Bounds, Coord, Face, Level};

/// One of the rings around a box: from the box out to the blocks that meet it, level by level, and on to the end of
/// the range. A tree that is split for the box and the background cell is split for each side of each ring, too: a
/// block that the edge of the box crosses is no tile, or a tile of the background cell.
#[derive(Clone, Copy, Debug, PartialEq, Eq)]
pub(crate) enum Ring {
    /// Around all upper extents that meet the box.
    AroundRoots,
    /// Within the upper extents that meet the box, around the lower extents that meet it.
    WithinRoots,
    /// Within the lower extents that meet the box, around the leaf extents that meet it.
    WithinLowers,
    /// Within the leaf extents that meet the box, around the box.
    WithinLeaves,
}

/// Returns the blocks of the level that meet the box, as one box.
fn hull(bits: Bits, level: Level, bounds: Bounds) -> Bounds
    requires { AreBits bits }
    ensures { result ≡ hull_of bits level bounds }
{
    let min = bounds.min().block_in(bits, level).min();
    let max = bounds.max().block_in(bits, level).max();
    match Bounds::new(min, max) {
        Some(hull) => hull,
        None => unreachable!(),
    }
}

/// Returns the box of all coordinates.
fn space() -> Bounds
    ensures { result ≡ everywhere }
{
    let first = Coord {
        x: i32::MIN,
        y: i32::MIN,
        z: i32::MIN,
    };
    let last = Coord {
        x: i32::MAX,
        y: i32::MAX,
        z: i32::MAX,
    };
    match Bounds::new(first, last) {
        Some(space) => space,
        None => unreachable!(),
    }
}

/// Returns the outer box of a ring.
fn outer(bits: Bits, bounds: Bounds, ring: Ring) -> Bounds
    requires { AreBits bits }
    ensures { result ≡ outer_of bits bounds ring }
{
    match ring {
        Ring::AroundRoots => space(),
        Ring::WithinRoots => hull(bits, Level::Upper, bounds),
        Ring::WithinLowers => hull(bits, Level::Lower, bounds),
        Ring::WithinLeaves => hull(bits, Level::Leaf, bounds),
    }
}

/// Returns the inner box of a ring.
fn inner(bits: Bits, bounds: Bounds, ring: Ring) -> Bounds
    requires { AreBits bits }
    ensures { result ≡ inner_of bits bounds ring }
{
    match ring {
        Ring::AroundRoots => hull(bits, Level::Upper, bounds),
        Ring::WithinRoots => hull(bits, Level::Lower, bounds),
        Ring::WithinLowers => hull(bits, Level::Leaf, bounds),
        Ring::WithinLeaves => bounds,
    }
}

/// Returns the part of the ring past the face of its inner box, or `None` if that part is empty.
pub(crate) fn side(bits: Bits, bounds: Bounds, ring: Ring, face: Face) -> Option<Bounds>
    requires { AreBits bits }
    ensures some { IfSome result (λ s. (q : Coord) → is_inside s q ≡ (is_inside (outer_of bits bounds ring) q && is_beyond (inner_of bits bounds ring) q face)) }
    ensures none { IfNone result ((q : Coord) → (is_inside (outer_of bits bounds ring) q && is_beyond (inner_of bits bounds ring) q face) ≡ false) }
{
    let around = outer(bits, bounds, ring);
    let _ = around.min(); // the proof learns from it that the box lies within the range
    match half(inner(bits, bounds, ring), face) {
        Some(half) => half.intersect(around),
        None => None,
    }
}
