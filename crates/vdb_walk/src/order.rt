//! Orders the coordinates of a box in block order.

ghost use Rattle.std.specs.Prelude.{◌≡◌, IsTrue, Some};
ghost use Rattle.vdb_coord.specs.Blocks.{is_past};
ghost use Rattle.vdb_coord.specs.Entries.{AreBits};
ghost use Rattle.vdb_coord.specs.Space.{is_inside};
ghost use Rattle.vdb_walk.specs.internal.Firsts.{IsFirst, IsNextVoxel, IsPastLast};

use crate::halves::halves;
use vdb_coord::{Bits, Bounds, Coord, Level};

/// Returns whether a coordinate comes past the last one in block order. Each coordinate does if `last` is `None`.
pub(crate) fn is_past(bits: Bits, last: Option<Coord>, p: Coord) -> bool
    requires { AreBits bits }
    ensures { result ≡ is_past bits last p }
{
    match last {
        Some(last) => last.block_cmp_in(bits, &p).is_lt(),
        None => true,
    }
}

/// Returns the first coordinate of the part past the last one, in block order.
pub(crate) fn first_past(bits: Bits, last: Option<Coord>, part: Bounds) -> Option<Coord>
    requires { AreBits bits }
    ensures { IsFirst bits (IsPastLast bits last) part result }
{
    match last {
        Some(p) => {
            if part.contains(p) {
                next_in(bits, part, p)
            } else {
                first_beyond(bits, last, part)
            }
        }
        None => first_beyond(bits, last, part),
    }
}

/// Returns the first coordinate of the part past `p`, which lies in it, in block order: in the leaf block around `p`, or else in
/// the next.
fn next_in(bits: Bits, part: Bounds, p: Coord) -> Option<Coord>
    requires bits { AreBits bits }
    requires inside { IsTrue (is_inside part p) }
    ensures { IsFirst bits (IsPastLast bits (Some p)) part result }
{
    match part.intersect(p.block_in(bits, Level::Leaf)) {
        Some(near) => match next_voxel(near, p) {
            Some(next) => Some(next),
            None => part.next_coord_in(bits, Level::Leaf, p),
        },
        None => unreachable!(),
    }
}

/// Returns the first coordinate of the part past `p`, which lies in it: by x, then by y, then by z.
fn next_voxel(part: Bounds, p: Coord) -> Option<Coord>
    requires { IsTrue (is_inside part p) }
    ensures { IsNextVoxel part p result }
{
    let (least, most) = (part.min(), part.max());
    if p.z < most.z {
        return Some(Coord {
            x: p.x,
            y: p.y,
            z: p.z + 1,
        });
    }
    if p.y < most.y {
        return Some(Coord {
            x: p.x,
            y: p.y + 1,
            z: least.z,
        });
    }
    if p.x < most.x {
        return Some(Coord {
            x: p.x + 1,
            y: least.y,
            z: least.z,
        });
    }
    None
}

/// Returns the first coordinate of the part past the last one, also if the last one lies outside the part. It halves the part
/// until its least corner, which is its first coordinate, comes past the last one.
fn first_beyond(bits: Bits, last: Option<Coord>, part: Bounds) -> Option<Coord>
    requires { AreBits bits }
    ensures { IsFirst bits (IsPastLast bits last) part result }
{
    if is_past(bits, last, part.min()) {
        return Some(part.min());
    }
    if !is_past(bits, last, part.max()) {
        return None;
    }
    let Some((first, second)) = halves(part, bits) else {
        unreachable!()
    };
    match first_beyond(bits, last, first) {
        Some(p) => Some(p),
        None => first_beyond(bits, last, second),
    }
}
