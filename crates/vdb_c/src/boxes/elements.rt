//! The elements of the voxels of a box in an array.
ghost use Rattle.std.specs.Int.{int_gap};
ghost use Rattle.std.specs.Prelude.{◌≡◌, ◌*◌, ◌<◌, ◌^◌, IsTrue, int_le};
ghost use Rattle.vdb_coord.specs.Space.{is_inside};
ghost use Rattle.vdb_c.specs.Elements.{are_apart as are_voxels_apart, are_nested as are_axes_nested, axis_x, axis_y, axis_z, has_places as has_a_place, is_past as is_axis_past, place as place_of, span as span_of};

use vdb_coord::{Bounds, Coord};

/// How many elements of an array lie from a voxel to the next one along each axis.
#[repr(C)]
#[derive(Clone, Copy)]
pub struct Strides {
    pub x: usize,
    pub y: usize,
    pub z: usize,
}

/// How far the greatest corner of a box is past the least one along an axis, and the stride along it.
#[derive(Clone, Copy)]
pub(crate) struct Axis {
    pub gap: usize,
    pub stride: usize,
}

/// Returns the element of a voxel.
pub(crate) fn place(bounds: Bounds, strides: &Strides, p: Coord) -> usize
    requires inside { IsTrue (is_inside bounds p) }
    requires reach { place_of bounds strides.now bounds.max < 2 ^ 64 }
    ensures { result ≡ place_of bounds strides.now p }
{
    let (dx, dy, dz) = gaps(bounds.min(), p);
    dx * strides.x + (dy * strides.y + dz * strides.z)
}

/// Returns how far a coordinate is past another one along each axis.
pub(crate) fn gaps(from: Coord, to: Coord) -> (usize, usize, usize)
    requires x { IsTrue (int_le from.x to.x) }
    requires y { IsTrue (int_le from.y to.y) }
    requires z { IsTrue (int_le from.z to.z) }
    ensures x { result.0 ≡ int_gap from.x to.x }
    ensures y { result.1 ≡ int_gap from.y to.y }
    ensures z { result.2 ≡ int_gap from.z to.z }
    ensures small { (result.0 < 2 ^ 32) × (result.1 < 2 ^ 32) × (result.2 < 2 ^ 32) }
{
    (gap(from.x, to.x), gap(from.y, to.y), gap(from.z, to.z))
}

/// Returns how far a number is past another one.
pub(crate) fn gap(from: i32, to: i32) -> usize
    requires { IsTrue (int_le from to) }
    ensures value { result ≡ int_gap from to }
    ensures small { result < 2 ^ 32 }
{
    to.abs_diff(from) as usize
}

/// Returns the axes of a box of an array: x, y and z.
fn axes(bounds: Bounds, strides: &Strides) -> (Axis, Axis, Axis)
    ensures x { result.0 ≡ axis_x bounds strides.now }
    ensures y { result.1 ≡ axis_y bounds strides.now }
    ensures z { result.2 ≡ axis_z bounds strides.now }
    ensures small { (result.0.gap < 2 ^ 32) × (result.1.gap < 2 ^ 32) × (result.2.gap < 2 ^ 32) }
{
    let min = bounds.min();
    let (dx, dy, dz) = gaps(min, bounds.max());
    let x = Axis {
        gap: dx,
        stride: strides.x,
    };
    let y = Axis {
        gap: dy,
        stride: strides.y,
    };
    let z = Axis {
        gap: dz,
        stride: strides.z,
    };
    (x, y, z)
}

/// Returns how many elements lie from the least corner to the greatest one along an axis.
fn span(axis: Axis) -> u128
    requires { axis.gap < 2 ^ 32 }
    ensures value { result ≡ span_of axis }
    ensures small { result < 2 ^ 100 }
{
    axis.gap as u128 * axis.stride as u128
}

/// Returns whether a step along an axis passes this many elements, or the box is one voxel wide along it.
fn is_past(axis: Axis, last: u128) -> bool
    ensures { result ≡ is_axis_past axis last }
{
    axis.gap == 0 || last < axis.stride as u128
}

/// Returns whether a step along each axis passes all elements of the axes before it.
fn are_nested(a: Axis, b: Axis, c: Axis) -> bool
    requires { (a.gap < 2 ^ 32) × (b.gap < 2 ^ 32) }
    ensures { result ≡ are_axes_nested a b c }
{
    let first = span(a);
    let both = first + span(b);
    is_past(a, 0) && is_past(b, first) && is_past(c, both)
}

/// Returns whether the axes are nested in some order, so that no two voxels of the box share an element.
pub(crate) fn are_apart(bounds: Bounds, strides: &Strides) -> bool
    ensures { result ≡ are_voxels_apart bounds strides.now }
{
    let (x, y, z) = axes(bounds, strides);
    are_nested(z, y, x)
        || are_nested(y, z, x)
        || are_nested(z, x, y)
        || are_nested(x, z, y)
        || are_nested(y, x, z)
        || are_nested(x, y, z)
}

/// Returns whether an array of this length has an element for each voxel of the box, or is empty.
pub(crate) fn has_places(bounds: Bounds, strides: &Strides, len: usize) -> bool
    ensures { result ≡ has_a_place bounds strides.now len }
{
    let (x, y, z) = axes(bounds, strides);
    let last = span(x) + (span(y) + span(z));
    len == 0 || last < len as u128
}
