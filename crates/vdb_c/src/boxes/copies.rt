//! The elements of the voxels of a box copied from an array to another one.
ghost use Rattle.std.specs.Prelude.{◌≡◌, ◌+◌, ◌*◌, ◌<◌, ℕ, IsTrue, List, get_or, length};
ghost use Rattle.vdb_coord.specs.Space.{is_inside};
ghost use Rattle.vdb_coord.specs.declared.Coord.{Coord};
ghost use Rattle.vdb_c.specs.Elements.{IsCopied, IsLaid, are_apart, place as place_of};

use crate::boxes::elements::{Strides, gaps, place};
use vdb_coord::Bounds;

/// Writes an element to each of these elements.
#[inline(always)]
fn fill_line<T: Copy>(element: T, into: &mut [T], to: usize, stride: usize, count: usize)
    requires targets { (k : ℕ) → k < count → to + k * stride < length into.old }
    ensures { (from : List T) (i : ℕ) → ((d : T) → get_or from i d ≡ element) → IsCopied (λ (k : ℕ). k < count) (λ k. i) (λ k. to + k * stride) from into.old into.new }
{
    'elements: for k in 0..count {
        into[to + k * stride] = element;
    }
}

/// Copies each of these elements.
#[inline(always)]
fn copy_each<T: Copy>(
    from: &[T],
    at: usize,
    step: usize,
    into: &mut [T],
    to: usize,
    stride: usize,
    count: usize,
)
    requires sources { (k : ℕ) → k < count → at + k * step < length from.now }
    requires targets { (k : ℕ) → k < count → to + k * stride < length into.old }
    ensures { IsCopied (λ (k : ℕ). k < count) (λ k. at + k * step) (λ k. to + k * stride) from.now into.old into.new }
{
    'elements: for k in 0..count {
        into[to + k * stride] = from[at + k * step];
    }
}

/// Copies the elements of a line of voxels.
#[inline(always)]
fn copy_line<T: Copy>(
    from: &[T],
    at: usize,
    step: usize,
    into: &mut [T],
    to: usize,
    stride: usize,
    count: usize,
)
    requires some { 0 < count }
    requires sources { (k : ℕ) → k < count → at + k * step < length from.now }
    requires targets { (k : ℕ) → k < count → to + k * stride < length into.old }
    ensures { IsCopied (λ (k : ℕ). k < count) (λ k. at + k * step) (λ k. to + k * stride) from.now into.old into.new }
{
    if step == 0 {
        fill_line(from[at], into, to, stride, count);
    } else {
        copy_each(from, at, step, into, to, stride, count);
    }
}

/// Copies the elements of lines of voxels.
#[inline(always)]
fn copy_lines<T: Copy>(
    from: &[T],
    at: usize,
    step_y: usize,
    step: usize,
    into: &mut [T],
    to: usize,
    stride_y: usize,
    stride: usize,
    lines: usize,
    count: usize,
)
    requires some { 0 < count }
    requires sources { (y k : ℕ) → y < lines → k < count → at + y * step_y + k * step < length from.now }
    requires targets { (y k : ℕ) → y < lines → k < count → to + y * stride_y + k * stride < length into.old }
    ensures { IsCopied (λ (n : ℕ × ℕ). (n.0 < lines) × (n.1 < count)) (λ n. at + n.0 * step_y + n.1 * step) (λ n. to + n.0 * stride_y + n.1 * stride) from.now into.old into.new }
{
    'lines: for y in 0..lines {
        copy_line(
            from,
            at + y * step_y,
            step,
            into,
            to + y * stride_y,
            stride,
            count,
        );
    }
}

/// Does what `copy_lines` does, with the common steps, strides and counts as numbers that the compiler knows.
fn copy_plane<T: Copy>(
    from: &[T],
    at: usize,
    steps: &Strides,
    into: &mut [T],
    to: usize,
    strides: &Strides,
    lines: usize,
    count: usize,
)
    requires some { 0 < count }
    requires sources { (y k : ℕ) → y < lines → k < count → at + y * steps.now.y + k * steps.now.z < length from.now }
    requires targets { (y k : ℕ) → y < lines → k < count → to + y * strides.now.y + k * strides.now.z < length into.old }
    ensures { IsCopied (λ (n : ℕ × ℕ). (n.0 < lines) × (n.1 < count)) (λ n. at + n.0 * steps.now.y + n.1 * steps.now.z) (λ n. to + n.0 * strides.now.y + n.1 * strides.now.z) from.now into.old into.new }
{
    let (u, v) = (steps.y, strides.y);
    if strides.z == 1 && steps.z == 0 && count == 8 {
        copy_lines(from, at, u, 0, into, to, v, 1, lines, 8)
    } else if strides.z == 1 && steps.z == 0 {
        copy_lines(from, at, u, 0, into, to, v, 1, lines, count)
    } else if strides.z == 1 && steps.z == 64 && count == 8 {
        copy_lines(from, at, u, 64, into, to, v, 1, lines, 8)
    } else {
        copy_lines(from, at, u, steps.z, into, to, v, strides.z, lines, count)
    }
}

/// Copies the elements of planes of voxels.
fn copy_planes<T: Copy>(
    from: &[T],
    at: usize,
    steps: &Strides,
    into: &mut [T],
    to: usize,
    strides: &Strides,
    planes: usize,
    lines: usize,
    count: usize,
)
    requires lines { 0 < lines }
    requires some { 0 < count }
    requires sources { (x y k : ℕ) → x < planes → y < lines → k < count → at + x * steps.now.x + y * steps.now.y + k * steps.now.z < length from.now }
    requires targets { (x y k : ℕ) → x < planes → y < lines → k < count → to + x * strides.now.x + y * strides.now.y + k * strides.now.z < length into.old }
    ensures { IsCopied (λ (n : ℕ × (ℕ × ℕ)). (n.0 < planes) × ((n.1.0 < lines) × (n.1.1 < count))) (λ n. at + n.0 * steps.now.x + n.1.0 * steps.now.y + n.1.1 * steps.now.z)
        (λ n. to + n.0 * strides.now.x + n.1.0 * strides.now.y + n.1.1 * strides.now.z) from.now into.old into.new }
{
    'planes: for x in 0..planes {
        copy_plane(
            from,
            at + x * steps.x,
            steps,
            into,
            to + x * strides.x,
            strides,
            lines,
            count,
        );
    }
}

/// Copies the elements of the voxels of a part of a box to those that they have in an array, along x if neighbours along x have neighbouring
/// elements there. `at` is the element to copy for the least corner of the part.
pub(crate) fn copy_part<T: Copy>(
    from: &[T],
    at: usize,
    steps: &Strides,
    into: &mut [T],
    bounds: Bounds,
    strides: &Strides,
    part: Bounds,
)
    requires within { (q : Coord) → IsTrue (is_inside part q) → IsTrue (is_inside bounds q) }
    requires apart { IsTrue (are_apart bounds strides.now) }
    requires sources { at + place_of part steps.now part.max < length from.now }
    requires targets { place_of bounds strides.now bounds.max < length into.old }
    ensures { (of : Coord → T) → ((q : Coord) (d : T) → IsTrue (is_inside part q) → get_or from.now (at + place_of part steps.now q) d ≡ of q) → IsLaid bounds strides.now (is_inside part) of into.old into.new }
{
    let min = part.min();
    let to = place(bounds, strides, min);
    let (dx, dy, dz) = gaps(min, part.max());
    let along_x = dx != 0 && strides.x == 1;
    if along_x {
        let steps = Strides {
            x: steps.z,
            y: steps.y,
            z: steps.x,
        };
        let strides = Strides {
            x: strides.z,
            y: strides.y,
            z: strides.x,
        };
        copy_planes(from, at, &steps, into, to, &strides, dz + 1, dy + 1, dx + 1);
    } else {
        copy_planes(from, at, steps, into, to, strides, dx + 1, dy + 1, dz + 1);
    }
}
