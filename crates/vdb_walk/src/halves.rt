//! Cuts boxes in two along the edges of blocks.

ghost use Rattle.std.specs.Prelude.{◌≡◌, ◌≤◌, ◌^◌, ◌≤ℤ◌, ◌<ℤ◌, pos, IfSome, IsNone, IsTrue};
ghost use Rattle.vdb_coord.specs.Components.{first_of, number_at};
ghost use Rattle.vdb_coord.specs.Entries.{AreBits};
ghost use Rattle.vdb_coord.specs.Space.{is_box, is_inside};
ghost use Rattle.vdb_coord.specs.declared.Coord.{Coord};
ghost use Rattle.vdb_walk.specs.internal.Halves.{AreInBlockOrder, AreOrdered, IsHalved, numbers};

use vdb_coord::{Bits, Bounds, Coord, Level};

/// Cuts the box in two along an edge of root blocks if one lies within it, else of lower blocks, else of leaf blocks, else of
/// voxels. Returns `None` if the box is one voxel. So it cuts no tile before the part lies within the tile's block, and the first
/// part comes before the second in block order.
pub(crate) fn halves(part: Bounds, bits: Bits) -> Option<(Bounds, Bounds)>
    requires { AreBits bits }
    ensures some { IfSome result (λ parts. IsHalved part parts.0 parts.1) }
    ensures ordered { IfSome result (λ parts. AreInBlockOrder bits parts.0 parts.1) }
    ensures none { IsNone result → part.min ≡ part.max }
{
    if let Some(parts) = cut(part, bits.block_bits(Level::Upper)) {
        return Some(parts);
    }
    if let Some(parts) = cut(part, bits.block_bits(Level::Lower)) {
        return Some(parts);
    }
    if let Some(parts) = cut(part, bits.block_bits(Level::Leaf)) {
        return Some(parts);
    }
    cut(part, 0)
}

/// Cuts the box along an edge of blocks of 2 to the power `least`: along x, else along y, else along z.
pub(crate) fn cut(part: Bounds, least: u32) -> Option<(Bounds, Bounds)>
    requires { least ≤ 15 }
    ensures some { IfSome result (λ parts. IsHalved part parts.0 parts.1) }
    ensures ordered { IfSome result (λ parts. AreOrdered least parts.0 parts.1) }
    ensures none { IsNone result → numbers least part.min ≡ numbers least part.max }
{
    let (min, max) = (part.min(), part.max());
    if let Some(x) = edge(min.x, max.x, least) {
        return Some(cut_x(part, x));
    }
    if let Some(y) = edge(min.y, max.y, least) {
        return Some(cut_y(part, y));
    }
    match edge(min.z, max.z, least) {
        Some(z) => Some(cut_z(part, z)),
        None => None,
    }
}

/// Cuts the box along x: the voxels below a number, and those from it on.
fn cut_x(part: Bounds, x: i32) -> (Bounds, Bounds)
    requires { (part.min.x <ℤ x) × (x ≤ℤ part.max.x) }
    ensures halved { IsHalved part result.0 result.1 }
    ensures below { (p : Coord) → IsTrue (is_inside result.0 p) → p.x <ℤ x }
    ensures from_on { (p : Coord) → IsTrue (is_inside result.1 p) → x ≤ℤ p.x }
{
    let last = Coord {
        x: x - 1,
        ..part.max()
    };
    let first = Coord { x, ..part.min() };
    two(part, last, first)
}

/// Cuts the box along y: the voxels below a number, and those from it on.
fn cut_y(part: Bounds, y: i32) -> (Bounds, Bounds)
    requires { (part.min.y <ℤ y) × (y ≤ℤ part.max.y) }
    ensures halved { IsHalved part result.0 result.1 }
    ensures below { (p : Coord) → IsTrue (is_inside result.0 p) → p.y <ℤ y }
    ensures from_on { (p : Coord) → IsTrue (is_inside result.1 p) → y ≤ℤ p.y }
{
    let last = Coord {
        y: y - 1,
        ..part.max()
    };
    let first = Coord { y, ..part.min() };
    two(part, last, first)
}

/// Cuts the box along z: the voxels below a number, and those from it on.
fn cut_z(part: Bounds, z: i32) -> (Bounds, Bounds)
    requires { (part.min.z <ℤ z) × (z ≤ℤ part.max.z) }
    ensures halved { IsHalved part result.0 result.1 }
    ensures below { (p : Coord) → IsTrue (is_inside result.0 p) → p.z <ℤ z }
    ensures from_on { (p : Coord) → IsTrue (is_inside result.1 p) → z ≤ℤ p.z }
{
    let last = Coord {
        z: z - 1,
        ..part.max()
    };
    let first = Coord { z, ..part.min() };
    two(part, last, first)
}

/// Returns the boxes from the part's least corner to `last`, and from `first` to its greatest corner.
fn two(part: Bounds, last: Coord, first: Coord) -> (Bounds, Bounds)
    requires low { IsTrue (is_box (record { min = part.min; max = last })) }
    requires high { IsTrue (is_box (record { min = first; max = part.max })) }
    ensures low { result.0 ≡ record { min = part.min; max = last } }
    ensures high { result.1 ≡ record { min = first; max = part.max } }
{
    match (
        Bounds::new(part.min(), last),
        Bounds::new(first, part.max()),
    ) {
        (Some(low), Some(high)) => (low, high),
        _ => unreachable!(),
    }
}

/// Returns the first number of a block of 2 to the power `least` that begins above `low` and not above `high`: the middle one.
fn edge(low: i32, high: i32, least: u32) -> Option<i32>
    requires { least ≤ 15 }
    ensures some { IfSome result (λ at. (low <ℤ at) × (at ≤ℤ high)) }
    ensures first { IfSome result (λ at. first_of least (number_at least at) ≡ at) }
    ensures none { IsNone result → number_at least high ≤ℤ number_at least low }
{
    let (first, last) = (number(low, least), number(high, least));
    if last <= first {
        return None;
    }
    Some(middle(first, last) * span(least))
}

/// Returns the number of the block of 2 to the power `bits` that holds the component, counted in such blocks.
fn number(component: i32, bits: u32) -> i32
    requires { bits ≤ 15 }
    ensures { result ≡ number_at bits component }
{
    component >> bits
}

/// Returns how many numbers a block of 2 to the power `bits` holds.
fn span(bits: u32) -> i32
    requires { bits ≤ 15 }
    ensures { result ≡ pos (2 ^ bits) }
{
    1 << bits
}

/// Returns the number halfway between the first and the last, rounded up: above the first, up to the last.
fn middle(first: i32, last: i32) -> i32
    requires { first <ℤ last }
    ensures { (first <ℤ result) × (result ≤ℤ last) }
{
    last - (last.abs_diff(first) / 2) as i32
}
