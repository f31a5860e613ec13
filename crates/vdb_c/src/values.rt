//! Types, values, states, accessors and boxes as they cross to C.
ghost use Rattle.std.specs.Prelude.{◌≡◌, IfSome, IsTrue};
ghost use Rattle.vdb_coord.specs.declared.Coord.{Coord};
ghost use Rattle.vdb_scene.specs.Scalars.{is_of};
ghost use Rattle.vdb_c.specs.Values.{accessor_of, byte_is_on, corner_coord, corners_box, is_on as number_is_on, kind_number as number_of_kind, kind_of_number, state_number as number_of_state, value_number as number_of_value, value_of};

pub(crate) mod cells;
pub(crate) mod numbers;

use vdb_coord::{Bounds, Coord};
use vdb_scene::Scalar;
use vdb_value::Kind;

/// A coordinate.
#[repr(C)]
#[derive(Clone, Copy)]
pub struct Corner {
    pub x: i32,
    pub y: i32,
    pub z: i32,
}

/// The least and the greatest corner of a box, which both belong to it.
#[repr(C)]
#[derive(Clone, Copy)]
pub struct Corners {
    pub min: Corner,
    pub max: Corner,
}

/// A number below 2^128.
#[repr(C)]
#[derive(Clone, Copy)]
pub struct Count {
    pub low: u64,
    pub high: u64,
}

/// The size of the smallest tree of a grid's cells.
#[repr(C)]
#[derive(Clone, Copy)]
pub struct Sizes {
    pub roots: u64,
    pub upper: u64,
    pub lower: u64,
    pub leaf: u64,
}

/// Returns the number of a type.
pub(crate) fn kind_number(kind: Kind) -> i32
    ensures { result ≡ number_of_kind kind }
{
    match kind {
        Kind::Bool => 0,
        Kind::I32 => 1,
        Kind::I64 => 2,
    }
}

/// Returns the type of a number: `None` if no type has it.
pub(crate) fn kind(number: i32) -> Option<Kind>
    ensures { result ≡ kind_of_number number }
{
    if number == 0 {
        return Some(Kind::Bool);
    }
    if number == 1 {
        return Some(Kind::I32);
    }
    if number == 2 {
        return Some(Kind::I64);
    }
    None
}

/// Returns a state as a number.
#[inline(always)]
pub(crate) fn state_number(on: bool) -> i32
    ensures { result ≡ number_of_state on }
{
    if on { 1 } else { 0 }
}

/// Returns a number as a state: active unless it is 0.
#[inline(always)]
pub(crate) fn is_on(number: i32) -> bool
    ensures { result ≡ number_is_on number }
{
    number != 0
}

/// Returns a byte as a state: active unless it is 0.
#[inline(always)]
pub(crate) fn is_byte_on(byte: u8) -> bool
    ensures { result ≡ byte_is_on byte }
{
    byte != 0
}

/// Returns a value as a number.
#[inline(always)]
pub(crate) fn value_number(value: Scalar) -> i64
    ensures { result ≡ number_of_value value }
{
    match value {
        Scalar::Bool(truth) => { if truth { 1 } else { 0 } }
        Scalar::I32(number) => i64::from(number),
        Scalar::I64(number) => number,
    }
}

/// Returns the value of a number: `None` if the type doesn't have it.
#[inline(always)]
pub(crate) fn value(kind: Kind, number: i64) -> Option<Scalar>
    ensures value { result ≡ value_of kind number }
    ensures fits { IfSome result (λ v. IsTrue (is_of kind v)) }
{
    match kind {
        Kind::Bool => {
            if number == 0 {
                return Some(Scalar::Bool(false));
            }
            if number == 1 {
                return Some(Scalar::Bool(true));
            }
            None
        }
        Kind::I32 => match i32::try_from(number) {
            Ok(number) => Some(Scalar::I32(number)),
            Err(_) => None,
        },
        Kind::I64 => Some(Scalar::I64(number)),
    }
}

/// Returns the accessor of a number, or none for -1: `None` if the number is out of range.
#[inline(always)]
pub(crate) fn accessor(number: i32) -> Option<Option<usize>>
    ensures { result ≡ accessor_of number }
{
    if number == -1 {
        return Some(None);
    }
    if number >= 0 && number <= 7 {
        return Some(Some(number as usize));
    }
    None
}

/// Returns a coordinate of C.
#[inline(always)]
pub(crate) fn coord(corner: &Corner) -> Coord
    ensures { result ≡ corner_coord corner.now }
{
    Coord {
        x: corner.x,
        y: corner.y,
        z: corner.z,
    }
}

/// Returns the box between two corners: `None` if they aren't in order.
pub(crate) fn bounds(corners: &Corners) -> Option<Bounds>
    ensures { result ≡ corners_box corners.now }
{
    Bounds::new(coord(&corners.min), coord(&corners.max))
}
