//! The coordinates, accessors and limits in the numbers of a line.
ghost use Rattle.std.specs.Prelude.{◌≡◌, ◌<◌, ◌≤◌, ℕ, IfOk, IfErr, IfSome, Some, None, false, ◌∷◌, [], true, if◌then◌else◌, ◌||◌, nat_lt};
ghost use Rattle.vdb_coord.specs.Space.{extent, is_box};
ghost use Rattle.vdb_scene.specs.Scalars.{number};
ghost use Rattle.vdb_scene.specs.Arguments.{accessor_of, are_coords, box_between, count_of, flat as flat_corners, is_accessor, is_component, is_limit, is_coord, is_root_limit, coord_of, root_limit_of};
ghost use Rattle.vdb_scene.specs.Refusals.{first_of_all, no_box, out_of_range};

use crate::any_grid::ACCESSORS;
use crate::slice::numbers;
use crate::{Area, Corners, MOST_ROOT_LIMIT, Num, Point, ROOT_LIMIT, Refusal};
use vdb_coord::{Bounds, Coord};

/// The maximum number of voxels of a list.
const LIST_LIMIT: i64 = 4096;

/// The maximum number of columns, and of rows, of a slice.
const SLICE_LIMIT: u64 = 64;

/// Returns the number of a line as a component, if it has 32 bits.
pub(crate) fn component_of(component: Num) -> Option<i32>
    ensures { result ≡ (if is_component component then Some (number component) else None) }
{
    match component {
        Num::Near(value) => i32::try_from(value).ok(),
        Num::Far => None,
    }
}

/// Returns the coordinate that a line names: `None` if a component lies outside 32 bits.
pub(crate) fn named_coord(at: &Point) -> Option<Coord>
    ensures { result ≡ (if is_coord at.now then Some (coord_of at.now) else None) }
{
    let x = component_of(at.x)?;
    let y = component_of(at.y)?;
    let z = component_of(at.z)?;
    Some(Coord { x, y, z })
}

/// Returns the box that a line names. Fails with `ValueRange` if a corner is not a coordinate, then with `Box` if a minimum is
/// greater than its maximum.
pub(crate) fn bounds_of(corners: &Corners) -> Result<Bounds, Refusal>
    ensures coords { IfOk result (λ bounds. are_coords corners.now ≡ true) }
    ensures ordered { IfOk result (λ bounds. is_box (box_between corners.now) ≡ true) }
    ensures bounds { IfOk result (λ bounds. bounds ≡ box_between corners.now) }
    ensures refusal { IfErr result (λ refusal. first_of_all (out_of_range (are_coords corners.now) ∷ no_box corners.now ∷ []) ≡ Some refusal) }
{
    let Some(min) = named_coord(&corners.min) else {
        return Err(Refusal::ValueRange);
    };
    let Some(max) = named_coord(&corners.max) else {
        return Err(Refusal::ValueRange);
    };
    let Some(bounds) = Bounds::new(min, max) else {
        return Err(Refusal::Box);
    };
    Ok(bounds)
}

/// Returns the corners of a part of a plane.
pub(crate) fn flat(z: Num, area: Area) -> Corners
    ensures { result ≡ flat_corners z area }
{
    let min = Point {
        x: area.min_x,
        y: area.min_y,
        z,
    };
    let max = Point {
        x: area.max_x,
        y: area.max_y,
        z,
    };
    Corners { min, max }
}

/// Returns whether a slice between two corners has more than `SLICE_LIMIT` columns or rows.
pub(crate) fn is_wide(min: Coord, max: Coord) -> bool
    ensures { result ≡ (nat_lt 64 (extent min.x max.x) || nat_lt 64 (extent min.y max.y)) }
{
    numbers(min.x, max.x) > SLICE_LIMIT || numbers(min.y, max.y) > SLICE_LIMIT
}

/// Returns the limit of a list that a line names: `None` outside 1 to `LIST_LIMIT`.
pub(crate) fn limit_of(limit: Num) -> Option<u32>
    ensures { result ≡ (if is_limit limit then Some (count_of limit) else None) }
{
    match limit {
        Num::Near(value) => {
            if 1 <= value && value <= LIST_LIMIT {
                Some(value as u32)
            } else {
                None
            }
        }
        Num::Far => None,
    }
}

/// Returns the root limit that a line names, or `ROOT_LIMIT` if it names none: `None` for a number outside 1 to
/// `MOST_ROOT_LIMIT`.
pub(crate) fn root_limit_of(limit: Option<Num>) -> Option<u32>
    ensures limit { result ≡ (if is_root_limit limit then Some (root_limit_of limit) else None) }
    ensures within { IfSome result (λ n. (1 ≤ n) × (n ≤ 65536)) }
{
    match limit {
        None => Some(ROOT_LIMIT),
        Some(Num::Near(value)) => {
            if 1 <= value && value <= i64::from(MOST_ROOT_LIMIT) {
                Some(value as u32)
            } else {
                None
            }
        }
        Some(Num::Far) => None,
    }
}

/// Returns the accessor that a line names, if it names one. Fails with `NoAccessor` if no accessor has the number.
pub(crate) fn named_accessor(accessor: Option<Num>) -> Result<Option<usize>, Refusal>
    ensures number { IfOk result (λ k. k ≡ accessor_of accessor) }
    ensures within { IfOk result (λ k. (n : ℕ) → k ≡ Some n → n < ACCESSORS) }
    ensures valid { IfOk result (λ k. is_accessor accessor ≡ true) }
    ensures refusal { IfErr result (λ refusal. (refusal ≡ Refusal.NoAccessor) × (is_accessor accessor ≡ false)) }
{
    match accessor {
        None => Ok(None),
        Some(Num::Near(k)) => {
            if 0 <= k && k <= 7 {
                Ok(Some(k as usize))
            } else {
                Err(Refusal::NoAccessor)
            }
        }
        Some(Num::Far) => Err(Refusal::NoAccessor),
    }
}
