//! What lies beyond the faces of a box.

ghost use Rattle.std.specs.Prelude.{◌≡◌, IsTrue};
ghost use Rattle.vdb_coord.specs.Boxes.{box_of, is_bounds};
ghost use Rattle.vdb_region.specs.internal.Beyond.{half as half_of};

use vdb_coord::{Bounds, Coord, Face};

/// Returns all coordinates past a face of the box, along its axis. Returns `None` if the box reaches the end of the
/// range there.
pub(crate) fn half(bounds: Bounds, face: Face) -> Option<Bounds>
    ensures value { result ≡ box_of (half_of bounds face).min (half_of bounds face).max }
    ensures bounds { IsTrue (is_bounds bounds) }
{
    let (min, max) = (bounds.min(), bounds.max());
    let first = Coord {
        x: i32::MIN,
        y: i32::MIN,
        z: i32::MIN,
    };
    let last = Coord {
        x: i32::MAX,
        y: i32::MAX,
        z: i32::MAX,
    };
    match face {
        Face::MinusX => Bounds::new(
            first,
            Coord {
                x: min.x.checked_sub(1)?,
                ..last
            },
        ),
        Face::PlusX => Bounds::new(
            Coord {
                x: max.x.checked_add(1)?,
                ..first
            },
            last,
        ),
        Face::MinusY => Bounds::new(
            first,
            Coord {
                y: min.y.checked_sub(1)?,
                ..last
            },
        ),
        Face::PlusY => Bounds::new(
            Coord {
                y: max.y.checked_add(1)?,
                ..first
            },
            last,
        ),
        Face::MinusZ => Bounds::new(
            first,
            Coord {
                z: min.z.checked_sub(1)?,
                ..last
            },
        ),
        Face::PlusZ => Bounds::new(
            Coord {
                z: max.z.checked_add(1)?,
                ..first
            },
            last,
        ),
    }
}
