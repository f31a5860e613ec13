//! What lies behind the faces of boxes and blocks.

ghost use Rattle.std.specs.Prelude.{◌≡◌, false, IfSome, IsNone, IsTrue};
ghost use Rattle.vdb_coord.specs.Blocks.{block_number, block_numbers, vdb};
ghost use Rattle.vdb_coord.specs.Boxes.{is_bounds};
ghost use Rattle.vdb_coord.specs.Faces.{toward};
ghost use Rattle.vdb_coord.specs.Space.{everywhere, is_inside};
ghost use Rattle.vdb_coord.specs.declared.Coord.{Coord};
ghost use Rattle.vdb_coord.specs.declared.Level.TheVariants.{Leaf as leaf_level};
ghost use Rattle.vdb_morph.specs.internal.Behind.{is_behind, layer as layer_of, opposite as opposite_of};

use vdb_coord::{Bounds, Coord, Face, Level};

/// Returns the voxels right behind a face of a box: `None` if the box reaches the end of the range there.
pub(crate) fn behind(bounds: Bounds, face: Face) -> Option<Bounds>
    ensures there { IfSome result (λ slab. (q : Coord) → is_inside slab q ≡ is_behind face bounds q) }
    ensures nowhere { IsNone result → (q : Coord) → IsTrue (is_inside everywhere q) → is_behind face bounds q ≡ false }
{
    let (min, max) = layer(bounds, face);
    let min = min.neighbour(face)?;
    let max = max.neighbour(face)?;
    Bounds::new(min, max)
}

/// Returns the least and the greatest corner of the voxels of a box that lie right at a face of it.
fn layer(bounds: Bounds, face: Face) -> (Coord, Coord)
    ensures min { result.0 ≡ (layer_of face bounds).min }
    ensures max { result.1 ≡ (layer_of face bounds).max }
    ensures bounds { IsTrue (is_bounds bounds) }
{
    let (min, max) = (bounds.min(), bounds.max());
    match face {
        Face::MinusX => (min, Coord { x: min.x, ..max }),
        Face::PlusX => (Coord { x: max.x, ..min }, max),
        Face::MinusY => (min, Coord { y: min.y, ..max }),
        Face::PlusY => (Coord { y: max.y, ..min }, max),
        Face::MinusZ => (min, Coord { z: min.z, ..max }),
        Face::PlusZ => (Coord { z: max.z, ..min }, max),
    }
}

/// Returns a coordinate of the leaf extent right behind a face of p's leaf extent: `None` if p's leaf extent reaches the end of
/// the range there.
pub(crate) fn block_behind(p: Coord, face: Face) -> Option<Coord>
    ensures there { IfSome result (λ r. block_number vdb leaf_level r ≡ toward face (block_number vdb leaf_level p)) }
    ensures nowhere { IsNone result → is_inside (block_numbers vdb leaf_level) (toward face (block_number vdb leaf_level p)) ≡ false }
{
    let (corner, _) = layer(p.block(Level::Leaf), face);
    corner.neighbour(face)
}

/// Returns the face on the other side.
pub(crate) fn opposite(face: Face) -> Face
    ensures { result ≡ opposite_of face }
{
    match face {
        Face::MinusX => Face::PlusX,
        Face::PlusX => Face::MinusX,
        Face::MinusY => Face::PlusY,
        Face::PlusY => Face::MinusY,
        Face::MinusZ => Face::PlusZ,
        Face::PlusZ => Face::MinusZ,
    }
}
