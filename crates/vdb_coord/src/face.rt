//! The faces of a voxel.
ghost use Rattle.std.specs.Prelude.{◌≡◌};
ghost use Rattle.vdb_coord.specs.Faces.{neighbour};

use crate::Coord;

/// The six directions in which a voxel has a face neighbour.
#[derive(Clone, Copy, Debug, PartialEq, Eq)]
pub enum Face {
    /// Toward lesser x. The others follow in the order of the axes.
    MinusX,
    PlusX,
    MinusY,
    PlusY,
    MinusZ,
    PlusZ,
}

impl Face {
    /// Returns each direction once.
    pub const ALL: [Face; 6] = [
        Face::MinusX,
        Face::PlusX,
        Face::MinusY,
        Face::PlusY,
        Face::MinusZ,
        Face::PlusZ,
    ];
}

impl Coord {
    /// Returns the face neighbour in this direction, which differs by 1 in one component. Returns `None` exactly if
    /// that component lies outside 32 bits.
    pub fn neighbour(self, face: Face) -> Option<Coord>
        ensures { result ≡ neighbour face self }
    {
        let Coord { x, y, z } = self;
        Some(match face {
            Face::MinusX => Coord {
                x: x.checked_sub(1)?,
                y,
                z,
            },
            Face::PlusX => Coord {
                x: x.checked_add(1)?,
                y,
                z,
            },
            Face::MinusY => Coord {
                x,
                y: y.checked_sub(1)?,
                z,
            },
            Face::PlusY => Coord {
                x,
                y: y.checked_add(1)?,
                z,
            },
            Face::MinusZ => Coord {
                x,
                y,
                z: z.checked_sub(1)?,
            },
            Face::PlusZ => Coord {
                x,
                y,
                z: z.checked_add(1)?,
            },
        })
    }
}
