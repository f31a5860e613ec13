//! The answers of commands.

ghost use Rattle.std.specs.Prelude.{◌≡◌};
ghost use Rattle.vdb_scene.specs.Refusals.{of_tree};

use crate::{Metas, Scalar, Slice, Voxels};
use vdb_coord::Coord;
use vdb_tree::TreeRefusal;
use vdb_walk::Census;

/// The errors of a line or a command, in the order in which they are tried.
#[derive(Clone, Copy, Debug, PartialEq, Eq)]
pub enum Refusal {
    /// The line has more than 256 bytes.
    LineTooLong,
    /// The line is not a command.
    Syntax,
    /// The scene has no grid of a name that must exist.
    NoGrid,
    /// The scene already has a grid of the name of the new one.
    NameTaken,
    /// A command on two grids names one grid twice.
    SameGrid,
    /// The scene has 64 grids.
    GridLimit,
    /// A number for a boolean grid, a boolean for a grid of numbers, or two grids of different types.
    Kind,
    /// A value or a number lies outside its range.
    ValueRange,
    /// The grid has no accessor of that number.
    NoAccessor,
    /// A minimum of a box is greater than its maximum.
    Box,
    /// A box or a slice is too large.
    TooLarge,
    /// Booleans have no sum.
    NoSum,
    /// A sum lies outside the range of the grid's type.
    SumRange,
    /// More root blocks of the grid than its limit would hold a cell other than the inactive background.
    RootLimit,
    /// The grid has 16 metadata pairs, and none of them has the key.
    MetaLimit,
    /// An allocation failed.
    Memory,
}

/// The answer of a command. It borrows the scene until it is dropped.
#[derive(Drop)]
pub enum Answer<'a> {
    /// The command has been carried out.
    Done,
    /// The command failed with this error, and the scene is unchanged.
    Refused(Refusal),
    /// The value of a voxel, and whether it is active.
    Value(Scalar, bool),
    /// The active voxels of a box in block order, up to a limit.
    List(Voxels<'a>),
    /// The cells of a part of a plane.
    Slice(Slice<'a>),
    /// The number of active voxels.
    Count(u128),
    /// The least and the greatest corner of the bounding box of the active voxels, if any.
    Bounds(Option<(Coord, Coord)>),
    /// The size of the smallest tree of the grid's cells.
    Census(Census),
    /// The metadata pairs of a grid.
    Pairs(&'a Metas),
}

impl From<TreeRefusal> for Refusal {
    ghost from_gives = { λ given refusal. refusal ≡ of_tree given };

    fn from(refusal: TreeRefusal) -> Refusal {
        match refusal {
            TreeRefusal::RootLimit => Refusal::RootLimit,
            TreeRefusal::Memory => Refusal::Memory,
        }
    }
}
