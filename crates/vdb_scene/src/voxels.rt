//! The active voxels of a box of a grid, in block order.
ghost use Rattle.std.specs.Prelude.{◌≡◌, ◌≢◌, ◌↔◌, [], IsTrue};
ghost use Rattle.std.specs.Option.{option_map};
ghost use Rattle.vdb_scene.specs.Listings.{box_across, listed_of, voxels_of};
ghost use Rattle.vdb_coord.specs.Blocks.{vdb};
ghost use Rattle.vdb_scene.specs.Grids.{grid_field};
ghost use Rattle.vdb_walk.specs.Reports.{Yields, active};

use crate::scalar::GridValue;
use crate::{AnyGrid, Scalar};
use vdb_coord::{Bounds, Coord};
use vdb_pool::Steps;
use vdb_walk::{Listing, list};

/// The active voxels of a box, up to a limit. It borrows the grid.
#[derive(Drop)]
pub struct Voxels<'a> {
    grid: &'a AnyGrid,
    /// Two opposite corners of the box.
    corner: Coord,
    opposite: Coord,
    limit: u32,
}

/// A listing: voxels of a grid of any type in block order, with their values. It borrows the grid.
#[derive(Drop)]
pub enum AnyListing<'a> {
    Bool(Listing<'a, bool, 5, 4, 3, 512, 64, 8>),
    I32(Listing<'a, i32, 5, 4, 3, 512, 64, 8>),
    I64(Listing<'a, i64, 5, 4, 3, 512, 64, 8>),
}

impl<'a> Voxels<'a> {
    /// Returns the active voxels of a box, up to a limit.
    pub(crate) fn new(grid: &'a AnyGrid, bounds: Bounds, limit: u32) -> Voxels<'a>
        ensures voxels { voxels_of result ≡ active vdb (grid_field grid.now) bounds }
        ensures limit { result.limit ≡ limit }
    {
        Voxels {
            grid,
            corner: bounds.min(),
            opposite: bounds.max(),
            limit,
        }
    }

    /// Returns the maximum number of voxels of a listing.
    pub fn limit(&self) -> u32
        ensures { result ≡ self.now.limit }
    {
        self.limit
    }

    /// Returns a listing that starts with the first active voxel of the box.
    pub fn listing(&self) -> AnyListing<'a>
        ensures { listed_of result ≡ record { rest = voxels_of self.now; left = self.now.limit } }
    {
        let bounds = between(self.corner, self.opposite);
        match self.grid {
            AnyGrid::Bool(grid) => AnyListing::Bool(list(grid.tree(), bounds, self.limit)),
            AnyGrid::I32(grid) => AnyListing::I32(list(grid.tree(), bounds, self.limit)),
            AnyGrid::I64(grid) => AnyListing::I64(list(grid.tree(), bounds, self.limit)),
        }
    }
}

impl<'a> AnyListing<'a> {
    /// Returns the next voxel with its value: `None` if no voxel is left, or the limit is reached.
    pub fn next(&mut self, steps: &mut Steps) -> Option<(Coord, Scalar)>
        ensures { Yields (listed_of self.old) result (listed_of self.new) }
    {
        match self {
            AnyListing::Bool(listing) => of_any_kind(listing.next(steps)),
            AnyListing::I32(listing) => of_any_kind(listing.next(steps)),
            AnyListing::I64(listing) => of_any_kind(listing.next(steps)),
        }
    }

    /// Returns whether an active voxel of the box follows the last one returned. Before the first, returns whether the box has
    /// any.
    pub fn more(&self, steps: &mut Steps) -> bool
        ensures { IsTrue result ↔ ((listed_of self.now).rest ≢ []) }
    {
        match self {
            AnyListing::Bool(listing) => listing.more(steps),
            AnyListing::I32(listing) => listing.more(steps),
            AnyListing::I64(listing) => listing.more(steps),
        }
    }
}

/// Returns a voxel with its value as one of any type.
fn of_any_kind<V: GridValue>(voxel: Option<(Coord, V)>) -> Option<(Coord, Scalar)>
    ensures { result ≡ option_map (λ item. (item.0, V.as_scalar item.1)) voxel }
{
    match voxel {
        Some((at, value)) => Some((at, value.scalar())),
        None => None,
    }
}

/// Returns the box with these two opposite corners.
fn between(corner: Coord, opposite: Coord) -> Bounds
    ensures { result ≡ box_across corner opposite }
{
    match Bounds::new(corner.lesser(opposite), corner.greater(opposite)) {
        Some(bounds) => bounds,
        None => unreachable!(),
    }
}
