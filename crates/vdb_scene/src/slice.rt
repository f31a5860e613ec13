//! The cells of a part of a plane, row by row.
ghost use Rattle.std.specs.Prelude.{◌≡◌, length};
ghost use Rattle.vdb_coord.specs.Space.{extent};
ghost use Rattle.vdb_scene.specs.Grids.{grid_field};
ghost use Rattle.vdb_scene.specs.Slices.{YieldsCell, YieldsNumber, YieldsRow, row_cell, rows_left};
ghost use Rattle.vdb_scene.specs.Replies.{rows};

use crate::reader::AnyReader;
use crate::{AnyGrid, Scalar};
use vdb_coord::{Bounds, Coord};
use vdb_pool::Steps;
use vdb_value::Cell;

/// The rows of a part of a plane, by rising y. It borrows the grid.
#[derive(Drop)]
pub struct Slice<'a> {
    grid: &'a AnyGrid,
    min: Coord,
    max: Coord,
    /// The y of the next row, if any.
    y: Option<i32>,
}

/// The cells of a row, by rising x. It borrows the grid.
#[derive(Drop)]
pub struct SliceRow<'a> {
    cells: AnyReader<'a>,
    y: i32,
    z: i32,
    /// The x of the next cell, if any.
    x: Option<i32>,
    last: i32,
}

impl<'a> Slice<'a> {
    /// Returns the rows of a box, at its least z.
    pub(crate) fn new(grid: &'a AnyGrid, bounds: Bounds) -> Slice<'a>
        ensures { rows_left result ≡ rows (grid_field grid.now) bounds }
    {
        let (min, max) = (bounds.min(), bounds.max());
        Slice {
            grid,
            min,
            max,
            y: Some(min.y),
        }
    }

    /// Returns the number of rows left.
    pub fn len(&self) -> u64
        ensures { result ≡ length (rows_left self.now) }
    {
        match self.y {
            Some(y) => numbers(y, self.max.y),
            None => 0,
        }
    }

    /// Returns the next row: `None` after the last one.
    pub fn next(&mut self) -> Option<SliceRow<'a>>
        ensures { YieldsRow self.old result self.new }
    {
        match advance(&mut self.y, self.max.y) {
            Some(y) => Some(SliceRow {
                cells: AnyReader::new(self.grid),
                y,
                z: self.min.z,
                x: Some(self.min.x),
                last: self.max.x,
            }),
            None => None,
        }
    }
}

impl<'a> SliceRow<'a> {
    /// Returns the y of its cells.
    pub fn y(&self) -> i32
        ensures { result ≡ self.now.y }
    {
        self.y
    }

    /// Returns the next cell: `None` after the last one.
    pub fn next(&mut self, steps: &mut Steps) -> Option<Cell<Scalar>>
        ensures { YieldsCell self.old result self.new }
    {
        match advance(&mut self.x, self.last) {
            Some(x) => Some(self.cell(x, steps)),
            None => None,
        }
    }

    /// Returns the cell at an x.
    fn cell(&mut self, x: i32, steps: &mut Steps) -> Cell<Scalar>
        ensures cell { result ≡ row_cell self.old x }
        ensures same { self.new ≡ self.old }
    {
        let (y, z) = (self.y, self.z);
        self.cells.get(Coord { x, y, z }, steps)
    }
}

/// Returns how many numbers lie between two numbers, both included.
pub(crate) fn numbers(low: i32, high: i32) -> u64
    ensures { result ≡ extent low high }
{
    if high < low {
        return 0;
    }
    u64::from(high.abs_diff(low)) + 1
}

/// Returns the next number up to the last one, if any, and advances `next`.
fn advance(next: &mut Option<i32>, last: i32) -> Option<i32>
    ensures { YieldsNumber next.old last result next.new }
{
    match *next {
        Some(number) => {
            if number < last {
                *next = Some(number + 1);
                return Some(number);
            }
            *next = None;
            if number == last { Some(number) } else { None }
        }
        None => None,
    }
}
