//! The cells of a grid, one after another, each by the path to the previous one.

ghost use Rattle.std.specs.Prelude.{◌≡◌};
ghost use Rattle.vdb_coord.specs.Blocks.{vdb};
ghost use Rattle.vdb_tree.specs.Field.{as_field_of};
ghost use Rattle.vdb_tree.specs.Layout.{field_of};
ghost use Rattle.vdb_scene.specs.Grids.{grid_field};
ghost use Rattle.vdb_scene.specs.Readers.{field_read};

use crate::grid_tree::of_any_kind;
use crate::scalar::GridValue;
use crate::{AnyGrid, Scalar};
use std::marker::Model;
use vdb_coord::Coord;
use vdb_pool::Steps;
use vdb_tree::{Path, PathOf, Tree};
use vdb_value::Cell;

/// Reads cells of a tree. Each descent begins at the lowest node of the path to the last cell that contains the next one, so a
/// cell of the same leaf takes one node visit (OpenVDB's `ValueAccessor`). It borrows the tree.
#[derive(Drop)]
pub struct CellReader<'a, V: GridValue> {
    tree: &'a Tree<V>,
    path: Path<V>,
    /// The coordinate to which the path leads.
    near: Coord,
}

impl<'a, V: GridValue> Model for CellReader<'a, V> {
    ghost use Rattle.vdb_coord.specs.Blocks.{vdb};
    ghost use Rattle.vdb_tree.specs.Layout.{Layout};
    ghost use Rattle.vdb_tree.specs.Paths.{Lives};

    ghost Value = { Layout V };

    ghost view = { λ r. r.tree.now };

    ghost invariant = { λ r. Lives vdb r.tree.now r.path r.near };
}

/// Reads cells of a grid of any type, as a `CellReader` reads those of a tree. It borrows the grid.
#[derive(Drop)]
pub enum AnyReader<'a> {
    Bool(CellReader<'a, bool>),
    I32(CellReader<'a, i32>),
    I64(CellReader<'a, i64>),
}

impl<'a, V: GridValue> CellReader<'a, V> {
    /// Creates a reader without a path: its first descent begins at the root.
    pub fn new(tree: &'a Tree<V>) -> CellReader<'a, V>
        ensures { result ≡ tree.now }
    {
        CellReader {
            tree,
            path: PathOf::empty(),
            near: Coord { x: 0, y: 0, z: 0 },
        }
    }

    /// Returns the cell of a voxel, with its value as one of any type.
    pub fn get(&mut self, at: Coord, steps: &mut Steps) -> Cell<Scalar>
        ensures cell { result ≡ (as_field_of V.as_scalar (field_of vdb self.old)).cell at }
        ensures same { self.new ≡ self.old }
    {
        let cell = self.tree.descend(&mut self.path, self.near, at, steps);
        self.near = at;
        of_any_kind(cell)
    }
}

impl<'a> AnyReader<'a> {
    /// Creates a reader of a grid's cells without a path.
    pub fn new(grid: &'a AnyGrid) -> AnyReader<'a>
        ensures { field_read result ≡ grid_field grid.now }
    {
        match grid {
            AnyGrid::Bool(grid) => AnyReader::Bool(CellReader::new(grid.tree())),
            AnyGrid::I32(grid) => AnyReader::I32(CellReader::new(grid.tree())),
            AnyGrid::I64(grid) => AnyReader::I64(CellReader::new(grid.tree())),
        }
    }

    /// Returns the cell of a voxel.
    pub fn get(&mut self, at: Coord, steps: &mut Steps) -> Cell<Scalar>
        ensures cell { result ≡ (field_read self.old).cell at }
        ensures same { self.new ≡ self.old }
    {
        match self {
            AnyReader::Bool(reader) => reader.get(at, steps),
            AnyReader::I32(reader) => reader.get(at, steps),
            AnyReader::I64(reader) => reader.get(at, steps),
        }
    }
}
