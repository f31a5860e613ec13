//! Writes in the leaf that an accessor caches or, without one, in that of the last voxel.
ghost use Rattle.std.specs.Prelude.{◌≡◌, ◌<◌, ℕ, IsTrue, Ok, Some, false};
ghost use Rattle.std.specs.Option.{option_map};
ghost use Rattle.vdb_coord.specs.Blocks.{vdb};
ghost use Rattle.vdb_tree.specs.Field.{as_field_of};
ghost use Rattle.vdb_tree.specs.Layout.{field_of};
ghost use Rattle.vdb_tree.specs.Nodes.{KeepsElsewhere};
ghost use Rattle.vdb_c.specs.Calls.{IsWriteFor, IsWrittenBy, Writes, grid_kind, write_of};
ghost use Rattle.vdb_c.specs.Codes.{done};
ghost use Rattle.vdb_c.specs.Values.{accessor_of, value_of};

use crate::values::accessor;
use crate::voxels::cell_write;
use vdb_coord::Coord;
use vdb_grid::Grid;
use vdb_pool::Steps;
use vdb_scene::{ACCESSORS, AnyGrid, GridValue, Scalar, write_in_leaf, write_nearby};
use vdb_tree::Write;
use vdb_value::Kind;

/// Sets the value and the state of a voxel, if the type has the value, and the leaf that ends the path of an accessor holds the voxel or,
/// if `IN_LOWER`, another leaf of the path's lower node does. Without an accessor it tries the leaf of the last voxel that was read so.
/// Returns whether this is so; if not, nothing changes.
///
/// `IN_LOWER` is a const parameter so that each value has one caller, into which LLVM then inlines this function.
#[inline(always)]
pub(crate) fn set_near<const IN_LOWER: bool>(
    grid: &mut AnyGrid,
    number: i32,
    at: Coord,
    given: i64,
    on: bool,
    steps: &mut Steps,
) -> bool
    ensures written { IsTrue result → Writes (accessor_of number) at (option_map (write_of on) (value_of (grid_kind grid.old) given)) grid.old grid.new done }
    ensures untouched { result ≡ false → grid.new ≡ grid.old }
{
    let Some(by) = accessor(number) else {
        return false;
    };
    match grid {
        AnyGrid::Bool(held) => {
            write_in_leaf_if::<_, IN_LOWER>(held, by, at, cell_write(Kind::Bool, given, on), steps)
        }
        AnyGrid::I32(held) => {
            write_in_leaf_if::<_, IN_LOWER>(held, by, at, cell_write(Kind::I32, given, on), steps)
        }
        AnyGrid::I64(held) => {
            write_in_leaf_if::<_, IN_LOWER>(held, by, at, cell_write(Kind::I64, given, on), steps)
        }
    }
}

/// Does a write, if one is given, in that leaf.
/// Returns whether a write is given and that leaf holds the voxel; if not, nothing changes.
#[inline(always)]
fn write_in_leaf_if<V: GridValue, const IN_LOWER: bool>(
    grid: &mut Grid<V, ACCESSORS>,
    accessor: Option<usize>,
    at: Coord,
    change: Option<Write<Scalar>>,
    steps: &mut Steps,
) -> bool
    requires within { (k : ℕ) → accessor ≡ Some k → k < ACCESSORS }
    requires fits { IsWriteFor V.KIND change }
    ensures written { IsTrue result → IsWrittenBy grid.old.tree.limit at change (as_field_of V.as_scalar (field_of vdb grid.old.tree)) (as_field_of V.as_scalar (field_of vdb grid.new.tree)) (Ok tt) }
    ensures limit { grid.new.tree.limit ≡ grid.old.tree.limit }
    ensures elsewhere { IsTrue result → KeepsElsewhere vdb grid.old.tree grid.new.tree at }
    ensures untouched { result ≡ false → grid.new ≡ grid.old }
{
    let Some(change) = change else {
        return false;
    };
    match accessor {
        Some(k) => write_in_leaf::<V, IN_LOWER>(grid, k, at, change, steps),
        None => write_nearby(grid, at, change, steps),
    }
}
