//! The codes that calls return.
ghost use Rattle.std.specs.Prelude.{◌≡◌};
ghost use Rattle.vdb_c.specs.Codes.{refusal_code, scene_code as code_of_scene, tree_code as code_of_tree};

use vdb_scene::Refusal;
use vdb_tree::TreeRefusal;

/// The call is done.
pub const DONE: i32 = 0;
/// The handle is empty.
pub const EMPTY: i32 = 1;
/// An allocation failed.
pub const MEMORY: i32 = 2;
/// More root blocks than the limit would have a cell other than the inactive background.
pub const ROOT_LIMIT: i32 = 3;
/// An argument is out of its range.
pub const OUT_OF_RANGE: i32 = 4;
/// A sum lies outside the type of the values.
pub const SUM_RANGE: i32 = 5;
/// Two grids have different types of values.
pub const OTHER_KIND: i32 = 6;
/// Booleans have no sum.
pub const NO_SUM: i32 = 7;
/// The scene has no such grid.
pub const NO_GRID: i32 = 8;
/// The bytes are no name.
pub const NO_NAME: i32 = 9;
/// The scene has a grid of the name.
pub const NAME_TAKEN: i32 = 10;
/// The scene has the maximum number of grids.
pub const GRID_LIMIT: i32 = 11;
/// The grid has the maximum number of metadata pairs.
pub const META_LIMIT: i32 = 12;
/// The grid has no such metadata pair.
pub const NO_META: i32 = 13;
/// The bytes are no text.
pub const NO_TEXT: i32 = 14;
/// The buffer is too small.
pub const TOO_SMALL: i32 = 15;
/// A file would have more bytes than it may have. The codes from 20 on are the faults of a file.
pub const TOO_LONG: i32 = 35;

/// Returns the code of a change of one grid.
pub fn tree_code(change: Result<(), TreeRefusal>) -> i32
    ensures { result ≡ code_of_tree change }
{
    match change {
        Ok(()) => DONE,
        Err(TreeRefusal::RootLimit) => ROOT_LIMIT,
        Err(TreeRefusal::Memory) => MEMORY,
    }
}

/// Returns the code of a change that a scene may refuse.
pub fn scene_code(change: Result<(), Refusal>) -> i32
    ensures { result ≡ code_of_scene change }
{
    match change {
        Ok(()) => DONE,
        Err(refusal) => code_of(refusal),
    }
}

/// Returns the code of an error of a scene.
fn code_of(refusal: Refusal) -> i32
    ensures { result ≡ refusal_code refusal }
{
    match refusal {
        Refusal::RootLimit => ROOT_LIMIT,
        Refusal::Memory => MEMORY,
        Refusal::SumRange => SUM_RANGE,
        Refusal::Kind => OTHER_KIND,
        Refusal::NoSum => NO_SUM,
        Refusal::NoGrid => NO_GRID,
        Refusal::NameTaken => NAME_TAKEN,
        Refusal::GridLimit => GRID_LIMIT,
        Refusal::MetaLimit => META_LIMIT,
        _ => OUT_OF_RANGE,
    }
}
