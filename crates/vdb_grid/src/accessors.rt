//! Paths of accessors, traced again after a change of the tree.

ghost use Rattle.std.specs.Prelude.{◌≡◌, ◌+◌, ◌*◌, ◌≤◌, length};
ghost use Rattle.vdb_coord.specs.declared.Coord.{Coord};
ghost use Rattle.vdb_grid.specs.Grid.{ArePathsWhole, AreUnusedEmpty, IsNear};

use vdb_coord::Coord;
use vdb_node::Stored;
use vdb_pool::Steps;
use vdb_tree::{Path, Tree};

/// Traces the path to each coordinate that an accessor was last given, by at most three visits each and without
/// memory. An accessor that was given no coordinate keeps its empty path.
pub fn retrace<V: Stored<512> + Stored<64> + Stored<8>>(
    tree: &Tree<V>,
    coords: &[Option<Coord>],
    paths: &mut [Path<V>],
    steps: &mut Steps,
)
    requires length { length paths.old ≡ length coords.now }
    requires unused { AreUnusedEmpty coords.now paths.old }
    ensures whole { ArePathsWhole tree.now coords.now paths.new }
    ensures unused { AreUnusedEmpty coords.now paths.new }
    ensures steps { steps.new ≤ steps.old + 3 * length coords.now }
{
    for k in 0..coords.len() {
        if let Some(p) = coords[k] {
            paths[k] = tree.trace(p, steps);
        }
    }
}

/// Returns the path at which calls without an accessor begin after a change of the tree. It has no node.
#[inline(always)]
pub(crate) fn nowhere<V: Stored<512> + Stored<64> + Stored<8>>(tree: &Tree<V>) -> Path<V>
    ensures { (p : Coord) → IsNear tree.now result p }
{
    let _ = tree;
    Path::Empty
}
