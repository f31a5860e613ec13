//! Boxes filled with one cell.

ghost use Rattle.std.specs.Prelude.{◌≡◌, Err, OnOk};
ghost use Rattle.vdb_coord.specs.Blocks.{vdb};
ghost use Rattle.vdb_coord.specs.declared.Coord.{Coord};
ghost use Rattle.vdb_coord.specs.declared.Level.{Level};
ghost use Rattle.vdb_node.specs.declared.Entry.TheVariants.{Tile};
ghost use Rattle.vdb_tree.specs.Field.{fill as filled};
ghost use Rattle.vdb_tree.specs.Layout.{entry_over, field_of};
ghost use Rattle.vdb_tree.specs.Outcome.{IsOutcome};
ghost use Rattle.vdb_tree.specs.SplitBox.{IsCovered};
ghost use Rattle.vdb_tree.specs.Smallest.{IsLeast};
ghost use Rattle.vdb_tree.specs.declared.refusal.TreeRefusal.TheVariants.{Memory};

use vdb_coord::Bounds;
use vdb_node::Stored;
use vdb_pool::Steps;
use vdb_tree::{Tree, TreeRefusal};
use vdb_value::Cell;

/// Sets each coordinate of the box to this cell (OpenVDB's `Tree::fill`). Inside the box the tree then has tiles, as
/// large as the box allows, and the nodes that the tiles replace are given back to their pools.
///
/// The call fails with `RootLimit` if more upper extents than the root limit would hold a cell other than the
/// background, and with `Memory` after an allocation failure. Both leave every cell as it was. After `Memory` the
/// tree is pruned, so that it has no node over a block of one cell: the nodes made for the box are given back to
/// their pools.
pub fn fill<V: Stored<512> + Stored<64> + Stored<8>>(
    tree: &mut Tree<V>,
    bounds: Bounds,
    cell: Cell<V>,
    steps: &mut Steps,
) -> Result<(), TreeRefusal>
    ensures outcome { IsOutcome V.eq vdb tree.old.limit (field_of vdb tree.old)
        (filled bounds cell (field_of vdb tree.old)) (field_of vdb tree.new) result }
    ensures limit { tree.new.limit ≡ tree.old.limit }
    ensures tiles { OnOk result ((level : Level) (p : Coord) → IsCovered vdb bounds level p → entry_over vdb level tree.new p ≡ Tile cell) }
    ensures given_back { result ≡ Err Memory → IsLeast V.eq vdb tree.new }
{
    match tree.split(bounds, cell, steps) {
        Ok(()) => {
            tree.paint(bounds, cell, steps);
            Ok(())
        }
        Err(TreeRefusal::RootLimit) => Err(TreeRefusal::RootLimit),
        Err(TreeRefusal::Memory) => {
            tree.prune(steps);
            Err(TreeRefusal::Memory)
        }
    }
}
