//! Two grids' states combined: union, difference and intersection of the active voxels.
//!
//! The values of the grid that changes stay, and the other grid stays as it is; the two may have different types of
//! values. Nodes are made before the first state changes, so that a failed call leaves every cell as it was.
#![tactic(auto)]

ghost use Rattle.std.specs.Prelude.{◌≡◌, IfErr};
ghost use Rattle.vdb_coord.specs.Blocks.{vdb};
ghost use Rattle.vdb_tree.specs.Field.{intersect as intersected, subtract as subtracted, unite as united};
ghost use Rattle.vdb_tree.specs.Layout.{field_of};
ghost use Rattle.vdb_tree.specs.Outcome.{IsOutcome};
ghost use Rattle.vdb_tree.specs.declared.refusal.TreeRefusal.TheVariants.{Memory};

use vdb_node::Stored;
use vdb_pool::Steps;
use vdb_tree::{StateRule, Tree, TreeRefusal};

/// Activates each voxel of a tree that is active in another tree; active voxels stay active (OpenVDB's
/// `Tree::topologyUnion`).
///
/// The call fails with `RootLimit` if more upper extents than the root limit would hold a cell other than the
/// background, and with `Memory` after an allocation failure. Both leave every cell as it was.
pub fn unite<V: Stored<512> + Stored<64> + Stored<8>, X: Stored<512> + Stored<64> + Stored<8>>(
    tree: &mut Tree<V>,
    other: &Tree<X>,
    steps: &mut Steps,
) -> Result<(), TreeRefusal>
    ensures outcome { IsOutcome V.eq vdb tree.old.limit (field_of vdb tree.old)
        (united (field_of vdb tree.old) (field_of vdb other.now)) (field_of vdb tree.new) result }
    ensures limit { tree.new.limit ≡ tree.old.limit }
{
    tree.combine_states(other, StateRule::Unite, steps)
}

/// Deactivates each voxel of a tree that is active in another tree (OpenVDB's `Tree::topologyDifference`).
///
/// The call fails with `Memory` after an allocation failure, and leaves every cell as it was.
pub fn subtract<V: Stored<512> + Stored<64> + Stored<8>, X: Stored<512> + Stored<64> + Stored<8>>(
    tree: &mut Tree<V>,
    other: &Tree<X>,
    steps: &mut Steps,
) -> Result<(), TreeRefusal>
    ensures outcome { IsOutcome V.eq vdb tree.old.limit (field_of vdb tree.old)
        (subtracted (field_of vdb tree.old) (field_of vdb other.now)) (field_of vdb tree.new) result }
    ensures limit { tree.new.limit ≡ tree.old.limit }
    ensures memory { IfErr result (λ refusal. refusal ≡ Memory) }
{
    tree.combine_states(other, StateRule::Subtract, steps)
}

/// Deactivates each voxel of a tree that isn't active in another tree. Unlike OpenVDB's `Tree::topologyIntersection`,
/// it keeps the values.
///
/// The call fails with `Memory` after an allocation failure, and leaves every cell as it was.
pub fn intersect<V: Stored<512> + Stored<64> + Stored<8>, X: Stored<512> + Stored<64> + Stored<8>>(
    tree: &mut Tree<V>,
    other: &Tree<X>,
    steps: &mut Steps,
) -> Result<(), TreeRefusal>
    ensures outcome { IsOutcome V.eq vdb tree.old.limit (field_of vdb tree.old)
        (intersected (field_of vdb tree.old) (field_of vdb other.now)) (field_of vdb tree.new) result }
    ensures limit { tree.new.limit ≡ tree.old.limit }
    ensures memory { IfErr result (λ refusal. refusal ≡ Memory) }
{
    tree.combine_states(other, StateRule::Intersect, steps)
}
