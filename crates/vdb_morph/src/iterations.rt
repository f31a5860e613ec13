//! Dilation and erosion of a tree by some iterations.

ghost use Rattle.std.specs.Prelude.{◌≡◌, ◌≤◌, IfErr, IfSome};
ghost use Rattle.vdb_coord.specs.Blocks.{vdb};
ghost use Rattle.vdb_tree.specs.Field.{dilate as dilation, erode as erosion, iterations as iterated};
ghost use Rattle.vdb_tree.specs.Layout.{field_of};
ghost use Rattle.vdb_tree.specs.Outcome.{IsOutcome};
ghost use Rattle.vdb_tree.specs.declared.refusal.TreeRefusal.TheVariants.{Memory};
ghost use Rattle.vdb_morph.specs.Growth.{IsGrowth};
ghost use Rattle.vdb_morph.specs.internal.Iterating.{topology};

use crate::dilated::dilated;
use crate::eroded::eroded;
use vdb_node::Stored;
use vdb_pool::Steps;
use vdb_topology::{intersect, unite};
use vdb_tree::{Tree, TreeRefusal};

/// Activates, in each iteration, every voxel that has an active face neighbour, and keeps the values (OpenVDB's
/// `tools::dilateActiveValues` with `NN_FACE`). An iteration reads the states from before it. The number of iterations is 1 to
/// 16.
///
/// Fails with `RootLimit` if more root blocks than the limit would have a cell other than the inactive background, and with
/// `Memory` if an allocation fails. `Memory` may also hide a `RootLimit`. Both leave every cell unchanged.
pub fn dilate<V: Stored<512> + Stored<64> + Stored<8>>(
    tree: &mut Tree<V>,
    iterations: u32,
    steps: &mut Steps,
) -> Result<(), TreeRefusal>
    requires some { 1 ≤ iterations }
    requires few { iterations ≤ 16 }
    ensures outcome { IsGrowth V.eq vdb tree.old.limit (field_of vdb tree.old)
        (iterated iterations dilation (field_of vdb tree.old)) (field_of vdb tree.new) result }
    ensures limit { tree.new.limit ≡ tree.old.limit }
{
    match dilated_states(tree, iterations, steps) {
        Some(states) => unite(tree, &states, steps),
        None => Err(TreeRefusal::Memory),
    }
}

/// Deactivates, in each iteration, every voxel that has an inactive face neighbour, and keeps the values (OpenVDB's
/// `tools::erodeActiveValues` with `NN_FACE`). An iteration reads the states from before it. The number of iterations is 1 to 16.
///
/// Fails with `Memory` if an allocation fails, and leaves every cell unchanged.
pub fn erode<V: Stored<512> + Stored<64> + Stored<8>>(
    tree: &mut Tree<V>,
    iterations: u32,
    steps: &mut Steps,
) -> Result<(), TreeRefusal>
    requires some { 1 ≤ iterations }
    requires few { iterations ≤ 16 }
    ensures outcome { IsOutcome V.eq vdb tree.old.limit (field_of vdb tree.old)
        (iterated iterations erosion (field_of vdb tree.old)) (field_of vdb tree.new) result }
    ensures limit { tree.new.limit ≡ tree.old.limit }
    ensures memory { IfErr result (λ refusal. refusal ≡ Memory) }
{
    let _ = tree.limit(); // the tree keeps to it
    match eroded_states(tree, iterations, steps) {
        Some(states) => intersect(tree, &states, steps),
        None => Err(TreeRefusal::Memory),
    }
}

/// Returns the states of a tree after some iterations of dilation: `None` if an allocation fails.
fn dilated_states<V: Stored<512> + Stored<64> + Stored<8>>(
    tree: &Tree<V>,
    iterations: u32,
    steps: &mut Steps,
) -> Option<Tree<bool>>
    ensures { 1 ≤ iterations → IfSome result (λ states. field_of vdb states ≡ topology (iterated iterations dilation (field_of vdb tree.now))) }
{
    let mut states = dilated(tree, steps).ok()?;
    for _ in 1..iterations {
        states = dilated(&states, steps).ok()?;
    }
    Some(states)
}

/// Returns the states of a tree after some iterations of erosion: `None` if an allocation fails.
fn eroded_states<V: Stored<512> + Stored<64> + Stored<8>>(
    tree: &Tree<V>,
    iterations: u32,
    steps: &mut Steps,
) -> Option<Tree<bool>>
    ensures { 1 ≤ iterations → IfSome result (λ states. field_of vdb states ≡ topology (iterated iterations erosion (field_of vdb tree.now))) }
{
    let mut states = eroded(tree, steps).ok()?;
    for _ in 1..iterations {
        states = eroded(&states, steps).ok()?;
    }
    Some(states)
}
