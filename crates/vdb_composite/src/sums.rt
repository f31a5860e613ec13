//! The sums of two trees' values.

ghost use Rattle.std.specs.Prelude.{◌≡◌, Err, OnErr, Some, true};
ghost use Rattle.vdb_coord.specs.Blocks.{vdb};
ghost use Rattle.vdb_tree.specs.Layout.{field_of};
ghost use Rattle.vdb_composite.specs.SumOutcome.{IsSumOutcome};

use crate::build::built;
use crate::mix::Mix;
use crate::operations::refusal;
use crate::search::lacks;
use vdb_node::Stored;
use vdb_pool::Steps;
use vdb_tree::{Tree, TreeRefusal};
use vdb_value::Blend;

/// Why a sum fails. No cell changes then.
#[derive(Clone, Copy, Debug, PartialEq, Eq, thiserror::Error)]
pub enum SumRefusal {
    /// Two values, active or not, have a sum outside their type.
    #[error("sum out of range")]
    SumRange,
    /// More upper extents than the root limit would hold a cell other than the background.
    #[error("too many root blocks")]
    RootLimit,
    /// The allocator gave no memory, or a pool has no slot left.
    #[error("out of memory")]
    Memory,
}

/// Sets each coordinate to the sum of its two values, active if either was. The background becomes the sum of the
/// two, too (OpenVDB's `tools::compSum`). Booleans have no sums.
///
/// The new tree is built beside the old one, with tiles where both have tiles. The call fails with `SumRange` if some
/// two values, active or not, have a sum outside their type. Otherwise it fails with `RootLimit` if more upper
/// extents than the root limit would hold a cell other than the background. Otherwise it fails with `Memory` after an
/// allocation failure. Each error leaves the tree as it was.
pub fn sum<V: Stored<512> + Stored<64> + Stored<8>>(
    tree: &mut Tree<V>,
    other: &Tree<V>,
    steps: &mut Steps,
) -> Result<(), SumRefusal>
    requires { V.SUMS ≡ true }
    ensures outcome { IsSumOutcome V.eq V.sum_of vdb tree.old.limit (field_of vdb tree.old) (field_of vdb other.now) (field_of vdb tree.new) result }
    ensures limit { tree.new.limit ≡ tree.old.limit }
    ensures kept { OnErr result (tree.new ≡ tree.old) }
{
    let _ = tree.bits(); // the proof learns from it and from the limits that some upper extent is background in both
    let _ = tree.limit();
    let _ = other.limit();
    match tree.background().plus(other.background()) {
        None => Err(SumRefusal::SumRange),
        Some(background) => become_sum(tree, other, background, steps),
    }
}

/// Sets each coordinate to the sum of its two values, for backgrounds that have a sum.
fn become_sum<V: Stored<512> + Stored<64> + Stored<8>>(
    tree: &mut Tree<V>,
    other: &Tree<V>,
    background: V,
    steps: &mut Steps,
) -> Result<(), SumRefusal>
    requires { V.sum_of (field_of vdb tree.old).background (field_of vdb other.now).background ≡ Some background }
    ensures outcome { IsSumOutcome V.eq V.sum_of vdb tree.old.limit (field_of vdb tree.old) (field_of vdb other.now) (field_of vdb tree.new) result }
    ensures limit { tree.new.limit ≡ tree.old.limit }
    ensures kept { OnErr result (tree.new ≡ tree.old) }
{
    match built(tree, other, Mix::Values(Blend::Sum), background, steps) {
        Some(made) => {
            let _ = made.limit(); // the proof learns from it that the roots keep to the limit
            *tree = made;
            Ok(())
        }
        None => Err(sum_refusal(tree, other, background, steps)),
    }
}

/// Returns why the sum of two trees can't be built.
fn sum_refusal<V: Stored<512> + Stored<64> + Stored<8>>(
    tree: &Tree<V>,
    other: &Tree<V>,
    background: V,
    steps: &mut Steps,
) -> SumRefusal
    requires { V.sum_of (field_of vdb tree.now).background (field_of vdb other.now).background ≡ Some background }
    ensures { IsSumOutcome V.eq V.sum_of vdb tree.now.limit (field_of vdb tree.now) (field_of vdb other.now) (field_of vdb tree.now) (Err result) }
{
    let mix = Mix::Values(Blend::Sum);
    if lacks(tree, other, mix, steps) {
        return SumRefusal::SumRange;
    }
    match refusal(tree, other, mix, background, steps) {
        TreeRefusal::RootLimit => SumRefusal::RootLimit,
        TreeRefusal::Memory => SumRefusal::Memory,
    }
}
