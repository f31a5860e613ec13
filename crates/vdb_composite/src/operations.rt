//! The greater or the lesser of two trees' values, and the second's active cells in place of the first's.

ghost use Rattle.std.specs.Prelude.{◌≡◌, Err, OnErr, Some};
ghost use Rattle.vdb_coord.specs.Blocks.{vdb};
ghost use Rattle.vdb_tree.specs.Field.{combine, replace as replaced};
ghost use Rattle.vdb_tree.specs.Layout.{field_of};
ghost use Rattle.vdb_tree.specs.Outcome.{IsOutcome, ObeysLimit};
ghost use Rattle.vdb_value.specs.Blends.{blended};
ghost use Rattle.vdb_composite.specs.Mixes.{HasMix, mixed, mixed_value};

use crate::build::built;
use crate::mix::Mix;
use crate::root_limit::exceeds;
use vdb_node::Stored;
use vdb_pool::Steps;
use vdb_tree::{Tree, TreeRefusal};
use vdb_value::Blend;

/// Sets each coordinate to the greater of its two values, active if either was. The background becomes the greater of
/// the two, too (OpenVDB's `tools::compMax`). For booleans the result is the union.
///
/// The new tree is built beside the old one, with tiles where both have tiles. The call fails with `RootLimit` if
/// more upper extents than the root limit would hold a cell other than the background, and with `Memory` after an
/// allocation failure. Both leave the tree as it was.
pub fn maximum<V: Stored<512> + Stored<64> + Stored<8>>(
    tree: &mut Tree<V>,
    other: &Tree<V>,
    steps: &mut Steps,
) -> Result<(), TreeRefusal>
    ensures outcome { IsOutcome V.eq vdb tree.old.limit (field_of vdb tree.old)
        (combine V.greater (field_of vdb tree.old) (field_of vdb other.now)) (field_of vdb tree.new) result }
    ensures limit { tree.new.limit ≡ tree.old.limit }
    ensures kept { OnErr result (tree.new ≡ tree.old) }
{
    let background = tree.background().greatest(other.background());
    become_mix(tree, other, Mix::Values(Blend::Greatest), background, steps)
}

/// Sets each coordinate to the lesser of its two values, active if either was. The background becomes the lesser of
/// the two, too (OpenVDB's `tools::compMin`).
///
/// The new tree is built beside the old one, with tiles where both have tiles. The call fails with `RootLimit` if
/// more upper extents than the root limit would hold a cell other than the background, and with `Memory` after an
/// allocation failure. Both leave the tree as it was.
pub fn minimum<V: Stored<512> + Stored<64> + Stored<8>>(
    tree: &mut Tree<V>,
    other: &Tree<V>,
    steps: &mut Steps,
) -> Result<(), TreeRefusal>
    ensures outcome { IsOutcome V.eq vdb tree.old.limit (field_of vdb tree.old)
        (combine V.lesser (field_of vdb tree.old) (field_of vdb other.now)) (field_of vdb tree.new) result }
    ensures limit { tree.new.limit ≡ tree.old.limit }
    ensures kept { OnErr result (tree.new ≡ tree.old) }
{
    let background = tree.background().least(other.background());
    become_mix(tree, other, Mix::Values(Blend::Least), background, steps)
}

/// Copies the other's cells where they are active (OpenVDB's `tools::compReplace`); the background stays.
///
/// The new tree is built beside the old one, with tiles where both have tiles. The call fails with `RootLimit` if
/// more upper extents than the root limit would hold a cell other than the background, and with `Memory` after an
/// allocation failure. Both leave the tree as it was.
pub fn replace<V: Stored<512> + Stored<64> + Stored<8>>(
    tree: &mut Tree<V>,
    other: &Tree<V>,
    steps: &mut Steps,
) -> Result<(), TreeRefusal>
    ensures outcome { IsOutcome V.eq vdb tree.old.limit (field_of vdb tree.old)
        (replaced (field_of vdb tree.old) (field_of vdb other.now)) (field_of vdb tree.new) result }
    ensures limit { tree.new.limit ≡ tree.old.limit }
    ensures kept { OnErr result (tree.new ≡ tree.old) }
{
    let background = tree.background();
    become_mix(tree, other, Mix::Replace, background, steps)
}

/// Replaces a tree by its combination with another one, if every two cells combine.
fn become_mix<V: Stored<512> + Stored<64> + Stored<8>>(
    tree: &mut Tree<V>,
    other: &Tree<V>,
    mix: Mix,
    background: V,
    steps: &mut Steps,
) -> Result<(), TreeRefusal>
    requires background { mixed_value (blended V.greater V.lesser V.sum_of) mix (field_of vdb tree.old).background (field_of vdb other.now).background ≡ Some background }
    requires whole { HasMix (blended V.greater V.lesser V.sum_of) mix (field_of vdb tree.old) (field_of vdb other.now) }
    ensures outcome { IsOutcome V.eq vdb tree.old.limit (field_of vdb tree.old)
        (mixed (blended V.greater V.lesser V.sum_of) mix (field_of vdb tree.old) (field_of vdb other.now)) (field_of vdb tree.new) result }
    ensures limit { tree.new.limit ≡ tree.old.limit }
    ensures kept { OnErr result (tree.new ≡ tree.old) }
{
    match built(tree, other, mix, background, steps) {
        Some(made) => {
            let _ = made.limit(); // the proof learns from it that the roots keep to the limit
            *tree = made;
            Ok(())
        }
        None => Err(refusal(tree, other, mix, background, steps)),
    }
}

/// Returns why the combination of two trees can't be built.
pub(crate) fn refusal<V: Stored<512> + Stored<64> + Stored<8>>(
    tree: &Tree<V>,
    other: &Tree<V>,
    mix: Mix,
    background: V,
    steps: &mut Steps,
) -> TreeRefusal
    requires background { mixed_value (blended V.greater V.lesser V.sum_of) mix (field_of vdb tree.now).background (field_of vdb other.now).background ≡ Some background }
    requires whole { HasMix (blended V.greater V.lesser V.sum_of) mix (field_of vdb tree.now) (field_of vdb other.now) }
    ensures { ObeysLimit V.eq vdb tree.now.limit (mixed (blended V.greater V.lesser V.sum_of) mix (field_of vdb tree.now) (field_of vdb other.now)) (Err result) }
{
    if exceeds(tree, other, mix, background, steps) {
        TreeRefusal::RootLimit
    } else {
        TreeRefusal::Memory
    }
}
