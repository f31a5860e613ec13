//! Reads the leaf extents of a tree from a file.

ghost use Rattle.std.specs.Prelude.{◌≡◌, Err, IfErr, OnOk};
ghost use Rattle.vdb_coord.specs.Blocks.{block_around, vdb};
ghost use Rattle.vdb_coord.specs.declared.Level.TheVariants.{Leaf as leaf_level, Upper};
ghost use Rattle.vdb_tree.specs.Layout.{field_of};
ghost use Rattle.vdb_tree.specs.Leaves.{with_leaf};
ghost use Rattle.vdb_file.specs.Bodies.{leaf_body};
ghost use Rattle.vdb_file.specs.internal.FieldFaults.{IsInner};
ghost use Rattle.vdb_file.specs.internal.LeafVoxels.{IsMixed, voxel_count, voxels_bytes};
ghost use Rattle.vdb_file.specs.internal.LoadedFields.{HasCapacityAt, IsLoadable, KeptOutside, ShowsIn};
ghost use Rattle.vdb_file.specs.internal.Reading.{EndsWith, Moves, Reads, ahead};

use crate::fault::LoadFault;
use crate::loading::block_head::{Head, take_head};
use crate::loading::input::Input;
use crate::loading::leaf::{VOXELS, take_listed_voxels};
use crate::loading::source::Source;
use vdb_coord::{Coord, Level};
use vdb_node::Leaf;
use vdb_pool::Steps;
use vdb_scene::GridValue;
use vdb_tree::{Tree, TreeRefusal};

/// Gives the cells of a leaf to the leaf extent around a coordinate. The table has room for its root block, so an error can only
/// be an allocation failure.
fn write_leaf_block<V: GridValue>(
    p: Coord,
    leaf: &Leaf<V, 3, 8>,
    tree: &mut Tree<V>,
    steps: &mut Steps,
) -> Result<(), LoadFault>
    requires { HasCapacityAt V.eq vdb tree.old.limit (block_around vdb Upper p) (field_of vdb tree.old) }
    ensures memory { IfErr result (λ fault. fault ≡ LoadFault.Memory) }
    ensures field { OnOk result (field_of vdb tree.new ≡ with_leaf vdb p leaf.now (field_of vdb tree.old)) }
    ensures limit { OnOk result (tree.new.limit ≡ tree.old.limit) }
{
    match tree.write_leaf(p, leaf, steps) {
        Ok(()) => Ok(()),
        Err(TreeRefusal::Memory) => Err(LoadFault::Memory),
        Err(TreeRefusal::RootLimit) => unreachable!(), // the root block has capacity
    }
}

/// Reads this many voxels of the leaf extent around a coordinate. The block's cells must differ.
fn take_leaf<V: GridValue, S: Source>(
    p: Coord,
    count: u16,
    tree: &mut Tree<V>,
    input: &mut Input,
    reader: &mut S,
    steps: &mut Steps,
) -> Result<(), LoadFault>
    requires ends { EndsWith input.old (S.state reader.old) }
    requires loadable { IsLoadable V.eq V.is_value vdb tree.old.limit leaf_level p (field_of vdb tree.old) }
    ensures moves { Moves input.old (S.state reader.old) input.new (S.state reader.new) result }
    ensures reads { Reads (λ _. field_of vdb tree.new) (λ f. IsMixed V.eq V.is_value tree.old.background vdb p f × (voxel_count V.eq V.bytes_of vdb p f ≡ count)) (voxels_bytes V.eq V.bytes_of vdb p) result
        (ahead input.old (S.state reader.old)) (ahead input.new (S.state reader.new)) }
    ensures kept { OnOk result (KeptOutside (block_around vdb leaf_level p) (field_of vdb tree.old) (field_of vdb tree.new)) }
    ensures limit { OnOk result (tree.new.limit ≡ tree.old.limit) }
    ensures inner { IfErr result IsInner }
{
    let background = tree.background();
    let leaf = take_listed_voxels(tree.alloc(), background, count, input, reader)?;
    write_leaf_block(p, &leaf, tree, steps)
}

/// Reads the leaf extent around a coordinate, which still holds nothing but the background.
pub(crate) fn take_leaf_block<V: GridValue, S: Source>(
    p: Coord,
    tree: &mut Tree<V>,
    input: &mut Input,
    reader: &mut S,
    steps: &mut Steps,
) -> Result<(), LoadFault>
    requires ends { EndsWith input.old (S.state reader.old) }
    requires loadable { IsLoadable V.eq V.is_value vdb tree.old.limit leaf_level p (field_of vdb tree.old) }
    ensures moves { Moves input.old (S.state reader.old) input.new (S.state reader.new) result }
    ensures reads { Reads (λ _. field_of vdb tree.new) (ShowsIn V.eq V.is_value tree.old.background (block_around vdb leaf_level p)) (λ f. leaf_body V.eq V.bytes_of vdb f (block_around vdb leaf_level p)) result
        (ahead input.old (S.state reader.old)) (ahead input.new (S.state reader.new)) }
    ensures kept { OnOk result (KeptOutside (block_around vdb leaf_level p) (field_of vdb tree.old) (field_of vdb tree.new)) }
    ensures limit { OnOk result (tree.new.limit ≡ tree.old.limit) }
    ensures inner { IfErr result IsInner }
{
    match take_head(tree.background(), VOXELS, input, reader)? {
        Head::One(cell) => {
            let Ok(leaf) = Leaf::new_constant(tree.alloc(), cell) else {
                return Err(LoadFault::Memory);
            };
            write_leaf_block(p, &leaf, tree, steps)
        }
        Head::Node(count) => take_leaf(p, count, tree, input, reader, steps),
    }
}
