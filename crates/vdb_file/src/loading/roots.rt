//! Reads the root blocks of a tree from a file.

ghost use Rattle.std.specs.Prelude.{◌≡◌, ◌≤◌, ◌++◌, Err, IfErr, IfOk, IsTrue, OnOk, Some};
ghost use Rattle.std.specs.List.{flat_map};
ghost use Rattle.vdb_coord.specs.Blocks.{block, block_numbers, vdb};
ghost use Rattle.vdb_coord.specs.Space.{coordinates, is_inside};
ghost use Rattle.vdb_coord.specs.declared.Level.TheVariants.{Upper};
ghost use Rattle.vdb_tree.specs.ConstantBlocks.{root_keys};
ghost use Rattle.vdb_tree.specs.Field.{new};
ghost use Rattle.vdb_tree.specs.Layout.{field_of};
ghost use Rattle.vdb_file.specs.Bodies.{key_bytes, root_body, roots_bytes};
ghost use Rattle.vdb_file.specs.internal.FieldFaults.{IsInner};
ghost use Rattle.vdb_file.specs.internal.LoadedFields.{AreLoadable, IsNext, IsLoadable, IsWithin, KeptOutside, ShowsIn, ShowsInEach, next_bytes};
ghost use Rattle.vdb_file.specs.internal.Loading.{IsKey};
ghost use Rattle.vdb_file.specs.internal.Reading.{EndsWith, Moves, Reads, ahead};

use crate::fault::LoadFault;
use crate::loading::block_head::take_key;
use crate::loading::blocks::take_block;
use crate::loading::fields::take_u32;
use crate::loading::input::Input;
use crate::loading::source::Source;
use vdb_coord::{Bits, Coord, Level};
use vdb_pool::Steps;
use vdb_scene::GridValue;
use vdb_tree::Tree;

/// Reads the count of the root blocks, which must not exceed the tree's root limit, and then each block after its key. The tree
/// still holds nothing but the background.
pub(crate) fn take_roots<V: GridValue, S: Source>(
    tree: &mut Tree<V>,
    input: &mut Input,
    reader: &mut S,
    steps: &mut Steps,
) -> Result<(), LoadFault>
    requires ends { EndsWith input.old (S.state reader.old) }
    requires fresh { field_of vdb tree.old ≡ new tree.old.background }
    requires value { V.is_value tree.old.background }
    ensures moves { Moves input.old (S.state reader.old) input.new (S.state reader.new) result }
    ensures reads { Reads (λ _. field_of vdb tree.new) (IsWithin V.eq V.is_value tree.old.background vdb tree.old.limit) (roots_bytes V.eq V.bytes_of vdb) result
        (ahead input.old (S.state reader.old)) (ahead input.new (S.state reader.new)) }
    ensures limit { OnOk result (tree.new.limit ≡ tree.old.limit) }
    ensures inner { IfErr result IsInner }
{
    let limit = tree.limit();
    let count = take_u32(input, reader)?;
    if count > limit {
        return Err(LoadFault::RootLimit);
    }
    take_keyed_roots(count, tree, input, reader, steps)
}

/// Reads this many root blocks, each after its key.
fn take_keyed_roots<V: GridValue, S: Source>(
    count: u32,
    tree: &mut Tree<V>,
    input: &mut Input,
    reader: &mut S,
    steps: &mut Steps,
) -> Result<(), LoadFault>
    requires ends { EndsWith input.old (S.state reader.old) }
    requires fresh { field_of vdb tree.old ≡ new tree.old.background }
    requires value { V.is_value tree.old.background }
    requires few { count ≤ tree.old.limit }
    ensures moves { Moves input.old (S.state reader.old) input.new (S.state reader.new) result }
    ensures reads { Reads (λ _. field_of vdb tree.new) (ShowsInEach V.eq V.is_value tree.old.background (block vdb Upper) (coordinates (block_numbers vdb Upper)) count)
        (λ f. flat_map (λ k. key_bytes k ++ root_body V.eq V.bytes_of vdb f (block vdb Upper k)) (root_keys V.eq vdb f)) result
        (ahead input.old (S.state reader.old)) (ahead input.new (S.state reader.new)) }
    ensures limit { OnOk result (tree.new.limit ≡ tree.old.limit) }
    ensures inner { IfErr result IsInner }
{
    let mut before = None;
    for _ in 0..count {
        let key = take_next_root(before, tree, input, reader, steps)?;
        before = Some(key);
    }
    Ok(())
}

/// Reads the key of a root block, which must be greater than the one before, and then the block.
fn take_next_root<V: GridValue, S: Source>(
    before: Option<Coord>,
    tree: &mut Tree<V>,
    input: &mut Input,
    reader: &mut S,
    steps: &mut Steps,
) -> Result<Coord, LoadFault>
    requires ends { EndsWith input.old (S.state reader.old) }
    requires loadable { AreLoadable V.eq V.is_value vdb tree.old.limit Upper (IsKey vdb before) (block vdb Upper) (field_of vdb tree.old) }
    ensures moves { Moves input.old (S.state reader.old) input.new (S.state reader.new) result }
    ensures reads { Reads (λ k. (k, field_of vdb tree.new)) (IsNext V.eq V.is_value tree.old.background (IsKey vdb before) (block vdb Upper)) (next_bytes key_bytes (root_body V.eq V.bytes_of vdb) (block vdb Upper)) result
        (ahead input.old (S.state reader.old)) (ahead input.new (S.state reader.new)) }
    ensures kept { IfOk result (λ k. KeptOutside (block vdb Upper k) (field_of vdb tree.old) (field_of vdb tree.new)) }
    ensures limit { OnOk result (tree.new.limit ≡ tree.old.limit) }
    ensures inner { IfErr result IsInner }
{
    let key = take_key(before, input, reader)?;
    take_root_at(key, tree, input, reader, steps)?;
    Ok(key)
}

/// Reads the root block of a key.
fn take_root_at<V: GridValue, S: Source>(
    key: Coord,
    tree: &mut Tree<V>,
    input: &mut Input,
    reader: &mut S,
    steps: &mut Steps,
) -> Result<(), LoadFault>
    requires ends { EndsWith input.old (S.state reader.old) }
    requires within { IsTrue (is_inside (block_numbers vdb Upper) key) }
    requires loadable { IsLoadable V.eq V.is_value vdb tree.old.limit Upper (block vdb Upper key).min (field_of vdb tree.old) }
    ensures moves { Moves input.old (S.state reader.old) input.new (S.state reader.new) result }
    ensures reads { Reads (λ _. field_of vdb tree.new) (ShowsIn V.eq V.is_value tree.old.background (block vdb Upper key)) (λ f. root_body V.eq V.bytes_of vdb f (block vdb Upper key)) result
        (ahead input.old (S.state reader.old)) (ahead input.new (S.state reader.new)) }
    ensures kept { OnOk result (KeptOutside (block vdb Upper key) (field_of vdb tree.old) (field_of vdb tree.new)) }
    ensures limit { OnOk result (tree.new.limit ≡ tree.old.limit) }
    ensures inner { IfErr result IsInner }
{
    let corner = root_corner(key);
    take_block(Level::Upper, corner, tree, input, reader, steps)
}

/// Returns the least corner of the root block of a key.
fn root_corner(key: Coord) -> Coord
    requires { IsTrue (is_inside (block_numbers vdb Upper) key) }
    ensures { result ≡ (block vdb Upper key).min }
{
    key.numbered_block_in(Bits::VDB, Level::Upper).min()
}
