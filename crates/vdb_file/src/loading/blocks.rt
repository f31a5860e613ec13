//! Reads the blocks of a tree from a file, by their level.

ghost use Rattle.std.specs.Prelude.{◌≡◌, ◌<◌, false, Err, IfErr, IfOk, OnOk, Some};
ghost use Rattle.std.specs.Int.{w16, to_be_bytes};
ghost use Rattle.vdb_coord.specs.Blocks.{block_around, entries, entry_numbers, vdb};
ghost use Rattle.vdb_coord.specs.declared.Level.TheVariants.{Upper};
ghost use Rattle.vdb_tree.specs.ConstantBlocks.{is_constant};
ghost use Rattle.vdb_tree.specs.Field.{fill as filled};
ghost use Rattle.vdb_tree.specs.Layout.{field_of};
ghost use Rattle.vdb_tree.specs.Parts.{IsNextAbove};
ghost use Rattle.vdb_file.specs.Bodies.{listed};
ghost use Rattle.vdb_file.specs.internal.FieldFaults.{IsInner};
ghost use Rattle.vdb_file.specs.internal.Levels.{inner_body, level_body};
ghost use Rattle.vdb_file.specs.internal.LoadedFields.{AreLoadable, HasCapacityAt, IsNext, IsLoadable, KeptOutside, ShowsIn, ShowsInEach, entry_box, next_bytes};
ghost use Rattle.vdb_file.specs.internal.Loading.{IsIndex};
ghost use Rattle.vdb_file.specs.internal.Reading.{EndsWith, Moves, Reads, ahead};
ghost use Rattle.vdb_file.specs.internal.Written.{numbered};

use crate::fault::LoadFault;
use crate::loading::block_head::{Head, take_entry_number, take_head};
use crate::loading::input::Input;
use crate::loading::leaf_blocks::take_leaf_block;
use crate::loading::source::Source;
use vdb_coord::{Bits, Coord, Level};
use vdb_pool::Steps;
use vdb_region::fill;
use vdb_scene::GridValue;
use vdb_tree::{Tree, TreeRefusal};
use vdb_value::Cell;

/// Returns the least corner of an entry of the level's block around a coordinate.
fn entry_corner(p: Coord, level: Level, i: u16) -> Coord
    requires { i < entries vdb level }
    ensures { result ≡ (entry_box vdb level p i).min }
{
    p.entry_block_in(Bits::VDB, level, i).min()
}

/// Reads the level's block around a coordinate, which still holds nothing but the background.
#[cycle(blocks)]
pub(crate) fn take_block<V: GridValue, S: Source>(
    level: Level,
    p: Coord,
    tree: &mut Tree<V>,
    input: &mut Input,
    reader: &mut S,
    steps: &mut Steps,
) -> Result<(), LoadFault>
    requires ends { EndsWith input.old (S.state reader.old) }
    requires loadable { IsLoadable V.eq V.is_value vdb tree.old.limit level p (field_of vdb tree.old) }
    ensures moves { Moves input.old (S.state reader.old) input.new (S.state reader.new) result }
    ensures reads { Reads (λ _. field_of vdb tree.new) (ShowsIn V.eq V.is_value tree.old.background (block_around vdb level p)) (λ f. level_body V.eq V.bytes_of vdb level f (block_around vdb level p)) result
        (ahead input.old (S.state reader.old)) (ahead input.new (S.state reader.new)) }
    ensures kept { OnOk result (KeptOutside (block_around vdb level p) (field_of vdb tree.old) (field_of vdb tree.new)) }
    ensures limit { OnOk result (tree.new.limit ≡ tree.old.limit) }
    ensures inner { IfErr result IsInner }
{
    match level {
        Level::Leaf => take_leaf_block(p, tree, input, reader, steps),
        Level::Lower => take_inner(Level::Lower, Level::Leaf, p, tree, input, reader, steps),
        Level::Upper => take_inner(Level::Upper, Level::Lower, p, tree, input, reader, steps),
    }
}

/// Gives one cell to the level's block around a coordinate. The table has room for its root block, so an error can only be an
/// allocation failure.
fn fill_block<V: GridValue>(
    level: Level,
    p: Coord,
    cell: Cell<V>,
    tree: &mut Tree<V>,
    steps: &mut Steps,
) -> Result<(), LoadFault>
    requires { HasCapacityAt V.eq vdb tree.old.limit (block_around vdb Upper p) (field_of vdb tree.old) }
    ensures memory { IfErr result (λ fault. fault ≡ LoadFault.Memory) }
    ensures field { OnOk result (field_of vdb tree.new ≡ filled (block_around vdb level p) cell (field_of vdb tree.old)) }
    ensures limit { OnOk result (tree.new.limit ≡ tree.old.limit) }
{
    let bounds = p.block(level);
    match fill(tree, bounds, cell, steps) {
        Ok(()) => Ok(()),
        Err(TreeRefusal::Memory) => Err(LoadFault::Memory),
        Err(TreeRefusal::RootLimit) => unreachable!(), // the root block has capacity
    }
}

/// Reads the level's block around a coordinate, whose entries are blocks of the level below.
#[cycle(blocks)]
fn take_inner<V: GridValue, S: Source>(
    level: Level,
    below: Level,
    p: Coord,
    tree: &mut Tree<V>,
    input: &mut Input,
    reader: &mut S,
    steps: &mut Steps,
) -> Result<(), LoadFault>
    requires ends { EndsWith input.old (S.state reader.old) }
    requires levels { IsNextAbove level below }
    requires loadable { IsLoadable V.eq V.is_value vdb tree.old.limit level p (field_of vdb tree.old) }
    ensures moves { Moves input.old (S.state reader.old) input.new (S.state reader.new) result }
    ensures reads { Reads (λ _. field_of vdb tree.new) (ShowsIn V.eq V.is_value tree.old.background (block_around vdb level p)) (λ f. inner_body V.eq V.bytes_of vdb level below f (block_around vdb level p)) result
        (ahead input.old (S.state reader.old)) (ahead input.new (S.state reader.new)) }
    ensures kept { OnOk result (KeptOutside (block_around vdb level p) (field_of vdb tree.old) (field_of vdb tree.new)) }
    ensures limit { OnOk result (tree.new.limit ≡ tree.old.limit) }
    ensures inner { IfErr result IsInner }
{
    let most = Bits::VDB.entries(level);
    match take_head(tree.background(), most, input, reader)? {
        Head::One(cell) => fill_block(level, p, cell, tree, steps),
        Head::Node(count) => take_node(level, below, p, count, tree, input, reader, steps),
    }
}

/// Reads this many entries of the level's block around a coordinate. The block's cells must differ.
#[cycle(blocks)]
fn take_node<V: GridValue, S: Source>(
    level: Level,
    below: Level,
    p: Coord,
    count: u16,
    tree: &mut Tree<V>,
    input: &mut Input,
    reader: &mut S,
    steps: &mut Steps,
) -> Result<(), LoadFault>
    requires ends { EndsWith input.old (S.state reader.old) }
    requires levels { IsNextAbove level below }
    requires loadable { IsLoadable V.eq V.is_value vdb tree.old.limit level p (field_of vdb tree.old) }
    ensures moves { Moves input.old (S.state reader.old) input.new (S.state reader.new) result }
    ensures reads { Reads (λ _. field_of vdb tree.new) (λ f. ShowsInEach V.eq V.is_value tree.old.background (entry_box vdb level p) (entry_numbers vdb level) count f × (is_constant V.eq f (block_around vdb level p) ≡ false)) (λ f. numbered (λ i. level_body V.eq V.bytes_of vdb below f (entry_box vdb level p i)) (listed V.eq V.bytes_of vdb f level (block_around vdb level p))) result
        (ahead input.old (S.state reader.old)) (ahead input.new (S.state reader.new)) }
    ensures kept { OnOk result (KeptOutside (block_around vdb level p) (field_of vdb tree.old) (field_of vdb tree.new)) }
    ensures limit { OnOk result (tree.new.limit ≡ tree.old.limit) }
    ensures inner { IfErr result IsInner }
{
    take_entries(level, below, p, count, tree, input, reader, steps)?;
    if tree.constant(level, p, steps).is_some() {
        return Err(LoadFault::ConstantNode);
    }
    Ok(())
}

/// Reads this many entries of the level's block around a coordinate, each after its number.
#[cycle(blocks)]
fn take_entries<V: GridValue, S: Source>(
    level: Level,
    below: Level,
    p: Coord,
    count: u16,
    tree: &mut Tree<V>,
    input: &mut Input,
    reader: &mut S,
    steps: &mut Steps,
) -> Result<(), LoadFault>
    requires ends { EndsWith input.old (S.state reader.old) }
    requires levels { IsNextAbove level below }
    requires loadable { IsLoadable V.eq V.is_value vdb tree.old.limit level p (field_of vdb tree.old) }
    ensures moves { Moves input.old (S.state reader.old) input.new (S.state reader.new) result }
    ensures reads { Reads (λ _. field_of vdb tree.new) (ShowsInEach V.eq V.is_value tree.old.background (entry_box vdb level p) (entry_numbers vdb level) count) (λ f. numbered (λ i. level_body V.eq V.bytes_of vdb below f (entry_box vdb level p i)) (listed V.eq V.bytes_of vdb f level (block_around vdb level p))) result
        (ahead input.old (S.state reader.old)) (ahead input.new (S.state reader.new)) }
    ensures kept { OnOk result (KeptOutside (block_around vdb level p) (field_of vdb tree.old) (field_of vdb tree.new)) }
    ensures limit { OnOk result (tree.new.limit ≡ tree.old.limit) }
    ensures inner { IfErr result IsInner }
{
    let mut before = None;
    for _ in 0..count {
        let i = take_next(level, below, p, before, tree, input, reader, steps)?;
        before = Some(i);
    }
    Ok(())
}

/// Reads the number of an entry of the level's block around a coordinate, which must be greater than the one before, and then the entry.
#[cycle(blocks)]
fn take_next<V: GridValue, S: Source>(
    level: Level,
    below: Level,
    p: Coord,
    before: Option<u16>,
    tree: &mut Tree<V>,
    input: &mut Input,
    reader: &mut S,
    steps: &mut Steps,
) -> Result<u16, LoadFault>
    requires ends { EndsWith input.old (S.state reader.old) }
    requires levels { IsNextAbove level below }
    requires loadable { AreLoadable V.eq V.is_value vdb tree.old.limit below (IsIndex (entries vdb level) before) (entry_box vdb level p) (field_of vdb tree.old) }
    ensures moves { Moves input.old (S.state reader.old) input.new (S.state reader.new) result }
    ensures reads { Reads (λ i. (i, field_of vdb tree.new)) (IsNext V.eq V.is_value tree.old.background (IsIndex (entries vdb level) before) (entry_box vdb level p)) (next_bytes (to_be_bytes w16) (level_body V.eq V.bytes_of vdb below) (entry_box vdb level p)) result
        (ahead input.old (S.state reader.old)) (ahead input.new (S.state reader.new)) }
    ensures kept { IfOk result (λ i. KeptOutside (entry_box vdb level p i) (field_of vdb tree.old) (field_of vdb tree.new)) }
    ensures limit { OnOk result (tree.new.limit ≡ tree.old.limit) }
    ensures inner { IfErr result IsInner }
{
    let i = take_entry_number(level, before, input, reader)?;
    take_entry(level, below, p, i, tree, input, reader, steps)?;
    Ok(i)
}

/// Reads an entry of the level's block around a coordinate: a block of the level below.
#[cycle(blocks)]
fn take_entry<V: GridValue, S: Source>(
    level: Level,
    below: Level,
    p: Coord,
    i: u16,
    tree: &mut Tree<V>,
    input: &mut Input,
    reader: &mut S,
    steps: &mut Steps,
) -> Result<(), LoadFault>
    requires ends { EndsWith input.old (S.state reader.old) }
    requires levels { IsNextAbove level below }
    requires within { i < entries vdb level }
    requires loadable { IsLoadable V.eq V.is_value vdb tree.old.limit below (entry_box vdb level p i).min (field_of vdb tree.old) }
    ensures moves { Moves input.old (S.state reader.old) input.new (S.state reader.new) result }
    ensures reads { Reads (λ _. field_of vdb tree.new) (ShowsIn V.eq V.is_value tree.old.background (entry_box vdb level p i)) (λ f. level_body V.eq V.bytes_of vdb below f (entry_box vdb level p i)) result
        (ahead input.old (S.state reader.old)) (ahead input.new (S.state reader.new)) }
    ensures kept { OnOk result (KeptOutside (entry_box vdb level p i) (field_of vdb tree.old) (field_of vdb tree.new)) }
    ensures limit { OnOk result (tree.new.limit ≡ tree.old.limit) }
    ensures inner { IfErr result IsInner }
{
    let corner = entry_corner(p, level, i);
    take_block(below, corner, tree, input, reader, steps)
}
