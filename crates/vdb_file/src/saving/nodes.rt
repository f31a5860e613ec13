//! Writes the lower blocks and root blocks of a tree.

ghost use Rattle.std.specs.Prelude.{◌≡◌, ◌++◌, ◌||◌, is_err, IsOk, OnOk};
ghost use Rattle.std.specs.Int.{w16, to_be_bytes};
ghost use Rattle.std.specs.List.{flat_map};
ghost use Rattle.vdb_coord.specs.Blocks.{block, block_around, sub_block, vdb};
ghost use Rattle.vdb_coord.specs.declared.Level.TheVariants.{Upper};
ghost use Rattle.vdb_tree.specs.ConstantBlocks.{root_keys};
ghost use Rattle.vdb_tree.specs.Layout.{field_of};
ghost use Rattle.vdb_tree.specs.Parts.{IsNextAbove};
ghost use Rattle.vdb_scene.specs.Watched.{has_failed, source};
ghost use Rattle.vdb_file.specs.Bodies.{key_bytes, listed, root_body, roots_bytes};
ghost use Rattle.vdb_file.specs.internal.Levels.{inner_body, level_body};
ghost use Rattle.vdb_file.specs.internal.Written.{Puts, numbered, sent};

use crate::fault::SaveFault;
use crate::saving::leaves::{next_listed, put_cell, put_leaf, put_node_head};
use crate::saving::output::Output;
use std::io::Write;
use vdb_coord::{Bits, Coord, Level};
use vdb_pool::Steps;
use vdb_scene::{GridValue, Watched};
use vdb_tree::Tree;
use vdb_value::Cell;

/// Writes the body of the level's block around a coordinate.
#[cycle(blocks)]
fn put_block<V: GridValue, W: Write, const C: u32>(
    out: &mut Output<C>,
    writer: &mut Watched<W>,
    tree: &Tree<V>,
    level: Level,
    p: Coord,
    steps: &mut Steps,
) -> Result<(), SaveFault>
    ensures counts { C ≡ 1 → IsOk result }
    ensures puts { OnOk result (Puts (sent C out.old (W.contents (source writer.old))) (sent C out.new (W.contents (source writer.new)))
        (level_body V.eq V.bytes_of vdb level (field_of vdb tree.now) (block_around vdb level p))) }
    ensures failed { has_failed writer.new ≡ (has_failed writer.old || is_err result) }
{
    match level {
        Level::Leaf => put_leaf(out, writer, tree, p, steps),
        Level::Lower => put_node(out, writer, tree, Level::Lower, Level::Leaf, p, steps),
        Level::Upper => put_node(out, writer, tree, Level::Upper, Level::Lower, p, steps),
    }
}

/// Writes the body of the level's block around a coordinate, whose entries are blocks of the level below.
#[cycle(blocks)]
fn put_node<V: GridValue, W: Write, const C: u32>(
    out: &mut Output<C>,
    writer: &mut Watched<W>,
    tree: &Tree<V>,
    level: Level,
    below: Level,
    p: Coord,
    steps: &mut Steps,
) -> Result<(), SaveFault>
    requires levels { IsNextAbove level below }
    ensures counts { C ≡ 1 → IsOk result }
    ensures puts { OnOk result (Puts (sent C out.old (W.contents (source writer.old))) (sent C out.new (W.contents (source writer.new)))
        (inner_body V.eq V.bytes_of vdb level below (field_of vdb tree.now) (block_around vdb level p))) }
    ensures failed { has_failed writer.new ≡ (has_failed writer.old || is_err result) }
{
    if let Some(cell) = tree.constant(level, p, steps) {
        return put_cell(out, writer, cell);
    }
    put_node_head(out, writer, tree, level, below, p, steps)?;
    put_entries(out, writer, tree, level, below, p, steps)
}

/// Writes each entry of the level's block around a coordinate that holds anything but the background.
#[cycle(blocks)]
fn put_entries<V: GridValue, W: Write, const C: u32>(
    out: &mut Output<C>,
    writer: &mut Watched<W>,
    tree: &Tree<V>,
    level: Level,
    below: Level,
    p: Coord,
    steps: &mut Steps,
) -> Result<(), SaveFault>
    requires levels { IsNextAbove level below }
    ensures counts { C ≡ 1 → IsOk result }
    ensures puts { OnOk result (Puts (sent C out.old (W.contents (source writer.old))) (sent C out.new (W.contents (source writer.new)))
        (numbered (λ i. level_body V.eq V.bytes_of vdb below (field_of vdb tree.now) (sub_block vdb level (block_around vdb level p) i)) (listed V.eq V.bytes_of vdb (field_of vdb tree.now) level (block_around vdb level p)))) }
    ensures failed { has_failed writer.new ≡ (has_failed writer.old || is_err result) }
{
    let mut from = 0;
    while let Some(i) = next_listed(tree, level, below, p, from, steps) {
        let corner = p.entry_block_in(Bits::VDB, level, i as u16).min();
        put_entry(out, writer, tree, below, i as u16, corner, steps)?;
        from = i + 1;
    }
    Ok(())
}

/// Writes the number of an entry, and then the level's block around a coordinate.
#[cycle(blocks)]
fn put_entry<V: GridValue, W: Write, const C: u32>(
    out: &mut Output<C>,
    writer: &mut Watched<W>,
    tree: &Tree<V>,
    level: Level,
    i: u16,
    p: Coord,
    steps: &mut Steps,
) -> Result<(), SaveFault>
    ensures counts { C ≡ 1 → IsOk result }
    ensures puts { OnOk result (Puts (sent C out.old (W.contents (source writer.old))) (sent C out.new (W.contents (source writer.new)))
        (to_be_bytes w16 i ++ level_body V.eq V.bytes_of vdb level (field_of vdb tree.now) (block_around vdb level p))) }
    ensures failed { has_failed writer.new ≡ (has_failed writer.old || is_err result) }
{
    out.put(writer, i.to_be_bytes().as_slice())?;
    put_block(out, writer, tree, level, p, steps)
}

/// Writes the key of a root block: twelve bytes.
fn put_key<W: Write, const C: u32>(
    out: &mut Output<C>,
    writer: &mut Watched<W>,
    key: Coord,
) -> Result<(), SaveFault>
    ensures counts { C ≡ 1 → IsOk result }
    ensures puts { OnOk result (Puts (sent C out.old (W.contents (source writer.old))) (sent C out.new (W.contents (source writer.new)))
        (key_bytes key)) }
    ensures failed { has_failed writer.new ≡ (has_failed writer.old || is_err result) }
{
    out.put(writer, key.x.to_be_bytes().as_slice())?;
    out.put(writer, key.y.to_be_bytes().as_slice())?;
    out.put(writer, key.z.to_be_bytes().as_slice())
}

/// Writes the key of the root block around a coordinate, and then the block.
fn put_keyed_root<V: GridValue, W: Write, const C: u32>(
    out: &mut Output<C>,
    writer: &mut Watched<W>,
    tree: &Tree<V>,
    key: Coord,
    p: Coord,
    steps: &mut Steps,
) -> Result<(), SaveFault>
    ensures counts { C ≡ 1 → IsOk result }
    ensures puts { OnOk result (Puts (sent C out.old (W.contents (source writer.old))) (sent C out.new (W.contents (source writer.new)))
        (key_bytes key ++ root_body V.eq V.bytes_of vdb (field_of vdb tree.now) (block_around vdb Upper p))) }
    ensures failed { has_failed writer.new ≡ (has_failed writer.old || is_err result) }
{
    put_key(out, writer, key)?;
    put_block(out, writer, tree, Level::Upper, p, steps)
}

/// Writes the count of the root blocks that hold anything but the background, in four bytes, and then each of them after its key.
#[tactic(auto, unfolding(crate::specs::Bodies::roots_bytes))]
pub(crate) fn put_roots<V: GridValue, W: Write, const C: u32>(
    out: &mut Output<C>,
    writer: &mut Watched<W>,
    tree: &Tree<V>,
    steps: &mut Steps,
) -> Result<(), SaveFault>
    ensures counts { C ≡ 1 → IsOk result }
    ensures puts { OnOk result (Puts (sent C out.old (W.contents (source writer.old))) (sent C out.new (W.contents (source writer.new)))
        (roots_bytes V.eq V.bytes_of vdb (field_of vdb tree.now))) }
    ensures failed { has_failed writer.new ≡ (has_failed writer.old || is_err result) }
{
    let count = tree.root_blocks(steps).to_be_bytes();
    out.put(writer, &count[4..])?; // the table's limit fits four bytes
    put_each_root(out, writer, tree, steps)
}

/// Writes each root block that holds anything but the background, after its key.
fn put_each_root<V: GridValue, W: Write, const C: u32>(
    out: &mut Output<C>,
    writer: &mut Watched<W>,
    tree: &Tree<V>,
    steps: &mut Steps,
) -> Result<(), SaveFault>
    ensures counts { C ≡ 1 → IsOk result }
    ensures puts { OnOk result (Puts (sent C out.old (W.contents (source writer.old))) (sent C out.new (W.contents (source writer.new)))
        (flat_map (λ k. key_bytes k ++ root_body V.eq V.bytes_of vdb (field_of vdb tree.now) (block vdb Upper k)) (root_keys V.eq vdb (field_of vdb tree.now)))) }
    ensures failed { has_failed writer.new ≡ (has_failed writer.old || is_err result) }
{
    let background = Cell {
        value: tree.background(),
        on: false,
    };
    let mut passed = None;
    while let Some(key) = tree.next_key(passed) {
        passed = Some(key);
        let corner = key.numbered_block_in(Bits::VDB, Level::Upper).min();
        if tree.is_block_of(Level::Upper, corner, background, steps) {
            continue;
        }
        put_keyed_root(out, writer, tree, key, corner, steps)?;
    }
    Ok(())
}
