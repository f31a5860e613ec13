//! Saves a scene as a file.

ghost use Rattle.std.specs.Prelude.{◌≡◌, ◌<◌, ◌||◌, ◌∷◌, ◌++◌, ◌-◌, ◌^◌, ◌↔◌, Some, Err, map, option_map, is_err, length, min, List, ℕ, IfOk, IsOk, OnOk};
ghost use Rattle.std.specs.List.{flat_map, slice_get};
ghost use Rattle.std.specs.List.Sorted.{IsStrictlySortedBy};
ghost use Rattle.std.specs.Cmp.Lexicographic.{slice_cmp};
ghost use Rattle.std.specs.Ordering.{nat_cmp};
ghost use Rattle.std.specs.Int.{w16, w32, to_be_bytes};
ghost use Rattle.std.specs.Io.KnownBytes.{Appends};
ghost use Rattle.vdb_coord.specs.Blocks.{vdb};
ghost use Rattle.vdb_scene.specs.Grids.{grid_field, grid_root_limit, scene_of};
ghost use Rattle.vdb_scene.specs.Scalars.{scalar_bytes, scalar_eq};
ghost use Rattle.vdb_scene.specs.Scene.{Grid as AbstractGrid, grid_at};
ghost use Rattle.vdb_scene.specs.Watched.{has_failed, source};
ghost use Rattle.vdb_file.specs.Bodies.{roots_bytes};
ghost use Rattle.vdb_file.specs.Faults.{is_write_fault};
ghost use Rattle.vdb_file.specs.Spelling.{counted, file_limit, grid_bytes, head_bytes, kind_bytes, pairs_bytes, spelling};
ghost use Rattle.vdb_file.specs.internal.Written.{Puts, sent};

mod leaves;
mod nodes;
mod output;

use crate::fault::SaveFault;
use crate::saving::leaves::put_value;
use crate::saving::nodes::put_roots;
use crate::saving::output::{COUNTING, Output, WRITING};
use std::io;
use std::io::Write;
use vdb_pool::Steps;
use vdb_scene::{AnyGrid, MetaText, Metas, Name, Scene, Watched};
use vdb_value::Voxel;

/// The most bytes that a file may have: 256 MiB.
pub const FILE_LIMIT: u64 = 268_435_456;

/// The first bytes of a file of version 2.
const HEAD: [u8; 6] = [b'V', b'D', b'B', b'S', 0, 2];

/// A writer that accepts all bytes and keeps none.
#[derive(Drop)]
struct Nowhere;

impl Write for Nowhere {
    fn write(&mut self, buf: &[u8]) -> io::Result<usize> {
        Ok(buf.len())
    }

    fn flush(&mut self) -> io::Result<()> {
        Ok(())
    }
}

/// Returns how many bytes the scene's encoding has, or `u64::MAX` if it has more. It allocates nothing.
pub fn length(scene: &Scene, steps: &mut Steps) -> u64
    ensures { result ≡ min (length (spelling (scene_of scene.now))) (2 ^ 64 - 1) }
{
    let mut out = Output::<COUNTING>::new();
    let mut nowhere = Watched::new(Nowhere);
    let _ = put_scene(&mut out, &mut nowhere, scene, steps);
    out.total()
}

/// Writes the scene's encoding (OpenVDB's `io::Stream::write`), and returns how many bytes it has. It allocates nothing, and
/// writes 65,536 bytes at a time.
///
/// Fails with `TooLong` if the encoding has more than `FILE_LIMIT` bytes; it then writes nothing. Fails with `Write` if the
/// writer fails or takes no byte; the content of the writer is then unspecified.
pub fn save<W: Write>(
    scene: &Scene,
    writer: &mut Watched<W>,
    steps: &mut Steps,
) -> Result<u64, SaveFault>
    ensures length { IfOk result (λ n. n ≡ length (spelling (scene_of scene.now))) }
    ensures saved { OnOk result (Appends (W.contents (source writer.old)) (W.contents (source writer.new)) (spelling (scene_of scene.now))) }
    ensures too_long { (result ≡ Err SaveFault.TooLong) ↔ (file_limit < length (spelling (scene_of scene.now))) }
    ensures untouched { result ≡ Err SaveFault.TooLong → writer.new ≡ writer.old }
    ensures failed { has_failed writer.new ≡ (has_failed writer.old || is_write_fault result) }
{
    let size = length(scene, steps);
    if size > FILE_LIMIT {
        return Err(SaveFault::TooLong);
    }
    match write_scene(writer, scene, steps) {
        Ok(()) => Ok(size),
        Err(_) => Err(SaveFault::Write),
    }
}

/// Writes the scene's encoding, whatever its length.
fn write_scene<W: Write>(
    writer: &mut Watched<W>,
    scene: &Scene,
    steps: &mut Steps,
) -> Result<(), SaveFault>
    ensures saved { OnOk result (Appends (W.contents (source writer.old)) (W.contents (source writer.new)) (spelling (scene_of scene.now))) }
    ensures failed { has_failed writer.new ≡ (has_failed writer.old || is_err result) }
{
    let mut out = Output::<WRITING>::new();
    put_scene(&mut out, writer, scene, steps)?;
    out.flush(writer)
}

/// Writes the count of some bytes, and then the bytes.
fn put_counted<W: Write, const C: u32>(
    out: &mut Output<C>,
    writer: &mut Watched<W>,
    bytes: &[u8],
) -> Result<(), SaveFault>
    requires { length bytes.now < 256 }
    ensures counts { C ≡ 1 → IsOk result }
    ensures puts { OnOk result (Puts (sent C out.old (W.contents (source writer.old))) (sent C out.new (W.contents (source writer.new)))
        (counted bytes.now)) }
    ensures failed { has_failed writer.new ≡ (has_failed writer.old || is_err result) }
{
    out.put(writer, [bytes.len() as u8].as_slice())?;
    out.put(writer, bytes)
}

/// Writes the number of a value's type (its KIND), and then the value.
fn put_kinded<V: Voxel, W: Write, const C: u32>(
    out: &mut Output<C>,
    writer: &mut Watched<W>,
    kind: u8,
    value: V,
) -> Result<(), SaveFault>
    ensures counts { C ≡ 1 → IsOk result }
    ensures puts { OnOk result (Puts (sent C out.old (W.contents (source writer.old))) (sent C out.new (W.contents (source writer.new)))
        (kind ∷ V.bytes_of value)) }
    ensures failed { has_failed writer.new ≡ (has_failed writer.old || is_err result) }
{
    out.put(writer, [kind].as_slice())?;
    put_value(out, writer, value)
}

/// Writes the number of a grid's type (its KIND), and then its background.
fn put_background<W: Write, const C: u32>(
    out: &mut Output<C>,
    writer: &mut Watched<W>,
    grid: &AnyGrid,
) -> Result<(), SaveFault>
    ensures counts { C ≡ 1 → IsOk result }
    ensures puts { OnOk result (Puts (sent C out.old (W.contents (source writer.old))) (sent C out.new (W.contents (source writer.new)))
        (kind_bytes (grid_field grid.now).background)) }
    ensures failed { has_failed writer.new ≡ (has_failed writer.old || is_err result) }
{
    match grid {
        AnyGrid::Bool(grid) => put_kinded(out, writer, 0, grid.tree().background()),
        AnyGrid::I32(grid) => put_kinded(out, writer, 1, grid.tree().background()),
        AnyGrid::I64(grid) => put_kinded(out, writer, 2, grid.tree().background()),
    }
}

/// Writes a grid's root limit.
fn put_limit<W: Write, const C: u32>(
    out: &mut Output<C>,
    writer: &mut Watched<W>,
    grid: &AnyGrid,
) -> Result<(), SaveFault>
    ensures counts { C ≡ 1 → IsOk result }
    ensures puts { OnOk result (Puts (sent C out.old (W.contents (source writer.old))) (sent C out.new (W.contents (source writer.new)))
        (to_be_bytes w32 (grid_root_limit grid.now))) }
    ensures failed { has_failed writer.new ≡ (has_failed writer.old || is_err result) }
{
    let limit = match grid {
        AnyGrid::Bool(grid) => grid.tree().limit(),
        AnyGrid::I32(grid) => grid.tree().limit(),
        AnyGrid::I64(grid) => grid.tree().limit(),
    };
    out.put(writer, limit.to_be_bytes().as_slice())
}

/// Writes a grid's root blocks that hold anything but the background.
fn put_field<W: Write, const C: u32>(
    out: &mut Output<C>,
    writer: &mut Watched<W>,
    grid: &AnyGrid,
    steps: &mut Steps,
) -> Result<(), SaveFault>
    ensures counts { C ≡ 1 → IsOk result }
    ensures puts { OnOk result (Puts (sent C out.old (W.contents (source writer.old))) (sent C out.new (W.contents (source writer.new)))
        (roots_bytes scalar_eq scalar_bytes vdb (grid_field grid.now))) }
    ensures failed { has_failed writer.new ≡ (has_failed writer.old || is_err result) }
{
    match grid {
        AnyGrid::Bool(grid) => put_roots(out, writer, grid.tree(), steps),
        AnyGrid::I32(grid) => put_roots(out, writer, grid.tree(), steps),
        AnyGrid::I64(grid) => put_roots(out, writer, grid.tree(), steps),
    }
}

/// Writes a key, and then its text.
fn put_text<W: Write, const C: u32>(
    out: &mut Output<C>,
    writer: &mut Watched<W>,
    key: &Name,
    text: &MetaText,
) -> Result<(), SaveFault>
    ensures counts { C ≡ 1 → IsOk result }
    ensures puts { OnOk result (Puts (sent C out.old (W.contents (source writer.old))) (sent C out.new (W.contents (source writer.new)))
        (counted key.now ++ counted text.now)) }
    ensures failed { has_failed writer.new ≡ (has_failed writer.old || is_err result) }
{
    put_counted(out, writer, key.bytes())?;
    put_counted(out, writer, text.bytes())
}

/// Writes the metadata pair with index `i`: its key, and then its text.
fn put_pair<W: Write, const C: u32>(
    out: &mut Output<C>,
    writer: &mut Watched<W>,
    metas: &Metas,
    i: usize,
) -> Result<(), SaveFault>
    requires { i < length metas.now }
    ensures counts { C ≡ 1 → IsOk result }
    ensures puts { (pair : List ℕ × List ℕ) → slice_get metas.now i ≡ Some pair → OnOk result (Puts (sent C out.old (W.contents (source writer.old))) (sent C out.new (W.contents (source writer.new)))
        (counted pair.0 ++ counted pair.1)) }
    ensures failed { has_failed writer.new ≡ (has_failed writer.old || is_err result) }
{
    let (key, text) = metas.pair(i);
    put_text(out, writer, key, text)
}

/// Writes the count of a grid's metadata pairs, and then the pairs.
fn put_pairs<W: Write, const C: u32>(
    out: &mut Output<C>,
    writer: &mut Watched<W>,
    metas: &Metas,
) -> Result<(), SaveFault>
    ensures counts { C ≡ 1 → IsOk result }
    ensures puts { OnOk result (Puts (sent C out.old (W.contents (source writer.old))) (sent C out.new (W.contents (source writer.new)))
        (pairs_bytes metas.now)) }
    ensures failed { has_failed writer.new ≡ (has_failed writer.old || is_err result) }
{
    out.put(writer, [metas.len() as u8].as_slice())?;
    put_each_pair(out, writer, metas)
}

/// Writes each metadata pair of a grid.
fn put_each_pair<W: Write, const C: u32>(
    out: &mut Output<C>,
    writer: &mut Watched<W>,
    metas: &Metas,
) -> Result<(), SaveFault>
    ensures counts { C ≡ 1 → IsOk result }
    ensures puts { OnOk result (Puts (sent C out.old (W.contents (source writer.old))) (sent C out.new (W.contents (source writer.new)))
        (flat_map (λ pair. counted pair.0 ++ counted pair.1) metas.now)) }
    ensures failed { has_failed writer.new ≡ (has_failed writer.old || is_err result) }
{
    for i in 0..metas.len() {
        put_pair(out, writer, metas, i)?;
    }
    Ok(())
}

/// Writes a name, and then its grid.
fn put_entry<W: Write, const C: u32>(
    out: &mut Output<C>,
    writer: &mut Watched<W>,
    name: &Name,
    grid: &AnyGrid,
    metas: &Metas,
    steps: &mut Steps,
) -> Result<(), SaveFault>
    ensures counts { C ≡ 1 → IsOk result }
    ensures puts { OnOk result (Puts (sent C out.old (W.contents (source writer.old))) (sent C out.new (W.contents (source writer.new)))
        (counted name.now ++ (kind_bytes (grid_field grid.now).background ++ ((to_be_bytes w32 (grid_root_limit grid.now) ++ pairs_bytes metas.now) ++ roots_bytes scalar_eq scalar_bytes vdb (grid_field grid.now))))) }
    ensures failed { has_failed writer.new ≡ (has_failed writer.old || is_err result) }
{
    put_counted(out, writer, name.bytes())?;
    put_background(out, writer, grid)?;
    put_limit(out, writer, grid)?;
    put_pairs(out, writer, metas)?;
    put_field(out, writer, grid, steps)
}

/// Writes a name, and then the scene's grid of that name.
fn put_named<W: Write, const C: u32>(
    out: &mut Output<C>,
    writer: &mut Watched<W>,
    scene: &Scene,
    name: &Name,
    steps: &mut Steps,
) -> Result<(), SaveFault>
    ensures counts { C ≡ 1 → IsOk result }
    ensures puts { (g : AbstractGrid) → grid_at (scene_of scene.now) name.now ≡ Some g → OnOk result (Puts (sent C out.old (W.contents (source writer.old))) (sent C out.new (W.contents (source writer.new)))
        (grid_bytes head_bytes (name.now, g))) }
    ensures failed { has_failed writer.new ≡ (has_failed writer.old || is_err result) }
{
    let Some(grid) = scene.get(name) else {
        return Ok(());
    };
    let Some(metas) = scene.metas(name) else {
        return Ok(());
    };
    put_entry(out, writer, name, grid, metas, steps)
}

/// Returns how many grids a scene has.
fn grid_count(scene: &Scene) -> usize
    ensures { result ≡ length (scene_of scene.now) }
{
    scene.names().len()
}

/// Returns the name with index `i`, in rising order.
fn name_at(scene: &Scene, i: usize) -> Option<&Name>
    ensures name { option_map (λ name. name.now) result ≡ slice_get (map (λ e. e.0) (scene_of scene.now)) i }
    ensures rising { IsStrictlySortedBy (slice_cmp nat_cmp) (map (λ e. e.0) (scene_of scene.now)) }
{
    scene.names().nth(i)
}

/// Writes the grid with index `i`, by rising names.
fn put_nth<W: Write, const C: u32>(
    out: &mut Output<C>,
    writer: &mut Watched<W>,
    scene: &Scene,
    i: usize,
    steps: &mut Steps,
) -> Result<(), SaveFault>
    ensures counts { C ≡ 1 → IsOk result }
    ensures puts { (e : List ℕ × AbstractGrid) → slice_get (scene_of scene.now) i ≡ Some e → OnOk result (Puts (sent C out.old (W.contents (source writer.old))) (sent C out.new (W.contents (source writer.new)))
        (grid_bytes head_bytes e)) }
    ensures failed { has_failed writer.new ≡ (has_failed writer.old || is_err result) }
{
    match name_at(scene, i) {
        Some(name) => put_named(out, writer, scene, name, steps),
        None => Ok(()),
    }
}

/// Writes the grids of a scene, by rising names.
fn put_grids<W: Write, const C: u32>(
    out: &mut Output<C>,
    writer: &mut Watched<W>,
    scene: &Scene,
    steps: &mut Steps,
) -> Result<(), SaveFault>
    ensures counts { C ≡ 1 → IsOk result }
    ensures puts { OnOk result (Puts (sent C out.old (W.contents (source writer.old))) (sent C out.new (W.contents (source writer.new)))
        (flat_map (grid_bytes head_bytes) (scene_of scene.now))) }
    ensures failed { has_failed writer.new ≡ (has_failed writer.old || is_err result) }
{
    for i in 0..grid_count(scene) {
        put_nth(out, writer, scene, i, steps)?;
    }
    Ok(())
}

/// Writes the count of a scene's grids, and then each grid.
fn put_counted_grids<W: Write, const C: u32>(
    out: &mut Output<C>,
    writer: &mut Watched<W>,
    scene: &Scene,
    steps: &mut Steps,
) -> Result<(), SaveFault>
    ensures counts { C ≡ 1 → IsOk result }
    ensures puts { OnOk result (Puts (sent C out.old (W.contents (source writer.old))) (sent C out.new (W.contents (source writer.new)))
        (to_be_bytes w16 (length (scene_of scene.now)) ++ flat_map (grid_bytes head_bytes) (scene_of scene.now))) }
    ensures failed { has_failed writer.new ≡ (has_failed writer.old || is_err result) }
{
    let count = (grid_count(scene) as u64).to_be_bytes();
    out.put(writer, &count[6..])?; // a scene has at most 64 grids, so two bytes hold the count
    put_grids(out, writer, scene, steps)
}

/// Writes the scene's encoding.
fn put_scene<W: Write, const C: u32>(
    out: &mut Output<C>,
    writer: &mut Watched<W>,
    scene: &Scene,
    steps: &mut Steps,
) -> Result<(), SaveFault>
    ensures counts { C ≡ 1 → IsOk result }
    ensures puts { OnOk result (Puts (sent C out.old (W.contents (source writer.old))) (sent C out.new (W.contents (source writer.new)))
        (spelling (scene_of scene.now))) }
    ensures failed { has_failed writer.new ≡ (has_failed writer.old || is_err result) }
{
    out.put(writer, HEAD.as_slice())?;
    put_counted_grids(out, writer, scene, steps)
}
