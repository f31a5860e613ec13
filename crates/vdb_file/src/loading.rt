//! Loads a scene from a file.

ghost use Rattle.std.specs.Prelude.{◌≡◌, ◌+◌, ◌-◌, ◌^◌, ◌≤◌, ◌||◌, List, codes, false, min, Err, IfErr, IfOk, IfSome, OnOk, Some};
ghost use Rattle.std.specs.Int.{w16, to_be_bytes};
ghost use Rattle.std.specs.Io.KnownBytes.{IsAtEnd};
ghost use Rattle.std.specs.List.{flat_map};
ghost use Rattle.vdb_scene.specs.Grids.{grid_with, scene_of};
ghost use Rattle.vdb_scene.specs.Scene.{Scene as AbstractScene, with_grid};
ghost use Rattle.vdb_scene.specs.Watched.{bytes_given, empty_reads, has_failed, source};
ghost use Rattle.vdb_scene.specs.Accessors.{HasUnusedAccessors, HaveUnusedAccessors};
ghost use Rattle.vdb_file.specs.Faults.{BeginsAsFile, Claims, HasOtherMagic, HasOtherVersion, is_read_fault};
ghost use Rattle.vdb_file.specs.internal.FieldFaults.{IsFieldFault, IsInner};
ghost use Rattle.vdb_file.specs.Readers.{EndedWithin, GaveAtMost};
ghost use Rattle.vdb_scene.specs.ValidScenes.{IsScene};
ghost use Rattle.vdb_file.specs.Scenes.{BeginsWithFile, EndsEarly};
ghost use Rattle.vdb_file.specs.Spelling.{IsFileOf, file_limit};
ghost use Rattle.vdb_file.specs.internal.Parts.{AreItems, IsFile, IsNamed, IsSceneOf, bytes_of_file, name_of, named_bytes, named_view, scene_bytes};
ghost use Rattle.vdb_file.specs.internal.Reading.{EndsWith, Moves, Reads, ahead};

mod block_head;
mod blocks;
mod fields;
mod grid_head;
mod grids;
mod input;
mod leaf;
mod leaf_blocks;
mod metas;
mod names;
mod roots;
mod source;
mod versions;

use crate::fault::LoadFault;
use crate::loading::fields::take_u16;
use crate::loading::grids::{Named, take_named};
use crate::loading::input::Input;
use crate::loading::source::{Bytes, Source};
use crate::loading::versions::{Version, take_magic, take_version};
use std::alloc::Global;
use std::io::Read;
use vdb_pool::Steps;
use vdb_scene::{GRID_LIMIT, Scene, Watched};

/// Reads the scene of a file of either version (OpenVDB's `io::Stream`). The file must be all of the reader's bytes: after a
/// scene the reader is at its end. It asks for 65,536 bytes at a time, and for at most one byte beyond the 268,435,456 that a
/// file may have.
///
/// It reads the fields in their order, and returns the first fault: `TooLong` if a field would end past the most bytes of a file,
/// `Truncated` if the reader ends before the field does, or else the fault of the field's bytes. `Trailing` means that a byte
/// follows the last field. `Memory` means that an allocation failed, and may replace a scene or the fault of a later field.
/// `Read` means that the reader failed. Every fault except those two shows that the bytes are no file of any scene.
///
/// The accessors of the loaded grids were given no coordinate and cache no node.
pub fn load<R: Read>(
    alloc: Global,
    reader: &mut Watched<R>,
    steps: &mut Steps,
) -> Result<Scene, LoadFault>
    ensures scene { IfOk result (λ scene. IsScene (scene_of scene)) }
    ensures loaded { IfOk result (λ scene. IfSome (R.remaining (source reader.old)) (λ bytes. IsFileOf bytes (scene_of scene))) }
    ensures unused { IfOk result HaveUnusedAccessors }
    ensures end { OnOk result (IsAtEnd (R.remaining (source reader.new))) }
    ensures none { IfErr result (λ fault. Claims fault → IfSome (R.remaining (source reader.old)) (λ bytes. (s : AbstractScene) → IsScene s → IsFileOf bytes s → ⊥)) }
    ensures magic { result ≡ Err LoadFault.Magic → IfSome (R.remaining (source reader.old)) HasOtherMagic }
    ensures version { result ≡ Err LoadFault.Version → IfSome (R.remaining (source reader.old)) HasOtherVersion }
    ensures truncated { result ≡ Err LoadFault.Truncated → IsAtEnd (R.remaining (source reader.new)) × IfSome (R.remaining (source reader.old)) EndsEarly }
    ensures trailing { result ≡ Err LoadFault.Trailing → IfSome (R.remaining (source reader.old)) BeginsWithFile }
    ensures failed { has_failed reader.new ≡ (has_failed reader.old || is_read_fault result) }
    ensures few { GaveAtMost (file_limit + 1) (R.remaining (source reader.old)) (R.remaining (source reader.new)) }
    // Any reader gives at most one byte past the limit, and reports its end at most once; no scene comes from one that never ends.
    ensures ended { OnOk result (EndedWithin file_limit reader.old reader.new) }
    ensures given { bytes_given reader.new ≤ bytes_given reader.old + (file_limit + 1) }
    ensures once { empty_reads reader.new ≤ empty_reads reader.old + 1 }
{
    load_from(alloc, reader, steps)
}

/// Reads the scene of a file that is all of these bytes, as `load` does. It never fails with `Read`.
pub fn load_bytes(alloc: Global, bytes: &[u8], steps: &mut Steps) -> Result<Scene, LoadFault>
    ensures scene { IfOk result (λ scene. IsScene (scene_of scene)) }
    ensures loaded { IfOk result (λ scene. IsFileOf bytes.now (scene_of scene)) }
    ensures unused { IfOk result HaveUnusedAccessors }
    ensures none { IfErr result (λ fault. Claims fault → (s : AbstractScene) → IsScene s → IsFileOf bytes.now s → ⊥) }
    ensures magic { result ≡ Err LoadFault.Magic → HasOtherMagic bytes.now }
    ensures version { result ≡ Err LoadFault.Version → HasOtherVersion bytes.now }
    ensures truncated { result ≡ Err LoadFault.Truncated → EndsEarly bytes.now }
    ensures trailing { result ≡ Err LoadFault.Trailing → BeginsWithFile bytes.now }
    ensures read { is_read_fault result ≡ false }
{
    let mut reader = Bytes {
        rest: bytes,
        given: 0,
        empty: 0,
    };
    load_from(alloc, &mut reader, steps)
}

/// Reads the scene of a file, as `load` does, from a reader or from memory.
fn load_from<S: Source>(
    alloc: Global,
    reader: &mut S,
    steps: &mut Steps,
) -> Result<Scene, LoadFault>
    ensures scene { IfOk result (λ scene. IsScene (scene_of scene)) }
    ensures loaded { IfOk result (λ scene. IfSome (S.state reader.old).remaining (λ bytes. IsFileOf bytes (scene_of scene))) }
    ensures unused { IfOk result HaveUnusedAccessors }
    ensures end { OnOk result (IsAtEnd (S.state reader.new).remaining) }
    ensures none { IfErr result (λ fault. Claims fault → IfSome (S.state reader.old).remaining (λ bytes. (s : AbstractScene) → IsScene s → IsFileOf bytes s → ⊥)) }
    ensures magic { result ≡ Err LoadFault.Magic → IfSome (S.state reader.old).remaining HasOtherMagic }
    ensures version { result ≡ Err LoadFault.Version → IfSome (S.state reader.old).remaining HasOtherVersion }
    ensures truncated { result ≡ Err LoadFault.Truncated → IsAtEnd (S.state reader.new).remaining × IfSome (S.state reader.old).remaining EndsEarly }
    ensures trailing { result ≡ Err LoadFault.Trailing → IfSome (S.state reader.old).remaining BeginsWithFile }
    ensures failed { (S.state reader.new).failed ≡ ((S.state reader.old).failed || is_read_fault result) }
    ensures few { GaveAtMost (file_limit + 1) (S.state reader.old).remaining (S.state reader.new).remaining }
    ensures ended { OnOk result (((S.state reader.new).given ≤ (S.state reader.old).given + file_limit)
        × ((S.state reader.new).empty ≡ min ((S.state reader.old).empty + 1) (2 ^ 64 - 1))) }
    ensures given { (S.state reader.new).given ≤ (S.state reader.old).given + (file_limit + 1) }
    ensures once { (S.state reader.new).empty ≤ (S.state reader.old).empty + 1 }
{
    let mut input = Input::new();
    let file = take_file(alloc, &mut input, reader, steps)?;
    let more = input.fill(reader)?;
    if more {
        return Err(LoadFault::Trailing);
    }
    Ok(file.1)
}

/// Reads all fields of a file.
fn take_file<S: Source>(
    alloc: Global,
    input: &mut Input,
    reader: &mut S,
    steps: &mut Steps,
) -> Result<(Version, Scene), LoadFault>
    requires ends { EndsWith input.old (S.state reader.old) }
    ensures moves { Moves input.old (S.state reader.old) input.new (S.state reader.new) result }
    ensures reads { Reads (λ r. (r.0, scene_of r.1)) IsFile bytes_of_file result
        (ahead input.old (S.state reader.old)) (ahead input.new (S.state reader.new)) }
    ensures unused { IfOk result (λ file. HaveUnusedAccessors file.1) }
    ensures fault { IfErr result IsFieldFault }
    ensures magic { result ≡ Err LoadFault.Magic → IfSome (ahead input.old (S.state reader.old)).known HasOtherMagic }
    ensures version { result ≡ Err LoadFault.Version → IfSome (ahead input.old (S.state reader.old)).known HasOtherVersion }
    ensures short { result ≡ Err LoadFault.Truncated → 6 ≤ input.old.capacity → IfSome (ahead input.old (S.state reader.old)).known BeginsAsFile }
{
    take_magic(input, reader)?;
    let version = take_version(input, reader)?;
    let scene = take_scene(alloc, input, reader, version, steps)?;
    Ok((version, scene))
}

/// Reads the count of the grids, and then the grids.
fn take_scene<S: Source>(
    alloc: Global,
    input: &mut Input,
    reader: &mut S,
    version: Version,
    steps: &mut Steps,
) -> Result<Scene, LoadFault>
    requires ends { EndsWith input.old (S.state reader.old) }
    ensures moves { Moves input.old (S.state reader.old) input.new (S.state reader.new) result }
    ensures reads { Reads scene_of (IsSceneOf version) (scene_bytes version) result
        (ahead input.old (S.state reader.old)) (ahead input.new (S.state reader.new)) }
    ensures unused { IfOk result HaveUnusedAccessors }
    ensures inner { IfErr result IsInner }
{
    let count = take_u16(input, reader)?;
    if count as usize > GRID_LIMIT {
        return Err(LoadFault::Name);
    }
    let scene = take_grids(alloc, input, reader, version, count, steps)?;
    Ok(scene)
}

/// Reads this many grids.
fn take_grids<S: Source>(
    alloc: Global,
    input: &mut Input,
    reader: &mut S,
    version: Version,
    count: u16,
    steps: &mut Steps,
) -> Result<Scene, LoadFault>
    requires ends { EndsWith input.old (S.state reader.old) }
    ensures moves { Moves input.old (S.state reader.old) input.new (S.state reader.new) result }
    ensures reads { Reads scene_of (AreItems (IsNamed version) name_of count) (flat_map (named_bytes version)) result
        (ahead input.old (S.state reader.old)) (ahead input.new (S.state reader.new)) }
    ensures unused { IfOk result HaveUnusedAccessors }
    ensures inner { IfErr result IsInner }
{
    let mut scene = Scene::new(alloc);
    let mut before = None;
    for _ in 0..count {
        let named = take_named(alloc, input, reader, version, before, steps)?;
        before = Some(named.name);
        add(&mut scene, named)?;
    }
    Ok(scene)
}

/// Adds a grid to a scene. Its name is greater than all others, and the scene has room for it.
fn add(scene: &mut Scene, named: Named) -> Result<(), LoadFault>
    ensures ok { OnOk result (scene_of scene.new ≡ with_grid (scene_of scene.old) named.name (grid_with named.grid named.metas)) }
    ensures unused { HasUnusedAccessors named.grid → HaveUnusedAccessors scene.old → OnOk result (HaveUnusedAccessors scene.new) }
    ensures err { IfErr result (λ fault. fault ≡ LoadFault.Memory) }
{
    match scene.insert_with(named.name, named.grid, named.metas) {
        Ok(()) => Ok(()),
        Err(_) => Err(LoadFault::Memory),
    }
}
