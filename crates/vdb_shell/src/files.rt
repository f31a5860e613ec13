//! The scene that a session loads before its script, and saves after it.
ghost use Rattle.std.specs.Prelude.{◌≡◌, ◌+◌, ◌<◌, ◌≤◌, ◌↔◌, Option, Err, IfErr, IfOk, IfSome, IsErr, IsSome, IsTrue, OnOk, false, is_some, ℕ, List, length};
ghost use Rattle.std.specs.Io.KnownBytes.{Appends, IsAtEnd};
ghost use Rattle.vdb_scene.specs.Accessors.{HaveUnusedAccessors};
ghost use Rattle.vdb_scene.specs.Grids.{scene_of};
ghost use Rattle.vdb_scene.specs.ValidScenes.{IsScene};
ghost use Rattle.vdb_scene.specs.Watched.{bytes_given, empty_reads, source};
ghost use Rattle.vdb_file.specs.Readers.{EndedWithin, GaveAtMost};
ghost use Rattle.vdb_file.specs.Spelling.{Spells, file_limit, spelling};
ghost use Rattle.vdb_shell.specs.Files.{Begins, Refuses, any_failed, given_file, held};

use std::alloc::Global;
use std::io::{Read, Write};
use vdb_file::{LoadFault, SaveFault, load as load_file, save as save_file};
use vdb_pool::Steps;
use vdb_scene::{Scene, Watched};

/// Returns the scene that a session begins with: the one that a scene file encodes, if a file is given, otherwise the empty
/// scene.
///
/// Fails with `Read` if the reader fails, with `Memory` if an allocation fails, and with another `LoadFault` if the file encodes
/// no scene.
pub fn start<R: Read>(
    alloc: Global,
    load: &mut Option<Watched<R>>,
    steps: &mut Steps,
) -> Result<Scene, LoadFault>
    requires fresh { any_failed load.old ≡ false }
    ensures begins { (file : Option (List ℕ)) → given_file R.remaining load.old ≡ Some file → IfOk result (λ scene. Begins file (scene_of scene)) }
    ensures scene { IfOk result (λ scene. IsScene (scene_of scene)) }
    ensures refuses { (file : Option (List ℕ)) → given_file R.remaining load.old ≡ Some file → IfErr result (λ fault. Refuses fault file) }
    // The accessors of the scene's grids were given no coordinate and cache no node.
    ensures unused { IfOk result HaveUnusedAccessors }
    // The whole file is read.
    ensures end { OnOk result (IfSome load.new (λ file. IsAtEnd (R.remaining (source file)))) }
    ensures kept { is_some load.new ≡ is_some load.old }
    // At most one byte past the limit of a scene file is read.
    ensures few { IfSome load.old (λ before. IfSome load.new (λ after. GaveAtMost (file_limit + 1) (R.remaining (source before)) (R.remaining (source after)))) }
    // Any reader gives at most that one byte past the limit, and reports its end at most once; no scene comes from one that never ends.
    ensures ended { OnOk result (IfSome load.old (λ before. IfSome load.new (λ after. EndedWithin file_limit before after))) }
    ensures given { IfSome load.old (λ before. IfSome load.new (λ after. bytes_given after ≤ bytes_given before + (file_limit + 1))) }
    ensures once { IfSome load.old (λ before. IfSome load.new (λ after. empty_reads after ≤ empty_reads before + 1)) }
    // `Read` is the error if and only if the reader failed.
    ensures read { (result ≡ Err LoadFault.Read) ↔ IsTrue (any_failed load.new) }
{
    match load {
        Some(reader) => load_file(alloc, reader, steps),
        None => Ok(Scene::new(alloc)),
    }
}

/// Saves the scene that a session ends with, if a file for it is given.
///
/// Fails with `TooLong` if the scene's encoding has more bytes than a file may have, and writes nothing then. Fails with `Write` if
/// the writer fails or takes no byte; the content of the file is unspecified then.
pub fn finish<W: Write>(
    scene: &Scene,
    save: &mut Option<Watched<W>>,
    steps: &mut Steps,
) -> Result<(), SaveFault>
    requires fresh { any_failed save.old ≡ false }
    ensures saved { OnOk result (IfSome save.old (λ _. (bytes : List ℕ) × Spells bytes (scene_of scene.now) × Appends (held W.contents save.old) (held W.contents save.new) bytes)) }
    ensures too_long { (result ≡ Err SaveFault.TooLong) ↔ (IsSome save.old × (file_limit < length (spelling (scene_of scene.now)))) }
    ensures untouched { result ≡ Err SaveFault.TooLong → save.new ≡ save.old }
    ensures nowhere { IsErr result → IsSome save.old }
    ensures kept { is_some save.new ≡ is_some save.old }
    // `Write` is the error if and only if the writer failed.
    ensures write { (result ≡ Err SaveFault.Write) ↔ IsTrue (any_failed save.new) }
{
    if let Some(writer) = save {
        save_file(scene, writer, steps)?;
    }
    Ok(())
}
