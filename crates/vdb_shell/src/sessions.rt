//! Sessions.
ghost use Rattle.std.specs.Prelude.{◌≡◌, ◌+◌, ◌^◌, ◌<◌, ◌≤◌, ◌↔◌, false, true, Option, Some, None, IfSome, IsSome, IsTrue, is_some, ℕ, List};
ghost use Rattle.std.specs.Io.KnownBytes.{Appends, Consumes};
ghost use Rattle.vdb_scene.specs.Grids.{scene_of};
ghost use Rattle.vdb_scene.specs.Scene.{Scene as AbstractScene};
ghost use Rattle.vdb_scene.specs.Watched.{bytes_given, empty_reads, has_failed, source};
ghost use Rattle.vdb_file.specs.Readers.{EndedWithin, GaveAtMost};
ghost use Rattle.vdb_file.specs.Spelling.{file_limit};
ghost use Rattle.vdb_shell.specs.Files.{any_failed, given_file, held};
ghost use Rattle.vdb_shell.specs.Session.{IsSession, IsUnloaded, PlaysOn, Saves, WritesNoFile, status as status_of};

use crate::{Fault, finish, play, start, status};
use std::alloc::Global;
use std::io::{Read, Write};
use vdb_file::{LoadFault, SaveFault};
use vdb_pool::Steps;
use vdb_scene::{Scene, Watched};
use vdb_script::ScriptFault;

/// The end of a session.
#[derive(Clone, Copy, Debug, PartialEq, Eq)]
pub struct Outcome {
    /// The exit status: 0, or 1 if a line failed, 3 if nothing was loaded, 4 after another fault.
    pub status: u8,
    /// The fault that ended it early, if any.
    pub fault: Option<Fault>,
}

/// Loads a scene, plays a script on it and saves it: `start`, `play` and `finish` in order, up to the first fault.
pub fn session<L: Read, R: Read, W: Write, S: Write>(
    alloc: Global,
    load: &mut Option<Watched<L>>,
    script: &mut Watched<R>,
    answers: &mut Watched<W>,
    save: &mut Option<Watched<S>>,
    steps: &mut Steps,
) -> Outcome
    requires load_fresh { any_failed load.old ≡ false }
    requires script_fresh { has_failed script.old ≡ false }
    requires answers_fresh { has_failed answers.old ≡ false }
    requires save_fresh { any_failed save.old ≡ false }
    // Whatever pieces the readers give, the answers are those of an abstract scene over the script's lines, starting from the
    // scene that the file encodes, and the saved bytes are the encoding of the last scene.
    ensures session { (file : Option (List ℕ)) → given_file L.remaining load.old ≡ Some file →
        (bytes : List ℕ) → R.remaining (source script.old) ≡ Some bytes →
        (given written : List ℕ) × (last : AbstractScene)
        × Consumes (Some bytes) (R.remaining (source script.new)) given
        × Appends (W.contents (source answers.old)) (W.contents (source answers.new)) written
        × IsSession file bytes result.fault result.status given written last
        × IfSome save.old (λ _. Saves result.fault last (held S.contents save.old) (held S.contents save.new)) }
    // The status of a fault is its own, also after a line that failed. Without a fault it is 0 or 1.
    ensures status { IfSome result.fault (λ fault. result.status ≡ status_of true (Some fault)) }
    ensures completed { result.fault ≡ None → result.status ≤ 1 }
    // If nothing was loaded, script and answers are unchanged.
    ensures unloaded { IsUnloaded result.fault → (script.new ≡ script.old) × (answers.new ≡ answers.old) }
    // If the scene's encoding is too long, or a fault came before, the writer of the file is unchanged.
    ensures unsaved { WritesNoFile result.fault → save.new ≡ save.old }
    ensures nowhere { (fault : SaveFault) → result.fault ≡ Some (Fault.Save fault) → IsSome save.old }
    ensures load_kept { is_some load.new ≡ is_some load.old }
    ensures save_kept { is_some save.new ≡ is_some save.old }
    // At most one byte past the limit of a scene file is read.
    ensures load_few { IfSome load.old (λ before. IfSome load.new (λ after. GaveAtMost (file_limit + 1) (L.remaining (source before)) (L.remaining (source after)))) }
    // Any reader gives at most one byte past the limit, and reports its end at most once. Nothing is loaded from a reader of the scene
    // that never ends.
    ensures load_ended { (IsUnloaded result.fault → ⊥) → IfSome load.old (λ before. IfSome load.new (λ after. EndedWithin file_limit before after)) }
    ensures load_given { IfSome load.old (λ before. IfSome load.new (λ after. bytes_given after ≤ bytes_given before + (file_limit + 1))) }
    ensures load_once { IfSome load.old (λ before. IfSome load.new (λ after. empty_reads after ≤ empty_reads before + 1)) }
    ensures script_few { bytes_given script.new ≤ bytes_given script.old + (2 ^ 24 + 1) }
    ensures script_once { empty_reads script.new ≤ empty_reads script.old + 1 }
    // If any reader gives more bytes than the limit, the script is too long.
    ensures script_too_long { bytes_given script.old + 2 ^ 24 < bytes_given script.new → result.fault ≡ Some (Fault.Script ScriptFault.TooLong) }
    // A fault of reading or writing occurs exactly if that reader or writer failed.
    ensures load { (result.fault ≡ Some (Fault.Load LoadFault.Read)) ↔ IsTrue (any_failed load.new) }
    ensures script { (result.fault ≡ Some (Fault.Script ScriptFault.Read)) ↔ IsTrue (has_failed script.new) }
    ensures answers { (result.fault ≡ Some Fault.Answers) ↔ IsTrue (has_failed answers.new) }
    ensures save { (result.fault ≡ Some (Fault.Save SaveFault.Write)) ↔ IsTrue (any_failed save.new) }
{
    match start(alloc, load, steps) {
        Ok(mut scene) => play_and_save(alloc, &mut scene, script, answers, save, steps),
        Err(fault) => ended(false, Some(Fault::Load(fault))),
    }
}

/// Plays a script on a scene and saves the scene after it: `play` and `finish`, up to the first fault.
fn play_and_save<R: Read, W: Write, S: Write>(
    alloc: Global,
    scene: &mut Scene,
    script: &mut Watched<R>,
    answers: &mut Watched<W>,
    save: &mut Option<Watched<S>>,
    steps: &mut Steps,
) -> Outcome
    requires script_fresh { has_failed script.old ≡ false }
    requires answers_fresh { has_failed answers.old ≡ false }
    requires save_fresh { any_failed save.old ≡ false }
    ensures plays { (bytes : List ℕ) → R.remaining (source script.old) ≡ Some bytes →
        (given written : List ℕ)
        × Consumes (Some bytes) (R.remaining (source script.new)) given
        × Appends (W.contents (source answers.old)) (W.contents (source answers.new)) written
        × PlaysOn (scene_of scene.old) bytes result.fault result.status given written (scene_of scene.new) }
    ensures status { IfSome result.fault (λ fault. result.status ≡ status_of true (Some fault)) }
    ensures completed { result.fault ≡ None → result.status ≤ 1 }
    ensures saves { IfSome save.old (λ _. Saves result.fault (scene_of scene.new) (held S.contents save.old) (held S.contents save.new)) }
    ensures unsaved { WritesNoFile result.fault → save.new ≡ save.old }
    ensures nowhere { (fault : SaveFault) → result.fault ≡ Some (Fault.Save fault) → IsSome save.old }
    ensures kept { is_some save.new ≡ is_some save.old }
    ensures loaded { IsUnloaded result.fault → ⊥ }
    ensures script_few { bytes_given script.new ≤ bytes_given script.old + (2 ^ 24 + 1) }
    ensures script_once { empty_reads script.new ≤ empty_reads script.old + 1 }
    ensures script_too_long { bytes_given script.old + 2 ^ 24 < bytes_given script.new → result.fault ≡ Some (Fault.Script ScriptFault.TooLong) }
    ensures script { (result.fault ≡ Some (Fault.Script ScriptFault.Read)) ↔ IsTrue (has_failed script.new) }
    ensures answers { (result.fault ≡ Some Fault.Answers) ↔ IsTrue (has_failed answers.new) }
    ensures save { (result.fault ≡ Some (Fault.Save SaveFault.Write)) ↔ IsTrue (any_failed save.new) }
{
    let played = play(alloc, scene, script, answers, steps);
    if played.fault.is_some() {
        return ended(played.refused, played.fault);
    }
    match finish(scene, save, steps) {
        Ok(()) => ended(played.refused, None),
        Err(fault) => ended(played.refused, Some(Fault::Save(fault))),
    }
}

/// Returns the outcome of a session, by whether a line failed, and the fault that ended it early.
fn ended(refused: bool, fault: Option<Fault>) -> Outcome
    ensures fault { result.fault ≡ fault }
    ensures status { result.status ≡ status_of refused fault }
    ensures completed { fault ≡ None → result.status ≤ 1 }
{
    Outcome {
        status: status(refused, fault.as_ref()),
        fault,
    }
}
