//! States the laws of runs.

ghost use Rattle.std.specs.Prelude.{◌≡◌, ℕ, List};
ghost use Rattle.vdb_scene.specs.Replies.{Reply};
ghost use Rattle.vdb_scene.specs.Scene.{Scene};
ghost use Rattle.vdb_scene.specs.ValidScenes.{IsScene};
ghost use Rattle.vdb_script.specs.Run.{NoMemoryError, Run};

/// Does nothing; its contract states the laws of runs. Two runs of the same lines on the same scene have the same answers and the
/// same last scene, if none of their lines is answered `error memory`. A run on a scene that files encode ends with such a scene.
pub fn run_laws()
    ensures one_run { (s : Scene) (lines : List (List ℕ)) (a b : List Reply) (x y : Scene) → Run s lines a x → Run s lines b y → NoMemoryError a → NoMemoryError b → (a ≡ b) × (x ≡ y) }
    ensures valid { (s : Scene) (lines : List (List ℕ)) (replies : List Reply) (last : Scene) → IsScene s → Run s lines replies last → IsScene last }
{}
