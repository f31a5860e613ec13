//! States the laws of scenes that files encode.

ghost use Rattle.std.specs.Prelude.{ℕ, List, [], Result};
ghost use Rattle.vdb_scene.specs.Replies.{Reply};
ghost use Rattle.vdb_scene.specs.Scene.{Grid, Scene};
ghost use Rattle.vdb_scene.specs.Step.{Inserts, Step};
ghost use Rattle.vdb_scene.specs.ValidScenes.{HasValidTexts, IsGrid, IsScene};
ghost use Rattle.vdb_scene.specs.declared.answer.Refusal.{Refusal};
ghost use Rattle.vdb_scene.specs.declared.command.Command.{Command};

/// Does nothing; its contract states which scenes files encode: the empty one, and each scene after a command or an insertion
/// into such a scene.
pub fn scene_laws()
    ensures empty { IsScene [] }
    ensures step { (s : Scene) (c : Command) (reply : Reply) (next : Scene) → IsScene s → HasValidTexts c → Step s c reply next → IsScene next }
    ensures inserted { (s : Scene) (name : List ℕ) (g : Grid) (result : Result (Unit {0}) Refusal) (next : Scene) → IsScene s → IsGrid (name, g) → Inserts s name g result next → IsScene next }
{}
