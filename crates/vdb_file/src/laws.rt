//! States the laws of encodings.

ghost use Rattle.std.specs.Prelude.{◌≡◌, ◌++◌, ℕ, List, []};
ghost use Rattle.vdb_scene.specs.Scene.{Scene};
ghost use Rattle.vdb_scene.specs.ValidScenes.{IsScene};
ghost use Rattle.vdb_file.specs.Alike.{AreAlike};
ghost use Rattle.vdb_file.specs.Spelling.{IsFileOf, spelling};

/// Does nothing; its contract states the laws of files. Scenes with the same names, limits, metadata pairs, backgrounds and cells
/// in the range of coordinates have the same encoding. The bytes of one file encode one scene, whatever the version, and no file
/// is the beginning of another.
pub fn spelling_laws()
    ensures same { (a b : Scene) → AreAlike a b → spelling a ≡ spelling b }
    ensures one_scene { (bytes : List ℕ) (a b : Scene) → IsScene a → IsScene b → IsFileOf bytes a → IsFileOf bytes b → a ≡ b }
    ensures no_prefix { (bytes rest : List ℕ) (a b : Scene) → IsScene a → IsScene b → IsFileOf bytes a → IsFileOf (bytes ++ rest) b → rest ≡ [] }
{}
