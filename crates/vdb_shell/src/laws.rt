//! States the laws of sessions.

ghost use Rattle.std.specs.Prelude.{◌≡◌, ℕ, List, Option, Some};
ghost use Rattle.vdb_scene.specs.Scene.{Scene};
ghost use Rattle.vdb_scene.specs.ValidScenes.{IsScene};
ghost use Rattle.vdb_shell.specs.Determined.{End, IsUndisturbed};
ghost use Rattle.vdb_shell.specs.Session.{IsSession, IsUnloaded, Saves};

use crate::Fault;
use vdb_file::SaveFault;

/// Does nothing; its contract states the laws of sessions. Take two sessions with the same scene file and the same script, in
/// which no allocation, reader or writer failed. They have the same answers and the same last scene. If both save that scene or
/// both don't, they have the same status and the same saved bytes. Each session whose scene file was loaded, or that has none, ends
/// with a scene that files encode.
pub fn session_laws()
    ensures answers { (file : Option (List ℕ)) (script : List ℕ) (a b : End) → IsUndisturbed file script a → IsUndisturbed file script b → a.written ≡ b.written }
    ensures scene { (file : Option (List ℕ)) (script : List ℕ) (a b : End) → IsUndisturbed file script a → IsUndisturbed file script b → (IsUnloaded a.fault → ⊥) → a.last ≡ b.last }
    ensures saved { (file : Option (List ℕ)) (script : List ℕ) (a b : End) → IsUndisturbed file script a → IsUndisturbed file script b →
        (old : List ℕ) (new other : Option (List ℕ)) → Saves a.fault a.last (Some old) new → Saves b.fault b.last (Some old) other → (new ≡ other) × (a.code ≡ b.code) }
    ensures unsaved { (file : Option (List ℕ)) (script : List ℕ) (a b : End) → IsUndisturbed file script a → IsUndisturbed file script b →
        ((fault : SaveFault) → a.fault ≡ Some (Fault.Save fault) → ⊥) → ((fault : SaveFault) → b.fault ≡ Some (Fault.Save fault) → ⊥) → a.code ≡ b.code }
    ensures valid { (file : Option (List ℕ)) (script : List ℕ) (fault : Option Fault) (code : ℕ) (given written : List ℕ) (last : Scene) →
        IsSession file script fault code given written last → (IsUnloaded fault → ⊥) → IsScene last }
{}
