//! A scene that C holds: the pointer of its box, in a struct that crosses to C.
ghost use Rattle.std.specs.Prelude.{◌≡◌, Option, Some, None};
ghost use Rattle.std.specs.Option.{option_map};
ghost use Rattle.vdb_c.specs.HeldScene.{coded_held, owns_held};
ghost use Rattle.vdb_scene.specs.declared.scene.Scene.{Scene};

use crate::handles::kept::{Kept, Opaque, boxed, nothing};
use std::alloc::Global;
use std::marker::Model;
use std::mem;
use vdb_scene::Scene;

/// A scene, or none if the pointer is null. C makes one of zeroed memory, which is empty, and never changes it.
#[repr(C)]
pub struct HeldScene {
    at: *mut Opaque,
    pub ghost held: { Option Scene } by { coded_held },
}

impl Model for HeldScene {
    ghost also_owns = { λ h. owns_held h.at h.held };
}

impl HeldScene {
    /// Holds what is kept.
    fn of(kept: Kept<Scene, Global>) -> HeldScene
        ensures { result.held ≡ kept.held }
    {
        let Kept { at, alloc: _ } = kept;
        let at = at as *mut Opaque;
        HeldScene { at }
    }

    /// Returns what is held.
    fn kept(self, alloc: Global) -> Kept<Scene, Global>
        ensures { result.held ≡ self.held }
    {
        let HeldScene { at } = self;
        let at = at as *mut Scene;
        Kept { at, alloc }
    }

    /// Takes the scene out, if there is one, and holds none then.
    pub(crate) fn take(&mut self, alloc: Global) -> Option<Box<Scene>>
        ensures value { option_map (λ b. b.value) result ≡ self.old.held }
        ensures gone { self.new.held ≡ None }
    {
        let empty = HeldScene::of(nothing(alloc));
        boxed(mem::replace(self, empty).kept(alloc))
    }

    /// Holds this scene, and frees the one that it held.
    pub(crate) fn put(&mut self, alloc: Global, scene: Box<Scene>)
        ensures { self.new.held ≡ Some scene.value }
    {
        let full = HeldScene::of(Kept::of(scene));
        let old = boxed(mem::replace(self, full).kept(alloc));
        drop(old);
    }
}
