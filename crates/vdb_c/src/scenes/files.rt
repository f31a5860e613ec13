//! Calls that create and free a scene, load it from bytes and save it to bytes.
ghost use Rattle.std.specs.Prelude.{◌≡◌, None, min, length, ◌^◌, ◌-◌, IfErr, IfOk};
ghost use Rattle.vdb_file.specs.Spelling.{IsFileOf, spelling};
ghost use Rattle.vdb_scene.specs.Grids.{scene_of};
ghost use Rattle.vdb_scene.specs.ValidScenes.{IsScene};
ghost use Rattle.vdb_c.specs.Calls.{OnHeld};
ghost use Rattle.vdb_c.specs.Codes.{done};
ghost use Rattle.vdb_c.specs.Scenes.{IsCopiedOut, IsCreated, IsLoaded, IsSaved, Means, Tells, fault_code};

use crate::codes::{DONE, EMPTY, MEMORY, TOO_LONG, TOO_SMALL};
use crate::handles::SceneHandle;
use std::alloc::Global;
use vdb_file::{FILE_LIMIT, LoadFault, SaveFault};
use vdb_pool::Steps;
use vdb_scene::{Scene, Watched};

/// Creates an empty scene. It replaces the handle's scene.
#[unsafe(no_mangle)]
pub extern "C" fn vdb_scene_new(alloc: Global, handle: &mut SceneHandle) -> i32
    ensures { IsCreated handle.old.scene.held handle.new.scene.held result }
{
    let Ok(scene) = Box::new(alloc, Scene::new(alloc)) else {
        return MEMORY;
    };
    handle.scene.put(alloc, scene);
    DONE
}

/// Frees the handle's scene, if it has one. The handle is empty then.
#[unsafe(no_mangle)]
pub extern "C" fn vdb_scene_free(alloc: Global, handle: &mut SceneHandle)
    ensures { handle.new.scene.held ≡ None }
{
    let _ = handle.scene.take(alloc);
}

/// Loads the scene of a file, which is all of `bytes`. It replaces the handle's scene.
#[unsafe(no_mangle)]
pub extern "C" fn vdb_scene_load(alloc: Global, handle: &mut SceneHandle, bytes: &[u8]) -> i32
    ensures { IsLoaded bytes.now handle.old.scene.held handle.new.scene.held result }
{
    match load(alloc, bytes, &mut handle.steps) {
        Ok(scene) => {
            let Ok(scene) = Box::new(alloc, scene) else {
                return MEMORY;
            };
            handle.scene.put(alloc, scene);
            DONE
        }
        Err(fault) => load_code(fault),
    }
}

/// Loads the scene of a file, which is all of `bytes`.
fn load(alloc: Global, bytes: &[u8], steps: &mut Steps) -> Result<Scene, LoadFault>
    ensures scene { IfOk result (λ scene. IsScene (scene_of scene)) }
    ensures loaded { IfOk result (λ scene. IsFileOf bytes.now (scene_of scene)) }
    ensures fault { IfErr result (λ fault. Means fault bytes.now) }
{
    vdb_file::load_bytes(alloc, bytes, steps)
}

/// Writes to `bytes` how many bytes the encoding of the scene has, or 2^64 - 1 if it has more.
#[unsafe(no_mangle)]
pub extern "C" fn vdb_scene_length(alloc: Global, handle: &mut SceneHandle, bytes: &mut u64) -> i32
    ensures { OnHeld handle.old.scene.held handle.new.scene.held result (bytes.new ≡ bytes.old) (λ s t.
        (result ≡ done) × Tells s t (bytes.new ≡ min (length (spelling (scene_of s))) (2 ^ 64 - 1))) }
{
    let Some(scene) = handle.scene.take(alloc) else {
        return EMPTY;
    };
    *bytes = vdb_file::length(&scene, &mut handle.steps);
    handle.scene.put(alloc, scene);
    DONE
}

/// Writes the encoding of the scene to the head of `out`, and its length to `used`.
#[unsafe(no_mangle)]
pub extern "C" fn vdb_scene_save(
    alloc: Global,
    handle: &mut SceneHandle,
    out: &mut [u8],
    used: &mut u64,
) -> i32
    ensures { OnHeld handle.old.scene.held handle.new.scene.held result ((out.new ≡ out.old) × (used.new ≡ used.old)) (λ s t.
        Tells s t (IsSaved (scene_of s) out.old out.new used.old used.new result)) }
{
    let Some(scene) = handle.scene.take(alloc) else {
        return EMPTY;
    };
    let code = save(alloc, &scene, out, used, &mut handle.steps);
    handle.scene.put(alloc, scene);
    code
}

/// Writes the encoding of a scene to the head of `out`, and its length to `used`.
#[tactic(auto, unfolding(crate::specs::Scenes::IsSaved, crate::specs::Scenes::IsCopiedOut))]
fn save(alloc: Global, scene: &Scene, out: &mut [u8], used: &mut u64, steps: &mut Steps) -> i32
    ensures { IsSaved (scene_of scene.now) out.old out.new used.old used.new result }
{
    let size = vdb_file::length(scene, steps);
    if size > FILE_LIMIT {
        return TOO_LONG;
    }
    if size > out.len() as u64 {
        return TOO_SMALL;
    }
    let mut writer = Watched::new(Vec::new(alloc));
    match vdb_file::save(scene, &mut writer, steps) {
        Ok(_) => copy_out(writer.get_ref().as_slice(), out, used),
        Err(SaveFault::TooLong) => TOO_LONG,
        Err(SaveFault::Write) => MEMORY,
    }
}

/// Copies bytes to the head of `out`, if it is long enough, and their count to `used`.
#[tactic(auto, unfolding(crate::specs::Scenes::IsCopiedOut))]
pub(crate) fn copy_out(bytes: &[u8], out: &mut [u8], used: &mut u64) -> i32
    ensures { IsCopiedOut bytes.now out.old out.new used.old used.new result }
{
    let count = bytes.len();
    if count > out.len() {
        return TOO_SMALL;
    }
    out[..count].copy_from_slice(bytes);
    *used = count as u64;
    DONE
}

/// Returns the code of a fault of a file. Bytes in memory can always be read.
fn load_code(fault: LoadFault) -> i32
    ensures { result ≡ fault_code fault }
{
    match fault {
        LoadFault::Magic => 20,
        LoadFault::Version => 21,
        LoadFault::Truncated => 22,
        LoadFault::Name => 23,
        LoadFault::Kind => 24,
        LoadFault::Value => 25,
        LoadFault::Limit => 26,
        LoadFault::Meta => 27,
        LoadFault::Key => 28,
        LoadFault::RootLimit => 29,
        LoadFault::Tag => 30,
        LoadFault::Index => 31,
        LoadFault::Background => 32,
        LoadFault::ConstantNode => 33,
        LoadFault::Trailing => 34,
        LoadFault::TooLong => TOO_LONG,
        LoadFault::Memory => MEMORY,
        LoadFault::Read => MEMORY,
    }
}
