//! Calls on the grids of a scene: their names, copies and metadata.
ghost use Rattle.std.specs.List.{slice_get};
ghost use Rattle.std.specs.Option.{option_map};
ghost use Rattle.std.specs.Prelude.{◌≡◌, ⊤, map};
ghost use Rattle.vdb_scene.specs.Grids.{scene_of};
ghost use Rattle.vdb_c.specs.Calls.{OnHeld};
ghost use Rattle.vdb_c.specs.Scenes.{CountsPairs, IsCopiedFrom, IsMetaRemoved, IsMetaSet, NamesGrid, Tells, TellsPair};

use crate::codes::{DONE, EMPTY, MEMORY, NO_GRID, NO_META, NO_NAME, NO_TEXT, scene_code};
use crate::handles::{GridHandle, SceneHandle};
use crate::scenes::files::copy_out;
use std::alloc::Global;
use vdb_scene::{MetaText, Name, Scene};

/// Writes the name of the grid at an index, by rising bytes of the names and counted from 0, to the head of `out`, and its length
/// to `used`.
#[unsafe(no_mangle)]
pub extern "C" fn vdb_scene_name(
    alloc: Global,
    handle: &mut SceneHandle,
    index: usize,
    out: &mut [u8],
    used: &mut u64,
) -> i32
    ensures { OnHeld handle.old.scene.held handle.new.scene.held result ((out.new ≡ out.old) × (used.new ≡ used.old)) (λ s t. Tells s t (NamesGrid (scene_of s) index out.old out.new used.old used.new result)) }
{
    let Some(scene) = handle.scene.take(alloc) else {
        return EMPTY;
    };
    let code = name_at(&scene, index, out, used);
    handle.scene.put(alloc, scene);
    code
}

/// Writes the name of the grid at an index to the head of `out`, and its length to `used`.
#[tactic(auto, unfolding(crate::specs::Scenes::NamesGrid))]
fn name_at(scene: &Scene, index: usize, out: &mut [u8], used: &mut u64) -> i32
    ensures { NamesGrid (scene_of scene.now) index out.old out.new used.old used.new result }
{
    match nth_name(scene, index) {
        Some(name) => copy_out(name.bytes(), out, used),
        None => NO_GRID,
    }
}

/// Returns the name of the grid at an index: `None` if the scene has no more grids than that.
fn nth_name(scene: &Scene, index: usize) -> Option<&Name>
    ensures { option_map (λ name. name.now) result ≡ slice_get (map (λ e. e.0) (scene_of scene.now)) index }
{
    scene.names().nth(index)
}

/// Copies the grid of a name: cells, nodes, background and limit. The copy replaces the grid of `to`.
#[unsafe(no_mangle)]
pub extern "C" fn vdb_scene_copy(
    alloc: Global,
    handle: &mut SceneHandle,
    name: &[u8],
    to: &mut GridHandle,
) -> i32
    ensures { OnHeld handle.old.scene.held handle.new.scene.held result (to.new.grid.held ≡ to.old.grid.held) (λ s t. Tells s t (IsCopiedFrom s name.now to.old.grid.held to.new.grid.held result)) }
{
    let Some(scene) = handle.scene.take(alloc) else {
        return EMPTY;
    };
    let code = copy_from(alloc, &scene, name, to);
    handle.scene.put(alloc, scene);
    code
}

/// Copies the grid of a name to a handle.
#[tactic(auto, unfolding(crate::specs::Scenes::IsCopiedFrom))]
fn copy_from(alloc: Global, scene: &Scene, name: &[u8], to: &mut GridHandle) -> i32
    ensures { IsCopiedFrom scene.now name.now to.old.grid.held to.new.grid.held result }
{
    let Some(name) = Name::new(name) else {
        return NO_NAME;
    };
    let Some(grid) = scene.get(&name) else {
        return NO_GRID;
    };
    let Ok(copy) = grid.try_copy() else {
        return MEMORY;
    };
    let Ok(copy) = Box::new(alloc, copy) else {
        return MEMORY;
    };
    to.grid.put(alloc, copy);
    DONE
}

/// Writes the number of metadata pairs of the grid of a name to `count`.
#[unsafe(no_mangle)]
pub extern "C" fn vdb_scene_meta_count(
    alloc: Global,
    handle: &mut SceneHandle,
    name: &[u8],
    count: &mut u64,
) -> i32
    ensures { OnHeld handle.old.scene.held handle.new.scene.held result (count.new ≡ count.old) (λ s t. Tells s t (CountsPairs (scene_of s) name.now count.old count.new result)) }
{
    let Some(scene) = handle.scene.take(alloc) else {
        return EMPTY;
    };
    let code = pair_count(&scene, name, count);
    handle.scene.put(alloc, scene);
    code
}

/// Writes the number of metadata pairs of the grid of a name to `count`.
#[tactic(auto, unfolding(crate::specs::Scenes::CountsPairs))]
fn pair_count(scene: &Scene, name: &[u8], count: &mut u64) -> i32
    ensures { CountsPairs (scene_of scene.now) name.now count.old count.new result }
{
    let Some(name) = Name::new(name) else {
        return NO_NAME;
    };
    let Some(metas) = scene.metas(&name) else {
        return NO_GRID;
    };
    *count = metas.len() as u64;
    DONE
}

/// Writes the key of the metadata pair at an index, by rising keys and counted from 0, to the head of `out`, and its length to
/// `used`.
#[unsafe(no_mangle)]
pub extern "C" fn vdb_scene_meta_key(
    alloc: Global,
    handle: &mut SceneHandle,
    name: &[u8],
    index: usize,
    out: &mut [u8],
    used: &mut u64,
) -> i32
    ensures { OnHeld handle.old.scene.held handle.new.scene.held result ((out.new ≡ out.old) × (used.new ≡ used.old)) (λ s t. Tells s t (TellsPair (scene_of s) name.now index (λ pair. pair.0) out.old out.new used.old used.new result)) }
{
    let Some(scene) = handle.scene.take(alloc) else {
        return EMPTY;
    };
    let code = key_at(&scene, name, index, out, used);
    handle.scene.put(alloc, scene);
    code
}

/// Writes the text of the metadata pair at an index, by rising keys and counted from 0, to the head of `out`, and its length to
/// `used`.
#[unsafe(no_mangle)]
pub extern "C" fn vdb_scene_meta_text(
    alloc: Global,
    handle: &mut SceneHandle,
    name: &[u8],
    index: usize,
    out: &mut [u8],
    used: &mut u64,
) -> i32
    ensures { OnHeld handle.old.scene.held handle.new.scene.held result ((out.new ≡ out.old) × (used.new ≡ used.old)) (λ s t. Tells s t (TellsPair (scene_of s) name.now index (λ pair. pair.1) out.old out.new used.old used.new result)) }
{
    let Some(scene) = handle.scene.take(alloc) else {
        return EMPTY;
    };
    let code = text_at(&scene, name, index, out, used);
    handle.scene.put(alloc, scene);
    code
}

/// Writes the key of a metadata pair to the head of `out`, and its length to `used`.
#[tactic(auto, unfolding(crate::specs::Scenes::TellsPair))]
fn key_at(scene: &Scene, name: &[u8], index: usize, out: &mut [u8], used: &mut u64) -> i32
    ensures { TellsPair (scene_of scene.now) name.now index (λ pair. pair.0) out.old out.new used.old used.new result }
{
    let Some(name) = Name::new(name) else {
        return NO_NAME;
    };
    let Some(metas) = scene.metas(&name) else {
        return NO_GRID;
    };
    if index >= metas.len() {
        return NO_META;
    }
    let (key, _) = metas.pair(index);
    copy_out(key.bytes(), out, used)
}

/// Writes the text of a metadata pair to the head of `out`, and its length to `used`.
#[tactic(auto, unfolding(crate::specs::Scenes::TellsPair))]
fn text_at(scene: &Scene, name: &[u8], index: usize, out: &mut [u8], used: &mut u64) -> i32
    ensures { TellsPair (scene_of scene.now) name.now index (λ pair. pair.1) out.old out.new used.old used.new result }
{
    let Some(name) = Name::new(name) else {
        return NO_NAME;
    };
    let Some(metas) = scene.metas(&name) else {
        return NO_GRID;
    };
    if index >= metas.len() {
        return NO_META;
    }
    let (_, text) = metas.pair(index);
    copy_out(text.bytes(), out, used)
}

/// Sets the text of a key of a grid's metadata. An existing text is replaced.
#[unsafe(no_mangle)]
pub extern "C" fn vdb_scene_meta_set(
    alloc: Global,
    handle: &mut SceneHandle,
    name: &[u8],
    key: &[u8],
    text: &[u8],
) -> i32
    ensures { OnHeld handle.old.scene.held handle.new.scene.held result ⊤ (λ s t. IsMetaSet name.now key.now text.now s t result) }
{
    let Some(mut scene) = handle.scene.take(alloc) else {
        return EMPTY;
    };
    let mut code = NO_NAME;
    if let Some(name) = Name::new(name) {
        if let Some(key) = Name::new(key) {
            code = NO_TEXT;
            if let Some(text) = MetaText::new(text) {
                code = scene_code(scene.set_meta(&name, key, text));
            }
        }
    }
    handle.scene.put(alloc, scene);
    code
}

/// Removes the pair of a key from a grid's metadata, if it exists.
#[unsafe(no_mangle)]
pub extern "C" fn vdb_scene_meta_remove(
    alloc: Global,
    handle: &mut SceneHandle,
    name: &[u8],
    key: &[u8],
) -> i32
    ensures { OnHeld handle.old.scene.held handle.new.scene.held result ⊤ (λ s t. IsMetaRemoved name.now key.now s t result) }
{
    let Some(mut scene) = handle.scene.take(alloc) else {
        return EMPTY;
    };
    let mut code = NO_NAME;
    if let Some(name) = Name::new(name) {
        if let Some(key) = Name::new(key) {
            code = scene_code(scene.remove_meta(&name, &key));
        }
    }
    handle.scene.put(alloc, scene);
    code
}
