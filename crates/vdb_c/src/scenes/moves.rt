//! Calls that move a grid into a scene and out of it.
ghost use Rattle.std.specs.Prelude.{◌≡◌, false, length};
ghost use Rattle.vdb_tree.specs.Field.{new};
ghost use Rattle.vdb_scene.specs.Grids.{grid_field, scene_of};
ghost use Rattle.vdb_scene.specs.declared.scalar.Scalar.TheVariants.{Bool};
ghost use Rattle.vdb_c.specs.Calls.{OnHeld};
ghost use Rattle.vdb_c.specs.Codes.{done};
ghost use Rattle.vdb_c.specs.Scenes.{IsMovedIn, IsSwapped, MovesOut, Tells};

use crate::codes::{DONE, EMPTY, MEMORY, NO_GRID, NO_NAME, scene_code};
use crate::handles::{GridHandle, SceneHandle};
use std::alloc::Global;
use std::mem;
use vdb_scene::{AnyGrid, Name, Scalar, Scene};

/// Writes the number of grids of the scene to `count`.
#[unsafe(no_mangle)]
pub extern "C" fn vdb_scene_count(alloc: Global, handle: &mut SceneHandle, count: &mut u64) -> i32
    ensures { OnHeld handle.old.scene.held handle.new.scene.held result (count.new ≡ count.old) (λ s t. (result ≡ done) × Tells s t (count.new ≡ length (scene_of s))) }
{
    let Some(scene) = handle.scene.take(alloc) else {
        return EMPTY;
    };
    *count = scene.len() as u64;
    handle.scene.put(alloc, scene);
    DONE
}

/// Moves the grid of `from` into the scene under a name, without metadata. The handle `from` is empty then.
#[unsafe(no_mangle)]
pub extern "C" fn vdb_scene_put(
    alloc: Global,
    handle: &mut SceneHandle,
    name: &[u8],
    from: &mut GridHandle,
) -> i32
    ensures { IsMovedIn name.now handle.old.scene.held handle.new.scene.held from.old.grid.held from.new.grid.held result }
{
    let Some(mut scene) = handle.scene.take(alloc) else {
        return EMPTY;
    };
    let Some(mut grid) = from.grid.take(alloc) else {
        handle.scene.put(alloc, scene);
        return EMPTY;
    };
    let Some(name) = Name::new(name) else {
        from.grid.put(alloc, grid);
        handle.scene.put(alloc, scene);
        return NO_NAME;
    };
    // the box stays until the scene has the grid, so that an error needs no memory
    let moved = mem::replace(&mut *grid, no_grid(alloc));
    let code = match scene.move_in(name, moved) {
        Ok(()) => DONE,
        Err((refusal, back)) => {
            *grid = back;
            from.grid.put(alloc, grid);
            scene_code(Err(refusal))
        }
    };
    handle.scene.put(alloc, scene);
    code
}

/// Moves the grid of a name out of the scene. It replaces the grid of `to`, and its metadata are dropped.
#[unsafe(no_mangle)]
pub extern "C" fn vdb_scene_take(
    alloc: Global,
    handle: &mut SceneHandle,
    name: &[u8],
    to: &mut GridHandle,
) -> i32
    ensures { OnHeld handle.old.scene.held handle.new.scene.held result (to.new.grid.held ≡ to.old.grid.held) (λ s t. MovesOut name.now s t to.old.grid.held to.new.grid.held result) }
{
    let Some(mut scene) = handle.scene.take(alloc) else {
        return EMPTY;
    };
    let code = move_out(alloc, &mut scene, name, to);
    handle.scene.put(alloc, scene);
    code
}

/// Moves the grid of a name out of a scene to a handle.
#[tactic(auto, unfolding(crate::specs::Scenes::MovesOut))]
fn move_out(alloc: Global, scene: &mut Scene, name: &[u8], to: &mut GridHandle) -> i32
    ensures { MovesOut name.now scene.old scene.new to.old.grid.held to.new.grid.held result }
{
    let Some(name) = Name::new(name) else {
        return NO_NAME;
    };
    let Some(_) = scene.get(&name) else {
        return NO_GRID;
    };
    let Ok(mut room) = Box::new(alloc, no_grid(alloc)) else {
        return MEMORY;
    };
    let Some(grid) = scene.move_out(&name) else {
        return NO_GRID;
    };
    *room = grid;
    to.grid.put(alloc, room);
    DONE
}

/// Exchanges the grid of a name with that of a handle. The metadata stay in the scene, the accessors with their grids.
#[unsafe(no_mangle)]
pub extern "C" fn vdb_scene_swap(
    alloc: Global,
    handle: &mut SceneHandle,
    name: &[u8],
    grid: &mut GridHandle,
) -> i32
    ensures { OnHeld handle.old.scene.held handle.new.scene.held result (grid.new.grid.held ≡ grid.old.grid.held) (λ s t. IsSwapped name.now s t grid.old.grid.held grid.new.grid.held result) }
{
    let Some(mut scene) = handle.scene.take(alloc) else {
        return EMPTY;
    };
    let code = swap(alloc, &mut scene, name, grid);
    handle.scene.put(alloc, scene);
    code
}

/// Exchanges the grid of a name in a scene with that of a handle.
#[tactic(auto, unfolding(crate::specs::Scenes::IsSwapped))]
fn swap(alloc: Global, scene: &mut Scene, name: &[u8], handle: &mut GridHandle) -> i32
    ensures { IsSwapped name.now scene.old scene.new handle.old.grid.held handle.new.grid.held result }
{
    let Some(mut grid) = handle.grid.take(alloc) else {
        return EMPTY;
    };
    let Some(name) = Name::new(name) else {
        handle.grid.put(alloc, grid);
        return NO_NAME;
    };
    let found = scene.swap(&name, &mut grid);
    handle.grid.put(alloc, grid);
    if found { DONE } else { NO_GRID }
}

/// Returns a grid that was never written, which takes the place of another for a while.
fn no_grid(alloc: Global) -> AnyGrid
    ensures { grid_field result ≡ new (Bool false) }
{
    AnyGrid::new(alloc, Scalar::Bool(false), 1)
}
