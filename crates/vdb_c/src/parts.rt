//! Calls on the parts of a grid: its leaves, and its tiles other than the inactive background.
ghost use Rattle.std.specs.Prelude.{◌≡◌, false, IfNone, IfSome, IsTrue, None, Some};
ghost use Rattle.vdb_coord.specs.Blocks.{is_past, vdb};
ghost use Rattle.vdb_coord.specs.Boxes.{is_bounds};
ghost use Rattle.vdb_coord.specs.Space.{coord, everywhere, is_inside};
ghost use Rattle.vdb_coord.specs.declared.Coord.{Coord};
ghost use Rattle.vdb_tree.specs.Layout.{field_of};
ghost use Rattle.vdb_tree.specs.Parts.{IsPartOfLeaf, IsWalk, OnLeaf, OnTile, is_left};
ghost use Rattle.vdb_tree.specs.declared.queries.parts.Skip.TheVariants.{Background};
ghost use Rattle.vdb_scene.specs.Grids.{grid_field};
ghost use Rattle.vdb_c.specs.Calls.{OnHeld, Reads};
ghost use Rattle.vdb_c.specs.Parts.{ArePartsPast, IsPartOf, PassesAll, PassesTo, voxels_of};
ghost use Rattle.vdb_c.specs.Values.{value_number};
ghost use Rattle.vdb_c.specs.Views.{OnShown, shown};

use crate::codes::{DONE, EMPTY};
use crate::grids::reports::corner;
use crate::handles::GridHandle;
use crate::handles::held_view::ViewHandle;
use crate::values::numbers::Number;
use crate::values::{Corners, state_number};
use std::alloc::Global;
use vdb_coord::{Bounds, Coord};
use vdb_node::{Internal, Leaf};
use vdb_pool::Steps;
use vdb_scene::AnyGrid;
use vdb_tree::{Content, Skip, Tree, Walk};

/// A part of a grid: its voxels, and the value and the state of a tile. A leaf has the value 0 and the state 2.
#[repr(C)]
#[derive(Clone, Copy)]
pub struct GridPart {
    pub voxels: Corners,
    pub value: i64,
    pub state: i32,
}

/// Copies the first parts in block order, and writes to `copied` how many: as many as there is room for, or as there are.
#[unsafe(no_mangle)]
pub extern "C" fn vdb_grid_first_parts(
    handle: &mut GridHandle,
    parts: &mut [GridPart],
    copied: &mut usize,
) -> i32
    ensures { OnHeld handle.old.grid.held handle.new.grid.held result ((copied.new ≡ copied.old) × (parts.new ≡ parts.old)) (λ g h.
        Reads g h result (ArePartsPast value_number (grid_field g) None copied.new parts.old parts.new)) }
{
    let Some(grid) = handle.grid.grid_mut() else {
        return EMPTY;
    };
    *copied = copy(grid, None, parts, &mut handle.steps);
    DONE
}

/// Copies the parts that have a voxel past a coordinate in block order, such as past the last voxel of the last part copied.
#[unsafe(no_mangle)]
pub extern "C" fn vdb_grid_next_parts(
    handle: &mut GridHandle,
    x: i32,
    y: i32,
    z: i32,
    parts: &mut [GridPart],
    copied: &mut usize,
) -> i32
    ensures { OnHeld handle.old.grid.held handle.new.grid.held result ((copied.new ≡ copied.old) × (parts.new ≡ parts.old)) (λ g h.
        Reads g h result (ArePartsPast value_number (grid_field g) (Some (coord x y z)) copied.new parts.old parts.new)) }
{
    let Some(grid) = handle.grid.grid_mut() else {
        return EMPTY;
    };
    *copied = copy(grid, Some(Coord { x, y, z }), parts, &mut handle.steps);
    DONE
}

/// Copies the first parts of the grid of a view, as `vdb_grid_first_parts` does.
#[unsafe(no_mangle)]
pub extern "C" fn vdb_view_first_parts(
    alloc: Global,
    handle: &mut ViewHandle,
    parts: &mut [GridPart],
    copied: &mut usize,
) -> i32
    ensures same { handle.new.view.held ≡ handle.old.view.held }
    ensures read { OnShown (shown handle.old.view.held) result ((copied.new ≡ copied.old) × (parts.new ≡ parts.old)) (λ g.
        ArePartsPast value_number (grid_field g) None copied.new parts.old parts.new) }
{
    let Some(view) = handle.view.take(alloc) else {
        return EMPTY;
    };
    let code = match &view.grid {
        Some(grid) => {
            *copied = copy(grid, None, parts, &mut handle.steps);
            DONE
        }
        None => EMPTY,
    };
    handle.view.put(alloc, view);
    code
}

/// Copies the parts of the grid of a view that have a voxel past a coordinate, as `vdb_grid_next_parts` does.
#[unsafe(no_mangle)]
pub extern "C" fn vdb_view_next_parts(
    alloc: Global,
    handle: &mut ViewHandle,
    x: i32,
    y: i32,
    z: i32,
    parts: &mut [GridPart],
    copied: &mut usize,
) -> i32
    ensures same { handle.new.view.held ≡ handle.old.view.held }
    ensures read { OnShown (shown handle.old.view.held) result ((copied.new ≡ copied.old) × (parts.new ≡ parts.old)) (λ g.
        ArePartsPast value_number (grid_field g) (Some (coord x y z)) copied.new parts.old parts.new) }
{
    let Some(view) = handle.view.take(alloc) else {
        return EMPTY;
    };
    let after = Some(Coord { x, y, z });
    let code = match &view.grid {
        Some(grid) => {
            *copied = copy(grid, after, parts, &mut handle.steps);
            DONE
        }
        None => EMPTY,
    };
    handle.view.put(alloc, view);
    code
}

/// Copies the parts of a grid past a coordinate, or the first ones. Returns how many.
fn copy(grid: &AnyGrid, after: Option<Coord>, parts: &mut [GridPart], steps: &mut Steps) -> usize
    ensures { ArePartsPast value_number (grid_field grid.now) after result parts.old parts.new }
{
    match grid {
        AnyGrid::Bool(held) => copy_parts(held.tree(), after, parts, steps),
        AnyGrid::I32(held) => copy_parts(held.tree(), after, parts, steps),
        AnyGrid::I64(held) => copy_parts(held.tree(), after, parts, steps),
    }
}

/// Copies the parts of a tree that have a voxel past a coordinate, or the first ones, in block order. Returns how many it copied:
/// as many as there is room for, or as are left.
fn copy_parts<V: Number>(
    tree: &Tree<V>,
    after: Option<Coord>,
    parts: &mut [GridPart],
    steps: &mut Steps,
) -> usize
    ensures { ArePartsPast V.number_of (field_of vdb tree.now) after result parts.old parts.new }
{
    let _ = tree.mask_words(); // the proof learns from it that nodes are small
    let mut walk = begun(tree, after, steps);
    for k in 0..parts.len() {
        let Some(part) = next_part_past(tree, after, &mut walk, steps) else {
            return k;
        };
        parts[k] = part;
    }
    parts.len()
}

/// Returns a walk over the leaves of a tree and its tiles other than the inactive background, from the one around `after` on.
fn begun<V: Number>(
    tree: &Tree<V>,
    after: Option<Coord>,
    steps: &mut Steps,
) -> Walk<Internal<V, 5, 512>, Internal<V, 4, 64>, Leaf<V, 3, 8>>
    ensures walk { IsWalk vdb tree.now result }
    ensures bounds { result.box ≡ everywhere }
    ensures skip { result.skip ≡ Background }
    ensures earlier { (q : Coord) → IsTrue (is_inside everywhere q) → is_left vdb result.at q ≡ false → is_past vdb after q ≡ false }
{
    let _ = tree.mask_words(); // the proof learns from it that nodes are small
    match after {
        Some(p) => tree.parts_from(Bounds::all(), Skip::Background, p, steps),
        None => tree.parts(Bounds::all(), Skip::Background),
    }
}

/// Returns the next part of a walk that has a voxel past a coordinate, or `None` if no such part is left.
fn next_part_past<V: Number>(
    tree: &Tree<V>,
    after: Option<Coord>,
    walk: &mut Walk<Internal<V, 5, 512>, Internal<V, 4, 64>, Leaf<V, 3, 8>>,
    steps: &mut Steps,
) -> Option<GridPart>
    requires walk { IsWalk vdb tree.now walk.old }
    requires bounds { walk.old.box ≡ everywhere }
    requires skip { walk.old.skip ≡ Background }
    ensures walk { IsWalk vdb tree.now walk.new }
    ensures bounds { walk.new.box ≡ everywhere }
    ensures skip { walk.new.skip ≡ Background }
    ensures part { IfSome result (IsPartOf V.number_of (field_of vdb tree.now)) }
    ensures passes { IfSome result (λ part. PassesTo (field_of vdb tree.now) after walk.old.at walk.new.at (voxels_of part)) }
    ensures none { IfNone result (PassesAll (field_of vdb tree.now) after walk.old.at) }
{
    let _ = tree.mask_words(); // the proof learns from it that nodes are small
    'parts: while let Some(part) = tree.next_part(walk, steps) {
        if is_after(after, part.bounds) {
            return Some(part_of(tree, part.bounds, part.content));
        }
    }
    None
}

/// Returns whether a box has a voxel past a coordinate.
fn is_after(after: Option<Coord>, bounds: Bounds) -> bool
    ensures { result ≡ is_past vdb after bounds.max }
{
    match after {
        Some(last) => last.block_cmp(&bounds.max()).is_lt(),
        None => true,
    }
}

/// Returns a part of a tree as C has it.
fn part_of<V: Number>(
    tree: &Tree<V>,
    bounds: Bounds,
    content: Content<V, &Leaf<V, 3, 8>>,
) -> GridPart
    requires tile { OnTile content (λ cell. (q : Coord) → IsTrue (is_inside bounds q) → (field_of vdb tree.now).cell q ≡ cell) }
    requires leaf { OnLeaf content (λ leaf. IsPartOfLeaf vdb (field_of vdb tree.now) bounds leaf.now) }
    ensures part { IsPartOf V.number_of (field_of vdb tree.now) result }
    ensures voxels { voxels_of result ≡ bounds }
    ensures within { IsTrue (is_bounds bounds) }
{
    let _ = tree;
    let voxels = Corners {
        min: corner(bounds.min()),
        max: corner(bounds.max()),
    };
    match content {
        Content::Tile(cell) => GridPart {
            voxels,
            value: cell.value.number(),
            state: state_number(cell.on),
        },
        Content::Leaf(_) => GridPart {
            voxels,
            value: 0,
            state: 2,
        },
    }
}
