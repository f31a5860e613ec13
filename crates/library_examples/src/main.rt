//! Calls of the library: a box and a count, a dilation, a difference and a walk, two accessors, and a scene file in memory.
#![tactic(auto)]

use anyhow::{Context, Result, ensure};
use std::io;
use vdb_coord::{Bounds, Coord};
use vdb_file::{load_bytes, save};
use vdb_grid::Grid;
use vdb_morph::dilate;
use vdb_pool::Steps;
use vdb_region::fill;
use vdb_scene::{AnyGrid, Name, Scene, Watched};
use vdb_topology::subtract;
use vdb_tree::{Content, Skip, Tree, Write};
use vdb_value::Cell;
use vdb_walk::count;

/// The root limit: the most root blocks, of 4,096 voxels along each axis, that may hold anything but the background.
const ROOT_LIMIT: u32 = 16;

fn main(rt: HostRuntime) -> Result<()> {
    let mut steps = Steps::new(&rt);
    fill_and_count(&rt, &mut steps)?;
    cut(&rt, &mut steps)?;
    use_accessors(&rt, &mut steps)?;
    save_and_load(&rt, &mut steps)
}

/// Fills a box in a sparse grid of numbers, deactivates one voxel of it, and counts the active voxels.
fn fill_and_count(rt: &HostRuntime, steps: &mut Steps) -> Result<()> {
    let mut tree = Tree::new(rt.alloc(), 0i32, ROOT_LIMIT);
    let (min, max) = (at(0, 0, 0), at(9, 9, 99));
    let slab = Bounds::new(min, max).context("corners out of order")?;
    fill(&mut tree, slab, Cell { value: 5, on: true }, steps)?;
    tree.write(max, Write::Off(7), steps)?;
    println!(rt; "{} active voxels", count(&tree, None, steps))?;
    Ok(())
}

/// Dilates a block of 8 voxels along each axis, cuts a tunnel of two voxels by two through it, and prints what is left. Only the
/// states of the tunnel matter, so its values are booleans.
fn cut(rt: &HostRuntime, steps: &mut Steps) -> Result<()> {
    let block = Bounds::new(at(0, 0, 0), at(7, 7, 7)).context("corners out of order")?;
    let hole = Bounds::new(at(3, 3, -100), at(4, 4, 100)).context("corners out of order")?;
    let mut tree = Tree::new(rt.alloc(), 0i32, ROOT_LIMIT);
    fill(&mut tree, block, Cell { value: 5, on: true }, steps)?;
    dilate(&mut tree, 1, steps)?;
    let mut tunnel = Tree::new(rt.alloc(), false, ROOT_LIMIT);
    fill(
        &mut tunnel,
        hole,
        Cell {
            value: true,
            on: true,
        },
        steps,
    )?;
    subtract(&mut tree, &tunnel, steps)?;
    print_parts(rt, &tree, steps)?;
    Ok(())
}

/// Prints the tiles and leaves with an active voxel, one after another.
fn print_parts(rt: &impl Print, tree: &Tree<i32>, steps: &mut Steps) -> io::Result<()> {
    let mut walk = tree.parts(Bounds::all(), Skip::Inactive);
    'parts: while let Some(part) = tree.next_part(&mut walk, steps) {
        let corner = part.bounds.min();
        print!(rt; "at {} {} {}: ", corner.x, corner.y, corner.z)?;
        match part.content {
            Content::Tile(_) => println!(rt; "a tile")?,
            Content::Leaf(leaf) => println!(rt; "{} active voxels", leaf.count_on())?,
        }
    }
    Ok(())
}

/// Writes a voxel through one accessor, reads it and others through another one, and prints how many nodes each read visits: far from
/// the cached path, in its leaf, in its lower node, and back.
fn use_accessors(rt: &HostRuntime, steps: &mut Steps) -> Result<()> {
    let mut grid: Grid<i32, 2> = Grid::new(rt.alloc(), 0, ROOT_LIMIT);
    grid.write_by(0, at(0, 0, 2), Write::On(7), steps)?;
    for z in [2, 7, 100, 2] {
        let before = steps.count();
        let cell = grid.probe(1, at(0, 0, z), steps);
        let visits = steps.count().saturating_sub(before);
        println!(rt; "0 0 {z}: {}, by {visits} visits", cell.value)?;
    }
    Ok(())
}

/// Saves a scene of one grid as a file in memory, loads it again, and prints a cell. A file that is cut short is rejected.
fn save_and_load(rt: &HostRuntime, steps: &mut Steps) -> Result<()> {
    let name = Name::new(b"marks").context("not a name")?;
    let mut grid = Grid::new(rt.alloc(), false, ROOT_LIMIT);
    grid.write(at(1, 2, 3), Write::On(true), steps)?;
    let mut scene = Scene::new(rt.alloc());
    ensure!(
        scene.insert(name, AnyGrid::Bool(grid)).is_ok(),
        "out of memory"
    );
    let mut file = Watched::new(Vec::new(rt.alloc()));
    save(&scene, &mut file, steps)?;
    let bytes = file.get_ref().as_slice();
    let loaded = load_bytes(rt.alloc(), bytes, steps)?;
    let grid = loaded.get(&name).context("no such grid")?;
    println!(rt;
        "{} bytes: {:?}",
        bytes.len(),
        grid.get(at(1, 2, 3), steps).value
    )?;
    if let Some((_, part)) = bytes.split_last() {
        let fault = load_bytes(rt.alloc(), part, steps)
            .err()
            .context("a scene")?;
        println!(rt; "{} bytes: {fault}", part.len())?;
    }
    Ok(())
}

fn at(x: i32, y: i32, z: i32) -> Coord {
    Coord { x, y, z }
}
