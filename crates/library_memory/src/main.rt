//! Allocates memory through the library: it reserves places in a pool, creates and copies nodes, calls methods of a grid, and plays
//! a session over memory. If a call fails, the program prints that, checks what the call left, and calls once more. Fault injection
//! makes each allocation of this program fail in turn.
#![tactic(auto)]

mod grid;
mod sessions;

use std::process::ExitCode;
use vdb_coord::Coord;
use vdb_node::{Internal, Leaf};
use vdb_pool::{Pool, Steps};
use vdb_tree::{NodeCounts, Tree, Write};
use vdb_value::Cell;

/// The value of the cells that are copied.
const VALUE: i32 = 7;

/// The x coordinates of the tree's voxels: two in one root block and one in another.
const VOXELS: [i32; 3] = [0, 9, 5000];

/// The tree's root limit.
const LIMIT: u32 = 4096;

/// A leaf of a tree of numbers; `NumberNode` is such a tree's lower internal node.
type NumberLeaf = Leaf<i32, 3, 8>;

type NumberNode = Internal<i32, 4, 64>;

fn main(rt: HostRuntime) -> ExitCode {
    let mut steps = Steps::new(&rt);
    reserve(&rt, &mut steps);
    leaf(&rt);
    internal(&rt);
    tree(&rt, &mut steps);
    grid::grid(&rt);
    sessions::play(&rt, &mut steps);
    ExitCode::from(0)
}

/// Prints the outcome of a call.
pub(crate) fn tell(rt: &HostRuntime, call: &str, outcome: &str) {
    let _ = println!(rt; "{call}: {outcome}");
}

/// Prints that a call failed, and whether everything is as before.
pub(crate) fn tell_refused(rt: &HostRuntime, call: &str, is_kept: bool) {
    tell(
        rt,
        call,
        if is_kept {
            "refused, all as before"
        } else {
            "refused, changed"
        },
    );
}

/// Prints whether a call gave the right result.
pub(crate) fn tell_done(rt: &HostRuntime, call: &str, is_right: bool) {
    tell(rt, call, if is_right { "done" } else { "done, but wrong" });
}

/// Reserves places in a pool: for two nodes, and then for enough nodes that the pool needs further chunks.
fn reserve(rt: &HostRuntime, steps: &mut Steps) {
    let mut pool = Pool::new(rt.alloc());
    if pool.reserve(2).is_err() {
        tell_refused(rt, "reserve two", pool.len() == 0);
        if pool.reserve(2).is_err() {
            return tell(rt, "reserve two", "refused again");
        }
    }
    let first = pool.insert(11i64);
    let second = pool.insert(22);
    tell_done(rt, "reserve two", pool.len() == 2);
    if pool.reserve(2000).is_err() {
        let values = (*pool.at(first, steps), *pool.at(second, steps));
        tell_refused(rt, "reserve more", pool.len() == 2 && values == (11, 22));
        if pool.reserve(2000).is_err() {
            return tell(rt, "reserve more", "refused again");
        }
    }
    let third = pool.insert(33);
    let values = (
        *pool.at(first, steps),
        *pool.at(second, steps),
        *pool.at(third, steps),
    );
    tell_done(
        rt,
        "reserve more",
        pool.len() == 3 && values == (11, 22, 33),
    );
}

/// Returns the cell of the nodes that the program creates.
fn cell() -> Cell<i32> {
    Cell {
        value: VALUE,
        on: true,
    }
}

/// Creates a leaf of that cell. If the call fails, prints that and calls once more.
fn made_leaf(rt: &HostRuntime) -> Option<NumberLeaf> {
    if let Some(leaf) = new_leaf(rt) {
        return Some(leaf);
    }
    tell_refused(rt, "leaf", true);
    new_leaf(rt)
}

fn new_leaf(rt: &HostRuntime) -> Option<NumberLeaf> {
    Leaf::new_constant(rt.alloc(), cell()).ok()
}

/// Copies a leaf. If the call fails, prints that and calls once more.
fn copied_leaf(rt: &HostRuntime, leaf: &NumberLeaf) -> Option<NumberLeaf> {
    if let Some(copy) = copy_leaf(rt, leaf) {
        return Some(copy);
    }
    tell_refused(rt, "copy of a leaf", is_whole_leaf(leaf));
    copy_leaf(rt, leaf)
}

fn copy_leaf(rt: &HostRuntime, leaf: &NumberLeaf) -> Option<NumberLeaf> {
    leaf.try_copy(rt.alloc()).ok()
}

fn is_whole_leaf(leaf: &NumberLeaf) -> bool {
    leaf.constant() == Some(cell())
}

/// Creates a leaf and copies it.
fn leaf(rt: &HostRuntime) {
    let Some(leaf) = made_leaf(rt) else {
        return tell(rt, "leaf", "refused again");
    };
    tell_done(rt, "leaf", is_whole_leaf(&leaf));
    let Some(copy) = copied_leaf(rt, &leaf) else {
        return tell(rt, "copy of a leaf", "refused again");
    };
    let is_right = is_whole_leaf(&copy) && is_whole_leaf(&leaf);
    tell_done(rt, "copy of a leaf", is_right);
}

/// Creates an internal node of one cell. If the call fails, prints that and calls once more.
fn made_node(rt: &HostRuntime) -> Option<NumberNode> {
    if let Some(node) = new_node(rt) {
        return Some(node);
    }
    tell_refused(rt, "internal node", true);
    new_node(rt)
}

fn new_node(rt: &HostRuntime) -> Option<NumberNode> {
    Internal::new_constant(rt.alloc(), cell()).ok()
}

/// Copies an internal node. If the call fails, prints that and calls once more.
fn copied_node(rt: &HostRuntime, node: &NumberNode) -> Option<NumberNode> {
    if let Some(copy) = copy_node(rt, node) {
        return Some(copy);
    }
    tell_refused(rt, "copy of an internal node", is_whole_node(node));
    copy_node(rt, node)
}

fn copy_node(rt: &HostRuntime, node: &NumberNode) -> Option<NumberNode> {
    node.try_copy(rt.alloc()).ok()
}

fn is_whole_node(node: &NumberNode) -> bool {
    node.constant() == Some(cell())
}

/// Creates an internal node and copies it.
fn internal(rt: &HostRuntime) {
    let Some(node) = made_node(rt) else {
        return tell(rt, "internal node", "refused again");
    };
    tell_done(rt, "internal node", is_whole_node(&node));
    let Some(copy) = copied_node(rt, &node) else {
        return tell(rt, "copy of an internal node", "refused again");
    };
    let is_right = is_whole_node(&copy) && is_whole_node(&node);
    tell_done(rt, "copy of an internal node", is_right);
}

fn look(tree: &Tree<i32>, p: Coord, steps: &mut Steps) -> Cell<i32> {
    tree.get(p, steps)
}

/// Writes a voxel. Returns whether the call succeeded.
fn put(tree: &mut Tree<i32>, p: Coord, steps: &mut Steps) -> bool {
    tree.write(p, Write::On(VALUE), steps).is_ok()
}

/// Writes the voxels. If a call fails, prints that and calls once more. Returns whether all were written.
fn write(rt: &HostRuntime, tree: &mut Tree<i32>, steps: &mut Steps) -> bool {
    for x in VOXELS {
        let p = Coord { x, y: 0, z: 0 };
        let before = look(tree, p, steps);
        if !put(tree, p, steps) {
            tell_refused(rt, "write", look(tree, p, steps) == before);
            if !put(tree, p, steps) {
                tell(rt, "write", "refused again");
                return false;
            }
        }
        tell_done(rt, "write", look(tree, p, steps) == cell());
    }
    true
}

/// Returns how many nodes a tree has, and whether the three voxels have the cell that was written.
fn seen(tree: &Tree<i32>, steps: &mut Steps) -> (NodeCounts, bool) {
    for x in VOXELS {
        if look(tree, Coord { x, y: 0, z: 0 }, steps) != cell() {
            return (tree.node_counts(), false);
        }
    }
    (tree.node_counts(), true)
}

/// Copies a tree. If the call fails, prints that, checks that `seen` still returns `wanted` for the tree, and calls once more.
fn copied_tree(
    rt: &HostRuntime,
    tree: &Tree<i32>,
    wanted: (NodeCounts, bool),
    steps: &mut Steps,
) -> Option<Tree<i32>> {
    if let Some(copy) = copy_tree(tree) {
        return Some(copy);
    }
    tell_refused(rt, "copy of a tree", seen(tree, steps) == wanted);
    copy_tree(tree)
}

fn copy_tree(tree: &Tree<i32>) -> Option<Tree<i32>> {
    tree.try_copy().ok()
}

/// Copies a tree.
fn copy(rt: &HostRuntime, tree: &Tree<i32>, steps: &mut Steps) {
    let (counts, _) = seen(tree, steps);
    let wanted = (counts, true);
    let Some(copy) = copied_tree(rt, tree, wanted, steps) else {
        return tell(rt, "copy of a tree", "refused again");
    };
    let is_right = seen(&copy, steps) == wanted && seen(tree, steps) == wanted;
    tell_done(rt, "copy of a tree", is_right);
}

/// Writes voxels into a tree, and copies it.
fn tree(rt: &HostRuntime, steps: &mut Steps) {
    let mut tree = Tree::<i32>::new(rt.alloc(), 0, LIMIT);
    if write(rt, &mut tree, steps) {
        copy(rt, &tree, steps);
    }
}
