//! Finds the coordinate at which the next part of a walk begins.

ghost use Rattle.std.specs.Prelude.{◌≤◌, IsTrue};
ghost use Rattle.vdb_coord.specs.Space.{is_inside};
ghost use Rattle.vdb_tree.specs.Layout.{bits_of};
ghost use Rattle.vdb_tree.specs.Parts.{IsWalk};
ghost use Rattle.vdb_walk.specs.internal.BlocksFrom.{IsPartStart, IsSkippedTo};

use vdb_coord::{Bounds, Coord};
use vdb_node::{Internal, Leaf, Stored};
use vdb_pool::Steps;
use vdb_tree::{Skip, TreeOf, Walk};

/// Returns the first coordinate, from `p` on, of the box's parts of the tiles and leaves that aren't skipped, or `None` if no
/// such part is left.
pub(crate) fn start_from<
    V: Stored<WU> + Stored<WL> + Stored<WF>,
    const U: u32,
    const L: u32,
    const F: u32,
    const WU: usize,
    const WL: usize,
    const WF: usize,
>(
    tree: &TreeOf<V, U, L, F, WU, WL, WF>,
    bounds: Bounds,
    skip: Skip,
    p: Coord,
    steps: &mut Steps,
) -> Option<Coord>
    requires { IsTrue (is_inside bounds p) }
    ensures { IsSkippedTo (bits_of U L F) tree.now bounds skip p result }
{
    let (_, bits) = (tree.mask_words(), tree.bits()); // the proof learns from it that nodes are small
    let mut walk = tree.parts_from(bounds, skip, p, steps);
    match part_from(tree, &mut walk, steps) {
        Some(q) => {
            if q.block_cmp_in(bits, &p).is_lt() {
                Some(p)
            } else {
                Some(q)
            }
        }
        None => None,
    }
}

/// Returns the first coordinate of the next part of a walk.
fn part_from<
    V: Stored<WU> + Stored<WL> + Stored<WF>,
    const U: u32,
    const L: u32,
    const F: u32,
    const WU: usize,
    const WL: usize,
    const WF: usize,
>(
    tree: &TreeOf<V, U, L, F, WU, WL, WF>,
    walk: &mut Walk<Internal<V, U, WU>, Internal<V, L, WL>, Leaf<V, F, WF>>,
    steps: &mut Steps,
) -> Option<Coord>
    requires upper { WU ≤ 512 }
    requires lower { WL ≤ 512 }
    requires leaf { WF ≤ 512 }
    requires walk { IsWalk (bits_of U L F) tree.now walk.old }
    ensures { IsPartStart (bits_of U L F) tree.now walk.old result }
{
    match tree.next_part(walk, steps) {
        Some(part) => Some(part.bounds.min()),
        None => None,
    }
}
