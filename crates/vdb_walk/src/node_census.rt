//! Counts the entries and nodes that a field needs.

ghost use Rattle.std.specs.Prelude.{◌≡◌, ◌+◌, ◌<◌, ◌≤◌, cond, not, IfSome, Some};
ghost use Rattle.vdb_coord.specs.Blocks.{block_around};
ghost use Rattle.vdb_coord.specs.Order.{coordinates_past};
ghost use Rattle.vdb_coord.specs.Space.{everywhere};
ghost use Rattle.vdb_coord.specs.declared.Level.TheVariants.{Leaf as LeafLevel};
ghost use Rattle.vdb_tree.specs.Layout.{bits_of, field_of};
ghost use Rattle.vdb_tree.specs.Leaves.{IsNextLeaf};
ghost use Rattle.vdb_tree.specs.ConstantBlocks.{is_constant, non_constant};
ghost use Rattle.vdb_walk.specs.internal.BlocksFrom.{IsBlockAt, IsBoxStart, non_constant_from};
ghost use Rattle.vdb_walk.specs.Reports.{census as census_of};

use crate::Census;
use crate::part_starts::start_from;
use vdb_coord::{Bounds, Coord, Level};
use vdb_node::Stored;
use vdb_pool::Steps;
use vdb_tree::{Skip, TreeOf};

/// Returns how many entries and nodes the tree's field needs: the counts that `node_counts` has after a prune, but without
/// pruning (OpenVDB's `Tree::nodeCount` after `tools::prune`). For the upper and lower extents it follows the tree's entries and
/// nodes, from the root table down to the blocks that are not the background. It visits each such block up to the first
/// difference that it finds. It counts a tile of a higher level in one go, and visits nothing if the table has no entry there.
/// For the leaf extents it goes from leaf to leaf and skips the tiles between them. It allocates nothing.
pub fn census<
    V: Stored<WU> + Stored<WL> + Stored<WF>,
    const U: u32,
    const L: u32,
    const F: u32,
    const WU: usize,
    const WL: usize,
    const WF: usize,
>(tree: &TreeOf<V, U, L, F, WU, WL, WF>, steps: &mut Steps) -> Census
    ensures { result ≡ census_of V.eq (bits_of U L F) (field_of (bits_of U L F) tree.now) }
{
    let roots = tree.root_blocks(steps);
    let upper = non_constant_blocks(tree, Level::Upper, steps);
    let lower = non_constant_blocks(tree, Level::Lower, steps);
    let leaf = non_constant_blocks(tree, Level::Leaf, steps);
    Census {
        roots,
        upper,
        lower,
        leaf,
    }
}

/// Returns how many blocks of the level have cells that differ.
fn non_constant_blocks<
    V: Stored<WU> + Stored<WL> + Stored<WF>,
    const U: u32,
    const L: u32,
    const F: u32,
    const WU: usize,
    const WL: usize,
    const WF: usize,
>(tree: &TreeOf<V, U, L, F, WU, WL, WF>, level: Level, steps: &mut Steps) -> u64
    ensures { result ≡ non_constant V.eq (bits_of U L F) level (field_of (bits_of U L F) tree.now) }
{
    if node_count(tree, level) == 0 {
        return 0; // and the sum is no greater than that count
    }
    let _ = tree.bits(); // the proof learns from it that blocks lie in the range
    let mut total = 0;
    let mut at = Some(Bounds::all().min());
    'starts: while let Some(p) = at {
        let (differs, next) = next_block(tree, level, p, steps);
        if differs {
            total += 1;
        }
        at = next;
    }
    total
}

/// Returns how many nodes the level has, each over a block of its own: no fewer than the blocks whose cells differ.
fn node_count<
    V: Stored<WU> + Stored<WL> + Stored<WF>,
    const U: u32,
    const L: u32,
    const F: u32,
    const WU: usize,
    const WL: usize,
    const WF: usize,
>(tree: &TreeOf<V, U, L, F, WU, WL, WF>, level: Level) -> u64
    ensures { non_constant V.eq (bits_of U L F) level (field_of (bits_of U L F) tree.now) ≤ result }
{
    let counts = tree.node_counts();
    match level {
        Level::Leaf => counts.leaf,
        Level::Lower => counts.lower,
        Level::Upper => counts.upper,
    }
}

/// Finds the first block from `p` on that isn't skipped. Returns whether its cells differ, and a coordinate past it. The function
/// skips blocks of inactive background, and takes a tile of a higher level as one block. Past a leaf block the coordinate is that
/// of the next leaf.
fn next_block<
    V: Stored<WU> + Stored<WL> + Stored<WF>,
    const U: u32,
    const L: u32,
    const F: u32,
    const WU: usize,
    const WL: usize,
    const WF: usize,
>(
    tree: &TreeOf<V, U, L, F, WU, WL, WF>,
    level: Level,
    p: Coord,
    steps: &mut Steps,
) -> (bool, Option<Coord>)
    requires { IsBoxStart (bits_of U L F) level everywhere p }
    ensures counted { cond result.0 1 0 + non_constant_from V.eq (bits_of U L F) level (field_of (bits_of U L F) tree.now) result.1 ≡ non_constant_from V.eq (bits_of U L F) level (field_of (bits_of U L F) tree.now) (Some p) }
    ensures start { IfSome result.1 (IsBoxStart (bits_of U L F) level everywhere) }
    ensures nearer { IfSome result.1 (λ next. coordinates_past (bits_of U L F) next < coordinates_past (bits_of U L F) p) }
{
    let bits = tree.bits();
    if let Level::Leaf = level {
        return leaf_at(tree, p, steps);
    }
    match start_from(tree, Bounds::all(), Skip::Background, p, steps) {
        Some(q) => {
            let (outer, differs) = block_at(tree, level, q, steps);
            (differs, Bounds::all().next_coord_in(bits, outer, q))
        }
        None => (false, None),
    }
}

/// Returns whether the cells of the leaf block around a coordinate differ, and the first leaf that begins past the coordinate.
fn leaf_at<
    V: Stored<WU> + Stored<WL> + Stored<WF>,
    const U: u32,
    const L: u32,
    const F: u32,
    const WU: usize,
    const WL: usize,
    const WF: usize,
>(tree: &TreeOf<V, U, L, F, WU, WL, WF>, p: Coord, steps: &mut Steps) -> (bool, Option<Coord>)
    ensures test { result.0 ≡ not (is_constant V.eq (field_of (bits_of U L F) tree.now) (block_around (bits_of U L F) LeafLevel p)) }
    ensures next { IsNextLeaf (bits_of U L F) tree.now (Some p) result.1 }
{
    let differs = leaf_differs(tree, p, steps);
    (differs, tree.next_leaf(Some(p), steps))
}

/// Returns whether the cells of the leaf block around a coordinate differ, by at most three visits.
fn leaf_differs<
    V: Stored<WU> + Stored<WL> + Stored<WF>,
    const U: u32,
    const L: u32,
    const F: u32,
    const WU: usize,
    const WL: usize,
    const WF: usize,
>(tree: &TreeOf<V, U, L, F, WU, WL, WF>, p: Coord, steps: &mut Steps) -> bool
    ensures { result ≡ not (is_constant V.eq (field_of (bits_of U L F) tree.now) (block_around (bits_of U L F) LeafLevel p)) }
{
    tree.has_leaf_words();
    let bits = tree.bits();
    match tree.leaf(p, steps) {
        Some(leaf) => {
            let _ = leaf.entry(u32::from(bits.entries(Level::Leaf)) - 1); // the proof learns from it that each entry has a cell
            leaf.constant().is_none()
        }
        None => false, // a block without a leaf has one cell
    }
}

/// Returns a level, and whether the cells of that level's block around a coordinate differ. The level is the given one, or the
/// upper one if the upper block lies in a tile.
fn block_at<
    V: Stored<WU> + Stored<WL> + Stored<WF>,
    const U: u32,
    const L: u32,
    const F: u32,
    const WU: usize,
    const WL: usize,
    const WF: usize,
>(tree: &TreeOf<V, U, L, F, WU, WL, WF>, level: Level, q: Coord, steps: &mut Steps) -> (Level, bool)
    ensures { IsBlockAt V.eq (bits_of U L F) level (field_of (bits_of U L F) tree.now) q result.0 result.1 }
{
    let bits = tree.bits();
    let piece = tree.piece(q, steps).bounds;
    if piece.covers(q.block_in(bits, Level::Upper)) {
        return (Level::Upper, false);
    }
    (level, tree.constant(level, q, steps).is_none())
}
