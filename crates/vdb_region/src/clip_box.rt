//! Clipping: the cells of a box stay, and all around it is cleared.

ghost use Rattle.std.specs.Prelude.{◌≡◌, ◌&&◌, false, Err, IfErr, IfNone, IfSome};
ghost use Rattle.vdb_coord.specs.Blocks.{vdb};
ghost use Rattle.vdb_coord.specs.Space.{is_inside};
ghost use Rattle.vdb_coord.specs.declared.Coord.{Coord};
ghost use Rattle.vdb_region.specs.internal.Beyond.{clear, is_beyond};
ghost use Rattle.vdb_region.specs.internal.Rings.{inner, outer};
ghost use Rattle.vdb_tree.specs.Field.{clip as clipped};
ghost use Rattle.vdb_tree.specs.Layout.{field_of, background_cell};
ghost use Rattle.vdb_tree.specs.Outcome.{IsOutcome};
ghost use Rattle.vdb_tree.specs.SplitBox.{IsSplit};
ghost use Rattle.vdb_tree.specs.Smallest.{IsLeast};
ghost use Rattle.vdb_tree.specs.declared.refusal.TreeRefusal.TheVariants.{Memory};

use crate::rings::{Ring, side};
use vdb_coord::{Bounds, Face};
use vdb_node::Stored;
use vdb_pool::Steps;
use vdb_tree::{Tree, TreeRefusal};
use vdb_value::Cell;

/// Sets every coordinate outside the box to the background, inactive, and keeps the cells of the box (OpenVDB's
/// `Tree::clip`).
///
/// The call fails with `Memory` after an allocation failure. It then leaves every cell as it was, and no node over a
/// block of one cell: the tree is pruned, so that the nodes made for the box are given back to their pools.
pub fn clip<V: Stored<512> + Stored<64> + Stored<8>>(
    tree: &mut Tree<V>,
    bounds: Bounds,
    steps: &mut Steps,
) -> Result<(), TreeRefusal>
    ensures outcome { IsOutcome V.eq vdb tree.old.limit (field_of vdb tree.old)
        (clipped bounds (field_of vdb tree.old)) (field_of vdb tree.new) result }
    ensures limit { tree.new.limit ≡ tree.old.limit }
    ensures memory { IfErr result (λ refusal. refusal ≡ Memory) }
    ensures given_back { result ≡ Err Memory → IsLeast V.eq vdb tree.new }
{
    let _ = tree.limit(); // the proof learns from it that the tree's roots keep to the limit
    let cell = Cell {
        value: tree.background(),
        on: false,
    };
    match tree.split(bounds, cell, steps) {
        Err(refusal) => {
            tree.prune(steps);
            Err(refusal)
        }
        Ok(()) => {
            clear_ring(tree, bounds, Ring::AroundRoots, &Face::ALL, steps);
            clear_ring(tree, bounds, Ring::WithinRoots, &Face::ALL, steps);
            clear_ring(tree, bounds, Ring::WithinLowers, &Face::ALL, steps);
            clear_ring(tree, bounds, Ring::WithinLeaves, &Face::ALL, steps);
            Ok(())
        }
    }
}

/// Clears the part of a ring past these faces of its inner box, in a tree that is split for the box.
fn clear_ring<V: Stored<512> + Stored<64> + Stored<8>>(
    tree: &mut Tree<V>,
    bounds: Bounds,
    ring: Ring,
    faces: &[Face],
    steps: &mut Steps,
)
    requires { IsSplit vdb bounds (background_cell tree.old) tree.old }
    ensures field { field_of vdb tree.new ≡ clear (outer vdb bounds ring) (inner vdb bounds ring) faces.now (field_of vdb tree.old) }
    ensures limit { tree.new.limit ≡ tree.old.limit }
    ensures edges { IsSplit vdb bounds (background_cell tree.new) tree.new }
{
    match faces.split_first() {
        None => {}
        Some((face, rest)) => {
            clear_ring(tree, bounds, ring, rest, steps);
            let cell = Cell {
                value: tree.background(),
                on: false,
            };
            match split_side(tree, bounds, ring, *face) {
                Some(side) => tree.paint(side, cell, steps),
                None => {}
            }
        }
    }
}

/// Returns the part of a ring past the face of its inner box, or `None` if that part is empty. A tree that is split
/// for the box and the background cell is split for this part, too.
fn split_side<V: Stored<512> + Stored<64> + Stored<8>>(
    tree: &Tree<V>,
    bounds: Bounds,
    ring: Ring,
    face: Face,
) -> Option<Bounds>
    requires { IsSplit vdb bounds (background_cell tree.now) tree.now }
    ensures some { IfSome result (λ s. (q : Coord) → is_inside s q ≡ (is_inside (outer vdb bounds ring) q && is_beyond (inner vdb bounds ring) q face)) }
    ensures none { IfNone result ((q : Coord) → (is_inside (outer vdb bounds ring) q && is_beyond (inner vdb bounds ring) q face) ≡ false) }
    ensures edges { IfSome result (λ s. IsSplit vdb s (background_cell tree.now) tree.now) }
{
    let _ = bounds.min(); // the proof learns from it that the box is one
    side(tree.bits(), bounds, ring, face)
}
