//! Trees of states alone: all their values are false.

ghost use Rattle.std.specs.Prelude.{◌≡◌, IfOk, IsOk, IsTrue};
ghost use Rattle.vdb_coord.specs.Blocks.{block_number, vdb};
ghost use Rattle.vdb_coord.specs.Space.{everywhere, is_inside};
ghost use Rattle.vdb_coord.specs.declared.Coord.{Coord};
ghost use Rattle.vdb_coord.specs.declared.Level.TheVariants.{Leaf as leaf_level};
ghost use Rattle.vdb_tree.specs.Layout.{field_of};
ghost use Rattle.vdb_morph.specs.internal.BlockStates.{of_mask};
ghost use Rattle.vdb_morph.specs.internal.Iterating.{is_around, is_marked, taken, topology, with_active};

use vdb_coord::Coord;
use vdb_mask::Mask;
use vdb_node::{Leaf, Stored};
use vdb_pool::Steps;
use vdb_tree::{StateRule, Tree, TreeRefusal};
use vdb_value::Cell;

/// Returns a boolean tree that is active where this one is, and whose values are all false. Returns an error if an allocation
/// fails.
pub(crate) fn topology_of<V: Stored<512> + Stored<64> + Stored<8>>(
    tree: &Tree<V>,
    steps: &mut Steps,
) -> Result<Tree<bool>, TreeRefusal>
    ensures { IfOk result (λ copy. field_of vdb copy ≡ topology (field_of vdb tree.now)) }
{
    let mut copy = Tree::new(tree.alloc(), false, u32::MAX);
    copy.combine_states(tree, StateRule::Unite, steps)?;
    Ok(copy)
}

/// Activates each voxel of a leaf extent whose entry is on in the mask. Returns an error if an allocation fails.
pub(crate) fn mark(
    states: &mut Tree<bool>,
    p: Coord,
    marks: &Mask<8>,
    steps: &mut Steps,
) -> Result<(), TreeRefusal>
    ensures { IsOk result → field_of vdb states.new ≡ with_active (is_marked vdb p marks.now) (field_of vdb states.old) }
{
    if marks.all_off() {
        return Ok(());
    }
    match states.leaf(p, steps) {
        Some(leaf) => {
            let mut added = marks.copied();
            added.minus(leaf.states());
            if added.all_off() {
                return Ok(());
            }
            let mut joined = leaf.states().copied();
            joined.union(marks);
            states.set_states(p, &joined, steps);
            Ok(())
        }
        None => mark_tile(states, p, marks, steps),
    }
}

/// Activates each voxel of a leaf extent whose entry is on in the mask, if the extent lies in one tile. An inactive tile becomes
/// a leaf. Returns an error if an allocation fails.
fn mark_tile(
    states: &mut Tree<bool>,
    p: Coord,
    marks: &Mask<8>,
    steps: &mut Steps,
) -> Result<(), TreeRefusal>
    requires { (q : Coord) → IsTrue (is_inside everywhere q) → block_number vdb leaf_level q ≡ block_number vdb leaf_level p
        → (field_of vdb states.old).cell q ≡ (field_of vdb states.old).cell p }
    ensures { IsOk result → field_of vdb states.new ≡ with_active (is_marked vdb p marks.now) (field_of vdb states.old) }
{
    let cell = states.get(p, steps);
    if cell.on {
        return Ok(());
    }
    let mut leaf = Leaf::new_constant(states.alloc(), cell)?;
    leaf.set_states(marks);
    states.write_leaf(p, &leaf, steps)
}

/// Sets the voxels of p's leaf extent to the states of the mask and the value false. Returns an error if an allocation fails.
pub(crate) fn put_states(
    states: &mut Tree<bool>,
    p: Coord,
    marks: &Mask<8>,
    steps: &mut Steps,
) -> Result<(), TreeRefusal>
    ensures { IsOk result → field_of vdb states.new ≡ taken (is_around vdb p) (of_mask vdb marks.now) (field_of vdb states.old) }
{
    let off = Cell {
        value: false,
        on: false,
    };
    let mut leaf = Leaf::new_constant(states.alloc(), off)?;
    leaf.set_states(marks);
    if let Some(cell) = leaf.constant() {
        if is_tile(states, p, cell, steps) {
            return Ok(());
        }
    }
    states.write_leaf(p, &leaf, steps)
}

/// Returns whether p's leaf extent lies in a tile of this cell.
fn is_tile(states: &Tree<bool>, p: Coord, cell: Cell<bool>, steps: &mut Steps) -> bool
    ensures { IsTrue result → (q : Coord) → IsTrue (is_inside everywhere q) → IsTrue (is_around vdb p q)
        → (field_of vdb states.now).cell q ≡ cell }
{
    match states.leaf(p, steps) {
        Some(_) => false,
        None => states.get(p, steps) == cell,
    }
}
