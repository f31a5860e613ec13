//! The states of a leaf extent after one iteration of erosion.

ghost use Rattle.std.specs.Prelude.{◌≡◌, ◌&&◌, IsOk, IsTrue};
ghost use Rattle.vdb_coord.specs.Blocks.{offset, vdb};
ghost use Rattle.vdb_coord.specs.Space.{everywhere, is_inside};
ghost use Rattle.vdb_coord.specs.declared.Coord.{Coord};
ghost use Rattle.vdb_coord.specs.declared.Level.TheVariants.{Leaf as leaf_level};
ghost use Rattle.vdb_mask.specs.Mask.{is_on};
ghost use Rattle.vdb_tree.specs.Field.{erode};
ghost use Rattle.vdb_tree.specs.Layout.{field_of};
ghost use Rattle.vdb_morph.specs.internal.BlockStates.{HasStates, HasStatesBehind, state_behind};
ghost use Rattle.vdb_morph.specs.internal.Iterating.{is_around, taken, topology};

use crate::faces::block_behind;
use crate::states::put_states;
use crate::words::beside;
use vdb_coord::{Coord, Face};
use vdb_mask::Mask;
use vdb_node::Stored;
use vdb_pool::Steps;
use vdb_tree::{Tree, TreeRefusal};

/// Sets the states of p's leaf extent to those of the tree after one iteration of erosion, by the words of masks. Returns an
/// error if an allocation fails.
pub(crate) fn erode_block<V: Stored<512> + Stored<64> + Stored<8>>(
    tree: &Tree<V>,
    states: &mut Tree<bool>,
    p: Coord,
    steps: &mut Steps,
) -> Result<(), TreeRefusal>
    ensures { IsOk result → field_of vdb states.new ≡ taken (is_around vdb p) (topology (erode (field_of vdb tree.now))) (field_of vdb states.old) }
{
    let left = eroded_states(tree, p, steps);
    put_states(states, p, &left, steps)
}

/// Returns the states of p's leaf extent after one iteration of erosion.
fn eroded_states<V: Stored<512> + Stored<64> + Stored<8>>(
    tree: &Tree<V>,
    p: Coord,
    steps: &mut Steps,
) -> Mask<8>
    ensures { HasStates vdb (erode (field_of vdb tree.now)) p result }
{
    let own = states_at(tree, p, steps);
    let mut left = own.copied();
    for face in Face::ALL {
        narrow(tree, p, face, &own, &mut left, steps);
    }
    left
}

/// Turns off each entry of p's leaf extent whose voxel has an inactive neighbour behind the face.
fn narrow<V: Stored<512> + Stored<64> + Stored<8>>(
    tree: &Tree<V>,
    p: Coord,
    face: Face,
    own: &Mask<8>,
    left: &mut Mask<8>,
    steps: &mut Steps,
)
    requires { HasStates vdb (field_of vdb tree.now) p own.now }
    ensures { (q : Coord) → IsTrue (is_inside everywhere q) → IsTrue (is_around vdb p q)
        → is_on left.new (offset vdb leaf_level q) ≡ (is_on left.old (offset vdb leaf_level q) && state_behind (field_of vdb tree.now) face q) }
{
    if left.all_off() {
        return;
    }
    let other = states_behind(tree, p, face, steps);
    left.both(&beside(own, &other, face));
}

/// Returns the states of p's leaf extent.
fn states_at<V: Stored<512> + Stored<64> + Stored<8>>(
    tree: &Tree<V>,
    p: Coord,
    steps: &mut Steps,
) -> Mask<8>
    ensures { HasStates vdb (field_of vdb tree.now) p result }
{
    match tree.leaf(p, steps) {
        Some(leaf) => leaf.states().copied(),
        None => Mask::filled(tree.get(p, steps).on),
    }
}

/// Returns the states of the leaf extent behind a face of p's leaf extent: all on if the range of coordinates ends there.
fn states_behind<V: Stored<512> + Stored<64> + Stored<8>>(
    tree: &Tree<V>,
    p: Coord,
    face: Face,
    steps: &mut Steps,
) -> Mask<8>
    ensures { HasStatesBehind vdb (field_of vdb tree.now) face p result }
{
    match block_behind(p, face) {
        Some(r) => states_at(tree, r, steps),
        None => Mask::filled(true),
    }
}
