//! The voxels around a leaf extent that one iteration of dilation activates.

ghost use Rattle.std.specs.Prelude.{◌≡◌, IsOk};
ghost use Rattle.vdb_coord.specs.Blocks.{vdb};
ghost use Rattle.vdb_tree.specs.Layout.{field_of};
ghost use Rattle.vdb_morph.specs.internal.Spreading.{is_over};
ghost use Rattle.vdb_morph.specs.internal.Iterating.{is_marked, spread, with_active};

use crate::faces::{block_behind, opposite};
use crate::states::mark;
use crate::words::{beside, beside_any};
use vdb_coord::{Coord, Face};
use vdb_mask::Mask;
use vdb_pool::Steps;
use vdb_tree::{Tree, TreeRefusal};

/// Activates the face neighbours of the voxels of p's leaf extent whose entry is on in the mask, a word of the states at a time.
/// Returns an error if an allocation fails.
pub(crate) fn spread_block(
    states: &mut Tree<bool>,
    p: Coord,
    marks: &Mask<8>,
    steps: &mut Steps,
) -> Result<(), TreeRefusal>
    ensures { IsOk result → field_of vdb states.new ≡ spread (is_marked vdb p marks.now) (field_of vdb states.old) }
{
    mark(states, p, &beside_any(marks), steps)?;
    for face in Face::ALL {
        spread_over(states, p, marks, face, steps)?;
    }
    Ok(())
}

/// Activates the voxels outside p's leaf extent whose neighbour behind this face lies in the extent and is on in the mask.
/// Returns an error if an allocation fails.
fn spread_over(
    states: &mut Tree<bool>,
    p: Coord,
    marks: &Mask<8>,
    face: Face,
    steps: &mut Steps,
) -> Result<(), TreeRefusal>
    ensures { IsOk result → field_of vdb states.new ≡ with_active (is_over vdb p marks.now face) (field_of vdb states.old) }
{
    let over = beside(&Mask::off(), marks, face);
    match block_behind(p, opposite(face)) {
        Some(r) => mark(states, r, &over, steps),
        None => Ok(()),
    }
}
