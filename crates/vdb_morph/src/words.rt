//! The states behind the faces of the voxels of a leaf. A word has the states of one x: a byte for each y, a bit for
//! each z.

ghost use Rattle.std.specs.Prelude.{◌≡◌, ◌+◌, ◌*◌, ◌<◌, ◌&&◌, ℕ};
ghost use Rattle.std.specs.List.{list_any};
ghost use Rattle.vdb_coord.specs.Blocks.{offset, vdb};
ghost use Rattle.vdb_coord.specs.Faces.{faces, toward};
ghost use Rattle.vdb_coord.specs.declared.Coord.{Coord};
ghost use Rattle.vdb_coord.specs.declared.Level.TheVariants.{Leaf as leaf_level};
ghost use Rattle.vdb_mask.specs.Mask.{has_bit, is_on};
ghost use Rattle.vdb_morph.specs.internal.Behind.{state_beside};
ghost use Rattle.vdb_morph.specs.internal.Beside.{bit_beside, is_on_beside};
ghost use Rattle.vdb_morph.specs.internal.Iterating.{is_around};

use vdb_coord::Face;
use vdb_mask::Mask;
use vdb_node::words::{after_y, after_z, before_y, before_z};

/// Returns, at the entry of each voxel, the state behind its face, from the states of its own leaf extent and of the leaf extent
/// behind that face.
pub(crate) fn beside(own: &Mask<8>, other: &Mask<8>, face: Face) -> Mask<8>
    ensures { (q : Coord) → is_on result (offset vdb leaf_level q) ≡ state_beside vdb own.now other.now face q }
{
    let mut result = Mask::off();
    for k in 0..8 {
        result.set_word(k, word_beside(own, other, face, k));
    }
    result
}

/// Returns, at the entry of each voxel, whether a voxel behind one of its faces lies in the same leaf extent and is on.
pub(crate) fn beside_any(own: &Mask<8>) -> Mask<8>
    ensures { (q : Coord) → is_on result (offset vdb leaf_level q) ≡ list_any (λ face. is_around vdb q (toward face q) && is_on own.now (offset vdb leaf_level (toward face q))) faces }
{
    let mut result = Mask::off();
    for k in 0..8 {
        result.set_word(k, word_beside_any(own, k));
    }
    result
}

/// Returns word k of the states behind a face, from the states of the own leaf extent and of the one behind that face.
#[inline]
fn word_beside(own: &Mask<8>, other: &Mask<8>, face: Face, k: u32) -> u64
    requires { k < 8 }
    ensures { (j : ℕ) → j < 64 → bit_beside face (is_on own.now) (is_on other.now) (64 * k + j) ≡ has_bit result j }
{
    match face {
        Face::MinusX => {
            if k == 0 {
                other.word(7)
            } else {
                own.word(k - 1)
            }
        }
        Face::PlusX => {
            if k == 7 {
                other.word(0)
            } else {
                own.word(k + 1)
            }
        }
        Face::MinusY => before_y(own.word(k), other.word(k)),
        Face::PlusY => after_y(own.word(k), other.word(k)),
        Face::MinusZ => before_z(own.word(k), other.word(k)),
        Face::PlusZ => after_z(own.word(k), other.word(k)),
    }
}

/// Returns word k of the mask of the voxels with a neighbour that lies in the same leaf extent and is on.
#[inline]
fn word_beside_any(own: &Mask<8>, k: u32) -> u64
    requires { k < 8 }
    ensures { (j : ℕ) → j < 64 → is_on_beside own.now (64 * k + j) ≡ has_bit result j }
{
    let word = own.word(k);
    let minus_x = if k == 0 { 0 } else { own.word(k - 1) };
    let plus_x = if k == 7 { 0 } else { own.word(k + 1) };
    let minus_y = before_y(word, 0);
    let plus_y = after_y(word, 0);
    let minus_z = before_z(word, 0);
    let plus_z = after_z(word, 0);
    minus_x | plus_x | minus_y | plus_y | minus_z | plus_z
}
