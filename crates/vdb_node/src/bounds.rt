//! The bounding box of a leaf's active voxels, from the words of its states. A leaf of 3 bits has 8
//! voxels along each axis. The voxel at (x, y, z) has index `64 * x + 8 * y + z`, so a word has the
//! states of one x: a byte for each y, a bit for each z.

ghost use Rattle.std.specs.Prelude.{◌/◌, ◌%◌, ◌≤◌};
ghost use Rattle.vdb_mask.specs.Mask.{has_bit, is_on};
ghost use Rattle.vdb_node.specs.Bounds.{IsActiveBox, IsSpan, Projects};

use vdb_mask::Mask;

/// The least and the greatest coordinate of some voxels along an axis.
#[derive(Clone, Copy, Debug, PartialEq, Eq)]
pub struct Span {
    /// The least coordinate.
    pub first: u32,
    /// The greatest coordinate.
    pub last: u32,
}

/// The bounding box of some voxels of a leaf of 3 bits. Its coordinates, from 0 to 7, count from
/// the leaf's first voxel.
#[derive(Clone, Copy, Debug, PartialEq, Eq)]
pub struct VoxelBox {
    /// The span along x.
    pub x: Span,
    /// The span along y.
    pub y: Span,
    /// The span along z.
    pub z: Span,
}

/// Returns the bounding box of the active voxels of a leaf of 3 bits with these states, or `None`
/// if none is active.
pub fn active_box<const W: usize>(states: &Mask<W>) -> Option<VoxelBox>
    requires { 8 ≤ W }
    ensures { IsActiveBox states.now result }
{
    let union = union_of_words(states);
    let x = span_of(words_on(states))?;
    let yz = span_of(union)?;
    let z = span_of(union_of_bytes(union))?;
    let y = Span {
        first: yz.first / 8,
        last: yz.last / 8,
    };
    Some(VoxelBox { x, y, z })
}

/// Returns the word whose bit x is 1 if some voxel at x is active.
fn words_on<const W: usize>(states: &Mask<W>) -> u64
    requires { 8 ≤ W }
    ensures { Projects (is_on states.now) 512 (λ i. i / 64) result }
{
    let mut on = 0;
    for k in 0..8 {
        if states.word(k) != 0 {
            on |= 1 << k;
        }
    }
    on
}

/// Returns the word whose bit `8 * y + z` is 1 if some voxel at y and z is active.
fn union_of_words<const W: usize>(states: &Mask<W>) -> u64
    requires { 8 ≤ W }
    ensures { Projects (is_on states.now) 512 (λ i. i % 64) result }
{
    let mut union = 0;
    for k in 0..8 {
        union |= states.word(k);
    }
    union
}

/// Returns the word whose bit z is 1 if some byte of this word has bit z.
fn union_of_bytes(word: u64) -> u64
    ensures { Projects (has_bit word) 64 (λ j. j % 8) result }
{
    let four = word | word >> 32;
    let two = four | four >> 16;
    let one = two | two >> 8;
    one & 0xff
}

/// Returns the indices of the lowest and of the highest 1 of a word, or `None` if it is 0.
fn span_of(word: u64) -> Option<Span>
    ensures { IsSpan (has_bit word) 64 (λ j. j) result }
{
    if word == 0 {
        return None;
    }
    Some(Span {
        first: word.trailing_zeros(),
        last: 63 - word.leading_zeros(),
    })
}
