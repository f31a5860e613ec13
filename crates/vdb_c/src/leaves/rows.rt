//! Leaves of a tree copied into rows of arrays.
ghost use Rattle.std.specs.Prelude.{◌≡◌, ◌+◌, ◌*◌, ◌<◌, ◌≤◌, ℕ, IsTrue, length};
ghost use Rattle.vdb_coord.specs.Blocks.{vdb};
ghost use Rattle.vdb_mask.specs.Mask.{has_bit, is_on};
ghost use Rattle.vdb_node.specs.Leaf.{cell_in};
ghost use Rattle.vdb_tree.specs.Layout.{field_of};
ghost use Rattle.vdb_tree.specs.Leaves.{IsNextLeaf};
ghost use Rattle.vdb_tree.specs.Paths.{in_leaf};
ghost use Rattle.vdb_value.specs.declared.Cell.{Cell};
ghost use Rattle.vdb_c.specs.Leaves.{AreNextLeaves, HasRows, HasRun, IsValueOf, IsWordOf, has_rows as has_a_row};
ghost use Rattle.vdb_c.specs.Many.{voxel_at};

use crate::grids::reports::corner;
use crate::values::Corner;
use crate::values::numbers::Number;
use vdb_coord::Coord;
use vdb_node::Leaf;
use vdb_pool::Steps;
use vdb_tree::Tree;

/// Returns whether an array of this length has a row of elements for each of `count` leaves, or is empty.
pub(crate) fn has_rows(size: usize, count: usize, len: usize) -> bool
    requires { size ≤ 512 }
    ensures { result ≡ has_a_row size count len }
{
    len == 0 || len as u128 == size as u128 * count as u128
}

/// Copies the leaves of a tree past a coordinate, or the first ones, in block order: their first coordinates, and rows of 512 values
/// and of 8 words of states. Returns how many it copied: as many as there is room for, or as are left.
pub(crate) fn copy_leaves<V: Number>(
    tree: &Tree<V>,
    after: Option<Coord>,
    origins: &mut [Corner],
    values: &mut [i64],
    states: &mut [u64],
    steps: &mut Steps,
) -> usize
    requires values { IsTrue (has_a_row 512 (length origins.old) (length values.old)) }
    requires states { IsTrue (has_a_row 8 (length origins.old) (length states.old)) }
    ensures leaves { AreNextLeaves (IsNextLeaf vdb tree.now) after result origins.old origins.new }
    ensures values { HasRows 512 result (λ k. IsValueOf (λ q. V.number_of ((field_of vdb tree.now).cell q).value) (voxel_at origins.new k)) values.old values.new }
    ensures states { HasRows 8 result (λ k. IsWordOf (λ q. ((field_of vdb tree.now).cell q).on) (voxel_at origins.new k)) states.old states.new }
{
    let mut last = after;
    for k in 0..origins.len() {
        let Some(p) = tree.next_leaf(last, steps) else {
            return k;
        };
        copy_leaf(tree, p, k, values, states, steps);
        origins[k] = corner(p);
        last = Some(p);
    }
    origins.len()
}

/// Copies the leaf around a coordinate into the row of this number.
fn copy_leaf<V: Number>(
    tree: &Tree<V>,
    p: Coord,
    k: usize,
    values: &mut [i64],
    states: &mut [u64],
    steps: &mut Steps,
)
    requires leaf { IsTrue (in_leaf vdb tree.now p) }
    requires values { 0 < length values.old → 512 * k + 512 ≤ length values.old }
    requires states { 0 < length states.old → 8 * k + 8 ≤ length states.old }
    ensures values { HasRun (512 * k) 512 (IsValueOf (λ q. V.number_of ((field_of vdb tree.now).cell q).value) p) values.old values.new }
    ensures states { HasRun (8 * k) 8 (IsWordOf (λ q. ((field_of vdb tree.now).cell q).on) p) states.old states.new }
{
    let Some(leaf) = tree.leaf(p, steps) else {
        unreachable!()
    };
    copy_values(leaf, k, values);
    copy_states(leaf, k, states);
}

/// Copies the values of a leaf to the row of this number, unless the array is empty.
fn copy_values<V: Number>(leaf: &Leaf<V, 3, 8>, k: usize, values: &mut [i64])
    requires { 0 < length values.old → 512 * k + 512 ≤ length values.old }
    ensures { (d : Cell V) → HasRun (512 * k) 512 (λ i x. x ≡ V.number_of (cell_in d leaf.now i).value) values.old values.new }
{
    if values.len() == 0 {
        return;
    }
    let first = 512 * k;
    V::copy_numbers(leaf, &mut values[first..first + 512]);
}

/// Copies the words of a leaf's states to the row of this number, unless the array is empty.
fn copy_states<V: Number>(leaf: &Leaf<V, 3, 8>, k: usize, states: &mut [u64])
    requires { 0 < length states.old → 8 * k + 8 ≤ length states.old }
    ensures { HasRun (8 * k) 8 (λ i x. (j : ℕ) → j < 64 → is_on leaf.now.states (64 * i + j) ≡ has_bit x j) states.old states.new }
{
    if states.len() == 0 {
        return;
    }
    let first = 8 * k;
    let words = leaf.states();
    for i in 0..8u32 {
        states[first + i as usize] = words.word(i);
    }
}
