//! Leaves.

ghost use Rattle.std.specs.Prelude.{◌≡◌, ◌+◌, ◌*◌, ◌%◌, ◌<◌, ◌≤◌, ◌↔◌, ℕ, false, if◌then◌else◌, length, slice_index_or, IfOk, IsOk, IsTrue, Some};
ghost use Rattle.vdb_mask.specs.Mask.{is_on, on_count};
ghost use Rattle.vdb_node.specs.Blends.{AreBlended, LacksBlend};
ghost use Rattle.vdb_node.specs.Bounds.{IsActiveBox};
ghost use Rattle.vdb_node.specs.Leaf.{cell_in, FillsRun, IsConstantLeaf, SetsVoxel};
ghost use Rattle.vdb_node.specs.Nodes.{entry_count, IsOffFrom};
ghost use Rattle.vdb_value.specs.Blends.{blended};
ghost use Rattle.vdb_value.specs.declared.Kind.TheVariants.{Bool as truths};

use crate::Stored;
use crate::bounds::{VoxelBox, active_box};
use crate::uniform::{cut, entries, is_uniform, join, put, put_bits};
use std::alloc::{AllocError, Global};
use std::marker::Model;
use vdb_mask::Mask;
use vdb_pool::TryCopy;
use vdb_value::{Blend, Cell};

/// A node whose 8 to the power `LOG2` entries are cells of single voxels. It keeps a row of values
/// and a mask of active states. The mask's bits past the last entry are off; with the least `W`
/// only a leaf of 1 bit has such bits.
///
/// A contract sees the list of the values and the list of the states. It reads the cell at index `i`
/// by `cell_in d leaf i`, which below the entry count is the same for every `d`. OpenVDB's class
/// `LeafNode<ValueT, LOG2>`.
#[derive(Drop)]
pub struct Leaf<V: Stored<W>, const LOG2: u32, const W: usize> {
    row: V::Row,
    states: Mask<W>,
}

impl<V: Stored<W>, const LOG2: u32, const W: usize> Model for Leaf<V, LOG2, W> {
    ghost use Rattle.vdb_node.specs.Leaf.{IsSoundLeaf, Leaf as Voxels, leaf_code};
    ghost use Rattle.vdb_node.specs.Nodes.{entry_count, listed};

    ghost Value = { Voxels V };

    ghost coded = { leaf_code V.code };

    ghost view = { λ leaf. record {
      values = listed (V.value_in leaf.row) (entry_count LOG2);
      states = leaf.states;
    } };

    ghost invariant = { λ leaf. IsSoundLeaf LOG2 W (V.row_len leaf.row) leaf.states };
}

impl<V: Stored<W>, const LOG2: u32, const W: usize> Leaf<V, LOG2, W> {
    /// Returns a leaf with this cell at every entry. Returns an error if the memory for the values
    /// cannot be allocated; a leaf of booleans takes none beyond its place. The constructor
    /// `LeafNode(Coord, ValueType, bool)`.
    pub fn new_constant(alloc: Global, cell: Cell<V>) -> Result<Leaf<V, LOG2, W>, AllocError>
        requires bits { LOG2 ≤ 5 }
        requires capacity { entry_count LOG2 ≤ 64 * W }
        requires few_words { W ≤ 512 }
        ensures cells { IfOk result (λ leaf. IsConstantLeaf leaf (entry_count LOG2) cell) }
        ensures past_end { IfOk result (λ leaf. IsOffFrom leaf.states (entry_count LOG2)) }
        ensures in_place { V.KIND ≡ truths → IsOk result }
    {
        let row = cell.value.filled_row(alloc, entries(LOG2))?;
        let mut states = Mask::filled(cell.on);
        cut(&mut states, entries(LOG2));
        Ok(Leaf { row, states })
    }

    /// Returns a leaf of its own with the same cell at every entry; this one stays. Returns an
    /// error if the memory for the values cannot be allocated; a leaf of booleans takes none beyond
    /// its place. The copy constructor of `LeafNode`.
    pub fn try_copy(&self, alloc: Global) -> Result<Self, AllocError>
        ensures same { IfOk result (λ copy. copy ≡ self.now) }
        ensures in_place { V.KIND ≡ truths → IsOk result }
    {
        Ok(Leaf {
            row: V::copied_row(&self.row, alloc)?,
            states: self.states.copied(),
        })
    }

    /// Copies the cells of another leaf, which stays. It takes no memory. The assignment
    /// `operator=` of `LeafNode`'s buffer and value mask.
    pub fn copy_from(&mut self, other: &Self)
        ensures { self.new ≡ other.now }
    {
        V::copy_row(&mut self.row, &other.row, entries(LOG2));
        self.states.copy_from(&other.states);
    }

    /// Returns the cell at index `i`. `LeafNode::getValue(i)` with `LeafNode::isValueOn(i)`.
    #[inline(always)]
    pub fn entry(&self, i: u32) -> Cell<V>
        requires { i < entry_count LOG2 }
        ensures { (d : Cell V) → cell_in d self.now i ≡ result }
    {
        Cell {
            value: V::value_at(&self.row, i),
            on: self.states.test(i),
        }
    }

    /// Copies the values from index `from` on to a slice of as many places as it has.
    /// `LeafNode::buffer().data()`, of which it copies a run.
    #[inline(always)]
    pub fn copy_values(&self, from: u32, into: &mut [V])
        requires { from + length into.old ≤ entry_count LOG2 }
        ensures length { length into.new ≡ length into.old }
        ensures values { (d : Cell V) (i : ℕ) (e : V) → i < length into.old
            → slice_index_or into.new i e ≡ (cell_in d self.now (from + i)).value }
    {
        V::copy_values(&self.row, from, into);
    }

    /// Sets the cell at index `i`; every other stays. `LeafNode::setValueOn(i, value)` and
    /// `LeafNode::setValueOff(i, value)`.
    #[inline(always)]
    pub fn set(&mut self, i: u32, cell: Cell<V>)
        requires { i < entry_count LOG2 }
        ensures { SetsVoxel self.old self.new i cell }
    {
        put(&mut self.states, i, cell.on);
        V::set_value(&mut self.row, i, cell.value); // last, so that a call behind it needs no registers kept
    }

    /// Sets the cell at each index from `from` on and below `to`; every other stays. What
    /// `LeafNode::fill(bbox, value, active)` does with each row of its box.
    #[inline(always)]
    pub fn fill_run(&mut self, from: u32, to: u32, cell: Cell<V>)
        requires in_order { from ≤ to }
        requires within { to ≤ entry_count LOG2 }
        ensures { FillsRun self.old self.new from to cell }
    {
        V::set_run(&mut self.row, from, to, cell.value);
        self.states.set_run(from, to, cell.on);
    }

    /// Sets the cells from index `from` on: each takes its value from a slice and its state from the
    /// mask at the same index. Every other stays. One word of the leaf's mask has the states of all.
    /// `LeafNode::buffer().data()`, to a run of which it copies, and `LeafNode::setValueMask(mask)`.
    #[inline(always)]
    pub fn set_cells(&mut self, from: u32, values: &[V], states: &Mask<1>)
        requires within { from + length values.now ≤ entry_count LOG2 }
        requires one_word { from % 64 + length values.now ≤ 64 }
        ensures cells { (d : Cell V) (i : ℕ) → i < length values.now → cell_in d self.new (from + i)
            ≡ record { value = slice_index_or values.now i d.value; on = is_on states.now i } }
        ensures before { (d : Cell V) (i : ℕ) → i < from → cell_in d self.new i ≡ cell_in d self.old i }
        ensures after { (d : Cell V) (i : ℕ) → from + length values.now ≤ i
            → cell_in d self.new i ≡ cell_in d self.old i }
    {
        V::set_values(&mut self.row, from, values);
        put_bits(&mut self.states, from, values.len() as u32, states);
    }

    /// Returns the cell that every entry has, or `None` if two differ. `LeafNode::isConstant`,
    /// without a tolerance.
    pub fn constant(&self) -> Option<Cell<V>>
        ensures { (cell : Cell V) → (result ≡ Some cell)
            ↔ IsConstantLeaf self.now (entry_count LOG2) cell }
    {
        let (row, states) = (&self.row, &self.states);
        let count = entries(LOG2);
        if is_uniform(states, count) && V::are_alike(row, count) {
            Some(self.entry(0))
        } else {
            None
        }
    }

    /// Returns the states of the entries, which are off past the last one. The leaf has a value for
    /// each entry. `LeafNode::getValueMask()`.
    #[inline(always)]
    pub fn states(&self) -> &Mask<W>
        ensures same { result.now ≡ self.now.states }
        ensures values { length self.now.values ≡ entry_count LOG2 }
        ensures past_end { IsOffFrom result.now (entry_count LOG2) }
    {
        &self.states
    }

    /// Sets each entry's state to its state in the mask, whose values past the last entry do not
    /// count. The entries' values stay. `LeafNode::setValueMask(mask)`.
    pub fn set_states(&mut self, states: &Mask<W>)
        ensures values { self.new.values ≡ self.old.values }
        ensures states { (i : ℕ) → i < entry_count LOG2
            → is_on self.new.states i ≡ is_on states.now i }
        ensures past_end { IsOffFrom self.new.states (entry_count LOG2) }
    {
        self.states.copy_from(states);
        cut(&mut self.states, entries(LOG2));
    }

    /// Returns how many entries are on. `LeafNode::onVoxelCount()`.
    pub fn count_on(&self) -> u32
        ensures { result ≡ on_count self.now.states (entry_count LOG2) }
    {
        self.states.count()
    }

    /// Returns the bounding box of the active voxels, or `None` if none is active. The leaf has 3
    /// bits. `LeafNode::evalActiveBoundingBox(bbox)`, counted from the leaf's origin.
    pub fn active_box(&self) -> Option<VoxelBox>
        requires { LOG2 ≡ 3 }
        ensures { IsActiveBox self.now.states result }
    {
        active_box(&self.states)
    }

    /// Combines each value with the other leaf's, and turns on what that leaf has on. Returns false
    /// if some two values do not combine, as they have no sum: then some cells of this leaf may
    /// have changed. `LeafNode::combine(other, op)`.
    pub fn blend(&mut self, other: &Leaf<V, LOG2, W>, how: Blend) -> bool
        ensures blended { IsTrue result → AreBlended (blended V.greater V.lesser V.sum_of how)
            (entry_count LOG2) self.old (λ d i. cell_in d other.now i) self.new }
        ensures lacks { result ≡ false → LacksBlend (blended V.greater V.lesser V.sum_of how)
            (entry_count LOG2) self.old (λ d i. cell_in d other.now i) }
    {
        self.states.union(&other.states);
        V::blend_rows(&mut self.row, &other.row, entries(LOG2), how)
    }

    /// Combines each value with the cell's, and turns all on if the cell is. Returns false if some
    /// value and the cell's do not combine, as they have no sum: then some cells of this leaf may
    /// have changed. `LeafNode::combine(value, valueIsActive, op)`.
    pub fn blend_with(&mut self, cell: Cell<V>, how: Blend) -> bool
        ensures blended { IsTrue result → AreBlended (blended V.greater V.lesser V.sum_of how)
            (entry_count LOG2) self.old (λ d i. cell) self.new }
        ensures lacks { result ≡ false → LacksBlend (blended V.greater V.lesser V.sum_of how)
            (entry_count LOG2) self.old (λ d i. cell) }
    {
        join(&mut self.states, cell.on, entries(LOG2));
        V::blend_row_with(&mut self.row, cell.value, entries(LOG2), how)
    }

    /// Copies the other leaf's active cells; every other cell stays.
    pub fn take_active(&mut self, other: &Leaf<V, LOG2, W>)
        ensures { (d : Cell V) (i : ℕ) → i < entry_count LOG2 → cell_in d self.new i
            ≡ (if (cell_in d other.now i).on then cell_in d other.now i else cell_in d self.old i) }
    {
        V::take_marked(&mut self.row, &other.row, &other.states, entries(LOG2));
        self.states.union(&other.states);
    }
}

impl<V: Stored<W>, const LOG2: u32, const W: usize> TryCopy for Leaf<V, LOG2, W> {
    fn try_copy(&self, alloc: Global) -> Result<Leaf<V, LOG2, W>, AllocError> {
        self.try_copy(alloc)
    }
}
