//! Internal nodes.

ghost use Rattle.std.specs.Prelude.{◌≡◌, ◌*◌, ◌<◌, ◌≤◌, ◌↔◌, ℕ, slice_index_or, IfOk, Some};
ghost use Rattle.vdb_node.specs.Entries.{IsConstant, IsFirstWithout, IsInactiveTile, IsNextChild, IsTileOf, SetsEntry};
ghost use Rattle.vdb_node.specs.Nodes.{entry_count};
ghost use Rattle.vdb_node.specs.declared.Entry.{Entry};
ghost use Rattle.vdb_node.specs.declared.Entry.TheVariants.{Child, Tile};

use crate::uniform::{cut, entries, is_uniform, next_marked, put};
use crate::{Entry, Stored};
use std::alloc::{AllocError, Global};
use std::marker::Model;
use vdb_mask::Mask;
use vdb_pool::TryCopy;
use vdb_value::Cell;

/// A node whose 8 to the power `LOG2` entries are children or tiles. It keeps a mask of the
/// children, a mask of active states and a row of values, in which a child's slot stands in the
/// place of a value. Only for booleans a row of numbers keeps the slots. The masks' bits past the
/// last entry are off; with the least `W` only a node of 1 bit has such bits.
///
/// A contract sees the list of the entries. It reads the entry at index `i` by
/// `slice_index_or node i d`, which below the entry count is the same for every `d`. OpenVDB's class
/// `InternalNode<ChildT, LOG2>`.
#[derive(Drop)]
pub struct Internal<V: Stored<W>, const LOG2: u32, const W: usize> {
    children: Mask<W>,
    states: Mask<W>,
    values: V::Row,
    slots: Vec<u32>,
}

impl<V: Stored<W>, const LOG2: u32, const W: usize> Model for Internal<V, LOG2, W> {
    ghost use Rattle.std.specs.Prelude.{List, length};
    ghost use Rattle.vdb_node.specs.Entries.{entry_of, IsSoundInternal};
    ghost use Rattle.vdb_node.specs.Nodes.{entry_count, listed};
    ghost use Rattle.vdb_node.specs.declared.Entry.{Entry};

    ghost Value = { List (Entry V) };

    ghost view = { λ node. listed
        (entry_of V.slot_of node.children node.states (V.value_in node.values) node.slots.items)
        (entry_count LOG2) };

    ghost invariant = { λ node. IsSoundInternal V.KIND LOG2 W (V.row_len node.values)
        (length node.slots.items) node.children node.states };
}

impl<V: Stored<W>, const LOG2: u32, const W: usize> Internal<V, LOG2, W> {
    /// Returns a node with a tile of this cell at every entry. Returns an error if the memory for
    /// the values or the slots cannot be allocated. The constructor
    /// `InternalNode(Coord, ValueType, bool)`.
    pub fn new_constant(alloc: Global, cell: Cell<V>) -> Result<Internal<V, LOG2, W>, AllocError>
        requires bits { LOG2 ≤ 5 }
        requires capacity { entry_count LOG2 ≤ 64 * W }
        requires few_words { W ≤ 512 }
        ensures { IfOk result (λ node. IsConstant node (entry_count LOG2) (Tile cell)) }
    {
        let values = cell.value.filled_row(alloc, entries(LOG2))?;
        let slots = V::slot_row(alloc, entries(LOG2))?;
        let mut states = Mask::filled(cell.on);
        cut(&mut states, entries(LOG2));
        Ok(Internal {
            children: Mask::off(),
            states,
            values,
            slots,
        })
    }

    /// Returns a node of its own with the same entry at every index; this one stays. A child keeps
    /// its slot, and so it is a child of both nodes: no node below is copied. Returns an error if
    /// the memory for the values or the slots cannot be allocated. The copy constructor of
    /// `InternalNode`, which copies the nodes below too.
    pub fn try_copy(&self, alloc: Global) -> Result<Self, AllocError>
        ensures { IfOk result (λ copy. copy ≡ self.now) }
    {
        Ok(Internal {
            children: self.children.copied(),
            states: self.states.copied(),
            values: V::copied_row(&self.values, alloc)?,
            slots: Vec::from_slice(alloc, &self.slots)?,
        })
    }

    /// Returns the entry at index `i`. `InternalNode::isChildMaskOn(i)` with `getChildNode(i)`, or
    /// `mNodes[i].getValue()` and `isValueMaskOn(i)`.
    #[inline(always)]
    pub fn entry(&self, i: u32) -> Entry<V>
        requires { i < entry_count LOG2 }
        ensures { (d : Entry V) → slice_index_or self.now i d ≡ result }
    {
        if self.children.test(i) {
            Entry::Child(V::slot_at(&self.values, &self.slots, i))
        } else {
            Entry::Tile(Cell {
                value: V::value_at(&self.values, i),
                on: self.states.test(i),
            })
        }
    }

    /// Sets the entry at index `i` to a tile of this cell; every other stays.
    /// `InternalNode::addTile`, which removes a child too.
    pub fn set_tile(&mut self, i: u32, cell: Cell<V>)
        requires { i < entry_count LOG2 }
        ensures { SetsEntry self.old self.new i (Tile cell) }
    {
        self.children.clear(i);
        V::set_value(&mut self.values, i, cell.value);
        put(&mut self.states, i, cell.on);
    }

    /// Sets the entry at index `i` to the child in this slot; every other stays.
    /// `InternalNode::setChildNode(i, child)`.
    pub fn set_child(&mut self, i: u32, slot: u32)
        requires { i < entry_count LOG2 }
        ensures { SetsEntry self.old self.new i (Child slot) }
    {
        self.children.set(i);
        V::set_slot(&mut self.values, &mut self.slots, i, slot);
    }

    /// Returns the cell that every entry is a tile of, or `None` if there is a child or two tiles
    /// differ. `InternalNode::isConstant`, without a tolerance.
    pub fn constant(&self) -> Option<Cell<V>>
        ensures { (cell : Cell V) → (result ≡ Some cell)
            ↔ IsConstant self.now (entry_count LOG2) (Tile cell) }
    {
        let (values, states) = (&self.values, &self.states);
        let count = entries(LOG2);
        if self.children.all_off() && is_uniform(states, count) && V::are_alike(values, count) {
            Some(Cell {
                value: V::value_at(values, 0),
                on: states.test(0),
            })
        } else {
            None
        }
    }

    /// Returns the least index not below `from` whose entry is a child, or `None` if none is.
    /// `InternalNode::getChildMask().findNextOn(from)`, which answers the entry count for none.
    pub fn next_child(&self, from: u32) -> Option<u32>
        requires { from ≤ entry_count LOG2 }
        ensures { IsNextChild self.now (entry_count LOG2) from result }
    {
        self.children.next_on(from)
    }

    /// Returns the least index not below `from` whose entry is a child or an active tile, or `None`
    /// if none is. What `beginChildOn()` and `beginValueOn()` go to, whichever comes first.
    pub fn next_active(&self, from: u32) -> Option<u32>
        requires { from ≤ entry_count LOG2 }
        ensures { IsFirstWithout (IsInactiveTile self.now) (entry_count LOG2) from result }
    {
        self.children.next_on_in_either(&self.states, from)
    }

    /// Returns the least index not below `from` whose entry is anything but a tile of this cell, or
    /// `None` if each is such a tile.
    pub fn next_unlike(&self, cell: Cell<V>, from: u32) -> Option<u32>
        requires { from ≤ entry_count LOG2 }
        ensures { IsFirstWithout (IsTileOf cell self.now) (entry_count LOG2) from result }
    {
        let (children, states, values) = (&self.children, &self.states, &self.values);
        let Cell { value, on } = cell;
        let count = entries(LOG2);
        let mut start = from;
        // The masks are read at most 512 entries ahead of the values.
        'parts: while start < count {
            let end = count.min(start + 512);
            let marked = next_marked(children, states, on, start, end);
            let found = V::next_unlike(values, value, start, marked);
            if found < end {
                return Some(found);
            }
            start = end;
        }
        None
    }
}

impl<V: Stored<W>, const LOG2: u32, const W: usize> TryCopy for Internal<V, LOG2, W> {
    fn try_copy(&self, alloc: Global) -> Result<Internal<V, LOG2, W>, AllocError> {
        self.try_copy(alloc)
    }
}
