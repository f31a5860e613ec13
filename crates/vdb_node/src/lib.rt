//! Nodes of the tree: leaves and internal nodes, for any number of bits from 1 to 5. From outside
//! each node is a table of entries; inside it keeps masks, 64 entries to a word, beside rows of
//! values and slots.
//!
//! These are the `LeafNode` and the `InternalNode` of OpenVDB (`tree/LeafNode.h`,
//! `tree/InternalNode.h`). The names in the items' docs are theirs. A node with `LOG2` bits has 2 to
//! the power `LOG2` entries along each axis, 8 to that power in all, and a mask of `W` words of 64
//! bits holds them: `W` is 1, 1, 8, 64 and 512 at 1 to 5 bits. An index counts the entries as
//! `LeafNode::coordToOffset` does; nothing here uses coordinates.
#![tactic(auto)]

mod bounds;
mod internal;
mod kinds;
mod leaf;
mod slices;
mod slots;
mod stored;
mod uniform;
mod values;
pub mod words;

pub use bounds::{Span, VoxelBox};
pub use internal::Internal;
pub use leaf::Leaf;
pub use stored::Stored;
pub use values::Values;
use vdb_value::Cell;

/// An entry of an internal node or of the root: a child or a tile (OpenVDB's `isChildMaskOn` tells
/// which).
#[derive(Clone, Copy, Debug, PartialEq, Eq)]
pub enum Entry<V> {
    /// The slot of the child in the pool of the nodes below.
    Child(u32),
    /// The one cell of the entry's whole block.
    Tile(Cell<V>),
}
