//! The size of a tree in entries and nodes.

ghost use Rattle.std.specs.Prelude.{◌≡◌};
ghost use Rattle.vdb_tree.specs.Layout.{bits_of, field_of};
ghost use Rattle.vdb_tree.specs.Smallest.{HasNeeded, IsAtMost, IsLeast, least_counts, counts_of};
ghost use Rattle.vdb_tree.specs.Sound.{IsSound};

use crate::TreeOf;
use vdb_node::Stored;

/// The number of entries of a tree's root table, and of its nodes level by level (OpenVDB's `Tree::nodeCount`).
#[derive(Clone, Copy, Debug, PartialEq, Eq)]
pub struct NodeCounts {
    /// Entries of the root table, children and tiles.
    pub entries: u64,
    /// Upper internal nodes.
    pub upper: u64,
    /// Lower internal nodes.
    pub lower: u64,
    /// Leaves.
    pub leaf: u64,
}

impl<
    V: Stored<WU> + Stored<WL> + Stored<WF>,
    const U: u32,
    const L: u32,
    const F: u32,
    const WU: usize,
    const WL: usize,
    const WF: usize,
> TreeOf<V, U, L, F, WU, WL, WF> {
    /// Returns how many entries and nodes the tree has, without a visit. No count is below the field's census: its upper
    /// extents with a cell other than the inactive background, and its blocks of each level that aren't constant. After `prune`
    /// the counts equal the census, so no tree of the field is smaller.
    pub fn node_counts(&self) -> NodeCounts
        ensures counts { result ≡ counts_of self.now }
        ensures sound { IsSound (bits_of U L F) self.now }
        ensures needed { HasNeeded V.eq (bits_of U L F) self.now }
        ensures at_least { IsAtMost (least_counts V.eq (bits_of U L F) (field_of (bits_of U L F) self.now)) result }
        ensures least { IsLeast V.eq (bits_of U L F) self.now → result ≡ least_counts V.eq (bits_of U L F) (field_of (bits_of U L F) self.now) }
    {
        NodeCounts {
            entries: self.root.len() as u64,
            upper: self.uppers.len(),
            lower: self.lowers.len(),
            leaf: self.leaves.len(),
        }
    }
}
