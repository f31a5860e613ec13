//! Defines the size of the smallest tree of a field.

/// The size of the smallest tree with these cells, whatever nodes the tree itself has: how many root blocks hold anything but the
/// background, and how many blocks of each level aren't constant.
#[derive(Clone, Copy, Debug, PartialEq, Eq)]
pub struct Census {
    /// Root blocks with a cell other than the inactive background.
    pub roots: u64,
    /// Upper extents (root blocks) whose cells aren't all equal.
    pub upper: u64,
    /// Lower extents whose cells aren't all equal.
    pub lower: u64,
    /// Leaf extents whose cells aren't all equal.
    pub leaf: u64,
}
