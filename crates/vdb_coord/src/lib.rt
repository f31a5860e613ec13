//! Coordinates of a sparse voxel grid, boxes of them, and the aligned blocks that a tree's nodes span.
#![tactic(auto)]

mod axis;
mod block_order;
mod block_walk;
mod blocks;
mod bounds;
mod face;
mod levels;

pub use bounds::Bounds;
pub use face::Face;

/// A coordinate of a grid, counted in voxels along each axis (OpenVDB's `math::Coord`). Coordinates are ordered by x,
/// then by y, then by z.
#[derive(Clone, Copy, Debug, PartialEq, Eq, PartialOrd, Ord)]
pub struct Coord {
    pub x: i32,
    pub y: i32,
    pub z: i32,
}

/// The levels of nodes below the root table, from the voxels up.
#[derive(Clone, Copy, Debug, PartialEq, Eq)]
pub enum Level {
    /// Leaf nodes, whose entries are voxels.
    Leaf,
    /// Lower internal nodes, whose entries are leaf nodes or tiles.
    Lower,
    /// Upper internal nodes, whose entries are lower internal nodes or tiles.
    Upper,
}

/// How many bits of each component tell the entries of a node apart, level by level, each from 1 to 5. A node has 2
/// to that power entries along an axis (the template parameter `Log2Dim` of OpenVDB's nodes).
#[derive(Clone, Copy, Debug, PartialEq, Eq)]
pub struct Bits {
    pub upper: u8,
    pub lower: u8,
    pub leaf: u8,
}

impl Bits {
    /// The bits of the standard VDB tree: leaf nodes span 8 voxels along each axis, lower internal nodes 128, upper
    /// ones 4,096.
    pub const VDB: Bits = Bits {
        upper: 5,
        lower: 4,
        leaf: 3,
    };
}
