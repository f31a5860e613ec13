//! Fills of a box with one cell: first split the tree along the edge of the box, then paint the box.

pub(crate) mod paint;
pub(crate) mod paint_voxels;
pub(crate) mod root_capacity;
pub(crate) mod split_box;
pub(crate) mod tiles;
