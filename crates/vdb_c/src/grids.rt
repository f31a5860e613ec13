//! Calls on whole grids.
//!
//! - `life`: calls that create, free and copy a grid, and report what it was created with.
//! - `pairs`: calls that combine two grids.
//! - `equality`: the call that compares two grids.
//! - `reports`: the number of active voxels, their bounding box, and the size of the smallest tree.

pub(crate) mod equality;
pub(crate) mod life;
pub(crate) mod pairs;
pub(crate) mod reports;
