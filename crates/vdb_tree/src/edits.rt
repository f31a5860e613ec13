//! Calls that write voxels or replace tiles by nodes.

pub(crate) mod leaf;
pub(crate) mod split;
pub(crate) mod voxelise;
pub(crate) mod write;
