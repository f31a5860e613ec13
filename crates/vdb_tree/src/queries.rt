//! Calls that read a tree: a voxel, a leaf, the parts one after another, tests for blocks of one cell.

pub(crate) mod active_blocks;
pub(crate) mod constant;
pub(crate) mod descent;
pub(crate) mod ends;
pub(crate) mod leaves;
pub(crate) mod parts;
pub(crate) mod pieces;
pub(crate) mod root_blocks;
pub(crate) mod starts;
pub(crate) mod trace;
