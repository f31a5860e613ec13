//! Grids: a tree with accessors, each of which caches the path to the coordinate that it was last given.
//!
//! A cached path outlives all changes of the tree: after every call, with or without an error, it has every node down
//! to its coordinate. So a probe near the last one needs no descent from the root, and no call has to forget what was
//! cached.
//!
//! The modules, from below:
//! - `accessors`: paths traced again after a change of the tree.
//! - `grid`: the grid, its probes and its writes.
//! - `edits`: all calls beyond a voxel: fill, clip, prune, voxelise, whole leaves, the calls on two grids, dilate and erode.
#![tactic(auto)]

mod accessors;
mod edits;
mod grid;

pub use grid::Grid;
