//! Dilation and erosion of the active voxels of a standard tree, by faces.
//!
//! An iteration of dilation activates each voxel that has an active face neighbour. An iteration of erosion deactivates each
//! voxel that has an inactive one. An iteration reads the states from before it. A neighbour past the range of coordinates
//! doesn't exist: it neither activates nor deactivates a voxel. The iterations work on the states alone, in trees beside the one
//! that changes, so that a call that fails leaves every cell unchanged.
//!
//! The modules, from below:
//! - `states`: trees of states alone.
//! - `faces`: what lies behind the faces of boxes and blocks.
//! - `words`: the states behind the faces of a leaf's voxels, a word at a time.
//! - `spread_block`, `erode_block`: one iteration in a leaf extent, by the words of the states.
//! - `dilated`, `eroded`: one iteration over a whole tree.
//! - `iterations`: the calls on a tree.
#![tactic(auto)]

mod dilated;
mod erode_block;
mod eroded;
mod faces;
mod iterations;
mod spread_block;
mod states;
mod words;

pub use iterations::{dilate, erode};
