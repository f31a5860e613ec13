//! The engine for C: grids and scenes behind handles.
//!
//! A call takes handles, numbers and arrays, and returns a code. Code 0 means that it is done. With any other code no cell, no limit
//! and nothing that the call writes to has changed, except that `vdb_grid_write_many` and `vdb_grid_write_box` may have written their first
//! voxels. Each call tests its arguments, so none has a condition; what C owes is stated in the header.
//!
//! The modules, from below:
//! - `handles`: what C holds: a grid, a view or a scene by the pointer of its box.
//! - `codes`, `values`: codes, types, values, states, accessors and boxes as they cross.
//! - `grids`: calls that create, copy, combine and report on grids.
//! - `voxels`: calls on one voxel, on many by their coordinates, and on the next active one.
//! - `boxes`: calls on the voxels of a box, also as arrays.
//! - `leaves`: calls on the leaves of a grid.
//! - `parts`: calls on the tiles and the leaves of a grid.
//! - `scenes`: calls on a scene and on its grids.
//! - `views`: calls on a grid that several threads read.
//! - `about`: the version of the library, and the texts of the codes.
#![tactic(auto)]

mod about;
mod boxes;
mod codes;
mod grids;
mod handles;
mod leaves;
mod parts;
mod scenes;
mod values;
mod views;
mod voxels;
