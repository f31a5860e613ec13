//! Calls on scenes.
//!
//! - `files`: calls that create and free a scene, load it from bytes and save it to bytes.
//! - `grids`: the names, copies and metadata of its grids.
//! - `moves`: grids moved into a scene, out of it and exchanged.

pub(crate) mod files;
pub(crate) mod grids;
pub(crate) mod moves;
