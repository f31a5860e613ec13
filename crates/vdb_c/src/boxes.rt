//! Calls on the voxels of a box.
//!
//! - `regions`: calls that change the voxels of a box, or all voxels.
//! - `elements`, `voxels`: the elements of a box's voxels in an array, and these voxels in order.
//! - `copies`: elements copied from array to array.
//! - `reading`, `arrays`: a box read into arrays.
//! - `leaf_writes`, `writes`: a box written from arrays.
//! - `from_box`: a grid made of a box of an array's elements.

pub(crate) mod arrays;
pub(crate) mod copies;
pub(crate) mod elements;
pub(crate) mod from_box;
pub(crate) mod leaf_writes;
pub(crate) mod reading;
pub(crate) mod regions;
pub(crate) mod voxels;
pub(crate) mod writes;
