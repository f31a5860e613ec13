//! Reads the contents of a tree piece by piece: each tile in one go, each leaf by the words of its states.
#![tactic(auto)]

mod active_count;
mod bounding_box;
mod covered;
mod first_active;
mod halves;
mod held;
mod listing;
mod node_census;
mod order;
mod part_starts;
mod piece_iter;
mod smallest;
mod uniform_box;
mod voxels;

pub use active_count::count;
pub use bounding_box::active_bounds;
pub use first_active::next_active;
pub use listing::{Listing, list};
pub use node_census::census;
pub use piece_iter::Pieces;
pub use smallest::Census;
pub use uniform_box::uniform;
