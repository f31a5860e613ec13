//! Scenes of named grids: commands, answers, errors, and the one step of a scene.
#![tactic(auto)]

mod answer;
mod any_grid;
mod arguments;
mod carry_out;
mod command;
mod grid_entry;
mod grid_metas;
mod grid_pair;
mod grid_tree;
mod iterations;
mod laws;
mod meta_text;
mod metas;
mod moving;
mod name;
mod reader;
mod scalar;
mod scene;
mod slice;
mod two_grids;
mod voxels;
mod watched;

pub use answer::{Answer, Refusal};
pub use any_grid::{ACCESSORS, AnyGrid};
pub use command::{Area, Command, Corners, Literal, Num, Point};
pub use grid_entry::GridEntry;
pub use grid_tree::{write as write_voxel, write_in_leaf, write_nearby};
pub use laws::scene_laws;
pub use meta_text::{MetaText, TEXT_LIMIT};
pub use metas::{META_LIMIT, Metas};
pub use name::{NAME_LIMIT, Name};
pub use scalar::{GridValue, Scalar};
pub use scene::{GRID_LIMIT, MOST_ROOT_LIMIT, ROOT_LIMIT, Scene};
pub use slice::{Slice, SliceRow};
pub use two_grids::{Composite, Operation};
pub use voxels::{AnyListing, Voxels};
pub use watched::Watched;
