//! The values of voxels, their three types, and cells.
#![tactic(auto)]

mod blend;
mod kinds;
mod voxel;

pub use blend::Blend;
pub use voxel::Voxel;

/// The types of values that a grid may have.
#[derive(Clone, Copy, Debug, PartialEq, Eq)]
pub enum Kind {
    /// Booleans.
    Bool,
    /// Signed numbers of 32 bits.
    I32,
    /// Signed numbers of 64 bits.
    I64,
}

/// What a grid holds at a coordinate: a value with its active state (OpenVDB's value and `isValueOn`).
#[derive(Clone, Copy, Debug, PartialEq, Eq)]
pub struct Cell<V> {
    pub value: V,
    /// Whether the voxel is active.
    pub on: bool,
}
