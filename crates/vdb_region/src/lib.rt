//! Boxes of any size written at once: filled with one cell, or kept while all around them is cleared.
//!
//! Both calls first split and then paint: whatever takes memory comes before the first cell changes, so that a failed
//! call leaves every cell as it was.
#![tactic(auto)]

mod beyond;
mod clip_box;
mod fill_box;
mod rings;

pub use clip_box::clip;
pub use fill_box::fill;
