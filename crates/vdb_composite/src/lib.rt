//! Two grids' values combined: the maximum, the minimum and the sum of both, and the cells of one where they are
//! active.
//!
//! The result is built beside the first tree and then replaces it. So a failed call changes nothing, and a full root
//! table is no hindrance if blocks of the first tree become background while blocks of the second come in.
#![tactic(auto)]

mod build;
mod mix;
mod operations;
mod root_limit;
mod scratch;
mod search;
mod sums;

pub use operations::{maximum, minimum, replace};
pub use sums::{SumRefusal, sum};
