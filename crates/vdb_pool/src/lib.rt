//! The node pool: slots for nodes, in chunks of raw memory that never move.
//!
//! A `Pool<T>` gives a `Place<T>` for each node: a slot number with the slot's address. A place can be copied and
//! kept, and reading through a live one is one read of a pointer. The contracts say when a place is live, so that no
//! node can be read after it was removed. A vacant slot holds the number of the slot that was vacated before it, and
//! the slot that was vacated last is used first. `Steps` counts node visits.
//!
//! `storage` is the one module with raw pointers. The others are safe code over its contracts.
#![tactic(auto)]

mod chunk;
mod copying;
mod place;
mod pool;
mod refusal;
mod slot;
mod steps;
mod storage;

pub use copying::TryCopy;
pub use place::Place;
pub use pool::Pool;
pub use refusal::Memory;
pub use steps::Steps;
