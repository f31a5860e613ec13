//! Why a pool could not grow.
use std::alloc::AllocError;

/// The pool has no capacity for the nodes: the allocator had no memory, or the pool would have more than
/// 4,294,967,295 slots.
#[derive(Clone, Copy, Drop, Debug, PartialEq, Eq, thiserror::Error)]
#[error("out of memory")]
pub struct Memory;

impl From<AllocError> for Memory {
    fn from(_error: AllocError) -> Memory {
        Memory
    }
}
