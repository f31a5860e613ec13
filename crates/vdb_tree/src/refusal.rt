//! The errors of calls on a tree.

ghost use Rattle.std.specs.Prelude.{◌≡◌};
ghost use Rattle.vdb_tree.specs.declared.refusal.TreeRefusal.TheVariants.{Memory};

use std::alloc::AllocError;

/// The error of a call on a tree. The call has changed no cell.
#[derive(Clone, Copy, Debug, PartialEq, Eq, thiserror::Error)]
pub enum TreeRefusal {
    /// More upper extents than the limit would have a cell other than the inactive background.
    #[error("too many root blocks")]
    RootLimit,
    /// The allocator returned no memory, or a pool has no slot left.
    #[error("out of memory")]
    Memory,
}

impl From<AllocError> for TreeRefusal {
    ghost from_gives = { λ _ refusal. refusal ≡ Memory };

    fn from(_: AllocError) -> TreeRefusal {
        TreeRefusal::Memory
    }
}

impl From<vdb_pool::Memory> for TreeRefusal {
    ghost from_gives = { λ _ refusal. refusal ≡ Memory };

    fn from(_: vdb_pool::Memory) -> TreeRefusal {
        TreeRefusal::Memory
    }
}
