//! Nodes that can be copied.
ghost use Rattle.std.specs.Prelude.{◌≡◌, IfOk};

use std::alloc::{AllocError, Global};

/// A type whose values can be copied if memory allows. It is not `Clone`, whose contract lets a copy differ.
pub trait TryCopy: Drop {
    /// Returns a copy that equals this value for contracts, with memory of its own from `alloc`. Returns an error if
    /// `alloc` has no memory.
    fn try_copy(&self, alloc: Global) -> Result<Self, AllocError>
        ensures { IfOk result (λ copy. copy ≡ self.now) };
}
