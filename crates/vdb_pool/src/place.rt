//! The place of a node.
ghost use Rattle.std.specs.Prelude.{◌≡◌, ⊤};

use crate::slot::Slot;
use crate::storage::Address;
use std::alloc::AllocError;

/// The place of a node: the number of its slot, with the slot's address.
///
/// It can be copied and kept, whatever `T` is, and owns nothing. A pool's calls require a place that is live in that
/// pool. `insert` and `place` give live places, and a place stays live until its node is removed. A slot that is held
/// again has the same place as before.
pub struct Place<T> {
    pub(crate) slot: u32,
    pub(crate) address: Address<Slot<T>>,
}

impl<T> Clone for Place<T> {
    ghost is_clone = { λ x y. y ≡ x };

    ghost is_infallible = { λ _. ⊤ };

    fn clone(&self) -> Result<Place<T>, AllocError> {
        Ok(*self)
    }
}

impl<T> Copy for Place<T> {}

impl<T> Place<T> {
    ghost use Rattle.vdb_pool.specs.Live.{place_slot};

    /// Returns the number of the slot, below 4,294,967,295. A pool numbers its slots from 0.
    pub fn slot(self) -> u32
        ensures { result ≡ place_slot self }
    {
        self.slot
    }
}
