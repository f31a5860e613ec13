//! Paths of nodes from the root down.

ghost use Rattle.std.specs.Prelude.{◌≡◌, ⊤};
ghost use Rattle.vdb_tree.specs.declared.path.PathOf.TheVariants.{Empty};

use std::alloc::AllocError;
use vdb_node::{Internal, Leaf};
use vdb_pool::Place;

/// The places of the nodes from the root down to a coordinate, or of the first of them: an upper node, a lower node in it, and
/// a leaf in that. A path can be copied and kept, and owns nothing (OpenVDB's `ValueAccessor` caches these nodes).
pub enum PathOf<Upper, Lower, Leaf> {
    /// No node.
    Empty,
    /// An upper node.
    ToUpper(Place<Upper>),
    /// An upper node and a lower node in it.
    ToLower(Place<Upper>, Place<Lower>),
    /// An upper node, a lower node in it and a leaf in that.
    ToLeaf(Place<Upper>, Place<Lower>, Place<Leaf>),
}

/// A path in a `Tree<V>`.
pub type Path<V> = PathOf<Internal<V, 5, 512>, Internal<V, 4, 64>, Leaf<V, 3, 8>>;

impl<Upper, Lower, Leaf> Clone for PathOf<Upper, Lower, Leaf> {
    ghost is_clone = { λ x y. y ≡ x };

    ghost is_infallible = { λ _. ⊤ };

    fn clone(&self) -> Result<PathOf<Upper, Lower, Leaf>, AllocError> {
        Ok(*self)
    }
}

impl<Upper, Lower, Leaf> Copy for PathOf<Upper, Lower, Leaf> {}

impl<Upper, Lower, Leaf> PathOf<Upper, Lower, Leaf> {
    /// Returns the path without places.
    pub fn empty() -> PathOf<Upper, Lower, Leaf>
        ensures { result ≡ Empty }
    {
        PathOf::Empty
    }
}
