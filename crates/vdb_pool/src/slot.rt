//! A slot of the pool: a node, or a link of the stack of vacant slots.
ghost use Rattle.std.specs.Prelude.{◌≡◌, Some, IsSome};
ghost use Rattle.std.specs.Borrow.{Lends, sem};
ghost use Rattle.vdb_pool.specs.internal.Slot.{node_of};

/// A vacant slot names the one that was vacated before it, if that one is still vacant.
#[derive(Drop)]
pub enum Slot<T> {
    Vacant(Option<u32>),
    Held(T),
}

impl<T> Slot<T> {
    ghost use Rattle.vdb_pool.specs.contracts.slot.Slot.{the_row};

    /// Returns the node of a held slot.
    #[inline(always)]
    pub(crate) fn node(&self) -> &T
        requires { IsSome (node_of self.now) }
        ensures { node_of self.now ≡ Some result.now }
    {
        match self {
            Slot::Held(node) => node,
            Slot::Vacant(_) => unreachable!(),
        }
    }

    /// Returns the node of a held slot, for writing.
    #[inline(always)]
    pub(crate) fn node_mut(&mut self) -> &mut T
        requires { IsSome (node_of self.old) }
        ensures* writes_back { sem 𝓛 (Lends (the_row T.row) T.row self.entry result Slot.Held) }
        ensures value { node_of self.old ≡ Some result.now }
    {
        match self {
            Slot::Held(node) => node,
            Slot::Vacant(_) => unreachable!(),
        }
    }
}
