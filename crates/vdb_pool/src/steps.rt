//! The count of node visits.
ghost use Rattle.std.specs.Prelude.{◌≡◌, ◌+◌, ◌-◌, ◌^◌, min};

use std::marker::Model;

/// Counts node visits, and stays at 18,446,744,073,709,551,615 once it is there.
///
/// Each count begins at 0 with `Steps::new`. Outside this crate only a call of a `Pool` can add to a count, and
/// nothing can copy one or set it back. Its layout is that of C's `uint64_t`, so that a handle for C may hold one.
#[repr(C)]
#[derive(Drop)]
pub struct Steps {
    count: u64,
}

impl Model for Steps {
    ghost use Rattle.std.specs.Prelude.{ℕ};

    ghost Value = { ℕ };

    ghost view = { λ s. s.count };

    ghost inverse = { λ n. record { count = n } };
}

impl Steps {
    /// Returns a count of 0. The runtime is not used: asking for one leaves it to the program where counts begin.
    pub fn new(_runtime: &HostRuntime) -> Steps
        ensures { result ≡ 0 }
    {
        Steps { count: 0 }
    }

    /// Returns how many nodes were visited so far.
    pub fn count(&self) -> u64
        ensures { result ≡ self.now }
    {
        self.count
    }

    /// Adds one visit, unless the count is at its greatest value.
    #[inline(always)]
    pub(crate) fn step(&mut self)
        ensures { self.new ≡ min (self.old + 1) (2 ^ 64 - 1) }
    {
        if self.count < u64::MAX {
            self.count += 1;
        }
    }
}
