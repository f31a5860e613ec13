//! A grid that C holds: the pointer of its box, in a struct that crosses to C.
ghost use Rattle.std.specs.Prelude.{◌≡◌, Option, Some, None};
ghost use Rattle.std.specs.Borrow.{sem};
ghost use Rattle.std.specs.Option.{option_map};
ghost use Rattle.vdb_c.specs.HeldGrid.{coded_held, owns_held};
ghost use Rattle.vdb_scene.specs.declared.any_grid.AnyGrid.{AnyGrid};

use crate::handles::kept::{Kept, Opaque, boxed, nothing};
use std::alloc::Global;
use std::marker::Model;
use std::mem;
use vdb_scene::AnyGrid;

/// A grid, or none if the pointer is null. C makes one of zeroed memory, which is empty, and never changes it.
#[repr(C)]
pub struct HeldGrid {
    at: *mut Opaque,
    pub ghost held: { Option AnyGrid } by { coded_held },
}

impl Model for HeldGrid {
    ghost also_owns = { λ h. owns_held h.at h.held };
}

impl HeldGrid {
    ghost use Rattle.vdb_c.specs.LendsGrid.{lends_grid};

    /// Lends the grid, if there is one, without a write to the handle.
    #[inline(always)]
    pub(crate) fn grid_mut(&mut self) -> Option<&mut AnyGrid>
        ensures* writes_back { sem 𝓛 (lends_grid self.entry result) }
        ensures value { option_map (λ grid. grid.now) result ≡ self.old.held }
    {
        let at = self.at as *mut AnyGrid;
        if at.is_null() {
            return None;
        }
        Some(unsafe { &mut *at })
    }

    /// Holds what is kept.
    #[inline(always)]
    fn of(kept: Kept<AnyGrid, Global>) -> HeldGrid
        ensures { result.held ≡ kept.held }
    {
        let Kept { at, alloc: _ } = kept;
        let at = at as *mut Opaque;
        HeldGrid { at }
    }

    /// Returns what is held.
    #[inline(always)]
    fn kept(self, alloc: Global) -> Kept<AnyGrid, Global>
        ensures { result.held ≡ self.held }
    {
        let HeldGrid { at } = self;
        let at = at as *mut AnyGrid;
        Kept { at, alloc }
    }

    /// Takes the grid out, if there is one, and holds none then.
    #[inline(always)]
    pub(crate) fn take(&mut self, alloc: Global) -> Option<Box<AnyGrid>>
        ensures value { option_map (λ b. b.value) result ≡ self.old.held }
        ensures gone { self.new.held ≡ None }
    {
        let empty = HeldGrid::of(nothing(alloc));
        boxed(mem::replace(self, empty).kept(alloc))
    }

    /// Holds this grid, and frees the one that it held.
    pub(crate) fn put(&mut self, alloc: Global, grid: Box<AnyGrid>)
        ensures { self.new.held ≡ Some grid.value }
    {
        let full = HeldGrid::of(Kept::of(grid));
        let old = boxed(mem::replace(self, full).kept(alloc));
        drop(old);
    }
}
