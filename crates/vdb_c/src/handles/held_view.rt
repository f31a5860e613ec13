//! A view that C holds: the pointer of its box, in a struct that crosses to C, and the handle around it.
ghost use Rattle.std.specs.Prelude.{◌≡◌, Option, Some, None};
ghost use Rattle.std.specs.Option.{option_map};
ghost use Rattle.vdb_c.specs.HeldView.{coded_held, owns_held};
ghost use Rattle.vdb_c.specs.declared.handles.view.View.{View};

use crate::handles::kept::{Kept, Opaque, boxed, nothing};
use crate::handles::view::View;
use std::alloc::Global;
use std::marker::Model;
use std::mem;
use vdb_pool::Steps;

/// A view, or none if the pointer is null. C makes one of zeroed memory, which is empty, and never changes it.
#[repr(C)]
pub struct HeldView {
    at: *mut Opaque,
    pub ghost held: { Option View } by { coded_held },
}

/// A handle of a view: one for each thread. Zeroed memory is an empty one.
#[repr(C)]
pub struct ViewHandle {
    pub(crate) view: HeldView,
    pub(crate) steps: Steps,
}

impl Model for HeldView {
    ghost also_owns = { λ h. owns_held h.at h.held };
}

impl HeldView {
    /// Holds what is kept.
    fn of(kept: Kept<View, Global>) -> HeldView
        ensures { result.held ≡ kept.held }
    {
        let Kept { at, alloc: _ } = kept;
        let at = at as *mut Opaque;
        HeldView { at }
    }

    /// Returns what is held.
    fn kept(self, alloc: Global) -> Kept<View, Global>
        ensures { result.held ≡ self.held }
    {
        let HeldView { at } = self;
        let at = at as *mut View;
        Kept { at, alloc }
    }

    /// Takes the view out, if there is one, and holds none then.
    pub(crate) fn take(&mut self, alloc: Global) -> Option<Box<View>>
        ensures value { option_map (λ b. b.value) result ≡ self.old.held }
        ensures gone { self.new.held ≡ None }
    {
        let empty = HeldView::of(nothing(alloc));
        boxed(mem::replace(self, empty).kept(alloc))
    }

    /// Holds this view, and frees the one that it held.
    pub(crate) fn put(&mut self, alloc: Global, view: Box<View>)
        ensures { self.new.held ≡ Some view.value }
    {
        let full = HeldView::of(Kept::of(view));
        let old = boxed(mem::replace(self, full).kept(alloc));
        drop(old);
    }
}
