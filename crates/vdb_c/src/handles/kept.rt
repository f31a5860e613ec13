//! Boxes kept by their pointers: the one module that turns a box into a pointer and back.
ghost use Rattle.std.specs.Prelude.{◌≡◌, Option, Some, None, IfNone, IfSome, IsSome};
ghost use Rattle.std.specs.Option.{option_map};
ghost use Rattle.std.specs.Coded.{coded_option};
ghost use Rattle.vdb_c.specs.Kept.{owns_boxed};

use std::alloc::{Allocator, Global};
use std::marker::Model;

/// What a pointer of C leads to. Only its address is used.
#[repr(C)]
pub struct Opaque {
    byte: u8,
}

/// The pointer of a box, which owns the box's value and block, or a null pointer, which owns nothing.
pub(crate) struct Kept<T, A: Allocator> {
    pub(crate) at: *mut T,
    pub(crate) alloc: A,
    pub(crate) ghost held: { Option T } by { coded_option T.code },
}

impl<T, A: Allocator> Model for Kept<T, A> {
    ghost also_owns = { λ k. owns_boxed (A.dealloc_token k.alloc) T.row k.at k.held };
}

impl<T: Drop, A: Allocator> Kept<T, A> {
    /// Keeps a box.
    #[inline(always)]
    pub(crate) fn of(boxed: Box<T, A>) -> Kept<T, A>
        ensures { result.held ≡ Some boxed.value }
    {
        let (at, alloc) = Box::into_raw_with_allocator(boxed);
        Kept { at, alloc }
    }

    /// Returns the box that is kept.
    #[inline(always)]
    fn into_box(self) -> Box<T, A>
        requires { IsSome self.held }
        ensures { Some result.value ≡ self.held }
    {
        let Kept { at, alloc } = self;
        unsafe { Box::from_raw(alloc, at) }
    }
}

/// Returns a null pointer.
#[inline(always)]
pub(crate) fn nothing<T: Drop>(alloc: Global) -> Kept<T, Global>
    ensures { result.held ≡ None }
{
    let at = std::ptr::null_mut();
    Kept { at, alloc }
}

/// Returns the same pointer, unless it is null.
#[inline(always)]
fn unless_null<T: Drop>(kept: Kept<T, Global>) -> Option<Kept<T, Global>>
    ensures some { IfSome result (λ same. (same.held ≡ kept.held) × IsSome same.held) }
    ensures none { IfNone result (kept.held ≡ None) }
{
    let Kept { at, alloc } = kept;
    if at.is_null() {
        return None;
    }
    Some(Kept { at, alloc })
}

/// Returns the box, if one is kept.
#[inline(always)]
pub(crate) fn boxed<T: Drop>(kept: Kept<T, Global>) -> Option<Box<T>>
    ensures { option_map (λ boxed. boxed.value) result ≡ kept.held }
{
    match unless_null(kept) {
        Some(kept) => Some(kept.into_box()),
        None => None,
    }
}
