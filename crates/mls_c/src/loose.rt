//! A box as its pointer, or null.

ghost use denote.RawPtr.{InBlock};
ghost use Rattle.std.specs.Prelude.{◌≡◌};
ghost use Rattle.std.specs.declared.option.Option.{Option};
ghost use Rattle.std.specs.declared.option.Option.TheVariants.{None, Some};
ghost use Rattle.mls_c.specs.Loose.{loose_owns};

use std::alloc::Allocator;
use std::marker::Model;
use std::ptr::null_mut;

/// A box as its pointer, or null.
pub(crate) struct Loose<T, A: Allocator> {
    /// The pointer.
    pub(crate) at: *mut T,
    /// What frees the box.
    pub(crate) alloc: A,
    // What the box holds.
    pub(crate) ghost value: { Option T },
}

impl<T, A: Allocator> Model for Loose<T, A> {
    ghost also_owns = { λ l. loose_owns (A.dealloc_token l.alloc) T.row l.at l.value };
}

impl<T: Drop, A: Allocator> Loose<T, A> {
    /// Null.
    pub(crate) fn none(alloc: A) -> Loose<T, A>
        ensures { result.value ≡ None }
    {
        Loose {
            at: null_mut(),
            alloc,
        }
    }

    /// The pointer of a box.
    pub(crate) fn of(value: Box<T, A>) -> Loose<T, A>
        ensures { result.value ≡ Some value.value }
    {
        let (at, alloc) = Box::into_raw_with_allocator(value);
        Loose { at, alloc }
    }

    /// The box of a pointer that isn't null.
    pub(crate) fn into_box(self) -> Box<T, A>
        requires { InBlock self.at }
        ensures { self.value ≡ Some result.value }
    {
        let Loose { at, alloc } = self;
        unsafe { Box::from_raw(alloc, at) }
    }
}
