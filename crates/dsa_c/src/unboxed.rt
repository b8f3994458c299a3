//! A box without its type: the pointer and the allocator by themselves.

ghost use Rattle.std.specs.Prelude.{◌≡◌};
ghost use Rattle.std.specs.Box.Ownership.{box_owns};

use std::alloc::Allocator;
use std::marker::Model;

/// What a box is made of.
pub(crate) struct Unboxed<T, A: Allocator> {
    pub(crate) to: *mut T,
    pub(crate) alloc: A,
    pub(crate) ghost value: { T },
}

impl<T, A: Allocator> Model for Unboxed<T, A> {
    ghost also_owns = { λ u. box_owns (A.dealloc_token u.alloc) T.row u.to u.value };
}

impl<T, A: Allocator> Unboxed<T, A> {
    pub(crate) fn of(boxed: Box<T, A>) -> Unboxed<T, A>
    where
        T: Drop,
        ensures { result.value ≡ boxed.value }
    {
        let (to, alloc) = Box::into_raw_with_allocator(boxed);
        Unboxed { to, alloc }
    }

    pub(crate) fn boxed(self) -> Box<T, A>
        ensures { result.value ≡ self.value }
    {
        let Unboxed { to, alloc } = self;
        unsafe { Box::from_raw(alloc, to) }
    }
}
