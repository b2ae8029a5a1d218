// A box in its two parts.
ghost use Rattle.std.specs.Prelude.{◌≡◌};
ghost use Rattle.std_alloc.specs.Box.Ownership.{box_owns};

use std::alloc::Allocator;
use std::marker::Model;

// The pointer of a box to its block, which it still owns, and the allocator that frees the block.
pub(crate) struct RawBox<T, A: Allocator> {
    pub(crate) pointer: *mut T,
    pub(crate) alloc: A,
    pub(crate) ghost value: { T },
}

impl<T, A: Allocator> Model for RawBox<T, A> {
    ghost also_owns = { λ p. box_owns (A.dealloc_token p.alloc) T.row p.pointer p.value };
}

impl<T: Drop, A: Allocator> RawBox<T, A> {
    pub(crate) fn of_box(whole: Box<T, A>) -> RawBox<T, A>
        ensures { result.value ≡ whole.value }
    {
        let (pointer, alloc) = Box::into_raw_with_allocator(whole);
        RawBox { pointer, alloc }
    }

    pub(crate) fn into_box(self) -> Box<T, A>
        ensures { result.value ≡ self.value }
    {
        let RawBox { pointer, alloc } = self;
        unsafe { Box::from_raw(alloc, pointer) }
    }
}
