// A pointer that owns a block, or nothing.
ghost use Rattle.std.specs.Prelude.{◌≡◌, Option, Some, None, is_some, true};
ghost use Rattle.std.specs.Coded.{coded_option};

use crate::raw_box::RawBox;
use std::alloc::Global;
use std::marker::Model;

mod lends;

/// A pointer to a block with a value, which it owns, or to nothing.
pub struct Slot<T> {
    pointer: *mut T,
    pub ghost held: { Option T } by { coded_option T.code },
}

impl<T> Model for Slot<T> {
    ghost use Rattle.hedrugal.specs.Owned.{owned};

    ghost also_owns = { λ s. owned T.row s.pointer s.held };
}

impl<T: Drop> Slot<T> {
    pub(crate) fn empty() -> Slot<T>
        ensures { result.held ≡ None }
    {
        Slot {
            pointer: std::ptr::null_mut(),
        }
    }

    fn of_raw_box(raw: RawBox<T, Global>) -> Slot<T>
        ensures { result.held ≡ Some raw.value }
    {
        let RawBox { pointer, alloc: _ } = raw;
        Slot { pointer }
    }

    fn into_raw_box(self, alloc: Global) -> RawBox<T, Global>
        requires { is_some self.held ≡ true }
        ensures { self.held ≡ Some result.value }
    {
        let Slot { pointer } = self;
        RawBox { pointer, alloc }
    }

    // Lets go of a pointer to nothing.
    fn close(self)
        requires { self.held ≡ None }
    {
        let Slot { pointer: _ } = self;
    }

    pub(crate) fn of(held: Box<T, Global>) -> Slot<T>
        ensures { result.held ≡ Some held.value }
    {
        Slot::of_raw_box(RawBox::of_box(held))
    }

    // Frees the block, if there is one.
    pub(crate) fn free(self, live: bool, alloc: Global)
        requires { live ≡ is_some self.held }
    {
        if live {
            drop(self.into_raw_box(alloc).into_box());
        } else {
            self.close();
        }
    }
}
