// A parser, a key map or bindings behind a pointer.
ghost use Rattle.std.specs.Prelude.{◌≡◌, ◌⊎◌, None, Some, is_some};

use crate::slot::Slot;
use crate::status::{NO_MEMORY, OK};
use std::alloc::Global;

mod lends;

/// One thing, or none.
#[repr(C)]
pub struct Holder<T> {
    live: bool,
    pub slot: Slot<T>,
    ghost agrees: { live ≡ is_some slot.held },
}

impl<T: Drop> Holder<T> {
    fn empty() -> Holder<T>
        ensures { result.slot.held ≡ None }
    {
        Holder {
            live: false,
            slot: Slot::empty(),
        }
    }

    fn of(held: Box<T, Global>) -> Holder<T>
        ensures { result.slot.held ≡ Some held.value }
    {
        Holder {
            live: true,
            slot: Slot::of(held),
        }
    }

    fn close(self, alloc: Global) {
        let Holder { live, slot } = self;
        slot.free(live, alloc);
    }

    // Frees what the holder leads to, and leaves nothing.
    pub(crate) fn free(&mut self, alloc: Global)
        ensures { self.new.slot.held ≡ None }
    {
        std::mem::replace(self, Holder::empty()).close(alloc);
    }

    // Puts `held` into the holder, and frees what was there. Returns `NO_MEMORY` if memory is refused, and then nothing changes.
    pub(crate) fn replace(&mut self, alloc: Global, held: T) -> u32
        ensures answers { (result ≡ OK) ⊎ (result ≡ NO_MEMORY) }
        ensures made { result ≡ OK → self.new.slot.held ≡ Some held }
        ensures refused { result ≡ NO_MEMORY → self.new ≡ self.old }
    {
        let Ok(block) = Box::new(alloc, held) else {
            return NO_MEMORY;
        };
        std::mem::replace(self, Holder::of(block)).close(alloc);
        OK
    }
}
