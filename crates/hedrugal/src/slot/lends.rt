// A `&mut` to what a slot owns.
ghost use Rattle.std.specs.Prelude.{◌≡◌, Some, is_some, true};
ghost use Rattle.std.specs.Borrow.{sem};
ghost use Rattle.hedrugal.specs.Lent.{lends_held, with_held};

use super::Slot;

impl<T: Drop> Slot<T> {
    pub(crate) fn get_mut(&mut self) -> &mut T
        requires { is_some self.old.held ≡ true }
        ensures* writes_back { sem 𝓛 (lends_held T.row self.entry result) }
        ensures value { self.old.held ≡ Some result.now }
        ensures whole { with_held self.old result.now ≡ self.old }
    {
        let pointer = self.pointer;
        unsafe { &mut *pointer }
    }
}
