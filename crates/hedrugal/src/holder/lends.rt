// A `&mut` to what a holder leads to.
ghost use Rattle.std.specs.Prelude.{◌≡◌, Some, None, IfSome, IfNone};
ghost use Rattle.std.specs.Borrow.{sem};
ghost use Rattle.hedrugal.specs.Lent.{with_held};
ghost use Rattle.hedrugal.specs.LentIf.{lends_slot};

use super::Holder;

impl<T: Drop> Holder<T> {
    // The value, if there is one.
    pub(crate) fn get_mut(&mut self) -> Option<&mut T>
        ensures* writes_back { sem 𝓛 (lends_slot T.row self.entry result) }
        ensures some { IfSome result (λ lent. self.old.slot.held ≡ Some lent.now) }
        ensures whole { IfSome result (λ lent. with_held self.old.slot lent.now ≡ self.old.slot) }
        ensures none { IfNone result (self.old.slot.held ≡ None) }
    {
        if !self.live {
            return None;
        }
        Some(self.slot.get_mut())
    }
}
