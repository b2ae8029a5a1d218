// A `&mut` to what a handle of C leads to.
ghost use Rattle.std.specs.Prelude.{◌≡◌, Some, None, IfSome, IfNone};
ghost use Rattle.std.specs.Borrow.{sem};
ghost use Rattle.hedrugal.specs.LentIf.{lends_bindings, lends_map, lends_parser, with_bindings, with_map, with_parser};

use super::{BindingsHandle, MapHandle, ParserHandle};
use crate::bindings::Bindings;
use crate::chord_bindings::ChordBindings;
use crate::parser_and_text::ParserAndText;

impl ParserHandle {
    // The parser, if there is one.
    pub(crate) fn get_mut(&mut self) -> Option<&mut ParserAndText>
        ensures* writes_back { sem 𝓛 (lends_parser self.entry result) }
        ensures some { IfSome result (λ lent. self.old.state.held ≡ Some lent.now) }
        ensures whole { IfSome result (λ lent. (with_parser self.old lent.now).state ≡ self.old.state) }
        ensures none { IfNone result (self.old.state.held ≡ None) }
    {
        self.view().get_mut()
    }
}

impl MapHandle {
    // The key map, if there is one.
    pub(crate) fn get_mut(&mut self) -> Option<&mut Bindings>
        ensures* writes_back { sem 𝓛 (lends_map self.entry result) }
        ensures some { IfSome result (λ lent. self.old.state.held ≡ Some lent.now) }
        ensures whole { IfSome result (λ lent. (with_map self.old lent.now).state ≡ self.old.state) }
        ensures none { IfNone result (self.old.state.held ≡ None) }
    {
        self.view().get_mut()
    }
}

impl BindingsHandle {
    // The bindings, if there are some.
    pub(crate) fn get_mut(&mut self) -> Option<&mut ChordBindings>
        ensures* writes_back { sem 𝓛 (lends_bindings self.entry result) }
        ensures some { IfSome result (λ lent. self.old.state.held ≡ Some lent.now) }
        ensures whole { IfSome result (λ lent. (with_bindings self.old lent.now).state ≡ self.old.state) }
        ensures none { IfNone result (self.old.state.held ≡ None) }
    {
        self.view().get_mut()
    }
}
