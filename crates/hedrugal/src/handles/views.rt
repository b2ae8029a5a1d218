// What C holds, as the generic types that own the same blocks.
ghost use Rattle.std.specs.Prelude.{◌≡◌};
ghost use Rattle.std.specs.Borrow.{sem};
ghost use Rattle.hedrugal.specs.Views.{lends_bindings, lends_map, lends_parser, viewed_bindings, viewed_map, viewed_parser};

use super::{BindingsHandle, MapHandle, ParserHandle};
use crate::bindings::Bindings;
use crate::chord_bindings::ChordBindings;
use crate::holder::Holder;
use crate::parser_and_text::ParserAndText;

impl ParserHandle {
    pub(crate) fn view(&mut self) -> &mut Holder<ParserAndText>
        ensures* writes_back { sem 𝓛 (lends_parser self.entry result) }
        ensures same { result.now ≡ viewed_parser self.old }
    {
        unsafe { &mut *(self as *mut ParserHandle as *mut Holder<ParserAndText>) }
    }
}

impl MapHandle {
    pub(crate) fn view(&mut self) -> &mut Holder<Bindings>
        ensures* writes_back { sem 𝓛 (lends_map self.entry result) }
        ensures same { result.now ≡ viewed_map self.old }
    {
        unsafe { &mut *(self as *mut MapHandle as *mut Holder<Bindings>) }
    }
}

impl BindingsHandle {
    pub(crate) fn view(&mut self) -> &mut Holder<ChordBindings>
        ensures* writes_back { sem 𝓛 (lends_bindings self.entry result) }
        ensures same { result.now ≡ viewed_bindings self.old }
    {
        unsafe { &mut *(self as *mut BindingsHandle as *mut Holder<ChordBindings>) }
    }
}
