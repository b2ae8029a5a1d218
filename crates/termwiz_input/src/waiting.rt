// What kind of bytes stay buffered, told by the first of them.
ghost use Rattle.std.specs.Prelude.{Bool};
ghost use Rattle.termwiz_grammar.specs.Grammar.{IsRest};
ghost use Rattle.termwiz_grammar.specs.WaitingKinds.{IsKind};
ghost use Rattle.termwiz_input.specs.WaitingBytes.{IsToldByBytes};

use crate::front::{begins_with_high_byte, is_escape};
use crate::paste::begins_paste;
use termwiz_grammar::waiting::Waiting;

// The kind of a text at which no item is matched.
pub(crate) fn kind_of(text: &[u8]) -> Waiting
    ensures kind { (more : Bool) → IsRest text.now more → IsKind text.now more result }
    ensures bytes { IsToldByBytes text.now result }
{
    if text.is_empty() {
        Waiting::Nothing
    } else if is_escape(text) {
        Waiting::Escape
    } else if begins_with_high_byte(text) {
        Waiting::Character
    } else if begins_paste(text) {
        Waiting::Paste
    } else {
        Waiting::Sequence
    }
}
