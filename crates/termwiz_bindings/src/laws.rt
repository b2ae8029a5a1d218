//! Laws of presses, each the contract of a function without effect.
ghost use Rattle.std.specs.Prelude.{ℕ, Option};
ghost use Rattle.termwiz_bindings.specs.BindingLaws.{AreChordsInOrder, ChangeOneChord};
ghost use Rattle.termwiz_bindings.specs.Chords.{TellsChordsApart};
ghost use Rattle.termwiz_bindings.specs.CodeLaws.{CodesBeginAsPresses, CodesHaveOneWidth, CodesTellPresses};
ghost use Rattle.termwiz_bindings.specs.NameLaws.{NamesReadBack, ReadsPresses};
ghost use Rattle.termwiz_bindings.specs.Presses.{main_press, control_press, told_press, shown_press, lowered_press};
ghost use Rattle.termwiz_bindings.specs.PressLaws.{CapitalsTellNothing, IsSettled, LocksChangeNothing, NeverBoth, NoPressOfRelease, PressesHaveNoLocks, PressesSettle, SecondOnlyOf, SecondWithoutText, SidesChangeNothing};

use crate::chord::Chord;

/// A press, taken as a report that says no more, is its own press (`settled`). So a program may keep presses, and read them as reports
/// again. Of Kitty's bits it has only the six that are no locks (`held`).
pub fn presses_settle()
    ensures settled { PressesSettle }
    ensures held { PressesHaveNoLocks }
{}

/// Each rule changes nothing where it was applied before: that of main keys, control characters, what a key is told to type with Shift,
/// what a character is with Shift on every keyboard, and where a letter is told in lower case.
pub fn rules_settle()
    ensures main_key { IsSettled main_press }
    ensures control { IsSettled control_press }
    ensures told { (shifted : Option ℕ) → IsSettled (told_press shifted) }
    ensures shown { IsSettled shown_press }
    ensures lowered { IsSettled lowered_press }
{}

/// Where a terminal tells that a letter is its capital with Shift, the press is that without it. So a program gets ctrl+shift+a whether the `A`
/// is told or not.
pub fn capitals_tell_nothing()
    ensures { CapitalsTellNothing }
{}

/// Caps Lock and Num Lock, as modifiers of a report, change no press (`locks`). Neither do those modifiers of an event that tell which of
/// two keys is held, nor LEADER (`sides`).
pub fn nothing_from_locks_and_sides()
    ensures locks { LocksChangeNothing }
    ensures sides { SidesChangeNothing }
{}

/// A release has no press (`release`), and no report has both a press and a text to insert (`text`).
pub fn no_press()
    ensures release { NoPressOfRelease }
    ensures text { NeverBoth }
{}

/// A report has a second press exactly if its key makes a press and is one of three kinds (`only`). Its character isn't of ASCII, with a
/// modifier beside SHIFT, and the terminal told what the same place types on a PC-101 keyboard. Or it lost SHIFT to another character
/// that was told, where SHIFT would have stayed. Or it is U+0008 or U+000A. The text of a report says nothing of it (`text`).
pub fn second_presses()
    ensures only { SecondOnlyOf }
    ensures text { SecondWithoutText }
{}

/// All codes have the same number of bytes (`width`), and different presses have different codes (`told`). So presses begin others
/// exactly if their codes do (`begin`).
pub fn codes_of_presses()
    ensures width { CodesHaveOneWidth }
    ensures told { CodesTellPresses }
    ensures begin { CodesBeginAsPresses }
{}

/// Binding a chord changes the value of that chord alone, and so does unbinding it.
pub fn one_chord<V>()
    ensures { ChangeOneChord V }
{}

/// What [`Bindings::entry`](crate::bindings::Bindings::entry) lists: each place has a chord, each chord is at exactly one place, and
/// those at higher places have greater codes.
pub fn chords_in_order<V>()
    ensures { AreChordsInOrder V }
{}

/// Two chords are equal by `==` exactly if they have the same presses.
pub fn chord_equality()
    ensures { TellsChordsApart ⟦<Chord as PartialEq>⟧.eq }
{}

/// What is printed of a chord with a key is read as that chord (`read_back`). So a program may keep its bindings as text. What is read of
/// any text is one or more presses, not too many, each of which is its own press (`presses`).
pub fn names_read_back()
    ensures read_back { NamesReadBack }
    ensures presses { ReadsPresses }
{}
