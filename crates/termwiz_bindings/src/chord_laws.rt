//! Laws of reading presses under chords, each the contract of a function without effect.
ghost use Rattle.termwiz_bindings.specs.ChordLaws.{BindingsAreChords, CutIndependent, LongestChord, MeaningOfPresses, NothingLost, NothingPending, LeavesOtherLists, OneItem, OneMeaning, PendingShape, StepsJoin, UnboundOnly, Undecided};

/// At the front of a list of presses that is neither open nor empty stands exactly one item.
pub fn one_item<V>()
    ensures { OneItem V }
{}

/// Each list of presses gives, under each flag, one list of outcomes, and leaves one pending list.
pub fn one_meaning<V>()
    ensures { OneMeaning V }
{}

/// However a list of presses is cut, it gives the same outcomes and leaves the same presses (`cuts`). So a program may read after
/// each press. Items that are taken one after another under one flag are steps of the whole list (`joined`).
pub fn cut_independent<V>()
    ensures cuts { CutIndependent V }
    ensures joined { StepsJoin V }
{}

/// The presses of the outcomes, and then those that are pending, are the list.
pub fn nothing_lost<V>()
    ensures { NothingLost V }
{}

/// A bound chord is the longest that stands at its place (`bound`), and no chord stands at that of an unbound press (`unbound`).
pub fn longest<V>()
    ensures bound { LongestChord V }
    ensures unbound { UnboundOnly V }
{}

/// What is pending is nothing, or 1 to 31 presses that begin a longer chord, with more to come (`shape`). So with no more to come
/// nothing is pending (`none`).
pub fn pending<V>()
    ensures shape { PendingShape V }
    ensures none { NothingPending V }
{}

/// Where a chord goes on after what is pending, giving up before it is pressed changes the outcomes. So nothing is pending that could
/// be decided before.
pub fn undecided<V>()
    ensures { Undecided V }
{}

/// Only the chords that begin with a press of a list say what the list means.
pub fn meaning_of_presses<V>()
    ensures { MeaningOfPresses V }
{}

/// To bind or to unbind a chord changes the meaning of no list without its first press.
pub fn leaves_other_lists<V>()
    ensures { LeavesOtherLists V }
{}

/// Bindings are finitely many chords of 1 to 32 presses, so each list of presses has one meaning under them.
pub fn bindings_are_chords<V>()
    ensures { BindingsAreChords V }
{}
