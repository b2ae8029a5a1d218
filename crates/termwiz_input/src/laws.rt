//! The laws of timers and of the parser's errors, and by `pub use` those of the layers below: of the grammar, of the key map and of the types' values.
ghost use Rattle.termwiz_base.specs.Laws.{AlwaysCloned, ClonesEqual, TellsEqual};
ghost use Rattle.termwiz_grammar.specs.Listed.{IsListed};
ghost use Rattle.termwiz_input.specs.ExpiryLaws.{FlushEnds, FlushOneByOne, NoPauses};
ghost use Rattle.termwiz_input.specs.Promise.{IsReadFromPieces};
ghost use Rattle.termwiz_input.specs.RefusalEquality.{TellsEqualRefusals};
ghost use Rattle.termwiz_input.specs.TimeExamples.{UsualTimes};
ghost use Rattle.termwiz_input.specs.TimeLaws.{ClockStands, DueIsNothingLeft, DueWithinLimit, Exact, HeldKey, IdleNotes, NotEarly, StepsOfClock};

use crate::input::{ParseError, ParseVecError, PiecesError};
use termwiz_base::Modifiers;
pub use termwiz_grammar::laws::{
    csi_u_read_back, cut_independent, empty_is_rest, few_events, few_events_in_stream,
    flush_of_kinds, held_once, listed_examples, most_wait, one_by_one, one_meaning, parts_join,
    pauses_change_nothing, read_back, resumes, rows_in_order, steps_join, table_facts,
    three_beginnings, undecided, waiting_kinds, waiting_shape,
};
pub use termwiz_keymap::laws::{exact_stays, found_values, keys_in_order};
use termwiz_keys::encode::KeyCodeEncodeModes;
pub use termwiz_keys::laws::{clones, equality, hashes, mouse_button_flags};
use termwiz_keys::types::KeyCode;

/// The text of a listed key is read back, however it is cut: if [`InputParser::parse_pieces`](crate::input::InputParser::parse_pieces) reads
/// it with an empty buffer and no more to come, exactly that key with those modifiers is emitted, and nothing is left. Its clause
/// `promise` has the statement of which this speaks.
#[tactic(auto, using(crate::proofs::lemmas::pieces::KeysFromPieces::read_from_pieces))]
pub fn read_back_from_pieces(key: KeyCode, modifiers: Modifiers, modes: KeyCodeEncodeModes)
    ensures { IsListed key modifiers modes → IsReadFromPieces key modifiers modes }
{}

/// Two errors of the parser are equal by `==` exactly if they are the same error. Of the events in a [`ParseVecError`] those in
/// the list count, and not where the list lies in memory or how long it may grow.
pub fn error_equality()
    ensures parse { TellsEqual ⟦<ParseError as PartialEq>⟧.eq }
    ensures pieces { TellsEqual ⟦<PiecesError as PartialEq>⟧.eq }
    ensures vec { TellsEqualRefusals ⟦<ParseVecError as PartialEq>⟧.eq }
{}

/// A clone of an error of the parser equals its original, and no clone fails.
pub fn error_clones()
    ensures parse { ClonesEqual ⟦<ParseError as Clone>⟧.is_clone }
    ensures parse_succeeds { AlwaysCloned ⟦<ParseError as Clone>⟧.is_infallible }
    ensures pieces { ClonesEqual ⟦<PiecesError as Clone>⟧.is_clone }
    ensures pieces_succeed { AlwaysCloned ⟦<PiecesError as Clone>⟧.is_infallible }
{}

/// Nothing is due early. Say that the age that is limited began at a note: `Last` if bytes had been fed, `Front` if an event had been taken
/// or if nothing was buffered before, and both at a timer's first note. Whatever is noted after it, at whatever times: if what is buffered is
/// due, the steps forward of the clock since that note are no less than the limit. A step back counts nothing.
pub fn timers_not_early()
    ensures { NotEarly }
{}

/// What `Timer::next_timeout` answers is exact. If it is 0, what is buffered is due, and only then (`zero`). If it is d at a time that isn't
/// before the last note, what is buffered is due d later and at no time in between (`exact`). That stays so if it is noted in between that
/// nothing happened (`idle`).
pub fn timers_exact()
    ensures zero { DueIsNothingLeft }
    ensures exact { Exact }
    ensures idle { IdleNotes }
{}

/// Bytes that bring no event don't put off what is limited by the age `Front`, as a key that is held down sends them. Of such bytes
/// alone: what is buffered is due if and only if the clock's steps forward since its first byte are no less than its present limit (`due`).
/// If the clock never stepped back, these are the time that passed (`in_order`).
pub fn held_key()
    ensures due { HeldKey }
    ensures in_order { StepsOfClock }
{}

/// The clock may be any clock. What is buffered is due one limit after the last note at the latest, whatever times were noted before it
/// (`within_limit`). While the clock stands, or has stepped back, nothing is due that wasn't at the last note (`stands`).
pub fn any_clock()
    ensures within_limit { DueWithinLimit }
    ensures stands { ClockStands }
{}

/// What comes at which times, and when it is due under the usual policy: examples of each kind.
pub fn usual_times()
    ensures { UsualTimes }
{}

/// A flush of what was due ends it. If a rest was due and [`expire`](crate::time::expire) flushed it, nothing stays buffered, and nothing is
/// due at any time, until bytes are fed.
///
/// [`next_flushed`](crate::time::next_flushed) called up to `None` has the events of that flush (`one_by_one`).
pub fn flush_ends()
    ensures ends { FlushEnds }
    ensures one_by_one { FlushOneByOne }
{}

/// Pauses within the limits change nothing, under every policy. A program reads bytes at some times, and at others lets what is buffered
/// expire, which is a read of no bytes. The bytes of these reads are all bytes that came (`all_bytes`). If nothing was due, the events are
/// those of all bytes together (`no_pauses`).
///
/// If pastes wait forever, the events are those of these reads in turn, where what was due is read with no more to come (`in_turn`). Else a
/// paste that was due ends where it is.
pub fn no_pauses()
    ensures { NoPauses }
{}
