//! Laws of the grammar, of the sequence table and of reading back, each the contract of a function without effect.
//!
//! They speak of the definitions alone. That the parser obeys the definitions is said by its own contracts.
ghost use Rattle.std.specs.Prelude.{◌≤◌};
ghost use Rattle.termwiz_grammar.specs.Laws.{CutIndependent, EmptyIsRest, FewEvents, FewEventsInStream, MostWait, OneByOneMeans, OneMeaning, Resumes, StepsJoin, TableFacts, ThreeBeginnings, Undecided, WaitingShape};
ghost use Rattle.termwiz_grammar.specs.Listed.{CsiUReadsBack, IsListed, ReadsBack};
ghost use Rattle.termwiz_grammar.specs.ListedExamples.{ListedExamples};
ghost use Rattle.termwiz_grammar.specs.PasteParts.{HeldOnce, PartsJoin};
ghost use Rattle.termwiz_grammar.specs.Pauses.{PausesChangeNothing};
ghost use Rattle.termwiz_grammar.specs.RowsInOrder.{RowsInOrder};
ghost use Rattle.termwiz_grammar.specs.WaitingKinds.{FlushOfKinds, WaitingKinds};

use termwiz_base::Modifiers;
use termwiz_keys::encode::KeyCodeEncodeModes;
use termwiz_keys::types::KeyCode;

/// Each text means, under each flag, exactly one list of events and one rest.
pub fn one_meaning()
    ensures { OneMeaning }
{}

/// The number of rows of the sequence table, no two of which have the same bytes. The longest rows have eleven bytes, and no row
/// begins with ESC `[<`, as mouse reports do.
pub fn table_facts()
    ensures { TableFacts }
{}

/// The rows of the sequence table by their places, as `InputParser::row` answers with them: each row is at one place, later ones have
/// greater bytes, and there are no others.
#[tactic(auto, using(crate::proofs::lemmas::table::TableAsMap::rows_in_order))]
pub fn rows_in_order()
    ensures { RowsInOrder }
{}

/// Of the rows of the sequence table exactly ESC, ESC `[` and ESC `O` properly begin another row.
pub fn three_beginnings()
    ensures { ThreeBeginnings }
{}

/// A text may be read in parts, all but the last with more to come: if T with more to come gives the events E1 and the rest
/// W1, and W1 followed by S gives E2 and W2 under either flag, then T followed by S gives E1 followed by E2, and W2, under
/// that flag.
pub fn cut_independent()
    ensures { CutIndependent }
{}

/// Reading may stop between any two items and go on later: with more bytes under either flag if it stopped with more to
/// come, or without more bytes under the same flag. The events are those of the whole text.
pub fn resumes()
    ensures { Resumes }
{}

/// There are no more events than bytes, also where reading stops between two items: the events and the bytes that are left
/// are together at most as many as the bytes of the text.
pub fn few_events()
    ensures { FewEvents }
{}

/// A whole stream, read from an empty buffer, has no more events than bytes. The events of all reads, each with its own
/// flag, and the bytes left at the end are together at most as many as the bytes of all reads. Reads may also stop between two
/// items, as after a refusal of memory.
pub fn few_events_in_stream()
    ensures { FewEventsInStream }
{}

/// Items that are read one after another are items of the whole text. If T has the events E and leaves V, and V has the events D
/// and leaves W, then T has E followed by D and leaves W, under the same flag.
pub fn steps_join()
    ensures { StepsJoin }
{}

/// Events that are read one by one, up to a rest, are exactly what the text means. So a loop over
/// `InputParser::next_event` up to `None` returns the events of one call of
/// `InputParser::parse`.
pub fn one_by_one()
    ensures { OneByOneMeans }
{}

/// The empty text gives no event, under either flag.
pub fn empty_is_rest()
    ensures { EmptyIsRest }
{}

/// What waits is one of three: nothing; an open paste; or, if more may come, at most twenty bytes that properly begin a
/// sequence or a character, after at most one Escape.
pub fn waiting_shape()
    ensures { WaitingShape }
{}

/// What stays buffered is of exactly one kind: nothing; an Escape; the beginning of a longer sequence; the beginning of a
/// character; or an open paste.
pub fn waiting_kinds()
    ensures { WaitingKinds }
{}

/// What a flush makes of each kind: ESC is the Escape key, and ESC ESC the same with ALT. An open paste stays as it is. Of the beginning
/// of a sequence or of a character it says that some bytes may follow whose events the flush changes. What the flush emits of these two
/// is the law `flush_of_beginnings` of `termwiz_laws`.
pub fn flush_of_kinds()
    ensures { FlushOfKinds }
{}

/// A pause after which only the Escape key is flushed changes no event, if in the stream without the pause an item ends there too. So of
/// one ESC it speaks before a mouse report, before a paste and at the end of the input. It says nothing of ESC, a pause and `q`: these
/// are two keys, and without the pause one, `q` with ALT. What such a flush and the bytes after it mean is the law
/// `flush_separates_escape` of `termwiz_laws`.
pub fn pauses_change_nothing()
    ensures { PausesChangeNothing }
{}

/// The decided text of an open paste may be taken before more comes: all of it but the longest proper beginning of END that ends it, or else
/// the bytes that end it and properly begin a character. START and those bytes stay.
///
/// If END comes, the paste that then ends is the same, but that its text goes on after what was taken: in all a paste has the same
/// text, whether it is taken in parts or not. The events after it and the rest are the same too, and no byte of a paste becomes a key. If END
/// doesn't come, the paste stays open.
pub fn parts_join()
    ensures { PartsJoin }
{}

/// What is held back of an open paste is one text, whatever is taken of it, and of at most five bytes.
pub fn held_once()
    ensures { HeldOnce }
{}

/// Twenty undecided bytes can stay buffered, alone and after one Escape: the longest proper beginning of a mouse report.
pub fn most_wait()
    ensures { MostWait }
{}

/// What waits as the proper beginning of a sequence or of a character, alone or after one Escape, isn't decided yet: for some
/// bytes that may follow it, a flush before them changes the events. The three meanings exist: of the whole, of what is flushed,
/// and of what comes after the flush. By `one_meaning` each is the only one.
pub fn undecided()
    ensures { Undecided }
{}

/// A listed key reads back: if the key, the modifiers and the modes are listed (`IsListed`, in xterm's encoding with newline
/// mode off, and application cursor keys off, or on for `Home` and `End`), then [`KeyCode::encode`] gives it a text, and this
/// text, read whole without more to come, means exactly that key with those modifiers.
pub fn read_back(key: KeyCode, modifiers: Modifiers, modes: KeyCodeEncodeModes)
    ensures { IsListed key modifiers modes → ReadsBack key modifiers modes }
{}

/// Of each line of the list of keys that read back, examples are listed, and neighbours of them aren't.
pub fn listed_examples()
    ensures { ListedExamples }
{}

/// ASCII characters sent as CSI u read back: for `c` up to 127 and `m` from 1 to 7, ESC `[` c `;` 1+m `u`, in decimal
/// without leading zeros, means exactly `Char(c)` with the modifiers of `m` (1 for SHIFT, 2 for ALT and 4 for CTRL).
pub fn csi_u_read_back(c: u8, m: u8)
    ensures { c ≤ 127 → 1 ≤ m → m ≤ 7 → CsiUReadsBack c m }
{}
