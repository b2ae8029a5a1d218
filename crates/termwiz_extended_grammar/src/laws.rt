//! Laws of the extended grammar, each the contract of a function without effect. Each holds for every reading.
//!
//! They speak of the definitions alone. That the parser obeys the definitions is said by its own contracts.
ghost use Rattle.termwiz_extended_grammar.specs.ExtendedLaws.{BareKeysAreJoined, Conservative, CutIndependent, EmptyIsRest, ExtraIsLongest, FewEvents, FewEventsInStream, FourBeginnings, OneByOneMeans, OneMeaning, OpeningIsLongest, QuestionsMoveNothing, Resumes, SequenceStands, StepsJoin, StringStands, TermwizIsPort, TitlesAreCommands, Undecided, WaitingShape};
ghost use Rattle.termwiz_extended_grammar.specs.ExtendedKinds.{WaitingKinds};
ghost use Rattle.termwiz_extended_grammar.specs.ExtendedParts.{PartsJoin};

/// Each text means, under each flag, exactly one list of events and one rest.
pub fn one_meaning()
    ensures { OneMeaning }
{}

/// A text may be read in parts, all but the last with more to come: if T with more to come gives the events E1 and the rest
/// W1, and W1 followed by S gives E2 and W2 under either flag, then T followed by S gives E1 followed by E2, and W2, under
/// that flag.
pub fn cut_independent()
    ensures { CutIndependent }
{}

/// Reading may stop between any two items and go on later: with more bytes under either flag if it stopped with more to
/// come, or without more bytes under the same flag. The events are those of the whole text.
pub fn resumes()
    ensures { Resumes }
{}

/// Items that are read one after another are items of the whole text.
pub fn steps_join()
    ensures { StepsJoin }
{}

/// There are no more events than bytes, also where reading stops between two items: the events and the bytes that are left
/// are together at most as many as the bytes of the text.
pub fn few_events()
    ensures { FewEvents }
{}

/// A whole stream, read from an empty buffer, has no more events than bytes. The events of all reads, each with its own
/// flag, and the bytes left at the end are together at most as many as the bytes of all reads. Reads may also stop between two
/// items, as after a refusal of memory.
pub fn few_events_in_stream()
    ensures { FewEventsInStream }
{}

/// Events that are read one by one, up to a rest, are exactly what the text means. So a loop over `ExtendedParser::next_event`
/// up to `None` returns the events of one call of `ExtendedParser::parse`.
pub fn one_by_one()
    ensures { OneByOneMeans }
{}

/// The empty text gives no event, under either flag.
pub fn empty_is_rest()
    ensures { EmptyIsRest }
{}

/// What waits is one of four: nothing; an open paste; or, if more may come, at most 255 bytes that properly begin a sequence, a character or
/// the opening of a string, after at most one Escape; or an open string of at most 65535 bytes.
pub fn waiting_shape()
    ensures { WaitingShape }
{}

/// What stays buffered is of exactly one kind: nothing; an Escape; the beginning of a longer sequence or of an opening; the beginning of a
/// character; an open paste; or an open string.
pub fn waiting_kinds()
    ensures { WaitingKinds }
{}

/// What waits as the proper beginning of a sequence, a character or an opening, alone or after one Escape, isn't decided yet: for some
/// bytes that may follow it, a flush before them changes the events. Nor is an open string.
pub fn undecided()
    ensures { Undecided }
{}

/// A complete extra sequence is its event, however the text around it is cut. What stands before it is read as a flush reads it, and what
/// comes after it by itself, if a flush leaves nothing of what stands before it. So no byte of the sequence becomes a key, and nothing
/// before it is lost. Of a bare key this holds only where the text before it doesn't end with an ESC that is an item by itself.
pub fn sequence_stands()
    ensures { SequenceStands }
{}

/// A bare key after an ESC that is left for more to come is one item with it: the key with ALT. A bare key is a key report that a terminal sends
/// after ESC where Alt is held: a row of the table, a key of the keypad, or one of rxvt-unicode's that ends with `^`, `@` or `$`.
pub fn bare_keys_are_joined()
    ensures { BareKeysAreJoined }
{}

/// Which texts are known, open or rests doesn't depend on the number of open questions for the cursor's position, nor on what the bytes 8, 10
/// and 127 are. Both decide only what a known text means.
pub fn questions_move_nothing()
    ensures { QuestionsMoveNothing }
{}

/// A string is some parts or none and one more event, of its kind, whatever stands before it, if a flush leaves nothing of that. The last
/// event tells whether the string has its end or was cut: by ESC and another byte, by ESC ESC, or by a flush. What comes after it is read by
/// itself. The bytes of these events, without the opening of all but the first, are those of the string. So no byte of a string becomes a
/// key, however long it is.
pub fn string_stands()
    ensures { StringStands }
{}

/// By `Dialect::Termwiz` a text means what it means to the port: each event is that of one of the port's, in order, and the same bytes stay
/// buffered, as bytes of the same kind. And each text that means something to the port means these events here.
pub fn termwiz_is_port()
    ensures { TermwizIsPort }
{}

/// A text in which the port meets no extra sequence, no opening and none of the bytes 8, 10 and 127 means what it means to the port, event for
/// event, and the same bytes stay buffered. The port meets one if it begins at an item, at the rest or after the ESC of an item or the rest, or if it properly begins
/// there and the port wouldn't go on reading.
pub fn conservative()
    ensures { Conservative }
{}

/// A title is an extra sequence, with the event of an operating system command.
pub fn titles_are_commands()
    ensures { TitlesAreCommands }
{}

/// An extra sequence that begins a text is the only one that does, no opening begins the text, and no sequence of the port that begins it is
/// longer. So it is the longest known text there, and decides the item.
pub fn extra_is_longest()
    ensures { ExtraIsLongest }
{}

/// An opening that begins a text is the only one that does, and no sequence of the port that begins it is longer.
pub fn opening_is_longest()
    ensures { OpeningIsLongest }
{}

/// Of the sequences of the port exactly ESC, ESC `[`, ESC `O` and ESC `P` properly begin an extra sequence or an opening.
pub fn four_beginnings()
    ensures { FourBeginnings }
{}

/// The decided text of an open paste may be taken before more comes: all of it but the longest proper beginning of END that ends it, or else
/// the bytes that end it and properly begin a character. START and those bytes stay.
///
/// If END comes, the paste that then ends is the same, but that its text goes on after what was taken. The events after it and the rest are
/// the same too, and no byte of a paste becomes a key. If END doesn't come, the paste stays open.
pub fn parts_join()
    ensures { PartsJoin }
{}
