//! Laws of bytes with which neither a sequence nor a character begins.
ghost use Rattle.termwiz_laws.specs.BrokenBytes.{AlwaysBroken, AlwaysCostsOne, BrokenBeforeNew, BrokenBeforeOther, BrokenByteAfterEscape, BrokenByteCutsCharacter, BrokenByteCutsSequence, BrokenByteInStream, CutCharacter, FirstByteAlone, OnlyTheseAlwaysBroken};

/// A byte with which neither a sequence nor a character begins, nor can begin if more comes, is exactly one event: U+FFFD
/// (`in_stream`). An ESC that is buffered before it belongs to this event, which then has ALT (`after_escape`). All other events, and
/// what stays buffered at the end, are those of the texts before and after the byte.
pub fn broken_byte_costs_one_event()
    ensures in_stream { BrokenByteInStream }
    ensures after_escape { BrokenByteAfterEscape }
{}

/// If more than one ESC is buffered before such a byte, the byte cuts it short: the events are those of a flush, then U+FFFD, and then those
/// that the text after the byte has by itself. That holds of ESC ESC and of the beginning of a longer sequence (`sequence`). It holds of
/// the beginning of a character, alone or after one ESC, if no character goes on from it by the byte (`character`).
pub fn broken_byte_cuts_short()
    ensures sequence { BrokenByteCutsSequence }
    ensures character { BrokenByteCutsCharacter }
{}

/// No encoding of a character begins with the bytes 0x80 to 0xC1, nor with those from 0xF5 on. They are broken before every text,
/// under either flag (`always`), and no other bytes are (`only_these`). So each of them is one event, whatever follows (`cost`).
pub fn bytes_that_begin_nothing()
    ensures always { AlwaysBroken }
    ensures only_these { OnlyTheseAlwaysBroken }
    ensures cost { AlwaysCostsOne }
{}

/// A byte from 0x80 on is broken if the next byte can't come second after it in a character (`before_other`), in particular if that
/// is none of 0x80 to 0xBF (`before_new`). If a character isn't complete, and its next byte is none of 0x80 to 0xBF or the text is
/// flushed, each of its bytes is one event (`each_byte`). The first byte of a character, alone, stays buffered with more to come
/// (`first_alone`).
pub fn cut_characters()
    ensures before_other { BrokenBeforeOther }
    ensures before_new { BrokenBeforeNew }
    ensures each_byte { CutCharacter }
    ensures first_alone { FirstByteAlone }
{}
