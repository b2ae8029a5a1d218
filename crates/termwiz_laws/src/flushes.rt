//! What a flush emits, and what it changes before the bytes that complete a sequence or a character.
ghost use Rattle.termwiz_laws.specs.Flushes.{FlushAddsEvents, FlushOfCharacter, FlushOfSequence, FlushSeparatesEscape};

/// A flush of ESC is the Escape key, and what comes after it means what it means by itself, whatever it is: Escape, a flush and `q` are
/// two keys. A flush of ESC ESC is Escape with ALT, and the same holds.
///
/// After ESC, ESC ESC or nothing `InputParser::flush_escape` is such a flush.
pub fn flush_separates_escape()
    ensures { FlushSeparatesEscape }
{}

/// What a flush emits of the beginning of a sequence or of a character. Of a sequence, ESC `[` or ESC `O` is the key of that character
/// with ALT, and each later byte is a character (`sequence`). Of a character each byte is U+FFFD (`character`). An ESC before the
/// beginning belongs to the first of these events, which then has ALT.
pub fn flush_of_beginnings()
    ensures sequence { FlushOfSequence }
    ensures character { FlushOfCharacter }
{}

/// A flush in the middle of a sequence or of a character adds events, whatever completes it. If p, alone or after one ESC, goes on
/// by c to a sequence or to the encoding of a character, then more events are emitted with a flush before c than without it. So
/// they are other events, though the first of them may be the same.
pub fn flush_adds_events()
    ensures { FlushAddsEvents }
{}
