//! Laws of the twins of keys by the port's encoder.
ghost use Rattle.termwiz_binding_laws.specs.EncodedPresses.{PressesByPort, TwinsAreTheirOwn, TwinsReadAlike, TwinsSendTheSame};

/// The parser of the port reads what a key sends as the press of the twin that the key has there: to it the bytes 8 and 10 are Backspace and Enter.
/// So it is for every set of SHIFT, ALT, CTRL and SUPER, in all modes and encodings, with no more bytes to come.
///
/// Left out are the characters U+0000 to U+001F and U+007F, `Numpad0` to `Numpad9` and `Decimal`, and Enter in newline mode. So are the middle
/// key of the keypad and the codes of characters from U+0080 on, which the port doesn't know.
pub fn presses_by_port()
    ensures { PressesByPort }
{}

/// A twin is its own twin in the same modes (`own`). So what a key sends and what its twin sends are read as the same press (`alike`). That is so
/// where neither is Enter in newline mode, nor F3 with a modifier while a question is open. No program can bind the two to different commands. Left
/// out are control characters as keys, `Numpad0` to `Numpad9` and `Decimal`.
pub fn twins_read_alike()
    ensures own { TwinsAreTheirOwn }
    ensures alike { TwinsReadAlike }
{}

/// Without SUPER such a key sends the very bytes of its twin, but where the twin is Enter or Tab. Those have more than one text. Left out is what
/// a code tells as what SHIFT made: with SHIFT a character beyond ASCII but a control character, and a digit.
pub fn twins_send_the_same()
    ensures { TwinsSendTheSame }
{}
