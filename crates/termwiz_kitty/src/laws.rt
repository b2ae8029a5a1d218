//! Laws of the encoder, each the contract of a function without effect. What is said of the extended parser holds whether it reads X10 mouse
//! reports or not, and however many questions for the cursor's position are open.
ghost use Rattle.termwiz_kitty.specs.KittyLaws.{AltReadBack, FullyTold, KittyReadBack, LegacyReadBack, TypedReadBack};

/// If a key is sent as a key report, and its sequence has at most 256 bytes, then the extended parser by `Dialect::Extended` reads it as
/// exactly that report, whether or not more may come. Before the protocol that is so of each functional key with modifiers, and
/// of a key of the keypad as its main key.
pub fn kitty_read_back()
    ensures { KittyReadBack }
{}

/// With all five flags a report that a terminal can write is sent whole. So what is written for it is read as that report.
pub fn fully_told()
    ensures { FullyTold }
{}

/// A key that is sent as its text is read back as that text: its characters, each the press of a key without modifiers. What Enter, Tab and
/// Backspace type by themselves is read back as these keys. But where Backspace is to send byte 8, its byte 127 is the character U+007F.
/// Nothing stays buffered, whether or not more may come. That holds of every reading, by either dialect.
pub fn typed_read_back()
    ensures { TypedReadBack }
{}

/// A text from before the protocol is read back as the press of its key, with all modifiers of its report but the locks (`keys`). That
/// holds of F1 to F4; Escape alone or with Alt; Enter, Backspace and Tab with Alt; Tab with Shift, or with Shift and Alt; and letters but
/// h, i, j and m with Ctrl, or with Ctrl and Alt. Where Backspace is to send byte 8, its byte 127 is the character U+007F here too. A text key
/// with Alt, or with Shift and Alt, is read back as the character that it shows, with Alt (`characters`). Both hold by either dialect. With more
/// to come the law says nothing of Escape, Escape with Alt, and `[`, `O`, `P`, `]` and `_` with Alt: their texts begin sequences or strings.
pub fn legacy_read_back()
    ensures keys { LegacyReadBack }
    ensures characters { AltReadBack }
{}
