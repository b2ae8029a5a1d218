//! Laws from press to press, each the contract of a function without effect: what was sent to a program is what the program is told, through
//! any encoder, line and clock. They speak of the definitions alone.
#![tactic(auto)]

ghost use Rattle.termwiz_press_laws.specs.ExtendedFlushes.{FlushSeparatesEscape};
ghost use Rattle.termwiz_press_laws.specs.PressRuns.{PressToPress, ReadsTellWhatWasSent, SomeRunTells};
ghost use Rattle.termwiz_press_laws.specs.TextsApart.{ApartFromMore, EscapeBeforeOthers, EscapeStandsApart, KeysStandApart};
ghost use Rattle.termwiz_press_laws.specs.Things.{OneThing};
ghost use Rattle.termwiz_press_laws.specs.WorkedPresses.{AskedPosition, EscapeApart, PasteWithEnd, TwoInOrder};

/// A flush of ESC is the Escape key, and what comes after it means what it means by itself, whatever it is: Escape, a flush and `q` are
/// two keys. A flush of ESC ESC is Escape with ALT, and the same holds. So it is under every reading of the extended parser.
pub fn flush_separates_escape()
    ensures { FlushSeparatesEscape }
{}

/// One thing that is sent is told as what it is, and nothing stays buffered: a key by either encoder, in any modes and under any flags, a paste in
/// brackets, a mouse report in SGR's encoding, or a reply. With more to come that is so of all but seven texts, which wait: ESC, ESC ESC, and
/// ESC with `[`, `O`, `P`, `]` or `_`.
pub fn one_thing()
    ensures { OneThing }
{}

/// A text that a flush reads as one key is that key also where other bytes follow, if nothing known begins with the text and the first of them. Nor may
/// anything begin with what follows the text's ESC and that byte (`keys`). Of ESC alone it is so before an extra sequence that is no bare key and before the
/// opening of a string (`escape`), and before what is one event at once that is no key, as a paste or a mouse report (`others`). What
/// stands apart from some bytes does so whatever comes behind them (`more`).
pub fn texts_stand_apart()
    ensures keys { KeysStandApart }
    ensures escape { EscapeStandsApart }
    ensures others { EscapeBeforeOthers }
    ensures more { ApartFromMore }
{}

/// What was sent is what the program is told, in this order, and nothing stays buffered. So it is for every list of things and however their bytes
/// are cut into reads (`reads`), and in each run of a timed parser, once all is told (`runs`). A pause, in which what is buffered is flushed, comes only
/// between two things. Behind a text that waits one must come, or the text stands apart from the next bytes. Modes and flags may change between
/// any two things. A run of which the law speaks is given (`some`).
pub fn press_to_press()
    ensures reads { ReadsTellWhatWasSent }
    ensures runs { PressToPress }
    ensures some { SomeRunTells }
{}

/// Worked examples: two keys in their order (`order`), Escape and a pause before what would go on with it (`apart`), a pasted text that has the
/// end of a paste in it (`paste`), and the reply to a question for the cursor's position (`position`).
pub fn worked_presses()
    ensures order { TwoInOrder }
    ensures apart { EscapeApart }
    ensures paste { PasteWithEnd }
    ensures position { AskedPosition }
{}
