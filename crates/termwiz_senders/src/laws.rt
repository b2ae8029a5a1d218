//! Laws of what is sent, each the contract of a function without effect. What is said of the extended parser holds under every reading, by
//! either grammar, unless it says more.
ghost use Rattle.termwiz_senders.specs.MouseLaws.{DefaultReadBack, SgrGivesAgain, SgrInverse, SgrReadBack, SgrReadBackExtended, UrxvtReadBack};
ghost use Rattle.termwiz_senders.specs.PasteLaws.{AtMostThreefold, OnePaste, OnePasteExtended, PasteStands, PasteStandsExtended, SafeIsUnchanged, SafeOnce, TypedPaste, TypedPasteExtended};

/// In brackets a text is sent as one paste, of the text made safe, whether or not more may come. Nothing stays buffered. That holds of every
/// text whatever, to the port (`port`) and to the extended parser (`extended`).
pub fn one_paste()
    ensures port { OnePaste }
    ensures extended { OnePasteExtended }
{}

/// The paste stands wherever it is sent, if a flush of the text before it leaves nothing buffered. The text before is read as that flush reads
/// it, and the text after by itself.
pub fn paste_stands()
    ensures port { PasteStands }
    ensures extended { PasteStandsExtended }
{}

/// Without brackets a text is typed, character by character, as it is made safe: Enter for CR, Tab for HT, and the key of any other character,
/// all without modifiers. Nothing stays buffered, whether or not more may come.
pub fn typed_paste()
    ensures port { TypedPaste }
    ensures extended { TypedPasteExtended }
{}

/// Making a text safe changes nothing exactly if it has no control characters but HT and CR (`unchanged`), so a second time it changes nothing
/// (`once`). What is sent has at most three bytes for each byte of the text, and twelve for the brackets (`length`).
pub fn safe_texts()
    ensures unchanged { SafeIsUnchanged }
    ensures once { SafeOnce }
    ensures length { AtMostThreefold }
{}

/// A report that is sent in SGR's encoding is read as one mouse event, whether or not more may come, and nothing stays buffered: by the port
/// (`port`) and by the extended parser (`extended`). The event has the place and the buttons of the report, and of the modifiers those that
/// were sent. The extended parser's also tells what happened to which button.
pub fn sgr_read_back()
    ensures port { SgrReadBack }
    ensures extended { SgrReadBackExtended }
{}

/// By `Dialect::Extended` the extended parser reads the same of a report that is sent in urxvt's encoding (`urxvt`), but that a release names no
/// button. It does so of one that is sent in three bytes, if it was told to read X10 mouse reports (`three_bytes`).
pub fn other_mouse_read_back()
    ensures urxvt { UrxvtReadBack }
    ensures three_bytes { DefaultReadBack }
{}

/// The numbers and the last byte that are sent in SGR's encoding give the report by `sgr_mouse`, but for modifiers that aren't sent
/// (`inverse`). A report that `sgr_mouse` gives is sent by numbers that give it again, if all reports are sent (`given_again`).
pub fn sgr_inverse()
    ensures inverse { SgrInverse }
    ensures given_again { SgrGivesAgain }
{}
