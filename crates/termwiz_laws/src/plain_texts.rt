//! Laws of text without control characters.
ghost use Rattle.termwiz_laws.specs.PlainTexts.{PlainTextAlone, PlainTextInReads, PlainTextInStream, TextCharacters};

/// The UTF-8 encodings of any characters but U+0001 to U+001B and U+007F, one after another, mean exactly these characters, one event
/// for each, under either flag, and nothing is left (`alone`). The same holds between other texts (`in_stream`), and if the text is cut
/// into reads, at any places (`in_reads`).
pub fn plain_text_is_itself()
    ensures alone { PlainTextAlone }
    ensures in_stream { PlainTextInStream }
    ensures in_reads { PlainTextInReads }
{}

/// A character means itself exactly if it is none of U+0001 to U+001B and U+007F.
pub fn text_characters()
    ensures { TextCharacters }
{}
