//! A law of the rows that would complete what is buffered.
ghost use Rattle.termwiz_laws.specs.Completions.{CompletionsAreRead};

/// Each row that `InputParser::completions` names completes the buffered text: followed by the rest of the row, and flushed, the text means
/// the row's key, with ALT if the call says so. The row of the start of a paste is no key. It opens a paste, and an ESC before it is the
/// Escape key.
pub fn completions_are_read()
    ensures { CompletionsAreRead }
{}
