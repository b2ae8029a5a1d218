//! What stays buffered, by kind.

/// What stays buffered. Each kind has a limit in time of its own, or none: those of `termwiz_input::time::Policy`.
#[derive(Clone, Copy, PartialEq, Eq, Debug)]
pub enum ExtendedWaiting {
    /// No bytes.
    Nothing,
    /// ESC, or ESC ESC: the Escape key, alone or with Alt, unless more follows.
    Escape,
    /// A longer prefix of a sequence or of the opening of a string, after an ESC or not.
    Sequence,
    /// A prefix of a character in UTF-8, after an ESC or not.
    Character,
    /// An open paste: its start, and its text so far.
    Paste,
    /// An open string: its opening, and its bytes so far.
    String,
}
