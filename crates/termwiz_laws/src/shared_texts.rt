//! Laws of keys that send the same text. Each speaks first of the listed keys (`IsListed`), and then of all keys that read back.
ghost use Rattle.termwiz_laws.specs.KeyStreams.{DoesReadBack, IsListedPress};
ghost use Rattle.termwiz_laws.specs.SharedTexts.{TextsDiffer, TwinsReadAsOne};

/// No two listed keys send the same text: the text tells the key and its modifiers, also where the modes of the two differ.
pub fn listed_texts_differ()
    ensures listed { TextsDiffer IsListedPress }
    ensures others { TextsDiffer DoesReadBack }
{}

/// A key that sends the text of a listed key is read as that listed key. So it reads back only if it is that key, with the same
/// modifiers.
pub fn unlisted_twins_read_as_listed()
    ensures listed { TwinsReadAsOne IsListedPress }
    ensures others { TwinsReadAsOne DoesReadBack }
{}
