//! Exactly which keys read back, in all modes and encodings.
ghost use Rattle.termwiz_laws.specs.FurtherKeys.{FurtherKeysReadBack, ListedAreAmongThem, OnlyTheseReadBack};

/// Keys of `ReadsBackToo` read back, in all modes and encodings: each has a text, which, read whole without more to come, means
/// exactly that key with those modifiers.
pub fn further_keys_read_back()
    ensures { FurtherKeysReadBack }
{}

/// No key reads back but those of `ReadsBackToo`: any other has no text, or one that isn't read as exactly that key with those
/// modifiers. So this law and `further_keys_read_back` say exactly which keys read back.
pub fn only_these_read_back()
    ensures { OnlyTheseReadBack }
{}

/// Every listed key is one of `ReadsBackToo`.
pub fn listed_are_among_them()
    ensures { ListedAreAmongThem }
{}
