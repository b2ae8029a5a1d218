//! Laws of keys that read back and are typed one after another. Each speaks first of the listed keys (`IsListed`), and then of
//! all keys that read back, which [`further_keys`](crate::further_keys) lists.
ghost use Rattle.termwiz_laws.specs.KeyStreams.{DoesReadBack, FewNeedFlush, IsListedPress, JoinedTextsReadBack, StreamReadsBack};

/// The texts of listed keys, each read after the one before it and flushed after it, are read as exactly those keys, and nothing
/// stays buffered.
pub fn listed_stream_reads_back()
    ensures listed { StreamReadsBack IsListedPress }
    ensures others { StreamReadsBack DoesReadBack }
{}

/// Of the listed keys only Escape, Escape with ALT, `[` with ALT and `O` with ALT have texts that more bytes may change. With
/// more to come those texts stay buffered. The text of every other listed key means its key also with more to come, so it needs
/// no flush.
pub fn few_need_flush()
    ensures listed { FewNeedFlush IsListedPress }
    ensures others { FewNeedFlush DoesReadBack }
{}

/// The texts of listed keys that need no flush may be joined. Together they mean exactly those keys, under either flag, and
/// nothing is left. The text of any listed key may come last, if it is flushed.
pub fn joined_texts_read_back()
    ensures listed { JoinedTextsReadBack IsListedPress }
    ensures others { JoinedTextsReadBack DoesReadBack }
{}
