//! A law of how many bytes can stay buffered.
ghost use Rattle.termwiz_laws.specs.WaitingBounds.{BoundIsReached, FlushesAreBounded, MoreGiveAnEvent, RestsAreBounded, StreamsAreBounded};

/// With more to come, what stays buffered is an open paste or has at most 21 bytes (`rests`); so many can stay (`reached`). If a text
/// of 22 bytes or more is read from an empty buffer, an event is emitted, or the text is an open paste (`more`). After a flush nothing
/// stays buffered, or an open paste (`flushes`). After any number of reads, each with its own flag, the bound holds too (`streams`).
pub fn waits_are_bounded()
    ensures rests { RestsAreBounded }
    ensures more { MoreGiveAnEvent }
    ensures flushes { FlushesAreBounded }
    ensures streams { StreamsAreBounded }
    ensures reached { BoundIsReached }
{}
