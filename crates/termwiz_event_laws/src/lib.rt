//! Laws of written events, each the contract of a function without effect: what is written is read as the event, and no event that a
//! reading emits is refused. They speak of the definitions alone. That `encode_event` follows them is said by its own contract. That of written
//! pastes is in [`paste_laws`], and that of what replies say in [`reply_laws`].
#![tactic(auto)]

pub mod paste_laws;
pub mod reply_laws;

ghost use Rattle.termwiz_event_laws.specs.EventLaws.{AttributesReadBack, PositionsReadBack, ReadBack, SchemesReadBack, Whole};

/// What is written for an event is that event alone, and nothing stays buffered. With more to come that is so too, but for seven texts that
/// wait: ESC, ESC ESC, and ESC with `[`, `O`, `P`, `]` or `_`.
pub fn read_back()
    ensures { ReadBack }
{}

/// No event that a reading emits is refused, but for parts of strings and strings that were cut off. So `encode_event` writes it, unless
/// memory is refused, and by `read_back` what it writes is that event.
pub fn whole()
    ensures { Whole }
{}

/// By `Dialect::Extended` a reply to a question for the cursor's position, whose rows and columns count from 1, is that position, whether or not
/// more may come. The private one always is. The other one is so exactly while a question is open, or where its row isn't 1 or its column is above 256. Elsewhere it
/// is F3 with modifiers.
pub fn positions_read_back()
    ensures { PositionsReadBack }
{}

/// By `Dialect::Extended` what a terminal sends of its colours (`schemes`), and its attributes (`attributes`), are each one control sequence,
/// whether or not more may come. Nothing stays buffered.
pub fn replies_read_back()
    ensures schemes { SchemesReadBack }
    ensures attributes { AttributesReadBack }
{}
