//! The law of written replies, the contract of a function without effect.
ghost use Rattle.termwiz_event_laws.specs.ReplyLaws.{AttributesUnderstood, PositionsUnderstood, SchemesUnderstood, SomeAttributes};

/// By `Dialect::Extended` a reply that is written says what was replied, whether or not more may come. Device attributes say their numbers, and
/// nothing without a number (`attributes`): ESC `[?62;22c` says 62 and 22 (`some`). A report of the colours says whether they are dark (`schemes`).
/// A position is its row and its column (`positions`): the private one always, and the other one while a question is open, or where it isn't
/// F3 with modifiers.
pub fn replies_understood()
    ensures attributes { AttributesUnderstood }
    ensures some { SomeAttributes }
    ensures schemes { SchemesUnderstood }
    ensures positions { PositionsUnderstood }
{}
