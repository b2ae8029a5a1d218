//! The law of a written paste in a run of a timed parser, the contract of a function without effect.
ghost use Rattle.termwiz_event_laws.specs.PasteRuns.{FollowedPasteIsInert, SomePasteComes, WrittenPasteIsInert};

/// No byte of a text that `encode_paste` wrote in brackets ever is a key, once START came whole. In a run of a timed parser nothing is told from
/// then on but parts of the paste, and then the paste. If nothing follows it, nothing more is told, and nothing stays buffered (`inert`). It isn't
/// told before its last byte came, and it is once all is told after that. Whatever follows, what is buffered after the paste is what came behind
/// its last byte (`followed`). The law supposes what `paste_is_inert` does. The policy has no limit for pastes, and no second passes without a
/// byte once the parser was interrupted; an end and a reset are excepted. A run of which it speaks is given (`some`).
pub fn written_paste_is_inert()
    ensures inert { WrittenPasteIsInert }
    ensures followed { FollowedPasteIsInert }
    ensures some { SomePasteComes }
{}
