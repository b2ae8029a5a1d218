//! Laws of pastes: what comes between START and END is one event.
ghost use Rattle.termwiz_laws.specs.PasteEvents.{FreeOfEnd, PasteAfterEscape, PasteAfterHeldEscape, PasteAfterNothing, PasteAlone, PasteInOpenPaste, PasteInStream};

/// START, a text b and END mean one `Paste` of b under either flag, and nothing is left (`alone`). END must occur in b followed by
/// END only at its end. All else may occur in b: other sequences, START, and bytes that are no UTF-8.
///
/// One ESC before START is the Escape key, without modifiers (`after_escape`). In a stream (`in_stream`) the text before START means
/// what it means with a flush, if that leaves nothing buffered, and the text after END means what it means alone. So no byte of a
/// paste becomes a key. In particular the text before may leave nothing buffered with more to come (`after_nothing`), or ESC
/// (`after_held_escape`). If the flush leaves an open paste, START is text of that paste (`in_open_paste`).
pub fn paste_is_one_event()
    ensures alone { PasteAlone }
    ensures after_escape { PasteAfterEscape }
    ensures in_stream { PasteInStream }
    ensures in_open_paste { PasteInOpenPaste }
    ensures after_nothing { PasteAfterNothing }
    ensures after_held_escape { PasteAfterHeldEscape }
{}

/// END occurs in b followed by END only at its end exactly if END doesn't occur in b.
pub fn free_of_end()
    ensures { FreeOfEnd }
{}
