// That C may pass a handle from thread to thread.
use crate::handles::{BindingsHandle, MapHandle, ParserHandle};

// Values of the type may be sent to another thread.
fn may_be_sent<T: Send>() {}

/// A handle may be sent to another thread, with the parser, key map or bindings that it owns, and with the table that parsers share.
pub fn handles_may_be_sent() {
    may_be_sent::<ParserHandle>();
    may_be_sent::<MapHandle>();
    may_be_sent::<BindingsHandle>();
}
