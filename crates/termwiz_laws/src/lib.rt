//! Further laws of the grammar and of keys that read back, each the contract of a function without effect. They speak of the
//! definitions in `termwiz_grammar` alone, and there is no parser here.
#![tactic(auto)]

pub mod broken_bytes;
pub mod completions;
pub mod flushes;
pub mod further_keys;
pub mod key_streams;
pub mod many_reads;
pub mod paste_events;
pub mod plain_texts;
pub mod shared_texts;
pub mod waiting_bounds;
