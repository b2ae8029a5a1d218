//! A map from byte strings to values for a reader of sequences, a buffer of bytes, and searches for bytes.
#![tactic(auto)]

pub mod bytes;
pub mod keymap;
pub mod laws;
pub mod readbuf;
