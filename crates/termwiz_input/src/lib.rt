//! Bytes of a terminal, read as key, mouse and paste events, and keys written as the bytes that a terminal sends.
#![tactic(auto)]

mod completions;
mod errors;
mod front;
mod head;
mod held;
pub mod input;
mod key;
pub mod laws;
mod mouse_report;
mod paste;
mod printable_ascii;
mod sequence_table;
pub mod time;
mod waiting;

pub use termwiz_keymap::{keymap, readbuf};
pub use termwiz_keys::{encode, types};
