//! The extended parser: bytes of a terminal to events, of the port's and of what terminals send beyond it.
#![tactic(auto)]

mod characters;
mod form;
pub mod input;
mod next_item;
pub mod sink;
mod string;
pub mod time;

pub use termwiz_extended_events::{reply_types, types};
pub use termwiz_extended_grammar::laws;
