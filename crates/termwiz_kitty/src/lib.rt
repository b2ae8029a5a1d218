//! What a terminal writes for a key under Kitty's keyboard protocol, and laws that say that the extended parser reads it back.
#![tactic(auto)]

pub mod encode;
pub mod key_forms;
pub mod laws;
mod legacy;
mod telling;
