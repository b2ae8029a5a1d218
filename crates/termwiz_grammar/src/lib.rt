//! The grammar of a terminal's bytes and the table of sequences, and the laws over them. There is no parser here.
#![tactic(auto)]

pub mod laws;
pub mod waiting;
