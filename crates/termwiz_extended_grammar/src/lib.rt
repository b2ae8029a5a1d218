//! The grammar of the extended parser, and the laws over it. There is no parser here.
#![tactic(auto)]

pub mod laws;
pub mod waiting;
