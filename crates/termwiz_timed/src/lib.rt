//! The parser with a clock: it is told what bytes came and when, and tells their events.
#![tactic(auto)]

pub mod ages;
pub mod laws;
pub mod parser;
pub mod sink;

pub use termwiz_input_extended::types;
