//! One name for a key, however its terminal reports it: the press, by which programs look up what a key does.
#![tactic(auto)]

pub mod bindings;
pub mod chord;
pub mod chord_laws;
pub mod laws;
pub mod matcher;
pub mod names;
pub mod numbers;
pub mod press;
