//! Keys, mouse reports and pastes as events, and keys written as the bytes that a terminal sends.
#![tactic(auto)]

pub mod encode;
pub mod function_codes;
pub mod laws;
pub mod types;
