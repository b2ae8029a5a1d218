//! What a terminal sends that is no key, pastes, mouse reports and replies, what events are written as, and laws that say that the parsers read
//! it back.
#![tactic(auto)]

pub mod event;
mod key;
pub mod laws;
pub mod mouse;
pub mod paste;
mod reader;
mod report;
mod rows;
