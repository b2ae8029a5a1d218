//! What a terminal sends: the types of these events, what each sequence means that the port doesn't know, and what the port's events are.
#![tactic(auto)]

mod attributes;
mod base64;
mod colours;
mod event_keys;
mod fields;
mod key_fields;
mod key_reports;
pub mod meanings;
pub mod mouse_reports;
mod numbers;
pub mod port_events;
mod replies;
pub mod reply;
pub mod reply_types;
pub mod reported_keys;
pub mod types;
