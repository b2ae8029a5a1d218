//! Laws of presses with what a terminal sends for a key, each the contract of a function without effect. They speak of the definitions
//! alone: of what `KeyCode::encode` and `encode_kitty` write, what the extended parser reads, and the press of a key.
#![tactic(auto)]

pub mod encoded_presses;
pub mod kitty_presses;
pub mod sent_presses;
