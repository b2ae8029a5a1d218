//! What the layers of terminal input share: the modifier keys, what Ctrl makes of a character, the flags of kitty's
//! keyboard protocol, and what a mouse report says.
#![tactic(auto)]

mod control;
mod kitty;
pub mod laws;
mod modifiers;
mod mouse;

pub use crate::control::ctrl_mapping;
pub use crate::kitty::KittyKeyboardFlags;
pub use crate::modifiers::Modifiers;
pub use crate::mouse::{MouseButton, MouseReport, sgr_mouse};
pub use bitflags::Flags;
