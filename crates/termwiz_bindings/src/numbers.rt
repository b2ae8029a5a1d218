//! Keys in numbers, as the C header lists them: those of `KeyCode` from 1 on, and 0 for a key without a name.
ghost use Rattle.std.specs.Prelude.{◌≡◌, ◌↔◌, Some, IfSome, IfNone};
ghost use Rattle.termwiz_keys.specs.declared.types.KeyCode.{KeyCode as Key};
ghost use Rattle.termwiz_extended_events.specs.declared.types.ReportedKey.{ReportedKey as Reported};
ghost use Rattle.termwiz_bindings.specs.Numbers.{Carries, StandFor, StandForReported, bare, key_detail, key_number, reported_detail, reported_number};

use termwiz_extended_events::types::ReportedKey;
use termwiz_keys::types::KeyCode;

/// Every key once, in the order of [`KeyCode`]. A key that carries a character or a number has 0 in its place.
pub const KEYS: &[KeyCode] = &[
    KeyCode::Char('\0'),
    KeyCode::Hyper,
    KeyCode::Super,
    KeyCode::Meta,
    KeyCode::Cancel,
    KeyCode::Backspace,
    KeyCode::Tab,
    KeyCode::Clear,
    KeyCode::Enter,
    KeyCode::Shift,
    KeyCode::Escape,
    KeyCode::LeftShift,
    KeyCode::RightShift,
    KeyCode::Control,
    KeyCode::LeftControl,
    KeyCode::RightControl,
    KeyCode::Alt,
    KeyCode::LeftAlt,
    KeyCode::RightAlt,
    KeyCode::Menu,
    KeyCode::LeftMenu,
    KeyCode::RightMenu,
    KeyCode::Pause,
    KeyCode::CapsLock,
    KeyCode::PageUp,
    KeyCode::PageDown,
    KeyCode::End,
    KeyCode::Home,
    KeyCode::LeftArrow,
    KeyCode::RightArrow,
    KeyCode::UpArrow,
    KeyCode::DownArrow,
    KeyCode::Select,
    KeyCode::Print,
    KeyCode::Execute,
    KeyCode::PrintScreen,
    KeyCode::Insert,
    KeyCode::Delete,
    KeyCode::Help,
    KeyCode::LeftWindows,
    KeyCode::RightWindows,
    KeyCode::Applications,
    KeyCode::Sleep,
    KeyCode::Numpad0,
    KeyCode::Numpad1,
    KeyCode::Numpad2,
    KeyCode::Numpad3,
    KeyCode::Numpad4,
    KeyCode::Numpad5,
    KeyCode::Numpad6,
    KeyCode::Numpad7,
    KeyCode::Numpad8,
    KeyCode::Numpad9,
    KeyCode::Multiply,
    KeyCode::Add,
    KeyCode::Separator,
    KeyCode::Subtract,
    KeyCode::Decimal,
    KeyCode::Divide,
    KeyCode::Function(0),
    KeyCode::NumLock,
    KeyCode::ScrollLock,
    KeyCode::Copy,
    KeyCode::Cut,
    KeyCode::Paste,
    KeyCode::BrowserBack,
    KeyCode::BrowserForward,
    KeyCode::BrowserRefresh,
    KeyCode::BrowserStop,
    KeyCode::BrowserSearch,
    KeyCode::BrowserFavorites,
    KeyCode::BrowserHome,
    KeyCode::VolumeMute,
    KeyCode::VolumeDown,
    KeyCode::VolumeUp,
    KeyCode::MediaNextTrack,
    KeyCode::MediaPrevTrack,
    KeyCode::MediaStop,
    KeyCode::MediaPlayPause,
    KeyCode::ApplicationLeftArrow,
    KeyCode::ApplicationRightArrow,
    KeyCode::ApplicationUpArrow,
    KeyCode::ApplicationDownArrow,
    KeyCode::KeyPadHome,
    KeyCode::KeyPadEnd,
    KeyCode::KeyPadPageUp,
    KeyCode::KeyPadPageDown,
    KeyCode::KeyPadBegin,
    KeyCode::InternalPasteStart,
    KeyCode::InternalPasteEnd,
];

/// What a key carries: the code point of a character, or the number of a function key; 0 for the other keys.
#[tactic(auto, unfolding(crate::specs::Numbers::key_detail))]
#[inline(always)]
pub fn key_detail(key: KeyCode) -> u32
    ensures { result ≡ key_detail key }
{
    match key {
        KeyCode::Char(character) => u32::from(character),
        KeyCode::Function(number) => u32::from(number),
        _ => 0,
    }
}

/// The number of a key.
#[tactic(auto, unfolding(crate::specs::Numbers::key_number))]
pub fn key_number(key: KeyCode) -> u16
    ensures { result ≡ key_number key }
{
    match key {
        KeyCode::Char(_) => 1,
        KeyCode::Hyper => 2,
        KeyCode::Super => 3,
        KeyCode::Meta => 4,
        KeyCode::Cancel => 5,
        KeyCode::Backspace => 6,
        KeyCode::Tab => 7,
        KeyCode::Clear => 8,
        KeyCode::Enter => 9,
        KeyCode::Shift => 10,
        KeyCode::Escape => 11,
        KeyCode::LeftShift => 12,
        KeyCode::RightShift => 13,
        KeyCode::Control => 14,
        KeyCode::LeftControl => 15,
        KeyCode::RightControl => 16,
        KeyCode::Alt => 17,
        KeyCode::LeftAlt => 18,
        KeyCode::RightAlt => 19,
        KeyCode::Menu => 20,
        KeyCode::LeftMenu => 21,
        KeyCode::RightMenu => 22,
        KeyCode::Pause => 23,
        KeyCode::CapsLock => 24,
        KeyCode::PageUp => 25,
        KeyCode::PageDown => 26,
        KeyCode::End => 27,
        KeyCode::Home => 28,
        KeyCode::LeftArrow => 29,
        KeyCode::RightArrow => 30,
        KeyCode::UpArrow => 31,
        KeyCode::DownArrow => 32,
        KeyCode::Select => 33,
        KeyCode::Print => 34,
        KeyCode::Execute => 35,
        KeyCode::PrintScreen => 36,
        KeyCode::Insert => 37,
        KeyCode::Delete => 38,
        KeyCode::Help => 39,
        KeyCode::LeftWindows => 40,
        KeyCode::RightWindows => 41,
        KeyCode::Applications => 42,
        KeyCode::Sleep => 43,
        KeyCode::Numpad0 => 44,
        KeyCode::Numpad1 => 45,
        KeyCode::Numpad2 => 46,
        KeyCode::Numpad3 => 47,
        KeyCode::Numpad4 => 48,
        KeyCode::Numpad5 => 49,
        KeyCode::Numpad6 => 50,
        KeyCode::Numpad7 => 51,
        KeyCode::Numpad8 => 52,
        KeyCode::Numpad9 => 53,
        KeyCode::Multiply => 54,
        KeyCode::Add => 55,
        KeyCode::Separator => 56,
        KeyCode::Subtract => 57,
        KeyCode::Decimal => 58,
        KeyCode::Divide => 59,
        KeyCode::Function(_) => 60,
        KeyCode::NumLock => 61,
        KeyCode::ScrollLock => 62,
        KeyCode::Copy => 63,
        KeyCode::Cut => 64,
        KeyCode::Paste => 65,
        KeyCode::BrowserBack => 66,
        KeyCode::BrowserForward => 67,
        KeyCode::BrowserRefresh => 68,
        KeyCode::BrowserStop => 69,
        KeyCode::BrowserSearch => 70,
        KeyCode::BrowserFavorites => 71,
        KeyCode::BrowserHome => 72,
        KeyCode::VolumeMute => 73,
        KeyCode::VolumeDown => 74,
        KeyCode::VolumeUp => 75,
        KeyCode::MediaNextTrack => 76,
        KeyCode::MediaPrevTrack => 77,
        KeyCode::MediaStop => 78,
        KeyCode::MediaPlayPause => 79,
        KeyCode::ApplicationLeftArrow => 80,
        KeyCode::ApplicationRightArrow => 81,
        KeyCode::ApplicationUpArrow => 82,
        KeyCode::ApplicationDownArrow => 83,
        KeyCode::KeyPadHome => 84,
        KeyCode::KeyPadEnd => 85,
        KeyCode::KeyPadPageUp => 86,
        KeyCode::KeyPadPageDown => 87,
        KeyCode::KeyPadBegin => 88,
        KeyCode::InternalPasteStart => 89,
        KeyCode::InternalPasteEnd => 90,
    }
}

/// The key with this number, with 0 in place of what it carries. `None` if no key has the number.
#[tactic(auto, using(crate::proofs::lemmas::KeyNumbers::number_within))]
pub fn key_at(number: u16) -> Option<KeyCode>
    ensures number { IfSome result (λ key. key_number key ≡ number) }
    ensures every { (key : Key) → key_number key ≡ number → result ≡ Some (bare key) }
{
    match usize::from(number) {
        0 => None,
        place if place <= KEYS.len() => Some(KEYS[place - 1]),
        _ => None,
    }
}

// The key with this detail in place of what it carries. `None` if it can't carry that.
#[tactic(auto, unfolding(crate::specs::Numbers::bare, crate::specs::Numbers::Carries))]
fn with_detail(key: KeyCode, detail: u32) -> Option<KeyCode>
    ensures { (other : Key) → (result ≡ Some other) ↔ ((bare other ≡ bare key) × Carries other detail) }
{
    match key {
        KeyCode::Char(_) => Some(KeyCode::Char(char::from_u32(detail)?)),
        KeyCode::Function(_) => Some(KeyCode::Function(u8::try_from(detail).ok()?)),
        _ => Some(key),
    }
}

/// The key that a number and a detail stand for. `None` if they stand for no key.
pub fn key_of(number: u16, detail: u32) -> Option<KeyCode>
    ensures { (key : Key) → (result ≡ Some key) ↔ StandFor number detail key }
{
    with_detail(key_at(number)?, detail)
}

/// The number of a reported key: 0 if it has no name.
#[tactic(auto, unfolding(crate::specs::Numbers::reported_number))]
pub fn reported_number(key: ReportedKey) -> u16
    ensures { result ≡ reported_number key }
{
    match key {
        ReportedKey::Named(named) => key_number(named),
        ReportedKey::Functional(_) => 0,
    }
}

/// What a reported key carries, or its number in Kitty's table if it has no name.
#[tactic(auto, unfolding(crate::specs::Numbers::reported_detail))]
#[inline(always)]
pub fn reported_detail(key: ReportedKey) -> u32
    ensures { result ≡ reported_detail key }
{
    match key {
        ReportedKey::Named(named) => key_detail(named),
        ReportedKey::Functional(number) => number,
    }
}

/// The reported key that a number and a detail stand for. `None` if they stand for none.
pub fn reported_key(number: u16, detail: u32) -> Option<ReportedKey>
    ensures some { IfSome result (λ key. StandForReported number detail key) }
    ensures only { (key : Reported) → StandForReported number detail key → result ≡ Some key }
    ensures none { IfNone result ((key : Reported) → ¬ StandForReported number detail key) }
{
    if number == 0 {
        return Some(ReportedKey::Functional(detail));
    }
    match key_of(number, detail) {
        Some(key) => Some(ReportedKey::Named(key)),
        None => None,
    }
}
