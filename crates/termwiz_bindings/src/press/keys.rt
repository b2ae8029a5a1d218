// Which keys make a press, and their main names.
ghost use Rattle.std.specs.Prelude.{◌≡◌};
ghost use Rattle.termwiz_extended_events.specs.ReportedKeys.{entry_at};
ghost use Rattle.termwiz_bindings.specs.MainKeys as rules;

use termwiz_extended_events::reported_keys::functional_key;
use termwiz_extended_events::types::ReportedKey;
use termwiz_keys::types::KeyCode;

// Whether the number is that of a lock or of a modifier key in Kitty's table.
fn is_modifier_number(number: u32) -> bool
    ensures { result ≡ rules.is_modifier_number number }
{
    matches!(number, 57358..=57360 | 57441..=57454)
}

// Whether the key is held to modify another one.
fn is_modifier(key: KeyCode) -> bool
    ensures { result ≡ rules.is_modifier key }
{
    key.is_modifier()
}

// Whether the key makes no press by itself: a modifier or a lock, a mark of a paste, or a number that isn't in Kitty's table.
#[tactic(auto, unfolding(crate::specs::MainKeys::makes_no_press))]
pub(crate) fn makes_no_press(key: ReportedKey) -> bool
    ensures { result ≡ rules.makes_no_press key }
{
    match key {
        ReportedKey::Named(
            KeyCode::Menu
            | KeyCode::LeftMenu
            | KeyCode::RightMenu
            | KeyCode::CapsLock
            | KeyCode::NumLock
            | KeyCode::ScrollLock
            | KeyCode::InternalPasteStart
            | KeyCode::InternalPasteEnd,
        ) => true,
        ReportedKey::Named(key) => is_modifier(key),
        ReportedKey::Functional(number) => {
            is_modifier_number(number) || !matches!(number, 57344..=63743)
        }
    }
}

// Whether the report is of text that comes without a key.
pub(super) fn is_no_key(key: ReportedKey) -> bool
    ensures { result ≡ rules.is_no_key key }
{
    matches!(key, ReportedKey::Functional(0))
}

// A functional key by its name, if it has one.
fn named(key: ReportedKey) -> ReportedKey
    ensures { result ≡ rules.named key }
{
    match key {
        ReportedKey::Functional(number) => functional_key(number),
        ReportedKey::Named(_) => key,
    }
}

// The key of the main block that does or types the same.
#[tactic(auto, unfolding(crate::specs::MainKeys::main_code))]
fn main_code(key: KeyCode) -> KeyCode
    ensures { result ≡ rules.main_code key }
{
    match key {
        KeyCode::ApplicationLeftArrow => KeyCode::LeftArrow,
        KeyCode::ApplicationRightArrow => KeyCode::RightArrow,
        KeyCode::ApplicationUpArrow => KeyCode::UpArrow,
        KeyCode::ApplicationDownArrow => KeyCode::DownArrow,
        KeyCode::KeyPadHome => KeyCode::Home,
        KeyCode::KeyPadEnd => KeyCode::End,
        KeyCode::KeyPadPageUp => KeyCode::PageUp,
        KeyCode::KeyPadPageDown => KeyCode::PageDown,
        KeyCode::Numpad0 => KeyCode::Char('0'),
        KeyCode::Numpad1 => KeyCode::Char('1'),
        KeyCode::Numpad2 => KeyCode::Char('2'),
        KeyCode::Numpad3 => KeyCode::Char('3'),
        KeyCode::Numpad4 => KeyCode::Char('4'),
        KeyCode::Numpad5 => KeyCode::Char('5'),
        KeyCode::Numpad6 => KeyCode::Char('6'),
        KeyCode::Numpad7 => KeyCode::Char('7'),
        KeyCode::Numpad8 => KeyCode::Char('8'),
        KeyCode::Numpad9 => KeyCode::Char('9'),
        KeyCode::Multiply => KeyCode::Char('*'),
        KeyCode::Add => KeyCode::Char('+'),
        KeyCode::Separator => KeyCode::Char(','),
        KeyCode::Subtract => KeyCode::Char('-'),
        KeyCode::Decimal => KeyCode::Char('.'),
        KeyCode::Divide => KeyCode::Char('/'),
        _ => key,
    }
}

// The keys of the keypad that have no name.
const NAMELESS_KEYS: &[(u32, KeyCode)] = &[
    (57414, KeyCode::Enter),
    (57415, KeyCode::Char('=')),
    (57417, KeyCode::LeftArrow),
    (57418, KeyCode::RightArrow),
    (57419, KeyCode::UpArrow),
    (57420, KeyCode::DownArrow),
    (57425, KeyCode::Insert),
    (57426, KeyCode::Delete),
];

// The main key of a number, if the key has no name.
fn nameless_key(number: u32) -> Option<KeyCode>
    ensures { result ≡ entry_at rules.nameless_keys number }
{
    NAMELESS_KEYS
        .iter()
        .find(|row| row.0 == number)
        .map(|row| row.1)
}

// The main key of a key that has its name.
#[tactic(auto, unfolding(crate::specs::MainKeys::main_of_named))]
fn main_of_named(key: ReportedKey) -> ReportedKey
    ensures { result ≡ rules.main_of_named key }
{
    match key {
        ReportedKey::Named(key) => ReportedKey::Named(main_code(key)),
        ReportedKey::Functional(number) => match nameless_key(number) {
            Some(main) => ReportedKey::Named(main),
            None => key,
        },
    }
}

// The main key of a key.
pub(crate) fn main_key(key: ReportedKey) -> ReportedKey
    ensures { result ≡ rules.main_key key }
{
    main_of_named(named(key))
}
