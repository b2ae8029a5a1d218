// The words that name keys and modifiers.
ghost use Rattle.std.specs.Prelude.{◌≡◌, find, map};
ghost use Rattle.std.specs.Str.{str_eq_ignore_ascii_case};
ghost use Rattle.termwiz_bindings.specs.Words as rules;

use crate::press::{ALT, CTRL, HYPER, META, SHIFT, SUPER};
use termwiz_keys::types::KeyCode;

// Whether the two are the same word, in any case.
pub(super) fn is_same_word(word: &[u8], name: &[u8]) -> bool
    ensures { result ≡ str_eq_ignore_ascii_case word.now name.now }
{
    word.eq_ignore_ascii_case(name)
}

// The word that is printed for a key.
#[tactic(auto, unfolding(crate::specs::Words::printed_word))]
pub(super) fn printed_word(key: KeyCode) -> &'static str
    ensures { result.now ≡ rules.printed_word key }
{
    match key {
        KeyCode::Char(_) => "char",
        KeyCode::Hyper => "hyper",
        KeyCode::Super => "super",
        KeyCode::Meta => "meta",
        KeyCode::Cancel => "cancel",
        KeyCode::Backspace => "backspace",
        KeyCode::Tab => "tab",
        KeyCode::Clear => "clear",
        KeyCode::Enter => "enter",
        KeyCode::Shift => "shift",
        KeyCode::Escape => "escape",
        KeyCode::LeftShift => "leftshift",
        KeyCode::RightShift => "rightshift",
        KeyCode::Control => "control",
        KeyCode::LeftControl => "leftcontrol",
        KeyCode::RightControl => "rightcontrol",
        KeyCode::Alt => "alt",
        KeyCode::LeftAlt => "leftalt",
        KeyCode::RightAlt => "rightalt",
        KeyCode::Menu => "menu",
        KeyCode::LeftMenu => "leftmenu",
        KeyCode::RightMenu => "rightmenu",
        KeyCode::Pause => "pause",
        KeyCode::CapsLock => "capslock",
        KeyCode::PageUp => "pageup",
        KeyCode::PageDown => "pagedown",
        KeyCode::End => "end",
        KeyCode::Home => "home",
        KeyCode::LeftArrow => "left",
        KeyCode::RightArrow => "right",
        KeyCode::UpArrow => "up",
        KeyCode::DownArrow => "down",
        KeyCode::Select => "select",
        KeyCode::Print => "print",
        KeyCode::Execute => "execute",
        KeyCode::PrintScreen => "printscreen",
        KeyCode::Insert => "insert",
        KeyCode::Delete => "delete",
        KeyCode::Help => "help",
        KeyCode::LeftWindows => "leftwindows",
        KeyCode::RightWindows => "rightwindows",
        KeyCode::Applications => "menu",
        KeyCode::Sleep => "sleep",
        KeyCode::Numpad0 => "numpad0",
        KeyCode::Numpad1 => "numpad1",
        KeyCode::Numpad2 => "numpad2",
        KeyCode::Numpad3 => "numpad3",
        KeyCode::Numpad4 => "numpad4",
        KeyCode::Numpad5 => "numpad5",
        KeyCode::Numpad6 => "numpad6",
        KeyCode::Numpad7 => "numpad7",
        KeyCode::Numpad8 => "numpad8",
        KeyCode::Numpad9 => "numpad9",
        KeyCode::Multiply => "multiply",
        KeyCode::Add => "add",
        KeyCode::Separator => "separator",
        KeyCode::Subtract => "subtract",
        KeyCode::Decimal => "decimal",
        KeyCode::Divide => "divide",
        KeyCode::Function(_) => "function",
        KeyCode::NumLock => "numlock",
        KeyCode::ScrollLock => "scrolllock",
        KeyCode::Copy => "copy",
        KeyCode::Cut => "cut",
        KeyCode::Paste => "paste",
        KeyCode::BrowserBack => "browserback",
        KeyCode::BrowserForward => "browserforward",
        KeyCode::BrowserRefresh => "browserrefresh",
        KeyCode::BrowserStop => "browserstop",
        KeyCode::BrowserSearch => "browsersearch",
        KeyCode::BrowserFavorites => "browserfavorites",
        KeyCode::BrowserHome => "browserhome",
        KeyCode::VolumeMute => "volumemute",
        KeyCode::VolumeDown => "volumedown",
        KeyCode::VolumeUp => "volumeup",
        KeyCode::MediaNextTrack => "medianexttrack",
        KeyCode::MediaPrevTrack => "mediaprevtrack",
        KeyCode::MediaStop => "mediastop",
        KeyCode::MediaPlayPause => "mediaplaypause",
        KeyCode::ApplicationLeftArrow => "applicationleftarrow",
        KeyCode::ApplicationRightArrow => "applicationrightarrow",
        KeyCode::ApplicationUpArrow => "applicationuparrow",
        KeyCode::ApplicationDownArrow => "applicationdownarrow",
        KeyCode::KeyPadHome => "keypadhome",
        KeyCode::KeyPadEnd => "keypadend",
        KeyCode::KeyPadPageUp => "keypadpageup",
        KeyCode::KeyPadPageDown => "keypadpagedown",
        KeyCode::KeyPadBegin => "begin",
        KeyCode::InternalPasteStart => "internalpastestart",
        KeyCode::InternalPasteEnd => "internalpasteend",
    }
}

// The keys that have a word of their own.
const WORDED_KEYS: &[KeyCode] = &[
    KeyCode::Hyper,
    KeyCode::Super,
    KeyCode::Meta,
    KeyCode::Cancel,
    KeyCode::Backspace,
    KeyCode::Tab,
    KeyCode::Clear,
    KeyCode::Enter,
    KeyCode::Shift,
    KeyCode::Escape,
    KeyCode::LeftShift,
    KeyCode::RightShift,
    KeyCode::Control,
    KeyCode::LeftControl,
    KeyCode::RightControl,
    KeyCode::Alt,
    KeyCode::LeftAlt,
    KeyCode::RightAlt,
    KeyCode::LeftMenu,
    KeyCode::RightMenu,
    KeyCode::Pause,
    KeyCode::CapsLock,
    KeyCode::PageUp,
    KeyCode::PageDown,
    KeyCode::End,
    KeyCode::Home,
    KeyCode::LeftArrow,
    KeyCode::RightArrow,
    KeyCode::UpArrow,
    KeyCode::DownArrow,
    KeyCode::Select,
    KeyCode::Print,
    KeyCode::Execute,
    KeyCode::PrintScreen,
    KeyCode::Insert,
    KeyCode::Delete,
    KeyCode::Help,
    KeyCode::LeftWindows,
    KeyCode::RightWindows,
    KeyCode::Applications,
    KeyCode::Sleep,
    KeyCode::Numpad0,
    KeyCode::Numpad1,
    KeyCode::Numpad2,
    KeyCode::Numpad3,
    KeyCode::Numpad4,
    KeyCode::Numpad5,
    KeyCode::Numpad6,
    KeyCode::Numpad7,
    KeyCode::Numpad8,
    KeyCode::Numpad9,
    KeyCode::Multiply,
    KeyCode::Add,
    KeyCode::Separator,
    KeyCode::Subtract,
    KeyCode::Decimal,
    KeyCode::Divide,
    KeyCode::NumLock,
    KeyCode::ScrollLock,
    KeyCode::Copy,
    KeyCode::Cut,
    KeyCode::Paste,
    KeyCode::BrowserBack,
    KeyCode::BrowserForward,
    KeyCode::BrowserRefresh,
    KeyCode::BrowserStop,
    KeyCode::BrowserSearch,
    KeyCode::BrowserFavorites,
    KeyCode::BrowserHome,
    KeyCode::VolumeMute,
    KeyCode::VolumeDown,
    KeyCode::VolumeUp,
    KeyCode::MediaNextTrack,
    KeyCode::MediaPrevTrack,
    KeyCode::MediaStop,
    KeyCode::MediaPlayPause,
    KeyCode::ApplicationLeftArrow,
    KeyCode::ApplicationRightArrow,
    KeyCode::ApplicationUpArrow,
    KeyCode::ApplicationDownArrow,
    KeyCode::KeyPadHome,
    KeyCode::KeyPadEnd,
    KeyCode::KeyPadPageUp,
    KeyCode::KeyPadPageDown,
    KeyCode::KeyPadBegin,
    KeyCode::InternalPasteStart,
    KeyCode::InternalPasteEnd,
];

// The other words for keys, and those of modifiers, which are no keys to bind.
const OTHER_WORDS: &[(&str, KeyCode)] = &[
    ("space", KeyCode::Char(' ')),
    ("spc", KeyCode::Char(' ')),
    ("esc", KeyCode::Escape),
    ("return", KeyCode::Enter),
    ("ret", KeyCode::Enter),
    ("cr", KeyCode::Enter),
    ("kpenter", KeyCode::Enter),
    ("del", KeyCode::Delete),
    ("ins", KeyCode::Insert),
    ("bs", KeyCode::Backspace),
    ("pgup", KeyCode::PageUp),
    ("prior", KeyCode::PageUp),
    ("pgdn", KeyCode::PageDown),
    ("next", KeyCode::PageDown),
    ("plus", KeyCode::Char('+')),
    ("minus", KeyCode::Char('-')),
    ("comma", KeyCode::Char(',')),
    ("less", KeyCode::Char('<')),
    ("lt", KeyCode::Char('<')),
    ("greater", KeyCode::Char('>')),
    ("gt", KeyCode::Char('>')),
    ("bar", KeyCode::Char('|')),
    ("bslash", KeyCode::Char('\\')),
    ("kpequal", KeyCode::Char('=')),
    ("uparrow", KeyCode::UpArrow),
    ("downarrow", KeyCode::DownArrow),
    ("leftarrow", KeyCode::LeftArrow),
    ("rightarrow", KeyCode::RightArrow),
    ("keypadbegin", KeyCode::KeyPadBegin),
    ("applications", KeyCode::Applications),
    ("ctrl", KeyCode::Control),
    ("option", KeyCode::Alt),
    ("cmd", KeyCode::Super),
    ("win", KeyCode::LeftWindows),
];

// The first of these keys that has this word.
fn first_worded(keys: &[KeyCode], name: &[u8]) -> Option<KeyCode>
    ensures { result ≡ find (λ key. str_eq_ignore_ascii_case (rules.printed_word key) name.now) keys.now }
{
    keys.iter()
        .copied()
        .find(|key| is_same_word(printed_word(*key).as_bytes(), name))
}

// What a table has at a word.
fn entry_at_word<V: Copy>(mut table: &[(&str, V)], name: &[u8]) -> Option<V>
    ensures { result ≡ rules.entry_at_word (map (λ row. (row.0.now, row.1)) table.entry.now) name.now }
{
    while let [row, rest @ ..] = table {
        if is_same_word(row.0.as_bytes(), name) {
            return Some(row.1);
        }
        table = rest;
    }
    None
}

// The key of a word.
pub(super) fn key_of_word(name: &[u8]) -> Option<KeyCode>
    ensures { result ≡ rules.key_of_word name.now }
{
    first_worded(WORDED_KEYS, name).or(entry_at_word(OTHER_WORDS, name))
}

// The words of the modifiers.
const MODIFIER_WORDS: &[(&str, u8)] = &[
    ("ctrl", CTRL),
    ("control", CTRL),
    ("alt", ALT),
    ("option", ALT),
    ("shift", SHIFT),
    ("super", SUPER),
    ("cmd", SUPER),
    ("win", SUPER),
    ("hyper", HYPER),
    ("meta", META),
];

// The modifier of a word.
pub(super) fn modifier_of_word(word: &[u8]) -> Option<u8>
    ensures { result ≡ rules.modifier_of_word word.now }
{
    entry_at_word(MODIFIER_WORDS, word)
}
