// What keys send before Kitty's keyboard protocol, by the page's tables of legacy keys. The modifiers are Kitty's bits without those of the
// locks.
ghost use Rattle.std.specs.Prelude.{◌≡◌, ◌==◌, None, if◌then◌else◌};
ghost use Rattle.termwiz_extended_events.specs.ReportedKeys.{entry_at};
ghost use Rattle.termwiz_kitty.specs.LegacyTexts as texts;

use termwiz_extended_events::types::ReportedKey;
use termwiz_keys::types::KeyCode;

// What a key sends that isn't its report.
#[derive(Clone, Copy, PartialEq, Eq, Debug)]
pub(crate) enum LegacyText {
    // A character.
    Alone(char),
    // ESC and a character.
    AfterEscape(char),
    // CSI Z.
    BackTab,
    // ESC and CSI Z.
    EscapeAndBackTab,
    // SS3 and the letter of a function key.
    FunctionLetter(char),
    // CSI 29 ~, with these modifiers.
    Menu(u8),
}

// Kitty's bits of Shift, Alt and Ctrl.
const NONE: u8 = 0;

const SHIFT: u8 = 1;

const ALT: u8 = 2;

const CTRL: u8 = 4;

const SHIFT_ALT: u8 = SHIFT + ALT;

const SHIFT_CTRL: u8 = SHIFT + CTRL;

const CTRL_ALT: u8 = CTRL + ALT;

// The keys of C0 controls, by their modifiers.
const ENTER_TEXTS: &[(u8, LegacyText)] = &[
    (NONE, LegacyText::Alone('\r')),
    (CTRL, LegacyText::Alone('\r')),
    (ALT, LegacyText::AfterEscape('\r')),
    (SHIFT, LegacyText::Alone('\r')),
    (SHIFT_CTRL, LegacyText::Alone('\r')),
    (SHIFT_ALT, LegacyText::AfterEscape('\r')),
    (CTRL_ALT, LegacyText::AfterEscape('\r')),
];

const ESCAPE_TEXTS: &[(u8, LegacyText)] = &[
    (NONE, LegacyText::Alone('\x1b')),
    (CTRL, LegacyText::Alone('\x1b')),
    (ALT, LegacyText::AfterEscape('\x1b')),
    (SHIFT, LegacyText::Alone('\x1b')),
    (SHIFT_CTRL, LegacyText::Alone('\x1b')),
    (SHIFT_ALT, LegacyText::AfterEscape('\x1b')),
    (CTRL_ALT, LegacyText::AfterEscape('\x1b')),
];

const BACKSPACE_TEXTS: &[(u8, LegacyText)] = &[
    (NONE, LegacyText::Alone('\x7f')),
    (CTRL, LegacyText::Alone('\x08')),
    (ALT, LegacyText::AfterEscape('\x7f')),
    (SHIFT, LegacyText::Alone('\x7f')),
    (SHIFT_CTRL, LegacyText::Alone('\x08')),
    (SHIFT_ALT, LegacyText::AfterEscape('\x7f')),
    (CTRL_ALT, LegacyText::AfterEscape('\x08')),
];

const TAB_TEXTS: &[(u8, LegacyText)] = &[
    (NONE, LegacyText::Alone('\t')),
    (CTRL, LegacyText::Alone('\t')),
    (ALT, LegacyText::AfterEscape('\t')),
    (SHIFT, LegacyText::BackTab),
    (SHIFT_CTRL, LegacyText::BackTab),
    (SHIFT_ALT, LegacyText::EscapeAndBackTab),
    (CTRL_ALT, LegacyText::AfterEscape('\t')),
];

const SPACE_TEXTS: &[(u8, LegacyText)] = &[
    (NONE, LegacyText::Alone(' ')),
    (CTRL, LegacyText::Alone('\0')),
    (ALT, LegacyText::AfterEscape(' ')),
    (SHIFT, LegacyText::Alone(' ')),
    (SHIFT_CTRL, LegacyText::Alone('\0')),
    (SHIFT_ALT, LegacyText::AfterEscape(' ')),
    (CTRL_ALT, LegacyText::AfterEscape('\0')),
];

// What Ctrl makes of a character, by the page's table.
const CTRL_MAPPING: &[(char, char)] = &[
    (' ', '\0'),
    ('/', '\x1f'),
    ('2', '\0'),
    ('3', '\x1b'),
    ('4', '\x1c'),
    ('5', '\x1d'),
    ('6', '\x1e'),
    ('7', '\x1f'),
    ('8', '\x7f'),
    ('?', '\x7f'),
    ('@', '\0'),
    ('[', '\x1b'),
    ('\\', '\x1c'),
    (']', '\x1d'),
    ('^', '\x1e'),
    ('_', '\x1f'),
    ('a', '\x01'),
    ('b', '\x02'),
    ('c', '\x03'),
    ('d', '\x04'),
    ('e', '\x05'),
    ('f', '\x06'),
    ('g', '\x07'),
    ('h', '\x08'),
    ('i', '\x09'),
    ('j', '\x0a'),
    ('k', '\x0b'),
    ('l', '\x0c'),
    ('m', '\x0d'),
    ('n', '\x0e'),
    ('o', '\x0f'),
    ('p', '\x10'),
    ('q', '\x11'),
    ('r', '\x12'),
    ('s', '\x13'),
    ('t', '\x14'),
    ('u', '\x15'),
    ('v', '\x16'),
    ('w', '\x17'),
    ('x', '\x18'),
    ('y', '\x19'),
    ('z', '\x1a'),
    ('~', '\x1e'),
];

// The letters of the function keys that have no modifiers.
const FUNCTION_LETTERS: &[(u8, LegacyText)] = &[
    (1, LegacyText::FunctionLetter('P')),
    (2, LegacyText::FunctionLetter('Q')),
    (3, LegacyText::FunctionLetter('R')),
    (4, LegacyText::FunctionLetter('S')),
];

// Kitty's number of Applications, the Menu key.
const MENU_NUMBER: u32 = 57363;

// What a table has at a number.
fn entry_of(table: &[(u8, LegacyText)], number: u8) -> Option<LegacyText>
    ensures { result ≡ entry_at table.now number }
{
    table.iter().find(|row| row.0 == number).map(|row| row.1)
}

// What Ctrl makes of a character.
fn ctrl_mapped(c: char) -> char
    ensures { result ≡ texts.ctrl_mapped c }
{
    CTRL_MAPPING
        .iter()
        .find(|row| row.0 == c)
        .map(|row| row.1)
        .unwrap_or(c)
}

// The character, unless it is a control character.
fn without_control(c: Option<char>) -> Option<char>
    ensures { result ≡ texts.without_control c }
{
    c.filter(|c| !c.is_control())
}

// The capital letter of a to z.
fn capital(c: char) -> Option<char>
    ensures { result ≡ texts.capital c }
{
    if c.is_ascii_lowercase() {
        Some(c.to_ascii_uppercase())
    } else {
        None
    }
}

// What a key types with Shift, where that is known.
pub(crate) fn with_shift(c: char, shifted: Option<char>) -> Option<char>
    ensures { result ≡ texts.with_shift c shifted }
{
    without_control(shifted).or(capital(c))
}

// The text of a text key.
fn text_key_text(c: char, held: u8, shifted: Option<char>) -> Option<LegacyText>
    ensures { result ≡ texts.text_key_text c held shifted }
{
    match held {
        ALT => Some(LegacyText::AfterEscape(c)),
        CTRL => Some(LegacyText::Alone(ctrl_mapped(c))),
        CTRL_ALT => Some(LegacyText::AfterEscape(ctrl_mapped(c))),
        SHIFT_ALT => with_shift(c, shifted).map(LegacyText::AfterEscape),
        _ => None,
    }
}

// The text of a character's key: only printable ASCII but A to Z has one.
fn character_text(c: char, held: u8, shifted: Option<char>) -> Option<LegacyText>
    ensures { result ≡ texts.character_text c held shifted }
{
    match c {
        ' ' => entry_of(SPACE_TEXTS, held),
        '!'..='@' | '['..='~' => text_key_text(c, held, shifted),
        _ => None,
    }
}

// The text of a function key.
fn function_text(number: u8, held: u8) -> Option<LegacyText>
    ensures { result ≡ (if held == NONE then entry_at texts.function_letters number else None) }
{
    if held == NONE {
        entry_of(FUNCTION_LETTERS, number)
    } else {
        None
    }
}

// What a key sends before the protocol that isn't its report.
#[tactic(auto, unfolding(crate::specs::LegacyTexts::legacy_text))]
pub(crate) fn legacy_text(key: ReportedKey, held: u8, shifted: Option<char>) -> Option<LegacyText>
    ensures { result ≡ texts.legacy_text key held shifted }
{
    let key = match key {
        ReportedKey::Named(key) => key,
        ReportedKey::Functional(MENU_NUMBER) => KeyCode::Applications,
        ReportedKey::Functional(_) => return None,
    };
    match key {
        KeyCode::Char(c) => character_text(c, held, shifted),
        KeyCode::Enter => entry_of(ENTER_TEXTS, held),
        KeyCode::Escape => entry_of(ESCAPE_TEXTS, held),
        KeyCode::Backspace => entry_of(BACKSPACE_TEXTS, held),
        KeyCode::Tab => entry_of(TAB_TEXTS, held),
        KeyCode::Function(number) => function_text(number, held),
        KeyCode::Applications => Some(LegacyText::Menu(held)),
        _ => None,
    }
}
