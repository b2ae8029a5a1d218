// The suffixes of sequences and the keys of the rules, each list once.
use termwiz_base::Modifiers;
use termwiz_keys::types::KeyCode;

// What a sequence may have before its last part, and the modifiers that it stands for.
pub(super) type Suffix = (&'static str, &'static [Modifiers]);

// The seventeen suffixes. The number is 1, and 1 more for Shift, 2 for Alt, 4 for Ctrl and 8 for Meta, which counts as
// Alt.
pub(super) const SUFFIXES: &[Suffix] = &[
    ("", &[]),
    (";1", &[]),
    (";2", &[Modifiers::SHIFT]),
    (";3", &[Modifiers::ALT]),
    (";4", &[Modifiers::ALT, Modifiers::SHIFT]),
    (";5", &[Modifiers::CTRL]),
    (";6", &[Modifiers::CTRL, Modifiers::SHIFT]),
    (";7", &[Modifiers::CTRL, Modifiers::ALT]),
    (";8", &[Modifiers::CTRL, Modifiers::ALT, Modifiers::SHIFT]),
    (";9", &[Modifiers::ALT]),
    (";10", &[Modifiers::ALT, Modifiers::SHIFT]),
    (";11", &[Modifiers::ALT]),
    (";12", &[Modifiers::ALT, Modifiers::SHIFT]),
    (";13", &[Modifiers::ALT, Modifiers::CTRL]),
    (";14", &[Modifiers::ALT, Modifiers::CTRL, Modifiers::SHIFT]),
    (";15", &[Modifiers::ALT, Modifiers::CTRL]),
    (";16", &[Modifiers::ALT, Modifiers::CTRL, Modifiers::SHIFT]),
];

// How many of the suffixes come before `;9`.
pub(super) const BEFORE_NINE: usize = 9;

// The cursor keys, by their letters.
pub(super) const CURSOR_KEYS: &[(&str, KeyCode)] = &[
    ("A", KeyCode::UpArrow),
    ("B", KeyCode::DownArrow),
    ("C", KeyCode::RightArrow),
    ("D", KeyCode::LeftArrow),
    ("H", KeyCode::Home),
    ("F", KeyCode::End),
];

// Home and End, by their letters.
pub(super) const HOME_AND_END: &[(&str, KeyCode)] = &[("H", KeyCode::Home), ("F", KeyCode::End)];

// The arrows, by lower case letters.
pub(super) const SMALL_ARROWS: &[(&str, KeyCode)] = &[
    ("a", KeyCode::UpArrow),
    ("b", KeyCode::DownArrow),
    ("c", KeyCode::RightArrow),
    ("d", KeyCode::LeftArrow),
];

// The arrows in application cursor mode, by their letters.
pub(super) const APPLICATION_ARROWS: &[(&str, KeyCode)] = &[
    ("A", KeyCode::ApplicationUpArrow),
    ("B", KeyCode::ApplicationDownArrow),
    ("C", KeyCode::ApplicationRightArrow),
    ("D", KeyCode::ApplicationLeftArrow),
];

// F1 to F4, by their letters.
pub(super) const FIRST_FUNCTIONS: &[(&str, KeyCode)] = &[
    ("P", KeyCode::Function(1)),
    ("Q", KeyCode::Function(2)),
    ("R", KeyCode::Function(3)),
    ("S", KeyCode::Function(4)),
];

// The keys of the editing block, by their digits.
pub(super) const DIGIT_KEYS: &[(u8, KeyCode)] = &[
    (2, KeyCode::Insert),
    (3, KeyCode::Delete),
    (1, KeyCode::Home),
    (7, KeyCode::Home),
    (4, KeyCode::End),
    (8, KeyCode::End),
    (5, KeyCode::PageUp),
    (6, KeyCode::PageDown),
];

// Those that a suffix may modify.
pub(super) const MODIFIED_DIGIT_KEYS: &[(u8, KeyCode)] = &[
    (2, KeyCode::Insert),
    (3, KeyCode::Delete),
    (5, KeyCode::PageUp),
    (6, KeyCode::PageDown),
];

// What comes after a digit of `DIGIT_KEYS`, and the modifiers that it stands for.
pub(super) const DIGIT_ENDS: &[Suffix] = &[
    ("~", &[]),
    ("$", &[Modifiers::SHIFT]),
    ("^", &[Modifiers::CTRL]),
    ("@", &[Modifiers::SHIFT, Modifiers::CTRL]),
];
