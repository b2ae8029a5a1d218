// Letters that have capitals, and the signs that a keyboard types with Shift.
ghost use Rattle.std.specs.Prelude.{◌≡◌, ◌+◌, ◌<◌, ◌^◌};
ghost use Rattle.termwiz_extended_events.specs.ReportedKeys.{entry_at};
ghost use Rattle.termwiz_bindings.specs.Letters as rules;

// How far before a letter its capital stands, and before some Cyrillic ones.
const NEAR: u32 = 32;

const FAR: u32 = 80;

// Letters whose capitals stand near before them: Latin, Greek and Cyrillic ones.
const NEAR_LETTERS: &[(u32, u32)] = &[
    (0x61, 0x7a),
    (0xe0, 0xf6),
    (0xf8, 0xfe),
    (0x3b1, 0x3c1),
    (0x3c3, 0x3cb),
    (0x430, 0x44f),
];

// Whether the number is that of such a letter.
#[tactic(auto, unfolding(crate::specs::Letters::has_near_capital))]
fn has_near_capital(number: u32) -> bool
    ensures { result ≡ rules.has_near_capital number }
{
    NEAR_LETTERS
        .iter()
        .any(|range| range.0 <= number && number <= range.1)
}

// Whether the number is that of a letter whose capital stands far before it.
#[tactic(auto, unfolding(crate::specs::Letters::has_far_capital))]
fn has_far_capital(number: u32) -> bool
    ensures { result ≡ rules.has_far_capital number }
{
    matches!(number, 0x450..=0x45f)
}

// The capital of a letter that has one.
#[tactic(auto, unfolding(crate::specs::Letters::capital_of))]
fn capital_of(c: char) -> Option<char>
    ensures { result ≡ rules.capital_of c }
{
    let number = u32::from(c);
    if has_near_capital(number) {
        char::from_u32(number - NEAR)
    } else if has_far_capital(number) {
        char::from_u32(number - FAR)
    } else {
        None
    }
}

// The letter of a capital.
#[tactic(auto, unfolding(crate::specs::Letters::letter_of))]
pub(super) fn letter_of(c: char) -> Option<char>
    ensures { result ≡ rules.letter_of c }
{
    let number = u32::from(c);
    if has_near_capital(number + NEAR) {
        char::from_u32(number + NEAR)
    } else if has_far_capital(number + FAR) {
        char::from_u32(number + FAR)
    } else {
        None
    }
}

// What the keys of a PC-101 keyboard type with Shift, but for the letters.
const STANDARD_SHIFTED: &[(u32, char)] = &[
    (39, '"'),
    (44, '<'),
    (45, '_'),
    (46, '>'),
    (47, '?'),
    (48, ')'),
    (49, '!'),
    (50, '@'),
    (51, '#'),
    (52, '$'),
    (53, '%'),
    (54, '^'),
    (55, '&'),
    (56, '*'),
    (57, '('),
    (59, ':'),
    (61, '+'),
    (91, '{'),
    (92, '|'),
    (93, '}'),
    (96, '~'),
];

// What the key of a PC-101 keyboard that types this character types with Shift, if it isn't a letter.
pub(super) fn standard_shifted(c: char) -> Option<char>
    ensures { result ≡ entry_at rules.standard_shifted c }
{
    let number = u32::from(c);
    STANDARD_SHIFTED
        .iter()
        .find(|row| row.0 == number)
        .map(|row| row.1)
}

// Whether the character is one of the signs of that table.
#[tactic(auto, unfolding(crate::specs::Letters::is_shifted_sign))]
pub(crate) fn is_shifted_sign(c: char) -> bool
    ensures { result ≡ rules.is_shifted_sign c }
{
    STANDARD_SHIFTED.iter().any(|row| row.1 == c)
}

// Whether the character shows Shift by itself: a capital, or such a sign.
fn is_shifted(c: char) -> bool
    ensures { result ≡ rules.is_shifted c }
{
    letter_of(c).is_some() || is_shifted_sign(c)
}

// What a character is with Shift on every keyboard. Of most characters only the keyboard knows.
#[tactic(auto, unfolding(crate::specs::Letters::shown_with_shift))]
pub(super) fn shown_with_shift(c: char) -> Option<char>
    ensures { result ≡ rules.shown_with_shift c }
{
    if is_shifted(c) {
        Some(c)
    } else {
        capital_of(c)
    }
}
