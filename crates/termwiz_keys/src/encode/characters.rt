// Keys that send a character: the characters, and Backspace, Enter, Escape and Tab, which send control characters.

ghost use Rattle.std.specs.Prelude.{◌≡◌, ◌++◌, ◌&&◌, ◌||◌, OnOk, encode_utf8, string_bytes};
ghost use Rattle.std.specs.Char.{is_ascii_uppercase, is_ascii_alphanumeric, is_ascii_punctuation};
ghost use Rattle.termwiz_keys.specs.Encoding.{other_text, char_text, plain_char_text, backspace_text, enter_text, escape_text, tab_text, tab_alone, escape_if_alt, is_csi_u, is_level, sends_code, is_ambiguous};

use super::sequences::modifier_number;
use super::{CSI, KeyCodeEncodeModes, KeyboardEncoding};
use std::alloc::AllocError;
use std::fmt::Write;
use termwiz_base::{Flags, Modifiers, ctrl_mapping};

// Appends ESC, if Alt is held.
fn push_escape_if_alt(text: &mut String, mods: Modifiers) -> Result<(), AllocError>
    ensures { OnOk result (string_bytes text.new ≡ string_bytes text.old ++ escape_if_alt mods.0) }
{
    if mods.contains(Modifiers::ALT) {
        return text.push('\x1b');
    }
    Ok(())
}

// Appends a character, with ESC before it if Alt is held.
fn push_with_alt(text: &mut String, c: char, mods: Modifiers) -> Result<(), AllocError>
    ensures { OnOk result (string_bytes text.new ≡ string_bytes text.old ++ (escape_if_alt mods.0 ++ encode_utf8 c)) }
{
    push_escape_if_alt(text, mods)?;
    text.push(c)
}

// Whether characters are sent in the form of CSI u.
fn is_csi_u(modes: KeyCodeEncodeModes) -> bool
    ensures { result ≡ is_csi_u modes.encoding }
{
    matches!(modes.encoding, KeyboardEncoding::CsiU)
}

// Whether modifyOtherKeys sends a character by its code. At level 1 it leaves `c` and `d`, ESC, DEL and BS alone.
fn sends_code(c: char, modes: KeyCodeEncodeModes) -> bool
    ensures { result ≡ sends_code modes.modify_other_keys c }
{
    match modes.modify_other_keys {
        None => false,
        Some(1) => !matches!(c, 'c' | 'd' | '\x1b' | '\x7f' | '\x08'),
        Some(_) => true,
    }
}

// Appends the text of a character that the rules of its key leave open.
#[tactic(auto, unfolding(crate::specs::Encoding::other_text))]
pub(super) fn push_other(
    text: &mut String,
    c: char,
    mods: Modifiers,
    modes: KeyCodeEncodeModes,
) -> Result<(), AllocError>
    ensures { OnOk result (string_bytes text.new ≡ string_bytes text.old ++ other_text c mods.0 modes) }
{
    let code = c as u32;
    let number = modifier_number(mods);
    if is_csi_u(modes) && code < 0x80 {
        return write!(text, "{CSI}{code};{number}u");
    }
    if sends_code(c, modes) {
        return write!(text, "{CSI}27;{number};{code}~");
    }
    let sent = if mods.contains(Modifiers::CTRL) {
        ctrl_mapping(c).unwrap_or(c)
    } else {
        c
    };
    push_with_alt(text, sent, mods)
}

// Whether a character with Ctrl is sent by the rules for other characters, and not as its control character.
fn is_other_with_ctrl(c: char, modes: KeyCodeEncodeModes) -> bool
    ensures { result ≡ ((is_csi_u modes.encoding && is_ambiguous c)
        || is_ascii_uppercase c
        || is_level modes.modify_other_keys 2) }
{
    (is_csi_u(modes) && matches!(c, 'i' | 'I' | 'm' | 'M' | '[' | '{' | '@'))
        || c.is_ascii_uppercase()
        || matches!(modes.modify_other_keys, Some(2))
}

// Appends the text of a character.
#[tactic(auto, unfolding(crate::specs::Encoding::char_text))]
pub(super) fn push_char(
    text: &mut String,
    c: char,
    mods: Modifiers,
    modes: KeyCodeEncodeModes,
) -> Result<(), AllocError>
    ensures { OnOk result (string_bytes text.new ≡ string_bytes text.old ++ char_text c mods.0 modes) }
{
    if mods.contains(Modifiers::CTRL) {
        if is_other_with_ctrl(c, modes) {
            return push_other(text, c, mods, modes);
        }
        if let Some(control) = ctrl_mapping(c) {
            return push_with_alt(text, control, mods);
        }
    }
    push_plain_char(text, c, mods, modes)
}

// Appends the text of a character that Ctrl doesn't change.
#[tactic(auto, unfolding(crate::specs::Encoding::plain_char_text))]
fn push_plain_char(
    text: &mut String,
    c: char,
    mods: Modifiers,
    modes: KeyCodeEncodeModes,
) -> Result<(), AllocError>
    ensures { OnOk result (string_bytes text.new ≡ string_bytes text.old ++ plain_char_text c mods.0 modes) }
{
    if mods.contains(Modifiers::ALT) && is_ascii_key(c) {
        return push_with_alt(text, c, mods);
    }
    if mods == Modifiers::NONE {
        return text.push(c);
    }
    push_other(text, c, mods, modes)
}

// Whether the character is on a key of an ASCII keyboard: a letter, a digit or punctuation.
fn is_ascii_key(c: char) -> bool
    ensures { result ≡ (is_ascii_alphanumeric c || is_ascii_punctuation c) }
{
    c.is_ascii_alphanumeric() || c.is_ascii_punctuation()
}

// Appends the text of Backspace.
#[tactic(auto, unfolding(crate::specs::Encoding::backspace_text))]
pub(super) fn push_backspace(
    text: &mut String,
    mods: Modifiers,
    modes: KeyCodeEncodeModes,
) -> Result<(), AllocError>
    ensures { OnOk result (string_bytes text.new ≡ string_bytes text.old ++ backspace_text mods.0 modes) }
{
    if mods.contains(Modifiers::CTRL) {
        return push_other(text, '\x08', mods, modes);
    }
    if mods.contains(Modifiers::SHIFT) {
        return push_other(text, '\x7f', mods, modes);
    }
    push_escape_if_alt(text, mods)?;
    text.push('\x7f')
}

// Appends the text of Enter.
#[tactic(auto, unfolding(crate::specs::Encoding::enter_text))]
pub(super) fn push_enter(
    text: &mut String,
    mods: Modifiers,
    modes: KeyCodeEncodeModes,
) -> Result<(), AllocError>
    ensures { OnOk result (string_bytes text.new ≡ string_bytes text.old ++ enter_text mods.0 modes) }
{
    if mods.contains(Modifiers::SHIFT) || mods.contains(Modifiers::CTRL) {
        return push_other(text, '\r', mods, modes);
    }
    push_escape_if_alt(text, mods)?;
    text.push_str(if modes.newline_mode { "\r\n" } else { "\r" })
}

// Appends the text of Escape.
#[tactic(auto, unfolding(crate::specs::Encoding::escape_text))]
pub(super) fn push_escape(
    text: &mut String,
    mods: Modifiers,
    modes: KeyCodeEncodeModes,
) -> Result<(), AllocError>
    ensures { OnOk result (string_bytes text.new ≡ string_bytes text.old ++ escape_text mods.0 modes) }
{
    if mods.contains(Modifiers::SHIFT) || mods.contains(Modifiers::CTRL) {
        return push_other(text, '\x1b', mods, modes);
    }
    push_escape_if_alt(text, mods)?;
    text.push('\x1b')
}

// Appends the text of Tab.
#[tactic(auto, unfolding(crate::specs::Encoding::tab_text))]
pub(super) fn push_tab(
    text: &mut String,
    mods: Modifiers,
    modes: KeyCodeEncodeModes,
) -> Result<(), AllocError>
    ensures { OnOk result (string_bytes text.new ≡ string_bytes text.old ++ tab_text mods.0 modes) }
{
    if mods != Modifiers::NONE && modes.modify_other_keys.is_some() {
        return push_other(text, '\t', mods, modes);
    }
    push_escape_if_alt(text, mods)?;
    text.push_str(tab_alone(mods.difference(Modifiers::ALT)))
}

// The text of Tab with exactly these modifiers, none of which is Alt.
fn tab_alone(mods: Modifiers) -> &'static str
    ensures { result.now ≡ tab_alone mods.0 }
{
    if mods == Modifiers::CTRL {
        "\x1b[9;5u"
    } else if mods == Modifiers::CTRL.union(Modifiers::SHIFT) {
        "\x1b[1;5Z"
    } else if mods == Modifiers::SHIFT {
        "\x1b[Z"
    } else {
        "\t"
    }
}
