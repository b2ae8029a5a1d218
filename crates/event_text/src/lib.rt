//! The texts of events, for programs that print them.
#![tactic(auto)]

ghost use Rattle.std.specs.Prelude.{◌≡◌, ◌<◌, ◌==◌, ◌&&◌, ◌++◌, [], length, not, bit_and, codes, IfSome, OnOk, if◌then◌else◌};
ghost use Rattle.std.specs.Fmt.{decimal, digit_glyph};
ghost use Rattle.termwiz_input.specs.InputEvent.TheVariants.{PixelMouse};
ghost use Rattle.event_text.specs.Names.{key_name, code_point, joined_names, names_in_set, flags_with_a_bit};
ghost use Rattle.event_text.specs.Texts.{event_text, hexadecimal, hex_digits, key_text, modifiers_text, mouse_text};

mod names;

use bitflags::Flags;
use itoa::Buffer;
pub use names::variant_name;
use std::alloc::AllocError;
use std::fmt::Display;
use std::io::Write;
use termwiz_base::Modifiers;
use termwiz_input::types::{InputEvent, KeyCode, MouseButtons, PixelMouseEvent};

/// Appends the text of an event to `out`: `key NAME MODS`, `mouse X Y BUTTONS MODS`, `paste N:HEX`, `pixelmouse X Y BUTTONS
/// MODS`, `resized COLS ROWS` or `wake`.
pub fn push_event(out: &mut Vec<u8>, event: &InputEvent) -> Result<(), AllocError>
    ensures { OnOk result (out.new.items ≡ out.old.items ++ event_text event.now) }
{
    match event {
        InputEvent::Key(key) => {
            push(out, b"key ")?;
            push_key(out, key.key, key.modifiers)?;
        }
        InputEvent::Mouse(mouse) => {
            push(out, b"mouse ")?;
            push_mouse(out, mouse.x, mouse.y, &mouse.mouse_buttons, mouse.modifiers)?;
        }
        InputEvent::PixelMouse(mouse) => push_pixel_mouse(out, mouse)?,
        InputEvent::Resized { cols, rows } => push_resized(out, *cols, *rows)?,
        InputEvent::Paste(text) => push_pasted(out, text.as_str())?,
        InputEvent::Wake => push(out, b"wake")?,
    }
    Ok(())
}

/// Appends a key and its modifiers to `out`: `NAME MODS`, as in `U+0041 SHIFT`, `F5 NONE` or `UpArrow ALT+CTRL`.
pub fn push_key(out: &mut Vec<u8>, key: KeyCode, modifiers: Modifiers) -> Result<(), AllocError>
    ensures { OnOk result (out.new.items ≡ out.old.items ++ key_text key modifiers) }
{
    push_key_name(out, key)?;
    push(out, b" ")?;
    push_modifiers(out, modifiers)
}

// Appends what `text` displays to `out`.
fn push_text<D: Display + Drop>(out: &mut Vec<u8>, text: D) -> Result<(), AllocError>
    ensures { OnOk result (IfSome (D.output text) (λ bytes. out.new.items ≡ out.old.items ++ bytes)) }
{
    out.write_fmt(text).map_err(|_| AllocError)
}

// Appends bytes to `out`.
fn push(out: &mut Vec<u8>, bytes: &[u8]) -> Result<(), AllocError>
    ensures { OnOk result (out.new.items ≡ out.old.items ++ bytes.now) }
{
    out.extend_from_slice(bytes)
}

/// Appends the name of a key to `out`: `U+0041` for a character, `F5`, `UpArrow`.
pub fn push_key_name(out: &mut Vec<u8>, key: KeyCode) -> Result<(), AllocError>
    ensures { OnOk result (out.new.items ≡ out.old.items ++ key_name key) }
{
    match key {
        KeyCode::Char(c) => push_code_point(out, u32::from(c)),
        KeyCode::Function(number) => push_function(out, number),
        _ => push(out, variant_name(key).as_bytes()),
    }
}

// Appends the name of a function key to `out`, as in `F12`.
fn push_function(out: &mut Vec<u8>, number: u8) -> Result<(), AllocError>
    ensures { OnOk result (out.new.items ≡ out.old.items ++ (codes "F" ++ decimal number)) }
{
    push(out, b"F")?;
    push_decimal(out, usize::from(number))
}

// Appends a character's code point to `out`, as in `U+0041`.
fn push_code_point(out: &mut Vec<u8>, code: u32) -> Result<(), AllocError>
    ensures { OnOk result (out.new.items ≡ out.old.items ++ code_point code) }
{
    if code < 0x100 {
        let byte = code as u8;
        return push(
            out,
            &[
                b'U',
                b'+',
                b'0',
                b'0',
                hex_digit(byte / 16, true),
                hex_digit(byte % 16, true),
            ],
        );
    }
    push_text(out, format_args!("U+{code:04X}"))
}

// Appends two numbers to `out`, with a space between them.
fn push_place(out: &mut Vec<u8>, x: usize, y: usize) -> Result<(), AllocError>
    ensures { OnOk result (out.new.items ≡ out.old.items ++ (decimal x ++ codes " " ++ decimal y)) }
{
    push_decimal(out, x)?;
    push(out, b" ")?;
    push_decimal(out, y)
}

// Appends the column and row of the mouse, its buttons and the modifiers to `out`.
fn push_mouse(
    out: &mut Vec<u8>,
    x: u16,
    y: u16,
    buttons: &MouseButtons,
    modifiers: Modifiers,
) -> Result<(), AllocError>
    ensures { OnOk result (out.new.items ≡ out.old.items ++ mouse_text x y buttons.now modifiers) }
{
    push_place(out, usize::from(x), usize::from(y))?;
    push(out, b" ")?;
    push_flags(out, buttons)?;
    push(out, b" ")?;
    push_modifiers(out, modifiers)
}

// Appends the text of a mouse event in pixels to `out`.
fn push_pixel_mouse(out: &mut Vec<u8>, mouse: &PixelMouseEvent) -> Result<(), AllocError>
    ensures { OnOk result (out.new.items ≡ out.old.items ++ event_text (PixelMouse mouse.now)) }
{
    push(out, b"pixelmouse ")?;
    push_mouse(
        out,
        mouse.x_pixels,
        mouse.y_pixels,
        &mouse.mouse_buttons,
        mouse.modifiers,
    )
}

// Appends the text of a resize to `out`.
fn push_resized(out: &mut Vec<u8>, cols: usize, rows: usize) -> Result<(), AllocError>
    ensures { OnOk result (out.new.items
        ≡ out.old.items ++ (codes "resized " ++ decimal cols ++ codes " " ++ decimal rows)) }
{
    push(out, b"resized ")?;
    push_place(out, cols, rows)
}

// Appends the text of a paste to `out`.
fn push_pasted(out: &mut Vec<u8>, text: &str) -> Result<(), AllocError>
    ensures { OnOk result (out.new.items
        ≡ out.old.items ++ (codes "paste " ++ decimal (length text.now) ++ codes ":" ++ hexadecimal text.now)) }
{
    push(out, b"paste ")?;
    push_decimal(out, text.len())?;
    push(out, b":")?;
    push_hex(out, text.as_bytes())
}

/// Appends the hexadecimal digits of bytes to `out`, two for each byte, in lower case.
pub fn push_hex(out: &mut Vec<u8>, bytes: &[u8]) -> Result<(), AllocError>
    ensures { OnOk result (out.new.items ≡ out.old.items ++ hexadecimal bytes.now) }
{
    for byte in bytes {
        push_hex_byte(out, *byte)?;
    }
    Ok(())
}

// The hexadecimal digit of a number below 16.
fn hex_digit(number: u8, upper: bool) -> u8
    requires { number < 16 }
    ensures { result ≡ digit_glyph upper number }
{
    if number < 10 {
        b'0' + number
    } else if upper {
        b'A' + (number - 10)
    } else {
        b'a' + (number - 10)
    }
}

/// Appends a number in decimal to `out`.
pub fn push_decimal(out: &mut Vec<u8>, number: usize) -> Result<(), AllocError>
    ensures { OnOk result (out.new.items ≡ out.old.items ++ decimal number) }
{
    let mut digits = Buffer::new();
    push(out, digits.format(number).as_bytes())
}

// Appends the two hexadecimal digits of a byte to `out`.
fn push_hex_byte(out: &mut Vec<u8>, byte: u8) -> Result<(), AllocError>
    ensures { OnOk result (out.new.items ≡ out.old.items ++ hex_digits byte) }
{
    push(
        out,
        &[hex_digit(byte / 16, false), hex_digit(byte % 16, false)],
    )
}

/// Appends the names of modifiers to `out`, joined by `+`, or `NONE` if there are none.
pub fn push_modifiers(out: &mut Vec<u8>, modifiers: Modifiers) -> Result<(), AllocError>
    ensures { OnOk result (out.new.items ≡ out.old.items ++ modifiers_text modifiers) }
{
    if modifiers.is_empty() {
        return push(out, b"NONE");
    }
    let mut named = false;
    let flags = Modifiers::flags();
    for flag in flags {
        // The flags ascend, so neither this one nor any later one is in the set.
        if modifiers.bits() < flag.value().bits() {
            break;
        }
        if has_flag(&modifiers, flag.value()) {
            push_name(out, flag.name(), named)?;
            named = true;
        }
    }
    if named { Ok(()) } else { push(out, b"NONE") }
}

/// Appends the names of the flags of a set to `out`, joined by `+`, or `NONE` if there are none.
pub fn push_flags<F: Flags>(out: &mut Vec<u8>, set: &F) -> Result<(), AllocError>
    ensures { F.exact → OnOk result (out.new.items
        ≡ out.old.items ++ joined_names (names_in_set (flags_with_a_bit F.table) (F.set_of set.now))) }
{
    if set.is_empty() {
        return push(out, b"NONE");
    }
    let mut named = false;
    let flags = F::flags();
    for flag in flags {
        if has_flag(set, flag.value()) {
            push_name(out, flag.name(), named)?;
            named = true;
        }
    }
    if named { Ok(()) } else { push(out, b"NONE") }
}

// Appends a name to `out`, with a + before it unless it is the first.
fn push_name(out: &mut Vec<u8>, name: &str, named: bool) -> Result<(), AllocError>
    ensures { OnOk result (out.new.items ≡ out.old.items ++ ((if named then codes "+" else []) ++ name.now)) }
{
    if named {
        push(out, b"+")?;
    }
    push(out, name.as_bytes())
}

// Whether the set has the flag: the flag has a bit, and all of its bits are in the set.
fn has_flag<F: Flags>(set: &F, flag: &F) -> bool
    ensures { F.exact → result ≡ (not (F.set_of flag.now == 0)
        && (bit_and (F.set_of set.now) (F.set_of flag.now) == F.set_of flag.now)) }
{
    !flag.is_empty() && set.contains(F::from_bits_retain(flag.bits()))
}
