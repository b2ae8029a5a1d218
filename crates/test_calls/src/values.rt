//! Commands that want values: of events, keys, modifiers, mouse reports, bindings and errors.
use crate::conversation::{Command, Session, bytes_of};
use crate::events::{push_different, unread_events};
use crate::failure::Failure;
use crate::line::Line;
use crate::parser::{show_events, show_found};
use std::alloc::Global;
use termwiz_base::{Flags, Modifiers, MouseReport, ctrl_mapping, sgr_mouse};
use termwiz_bindings::bindings::{BindError, Bindings};
use termwiz_bindings::chord::Chord;
use termwiz_bindings::names::{print_press, read};
use termwiz_bindings::press::KeyPress;
use termwiz_extended_events::types::ReportedKey;
use termwiz_input::input::{
    CSI, EncodeError, InputEvent, KeyCode, KeyCodeEncodeModes, KeyEvent, KeyboardEncoding,
    ParseError, PastedText, PiecesError, SS3,
};
use termwiz_input::keymap::{Found, KeyMap};

/// Nothing is kept from command to command.
#[derive(Drop)]
pub struct ValuesSession;

impl Session for ValuesSession {
    fn answer(
        &mut self,
        alloc: Global,
        command: &Command<'_>,
        line: &mut Line,
    ) -> Result<(), Failure> {
        match command.name {
            "equality" => show_equalities(alloc, &mut Vec::new(alloc), line)?,
            "lines" => show_events(&unread_events(alloc)?, 0, line),
            "pasted" => show_pasted(alloc, line)?,
            "clones" => show_clones(alloc, line)?,
            "bindings" => show_bindings(&mut Bindings::new(alloc), line)?,
            "print_press" => show_name(alloc, line)?,
            "encode" => show_encoded(alloc, line)?,
            "messages" => show_messages(line),
            "is_modifier" => show_modifier_keys(line),
            "shifted" => show_shifted(line),
            "sgr_mouse" => show_reports(command.number, &bytes_of(alloc, command.hex)?, line),
            _ => show_of_number(command.name, command.number, line)?,
        }
        Ok(())
    }
}

// Appends what a function makes of a number.
fn show_of_number(name: &str, number: u64, line: &mut Line) -> Result<(), Failure> {
    let held = Modifiers::from_bits_retain((number % 65536) as u16);
    match name {
        "ctrl_mapping" => {
            let c = char::from_u32((number % 0x110000) as u32).unwrap_or('\0');
            show_control(c, line);
        }
        "encode_xterm" => line.number(usize::from(held.encode_xterm())),
        "remove_positional_mods" => {
            line.number(usize::from(held.remove_positional_mods().bits()));
        }
        _ => return Err(Failure::NoSuchWord),
    }
    Ok(())
}

// Appends the code of what Ctrl makes of a character.
fn show_control(c: char, line: &mut Line) {
    match ctrl_mapping(c) {
        Some(control) => line.number(u32::from(control) as usize),
        None => line.word("None"),
    }
}

// Appends the reports of a mouse code and a final byte at four places.
fn show_reports(code: u64, last: &[u8], line: &mut Line) {
    let code = (code % 65536) as u16;
    let last = last.first().copied().unwrap_or(0);
    for (x, y) in [(42, 12), (0, 1), (1, 1), (65535, 65535)] {
        show_report(sgr_mouse(code, x, y, last), line);
    }
}

// Appends a report: the column, the row, the button and the modifiers.
fn show_report(report: Option<MouseReport>, line: &mut Line) {
    match report {
        Some(
            MouseReport::SGR1006 {
                x,
                y,
                button,
                modifiers,
            },
        ) => {
            line.shown(format_args!("{x} {y} {button:?} "));
            line.modifiers(modifiers);
            line.word(" / ");
        }
        _ => line.word("None / "),
    }
}

// Makes a list of events that all differ. Appends for each event which events it equals, by a `=` at their places, and for its clone.
fn show_equalities(
    alloc: Global,
    events: &mut Vec<InputEvent>,
    line: &mut Line,
) -> Result<(), Failure> {
    push_different(alloc, events)?;
    for event in events.iter() {
        show_equals(event, events, line);
        show_equals(&event.clone(alloc)?, events, line);
    }
    Ok(())
}

fn show_equals(event: &InputEvent, others: &[InputEvent], line: &mut Line) {
    for other in others {
        line.word(if event == other { "=" } else { "." });
    }
    line.word(" ");
}

// Appends a pasted text in hexadecimal, as it is seen and as it is taken out.
fn show_pasted(alloc: Global, line: &mut Line) -> Result<(), Failure> {
    let text = PastedText::new(String::from_str(alloc, "two\nlines")?);
    line.hex(text.as_str().as_bytes());
    line.word(" ");
    line.hex(text.into_string().as_bytes());
    Ok(())
}

// Appends the messages of errors, and in hexadecimal the beginnings of sequences.
fn show_messages(line: &mut Line) {
    line.shown(ParseError::NotTaken);
    line.word(" / ");
    line.shown(ParseError::Taken);
    line.word(" / ");
    line.shown(PiecesError { taken: 3 });
    line.word(" / ");
    line.shown(EncodeError::UnhandledFunctionKey(25));
    line.word(" / ");
    line.shown(EncodeError::Memory);
    line.word(" / ");
    line.hex(CSI.as_bytes());
    line.word(" / ");
    line.hex(SS3.as_bytes());
}

// The keys that are asked whether they are modifiers.
const KEYS: &[KeyCode] = &[
    KeyCode::Hyper,
    KeyCode::Super,
    KeyCode::Meta,
    KeyCode::Shift,
    KeyCode::LeftShift,
    KeyCode::RightShift,
    KeyCode::Control,
    KeyCode::LeftControl,
    KeyCode::RightControl,
    KeyCode::Alt,
    KeyCode::LeftAlt,
    KeyCode::RightAlt,
    KeyCode::LeftWindows,
    KeyCode::RightWindows,
    KeyCode::Char('a'),
    KeyCode::CapsLock,
    KeyCode::NumLock,
    KeyCode::Menu,
    KeyCode::LeftMenu,
];

// Appends these keys, and of which isn't one that it isn't.
fn show_modifier_keys(line: &mut Line) {
    for key in KEYS {
        line.name(*key);
        line.word(if key.is_modifier() { " " } else { " isn't " });
    }
}

const SHIFT: u16 = 1 << 1;

const ALT: u16 = 1 << 2;

const CTRL: u16 = 1 << 3;

// A bit that no flag names.
const UNNAMED: u16 = 1;

// Keys with the bits of the modifiers that are held.
const TYPED: &[(KeyCode, u16)] = &[
    (KeyCode::Char('a'), SHIFT),
    (KeyCode::Char('z'), SHIFT | CTRL),
    (KeyCode::Char('a'), CTRL),
    (KeyCode::Char('1'), SHIFT),
    (KeyCode::Char('é'), SHIFT),
    (KeyCode::Tab, SHIFT),
];

// Appends what these keys are with Shift.
fn show_shifted(line: &mut Line) {
    for (key, bits) in TYPED {
        let held = Modifiers::from_bits_retain(*bits);
        line.name(key.normalize_shift_to_upper_case(held));
        line.word(" ");
    }
}

// xterm's encoding, with every other mode off.
const XTERM: KeyCodeEncodeModes = KeyCodeEncodeModes {
    encoding: KeyboardEncoding::Xterm,
    application_cursor_keys: false,
    newline_mode: false,
    modify_other_keys: None,
};

// The same in application cursor mode.
const APPLICATION: KeyCodeEncodeModes = KeyCodeEncodeModes {
    encoding: KeyboardEncoding::Xterm,
    application_cursor_keys: true,
    newline_mode: false,
    modify_other_keys: None,
};

// The same with modifyOtherKeys at level 2.
const LEVEL_2: KeyCodeEncodeModes = KeyCodeEncodeModes {
    encoding: KeyboardEncoding::Xterm,
    application_cursor_keys: false,
    newline_mode: false,
    modify_other_keys: Some(2),
};

// Keys with the bits of the modifiers that are held, the modes, and whether the key is pressed.
const ENCODED: &[(KeyCode, u16, KeyCodeEncodeModes, bool)] = &[
    (KeyCode::Function(1), UNNAMED, XTERM, true),
    (KeyCode::Tab, SHIFT | ALT | UNNAMED, XTERM, true),
    (KeyCode::Char('!'), SHIFT | UNNAMED, XTERM, true),
    (KeyCode::Char('!'), SHIFT, LEVEL_2, true),
    (KeyCode::Char('!'), SHIFT | UNNAMED, LEVEL_2, true),
    (KeyCode::UpArrow, SHIFT, APPLICATION, true),
    (
        KeyCode::Char('\u{10ffff}'),
        SHIFT | ALT | CTRL,
        LEVEL_2,
        true,
    ),
    (KeyCode::Char('a'), 0, XTERM, false),
    (KeyCode::Function(0), 0, XTERM, false),
    (KeyCode::Function(25), 0, XTERM, false),
    (KeyCode::Function(255), 0, XTERM, false),
    (KeyCode::Function(0), 0, XTERM, true),
    (KeyCode::Function(25), 0, XTERM, true),
    (KeyCode::Function(255), 0, XTERM, true),
];

// Appends what the encoder answers to each.
fn show_encoded(alloc: Global, line: &mut Line) -> Result<(), Failure> {
    for (key, bits, modes, is_down) in ENCODED {
        let held = Modifiers::from_bits_retain(*bits);
        show_text(key.encode(alloc, held, *modes, *is_down), line)?;
    }
    Ok(())
}

// Appends a text in hexadecimal, or the number of a function key without a text.
fn show_text(text: Result<String, EncodeError>, line: &mut Line) -> Result<(), Failure> {
    match text {
        Ok(text) => line.hex(text.as_bytes()),
        Err(EncodeError::UnhandledFunctionKey(number)) => {
            line.word("F");
            line.number(usize::from(number));
        }
        Err(EncodeError::Memory) => return Err(Failure::TooEarly),
    }
    line.word(" / ");
    Ok(())
}

// Appends what is found in a clone of a map of key events, and whether a clone of an answer equals it.
fn show_clones(alloc: Global, line: &mut Line) -> Result<(), Failure> {
    let mut keys = KeyMap::new(alloc);
    let enter = KeyEvent {
        key: KeyCode::Enter,
        modifiers: Modifiers::CTRL,
    };
    keys.insert(b"\r", enter)?;
    show_found(keys.clone()?.lookup(b"\r", true), line);
    let answer = Found::Ambiguous(2, 7u32);
    line.word(" ");
    line.holds(answer.clone()? == answer);
    Ok(())
}

// The chord of one function key.
fn function(number: u8) -> Chord {
    let mut chord = Chord::new();
    if let Some(press) = KeyPress::new(ReportedKey::Named(KeyCode::Function(number)), 0) {
        chord.push(press);
    }
    chord
}

// Binds 256 chords, and unbinds one once the bindings were cloned. Appends what is found in them, and in the clone.
fn show_bindings(bindings: &mut Bindings<u8>, line: &mut Line) -> Result<(), Failure> {
    if bind_functions(bindings).is_err() {
        return Err(Failure::TooEarly);
    }
    let copy = bindings.clone()?;
    line.option(bindings.unbind(&function(0)).map(usize::from));
    line.word(" ");
    show_bound(bindings, line);
    show_bound(&copy, line);
    Ok(())
}

// Binds the chord of each function key to its number.
fn bind_functions(bindings: &mut Bindings<u8>) -> Result<(), BindError> {
    for number in 0..=u8::MAX {
        bindings.bind(&function(number), number)?;
    }
    Ok(())
}

// Appends how many chords are bound, and to what each function key is.
fn show_bound(bindings: &Bindings<u8>, line: &mut Line) {
    line.number(bindings.len());
    line.word(": ");
    for number in 0..=u8::MAX {
        match bindings.lookup(&function(number)) {
            Some(number) => line.number(usize::from(*number)),
            None => line.word("None"),
        }
        line.word(" ");
    }
}

// Appends the name of one press.
fn show_name(alloc: Global, line: &mut Line) -> Result<(), Failure> {
    if let Ok(chord) = read("<M-Left>") {
        if let Some(press) = chord.get(0) {
            line.word(print_press(alloc, press)?.as_str());
        }
    }
    Ok(())
}
