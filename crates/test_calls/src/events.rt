//! Events that all differ, and events that no bytes mean.
use std::alloc::{AllocError, Global};
use termwiz_base::Flags;
use termwiz_input::input::{
    InputEvent, KeyCode, KeyEvent, Modifiers, MouseButtons, MouseEvent, PastedText, PixelMouseEvent,
};

fn key(key: KeyCode, modifiers: Modifiers) -> InputEvent {
    InputEvent::Key(KeyEvent { key, modifiers })
}

const KEYS: &[(KeyCode, Modifiers)] = &[
    (KeyCode::Char('a'), Modifiers::NONE),
    (KeyCode::Char('b'), Modifiers::NONE),
    (KeyCode::Char('a'), Modifiers::ALT),
    (KeyCode::Function(1), Modifiers::NONE),
    (KeyCode::Function(2), Modifiers::NONE),
    (KeyCode::Home, Modifiers::NONE),
    (KeyCode::KeyPadHome, Modifiers::NONE),
];

fn push_keys(events: &mut Vec<InputEvent>) -> Result<(), AllocError> {
    for (code, modifiers) in KEYS {
        events.push(key(*code, *modifiers))?;
    }
    Ok(())
}

// Columns, rows, whether the left button is down, and modifiers.
const MOUSE: &[(u16, u16, bool, Modifiers)] = &[
    (1, 2, false, Modifiers::NONE),
    (3, 2, false, Modifiers::NONE),
    (1, 3, false, Modifiers::NONE),
    (1, 2, true, Modifiers::NONE),
    (1, 2, false, Modifiers::CTRL),
];

fn left_if(is_down: bool) -> MouseButtons {
    if is_down {
        MouseButtons::LEFT
    } else {
        MouseButtons::NONE
    }
}

fn push_mouse(events: &mut Vec<InputEvent>) -> Result<(), AllocError> {
    for (x, y, is_down, modifiers) in MOUSE {
        events.push(InputEvent::Mouse(MouseEvent {
            x: *x,
            y: *y,
            mouse_buttons: left_if(*is_down),
            modifiers: *modifiers,
        }))?;
    }
    Ok(())
}

fn pixel_mouse(x: u16, y: u16, mouse_buttons: MouseButtons, modifiers: Modifiers) -> InputEvent {
    InputEvent::PixelMouse(PixelMouseEvent {
        x_pixels: x,
        y_pixels: y,
        mouse_buttons,
        modifiers,
    })
}

fn push_pixels(events: &mut Vec<InputEvent>) -> Result<(), AllocError> {
    for (x, y, is_down, modifiers) in MOUSE {
        events.push(pixel_mouse(*x, *y, left_if(*is_down), *modifiers))?;
    }
    Ok(())
}

fn push_resized(events: &mut Vec<InputEvent>) -> Result<(), AllocError> {
    for (cols, rows) in [(1, 2), (3, 2), (1, 3)] {
        events.push(InputEvent::Resized { cols, rows })?;
    }
    Ok(events.push(InputEvent::Wake)?)
}

fn push_pasted(alloc: Global, events: &mut Vec<InputEvent>) -> Result<(), AllocError> {
    for text in ["", "a", "b", "ab"] {
        let text = PastedText::new(String::from_str(alloc, text)?);
        events.push(InputEvent::Paste(text))?;
    }
    Ok(())
}

/// Appends events that all differ, many of them from another one in one field alone.
pub fn push_different(alloc: Global, events: &mut Vec<InputEvent>) -> Result<(), AllocError> {
    push_keys(events)?;
    push_mouse(events)?;
    push_pixels(events)?;
    push_resized(events)?;
    push_pasted(alloc, events)
}

/// Events that no bytes mean.
pub fn unread_events(alloc: Global) -> Result<Vec<InputEvent>, AllocError> {
    let held = Modifiers::RIGHT_SHIFT.union(Modifiers::LEFT_ALT);
    let turned = MouseButtons::WHEEL_POSITIVE.union(MouseButtons::VERT_WHEEL);
    let unnamed = Modifiers::from_bits_retain(1 << 15 | 1);
    Ok(vec![in alloc;
        key(KeyCode::Char('\u{a}'), Modifiers::CTRL),
        key(KeyCode::Char('\u{10ffff}'), Modifiers::SUPER),
        key(KeyCode::Function(0), Modifiers::LEADER),
        key(KeyCode::Numpad0, held),
        key(KeyCode::InternalPasteEnd, unnamed),
        pixel_mouse(65535, 0, turned, Modifiers::ALT),
        InputEvent::Resized { cols: 80, rows: 24 },
        InputEvent::Wake,
    ]?)
}
