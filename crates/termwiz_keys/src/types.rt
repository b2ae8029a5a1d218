//! The events that the parser makes of a terminal's bytes, and their parts: keys, mouse reports and pastes.
ghost use Rattle.std.specs.Prelude.{⊤, ◌≡◌, ◌==◌, [], ◌∷◌, codes, IfOk, IsOk, string_bytes};
ghost use Rattle.std.specs.Cmp.Rules.{comparing};
ghost use Rattle.std.specs.Cmp.Lexicographic.{pointwise};
ghost use Rattle.std.proofs.Common.{rules};

use bitflags::{Flag, Flags};
use std::alloc::{AllocError, Global};
use std::marker::Model;
use termwiz_base::{Modifiers, MouseButton};

mod key_code;

/// A key: by the character that it types, or by its name.
///
/// Terminals report only some of these keys; the rest are for programs that have keys from elsewhere, such as a window
/// system. Most of the names are those of Microsoft's virtual-key codes, whose list describes each key. Hyper, Super and
/// Meta are named as in the X Window System.
#[derive(Clone, Copy, PartialEq, Eq, Hash, Debug)]
pub enum KeyCode {
    /// A key that types a character: `Char('A')` is what Shift-A types, and Ctrl-C is `Char('c')` with CTRL.
    Char(char),

    /// Hyper, a modifier key.
    Hyper,

    /// Super, a modifier key: on most keyboards the one with the Windows logo, or Command.
    Super,

    /// Meta, a modifier key. The key that is labelled Alt is [`KeyCode::Alt`].
    Meta,

    /// Cancel, which on PC keyboards is Ctrl-Break.
    Cancel,

    /// Backspace, which deletes the character before the cursor.
    Backspace,

    /// Tab. Shift-Tab is this key with SHIFT.
    Tab,

    /// Clear, which on PC keyboards is the 5 of the keypad while Num Lock is off.
    Clear,

    /// Enter, also called Return.
    Enter,

    /// Shift, where it isn't known which of the two.
    Shift,

    /// Escape.
    Escape,

    /// The left Shift key.
    LeftShift,

    /// The right Shift key.
    RightShift,

    /// Ctrl, where it isn't known which of the two.
    Control,

    /// The left Ctrl key.
    LeftControl,

    /// The right Ctrl key.
    RightControl,

    /// Alt, or Option, where it isn't known which of the two.
    Alt,

    /// The left Alt key.
    LeftAlt,

    /// The right Alt key, also called AltGr.
    RightAlt,

    /// Menu, Windows' name for Alt (`VK_MENU`). The key that opens a context menu is [`KeyCode::Applications`].
    Menu,

    /// Windows' name for the left Alt key (`VK_LMENU`).
    LeftMenu,

    /// Windows' name for the right Alt key (`VK_RMENU`).
    RightMenu,

    /// Pause.
    Pause,

    /// Caps Lock.
    CapsLock,

    /// Page Up.
    PageUp,

    /// Page Down.
    PageDown,

    /// End.
    End,

    /// Home.
    Home,

    /// The left arrow key.
    LeftArrow,

    /// The right arrow key.
    RightArrow,

    /// The up arrow key.
    UpArrow,

    /// The down arrow key.
    DownArrow,

    /// Select, as on the VT220's editing keypad.
    Select,

    /// Print (`VK_PRINT`), which few keyboards have. It isn't [`KeyCode::PrintScreen`].
    Print,

    /// Execute (`VK_EXECUTE`), which few keyboards have.
    Execute,

    /// Print Screen.
    PrintScreen,

    /// Insert.
    Insert,

    /// Delete, which deletes the character at the cursor.
    Delete,

    /// Help.
    Help,

    /// The left key with the Windows logo.
    LeftWindows,

    /// The right key with the Windows logo.
    RightWindows,

    /// The Applications key, which opens a context menu.
    Applications,

    /// Sleep, which suspends the computer.
    Sleep,

    /// The 0 of the numeric keypad, while Num Lock is on.
    Numpad0,

    /// The 1 of the numeric keypad, while Num Lock is on.
    Numpad1,

    /// The 2 of the numeric keypad, while Num Lock is on.
    Numpad2,

    /// The 3 of the numeric keypad, while Num Lock is on.
    Numpad3,

    /// The 4 of the numeric keypad, while Num Lock is on.
    Numpad4,

    /// The 5 of the numeric keypad, while Num Lock is on.
    Numpad5,

    /// The 6 of the numeric keypad, while Num Lock is on.
    Numpad6,

    /// The 7 of the numeric keypad, while Num Lock is on.
    Numpad7,

    /// The 8 of the numeric keypad, while Num Lock is on.
    Numpad8,

    /// The 9 of the numeric keypad, while Num Lock is on.
    Numpad9,

    /// The `*` of the numeric keypad.
    Multiply,

    /// The `+` of the numeric keypad.
    Add,

    /// The thousands separator of the numeric keypad, on keyboards that have one.
    Separator,

    /// The `-` of the numeric keypad.
    Subtract,

    /// The decimal point of the numeric keypad.
    Decimal,

    /// The `/` of the numeric keypad.
    Divide,

    /// A function key, by its number: F1 is `Function(1)`.
    Function(u8),

    /// Num Lock.
    NumLock,

    /// Scroll Lock.
    ScrollLock,

    /// A key of its own for copying.
    Copy,

    /// A key of its own for cutting.
    Cut,

    /// A key of its own for pasting. Text that was pasted comes as [`InputEvent::Paste`].
    Paste,

    /// Back, for a web browser.
    BrowserBack,

    /// Forward, for a web browser.
    BrowserForward,

    /// Refresh, for a web browser.
    BrowserRefresh,

    /// Stop loading, for a web browser.
    BrowserStop,

    /// Search, for a web browser.
    BrowserSearch,

    /// Favorites, for a web browser.
    BrowserFavorites,

    /// Home page, for a web browser.
    BrowserHome,

    /// Mute the sound.
    VolumeMute,

    /// Turn the volume down.
    VolumeDown,

    /// Turn the volume up.
    VolumeUp,

    /// Skip to the next track.
    MediaNextTrack,

    /// Skip to the previous track.
    MediaPrevTrack,

    /// Stop playing.
    MediaStop,

    /// Play, or pause.
    MediaPlayPause,

    /// The left arrow key while the terminal is in application cursor mode (DECCKM).
    ApplicationLeftArrow,

    /// The right arrow key in application cursor mode.
    ApplicationRightArrow,

    /// The up arrow key in application cursor mode.
    ApplicationUpArrow,

    /// The down arrow key in application cursor mode.
    ApplicationDownArrow,

    /// Home on the numeric keypad: the 7 while Num Lock is off.
    KeyPadHome,

    /// End on the numeric keypad: the 1 while Num Lock is off.
    KeyPadEnd,

    /// Page Up on the numeric keypad: the 9 while Num Lock is off.
    KeyPadPageUp,

    /// Page Down on the numeric keypad: the 3 while Num Lock is off.
    KeyPadPageDown,

    /// Begin on the numeric keypad: the 5 while Num Lock is off.
    KeyPadBegin,

    /// The start of a bracketed paste. No event carries it: the paste comes as one [`InputEvent::Paste`].
    InternalPasteStart,

    /// The end of a bracketed paste, where none was started.
    InternalPasteEnd,
}

/// A key press: which key, and the modifiers held with it.
#[derive(Clone, PartialEq, Eq, Debug, Drop)]
pub struct KeyEvent {
    /// The key that was pressed.
    pub key: KeyCode,
    /// The modifier keys that were held.
    pub modifiers: Modifiers,
}

/// A set of mouse buttons and wheels. Its methods are those of the trait [`Flags`], such as `contains` and `union`.
#[derive(Clone, PartialEq, Eq, Debug, Default, Drop)]
pub struct MouseButtons(u8);

impl MouseButtons {
    /// No button and no wheel.
    pub const NONE: MouseButtons = MouseButtons(0);

    /// The left button.
    pub const LEFT: MouseButtons = MouseButtons(1 << 1);

    /// The right button.
    pub const RIGHT: MouseButtons = MouseButtons(1 << 2);

    /// The middle button.
    pub const MIDDLE: MouseButtons = MouseButtons(1 << 3);

    /// The wheel that scrolls up and down. It was turned up if WHEEL_POSITIVE is set too, and down if not.
    pub const VERT_WHEEL: MouseButtons = MouseButtons(1 << 4);

    /// The wheel that scrolls to the sides. It was turned left if WHEEL_POSITIVE is set too, and right if not.
    pub const HORZ_WHEEL: MouseButtons = MouseButtons(1 << 5);

    /// Set with a wheel that was turned up or left.
    pub const WHEEL_POSITIVE: MouseButtons = MouseButtons(1 << 6);

    const FLAGS: &'static [Flag<MouseButtons>] = &[
        Flag {
            name: "NONE",
            value: MouseButtons::NONE,
        },
        Flag {
            name: "LEFT",
            value: MouseButtons::LEFT,
        },
        Flag {
            name: "RIGHT",
            value: MouseButtons::RIGHT,
        },
        Flag {
            name: "MIDDLE",
            value: MouseButtons::MIDDLE,
        },
        Flag {
            name: "VERT_WHEEL",
            value: MouseButtons::VERT_WHEEL,
        },
        Flag {
            name: "HORZ_WHEEL",
            value: MouseButtons::HORZ_WHEEL,
        },
        Flag {
            name: "WHEEL_POSITIVE",
            value: MouseButtons::WHEEL_POSITIVE,
        },
    ];
}

impl Flags for MouseButtons {
    type Bits = u8;

    ghost exact = { ⊤ };

    ghost table = { (codes "NONE", 0)
        ∷ (codes "LEFT", 2)
        ∷ (codes "RIGHT", 4)
        ∷ (codes "MIDDLE", 8)
        ∷ (codes "VERT_WHEEL", 16)
        ∷ (codes "HORZ_WHEEL", 32)
        ∷ (codes "WHEEL_POSITIVE", 64)
        ∷ [] };

    ghost set_of = { λ m. m.0 };

    fn flags<'a>() -> &'a [Flag<MouseButtons>] {
        MouseButtons::FLAGS
    }

    fn bits(&self) -> u8 {
        self.0
    }

    fn from_bits_retain(bits: u8) -> MouseButtons {
        MouseButtons(bits)
    }
}

impl From<MouseButton> for MouseButtons {
    ghost use Rattle.std.specs.Prelude.{◌≡◌};
    ghost use Rattle.termwiz_keys.specs.Buttons.{buttons_of};

    ghost from_gives = { λ button buttons. buttons ≡ buttons_of button };

    /// Returns the button that was pressed or held, or the wheel that was turned with its direction. Returns NONE for
    /// every release, and for [`MouseButton::None`].
    fn from(button: MouseButton) -> MouseButtons {
        match button {
            MouseButton::Button1Press | MouseButton::Button1Drag => MouseButtons::LEFT,
            MouseButton::Button2Press | MouseButton::Button2Drag => MouseButtons::MIDDLE,
            MouseButton::Button3Press | MouseButton::Button3Drag => MouseButtons::RIGHT,
            MouseButton::Button4Press => MouseButtons::VERT_WHEEL.union(
                MouseButtons::WHEEL_POSITIVE,
            ),
            MouseButton::Button5Press => MouseButtons::VERT_WHEEL,
            MouseButton::Button6Press => MouseButtons::HORZ_WHEEL.union(
                MouseButtons::WHEEL_POSITIVE,
            ),
            MouseButton::Button7Press => MouseButtons::HORZ_WHEEL,
            _ => MouseButtons::NONE,
        }
    }
}

/// A mouse report, with the position in cells.
#[derive(Clone, PartialEq, Eq, Debug, Drop)]
pub struct MouseEvent {
    /// The column, as the terminal sent it: the leftmost is 1.
    pub x: u16,
    /// The row, as the terminal sent it: the topmost is 1.
    pub y: u16,
    /// The button that is down, or the wheel that was turned. Empty after a release, and for a move with no button down.
    pub mouse_buttons: MouseButtons,
    /// The modifier keys that were held.
    pub modifiers: Modifiers,
}

/// A mouse report, with the position in pixels.
///
/// The parser never makes one: the bytes of such a report are those of a report in cells, and it reads them as that.
#[derive(Clone, PartialEq, Eq, Debug, Drop)]
pub struct PixelMouseEvent {
    /// The distance from the left, in pixels.
    pub x_pixels: u16,
    /// The distance from the top, in pixels.
    pub y_pixels: u16,
    /// The button that is down, or the wheel that was turned. Empty after a release, and for a move with no button down.
    pub mouse_buttons: MouseButtons,
    /// The modifier keys that were held.
    pub modifiers: Modifiers,
}

/// Text that was pasted. Contracts see it as its bytes.
#[derive(Debug, Drop)]
pub struct PastedText {
    inner: String,
}

impl Model for PastedText {
    ghost use Rattle.std.specs.Prelude.{List, ℕ, string_bytes};

    ghost Value = { List ℕ };

    ghost view = { λ t. string_bytes t.inner };
}

impl PartialEq for PastedText {
    ghost eq = { pointwise ◌==◌ };

    ghost laws = { Prim.search (comparing, rules) };

    fn eq(&self, other: &PastedText) -> bool {
        self.inner == other.inner
    }
}

impl Eq for PastedText {
    ghost laws = { Prim.search (comparing, rules) };
}

impl PastedText {
    /// Wraps a text, without copying it.
    pub fn new(text: String) -> PastedText
        ensures { result ≡ string_bytes text }
    {
        PastedText { inner: text }
    }

    /// Returns the text, borrowed.
    pub fn as_str(&self) -> &str
        ensures { result.now ≡ self.now }
    {
        self.inner.as_str()
    }

    /// Returns the text itself, without copying it.
    pub fn into_string(self) -> String
        ensures { string_bytes result ≡ self }
    {
        let PastedText { inner: whole } = self;
        whole
    }
}

/// Something that happened at the terminal. The parser makes keys, mouse reports and pastes; the other events are for
/// programs that put input from elsewhere into the same stream.
#[derive(PartialEq, Eq, Debug, Drop)]
pub enum InputEvent {
    /// A key was pressed.
    Key(KeyEvent),
    /// The mouse was moved, one of its buttons was pressed or released, or a wheel was turned.
    Mouse(MouseEvent),
    /// The same, with the position in pixels.
    PixelMouse(PixelMouseEvent),
    /// The terminal has a new size.
    Resized {
        /// The number of columns.
        cols: usize,
        /// The number of rows.
        rows: usize,
    },
    /// Text was pasted, in bracketed paste mode.
    Paste(PastedText),
    /// Another part of the program woke the one that waits for input.
    Wake,
}

impl InputEvent {
    ghost use Rattle.std.specs.Prelude.{◌≡◌, IfOk, IsOk};
    ghost use Rattle.termwiz_keys.specs.Events.{IsPaste};

    /// Returns an equal event. Only the text of a paste takes memory, so only the clone of a paste can fail.
    pub fn clone(&self, alloc: Global) -> Result<InputEvent, AllocError>
        ensures same { IfOk result (λ event. event ≡ self.now) }
        ensures free { ¬ IsPaste self.now → IsOk result }
    {
        match self {
            InputEvent::Key(event) => Ok(InputEvent::Key(event.clone()?)),
            InputEvent::Mouse(event) => Ok(InputEvent::Mouse(event.clone()?)),
            InputEvent::PixelMouse(event) => Ok(InputEvent::PixelMouse(event.clone()?)),
            InputEvent::Resized { cols, rows } => Ok(InputEvent::Resized {
                cols: *cols,
                rows: *rows,
            }),
            InputEvent::Paste(text) => {
                let copy = String::from_str(alloc, text.as_str())?;
                Ok(InputEvent::Paste(PastedText::new(copy)))
            }
            InputEvent::Wake => Ok(InputEvent::Wake),
        }
    }
}
