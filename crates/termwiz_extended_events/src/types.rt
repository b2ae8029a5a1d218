//! The events of the extended parser.
ghost use Rattle.std.specs.Prelude.{◌≡◌, ◌==◌, false, string_bytes};
ghost use Rattle.termwiz_extended_events.specs.declared.types.EraseByte.TheVariants as EraseByte;
ghost use Rattle.termwiz_extended_events.specs.declared.types.NewlineByte.TheVariants as NewlineByte;
ghost use Rattle.std.specs.Cmp.Rules.{comparing};
ghost use Rattle.std.specs.Cmp.Lexicographic.{pointwise};
ghost use Rattle.std.proofs.Common.{rules};
ghost use Rattle.termwiz_extended_events.specs.KeyReports.{plain_report, report_of};

use std::alloc::Global;
use std::marker::Model;
use termwiz_base::Modifiers;
use termwiz_keys::types::{KeyCode, MouseButtons, PastedText};

/// By which grammar an extended parser reads.
#[derive(Clone, Copy, PartialEq, Eq, Debug)]
pub enum Dialect {
    /// What terminals send in any mode. For every program.
    Extended,
    /// What termwiz reads, and nothing else: the other fields of a [`Reading`] say nothing then.
    Termwiz,
}

/// Which byte the Backspace key sends: of 8 and 127, the other one is typed with Ctrl. A program takes it from its terminal's settings (VERASE
/// of termios).
#[derive(Clone, Copy, PartialEq, Eq, Debug)]
pub enum EraseByte {
    /// 127, as most terminals send it. Byte 8 is Ctrl-H.
    Delete,
    /// 8. Byte 127 is Ctrl-Backspace.
    Backspace,
}

/// What the byte 10 is.
#[derive(Clone, Copy, PartialEq, Eq, Debug)]
pub enum NewlineByte {
    /// Ctrl-J. The Enter key sends the byte 13.
    CtrlJ,
    /// The Enter key: the terminal's settings turn CR into it (ICRNL of termios), or the input is a file.
    Enter,
}

/// How an extended parser reads: by which grammar, what else is looked for, what the program has asked, and what the terminal's settings say.
/// It may be set between any two calls.
#[derive(Clone, Copy, PartialEq, Eq, Debug)]
pub struct Reading {
    /// By which grammar.
    pub dialect: Dialect,
    /// Whether ESC `[M` begins a mouse report of three bytes, as xterm's modes 9 and 1000 send it without mode 1006. Otherwise it is a control
    /// sequence.
    pub x10_mouse: bool,
    /// How many questions for the cursor's position (DSR 6) have no reply yet. While there are any, F3 with modifiers that can be a reply is
    /// one.
    pub questions: u8,
    /// Which byte the Backspace key sends.
    pub erase: EraseByte,
    /// What the byte 10 is.
    pub newline: NewlineByte,
}

impl Reading {
    /// The reading by this grammar, without X10 mouse reports and open questions, where Backspace sends 127 and byte 10 is Ctrl-J.
    pub fn new(dialect: Dialect) -> Reading
        ensures { result ≡ record {
          dialect = dialect;
          x10_mouse = false;
          questions = 0;
          erase = EraseByte.Delete;
          newline = NewlineByte.CtrlJ;
        } }
    {
        Reading {
            dialect,
            x10_mouse: false,
            questions: 0,
            erase: EraseByte::Delete,
            newline: NewlineByte::CtrlJ,
        }
    }
}

/// What happened to a key.
#[derive(Clone, Copy, PartialEq, Eq, Debug)]
pub enum KeyEventKind {
    /// It was pressed.
    Press,
    /// It was held down so long that it repeats.
    Repeat,
    /// It was released.
    Release,
}

/// The key of a report.
#[derive(Clone, Copy, PartialEq, Eq, Debug)]
pub enum ReportedKey {
    /// A key that has a name or types a character.
    Named(KeyCode),
    /// A key for which [`KeyCode`] has no name, by its number in Kitty's table of functional keys.
    Functional(u32),
}

/// Which modifiers were held, and what happened to the key.
#[derive(Clone, Copy, PartialEq, Eq, Debug)]
pub struct Manner {
    /// The modifiers as Kitty's bits, as in [`KeyReport`].
    pub modifiers: u8,
    /// Whether the key was pressed, held or released.
    pub kind: KeyEventKind,
}

/// A key report with no base and no text. It holds no memory.
#[derive(Clone, Copy, PartialEq, Eq, Debug)]
pub struct PlainReport {
    /// The key.
    pub key: ReportedKey,
    /// The modifiers, and what happened to the key.
    pub manner: Manner,
    /// What the key types with Shift, if the terminal reported it.
    pub shifted: Option<char>,
}

/// The text that a key types. Contracts see it as its bytes.
#[derive(Debug, Drop)]
pub struct KeyText {
    inner: String,
}

impl Model for KeyText {
    ghost use Rattle.std.specs.Prelude.{List, ℕ, string_bytes};

    ghost Value = { List ℕ };

    ghost view = { λ t. string_bytes t.inner };
}

impl PartialEq for KeyText {
    ghost eq = { pointwise ◌==◌ };

    ghost laws = { Prim.search (comparing, rules) };

    fn eq(&self, other: &KeyText) -> bool {
        self.inner == other.inner
    }
}

impl Eq for KeyText {
    ghost laws = { Prim.search (comparing, rules) };
}

impl KeyText {
    /// Wraps a text, without copying it.
    pub fn new(text: String) -> KeyText
        ensures { result ≡ string_bytes text }
    {
        KeyText { inner: text }
    }

    /// Returns the text, borrowed.
    pub fn as_str(&self) -> &str
        ensures { result.now ≡ self.now }
    {
        self.inner.as_str()
    }

    /// Returns the text itself, without copying it.
    pub fn into_string(self) -> String
        ensures { string_bytes result ≡ self }
    {
        let KeyText { inner: whole } = self;
        whole
    }
}

/// The bytes of a sequence between its introducer and its end. Contracts see them as a list.
#[derive(Debug, Drop)]
pub struct SequenceBytes {
    inner: Vec<u8>,
}

impl Model for SequenceBytes {
    ghost use Rattle.std.specs.Prelude.{List, ℕ};

    ghost Value = { List ℕ };

    ghost view = { λ b. b.inner.items };
}

impl PartialEq for SequenceBytes {
    ghost eq = { pointwise ◌==◌ };

    ghost laws = { Prim.search (comparing, rules) };

    fn eq(&self, other: &SequenceBytes) -> bool {
        self.inner == other.inner
    }
}

impl Eq for SequenceBytes {
    ghost laws = { Prim.search (comparing, rules) };
}

impl SequenceBytes {
    /// Wraps bytes, without copying them.
    pub fn new(bytes: Vec<u8>) -> SequenceBytes
        ensures { result ≡ bytes.items }
    {
        SequenceBytes { inner: bytes }
    }

    /// Returns the bytes, borrowed.
    pub fn as_slice(&self) -> &[u8]
        ensures { result.now ≡ self.now }
    {
        self.inner.as_slice()
    }

    /// Returns the bytes themselves, without copying them.
    pub fn into_vec(self) -> Vec<u8>
        ensures { result.items ≡ self }
    {
        let SequenceBytes { inner: whole } = self;
        whole
    }
}

/// A key that was pressed, held or released, with all that Kitty's keyboard protocol reports of it.
#[derive(PartialEq, Eq, Debug, Drop)]
pub struct KeyReport {
    /// The key.
    pub key: ReportedKey,
    /// The modifiers as Kitty's bits: 1 SHIFT, 2 ALT, 4 CTRL, 8 SUPER, 16 HYPER, 32 META, 64 CAPS LOCK, 128 NUM LOCK.
    pub modifiers: u8,
    /// Whether it was pressed, held or released.
    pub kind: KeyEventKind,
    /// What the key types with Shift, if the terminal reported it.
    pub shifted: Option<char>,
    /// What the key at this place types on the standard layout (PC-101), if the terminal reported it.
    pub base: Option<char>,
    /// The text that the key types, if the terminal reported it; otherwise empty.
    pub text: KeyText,
}

impl PlainReport {
    /// A report that says no more than a key and its manner.
    #[inline(always)]
    pub fn new(key: ReportedKey, manner: Manner) -> PlainReport
        ensures { plain_report result ≡ report_of key manner }
    {
        PlainReport {
            key,
            manner,
            shifted: None,
        }
    }

    /// Returns it as a [`KeyReport`]. `alloc` makes an empty text, which needs no memory.
    #[inline(always)]
    pub fn whole(self, alloc: Global) -> KeyReport
        ensures { result ≡ plain_report self }
    {
        KeyReport {
            key: self.key,
            modifiers: self.manner.modifiers,
            kind: self.manner.kind,
            shifted: self.shifted,
            base: None,
            text: KeyText::new(String::new(alloc)),
        }
    }
}

/// What happened to the mouse.
#[derive(Clone, Copy, PartialEq, Eq, Debug)]
pub enum MouseKind {
    /// A button was pressed.
    Press,
    /// A button was released. Only reports of the SGR mode (1006) tell which.
    Release,
    /// The mouse was moved while a button was down.
    Drag,
    /// The mouse was moved, and no button is down.
    Move,
    /// A wheel was turned.
    Wheel,
}

/// A mouse report.
#[derive(PartialEq, Eq, Debug, Drop)]
pub struct MouseReport {
    /// The column, as the terminal sent it: the leftmost is 1.
    pub x: u16,
    /// The row, as the terminal sent it: the topmost is 1.
    pub y: u16,
    /// The modifier keys that were held: SHIFT, ALT and CTRL.
    pub modifiers: Modifiers,
    /// The button that is down, or the wheel that was turned, as termwiz has it. Empty after a release, for a move, and for a side button.
    pub buttons: MouseButtons,
    /// What happened.
    pub kind: MouseKind,
    /// The number of the button that the report names: 1 to 3 the left, the middle and the right one, 4 to 7 the wheel up, down, to the left
    /// and to the right, 8 to 11 the side buttons.
    pub button: Option<u8>,
}

/// The kind of a string.
#[derive(Clone, Copy, PartialEq, Eq, Debug)]
pub enum StringKind {
    /// An operating system command, after ESC `]`.
    Osc,
    /// A device control string, after ESC `P`.
    Dcs,
    /// An application program command, after ESC `_`.
    Apc,
}

/// Something that happened at the terminal, or that it replied.
#[derive(PartialEq, Eq, Debug, Drop)]
pub enum Event {
    /// A key, typed or reported.
    Key(KeyReport),
    /// A mouse report.
    Mouse(MouseReport),
    /// Text was pasted, in bracketed paste mode.
    Paste(PastedText),
    /// The terminal's window gained the focus (mode 1004).
    FocusGained,
    /// The terminal's window lost the focus.
    FocusLost,
    /// The reply to a question for the cursor's position (DSR 6), as it was sent: the first row and the first column are 1.
    CursorPosition {
        /// The row.
        row: u16,
        /// The column.
        column: u16,
    },
    /// The terminal has a new size (mode 2048).
    Resized {
        /// The number of rows.
        rows: u16,
        /// The number of columns.
        columns: u16,
        /// The height in pixels.
        height: u16,
        /// The width in pixels.
        width: u16,
    },
    /// The reply to a question for the flags of Kitty's keyboard protocol.
    KeyboardFlags(u8),
    /// Any other control sequence: its bytes after ESC `[`.
    Csi(SequenceBytes),
    /// An operating system command: its bytes after ESC `]`, without its end.
    Osc(SequenceBytes),
    /// A device control string: its bytes after ESC `P`, without its end.
    Dcs(SequenceBytes),
    /// An application program command: its bytes after ESC `_`, without its end.
    Apc(SequenceBytes),
    /// The first bytes of a string that is too long to be buffered. The next event of the string begins with the same opening.
    StringPart {
        /// The kind of the string.
        kind: StringKind,
        /// Its bytes after its introducer.
        bytes: SequenceBytes,
    },
    /// A string that was cut off before its end.
    StringCut {
        /// The kind of the string.
        kind: StringKind,
        /// Its bytes after its introducer.
        bytes: SequenceBytes,
    },
}
