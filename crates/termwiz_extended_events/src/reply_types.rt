//! What a terminal's replies say.
ghost use Rattle.std.specs.Prelude.{◌≡◌, ◌==◌};
ghost use Rattle.std.specs.Cmp.Rules.{comparing};
ghost use Rattle.std.specs.Cmp.Lexicographic.{pointwise};
ghost use Rattle.std.proofs.Common.{rules};

use crate::types::SequenceBytes;
use std::marker::Model;

/// The numbers of a reply. Contracts see them as a list.
#[derive(Debug, Drop)]
pub struct ReplyNumbers {
    inner: Vec<u32>,
}

impl Model for ReplyNumbers {
    ghost use Rattle.std.specs.Prelude.{List, ℕ};

    ghost Value = { List ℕ };

    ghost view = { λ n. n.inner.items };
}

impl PartialEq for ReplyNumbers {
    ghost eq = { pointwise ◌==◌ };

    ghost laws = { Prim.search (comparing, rules) };

    fn eq(&self, other: &ReplyNumbers) -> bool {
        self.inner == other.inner
    }
}

impl Eq for ReplyNumbers {
    ghost laws = { Prim.search (comparing, rules) };
}

impl ReplyNumbers {
    /// Wraps numbers, without copying them.
    pub fn new(numbers: Vec<u32>) -> ReplyNumbers
        ensures { result ≡ numbers.items }
    {
        ReplyNumbers { inner: numbers }
    }

    /// Returns the numbers, borrowed.
    pub fn as_slice(&self) -> &[u32]
        ensures { result.now ≡ self.now }
    {
        self.inner.as_slice()
    }

    /// Returns the numbers themselves, without copying them.
    pub fn into_vec(self) -> Vec<u32>
        ensures { result.items ≡ self }
    {
        let ReplyNumbers { inner: whole } = self;
        whole
    }
}

/// Which of the three reports of a terminal's attributes.
#[derive(Clone, Copy, PartialEq, Eq, Debug)]
pub enum DeviceAttributes {
    /// DA1, asked for by ESC `[c`: the class of the terminal, such as 62 for a VT220, and what it can do, such as 4 for sixels.
    Primary,
    /// DA2, asked for by ESC `[>c`: the type of the terminal, its version, and 0.
    Secondary,
    /// DA3, asked for by ESC `[=c`: the bytes of the unit's number, mostly four.
    Tertiary,
}

/// The state of a mode.
#[derive(Clone, Copy, PartialEq, Eq, Debug)]
pub enum ModeState {
    /// The terminal doesn't know the mode.
    NotRecognized,
    /// The mode is on.
    Set,
    /// The mode is off.
    Reset,
    /// The mode is on and can't be switched off.
    PermanentlySet,
    /// The mode is off and can't be switched on.
    PermanentlyReset,
}

/// Which colour a reply is about.
#[derive(Clone, Copy, PartialEq, Eq, Debug)]
pub enum ColourName {
    /// A colour of the palette, by its index (OSC 4).
    Palette(u16),
    /// The colour of text (OSC 10).
    Foreground,
    /// The colour behind text (OSC 11).
    Background,
    /// The colour of the cursor (OSC 12).
    Cursor,
}

/// A colour. Each part is from 0 to 65535, however many digits the terminal wrote.
#[derive(Clone, Copy, PartialEq, Eq, Debug)]
pub struct Colour {
    /// How red it is.
    pub red: u16,
    /// How green it is.
    pub green: u16,
    /// How blue it is.
    pub blue: u16,
}

/// The colour scheme that the terminal's user prefers.
#[derive(Clone, Copy, PartialEq, Eq, Debug)]
pub enum ColourScheme {
    /// Bright text on a dark background.
    Dark,
    /// Dark text on a bright background.
    Light,
}

/// What a terminal replied to a question, in values.
#[derive(PartialEq, Eq, Debug, Drop)]
pub enum Reply {
    /// The terminal's attributes (DA1, DA2, DA3).
    DeviceAttributes {
        /// Which report it is.
        report: DeviceAttributes,
        /// Its numbers.
        numbers: ReplyNumbers,
    },
    /// The state of a mode (DECRPM), asked for by ESC `[?` mode `$p`, or without the question mark for an ANSI mode.
    Mode {
        /// The number of the mode.
        mode: u32,
        /// Whether it is a private mode, which has a question mark, and not an ANSI mode.
        is_private: bool,
        /// Its state.
        state: ModeState,
    },
    /// A colour (OSC 4, 10, 11 and 12).
    Colour {
        /// Which colour it is.
        name: ColourName,
        /// The colour.
        colour: Colour,
    },
    /// The terminal's name and version (XTVERSION), asked for by ESC `[>q`, such as `XTerm(379)`.
    Version(SequenceBytes),
    /// The size of the window in characters, asked for by ESC `[18t`.
    WindowSize {
        /// The number of rows.
        rows: u16,
        /// The number of columns.
        columns: u16,
    },
    /// The preferred colour scheme, asked for by ESC `[?996n` or reported with mode 2031.
    ColourScheme(ColourScheme),
    /// What is in the clipboard or in a selection (OSC 52).
    Clipboard {
        /// The letter or digit of the selection: `c`, `p`, `q`, `s`, or `0` to `7`. `None` if the terminal left it out.
        selection: Option<u8>,
        /// What it holds, decoded from base64.
        bytes: SequenceBytes,
    },
}
