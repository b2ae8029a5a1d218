// The flags of kitty's keyboard protocol.

ghost use Rattle.std.specs.Prelude.{⊤, [], ◌∷◌, codes};

use bitflags::{Flag, Flags};

/// What a program asks of a terminal in kitty's keyboard protocol, a set of sixteen bits. Its calls are those of the
/// trait [`Flags`].
///
/// The bits are those of the protocol ("Comprehensive keyboard handling in terminals", "Progressive enhancement"), and
/// the names are its names for them.
#[derive(Clone, Copy, PartialEq, Eq, Debug)]
pub struct KittyKeyboardFlags(u16);

impl KittyKeyboardFlags {
    /// Nothing is asked for.
    pub const NONE: KittyKeyboardFlags = KittyKeyboardFlags(0);

    /// Keys whose plain text is ambiguous, as that of Escape, are reported as escape codes.
    pub const DISAMBIGUATE_ESCAPE_CODES: KittyKeyboardFlags = KittyKeyboardFlags(1);

    /// Repeats and releases of a key are reported, and not presses alone.
    pub const REPORT_EVENT_TYPES: KittyKeyboardFlags = KittyKeyboardFlags(1 << 1);

    /// A key is reported with its shifted code and with its code on the standard layout.
    pub const REPORT_ALTERNATE_KEYS: KittyKeyboardFlags = KittyKeyboardFlags(1 << 2);

    /// Keys that make text are reported as escape codes too.
    pub const REPORT_ALL_KEYS_AS_ESCAPE_CODES: KittyKeyboardFlags = KittyKeyboardFlags(1 << 3);

    /// A key that makes text is reported with that text.
    pub const REPORT_ASSOCIATED_TEXT: KittyKeyboardFlags = KittyKeyboardFlags(1 << 4);

    const FLAGS: &'static [Flag<KittyKeyboardFlags>] = &[
        Flag {
            name: "NONE",
            value: KittyKeyboardFlags::NONE,
        },
        Flag {
            name: "DISAMBIGUATE_ESCAPE_CODES",
            value: KittyKeyboardFlags::DISAMBIGUATE_ESCAPE_CODES,
        },
        Flag {
            name: "REPORT_EVENT_TYPES",
            value: KittyKeyboardFlags::REPORT_EVENT_TYPES,
        },
        Flag {
            name: "REPORT_ALTERNATE_KEYS",
            value: KittyKeyboardFlags::REPORT_ALTERNATE_KEYS,
        },
        Flag {
            name: "REPORT_ALL_KEYS_AS_ESCAPE_CODES",
            value: KittyKeyboardFlags::REPORT_ALL_KEYS_AS_ESCAPE_CODES,
        },
        Flag {
            name: "REPORT_ASSOCIATED_TEXT",
            value: KittyKeyboardFlags::REPORT_ASSOCIATED_TEXT,
        },
    ];
}

impl Flags for KittyKeyboardFlags {
    type Bits = u16;

    ghost exact = { ⊤ };

    ghost table = { (codes "NONE", 0)
        ∷ (codes "DISAMBIGUATE_ESCAPE_CODES", 1)
        ∷ (codes "REPORT_EVENT_TYPES", 2)
        ∷ (codes "REPORT_ALTERNATE_KEYS", 4)
        ∷ (codes "REPORT_ALL_KEYS_AS_ESCAPE_CODES", 8)
        ∷ (codes "REPORT_ASSOCIATED_TEXT", 16)
        ∷ [] };

    ghost set_of = { λ k. k.0 };

    fn flags<'a>() -> &'a [Flag<KittyKeyboardFlags>] {
        KittyKeyboardFlags::FLAGS
    }

    fn bits(&self) -> u16 {
        self.0
    }

    fn from_bits_retain(bits: u16) -> KittyKeyboardFlags {
        KittyKeyboardFlags(bits)
    }
}
