// The modifier keys that are held while another key is pressed.

ghost use Rattle.std.specs.Prelude.{⊤, ◌≡◌, [], ◌∷◌, codes};
ghost use Rattle.bitflags.specs.Sets.{without};
ghost use Rattle.termwiz_base.specs.Modifiers.{positional, xterm_number};

use bitflags::{Flag, Flags};

/// A set of modifier keys, such as those held while another key is pressed. Its methods are those of the trait
/// [`Flags`], such as `contains` and `union`. The names are those of the crate termwiz; which bit stands for which name
/// is this crate's own choice.
#[derive(Clone, Copy, PartialEq, Eq, Hash, Debug, Default)]
pub struct Modifiers(u16);

impl Modifiers {
    /// No modifier.
    pub const NONE: Modifiers = Modifiers(0);

    /// Shift.
    pub const SHIFT: Modifiers = Modifiers(1 << 1);

    /// Alt.
    pub const ALT: Modifiers = Modifiers(1 << 2);

    /// Ctrl.
    pub const CTRL: Modifiers = Modifiers(1 << 3);

    /// Super: the key with the Windows logo, or Command.
    pub const SUPER: Modifiers = Modifiers(1 << 4);

    /// The left Alt key.
    pub const LEFT_ALT: Modifiers = Modifiers(1 << 5);

    /// The right Alt key.
    pub const RIGHT_ALT: Modifiers = Modifiers(1 << 6);

    /// A leader key, for programs that define one.
    pub const LEADER: Modifiers = Modifiers(1 << 7);

    /// The left Ctrl key.
    pub const LEFT_CTRL: Modifiers = Modifiers(1 << 8);

    /// The right Ctrl key.
    pub const RIGHT_CTRL: Modifiers = Modifiers(1 << 9);

    /// The left Shift key.
    pub const LEFT_SHIFT: Modifiers = Modifiers(1 << 10);

    /// The right Shift key.
    pub const RIGHT_SHIFT: Modifiers = Modifiers(1 << 11);

    const FLAGS: &'static [Flag<Modifiers>] = &[
        Flag {
            name: "NONE",
            value: Modifiers::NONE,
        },
        Flag {
            name: "SHIFT",
            value: Modifiers::SHIFT,
        },
        Flag {
            name: "ALT",
            value: Modifiers::ALT,
        },
        Flag {
            name: "CTRL",
            value: Modifiers::CTRL,
        },
        Flag {
            name: "SUPER",
            value: Modifiers::SUPER,
        },
        Flag {
            name: "LEFT_ALT",
            value: Modifiers::LEFT_ALT,
        },
        Flag {
            name: "RIGHT_ALT",
            value: Modifiers::RIGHT_ALT,
        },
        Flag {
            name: "LEADER",
            value: Modifiers::LEADER,
        },
        Flag {
            name: "LEFT_CTRL",
            value: Modifiers::LEFT_CTRL,
        },
        Flag {
            name: "RIGHT_CTRL",
            value: Modifiers::RIGHT_CTRL,
        },
        Flag {
            name: "LEFT_SHIFT",
            value: Modifiers::LEFT_SHIFT,
        },
        Flag {
            name: "RIGHT_SHIFT",
            value: Modifiers::RIGHT_SHIFT,
        },
    ];
}

impl Flags for Modifiers {
    type Bits = u16;

    ghost exact = { ⊤ };

    ghost table = { (codes "NONE", 0)
        ∷ (codes "SHIFT", 2)
        ∷ (codes "ALT", 4)
        ∷ (codes "CTRL", 8)
        ∷ (codes "SUPER", 16)
        ∷ (codes "LEFT_ALT", 32)
        ∷ (codes "RIGHT_ALT", 64)
        ∷ (codes "LEADER", 128)
        ∷ (codes "LEFT_CTRL", 256)
        ∷ (codes "RIGHT_CTRL", 512)
        ∷ (codes "LEFT_SHIFT", 1024)
        ∷ (codes "RIGHT_SHIFT", 2048)
        ∷ [] };

    ghost set_of = { λ m. m.0 };

    fn flags<'a>() -> &'a [Flag<Modifiers>] {
        Modifiers::FLAGS
    }

    fn bits(&self) -> u16 {
        self.0
    }

    fn from_bits_retain(bits: u16) -> Modifiers {
        Modifiers(bits)
    }
}

impl Modifiers {
    /// Returns the modifiers without the six flags that name a left or a right key. The other flags are unchanged: a
    /// caller that doesn't care which Alt key is held looks at ALT alone.
    pub fn remove_positional_mods(self) -> Modifiers
        ensures { result.0 ≡ without 16 self.0 positional }
    {
        let left = Modifiers::LEFT_ALT
            .union(Modifiers::LEFT_CTRL)
            .union(Modifiers::LEFT_SHIFT);
        let right = Modifiers::RIGHT_ALT
            .union(Modifiers::RIGHT_CTRL)
            .union(Modifiers::RIGHT_SHIFT);
        self.difference(left.union(right))
    }

    /// Returns the number by which xterm's key sequences tell these modifiers: 1 for SHIFT plus 2 for ALT plus 4 for
    /// CTRL. Other flags don't count. The parameter in a sequence is one more than this number ("PC-Style Function
    /// Keys" in xterm's "Control Sequences").
    pub fn encode_xterm(self) -> u8
        ensures { result ≡ xterm_number self.0 }
    {
        let mut number = 0;
        if self.contains(Modifiers::SHIFT) {
            number += 1;
        }
        if self.contains(Modifiers::ALT) {
            number += 2;
        }
        if self.contains(Modifiers::CTRL) {
            number += 4;
        }
        number
    }
}
