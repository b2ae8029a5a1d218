// What the Ctrl key makes of a character.

ghost use Rattle.std.specs.Prelude.{◌≡◌};
ghost use Rattle.termwiz_base.specs.Control.{control_of};

/// The ASCII control character that a terminal sends for `c` with Ctrl held, or `None` if there is none.
///
/// The characters from `@` to `~` give the control character with the same low five bits, and `?` gives DEL. The space,
/// `/` and the digits from `2` to `8` give what they give in xterm.
#[tactic(auto, unfolding(crate::specs::Control::control_of))]
pub fn ctrl_mapping(c: char) -> Option<char>
    ensures { result ≡ control_of c }
{
    match c {
        '@' | '`' | ' ' | '2' => Some('\x00'),
        'A'..='Z' => Some(((c as u8) - 64) as char),
        'a'..='z' => Some(((c as u8) - 96) as char),
        '[' | '3' | '{' => Some('\x1b'),
        '\\' | '4' | '|' => Some('\x1c'),
        ']' | '5' | '}' => Some('\x1d'),
        '^' | '6' | '~' => Some('\x1e'),
        '_' | '7' | '/' => Some('\x1f'),
        '8' | '?' => Some('\x7f'),
        _ => None,
    }
}
