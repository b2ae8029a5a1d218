// The rows of the sequence table that would complete a text.
ghost use Rattle.std.specs.Prelude.{◌≡◌, ◌++◌, ℕ, List, IfSome, IfNone};
ghost use Rattle.termwiz_keymap.specs.KeysInOrder.{AreExtensions};
ghost use Rattle.termwiz_keys.specs.Introducers.{ESC};
ghost use Rattle.termwiz_grammar.specs.RowsInOrder.{AreCompletions, BeginsRows, BeginsRowsAfterEscape};
ghost use Rattle.termwiz_grammar.specs.Table.{table};

use crate::front::follows_escape;
use std::ops::Range;
use termwiz_keymap::keymap::KeyMap;
use termwiz_keys::types::KeyEvent;

/// What would complete the bytes that stay buffered: the answer of [`InputParser::completions`](crate::input::InputParser::completions).
#[derive(Clone, PartialEq, Eq, Debug, Drop)]
pub struct Completions {
    /// The places of the rows, as [`InputParser::row`](crate::input::InputParser::row) has them.
    pub rows: Range<usize>,
    /// Whether these rows begin with what follows a first ESC, so that their keys get ALT.
    pub with_alt: bool,
}

// The rows that begin with what follows the ESC of a text and are longer, if there are any.
fn rows_after_escape(key_map: &KeyMap<KeyEvent>, text: &[u8]) -> Option<Range<usize>>
    requires { key_map.now ≡ table }
    ensures some { IfSome result (λ rows. (after : List ℕ) × (text.now ≡ ESC ++ after) × BeginsRows after
        × AreExtensions table after rows.start rows.end) }
    ensures none { IfNone result (¬ BeginsRowsAfterEscape text.now) }
{
    let rows = key_map.extensions(follows_escape(text)?);
    if rows.start < rows.end {
        Some(rows)
    } else {
        None
    }
}

// The rows that begin with a text and are longer. If there are none, those that begin with what follows its ESC.
pub(crate) fn completions_of(key_map: &KeyMap<KeyEvent>, text: &[u8]) -> Completions
    requires { key_map.now ≡ table }
    ensures { AreCompletions text.now result.with_alt result.rows.start result.rows.end }
{
    let rows = key_map.extensions(text);
    match rows_after_escape(key_map, text) {
        Some(after) if rows.start >= rows.end => Completions {
            rows: after,
            with_alt: true,
        },
        _ => Completions {
            rows,
            with_alt: false,
        },
    }
}
