//! Questions about bytes that several modules ask.
ghost use Rattle.std.specs.Prelude.{◌≡◌, ◌≤◌, ◌↔◌, [], length, IsTrue, Some};
ghost use Rattle.memchr.specs.Find.{FindsNeedle};
ghost use Rattle.termwiz_keymap.specs.Bytes.{Begins};

use memchr::memmem;

/// Whether the text begins with `prefix`.
pub fn begins_with(text: &[u8], prefix: &[u8]) -> bool
    ensures { IsTrue result ↔ Begins prefix.now text.now }
{
    text.starts_with(prefix)
}

/// The first place at or after `offset` where `needle` occurs; an empty needle occurs at `offset`.
pub fn find_from(text: &[u8], offset: usize, needle: &[u8]) -> Option<usize>
    requires { offset ≤ length text.now }
    ensures first { FindsNeedle text.now needle.now offset result }
    ensures empty { needle.now ≡ [] → result ≡ Some offset }
{
    let found = memmem::find(&text[offset..], needle)?;
    Some(offset + found)
}
