// Texts and numbers that are copied to memory of the caller.
ghost use Rattle.std.specs.Prelude.{◌≡◌, ◌++◌, ◌∷◌, [], ℕ, List, length};
ghost use Rattle.hedrugal.specs.Calls.{copied};

use crate::status::OK;

// Copies as much of the text, or as many of the numbers, as `out` has room for, and returns its whole length.
pub(crate) fn copy_prefix<T: Copy>(text: &[T], out: &mut [T]) -> usize
    ensures len { result ≡ length text.now }
    ensures bytes { out.new ≡ copied text.now out.old }
{
    let len = text.len().min(out.len());
    out[..len].copy_from_slice(&text[..len]);
    text.len()
}

// Copies as much of the bytes as `out` has room for, sets `len` to how many they are, and returns `OK`.
pub(crate) fn write_out(bytes: &[u8], out: &mut [u8], len: &mut usize) -> u32
    ensures done { result ≡ OK }
    ensures len { len.new ≡ length bytes.now }
    ensures bytes { out.new ≡ copied bytes.now out.old }
{
    *len = copy_prefix(bytes, out);
    OK
}

// Puts a byte behind those of a text that was copied, if there is room for it.
pub(crate) fn put_behind(out: &mut [u8], len: usize, byte: u8)
    ensures { (text before : List ℕ) → len ≡ length text → out.old ≡ copied text before → out.new ≡ copied (text ++ byte ∷ []) before }
{
    if len < out.len() {
        out[len] = byte;
    }
}

// Copies as much of the text and a final zero byte as `out` has room for, and returns the text's length.
pub(crate) fn copy_with_zero(text: &[u8], out: &mut [u8]) -> usize
    ensures len { result ≡ length text.now }
    ensures bytes { out.new ≡ copied (text.now ++ (0 ∷ [])) out.old }
{
    let len = copy_prefix(text, out);
    put_behind(out, len, 0);
    len
}
