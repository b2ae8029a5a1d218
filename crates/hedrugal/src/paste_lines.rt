// The call that gives the lines of a paste the ends that programs have for theirs.
ghost use Rattle.std.specs.Prelude.{◌≡◌, length, false};
ghost use Rattle.hedrugal.specs.Calls.{copied};
ghost use Rattle.hedrugal.specs.PasteLines.{line_byte, lines};

use crate::copying::put_behind;

// What a byte becomes. `None` for an LF behind a CR.
fn line_byte(is_behind_cr: bool, byte: u8) -> Option<u8>
    ensures { result ≡ line_byte is_behind_cr byte }
{
    match byte {
        b'\n' if is_behind_cr => None,
        b'\r' => Some(b'\n'),
        _ => Some(byte),
    }
}

/// Copies a pasted text with LF in the place of each CR, and of each CR LF. `out` has as much of it as it has room for. Returns its length.
#[unsafe(no_mangle)]
pub extern "C" fn hed_paste_lines(text: &[u8], out: &mut [u8]) -> usize
    ensures len { result ≡ length (lines false text.now) }
    ensures bytes { out.new ≡ copied (lines false text.now) out.old }
{
    let mut len = 0;
    let mut is_behind_cr = false;
    for byte in text {
        let written = line_byte(is_behind_cr, *byte);
        is_behind_cr = *byte == b'\r';
        let Some(written) = written else {
            continue;
        };
        put_behind(out, len, written);
        len += 1;
    }
    len
}
