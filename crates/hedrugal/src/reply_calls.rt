// The call that reads what a terminal's reply says.
ghost use Rattle.std.specs.Prelude.{◌≡◌, ◌≢◌, ◌⊎◌, IfOk, OnErr, None};
ghost use Rattle.termwiz_extended_events.specs.ReplyValues.{NeedsMemory};
ghost use Rattle.hedrugal.specs.Replies.{Says, reply_in};

use crate::copying::copy_prefix;
use crate::events::{KIND_CSI, KIND_DCS, KIND_OSC};
use crate::replies::{CReply, bytes_in, c_reply, numbers_of};
use crate::status::{NO_MEMORY, NONE, OK};
use std::alloc::{AllocError, Global};
use termwiz_extended_events::reply::{csi_reply, dcs_reply, osc_reply};
use termwiz_extended_events::reply_types::Reply;

// The reply that an event of this kind with these bytes is.
fn reply_in(alloc: Global, kind: u8, bytes: &[u8]) -> Result<Option<Reply>, AllocError>
    ensures ok { IfOk result (λ reply. reply ≡ reply_in kind bytes.now) }
    ensures refused { OnErr result (NeedsMemory (reply_in kind bytes.now)) }
{
    match kind {
        KIND_CSI => csi_reply(alloc, bytes),
        KIND_OSC => osc_reply(alloc, bytes),
        KIND_DCS => dcs_reply(alloc, bytes),
        _ => Ok(None),
    }
}

/// Reads what an event of this kind with these bytes says as a terminal's reply. `reply` is what it says, `numbers` has as many of its numbers as
/// it has room for, and `out` as many of its bytes.
#[unsafe(no_mangle)]
pub extern "C" fn hed_read_reply(
    alloc: Global,
    kind: u8,
    bytes: &[u8],
    reply: &mut CReply,
    numbers: &mut [u32],
    out: &mut [u8],
) -> u32
    ensures answers { (result ≡ OK) ⊎ ((result ≡ NONE) ⊎ (result ≡ NO_MEMORY)) }
    ensures none { result ≡ NONE → reply_in kind bytes.now ≡ None }
    ensures values { result ≡ OK → Says kind bytes.now reply.new numbers.old numbers.new out.old out.new }
    ensures refused { result ≡ NO_MEMORY → NeedsMemory (reply_in kind bytes.now) }
    ensures same { result ≢ OK → reply.new ≡ reply.old }
    ensures same_numbers { result ≢ OK → numbers.new ≡ numbers.old }
    ensures same_bytes { result ≢ OK → out.new ≡ out.old }
{
    match reply_in(alloc, kind, bytes) {
        Ok(Some(found)) => {
            *reply = c_reply(&found);
            copy_prefix(numbers_of(&found), numbers);
            copy_prefix(bytes_in(&found), out);
            OK
        }
        Ok(None) => NONE,
        Err(_) => NO_MEMORY,
    }
}
