//! The reply to a call.
ghost use Rattle.std.specs.Prelude.{◌≡◌, ◌+◌, ◌-◌, ◌<◌, ◌≤◌, min, length, take, slice_index_or};
ghost use Rattle.std.specs.List.{AllByRecursion};
ghost use Rattle.fidl_frames.specs.declared.frame.TheConstants.{MAX_FRAME};
ghost use Rattle.fidl_requests.specs.declared.verdict.Verdict.{Verdict};
ghost use Rattle.fidl_script.specs.Script.{bodies_of};
ghost use Rattle.fidl_serve.specs.Replying.{reply, frame_of, answer_of, script_after};
ghost use Rattle.fidl_serve.specs.Cursors.{left_of, ArePlaces, HasMethodOf, Fits, AreReady};

use crate::frame::put_frame;
use crate::method::method_place;
use fidl_header::Header;
use fidl_script::{Replies, Script};

/// The place after this one of so many; the last one stays.
fn next_place(place: usize, count: usize) -> usize
    requires { place < count }
    ensures { result ≡ min (place + 1) (count - 1) }
{
    if place + 1 < count { place + 1 } else { place }
}

/// Writes the frame of a method's reply over the front of the buffer, and gives its length.
fn put_reply(replies: &Replies, place: usize, txid: u32, buffer: &mut [u8]) -> usize
    requires place { place < length (bodies_of replies.now) }
    requires fit { AllByRecursion Fits (bodies_of replies.now) }
    requires room { length buffer.old ≡ MAX_FRAME }
    ensures frame { take result buffer.new ≡ frame_of (record {
      txid = txid;
      flexible = replies.now.flexible;
      ordinal = replies.now.ordinal;
    }) (slice_index_or (bodies_of replies.now) place replies.now.next) }
    ensures within { result ≤ length buffer.new }
{
    let header = Header {
        txid,
        flexible: replies.flexible(),
        ordinal: replies.ordinal(),
    };
    let body = &replies.bodies()[place];
    put_frame(buffer, &header, &body.bytes, &body.handles)
}

/// Writes the reply to a call over the front of the buffer, and gives its length. The next call of
/// the method gets the next reply.
pub(crate) fn reply_to_call(
    script: &Script,
    places: &mut [usize],
    buffer: &mut [u8],
    txid: u32,
    ordinal: u64,
) -> usize
    requires ready { AreReady script.now.methods }
    requires known { HasMethodOf ordinal script.now.methods }
    requires places { ArePlaces script.now places.old }
    requires room { length buffer.old ≡ MAX_FRAME }
    ensures places { ArePlaces script.now places.new }
    ensures answer { answer_of (left_of script.now places.old) (Verdict.Call txid ordinal)
        ≡ reply (take result buffer.new) }
    ensures next { left_of script.now places.new
        ≡ script_after (left_of script.now places.old) (Verdict.Call txid ordinal) }
    ensures within { result ≤ length buffer.new }
{
    let methods = script.methods();
    let index = method_place(methods, ordinal);
    let replies = &methods[index];
    let place = places[index];
    places[index] = next_place(place, replies.bodies().len());
    put_reply(replies, place, txid, buffer)
}
