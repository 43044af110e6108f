//! What a frame is answered.
ghost use Rattle.std.specs.Prelude.{◌≡◌, ◌≤◌, true, length, take};
ghost use Rattle.fidl_frames.specs.Frames.{IsFrame};
ghost use Rattle.fidl_frames.specs.declared.frame.TheConstants.{MAX_FRAME};
ghost use Rattle.fidl_script.specs.Script.{IsScriptFor};
ghost use Rattle.fidl_serve.specs.Replying.{frame_of, unknown_method_body, answer_of, script_after};
ghost use Rattle.fidl_serve.specs.Cursors.{left_of, ArePlaces, AreReady, HasMethodFor};
ghost use Rattle.fidl_serve.specs.Turns.{Reacts, reaction_answer, reply_length};

use crate::call::reply_to_call;
use crate::frame::put_frame;
use crate::service::Service;
use fidl_decode::Scratch;
use fidl_header::Header;
use fidl_requests::{Ended, Frame, Verdict, judge};
use fidl_script::Script;

/// What a frame is answered.
#[derive(Clone, Copy, Debug, Drop)]
pub(crate) enum Reaction {
    /// Nothing.
    Silence,
    /// So many bytes at the front of the buffer.
    Reply(usize),
    /// The end.
    End(Ended),
}

/// The body of the reply to an unknown method: the union of ordinal 3 with the int32 -2, which is
/// `ZX_ERR_NOT_SUPPORTED` (public source: the FIDL wire format, "Transactional messages").
const UNKNOWN_METHOD: [u8; 16] = [3, 0, 0, 0, 0, 0, 0, 0, 0xfe, 0xff, 0xff, 0xff, 0, 0, 1, 0];

/// Writes the reply to an unknown method over the front of the buffer, and gives its length.
fn reply_to_unknown(buffer: &mut [u8], txid: u32, ordinal: u64) -> usize
    requires { length buffer.old ≡ MAX_FRAME }
    ensures frame { take result buffer.new
        ≡ frame_of (record { txid = txid; flexible = true; ordinal = ordinal })
        unknown_method_body }
    ensures within { result ≤ length buffer.new }
{
    let header = Header {
        txid,
        flexible: true,
        ordinal,
    };
    put_frame(buffer, &header, &UNKNOWN_METHOD, &[])
}

/// Answers a frame of this verdict by the replies of the script from their places on. A reply is at
/// the front of the buffer.
fn react(script: &Script, places: &mut [usize], buffer: &mut [u8], verdict: Verdict) -> Reaction
    requires ready { AreReady script.now.methods }
    requires known { HasMethodFor verdict script.now.methods }
    requires places { ArePlaces script.now places.old }
    requires room { length buffer.old ≡ MAX_FRAME }
    ensures places { ArePlaces script.now places.new }
    ensures answer { answer_of (left_of script.now places.old) verdict
        ≡ reaction_answer buffer.new result }
    ensures next { left_of script.now places.new
        ≡ script_after (left_of script.now places.old) verdict }
    ensures within { reply_length result ≤ length buffer.new }
{
    match verdict {
        Verdict::Silence => Reaction::Silence,
        Verdict::Unknown(txid, ordinal) => {
            Reaction::Reply(reply_to_unknown(buffer, txid, ordinal))
        }
        Verdict::Call(txid, ordinal) => {
            Reaction::Reply(reply_to_call(script, places, buffer, txid, ordinal))
        }
        Verdict::End(ended) => Reaction::End(ended),
    }
}

/// Answers the frame of `count` bytes at the front of the buffer, by the replies of the script from
/// their places on. A reply is written over the frame.
pub(crate) fn answer(
    service: &Service<'_, '_>,
    places: &mut [usize],
    buffer: &mut [u8],
    scratch: &mut Scratch,
    count: usize,
) -> Reaction
    requires table { service.now.protocol.now.table ≡ service.now.table.now }
    requires script { IsScriptFor service.now.protocol.now service.now.script.now }
    requires places { ArePlaces service.now.script.now places.old }
    requires room { length buffer.old ≡ MAX_FRAME }
    requires within { count ≤ length buffer.old }
    requires frame { IsFrame (take count buffer.old) }
    ensures places { ArePlaces service.now.script.now places.new }
    ensures reacts { Reacts service.now.protocol.now (left_of service.now.script.now places.old)
        (left_of service.now.script.now places.new) (take count buffer.old) buffer.new result }
    ensures within { reply_length result ≤ length buffer.new }
{
    let frame = Frame::new(&mut buffer[..count]);
    let verdict = judge(service.table, service.protocol, frame, scratch);
    react(service.script, places, buffer, verdict)
}
