//! What a frame asks of a service.
ghost use Rattle.std.specs.Prelude.{◌≡◌, ◌↔◌, IsTrue};
ghost use Rattle.fidl_header.specs.Header.{IsHeader};
ghost use Rattle.fidl_verify.specs.Lookups.{openness_number};
ghost use Rattle.fidl_requests.specs.Frame.{message_of};
ghost use Rattle.fidl_requests.specs.Verdict.{IsBody, IsCalledRight, IsVerdict, unknown_verdict};

use crate::body::is_carried;
use crate::ended::Ended;
use crate::frame::{Frame, HANDLE_ROOM};
use crate::method::{is_two_way, requested};
use fidl_decode::Scratch;
use fidl_header::{HEADER_BYTES, Header};
use fidl_verify::{Method, Openness, Protocol, Table};

/// What a frame asks of a service.
#[derive(Clone, Copy, PartialEq, Eq, Debug, Drop)]
pub enum Verdict {
    /// Nothing: a one-way call, or an unknown one that is skipped.
    Silence,
    /// The reply to an unknown method, by transaction id and ordinal.
    Unknown(u32, u64),
    /// The next reply of a method, by transaction id and ordinal.
    Call(u32, u64),
    /// The end.
    End(Ended),
}

/// What an ordinal asks that is no method with a request.
fn unknown(openness: Openness, header: Header) -> Verdict
    ensures { result ≡ unknown_verdict (openness_number openness) header }
{
    match (header.flexible, header.txid, openness) {
        (true, 0, Openness::Ajar | Openness::Open) => Verdict::Silence,
        (true, txid, Openness::Open) => Verdict::Unknown(txid, header.ordinal),
        _ => Verdict::End(Ended::StrictUnknown),
    }
}

/// Whether calls of a method have this transaction id: 0 exactly where it is one-way.
fn is_called_right(two_way: bool, txid: u32) -> bool
    ensures { IsTrue result ↔ IsCalledRight two_way txid }
{
    two_way == (txid != 0)
}

/// Whether the body of a frame is what the request of a method carries.
fn is_body(table: &Table<'_>, method: &Method<'_>, frame: Frame<'_>, scratch: &mut Scratch) -> bool
    requires table { method.now.table ≡ table.now }
    requires header { IsHeader (message_of frame) }
    ensures { IsTrue result ↔ IsBody table.now method.now.number frame.entry }
{
    let mut room = HANDLE_ROOM;
    let handles = frame.handles(&mut room);
    let message = frame.into_message();
    let body = &mut message[HEADER_BYTES..];
    is_carried(table, method.request(), body, handles, scratch)
}

/// What the frame asks of a service of this protocol. Its message is decoded where it stands, so the
/// decoder's links can be left in it.
///
/// BadMessage comes where it has no header, the transaction id is not one of the method's calls, or
/// the body is not what the method's request carries. StrictUnknown comes where no method with a
/// request has the ordinal, and the flexible bit or the protocol's openness forbids the call.
pub fn judge(
    table: &Table<'_>,
    protocol: &Protocol<'_>,
    frame: Frame<'_>,
    scratch: &mut Scratch,
) -> Verdict
    requires { protocol.now.table ≡ table.now }
    ensures { IsVerdict protocol.now frame.entry result }
{
    let header = match Header::read(frame.message()) {
        Ok(header) => header,
        Err(_) => return Verdict::End(Ended::BadMessage),
    };
    let Some(method) = requested(protocol, header.ordinal) else {
        return unknown(protocol.openness(), header);
    };
    let two_way = is_two_way(&method);
    if !is_called_right(two_way, header.txid) {
        return Verdict::End(Ended::BadMessage);
    }
    if !is_body(table, &method, frame, scratch) {
        return Verdict::End(Ended::BadMessage);
    }
    if two_way {
        Verdict::Call(header.txid, header.ordinal)
    } else {
        Verdict::Silence
    }
}
