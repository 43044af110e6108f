//! Printing the line of a frame.
ghost use Rattle.std.specs.Prelude.{◌≡◌, ◌<◌};
ghost use Rattle.fidl_wire.specs.Value.{Value};
ghost use Rattle.fidl_table_format.specs.Section.{header_of};
ghost use Rattle.fidl_header.specs.Header.{IsHeader};
ghost use Rattle.fidl_decode_model.specs.declared.fault.DecodeFault.{DecodeFault};
ghost use Rattle.fidl_requests.specs.Frame.{message_of};
ghost use Rattle.fidl_dump.specs.Lines.{body_of, IsBare, Holds, value_text, IsLine};
ghost use Rattle.fidl_dump.specs.Lines.{unknown_line, bare_line, value_line};
ghost use Rattle.fidl_dump.specs.Faults.{IsBodyFault, IsFrameFault};
ghost use Rattle.fidl_dump.specs.Printed.{Prints, KeepsError};

use crate::direction::carried;
use crate::fault::FrameFault;
use crate::line::{write_bare, write_unknown, write_value};
use crate::stream::Stream;
use fidl_decode::{Scratch, decode};
use fidl_header::{HEADER_BYTES, Header};
use fidl_requests::{Frame, HANDLE_ROOM};
use fidl_text::{Failed, Output};
use fidl_verify::{Payload, Table};
use std::io::Write;

/// Why the line of a frame is not printed whole.
#[derive(Clone, Copy, Debug, Drop)]
pub(crate) enum Unprinted {
    /// It has none.
    Refused(FrameFault),
    /// A write failed.
    Write,
}

/// A frame whose header has the ordinal of a method, and that method's name.
#[derive(Drop)]
struct Named<'f, 'n> {
    frame: Frame<'f>,
    header: Header,
    name: &'n [u8],
}

/// The bytes after the header of a frame's message, to be decoded in place.
fn body_of<'f>(frame: Frame<'f>) -> &'f mut [u8]
    requires { IsHeader (message_of frame) }
    ensures { result.now ≡ body_of frame.entry }
{
    let message = frame.into_message();
    &mut message[HEADER_BYTES..]
}

/// Prints the line of a message of an unknown ordinal.
fn print_unknown<W: Write>(header: &Header, out: &mut Output<W>) -> Result<(), Unprinted>
    ensures prints { Prints (λ line. line ≡ unknown_line header.now) (λ fault. ⊥)
        (W.contents out.old.writer) (W.contents out.new.writer) result }
    ensures error { KeepsError out.old.failure out.new.failure result }
{
    match write_unknown(header, out) {
        Ok(()) => Ok(()),
        Err(Failed) => Err(Unprinted::Write),
    }
}

/// Prints the line of a message whose method lets it carry nothing.
fn print_bare<W: Write>(named: &Named<'_, '_>, out: &mut Output<W>) -> Result<(), Unprinted>
    requires { IsHeader (message_of named.now.frame) }
    ensures prints { Prints
        (λ line. IsBare named.now.frame
        × (line ≡ bare_line named.now.header named.now.name.now))
        (λ fault. (fault ≡ FrameFault.BadMessage) × ¬ (IsBare named.now.frame))
        (W.contents out.old.writer) (W.contents out.new.writer) result }
    ensures error { KeepsError out.old.failure out.new.failure result }
{
    let mut room = HANDLE_ROOM;
    let handles = named.frame.handles(&mut room);
    if named.frame.message().len() != HEADER_BYTES || !handles.is_empty() {
        return Err(Unprinted::Refused(FrameFault::BadMessage));
    }
    match write_bare(&named.header, named.name, out) {
        Ok(()) => Ok(()),
        Err(Failed) => Err(Unprinted::Write),
    }
}

/// Prints the line of a message that carries a value of the type of an entry.
fn print_value<W: Write>(
    table: &Table<'_>,
    entry: u32,
    named: Named<'_, '_>,
    scratch: &mut Scratch,
    out: &mut Output<W>,
) -> Result<(), Unprinted>
    requires entry { entry < (header_of table.now).entries }
    requires header { IsHeader (message_of named.frame) }
    ensures prints { let n = named.entry in Prints
        (λ line. (v : Value) × Holds table.now entry n.frame v
        × (line ≡ value_line n.header n.name.now (value_text table.now entry v)))
        (λ fault. (refused : DecodeFault) × (fault ≡ FrameFault.Body refused)
        × IsBodyFault table.now entry n.frame refused)
        (W.contents out.old.writer) (W.contents out.new.writer) result }
    ensures error { KeepsError out.old.failure out.new.failure result }
{
    let mut room = HANDLE_ROOM;
    let Named {
        frame,
        header,
        name,
    } = named;
    let handles = frame.handles(&mut room);
    let body = body_of(frame);
    let decoded = match decode(table, entry, body, handles, scratch) {
        Ok(decoded) => decoded,
        Err(fault) => return Err(Unprinted::Refused(FrameFault::Body(fault))),
    };
    match write_value(&header, name, &decoded, out) {
        Ok(()) => Ok(()),
        Err(Failed) => Err(Unprinted::Write),
    }
}

/// Prints the line of a frame, whose message is decoded where it stands. Nothing is printed of a
/// frame that has none.
pub(crate) fn print_frame<W: Write>(
    stream: &Stream<'_, '_>,
    frame: Frame<'_>,
    scratch: &mut Scratch,
    out: &mut Output<W>,
) -> Result<(), Unprinted>
    ensures prints { Prints (IsLine stream.now.protocol.now stream.now.direction frame.entry)
        (IsFrameFault stream.now.protocol.now stream.now.direction frame.entry)
        (W.contents out.old.writer) (W.contents out.new.writer) result }
    ensures error { KeepsError out.old.failure out.new.failure result }
{
    let header = match Header::read(frame.message()) {
        Ok(header) => header,
        Err(fault) => return Err(Unprinted::Refused(FrameFault::Header(fault))),
    };
    let Some(method) = stream.protocol.method(header.ordinal) else {
        return print_unknown(&header, out);
    };
    let payload = carried(stream.direction, &method);
    let name = method.name();
    let named = Named {
        frame,
        header,
        name,
    };
    match payload {
        Payload::Missing => print_unknown(&header, out),
        Payload::Empty => print_bare(&named, out),
        Payload::Entry(entry) => print_value(stream.table, entry, named, scratch, out),
    }
}
