//! The body of a reply, by the text behind its method.
ghost use Rattle.std.specs.Prelude.{◌≡◌, ◌≢◌, ◌<◌, IsFalse, IfOk, OnOk, IfSome, IfNone, None};
ghost use Rattle.std.specs.Prelude.{MatchOption};
ghost use Rattle.fidl_wire.specs.Views.{value_view};
ghost use Rattle.fidl_table_format.specs.Section.{header_of};
ghost use Rattle.fidl_verify.specs.Lookups.{EntryHolds};
ghost use Rattle.fidl_reading.specs.declared.fault.NotationFault.TheVariants as unread;
ghost use Rattle.fidl_encode.specs.declared.fault.EncodeFault.TheVariants as unencoded;
ghost use Rattle.fidl_script.specs.Script.{Body, FitsBehindHeader};
ghost use Rattle.fidl_script.specs.Text.{HasBody, SpellsBody, GivesBody};
ghost use Rattle.fidl_script.specs.Held.{body_view, text_view};

use crate::phrases::ReplyWords;
use fidl_encode::{EncodeFault, Message, encode};
use fidl_limits::MAX_MESSAGE_BYTES;
use fidl_reading::{NotationFault, read_value};
use fidl_verify::{Payload, Table};
use fidl_wire::Value;
use std::alloc::{AllocError, Global};

/// How many bytes of a message its header takes.
const HEADER_BYTES: usize = 16;

/// Whether it is memory that ran out when a text was read.
fn ran_out_in_reading(fault: NotationFault) -> bool
    ensures { IsFalse result → fault ≢ unread.Memory }
{
    match fault {
        NotationFault::Memory => true,
        NotationFault::Syntax { .. }
        | NotationFault::UnknownName { .. }
        | NotationFault::OutOfRange { .. }
        | NotationFault::Repeated { .. } => false,
    }
}

/// Whether it is memory that ran out when a value was encoded.
fn ran_out_in_encoding(fault: EncodeFault) -> bool
    ensures { IsFalse result → fault ≢ unencoded.Memory }
{
    match fault {
        EncodeFault::Memory => true,
        _ => false,
    }
}

/// That a text spells no body, by the refusal to read it. `AllocError`: memory ran out.
fn unread_body(fault: NotationFault) -> Result<Option<Message>, AllocError>
    ensures none { IfOk result (λ found. found ≡ None) }
    ensures judged { OnOk result (fault ≢ unread.Memory) }
{
    if ran_out_in_reading(fault) {
        return Err(AllocError);
    }
    Ok(None)
}

/// That a value has no body, by the refusal to encode it. `AllocError`: memory ran out.
fn unencoded_body(fault: EncodeFault) -> Result<Option<Message>, AllocError>
    ensures none { IfOk result (λ found. found ≡ None) }
    ensures judged { OnOk result (fault ≢ unencoded.Memory) }
{
    if ran_out_in_encoding(fault) {
        return Err(AllocError);
    }
    Ok(None)
}

/// The message, where it is within the limit together with a header.
fn fitting(message: Message) -> Option<Message>
    ensures fits { IfSome result (λ m. (m ≡ message) × FitsBehindHeader (body_view m)) }
    ensures none { IfNone result (¬ (FitsBehindHeader (body_view message))) }
{
    if message.bytes.len() > MAX_MESSAGE_BYTES - HEADER_BYTES {
        return None;
    }
    Some(message)
}

/// The body of a value of the entry's type, where it has one. `AllocError`: memory ran out.
fn encoded_body(
    alloc: Global,
    table: &Table<'_>,
    entry: u32,
    value: &Value,
) -> Result<Option<Message>, AllocError>
    requires { entry < (header_of table.now).entries }
    ensures { IfOk result (λ found. MatchOption found
        ((body : Body) → ¬ (HasBody table.now entry (value_view value.now) body))
        (λ m. HasBody table.now entry (value_view value.now) (body_view m))) }
{
    match encode(alloc, table, entry, value) {
        Ok(message) => Ok(fitting(message)),
        Err(fault) => unencoded_body(fault),
    }
}

/// The body that a text spells, where it spells one. `AllocError`: memory ran out.
fn spelled_body(
    alloc: Global,
    table: &Table<'_>,
    entry: u32,
    text: &[u8],
) -> Result<Option<Message>, AllocError>
    requires { entry < (header_of table.now).entries }
    ensures { IfOk result (λ found. MatchOption found
        ((body : Body) → ¬ (SpellsBody table.now entry text.now body))
        (λ m. SpellsBody table.now entry text.now (body_view m))) }
{
    // Read, so that the table is known to be well formed.
    let _entries = table.entries();
    match read_value(alloc, table, entry, text) {
        Ok(value) => encoded_body(alloc, table, entry, &value),
        Err(fault) => unread_body(fault),
    }
}

/// The body that the words of a reply line give where the response carries this payload.
/// `AllocError`: memory ran out.
pub(crate) fn body_of(
    alloc: Global,
    table: &Table<'_>,
    payload: Payload,
    words: &ReplyWords<'_>,
) -> Result<Option<Message>, AllocError>
    requires { EntryHolds table.now payload }
    ensures { IfOk result (λ found. MatchOption found
        ((body : Body) → ¬ (GivesBody table.now payload (text_view words.now) body))
        (λ m. GivesBody table.now payload (text_view words.now) (body_view m))) }
{
    match payload {
        Payload::Missing => Ok(None),
        Payload::Empty => match words.text {
            Some(_) => Ok(None),
            None => {
                let bytes = Vec::new(alloc);
                let handles = Vec::new(alloc);
                Ok(Some(Message { bytes, handles }))
            }
        },
        Payload::Entry(entry) => match words.text {
            Some(text) => spelled_body(alloc, table, entry, text),
            None => Ok(None),
        },
    }
}
