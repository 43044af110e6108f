//! Encoding the value of a message again and again.
ghost use Rattle.std.specs.Prelude.{◌≡◌, ◌<◌, [], List, ℕ, OnOk, IfOk, IfErr};
ghost use Rattle.fidl_wire.specs.Term as ty;
ghost use Rattle.fidl_wire.specs.Views.{value_view};
ghost use Rattle.fidl_wire.specs.Message.{Encodes, IsEncoding};
ghost use Rattle.fidl_table_format.specs.Section.{header_of};
ghost use Rattle.fidl_table_format.specs.Terms.{declarations_of};
ghost use Rattle.fidl_bench.specs.Failures.{IsMessageOf, IsWhy, IsWhyUnread};

use crate::desk::Desk;
use crate::failure::Failure;
use fidl_decode::decode;
use fidl_encode::{EncodeFault, Message, encode};
use fidl_verify::{Table, verify};
use fidl_view::Views;
use fidl_wire::Value;
use std::alloc::{AllocError, Global};

/// The value that a message encodes, as a tree of its own.
fn value_of(alloc: Global, table: &Table<'_>, entry: u32, message: &[u8]) -> Result<Value, Failure>
    requires { entry < (header_of table.now).entries }
    ensures ok { IfOk result (λ v. Encodes (declarations_of table.now) (ty.named entry)
        (value_view v) message.now []) }
    ensures err { IfErr result
        (IsWhyUnread (declarations_of table.now) (ty.named entry) message.now) }
{
    let Ok(mut desk) = Desk::new(alloc, message) else {
        return Err(Failure::NoMemory);
    };
    let Ok(decoded) = decode(table, entry, &mut desk.copy, &[], &mut desk.scratch) else {
        return Err(Failure::Refused);
    };
    match decoded.view().to_value(alloc) {
        Ok(value) => Ok(value),
        Err(_) => Err(Failure::NoMemory),
    }
}

/// Encodes a value that has a message. An error means that memory ran out.
fn encode_once(
    alloc: Global,
    table: &Table<'_>,
    entry: u32,
    value: &Value,
) -> Result<Message, AllocError>
    requires entry { entry < (header_of table.now).entries }
    requires encoded { (bytes : List ℕ) × Encodes (declarations_of table.now) (ty.named entry)
        (value_view value.now) bytes [] }
    ensures { (bytes : List ℕ) → Encodes (declarations_of table.now) (ty.named entry)
        (value_view value.now) bytes [] → IfOk result (λ m. m.bytes.items ≡ bytes) }
{
    match encode(alloc, table, entry, value) {
        Ok(message) => Ok(message),
        Err(fault) => match fault {
            EncodeFault::Memory => Err(AllocError),
            _ => unreachable!(),
        },
    }
}

/// Encodes the value of a message once, and then so many times again: the same message.
fn encode_again(
    alloc: Global,
    table: &Table<'_>,
    entry: u32,
    message: &[u8],
    again: u64,
) -> Result<Message, Failure>
    requires { entry < (header_of table.now).entries }
    ensures ok { OnOk result
        (IsEncoding (declarations_of table.now) (ty.named entry) message.now []) }
    ensures same { IfOk result (λ m. m.bytes.items ≡ message.now) }
    ensures err { IfErr result
        (IsWhyUnread (declarations_of table.now) (ty.named entry) message.now) }
{
    let value = match value_of(alloc, table, entry, message) {
        Ok(value) => value,
        Err(failure) => return Err(failure),
    };
    for _ in 0..again {
        if encode_once(alloc, table, entry, &value).is_err() {
            return Err(Failure::NoMemory);
        }
    }
    match encode_once(alloc, table, entry, &value) {
        Ok(message) => Ok(message),
        Err(_) => Err(Failure::NoMemory),
    }
}

/// Encodes the value of a message of a root of a table, once and then so many times again: the same
/// message.
pub(crate) fn encode_root(
    alloc: Global,
    table: &[u8],
    root: &[u8],
    message: &[u8],
    again: u64,
) -> Result<Message, Failure>
    ensures ok { OnOk result (IsMessageOf table.now root.now message.now) }
    ensures same { IfOk result (λ m. m.bytes.items ≡ message.now) }
    ensures err { IfErr result (IsWhy table.now root.now message.now) }
{
    let Ok(table) = verify(table) else {
        return Err(Failure::BadTable);
    };
    let Some(entry) = table.root(root) else {
        return Err(Failure::NoRoot);
    };
    encode_again(alloc, &table, entry, message, again)
}
