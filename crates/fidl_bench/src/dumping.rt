//! Writing the text of a message's value again and again.
ghost use Rattle.std.specs.Prelude.{◌≡◌, ◌<◌, [], OnOk, IfOk, IfErr};
ghost use Rattle.fidl_wire.specs.Value.{Value};
ghost use Rattle.fidl_wire.specs.Term as ty;
ghost use Rattle.fidl_wire.specs.Message.{Encodes};
ghost use Rattle.fidl_wire.specs.Text.{Text};
ghost use Rattle.fidl_table_format.specs.Section.{header_of};
ghost use Rattle.fidl_table_format.specs.Terms.{declarations_of};
ghost use Rattle.fidl_bench.specs.declared.failure.Failure.TheVariants.{NoRoom};
ghost use Rattle.fidl_bench.specs.Failures.{IsWhy, IsWhyUnread};
ghost use Rattle.fidl_bench.specs.Texts.{contents_of, IsText, IsTextOf};

use crate::desk::Desk;
use crate::failure::Failure;
use crate::room::Room;
use fidl_decode::{Decoded, Scratch, decode};
use fidl_notation::dump;
use fidl_verify::{Table, verify};
use fidl_view::Views;
use std::alloc::Global;

/// Writes the text of a decoded message, over what was written before. An error means that there is
/// no room for it.
fn dump_once(decoded: &Decoded<'_, '_, '_>, room: &mut Room) -> Result<(), Failure>
    ensures text { (v : Value) → (let ds = declarations_of decoded.now.table in
        Encodes ds (ty.named decoded.now.entry) v decoded.now.bytes decoded.now.handles
        → OnOk result (contents_of room.new ≡ Text ds (ty.named decoded.now.entry) v)) }
    ensures err { IfErr result (λ f. f ≡ NoRoom) }
{
    room.clear();
    match dump(&decoded.view(), room) {
        Ok(()) => Ok(()),
        Err(_) => Err(Failure::NoRoom),
    }
}

/// Decodes a message, and writes the text of its value once and then so many times again.
fn dump_again(
    table: &Table<'_>,
    entry: u32,
    message: &mut [u8],
    scratch: &mut Scratch,
    again: u64,
    room: &mut Room,
) -> Result<(), Failure>
    requires { entry < (header_of table.now).entries }
    ensures ok { OnOk result (IsText (declarations_of table.now) (ty.named entry) message.old
        (contents_of room.new)) }
    ensures err { IfErr result
        (IsWhyUnread (declarations_of table.now) (ty.named entry) message.old) }
{
    let Ok(decoded) = decode(table, entry, message, &[], scratch) else {
        return Err(Failure::Refused);
    };
    for _ in 0..again {
        dump_once(&decoded, room)?;
    }
    dump_once(&decoded, room)
}

/// Writes the text of the value of a message of a root of a table, once and then so many times
/// again.
pub(crate) fn dump_root(
    alloc: Global,
    table: &[u8],
    root: &[u8],
    message: &[u8],
    again: u64,
    size: usize,
) -> Result<Room, Failure>
    ensures ok { IfOk result (λ room. IsTextOf table.now root.now message.now (contents_of room)) }
    ensures err { IfErr result (IsWhy table.now root.now message.now) }
{
    let Ok(table) = verify(table) else {
        return Err(Failure::BadTable);
    };
    let Some(entry) = table.root(root) else {
        return Err(Failure::NoRoot);
    };
    let Ok(mut desk) = Desk::new(alloc, message) else {
        return Err(Failure::NoMemory);
    };
    let Ok(mut room) = Room::new(alloc, size) else {
        return Err(Failure::NoMemory);
    };
    let Desk { copy, scratch } = &mut desk;
    match dump_again(&table, entry, copy, scratch, again, &mut room) {
        Ok(()) => Ok(room),
        Err(failure) => Err(failure),
    }
}
