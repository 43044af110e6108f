//! Values of any type.
ghost use Rattle.std.specs.Prelude.{◌≡◌, ◌≤◌, ◌<◌, ◌+◌, ◌*◌, ◌^◌, Bool, List, ℕ, OnOk, IfErr, IfSome, IsTrue, length, map};
ghost use Rattle.fidl_wire.specs.Term as ty;
ghost use Rattle.fidl_wire.specs.Value.{values_of, members_of, unknown, known};
ghost use Rattle.fidl_wire.specs.Figure.{Declarations};
ghost use Rattle.fidl_wire.specs.Views.{value_view, member_view, entry_view};
ghost use Rattle.fidl_table_format.specs.declared.kind.EntryKind.TheVariants as EntryKind;
ghost use Rattle.fidl_table_format.specs.Section.{header_of, entry_at};
ghost use Rattle.fidl_table_format.specs.Terms as terms;
ghost use Rattle.fidl_table_format.specs.Terms.{declarations_of, is_optional};
ghost use Rattle.fidl_table_format.specs.Entry.{IsOf};
ghost use Rattle.fidl_table_format.specs.WellFormed.{WellFormed};
ghost use Rattle.fidl_encode.specs.Writing.{IsWithin, written};
ghost use Rattle.fidl_encode.specs.Parts.{value_part, elements_part, entry_part, struct_part, type_at};
ghost use Rattle.fidl_encode.specs.Parts.{member_part, envelopes_part, row_type, IsWritten, IsRefused};

use crate::envelope::{write_table, write_union};
use crate::fault::EncodeFault;
use crate::leaf::{write_bool, write_handle, write_string};
use crate::list::{write_array, write_vector};
use crate::message::Message;
use crate::number::{write_bits, write_enum, write_number};
use crate::structs::{write_box, write_struct};
use crate::target::Target;
use fidl_table_format::EntryKind;
use fidl_verify::Table;
use fidl_wire::Value;

/// Writes a value of any entry.
#[cycle(write)]
#[inline(never)]
fn write_any(
    table: &Table<'_>,
    index: u32,
    value: &Value,
    target: Target,
    out: &mut Message,
) -> Result<(), EncodeFault>
    requires entry { index < (header_of table.now).entries }
    requires within { IsWithin (written out.old) }
    requires room { target.at + (entry_at table.now index).size ≤ length out.old.bytes.items }
    ensures ok { OnOk result (IsWritten (entry_part table.now index (value_view value.now))
        target.depth target.at (written out.old) (written out.new)) }
    ensures fault_is_true { IfErr result (IsRefused
        (entry_part table.now index (value_view value.now)) target.depth (written out.old)) }
{
    let entry = table.entry(index);
    let kind = EntryKind::from_number(entry.kind).unwrap();
    match kind {
        EntryKind::Bool => write_bool(value, target, out),
        EntryKind::Bits => write_bits(&entry, value, target, out),
        EntryKind::Enum => write_enum(table, index, value, target, out),
        EntryKind::String => write_string(&entry, value, target, out),
        EntryKind::Vector => write_vector(table, &entry, value, target, out),
        EntryKind::Array => write_array(table, &entry, value, target, out),
        EntryKind::Box => write_box(table, entry.first, value, target, out),
        EntryKind::Struct => write_struct(table, index, value, target, out),
        EntryKind::Table => write_table(table, index, value, target, out),
        EntryKind::Union => write_union(table, index, value, target, out),
        EntryKind::Handle => write_handle(&entry, value, target, out),
        _ => write_number(kind, value, target, out),
    }
}

/// Writes a value of an entry: a bool or a number in place, and any other by a call.
#[cycle(write)]
#[inline(always)]
pub(crate) fn write_value(
    table: &Table<'_>,
    index: u32,
    value: &Value,
    target: Target,
    out: &mut Message,
) -> Result<(), EncodeFault>
    requires entry { index < (header_of table.now).entries }
    requires within { IsWithin (written out.old) }
    requires room { target.at + (entry_at table.now index).size ≤ length out.old.bytes.items }
    ensures ok { OnOk result (IsWritten (entry_part table.now index (value_view value.now))
        target.depth target.at (written out.old) (written out.new)) }
    ensures fault_is_true { IfErr result (IsRefused
        (entry_part table.now index (value_view value.now)) target.depth (written out.old)) }
{
    let entry = table.entry(index);
    let kind = EntryKind::from_number(entry.kind).unwrap();
    match kind {
        EntryKind::Bool => write_bool(value, target, out),
        EntryKind::Bits
        | EntryKind::Enum
        | EntryKind::String
        | EntryKind::Vector
        | EntryKind::Array
        | EntryKind::Box
        | EntryKind::Struct
        | EntryKind::Table
        | EntryKind::Union
        | EntryKind::Handle => write_any(table, index, value, target, out),
        _ => write_number(kind, value, target, out),
    }
}
