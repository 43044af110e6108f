//! Structs, and structs in boxes.
ghost use Rattle.std.specs.Prelude.{◌≡◌, ◌≤◌, ◌<◌, ◌+◌, ◌*◌, ◌^◌, Bool, List, ℕ, OnOk, IfErr, IfSome, IsTrue, length, map};
ghost use Rattle.fidl_wire.specs.Term as ty;
ghost use Rattle.fidl_wire.specs.Value.{values_of, members_of, unknown, known};
ghost use Rattle.fidl_wire.specs.Figure.{Declarations};
ghost use Rattle.fidl_wire.specs.Views.{value_view, member_view, entry_view};
ghost use Rattle.fidl_table_format.specs.declared.kind.EntryKind.TheVariants as EntryKind;
ghost use Rattle.fidl_table_format.specs.Section.{header_of, entry_at};
ghost use Rattle.fidl_table_format.specs.Terms as terms;
ghost use Rattle.fidl_table_format.specs.Terms.{declarations_of, is_optional};
ghost use Rattle.fidl_table_format.specs.Entry.{IsOf};
ghost use Rattle.fidl_table_format.specs.WellFormed.{WellFormed};
ghost use Rattle.fidl_encode.specs.Writing.{IsWithin, written};
ghost use Rattle.fidl_encode.specs.Parts.{value_part, elements_part, entry_part, struct_part, fields_at};
ghost use Rattle.fidl_encode.specs.Parts.{member_part, envelopes_part, row_type, IsWritten, IsRefused};

use crate::fault::EncodeFault;
use crate::message::Message;
use crate::shape::{as_fields, check_absent};
use crate::target::Target;
use crate::value::write_value;
use fidl_table_format::Entry;
use fidl_verify::Table;
use fidl_wire::Value;

/// Writes the members of a struct of an entry, each at its offset.
#[cycle(write)]
fn write_members(
    table: &Table<'_>,
    index: u32,
    values: &[Value],
    target: Target,
    out: &mut Message,
) -> Result<(), EncodeFault>
    requires entry { index < (header_of table.now).entries }
    requires of_struct { IsOf EntryKind.Struct (entry_at table.now index) }
    requires within { IsWithin (written out.old) }
    requires room { target.at + (entry_at table.now index).size ≤ length out.old.bytes.items }
    ensures ok { OnOk result (IsWritten (struct_part table.now index
        (values_of (map value_view values.now)))
        target.depth target.at (written out.old) (written out.new)) }
    ensures fault_is_true { IfErr result (IsRefused (struct_part table.now index
        (values_of (map value_view values.now))) target.depth (written out.old)) }
{
    let entry = table.entry(index);
    if values.len() != entry.count as usize {
        return Err(EncodeFault::WrongShape);
    }
    // Read, so that a row's index is known to be a number of 32 bits.
    let _rows = table.rows();
    for k in 0..entry.count {
        let row = table.row(entry.first + k);
        let place = Target {
            at: target.at + row.key as usize,
            depth: target.depth,
        };
        write_value(table, row.entry, &values[k as usize], place, out)?;
    }
    Ok(())
}

/// Writes a struct.
#[cycle(write)]
pub(crate) fn write_struct(
    table: &Table<'_>,
    index: u32,
    value: &Value,
    target: Target,
    out: &mut Message,
) -> Result<(), EncodeFault>
    requires entry { index < (header_of table.now).entries }
    requires of_struct { IsOf EntryKind.Struct (entry_at table.now index) }
    requires within { IsWithin (written out.old) }
    requires room { target.at + (entry_at table.now index).size ≤ length out.old.bytes.items }
    ensures ok { OnOk result (IsWritten (value_part (declarations_of table.now)
        (ty.struct (fields_at table.now index)) (value_view value.now))
        target.depth target.at (written out.old) (written out.new)) }
    ensures fault_is_true { IfErr result (IsRefused (value_part (declarations_of table.now)
        (ty.struct (fields_at table.now index)) (value_view value.now))
        target.depth (written out.old)) }
{
    let Some(values) = as_fields(value) else {
        return Err(EncodeFault::WrongShape);
    };
    write_members(table, index, values.as_slice(), target, out)
}

/// Writes the struct in a box, or that it is absent.
#[cycle(write)]
pub(crate) fn write_box(
    table: &Table<'_>,
    content: u32,
    value: &Value,
    target: Target,
    out: &mut Message,
) -> Result<(), EncodeFault>
    requires well_formed { WellFormed table.now }
    requires content { content < (header_of table.now).entries }
    requires of_struct { IsOf EntryKind.Struct (entry_at table.now content) }
    requires within { IsWithin (written out.old) }
    requires room { target.at + 8 ≤ length out.old.bytes.items }
    ensures ok { OnOk result (IsWritten (value_part (declarations_of table.now)
        (ty.box (ty.named content)) (value_view value.now))
        target.depth target.at (written out.old) (written out.new)) }
    ensures fault_is_true { IfErr result (IsRefused (value_part (declarations_of table.now)
        (ty.box (ty.named content)) (value_view value.now)) target.depth (written out.old)) }
{
    let Some(values) = as_fields(value) else {
        return check_absent(value, true);
    };
    let depth = target.depth_below()?;
    let at = out.reserve(table.entry(content).size as usize)?;
    write_members(table, content, values.as_slice(), Target { at, depth }, out)?;
    out.put(target.at, &[255; 8]);
    Ok(())
}
