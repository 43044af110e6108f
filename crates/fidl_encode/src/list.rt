//! Vectors and arrays.
ghost use Rattle.std.specs.Prelude.{◌≡◌, ◌≤◌, ◌<◌, ◌+◌, ◌*◌, ◌^◌, Bool, List, ℕ, OnOk, IfErr, IfSome, IsTrue, length, map};
ghost use Rattle.fidl_wire.specs.Term as ty;
ghost use Rattle.fidl_wire.specs.Value.{values_of, members_of, unknown, known};
ghost use Rattle.fidl_wire.specs.Figure.{Declarations};
ghost use Rattle.fidl_wire.specs.Views.{value_view, member_view, entry_view};
ghost use Rattle.fidl_table_format.specs.declared.kind.EntryKind.TheVariants as EntryKind;
ghost use Rattle.fidl_table_format.specs.Section.{header_of, entry_at};
ghost use Rattle.fidl_table_format.specs.Terms as terms;
ghost use Rattle.fidl_table_format.specs.Terms.{declarations_of, is_optional};
ghost use Rattle.fidl_table_format.specs.Entry.{IsOf};
ghost use Rattle.fidl_table_format.specs.WellFormed.{WellFormed};
ghost use Rattle.fidl_encode.specs.Writing.{IsWithin, written};
ghost use Rattle.fidl_encode.specs.Parts.{value_part, elements_part, entry_part, struct_part, type_at};
ghost use Rattle.fidl_encode.specs.Parts.{member_part, envelopes_part, row_type, IsWritten, IsRefused};

use crate::fault::EncodeFault;
use crate::leaf::is_optional;
use crate::message::Message;
use crate::shape::{as_list, check_absent};
use crate::target::Target;
use crate::value::write_value;
use fidl_table_format::Entry;
use fidl_verify::Table;
use fidl_wire::Value;

/// Writes elements of an entry, one behind the other.
#[cycle(write)]
fn write_elements(
    table: &Table<'_>,
    element: u32,
    values: &[Value],
    target: Target,
    out: &mut Message,
) -> Result<(), EncodeFault>
    requires element { element < (header_of table.now).entries }
    requires within { IsWithin (written out.old) }
    requires room { target.at + (entry_at table.now element).size * length values.now
        ≤ length out.old.bytes.items }
    ensures ok { OnOk result (IsWritten (elements_part (declarations_of table.now)
        (type_at table.now element) (values_of (map value_view values.now)))
        target.depth target.at (written out.old) (written out.new)) }
    ensures fault_is_true { IfErr result (IsRefused (elements_part (declarations_of table.now)
        (type_at table.now element) (values_of (map value_view values.now)))
        target.depth (written out.old)) }
{
    let size = table.entry(element).size as usize;
    for k in 0..values.len() {
        let place = Target {
            at: target.at + k * size,
            depth: target.depth,
        };
        write_value(table, element, &values[k], place, out)?;
    }
    Ok(())
}

/// Writes a vector, or that it is absent.
#[cycle(write)]
pub(crate) fn write_vector(
    table: &Table<'_>,
    entry: &Entry,
    value: &Value,
    target: Target,
    out: &mut Message,
) -> Result<(), EncodeFault>
    requires well_formed { WellFormed table.now }
    requires element { entry.now.first < (header_of table.now).entries }
    requires bound { entry.now.bound < 2 ^ 32 }
    requires within { IsWithin (written out.old) }
    requires room { target.at + 16 ≤ length out.old.bytes.items }
    ensures ok { OnOk result (IsWritten (value_part (declarations_of table.now)
        (ty.vector (is_optional entry.now) entry.now.bound (ty.named entry.now.first))
        (value_view value.now)) target.depth target.at (written out.old) (written out.new)) }
    ensures fault_is_true { IfErr result (IsRefused (value_part (declarations_of table.now)
        (ty.vector (is_optional entry.now) entry.now.bound (ty.named entry.now.first))
        (value_view value.now)) target.depth (written out.old)) }
{
    let Some(values) = as_list(value) else {
        return check_absent(value, is_optional(entry));
    };
    let depth = target.depth_below()?;
    let count = values.len();
    if count as u64 > entry.bound {
        return Err(EncodeFault::OverBound);
    }
    let size = table.entry(entry.first).size as usize;
    let at = out.reserve(size * count)?;
    write_elements(
        table,
        entry.first,
        values.as_slice(),
        Target { at, depth },
        out,
    )?;
    out.put_count(target.at, count as u64);
    Ok(())
}

/// Writes an array.
#[cycle(write)]
pub(crate) fn write_array(
    table: &Table<'_>,
    entry: &Entry,
    value: &Value,
    target: Target,
    out: &mut Message,
) -> Result<(), EncodeFault>
    requires element { entry.now.first < (header_of table.now).entries }
    requires within { IsWithin (written out.old) }
    requires room { target.at + (entry_at table.now entry.now.first).size * entry.now.count
        ≤ length out.old.bytes.items }
    ensures ok { OnOk result (IsWritten (value_part (declarations_of table.now)
        (ty.array (ty.named entry.now.first) entry.now.count) (value_view value.now))
        target.depth target.at (written out.old) (written out.new)) }
    ensures fault_is_true { IfErr result (IsRefused (value_part (declarations_of table.now)
        (ty.array (ty.named entry.now.first) entry.now.count) (value_view value.now))
        target.depth (written out.old)) }
{
    let Some(values) = as_list(value) else {
        return Err(EncodeFault::WrongShape);
    };
    if values.len() != entry.count as usize {
        return Err(EncodeFault::WrongShape);
    }
    write_elements(table, entry.first, values.as_slice(), target, out)
}
