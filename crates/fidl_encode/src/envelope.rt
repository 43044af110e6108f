//! Tables and unions, and the envelopes of their members.
ghost use Rattle.std.specs.Prelude.{None, IfNone, ◌↔◌, ◌≡◌, ◌≤◌, ◌<◌, ◌+◌, ◌*◌, ◌^◌, Bool, List, ℕ, OnOk, IfErr, IfSome, IsTrue, Some, false, length, map};
ghost use Rattle.fidl_wire.specs.Term as ty;
ghost use Rattle.fidl_wire.specs.Term.{find};
ghost use Rattle.fidl_wire.specs.Value.{values_of, members_of, unknown, known};
ghost use Rattle.fidl_wire.specs.Figure.{Declarations};
ghost use Rattle.fidl_wire.specs.Views.{value_view, member_view, entry_view};
ghost use Rattle.fidl_table_format.specs.declared.kind.EntryKind.TheVariants as EntryKind;
ghost use Rattle.fidl_table_format.specs.Section.{header_of, entry_at};
ghost use Rattle.fidl_table_format.specs.Terms as terms;
ghost use Rattle.fidl_table_format.specs.Terms.{declarations_of, is_optional};
ghost use Rattle.fidl_table_format.specs.Entry.{IsOf, kind_is};
ghost use Rattle.fidl_table_format.specs.Uses.{uses_ordinals};
ghost use Rattle.fidl_table_format.specs.WellFormed.{WellFormed};
ghost use Rattle.fidl_encode.specs.Writing.{IsWithin, written};
ghost use Rattle.fidl_encode.specs.Parts.{value_part, elements_part, entry_part, struct_part, type_at};
ghost use Rattle.fidl_encode.specs.Parts.{member_part, envelopes_part, row_type, IsWritten, IsRefused};

use crate::fault::EncodeFault;
use crate::leaf::is_optional;
use crate::message::Message;
use crate::shape::{as_table, as_union, check_absent};
use crate::target::Target;
use crate::unknown::write_unknown;
use crate::value::write_value;
use fidl_table_format::{Entry, Row};
use fidl_verify::Table;
use fidl_wire::{MAX_MESSAGE_BYTES, Member, Value};

/// Writes the envelope of a known member that stands in it.
#[cycle(write)]
#[inline(always)]
fn write_inline(
    table: &Table<'_>,
    entry: u32,
    value: &Value,
    target: Target,
    out: &mut Message,
) -> Result<(), EncodeFault>
    requires well_formed { WellFormed table.now }
    requires entry { entry < (header_of table.now).entries }
    requires small { (entry_at table.now entry).size ≤ 4 }
    requires within { IsWithin (written out.old) }
    requires room { target.at + 8 ≤ length out.old.bytes.items }
    ensures ok { OnOk result (IsWritten (member_part (declarations_of table.now) false
        (Some (ty.named entry)) (known (value_view value.now)))
        target.depth target.at (written out.old) (written out.new)) }
    ensures fault_is_true { IfErr result (IsRefused (member_part (declarations_of table.now) false
        (Some (ty.named entry)) (known (value_view value.now)))
        target.depth (written out.old)) }
{
    let before = out.handle_count();
    write_value(table, entry, value, target, out)?;
    out.put_envelope_end(target.at, (out.handle_count() - before) as u16, 1);
    Ok(())
}

/// Writes a known member out of line, and the envelope that counts its bytes.
#[cycle(write)]
#[inline(always)]
fn write_outside(
    table: &Table<'_>,
    entry: u32,
    value: &Value,
    target: Target,
    out: &mut Message,
) -> Result<(), EncodeFault>
    requires well_formed { WellFormed table.now }
    requires entry { entry < (header_of table.now).entries }
    requires large { 4 < (entry_at table.now entry).size }
    requires within { IsWithin (written out.old) }
    requires room { target.at + 8 ≤ length out.old.bytes.items }
    ensures ok { OnOk result (IsWritten (member_part (declarations_of table.now) false
        (Some (ty.named entry)) (known (value_view value.now)))
        target.depth target.at (written out.old) (written out.new)) }
    ensures fault_is_true { IfErr result (IsRefused (member_part (declarations_of table.now) false
        (Some (ty.named entry)) (known (value_view value.now)))
        target.depth (written out.old)) }
{
    let depth = target.depth_below()?;
    let before = out.handle_count();
    let at = out.reserve(table.entry(entry).size as usize)?;
    write_value(table, entry, value, Target { at, depth }, out)?;
    out.put_envelope(
        target.at,
        (out.len() - at) as u32,
        (out.handle_count() - before) as u16,
    );
    Ok(())
}

/// Writes the envelope of a member of a table or union, whose row there is where the layout has it.
#[cycle(write)]
#[inline(always)]
fn write_member(
    table: &Table<'_>,
    row: Option<Row>,
    member: &Member,
    target: Target,
    out: &mut Message,
) -> Result<(), EncodeFault>
    requires well_formed { WellFormed table.now }
    requires entry { IfSome row (λ row. row.entry < (header_of table.now).entries) }
    requires within { IsWithin (written out.old) }
    requires room { target.at + 8 ≤ length out.old.bytes.items }
    ensures ok { OnOk result (IsWritten (member_part (declarations_of table.now) false
        (row_type row) (member_view member.now))
        target.depth target.at (written out.old) (written out.new)) }
    ensures fault_is_true { IfErr result (IsRefused (member_part (declarations_of table.now) false
        (row_type row) (member_view member.now)) target.depth (written out.old)) }
{
    match member {
        Member::Known(value) => {
            let Some(row) = row else {
                return Err(EncodeFault::WrongShape);
            };
            if table.entry(row.entry).size <= 4 {
                return write_inline(table, row.entry, value, target, out);
            }
            write_outside(table, row.entry, value, target, out)
        }
        Member::Unknown {
            inline,
            bytes,
            handles,
        } => {
            if row.is_some() {
                return Err(EncodeFault::WrongShape);
            }
            write_unknown(*inline, bytes.as_slice(), handles.as_slice(), target, out)
        }
    }
}

/// The row of an ordinal of a table, where there is one: the first look is at the place that it has
/// where all ordinals below it are members.
#[inline(always)]
fn row_of(table: &Table<'_>, index: u32, parts: &Entry, ordinal: u64) -> Option<Row>
    requires entry { index < (header_of table.now).entries }
    requires kind { IsTrue (kind_is uses_ordinals (entry_at table.now index)) }
    requires parts { parts.now ≡ entry_at table.now index }
    requires some { 0 < ordinal }
    ensures none { IfNone result (find (terms.members_of table.now index) ordinal ≡ None) }
    ensures some { IfSome result (λ row. find (terms.members_of table.now index) ordinal
        ≡ Some (ty.named row.entry)) }
    ensures entry_below { IfSome result (λ row. row.entry < (header_of table.now).entries) }
{
    // Read, so that the number of rows, and with it each row's, is known to have 32 bits.
    let _rows = table.rows();
    if ordinal <= u64::from(parts.count) {
        let row = table.row(parts.first + (ordinal - 1) as u32);
        if u64::from(row.key) == ordinal {
            return Some(row);
        }
    }
    let mut probes = 0;
    table.member(index, ordinal, &mut probes)
}

/// The envelopes of a table of an entry.
#[derive(Clone, Copy)]
struct Envelopes {
    /// The table's entry.
    index: u32,
    /// How many there are.
    count: u64,
}

/// Writes the envelopes of a table's members, each at its ordinal's place.
#[cycle(write)]
fn write_envelopes(
    table: &Table<'_>,
    envelopes: Envelopes,
    members: &[(u64, Member)],
    target: Target,
    out: &mut Message,
) -> Result<(), EncodeFault>
    requires well_formed { WellFormed table.now }
    requires entry { envelopes.index < (header_of table.now).entries }
    requires of_table { IsOf EntryKind.Table (entry_at table.now envelopes.index) }
    requires within { IsWithin (written out.old) }
    requires room { target.at + 8 * envelopes.count ≤ length out.old.bytes.items }
    ensures ok { OnOk result (IsWritten (envelopes_part (declarations_of table.now)
        (terms.members_of table.now envelopes.index) 0 envelopes.count
        (members_of (map entry_view members.now)))
        target.depth target.at (written out.old) (written out.new)) }
    ensures fault_is_true { IfErr result (IsRefused (envelopes_part (declarations_of table.now)
        (terms.members_of table.now envelopes.index) 0 envelopes.count
        (members_of (map entry_view members.now))) target.depth (written out.old)) }
{
    let parts = table.entry(envelopes.index);
    let mut last = 0;
    for k in 0..members.len() {
        let (ordinal, member) = &members[k];
        if *ordinal <= last || *ordinal > envelopes.count {
            return Err(EncodeFault::WrongShape);
        }
        let row = row_of(table, envelopes.index, &parts, *ordinal);
        let place = Target {
            at: target.at + 8 * (*ordinal as usize - 1),
            depth: target.depth,
        };
        write_member(table, row, member, place, out)?;
        last = *ordinal;
    }
    Ok(())
}

/// Writes a table: its envelopes as an object, and their number.
#[cycle(write)]
pub(crate) fn write_table(
    table: &Table<'_>,
    index: u32,
    value: &Value,
    target: Target,
    out: &mut Message,
) -> Result<(), EncodeFault>
    requires well_formed { WellFormed table.now }
    requires entry { index < (header_of table.now).entries }
    requires of_table { IsOf EntryKind.Table (entry_at table.now index) }
    requires within { IsWithin (written out.old) }
    requires room { target.at + 16 ≤ length out.old.bytes.items }
    ensures ok { OnOk result (IsWritten (value_part (declarations_of table.now)
        (ty.table (terms.members_of table.now index)) (value_view value.now))
        target.depth target.at (written out.old) (written out.new)) }
    ensures fault_is_true { IfErr result (IsRefused (value_part (declarations_of table.now)
        (ty.table (terms.members_of table.now index)) (value_view value.now))
        target.depth (written out.old)) }
{
    let Some((count, members)) = as_table(value) else {
        return Err(EncodeFault::WrongShape);
    };
    let depth = target.depth_below()?;
    if count > MAX_MESSAGE_BYTES as u64 {
        return Err(EncodeFault::TooLong);
    }
    let at = out.reserve(8 * count as usize)?;
    let envelopes = Envelopes { index, count };
    write_envelopes(
        table,
        envelopes,
        members.as_slice(),
        Target { at, depth },
        out,
    )?;
    out.put_count(target.at, count);
    Ok(())
}

/// Whether a layout is strict and has no row.
fn is_missing(strict: bool, row: &Option<Row>) -> bool
    ensures { IsTrue result ↔ (IsTrue strict × (row.now ≡ None)) }
{
    strict && row.is_none()
}

/// Writes a union: its ordinal and the envelope of its member, or that it is absent.
#[cycle(write)]
pub(crate) fn write_union(
    table: &Table<'_>,
    index: u32,
    value: &Value,
    target: Target,
    out: &mut Message,
) -> Result<(), EncodeFault>
    requires entry { index < (header_of table.now).entries }
    requires of_union { IsOf EntryKind.Union (entry_at table.now index) }
    requires within { IsWithin (written out.old) }
    requires room { target.at + 16 ≤ length out.old.bytes.items }
    ensures ok { OnOk result (IsWritten (value_part (declarations_of table.now)
        (ty.union (is_optional (entry_at table.now index)) (terms.is_strict (entry_at table.now index))
        (terms.members_of table.now index)) (value_view value.now))
        target.depth target.at (written out.old) (written out.new)) }
    ensures fault_is_true { IfErr result (IsRefused (value_part (declarations_of table.now)
        (ty.union (is_optional (entry_at table.now index)) (terms.is_strict (entry_at table.now index))
        (terms.members_of table.now index)) (value_view value.now))
        target.depth (written out.old)) }
{
    let entry = table.entry(index);
    let Some((ordinal, content)) = as_union(value) else {
        return check_absent(value, is_optional(&entry));
    };
    let mut probes = 0;
    let row = table.member(index, ordinal, &mut probes);
    if ordinal == 0 || is_missing(entry.is_strict(), &row) {
        return Err(EncodeFault::WrongShape);
    }
    out.put(target.at, &ordinal.to_le_bytes());
    let place = Target {
        at: target.at + 8,
        depth: target.depth,
    };
    write_member(table, row, content.member(), place, out)
}
