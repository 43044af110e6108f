//! The text of a value, as a view shows it (docs/wire.md, "The written text of a value").
ghost use Rattle.std.specs.Prelude.{◌≡◌, ℕ, ◌+◌, ◌<◌, ◌≤◌, Bool, OnOk, OnErr, IfOk, IsSome};
ghost use Rattle.std.specs.Prelude.{IsTrue};
ghost use Rattle.fidl_wire.specs.Value.{Value};
ghost use Rattle.fidl_wire.specs.Term as ty;
ghost use Rattle.fidl_wire.specs.Figure.{Declarations};
ghost use Rattle.fidl_table_format.specs.declared.kind.EntryKind.TheVariants as EntryKind;
ghost use Rattle.fidl_table_format.specs.Section.{header_of, entry_at};
ghost use Rattle.fidl_table_format.specs.Terms.{declarations_of};
ghost use Rattle.fidl_table_format.specs.Entry.{IsOf, kind_is};
ghost use Rattle.fidl_table_format.specs.Uses.{uses_ordinals};
ghost use Rattle.fidl_table_format.specs.WellFormed.{WellFormed};
ghost use Rattle.fidl_view.specs.Parts.{numbers_of, held_of};
ghost use Rattle.fidl_view.specs.Within.{HasPart, HasPartWithin, HasValueWithin};
ghost use Rattle.fidl_view.specs.Within.{HasElementsWithin, HasMembersWithin, HasMemberWithin};
ghost use Rattle.fidl_view.specs.Within.{IsValueOf};
ghost use Rattle.fidl_notation.specs.Parts.{Prints, PrintsValue, PrintsElements, PrintsMembers};
ghost use Rattle.fidl_notation.specs.Slots.{PrintsNamed, PrintsMember, PrintsSlot, later_behind};
ghost use Rattle.fidl_streams.specs.Written.{Writes};

use crate::quoted::{write_comma, write_decimal, write_handle, write_quoted};
use crate::unknown::write_unknown;
use fidl_streams::{Failed, Sink, write_all};
use fidl_table_format::{EntryKind, Row};
use fidl_verify::Table;
use fidl_view::View;
use itoa::Buffer;

fn write_bool<W: Sink>(view: View<'_, '_>, out: &mut W) -> Result<(), Failed>
    requires { ∥ ((ds : Declarations) × HasPart ds ty.bool view) ∥₁ }
    ensures { (ds : Declarations) → Prints ds ty.bool view.entry
        (W.taken out.old) (W.taken out.new) result }
{
    let value = view.as_bool().unwrap();
    write_all(out, if value { b"true" } else { b"false" })
}

/// Writes a number, also of bits or an enum.
fn write_number<W: Sink>(view: View<'_, '_>, out: &mut W) -> Result<(), Failed>
    requires well_formed { WellFormed view.decoded.now.table }
    requires part { ∥ ((ds : Declarations) × (t : ty.Term) × IsSome (numbers_of t)
        × HasPart ds t view) ∥₁ }
    ensures { (ds : Declarations) (t : ty.Term) → IsSome (numbers_of t)
        → Prints ds t view.entry (W.taken out.old) (W.taken out.new) result }
{
    let mut buffer = Buffer::new();
    match view.as_u64() {
        Some(number) => write_all(out, buffer.format(number).as_bytes()),
        None => {
            let number = view.as_i64().unwrap();
            write_all(out, buffer.format(number).as_bytes())
        }
    }
}

/// Writes a string between quotes, or that it is absent.
fn write_string<W: Sink>(view: View<'_, '_>, out: &mut W) -> Result<(), Failed>
    ensures { (ds : Declarations) (optional : Bool) (bound : ℕ)
        → Prints ds (ty.string optional bound) view.entry
        (W.taken out.old) (W.taken out.new) result }
{
    match view.as_str() {
        Some(text) => write_quoted(text.as_bytes(), out),
        None => write_all(out, b"absent"),
    }
}

/// Writes the record of a handle, or that it is absent.
fn write_handle_or_absent<W: Sink>(view: View<'_, '_>, out: &mut W) -> Result<(), Failed>
    ensures { (ds : Declarations) (optional : Bool) (subtype rights : ℕ)
        → Prints ds (ty.handle optional subtype rights) view.entry
        (W.taken out.old) (W.taken out.new) result }
{
    match view.handle() {
        Some(handle) => write_handle(handle, out),
        None => write_all(out, b"absent"),
    }
}

/// Writes the elements of an array, or of a vector that is there: values of an entry, of at most
/// this depth.
#[cycle(write)]
fn write_elements<W: Sink>(
    table: &Table<'_>,
    element: u32,
    view: View<'_, '_>,
    depth: usize,
    out: &mut W,
) -> Result<(), Failed>
    requires table { view.decoded.now.table ≡ table.now }
    requires element { element < (header_of table.now).entries }
    requires part { ∥ HasElementsWithin table.now element depth view ∥₁ }
    ensures { PrintsElements table.now element view.entry
        (W.taken out.old) (W.taken out.new) result }
{
    write_all(out, b"[")?;
    let count = view.len().unwrap();
    for at in 0..count {
        write_comma(out, at > 0)?;
        let part = view.element(at).unwrap();
        write_value(table, element, part, depth, out)?;
    }
    write_all(out, b"]")
}

/// Writes the value of a row's entry, of at most this depth, behind the row's name.
#[cycle(write)]
fn write_named<W: Sink>(
    table: &Table<'_>,
    row: &Row,
    view: View<'_, '_>,
    depth: usize,
    out: &mut W,
) -> Result<(), Failed>
    requires table { view.decoded.now.table ≡ table.now }
    requires name { row.now.name_place + row.now.name_length ≤ (header_of table.now).names }
    requires entry { row.now.entry < (header_of table.now).entries }
    requires part { ∥ HasValueWithin table.now row.now.entry depth view ∥₁ }
    ensures { PrintsNamed table.now row.now view.entry
        (W.taken out.old) (W.taken out.new) result }
{
    write_all(out, table.row_name(row))?;
    write_all(out, b": ")?;
    write_value(table, row.entry, view, depth, out)
}

/// Writes a struct of an entry, or such a struct in a box that is there: its members are of at most
/// this depth.
#[cycle(write)]
fn write_members<W: Sink>(
    table: &Table<'_>,
    index: u32,
    view: View<'_, '_>,
    depth: usize,
    out: &mut W,
) -> Result<(), Failed>
    requires table { view.decoded.now.table ≡ table.now }
    requires index { index < (header_of table.now).entries }
    requires of_struct { IsOf EntryKind.Struct (entry_at table.now index) }
    requires part { ∥ HasMembersWithin table.now index depth view ∥₁ }
    ensures { PrintsMembers table.now index view.entry
        (W.taken out.old) (W.taken out.new) result }
{
    let entry = table.entry(index);
    write_all(out, b"{")?;
    // Read, so that a row's index is known to be a number of 32 bits.
    let _rows = table.rows();
    for at in 0..entry.count {
        write_comma(out, at > 0)?;
        let row = table.row(entry.first + at);
        let part = view.field(at as usize).unwrap();
        write_named(table, &row, part, depth, out)?;
    }
    write_all(out, b"}")
}

/// Writes a vector of elements of an entry, or that it is absent.
#[cycle(write)]
fn write_vector<W: Sink>(
    table: &Table<'_>,
    element: u32,
    view: View<'_, '_>,
    depth: usize,
    out: &mut W,
) -> Result<(), Failed>
    requires table { view.decoded.now.table ≡ table.now }
    requires element { element < (header_of table.now).entries }
    requires well_formed { WellFormed table.now }
    requires part { ∥ ((optional : Bool) × (bound : ℕ) × HasPartWithin
        (declarations_of table.now) (ty.vector optional bound (ty.named element)) depth view) ∥₁ }
    ensures { (optional : Bool) (bound : ℕ) → Prints (declarations_of table.now)
        (ty.vector optional bound (ty.named element)) view.entry
        (W.taken out.old) (W.taken out.new) result }
{
    if view.is_absent() {
        return write_all(out, b"absent");
    }
    write_elements(table, element, view, depth - 1, out)
}

/// Writes the struct of an entry in a box, or that it is absent.
#[cycle(write)]
fn write_box<W: Sink>(
    table: &Table<'_>,
    index: u32,
    view: View<'_, '_>,
    depth: usize,
    out: &mut W,
) -> Result<(), Failed>
    requires well_formed { WellFormed table.now }
    requires table { view.decoded.now.table ≡ table.now }
    requires index { index < (header_of table.now).entries }
    requires of_struct { IsOf EntryKind.Struct (entry_at table.now index) }
    requires part { ∥ HasPartWithin (declarations_of table.now) (ty.box (ty.named index)) depth view ∥₁ }
    ensures { Prints (declarations_of table.now) (ty.box (ty.named index)) view.entry
        (W.taken out.old) (W.taken out.new) result }
{
    if view.is_absent() {
        return write_all(out, b"absent");
    }
    write_members(table, index, view, depth - 1, out)
}

/// An ordinal of the layout of a table's or union's entry; what it holds lies no deeper than this.
#[derive(Clone, Copy)]
struct Slot {
    index: u32,
    ordinal: u64,
    depth: usize,
}

/// Writes a known member of a table or a union behind its name.
#[cycle(write)]
fn write_member<W: Sink>(
    table: &Table<'_>,
    slot: Slot,
    view: View<'_, '_>,
    out: &mut W,
) -> Result<(), Failed>
    requires table { view.decoded.now.table ≡ table.now }
    requires well_formed { WellFormed table.now }
    requires index { slot.index < (header_of table.now).entries }
    requires kind { IsTrue (kind_is uses_ordinals (entry_at table.now slot.index)) }
    requires part { ∥ HasMemberWithin table.now slot.index slot.ordinal slot.depth view ∥₁ }
    ensures { PrintsMember table.now slot view.entry
        (W.taken out.old) (W.taken out.new) result }
{
    let mut probes = 0;
    let row = table.member(slot.index, slot.ordinal, &mut probes).unwrap();
    if table.entry(row.entry).size <= 4 {
        return write_named(table, &row, view, slot.depth, out);
    }
    write_named(table, &row, view, slot.depth - 1, out)
}

/// Writes what a table holds at an ordinal, behind a comma where another member stands before it,
/// and answers whether a member stands before the next ordinal.
#[cycle(write)]
fn write_slot<W: Sink>(
    table: &Table<'_>,
    slot: Slot,
    view: View<'_, '_>,
    later: bool,
    out: &mut W,
) -> Result<bool, Failed>
    requires table { view.decoded.now.table ≡ table.now }
    requires well_formed { WellFormed table.now }
    requires index { slot.index < (header_of table.now).entries }
    requires of_table { IsOf EntryKind.Table (entry_at table.now slot.index) }
    requires part { ∥ HasValueWithin table.now slot.index (slot.depth + 1) view ∥₁ }
    ensures text { PrintsSlot table.now slot view.entry later
        (W.taken out.old) (W.taken out.new) result }
    ensures later { IfOk result (λ l. (v : Value) → IsValueOf table.now slot.index view.entry v
        → l ≡ later_behind later (held_of v slot.ordinal)) }
{
    if let Some(part) = view.member(slot.ordinal) {
        write_comma(out, later)?;
        write_member(table, slot, part, out)?;
        return Ok(true);
    }
    if let Some(member) = view.unknown(slot.ordinal) {
        write_comma(out, later)?;
        write_unknown(slot.ordinal, member, out)?;
        return Ok(true);
    }
    Ok(later)
}

/// Writes a table of an entry: how many envelopes it has, and its members by their ordinals.
#[cycle(write)]
fn write_table<W: Sink>(
    table: &Table<'_>,
    index: u32,
    view: View<'_, '_>,
    depth: usize,
    out: &mut W,
) -> Result<(), Failed>
    requires table { view.decoded.now.table ≡ table.now }
    requires well_formed { WellFormed table.now }
    requires index { index < (header_of table.now).entries }
    requires of_table { IsOf EntryKind.Table (entry_at table.now index) }
    requires part { ∥ HasValueWithin table.now index depth view ∥₁ }
    ensures { PrintsValue table.now index view.entry
        (W.taken out.old) (W.taken out.new) result }
{
    let count = view.len().unwrap();
    write_all(out, b"table(")?;
    write_decimal(count as u64, out)?;
    write_all(out, b") {")?;
    let mut later = false;
    for at in 0..count {
        let slot = Slot {
            index,
            ordinal: at as u64 + 1,
            depth: depth - 1,
        };
        later = write_slot(table, slot, view, later, out)?;
    }
    write_all(out, b"}")
}

/// Writes a union of an entry, or that it is absent.
#[cycle(write)]
fn write_union<W: Sink>(
    table: &Table<'_>,
    index: u32,
    view: View<'_, '_>,
    depth: usize,
    out: &mut W,
) -> Result<(), Failed>
    requires table { view.decoded.now.table ≡ table.now }
    requires well_formed { WellFormed table.now }
    requires index { index < (header_of table.now).entries }
    requires of_union { IsOf EntryKind.Union (entry_at table.now index) }
    requires part { ∥ HasValueWithin table.now index depth view ∥₁ }
    ensures { PrintsValue table.now index view.entry
        (W.taken out.old) (W.taken out.new) result }
{
    let Some((ordinal, known)) = view.variant() else {
        return write_all(out, b"absent");
    };
    write_all(out, b"union(")?;
    if let Some(part) = known {
        let slot = Slot {
            index,
            ordinal,
            depth,
        };
        write_member(table, slot, part, out)?;
        return write_all(out, b")");
    }
    let member = view.unknown(ordinal).unwrap();
    write_unknown(ordinal, member, out)?;
    write_all(out, b")")
}

/// Writes the text of the value of an entry, of at most this depth, that a view shows.
#[cycle(write)]
pub(crate) fn write_value<W: Sink>(
    table: &Table<'_>,
    index: u32,
    view: View<'_, '_>,
    depth: usize,
    out: &mut W,
) -> Result<(), Failed>
    requires table { view.decoded.now.table ≡ table.now }
    requires index { index < (header_of table.now).entries }
    requires part { ∥ HasValueWithin table.now index depth view ∥₁ }
    ensures { PrintsValue table.now index view.entry
        (W.taken out.old) (W.taken out.new) result }
{
    let entry = table.entry(index);
    let kind = EntryKind::from_number(entry.kind).unwrap();
    match kind {
        EntryKind::Bool => write_bool(view, out),
        EntryKind::String => write_string(view, out),
        EntryKind::Handle => write_handle_or_absent(view, out),
        EntryKind::Array => write_elements(table, entry.first, view, depth, out),
        EntryKind::Vector => write_vector(table, entry.first, view, depth, out),
        EntryKind::Struct => write_members(table, index, view, depth, out),
        EntryKind::Box => write_box(table, entry.first, view, depth, out),
        EntryKind::Table => write_table(table, index, view, depth, out),
        EntryKind::Union => write_union(table, index, view, depth, out),
        _ => write_number(view, out),
    }
}
