//! Whether an entry is a type, one level deep.
ghost use Rattle.std.specs.Prelude.{ℕ, List, map, IsTrue};
ghost use Rattle.fidl_wire.specs.Term.{Term, resolve};
ghost use Rattle.fidl_equivalence.specs.Alike.{Alike, IsNumbered};
ghost use Rattle.fidl_ir.specs.Terms.{term_view, definition_view};
ghost use Rattle.fidl_reachable_types.specs.Growing.{reference_view};
ghost use Rattle.fidl_table_format.specs.declared.record.Header.{Header};
ghost use Rattle.fidl_table_format.specs.Section.{header_of};
ghost use Rattle.fidl_table_format.specs.Terms.{term_of};
ghost use Rattle.fidl_table_check.specs.Members.{IsEntryOf};

use crate::members::{fields_are, rows_are};
use crate::part::{is_layout, is_part};
use crate::shape::{
    is_array, is_bits, is_bool, is_box, is_enum, is_handle, is_number, is_struct, is_table,
    is_text, is_union, is_vector,
};
use crate::values::has_values;
use fidl_ir::{Definition, Type};
use fidl_reachable_types::TypeRef;
use fidl_table_format::Entry;
use fidl_verify::Table;

/// Whether an entry is a type that is no definition.
pub(crate) fn type_is(types: &[TypeRef<'_>], entry: &Entry, of: &Type) -> bool
    ensures { IsTrue result → (terms : List Term) (bytes : List ℕ) (h : Header)
        → Alike (λ t u. IsNumbered (map reference_view types.now) t u)
        (resolve terms (term_view of.now)) (term_of bytes h entry.now) }
{
    match of {
        Type::Bool => is_bool(entry),
        Type::Number(kind) => is_number(entry, *kind),
        Type::Handle {
            optional,
            subtype,
            rights,
        } => is_handle(entry, *optional, *subtype, *rights),
        Type::Text { optional, bound } => is_text(entry, *optional, *bound),
        Type::Vector {
            optional,
            bound,
            element,
        } => is_vector(entry, *optional, *bound) && is_part(types, entry.first, element),
        Type::Array { element, count } => {
            is_array(entry, *count) && is_part(types, entry.first, element)
        }
        Type::Box(number) => is_box(entry) && is_layout(types, entry.first, *number),
        Type::Named(_) => false,
    }
}

/// Whether an entry is this definition.
pub(crate) fn definition_is(
    table: &Table<'_>,
    types: &[TypeRef<'_>],
    entry: &Entry,
    definition: &Definition,
) -> bool
    requires { IsEntryOf table.now entry.now }
    ensures { IsTrue result
        → Alike (λ t u. IsNumbered (map reference_view types.now) t u) (definition_view definition.now)
        (term_of table.now (header_of table.now) entry.now) }
{
    // Read, for what is known of the entries of a verified table.
    let _entries = table.entries();
    match definition {
        Definition::Bits { kind, mask } => is_bits(entry, *kind, *mask),
        Definition::Enum { kind, values } => {
            is_enum(entry, *kind) && has_values(table, entry, values)
        }
        Definition::Struct(fields) => {
            is_struct(entry) && fields_are(table, types, entry, fields.as_slice())
        }
        Definition::Table(rows) => {
            is_table(entry) && rows_are(table, types, entry, rows.as_slice())
        }
        Definition::Union {
            optional,
            strict,
            rows,
        } => {
            is_union(entry, *optional, *strict) && rows_are(table, types, entry, rows.as_slice())
        }
    }
}
