//! The members of structs, tables and unions.
ghost use Rattle.std.specs.Prelude.{◌≡◌, ◌<◌, ◌^◌, ℕ, List, length, map, IfOk, IfSome, IsNone};
ghost use Rattle.fidl_tree.specs.Leaf.{text_at};
ghost use Rattle.fidl_tree.specs.Syntax.{Attribute, ordinal_member};
ghost use Rattle.fidl_tree.specs.Views.{member_view, ordinal_member_view, type_view};
ghost use Rattle.fidl_consts.specs.Literals.{number_of};
ghost use Rattle.fidl_wire.specs.Term.{Term, Fields, Rows};
ghost use Rattle.fidl_ir.specs.Terms.{term_view, fields_view, rows_view};
ghost use Rattle.fidl_lower_types.specs.TermViews.{AreKnown};
ghost use Rattle.fidl_lower_layouts.specs.Members.{FieldIs, FieldsAre, RowIs, RowsAre};
ghost use Rattle.fidl_lower_layouts.specs.Members.{WrittenRowsAre};

use crate::order::by_ordinal;
use crate::scope::Scope;
use fidl_constraints::use_of;
use fidl_consts::number_value;
use fidl_ir::{Field, Row, Type};
use fidl_lower_types::term_of;
use fidl_span::Span;
use fidl_tree::{File, Member, OrdinalBody, OrdinalMember, TypeConstructor};
use std::alloc::{AllocError, Global};

/// A name, in the bytes of its source.
fn name_at(alloc: Global, file: &File<'_>, name: Span) -> Result<Vec<u8>, AllocError>
    ensures { IfOk result (λ text. text.items ≡ text_at file.now.src.now name) }
{
    let mut text = Vec::new(alloc);
    text.extend_from_slice(file.text(name))?;
    Ok(text)
}

/// A field of the name at this place.
fn a_field(alloc: Global, file: &File<'_>, name: Span, of: Type) -> Result<Field, AllocError>
    ensures name { IfOk result (λ x. x.name.items ≡ text_at file.now.src.now name) }
    ensures of { IfOk result (λ x. term_view x.of ≡ term_view of) }
{
    let text = name_at(alloc, file, name)?;
    Ok(Field { name: text, of })
}

/// A member of a struct.
fn field_of<'f>(scope: Scope<'_, 'f, '_>, member: &'f Member) -> Result<Option<Field>, AllocError>
    requires within { scope.file_index < length scope.sources.now.named.now }
    requires known { AreKnown scope.sources.now }
    ensures found { IfOk result (λ found. IfSome found (λ x. FieldIs
        scope.entry.sources.now.named.now scope.entry.file_index scope.entry.file.now
        (member_view member.now) x.name.items (term_view x.of))) }
    ensures none { IfOk result (λ found. IsNone found → (name : List ℕ) (e : Term) → FieldIs
        scope.entry.sources.now.named.now scope.entry.file_index scope.entry.file.now
        (member_view member.now) name e → ⊥) }
{
    match term_of(scope.sources, scope.file_index, use_of(&member.constructor))? {
        None => Ok(None),
        Some(of) => Ok(Some(a_field(scope.sources.alloc, scope.file, member.name, of)?)),
    }
}

/// The members of a struct, in written order (public source: the FIDL language specification,
/// "Structs"). Nothing where the type of one has no term.
///
/// `AllocError`: memory ran out.
pub fn fields<'f>(
    scope: Scope<'_, 'f, '_>,
    members: &'f [Member],
) -> Result<Option<Vec<Field>>, AllocError>
    requires within { scope.file_index < length scope.sources.now.named.now }
    requires known { AreKnown scope.sources.now }
    ensures found { IfOk result (λ found. IfSome found (λ xs. FieldsAre
        scope.entry.sources.now.named.now scope.entry.file_index scope.entry.file.now
        (map member_view members.now) (fields_view xs.items))) }
    ensures none { IfOk result (λ found. IsNone found → (fs : Fields) → FieldsAre
        scope.entry.sources.now.named.now scope.entry.file_index scope.entry.file.now
        (map member_view members.now) fs → ⊥) }
{
    let mut found = Vec::new(scope.sources.alloc);
    for member in members {
        let Some(next) = field_of(scope, member)? else {
            return Ok(None);
        };
        found.push(next)?;
    }
    Ok(Some(found))
}

/// The number of an ordinal, of 32 bits.
fn ordinal_at(file: &File<'_>, ordinal: Span) -> Option<u32>
    ensures found { IfSome result (λ n. (n ≡ number_of (text_at file.now.src.now ordinal))
        × (n < 2 ^ 32)) }
    ensures none { IsNone result → number_of (text_at file.now.src.now ordinal) < 2 ^ 32 → ⊥ }
{
    let number = number_value(file.text(ordinal))?;
    if number > 4_294_967_295 {
        return None;
    }
    Some(number as u32)
}

/// A row of this ordinal and of the name at this place.
fn a_row(
    alloc: Global,
    file: &File<'_>,
    ordinal: u32,
    name: Span,
    of: Type,
) -> Result<Row, AllocError>
    ensures ordinal { IfOk result (λ x. x.ordinal ≡ ordinal) }
    ensures name { IfOk result (λ x. x.name.items ≡ text_at file.now.src.now name) }
    ensures of { IfOk result (λ x. term_view x.of ≡ term_view of) }
{
    let text = name_at(alloc, file, name)?;
    Ok(Row {
        ordinal,
        name: text,
        of,
    })
}

/// A member of a table or a union that is not reserved.
fn row_of<'f>(
    scope: Scope<'_, 'f, '_>,
    ordinal: Span,
    name: Span,
    constructor: &'f TypeConstructor,
) -> Result<Option<Row>, AllocError>
    requires within { scope.file_index < length scope.sources.now.named.now }
    requires known { AreKnown scope.sources.now }
    ensures found { IfOk result (λ found. IfSome found (λ x. (attributes : List Attribute) → RowIs
        scope.entry.sources.now.named.now scope.entry.file_index scope.entry.file.now
        (ordinal_member attributes ordinal name (type_view constructor.now)) x.ordinal x.name.items
        (term_view x.of))) }
    ensures none { IfOk result (λ found. IsNone found → (attributes : List Attribute) (n : ℕ)
        (text : List ℕ) (e : Term) → RowIs
        scope.entry.sources.now.named.now scope.entry.file_index scope.entry.file.now
        (ordinal_member attributes ordinal name (type_view constructor.now)) n text e → ⊥) }
{
    let Some(number) = ordinal_at(scope.file, ordinal) else {
        return Ok(None);
    };
    match term_of(scope.sources, scope.file_index, use_of(constructor))? {
        None => Ok(None),
        Some(of) => Ok(Some(a_row(scope.sources.alloc, scope.file, number, name, of)?)),
    }
}

/// The members of a table or a union that are not reserved, in written order.
fn written_rows<'f>(
    scope: Scope<'_, 'f, '_>,
    members: &'f [OrdinalMember],
) -> Result<Option<Vec<Row>>, AllocError>
    requires within { scope.file_index < length scope.sources.now.named.now }
    requires known { AreKnown scope.sources.now }
    ensures found { IfOk result (λ found. IfSome found (λ xs. WrittenRowsAre
        scope.entry.sources.now.named.now scope.entry.file_index scope.entry.file.now
        (map ordinal_member_view members.now) (rows_view xs.items))) }
    ensures none { IfOk result (λ found. IsNone found → (rows : Rows) → WrittenRowsAre
        scope.entry.sources.now.named.now scope.entry.file_index scope.entry.file.now
        (map ordinal_member_view members.now) rows → ⊥) }
{
    let mut found = Vec::new(scope.sources.alloc);
    for member in members {
        match &member.body {
            OrdinalBody::Reserved(_) => {}
            OrdinalBody::Typed { name, constructor } => {
                let Some(next) = row_of(scope, member.ordinal, *name, constructor)? else {
                    return Ok(None);
                };
                found.push(next)?;
            }
        }
    }
    Ok(Some(found))
}

/// The members of a table or a union, by rising ordinal (public source: the FIDL language
/// specification, "Tables" and "Unions"). A reserved one is left out. Nothing where the ordinal of
/// another has more than 32 bits, its type has no term, or two have one ordinal.
///
/// `AllocError`: memory ran out.
pub fn rows<'f>(
    scope: Scope<'_, 'f, '_>,
    members: &'f [OrdinalMember],
) -> Result<Option<Vec<Row>>, AllocError>
    requires within { scope.file_index < length scope.sources.now.named.now }
    requires known { AreKnown scope.sources.now }
    ensures found { IfOk result (λ found. IfSome found (λ xs. RowsAre
        scope.entry.sources.now.named.now scope.entry.file_index scope.entry.file.now
        (map ordinal_member_view members.now) (rows_view xs.items))) }
    ensures none { IfOk result (λ found. IsNone found → (rows : Rows) → RowsAre
        scope.entry.sources.now.named.now scope.entry.file_index scope.entry.file.now
        (map ordinal_member_view members.now) rows → ⊥) }
{
    match written_rows(scope, members)? {
        None => Ok(None),
        Some(written) => Ok(by_ordinal(written)),
    }
}
