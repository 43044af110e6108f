//! The unions in which methods answer.
ghost use Rattle.std.specs.Prelude.{◌≡◌, ◌<◌, ℕ, Option, length, option_map};
ghost use Rattle.std.specs.Prelude.{IfOk, IfSome, IsNone};
ghost use Rattle.fidl_tree.specs.Views.{payload_view, error_view, response_view};
ghost use Rattle.fidl_wire.specs.Term.{Term};
ghost use Rattle.fidl_ir.specs.Terms.{term_view, rows_view, definition_view};
ghost use Rattle.fidl_lower_types.specs.TermViews.{AreKnown};
ghost use Rattle.fidl_lower_layouts.specs.Results.{IsEmptyNumber, ResponseIs, ErrorIs, result_rows};
ghost use Rattle.fidl_lower_layouts.specs.Results.{IsResult};

use crate::scope::Scope;
use fidl_constraints::use_of;
use fidl_declarations::Step;
use fidl_ir::{Definition, NumberKind, Row, Type};
use fidl_lower_types::{Sources, empty_response_number, names_before, term_of};
use fidl_tree::{ErrorType, Payload, Response};
use std::alloc::{AllocError, Global};

/// The number of the empty response in the result at this path.
fn empty_number(
    sources: &Sources<'_, '_, '_>,
    file_index: usize,
    result_path: &[Step],
) -> Option<u32>
    requires { AreKnown sources.now }
    ensures found { IfSome result (IsEmptyNumber sources.now.named.now file_index
        result_path.now) }
    ensures none { IsNone result → (i : ℕ) → IsEmptyNumber sources.now.named.now file_index
        result_path.now i → ⊥ }
{
    let (protocol, method) = names_before(result_path, Step::Result)?;
    empty_response_number(sources, file_index, protocol, method)
}

/// The type of the member `response`.
fn response_type<'f>(
    scope: Scope<'_, 'f, '_>,
    result_path: &[Step],
    payload: &'f Payload,
) -> Result<Option<Type>, AllocError>
    requires within { scope.file_index < length scope.sources.now.named.now }
    requires known { AreKnown scope.sources.now }
    ensures found { IfOk result (λ found. IfSome found (λ t. ResponseIs
        scope.entry.sources.now.named.now scope.entry.file_index result_path.now
        (payload_view payload.now) (term_view t))) }
    ensures none { IfOk result (λ found. IsNone found → (e : Term) → ResponseIs
        scope.entry.sources.now.named.now scope.entry.file_index result_path.now
        (payload_view payload.now) e → ⊥) }
{
    if let Some(constructor) = &payload.constructor {
        return term_of(scope.sources, scope.file_index, use_of(constructor));
    }
    match empty_number(scope.sources, scope.file_index, result_path) {
        None => Ok(None),
        Some(number) => Ok(Some(Type::Named(number))),
    }
}

/// The type after `error`, where one is written. Nothing where that has no term.
fn error_type<'f>(
    scope: Scope<'_, 'f, '_>,
    error: &'f Option<ErrorType>,
) -> Result<Option<Option<Type>>, AllocError>
    requires within { scope.file_index < length scope.sources.now.named.now }
    requires known { AreKnown scope.sources.now }
    ensures found { IfOk result (λ found. IfSome found (λ e. ErrorIs
        scope.entry.sources.now.named.now scope.entry.file_index
        (option_map error_view error.now) (option_map term_view e))) }
    ensures none { IfOk result (λ found. IsNone found → (e : Option Term) → ErrorIs
        scope.entry.sources.now.named.now scope.entry.file_index
        (option_map error_view error.now) e → ⊥) }
{
    let Some(written) = error else {
        return Ok(Some(None));
    };
    match term_of(
        scope.sources,
        scope.file_index,
        use_of(&written.constructor),
    )? {
        None => Ok(None),
        Some(of) => Ok(Some(Some(of))),
    }
}

/// A row of this name.
fn named_row(alloc: Global, ordinal: u32, name: &[u8], of: Type) -> Result<Row, AllocError>
    ensures ordinal { IfOk result (λ x. x.ordinal ≡ ordinal) }
    ensures name { IfOk result (λ x. x.name.items ≡ name.now) }
    ensures of { IfOk result (λ x. term_view x.of ≡ term_view of) }
{
    let mut text = Vec::new(alloc);
    text.extend_from_slice(name)?;
    Ok(Row {
        ordinal,
        name: text,
        of,
    })
}

/// The members of a result.
fn result_rows(
    alloc: Global,
    strict: bool,
    response: Type,
    error: Option<Type>,
) -> Result<Vec<Row>, AllocError>
    ensures { IfOk result (λ rows. rows_view rows.items
        ≡ result_rows strict (term_view response) (option_map term_view error)) }
{
    let mut rows = Vec::new(alloc);
    rows.push(named_row(alloc, 1, b"response", response)?)?;
    if let Some(of) = error {
        rows.push(named_row(alloc, 2, b"err", of)?)?;
    }
    if !strict {
        let of = Type::Number(NumberKind::Int32);
        rows.push(named_row(alloc, 3, b"framework_err", of)?)?;
    }
    Ok(rows)
}

/// The definition of the union in which a method answers.
pub(crate) fn result_definition<'f>(
    scope: Scope<'_, 'f, '_>,
    path: &[Step],
    strict: bool,
    response: &'f Response,
) -> Result<Option<Definition>, AllocError>
    requires within { scope.file_index < length scope.sources.now.named.now }
    requires known { AreKnown scope.sources.now }
    ensures found { IfOk result (λ found. IfSome found (λ d. IsResult
        scope.entry.sources.now.named.now scope.entry.file_index path.now strict
        (response_view response.now) (definition_view d))) }
    ensures none { IfOk result (λ found. IsNone found → (t : Term) → IsResult
        scope.entry.sources.now.named.now scope.entry.file_index path.now strict
        (response_view response.now) t → ⊥) }
{
    let Some(of) = response_type(scope, path, &response.payload)? else {
        return Ok(None);
    };
    let Some(error) = error_type(scope, &response.error)? else {
        return Ok(None);
    };
    Ok(Some(Definition::Union {
        optional: false,
        strict: true,
        rows: result_rows(scope.sources.alloc, strict, of, error)?,
    }))
}
