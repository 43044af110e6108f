//! The numbers of bits and enums.
ghost use Rattle.std.specs.Prelude.{◌≡◌, ℕ, ℤ, Bool, false, List, Some, map, slice_get};
ghost use Rattle.std.specs.Prelude.{IfOk, IfSome, IsNone};
ghost use Rattle.fidl_tree.specs.Syntax.{ValueMember as Plain};
ghost use Rattle.fidl_tree.specs.Views.{is_strict, kind_view, value_member_view, values_view};
ghost use Rattle.fidl_tree.specs.declared.file.File.{File as Tree};
ghost use Rattle.fidl_consts.specs.declared.const_type.NumberKind.{NumberKind as Kinds};
ghost use Rattle.fidl_consts.specs.Types.{LayoutIs};
ghost use Rattle.fidl_wire.specs.Term.{Term};
ghost use Rattle.fidl_ir.specs.Terms.{number_kind_view, definition_view};
ghost use Rattle.fidl_lower_types.specs.TermViews.{AreKnown};
ghost use Rattle.fidl_lower_layouts.specs.Values.{kind_of, IsMaskOf, AreStrictBits, IsStrictEnum};
ghost use Rattle.fidl_lower_layouts.specs.Values.{IsNumbered};
ghost use Rattle.fidl_member_rules.specs.Numbers.{NumbersAre};
ghost use Rattle.fidl_lower_layouts.specs.Definitions.{LayoutIs as PlainLayoutIs};

use crate::order::rising;
use crate::scope::Scope;
use fidl_consts::{NumberKind, is_memory, underlying_kind};
use fidl_declarations::is_strict;
use fidl_ir::{Definition, NumberKind as Number};
use fidl_member_rules::{ValueScope, member_numbers};
use fidl_tree::{ValueMember, ValuesKeyword, ValuesLayout};
use std::alloc::AllocError;

/// The same type of whole numbers, in messages.
fn kind_of(kind: NumberKind) -> Number
    ensures { number_kind_view result ≡ kind_of kind }
{
    match kind {
        NumberKind::Int8 => Number::Int8,
        NumberKind::Int16 => Number::Int16,
        NumberKind::Int32 => Number::Int32,
        NumberKind::Int64 => Number::Int64,
        NumberKind::Uint8 => Number::Uint8,
        NumberKind::Uint16 => Number::Uint16,
        NumberKind::Uint32 => Number::Uint32,
        NumberKind::Uint64 => Number::Uint64,
    }
}

/// The type of the numbers of bits or an enum.
fn kind_in(
    scope: Scope<'_, '_, '_>,
    layout: &ValuesLayout,
) -> Result<Option<NumberKind>, AllocError>
    requires { slice_get scope.sources.now.named.now scope.file_index ≡ Some scope.file.now }
    ensures found { IfOk result (λ found. IfSome found (λ kind. LayoutIs
        scope.entry.sources.now.named.now scope.entry.file.now layout.now (Some kind))) }
    ensures none { IfOk result (λ found. IsNone found → (kind : Kinds) → LayoutIs
        scope.entry.sources.now.named.now scope.entry.file.now layout.now (Some kind) → ⊥) }
{
    match underlying_kind(scope.sources.named, scope.file_index, layout) {
        Ok(kind) => Ok(Some(kind)),
        Err(fault) => {
            if is_memory(fault) {
                return Err(AllocError);
            }
            Ok(None)
        }
    }
}

/// Each bit of these numbers. Nothing where one is negative or has more than 64 bits.
fn mask_of(numbers: &[i128]) -> Option<u64>
    ensures found { IfSome result (IsMaskOf numbers.now) }
    ensures none { IsNone result → (mask : ℕ) → IsMaskOf numbers.now mask → ⊥ }
{
    let mut mask: u64 = 0;
    for number in numbers {
        if *number < 0 || *number > 0xffff_ffff_ffff_ffff {
            return None;
        }
        mask |= *number as u64;
    }
    Some(mask)
}

/// The numbers of the members of bits or an enum.
fn numbers_in(
    scope: Scope<'_, '_, '_>,
    kind: NumberKind,
    members: &[ValueMember],
) -> Result<Option<Vec<i128>>, AllocError>
    requires at { slice_get scope.sources.now.named.now scope.file_index ≡ Some scope.file.now }
    requires known { AreKnown scope.sources.now }
    ensures found { IfOk result (λ found. IfSome found (λ zs. NumbersAre
        scope.entry.sources.now.named.now scope.entry.file.now kind
        (map value_member_view members.now) zs.items)) }
    ensures none { IfOk result (λ found. IsNone found → (zs : List ℤ) → NumbersAre
        scope.entry.sources.now.named.now scope.entry.file.now kind
        (map value_member_view members.now) zs → ⊥) }
{
    let known = ValueScope {
        alloc: scope.sources.alloc,
        named: scope.sources.named,
        consts: scope.sources.consts,
        file_index: scope.file_index,
        file: scope.file,
    };
    member_numbers(known, kind, members)
}

/// Strict bits, with their mask.
fn strict_bits(
    scope: Scope<'_, '_, '_>,
    kind: NumberKind,
    members: &[ValueMember],
) -> Result<Option<Definition>, AllocError>
    requires at { slice_get scope.sources.now.named.now scope.file_index ≡ Some scope.file.now }
    requires known { AreKnown scope.sources.now }
    ensures found { IfOk result (λ found. IfSome found (λ d. AreStrictBits
        scope.entry.sources.now.named.now scope.entry.file.now kind
        (map value_member_view members.now) (definition_view d))) }
    ensures none { IfOk result (λ found. IsNone found → (t : Term) → AreStrictBits
        scope.entry.sources.now.named.now scope.entry.file.now kind
        (map value_member_view members.now) t → ⊥) }
{
    let Some(numbers) = numbers_in(scope, kind, members)? else {
        return Ok(None);
    };
    let Some(mask) = mask_of(&numbers) else {
        return Ok(None);
    };
    Ok(Some(Definition::Bits {
        kind: kind_of(kind),
        mask: Some(mask),
    }))
}

/// A strict enum, with the numbers of its members, which rise. Nothing where two are the same.
fn strict_enum(
    scope: Scope<'_, '_, '_>,
    kind: NumberKind,
    members: &[ValueMember],
) -> Result<Option<Definition>, AllocError>
    requires at { slice_get scope.sources.now.named.now scope.file_index ≡ Some scope.file.now }
    requires known { AreKnown scope.sources.now }
    ensures found { IfOk result (λ found. IfSome found (λ d. IsStrictEnum
        scope.entry.sources.now.named.now scope.entry.file.now kind
        (map value_member_view members.now) (definition_view d))) }
    ensures none { IfOk result (λ found. IsNone found → (t : Term) → IsStrictEnum
        scope.entry.sources.now.named.now scope.entry.file.now kind
        (map value_member_view members.now) t → ⊥) }
{
    let Some(written) = numbers_in(scope, kind, members)? else {
        return Ok(None);
    };
    let Some(numbers) = rising(written) else {
        return Ok(None);
    };
    Ok(Some(Definition::Enum {
        kind: kind_of(kind),
        values: Some(numbers),
    }))
}

/// Flexible bits or a flexible enum, which may have any number.
fn flexible(keyword: &ValuesKeyword, kind: NumberKind) -> Definition
    ensures { (files : List Tree) (f : Tree) (ms : List Plain) → IsNumbered files f kind
        (kind_view keyword.now) false ms (definition_view result) }
{
    match keyword {
        ValuesKeyword::Bits(_) => Definition::Bits {
            kind: kind_of(kind),
            mask: None,
        },
        ValuesKeyword::Enum(_) => Definition::Enum {
            kind: kind_of(kind),
            values: None,
        },
    }
}

/// Bits or an enum of this type of numbers.
fn numbered(
    scope: Scope<'_, '_, '_>,
    kind: NumberKind,
    keyword: &ValuesKeyword,
    strict: bool,
    members: &[ValueMember],
) -> Result<Option<Definition>, AllocError>
    requires at { slice_get scope.sources.now.named.now scope.file_index ≡ Some scope.file.now }
    requires known { AreKnown scope.sources.now }
    ensures found { IfOk result (λ found. IfSome found (λ d. IsNumbered
        scope.entry.sources.now.named.now scope.entry.file.now kind (kind_view keyword.now) strict
        (map value_member_view members.now) (definition_view d))) }
    ensures none { IfOk result (λ found. IsNone found → (t : Term) → IsNumbered
        scope.entry.sources.now.named.now scope.entry.file.now kind (kind_view keyword.now) strict
        (map value_member_view members.now) t → ⊥) }
{
    if !strict {
        return Ok(Some(flexible(keyword, kind)));
    }
    match keyword {
        ValuesKeyword::Bits(_) => strict_bits(scope, kind, members),
        ValuesKeyword::Enum(_) => strict_enum(scope, kind, members),
    }
}

/// The definition of bits or an enum.
pub(crate) fn values_definition(
    scope: Scope<'_, '_, '_>,
    layout: &ValuesLayout,
) -> Result<Option<Definition>, AllocError>
    requires at { slice_get scope.sources.now.named.now scope.file_index ≡ Some scope.file.now }
    requires known { AreKnown scope.sources.now }
    ensures found { IfOk result (λ found. IfSome found (λ d. (number : ℕ) (optional : Bool)
        → PlainLayoutIs scope.entry.sources.now.named.now number scope.entry.file.now optional
        (values_view layout.now) (definition_view d))) }
    ensures none { IfOk result (λ found. IsNone found → (number : ℕ) (optional : Bool) (t : Term)
        → PlainLayoutIs scope.entry.sources.now.named.now number scope.entry.file.now optional
        (values_view layout.now) t → ⊥) }
{
    let Some(kind) = kind_in(scope, layout)? else {
        return Ok(None);
    };
    let strict = is_strict(&layout.strictness);
    numbered(scope, kind, &layout.keyword, strict, &layout.members)
}
