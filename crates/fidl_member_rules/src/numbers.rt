//! The numbers of the members of bits and enums.
ghost use Rattle.std.specs.Prelude.{◌≡◌, ◌↔◌, ℤ, List, Some, map, slice_get, IsTrue, IfOk, IfSome};
ghost use Rattle.std.specs.Prelude.{IsNone, FitsSigned};
ghost use Rattle.std.specs.Int.{w128};
ghost use Rattle.fidl_tree.specs.Views.{value_member_view};
ghost use Rattle.fidl_consts.specs.PlainValues.{seen, a_number};
ghost use Rattle.fidl_consts.specs.Tables.{AreConsts};
ghost use Rattle.fidl_member_rules.specs.Numbers.{HasNumber, NumbersAre, IsPowerOfTwo};

use fidl_consts::{ConstType, ConstValue, Consts, NumberKind, is_memory};
use fidl_named::Named;
use fidl_tree::{File, ValueMember};
use std::alloc::{AllocError, Global};

/// A file of a set, with its number and the values of the set's constants.
#[derive(Clone, Copy, Drop)]
pub struct ValueScope<'a, 'f, 's> {
    pub alloc: Global,
    pub named: &'a Named<'f, 's>,
    pub consts: &'a Consts,
    pub file_index: usize,
    pub file: &'f File<'s>,
}

/// The whole number that a value is.
fn whole_number(value: &ConstValue) -> Option<i128>
    ensures found { IfSome result (λ z. seen value.now ≡ a_number z) }
    ensures none { IsNone result → (z : ℤ) → seen value.now ≡ a_number z → ⊥ }
{
    match value {
        ConstValue::Number(number) => Some(*number),
        ConstValue::Bool(_) => None,
        ConstValue::Text(_) => None,
    }
}

/// The number of a member of bits or an enum of this kind.
fn number_of(
    scope: ValueScope<'_, '_, '_>,
    kind: NumberKind,
    member: &ValueMember,
) -> Result<Option<i128>, AllocError>
    requires at { slice_get scope.named.now scope.file_index ≡ Some scope.file.now }
    requires known { AreConsts scope.named.now scope.consts.now }
    ensures found { IfOk result (λ found. IfSome found (HasNumber scope.entry.named.now
        scope.entry.file.now kind (value_member_view member.now))) }
    ensures fits { IfOk result (λ found. IfSome found (FitsSigned w128)) }
    ensures none { IfOk result (λ found. IsNone found → (z : ℤ) → HasNumber scope.entry.named.now
        scope.entry.file.now kind (value_member_view member.now) z → ⊥) }
{
    let found = scope.consts.value_of_expression(
        scope.alloc,
        scope.named,
        scope.file_index,
        ConstType::Number(kind),
        &member.value,
    );
    match found {
        Ok(value) => Ok(whole_number(&value)),
        Err(fault) => {
            if is_memory(fault) {
                return Err(AllocError);
            }
            Ok(None)
        }
    }
}

/// The numbers of the members of bits or an enum of this kind, in written order (public source: the
/// FIDL language specification, "Bits" and "Enums"). Nothing where one of them has none.
///
/// `AllocError`: memory ran out.
pub fn member_numbers(
    scope: ValueScope<'_, '_, '_>,
    kind: NumberKind,
    members: &[ValueMember],
) -> Result<Option<Vec<i128>>, AllocError>
    requires at { slice_get scope.named.now scope.file_index ≡ Some scope.file.now }
    requires known { AreConsts scope.named.now scope.consts.now }
    ensures found { IfOk result (λ found. IfSome found (λ zs. NumbersAre scope.entry.named.now
        scope.entry.file.now kind (map value_member_view members.now) zs.items)) }
    ensures none { IfOk result (λ found. IsNone found → (zs : List ℤ)
        → NumbersAre scope.entry.named.now scope.entry.file.now kind
        (map value_member_view members.now) zs → ⊥) }
{
    let mut found = Vec::new(scope.alloc);
    for member in members {
        let Some(number) = number_of(scope, kind, member)? else {
            return Ok(None);
        };
        found.push(number)?;
    }
    Ok(Some(found))
}

/// Whether a number is a power of two.
pub(crate) fn is_power_of_two(number: i128) -> bool
    ensures { IsTrue result ↔ IsPowerOfTwo number }
{
    if number < 0 {
        return false;
    }
    let wanted = number as u128;
    let mut power: u128 = 1;
    for _exponent in 0..127_usize {
        if power == wanted {
            return true;
        }
        power *= 2;
    }
    false
}
