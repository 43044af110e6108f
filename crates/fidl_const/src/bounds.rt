//! How long the strings of a type may be.
ghost use Rattle.std.specs.Prelude.{◌≡◌, ◌++◌, ◌∷◌, [], List, false, IfOk, IfErr, IfSome, IsNone};
ghost use Rattle.std.specs.Prelude.{option_copied};
ghost use Rattle.fidl_tree.specs.Syntax.{Value as Plain};
ghost use Rattle.fidl_tree.specs.Views.{value_view, constraints_view};
ghost use Rattle.fidl_named.specs.Constraints.{is_optional};
ghost use Rattle.fidl_consts.specs.PlainValues.{seen, Fits};
ghost use Rattle.fidl_consts.specs.declared.const_type.ConstType.TheVariants as ty;
ghost use Rattle.fidl_consts.specs.declared.const_type.NumberKind.TheVariants as Kinds;
ghost use Rattle.fidl_consts.specs.Types.{constraints_of};
ghost use Rattle.fidl_const.specs.Columns.{IsBound, lesser};
ghost use Rattle.fidl_consts.specs.Tables.{IsMemoryOr};
ghost use Rattle.fidl_const.specs.PlaceScopes.{BoundsSettled, InheritedLimits};
ghost use Rattle.fidl_consts.specs.Scopes.{IsString, KnowsTrue};
ghost use Rattle.fidl_const.specs.PlaceScopes.{LimitsOf, OwnLimits, RefusesBound, RefusesBounds};
ghost use Rattle.fidl_const.specs.PlaceScopes.{UsesOfTypeSettled};
ghost use Rattle.fidl_consts.specs.Scopes.{ValueSettled};

use fidl_consts::names::find;
use fidl_consts::scope::FileScope;
use fidl_consts::types::{type_constraints, type_path};
use fidl_consts::values::value_in;
use fidl_consts::{ConstFault, ConstType, ConstValue, Limits, NumberKind};
use fidl_named::{Meaning, Wanted, is_optional, items};
use fidl_tree::{Constraints, TypeConstructor, Value};
use std::alloc::AllocError;

/// The lesser limit, where there is one.
fn lesser(one: Option<u64>, other: Option<u64>) -> Option<u64>
    ensures { result ≡ lesser one other }
{
    match (one, other) {
        (Some(one), Some(other)) => Some(one.min(other)),
        (Some(one), None) => Some(one),
        (None, other) => other,
    }
}

/// A value of 32 bits as a bound.
fn bound_of(value: &ConstValue) -> Option<u64>
    ensures found { IfSome result (λ n. IsBound (seen value.now) n) }
    ensures none { IsNone result → Fits (ty.Number Kinds.Uint32) (seen value.now) → ⊥ }
{
    match value {
        ConstValue::Number(number) => u64::try_from(*number).ok(),
        ConstValue::Bool(_) | ConstValue::Text(_) => None,
    }
}

/// The limits under these constraints and one more.
fn with_constraint(
    scope: &FileScope<'_, '_, '_, '_>,
    limits: Limits,
    value: &Value,
) -> Result<Limits, ConstFault>
    requires known { KnowsTrue scope.now }
    requires settled { is_optional scope.now.file.tree.now (value_view value.now) ≡ false
        → ValueSettled scope.now value.now }
    ensures ok { IfOk result (λ more. (values : List Plain) → OwnLimits scope.now values limits
        → OwnLimits scope.now (values ++ value_view value.now ∷ []) more) }
    ensures fault_is_true { IfErr result (IsMemoryOr (RefusesBound scope.now value.now)) }
{
    if is_optional(scope.alloc, scope.file.tree, value)? {
        return Ok(Limits {
            optional: true,
            greatest: limits.greatest,
        });
    }
    let wanted = ConstType::Number(NumberKind::Uint32);
    let bound = value_in(scope, wanted, value)?;
    Ok(Limits {
        optional: limits.optional,
        greatest: lesser(limits.greatest, bound_of(&bound)),
    })
}

/// The limits under a type's own constraints.
fn own_limits(
    scope: &FileScope<'_, '_, '_, '_>,
    constraints: Option<&Constraints>,
) -> Result<Limits, ConstFault>
    requires known { KnowsTrue scope.now }
    requires settled { BoundsSettled scope.now constraints }
    ensures ok { IfOk result (OwnLimits scope.now
        (constraints_view (option_copied constraints.entry))) }
    ensures fault_is_true { IfErr result (IsMemoryOr (RefusesBounds scope.now
        (constraints_view (option_copied constraints.entry)))) }
{
    let mut limits = Limits {
        greatest: None,
        optional: false,
    };
    for value in &items(scope.alloc, constraints)? {
        limits = with_constraint(scope, limits, value)?;
    }
    Ok(limits)
}

/// The limits of the alias that a type's name means, if it means one.
fn inherited_limits(
    scope: &FileScope<'_, '_, '_, '_>,
    constructor: &TypeConstructor,
) -> Result<Limits, AllocError>
    requires known { KnowsTrue scope.now }
    requires settled { UsesOfTypeSettled scope.now constructor.now }
    requires string { IsString scope.now.file constructor.now }
    ensures { IfOk result (InheritedLimits scope.now constructor.now) }
{
    let none = Limits {
        greatest: None,
        optional: false,
    };
    let Some(path) = type_path(constructor) else {
        return Ok(none);
    };
    let Some(meaning) = find(scope.file.named, scope.file.file_index, path, Wanted::Type)? else {
        return Ok(none);
    };
    let Meaning::Declared(id) = meaning else {
        return Ok(none);
    };
    match scope.consts.limits(id) {
        None => Ok(none),
        Some(limits) => Ok(limits),
    }
}

/// The limits under all constraints of a type of strings, with those of the aliases that its name
/// leads to.
pub(crate) fn limits(
    scope: &FileScope<'_, '_, '_, '_>,
    constructor: &TypeConstructor,
) -> Result<Limits, ConstFault>
    requires known { KnowsTrue scope.now }
    requires settled { UsesOfTypeSettled scope.now constructor.now }
    requires string { IsString scope.now.file constructor.now }
    ensures ok { IfOk result (LimitsOf scope.now constructor.now) }
    ensures fault_is_true { IfErr result (IsMemoryOr (RefusesBounds scope.now
        (constraints_of constructor.now))) }
{
    let own = own_limits(scope, type_constraints(constructor))?;
    let inherited = inherited_limits(scope, constructor)?;
    Ok(Limits {
        greatest: lesser(own.greatest, inherited.greatest),
        optional: own.optional || inherited.optional,
    })
}
