//! Each constraint of a type has the value that it owes.
ghost use Rattle.std.specs.Prelude.{◌≡◌, ◌<◌, IfErr, OnOk};
ghost use Rattle.fidl_consts.specs.Constraints.{is_bounded};
ghost use Rattle.fidl_consts.specs.Tables.{IsMemoryOr};
ghost use Rattle.fidl_const.specs.PlaceScopes.{HoldsConstraint, HoldsConstraints};
ghost use Rattle.fidl_consts.specs.Scopes.{KnowsAll};
ghost use Rattle.fidl_const.specs.PlaceScopes.{RefusesConstraint};
ghost use Rattle.fidl_const.specs.PlaceScopes.{RefusesConstraints};

use fidl_consts::constraints::handle_value;
use fidl_consts::scope::FileScope;
use fidl_consts::values::value_in;
use fidl_consts::{ConstFault, ConstType, NumberKind};
use fidl_named::{Meaning, Predeclared, ordinary};
use fidl_tree::{Constraints, Value};

/// Whether a type's constraints are bounds, by what its name resolves to.
fn is_bounded(end: Meaning) -> bool
    ensures { result ≡ is_bounded end }
{
    matches!(
        end,
        Meaning::Predeclared(Predeclared::String | Predeclared::Vector | Predeclared::Bytes)
    )
}

/// An ordinary constraint has the value that it owes: a bound, or what a property wants.
fn check_constraint(
    scope: &FileScope<'_, '_, '_, '_>,
    end: Meaning,
    rank: usize,
    value: &Value,
) -> Result<(), ConstFault>
    requires known { KnowsAll scope.now }
    ensures ok { OnOk result (HoldsConstraint scope.now end rank value.now) }
    ensures fault_is_true { IfErr result (IsMemoryOr (RefusesConstraint scope.now end rank
        value.now)) }
{
    if is_bounded(end) {
        let wanted = ConstType::Number(NumberKind::Uint32);
        value_in(scope, wanted, value)?;
        return Ok(());
    }
    handle_value(scope, end, rank, value)?;
    Ok(())
}

/// Each constraint of a type of a file has the value that it owes, where the type resolves to this.
pub(crate) fn check_constraints(
    scope: &FileScope<'_, '_, '_, '_>,
    end: Meaning,
    constraints: Option<&Constraints>,
) -> Result<(), ConstFault>
    requires known { KnowsAll scope.now }
    ensures ok { OnOk result (HoldsConstraints scope.now end constraints.entry) }
    ensures fault_is_true { IfErr result (IsMemoryOr (RefusesConstraints scope.now end
        constraints.entry)) }
{
    let values = ordinary(scope.alloc, scope.file.tree, constraints)?;
    for (rank, value) in values.iter().enumerate() {
        check_constraint(scope, end, rank, value)?;
    }
    Ok(())
}
