//! Each name in the constraints of types means something.
ghost use Rattle.std.specs.Prelude.{Some, option_copied};
ghost use Rattle.std.specs.Prelude.{IfErr, OnOk};
ghost use Rattle.fidl_tree.specs.Views.{value_view, constraints_view};
ghost use Rattle.fidl_named.specs.Constraints.{path_alone, ordinary};
ghost use Rattle.fidl_named.specs.Constraints.{ItemHolds, ItemsHold, ValueMeans};
ghost use Rattle.fidl_named.specs.Constraints.{NameOfValueFails, ItemFails, ItemsFail};
ghost use Rattle.fidl_named.specs.Scopes.{IsMemoryOr};

use fidl_named::{
    Meaning, NameFault, NamedFile, Wanted, item_meaning, ordinary, path_alone, value_paths,
};
use fidl_tree::{Constraints, Value};

/// Each name in a value means something.
pub(crate) fn check_value(scope: &NamedFile<'_, '_, '_>, value: &Value) -> Result<(), NameFault>
    ensures ok { OnOk result (ValueMeans scope.now.named.now scope.now.file.now
        (value_view value.now)) }
    ensures fault_is_true { let fails = NameOfValueFails scope.now.named.now scope.now.file.now
        scope.now.file_index in
        IfErr result (IsMemoryOr (fails (value_view value.now))) }
{
    let paths = value_paths(scope.named.alloc(), value)?;
    for path in &paths {
        scope.read(path, Wanted::Value)?;
    }
    Ok(())
}

/// Each name in a constraint means something.
fn check_item(
    scope: &NamedFile<'_, '_, '_>,
    end: Option<Meaning>,
    rank: usize,
    value: &Value,
) -> Result<(), NameFault>
    ensures ok { let seen = value_view value.now in
        OnOk result (ItemHolds scope.now.named.now scope.now.file.now end rank seen) }
    ensures fault_is_true { let fails = ItemFails scope.now.named.now scope.now.file.now
        scope.now.file_index end rank in
        IfErr result (IsMemoryOr (fails (value_view value.now))) }
{
    match path_alone(value) {
        None => check_value(scope, value),
        Some(path) => {
            item_meaning(scope, end, rank, path)?;
            Ok(())
        }
    }
}

/// Each name in the constraints of a type means something, where the type resolves to this.
pub(crate) fn check_items(
    scope: &NamedFile<'_, '_, '_>,
    end: Option<Meaning>,
    constraints: Option<&Constraints>,
) -> Result<(), NameFault>
    ensures ok { let values = constraints_view (option_copied constraints.entry) in
        OnOk result (ItemsHold scope.now.named.now scope.now.file.now end values) }
    ensures fault_is_true { let values = constraints_view (option_copied constraints.entry) in
        IfErr result (IsMemoryOr (ItemsFail scope.now.named.now scope.now.file.now
        scope.now.file_index end values)) }
{
    let values = ordinary(scope.named.alloc(), scope.file, constraints)?;
    for (rank, value) in values.iter().enumerate() {
        check_item(scope, end, rank, value)?;
    }
    Ok(())
}
