//! The names in the constraints of types.
ghost use Rattle.std.specs.Prelude.{◌≡◌, Some, option_map, option_copied};
ghost use Rattle.std.specs.Prelude.{IfErr, IfOk};
ghost use Rattle.fidl_tree.specs.Views.{path_view, value_view, constraints_view};
ghost use Rattle.fidl_named.specs.Constraints.{path_alone, is_optional, ordinary, item_kind};
ghost use Rattle.fidl_named.specs.Constraints.{ItemMeans};
ghost use Rattle.fidl_named.specs.Constraints.{NameOfItemFails};
ghost use Rattle.fidl_named.specs.ReferenceViews.{value_list_view};
ghost use Rattle.fidl_named.specs.Scopes.{IsMemoryOr};

use crate::fault::NameFault;
use crate::meaning::{Meaning, Predeclared, Wanted};
use crate::name_texts::path_text;
use crate::named_file::NamedFile;
use crate::places::items;
use crate::properties::of_property;
use fidl_tree::{Constraints, File, Operand, Path, Value};
use std::alloc::{AllocError, Global};

/// The path that a value is just.
pub fn path_alone(value: &Value) -> Option<&Path>
    ensures { option_map path_view (option_copied result) ≡ path_alone (value_view value.now) }
{
    match value.rest.split_first() {
        Some(_) => None,
        None => match &value.first {
            Operand::Path(path) => Some(path),
            Operand::Number { .. }
            | Operand::String(_)
            | Operand::True(_)
            | Operand::False(_)
            | Operand::Group { .. } => None,
        },
    }
}

/// Whether a constraint is the word `optional`.
pub fn is_optional(alloc: Global, file: &File<'_>, value: &Value) -> Result<bool, AllocError>
    ensures { IfOk result (λ found. found ≡ is_optional file.now (value_view value.now)) }
{
    match path_alone(value) {
        None => Ok(false),
        Some(path) => {
            let text = path_text(alloc, file, path)?;
            Ok(text.as_slice() == b"optional".as_slice())
        }
    }
}

/// The constraints that aren't the word `optional`, in order.
pub fn ordinary<'f>(
    alloc: Global,
    file: &File<'_>,
    constraints: Option<&'f Constraints>,
) -> Result<Vec<&'f Value>, AllocError>
    ensures { let values = ordinary file.now (constraints_view (option_copied constraints.entry)) in
        IfOk result (λ found. value_list_view found.items ≡ values) }
{
    let all = items(alloc, constraints)?;
    let mut found = Vec::new(alloc);
    for value in &all {
        if !is_optional(alloc, file, value)? {
            found.push(*value)?;
        }
    }
    Ok(found)
}

/// The kind that a constraint wants, by what its type resolves to.
fn item_kind(end: Option<Meaning>) -> Wanted
    ensures { result ≡ item_kind end }
{
    match end {
        Some(Meaning::Predeclared(Predeclared::ClientEnd | Predeclared::ServerEnd)) => {
            Wanted::Protocol
        }
        _ => Wanted::Value,
    }
}

/// What a constraint means that is just a name.
pub fn item_meaning(
    scope: &NamedFile<'_, '_, '_>,
    end: Option<Meaning>,
    rank: usize,
    path: &Path,
) -> Result<Meaning, NameFault>
    ensures ok { IfOk result (ItemMeans scope.now.named.now scope.now.file.now end rank
        (path_view path.now)) }
    ensures fault_is_true { let fails = NameOfItemFails scope.now.named.now scope.now.file.now
        scope.now.file_index end rank in
        IfErr result (IsMemoryOr (fails (path_view path.now))) }
{
    match of_property(scope, end, rank, path)? {
        Some(meaning) => Ok(meaning),
        None => scope.read(path, item_kind(end)),
    }
}
