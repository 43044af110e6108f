//! What the names of types mean, and which kind their places want.
ghost use Rattle.std.specs.Prelude.{◌≡◌, ◌↔◌, Some, IsTrue, IfOk};
ghost use Rattle.fidl_named.specs.declared.meaning.Meaning.TheVariants as Given;
ghost use Rattle.fidl_named.specs.declared.meaning.Predeclared.TheVariants as Word;
ghost use Rattle.fidl_named.specs.declared.meaning.Wanted.TheVariants as Kind;
ghost use Rattle.fidl_named.specs.Aliases.{WantsKind};
ghost use Rattle.fidl_named.specs.Meanings.{components, IsJust, Means};
ghost use Rattle.fidl_named.specs.ReferenceViews.{read_path};

use crate::fault::is_memory;
use crate::file_scope::FileScope;
use crate::meaning::{Meaning, Predeclared, Wanted};
use crate::place::DeclarationId;
use crate::reading::read_name;
use fidl_tree::Path;
use std::alloc::AllocError;

/// What a name means where this kind is wanted, if anything.
pub fn find_meaning(
    scope: &FileScope<'_, '_, '_>,
    path: &Path,
    wanted: Wanted,
) -> Result<Option<Meaning>, AllocError>
    ensures { IfOk result (IsJust (Means scope.now.names.set.now scope.now.file.now wanted
        (components scope.now.file.now.src.now path.now))) }
{
    match read_name(scope, path, wanted) {
        Ok(meaning) => Ok(Some(meaning)),
        Err(fault) => {
            if is_memory(fault) {
                return Err(AllocError);
            }
            Ok(None)
        }
    }
}

/// What a name means as a type, if anything.
pub fn read_type(scope: &FileScope<'_, '_, '_>, path: &Path) -> Result<Option<Meaning>, AllocError>
    ensures { IfOk result (IsJust (Means scope.now.names.set.now scope.now.file.now Kind.«Type»
        (components scope.now.file.now.src.now path.now))) }
{
    find_meaning(scope, path, Wanted::Type)
}

/// Whether it is the predeclared array.
fn is_array(meaning: Option<Meaning>) -> bool
    ensures { IsTrue result ↔ (meaning ≡ Some (Given.Predeclared Word.Array)) }
{
    matches!(meaning, Some(Meaning::Predeclared(Predeclared::Array)))
}

/// The kind that a type's name wants, which may be the second argument of another.
pub fn wanted_kind(
    scope: &FileScope<'_, '_, '_>,
    argument_of: Option<&Path>,
) -> Result<Wanted, AllocError>
    ensures { IfOk result (WantsKind scope.now.names.set.now scope.now.file.now
        (read_path argument_of.entry)) }
{
    match argument_of {
        None => Ok(Wanted::Type),
        Some(head) => {
            let meaning = read_type(scope, head)?;
            if is_array(meaning) {
                return Ok(Wanted::Value);
            }
            Ok(Wanted::Type)
        }
    }
}
