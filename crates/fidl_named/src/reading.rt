//! What names may mean.
ghost use Rattle.std.specs.Prelude.{◌≡◌, ◌↔◌, Some, IsTrue, IfErr, IfOk};
ghost use Rattle.fidl_named.specs.declared.meaning.Wanted.TheVariants as Kind;
ghost use Rattle.fidl_named.specs.Meanings.{kind_of, member_names, IsOwn, IsMember, IsSimple};
ghost use Rattle.fidl_named.specs.Meanings.{IsImported, IsImportedMember, IsMemberAfter, IsJust};
ghost use Rattle.fidl_named.specs.Meanings.{Means, IsTrueOfName, MembersDiffer, components};
ghost use Rattle.fidl_named.specs.Meanings.{names_in, one_of};
ghost use Rattle.fidl_named.specs.Imports.{visible as visible_in};
ghost use Rattle.fidl_named.specs.Constraints.{number_in};
ghost use Rattle.fidl_named.specs.MemberNumbers.{AreNumbersOf};

use crate::fault::NameFault;
use crate::file_scope::FileScope;
use crate::file_set::{FileSet, Found};
use crate::meaning::{Meaning, Wanted, find_predeclared, is_predeclared_kind};
use crate::member_numbers::find_number;
use crate::name_texts::{dotted_text, full_name, path_span, path_text};
use crate::place::Place;
use fidl_span::Span;
use fidl_tree::{DeclarationBody, Path, PathPart};
use std::alloc::AllocError;

/// Whether a declaration gives a name of this kind.
fn is_kind(body: &DeclarationBody, wanted: Wanted) -> bool
    ensures { IsTrue result ↔ (kind_of body.now ≡ Some wanted) }
{
    match body {
        DeclarationBody::Const(_) => matches!(wanted, Wanted::Value),
        DeclarationBody::Alias(_) | DeclarationBody::Type(_) | DeclarationBody::Resource(_) => {
            matches!(wanted, Wanted::Type)
        }
        DeclarationBody::Protocol(_) => matches!(wanted, Wanted::Protocol),
        DeclarationBody::Service(_) => false,
    }
}

/// The number of the member of this name, of declared bits or a declared enum.
fn value_number(found: Found<'_, '_, '_>, name: &[u8]) -> Option<usize>
    requires { AreNumbersOf found.file.now found.declaration.now found.numbers.now }
    ensures { let names = member_names found.entry.file.now found.entry.declaration.now in
        result ≡ number_in names name.now }
{
    match &found.declaration.body {
        DeclarationBody::Type(_) => find_number(&found.numbers.members, name),
        _ => None,
    }
}

/// A library's declaration of a name, where it is of the wanted kind.
fn own(
    set: &FileSet<'_, '_>,
    library: &[u8],
    name: &[u8],
    wanted: Wanted,
) -> Result<Option<Meaning>, AllocError>
    ensures { IfOk result (IsJust (IsOwn set.now library.now wanted name.now)) }
{
    let full = full_name(set.alloc(), library, name)?;
    match set.find(&full) {
        None => Ok(None),
        Some(found) => {
            if is_kind(&found.declaration.body, wanted) {
                return Ok(Some(Meaning::Declared(found.id)));
            }
            Ok(None)
        }
    }
}

/// A member of a library's bits or enum.
fn member(
    set: &FileSet<'_, '_>,
    library: &[u8],
    type_name: &[u8],
    name: &[u8],
) -> Result<Option<Meaning>, AllocError>
    requires { MembersDiffer set.now }
    ensures { IfOk result (IsJust (IsMember set.now library.now type_name.now name.now)) }
{
    let full = full_name(set.alloc(), library, type_name)?;
    match set.find(&full) {
        None => Ok(None),
        Some(found) => {
            match value_number(found, name) {
                None => Ok(None),
                Some(number) => Ok(Some(Meaning::Member {
                    of: found.id,
                    number,
                })),
            }
        }
    }
}

/// What a name of one component may mean: a declaration of the library, else a name of the language
/// itself.
fn simple(
    set: &FileSet<'_, '_>,
    library: &[u8],
    name: &[u8],
    wanted: Wanted,
) -> Result<Option<Meaning>, AllocError>
    ensures { IfOk result (IsJust (IsSimple set.now library.now wanted name.now)) }
{
    if let Some(meaning) = own(set, library, name, wanted)? {
        return Ok(Some(meaning));
    }
    match find_predeclared(name) {
        None => Ok(None),
        Some(word) => {
            if is_predeclared_kind(word, wanted) {
                return Ok(Some(Meaning::Predeclared(word)));
            }
            Ok(None)
        }
    }
}

/// A declaration of the library that is visible under a text.
fn imported(
    scope: &FileScope<'_, '_, '_>,
    front: &[u8],
    name: &[u8],
    wanted: Wanted,
) -> Result<Option<Meaning>, AllocError>
    ensures { IfOk result (IsJust (IsImported scope.now.names.set.now
        (visible_in scope.now.file.now) wanted front.now name.now)) }
{
    match scope.visible().get(front) {
        None => Ok(None),
        Some(library) => own(scope.names.set, library, name, wanted),
    }
}

/// A member of bits or an enum of the library that is visible under a text.
fn imported_member(
    scope: &FileScope<'_, '_, '_>,
    front: &[u8],
    type_name: &[u8],
    name: &[u8],
) -> Result<Option<Meaning>, AllocError>
    ensures { IfOk result (IsJust (IsImportedMember scope.now.names.set.now
        (visible_in scope.now.file.now) front.now type_name.now name.now)) }
{
    match scope.visible().get(front) {
        None => Ok(None),
        Some(library) => member(scope.names.set, library, type_name, name),
    }
}

/// A member by its name and what stands before it: a first component and parts, of which the last
/// is its type's name.
fn member_of(
    scope: &FileScope<'_, '_, '_>,
    first: Span,
    parts: &[PathPart],
    name: &[u8],
) -> Result<Option<Meaning>, AllocError>
    ensures { IfOk result (IsJust (IsMemberAfter scope.now.names.set.now scope.now.file.now
        (names_in scope.now.file.now first parts.now) name.now)) }
{
    let alloc = scope.names.set.alloc();
    let file = scope.file;
    let count = parts.len();
    if count == 0 {
        let library = path_text(alloc, file, &file.library.path)?;
        return member(scope.names.set, &library, file.text(first), name);
    }
    let front = dotted_text(alloc, file, first, &parts[..count - 1])?;
    let type_name = file.text(parts[count - 1].name);
    imported_member(scope, &front, type_name, name)
}

/// Whether a value is wanted.
pub fn wants_value(wanted: Wanted) -> bool
    ensures { IsTrue result ↔ (wanted ≡ Kind.Value) }
{
    matches!(wanted, Wanted::Value)
}

/// What at most two readings give.
fn one_of(one: Option<Meaning>, other: Option<Meaning>, place: Place) -> Result<Meaning, NameFault>
    ensures { result ≡ one_of one other place }
{
    match (one, other) {
        (None, None) => Err(NameFault::UnknownName { place }),
        (Some(meaning), None) | (None, Some(meaning)) => Ok(meaning),
        (Some(_), Some(_)) => Err(NameFault::AmbiguousName { place }),
    }
}

/// What a name means in a file, where this kind is wanted.
pub fn read_name(
    scope: &FileScope<'_, '_, '_>,
    path: &Path,
    wanted: Wanted,
) -> Result<Meaning, NameFault>
    ensures ok { IfOk result (Means scope.now.names.set.now scope.now.file.now wanted
        (components scope.now.file.now.src.now path.now)) }
    ensures fault_is_true { IfErr result (IsTrueOfName scope.now.names.set.now scope.now.file.now
        scope.now.file_index wanted path.now) }
{
    let alloc = scope.names.set.alloc();
    let file = scope.file;
    let span = path_span(path);
    let place = Place {
        file: scope.file_index,
        span,
    };
    let count = path.rest.len();
    if count == 0 {
        let library = path_text(alloc, file, &file.library.path)?;
        let reading = simple(scope.names.set, &library, file.text(path.first), wanted)?;
        return one_of(reading, None, place);
    }
    let parts = &path.rest[..count - 1];
    let last = file.text(path.rest[count - 1].name);
    let front = dotted_text(alloc, file, path.first, parts)?;
    let declared = imported(scope, &front, last, wanted)?;
    if !wants_value(wanted) {
        return one_of(declared, None, place);
    }
    let member = member_of(scope, path.first, parts, last)?;
    one_of(declared, member, place)
}
