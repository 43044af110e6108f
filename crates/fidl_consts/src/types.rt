//! The types of constants, members and constraints.
ghost use Rattle.std.specs.Prelude.{◌≡◌, ◌↔◌, Some, IfOk, IsTrue, IsSomeAnd, option_copied};
ghost use Rattle.std.specs.Prelude.{option_map};
ghost use Rattle.fidl_tree.specs.Views.{path_view, constraints_view, kind_view};
ghost use Rattle.fidl_tree.specs.declared.type_constructor.ValuesLayout.{out-ValuesLayout};
ghost use Rattle.fidl_named.specs.declared.meaning.Meaning.TheVariants as Given;
ghost use Rattle.fidl_named.specs.declared.meaning.Predeclared.TheVariants as Word;
ghost use Rattle.fidl_consts.specs.Types.{EndIs, NameIs, TypeIs, PropertyIs, IsBits, Joins};
ghost use Rattle.fidl_consts.specs.Types.{constraints_of, own_path, path_of, underlying_kind};
ghost use Rattle.fidl_consts.specs.Scopes.{HasKind, IsString};

use crate::const_type::{BitsOrEnum, ConstType, NumberKind, predeclared_type};
use crate::found::{FoundValues, property_values_at, values_at, written_values};
use crate::names::find;
use crate::scope::NamedFile;
use fidl_named::{DeclarationId, Meaning, Named, Predeclared, Wanted};
use fidl_tree::{Constraints, Path, TypeConstructor, ValuesKeyword, ValuesLayout};
use std::alloc::AllocError;

/// The type of constants that a meaning is, aliases followed.
fn end_type(named: &Named<'_, '_>, end: Meaning) -> Option<ConstType>
    ensures { EndIs named.now end result }
{
    match end {
        Meaning::Predeclared(name) => predeclared_type(name),
        Meaning::Declared(id) => match values_at(named, id) {
            None => None,
            Some(_) => Some(ConstType::Values(BitsOrEnum::Declared(id))),
        },
        Meaning::Member { .. } | Meaning::PropertyMember { .. } => None,
    }
}

/// The type of constants that a name of a file resolves to.
fn name_type(file: &NamedFile<'_, '_, '_>, path: &Path) -> Result<Option<ConstType>, AllocError>
    ensures { IfOk result (NameIs file.now.named.now file.now.tree.now (path_view path.now)) }
{
    match find(file.named, file.file_index, path, Wanted::Type)? {
        None => Ok(None),
        Some(meaning) => Ok(end_type(file.named, file.named.resolved(meaning))),
    }
}

/// The name that a type is given by.
pub fn type_path(constructor: &TypeConstructor) -> Option<&Path>
    ensures { option_map path_view (option_copied result) ≡ own_path constructor.now }
{
    match constructor {
        TypeConstructor::Named(named) => Some(&named.path),
        TypeConstructor::Layout { .. } => None,
    }
}

/// The constraints of a type.
pub fn type_constraints(constructor: &TypeConstructor) -> Option<&Constraints>
    ensures { constraints_view (option_copied result) ≡ constraints_of constructor.now }
{
    match constructor {
        TypeConstructor::Named(named) => named.constraints.as_ref(),
        TypeConstructor::Layout { constraints, .. } => constraints.as_ref(),
    }
}

/// The type of constants that a written type of a file is.
pub fn written_type(
    file: &NamedFile<'_, '_, '_>,
    constructor: &TypeConstructor,
) -> Result<Option<ConstType>, AllocError>
    ensures { IfOk result (TypeIs file.now.named.now file.now.tree.now constructor.now) }
{
    match type_path(constructor) {
        None => Ok(None),
        Some(path) => name_type(file, path),
    }
}

/// Whether a meaning is the predeclared string.
fn is_string(meaning: Meaning) -> bool
    ensures { IsTrue result ↔ (meaning ≡ Given.Predeclared Word.String) }
{
    matches!(meaning, Meaning::Predeclared(Predeclared::String))
}

/// Whether a written type of a file is the predeclared string, aliases followed.
pub fn is_string_type(
    file: &NamedFile<'_, '_, '_>,
    constructor: &TypeConstructor,
) -> Result<bool, AllocError>
    ensures { IfOk result (λ found. IsTrue found ↔ IsString file.now constructor.now) }
{
    let Some(path) = type_path(constructor) else {
        return Ok(false);
    };
    match find(file.named, file.file_index, path, Wanted::Type)? {
        None => Ok(false),
        Some(meaning) => Ok(is_string(file.named.resolved(meaning))),
    }
}

/// The type of constants that the type of a property of the resource definition of an id is.
pub fn property_type(
    file: &NamedFile<'_, '_, '_>,
    id: DeclarationId,
    number: usize,
    constructor: &TypeConstructor,
) -> Result<Option<ConstType>, AllocError>
    ensures { IfOk result (PropertyIs file.now.named.now id number file.now.tree.now
        constructor.now) }
{
    match written_values(constructor) {
        Some(_) => Ok(Some(ConstType::Values(BitsOrEnum::Property {
            of: id,
            property: number,
        }))),
        None => written_type(file, constructor),
    }
}

/// The whole numbers that bits or an enum may be of, by the type that is written as their
/// underlying one.
fn underlying_kind(keyword: &ValuesKeyword, written: Option<ConstType>) -> Option<NumberKind>
    ensures { result ≡ underlying_kind (kind_view keyword.now) written }
{
    let Some(ConstType::Number(kind)) = written else {
        return None;
    };
    match keyword {
        ValuesKeyword::Enum(_) => Some(kind),
        ValuesKeyword::Bits(_) => { if kind.is_unsigned() { Some(kind) } else { None } }
    }
}

/// The underlying type of bits or an enum of a file, by its name, where it may be one.
pub fn underlying_type(
    file: &NamedFile<'_, '_, '_>,
    keyword: &ValuesKeyword,
    path: &Path,
) -> Result<Option<NumberKind>, AllocError>
    ensures { IfOk result (HasKind file.now keyword.now (Some (path_view path.now))) }
{
    let written = name_type(file, path)?;
    Ok(underlying_kind(keyword, written))
}

/// The name of a layout's underlying type.
pub fn underlying_path(layout: &ValuesLayout) -> Option<&Path>
    ensures { let path = path_of (out-ValuesLayout layout.now).underlying in
        option_map path_view (option_copied result) ≡ path }
{
    match &layout.underlying {
        None => None,
        Some(underlying) => Some(&underlying.named.path),
    }
}

/// Whether it is bits, and no enum.
fn is_bits(layout: &ValuesLayout) -> bool
    ensures { IsTrue result ↔ IsBits (out-ValuesLayout layout.now).keyword }
{
    matches!(layout.keyword, ValuesKeyword::Bits(_))
}

/// Whether bits were found, and no enum.
fn are_bits(found: Option<FoundValues<'_, '_>>) -> bool
    ensures { IsTrue result ↔ IsSomeAnd found.entry
        (λ x. IsBits (out-ValuesLayout x.layout.now).keyword) }
{
    match found {
        None => false,
        Some(found) => is_bits(found.layout),
    }
}

/// Whether `|` joins values of a type.
pub fn joins(named: &Named<'_, '_>, wanted: ConstType) -> bool
    ensures { IsTrue result ↔ Joins named.now wanted }
{
    match wanted {
        ConstType::Bool | ConstType::String => false,
        ConstType::Number(kind) => kind.is_unsigned(),
        ConstType::Values(values) => match values {
            BitsOrEnum::Declared(id) => are_bits(values_at(named, id)),
            BitsOrEnum::Property { of, property } => {
                are_bits(property_values_at(named, of, property))
            }
        },
    }
}
