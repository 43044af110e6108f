//! The properties of resource definitions, and the members of their bits and enums.
ghost use Rattle.std.specs.Prelude.{◌≡◌, ◌<◌, ℕ, Some, slice_get, IfOk, IfSome, IsNone};
ghost use Rattle.std.specs.Option.{option_map};
ghost use Rattle.fidl_tree.specs.Views.{path_view};
ghost use Rattle.fidl_tree.specs.declared.file.File.{File as Tree};
ghost use Rattle.fidl_tree.specs.declared.declaration.Property.{Property as Field};
ghost use Rattle.fidl_named.specs.declared.place.DeclarationId.{DeclarationId as Id};
ghost use Rattle.fidl_named.specs.Meanings.{IsJust};
ghost use Rattle.fidl_named.specs.Constraints.{property_of, IsDeclaredMember, IsPropertyMember};
ghost use Rattle.fidl_named.specs.Constraints.{IsPropertyFor, IsOfProperty};
ghost use Rattle.fidl_named.specs.MemberNumbers.{AreNumbers, written_names};
ghost use Rattle.fidl_named.specs.NameMaps.{seen};

use crate::meaning::Meaning;
use crate::member_numbers::find_number;
use crate::named::Named;
use crate::named_file::NamedFile;
use crate::place::DeclarationId;
use fidl_tree::{DeclarationBody, File, Path, Property, TypeConstructor};
use indexmap::IndexMap;
use std::alloc::AllocError;

/// A member, by its name, of the declared bits or enum that a name resolves to.
fn declared_member(
    scope: &NamedFile<'_, '_, '_>,
    path: &Path,
    name: &[u8],
) -> Result<Option<Meaning>, AllocError>
    ensures { IfOk result (IsJust (IsDeclaredMember scope.now.named.now scope.now.file.now path.now
        name.now)) }
{
    let Some(first) = scope.find(path)? else {
        return Ok(None);
    };
    let Meaning::Declared(id) = scope.named.resolved(first) else {
        return Ok(None);
    };
    let Some(found) = scope.named.get(id) else {
        return Ok(None);
    };
    match find_number(&found.numbers.members, name) {
        None => Ok(None),
        Some(number) => Ok(Some(Meaning::Member { of: id, number })),
    }
}

/// A property of a resource definition, with its number and the definition's id and file.
#[derive(Clone, Copy, Drop)]
pub(crate) struct FoundProperty<'a, 'f, 's> {
    pub id: DeclarationId,
    pub file: &'f File<'s>,
    pub number: usize,
    pub property: &'f Property,
    /// The numbers of the members with which its type is written.
    pub written: &'a IndexMap<Vec<u8>, usize>,
}

/// A member, by its name, of the bits or the enum that a property has for its type.
fn property_member(
    named: &Named<'_, '_>,
    found: FoundProperty<'_, '_, '_>,
    name: &[u8],
) -> Result<Option<Meaning>, AllocError>
    requires file_at { slice_get named.now found.id.file ≡ Some found.file.now }
    requires written { AreNumbers (written_names found.file.now found.property.now)
        (seen found.written.now.entries) }
    ensures { IfOk result (IsJust (IsPropertyMember named.now found.entry.id
        found.entry.file.now found.entry.number found.entry.property.now.constructor name.now)) }
{
    match &found.property.constructor {
        TypeConstructor::Named(written) => {
            let scope = NamedFile {
                named,
                file_index: found.id.file,
                file: found.file,
            };
            declared_member(&scope, &written.path, name)
        }
        TypeConstructor::Layout { .. } => match find_number(found.written, name) {
            None => Ok(None),
            Some(number) => Ok(Some(Meaning::PropertyMember {
                of: found.id,
                property: found.number,
                number,
            })),
        },
    }
}

/// The name of the property that a constraint is for, by its number among those that aren't
/// `optional`.
fn property_name(rank: usize) -> Option<&'static [u8]>
    ensures { option_map (λ s. s.now) result ≡ property_of rank }
{
    match rank {
        0 => Some(b"subtype"),
        1 => Some(b"rights"),
        _ => None,
    }
}

/// The property that a constraint is for.
pub(crate) fn find_property<'a, 'f, 's>(
    named: &'a Named<'f, 's>,
    end: Option<Meaning>,
    rank: usize,
) -> Option<FoundProperty<'a, 'f, 's>>
    ensures found { IfSome result (λ x. IsPropertyFor named.now end rank x.id
        x.file.now x.number x.property.now) }
    ensures written { IfSome result (λ x. AreNumbers (written_names x.file.now x.property.now)
        (seen x.written.now.entries)) }
    ensures none { IsNone result → (p : Id) (f : Tree) (n : ℕ) (m : Field)
        → IsPropertyFor named.now end rank p f n m → ⊥ }
{
    let name = property_name(rank)?;
    let Some(Meaning::Declared(id)) = end else {
        return None;
    };
    let found = named.get(id)?;
    let DeclarationBody::Resource(definition) = &found.declaration.body else {
        return None;
    };
    let properties = &definition.properties.members;
    let number = find_number(&found.numbers.properties, name)?;
    let property = properties.get(number)?;
    let written = &found.numbers.written[number];
    Some(FoundProperty {
        id,
        file: found.file,
        number,
        property,
        written,
    })
}

/// What a constraint means that names a member of its property's bits or enum.
pub(crate) fn of_property(
    scope: &NamedFile<'_, '_, '_>,
    end: Option<Meaning>,
    rank: usize,
    path: &Path,
) -> Result<Option<Meaning>, AllocError>
    ensures { let seen = path_view path.now in
        IfOk result (IsJust (IsOfProperty scope.now.named.now scope.now.file.now end rank seen)) }
{
    if !path.rest.is_empty() {
        return Ok(None);
    }
    match find_property(scope.named, end, rank) {
        None => Ok(None),
        Some(found) => property_member(scope.named, found, scope.file.text(path.first)),
    }
}
