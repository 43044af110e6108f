//! The values of the constraints of handles.
ghost use Rattle.std.specs.Prelude.{◌<◌, length, Some, IfOk, IfErr, IfSome, IsNone};
ghost use Rattle.fidl_tree.specs.Views.{path_view};
ghost use Rattle.fidl_named.specs.declared.meaning.Meaning.{Meaning as Meant};
ghost use Rattle.fidl_named.specs.declared.meaning.Meaning.TheVariants as Given;
ghost use Rattle.fidl_named.specs.Constraints.{ItemMeans};
ghost use Rattle.fidl_named.specs.Scopes.{OfFile};
ghost use Rattle.fidl_consts.specs.Constraints.{HasPropertyValue, HasItemValue};
ghost use Rattle.fidl_consts.specs.Constraints.{PropertyMemberFails, PropertyWants};
ghost use Rattle.fidl_consts.specs.Constraints.{IsForNoProperty};
ghost use Rattle.fidl_consts.specs.Tables.{AreConsts, IsMemoryOr, HasEntry};
ghost use Rattle.fidl_consts.specs.Scopes.{KnowsAll, ReadsHandle};
ghost use Rattle.fidl_consts.specs.Scopes.{ReadsItem, ReadsItemName};
ghost use Rattle.fidl_consts.specs.Scopes.{RefusesHandle, RefusesItem};
ghost use Rattle.fidl_consts.specs.Scopes.{RefusesItemName};

use crate::const_type::{BitsOrEnum, ConstType};
use crate::const_value::ConstValue;
use crate::consts::Entry;
use crate::fault::ConstFault;
use crate::found::{declaration_at, property_values_at};
use crate::layouts::member_kind;
use crate::names::path_place;
use crate::scope::{FileScope, NamedFile, Scope};
use crate::types::{property_type, underlying_path};
use crate::values::{given, value_in, value_of, value_span};
use fidl_named::{DeclarationId, Meaning, Named, Place, is_memory, path_alone};
use fidl_tree::{DeclarationBody, Path, Value};
use std::alloc::AllocError;

/// What a constraint means that is just a name, if it means just one thing.
fn item_meaning(
    named: &Named<'_, '_>,
    file_index: usize,
    end: Meaning,
    rank: usize,
    path: &Path,
) -> Result<Option<Meaning>, AllocError>
    requires { file_index < length named.now }
    ensures found { IfOk result (λ found. OfFile named.now file_index
        (λ f. IfSome found (ItemMeans named.now f (Some end) rank (path_view path.now)))) }
    ensures none { IfOk result (λ found. OfFile named.now file_index (λ f. IsNone found
        → (m : Meant) → ItemMeans named.now f (Some end) rank (path_view path.now) m → ⊥)) }
{
    match named.constraint(file_index, Some(end), rank, path) {
        Ok(meaning) => Ok(Some(meaning)),
        Err(fault) => {
            if is_memory(fault) {
                return Err(AllocError);
            }
            Ok(None)
        }
    }
}

/// The value of a member of the bits or the enum that a property is written as.
pub fn property_member(
    scope: &Scope<'_, '_, '_, '_>,
    of: DeclarationId,
    property: usize,
    number: usize,
) -> Result<Option<Entry>, ConstFault>
    requires { AreConsts scope.now.named.now scope.now.consts.now }
    ensures found { IfOk result (λ found. IfSome found
        (HasEntry scope.now.named.now (Given.PropertyMember of property number))) }
    ensures none { IfOk result (λ found. IsNone found
        → HasPropertyValue scope.now.named.now (Given.PropertyMember of property number) → ⊥) }
    ensures fault_is_true { IfErr result (IsMemoryOr
        (λ fault. PropertyMemberFails scope.now.named.now
        fault (Given.PropertyMember of property number))) }
{
    let Some(found) = property_values_at(scope.named, of, property) else {
        return Ok(None);
    };
    let layout = found.layout;
    let Some(member) = layout.members.get(number) else {
        return Ok(None);
    };
    let file = NamedFile {
        named: scope.named,
        file_index: of.file,
        tree: found.file,
    };
    let kind = member_kind(&file, &layout.keyword, underlying_path(layout))?;
    let inside = FileScope {
        alloc: scope.alloc,
        consts: scope.consts,
        file,
    };
    let value = value_in(&inside, ConstType::Number(kind), &member.value)?;
    Ok(Some(Entry {
        own: ConstType::Values(BitsOrEnum::Property { of, property }),
        value,
    }))
}

/// The value of its own that the meaning of a constraint has.
fn item_entry(scope: &Scope<'_, '_, '_, '_>, meaning: Meaning) -> Result<Option<Entry>, ConstFault>
    requires { AreConsts scope.now.named.now scope.now.consts.now }
    ensures found { IfOk result (λ found. IfSome found (HasEntry scope.now.named.now meaning)) }
    ensures none { IfOk result (λ found. IsNone found → HasItemValue scope.now.named.now meaning
        → ⊥) }
    ensures fault_is_true { IfErr result (IsMemoryOr
        (λ fault. PropertyMemberFails scope.now.named.now
        fault meaning)) }
{
    match meaning {
        Meaning::PropertyMember {
            of,
            property,
            number,
        } => property_member(scope, of, property, number),
        Meaning::Predeclared(_) | Meaning::Declared(_) | Meaning::Member { .. } => {
            Ok(value_of(scope, meaning)?)
        }
    }
}

/// The value that a constraint has which is just a name, at a property's type.
fn item_name_value(
    scope: &FileScope<'_, '_, '_, '_>,
    end: Meaning,
    rank: usize,
    wanted: ConstType,
    path: &Path,
) -> Result<ConstValue, ConstFault>
    requires known { KnowsAll scope.now }
    ensures ok { IfOk result (ReadsItemName scope.now end rank wanted path.now) }
    ensures fault_is_true { IfErr result (IsMemoryOr (RefusesItemName scope.now end rank wanted
        path.now)) }
{
    let file = scope.file;
    let place = Place {
        file: file.file_index,
        span: path_place(path),
    };
    let Some(meaning) = item_meaning(file.named, file.file_index, end, rank, path)? else {
        return Err(ConstFault::WrongKind { place });
    };
    let set = Scope {
        alloc: scope.alloc,
        named: file.named,
        consts: scope.consts,
    };
    match item_entry(&set, meaning)? {
        None => Err(ConstFault::WrongKind { place }),
        Some(entry) => given(meaning, entry, wanted, place),
    }
}

/// The value that a constraint has at a property's type.
fn item_value(
    scope: &FileScope<'_, '_, '_, '_>,
    end: Meaning,
    rank: usize,
    wanted: ConstType,
    value: &Value,
) -> Result<ConstValue, ConstFault>
    requires known { KnowsAll scope.now }
    ensures ok { IfOk result (ReadsItem scope.now end rank wanted value.now) }
    ensures fault_is_true { IfErr result (IsMemoryOr
        (RefusesItem scope.now end rank wanted value.now)) }
{
    match path_alone(value) {
        None => value_in(scope, wanted, value),
        Some(path) => item_name_value(scope, end, rank, wanted, path),
    }
}

/// The type of the property that a constraint is for, by what its type resolves to and its number,
/// from 0, among those that aren't `optional`.
fn wanted_type(
    named: &Named<'_, '_>,
    end: Meaning,
    rank: usize,
) -> Result<Option<Option<ConstType>>, AllocError>
    ensures found { IfOk result (λ found. IfSome found (PropertyWants named.now end rank)) }
    ensures none { IfOk result (λ found. IsNone found → IsForNoProperty named.now end rank) }
{
    let Some(at) = named.property(end, rank) else {
        return Ok(None);
    };
    let Some(found) = declaration_at(named, at.id) else {
        return Ok(None);
    };
    let DeclarationBody::Resource(definition) = &found.declaration.body else {
        return Ok(None);
    };
    let Some(property) = definition.properties.members.get(at.number) else {
        return Ok(None);
    };
    let file = NamedFile {
        named,
        file_index: at.id.file,
        tree: found.file,
    };
    let wanted = property_type(&file, at.id, at.number, &property.constructor)?;
    Ok(Some(wanted))
}

/// The value of a handle's constraint, where a property wants one.
pub fn handle_value(
    scope: &FileScope<'_, '_, '_, '_>,
    end: Meaning,
    rank: usize,
    value: &Value,
) -> Result<Option<ConstValue>, ConstFault>
    requires known { KnowsAll scope.now }
    ensures found { IfOk result (λ found. IfSome found
        (ReadsHandle scope.now end rank value.now)) }
    ensures none { IfOk result (λ found. IsNone found
        → IsForNoProperty scope.now.file.named.now end rank) }
    ensures fault_is_true { IfErr result (IsMemoryOr (RefusesHandle scope.now end rank value.now)) }
{
    let Some(found) = wanted_type(scope.file.named, end, rank)? else {
        return Ok(None);
    };
    let Some(wanted) = found else {
        let place = Place {
            file: scope.file.file_index,
            span: value_span(value),
        };
        return Err(ConstFault::WrongKind { place });
    };
    let known = item_value(scope, end, rank, wanted, value)?;
    Ok(Some(known))
}
