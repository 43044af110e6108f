//! The values of constants and members.
ghost use Rattle.std.specs.Prelude.{◌<◌, ◌↔◌, IfOk, IfErr, OnOk, IsTrue, IsSomeAnd};
ghost use Rattle.fidl_tree.specs.Views.{value_view};
ghost use Rattle.fidl_named.specs.declared.meaning.Meaning.TheVariants as Given;
ghost use Rattle.fidl_consts.specs.PlainValues.{seen, text_length};
ghost use Rattle.fidl_consts.specs.Types.{IsConstAt, IsValuesAt, IsStringType, IsMemberOf};
ghost use Rattle.fidl_named.specs.Places.{value_paths};
ghost use Rattle.fidl_consts.specs.Refusals.{type_span};
ghost use Rattle.fidl_consts.specs.Strings.{TextFits, TextFails};
ghost use Rattle.fidl_const.specs.Evaluating.{ConstantFails, Fails};
ghost use Rattle.fidl_consts.specs.Tables.{AreTrue, PathsSettled, IsMemoryOr, TypeSettled};
ghost use Rattle.fidl_consts.specs.Tables.{HasEntry};

use crate::bounds::limits;
use fidl_consts::found::{FoundConst, FoundMember};
use fidl_consts::layouts::member_kind;
use fidl_consts::places::type_span;
use fidl_consts::scope::{FileScope, NamedFile, Scope};
use fidl_consts::types::{is_string_type, underlying_path, written_type};
use fidl_consts::values::{value_in, value_span};
use fidl_consts::{BitsOrEnum, ConstFault, ConstType, ConstValue, Entry, Limits};
use fidl_named::{DeclarationId, Place};
use fidl_tree::TypeConstructor;

/// Whether so many bytes are more than a limit.
fn exceeds(limits: Limits, count: usize) -> bool
    ensures { IsTrue result ↔ IsSomeAnd limits.greatest (λ bound. bound < count) }
{
    match limits.greatest {
        None => false,
        Some(bound) => bound < count as u64,
    }
}

/// A string is no longer than the bounds of its constant's type.
fn check_text(
    scope: &Scope<'_, '_, '_, '_>,
    id: DeclarationId,
    found: FoundConst<'_, '_>,
    value: &ConstValue,
) -> Result<(), ConstFault>
    requires at { IsConstAt scope.now.named.now id found.file.now found.constant.now }
    requires known { AreTrue scope.now.named.now scope.now.consts.now }
    requires settled { TypeSettled scope.now.named.now found.file.now scope.now.consts.now
        found.constant.now.constructor }
    requires string { IsStringType scope.now.named.now found.file.now
        found.constant.now.constructor }
    ensures ok { OnOk result (TextFits scope.now.named.now id.file found.entry.file.now
        found.entry.constant.now.constructor (text_length (seen value.now))) }
    ensures fault_is_true { IfErr result (IsMemoryOr (TextFails scope.now.named.now id
        found.entry.file.now found.entry.constant.now (text_length (seen value.now)))) }
{
    let constant = found.constant;
    let file = NamedFile {
        named: scope.named,
        file_index: id.file,
        tree: found.file,
    };
    let inside = FileScope {
        alloc: scope.alloc,
        consts: scope.consts,
        file,
    };
    let limits = limits(&inside, &constant.constructor)?;
    if limits.optional {
        let place = Place {
            file: id.file,
            span: type_span(&constant.constructor),
        };
        return Err(ConstFault::WrongKind { place });
    }
    if exceeds(limits, value.text_length()) {
        let place = Place {
            file: id.file,
            span: value_span(&constant.value),
        };
        return Err(ConstFault::OutOfRange { place });
    }
    Ok(())
}

/// The value of a constant.
pub(crate) fn constant_entry(
    scope: &Scope<'_, '_, '_, '_>,
    id: DeclarationId,
    found: FoundConst<'_, '_>,
) -> Result<Entry, ConstFault>
    requires at { IsConstAt scope.now.named.now id found.file.now found.constant.now }
    requires known { AreTrue scope.now.named.now scope.now.consts.now }
    requires types { TypeSettled scope.now.named.now found.file.now scope.now.consts.now
        found.constant.now.constructor }
    requires values { PathsSettled scope.now.named.now found.file.now scope.now.consts.now
        (value_paths (value_view found.constant.now.value)) }
    ensures offers { IfOk result (HasEntry scope.now.named.now (Given.Declared id)) }
    ensures text { IfOk result (λ e. IsStringType scope.now.named.now found.entry.file.now
        found.entry.constant.now.constructor
        → TextFits scope.now.named.now id.file found.entry.file.now
        found.entry.constant.now.constructor (text_length (seen e.value))) }
    ensures fault_is_true { IfErr result (IsMemoryOr (ConstantFails scope.now.named.now id
        found.entry.file.now found.entry.constant.now)) }
{
    let constant = found.constant;
    let constructor = &constant.constructor;
    let file = NamedFile {
        named: scope.named,
        file_index: id.file,
        tree: found.file,
    };
    let written = written_type(&file, constructor)?;
    let Some(own) = written else {
        let place = Place {
            file: id.file,
            span: type_span(constructor),
        };
        return Err(ConstFault::WrongKind { place });
    };
    let inside = FileScope {
        alloc: scope.alloc,
        consts: scope.consts,
        file,
    };
    let value = value_in(&inside, own, &constant.value)?;
    if is_string_type(&file, constructor)? {
        check_text(scope, id, found, &value)?;
    }
    Ok(Entry { own, value })
}

/// The value of a member of bits or an enum.
pub(crate) fn member_entry(
    scope: &Scope<'_, '_, '_, '_>,
    id: DeclarationId,
    number: usize,
    found: FoundMember<'_, '_>,
) -> Result<Entry, ConstFault>
    requires layout { IsValuesAt scope.now.named.now id found.file.now found.layout.now }
    requires member { IsMemberOf found.layout.now number found.member.now }
    requires known { AreTrue scope.now.named.now scope.now.consts.now }
    requires settled { PathsSettled scope.now.named.now found.file.now scope.now.consts.now
        (value_paths (value_view found.member.now.value)) }
    ensures offers { IfOk result (HasEntry scope.now.named.now (Given.Member id number)) }
    ensures fault_is_true { IfErr result (IsMemoryOr (Fails scope.now.named.now)) }
{
    let layout = found.layout;
    let file = NamedFile {
        named: scope.named,
        file_index: id.file,
        tree: found.file,
    };
    let kind = member_kind(&file, &layout.keyword, underlying_path(layout))?;
    let inside = FileScope {
        alloc: scope.alloc,
        consts: scope.consts,
        file,
    };
    let value = value_in(&inside, ConstType::Number(kind), &found.member.value)?;
    Ok(Entry {
        own: ConstType::Values(BitsOrEnum::Declared(id)),
        value,
    })
}
