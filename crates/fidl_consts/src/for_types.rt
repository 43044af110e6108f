//! What the checking of types asks of values.
ghost use Rattle.std.specs.Prelude.{◌<◌, Some, length, IfErr, IfOk, IfSome, IsNone};
ghost use Rattle.fidl_tree.specs.Views.{value_view};
ghost use Rattle.fidl_consts.specs.PlainValues.{seen};
ghost use Rattle.fidl_named.specs.Scopes.{OfFile};
ghost use Rattle.fidl_consts.specs.Types.{LayoutIs};
ghost use Rattle.fidl_consts.specs.Constraints.{HasPropertyValue, PropertyMemberFails};
ghost use Rattle.fidl_consts.specs.Constraints.{HandleValueIs, HandleValueFails, IsForNoProperty};
ghost use Rattle.fidl_consts.specs.Constraints.{LayoutFails, member_of_property};
ghost use Rattle.fidl_consts.specs.Tables.{AreConsts, IsMemoryOr, HasEntry};

use crate::const_type::NumberKind;
use crate::const_value::ConstValue;
use crate::constraints::{handle_value, property_member};
use crate::consts::{Consts, Entry};
use crate::fault::ConstFault;
use crate::layouts::member_kind;
use crate::scope::{FileScope, NamedFile, Scope};
use crate::types::underlying_path;
use fidl_named::{Meaning, Named, PropertyId};
use fidl_tree::{Value, ValuesLayout};
use std::alloc::Global;

/// The type of the numbers of bits or an enum in the file of this number. Refused with WrongKind at
/// the name of an underlying type that may be none.
pub fn underlying_kind(
    named: &Named<'_, '_>,
    file_index: usize,
    layout: &ValuesLayout,
) -> Result<NumberKind, ConstFault>
    requires { file_index < length named.now }
    ensures ok { IfOk result (λ kind. OfFile named.now file_index
        (λ f. LayoutIs named.now f layout.now (Some kind))) }
    ensures fault_is_true { IfErr result (IsMemoryOr (λ fault. OfFile named.now file_index
        (λ f. LayoutFails named.now f file_index layout.now fault))) }
{
    let file = NamedFile {
        named,
        file_index,
        tree: named.file(file_index),
    };
    member_kind(&file, &layout.keyword, underlying_path(layout))
}

/// An ordinary constraint: what its type resolves to, its number from 0 among the ordinary ones,
/// and its value.
#[derive(Clone, Copy, Drop)]
pub struct Constraint<'v> {
    pub end: Meaning,
    pub rank: usize,
    pub value: &'v Value,
}

impl Consts {
    /// The value of a handle's constraint in the file of this number, and None where no property
    /// wants one. The refusals are those of `evaluate`. `named` are the files that these are the
    /// values of.
    pub fn handle_value(
        &self,
        alloc: Global,
        named: &Named<'_, '_>,
        file_index: usize,
        constraint: Constraint<'_>,
    ) -> Result<Option<ConstValue>, ConstFault>
        requires within { file_index < length named.now }
        requires known { AreConsts named.now self.now }
        ensures found { IfOk result (λ found. IfSome found (λ v. OfFile named.now file_index
            (λ f. HandleValueIs named.now f constraint.entry.end constraint.entry.rank
            (value_view constraint.entry.value.now) (seen v)))) }
        ensures none { IfOk result (λ found. IsNone found
            → IsForNoProperty named.now constraint.entry.end constraint.entry.rank) }
        ensures fault_is_true { IfErr result (IsMemoryOr (λ fault. OfFile named.now file_index
            (λ f. HandleValueFails named.now f file_index constraint.entry.end constraint.entry.rank
            (value_view constraint.entry.value.now) fault))) }
    {
        let file = NamedFile {
            named,
            file_index,
            tree: named.file(file_index),
        };
        let scope = FileScope {
            alloc,
            consts: self,
            file,
        };
        handle_value(&scope, constraint.end, constraint.rank, constraint.value)
    }

    /// The value of a member of the bits or the enum that a property is written as, and None where
    /// there is no such member. The refusals are those of `evaluate`.
    pub fn property_member(
        &self,
        alloc: Global,
        named: &Named<'_, '_>,
        at: PropertyId,
        member: usize,
    ) -> Result<Option<Entry>, ConstFault>
        requires { AreConsts named.now self.now }
        ensures found { IfOk result (λ found. IfSome found
            (HasEntry named.now (member_of_property at member))) }
        ensures none { IfOk result (λ found. IsNone found
            → HasPropertyValue named.now (member_of_property at member) → ⊥) }
        ensures fault_is_true { IfErr result (IsMemoryOr (λ fault.
            PropertyMemberFails named.now fault (member_of_property at member))) }
    {
        let scope = Scope {
            alloc,
            named,
            consts: self,
        };
        property_member(&scope, at.id, at.number, member)
    }
}
