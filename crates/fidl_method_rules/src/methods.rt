//! The methods of a protocol, with their ordinals.
ghost use Rattle.std.specs.Prelude.{◌≡◌, ◌≢◌, ◌++◌, None, map, IfOk, IfErr, OnOk, IfSome, IsNone};
ghost use Rattle.std.specs.Prelude.{option_to_list};
ghost use Rattle.fidl_tree.specs.Views.{file_view, openness_view, protocol_member_view};
ghost use Rattle.fidl_method_rules.specs.Methods.{method_of, MayStand, TextIs, OrdinalIs};
ghost use Rattle.fidl_method_rules.specs.Rules.{MethodBreaks, MemberHolds, MemberBreaks, IsReportIn};
ghost use Rattle.fidl_method_rules.specs.Rules.{ProtocolHolds, ProtocolBreaks};
ghost use Rattle.fidl_method_rules.specs.MethodViews.{method_view, IsEntryOf, AreMethods};

use crate::fault::MethodFault;
use crate::full_name::method_full_name;
use crate::member::{Method, may_stand, method_of};
use crate::selector::{only_selector, selected_text};
use fidl_named::Place;
use fidl_ordinal::ordinal_of;
use fidl_span::Span;
use fidl_tree::{File, ProtocolDeclaration, ProtocolMember};
use std::alloc::{AllocError, Global};

/// A method or an event that a protocol declares itself.
#[derive(Clone, Copy, Drop)]
pub struct OwnMethod {
    /// Its number among the members of the protocol, compositions too, from 0.
    pub member: usize,
    pub name: Span,
    /// Whether it is written `strict`.
    pub is_strict: bool,
    /// The number by which messages name it, of 63 bits, and never 0.
    pub ordinal: u64,
}

/// A protocol, and the file where it is declared.
#[derive(Clone, Copy, Drop)]
struct Scope<'f, 's> {
    file_index: usize,
    file: &'f File<'s>,
    protocol: &'f ProtocolDeclaration,
}

impl Scope<'_, '_> {
    /// This span, in the file.
    fn place(&self, span: Span) -> Place
        ensures file { result.file ≡ self.now.file_index }
        ensures span { result.span ≡ span }
    {
        Place {
            file: self.file_index,
            span,
        }
    }
}

/// A method may stand in its protocol.
fn check_strictness(scope: &Scope<'_, '_>, method: Method<'_>) -> Result<(), MethodFault>
    ensures ok { OnOk result (MayStand (openness_view scope.now.protocol.now.openness)
        (method_view method.entry)) }
    ensures fault_is_true { IfErr result (IsReportIn scope.now.file_index (MethodBreaks
        (file_view scope.now.file.now) (openness_view scope.now.protocol.now.openness)
        scope.now.protocol.now.name (method_view method.entry))) }
{
    if may_stand(&scope.protocol.openness, method) {
        return Ok(());
    }
    Err(MethodFault::NotStrict {
        place: scope.place(method.name),
    })
}

/// The text whose ordinal a method has.
fn method_text(
    alloc: Global,
    scope: &Scope<'_, '_>,
    method: Method<'_>,
) -> Result<Vec<u8>, MethodFault>
    ensures ok { IfOk result (λ text. TextIs (file_view scope.now.file.now)
        scope.now.protocol.now.name (method_view method.entry) text.items) }
    ensures fault_is_true { IfErr result (IsReportIn scope.now.file_index (MethodBreaks
        (file_view scope.now.file.now) (openness_view scope.now.protocol.now.openness)
        scope.now.protocol.now.name (method_view method.entry))) }
{
    let protocol = scope.protocol.name;
    let attribute = match only_selector(scope.file, method.attributes) {
        Ok(None) => return Ok(method_full_name(alloc, scope.file, protocol, method.name)?),
        Ok(Some(attribute)) => attribute,
        Err(second) => {
            return Err(MethodFault::BadSelector {
                place: scope.place(second),
            });
        }
    };
    match selected_text(alloc, scope.file, protocol, attribute)? {
        Some(text) => Ok(text),
        None => Err(MethodFault::BadSelector {
            place: scope.place(attribute.name),
        }),
    }
}

/// The ordinal of a method, which is not 0.
fn method_ordinal(
    alloc: Global,
    scope: &Scope<'_, '_>,
    method: Method<'_>,
) -> Result<u64, MethodFault>
    ensures ok { IfOk result (OrdinalIs (file_view scope.now.file.now)
        scope.now.protocol.now.name (method_view method.entry)) }
    ensures other { IfOk result (λ ordinal. ordinal ≢ 0) }
    ensures fault_is_true { IfErr result (IsReportIn scope.now.file_index (MethodBreaks
        (file_view scope.now.file.now) (openness_view scope.now.protocol.now.openness)
        scope.now.protocol.now.name (method_view method.entry))) }
{
    let text = method_text(alloc, scope, method)?;
    let ordinal = ordinal_of(&text);
    if ordinal == 0 {
        return Err(MethodFault::ZeroOrdinal {
            place: scope.place(method.name),
        });
    }
    Ok(ordinal)
}

/// The method that the member of this number is, where it is one.
fn own_method(
    alloc: Global,
    scope: &Scope<'_, '_>,
    number: usize,
    member: &ProtocolMember,
) -> Result<Option<OwnMethod>, MethodFault>
    ensures found { IfOk result (λ found. IfSome found (IsEntryOf (file_view scope.now.file.now)
        scope.now.protocol.now.name (protocol_member_view member.now))) }
    ensures number { IfOk result (λ found. IfSome found (λ own. own.member ≡ number)) }
    ensures none { IfOk result (λ found. IsNone found
        → method_of (protocol_member_view member.now) ≡ None) }
    ensures holds { OnOk result (MemberHolds (file_view scope.now.file.now)
        (openness_view scope.now.protocol.now.openness) scope.now.protocol.now.name
        (protocol_member_view member.now)) }
    ensures fault_is_true { IfErr result (IsReportIn scope.now.file_index (MemberBreaks
        (file_view scope.now.file.now) (openness_view scope.now.protocol.now.openness)
        scope.now.protocol.now.name (protocol_member_view member.now))) }
{
    let Some(method) = method_of(member) else {
        return Ok(None);
    };
    check_strictness(scope, method)?;
    let ordinal = method_ordinal(alloc, scope, method)?;
    Ok(Some(OwnMethod {
        member: number,
        name: method.name,
        is_strict: method.is_strict,
        ordinal,
    }))
}

/// Appends the method, where there is one.
fn push_own(owns: &mut Vec<OwnMethod>, own: Option<OwnMethod>) -> Result<(), AllocError>
    ensures { OnOk result (owns.new.items ≡ owns.old.items ++ option_to_list own) }
{
    match own {
        None => Ok(()),
        Some(own) => {
            owns.push(own)?;
            Ok(())
        }
    }
}

/// The methods and events that a protocol declares itself, in their order, each with its ordinal
/// (public source: the FIDL language specification, "Protocols" and "Method ordinals"). The
/// protocol is one of the file, and `file_index` is the file's number, for the places of refusals.
///
/// Refused with NotStrict where a flexible method may not stand in a protocol of this openness,
/// with BadSelector where an attribute `@selector` of a method is wrong, with ZeroOrdinal where an
/// ordinal is 0, and with Memory where memory ran out.
pub fn own_methods(
    alloc: Global,
    file_index: usize,
    file: &File<'_>,
    protocol: &ProtocolDeclaration,
) -> Result<Vec<OwnMethod>, MethodFault>
    ensures ok { IfOk result (λ owns. AreMethods (file_view file.now) protocol.now.name
        (map protocol_member_view protocol.now.members.items) owns.items) }
    ensures holds { OnOk result (ProtocolHolds (file_view file.now)
        (openness_view protocol.now.openness) protocol.now.name
        (map protocol_member_view protocol.now.members.items)) }
    ensures fault_is_true { IfErr result (IsReportIn file_index (ProtocolBreaks
        (file_view file.now) (openness_view protocol.now.openness) protocol.now.name
        (map protocol_member_view protocol.now.members.items))) }
{
    let scope = Scope {
        file_index,
        file,
        protocol,
    };
    let mut owns = Vec::new(alloc);
    for (number, member) in protocol.members.iter().enumerate() {
        let own = own_method(alloc, &scope, number, member)?;
        push_own(&mut owns, own)?;
    }
    Ok(owns)
}
