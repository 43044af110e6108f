//! What stands in declarations and files, in order.
ghost use Rattle.std.specs.Prelude.{◌≡◌, ◌++◌, ◌∷◌, map, flat_map, option_map, IfOk, OnOk};
ghost use Rattle.fidl_tree.specs.Syntax.{members_of};
ghost use Rattle.fidl_tree.specs.Views.{payload_view, error_view, response_view, is_strict};
ghost use Rattle.fidl_tree.specs.Views.{body_view};
ghost use Rattle.fidl_declarations.specs.Keywords.{layout_keyword};
ghost use Rattle.fidl_tree.specs.Views.{protocol_member_view, property_view, declared_view};
ghost use Rattle.fidl_tree.specs.Views.{declared_name, declaration_view, import_view, file_view};
ghost use Rattle.fidl_declarations.specs.declared.step.Step.TheVariants as Steps;
ghost use Rattle.fidl_declarations.specs.Sites.{within, any_type, present_type, bare_type, part_sites};
ghost use Rattle.fidl_declarations.specs.Sites.{result_site, empty_sites, response_sites};
ghost use Rattle.fidl_declarations.specs.Sites.{answer_sites, protocol_sites, members_sites};
ghost use Rattle.fidl_declarations.specs.Sites.{member_sites, body_sites, declaration_sites};
ghost use Rattle.fidl_declarations.specs.Sites.{import_site, file_sites};
ghost use Rattle.fidl_declarations.specs.SiteViews.{sites_view};

use crate::site::{Role, Site};
use crate::step::Step;
use crate::walk::{push_layout, push_members, push_type, push_type_within, within};
use fidl_span::Span;
use fidl_tree::{
    Declaration, DeclarationBody, ErrorType, Event, File, Import, LayoutBody, Method, Payload,
    Property, ProtocolMember, ProtocolMemberBody, Response, Strictness, ValuesKeyword,
};
use std::alloc::{AllocError, Global};

/// Whether a method is marked `strict`.
pub fn is_strict(strictness: &Option<Strictness>) -> bool
    ensures { result ≡ is_strict strictness.now }
{
    match strictness {
        Some(Strictness::Strict(_)) => true,
        Some(Strictness::Flexible(_)) | None => false,
    }
}

/// Where the keyword of a layout stands.
pub fn layout_keyword(body: &LayoutBody) -> Span
    ensures { result ≡ layout_keyword (body_view body.now) }
{
    match body {
        LayoutBody::Values(layout) => match &layout.keyword {
            ValuesKeyword::Bits(span) => *span,
            ValuesKeyword::Enum(span) => *span,
        },
        LayoutBody::Struct(layout) => layout.keyword,
        LayoutBody::Table(layout) => layout.keyword,
        LayoutBody::Union(layout) => layout.keyword,
    }
}

/// What stands in a payload, one step further.
fn push_payload<'f>(
    sites: &mut Vec<Site<'f>>,
    path: &Vec<Step>,
    step: Step,
    payload: &'f Payload,
) -> Result<(), AllocError>
    ensures { OnOk result (sites_view sites.new.items ≡ sites_view sites.old.items
        ++ part_sites (within path.now.items step) any_type (payload_view payload.now)) }
{
    match &payload.constructor {
        None => Ok(()),
        Some(constructor) => push_type_within(sites, path, step, Role::Any, constructor),
    }
}

/// What stands in the type behind `error`.
fn push_error<'f>(
    sites: &mut Vec<Site<'f>>,
    path: &Vec<Step>,
    error: &'f Option<ErrorType>,
) -> Result<(), AllocError>
    ensures { OnOk result (sites_view sites.new.items ≡ sites_view sites.old.items
        ++ part_sites (within path.now.items Steps.Error) present_type
        (option_map error_view error.now)) }
{
    match error {
        None => Ok(()),
        Some(error) => {
            push_type_within(sites, path, Step::Error, Role::Present, &error.constructor)
        }
    }
}

/// The union in which a method answers, and the empty struct in it where it answers nothing.
fn push_result<'f>(
    sites: &mut Vec<Site<'f>>,
    path: &Vec<Step>,
    strict: bool,
    response: &'f Response,
) -> Result<(), AllocError>
    ensures { let r = response_view response.now in
        OnOk result (sites_view sites.new.items ≡ sites_view sites.old.items
        ++ result_site (within path.now.items Steps.Result) strict r
        ∷ empty_sites path.now.items r.payload) }
{
    sites.push(Site::Result {
        path: within(path, Step::Result)?,
        strict,
        response,
    })?;
    if response.payload.constructor.is_none() {
        sites.push(Site::EmptyResponse {
            path: within(path, Step::Response)?,
        })?;
    }
    Ok(())
}

/// What stands in the response of a method.
fn push_response<'f>(
    sites: &mut Vec<Site<'f>>,
    path: &Vec<Step>,
    strict: bool,
    response: &'f Response,
) -> Result<(), AllocError>
    ensures { OnOk result (sites_view sites.new.items ≡ sites_view sites.old.items
        ++ response_sites path.now.items strict (response_view response.now)) }
{
    push_payload(sites, path, Step::Response, &response.payload)?;
    push_error(sites, path, &response.error)?;
    match (&response.error, strict) {
        (None, true) => Ok(()),
        _ => push_result(sites, path, strict, response),
    }
}

/// What stands in a method of a protocol of this path, but for its attributes.
fn push_method<'f>(
    sites: &mut Vec<Site<'f>>,
    path: &Vec<Step>,
    method: &'f Method,
) -> Result<(), AllocError>
    ensures { let own = within path.now.items (Steps.Name method.now.name) in
        OnOk result (sites_view sites.new.items ≡ sites_view sites.old.items
        ++ part_sites (within own Steps.Request) any_type (payload_view method.now.request)
        ++ answer_sites own (is_strict method.now.strictness)
        (option_map response_view method.now.response)) }
{
    let own = within(path, Step::Name(method.name))?;
    push_payload(sites, &own, Step::Request, &method.request)?;
    match &method.response {
        None => Ok(()),
        Some(response) => push_response(sites, &own, is_strict(&method.strictness), response),
    }
}

/// What stands in an event, but for its attributes.
fn push_event<'f>(
    sites: &mut Vec<Site<'f>>,
    path: &Vec<Step>,
    event: &'f Event,
) -> Result<(), AllocError>
    ensures { let own = within path.now.items (Steps.Name event.now.name) in
        OnOk result (sites_view sites.new.items ≡ sites_view sites.old.items
        ++ part_sites (within own Steps.Response) any_type (payload_view event.now.payload)) }
{
    let own = within(path, Step::Name(event.name))?;
    push_payload(sites, &own, Step::Response, &event.payload)
}

/// What stands in a member of a protocol of this path.
fn push_protocol_member<'f>(
    sites: &mut Vec<Site<'f>>,
    path: &Vec<Step>,
    member: &'f ProtocolMember,
) -> Result<(), AllocError>
    ensures { OnOk result (sites_view sites.new.items ≡ sites_view sites.old.items
        ++ protocol_sites path.now.items (protocol_member_view member.now)) }
{
    sites.push(Site::Attributes {
        attributes: &member.attributes,
    })?;
    match &member.body {
        ProtocolMemberBody::Compose(_) => Ok(()),
        ProtocolMemberBody::Method(method) => push_method(sites, path, method),
        ProtocolMemberBody::Event(event) => push_event(sites, path, event),
    }
}

fn push_protocol<'f>(
    sites: &mut Vec<Site<'f>>,
    path: &Vec<Step>,
    members: &'f [ProtocolMember],
) -> Result<(), AllocError>
    ensures { OnOk result (sites_view sites.new.items ≡ sites_view sites.old.items
        ++ flat_map (protocol_sites path.now.items) (map protocol_member_view members.now)) }
{
    for member in members {
        push_protocol_member(sites, path, member)?;
    }
    Ok(())
}

/// What stands in a property, which has no attributes.
fn push_property<'f>(
    sites: &mut Vec<Site<'f>>,
    path: &Vec<Step>,
    property: &'f Property,
) -> Result<(), AllocError>
    ensures { OnOk result (sites_view sites.new.items ≡ sites_view sites.old.items
        ++ member_sites path.now.items bare_type (property_view property.now)) }
{
    sites.push(Site::Attributes { attributes: &[] })?;
    push_type_within(
        sites,
        path,
        Step::Name(property.name),
        Role::Bare,
        &property.constructor,
    )
}

fn push_properties<'f>(
    sites: &mut Vec<Site<'f>>,
    path: &Vec<Step>,
    properties: &'f [Property],
) -> Result<(), AllocError>
    ensures { OnOk result (sites_view sites.new.items ≡ sites_view sites.old.items
        ++ members_sites path.now.items bare_type
        (members_of (map property_view properties.now))) }
{
    for property in properties {
        push_property(sites, path, property)?;
    }
    Ok(())
}

/// What stands in what is declared.
fn push_body<'f>(
    sites: &mut Vec<Site<'f>>,
    path: &Vec<Step>,
    body: &'f DeclarationBody,
) -> Result<(), AllocError>
    ensures { OnOk result (sites_view sites.new.items ≡ sites_view sites.old.items
        ++ body_sites path.now.items (declared_view body.now)) }
{
    match body {
        DeclarationBody::Const(d) => push_type(sites, path, Role::Any, &d.constructor),
        DeclarationBody::Alias(d) => push_type(sites, path, Role::Aliased, &d.constructor),
        DeclarationBody::Type(d) => {
            sites.push(Site::Attributes {
                attributes: &d.layout.attributes,
            })?;
            push_layout(sites, path, &d.layout.body)
        }
        DeclarationBody::Protocol(d) => push_protocol(sites, path, &d.members),
        DeclarationBody::Service(d) => push_members(sites, path, Role::Service, &d.members),
        DeclarationBody::Resource(d) => {
            push_type(sites, path, Role::Bare, &d.constructor)?;
            push_properties(sites, path, &d.properties.members)
        }
    }
}

/// Where the name of a declaration stands.
fn declared_name(body: &DeclarationBody) -> Span
    ensures { result ≡ declared_name body.now }
{
    match body {
        DeclarationBody::Const(d) => d.name,
        DeclarationBody::Alias(d) => d.name,
        DeclarationBody::Type(d) => d.name,
        DeclarationBody::Protocol(d) => d.name,
        DeclarationBody::Service(d) => d.name,
        DeclarationBody::Resource(d) => d.name,
    }
}

/// What stands in a declaration.
fn push_declaration<'f>(
    sites: &mut Vec<Site<'f>>,
    alloc: Global,
    declaration: &'f Declaration,
) -> Result<(), AllocError>
    ensures { OnOk result (sites_view sites.new.items ≡ sites_view sites.old.items
        ++ declaration_sites (declaration_view declaration.now)) }
{
    sites.push(Site::Attributes {
        attributes: &declaration.attributes,
    })?;
    let mut path = Vec::new(alloc);
    path.push(Step::Name(declared_name(&declaration.body)))?;
    push_body(sites, &path, &declaration.body)
}

fn push_declarations<'f>(
    sites: &mut Vec<Site<'f>>,
    alloc: Global,
    declarations: &'f [Declaration],
) -> Result<(), AllocError>
    ensures { OnOk result (sites_view sites.new.items ≡ sites_view sites.old.items
        ++ flat_map declaration_sites (map declaration_view declarations.now)) }
{
    for declaration in declarations {
        push_declaration(sites, alloc, declaration)?;
    }
    Ok(())
}

/// The attributes of imports.
fn push_imports<'f>(sites: &mut Vec<Site<'f>>, imports: &'f [Import]) -> Result<(), AllocError>
    ensures { OnOk result (sites_view sites.new.items ≡ sites_view sites.old.items
        ++ map import_site (map import_view imports.now)) }
{
    for import in imports {
        sites.push(Site::Attributes {
            attributes: &import.attributes,
        })?;
    }
    Ok(())
}

/// All that stands in a file, in the order of its source: types with what their places ask,
/// layouts and results with their paths, and attributes.
///
/// `AllocError`: memory ran out.
pub fn file_sites<'f>(alloc: Global, file: &'f File<'_>) -> Result<Vec<Site<'f>>, AllocError>
    ensures ok { IfOk result (λ sites. sites_view sites.items ≡ file_sites (file_view file.now)) }
{
    // About as many as a declaration has on average, so that the list seldom moves.
    let mut sites = Vec::with_capacity(alloc, file.declarations.len().saturating_mul(8))?;
    sites.push(Site::Attributes {
        attributes: &file.library.attributes,
    })?;
    push_imports(&mut sites, &file.imports)?;
    push_declarations(&mut sites, alloc, &file.declarations)?;
    Ok(sites)
}
