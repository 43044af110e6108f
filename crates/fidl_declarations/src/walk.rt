//! One walk over types and layouts: what stands in them, in order.
ghost use Rattle.std.specs.Prelude.{◌≡◌, ◌++◌, map, IfOk, OnOk};
ghost use Rattle.fidl_tree.specs.Syntax.{arguments_of, members_of};
ghost use Rattle.fidl_tree.specs.Views.{type_view, named_view, type_arguments_view};
ghost use Rattle.fidl_tree.specs.Views.{next_argument_view, argument_view, body_view};
ghost use Rattle.fidl_tree.specs.Syntax.{ValueMember as Plain};
ghost use Rattle.fidl_tree.specs.Views.{path_view};
ghost use Rattle.fidl_tree.specs.Views.{member_view, ordinal_member_view, value_member_view};
ghost use Rattle.fidl_declarations.specs.Sites.{type_sites, arguments_sites, further_sites, any_type};
ghost use Rattle.fidl_declarations.specs.Sites.{argument_sites, layout_sites, members_sites};
ghost use Rattle.fidl_declarations.specs.Sites.{member_sites, attributes_site, present_type, within};
ghost use Rattle.fidl_declarations.specs.SiteViews.{role_view, sites_view};

use crate::site::{Role, Site};
use crate::step::Step;
use fidl_tree::{
    LayoutBody, Member, NamedType, NextTypeArgument, OrdinalBody, OrdinalMember, Path,
    TypeArgument, TypeArguments, TypeConstructor, ValueMember,
};
use std::alloc::AllocError;

/// The same path.
pub(crate) fn copy(path: &Vec<Step>) -> Result<Vec<Step>, AllocError>
    ensures { IfOk result (λ same. same.items ≡ path.now.items) }
{
    Ok(path.clone()?)
}

/// The path, one step on.
pub(crate) fn within(path: &Vec<Step>, step: Step) -> Result<Vec<Step>, AllocError>
    ensures { IfOk result (λ inner. inner.items ≡ within path.now.items step) }
{
    let mut inner = Vec::with_capacity(*path.allocator(), path.len().saturating_add(1))?;
    inner.extend_from_slice(path)?;
    inner.push(step)?;
    Ok(inner)
}

/// What stands in a type, one step further. Only a layout has a path, so a name without arguments
/// needs none.
#[cycle(sites)]
pub(crate) fn push_type_within<'f>(
    sites: &mut Vec<Site<'f>>,
    path: &Vec<Step>,
    step: Step,
    role: Role<'f>,
    constructor: &'f TypeConstructor,
) -> Result<(), AllocError>
    ensures { OnOk result (sites_view sites.new.items ≡ sites_view sites.old.items
        ++ type_sites (within path.now.items step) (role_view role.entry)
        (type_view constructor.now)) }
{
    if let TypeConstructor::Named(named) = constructor {
        if named.arguments.is_none() {
            sites.push(Site::Named { role, named })?;
            return Ok(());
        }
    }
    let inner = within(path, step)?;
    push_type(sites, &inner, role, constructor)
}

/// What stands in a type, after what stands before it.
#[cycle(sites)]
pub(crate) fn push_type<'f>(
    sites: &mut Vec<Site<'f>>,
    path: &Vec<Step>,
    role: Role<'f>,
    constructor: &'f TypeConstructor,
) -> Result<(), AllocError>
    ensures { OnOk result (sites_view sites.new.items ≡ sites_view sites.old.items
        ++ type_sites path.now.items (role_view role.entry) (type_view constructor.now)) }
{
    match constructor {
        TypeConstructor::Layout {
            layout,
            constraints,
        } => {
            sites.push(Site::Written {
                role,
                layout,
                constraints: constraints.as_ref(),
            })?;
            sites.push(Site::Attributes {
                attributes: &layout.attributes,
            })?;
            push_layout(sites, path, &layout.body)
        }
        TypeConstructor::Named(named) => push_named(sites, path, role, named),
    }
}

/// A named type, and what stands in its arguments.
#[cycle(sites)]
fn push_named<'f>(
    sites: &mut Vec<Site<'f>>,
    path: &Vec<Step>,
    role: Role<'f>,
    named: &'f NamedType,
) -> Result<(), AllocError>
    ensures { OnOk result (sites_view sites.new.items ≡ sites_view sites.old.items
        ++ type_sites path.now.items (role_view role.entry) (named_view named.now)) }
{
    sites.push(Site::Named { role, named })?;
    match &named.arguments {
        None => Ok(()),
        Some(arguments) => push_arguments(sites, path, &named.path, arguments),
    }
}

/// What stands in the arguments of a type of this name.
#[cycle(sites)]
fn push_arguments<'f>(
    sites: &mut Vec<Site<'f>>,
    path: &Vec<Step>,
    head: &'f Path,
    arguments: &'f TypeArguments,
) -> Result<(), AllocError>
    ensures { OnOk result (sites_view sites.new.items ≡ sites_view sites.old.items
        ++ arguments_sites path.now.items (path_view head.now)
        (type_arguments_view arguments.now)) }
{
    push_argument(sites, path, Role::Any, &arguments.first)?;
    match arguments.rest.split_first() {
        None => Ok(()),
        Some((second, others)) => {
            push_argument(sites, path, Role::SecondArgument(head), &second.argument)?;
            push_others(sites, path, others)
        }
    }
}

/// What stands in the arguments after the second.
#[cycle(sites)]
fn push_others<'f>(
    sites: &mut Vec<Site<'f>>,
    path: &Vec<Step>,
    others: &'f [NextTypeArgument],
) -> Result<(), AllocError>
    ensures { OnOk result (sites_view sites.new.items ≡ sites_view sites.old.items
        ++ further_sites path.now.items any_type
        (arguments_of (map next_argument_view others.now))) }
{
    for next in others {
        push_argument(sites, path, Role::Any, &next.argument)?;
    }
    Ok(())
}

#[cycle(sites)]
fn push_argument<'f>(
    sites: &mut Vec<Site<'f>>,
    path: &Vec<Step>,
    role: Role<'f>,
    argument: &'f TypeArgument,
) -> Result<(), AllocError>
    ensures { OnOk result (sites_view sites.new.items ≡ sites_view sites.old.items
        ++ argument_sites path.now.items (role_view role.entry) (argument_view argument.now)) }
{
    match argument {
        TypeArgument::Number(_) => Ok(()),
        TypeArgument::Type(constructor) => push_type(sites, path, role, constructor),
    }
}

/// A layout, and what stands in it.
#[cycle(sites)]
pub(crate) fn push_layout<'f>(
    sites: &mut Vec<Site<'f>>,
    path: &Vec<Step>,
    body: &'f LayoutBody,
) -> Result<(), AllocError>
    ensures { OnOk result (sites_view sites.new.items ≡ sites_view sites.old.items
        ++ layout_sites path.now.items (body_view body.now)) }
{
    sites.push(Site::Layout {
        path: copy(path)?,
        body,
    })?;
    match body {
        LayoutBody::Values(layout) => {
            if let Some(underlying) = &layout.underlying {
                push_named(sites, path, Role::Bare, &underlying.named)?;
            }
            push_value_members(sites, &layout.members)
        }
        LayoutBody::Struct(layout) => push_members(sites, path, Role::Any, &layout.members),
        LayoutBody::Table(layout) => push_ordinals(sites, path, &layout.members),
        LayoutBody::Union(layout) => push_ordinals(sites, path, &layout.members),
    }
}

/// The attributes of the members of bits or an enum.
fn push_value_members<'f>(
    sites: &mut Vec<Site<'f>>,
    members: &'f [ValueMember],
) -> Result<(), AllocError>
    ensures { OnOk result (sites_view sites.new.items ≡ sites_view sites.old.items
        ++ map (λ (m : Plain). attributes_site m.attributes)
        (map value_member_view members.now)) }
{
    for member in members {
        sites.push(Site::Attributes {
            attributes: &member.attributes,
        })?;
    }
    Ok(())
}

/// What stands in the members of a struct or a service.
#[cycle(sites)]
pub(crate) fn push_members<'f>(
    sites: &mut Vec<Site<'f>>,
    path: &Vec<Step>,
    role: Role<'f>,
    members: &'f [Member],
) -> Result<(), AllocError>
    ensures { OnOk result (sites_view sites.new.items ≡ sites_view sites.old.items
        ++ members_sites path.now.items (role_view role.entry)
        (members_of (map member_view members.now))) }
{
    for member in members {
        push_member(sites, path, role, member)?;
    }
    Ok(())
}

#[cycle(sites)]
fn push_member<'f>(
    sites: &mut Vec<Site<'f>>,
    path: &Vec<Step>,
    role: Role<'f>,
    member: &'f Member,
) -> Result<(), AllocError>
    ensures { OnOk result (sites_view sites.new.items ≡ sites_view sites.old.items
        ++ member_sites path.now.items (role_view role.entry) (member_view member.now)) }
{
    sites.push(Site::Attributes {
        attributes: &member.attributes,
    })?;
    push_type_within(
        sites,
        path,
        Step::Name(member.name),
        role,
        &member.constructor,
    )
}

/// What stands in the members of a table or a union.
#[cycle(sites)]
fn push_ordinals<'f>(
    sites: &mut Vec<Site<'f>>,
    path: &Vec<Step>,
    members: &'f [OrdinalMember],
) -> Result<(), AllocError>
    ensures { OnOk result (sites_view sites.new.items ≡ sites_view sites.old.items
        ++ members_sites path.now.items present_type
        (members_of (map ordinal_member_view members.now))) }
{
    for member in members {
        push_ordinal(sites, path, member)?;
    }
    Ok(())
}

#[cycle(sites)]
fn push_ordinal<'f>(
    sites: &mut Vec<Site<'f>>,
    path: &Vec<Step>,
    member: &'f OrdinalMember,
) -> Result<(), AllocError>
    ensures { OnOk result (sites_view sites.new.items ≡ sites_view sites.old.items
        ++ member_sites path.now.items present_type (ordinal_member_view member.now)) }
{
    sites.push(Site::Attributes {
        attributes: &member.attributes,
    })?;
    match &member.body {
        OrdinalBody::Reserved(_) => Ok(()),
        OrdinalBody::Typed { name, constructor } => {
            push_type_within(sites, path, Step::Name(*name), Role::Present, constructor)
        }
    }
}
