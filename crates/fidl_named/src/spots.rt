//! One walk: the types, the numbers in arguments and the layouts of a declaration, in order.
ghost use Rattle.std.specs.Prelude.{◌≡◌, ◌++◌, None, map, option_map, option_copied, OnOk};
ghost use Rattle.fidl_tree.specs.Syntax.{arguments_of, members_of};
ghost use Rattle.fidl_tree.specs.Views.{path_view, type_view, named_view, type_arguments_view};
ghost use Rattle.fidl_tree.specs.Views.{next_argument_view, argument_view, body_view};
ghost use Rattle.fidl_tree.specs.Views.{member_view, ordinal_member_view};
ghost use Rattle.fidl_named.specs.Spots.{type_spots, arguments_spots, further_spots};
ghost use Rattle.fidl_named.specs.Spots.{argument_spots, layout_spots, members_spots, member_spots};
ghost use Rattle.fidl_named.specs.SpotViews.{spots_view};

use fidl_span::Span;
use fidl_tree::{
    Constraints, Layout, LayoutBody, Member, NamedType, NextTypeArgument, OrdinalBody,
    OrdinalMember, Path, TypeArgument, TypeArguments, TypeConstructor,
};
use std::alloc::AllocError;

/// What the walk comes by.
#[derive(Clone, Copy, Drop)]
pub enum Spot<'f> {
    /// A type that is given by its name; it may be the second argument of another.
    Named {
        argument_of: Option<&'f Path>,
        named: &'f NamedType,
    },
    /// A type that is written as a layout; it may be the second argument of another.
    Written {
        argument_of: Option<&'f Path>,
        layout: &'f Layout,
        constraints: Option<&'f Constraints>,
    },
    /// A number as an argument; it may be the second one of a type.
    Number {
        argument_of: Option<&'f Path>,
        number: Span,
    },
    /// A layout.
    Layout {
        body: &'f LayoutBody,
    },
}

/// The spots in a type, after those before them.
#[cycle(spots)]
pub fn push_type<'f>(
    spots: &mut Vec<Spot<'f>>,
    argument_of: Option<&'f Path>,
    constructor: &'f TypeConstructor,
) -> Result<(), AllocError>
    ensures { OnOk result (spots_view spots.new.items ≡ spots_view spots.old.items
        ++ type_spots (option_map path_view (option_copied argument_of.entry))
        (type_view constructor.now)) }
{
    match constructor {
        TypeConstructor::Layout {
            layout,
            constraints,
        } => {
            push_layout(spots, &layout.body)?;
            spots.push(Spot::Written {
                argument_of,
                layout,
                constraints: constraints.as_ref(),
            })?;
            Ok(())
        }
        TypeConstructor::Named(named) => push_named(spots, argument_of, named),
    }
}

/// A named type, and the spots in its arguments.
#[cycle(spots)]
fn push_named<'f>(
    spots: &mut Vec<Spot<'f>>,
    argument_of: Option<&'f Path>,
    named: &'f NamedType,
) -> Result<(), AllocError>
    ensures { OnOk result (spots_view spots.new.items ≡ spots_view spots.old.items
        ++ type_spots (option_map path_view (option_copied argument_of.entry))
        (named_view named.now)) }
{
    spots.push(Spot::Named { argument_of, named })?;
    match &named.arguments {
        None => Ok(()),
        Some(arguments) => push_arguments(spots, &named.path, arguments),
    }
}

/// Those in the arguments of a type of this name.
#[cycle(spots)]
fn push_arguments<'f>(
    spots: &mut Vec<Spot<'f>>,
    head: &'f Path,
    arguments: &'f TypeArguments,
) -> Result<(), AllocError>
    ensures { OnOk result (spots_view spots.new.items ≡ spots_view spots.old.items
        ++ arguments_spots (path_view head.now) (type_arguments_view arguments.now)) }
{
    push_argument(spots, None, &arguments.first)?;
    match arguments.rest.split_first() {
        None => Ok(()),
        Some((second, others)) => {
            push_argument(spots, Some(head), &second.argument)?;
            push_others(spots, others)
        }
    }
}

/// Those in the arguments after the second.
#[cycle(spots)]
fn push_others<'f>(
    spots: &mut Vec<Spot<'f>>,
    others: &'f [NextTypeArgument],
) -> Result<(), AllocError>
    ensures { OnOk result (spots_view spots.new.items ≡ spots_view spots.old.items
        ++ further_spots None (arguments_of (map next_argument_view others.now))) }
{
    for next in others {
        push_argument(spots, None, &next.argument)?;
    }
    Ok(())
}

#[cycle(spots)]
fn push_argument<'f>(
    spots: &mut Vec<Spot<'f>>,
    argument_of: Option<&'f Path>,
    argument: &'f TypeArgument,
) -> Result<(), AllocError>
    ensures { OnOk result (spots_view spots.new.items ≡ spots_view spots.old.items
        ++ argument_spots (option_map path_view (option_copied argument_of.entry))
        (argument_view argument.now)) }
{
    match argument {
        TypeArgument::Number(number) => {
            spots.push(Spot::Number {
                argument_of,
                number: *number,
            })?;
            Ok(())
        }
        TypeArgument::Type(constructor) => push_type(spots, argument_of, constructor),
    }
}

/// Those in a layout, and the layout itself.
#[cycle(spots)]
pub fn push_layout<'f>(spots: &mut Vec<Spot<'f>>, body: &'f LayoutBody) -> Result<(), AllocError>
    ensures { OnOk result (spots_view spots.new.items ≡ spots_view spots.old.items
        ++ layout_spots (body_view body.now)) }
{
    match body {
        LayoutBody::Values(layout) => {
            if let Some(underlying) = &layout.underlying {
                push_named(spots, None, &underlying.named)?;
            }
        }
        LayoutBody::Struct(layout) => push_members(spots, &layout.members)?,
        LayoutBody::Table(layout) => push_ordinals(spots, &layout.members)?,
        LayoutBody::Union(layout) => push_ordinals(spots, &layout.members)?,
    }
    spots.push(Spot::Layout { body })?;
    Ok(())
}

/// Those in the members of a struct or a service.
#[cycle(spots)]
pub fn push_members<'f>(spots: &mut Vec<Spot<'f>>, members: &'f [Member]) -> Result<(), AllocError>
    ensures { OnOk result (spots_view spots.new.items ≡ spots_view spots.old.items
        ++ members_spots (members_of (map member_view members.now))) }
{
    for member in members {
        push_type(spots, None, &member.constructor)?;
    }
    Ok(())
}

/// Those in the members of a table or a union.
#[cycle(spots)]
fn push_ordinals<'f>(
    spots: &mut Vec<Spot<'f>>,
    members: &'f [OrdinalMember],
) -> Result<(), AllocError>
    ensures { OnOk result (spots_view spots.new.items ≡ spots_view spots.old.items
        ++ members_spots (members_of (map ordinal_member_view members.now))) }
{
    for member in members {
        push_ordinal(spots, member)?;
    }
    Ok(())
}

#[cycle(spots)]
fn push_ordinal<'f>(spots: &mut Vec<Spot<'f>>, member: &'f OrdinalMember) -> Result<(), AllocError>
    ensures { OnOk result (spots_view spots.new.items ≡ spots_view spots.old.items
        ++ member_spots (ordinal_member_view member.now)) }
{
    match &member.body {
        OrdinalBody::Reserved(_) => Ok(()),
        OrdinalBody::Typed { constructor, .. } => push_type(spots, None, constructor),
    }
}
