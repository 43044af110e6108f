//! The types that a type names outside layouts.
ghost use Rattle.std.specs.Prelude.{◌≡◌, ◌++◌, Some, map, OnOk, IfOk};
ghost use Rattle.fidl_tree.specs.Syntax.{arguments_of};
ghost use Rattle.fidl_tree.specs.Views.{path_view, type_view, named_view, argument_view};
ghost use Rattle.fidl_tree.specs.Views.{next_argument_view};
ghost use Rattle.fidl_names.specs.OuterTypes.{outer_of, argument_outer, further_outer, outer_types};
ghost use Rattle.fidl_named.specs.ReferenceViews.{optional_path_view};
ghost use Rattle.fidl_names.specs.OuterViews.{read_types};

use fidl_tree::{NamedType, NextTypeArgument, Path, TypeArgument, TypeConstructor};
use std::alloc::{AllocError, Global};

/// A type by its path, and the type whose second argument it is, if any.
#[derive(Clone, Copy, Drop)]
pub(crate) struct OuterType<'f> {
    pub argument_of: Option<&'f Path>,
    pub path: &'f Path,
}

/// Those of a type, after those before them.
#[cycle(outer)]
fn push_type<'f>(
    types: &mut Vec<OuterType<'f>>,
    constructor: &'f TypeConstructor,
    argument_of: Option<&'f Path>,
) -> Result<(), AllocError>
    ensures { OnOk result (read_types types.new.items ≡ read_types types.old.items
        ++ outer_of (optional_path_view argument_of.entry) (type_view constructor.now)) }
{
    match constructor {
        TypeConstructor::Layout { .. } => Ok(()),
        TypeConstructor::Named(named) => push_named(types, named, argument_of),
    }
}

/// A named type, and those in its arguments.
#[cycle(outer)]
fn push_named<'f>(
    types: &mut Vec<OuterType<'f>>,
    named: &'f NamedType,
    argument_of: Option<&'f Path>,
) -> Result<(), AllocError>
    ensures { OnOk result (read_types types.new.items ≡ read_types types.old.items
        ++ outer_of (optional_path_view argument_of.entry) (named_view named.now)) }
{
    let path = &named.path;
    types.push(OuterType { argument_of, path })?;
    if let Some(arguments) = &named.arguments {
        push_argument(types, &arguments.first, None)?;
        push_arguments(types, &arguments.rest, path)?;
    }
    Ok(())
}

/// Those in the arguments after the first, of a type of this path.
#[cycle(outer)]
fn push_arguments<'f>(
    types: &mut Vec<OuterType<'f>>,
    arguments: &'f [NextTypeArgument],
    head: &'f Path,
) -> Result<(), AllocError>
    ensures { OnOk result (read_types types.new.items ≡ read_types types.old.items
        ++ further_outer (Some (path_view head.now))
        (arguments_of (map next_argument_view arguments.now))) }
{
    let mut argument_of = Some(head);
    for next in arguments {
        push_argument(types, &next.argument, argument_of)?;
        argument_of = None;
    }
    Ok(())
}

#[cycle(outer)]
fn push_argument<'f>(
    types: &mut Vec<OuterType<'f>>,
    argument: &'f TypeArgument,
    argument_of: Option<&'f Path>,
) -> Result<(), AllocError>
    ensures { OnOk result (read_types types.new.items ≡ read_types types.old.items
        ++ argument_outer (optional_path_view argument_of.entry) (argument_view argument.now)) }
{
    match argument {
        TypeArgument::Number(_) => Ok(()),
        TypeArgument::Type(constructor) => push_type(types, constructor, argument_of),
    }
}

/// The types that a type names outside layouts, itself first.
pub(crate) fn outer_types(
    alloc: Global,
    constructor: &TypeConstructor,
) -> Result<Vec<OuterType<'_>>, AllocError>
    ensures { IfOk result (λ types. read_types types.items
        ≡ outer_types (type_view constructor.now)) }
{
    let mut types = Vec::new(alloc);
    push_type(&mut types, constructor, None)?;
    Ok(types)
}
