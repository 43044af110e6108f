//! The arguments of types.
ghost use Rattle.std.specs.Prelude.{◌≡◌, ◌∷◌, [], map, IfSome, IsNone, option_copied};
ghost use Rattle.fidl_tree.specs.Syntax.{TypeUse as Plain, no_arguments, next_argument, Argument};
ghost use Rattle.fidl_tree.specs.Syntax.{type_argument};
ghost use Rattle.fidl_tree.specs.Views.{argument_view, next_argument_view, type_arguments_view};
ghost use Rattle.fidl_constraints.specs.BehindViews.{arguments_view, use_view};

use fidl_constraints::{TypeUse, use_of};
use fidl_tree::{NextTypeArgument, TypeArgument, TypeArguments};

/// The type that an argument is.
fn as_type(argument: &TypeArgument) -> Option<TypeUse<'_>>
    ensures found { IfSome result (λ t. argument_view argument.now ≡ type_argument (use_view t)) }
    ensures none { IsNone result → (t : Plain) → argument_view argument.now ≡ type_argument t → ⊥ }
{
    match argument {
        TypeArgument::Type(constructor) => Some(use_of(constructor)),
        TypeArgument::Number(_) => None,
    }
}

/// A type and the argument behind it.
#[derive(Clone, Copy, Drop)]
pub(crate) struct Pair<'f> {
    pub first: TypeUse<'f>,
    pub second: &'f TypeArgument,
}

/// The type that is the only argument.
pub(crate) fn only_type<'f>(arguments: Option<&'f TypeArguments>) -> Option<TypeUse<'f>>
    ensures found { IfSome result (λ t. arguments_view (option_copied arguments.entry)
        ≡ next_argument (type_argument (use_view t)) no_arguments) }
    ensures none { IsNone result → (t : Plain) → arguments_view (option_copied arguments.entry)
        ≡ next_argument (type_argument t) no_arguments → ⊥ }
{
    let all = arguments?;
    match all.rest.split_first() {
        Some(_) => None,
        None => as_type(&all.first),
    }
}

/// The only one of the arguments after the first.
fn only_next(rest: &[NextTypeArgument]) -> Option<&TypeArgument>
    ensures found { IfSome result (λ a. map next_argument_view rest.now
        ≡ argument_view a.now ∷ []) }
    ensures none { IsNone result → (a : Argument) → map next_argument_view rest.now ≡ a ∷ [] → ⊥ }
{
    match rest {
        [only] => Some(&only.argument),
        _ => None,
    }
}

/// The type that is the first of just two arguments, and the second.
fn pair_of(all: &TypeArguments) -> Option<Pair<'_>>
    ensures found { IfSome result (λ p. type_arguments_view all.now
        ≡ next_argument (type_argument (use_view p.first))
        (next_argument (argument_view p.second.now) no_arguments)) }
    ensures none { IsNone result → (t : Plain) (a : Argument) → type_arguments_view all.now
        ≡ next_argument (type_argument t) (next_argument a no_arguments) → ⊥ }
{
    let second = only_next(&all.rest)?;
    let first = as_type(&all.first)?;
    Some(Pair { first, second })
}

/// The same of arguments where some are written.
pub(crate) fn two_arguments<'f>(arguments: Option<&'f TypeArguments>) -> Option<Pair<'f>>
    ensures found { IfSome result (λ p. arguments_view (option_copied arguments.entry)
        ≡ next_argument (type_argument (use_view p.first))
        (next_argument (argument_view p.second.now) no_arguments)) }
    ensures none { IsNone result → (t : Plain) (a : Argument)
        → arguments_view (option_copied arguments.entry)
        ≡ next_argument (type_argument t) (next_argument a no_arguments) → ⊥ }
{
    match arguments {
        None => None,
        Some(all) => pair_of(all),
    }
}
