//! Types by the predeclared names that they are written with, and their arguments.
ghost use Rattle.std.specs.Prelude.{◌≡◌, ◌<◌, ◌↔◌, length, IfOk, IfSome, IsNone, IsTrue};
ghost use Rattle.std.specs.Prelude.{option_copied, Some};
ghost use Rattle.fidl_tree.specs.Syntax.{TypeUse as Plain, no_arguments, next_argument};
ghost use Rattle.fidl_tree.specs.Syntax.{type_argument};
ghost use Rattle.fidl_tree.specs.Views.{path_view, argument_view};
ghost use Rattle.fidl_named.specs.declared.meaning.Predeclared.{Predeclared as Word};
ghost use Rattle.fidl_named.specs.declared.meaning.Meaning.TheVariants as Meanings;
ghost use Rattle.fidl_constraints.specs.Behind.{MeansType};
ghost use Rattle.fidl_constraints.specs.BehindViews.{arguments_view, use_view};
ghost use Rattle.fidl_type_rules.specs.Made.{first_type};
ghost use Rattle.fidl_type_rules.specs.Words.{IsWord, is_float, IsLeftOut, arguments_in, ArgumentsSuit};

use fidl_constraints::{TypeUse, use_of};
use fidl_lower_types::Sources;
use fidl_named::{Meaning, Predeclared};
use fidl_tree::{Path, TypeArgument, TypeArguments};
use std::alloc::AllocError;

/// The predeclared type that a name means in the file of this number, if it means one.
pub(crate) fn word_at(
    sources: &Sources<'_, '_, '_>,
    file_index: usize,
    path: &Path,
) -> Result<Option<Predeclared>, AllocError>
    requires { file_index < length sources.now.named.now }
    ensures found { IfOk result (λ found. IfSome found (λ w. MeansType sources.now.named.now
        file_index (path_view path.now) (Meanings.Predeclared w))) }
    ensures none { IfOk result (λ found. IsNone found → (w : Word) → MeansType
        sources.now.named.now file_index (path_view path.now) (Meanings.Predeclared w) → ⊥) }
{
    match sources.named.type_meaning(file_index, path)? {
        Some(Meaning::Predeclared(word)) => Ok(Some(word)),
        Some(Meaning::Declared(_)) => Ok(None),
        Some(Meaning::Member { .. }) => Ok(None),
        Some(Meaning::PropertyMember { .. }) => Ok(None),
        None => Ok(None),
    }
}

/// The predeclared type by whose name a type is given in the file of this number, if by one.
pub(crate) fn word_of(
    sources: &Sources<'_, '_, '_>,
    file_index: usize,
    of: TypeUse<'_>,
) -> Result<Option<Predeclared>, AllocError>
    requires { file_index < length sources.now.named.now }
    ensures found { IfOk result (λ found. IfSome found
        (IsWord sources.now.named.now file_index (use_view of.entry))) }
    ensures none { IfOk result (λ found. IsNone found → (w : Word)
        → IsWord sources.now.named.now file_index (use_view of.entry) w → ⊥) }
{
    match of {
        TypeUse::Named(named) => word_at(sources, file_index, &named.path),
        TypeUse::Written { .. } => Ok(None),
    }
}

/// Whether the profile leaves a predeclared type out.
fn is_float(word: Predeclared) -> bool
    ensures { result ≡ is_float word }
{
    matches!(word, Predeclared::Float32 | Predeclared::Float64)
}

/// Whether a type is given by the name of one that the profile leaves out.
pub(crate) fn is_left_out(
    sources: &Sources<'_, '_, '_>,
    file_index: usize,
    of: TypeUse<'_>,
) -> Result<bool, AllocError>
    requires { file_index < length sources.now.named.now }
    ensures { IfOk result (λ b. IsTrue b
        ↔ IsLeftOut sources.now.named.now file_index (use_view of.entry)) }
{
    match word_of(sources, file_index, of)? {
        None => Ok(false),
        Some(word) => Ok(is_float(word)),
    }
}

/// The arguments that a type is written with, if it has some.
fn arguments_of<'f>(of: TypeUse<'f>) -> Option<&'f TypeArguments>
    ensures { arguments_view (option_copied result) ≡ arguments_in (use_view of.entry) }
{
    match of {
        TypeUse::Named(named) => named.arguments.as_ref(),
        TypeUse::Written { .. } => None,
    }
}

/// Whether a type is given by a predeclared name in the file of this number.
fn is_word(
    sources: &Sources<'_, '_, '_>,
    file_index: usize,
    of: TypeUse<'_>,
) -> Result<bool, AllocError>
    requires { file_index < length sources.now.named.now }
    ensures yes { IfOk result (λ b. IsTrue b → (w : Word)
        × IsWord sources.now.named.now file_index (use_view of.entry) w) }
    ensures no { IfOk result (λ b. (w : Word)
        → IsWord sources.now.named.now file_index (use_view of.entry) w → IsTrue b) }
{
    match word_of(sources, file_index, of)? {
        None => Ok(false),
        Some(_word) => Ok(true),
    }
}

/// Whether a type may have the arguments that it is written with: none, where it is given by
/// another name than a predeclared one.
pub(crate) fn arguments_suit(
    sources: &Sources<'_, '_, '_>,
    file_index: usize,
    of: TypeUse<'_>,
) -> Result<bool, AllocError>
    requires { file_index < length sources.now.named.now }
    ensures { IfOk result (λ b. IsTrue b
        ↔ ArgumentsSuit sources.now.named.now file_index (use_view of.entry)) }
{
    match arguments_of(of) {
        None => Ok(true),
        Some(_arguments) => Ok(is_word(sources, file_index, of)?),
    }
}

/// The type that an argument is.
fn as_type(argument: &TypeArgument) -> Option<TypeUse<'_>>
    ensures found { IfSome result (λ t. argument_view argument.now ≡ type_argument (use_view t)) }
    ensures none { IsNone result → (t : Plain) → argument_view argument.now ≡ type_argument t → ⊥ }
{
    match argument {
        TypeArgument::Type(constructor) => Some(use_of(constructor)),
        TypeArgument::Number(_) => None,
    }
}

/// The type that is the first argument of a type.
pub(crate) fn first_argument<'f>(of: TypeUse<'f>) -> Option<TypeUse<'f>>
    ensures found { IfSome result (λ t. first_type (arguments_in (use_view of.entry))
        ≡ Some (use_view t)) }
    ensures none { IsNone result → (t : Plain) → first_type (arguments_in (use_view of.entry))
        ≡ Some t → ⊥ }
{
    let all = arguments_of(of)?;
    as_type(&all.first)
}

/// The type that is the only one of the arguments.
fn only_type<'f>(arguments: Option<&'f TypeArguments>) -> Option<TypeUse<'f>>
    ensures found { IfSome result (λ t. arguments_view (option_copied arguments.entry)
        ≡ next_argument (type_argument (use_view t)) no_arguments) }
    ensures none { IsNone result → (t : Plain) → arguments_view (option_copied arguments.entry)
        ≡ next_argument (type_argument t) no_arguments → ⊥ }
{
    let all = arguments?;
    match all.rest.split_first() {
        Some(_) => None,
        None => as_type(&all.first),
    }
}

/// The type that is the only argument of a type.
pub(crate) fn only_argument<'f>(of: TypeUse<'f>) -> Option<TypeUse<'f>>
    ensures found { IfSome result (λ t. arguments_in (use_view of.entry)
        ≡ next_argument (type_argument (use_view t)) no_arguments) }
    ensures none { IsNone result → (t : Plain) → arguments_in (use_view of.entry)
        ≡ next_argument (type_argument t) no_arguments → ⊥ }
{
    only_type(arguments_of(of))
}
