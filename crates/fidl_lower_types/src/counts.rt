//! The numbers of elements of arrays.
ghost use Rattle.std.specs.Prelude.{◌≡◌, ◌≤◌, ◌<◌, ◌^◌, ◌↔◌, ℕ, pos, [], length, IsTrue, IfOk};
ghost use Rattle.std.specs.Prelude.{IfSome, IsNone};
ghost use Rattle.fidl_tree.specs.Leaf.{text_at};
ghost use Rattle.fidl_span.specs.declared.words.Span.{Span as Place};
ghost use Rattle.fidl_tree.specs.Syntax.{Path as PlainPath, named_type, no_arguments};
ghost use Rattle.fidl_tree.specs.Syntax.{number_argument, type_argument};
ghost use Rattle.fidl_tree.specs.Views.{argument_view, path_view, type_view};
ghost use Rattle.fidl_consts.specs.declared.const_type.NumberKind.TheVariants as Kinds;
ghost use Rattle.fidl_consts.specs.declared.const_type.ConstType.TheVariants as Types;
ghost use Rattle.fidl_consts.specs.Literals.{number_of};
ghost use Rattle.fidl_consts.specs.PlainValues.{a_number, Suits};
ghost use Rattle.fidl_consts.specs.Values.{is_member, NameGives};
ghost use Rattle.fidl_constraints.specs.Gives.{InFile};
ghost use Rattle.fidl_lower_types.specs.Counts.{CountIs};
ghost use Rattle.fidl_lower_types.specs.TermViews.{AreKnown};

use crate::sources::Sources;
use fidl_constraints::amount_of;
use fidl_consts::{ConstType, number_value};
use fidl_named::Meaning;
use fidl_span::Span;
use fidl_tree::{File, Path, TypeArgument, TypeConstructor};
use std::alloc::AllocError;

/// The number that a word writes, from 1 on and of 32 bits.
fn word_count(file: &File<'_>, word: Span) -> Option<u32>
    ensures found { IfSome result (λ n. (n ≡ number_of (text_at file.now.src.now word))
        × ((1 ≤ n) × (n < 2 ^ 32))) }
    ensures none { IsNone result → 1 ≤ number_of (text_at file.now.src.now word)
        → number_of (text_at file.now.src.now word) < 2 ^ 32 → ⊥ }
{
    let value = number_value(file.text(word))?;
    if value < 1 || value > 4_294_967_295 {
        return None;
    }
    Some(value as u32)
}

/// Whether it is a member of bits or an enum.
fn is_member(meaning: Meaning) -> bool
    ensures { result ≡ is_member meaning }
{
    match meaning {
        Meaning::Member { .. } => true,
        Meaning::PropertyMember { .. } => true,
        Meaning::Predeclared(_) => false,
        Meaning::Declared(_) => false,
    }
}

/// Whether a value of a type may stand where a number is wanted.
fn suits(member: bool, own: ConstType) -> bool
    ensures { IsTrue result ↔ Suits member own (Types.Number Kinds.Uint32) }
{
    match own {
        ConstType::Number(_) => true,
        ConstType::Values(_) => member,
        ConstType::Bool => false,
        ConstType::String => false,
    }
}

/// The number that a name stands for, where one of 32 bits is wanted.
fn name_amount(
    sources: &Sources<'_, '_, '_>,
    file_index: usize,
    path: &Path,
) -> Result<Option<u32>, AllocError>
    requires within { file_index < length sources.now.named.now }
    requires known { AreKnown sources.now }
    ensures found { IfOk result (λ found. IfSome found (λ n. InFile sources.now.named.now file_index
        (λ f. NameGives sources.now.named.now f (path_view path.now) (Types.Number Kinds.Uint32)
        (a_number (pos n))))) }
    ensures none { IfOk result (λ found. IsNone found → (n : ℕ) → InFile sources.now.named.now
        file_index (λ f. NameGives sources.now.named.now f (path_view path.now)
        (Types.Number Kinds.Uint32) (a_number (pos n))) → ⊥) }
{
    let Some(meaning) = sources.named.value_meaning(file_index, path)? else {
        return Ok(None);
    };
    let Some(entry) = sources
        .consts
        .value_of(sources.alloc, sources.named, meaning)?
    else {
        return Ok(None);
    };
    if !suits(is_member(meaning), entry.own) {
        return Ok(None);
    }
    Ok(amount_of(&entry.value))
}

/// The name that a type is, without arguments and constraints.
fn bare_name(constructor: &TypeConstructor) -> Option<&Path>
    ensures found { IfSome result (λ p. type_view constructor.now
        ≡ named_type (path_view p.now) no_arguments []) }
    ensures none { IsNone result → (p : PlainPath)
        → type_view constructor.now ≡ named_type p no_arguments [] → ⊥ }
{
    match constructor {
        TypeConstructor::Named(named) => {
            if named.arguments.is_some() || named.constraints.is_some() {
                return None;
            }
            Some(&named.path)
        }
        TypeConstructor::Layout { .. } => None,
    }
}

/// The name that an argument is, without arguments and constraints.
fn bare_argument(argument: &TypeArgument) -> Option<&Path>
    ensures found { IfSome result (λ p. argument_view argument.now
        ≡ type_argument (named_type (path_view p.now) no_arguments [])) }
    ensures none { IsNone result → (p : PlainPath)
        → argument_view argument.now ≡ type_argument (named_type p no_arguments []) → ⊥ }
{
    match argument {
        TypeArgument::Type(constructor) => bare_name(constructor),
        TypeArgument::Number(_) => None,
    }
}

/// The number word that an argument is.
fn word_argument(argument: &TypeArgument) -> Option<Span>
    ensures found { IfSome result (λ s. argument_view argument.now ≡ number_argument s) }
    ensures none { IsNone result → (s : Place) → argument_view argument.now ≡ number_argument s
        → ⊥ }
{
    match argument {
        TypeArgument::Number(word) => Some(*word),
        TypeArgument::Type(_) => None,
    }
}

/// The number of elements that a name is.
fn name_count(
    sources: &Sources<'_, '_, '_>,
    file_index: usize,
    path: &Path,
) -> Result<Option<u32>, AllocError>
    requires within { file_index < length sources.now.named.now }
    requires known { AreKnown sources.now }
    ensures found { IfOk result (λ found. IfSome found (λ n. InFile sources.now.named.now file_index
        (λ f. CountIs sources.now.named.now f
        (type_argument (named_type (path_view path.now) no_arguments [])) n))) }
    ensures none { IfOk result (λ found. IsNone found → (n : ℕ) → InFile sources.now.named.now
        file_index (λ f. CountIs sources.now.named.now f
        (type_argument (named_type (path_view path.now) no_arguments [])) n) → ⊥) }
{
    let Some(count) = name_amount(sources, file_index, path)? else {
        return Ok(None);
    };
    if count < 1 {
        return Ok(None);
    }
    Ok(Some(count))
}

/// The number of elements that an argument is.
pub(crate) fn count_of(
    sources: &Sources<'_, '_, '_>,
    file_index: usize,
    argument: &TypeArgument,
) -> Result<Option<u32>, AllocError>
    requires within { file_index < length sources.now.named.now }
    requires known { AreKnown sources.now }
    ensures found { IfOk result (λ found. IfSome found (λ n. InFile sources.now.named.now file_index
        (λ f. CountIs sources.now.named.now f (argument_view argument.now) n))) }
    ensures none { IfOk result (λ found. IsNone found → (n : ℕ) → InFile sources.now.named.now
        file_index (λ f. CountIs sources.now.named.now f (argument_view argument.now) n) → ⊥) }
{
    if let Some(word) = word_argument(argument) {
        return Ok(word_count(sources.named.file(file_index), word));
    }
    match bare_argument(argument) {
        None => Ok(None),
        Some(path) => name_count(sources, file_index, path),
    }
}
