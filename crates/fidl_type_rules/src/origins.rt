//! What types are made of: where the fault of a type lies that isn't proper.
ghost use Rattle.std.specs.Prelude.{◌≡◌, ◌<◌, ℕ, Some, length, IfOk, IfSome, IsNone};
ghost use Rattle.fidl_tree.specs.Syntax.{TypeUse as Plain};
ghost use Rattle.fidl_constraints.specs.Behind.{RefersTo, follows};
ghost use Rattle.fidl_constraints.specs.BehindViews.{use_view};
ghost use Rattle.fidl_lower_types.specs.TermViews.{AreKnown};
ghost use Rattle.fidl_type_rules.specs.Words.{arguments_in};
ghost use Rattle.fidl_type_rules.specs.Made.{first_type, HasTerm, IsOfTerms};
ghost use Rattle.fidl_type_rules.specs.Standing.{Stands, IsImproperThere};

use crate::judging::has_term;
use crate::used::Used;
use crate::words::first_argument;
use fidl_constraints::{Target, refers_to};
use fidl_declarations::Role;
use fidl_lower_types::{Node, Sources, node_of};
use std::alloc::AllocError;

/// The type of the alias that a type names.
fn aliased<'f>(
    sources: &Sources<'_, 'f, '_>,
    used: Used<'f>,
) -> Result<Option<Used<'f>>, AllocError>
    requires within { used.file_index < length sources.now.named.now }
    ensures within { IfOk result (λ found. IfSome found
        (λ o. o.file_index < length sources.now.named.now)) }
    ensures stands { IfOk result (λ found. IfSome found (Stands sources.now.named.now)) }
    ensures found { IfOk result (λ found. IfSome found (λ o. RefersTo sources.now.named.now
        used.entry.file_index (use_view used.entry.of) (follows o.file_index (use_view o.of)))) }
    ensures none { IfOk result (λ found. IsNone found → (n : ℕ) (u : Plain) → RefersTo
        sources.now.named.now used.entry.file_index (use_view used.entry.of) (follows n u) → ⊥) }
{
    match refers_to(sources.named, used.file_index, used.of)? {
        Some(Target::Follows { file_index, next }) => Ok(Some(Used {
            file_index,
            role: Role::Aliased,
            of: next,
        })),
        Some(Target::Ends { .. }) => Ok(None),
        None => Ok(None),
    }
}

/// The same, if it has no term.
fn aliased_without_term<'f>(
    sources: &Sources<'_, 'f, '_>,
    used: Used<'f>,
) -> Result<Option<Used<'f>>, AllocError>
    requires within { used.file_index < length sources.now.named.now }
    requires known { AreKnown sources.now }
    ensures within { IfOk result (λ found. IfSome found
        (λ o. o.file_index < length sources.now.named.now)) }
    ensures stands { IfOk result (λ found. IfSome found (Stands sources.now.named.now)) }
    ensures without { IfOk result (λ found. IfSome found
        (λ o. HasTerm sources.now.named.now o.file_index (use_view o.of) → ⊥)) }
    ensures none { IfOk result (λ found. IsNone found → (n : ℕ) (u : Plain) → RefersTo
        sources.now.named.now used.entry.file_index (use_view used.entry.of) (follows n u)
        → HasTerm sources.now.named.now n u) }
{
    match aliased(sources, used)? {
        None => Ok(None),
        Some(origin) => {
            if has_term(sources, origin.file_index, origin.of)? {
                return Ok(None);
            }
            Ok(Some(origin))
        }
    }
}

/// The first argument of a type, if it is a type without a term.
fn argument_without_term<'f>(
    sources: &Sources<'_, 'f, '_>,
    used: Used<'f>,
) -> Result<Option<Used<'f>>, AllocError>
    requires within { used.file_index < length sources.now.named.now }
    requires known { AreKnown sources.now }
    requires stands { Stands sources.now.named.now used }
    ensures within { IfOk result (λ found. IfSome found
        (λ o. o.file_index < length sources.now.named.now)) }
    ensures stands { IfOk result (λ found. IfSome found (Stands sources.now.named.now)) }
    ensures without { IfOk result (λ found. IfSome found
        (λ o. HasTerm sources.now.named.now o.file_index (use_view o.of) → ⊥)) }
    ensures none { IfOk result (λ found. IsNone found → (u : Plain)
        → first_type (arguments_in (use_view used.entry.of)) ≡ Some u
        → HasTerm sources.now.named.now used.entry.file_index u) }
{
    match first_argument(used.of) {
        None => Ok(None),
        Some(argument) => {
            if has_term(sources, used.file_index, argument)? {
                return Ok(None);
            }
            Ok(Some(Used {
                file_index: used.file_index,
                role: Role::Any,
                of: argument,
            }))
        }
    }
}

/// What a type is made of that has no term, if some of it has none.
fn without_term<'f>(
    sources: &Sources<'_, 'f, '_>,
    used: Used<'f>,
) -> Result<Option<Used<'f>>, AllocError>
    requires within { used.file_index < length sources.now.named.now }
    requires known { AreKnown sources.now }
    requires stands { Stands sources.now.named.now used }
    ensures within { IfOk result (λ found. IfSome found
        (λ o. o.file_index < length sources.now.named.now)) }
    ensures stands { IfOk result (λ found. IfSome found (Stands sources.now.named.now)) }
    ensures without { IfOk result (λ found. IfSome found
        (λ o. HasTerm sources.now.named.now o.file_index (use_view o.of) → ⊥)) }
    ensures none { IfOk result (λ found. IsNone found → IsOfTerms sources.now.named.now
        used.entry.file_index (use_view used.entry.of)) }
{
    match aliased_without_term(sources, used)? {
        Some(origin) => Ok(Some(origin)),
        None => argument_without_term(sources, used),
    }
}

/// Where the fault lies of a type that isn't proper: that type itself, or what it is made of, as
/// deep as that has no term.
pub(crate) fn culprit_of<'f>(
    sources: &Sources<'_, 'f, '_>,
    used: Used<'f>,
) -> Result<Used<'f>, AllocError>
    requires within { used.file_index < length sources.now.named.now }
    requires known { AreKnown sources.now }
    requires stands { Stands sources.now.named.now used }
    requires improper { IsImproperThere sources.now.named.now used }
    ensures within { IfOk result (λ o. o.file_index < length sources.now.named.now) }
    ensures stands { IfOk result (Stands sources.now.named.now) }
    ensures improper { IfOk result (IsImproperThere sources.now.named.now) }
    ensures made { IfOk result (λ o. IsOfTerms sources.now.named.now o.file_index
        (use_view o.of)) }
{
    let mut way = Vec::new(sources.alloc);
    let mut current = used;
    'origins: loop {
        match without_term(sources, current)? {
            None => return Ok(current),
            Some(origin) => {
                way.push(current.file_index)?;
                current = origin;
            }
        }
    }
}

/// What a type holds, if it holds elements; nothing where the type is nothing at once.
fn element_of<'f>(
    sources: &Sources<'_, 'f, '_>,
    used: Used<'f>,
) -> Result<Option<Option<Used<'f>>>, AllocError>
    requires within { used.file_index < length sources.now.named.now }
    requires known { AreKnown sources.now }
    requires stands { Stands sources.now.named.now used }
    ensures within { IfOk result (λ found. IfSome found (λ element. IfSome element
        (λ o. o.file_index < length sources.now.named.now))) }
    ensures stands { IfOk result (λ found. IfSome found (λ element. IfSome element
        (Stands sources.now.named.now))) }
    ensures nothing { IfOk result (λ found. IsNone found
        → HasTerm sources.now.named.now used.entry.file_index (use_view used.entry.of) → ⊥) }
{
    match node_of(sources, used.file_index, used.of)? {
        None => Ok(None),
        Some(Node::Leaf(_last)) => Ok(Some(None)),
        Some(
            Node::Elements {
                file_index,
                next,
                shape: _shape,
            },
        ) => Ok(Some(Some(Used {
            file_index,
            role: Role::Any,
            of: next,
        }))),
    }
}

/// The first of a type and its elements that is nothing at once, or that type itself where there is
/// none.
pub(crate) fn failing<'f>(
    sources: &Sources<'_, 'f, '_>,
    used: Used<'f>,
) -> Result<Used<'f>, AllocError>
    requires within { used.file_index < length sources.now.named.now }
    requires known { AreKnown sources.now }
    requires stands { Stands sources.now.named.now used }
    requires improper { IsImproperThere sources.now.named.now used }
    ensures within { IfOk result (λ o. o.file_index < length sources.now.named.now) }
    ensures stands { IfOk result (Stands sources.now.named.now) }
    ensures improper { IfOk result (IsImproperThere sources.now.named.now) }
{
    let mut way = Vec::new(sources.alloc);
    let mut current = used;
    'elements: loop {
        match element_of(sources, current)? {
            None => return Ok(current),
            Some(None) => return Ok(used),
            Some(Some(element)) => {
                way.push(current.file_index)?;
                current = element;
            }
        }
    }
}
