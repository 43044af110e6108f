//! What the places of types ask of them.
ghost use Rattle.std.specs.Prelude.{◌≡◌, ◌<◌, ◌↔◌, length, true, IfOk, IsTrue};
ghost use Rattle.fidl_constraints.specs.BehindViews.{head_view, use_view};
ghost use Rattle.fidl_declarations.specs.SiteViews.{role_view};
ghost use Rattle.fidl_type_rules.specs.Places.{WantsType, is_complete, is_bare, is_served, role_suits};
ghost use Rattle.fidl_type_rules.specs.Places.{is_present, presence_suits};

use crate::used::Used;
use crate::words::word_at;
use fidl_constraints::{Head, Parts, TypeUse};
use fidl_declarations::Role;
use fidl_lower_types::Sources;
use fidl_named::Predeclared;
use std::alloc::AllocError;

/// Whether a type is wanted at the place, and no number.
pub(crate) fn wants_type(sources: &Sources<'_, '_, '_>, used: Used<'_>) -> Result<bool, AllocError>
    requires { used.file_index < length sources.now.named.now }
    ensures { IfOk result (λ b. IsTrue b
        ↔ WantsType sources.now.named.now used.entry.file_index (role_view used.entry.role)) }
{
    match used.role {
        Role::SecondArgument(head) => match word_at(sources, used.file_index, head)? {
            Some(Predeclared::Array) => Ok(false),
            _ => Ok(true),
        },
        Role::Any | Role::Aliased | Role::Bare | Role::Present | Role::Service => Ok(true),
    }
}

/// Whether an end has its protocol.
fn is_complete(head: Head<'_>, parts: &Parts) -> bool
    ensures { result ≡ is_complete (head_view head.entry) parts.now.list.items }
{
    match head {
        Head::Word { name, .. } => match name {
            Predeclared::ClientEnd | Predeclared::ServerEnd => parts.has_protocol(),
            _ => true,
        },
        Head::Layout(_) => true,
        Head::Handle(_) => true,
    }
}

/// Whether a type is written with neither arguments nor constraints.
fn is_bare(of: TypeUse<'_>) -> bool
    ensures { result ≡ is_bare (use_view of.entry) }
{
    match of {
        TypeUse::Named(named) => named.arguments.is_none() && named.constraints.is_none(),
        TypeUse::Written { constraints, .. } => constraints.is_none(),
    }
}

/// Whether a type may be a member of a service.
fn is_served(head: Head<'_>, parts: &Parts) -> bool
    ensures { result ≡ is_served (head_view head.entry) parts.now.list.items }
{
    match head {
        Head::Word { name, .. } => match name {
            Predeclared::ClientEnd => !parts.is_optional() && parts.has_protocol(),
            _ => false,
        },
        Head::Layout(_) => false,
        Head::Handle(_) => false,
    }
}

/// Whether a type suits its place, by what it is behind its aliases and what its constraints give.
pub(crate) fn role_suits(used: Used<'_>, head: Head<'_>, parts: &Parts) -> bool
    ensures { result ≡ role_suits (role_view used.entry.role) (use_view used.entry.of)
        (head_view head.entry) parts.now.list.items }
{
    match used.role {
        Role::Aliased => true,
        Role::Bare => is_bare(used.of) && is_complete(head, parts),
        Role::Service => is_served(head, parts),
        Role::Any => is_complete(head, parts),
        Role::Present => is_complete(head, parts),
        Role::SecondArgument(_) => is_complete(head, parts),
    }
}

/// Whether a type is never absent.
fn is_present(head: Head<'_>, parts: &Parts) -> bool
    ensures { result ≡ is_present (head_view head.entry) parts.now.list.items }
{
    match head {
        Head::Word { name, .. } => match name {
            Predeclared::Box => false,
            _ => !parts.is_optional(),
        },
        Head::Layout(_) => !parts.is_optional(),
        Head::Handle(_) => !parts.is_optional(),
    }
}

/// Whether a type is never absent where its place asks for that.
pub(crate) fn presence_suits(role: Role<'_>, head: Head<'_>, parts: &Parts) -> bool
    ensures { result ≡ presence_suits (role_view role.entry) (head_view head.entry)
        parts.now.list.items }
{
    match role {
        Role::Present => is_present(head, parts),
        Role::Any | Role::Aliased | Role::Bare | Role::Service => true,
        Role::SecondArgument(_) => true,
    }
}
