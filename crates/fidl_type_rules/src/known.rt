//! Which types have terms, where each alias on the way is followed only once.
ghost use Rattle.std.specs.Prelude.{◌≡◌, ◌<◌, ◌⊎◌, ℕ, List, Some, length, IfOk, IfSome, IsTrue, OnOk};
ghost use Rattle.std.specs.List.{Contains};
ghost use Rattle.fidl_tree.specs.Syntax.{TypeUse as Plain};
ghost use Rattle.fidl_tree.specs.declared.file.File.{File as Tree};
ghost use Rattle.fidl_named.specs.declared.place.DeclarationId.{DeclarationId as Id};
ghost use Rattle.fidl_constraints.specs.BehindViews.{use_view};
ghost use Rattle.fidl_lower_types.specs.declared.node.Shape.{Shape};
ghost use Rattle.fidl_lower_types.specs.Terms.{holds, NodeIs};
ghost use Rattle.fidl_lower_types.specs.TermViews.{node_view, AreKnown};
ghost use Rattle.fidl_type_rules.specs.Made.{HasTerm};
ghost use Rattle.fidl_type_rules.specs.Known.{IsNameOf, IsKnownAlias, AreKnownAliases};

use fidl_constraints::TypeUse;
use fidl_lower_types::{Node, Sources, node_of};
use fidl_named::{DeclarationId, Meaning};
use indexmap::IndexSet;
use std::alloc::AllocError;

/// Aliases whose elements are known to have terms, each by the number of its file and its place
/// there.
pub(crate) type Aliases = IndexSet<(usize, usize)>;

/// The declaration that the name of a type means.
fn owner_of(
    sources: &Sources<'_, '_, '_>,
    file_index: usize,
    of: TypeUse<'_>,
) -> Result<Option<DeclarationId>, AllocError>
    requires { file_index < length sources.now.named.now }
    ensures { IfOk result (λ found. IfSome found
        (IsNameOf sources.now.named.now file_index (use_view of.entry))) }
{
    match of {
        TypeUse::Named(named) => match sources.named.type_meaning(file_index, &named.path)? {
            Some(Meaning::Declared(id)) => Ok(Some(id)),
            _ => Ok(None),
        },
        TypeUse::Written { .. } => Ok(None),
    }
}

/// Whether a declaration is one of the aliases.
fn is_known(known: &Aliases, owner: Option<DeclarationId>) -> bool
    ensures { IsTrue result → (p : Id) × (owner ≡ Some p)
        × Contains known.now.keys (p.file, p.index) }
{
    match owner {
        None => false,
        Some(id) => known.contains(&(id.file, id.index)),
    }
}

/// Appends a declaration, if there is one.
fn push_owner(way: &mut Vec<DeclarationId>, owner: Option<DeclarationId>) -> Result<(), AllocError>
    ensures { OnOk result ((p : Id) → Contains way.new.items p
        → Contains way.old.items p ⊎ (owner ≡ Some p)) }
{
    if let Some(id) = owner {
        way.push(id)?;
    }
    Ok(())
}

/// Adds aliases.
fn learn(known: &mut Aliases, way: &[DeclarationId]) -> Result<(), AllocError>
    ensures { OnOk result ((files : List Tree) → AreKnownAliases files known.old.keys
        → ((p : Id) → Contains way.now p → IsKnownAlias files p)
        → AreKnownAliases files known.new.keys) }
{
    for id in way {
        known.insert((id.file, id.index))?;
    }
    Ok(())
}

/// Whether a type in the file of this number has a term. Learns of the aliases on the way, and goes
/// no further than to one that is known.
fn follow<'f>(
    sources: &Sources<'_, 'f, '_>,
    known: &mut Aliases,
    file_index: usize,
    of: TypeUse<'f>,
) -> Result<bool, AllocError>
    requires within { file_index < length sources.now.named.now }
    requires known { AreKnown sources.now }
    requires aliases { AreKnownAliases sources.now.named.now known.old.keys }
    ensures yes { IfOk result (λ b. IsTrue b
        → HasTerm sources.now.named.now file_index (use_view of.entry)) }
    ensures no { IfOk result (λ b. HasTerm sources.now.named.now file_index (use_view of.entry)
        → IsTrue b) }
    ensures aliases { OnOk result (AreKnownAliases sources.now.named.now known.new.keys) }
{
    let mut way = Vec::new(sources.alloc);
    let mut at = file_index;
    let mut current = of;
    'elements: for _element in 0..u64::MAX {
        let owner = owner_of(sources, at, current)?;
        match node_of(sources, at, current)? {
            None => return Ok(false),
            Some(Node::Leaf(_last)) => {
                learn(known, &way)?;
                return Ok(true);
            }
            Some(
                Node::Elements {
                    file_index,
                    next,
                    shape: _shape,
                },
            ) => {
                if is_known(known, owner) {
                    learn(known, &way)?;
                    return Ok(true);
                }
                push_owner(&mut way, owner)?;
                at = file_index;
                current = next;
            }
        }
    }
    // No memory holds as many types.
    Err(AllocError)
}

/// Whether a type has a term that is this at once.
pub(crate) fn node_has_term<'f>(
    sources: &Sources<'_, 'f, '_>,
    known: &mut Aliases,
    node: Node<'f>,
) -> Result<bool, AllocError>
    requires within { (number : ℕ) (t : Plain) (shape : Shape)
        → node_view node ≡ holds number t shape → number < length sources.now.named.now }
    requires known { AreKnown sources.now }
    requires aliases { AreKnownAliases sources.now.named.now known.old.keys }
    ensures yes { IfOk result (λ b. IsTrue b → (number : ℕ) (t : Plain)
        → NodeIs sources.now.named.now number t (node_view node.entry)
        → HasTerm sources.now.named.now number t) }
    ensures no { IfOk result (λ b. (number : ℕ) (t : Plain)
        → NodeIs sources.now.named.now number t (node_view node.entry)
        → HasTerm sources.now.named.now number t → IsTrue b) }
    ensures aliases { OnOk result (AreKnownAliases sources.now.named.now known.new.keys) }
{
    match node {
        Node::Leaf(_last) => Ok(true),
        Node::Elements {
            file_index,
            next,
            shape: _shape,
        } => follow(sources, known, file_index, next),
    }
}
