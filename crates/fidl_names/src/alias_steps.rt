//! Aliases, and what they lead to at once.
ghost use Rattle.std.specs.Prelude.{◌≡◌, IsNone, IfSome, IfOk};
ghost use Rattle.fidl_tree.specs.declared.file.File.{File as Tree};
ghost use Rattle.fidl_tree.specs.declared.declaration.AliasDeclaration.{AliasDeclaration as Node};
ghost use Rattle.fidl_tree.specs.declared.declaration.DeclarationBody.TheVariants as Body;
ghost use Rattle.fidl_named.specs.declared.meaning.Meaning.TheVariants as Given;
ghost use Rattle.fidl_named.specs.Aliases.{IsAliasAt, Follows};
ghost use Rattle.fidl_named.specs.Meanings.{IsJust};
ghost use Rattle.fidl_named.specs.FullNames.{HasDeclaration};

use fidl_named::{DeclarationId, FileScope, FileSet, Meaning, SetScope, read_type};
use fidl_tree::{AliasDeclaration, DeclarationBody, File, TypeConstructor};
use std::alloc::AllocError;

/// An alias, with its file.
#[derive(Clone, Copy, Drop)]
pub(crate) struct FoundAlias<'f, 's> {
    pub file: &'f File<'s>,
    pub alias: &'f AliasDeclaration,
}

/// The alias, if it is one.
fn as_alias(body: &DeclarationBody) -> Option<&AliasDeclaration>
    ensures some { IfSome result (λ a. body.now ≡ Body.Alias a.now) }
    ensures none { IsNone result → (a : Node) → body.now ≡ Body.Alias a → ⊥ }
{
    match body {
        DeclarationBody::Alias(alias) => Some(alias),
        DeclarationBody::Const(_)
        | DeclarationBody::Type(_)
        | DeclarationBody::Protocol(_)
        | DeclarationBody::Service(_)
        | DeclarationBody::Resource(_) => None,
    }
}

/// The alias of this id.
pub(crate) fn alias_at<'f, 's>(
    set: &FileSet<'f, 's>,
    id: DeclarationId,
) -> Option<FoundAlias<'f, 's>>
    requires { HasDeclaration set.now id }
    ensures found { IfSome result (λ x. IsAliasAt set.now id x.file.now x.alias.now) }
    ensures none { IsNone result → (f : Tree) (a : Node) → IsAliasAt set.now id f a → ⊥ }
{
    let file = set.file(id.file);
    match as_alias(&file.declarations[id.index].body) {
        None => None,
        Some(alias) => Some(FoundAlias { file, alias }),
    }
}

/// What the name of an alias's type means, if anything.
pub(crate) fn next_meaning(
    names: &SetScope<'_, '_, '_>,
    id: DeclarationId,
) -> Result<Option<Meaning>, AllocError>
    requires { HasDeclaration names.now.set.now id }
    ensures { IfOk result (IsJust (Follows names.now.set.now (Given.Declared id))) }
{
    match alias_at(names.set, id) {
        None => Ok(None),
        Some(found) => match &found.alias.constructor {
            TypeConstructor::Layout { .. } => Ok(None),
            TypeConstructor::Named(named) => {
                let scope = FileScope {
                    names: *names,
                    file_index: id.file,
                    file: found.file,
                };
                read_type(&scope, &named.path)
            }
        },
    }
}
