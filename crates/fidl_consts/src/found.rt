//! The declarations of ids.
ghost use Rattle.std.specs.Prelude.{◌≡◌, Some, IfSome, IsNone};
ghost use Rattle.std.specs.Prelude.{option_copied};
ghost use Rattle.fidl_tree.specs.declared.file.File.{File as Tree};
ghost use Rattle.fidl_tree.specs.declared.declaration.Declaration.{Declaration as Node};
ghost use Rattle.fidl_tree.specs.declared.declaration.AliasDeclaration.{AliasDeclaration as AliasNode};
ghost use Rattle.fidl_tree.specs.declared.declaration.ConstDeclaration.{ConstDeclaration as ConstNode};
ghost use Rattle.fidl_tree.specs.declared.type_constructor.ValuesLayout.{ValuesLayout as LayoutNode};
ghost use Rattle.fidl_tree.specs.declared.value_member.ValueMember.{ValueMember as MemberNode};
ghost use Rattle.fidl_named.specs.Aliases.{IsAliasAt};
ghost use Rattle.fidl_named.specs.Constraints.{IsDeclarationAt};
ghost use Rattle.fidl_consts.specs.Types.{IsConstAt, values_in, written_values, declared_values};
ghost use Rattle.fidl_consts.specs.Types.{IsValuesAt, IsMemberOf, IsPropertyValues};

use fidl_named::{DeclarationId, Named};
use fidl_tree::{
    AliasDeclaration, ConstDeclaration, Declaration, DeclarationBody, File, LayoutBody,
    TypeConstructor, ValueMember, ValuesLayout,
};

/// A declaration with its file.
#[derive(Clone, Copy, Drop)]
pub struct FoundDeclaration<'f, 's> {
    pub file: &'f File<'s>,
    pub declaration: &'f Declaration,
}

/// The declaration of an id.
pub fn declaration_at<'f, 's>(
    named: &Named<'f, 's>,
    id: DeclarationId,
) -> Option<FoundDeclaration<'f, 's>>
    ensures found { IfSome result (λ x. IsDeclarationAt named.now id x.file.now x.declaration.now) }
    ensures none { IsNone result → (f : Tree) (d : Node) → IsDeclarationAt named.now id f d → ⊥ }
{
    if id.file >= named.count() {
        return None;
    }
    let file = named.file(id.file);
    let declaration = file.declarations.get(id.index)?;
    Some(FoundDeclaration { file, declaration })
}

/// A constant with its file.
#[derive(Clone, Copy, Drop)]
pub struct FoundConst<'f, 's> {
    pub file: &'f File<'s>,
    pub constant: &'f ConstDeclaration,
}

/// The constant of an id.
pub fn const_at<'f, 's>(named: &Named<'f, 's>, id: DeclarationId) -> Option<FoundConst<'f, 's>>
    ensures found { IfSome result (λ x. IsConstAt named.now id x.file.now x.constant.now) }
    ensures none { IsNone result → (f : Tree) (c : ConstNode) → IsConstAt named.now id f c
        → ⊥ }
{
    let found = declaration_at(named, id)?;
    match &found.declaration.body {
        DeclarationBody::Const(constant) => Some(FoundConst {
            file: found.file,
            constant,
        }),
        _ => None,
    }
}

/// An alias with its file.
#[derive(Clone, Copy, Drop)]
pub struct FoundAlias<'f, 's> {
    pub file: &'f File<'s>,
    pub alias: &'f AliasDeclaration,
}

/// The alias of an id.
pub fn alias_at<'f, 's>(named: &Named<'f, 's>, id: DeclarationId) -> Option<FoundAlias<'f, 's>>
    ensures found { IfSome result (λ x. IsAliasAt named.now id x.file.now x.alias.now) }
    ensures none { IsNone result → (f : Tree) (a : AliasNode) → IsAliasAt named.now id f a
        → ⊥ }
{
    let found = declaration_at(named, id)?;
    match &found.declaration.body {
        DeclarationBody::Alias(alias) => Some(FoundAlias {
            file: found.file,
            alias,
        }),
        _ => None,
    }
}

/// The bits or the enum that a layout is.
fn values_in(body: &LayoutBody) -> Option<&ValuesLayout>
    ensures { option_copied result ≡ values_in body.now }
{
    match body {
        LayoutBody::Values(layout) => Some(layout),
        LayoutBody::Struct(_) | LayoutBody::Table(_) | LayoutBody::Union(_) => None,
    }
}

/// The bits or the enum that a type is written as.
pub fn written_values(constructor: &TypeConstructor) -> Option<&ValuesLayout>
    ensures { option_copied result ≡ written_values constructor.now }
{
    match constructor {
        TypeConstructor::Layout { layout, .. } => values_in(&layout.body),
        TypeConstructor::Named(_) => None,
    }
}

/// The bits or the enum that a declaration is written as.
pub fn declared_values(body: &DeclarationBody) -> Option<&ValuesLayout>
    ensures { option_copied result ≡ declared_values body.now }
{
    match body {
        DeclarationBody::Type(declaration) => values_in(&declaration.layout.body),
        DeclarationBody::Alias(declaration) => written_values(&declaration.constructor),
        _ => None,
    }
}

/// Bits or an enum with their file.
#[derive(Clone, Copy, Drop)]
pub struct FoundValues<'f, 's> {
    pub file: &'f File<'s>,
    pub layout: &'f ValuesLayout,
}

/// The bits or the enum of a declaration's id.
pub fn values_at<'f, 's>(named: &Named<'f, 's>, id: DeclarationId) -> Option<FoundValues<'f, 's>>
    ensures found { IfSome result (λ x. IsValuesAt named.now id x.file.now x.layout.now) }
    ensures none { IsNone result → (f : Tree) (l : LayoutNode) → IsValuesAt named.now id f l
        → ⊥ }
{
    let found = declaration_at(named, id)?;
    let layout = declared_values(&found.declaration.body)?;
    Some(FoundValues {
        file: found.file,
        layout,
    })
}

/// The bits or the enum that a property of the resource definition of an id is written as.
pub fn property_values_at<'f, 's>(
    named: &Named<'f, 's>,
    id: DeclarationId,
    number: usize,
) -> Option<FoundValues<'f, 's>>
    ensures found { IfSome result (λ x. IsPropertyValues named.now id number x.file.now
        x.layout.now) }
    ensures none { IsNone result → (f : Tree) (l : LayoutNode)
        → IsPropertyValues named.now id number f l → ⊥ }
{
    let found = declaration_at(named, id)?;
    let DeclarationBody::Resource(definition) = &found.declaration.body else {
        return None;
    };
    let property = definition.properties.members.get(number)?;
    let layout = written_values(&property.constructor)?;
    Some(FoundValues {
        file: found.file,
        layout,
    })
}

/// A member of bits or an enum, with its layout and file.
#[derive(Clone, Copy, Drop)]
pub struct FoundMember<'f, 's> {
    pub file: &'f File<'s>,
    pub layout: &'f ValuesLayout,
    pub member: &'f ValueMember,
}

/// A member of the bits or the enum of a declaration's id.
pub fn member_at<'f, 's>(
    named: &Named<'f, 's>,
    id: DeclarationId,
    number: usize,
) -> Option<FoundMember<'f, 's>>
    ensures layout { IfSome result (λ x. IsValuesAt named.now id x.file.now x.layout.now) }
    ensures member { IfSome result (λ x. IsMemberOf x.layout.now number x.member.now) }
    ensures none { IsNone result → (f : Tree) (l : LayoutNode) (m : MemberNode)
        → IsValuesAt named.now id f l → IsMemberOf l number m → ⊥ }
{
    let found = values_at(named, id)?;
    let member = found.layout.members.get(number)?;
    Some(FoundMember {
        file: found.file,
        layout: found.layout,
        member,
    })
}
