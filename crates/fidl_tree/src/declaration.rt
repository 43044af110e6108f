ghost use Rattle.fidl_tree.specs.Declaration.{declaration_leaves, declaration_body_leaves};
ghost use Rattle.fidl_tree.specs.Declaration.{const_leaves, alias_leaves, type_declaration_leaves};
ghost use Rattle.fidl_tree.specs.Declaration.{protocol_leaves, service_leaves};
ghost use Rattle.fidl_tree.specs.Declaration.{resource_definition_leaves, properties_leaves};
ghost use Rattle.fidl_tree.specs.Declaration.{property_leaves};

use crate::attribute::Attribute;
use crate::keyword::Openness;
use crate::production::{Production, push_all, push_optional, push_word};
use crate::protocol::ProtocolMember;
use crate::type_constructor::{Layout, Member, TypeConstructor};
use crate::value::Value;
use fidl_span::{Span, Word, WordKind};
use std::alloc::AllocError;

/// A declaration with its attributes.
#[derive(Drop)]
pub struct Declaration {
    pub attributes: Vec<Attribute>,
    pub body: DeclarationBody,
    pub semicolon: Span,
}

/// What is declared.
#[derive(Drop)]
pub enum DeclarationBody {
    Const(ConstDeclaration),
    Alias(AliasDeclaration),
    Type(TypeDeclaration),
    Protocol(ProtocolDeclaration),
    Service(ServiceDeclaration),
    Resource(ResourceDefinition),
}

/// A constant: its name, its type and its value.
#[derive(Drop)]
pub struct ConstDeclaration {
    pub keyword: Span,
    pub name: Span,
    pub constructor: TypeConstructor,
    pub equals: Span,
    pub value: Value,
}

/// An alias of a type.
#[derive(Drop)]
pub struct AliasDeclaration {
    pub keyword: Span,
    pub name: Span,
    pub equals: Span,
    pub constructor: TypeConstructor,
}

/// A layout with a name.
#[derive(Drop)]
pub struct TypeDeclaration {
    pub keyword: Span,
    pub name: Span,
    pub equals: Span,
    pub layout: Layout,
}

/// A protocol and its members.
#[derive(Drop)]
pub struct ProtocolDeclaration {
    pub openness: Option<Openness>,
    pub keyword: Span,
    pub name: Span,
    pub left: Span,
    pub members: Vec<ProtocolMember>,
    pub right: Span,
}

/// A service and its members.
#[derive(Drop)]
pub struct ServiceDeclaration {
    pub keyword: Span,
    pub name: Span,
    pub left: Span,
    pub members: Vec<Member>,
    pub right: Span,
}

/// A resource definition: its name, its type and its properties.
#[derive(Drop)]
pub struct ResourceDefinition {
    pub keyword: Span,
    pub name: Span,
    pub colon: Span,
    pub constructor: TypeConstructor,
    pub left: Span,
    pub properties: Properties,
    pub right: Span,
}

/// The properties of a resource definition.
#[derive(Drop)]
pub struct Properties {
    pub keyword: Span,
    pub left: Span,
    pub members: Vec<Property>,
    pub right: Span,
    pub semicolon: Span,
}

/// A property: a name and a type.
#[derive(Drop)]
pub struct Property {
    pub name: Span,
    pub constructor: TypeConstructor,
    pub semicolon: Span,
}

impl Production for Declaration {
    ghost leaves = { declaration_leaves };

    fn push_words(&self, out: &mut Vec<Word>) -> Result<(), AllocError> {
        push_all(out, &self.attributes)?;
        self.body.push_words(out)?;
        push_word(out, WordKind::Semicolon, self.semicolon)
    }
}

impl Production for DeclarationBody {
    ghost leaves = { declaration_body_leaves };

    fn push_words(&self, out: &mut Vec<Word>) -> Result<(), AllocError> {
        match self {
            DeclarationBody::Const(declaration) => declaration.push_words(out),
            DeclarationBody::Alias(declaration) => declaration.push_words(out),
            DeclarationBody::Type(declaration) => declaration.push_words(out),
            DeclarationBody::Protocol(declaration) => declaration.push_words(out),
            DeclarationBody::Service(declaration) => declaration.push_words(out),
            DeclarationBody::Resource(definition) => definition.push_words(out),
        }
    }
}

impl Production for ConstDeclaration {
    ghost leaves = { const_leaves };

    fn push_words(&self, out: &mut Vec<Word>) -> Result<(), AllocError> {
        push_word(out, WordKind::Identifier, self.keyword)?;
        push_word(out, WordKind::Identifier, self.name)?;
        self.constructor.push_words(out)?;
        push_word(out, WordKind::Equals, self.equals)?;
        self.value.push_words(out)
    }
}

impl Production for AliasDeclaration {
    ghost leaves = { alias_leaves };

    fn push_words(&self, out: &mut Vec<Word>) -> Result<(), AllocError> {
        push_word(out, WordKind::Identifier, self.keyword)?;
        push_word(out, WordKind::Identifier, self.name)?;
        push_word(out, WordKind::Equals, self.equals)?;
        self.constructor.push_words(out)
    }
}

impl Production for TypeDeclaration {
    ghost leaves = { type_declaration_leaves };

    fn push_words(&self, out: &mut Vec<Word>) -> Result<(), AllocError> {
        push_word(out, WordKind::Identifier, self.keyword)?;
        push_word(out, WordKind::Identifier, self.name)?;
        push_word(out, WordKind::Equals, self.equals)?;
        self.layout.push_words(out)
    }
}

impl Production for ProtocolDeclaration {
    ghost leaves = { protocol_leaves };

    fn push_words(&self, out: &mut Vec<Word>) -> Result<(), AllocError> {
        push_optional(out, &self.openness)?;
        push_word(out, WordKind::Identifier, self.keyword)?;
        push_word(out, WordKind::Identifier, self.name)?;
        push_word(out, WordKind::LeftBrace, self.left)?;
        push_all(out, &self.members)?;
        push_word(out, WordKind::RightBrace, self.right)
    }
}

impl Production for ServiceDeclaration {
    ghost leaves = { service_leaves };

    fn push_words(&self, out: &mut Vec<Word>) -> Result<(), AllocError> {
        push_word(out, WordKind::Identifier, self.keyword)?;
        push_word(out, WordKind::Identifier, self.name)?;
        push_word(out, WordKind::LeftBrace, self.left)?;
        push_all(out, &self.members)?;
        push_word(out, WordKind::RightBrace, self.right)
    }
}

impl Production for ResourceDefinition {
    ghost leaves = { resource_definition_leaves };

    fn push_words(&self, out: &mut Vec<Word>) -> Result<(), AllocError> {
        push_word(out, WordKind::Identifier, self.keyword)?;
        push_word(out, WordKind::Identifier, self.name)?;
        push_word(out, WordKind::Colon, self.colon)?;
        self.constructor.push_words(out)?;
        push_word(out, WordKind::LeftBrace, self.left)?;
        self.properties.push_words(out)?;
        push_word(out, WordKind::RightBrace, self.right)
    }
}

impl Production for Properties {
    ghost leaves = { properties_leaves };

    fn push_words(&self, out: &mut Vec<Word>) -> Result<(), AllocError> {
        push_word(out, WordKind::Identifier, self.keyword)?;
        push_word(out, WordKind::LeftBrace, self.left)?;
        push_all(out, &self.members)?;
        push_word(out, WordKind::RightBrace, self.right)?;
        push_word(out, WordKind::Semicolon, self.semicolon)
    }
}

impl Production for Property {
    ghost leaves = { property_leaves };

    fn push_words(&self, out: &mut Vec<Word>) -> Result<(), AllocError> {
        push_word(out, WordKind::Identifier, self.name)?;
        self.constructor.push_words(out)?;
        push_word(out, WordKind::Semicolon, self.semicolon)
    }
}
