ghost use Rattle.std.specs.Prelude.{◌≡◌, ◌++◌, OnOk, map};
ghost use Rattle.fidl_tree.specs.Leaf.{words, joined};
ghost use Rattle.fidl_tree.specs.TypeConstructor.{type_leaves, named_leaves};
ghost use Rattle.fidl_tree.specs.TypeConstructor.{next_type_argument_leaves, type_argument_leaves};
ghost use Rattle.fidl_tree.specs.TypeConstructor.{layout_leaves, layout_body_leaves};
ghost use Rattle.fidl_tree.specs.TypeConstructor.{values_layout_leaves, struct_layout_leaves};
ghost use Rattle.fidl_tree.specs.TypeConstructor.{table_layout_leaves, union_layout_leaves};
ghost use Rattle.fidl_tree.specs.TypeConstructor.{member_leaves, ordinal_member_leaves};
ghost use Rattle.fidl_tree.specs.TypeConstructor.{ordinal_body_leaves};

use crate::attribute::Attribute;
use crate::constraint::Constraints;
use crate::keyword::{Resource, Strictness, UnionModifiers, ValuesKeyword};
use crate::path::Path;
use crate::production::{Production, push_all, push_optional, push_word};
use crate::value_member::ValueMember;
use fidl_span::{Span, Word, WordKind};
use std::alloc::AllocError;

/// A type where it is used: a layout, or a named type, each with its constraints.
#[cycle(types)]
#[derive(Drop)]
pub enum TypeConstructor {
    Layout {
        layout: Box<Layout>,
        constraints: Option<Constraints>,
    },
    Named(Box<NamedType>),
}

/// A type by its name, with its arguments and constraints.
#[cycle(types)]
#[derive(Drop)]
pub struct NamedType {
    pub path: Path,
    pub arguments: Option<TypeArguments>,
    pub constraints: Option<Constraints>,
}

/// One type argument or more, in angle brackets.
#[cycle(types)]
#[derive(Drop)]
pub struct TypeArguments {
    pub less: Span,
    pub first: Box<TypeArgument>,
    pub rest: Vec<NextTypeArgument>,
    pub greater: Span,
}

/// A comma and the type argument behind it.
#[cycle(types)]
#[derive(Drop)]
pub struct NextTypeArgument {
    pub comma: Span,
    pub argument: TypeArgument,
}

/// A number or a type.
#[cycle(types)]
#[derive(Drop)]
pub enum TypeArgument {
    Number(Span),
    Type(TypeConstructor),
}

/// A layout with the attributes before its first word.
#[cycle(types)]
#[derive(Drop)]
pub struct Layout {
    pub attributes: Vec<Attribute>,
    pub body: LayoutBody,
}

/// What kind of layout it is.
#[cycle(types)]
#[derive(Drop)]
pub enum LayoutBody {
    /// Bits or an enum.
    Values(ValuesLayout),
    Struct(StructLayout),
    Table(TableLayout),
    Union(UnionLayout),
}

/// The layout of bits or an enum.
#[cycle(types)]
#[derive(Drop)]
pub struct ValuesLayout {
    pub strictness: Option<Strictness>,
    pub keyword: ValuesKeyword,
    pub underlying: Option<Underlying>,
    pub left: Span,
    pub members: Vec<ValueMember>,
    pub right: Span,
}

/// The layout of a struct.
#[cycle(types)]
#[derive(Drop)]
pub struct StructLayout {
    pub resource: Option<Resource>,
    pub keyword: Span,
    pub left: Span,
    pub members: Vec<Member>,
    pub right: Span,
}

/// The layout of a table.
#[cycle(types)]
#[derive(Drop)]
pub struct TableLayout {
    pub resource: Option<Resource>,
    pub keyword: Span,
    pub left: Span,
    pub members: Vec<OrdinalMember>,
    pub right: Span,
}

/// The layout of a union.
#[cycle(types)]
#[derive(Drop)]
pub struct UnionLayout {
    pub modifiers: UnionModifiers,
    pub keyword: Span,
    pub left: Span,
    pub members: Vec<OrdinalMember>,
    pub right: Span,
}

/// A colon and the underlying type behind it, which is never a layout.
#[cycle(types)]
#[derive(Drop)]
pub struct Underlying {
    pub colon: Span,
    pub named: NamedType,
}

/// A member of a struct or a service: a name and a type.
#[cycle(types)]
#[derive(Drop)]
pub struct Member {
    pub attributes: Vec<Attribute>,
    pub name: Span,
    pub constructor: TypeConstructor,
    pub semicolon: Span,
}

/// A member of a table or a union, with its ordinal.
#[cycle(types)]
#[derive(Drop)]
pub struct OrdinalMember {
    pub attributes: Vec<Attribute>,
    pub ordinal: Span,
    pub colon: Span,
    pub body: OrdinalBody,
    pub semicolon: Span,
}

/// What stands at an ordinal: `reserved`, or a name and a type.
#[cycle(types)]
#[derive(Drop)]
pub enum OrdinalBody {
    Reserved(Span),
    Typed {
        name: Span,
        constructor: TypeConstructor,
    },
}

impl Production for TypeConstructor {
    ghost leaves = { type_leaves };

    #[cycle(types)]
    fn push_words(&self, out: &mut Vec<Word>) -> Result<(), AllocError> {
        match self {
            TypeConstructor::Layout {
                layout,
                constraints,
            } => {
                layout.push_words(out)?;
                push_optional(out, constraints)
            }
            TypeConstructor::Named(named) => named.push_words(out),
        }
    }
}

impl Production for NamedType {
    ghost leaves = { named_leaves };

    #[cycle(types)]
    fn push_words(&self, out: &mut Vec<Word>) -> Result<(), AllocError> {
        self.path.push_words(out)?;
        if let Some(arguments) = &self.arguments {
            push_word(out, WordKind::Less, arguments.less)?;
            arguments.first.push_words(out)?;
            push_type_arguments(out, &arguments.rest)?;
            push_word(out, WordKind::Greater, arguments.greater)?;
        }
        push_optional(out, &self.constraints)
    }
}

#[cycle(types)]
fn push_type_arguments(
    out: &mut Vec<Word>,
    arguments: &[NextTypeArgument],
) -> Result<(), AllocError>
    ensures { OnOk result (out.new.items ≡ out.old.items
        ++ words (joined (map next_type_argument_leaves arguments.now))) }
{
    for next in arguments {
        push_word(out, WordKind::Comma, next.comma)?;
        next.argument.push_words(out)?;
    }
    Ok(())
}

impl Production for TypeArgument {
    ghost leaves = { type_argument_leaves };

    #[cycle(types)]
    fn push_words(&self, out: &mut Vec<Word>) -> Result<(), AllocError> {
        match self {
            TypeArgument::Number(span) => push_word(out, WordKind::Number, *span),
            TypeArgument::Type(constructor) => constructor.push_words(out),
        }
    }
}

impl Production for Layout {
    ghost leaves = { layout_leaves };

    #[cycle(types)]
    fn push_words(&self, out: &mut Vec<Word>) -> Result<(), AllocError> {
        push_all(out, &self.attributes)?;
        self.body.push_words(out)
    }
}

impl Production for LayoutBody {
    ghost leaves = { layout_body_leaves };

    #[cycle(types)]
    fn push_words(&self, out: &mut Vec<Word>) -> Result<(), AllocError> {
        match self {
            LayoutBody::Values(layout) => layout.push_words(out),
            LayoutBody::Struct(layout) => layout.push_words(out),
            LayoutBody::Table(layout) => layout.push_words(out),
            LayoutBody::Union(layout) => layout.push_words(out),
        }
    }
}

impl Production for ValuesLayout {
    ghost leaves = { values_layout_leaves };

    #[cycle(types)]
    fn push_words(&self, out: &mut Vec<Word>) -> Result<(), AllocError> {
        push_optional(out, &self.strictness)?;
        self.keyword.push_words(out)?;
        if let Some(underlying) = &self.underlying {
            push_word(out, WordKind::Colon, underlying.colon)?;
            underlying.named.push_words(out)?;
        }
        push_word(out, WordKind::LeftBrace, self.left)?;
        push_all(out, &self.members)?;
        push_word(out, WordKind::RightBrace, self.right)
    }
}

impl Production for StructLayout {
    ghost leaves = { struct_layout_leaves };

    #[cycle(types)]
    fn push_words(&self, out: &mut Vec<Word>) -> Result<(), AllocError> {
        push_optional(out, &self.resource)?;
        push_word(out, WordKind::Identifier, self.keyword)?;
        push_word(out, WordKind::LeftBrace, self.left)?;
        push_members(out, &self.members)?;
        push_word(out, WordKind::RightBrace, self.right)
    }
}

impl Production for TableLayout {
    ghost leaves = { table_layout_leaves };

    #[cycle(types)]
    fn push_words(&self, out: &mut Vec<Word>) -> Result<(), AllocError> {
        push_optional(out, &self.resource)?;
        push_word(out, WordKind::Identifier, self.keyword)?;
        push_word(out, WordKind::LeftBrace, self.left)?;
        push_ordinal_members(out, &self.members)?;
        push_word(out, WordKind::RightBrace, self.right)
    }
}

impl Production for UnionLayout {
    ghost leaves = { union_layout_leaves };

    #[cycle(types)]
    fn push_words(&self, out: &mut Vec<Word>) -> Result<(), AllocError> {
        self.modifiers.push_words(out)?;
        push_word(out, WordKind::Identifier, self.keyword)?;
        push_word(out, WordKind::LeftBrace, self.left)?;
        push_ordinal_members(out, &self.members)?;
        push_word(out, WordKind::RightBrace, self.right)
    }
}

#[cycle(types)]
fn push_members(out: &mut Vec<Word>, members: &[Member]) -> Result<(), AllocError>
    ensures { OnOk result (out.new.items ≡ out.old.items
        ++ words (joined (map member_leaves members.now))) }
{
    for member in members {
        member.push_words(out)?;
    }
    Ok(())
}

impl Production for Member {
    ghost leaves = { member_leaves };

    #[cycle(types)]
    fn push_words(&self, out: &mut Vec<Word>) -> Result<(), AllocError> {
        push_all(out, &self.attributes)?;
        push_word(out, WordKind::Identifier, self.name)?;
        self.constructor.push_words(out)?;
        push_word(out, WordKind::Semicolon, self.semicolon)
    }
}

#[cycle(types)]
fn push_ordinal_members(out: &mut Vec<Word>, members: &[OrdinalMember]) -> Result<(), AllocError>
    ensures { OnOk result (out.new.items ≡ out.old.items
        ++ words (joined (map ordinal_member_leaves members.now))) }
{
    for member in members {
        member.push_words(out)?;
    }
    Ok(())
}

impl Production for OrdinalMember {
    ghost leaves = { ordinal_member_leaves };

    #[cycle(types)]
    fn push_words(&self, out: &mut Vec<Word>) -> Result<(), AllocError> {
        push_all(out, &self.attributes)?;
        push_word(out, WordKind::Number, self.ordinal)?;
        push_word(out, WordKind::Colon, self.colon)?;
        self.body.push_words(out)?;
        push_word(out, WordKind::Semicolon, self.semicolon)
    }
}

impl Production for OrdinalBody {
    ghost leaves = { ordinal_body_leaves };

    #[cycle(types)]
    fn push_words(&self, out: &mut Vec<Word>) -> Result<(), AllocError> {
        match self {
            OrdinalBody::Reserved(span) => push_word(out, WordKind::Identifier, *span),
            OrdinalBody::Typed { name, constructor } => {
                push_word(out, WordKind::Identifier, *name)?;
                constructor.push_words(out)
            }
        }
    }
}
