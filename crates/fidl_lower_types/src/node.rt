//! What types are at once.
ghost use Rattle.std.specs.Prelude.{◌≡◌, ◌<◌, ℕ, length, IfOk, IfSome, IsNone, option_copied};
ghost use Rattle.std.specs.Prelude.{List, true};
ghost use Rattle.fidl_tree.specs.Syntax.{Layout};
ghost use Rattle.fidl_tree.specs.Views.{body_view};
ghost use Rattle.fidl_tree.specs.declared.file.File.{File as Tree};
ghost use Rattle.fidl_constraints.specs.Behind.{word_head, layout_head};
ghost use Rattle.fidl_constraints.specs.BehindViews.{arguments_view, head_view, use_view};
ghost use Rattle.fidl_named.specs.declared.meaning.Predeclared.TheVariants as Words;
ghost use Rattle.fidl_lower_types.specs.Numbers.{IsNumber};
ghost use Rattle.fidl_lower_types.specs.Terms.{Node as Plain, HeadIs, IsStruct, NodeIs, is_struct};
ghost use Rattle.fidl_lower_types.specs.TermViews.{node_view, AreKnown};

use crate::arguments::{only_type, two_arguments};
use crate::counts::count_of;
use crate::numbers::number_of;
use crate::sources::Sources;
use crate::words::word_type;
use fidl_constraints::{Head, Parts, TypeUse, gather};
use fidl_declarations::layout_keyword;
use fidl_ir::Type;
use fidl_named::Predeclared;
use fidl_tree::{LayoutBody, TypeArguments};
use std::alloc::{AllocError, Global};

/// A vector or an array, without its elements.
#[derive(Clone, Copy, Drop)]
pub enum Shape {
    Vector { optional: bool, bound: u32 },
    Array { count: u32 },
}

/// What a type is at once.
#[derive(Drop)]
pub enum Node<'f> {
    /// A type that holds no elements.
    Leaf(Type),
    /// A vector or an array of this type in the file of this number.
    Elements {
        file_index: usize,
        next: TypeUse<'f>,
        shape: Shape,
    },
}

/// The number of a layout in the file of this number.
fn layout_number(
    sources: &Sources<'_, '_, '_>,
    file_index: usize,
    optional: bool,
    body: &LayoutBody,
) -> Option<u32>
    requires { AreKnown sources.now }
    ensures found { IfSome result (IsNumber sources.now.named.now file_index optional
        (body_view body.now)) }
    ensures none { IsNone result → (i : ℕ) → IsNumber sources.now.named.now file_index optional
        (body_view body.now) i → ⊥ }
{
    number_of(sources, file_index, optional, layout_keyword(body))
}

/// The layout of the struct that a type is behind its aliases.
fn struct_body<'f>(head: Head<'f>) -> Option<&'f LayoutBody>
    ensures found { IfSome result (λ body. (head_view head.entry ≡ layout_head (body_view body.now))
        × (is_struct (body_view body.now) ≡ true)) }
    ensures none { IsNone result → (l : Layout) → head_view head.entry ≡ layout_head l
        → is_struct l ≡ true → ⊥ }
{
    match head {
        Head::Layout(body) => match body {
            LayoutBody::Struct(_) => Some(body),
            LayoutBody::Values(_) | LayoutBody::Table(_) | LayoutBody::Union(_) => None,
        },
        Head::Word { .. } => None,
        Head::Handle(_) => None,
    }
}

/// The number of the struct that a type is.
fn struct_number(
    sources: &Sources<'_, '_, '_>,
    file_index: usize,
    of: TypeUse<'_>,
) -> Result<Option<u32>, AllocError>
    requires within { file_index < length sources.now.named.now }
    requires known { AreKnown sources.now }
    ensures found { IfOk result (λ found. IfSome found
        (IsStruct sources.now.named.now file_index (use_view of.entry))) }
    ensures none { IfOk result (λ found. IsNone found → (i : ℕ)
        → IsStruct sources.now.named.now file_index (use_view of.entry) i → ⊥) }
{
    let found = gather(sources.alloc, sources.named, sources.consts, file_index, of)?;
    let Some(gathered) = found else {
        return Ok(None);
    };
    let Some(body) = struct_body(gathered.core.head) else {
        return Ok(None);
    };
    Ok(layout_number(sources, gathered.core.file_index, false, body))
}

/// A box of its only argument, which is a struct.
fn box_node<'f>(
    sources: &Sources<'_, 'f, '_>,
    file_index: usize,
    arguments: Option<&'f TypeArguments>,
    parts: &Parts,
) -> Result<Option<Node<'f>>, AllocError>
    requires within { file_index < length sources.now.named.now }
    requires known { AreKnown sources.now }
    ensures found { IfOk result (λ found. IfSome found (λ n. HeadIs sources.now.named.now file_index
        parts.now.list.items (word_head Words.Box (arguments_view (option_copied arguments.entry)))
        (node_view n))) }
    ensures none { IfOk result (λ found. IsNone found → (n : Plain) → HeadIs sources.now.named.now
        file_index parts.now.list.items
        (word_head Words.Box (arguments_view (option_copied arguments.entry))) n → ⊥) }
{
    let Some(content) = only_type(arguments) else {
        return Ok(None);
    };
    match struct_number(sources, file_index, content)? {
        None => Ok(None),
        Some(number) => Ok(Some(Node::Leaf(Type::Box(number)))),
    }
}

/// A vector of its only argument.
fn vector_node<'f>(
    file_index: usize,
    arguments: Option<&'f TypeArguments>,
    parts: &Parts,
) -> Option<Node<'f>>
    ensures found { IfSome result (λ n. (files : List Tree) → HeadIs files file_index
        parts.now.list.items
        (word_head Words.Vector (arguments_view (option_copied arguments.entry))) (node_view n)) }
    ensures none { IsNone result → (files : List Tree) (n : Plain) → HeadIs files file_index
        parts.now.list.items
        (word_head Words.Vector (arguments_view (option_copied arguments.entry))) n → ⊥ }
{
    let next = only_type(arguments)?;
    let shape = Shape::Vector {
        optional: parts.is_optional(),
        bound: parts.bound(),
    };
    Some(Node::Elements {
        file_index,
        next,
        shape,
    })
}

/// An array of its first argument, as many as its second.
fn array_node<'f>(
    sources: &Sources<'_, 'f, '_>,
    file_index: usize,
    arguments: Option<&'f TypeArguments>,
    parts: &Parts,
) -> Result<Option<Node<'f>>, AllocError>
    requires within { file_index < length sources.now.named.now }
    requires known { AreKnown sources.now }
    ensures found { IfOk result (λ found. IfSome found (λ n. HeadIs sources.now.named.now file_index
        parts.now.list.items
        (word_head Words.Array (arguments_view (option_copied arguments.entry))) (node_view n))) }
    ensures none { IfOk result (λ found. IsNone found → (n : Plain) → HeadIs sources.now.named.now
        file_index parts.now.list.items
        (word_head Words.Array (arguments_view (option_copied arguments.entry))) n → ⊥) }
{
    let Some(pair) = two_arguments(arguments) else {
        return Ok(None);
    };
    let Some(count) = count_of(sources, file_index, pair.second)? else {
        return Ok(None);
    };
    Ok(Some(Node::Elements {
        file_index,
        next: pair.first,
        shape: Shape::Array { count },
    }))
}

/// A predeclared type that takes no arguments.
fn plain_node<'f>(
    alloc: Global,
    name: Predeclared,
    arguments: Option<&'f TypeArguments>,
    parts: &Parts,
) -> Result<Option<Node<'f>>, AllocError>
    requires vector { name ≡ Words.Vector → ⊥ }
    requires array { name ≡ Words.Array → ⊥ }
    requires boxed { name ≡ Words.Box → ⊥ }
    ensures found { IfOk result (λ found. IfSome found (λ n. (files : List Tree) (number : ℕ)
        → HeadIs files number parts.now.list.items
        (word_head name (arguments_view (option_copied arguments.entry))) (node_view n))) }
    ensures none { IfOk result (λ found. IsNone found → (files : List Tree) (number : ℕ)
        (n : Plain) → HeadIs files number parts.now.list.items
        (word_head name (arguments_view (option_copied arguments.entry))) n → ⊥) }
{
    if let Some(_) = arguments {
        return Ok(None);
    }
    match word_type(alloc, name, parts)? {
        None => Ok(None),
        Some(found) => Ok(Some(Node::Leaf(found))),
    }
}

/// A predeclared type with its arguments.
fn word_node<'f>(
    sources: &Sources<'_, 'f, '_>,
    file_index: usize,
    name: Predeclared,
    arguments: Option<&'f TypeArguments>,
    parts: &Parts,
) -> Result<Option<Node<'f>>, AllocError>
    requires within { file_index < length sources.now.named.now }
    requires known { AreKnown sources.now }
    ensures found { IfOk result (λ found. IfSome found (λ n. HeadIs sources.now.named.now file_index
        parts.now.list.items (word_head name (arguments_view (option_copied arguments.entry)))
        (node_view n))) }
    ensures none { IfOk result (λ found. IsNone found → (n : Plain) → HeadIs sources.now.named.now
        file_index parts.now.list.items
        (word_head name (arguments_view (option_copied arguments.entry))) n → ⊥) }
{
    match name {
        Predeclared::Vector => Ok(vector_node(file_index, arguments, parts)),
        Predeclared::Array => array_node(sources, file_index, arguments, parts),
        Predeclared::Box => box_node(sources, file_index, arguments, parts),
        _ => plain_node(sources.alloc, name, arguments, parts),
    }
}

/// What a type is at once whose head stands in the file of this number, with what its constraints
/// give.
///
/// `AllocError`: memory ran out.
pub fn head_node<'f>(
    sources: &Sources<'_, 'f, '_>,
    file_index: usize,
    head: Head<'f>,
    parts: &Parts,
) -> Result<Option<Node<'f>>, AllocError>
    requires within { file_index < length sources.now.named.now }
    requires known { AreKnown sources.now }
    ensures found { IfOk result (λ found. IfSome found (λ n. HeadIs sources.now.named.now file_index
        parts.now.list.items (head_view head.entry) (node_view n))) }
    ensures none { IfOk result (λ found. IsNone found → (n : Plain) → HeadIs sources.now.named.now
        file_index parts.now.list.items (head_view head.entry) n → ⊥) }
{
    match head {
        Head::Word { name, arguments } => word_node(sources, file_index, name, arguments, parts),
        Head::Layout(body) => {
            match layout_number(sources, file_index, parts.is_optional(), body) {
                None => Ok(None),
                Some(number) => Ok(Some(Node::Leaf(Type::Named(number)))),
            }
        }
        Head::Handle(_) => Ok(Some(Node::Leaf(Type::Handle {
            optional: parts.is_optional(),
            subtype: parts.subtype(),
            rights: parts.rights(),
        }))),
    }
}

/// What a type in the file of this number is at once, aliases followed. Nothing where its name means
/// no type, its arguments or constraints are of a wrong number or kind, or a box is of no struct.
///
/// `AllocError`: memory ran out.
pub fn node_of<'f>(
    sources: &Sources<'_, 'f, '_>,
    file_index: usize,
    of: TypeUse<'f>,
) -> Result<Option<Node<'f>>, AllocError>
    requires within { file_index < length sources.now.named.now }
    requires known { AreKnown sources.now }
    ensures found { IfOk result (λ found. IfSome found (λ n. NodeIs sources.now.named.now file_index
        (use_view of.entry) (node_view n))) }
    ensures none { IfOk result (λ found. IsNone found → (n : Plain) → NodeIs sources.now.named.now
        file_index (use_view of.entry) n → ⊥) }
{
    let found = gather(sources.alloc, sources.named, sources.consts, file_index, of)?;
    let Some(gathered) = found else {
        return Ok(None);
    };
    let core = &gathered.core;
    head_node(sources, core.file_index, core.head, &gathered.parts)
}
