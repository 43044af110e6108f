//! The terms of types.
ghost use Rattle.std.specs.Prelude.{◌≡◌, ◌<◌, ◌-◌, length, slice_index_or, IfOk, IfSome, IsNone};
ghost use Rattle.fidl_wire.specs.Term.{Term};
ghost use Rattle.fidl_constraints.specs.BehindViews.{use_view};
ghost use Rattle.fidl_ir.specs.Terms.{term_view};
ghost use Rattle.fidl_lower_types.specs.Terms.{made_of, TermIs};
ghost use Rattle.fidl_lower_types.specs.TermViews.{made_of_all, AreKnown};

use crate::node::{Node, Shape, node_of};
use crate::sources::Sources;
use fidl_constraints::TypeUse;
use fidl_ir::Type;
use std::alloc::{AllocError, Global};

/// A vector or an array of elements of this type.
fn made_of(alloc: Global, shape: Shape, of: Type) -> Result<Type, AllocError>
    ensures { IfOk result (λ t. term_view t ≡ made_of shape (term_view of)) }
{
    match shape {
        Shape::Vector { optional, bound } => Ok(Type::Vector {
            optional,
            bound,
            element: Box::new(alloc, of)?,
        }),
        Shape::Array { count } => Ok(Type::Array {
            element: Box::new(alloc, of)?,
            count,
        }),
    }
}

/// The shape that has this many behind it.
fn from_end(shapes: &[Shape], behind: usize) -> Shape
    requires { behind < length shapes.now }
    ensures { result ≡ slice_index_or shapes.now (length shapes.now - 1 - behind) result }
{
    shapes[shapes.len() - 1 - behind]
}

/// The first shape of the second, that of the third and so on, the last one of this type.
///
/// `AllocError`: memory ran out.
pub fn made_of_all(alloc: Global, shapes: &[Shape], of: Type) -> Result<Type, AllocError>
    ensures { IfOk result (λ t. term_view t ≡ made_of_all shapes.now (term_view of)) }
{
    let mut made = of;
    for behind in 0..shapes.len() {
        let shape = from_end(shapes, behind);
        let next = made_of(alloc, shape, made)?;
        made = next;
    }
    Ok(made)
}

/// The term of a type in the file of this number, aliases followed, as deep as vectors and arrays
/// go (public source: the FIDL language specification, "Types"). Nothing where there is none: a
/// name on the way means no type or one that is left out of the profile, its arguments or
/// constraints are of a wrong number or kind, or a box is of no struct.
///
/// `AllocError`: memory ran out.
pub fn term_of<'f>(
    sources: &Sources<'_, 'f, '_>,
    file_index: usize,
    of: TypeUse<'f>,
) -> Result<Option<Type>, AllocError>
    requires within { file_index < length sources.now.named.now }
    requires known { AreKnown sources.now }
    ensures found { IfOk result (λ found. IfSome found (λ t. TermIs sources.now.named.now file_index
        (use_view of.entry) (term_view t))) }
    ensures none { IfOk result (λ found. IsNone found → (e : Term)
        → TermIs sources.now.named.now file_index (use_view of.entry) e → ⊥) }
{
    let mut shapes = Vec::new(sources.alloc);
    let mut at = file_index;
    let mut current = of;
    'elements: loop {
        match node_of(sources, at, current)? {
            None => return Ok(None),
            Some(Node::Leaf(last)) => {
                return Ok(Some(made_of_all(sources.alloc, &shapes, last)?));
            }
            Some(
                Node::Elements {
                    file_index,
                    next,
                    shape,
                },
            ) => {
                shapes.push(shape)?;
                at = file_index;
                current = next;
            }
        }
    }
}
