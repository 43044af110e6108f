//! The terms of types down to their first vectors.
ghost use Rattle.std.specs.Prelude.{◌≡◌, ◌<◌, length, IfOk, IfSome};
ghost use Rattle.fidl_wire.specs.Term as ty;
ghost use Rattle.fidl_constraints.specs.BehindViews.{use_view};
ghost use Rattle.fidl_ir.specs.Terms.{term_view};
ghost use Rattle.fidl_lower_types.specs.TermViews.{AreKnown};
ghost use Rattle.fidl_layout.specs.Shallow.{IsShallow};

use fidl_constraints::TypeUse;
use fidl_ir::Type;
use fidl_lower_types::{Node, Shape, Sources, made_of_all, node_of};
use std::alloc::{AllocError, Global};

/// A vector of bool.
fn vector_of_bool(alloc: Global, optional: bool, bound: u32) -> Result<Type, AllocError>
    ensures { IfOk result (λ t. term_view t ≡ ty.vector optional bound ty.bool) }
{
    Ok(Type::Vector {
        optional,
        bound,
        element: Box::new(alloc, Type::Bool)?,
    })
}

/// The term of a type in the file of this number, down to its first vector, of which bool stands for
/// the elements. Each vector has the same figure.
pub(crate) fn shallow_term<'f>(
    sources: &Sources<'_, 'f, '_>,
    file_index: usize,
    of: TypeUse<'f>,
) -> Result<Option<Type>, AllocError>
    requires within { file_index < length sources.now.named.now }
    requires known { AreKnown sources.now }
    ensures { IfOk result (λ found. IfSome found (λ t. IsShallow sources.now.named.now file_index
        (use_view of.entry) (term_view t))) }
{
    let mut shapes = Vec::new(sources.alloc);
    let mut at = file_index;
    let mut current = of;
    'arrays: for _array in 0..u64::MAX {
        match node_of(sources, at, current)? {
            None => return Ok(None),
            Some(Node::Leaf(last)) => return Ok(Some(made_of_all(sources.alloc, &shapes, last)?)),
            Some(
                Node::Elements {
                    file_index,
                    next,
                    shape,
                },
            ) => match shape {
                Shape::Vector { optional, bound } => {
                    let last = vector_of_bool(sources.alloc, optional, bound)?;
                    return Ok(Some(made_of_all(sources.alloc, &shapes, last)?));
                }
                Shape::Array { .. } => {
                    shapes.push(shape)?;
                    at = file_index;
                    current = next;
                }
            },
        }
    }
    // No memory holds as many arrays.
    Err(AllocError)
}
