// Parts of trees whose words have places one after another.
use fidl_span::Span;
use fidl_tree::{Attribute, NamedType, Operand, Path, PathPart, TypeConstructor, Value};
use std::alloc::{AllocError, Global};

/// Hands out the places of words one after another: the word number n, from 0, gets the span from n
/// to n.
#[derive(Drop)]
pub(super) struct Places {
    pub(super) next: usize,
}

impl Places {
    pub(super) fn next(&mut self) -> Span {
        let at = self.next;
        self.next = at.wrapping_add(1);
        Span { from: at, to: at }
    }
}

pub(super) fn plain(alloc: Global, at: &mut Places) -> Path {
    Path {
        first: at.next(),
        rest: Vec::new(alloc),
    }
}

pub(super) fn dotted(alloc: Global, at: &mut Places) -> Result<Path, AllocError> {
    Ok(Path {
        first: at.next(),
        rest: vec![in alloc;
            PathPart {
                dot: at.next(),
                name: at.next()
            },
        ]?,
    })
}

pub(super) fn single(alloc: Global, operand: Operand) -> Value {
    Value {
        first: operand,
        rest: Vec::new(alloc),
    }
}

pub(super) fn named(alloc: Global, at: &mut Places) -> Result<TypeConstructor, AllocError> {
    boxed(
        alloc,
        NamedType {
            path: plain(alloc, at),
            arguments: None,
            constraints: None,
        },
    )
}

pub(super) fn boxed(alloc: Global, named: NamedType) -> Result<TypeConstructor, AllocError> {
    Ok(TypeConstructor::Named(Box::new(alloc, named)?))
}

pub(super) fn marked(alloc: Global, at: &mut Places) -> Result<Vec<Attribute>, AllocError> {
    Ok(vec![in alloc;
        Attribute {
            at: at.next(),
            name: at.next(),
            arguments: None
        },
    ]?)
}

pub(super) fn three(at: &mut Places) -> [Span; 3] {
    [at.next(), at.next(), at.next()]
}
