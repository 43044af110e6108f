ghost use Rattle.fidl_tree.specs.Path.{path_leaves, part_leaves};

use crate::production::{Production, push_all, push_word};
use fidl_span::{Span, Word, WordKind};
use std::alloc::AllocError;

/// Names with dots between them: `ident { "." ident }`.
#[derive(Drop)]
pub struct Path {
    pub first: Span,
    pub rest: Vec<PathPart>,
}

/// A dot and the name behind it.
#[derive(Drop)]
pub struct PathPart {
    pub dot: Span,
    pub name: Span,
}

impl Production for Path {
    ghost leaves = { path_leaves };

    fn push_words(&self, out: &mut Vec<Word>) -> Result<(), AllocError> {
        push_word(out, WordKind::Identifier, self.first)?;
        push_all(out, &self.rest)
    }
}

impl Production for PathPart {
    ghost leaves = { part_leaves };

    fn push_words(&self, out: &mut Vec<Word>) -> Result<(), AllocError> {
        push_word(out, WordKind::Dot, self.dot)?;
        push_word(out, WordKind::Identifier, self.name)
    }
}
