ghost use Rattle.fidl_tree.specs.Keyword.{strictness_leaves, resource_leaves, openness_leaves};
ghost use Rattle.fidl_tree.specs.Keyword.{values_keyword_leaves, union_modifiers_leaves};

use crate::production::{Production, push_optional, push_word};
use fidl_span::{Span, Word, WordKind};
use std::alloc::AllocError;

/// `strict` or `flexible`.
#[derive(Drop)]
pub enum Strictness {
    Strict(Span),
    Flexible(Span),
}

/// `resource`, before a layout.
#[derive(Drop)]
pub struct Resource {
    pub keyword: Span,
}

/// `open`, `ajar` or `closed`, before a protocol.
#[derive(Drop)]
pub enum Openness {
    Open(Span),
    Ajar(Span),
    Closed(Span),
}

/// `bits` or `enum`.
#[derive(Drop)]
pub enum ValuesKeyword {
    Bits(Span),
    Enum(Span),
}

/// What stands before `union`, in either order.
#[derive(Drop)]
pub enum UnionModifiers {
    StrictnessFirst {
        strictness: Option<Strictness>,
        resource: Option<Resource>,
    },
    ResourceFirst {
        resource: Resource,
        strictness: Strictness,
    },
}

impl Production for Strictness {
    ghost leaves = { strictness_leaves };

    fn push_words(&self, out: &mut Vec<Word>) -> Result<(), AllocError> {
        match self {
            Strictness::Strict(span) => push_word(out, WordKind::Identifier, *span),
            Strictness::Flexible(span) => push_word(out, WordKind::Identifier, *span),
        }
    }
}

impl Production for Resource {
    ghost leaves = { resource_leaves };

    fn push_words(&self, out: &mut Vec<Word>) -> Result<(), AllocError> {
        push_word(out, WordKind::Identifier, self.keyword)
    }
}

impl Production for Openness {
    ghost leaves = { openness_leaves };

    fn push_words(&self, out: &mut Vec<Word>) -> Result<(), AllocError> {
        match self {
            Openness::Open(span) => push_word(out, WordKind::Identifier, *span),
            Openness::Ajar(span) => push_word(out, WordKind::Identifier, *span),
            Openness::Closed(span) => push_word(out, WordKind::Identifier, *span),
        }
    }
}

impl Production for ValuesKeyword {
    ghost leaves = { values_keyword_leaves };

    fn push_words(&self, out: &mut Vec<Word>) -> Result<(), AllocError> {
        match self {
            ValuesKeyword::Bits(span) => push_word(out, WordKind::Identifier, *span),
            ValuesKeyword::Enum(span) => push_word(out, WordKind::Identifier, *span),
        }
    }
}

impl Production for UnionModifiers {
    ghost leaves = { union_modifiers_leaves };

    fn push_words(&self, out: &mut Vec<Word>) -> Result<(), AllocError> {
        match self {
            UnionModifiers::StrictnessFirst {
                strictness,
                resource,
            } => {
                push_optional(out, strictness)?;
                push_optional(out, resource)
            }
            UnionModifiers::ResourceFirst {
                resource,
                strictness,
            } => {
                resource.push_words(out)?;
                strictness.push_words(out)
            }
        }
    }
}
