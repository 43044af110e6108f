ghost use Rattle.fidl_tree.specs.Constraint.{constraints_leaves, next_constraint_leaves};

use crate::production::{Production, push_all, push_word};
use crate::value::Value;
use fidl_span::{Span, Word, WordKind};
use std::alloc::AllocError;

/// The constraints of a type, behind a colon: one value, or one or more in angle brackets.
#[derive(Drop)]
pub enum Constraints {
    Single {
        colon: Span,
        value: Box<Value>,
    },
    List {
        colon: Span,
        less: Span,
        first: Box<Value>,
        rest: Vec<NextConstraint>,
        greater: Span,
    },
}

/// A comma and the constraint behind it.
#[derive(Drop)]
pub struct NextConstraint {
    pub comma: Span,
    pub value: Value,
}

impl Production for Constraints {
    ghost leaves = { constraints_leaves };

    fn push_words(&self, out: &mut Vec<Word>) -> Result<(), AllocError> {
        match self {
            Constraints::Single { colon, value } => {
                push_word(out, WordKind::Colon, *colon)?;
                value.push_words(out)
            }
            Constraints::List {
                colon,
                less,
                first,
                rest,
                greater,
            } => {
                push_word(out, WordKind::Colon, *colon)?;
                push_word(out, WordKind::Less, *less)?;
                first.push_words(out)?;
                push_all(out, rest)?;
                push_word(out, WordKind::Greater, *greater)
            }
        }
    }
}

impl Production for NextConstraint {
    ghost leaves = { next_constraint_leaves };

    fn push_words(&self, out: &mut Vec<Word>) -> Result<(), AllocError> {
        push_word(out, WordKind::Comma, self.comma)?;
        self.value.push_words(out)
    }
}
