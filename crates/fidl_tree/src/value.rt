ghost use Rattle.std.specs.Prelude.{◌≡◌, ◌++◌, OnOk, map};
ghost use Rattle.fidl_tree.specs.Leaf.{words, joined};
ghost use Rattle.fidl_tree.specs.Value.{value_leaves, operand_leaves, or_operand_leaves};

use crate::path::Path;
use crate::production::{Production, push_word};
use fidl_span::{Span, Word, WordKind};
use std::alloc::AllocError;

/// A value: operands with `|` between them.
#[cycle(value)]
#[derive(Drop)]
pub struct Value {
    pub first: Operand,
    pub rest: Vec<OrOperand>,
}

/// A `|` and the operand after it.
#[cycle(value)]
#[derive(Drop)]
pub struct OrOperand {
    pub bar: Span,
    pub operand: Operand,
}

/// An operand of a value.
#[cycle(value)]
#[derive(Drop)]
pub enum Operand {
    Number {
        minus: Option<Span>,
        number: Span,
    },
    String(Span),
    True(Span),
    False(Span),
    Path(Path),
    Group {
        left: Span,
        value: Box<Value>,
        right: Span,
    },
}

impl Production for Value {
    ghost leaves = { value_leaves };

    #[cycle(value)]
    fn push_words(&self, out: &mut Vec<Word>) -> Result<(), AllocError> {
        self.first.push_words(out)?;
        push_or_operands(out, &self.rest)
    }
}

#[cycle(value)]
fn push_or_operands(out: &mut Vec<Word>, or_operands: &[OrOperand]) -> Result<(), AllocError>
    ensures { OnOk result (out.new.items ≡ out.old.items
        ++ words (joined (map or_operand_leaves or_operands.now))) }
{
    for or_operand in or_operands {
        push_word(out, WordKind::Bar, or_operand.bar)?;
        or_operand.operand.push_words(out)?;
    }
    Ok(())
}

impl Production for Operand {
    ghost leaves = { operand_leaves };

    #[cycle(value)]
    fn push_words(&self, out: &mut Vec<Word>) -> Result<(), AllocError> {
        match self {
            Operand::Number { minus, number } => {
                if let Some(minus) = minus {
                    push_word(out, WordKind::Minus, *minus)?;
                }
                push_word(out, WordKind::Number, *number)
            }
            Operand::String(span) => push_word(out, WordKind::String, *span),
            Operand::True(span) => push_word(out, WordKind::Identifier, *span),
            Operand::False(span) => push_word(out, WordKind::Identifier, *span),
            Operand::Path(path) => path.push_words(out),
            Operand::Group { left, value, right } => {
                push_word(out, WordKind::LeftParenthesis, *left)?;
                value.push_words(out)?;
                push_word(out, WordKind::RightParenthesis, *right)
            }
        }
    }
}
