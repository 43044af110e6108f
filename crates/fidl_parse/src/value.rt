// Values.
ghost use Rattle.std.specs.Prelude.{◌↔◌, IfOk, IsFalse, map};
ghost use Rattle.fidl_tree.specs.Leaf.{joined, leaf, optional, symbol, none_of, Meets, text_at};
ghost use Rattle.fidl_tree.specs.Value.{value_leaves, operand_leaves, or_operand_leaves};
ghost use Rattle.fidl_parse.specs.Choices.{literals};
ghost use Rattle.fidl_span.specs.declared.words.WordKind.TheVariants as kind;
ghost use Rattle.fidl_parse.specs.Reading.{Reads, IsKindAt};
ghost use Rattle.fidl_parse.specs.Completeness.{Finds, row};
ghost use Rattle.fidl_parse.specs.FollowSets.{Anything, Begins, Not, extends_path, extends_value};

use crate::fault::Stop;
use crate::parser::Parser;
use fidl_span::{Span, WordKind};
use fidl_tree::{Operand, OrOperand, Path, Value};

impl<'w, 's> Parser<'w, 's> {
    #[cycle(value)]
    pub(crate) fn value(&self, at: &mut usize) -> Result<Value, Stop>
        ensures reads { IfOk result (λ value. Reads self.now at.old at.new (value_leaves value)) }
        ensures complete { Finds self.now at.old at.new value_leaves (Not extends_value) result }
    {
        let first = self.operand(at)?;
        let rest = self.or_operands(at)?;
        Ok(Value { first, rest })
    }

    #[cycle(value)]
    fn or_operands(&self, at: &mut usize) -> Result<Vec<OrOperand>, Stop>
        ensures reads { IfOk result (λ or_operands. Reads self.now at.old at.new
            (joined (map or_operand_leaves or_operands.items))) }
        ensures complete { Finds self.now at.old at.new (row or_operand_leaves)
            (Not extends_value) result }
    {
        let mut or_operands = Vec::new(self.alloc);
        while self.is_next(*at, WordKind::Bar) {
            or_operands.push(self.or_operand(at)?)?;
        }
        Ok(or_operands)
    }

    #[cycle(value)]
    fn or_operand(&self, at: &mut usize) -> Result<OrOperand, Stop>
        ensures reads { IfOk result (λ or_operand. Reads self.now at.old at.new
            (or_operand_leaves or_operand)) }
        ensures complete { Finds self.now at.old at.new or_operand_leaves
            (Not extends_path) result }
    {
        let bar = self.symbol(at, WordKind::Bar)?;
        let operand = self.operand(at)?;
        Ok(OrOperand { bar, operand })
    }

    #[cycle(value)]
    fn operand(&self, at: &mut usize) -> Result<Operand, Stop>
        ensures reads { IfOk result (λ operand. Reads self.now at.old at.new
            (operand_leaves operand)) }
        ensures complete { Finds self.now at.old at.new operand_leaves (Not extends_path) result }
    {
        if self.is_next(*at, WordKind::LeftParenthesis) {
            self.group(at)
        } else if self.is_next(*at, WordKind::Identifier) {
            self.word_operand(at)
        } else {
            self.literal(at)
        }
    }

    #[cycle(value)]
    fn group(&self, at: &mut usize) -> Result<Operand, Stop>
        ensures reads { IfOk result (λ operand. Reads self.now at.old at.new
            (operand_leaves operand)) }
        ensures complete { IsKindAt self.now at.old kind.LeftParenthesis
            → Finds self.now at.old at.new operand_leaves Anything result }
    {
        let left = self.symbol(at, WordKind::LeftParenthesis)?;
        let value = Box::new(self.alloc, self.value(at)?)?;
        let right = self.symbol(at, WordKind::RightParenthesis)?;
        Ok(Operand::Group { left, value, right })
    }

    /// A string, or a number with or without a sign.
    fn literal(&self, at: &mut usize) -> Result<Operand, Stop>
        ensures reads { IfOk result (λ operand. Reads self.now at.old at.new
            (operand_leaves operand)) }
        ensures complete { ¬ IsKindAt self.now at.old kind.LeftParenthesis
            → ¬ IsKindAt self.now at.old kind.Identifier
            → Finds self.now at.old at.new operand_leaves Anything result }
    {
        if self.is_next(*at, WordKind::String) {
            return Ok(Operand::String(self.symbol(at, WordKind::String)?));
        }
        let minus = self.minus(at)?;
        let number = self.symbol(at, WordKind::Number)?;
        Ok(Operand::Number { minus, number })
    }

    fn minus(&self, at: &mut usize) -> Result<Option<Span>, Stop>
        ensures reads { IfOk result (λ minus. Reads self.now at.old at.new
            (optional (symbol kind.Minus) minus)) }
        ensures complete { Finds self.now at.old at.new (optional (symbol kind.Minus))
            (Begins kind.Number) result }
    {
        if !self.is_next(*at, WordKind::Minus) {
            return Ok(None);
        }
        Ok(Some(self.symbol(at, WordKind::Minus)?))
    }

    /// `true`, `false` or a path.
    fn word_operand(&self, at: &mut usize) -> Result<Operand, Stop>
        ensures reads { IfOk result (λ operand. Reads self.now at.old at.new
            (operand_leaves operand)) }
        ensures complete { IsKindAt self.now at.old kind.Identifier
            → Finds self.now at.old at.new operand_leaves (Not extends_path) result }
    {
        if self.is_next_word(*at, b"true") {
            return Ok(Operand::True(self.keyword(at, b"true")?));
        }
        if self.is_next_word(*at, b"false") {
            return Ok(Operand::False(self.keyword(at, b"false")?));
        }
        let first = self.value_name(at)?;
        let rest = self.path_parts(at)?;
        Ok(Operand::Path(Path { first, rest }))
    }

    /// Whether the text at a span is `true` or `false`.
    fn is_literal(&self, span: Span) -> bool
        ensures { IsFalse result ↔ Meets (none_of literals) (text_at self.now.src.now span) }
    {
        let text = self.text(span);
        text == b"true".as_slice() || text == b"false".as_slice()
    }

    /// A name that is no literal.
    fn value_name(&self, at: &mut usize) -> Result<Span, Stop>
        ensures reads { IfOk result (λ span. Reads self.now at.old at.new
            (leaf kind.Identifier span (none_of literals))) }
        ensures complete { Finds self.now at.old at.new (λ span. leaf kind.Identifier span
            (none_of literals)) Anything result }
    {
        match self.words.get(*at) {
            Some(word) if word.kind == WordKind::Identifier && !self.is_literal(word.span) => {
                *at += 1;
                Ok(word.span)
            }
            _ => Err(Stop::Unexpected),
        }
    }
}
