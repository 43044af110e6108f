ghost use Rattle.fidl_tree.specs.ValueMember.{value_member_leaves};

use crate::attribute::Attribute;
use crate::production::{Production, push_all, push_word};
use crate::value::Value;
use fidl_span::{Span, Word, WordKind};
use std::alloc::AllocError;

/// A member of bits or an enum: a name and its value.
#[derive(Drop)]
pub struct ValueMember {
    pub attributes: Vec<Attribute>,
    pub name: Span,
    pub equals: Span,
    pub value: Value,
    pub semicolon: Span,
}

impl Production for ValueMember {
    ghost leaves = { value_member_leaves };

    fn push_words(&self, out: &mut Vec<Word>) -> Result<(), AllocError> {
        push_all(out, &self.attributes)?;
        push_word(out, WordKind::Identifier, self.name)?;
        push_word(out, WordKind::Equals, self.equals)?;
        self.value.push_words(out)?;
        push_word(out, WordKind::Semicolon, self.semicolon)
    }
}
