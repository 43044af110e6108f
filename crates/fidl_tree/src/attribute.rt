ghost use Rattle.fidl_tree.specs.Attribute.{attribute_leaves, arguments_leaves};
ghost use Rattle.fidl_tree.specs.Attribute.{argument_list_leaves, next_argument_leaves};
ghost use Rattle.fidl_tree.specs.Attribute.{argument_leaves, argument_name_leaves};

use crate::production::{Production, push_all, push_optional, push_word};
use crate::value::Value;
use fidl_span::{Span, Word, WordKind};
use std::alloc::AllocError;

/// An attribute: `@`, its name and its arguments.
#[derive(Drop)]
pub struct Attribute {
    pub at: Span,
    pub name: Span,
    pub arguments: Option<Arguments>,
}

/// The arguments of an attribute, in parentheses.
#[derive(Drop)]
pub struct Arguments {
    pub left: Span,
    pub list: Option<ArgumentList>,
    pub right: Span,
}

/// One argument or more, with commas between them.
#[derive(Drop)]
pub struct ArgumentList {
    pub first: Argument,
    pub rest: Vec<NextArgument>,
}

/// A comma and the argument behind it.
#[derive(Drop)]
pub struct NextArgument {
    pub comma: Span,
    pub argument: Argument,
}

/// An argument, with or without a name.
#[derive(Drop)]
pub struct Argument {
    pub name: Option<ArgumentName>,
    pub value: Value,
}

/// The name of an argument and the `=` behind it.
#[derive(Drop)]
pub struct ArgumentName {
    pub name: Span,
    pub equals: Span,
}

impl Production for Attribute {
    ghost leaves = { attribute_leaves };

    fn push_words(&self, out: &mut Vec<Word>) -> Result<(), AllocError> {
        push_word(out, WordKind::At, self.at)?;
        push_word(out, WordKind::Identifier, self.name)?;
        push_optional(out, &self.arguments)
    }
}

impl Production for Arguments {
    ghost leaves = { arguments_leaves };

    fn push_words(&self, out: &mut Vec<Word>) -> Result<(), AllocError> {
        push_word(out, WordKind::LeftParenthesis, self.left)?;
        push_optional(out, &self.list)?;
        push_word(out, WordKind::RightParenthesis, self.right)
    }
}

impl Production for ArgumentList {
    ghost leaves = { argument_list_leaves };

    fn push_words(&self, out: &mut Vec<Word>) -> Result<(), AllocError> {
        self.first.push_words(out)?;
        push_all(out, &self.rest)
    }
}

impl Production for NextArgument {
    ghost leaves = { next_argument_leaves };

    fn push_words(&self, out: &mut Vec<Word>) -> Result<(), AllocError> {
        push_word(out, WordKind::Comma, self.comma)?;
        self.argument.push_words(out)
    }
}

impl Production for Argument {
    ghost leaves = { argument_leaves };

    fn push_words(&self, out: &mut Vec<Word>) -> Result<(), AllocError> {
        push_optional(out, &self.name)?;
        self.value.push_words(out)
    }
}

impl Production for ArgumentName {
    ghost leaves = { argument_name_leaves };

    fn push_words(&self, out: &mut Vec<Word>) -> Result<(), AllocError> {
        push_word(out, WordKind::Identifier, self.name)?;
        push_word(out, WordKind::Equals, self.equals)
    }
}
