// Attributes and their arguments.
ghost use Rattle.std.specs.Prelude.{◌+◌, ◌↔◌, IfOk, IsTrue, map};
ghost use Rattle.fidl_span.specs.declared.words.WordKind.TheVariants as kind;
ghost use Rattle.fidl_tree.specs.Leaf.{joined, optional};
ghost use Rattle.fidl_tree.specs.Attribute.{attributes_leaves, attribute_leaves, arguments_leaves};
ghost use Rattle.fidl_tree.specs.Attribute.{argument_list_leaves, next_argument_leaves};
ghost use Rattle.fidl_tree.specs.Attribute.{argument_leaves, argument_name_leaves};
ghost use Rattle.fidl_parse.specs.Reading.{Reads, IsKindAt};
ghost use Rattle.fidl_parse.specs.Completeness.{Finds, row};
ghost use Rattle.fidl_parse.specs.FollowSets.{Begins, Not, extends_attribute, extends_attributes};
ghost use Rattle.fidl_parse.specs.FollowSets.{EndsArgument, NotNamed};

use crate::fault::Stop;
use crate::parser::Parser;
use fidl_span::WordKind;
use fidl_tree::{Argument, ArgumentList, ArgumentName, Arguments, Attribute, NextArgument};

impl<'w, 's> Parser<'w, 's> {
    pub(crate) fn attributes(&self, at: &mut usize) -> Result<Vec<Attribute>, Stop>
        ensures reads { IfOk result (λ attributes. Reads self.now at.old at.new
            (attributes_leaves attributes.items)) }
        ensures complete { Finds self.now at.old at.new attributes_leaves (Not extends_attributes)
            result }
    {
        let mut attributes = Vec::new(self.alloc);
        while self.is_next(*at, WordKind::At) {
            attributes.push(self.attribute(at)?)?;
        }
        Ok(attributes)
    }

    fn attribute(&self, at: &mut usize) -> Result<Attribute, Stop>
        ensures reads { IfOk result (λ attribute. Reads self.now at.old at.new
            (attribute_leaves attribute)) }
        ensures complete { Finds self.now at.old at.new attribute_leaves (Not extends_attribute)
            result }
    {
        let sign = self.symbol(at, WordKind::At)?;
        let name = self.name(at)?;
        let arguments = self.arguments(at)?;
        Ok(Attribute {
            at: sign,
            name,
            arguments,
        })
    }

    fn arguments(&self, at: &mut usize) -> Result<Option<Arguments>, Stop>
        ensures reads { IfOk result (λ arguments. Reads self.now at.old at.new
            (optional arguments_leaves arguments)) }
        ensures complete { Finds self.now at.old at.new (optional arguments_leaves)
            (Not extends_attribute) result }
    {
        if !self.is_next(*at, WordKind::LeftParenthesis) {
            return Ok(None);
        }
        let left = self.symbol(at, WordKind::LeftParenthesis)?;
        let list = self.argument_list(at)?;
        let right = self.symbol(at, WordKind::RightParenthesis)?;
        Ok(Some(Arguments { left, list, right }))
    }

    /// The arguments up to a closing parenthesis.
    fn argument_list(&self, at: &mut usize) -> Result<Option<ArgumentList>, Stop>
        ensures reads { IfOk result (λ list. Reads self.now at.old at.new
            (optional argument_list_leaves list)) }
        ensures complete { Finds self.now at.old at.new (optional argument_list_leaves)
            (Begins kind.RightParenthesis) result }
    {
        if self.is_next(*at, WordKind::RightParenthesis) {
            return Ok(None);
        }
        let first = self.argument(at)?;
        let rest = self.next_arguments(at)?;
        Ok(Some(ArgumentList { first, rest }))
    }

    fn next_arguments(&self, at: &mut usize) -> Result<Vec<NextArgument>, Stop>
        ensures reads { IfOk result (λ arguments. Reads self.now at.old at.new
            (joined (map next_argument_leaves arguments.items))) }
        ensures complete { Finds self.now at.old at.new (row next_argument_leaves)
            (Begins kind.RightParenthesis) result }
    {
        let mut arguments = Vec::new(self.alloc);
        while self.is_next(*at, WordKind::Comma) {
            arguments.push(self.next_argument(at)?)?;
        }
        Ok(arguments)
    }

    fn next_argument(&self, at: &mut usize) -> Result<NextArgument, Stop>
        ensures reads { IfOk result (λ argument. Reads self.now at.old at.new
            (next_argument_leaves argument)) }
        ensures complete { Finds self.now at.old at.new next_argument_leaves EndsArgument result }
    {
        let comma = self.symbol(at, WordKind::Comma)?;
        let argument = self.argument(at)?;
        Ok(NextArgument { comma, argument })
    }

    fn argument(&self, at: &mut usize) -> Result<Argument, Stop>
        ensures reads { IfOk result (λ argument. Reads self.now at.old at.new
            (argument_leaves argument)) }
        ensures complete { Finds self.now at.old at.new argument_leaves EndsArgument result }
    {
        let name = self.argument_name(at)?;
        let value = self.value(at)?;
        Ok(Argument { name, value })
    }

    /// Whether a name and `=` stand next, which no value does.
    fn begins_argument_name(&self, at: usize) -> bool
        ensures { IsTrue result ↔ IsKindAt self.now at kind.Identifier × IsKindAt self.now
            (at + 1) kind.Equals }
    {
        self.is_next(at, WordKind::Identifier) && self.is_second(at, WordKind::Equals)
    }

    /// The name of an argument, before `=`.
    fn argument_name(&self, at: &mut usize) -> Result<Option<ArgumentName>, Stop>
        ensures reads { IfOk result (λ name. Reads self.now at.old at.new
            (optional argument_name_leaves name)) }
        ensures complete { Finds self.now at.old at.new (optional argument_name_leaves) NotNamed
            result }
    {
        if !self.begins_argument_name(*at) {
            return Ok(None);
        }
        let name = self.name(at)?;
        let equals = self.symbol(at, WordKind::Equals)?;
        Ok(Some(ArgumentName { name, equals }))
    }
}
