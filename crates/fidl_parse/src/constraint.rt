// The constraints of a type.
ghost use Rattle.std.specs.Prelude.{IfOk, map, ◌+◌};
ghost use Rattle.fidl_tree.specs.Leaf.{joined, optional};
ghost use Rattle.fidl_tree.specs.Constraint.{constraints_leaves, next_constraint_leaves};
ghost use Rattle.fidl_parse.specs.Reading.{Reads, IsKindAt};
ghost use Rattle.fidl_parse.specs.Completeness.{Finds, row};
ghost use Rattle.fidl_parse.specs.FollowSets.{Anything, Begins, Not, extends_value, extends_type};
ghost use Rattle.fidl_span.specs.declared.words.WordKind.TheVariants as kind;

use crate::fault::Stop;
use crate::parser::Parser;
use fidl_span::WordKind;
use fidl_tree::{Constraints, NextConstraint};

impl<'w, 's> Parser<'w, 's> {
    /// The constraints, where a colon stands.
    pub(crate) fn constraints(&self, at: &mut usize) -> Result<Option<Constraints>, Stop>
        ensures reads { IfOk result (λ constraints. Reads self.now at.old at.new
            (optional constraints_leaves constraints)) }
        ensures complete { Finds self.now at.old at.new (optional constraints_leaves)
            (Not extends_type) result }
    {
        if !self.is_next(*at, WordKind::Colon) {
            return Ok(None);
        }
        if self.is_second(*at, WordKind::Less) {
            return Ok(Some(self.constraint_list(at)?));
        }
        let colon = self.symbol(at, WordKind::Colon)?;
        let value = Box::new(self.alloc, self.value(at)?)?;
        Ok(Some(Constraints::Single { colon, value }))
    }

    /// Constraints in angle brackets.
    fn constraint_list(&self, at: &mut usize) -> Result<Constraints, Stop>
        ensures reads { IfOk result (λ constraints. Reads self.now at.old at.new
            (constraints_leaves constraints)) }
        ensures complete { IsKindAt self.now (at.old + 1) kind.Less
            → Finds self.now at.old at.new constraints_leaves Anything result }
    {
        let colon = self.symbol(at, WordKind::Colon)?;
        let less = self.symbol(at, WordKind::Less)?;
        let first = Box::new(self.alloc, self.value(at)?)?;
        let rest = self.next_constraints(at)?;
        let greater = self.symbol(at, WordKind::Greater)?;
        Ok(Constraints::List {
            colon,
            less,
            first,
            rest,
            greater,
        })
    }

    fn next_constraints(&self, at: &mut usize) -> Result<Vec<NextConstraint>, Stop>
        ensures reads { IfOk result (λ constraints. Reads self.now at.old at.new
            (joined (map next_constraint_leaves constraints.items))) }
        ensures complete { Finds self.now at.old at.new (row next_constraint_leaves)
            (Begins kind.Greater) result }
    {
        let mut constraints = Vec::new(self.alloc);
        while self.is_next(*at, WordKind::Comma) {
            constraints.push(self.next_constraint(at)?)?;
        }
        Ok(constraints)
    }

    fn next_constraint(&self, at: &mut usize) -> Result<NextConstraint, Stop>
        ensures reads { IfOk result (λ constraint. Reads self.now at.old at.new
            (next_constraint_leaves constraint)) }
        ensures complete { Finds self.now at.old at.new next_constraint_leaves
            (Not extends_value) result }
    {
        let comma = self.symbol(at, WordKind::Comma)?;
        let value = self.value(at)?;
        Ok(NextConstraint { comma, value })
    }
}
