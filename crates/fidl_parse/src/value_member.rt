// The members of bits and enums.
ghost use Rattle.std.specs.Prelude.{IfOk, OnOk, ◌<◌, length, map};
ghost use Rattle.fidl_tree.specs.Leaf.{joined};
ghost use Rattle.fidl_tree.specs.ValueMember.{value_member_leaves};
ghost use Rattle.fidl_parse.specs.Reading.{Reads};
ghost use Rattle.fidl_parse.specs.Completeness.{Finds, row};
ghost use Rattle.fidl_parse.specs.FollowSets.{Anything, Begins};
ghost use Rattle.fidl_span.specs.declared.words.WordKind.TheVariants as kind;

use crate::fault::Stop;
use crate::parser::Parser;
use fidl_span::WordKind;
use fidl_tree::ValueMember;

impl<'w, 's> Parser<'w, 's> {
    /// The members up to a closing brace.
    pub(crate) fn value_members(&self, at: &mut usize) -> Result<Vec<ValueMember>, Stop>
        ensures reads { IfOk result (λ members. Reads self.now at.old at.new
            (joined (map value_member_leaves members.items))) }
        ensures complete { Finds self.now at.old at.new (row value_member_leaves)
            (Begins kind.RightBrace) result }
    {
        let mut members = Vec::new(self.alloc);
        while !self.is_next(*at, WordKind::RightBrace) {
            members.push(self.value_member(at)?)?;
        }
        Ok(members)
    }

    fn value_member(&self, at: &mut usize) -> Result<ValueMember, Stop>
        ensures reads { IfOk result (λ member. Reads self.now at.old at.new
            (value_member_leaves member)) }
        ensures complete { Finds self.now at.old at.new value_member_leaves Anything result }
        ensures forward { OnOk result (at.old < at.new) }
        ensures within { OnOk result (at.old < length self.now.words.now) }
    {
        let attributes = self.attributes(at)?;
        let name = self.name(at)?;
        let equals = self.symbol(at, WordKind::Equals)?;
        let value = self.value(at)?;
        let semicolon = self.symbol(at, WordKind::Semicolon)?;
        Ok(ValueMember {
            attributes,
            name,
            equals,
            value,
            semicolon,
        })
    }
}
