//! The shape `unions`: a struct of a vector of unions.
ghost use Rattle.std.specs.Prelude.{◌≡◌, ◌<◌, IfSome};
ghost use Rattle.fidl_table_format.specs.Section.{header_of};
ghost use Rattle.fidl_view.specs.Views.{part_of};
ghost use Rattle.fidl_members.specs.Entries.{owner};
ghost use Rattle.fidl_members.specs.Owners.{owner_shown};

use crate::found::Found;
use crate::nested::Nested;
use crate::roots::{element_of, variant_of};
use fidl_members::ScalarType;
use fidl_verify::Table;
use fidl_view::View;

/// The types of the members of a choice.
#[derive(Drop)]
pub struct Choice<'t> {
    pub table: &'t Table<'t>,
    small: ScalarType<'t, u32>,
    large: ScalarType<'t, u64>,
    nested: Nested<'t>,
    ghost of_small: { small.table.now ≡ table.now },
    ghost of_large: { large.table.now ≡ table.now },
    ghost of_nested: { nested.table.now ≡ table.now },
}

impl<'t> Choice<'t> {
    /// The types of the members of the unions of the vector in a root's struct.
    pub fn find(table: &'t Table<'t>, root: u32) -> Option<Choice<'t>>
        requires { root < (header_of table.now).entries }
        ensures { IfSome result (λ c. c.table.now ≡ table.now) }
    {
        let entry = element_of(table, root)?;
        Some(Choice {
            table,
            small: ScalarType::find(table, variant_of(table, entry, 1)?)?,
            large: ScalarType::find(table, variant_of(table, entry, 2)?)?,
            nested: Nested::find(table, variant_of(table, entry, 4)?)?,
        })
    }

    /// The number that a view shows, where it is of one of the two types.
    #[inline(always)]
    fn number(&self, view: View<'_, '_>) -> Option<u64>
        requires { (part_of view).message.table ≡ self.now.table.now }
    {
        if view.entry() == self.large.entry {
            return Some(self.large.read(view));
        }
        if view.entry() == self.small.entry {
            return Some(u64::from(self.small.read(view)));
        }
        None
    }

    /// The sum of the member that a choice has.
    #[inline(always)]
    fn sum_choice(&self, view: View<'_, '_>) -> Option<u64>
        requires { (part_of view).message.table ≡ self.now.table.now }
    {
        let (ordinal, member) = view.variant()?;
        let member = member?;
        match ordinal {
            1 | 2 => self.number(member),
            3 => Some(member.as_str()?.len() as u64),
            4 => self.nested.sum_of(member),
            _ => None,
        }
    }
}

impl<'t> Found for Choice<'t> {
    ghost table = { λ c. c.table.now };

    fn sum(&self, view: View<'_, '_>) -> Option<u64> {
        let items = view.field(0)?.elements();
        let mut sum = 0u64;
        for at in 0..items.left() {
            sum = sum.wrapping_add(self.sum_choice(items.at(at))?);
        }
        Some(sum)
    }
}
