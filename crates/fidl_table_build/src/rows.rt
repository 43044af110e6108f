//! The section of rows.
ghost use Rattle.fidl_reachable_types.specs.Growing.{IsKept};

use crate::entries::definition_number;
use crate::listing::Listing;
use crate::names::push_name;
use crate::numbers::{push_u32, small};
use crate::sections::Sections;
use fidl_ir::{Definition, Field, Row, Type};
use fidl_reachable_types::{TypeList, TypeRef};
use std::alloc::{AllocError, Global};

/// What the rows of a table refer to.
#[derive(Clone, Copy, Drop)]
struct Rows<'a, 'd> {
    alloc: Global,
    listing: &'a Listing<'d>,
    list: &'a TypeList<'d>,
    ghost kept: { IsKept list.now },
}

impl Rows<'_, '_> {
    /// Appends a row: its key, the number of its type, and its name.
    fn push(
        &self,
        sections: &mut Sections,
        key: u32,
        name: &[u8],
        of: &Type,
    ) -> Result<(), AllocError> {
        let Some(place) = self.list.place(self.alloc, TypeRef::Of(of))? else {
            return Err(AllocError);
        };
        push_u32(&mut sections.rows, key)?;
        push_u32(&mut sections.rows, small(place)?)?;
        push_name(&mut sections.names, name)?.push(&mut sections.rows)
    }

    /// Appends the rows of a struct, each with the offset of its member.
    fn push_fields(
        &self,
        sections: &mut Sections,
        number: u32,
        fields: &[Field],
    ) -> Result<(), AllocError> {
        for (member, field) in fields.iter().enumerate() {
            let Some(offset) = self.listing.figures.offset(number as usize, member) else {
                return Err(AllocError);
            };
            self.push(sections, offset, &field.name, &field.of)?;
        }
        Ok(())
    }

    /// Appends the rows of a table or a union, whose ordinals rise.
    fn push_members(&self, sections: &mut Sections, rows: &[Row]) -> Result<(), AllocError> {
        for row in rows {
            self.push(sections, row.ordinal, &row.name, &row.of)?;
        }
        Ok(())
    }

    /// Appends the rows of a definition.
    fn push_definition(&self, sections: &mut Sections, number: u32) -> Result<(), AllocError> {
        match self.listing.definitions.get(number as usize) {
            None => Err(AllocError),
            Some(Definition::Bits { .. }) => Ok(()),
            Some(Definition::Enum { .. }) => Ok(()),
            Some(Definition::Struct(fields)) => self.push_fields(sections, number, fields),
            Some(Definition::Table(rows)) => self.push_members(sections, rows),
            Some(Definition::Union { rows, .. }) => self.push_members(sections, rows),
        }
    }
}

/// Appends the rows of all types of a list.
pub(crate) fn push_rows(
    alloc: Global,
    listing: &Listing<'_>,
    list: &TypeList<'_>,
    sections: &mut Sections,
) -> Result<(), AllocError>
    requires { IsKept list.now }
{
    let rows = Rows {
        alloc,
        listing,
        list,
    };
    for place in 0..list.count() {
        if let Some(number) = list.get(place).and_then(definition_number) {
            rows.push_definition(sections, number)?;
        }
    }
    Ok(())
}
