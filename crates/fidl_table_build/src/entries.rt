//! The section of entries.
ghost use Rattle.std.specs.Prelude.{◌≡◌, IfSome, IsNone, Some};
ghost use Rattle.fidl_wire.specs.Term as ty;
ghost use Rattle.fidl_reachable_types.specs.Growing.{reference_view, IsKept};

use crate::listing::Listing;
use crate::names::{NamePlace, push_name};
use crate::numbers::{push_u32, push_u64, small, sum};
use crate::sections::Sections;
use crate::values::range_count;
use fidl_ir::{Definition, NumberKind, Type};
use fidl_reachable_types::{TypeList, TypeRef};
use fidl_type_shape::Figure;
use std::alloc::{AllocError, Global};

const BOOL: u8 = 1;

const BITS: u8 = 10;

const ENUM: u8 = 11;

const STRING: u8 = 12;

const VECTOR: u8 = 13;

const ARRAY: u8 = 14;

const BOX: u8 = 15;

const STRUCT: u8 = 16;

const TABLE: u8 = 17;

const UNION: u8 = 18;

const HANDLE: u8 = 19;

/// The number of the kind of a whole number.
fn kind_number(kind: NumberKind) -> u8 {
    match kind {
        NumberKind::Int8 => 2,
        NumberKind::Int16 => 3,
        NumberKind::Int32 => 4,
        NumberKind::Int64 => 5,
        NumberKind::Uint8 => 6,
        NumberKind::Uint16 => 7,
        NumberKind::Uint32 => 8,
        NumberKind::Uint64 => 9,
    }
}

/// The flags of an entry.
fn flags(optional: bool, strict: bool) -> u8 {
    u8::from(optional) + 2 * u8::from(strict)
}

/// What an entry states beside its figure and its name.
#[derive(Clone, Copy, Drop)]
struct Shape {
    kind: u8,
    flags: u8,
    first: u32,
    count: u32,
    bound: u64,
    subtype: u32,
    rights: u32,
}

impl Shape {
    /// An entry of a kind that states nothing more.
    fn of(kind: u8) -> Shape {
        Shape {
            kind,
            flags: 0,
            first: 0,
            count: 0,
            bound: 0,
            subtype: 0,
            rights: 0,
        }
    }

    /// Appends the 40 bytes of the entry.
    fn push(
        self,
        entries: &mut Vec<u8>,
        figure: Figure,
        name: NamePlace,
    ) -> Result<(), AllocError> {
        entries.extend_from_slice(&[self.kind, self.flags, figure.align as u8, figure.nest as u8])?;
        push_u32(entries, figure.size)?;
        push_u32(entries, self.first)?;
        push_u32(entries, self.count)?;
        push_u64(entries, self.bound)?;
        push_u32(entries, self.subtype)?;
        push_u32(entries, self.rights)?;
        name.push(entries)
    }
}

/// How many rows and ranges of values the entries so far have.
#[derive(Clone, Copy, Drop)]
struct Parts {
    rows: usize,
    values: usize,
}

/// The number of a type's entry.
fn number_of(alloc: Global, list: &TypeList<'_>, of: TypeRef<'_>) -> Result<u32, AllocError>
    requires { IsKept list.now }
{
    match list.place(alloc, of)? {
        Some(place) => small(place),
        None => Err(AllocError),
    }
}

/// The shape of a type that is no definition.
fn type_shape(alloc: Global, list: &TypeList<'_>, of: &Type) -> Result<Shape, AllocError>
    requires { IsKept list.now }
{
    match of {
        Type::Bool | Type::Named(_) => Ok(Shape::of(BOOL)),
        Type::Number(kind) => Ok(Shape::of(kind_number(*kind))),
        Type::Handle {
            optional,
            subtype,
            rights,
        } => Ok(Shape {
            flags: flags(*optional, false),
            subtype: *subtype,
            rights: *rights,
            ..Shape::of(HANDLE)
        }),
        Type::Text { optional, bound } => Ok(Shape {
            flags: flags(*optional, false),
            bound: u64::from(*bound),
            ..Shape::of(STRING)
        }),
        Type::Vector {
            optional,
            bound,
            element,
        } => Ok(Shape {
            flags: flags(*optional, false),
            first: number_of(alloc, list, TypeRef::Of(element))?,
            bound: u64::from(*bound),
            ..Shape::of(VECTOR)
        }),
        Type::Array { element, count } => Ok(Shape {
            first: number_of(alloc, list, TypeRef::Of(element))?,
            count: *count,
            ..Shape::of(ARRAY)
        }),
        Type::Box(content) => Ok(Shape {
            first: number_of(alloc, list, TypeRef::Layout(*content))?,
            ..Shape::of(BOX)
        }),
    }
}

/// The shape of bits.
fn bits_shape(kind: NumberKind, mask: Option<u64>) -> Shape {
    Shape {
        flags: flags(false, mask.is_some()),
        bound: mask.unwrap_or(0),
        subtype: u32::from(kind_number(kind)),
        ..Shape::of(BITS)
    }
}

/// The shape of an enum, whose ranges follow those so far.
fn enum_shape(
    kind: NumberKind,
    values: &Option<Vec<i128>>,
    parts: Parts,
) -> Result<Shape, AllocError> {
    let count = match values {
        Some(values) => range_count(values),
        None => 0,
    };
    Ok(Shape {
        flags: flags(false, values.is_some()),
        first: small(parts.values)?,
        count: small(count)?,
        subtype: u32::from(kind_number(kind)),
        ..Shape::of(ENUM)
    })
}

/// The shape of a definition with members, whose rows follow those so far.
fn members_shape(kind: u8, flags: u8, count: usize, parts: Parts) -> Result<Shape, AllocError> {
    Ok(Shape {
        flags,
        first: small(parts.rows)?,
        count: small(count)?,
        ..Shape::of(kind)
    })
}

/// The shape of a definition.
fn definition_shape(definition: &Definition, parts: Parts) -> Result<Shape, AllocError> {
    match definition {
        Definition::Bits { kind, mask } => Ok(bits_shape(*kind, *mask)),
        Definition::Enum { kind, values } => enum_shape(*kind, values, parts),
        Definition::Struct(fields) => members_shape(STRUCT, 0, fields.len(), parts),
        Definition::Table(rows) => members_shape(TABLE, 0, rows.len(), parts),
        Definition::Union {
            optional,
            strict,
            rows,
        } => members_shape(UNION, flags(*optional, *strict), rows.len(), parts),
    }
}

/// The parts with those of a definition.
fn with_parts(parts: Parts, definition: &Definition) -> Result<Parts, AllocError> {
    let (rows, values) = match definition {
        Definition::Bits { .. } => (0, 0),
        Definition::Enum { values, .. } => match values {
            Some(values) => (0, range_count(values)),
            None => (0, 0),
        },
        Definition::Struct(fields) => (fields.len(), 0),
        Definition::Table(rows) => (rows.len(), 0),
        Definition::Union { rows, .. } => (rows.len(), 0),
    };
    Ok(Parts {
        rows: sum(parts.rows, rows)?,
        values: sum(parts.values, values)?,
    })
}

/// The number of the definition that a type is.
pub(crate) fn definition_number(of: TypeRef<'_>) -> Option<u32>
    ensures { IfSome result (λ number. reference_view of.entry ≡ ty.named number) }
{
    match of {
        TypeRef::Layout(number) => Some(number),
        TypeRef::Of(of) => match of {
            Type::Named(number) => Some(*number),
            _ => None,
        },
    }
}

/// Appends the entry of a definition, and gives the parts with its own.
fn push_definition(
    listing: &Listing<'_>,
    number: u32,
    parts: Parts,
    sections: &mut Sections,
) -> Result<Parts, AllocError> {
    let index = number as usize;
    let (Some(definition), Some(figure), Some(name)) = (
        listing.definitions.get(index),
        listing.figures.figure(index),
        listing.names.get(index),
    ) else {
        return Err(AllocError);
    };
    let name = push_name(&mut sections.names, name)?;
    definition_shape(definition, parts)?.push(&mut sections.entries, figure, name)?;
    with_parts(parts, definition)
}

/// Appends the entry of a type that is no definition.
fn push_type(
    alloc: Global,
    listing: &Listing<'_>,
    list: &TypeList<'_>,
    of: &Type,
    sections: &mut Sections,
) -> Result<(), AllocError>
    requires { IsKept list.now }
{
    let Some(figure) = listing.figures.of_type(of) else {
        return Err(AllocError);
    };
    let shape = type_shape(alloc, list, of)?;
    shape.push(&mut sections.entries, figure, NamePlace::NONE)
}

/// Appends the entries of all types of a list.
pub(crate) fn push_entries(
    alloc: Global,
    listing: &Listing<'_>,
    list: &TypeList<'_>,
    sections: &mut Sections,
) -> Result<(), AllocError>
    requires { IsKept list.now }
{
    let mut parts = Parts { rows: 0, values: 0 };
    for place in 0..list.count() {
        let Some(of) = list.get(place) else {
            return Err(AllocError);
        };
        match (definition_number(of), of) {
            (Some(number), _) => parts = push_definition(listing, number, parts, sections)?,
            (None, TypeRef::Of(of)) => push_type(alloc, listing, list, of, sections)?,
            (None, TypeRef::Layout(_)) => return Err(AllocError),
        }
    }
    Ok(())
}
