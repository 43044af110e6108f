//! The table of a listing.
ghost use Rattle.std.specs.Prelude.{◌≡◌, ◌++◌, IfOk, IsTrue, OnOk, flat_map, map};
ghost use Rattle.fidl_ir.specs.Terms.{definitions_view};
ghost use Rattle.fidl_reachable_types.specs.Growing.{reference_view, types_of, IsKept};
ghost use Rattle.fidl_reachable_types.specs.Reached.{AreReached};
ghost use Rattle.fidl_table_format.specs.Section.{header_of};
ghost use Rattle.fidl_table_format.specs.WellFormed.{WellFormed};
ghost use Rattle.fidl_table_build.specs.Starts.{carried_number, method_numbers, protocol_numbers};
ghost use Rattle.fidl_table_build.specs.Starts.{starts_of};
ghost use Rattle.fidl_table_build.specs.Assembled.{IsAssembled};

use crate::listing::{Carried, Listing, MethodEntry, ProtocolEntry};
use crate::records::Records;
use crate::sections::table_bytes;
use crate::shown_protocols::are_protocols;
use crate::shown_roots::are_roots;
use fidl_limits::MAX_ENTRIES;
use fidl_reachable_types::{TypeList, TypeRef, reached_types};
use fidl_table_check::{entries_are, names_are};
use fidl_verify::{Table, verify};
use std::alloc::{AllocError, Global};

/// The version of the format that is written.
const WRITTEN_VERSION: u16 = 2;

/// Appends the definition that a message carries.
fn push_carried(starts: &mut Vec<u32>, carried: Carried) -> Result<(), AllocError>
    ensures { OnOk result (starts.new.items ≡ starts.old.items ++ carried_number carried) }
{
    match carried {
        Carried::Missing | Carried::Empty => Ok(()),
        Carried::Definition(number) => Ok(starts.push(number)?),
    }
}

/// Appends those of methods.
fn push_methods(starts: &mut Vec<u32>, methods: &[MethodEntry]) -> Result<(), AllocError>
    ensures { OnOk result (starts.new.items ≡ starts.old.items
        ++ flat_map method_numbers methods.now) }
{
    for method in methods {
        push_carried(starts, method.request)?;
        push_carried(starts, method.response)?;
    }
    Ok(())
}

/// Appends those of protocols.
fn push_protocols(starts: &mut Vec<u32>, protocols: &[ProtocolEntry]) -> Result<(), AllocError>
    ensures { OnOk result (starts.new.items ≡ starts.old.items
        ++ flat_map protocol_numbers protocols.now) }
{
    for protocol in protocols {
        push_methods(starts, &protocol.methods)?;
    }
    Ok(())
}

/// The definitions from which the types are reached: the roots, then what messages carry.
fn starts_of(alloc: Global, listing: &Listing<'_>) -> Result<Vec<u32>, AllocError>
    ensures { IfOk result (λ starts. starts.items ≡ starts_of listing.now) }
{
    let mut starts = Vec::new(alloc);
    starts.extend_from_slice(listing.roots)?;
    push_protocols(&mut starts, listing.protocols)?;
    Ok(starts)
}

/// The types of the table: the roots, then what messages carry, then what these hold.
fn all_types<'d>(alloc: Global, listing: &Listing<'d>) -> Result<TypeList<'d>, AllocError>
    ensures kept { IfOk result IsKept }
    ensures reached { IfOk result (λ list. AreReached (definitions_view listing.now.definitions.now)
        (starts_of listing.now) (types_of list)) }
{
    let starts = starts_of(alloc, listing)?;
    match reached_types(alloc, listing.definitions, &starts, MAX_ENTRIES as usize) {
        Ok(list) => Ok(list),
        Err(_) => Err(AllocError),
    }
}

/// The types of a list.
fn types_of<'d>(alloc: Global, list: &TypeList<'d>) -> Result<Vec<TypeRef<'d>>, AllocError>
    ensures { IfOk result (λ types. map reference_view types.items ≡ types_of list.now) }
{
    let mut types = Vec::new(alloc);
    for place in 0..list.count() {
        let Some(of) = list.get(place) else {
            return Err(AllocError);
        };
        types.push(of)?;
    }
    Ok(types)
}

/// Whether a table is that of a listing, with these types.
fn is_assembled(table: &Table<'_>, listing: &Listing<'_>, types: &[TypeRef<'_>]) -> bool
    requires { AreReached (definitions_view listing.now.definitions.now) (starts_of listing.now)
        (map reference_view types.now) }
    ensures { IsTrue result → IsAssembled listing.now table.now }
{
    if !entries_are(table, listing.definitions, types) {
        return false;
    }
    if !names_are(table, listing.names, types) {
        return false;
    }
    let records = Records::of(table);
    are_roots(&records, listing.names, types, listing.roots)
        && are_protocols(&records, types, listing.protocols)
}

/// The bytes of the coding table of a listing, of version 2 (docs/table.md, "What is written"). The
/// table is read back and compared with the listing before it is handed out.
///
/// `AllocError`: memory ran out, or the listing has no table: it has more names, protocols or
/// methods than fields of four bytes count, types past the limits, names that are no names of a
/// table, or ordinals or names that do not rise.
pub fn assemble(alloc: Global, listing: &Listing<'_>) -> Result<Vec<u8>, AllocError>
    ensures well_formed { IfOk result (λ table. WellFormed table.items) }
    ensures version { IfOk result (λ table. (header_of table.items).version ≡ 2) }
    ensures assembled { IfOk result (λ table. IsAssembled listing.now table.items) }
{
    let list = all_types(alloc, listing)?;
    let bytes = table_bytes(alloc, listing, &list)?;
    let types = types_of(alloc, &list)?;
    let Ok(table) = verify(&bytes) else {
        return Err(AllocError);
    };
    if Records::of(&table).version() != WRITTEN_VERSION || !is_assembled(&table, listing, &types) {
        return Err(AllocError);
    }
    Ok(bytes)
}
