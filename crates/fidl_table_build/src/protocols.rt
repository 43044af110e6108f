//! The sections of roots, protocols and methods.
ghost use Rattle.std.specs.Prelude.{◌≡◌};
ghost use Rattle.fidl_reachable_types.specs.Growing.{IsKept};
ghost use Rattle.fidl_verify.specs.Lookups.{openness_number};

use crate::listing::{Carried, Listing, MethodEntry, ProtocolEntry};
use crate::names::push_name;
use crate::numbers::{push_u32, push_u64, small};
use crate::sections::Sections;
use fidl_reachable_types::{TypeList, TypeRef};
use fidl_verify::Openness;
use std::alloc::{AllocError, Global};

/// What stands in place of the entry of a payload where there is none.
pub(crate) const NO_PAYLOAD: u32 = 0xffff_ffff;

/// The number of the entry of a definition.
fn entry_number(alloc: Global, list: &TypeList<'_>, definition: u32) -> Result<u32, AllocError>
    requires { IsKept list.now }
{
    match list.place(alloc, TypeRef::Layout(definition))? {
        Some(place) => small(place),
        None => Err(AllocError),
    }
}

/// Appends the roots.
pub(crate) fn push_roots(
    alloc: Global,
    listing: &Listing<'_>,
    list: &TypeList<'_>,
    sections: &mut Sections,
) -> Result<(), AllocError>
    requires { IsKept list.now }
{
    for root in listing.roots {
        let Some(name) = listing.names.get(*root as usize) else {
            return Err(AllocError);
        };
        push_name(&mut sections.names, name)?.push(&mut sections.roots)?;
        push_u32(&mut sections.roots, entry_number(alloc, list, *root)?)?;
    }
    Ok(())
}

/// The number of an openness.
pub(crate) fn openness_number(openness: Openness) -> u32
    ensures { result ≡ openness_number openness }
{
    match openness {
        Openness::Closed => 0,
        Openness::Ajar => 1,
        Openness::Open => 2,
    }
}

/// Appends the protocols.
pub(crate) fn push_protocols(
    protocols: &[ProtocolEntry],
    sections: &mut Sections,
) -> Result<(), AllocError> {
    for protocol in protocols {
        push_name(&mut sections.names, &protocol.name)?.push(&mut sections.protocols)?;
        push_u32(&mut sections.protocols, openness_number(protocol.openness))?;
        push_u32(&mut sections.protocols, small(protocol.methods.len())?)?;
    }
    Ok(())
}

/// Whether a method has such a message.
fn is_there(carried: Carried) -> bool {
    !matches!(carried, Carried::Missing)
}

/// The entry of a payload.
fn payload_entry(alloc: Global, list: &TypeList<'_>, carried: Carried) -> Result<u32, AllocError>
    requires { IsKept list.now }
{
    match carried {
        Carried::Missing | Carried::Empty => Ok(NO_PAYLOAD),
        Carried::Definition(number) => entry_number(alloc, list, number),
    }
}

/// Appends a method.
fn push_method(
    alloc: Global,
    list: &TypeList<'_>,
    method: &MethodEntry,
    sections: &mut Sections,
) -> Result<(), AllocError>
    requires { IsKept list.now }
{
    let flags = u32::from(method.strict)
        + 2 * u32::from(is_there(method.request))
        + 4 * u32::from(is_there(method.response));
    push_u64(&mut sections.methods, method.ordinal)?;
    push_name(&mut sections.names, &method.name)?.push(&mut sections.methods)?;
    push_u32(&mut sections.methods, flags)?;
    let request = payload_entry(alloc, list, method.request)?;
    push_u32(&mut sections.methods, request)?;
    let response = payload_entry(alloc, list, method.response)?;
    push_u32(&mut sections.methods, response)?;
    push_u32(&mut sections.methods, 0)
}

/// Appends the methods of a protocol.
fn push_methods_of(
    alloc: Global,
    list: &TypeList<'_>,
    methods: &[MethodEntry],
    sections: &mut Sections,
) -> Result<(), AllocError>
    requires { IsKept list.now }
{
    for method in methods {
        push_method(alloc, list, method, sections)?;
    }
    Ok(())
}

/// Appends the methods of all protocols.
pub(crate) fn push_methods(
    alloc: Global,
    list: &TypeList<'_>,
    protocols: &[ProtocolEntry],
    sections: &mut Sections,
) -> Result<(), AllocError>
    requires { IsKept list.now }
{
    for protocol in protocols {
        push_methods_of(alloc, list, &protocol.methods, sections)?;
    }
    Ok(())
}
