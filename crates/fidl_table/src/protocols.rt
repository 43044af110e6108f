//! The protocols of a library, as a table has them.
ghost use Rattle.std.specs.Prelude.{◌≡◌, IfOk};
ghost use Rattle.std.specs.List.{AllZip};
ghost use Rattle.fidl_tree.specs.Views.{openness_view};
ghost use Rattle.fidl_verify.specs.Lookups as Lookups;
ghost use Rattle.fidl_table.specs.Protocols.{openness_number};
ghost use Rattle.fidl_table.specs.Listed.{IsProtocolEntry, AreListed};

use crate::found::find;
use crate::methods::method_entries;
use fidl_method_rules::declared_name;
use fidl_named::Named;
use fidl_protocol::Protocol;
use fidl_table_build::ProtocolEntry;
use fidl_tree::Openness as Written;
use fidl_verify::Openness;
use std::alloc::{AllocError, Global};

/// How open a protocol is: one without a modifier is open.
fn openness_of(written: &Option<Written>) -> Openness
    ensures { Lookups.openness_number result ≡ openness_number (openness_view written.now) }
{
    match written {
        None | Some(Written::Open(_)) => Openness::Open,
        Some(Written::Ajar(_)) => Openness::Ajar,
        Some(Written::Closed(_)) => Openness::Closed,
    }
}

/// A protocol, with its full name and its methods.
fn protocol_entry(
    alloc: Global,
    named: &Named<'_, '_>,
    protocol: &Protocol,
) -> Result<ProtocolEntry, AllocError>
    ensures { IfOk result (IsProtocolEntry named.now protocol.now) }
{
    let Some(found) = find(named, protocol.id) else {
        return Err(AllocError);
    };
    let name = declared_name(alloc, found.file, found.protocol.name)?;
    let openness = openness_of(&found.protocol.openness);
    let methods = method_entries(alloc, named, &protocol.methods)?;
    Ok(ProtocolEntry {
        name,
        openness,
        methods,
    })
}

/// Protocols, in their order.
fn entries_of(
    alloc: Global,
    named: &Named<'_, '_>,
    protocols: &[Protocol],
) -> Result<Vec<ProtocolEntry>, AllocError>
    ensures { IfOk result (λ es. AllZip (IsProtocolEntry named.now) protocols.now es.items) }
{
    let mut entries = Vec::new(alloc);
    for protocol in protocols {
        entries.push(protocol_entry(alloc, named, protocol)?)?;
    }
    Ok(entries)
}

/// Protocols, in the order of their names.
pub(crate) fn protocol_entries(
    alloc: Global,
    named: &Named<'_, '_>,
    protocols: &[Protocol],
) -> Result<Vec<ProtocolEntry>, AllocError>
    ensures { IfOk result (λ es. AreListed named.now protocols.now es.items) }
{
    let mut entries = entries_of(alloc, named, protocols)?;
    entries.sort_by(|one, other| one.name.cmp(&other.name))?;
    Ok(entries)
}
