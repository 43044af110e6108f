//! The methods of protocols, as a table has them.
ghost use Rattle.std.specs.Prelude.{◌≡◌, IfOk};
ghost use Rattle.std.specs.List.{AllZip};
ghost use Rattle.fidl_table.specs.Listed.{carried_by, IsMethodEntry};

use crate::found::find;
use fidl_method_rules::method_full_name;
use fidl_named::Named;
use fidl_payloads::Payload;
use fidl_protocol::Method;
use fidl_table_build::{Carried, MethodEntry};
use std::alloc::{AllocError, Global};

/// What a message carries.
fn carried(payload: Payload) -> Carried
    ensures { result ≡ carried_by payload }
{
    match payload {
        Payload::Missing => Carried::Missing,
        Payload::Empty => Carried::Empty,
        Payload::Type(number) => Carried::Definition(number),
    }
}

/// A method, with its full name by the protocol that declares it.
fn method_entry(
    alloc: Global,
    named: &Named<'_, '_>,
    method: &Method,
) -> Result<MethodEntry, AllocError>
    ensures { IfOk result (IsMethodEntry named.now method.now) }
{
    let Some(found) = find(named, method.protocol) else {
        return Err(AllocError);
    };
    let name = method_full_name(alloc, found.file, found.protocol.name, method.own.name)?;
    let request = carried(method.payloads.request);
    let response = carried(method.payloads.response);
    Ok(MethodEntry {
        ordinal: method.own.ordinal,
        name,
        strict: method.own.is_strict,
        request,
        response,
    })
}

/// Methods, in their order.
pub(crate) fn method_entries(
    alloc: Global,
    named: &Named<'_, '_>,
    methods: &[Method],
) -> Result<Vec<MethodEntry>, AllocError>
    ensures { IfOk result (λ es. AllZip (IsMethodEntry named.now) methods.now es.items) }
{
    let mut entries = Vec::new(alloc);
    for method in methods {
        entries.push(method_entry(alloc, named, method)?)?;
    }
    Ok(entries)
}
