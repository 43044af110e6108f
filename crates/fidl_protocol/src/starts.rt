//! The definitions from which a table's types are reached.
ghost use Rattle.std.specs.Prelude.{◌≡◌, ◌++◌, flat_map, IfOk, IfErr, OnOk};
ghost use Rattle.fidl_protocol.specs.Checked.{AreProtocolsWith};
ghost use Rattle.fidl_protocol.specs.Starts.{AreStarts};
ghost use Rattle.fidl_protocol.specs.Gathered.{payload_numbers, method_payloads, protocol_payloads};
ghost use Rattle.fidl_protocol.specs.declared.fault.ProtocolFault.TheVariants.{Memory};

use crate::fault::ProtocolFault;
use crate::method::{Method, Protocol};
use fidl_layout::declared_types;
use fidl_payloads::Payload;
use fidl_types::Types;
use std::alloc::{AllocError, Global};

/// Appends the definition of a payload.
fn push_payload(starts: &mut Vec<u32>, payload: Payload) -> Result<(), AllocError>
    ensures { OnOk result (starts.new.items ≡ starts.old.items ++ payload_numbers payload) }
{
    match payload {
        Payload::Missing | Payload::Empty => Ok(()),
        Payload::Type(number) => Ok(starts.push(number)?),
    }
}

/// Appends those of methods.
fn push_methods(starts: &mut Vec<u32>, methods: &[Method]) -> Result<(), AllocError>
    ensures { OnOk result (starts.new.items ≡ starts.old.items
        ++ flat_map method_payloads methods.now) }
{
    for method in methods {
        push_payload(starts, method.payloads.request)?;
        push_payload(starts, method.payloads.response)?;
    }
    Ok(())
}

/// Appends those of protocols.
fn push_protocols(starts: &mut Vec<u32>, protocols: &[Protocol]) -> Result<(), AllocError>
    ensures { OnOk result (starts.new.items ≡ starts.old.items
        ++ flat_map protocol_payloads protocols.now) }
{
    for protocol in protocols {
        push_methods(starts, &protocol.methods)?;
    }
    Ok(())
}

/// The numbers of declared types and of payloads.
pub(crate) fn starts(
    alloc: Global,
    types: &Types<'_, '_>,
    protocols: &[Protocol],
) -> Result<Vec<u32>, ProtocolFault>
    requires { AreProtocolsWith types.now protocols.now }
    ensures ok { IfOk result (λ found. AreStarts types.now found.items) }
    ensures fault { IfErr result (λ fault. fault ≡ Memory) }
{
    let Ok(mut found) = declared_types(alloc, types) else {
        return Err(ProtocolFault::Memory);
    };
    push_protocols(&mut found, protocols)?;
    Ok(found)
}
