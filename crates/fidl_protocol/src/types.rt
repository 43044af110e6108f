//! The types of a table of the files are few enough.
ghost use Rattle.std.specs.Prelude.{List, OnOk, IfErr, IfSome};
ghost use Rattle.fidl_limits.specs.declared.limits.TheConstants.{MAX_ENTRIES};
ghost use Rattle.fidl_tree.specs.declared.file.File.{File as Tree};
ghost use Rattle.fidl_wire.specs.Term.{Term};
ghost use Rattle.fidl_reachable_types.specs.Faults.{AreTooMany};
ghost use Rattle.fidl_types.specs.Types.{TypesAre};
ghost use Rattle.fidl_protocol.specs.Methods.{IsDeclared};
ghost use Rattle.fidl_protocol.specs.Starts.{AreStarts, StartsFit};
ghost use Rattle.fidl_protocol.specs.Checked.{AreProtocolsWith};
ghost use Rattle.fidl_protocol.specs.Faults.{IsTrueOfProtocols};

use crate::fault::ProtocolFault;
use crate::method::{Method, Protocol};
use crate::starts::starts;
use fidl_layout::Laid;
use fidl_limits::MAX_ENTRIES;
use fidl_reachable_types::{EntryFault, reached_types};
use std::alloc::Global;

/// The last method of protocols.
fn last_method(protocols: &[Protocol]) -> Option<Method>
    ensures { IfSome result (λ m. (files : List Tree) → AreProtocolsWith files protocols.now
        → IsDeclared files m) }
{
    let mut found = None;
    for protocol in protocols {
        if let Some(method) = protocol.methods.last() {
            found = Some(*method);
        }
    }
    found
}

/// The declared types and the payloads reach too many types, which is reported at a method: without
/// methods the declared types alone would.
fn too_many(laid: &Laid<'_, '_>, protocols: &[Protocol], starts: &[u32]) -> ProtocolFault
    requires protocols { AreProtocolsWith laid.now protocols.now }
    requires starts { AreStarts laid.now starts.now }
    requires many { (ts : List Term) × TypesAre laid.now ts × AreTooMany ts starts.now MAX_ENTRIES }
    ensures { IsTrueOfProtocols laid.now result }
{
    match last_method(protocols) {
        Some(method) => ProtocolFault::TooManyTypes {
            place: method.place(),
        },
        None => ProtocolFault::Memory,
    }
}

/// The declared types and the payloads reach no more types than a table may have.
pub(crate) fn check_types(
    alloc: Global,
    laid: &Laid<'_, '_>,
    protocols: &[Protocol],
) -> Result<(), ProtocolFault>
    requires { AreProtocolsWith laid.now protocols.now }
    ensures ok { OnOk result ((ts : List Term) → TypesAre laid.now ts → StartsFit laid.now ts) }
    ensures fault_is_true { IfErr result (IsTrueOfProtocols laid.now) }
{
    let types = laid.types();
    let starts = starts(alloc, types, protocols)?;
    match reached_types(alloc, types.definitions(), &starts, MAX_ENTRIES as usize) {
        Ok(_) => Ok(()),
        Err(EntryFault::TooMany) => Err(too_many(laid, protocols, &starts)),
        Err(EntryFault::Memory) => Err(ProtocolFault::Memory),
    }
}
