//! The check of all protocols of files.
ghost use Rattle.std.specs.Prelude.{◌≡◌, IfErr, IfOk, OnOk};
ghost use Rattle.fidl_wire.specs.Figure.{Declarations};
ghost use Rattle.fidl_protocol.specs.Checked.{AreChecked};
ghost use Rattle.fidl_protocol.specs.Faults.{IsTrueOfProtocols};

use crate::checked::Checked;
use crate::fault::ProtocolFault;
use crate::protocol_list::protocol_list;
use crate::types::check_types;
use fidl_layout::Laid;
use std::alloc::Global;

/// Checks the protocols of files that are laid out, and gathers their methods, composed ones too
/// (public source: the FIDL language specification, "Protocols" and "Protocol composition"). `laid`
/// is spent either way. What each refusal means says `ProtocolFault`.
pub fn protocols<'f, 's>(
    alloc: Global,
    laid: Laid<'f, 's>,
) -> Result<Checked<'f, 's>, ProtocolFault>
    ensures ok { IfOk result (λ checked. checked ≡ laid.entry) }
    ensures kept { OnOk result ((ds : Declarations) × AreChecked laid.entry ds) }
    ensures fault_is_true { IfErr result (IsTrueOfProtocols laid.entry) }
{
    let protocols = protocol_list(alloc, laid.types())?;
    check_types(alloc, &laid, &protocols)?;
    Ok(Checked { laid, protocols })
}
