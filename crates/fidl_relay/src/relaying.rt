//! A decoded message, encoded again.
ghost use Rattle.std.specs.Prelude.{◌≡◌, IfOk};

use fidl_decode::Decoded;
use fidl_encode::{EncodeFault, Message, encode};
use fidl_view::Views;
use std::alloc::{AllocError, Global};

/// Encodes the value of a decoded message again: the same bytes and the same handles, or memory ran
/// out (public source: the FIDL wire format). So a relay that takes each message as a value and
/// sends that on loses nothing.
pub fn relay(alloc: Global, decoded: &Decoded<'_, '_, '_>) -> Result<Message, AllocError>
    ensures bytes { IfOk result (λ m. m.bytes.items ≡ decoded.now.bytes) }
    ensures handles { IfOk result (λ m. m.handles.items ≡ decoded.now.handles) }
{
    let value = decoded.view().to_value(alloc)?;
    match encode(alloc, decoded.table(), decoded.entry(), &value) {
        Ok(message) => Ok(message),
        Err(fault) => match fault {
            EncodeFault::Memory => Err(AllocError),
            _ => unreachable!(),
        },
    }
}
