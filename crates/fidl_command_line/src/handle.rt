//! Handles as they are written on a command line.
ghost use Rattle.std.specs.Prelude.{ℕ, IfSome, IfNone};
ghost use Rattle.fidl_wire.specs.declared.handle.HandleInfo.{HandleInfo};
ghost use Rattle.fidl_command_line.specs.Handles.{IsDecimal, IsHandleText};

use fidl_wire::HandleInfo;

/// A number of 32 bits, in decimal digits alone.
pub(crate) fn read_number(text: &str) -> Option<u32>
    ensures some { IfSome result (IsDecimal text.now) }
    ensures none { IfNone result ((n : ℕ) → IsDecimal text.now n → ⊥) }
{
    if text.starts_with('+') {
        return None;
    }
    text.parse::<u32>().ok()
}

/// A handle written as `I:T:R`: its id, its object type and its rights, each a decimal number of 32
/// bits.
pub fn read_handle(text: &str) -> Option<HandleInfo>
    ensures some { IfSome result (IsHandleText text.now) }
    ensures none { IfNone result ((h : HandleInfo) → IsHandleText text.now h → ⊥) }
{
    let (id, rest) = text.split_once(':')?;
    let (object_type, rights) = rest.split_once(':')?;
    Some(HandleInfo {
        id: read_number(id)?,
        object_type: read_number(object_type)?,
        rights: read_number(rights)?,
    })
}
