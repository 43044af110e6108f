//! Unknown members of tables and unions.
ghost use Rattle.std.specs.Prelude.{◌≡◌, ◌≤◌, ◌<◌, ◌+◌, ◌*◌, ◌^◌, Bool, List, ℕ, OnOk, IfErr, IfSome, IsTrue, None, false, length, map};
ghost use Rattle.fidl_wire.specs.Term as ty;
ghost use Rattle.fidl_wire.specs.Value.{values_of, members_of, unknown, known};
ghost use Rattle.fidl_wire.specs.Figure.{Declarations};
ghost use Rattle.fidl_wire.specs.Typed.{IsHandle};
ghost use Rattle.std.specs.List.{AllByRecursion};
ghost use Rattle.fidl_table_format.specs.declared.kind.EntryKind.TheVariants as EntryKind;
ghost use Rattle.fidl_table_format.specs.Section.{header_of, entry_at};
ghost use Rattle.fidl_table_format.specs.Terms as terms;
ghost use Rattle.fidl_table_format.specs.Terms.{declarations_of, is_optional};
ghost use Rattle.fidl_table_format.specs.Entry.{IsOf};
ghost use Rattle.fidl_table_format.specs.WellFormed.{WellFormed};
ghost use Rattle.fidl_encode.specs.Writing.{IsWithin, written};
ghost use Rattle.fidl_encode.specs.Parts.{value_part, elements_part, entry_part, struct_part, type_at};
ghost use Rattle.fidl_encode.specs.Parts.{member_part, envelopes_part, row_type, IsWritten, IsRefused};

use crate::fault::EncodeFault;
use crate::message::Message;
use crate::target::Target;
use fidl_wire::HandleInfo;

/// The numbers of a record have 32 bits.
fn is_handle(handle: HandleInfo)
    ensures { IsHandle handle }
{}

/// Reads the numbers of records, so that they are known to have 32 bits.
fn are_handles(handles: &[HandleInfo])
    ensures { AllByRecursion IsHandle handles.now }
{
    for handle in handles {
        is_handle(*handle);
    }
}

/// Writes the envelope of an unknown member: its bytes are four in the envelope, or whole eights out
/// of line.
pub(crate) fn write_unknown(
    inline: bool,
    bytes: &[u8],
    handles: &[HandleInfo],
    target: Target,
    out: &mut Message,
) -> Result<(), EncodeFault>
    requires within { IsWithin (written out.old) }
    requires room { target.at + 8 ≤ length out.old.bytes.items }
    ensures ok { OnOk result ((ds : Declarations) → IsWritten
        (member_part ds false None (unknown inline bytes.now handles.now))
        target.depth target.at (written out.old) (written out.new)) }
    ensures fault_is_true { IfErr result (λ f. (ds : Declarations) → IsRefused
        (member_part ds false None (unknown inline bytes.now handles.now))
        target.depth (written out.old) f) }
{
    are_handles(handles);
    if inline {
        if bytes.len() != 4 {
            return Err(EncodeFault::WrongShape);
        }
        out.add_handles(handles)?;
        out.put(target.at, bytes);
        out.put_envelope_end(target.at, handles.len() as u16, 1);
        return Ok(());
    }
    if bytes.is_empty() || bytes.len() % 8 != 0 {
        return Err(EncodeFault::WrongShape);
    }
    target.depth_below()?;
    let place = out.reserve(bytes.len())?;
    out.add_handles(handles)?;
    out.put(place, bytes);
    out.put_envelope(target.at, bytes.len() as u32, handles.len() as u16);
    Ok(())
}
