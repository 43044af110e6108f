//! Values that hold no others: bools, strings and handles.
ghost use Rattle.std.specs.Prelude.{◌≡◌, ◌≤◌, ◌+◌, length, OnOk, IfErr};
ghost use Rattle.fidl_wire.specs.Term as ty;
ghost use Rattle.fidl_wire.specs.Figure.{Declarations};
ghost use Rattle.fidl_wire.specs.Views.{value_view};
ghost use Rattle.fidl_table_format.specs.Terms.{is_optional};
ghost use Rattle.fidl_encode.specs.Writing.{IsWithin, written};
ghost use Rattle.fidl_encode.specs.Parts.{value_part, IsWritten, IsRefused};

use crate::fault::EncodeFault;
use crate::message::Message;
use crate::shape::{as_bool, as_handle, as_text, check_absent};
use crate::target::Target;
use crate::text::is_text;
use fidl_table_format::Entry;
use fidl_wire::{SAME_RIGHTS, Value};

/// Whether what an entry declares may be absent.
pub(crate) fn is_optional(entry: &Entry) -> bool
    ensures { result ≡ is_optional entry.now }
{
    entry.flags % 2 == 1
}

/// Writes a bool.
#[inline(always)]
pub(crate) fn write_bool(
    value: &Value,
    target: Target,
    out: &mut Message,
) -> Result<(), EncodeFault>
    requires within { IsWithin (written out.old) }
    requires room { target.at + 1 ≤ length out.old.bytes.items }
    ensures ok { OnOk result ((ds : Declarations) → IsWritten
        (value_part ds ty.bool (value_view value.now)) target.depth target.at
        (written out.old) (written out.new)) }
    ensures fault_is_true { IfErr result (λ f. (ds : Declarations) → IsRefused
        (value_part ds ty.bool (value_view value.now)) target.depth (written out.old) f) }
{
    let Some(bool) = as_bool(value) else {
        return Err(EncodeFault::WrongShape);
    };
    out.put(target.at, &[u8::from(bool)]);
    Ok(())
}

/// Writes a string, or that it is absent.
#[inline(always)]
pub(crate) fn write_string(
    entry: &Entry,
    value: &Value,
    target: Target,
    out: &mut Message,
) -> Result<(), EncodeFault>
    requires within { IsWithin (written out.old) }
    requires room { target.at + 16 ≤ length out.old.bytes.items }
    ensures ok { OnOk result ((ds : Declarations) → IsWritten
        (value_part ds (ty.string (is_optional entry.now) entry.now.bound) (value_view value.now))
        target.depth target.at (written out.old) (written out.new)) }
    ensures fault_is_true { IfErr result (λ f. (ds : Declarations) → IsRefused
        (value_part ds (ty.string (is_optional entry.now) entry.now.bound) (value_view value.now))
        target.depth (written out.old) f) }
{
    let Some(bytes) = as_text(value) else {
        return check_absent(value, is_optional(entry));
    };
    target.depth_below()?;
    if bytes.len() as u64 > entry.bound {
        return Err(EncodeFault::OverBound);
    }
    let place = out.reserve(bytes.len())?;
    if !is_text(bytes.as_slice()) {
        return Err(EncodeFault::NotUtf8);
    }
    out.put(place, bytes.as_slice());
    out.put_count(target.at, bytes.len() as u64);
    Ok(())
}

/// Writes the marker of a handle and adds its record, or writes that it is absent.
pub(crate) fn write_handle(
    entry: &Entry,
    value: &Value,
    target: Target,
    out: &mut Message,
) -> Result<(), EncodeFault>
    requires within { IsWithin (written out.old) }
    requires room { target.at + 4 ≤ length out.old.bytes.items }
    ensures ok { OnOk result ((ds : Declarations) → IsWritten
        (value_part ds (ty.handle (is_optional entry.now) entry.now.subtype entry.now.rights)
        (value_view value.now)) target.depth target.at (written out.old) (written out.new)) }
    ensures fault_is_true { IfErr result (λ f. (ds : Declarations) → IsRefused
        (value_part ds (ty.handle (is_optional entry.now) entry.now.subtype entry.now.rights)
        (value_view value.now)) target.depth (written out.old) f) }
{
    let Some(handle) = as_handle(value) else {
        return check_absent(value, is_optional(entry));
    };
    let typed = entry.subtype == 0 || handle.object_type == entry.subtype;
    let granted = entry.rights == SAME_RIGHTS || handle.rights & entry.rights == entry.rights;
    if !typed || !granted {
        return Err(EncodeFault::WrongHandle);
    }
    out.add_handles(&[handle])?;
    out.put(target.at, &[255; 4]);
    Ok(())
}
