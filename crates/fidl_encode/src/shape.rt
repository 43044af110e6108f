//! The shape of a value: what its tree is, where it is that.
ghost use Rattle.std.specs.Prelude.{◌≡◌, ◌≢◌, ◌<◌, ◌^◌, ℕ, ℤ, Bool, List, OnOk, IfOk, OnErr, IfErr, IfSome, IfNone, IsTrue};
ghost use Rattle.fidl_wire.specs.declared.handle.HandleInfo.{HandleInfo};
ghost use Rattle.fidl_wire.specs.Value as data_of;
ghost use Rattle.fidl_wire.specs.Value.{absent, bool, number, text, list};
ghost use Rattle.fidl_wire.specs.Value.{fields, handle, table, union, values_of, members_of};
ghost use Rattle.fidl_wire.specs.Views.{value_view, values_view, members_view, content_view};
ghost use Rattle.fidl_encode.specs.declared.fault.EncodeFault.TheVariants.{WrongShape};

use crate::fault::EncodeFault;
use fidl_wire::{Bytes, Content, HandleInfo, Members, Value, Values};

/// Whether a value is absent, where it may be.
pub(crate) fn check_absent(value: &Value, may_be: bool) -> Result<(), EncodeFault>
    ensures absence { OnOk result (value_view value.now ≡ absent) }
    ensures optional { OnOk result (IsTrue may_be) }
    ensures present { OnErr result (IsTrue may_be → value_view value.now ≢ absent) }
    ensures fault { IfErr result (λ f. f ≡ WrongShape) }
{
    match value {
        Value::Absent if may_be => Ok(()),
        _ => Err(EncodeFault::WrongShape),
    }
}

/// The bool of a value that is one.
pub(crate) fn as_bool(value: &Value) -> Option<bool>
    ensures some { IfSome result (λ b. value_view value.now ≡ bool b) }
    ensures none { IfNone result ((b : Bool) → value_view value.now ≢ bool b) }
{
    match value {
        Value::Bool(bool) => Some(*bool),
        _ => None,
    }
}

/// The number of a value that is one.
pub(crate) fn as_number(value: &Value) -> Option<i128>
    ensures some { IfSome result (λ z. value_view value.now ≡ number z) }
    ensures none { IfNone result ((z : ℤ) → value_view value.now ≢ number z) }
{
    match value {
        Value::Number(number) => Some(*number),
        _ => None,
    }
}

/// The text of a value that is one.
pub(crate) fn as_text(value: &Value) -> Option<&Bytes>
    ensures some { IfSome result (λ bytes. value_view value.now ≡ text bytes.now) }
    ensures none { IfNone result ((bytes : List ℕ) → value_view value.now ≢ text bytes) }
{
    match value {
        Value::Text(bytes) => Some(bytes),
        _ => None,
    }
}

/// The elements of a value that is a list.
pub(crate) fn as_list(value: &Value) -> Option<&Values>
    ensures some { IfSome result (λ vs. value_view value.now ≡ list (values_of (values_view vs.now))) }
    ensures none { IfNone result ((vs : data_of.Values) → value_view value.now ≢ list vs) }
{
    match value {
        Value::List(values) => Some(values),
        _ => None,
    }
}

/// The members of a value that is a struct.
pub(crate) fn as_fields(value: &Value) -> Option<&Values>
    ensures some { IfSome result (λ vs. value_view value.now
        ≡ fields (values_of (values_view vs.now))) }
    ensures none { IfNone result ((vs : data_of.Values) → value_view value.now ≢ fields vs) }
{
    match value {
        Value::Fields(values) => Some(values),
        _ => None,
    }
}

/// The handle of a value that is one.
pub(crate) fn as_handle(value: &Value) -> Option<HandleInfo>
    ensures some { IfSome result (λ h. value_view value.now ≡ handle h) }
    ensures none { IfNone result ((h : HandleInfo) → value_view value.now ≢ handle h) }
{
    match value {
        Value::Handle(handle) => Some(*handle),
        _ => None,
    }
}

/// The number of envelopes and the members of a value that is a table.
pub(crate) fn as_table(value: &Value) -> Option<(u64, &Members)>
    ensures some { IfSome result (λ p. value_view value.now
        ≡ table p.0 (members_of (members_view p.1.now))) }
    ensures none { IfNone result ((n : ℕ) (ms : data_of.Members) → value_view value.now
        ≢ table n ms) }
{
    match value {
        Value::Table { count, members } => Some((*count, members)),
        _ => None,
    }
}

/// The ordinal and the member of a value that is a union.
pub(crate) fn as_union(value: &Value) -> Option<(u64, &Content)>
    ensures some { IfSome result (λ p. value_view value.now ≡ union p.0 (content_view p.1.now)) }
    ensures range { IfSome result (λ p. p.0 < 2 ^ 64) }
    ensures none { IfNone result ((ordinal : ℕ) (m : data_of.Member) → value_view value.now
        ≢ union ordinal m) }
{
    match value {
        Value::Union(ordinal, content) => Some((*ordinal, content)),
        _ => None,
    }
}
