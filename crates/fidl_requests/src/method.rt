//! The methods that a frame may call.
ghost use Rattle.std.specs.Prelude.{◌≡◌, IfSome, IfNone};
ghost use Rattle.fidl_requests.specs.Methods.{IsRequested, IsUnrequested, is_two_way};

use fidl_verify::{Method, Payload, Protocol};

/// The protocol's method of this ordinal that has a request, where there is one.
pub(crate) fn requested<'t>(protocol: &Protocol<'t>, ordinal: u64) -> Option<Method<'t>>
    ensures table { IfSome result (λ m. m.table ≡ protocol.now.table) }
    ensures some { IfSome result (λ m. IsRequested protocol.now ordinal m.number) }
    ensures none { IfNone result (IsUnrequested protocol.now ordinal) }
{
    let Some(method) = protocol.method(ordinal) else {
        return None;
    };
    match method.request() {
        Payload::Missing => None,
        Payload::Empty | Payload::Entry(_) => Some(method),
    }
}

/// Whether a method has a response.
pub(crate) fn is_two_way(method: &Method<'_>) -> bool
    ensures { result ≡ is_two_way method.now.table method.now.number }
{
    !matches!(method.response(), Payload::Missing)
}
