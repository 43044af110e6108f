//! What messages carry.

/// What a message of a member of a protocol carries, if the member has such a message (public
/// source: the FIDL language specification, "Protocols").
#[derive(Clone, Copy, PartialEq, Eq, Debug, Drop)]
pub enum Payload {
    /// There is no such message: a one-way method has no response, and an event no request.
    Missing,
    /// A message without content.
    Empty,
    /// The definition of this number: the place of its form among the forms of the files.
    Type(u32),
}

/// What the request and the response of a member of a protocol carry. An event is a response.
#[derive(Clone, Copy, Drop)]
pub struct Payloads {
    pub request: Payload,
    pub response: Payload,
}
