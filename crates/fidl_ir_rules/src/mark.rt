//! What makes a definition a resource.

/// What makes a definition a resource (public source: the FIDL language specification, "Resource
/// types").
#[derive(Clone, Copy, Drop)]
pub enum Mark {
    /// It is marked `resource`.
    Resource,
    /// It isn't marked, so it is none.
    Value,
    /// It is the result of a method, which is one where a member needs it.
    Result,
}
