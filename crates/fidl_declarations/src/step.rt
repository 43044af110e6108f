//! The steps of a name by path.

use fidl_span::Span;

/// One step of the path by which a layout without a name of its own is named.
#[derive(Clone, Copy, PartialEq, Eq, Debug, Drop)]
pub enum Step {
    /// The name of a declaration, a member or a method.
    Name(Span),
    /// The request of a method.
    Request,
    /// The response of a method, or the payload of an event.
    Response,
    /// The type behind `error`.
    Error,
    /// The union in which a method answers.
    Result,
}
