//! What stands in a file.

use crate::step::Step;
use fidl_tree::{Attribute, Constraints, Layout, LayoutBody, NamedType, Path, Response};

/// What the place of a type asks of it.
#[derive(Clone, Copy, Drop)]
pub enum Role<'f> {
    /// Nothing of its own.
    Any,
    /// What an alias stands for: it may leave open what other places ask for.
    Aliased,
    /// An underlying type, or that of a property: neither arguments nor constraints.
    Bare,
    /// A member of a table or a union, or the type after `error`: never absent.
    Present,
    /// A member of a service.
    Service,
    /// The second argument of a type of this name.
    SecondArgument(&'f Path),
}

/// What stands in a file. A path goes from the name of the declaration to what stands in it.
#[derive(Drop)]
pub enum Site<'f> {
    /// A type that is given by its name.
    Named {
        role: Role<'f>,
        named: &'f NamedType,
    },
    /// A type that is written as a layout.
    Written {
        role: Role<'f>,
        layout: &'f Layout,
        constraints: Option<&'f Constraints>,
    },
    /// A layout.
    Layout {
        path: Vec<Step>,
        body: &'f LayoutBody,
    },
    /// The union in which a method answers.
    Result {
        path: Vec<Step>,
        strict: bool,
        response: &'f Response,
    },
    /// The struct in a result where the method answers nothing.
    EmptyResponse {
        path: Vec<Step>,
    },
    /// The attributes of a library, an import, a declaration, a layout or a member.
    Attributes {
        attributes: &'f [Attribute],
    },
}
