//! Types behind their aliases.

use fidl_named::{DeclarationId, Predeclared};
use fidl_tree::{Constraints, LayoutBody, TypeArguments};

/// What a type is that is no alias.
#[derive(Clone, Copy, Drop)]
pub enum Head<'f> {
    /// A predeclared type, with its arguments.
    Word {
        name: Predeclared,
        arguments: Option<&'f TypeArguments>,
    },
    Layout(&'f LayoutBody),
    /// The handle of the resource definition of this id.
    Handle(DeclarationId),
}

/// A list of constraints, and the number of the file that it stands in.
#[derive(Clone, Copy, Drop)]
pub struct Given<'f> {
    pub file_index: usize,
    pub constraints: Option<&'f Constraints>,
}

/// What a type is behind its aliases: its head with the number of the head's file, and all lists of
/// constraints on the way to it, the use's first. Lists without constraints count for nothing.
#[derive(Drop)]
pub struct Core<'f> {
    pub file_index: usize,
    pub head: Head<'f>,
    pub given: Vec<Given<'f>>,
}
