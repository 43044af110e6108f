//! Where something stands in the sources of a set.

use fidl_span::Span;

/// A place in the sources of a set: the file, by how many files the set held before it, and the
/// span in its source, in bytes.
#[derive(Clone, Copy, PartialEq, Eq, Debug, Drop)]
pub struct Place {
    pub file: usize,
    pub span: Span,
}

/// A declaration of a set: the file, by how many files the set held before it, and its number in
/// the file, from 0.
#[derive(Clone, Copy, PartialEq, Eq, Debug, Drop)]
pub struct DeclarationId {
    pub file: usize,
    pub index: usize,
}

/// A property of a resource definition: the definition's id, and the property's number in it, from
/// 0.
#[derive(Clone, Copy, PartialEq, Eq, Debug, Drop)]
pub struct PropertyId {
    pub id: DeclarationId,
    pub number: usize,
}
