//! The numbers of the kinds of entries by which rows and elements are chosen.

/// The number of the kind of vectors.
pub(crate) const VECTOR: u8 = 13;

/// The number of the kind of boxes.
pub(crate) const BOX: u8 = 15;

/// The number of the kind of structs.
pub(crate) const STRUCT: u8 = 16;

/// The number of the kind of unions.
pub(crate) const UNION: u8 = 18;
