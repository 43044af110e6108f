//! The file in which a definition stands.

use fidl_lower_types::Sources;
use fidl_tree::File;

/// A file of the sources, with its number.
#[derive(Clone, Copy, Drop)]
pub struct Scope<'a, 'f, 's> {
    pub sources: &'a Sources<'a, 'f, 's>,
    pub file_index: usize,
    pub file: &'f File<'s>,
}
