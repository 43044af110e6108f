//! What the files of a set see by their imports.
ghost use Rattle.std.specs.Prelude.{◌≡◌, Some, map, slice_get};
ghost use Rattle.std.specs.List.{AllByRecursion};
ghost use Rattle.fidl_named.specs.Imports.{visible as visible_in, ImportsAreApart};
ghost use Rattle.fidl_named.specs.Meanings.{MembersDiffer};
ghost use Rattle.fidl_named.specs.NameMaps.{texts_view};
ghost use Rattle.fidl_named.specs.ScopeFacts.{is_apart_once, differ_once, once};

use crate::file_set::FileSet;
use fidl_tree::File;
use indexmap::IndexMap;

/// The files of a set whose imports and members differ, with what each sees by its imports.
#[derive(Clone, Copy, Drop)]
pub struct SetScope<'a, 'f, 's> {
    pub set: &'a FileSet<'f, 's>,
    pub visible_names: &'a [IndexMap<Vec<u8>, Vec<u8>>],
    ghost sees: { map (λ s. texts_view s.entries) visible_names.now ≡ map visible_in set.now },
    ghost apart: { AllByRecursion ImportsAreApart set.now } by { is_apart_once set.now },
    ghost members: { MembersDiffer set.now } by { differ_once set.now },
}

/// One of them.
#[derive(Clone, Copy, Drop)]
pub struct FileScope<'a, 'f, 's> {
    pub names: SetScope<'a, 'f, 's>,
    pub file_index: usize,
    pub file: &'f File<'s>,
    ghost file_at: { slice_get names.set.now file_index ≡ Some file.now } by { once names.set.now file_index file.now },
}

impl<'a, 'f, 's> FileScope<'a, 'f, 's> {
    /// The libraries that the file sees, by the names under which it sees them.
    pub fn visible(&self) -> &'a IndexMap<Vec<u8>, Vec<u8>>
        ensures sees { texts_view result.now.entries ≡ visible_in self.now.file.now }
        ensures apart { ImportsAreApart self.now.file.now }
    {
        &self.names.visible_names[self.file_index]
    }
}
