//! The files that values are read in.
ghost use Rattle.std.specs.Prelude.{◌≡◌, Some, slice_get};
ghost use Rattle.fidl_consts.specs.InSet.{in_set_prop};

use crate::consts::Consts;
use fidl_named::Named;
use fidl_tree::File;
use std::alloc::Global;

/// A set of files with the values that are known of it.
#[derive(Clone, Copy, Drop)]
pub struct Scope<'c, 'a, 'f, 's> {
    pub alloc: Global,
    pub named: &'a Named<'f, 's>,
    pub consts: &'c Consts,
}

/// A file of a set, by its number.
#[derive(Clone, Copy, Drop)]
pub struct NamedFile<'a, 'f, 's> {
    pub named: &'a Named<'f, 's>,
    pub file_index: usize,
    pub tree: &'f File<'s>,
    ghost in_set: { slice_get named.now file_index ≡ Some tree.now } by { in_set_prop named.now file_index tree.now },
}

/// A file of a set with the values that are known of the set.
#[derive(Clone, Copy, Drop)]
pub struct FileScope<'c, 'a, 'f, 's> {
    pub alloc: Global,
    pub consts: &'c Consts,
    pub file: NamedFile<'a, 'f, 's>,
}
