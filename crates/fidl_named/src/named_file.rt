//! The names of one file, where all rules but the names' own hold.
ghost use Rattle.std.specs.Prelude.{◌≡◌, Some, slice_get};
ghost use Rattle.fidl_named.specs.ScopeFacts.{once};

use crate::fault::NameFault;
use crate::meaning::{Meaning, Wanted};
use crate::named::Named;
use fidl_tree::{File, Path};
use std::alloc::AllocError;

/// One of the files whose names are known.
#[derive(Clone, Copy, Drop)]
pub struct NamedFile<'a, 'f, 's> {
    pub named: &'a Named<'f, 's>,
    pub file_index: usize,
    pub file: &'f File<'s>,
    ghost file_at: { slice_get named.now file_index ≡ Some file.now } by { once named.now file_index file.now },
}

impl<'a, 'f, 's> NamedFile<'a, 'f, 's> {
    ghost use Rattle.std.specs.Prelude.{option_copied, IfErr, IfOk};
    ghost use Rattle.fidl_named.specs.declared.meaning.Wanted.TheVariants as Kind;
    ghost use Rattle.fidl_named.specs.Aliases.{WantsKind};
    ghost use Rattle.fidl_named.specs.Meanings.{components, IsJust, Means, IsTrueOfName};

    /// What a name means, where this kind is wanted.
    pub fn read(&self, path: &Path, wanted: Wanted) -> Result<Meaning, NameFault>
        ensures ok { IfOk result (Means self.now.named.now self.now.file.now wanted
            (components self.now.file.now.src.now path.now)) }
        ensures fault_is_true { IfErr result (IsTrueOfName self.now.named.now self.now.file.now
            self.now.file_index wanted path.now) }
    {
        self.named.meaning(self.file_index, path, wanted)
    }

    /// What a name means as a type, if anything.
    pub fn find(&self, path: &Path) -> Result<Option<Meaning>, AllocError>
        ensures { IfOk result (IsJust (Means self.now.named.now self.now.file.now Kind.«Type»
            (components self.now.file.now.src.now path.now))) }
    {
        self.named.type_meaning(self.file_index, path)
    }

    /// The kind that a type's name wants, which may be the second argument of another.
    pub fn kind_of_type(&self, argument_of: Option<&Path>) -> Result<Wanted, AllocError>
        ensures { IfOk result (WantsKind self.now.named.now self.now.file.now
            (option_copied argument_of.entry)) }
    {
        self.named.kind(self.file_index, argument_of)
    }
}
