//! Libraries, as the files that belong to them.
ghost use Rattle.std.specs.Prelude.{◌≡◌, ◌<◌, ◌++◌, ◌∷◌, [], length, IfErr, OnOk};
ghost use Rattle.std.specs.Prelude.{IfOk, OnErr};
ghost use Rattle.fidl_tree.specs.declared.file.File.{File as Tree};
ghost use Rattle.fidl_named.specs.declared.place.DeclarationId.{DeclarationId};
ghost use Rattle.fidl_named.specs.Names.{all_declared, AreDistinct};
ghost use Rattle.fidl_names.specs.Refusals.{IsTrueOfAdding};
ghost use Rattle.fidl_names.specs.Resolved.{Resolves, IsTrueOfResolving};

use crate::declarations::declare_all;
use crate::member_numbers::number_file;
use crate::place_names::check_names;
use crate::resolution::{Resolution, check_rules};
use fidl_named::{AddedFile, DeclarationId, FileSet, NameFault, Named};
use fidl_tree::File;
use indexmap::IndexMap;
use std::alloc::Global;
use std::marker::Model;

/// The files of libraries, in the order in which they were added. Contracts see the list of their
/// trees.
#[derive(Drop)]
pub struct LibrarySet<'f, 's> {
    alloc: Global,
    files: Vec<AddedFile<'f, 's>>,
    names: IndexMap<Vec<u8>, DeclarationId>,
}

impl<'f, 's> Model for LibrarySet<'f, 's> {
    ghost use Rattle.std.specs.Prelude.{◌≡◌, List, map};
    ghost use Rattle.fidl_tree.specs.declared.file.File.{File as Tree};
    ghost use Rattle.std.specs.List.{AllByRecursion};
    ghost use Rattle.fidl_named.specs.Names.{all_entries, AreDistinct};
    ghost use Rattle.fidl_named.specs.MemberNumbers.{AreNumbersIn};
    ghost use Rattle.fidl_named.specs.NameMaps.{seen, names_of};
    ghost use Rattle.fidl_named.specs.StoredFiles.{files_coded};

    ghost Value = { List Tree };

    ghost coded = { files_coded };

    ghost view = { λ s. map (λ a. a.file.now) s.files.items };

    ghost invariant = { λ s. (seen s.names.entries ≡ all_entries (map (λ a. a.file.now)
        s.files.items) 0) × AreDistinct (names_of (seen s.names.entries))
        × AllByRecursion (λ a. AreNumbersIn a.file.now a.numbers.items) s.files.items };
}

impl<'f, 's> LibrarySet<'f, 's> {
    /// No files; it takes no memory.
    pub fn new(alloc: Global) -> LibrarySet<'f, 's>
        ensures { result ≡ [] }
    {
        LibrarySet {
            alloc,
            files: Vec::new(alloc),
            names: IndexMap::new(alloc),
        }
    }

    /// Adds a file. It is refused where its library would declare a name twice, or where memory ran
    /// out; then the set is as before.
    pub fn add(&mut self, file: &'f File<'s>) -> Result<(), NameFault>
        ensures ok { OnOk result (self.new ≡ self.old ++ file.now ∷ []) }
        ensures distinct { OnOk result (AreDistinct (all_declared (self.old ++ file.now ∷ []))) }
        ensures err { OnErr result (self.new ≡ self.old) }
        ensures fault_is_true { IfErr result (IsTrueOfAdding (all_declared self.old) file.now
            (length
            self.old)) }
    {
        let before = self.names.len();
        let file_index = self.files.len();
        let numbers = number_file(self.alloc, file)?;
        self.files.push(AddedFile { file, numbers })?;
        match declare_all(&mut self.names, self.alloc, file, file_index) {
            Ok(()) => Ok(()),
            Err(fault) => {
                self.names.truncate(before);
                self.files.pop();
                Err(fault)
            }
        }
    }

    /// Resolves the names of all files (public source: the FIDL language specification, "Libraries"
    /// and "Scoping"). Refused with DuplicateName where a list of members repeats a name,
    /// UnknownLibrary where no file of an imported library was added, BadImport where an import
    /// repeats a library or a name, ImportCycle where a library's imports lead back to it,
    /// AliasCycle where an alias leads back to itself, UnknownName and AmbiguousName where a name
    /// has no meaning at its place, or not just one, and Memory where memory ran out. The set is
    /// spent either way.
    pub fn resolve(self) -> Result<Named<'f, 's>, NameFault>
        ensures ok { IfOk result (λ named. named ≡ self.entry) }
        ensures resolves { OnOk result (Resolves self.entry) }
        ensures fault_is_true { IfErr result (IsTrueOfResolving self.entry) }
    {
        let set = FileSet::new(self.alloc, self.files, self.names);
        let Resolution {
            visible_names,
            ends,
            kept,
        } = check_rules(&set)?;
        let named = Named::new(set, visible_names, ends, kept);
        check_names(&named)?;
        Ok(named)
    }
}
