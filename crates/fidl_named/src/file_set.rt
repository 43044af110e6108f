//! The files of libraries, and the declarations in them.
ghost use Rattle.std.specs.Prelude.{◌≡◌, ◌<◌, length, slice_get, Some};
ghost use Rattle.std.specs.Prelude.{◌↔◌, IfSome, IsNone, IsTrue};
ghost use Rattle.fidl_tree.specs.declared.file.File.{File as Tree};
ghost use Rattle.fidl_tree.specs.declared.declaration.Declaration.{Declaration as Node};
ghost use Rattle.fidl_named.specs.declared.place.DeclarationId.{DeclarationId};
ghost use Rattle.fidl_named.specs.Names.{AreDistinct};
ghost use Rattle.fidl_named.specs.MemberNumbers.{AreNumbersOf};
ghost use Rattle.fidl_named.specs.FullNames.{HasDeclaration};

use crate::member_numbers::MemberNumbers;
use crate::place::DeclarationId;
use fidl_tree::{Declaration, File};
use indexmap::IndexMap;
use std::alloc::Global;
use std::marker::Model;

/// A file of a set, with the numbers of its members by their names.
#[derive(Drop)]
pub struct AddedFile<'f, 's> {
    pub file: &'f File<'s>,
    pub numbers: Vec<MemberNumbers>,
}

/// The files of libraries, in the order in which they were added, of which all full names differ.
/// Contracts see the list of their trees.
#[derive(Drop)]
pub struct FileSet<'f, 's> {
    alloc: Global,
    files: Vec<AddedFile<'f, 's>>,
    names: IndexMap<Vec<u8>, DeclarationId>,
}

impl<'f, 's> Model for FileSet<'f, 's> {
    ghost use Rattle.std.specs.Prelude.{◌≡◌, List, map};
    ghost use Rattle.fidl_tree.specs.declared.file.File.{File as Tree};
    ghost use Rattle.std.specs.List.{AllByRecursion};
    ghost use Rattle.fidl_named.specs.Names.{all_entries, AreDistinct};
    ghost use Rattle.fidl_named.specs.MemberNumbers.{AreNumbersIn};
    ghost use Rattle.fidl_named.specs.NameMaps.{seen, names_of};
    ghost use Rattle.fidl_named.specs.StoredFiles.{files_coded};

    ghost Value = { List Tree };

    ghost coded = { files_coded };

    ghost view = { λ s. map (λ a. a.file.now) s.files.items };

    ghost invariant = { λ s. (seen s.names.entries ≡ all_entries (map (λ a. a.file.now)
        s.files.items) 0) × AreDistinct (names_of (seen s.names.entries))
        × AllByRecursion (λ a. AreNumbersIn a.file.now a.numbers.items) s.files.items };
}

/// A declaration of a set, with its file.
#[derive(Clone, Copy, Drop)]
pub struct Found<'a, 'f, 's> {
    pub id: DeclarationId,
    pub file: &'f File<'s>,
    pub declaration: &'f Declaration,
    /// The numbers of its members and properties.
    pub numbers: &'a MemberNumbers,
}

impl<'f, 's> FileSet<'f, 's> {
    ghost use Rattle.fidl_named.specs.FullNames.{IsDeclared};
    ghost use Rattle.fidl_named.specs.Constraints.{IsDeclarationAt};
    ghost use Rattle.std.specs.Prelude.{map};
    ghost use Rattle.std.specs.List.{AllByRecursion};
    ghost use Rattle.fidl_named.specs.Names.{all_entries, AreDistinct};
    ghost use Rattle.fidl_named.specs.MemberNumbers.{AreNumbersIn};
    ghost use Rattle.fidl_named.specs.NameMaps.{seen, names_of};

    /// A set of files: of each, the numbers of its members, and the full name of each declaration
    /// with its id.
    pub fn new(
        alloc: Global,
        files: Vec<AddedFile<'f, 's>>,
        names: IndexMap<Vec<u8>, DeclarationId>,
    ) -> FileSet<'f, 's>
        requires entries { seen names.entries ≡ all_entries (map (λ a. a.file.now) files.items) 0 }
        requires distinct { AreDistinct (names_of (seen names.entries)) }
        requires numbers { AllByRecursion (λ a. AreNumbersIn a.file.now a.numbers.items)
            files.items }
        ensures { result ≡ map (λ a. a.file.now) files.entry.items }
    {
        FileSet {
            alloc,
            files,
            names,
        }
    }

    /// The declaration of a full name.
    pub fn find(&self, full: &[u8]) -> Option<Found<'_, 'f, 's>>
        ensures found { IfSome result (λ x.
            IsDeclared self.now full.now x.id x.file.now x.declaration.now) }
        ensures only { IfSome result (λ x. (p : DeclarationId) (f : Tree) (d : Node) →
            IsDeclared self.now full.now p f d → p ≡ x.id) }
        ensures numbers { IfSome result (λ x. AreNumbersOf x.file.now x.declaration.now
            x.numbers.now) }
        ensures none { IsNone result → (p : DeclarationId) (f : Tree) (d : Node) →
            IsDeclared self.now full.now p f d → ⊥ }
    {
        let id = *self.names.get(full)?;
        self.get(id)
    }

    /// The declaration of an id.
    pub fn get(&self, id: DeclarationId) -> Option<Found<'_, 'f, 's>>
        ensures found { IfSome result (λ x. (x.id ≡ id)
            × IsDeclarationAt self.now id x.file.now x.declaration.now) }
        ensures numbers { IfSome result (λ x. AreNumbersOf x.file.now x.declaration.now
            x.numbers.now) }
        ensures none { IsNone result → (f : Tree) (d : Node) → IsDeclarationAt self.now id f d → ⊥ }
    {
        if id.file >= self.files.len() {
            return None;
        }
        let file = self.files[id.file].file;
        if id.index >= file.declarations.len() {
            return None;
        }
        Some(Found {
            id,
            file,
            declaration: &file.declarations[id.index],
            numbers: self.numbers(id),
        })
    }

    /// The numbers of the declaration of an id.
    fn numbers(&self, id: DeclarationId) -> &MemberNumbers
        requires { HasDeclaration self.now id }
        ensures { (f : Tree) (d : Node) → IsDeclarationAt self.now id f d
            → AreNumbersOf f d result.now }
    {
        let added = &self.files[id.file];
        &added.numbers[id.index]
    }

    /// What its memory comes from.
    pub fn alloc(&self) -> Global {
        self.alloc
    }

    /// How many files it has.
    pub fn count(&self) -> usize
        ensures { result ≡ length self.now }
    {
        self.files.len()
    }

    /// The file of this number.
    pub fn file(&self, file_index: usize) -> &'f File<'s>
        requires { file_index < length self.now }
        ensures { slice_get self.now file_index ≡ Some result.now }
    {
        self.files[file_index].file
    }
}

/// Whether a declaration has this id.
pub fn has_declaration(set: &FileSet<'_, '_>, id: DeclarationId) -> bool
    ensures { IsTrue result ↔ HasDeclaration set.now id }
{
    if id.file >= set.count() {
        return false;
    }
    id.index < set.file(id.file).declarations.len()
}
