//! Sets of files whose names are resolved.
ghost use Rattle.std.specs.Prelude.{◌≡◌, ◌<◌, ℕ, length, slice_get, option_copied, Some, IfErr};
ghost use Rattle.std.specs.Prelude.{IfOk, IfSome, IsNone};
ghost use Rattle.fidl_tree.specs.Views.{path_view};
ghost use Rattle.fidl_tree.specs.declared.file.File.{File as Tree};
ghost use Rattle.fidl_tree.specs.declared.declaration.Declaration.{Declaration as Node};
ghost use Rattle.fidl_named.specs.declared.meaning.Wanted.TheVariants as Kind;
ghost use Rattle.fidl_named.specs.declared.place.DeclarationId.{DeclarationId as Id};
ghost use Rattle.fidl_named.specs.Meanings.{components, IsJust, Means, IsTrueOfName};
ghost use Rattle.fidl_named.specs.Aliases.{ResolvesTo, PassesTo, WantsKind};
ghost use Rattle.fidl_named.specs.Constraints.{IsDeclarationAt, IsPropertyAt, ItemMeans};
ghost use Rattle.fidl_named.specs.Constraints.{NameOfItemFails};
ghost use Rattle.fidl_named.specs.MemberNumbers.{AreNumbersOf};
ghost use Rattle.fidl_named.specs.Scopes.{IsMemoryOr, OfFile};

use crate::constraint_names::item_meaning;
use crate::ends::{AliasEnd, end_of};
use crate::fault::NameFault;
use crate::file_scope::{FileScope, SetScope};
use crate::file_set::{FileSet, Found};
use crate::kept_names::KeptNames;
use crate::meaning::{Meaning, Wanted};
use crate::named_file::NamedFile;
use crate::place::{DeclarationId, PropertyId};
use crate::properties::find_property;
use crate::reading::read_name;
use crate::type_names::{find_meaning, wanted_kind};
use fidl_tree::{File, Path};
use indexmap::IndexMap;
use std::alloc::{AllocError, Global};
use std::marker::Model;

/// Files in which each name has just one meaning where it stands. Contracts see the list of their
/// trees.
#[derive(Drop)]
pub struct Named<'f, 's> {
    set: FileSet<'f, 's>,
    visible_names: Vec<IndexMap<Vec<u8>, Vec<u8>>>,
    ends: Vec<Vec<AliasEnd>>,
    kept: Vec<KeptNames<'f>>,
}

impl<'f, 's> Model for Named<'f, 's> {
    ghost use Rattle.std.specs.Prelude.{List, map};
    ghost use Rattle.fidl_tree.specs.declared.file.File.{File as Tree};
    ghost use Rattle.fidl_named.specs.NameMaps.{texts_view};
    ghost use Rattle.fidl_named.specs.Aliases.{rows_of};
    ghost use Rattle.fidl_named.specs.KeptNames.{kept_rows};
    ghost use Rattle.fidl_named.specs.Scopes.{IsKnown};
    ghost use Rattle.fidl_named.specs.StoredFiles.{files_coded};

    ghost Value = { List Tree };

    ghost coded = { files_coded };

    ghost view = { λ s. s.set };

    ghost invariant = { λ s. IsKnown s.set (map (λ v. texts_view v.entries) s.visible_names.items)
        (rows_of s.ends.items) (kept_rows s.kept.items) };
}

impl<'f, 's> Named<'f, 's> {
    ghost use Rattle.std.specs.Prelude.{map};
    ghost use Rattle.fidl_named.specs.NameMaps.{texts_view};
    ghost use Rattle.fidl_named.specs.Aliases.{rows_of};
    ghost use Rattle.fidl_named.specs.KeptNames.{kept_rows};
    ghost use Rattle.fidl_named.specs.Scopes.{IsKnown};

    /// Files of which this is known: what each sees by its imports, the ends of each declaration,
    /// and what names mean.
    pub fn new(
        set: FileSet<'f, 's>,
        visible_names: Vec<IndexMap<Vec<u8>, Vec<u8>>>,
        ends: Vec<Vec<AliasEnd>>,
        kept: Vec<KeptNames<'f>>,
    ) -> Named<'f, 's>
        requires { IsKnown set (map (λ v. texts_view v.entries) visible_names.items)
            (rows_of ends.items) (kept_rows kept.items) }
        ensures { result ≡ set.entry }
    {
        Named {
            set,
            visible_names,
            ends,
            kept,
        }
    }

    /// How many files there are.
    pub fn count(&self) -> usize
        ensures { result ≡ length self.now }
    {
        self.set.count()
    }

    /// The file of this number, which is below `count`.
    pub fn file(&self, file_index: usize) -> &'f File<'s>
        requires { file_index < length self.now }
        ensures { slice_get self.now file_index ≡ Some result.now }
    {
        self.set.file(file_index)
    }

    /// What a name means in the file of this number, where this kind is wanted. A name that stands
    /// in the files has a meaning at its place; elsewhere, or of another kind, it can be refused
    /// with UnknownName or AmbiguousName, at the path's span. Memory: memory ran out.
    pub fn meaning(
        &self,
        file_index: usize,
        path: &Path,
        wanted: Wanted,
    ) -> Result<Meaning, NameFault>
        requires { file_index < length self.now }
        ensures ok { IfOk result (λ m. OfFile self.now file_index
            (λ f. Means self.now f wanted (components f.src.now path.now) m)) }
        ensures fault_is_true { IfErr result (λ fault. OfFile self.now file_index
            (λ f. IsTrueOfName self.now f file_index wanted path.now fault)) }
    {
        match self.kept(file_index, path, wanted) {
            Some(meaning) => Ok(meaning),
            None => self.read(file_index, path, wanted),
        }
    }

    /// What a meaning resolves to: aliases of named types are followed to their end.
    pub fn resolved(&self, meaning: Meaning) -> Meaning
        ensures { ResolvesTo self.now meaning result }
    {
        end_of(&self.set, &self.ends, meaning).resolved
    }

    /// What a meaning comes to when aliases are followed as long as they add no constraints to the
    /// type that they name.
    pub fn passed(&self, meaning: Meaning) -> Meaning
        ensures { PassesTo self.now meaning result }
    {
        end_of(&self.set, &self.ends, meaning).passed
    }

    /// What a constraint means that is just a name, in the file of this number, by what its type
    /// resolves to (nothing for a layout) and its number, from 0, among the constraints that aren't
    /// `optional`. The refusals are those of `meaning`.
    pub fn constraint(
        &self,
        file_index: usize,
        end: Option<Meaning>,
        rank: usize,
        path: &Path,
    ) -> Result<Meaning, NameFault>
        requires { file_index < length self.now }
        ensures ok { IfOk result (λ m. OfFile self.now file_index
            (λ f. ItemMeans self.now f end rank (path_view path.now) m)) }
        ensures fault_is_true { let seen = path_view path.now in
            IfErr result (λ fault. OfFile self.now file_index
            (λ f. IsMemoryOr (NameOfItemFails self.now f file_index end rank seen) fault)) }
    {
        let scope = NamedFile {
            named: self,
            file_index,
            file: self.file(file_index),
        };
        item_meaning(&scope, end, rank, path)
    }

    /// The property that an ordinary constraint of a type is for, by what the type resolves to and
    /// the constraint's number, from 0.
    pub fn property(&self, end: Meaning, rank: usize) -> Option<PropertyId>
        ensures found { IfSome result (λ x. IsPropertyAt self.now (Some end) rank x.id x.number) }
        ensures none { IsNone result → (p : Id) (n : ℕ) → IsPropertyAt self.now (Some end) rank p n
            → ⊥ }
    {
        let found = find_property(self, Some(end), rank)?;
        Some(PropertyId {
            id: found.id,
            number: found.number,
        })
    }

    /// The kind that a type's name wants in the file of this number, where the type may be the
    /// second argument of another.
    pub fn kind(&self, file_index: usize, argument_of: Option<&Path>) -> Result<Wanted, AllocError>
        requires { file_index < length self.now }
        ensures { IfOk result (λ k. OfFile self.now file_index
            (λ f. WantsKind self.now f (option_copied argument_of.entry) k)) }
    {
        wanted_kind(&self.scope(file_index), argument_of)
    }

    /// What a name means as a type in the file of this number, if anything.
    pub fn type_meaning(
        &self,
        file_index: usize,
        path: &Path,
    ) -> Result<Option<Meaning>, AllocError>
        requires { file_index < length self.now }
        ensures { IfOk result (λ found. OfFile self.now file_index (λ f. IsJust
            (Means self.now f Kind.«Type» (components f.src.now path.now)) found)) }
    {
        self.find(file_index, path, Wanted::Type)
    }

    /// What a name means as a value in the file of this number, if anything.
    pub fn value_meaning(
        &self,
        file_index: usize,
        path: &Path,
    ) -> Result<Option<Meaning>, AllocError>
        requires { file_index < length self.now }
        ensures { IfOk result (λ found. OfFile self.now file_index (λ f. IsJust
            (Means self.now f Kind.Value (components f.src.now path.now)) found)) }
    {
        self.find(file_index, path, Wanted::Value)
    }

    /// What is kept of a name in the file of this number, where this kind is wanted.
    fn kept(&self, file_index: usize, path: &Path, wanted: Wanted) -> Option<Meaning>
        requires { file_index < length self.now }
        ensures { IfSome result (λ m. OfFile self.now file_index
            (λ f. Means self.now f wanted (components f.src.now path.now) m)) }
    {
        self.kept.get(file_index)?.find(path, wanted)
    }

    /// The same as `meaning`, from the sources alone.
    fn read(&self, file_index: usize, path: &Path, wanted: Wanted) -> Result<Meaning, NameFault>
        requires { file_index < length self.now }
        ensures ok { IfOk result (λ m. OfFile self.now file_index
            (λ f. Means self.now f wanted (components f.src.now path.now) m)) }
        ensures fault_is_true { IfErr result (λ fault. OfFile self.now file_index
            (λ f. IsTrueOfName self.now f file_index wanted path.now fault)) }
    {
        read_name(&self.scope(file_index), path, wanted)
    }

    /// What a name means in the file of this number where this kind is wanted, if anything, from
    /// the sources alone.
    fn search(
        &self,
        file_index: usize,
        path: &Path,
        wanted: Wanted,
    ) -> Result<Option<Meaning>, AllocError>
        requires { file_index < length self.now }
        ensures { IfOk result (λ found. OfFile self.now file_index
            (λ f. IsJust (Means self.now f wanted (components f.src.now path.now)) found)) }
    {
        find_meaning(&self.scope(file_index), path, wanted)
    }

    /// What a name means in the file of this number where this kind is wanted, if anything.
    fn find(
        &self,
        file_index: usize,
        path: &Path,
        wanted: Wanted,
    ) -> Result<Option<Meaning>, AllocError>
        requires { file_index < length self.now }
        ensures { IfOk result (λ found. OfFile self.now file_index
            (λ f. IsJust (Means self.now f wanted (components f.src.now path.now)) found)) }
    {
        match self.kept(file_index, path, wanted) {
            Some(meaning) => Ok(Some(meaning)),
            None => self.search(file_index, path, wanted),
        }
    }

    /// The file of this number, with what it sees by its imports.
    fn scope(&self, file_index: usize) -> FileScope<'_, 'f, 's>
        requires { file_index < length self.now }
        ensures set { result.names.set.now ≡ self.now }
        ensures number { result.file_index ≡ file_index }
    {
        let names = SetScope {
            set: &self.set,
            visible_names: &self.visible_names,
        };
        FileScope {
            names,
            file_index,
            file: self.set.file(file_index),
        }
    }

    /// The declaration of an id.
    pub(crate) fn get(&self, id: DeclarationId) -> Option<Found<'_, 'f, 's>>
        ensures found { IfSome result (λ x. (x.id ≡ id)
            × IsDeclarationAt self.now id x.file.now x.declaration.now) }
        ensures numbers { IfSome result (λ x. AreNumbersOf x.file.now x.declaration.now
            x.numbers.now) }
        ensures none { IsNone result → (f : Tree) (d : Node) → IsDeclarationAt self.now id f d → ⊥ }
    {
        self.set.get(id)
    }

    /// What its memory comes from.
    pub fn alloc(&self) -> Global {
        self.set.alloc()
    }
}
