//! The rules of resolving that each file keeps by itself: members and imports.
ghost use Rattle.std.specs.Prelude.{◌≡◌, ◌++◌, ◌∷◌, [], map, IfErr, IfOk, OnOk};
ghost use Rattle.std.specs.List.{AllByRecursion};
ghost use Rattle.fidl_tree.specs.Views.{file_view};
ghost use Rattle.fidl_named.specs.Imports.{visible, ImportsAreApart};
ghost use Rattle.fidl_names.specs.ImportRules.{libraries_of, ImportsAreKnown};
ghost use Rattle.fidl_names.specs.ImportRules.{IsTrueOfImports};
ghost use Rattle.fidl_names.specs.ImportCycles.{AreNumbered};
ghost use Rattle.fidl_named.specs.Meanings.{MembersDiffer};
ghost use Rattle.fidl_names.specs.MemberLists.{DistinctMembers, RepeatsMember, IsRepeatedAt};
ghost use Rattle.fidl_named.specs.NameMaps.{seen, texts_view, names_of};
ghost use Rattle.fidl_names.specs.TakenNames.{HaveSame};
ghost use Rattle.fidl_names.specs.Refusals.{IsTrueOfOne};

use crate::differ::check_members;
use crate::imports::visible_libraries;
use fidl_named::{FileSet, NameFault, path_text};
use indexmap::IndexMap;
use std::alloc::AllocError;

/// Adds a library, where it isn't there yet.
fn add_library(libraries: &mut IndexMap<Vec<u8>, usize>, name: Vec<u8>) -> Result<(), AllocError>
    ensures same { OnOk result (HaveSame (names_of (seen libraries.new.entries))
        (names_of (seen libraries.old.entries) ++ name.items ∷ [])) }
    ensures numbered { OnOk result (AreNumbered (seen libraries.old.entries)
        → AreNumbered (seen libraries.new.entries)) }
{
    if libraries.contains_key(&name) {
        return Ok(());
    }
    let number = libraries.len();
    libraries.insert(name, number)?;
    Ok(())
}

/// The libraries of a set, numbered in the order of their first files.
pub(crate) fn libraries(set: &FileSet<'_, '_>) -> Result<IndexMap<Vec<u8>, usize>, AllocError>
    ensures same { IfOk result (λ found. HaveSame (names_of (seen found.entries))
        (libraries_of set.now)) }
    ensures numbered { IfOk result (λ found. AreNumbered (seen found.entries)) }
{
    let alloc = set.alloc();
    let mut libraries = IndexMap::new(alloc);
    for file_index in 0..set.count() {
        let file = set.file(file_index);
        let name = path_text(alloc, file, &file.library.path)?;
        add_library(&mut libraries, name)?;
    }
    Ok(libraries)
}

/// Members differ in each file.
pub(crate) fn all_members(set: &FileSet<'_, '_>) -> Result<(), NameFault>
    ensures differ { OnOk result (AllByRecursion (λ f. DistinctMembers (file_view f)) set.now) }
    ensures values { OnOk result (MembersDiffer set.now) }
    ensures fault_is_true { IfErr result (IsTrueOfOne set.now
        (λ f. IsRepeatedAt (RepeatsMember (file_view f)))) }
{
    for file_index in 0..set.count() {
        check_members(set.alloc(), set.file(file_index), file_index)?;
    }
    Ok(())
}

/// What each file sees by its imports.
pub(crate) fn all_imports(
    set: &FileSet<'_, '_>,
    libraries: &IndexMap<Vec<u8>, usize>,
) -> Result<Vec<IndexMap<Vec<u8>, Vec<u8>>>, NameFault>
    requires { HaveSame (names_of (seen libraries.now.entries)) (libraries_of set.now) }
    ensures ok { IfOk result (λ found. map (λ visible_names. texts_view visible_names.entries)
        found.items
        ≡ map visible set.now) }
    ensures apart { OnOk result (AllByRecursion ImportsAreApart set.now) }
    ensures known { OnOk result (AllByRecursion (ImportsAreKnown (libraries_of set.now)) set.now) }
    ensures fault_is_true { IfErr result (IsTrueOfOne set.now
        (IsTrueOfImports (libraries_of set.now))) }
{
    let alloc = set.alloc();
    let mut found = Vec::new(alloc);
    for file_index in 0..set.count() {
        let visible_names = visible_libraries(alloc, libraries, set.file(file_index), file_index)?;
        found.push(visible_names)?;
    }
    Ok(found)
}
