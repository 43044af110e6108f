//! The imports of a file, and the libraries that it sees by them.
ghost use Rattle.std.specs.Prelude.{◌≡◌, ◌++◌, ◌∷◌, [], false, if◌then◌else◌, IfErr, IfOk, OnOk};
ghost use Rattle.std.specs.Prelude.{OnErr};
ghost use Rattle.fidl_named.specs.Names.{IsOneOf, path_text};
ghost use Rattle.fidl_named.specs.Imports.{path_span, visible, visible_by};
ghost use Rattle.fidl_names.specs.ImportRules.{ImportsAreKnown, IsTrueOfImports};
ghost use Rattle.fidl_named.specs.Imports.{ImportsAreApart};
ghost use Rattle.fidl_names.specs.ImportRules.{IsTrueOfImport};
ghost use Rattle.fidl_named.specs.Imports.{same};
ghost use Rattle.fidl_named.specs.NameMaps.{seen, texts_view, names_of};
ghost use Rattle.fidl_names.specs.TakenNames.{IsRepeated, StayDistinct};

use fidl_named::{NameFault, Place, path_span, path_text};
use fidl_tree::{File, Import, Path};
use indexmap::IndexMap;
use std::alloc::Global;

/// Makes a library visible under a name that must be new.
fn add_visible(
    visible: &mut IndexMap<Vec<u8>, Vec<u8>>,
    name: Vec<u8>,
    library: Vec<u8>,
    place: Place,
) -> Result<(), NameFault>
    ensures ok { OnOk result (visible.new.entries ≡ visible.old.entries ++ (name, library) ∷ []) }
    ensures distinct { OnOk result (StayDistinct (texts_view visible.old.entries)
        (texts_view visible.new.entries)) }
    ensures fault_is_true { IfErr result (IsRepeated
        (texts_view visible.old.entries) name.items place) }
{
    if visible.contains_key(&name) {
        return Err(NameFault::BadImport { place });
    }
    visible.insert(name, library)?;
    Ok(())
}

/// Makes a library visible under an alias, where that isn't its own name.
fn add_alias(
    visible: &mut IndexMap<Vec<u8>, Vec<u8>>,
    alloc: Global,
    name: &[u8],
    library: Vec<u8>,
    place: Place,
) -> Result<(), NameFault>
    ensures ok { OnOk result (texts_view visible.new.entries ≡ texts_view visible.old.entries
        ++ (if same name.now library.items then [] else (name.now, library.items) ∷ [])) }
    ensures distinct { OnOk result (StayDistinct (texts_view visible.old.entries)
        (texts_view visible.new.entries)) }
    ensures other { OnErr result (same name.now library.items ≡ false) }
    ensures fault_is_true { IfErr result (IsRepeated
        (texts_view visible.old.entries) name.now place) }
{
    if name == library.as_slice() {
        return Ok(());
    }
    let alias = Vec::from_slice(alloc, name)?;
    add_visible(visible, alias, library, place)
}

/// Makes the library of an import visible, under its name and its alias.
fn add_import(
    visible: &mut IndexMap<Vec<u8>, Vec<u8>>,
    alloc: Global,
    libraries: &IndexMap<Vec<u8>, usize>,
    file: &File<'_>,
    file_index: usize,
    import: &Import,
) -> Result<(), NameFault>
    ensures ok { OnOk result (texts_view visible.new.entries ≡ texts_view visible.old.entries
        ++ visible_by file.now.src.now import.now) }
    ensures known { OnOk result (IsOneOf (names_of (seen libraries.now.entries))
        (path_text file.now.src.now import.now.path)) }
    ensures distinct { OnOk result (StayDistinct (texts_view visible.old.entries)
        (texts_view visible.new.entries)) }
    ensures fault_is_true { IfErr result (IsTrueOfImport (names_of (seen libraries.now.entries))
        (names_of (texts_view visible.old.entries)) file.now.src.now import.now file_index) }
{
    let library = path_text(alloc, file, &import.path)?;
    let span = path_span(&import.path);
    let place = Place {
        file: file_index,
        span,
    };
    if !libraries.contains_key(&library) {
        return Err(NameFault::UnknownLibrary { place });
    }
    let name = Vec::from_slice(alloc, &library)?;
    let own = Vec::from_slice(alloc, &library)?;
    add_visible(visible, name, own, place)?;
    match &import.alias {
        None => Ok(()),
        Some(alias) => {
            let place = Place {
                file: file_index,
                span: alias.name,
            };
            add_alias(visible, alloc, file.text(alias.name), library, place)?;
            Ok(())
        }
    }
}

/// The libraries that a file sees, by the names under which it sees them: its own, and those that
/// it imports.
pub(crate) fn visible_libraries(
    alloc: Global,
    libraries: &IndexMap<Vec<u8>, usize>,
    file: &File<'_>,
    file_index: usize,
) -> Result<IndexMap<Vec<u8>, Vec<u8>>, NameFault>
    ensures ok { IfOk result (λ found. texts_view found.entries ≡ visible file.now) }
    ensures apart { OnOk result (ImportsAreApart file.now) }
    ensures known { OnOk result (ImportsAreKnown (names_of (seen libraries.now.entries)) file.now) }
    ensures fault_is_true { IfErr result (IsTrueOfImports
        (names_of (seen libraries.now.entries)) file.now file_index) }
{
    let mut visible = IndexMap::new(alloc);
    let name = path_text(alloc, file, &file.library.path)?;
    let own = Vec::from_slice(alloc, &name)?;
    visible.insert(name, own)?;
    for import in &file.imports {
        add_import(&mut visible, alloc, libraries, file, file_index, import)?;
    }
    Ok(visible)
}
