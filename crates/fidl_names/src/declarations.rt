//! The declarations of a set's files, by their full names.
ghost use Rattle.std.specs.Prelude.{◌≡◌, ◌++◌, ◌∷◌, [], length, take, IfErr};
ghost use Rattle.std.specs.Prelude.{OnOk, OnErr};
ghost use Rattle.fidl_named.specs.Names.{IsOneOf, entries_of};
ghost use Rattle.fidl_names.specs.Refusals.{IsTrueOfAdding};
ghost use Rattle.fidl_named.specs.NameMaps.{seen, names_of};
ghost use Rattle.fidl_names.specs.TakenNames.{IsTaken, StayDistinct};

use fidl_named::{DeclarationId, NameFault, Place, full_name, name_span, path_text};
use fidl_tree::File;
use indexmap::IndexMap;
use std::alloc::Global;

/// Adds a declaration, whose full name must be new.
pub(crate) fn declare(
    names: &mut IndexMap<Vec<u8>, DeclarationId>,
    name: Vec<u8>,
    id: DeclarationId,
    place: Place,
) -> Result<(), NameFault>
    ensures ok { OnOk result (names.new.entries ≡ names.old.entries ++ (name, id) ∷ []) }
    ensures fresh { OnOk result (IsOneOf (names_of (seen names.old.entries)) name.items → ⊥) }
    ensures err { OnErr result (names.new.entries ≡ names.old.entries) }
    ensures taken { IfErr result (IsTaken (seen names.old.entries) name.items place) }
{
    if names.contains_key(&name) {
        return Err(NameFault::DuplicateName { place });
    }
    names.insert(name, id)?;
    Ok(())
}

/// Adds the declarations of the file of this number. After a refusal the names before them are as
/// they were, and some of the file's come after them.
pub(crate) fn declare_all(
    names: &mut IndexMap<Vec<u8>, DeclarationId>,
    alloc: Global,
    file: &File<'_>,
    file_index: usize,
) -> Result<(), NameFault>
    ensures ok { OnOk result (seen names.new.entries ≡ seen names.old.entries
        ++ entries_of file.now file_index) }
    ensures distinct { OnOk result (StayDistinct (seen names.old.entries)
        (seen names.new.entries)) }
    ensures err { OnErr result (take (length names.old.entries) names.new.entries
        ≡ names.old.entries) }
    ensures fault_is_true { IfErr result (IsTrueOfAdding
        (names_of (seen names.old.entries)) file.now file_index) }
{
    let library = path_text(alloc, file, &file.library.path)?;
    for (index, declaration) in file.declarations.iter().enumerate() {
        let span = name_span(&declaration.body);
        let name = full_name(alloc, &library, file.text(span))?;
        let id = DeclarationId {
            file: file_index,
            index,
        };
        let place = Place {
            file: file_index,
            span,
        };
        declare(names, name, id, place)?;
    }
    Ok(())
}
