//! The protocols that paths mean.
ghost use Rattle.std.specs.Prelude.{◌≡◌, ◌<◌, length, IfOk, IfSome, IsNone};
ghost use Rattle.fidl_tree.specs.Views.{path_view};
ghost use Rattle.fidl_named.specs.declared.meaning.Meaning.TheVariants as Meanings;
ghost use Rattle.fidl_named.specs.declared.place.DeclarationId.{DeclarationId as Id};
ghost use Rattle.fidl_named.specs.Meanings.{IsJust};
ghost use Rattle.fidl_composition.specs.Compositions.{MeansProtocol};

use fidl_named::{DeclarationId, Meaning, Named, Wanted, is_memory};
use fidl_tree::Path;
use std::alloc::AllocError;

/// The declaration that a meaning is.
fn declared(meaning: Meaning) -> Option<DeclarationId>
    ensures found { IfSome result (λ id. meaning ≡ Meanings.Declared id) }
    ensures none { IsNone result → (id : Id) → meaning ≡ Meanings.Declared id → ⊥ }
{
    match meaning {
        Meaning::Declared(id) => Some(id),
        Meaning::Predeclared(_) | Meaning::Member { .. } | Meaning::PropertyMember { .. } => None,
    }
}

/// The protocol that a path means in the file of this number, if it means just one.
pub(crate) fn protocol_meant(
    named: &Named<'_, '_>,
    file_index: usize,
    path: &Path,
) -> Result<Option<DeclarationId>, AllocError>
    requires { file_index < length named.now }
    ensures { IfOk result (IsJust (MeansProtocol named.now file_index (path_view path.now))) }
{
    match named.meaning(file_index, path, Wanted::Protocol) {
        Ok(meaning) => Ok(declared(meaning)),
        Err(fault) => {
            if is_memory(fault) {
                return Err(AllocError);
            }
            Ok(None)
        }
    }
}
