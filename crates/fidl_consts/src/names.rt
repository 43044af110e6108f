//! What the names of files mean.
ghost use Rattle.std.specs.Prelude.{◌≡◌, ◌<◌, length, IfOk};
ghost use Rattle.fidl_tree.specs.Views.{path_view};
ghost use Rattle.fidl_named.specs.Meanings.{IsJust, Means};
ghost use Rattle.fidl_named.specs.Paths.{texts};
ghost use Rattle.fidl_named.specs.Paths.{path_place};
ghost use Rattle.fidl_named.specs.Scopes.{OfFile};

use fidl_named::{Meaning, Named, Wanted, is_memory, path_span};
use fidl_span::Span;
use fidl_tree::Path;
use std::alloc::AllocError;

/// Where a name is.
pub fn path_place(path: &Path) -> Span
    ensures { result ≡ path_place (path_view path.now) }
{
    path_span(path)
}

/// What a name of a file means where this kind is wanted, if it means just one thing.
pub fn find(
    named: &Named<'_, '_>,
    file_index: usize,
    path: &Path,
    wanted: Wanted,
) -> Result<Option<Meaning>, AllocError>
    requires { file_index < length named.now }
    ensures { IfOk result (λ found. OfFile named.now file_index
        (λ f. IsJust (Means named.now f wanted (texts f.src.now (path_view path.now))) found)) }
{
    match named.meaning(file_index, path, wanted) {
        Ok(meaning) => Ok(Some(meaning)),
        Err(fault) => {
            if is_memory(fault) {
                return Err(AllocError);
            }
            Ok(None)
        }
    }
}
