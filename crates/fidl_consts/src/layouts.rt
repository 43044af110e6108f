//! The underlying types of bits and enums.
ghost use Rattle.std.specs.Prelude.{Some, IfOk, IfErr};
ghost use Rattle.fidl_consts.specs.Tables.{IsMemoryOr};
ghost use Rattle.fidl_consts.specs.Scopes.{HasKind, RefusesKind, optional_path_view};

use crate::const_type::NumberKind;
use crate::fault::ConstFault;
use crate::names::path_place;
use crate::scope::NamedFile;
use crate::types::underlying_type;
use fidl_named::Place;
use fidl_tree::{Path, ValuesKeyword};

/// The type of the numbers of members, by the name of their layout's underlying type.
pub fn member_kind(
    file: &NamedFile<'_, '_, '_>,
    keyword: &ValuesKeyword,
    underlying: Option<&Path>,
) -> Result<NumberKind, ConstFault>
    ensures ok { IfOk result (λ kind. HasKind file.now keyword.now (optional_path_view underlying.entry)
        (Some kind)) }
    ensures fault_is_true { IfErr result (IsMemoryOr (RefusesKind file.now keyword.now
        (optional_path_view underlying.entry))) }
{
    let Some(path) = underlying else {
        return Ok(NumberKind::Uint32);
    };
    match underlying_type(file, keyword, path)? {
        Some(kind) => Ok(kind),
        None => Err(ConstFault::WrongKind {
            place: Place {
                file: file.file_index,
                span: path_place(path),
            },
        }),
    }
}
