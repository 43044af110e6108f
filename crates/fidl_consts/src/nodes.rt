//! Declarations and members, as what may have values.
ghost use Rattle.std.specs.Prelude.{◌↔◌, IsTrue};
ghost use Rattle.fidl_consts.specs.Dependencies.{IsKnownNode};

use crate::found::{declaration_at, member_at};
use fidl_named::{Meaning, Named};

/// Whether it is a declaration, or a member of bits or an enum.
pub fn is_node(named: &Named<'_, '_>, meaning: Meaning) -> bool
    ensures { IsTrue result ↔ IsKnownNode named.now meaning }
{
    match meaning {
        Meaning::Declared(id) => declaration_at(named, id).is_some(),
        Meaning::Member { of, number } => member_at(named, of, number).is_some(),
        Meaning::Predeclared(_) | Meaning::PropertyMember { .. } => false,
    }
}
