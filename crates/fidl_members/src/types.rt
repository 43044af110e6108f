//! The type of elements that are bools or numbers.
ghost use Rattle.std.specs.Prelude.{◌≡◌, ◌≢◌, ◌<◌, Some, IfSome, IfNone};
ghost use Rattle.fidl_wire.specs.Value.{Value};
ghost use Rattle.fidl_table_format.specs.Section.{header_of};
ghost use Rattle.fidl_members.specs.Scalars.{scalar_of, type_in};
ghost use Rattle.fidl_members.specs.Entries.{owner};

use crate::kinds::scalar_kind;
use crate::reads::scalar_in;
use crate::scalar::Scalar;
use fidl_verify::Table;
use fidl_view::View;
use std::marker::PhantomData;

/// An entry of a table whose values are bools or numbers: the type of elements, looked up once.
#[derive(Drop)]
pub struct ScalarType<'t, S: Scalar> {
    /// The table, and the entry.
    pub table: &'t Table<'t>,
    pub entry: u32,
    scalar: PhantomData<S>,
    ghost read_as: { scalar_of (type_in table.now entry) ≡ Some S.kind },
}

impl<'t, S: Scalar> ScalarType<'t, S> {
    ghost use Rattle.fidl_view.specs.Views.{IsShownBy};
    ghost use Rattle.fidl_members.specs.Owners.{owner_shown};

    /// The entry as one of bools or numbers of this type; none where its type is another.
    pub fn find(table: &'t Table<'t>, entry: u32) -> Option<ScalarType<'t, S>>
        requires { entry < (header_of table.now).entries }
        ensures of { IfSome result (λ s. owner s.table.now s.entry ≡ owner table.now entry) }
        ensures none { IfNone result (scalar_of (type_in table.now entry) ≢ Some S.kind) }
    {
        if !S::is_of(scalar_kind(table, entry)) {
            return None;
        }
        Some(ScalarType {
            table,
            entry,
            scalar: PhantomData,
        })
    }

    /// The bool or number that a view of this entry and table shows.
    #[inline(always)]
    pub fn read(&self, view: View<'_, '_>) -> S
        requires same { owner self.now.table.now self.now.entry ≡ owner_shown view }
        ensures { (v : Value) → IsShownBy view.entry v → v ≡ S.value result }
    {
        scalar_in::<S>(view)
    }
}
