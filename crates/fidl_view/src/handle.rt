//! What a view answers of a handle.
ghost use Rattle.std.specs.Prelude.{◌≡◌};
ghost use Rattle.fidl_wire.specs.Value.{Value};
ghost use Rattle.fidl_view.specs.Parts.{handle_of, granted_of};
ghost use Rattle.fidl_view.specs.Views.{IsShownBy, type_shown};

use crate::view::View;
use fidl_table_format::EntryKind;
use fidl_wire::{HandleInfo, SAME_RIGHTS};

impl<'v, 'm> View<'v, 'm> {
    /// The record of a handle, as it came; none where it is absent, and of another kind.
    pub fn handle(self) -> Option<HandleInfo>
        ensures { (v : Value) → IsShownBy self.entry v → result ≡ handle_of v }
    {
        match self.kind() {
            EntryKind::Handle => {
                if self.decoded.links().is_blank_handle(self.place) {
                    return None;
                }
                self.decoded
                    .handles()
                    .get(self.decoded.links().record_of(self.place))
                    .copied()
            }
            _ => None,
        }
    }

    /// The rights that a handle is granted: those that its type requires, or those that came, where
    /// it requires the same rights; none where it is absent, and of another kind.
    pub fn granted(self) -> Option<u32>
        ensures { (v : Value) → IsShownBy self.entry v → result
            ≡ granted_of (type_shown self.entry) v }
    {
        let required = self.decoded.table().entry(self.index).rights;
        match self.handle() {
            Some(info) => {
                if required == SAME_RIGHTS {
                    Some(info.rights)
                } else {
                    Some(required)
                }
            }
            None => None,
        }
    }
}
