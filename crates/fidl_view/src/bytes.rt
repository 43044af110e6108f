//! What a view answers of bytes: those of a string, and of an array or a vector of uint8.
ghost use Rattle.std.specs.Prelude.{◌≡◌, None, IfSome};
ghost use Rattle.std.specs.Option.{option_copied};
ghost use Rattle.fidl_wire.specs.Value.{Value};
ghost use Rattle.fidl_view.specs.Parts.{bytes_of, string_of};
ghost use Rattle.fidl_view.specs.Views.{IsShownBy, type_shown, types_shown};
ghost use Rattle.fidl_view.specs.Views.{bytes_shown, elements_shown};

use crate::kind::entry_kind;
use crate::view::View;
use fidl_table_format::EntryKind;

impl<'v, 'm> View<'v, 'm> {
    /// The bytes of an array or a vector of uint8; none where it is absent, and of another type. A
    /// string is of another type here.
    #[inline(always)]
    fn octets(self) -> Option<&'v [u8]>
        ensures value { (v : Value) → IsShownBy self.entry v → string_of v ≡ None
            → option_copied result ≡ bytes_of (types_shown self.entry) (type_shown self.entry) v }
        ensures slice { IfSome result (λ bytes. bytes.now ≡ elements_shown self.entry) }
    {
        let Some(elements) = self.list() else {
            return None;
        };
        match entry_kind(elements.decoded, elements.index) {
            EntryKind::Uint8 => Some(
                elements
                    .decoded
                    .links()
                    .part(elements.place, elements.place + elements.left),
            ),
            _ => None,
        }
    }

    /// The bytes of a string, or of an array or a vector of uint8, as a slice of the message
    /// itself; none where it is absent, and of another type.
    #[inline(always)]
    pub fn as_bytes(self) -> Option<&'v [u8]>
        ensures value { (v : Value) → IsShownBy self.entry v
            → option_copied result ≡ bytes_of (types_shown self.entry) (type_shown self.entry) v }
        ensures slice { IfSome result (λ bytes. bytes.now ≡ bytes_shown self.entry) }
    {
        match self.kind() {
            EntryKind::String => self.string_bytes(),
            _ => self.octets(),
        }
    }
}
