//! What a view answers of a string.
ghost use Rattle.std.specs.Prelude.{◌≡◌, IfSome, IsUtf8};
ghost use Rattle.std.specs.Option.{option_copied};
ghost use Rattle.fidl_wire.specs.Value.{Value};
ghost use Rattle.fidl_table_format.specs.declared.kind.EntryKind.TheVariants as EntryKind;
ghost use Rattle.fidl_table_format.specs.Entry.{IsOf};
ghost use Rattle.fidl_view.specs.Parts.{string_of};
ghost use Rattle.fidl_view.specs.Views.{IsShownBy, bytes_shown, entry_shown};

use crate::view::View;
use fidl_table_format::EntryKind;
use std::str::from_utf8_unchecked;

impl<'v, 'm> View<'v, 'm> {
    /// The bytes of a string, a slice of the message itself; none where it is absent.
    #[inline(always)]
    pub(crate) fn string_bytes(self) -> Option<&'v [u8]>
        requires { IsOf EntryKind.String (entry_shown self) }
        ensures value { (v : Value) → IsShownBy self.entry v → option_copied result ≡ string_of v }
        ensures slice { IfSome result (λ bytes. bytes.now ≡ bytes_shown self.entry) }
        ensures utf8 { IfSome result (λ bytes. IsUtf8 bytes.now) }
    {
        // Read, so that the table is known to be well-formed.
        let _rows = self.decoded.table().rows();
        let links = self.decoded.links();
        if links.is_blank(self.place + 8) {
            return None;
        }
        let count = links.u64_at(self.place) as usize;
        // No byte stands in the object of an empty string.
        if count == 0 {
            return Some(links.part(0, 0));
        }
        let from = links.object_of_marker(self.place + 8);
        Some(links.part(from, from + count))
    }

    /// The text of a string, a slice of the message itself; none where it is absent. The decoder
    /// checked it as UTF-8.
    #[inline(always)]
    pub fn text(self) -> Option<&'v str>
        requires { IsOf EntryKind.String (entry_shown self) }
        ensures { (v : Value) → IsShownBy self.entry v → option_copied result ≡ string_of v }
    {
        let Some(bytes) = self.string_bytes() else {
            return None;
        };
        Some(unsafe { from_utf8_unchecked(bytes) })
    }

    /// The text of a string, a slice of the message itself; none where it is absent, and of another
    /// kind. The decoder checked it as UTF-8.
    #[inline(always)]
    pub fn as_str(self) -> Option<&'v str>
        ensures { (v : Value) → IsShownBy self.entry v → option_copied result ≡ string_of v }
    {
        match self.kind() {
            EntryKind::String => self.text(),
            _ => None,
        }
    }
}
