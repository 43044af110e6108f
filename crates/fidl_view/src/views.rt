//! What gives views: a decoded message.
ghost use Rattle.std.specs.Prelude.{◌≡◌};
ghost use Rattle.fidl_wire.specs.Value.{Value};
ghost use Rattle.fidl_decode_model.specs.Model.{Shown};
ghost use Rattle.fidl_view.specs.Elements.{part};
ghost use Rattle.fidl_view.specs.Views.{part_of, IsShownBy, IsEncoded, IsOnly};

use crate::view::View;
use fidl_decode::Decoded;

/// What gives views: a decoded message.
pub trait Views<'m> {
    ghost shown: { Self → Shown };

    /// The view of the whole value.
    fn view<'v>(&'v self) -> View<'v, 'm>
        ensures whole { part_of result ≡ part (shown self.now) (shown self.now).entry 0 }
        // The message encodes one value and no other, and the view shows it.
        ensures value { (v : Value) × IsOnly (IsEncoded (shown self.now)) v × IsShownBy result v }
        // So the view shows each value that the message encodes.
        ensures shows { (v : Value) → IsEncoded (shown self.now) v → IsShownBy result v };
}

impl<'t, 'm, 's> Views<'m> for Decoded<'t, 'm, 's> {
    ghost shown = { λ d. d };

    #[inline(always)]
    fn view<'v>(&'v self) -> View<'v, 'm> {
        let index = self.entry();
        // Read, so that the table is known to be well-formed: a message of the entry then has room
        // for its inline part.
        let _entry = self.table().entry(index);
        View {
            decoded: self,
            index,
            place: 0,
        }
    }
}
