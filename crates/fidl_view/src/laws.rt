//! A law of decoding and views together.
ghost use Rattle.std.specs.Prelude.{◌≡◌};
ghost use Rattle.fidl_wire.specs.Value.{Value};
ghost use Rattle.fidl_wire.specs.Term as ty;
ghost use Rattle.fidl_wire.specs.Message.{Encodes};
ghost use Rattle.fidl_table_format.specs.Terms.{declarations_of};
ghost use Rattle.fidl_view.specs.Views.{IsOnly, IsShownBy};

use crate::view::View;
use crate::views::Views;
use fidl_decode::Decoded;
use fidl_verify::Table;
use fidl_wire::HandleInfo;

/// Views read as the one value: of each verified table, each entry and each message that `decode`
/// accepts, the message encodes one value of the entry's type and no other, and the view of the
/// whole shows it. What is required here is what `decode` ensures of the message that it answers.
pub fn views_read_as_the_one_value<'v, 'm>(
    table: &Table<'_>,
    entry: u32,
    bytes: &[u8],
    handles: &[HandleInfo],
    decoded: &'v Decoded<'v, 'm, 'v>,
) -> View<'v, 'm>
    requires table { decoded.now.table ≡ table.now }
    requires entry { decoded.now.entry ≡ entry }
    requires bytes { decoded.now.bytes ≡ bytes.now }
    requires handles { decoded.now.handles ≡ handles.now }
    ensures { (v : Value) × IsOnly (λ w. Encodes (declarations_of table.now) (ty.named entry) w
        bytes.now handles.now) v × IsShownBy result v }
{
    decoded.view()
}
