//! What sums all that a message of a shape says.
ghost use Rattle.std.specs.Prelude.{◌≡◌, List, ℕ};
ghost use Rattle.fidl_view.specs.Views.{part_of};

use fidl_view::View;

/// The members of a shape, looked up once in a table.
pub trait Found: Drop {
    ghost table: { Self → List ℕ };

    /// The sum of all that a message of the shape says; none where a part is not there.
    fn sum(&self, view: View<'_, '_>) -> Option<u64>
        requires { (part_of view).message.table ≡ table self.now };
}
