//! Markers of eight bytes, each read as one number.
ghost use Rattle.std.specs.Prelude.{◌+◌, ◌≤◌, ◌↔◌, IsTrue, length};
ghost use Rattle.fidl_wire.specs.Encoding.{zeros, present};
ghost use Rattle.fidl_wire.specs.Standing.{Stands};
ghost use Rattle.fidl_decode_values.specs.Reading.{came, Holds};
ghost use Rattle.fidl_decode_model.specs.Frontier.{AreFree};
ghost use Rattle.fidl_decode_model.specs.Machine.{at_of};

use crate::decoder::Decoder;
use fidl_decode_model::frame::State;

impl<'t, 'm, 's> Decoder<'t, 'm, 's> {
    /// Whether the marker at a place says that its object is there.
    #[inline(always)]
    pub fn is_present(&self, place: usize, state: &State<'_, '_>) -> bool
        requires holds { Holds self.now state.now }
        requires free { AreFree (at_of state.now) place (place + 8) }
        requires room { place + 8 ≤ length (came self.now) }
        ensures { IsTrue result ↔ Stands (came self.now) place present }
    {
        self.u64_at(place, state) == u64::MAX
    }

    /// Whether the eight bytes of a marker or an envelope at a place are zeros: nothing is there.
    #[inline(always)]
    pub fn is_absent(&self, place: usize, state: &State<'_, '_>) -> bool
        requires holds { Holds self.now state.now }
        requires free { AreFree (at_of state.now) place (place + 8) }
        requires room { place + 8 ≤ length (came self.now) }
        ensures { IsTrue result ↔ Stands (came self.now) place (zeros 8) }
    {
        self.u64_at(place, state) == 0
    }
}
