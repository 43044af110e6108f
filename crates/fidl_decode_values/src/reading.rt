//! What the decoder reads of its message: the bytes as they came, which stand in the state.
ghost use Rattle.std.specs.Prelude.{◌≡◌, ◌+◌, ◌-◌, ◌%◌, ◌<◌, ◌≤◌, ℕ, OnOk, IfErr, IsTrue, length};
ghost use Rattle.std.specs.Prelude.{slice_index};
ghost use Rattle.std.specs.Int.{byte_len, w32, w64};
ghost use Rattle.fidl_wire.specs.Encoding.{zeros};
ghost use Rattle.fidl_wire.specs.Envelope.{bytes_below, handles_below, flags_at};
ghost use Rattle.fidl_wire.specs.Marker.{Says};
ghost use Rattle.fidl_wire.specs.Field.{number_at};
ghost use Rattle.fidl_wire.specs.Standing.{Stands};
ghost use Rattle.fidl_wire.specs.Term.{width};
ghost use Rattle.fidl_table_format.specs.Number.{number_standing};
ghost use Rattle.fidl_table_format.specs.Terms.{as_number, value_number};
ghost use Rattle.fidl_decode_model.specs.Breaks.{IsPadding};
ghost use Rattle.fidl_decode_values.specs.Reading.{came, Holds};
ghost use Rattle.fidl_decode_model.specs.Frontier.{AreFree};
ghost use Rattle.fidl_decode_model.specs.Machine.{at_of};

use crate::decoder::Decoder;
use crate::passing_texts::are_ascii;
use fidl_decode_columns::{padding_at, zeros_at};
use fidl_decode_model::DecodeFault;
use fidl_decode_model::frame::State;
use fidl_table_format::{EntryKind, number_bits};
use fidl_wire::Presence;

impl<'t, 'm, 's> Decoder<'t, 'm, 's> {
    /// The byte at a place.
    #[inline(always)]
    pub(crate) fn byte_at(&self, place: usize, state: &State<'_, '_>) -> u8
        requires holds { Holds self.now state.now }
        requires room { place < length (came self.now) }
        requires free { AreFree (at_of state.now) place (place + 1) }
        ensures { result ≡ slice_index (came self.now) place }
    {
        state.links.byte_at(place)
    }

    /// The number of four bytes at a place.
    #[inline(always)]
    pub(crate) fn u32_at(&self, place: usize, state: &State<'_, '_>) -> u32
        requires holds { Holds self.now state.now }
        requires room { place + 4 ≤ length (came self.now) }
        requires free { AreFree (at_of state.now) place (place + 4) }
        ensures { result ≡ number_at w32 (came self.now) place }
    {
        state.links.u32_at(place)
    }

    /// The number of eight bytes at a place.
    #[inline(always)]
    pub(crate) fn u64_at(&self, place: usize, state: &State<'_, '_>) -> u64
        requires holds { Holds self.now state.now }
        requires room { place + 8 ≤ length (came self.now) }
        requires free { AreFree (at_of state.now) place (place + 8) }
        ensures { result ≡ number_at w64 (came self.now) place }
    {
        state.links.u64_at(place)
    }

    /// The number of a kind of numbers at a place, in 64 bits.
    #[inline(always)]
    pub(crate) fn number_bits(&self, kind: EntryKind, place: usize, state: &State<'_, '_>) -> u64
        requires holds { Holds self.now state.now }
        requires room { place + byte_len (width (as_number kind)) ≤ length (came self.now) }
        requires free { AreFree (at_of state.now) place
            (place + byte_len (width (as_number kind))) }
        ensures { value_number (as_number kind) result ≡ number_standing (as_number kind)
            (came self.now) place }
    {
        number_bits(kind, state.links.raw(), place)
    }

    /// How many bytes lie out of line below the envelope at a place, or the four bytes in it.
    #[inline(always)]
    pub(crate) fn byte_count_at(&self, envelope: usize, state: &State<'_, '_>) -> u32
        requires holds { Holds self.now state.now }
        requires room { envelope + 8 ≤ length (came self.now) }
        requires free { AreFree (at_of state.now) envelope (envelope + 8) }
        ensures { result ≡ bytes_below (came self.now) envelope }
    {
        state.links.byte_count_at(envelope)
    }

    /// How many handles lie below the envelope at a place.
    #[inline(always)]
    pub(crate) fn handle_count_at(&self, envelope: usize, state: &State<'_, '_>) -> u16
        requires holds { Holds self.now state.now }
        requires room { envelope + 8 ≤ length (came self.now) }
        requires free { AreFree (at_of state.now) envelope (envelope + 8) }
        ensures { result ≡ handles_below (came self.now) envelope }
    {
        state.links.handle_count_at(envelope)
    }

    /// The flags of the envelope at a place.
    #[inline(always)]
    pub(crate) fn flags_at(&self, envelope: usize, state: &State<'_, '_>) -> u16
        requires holds { Holds self.now state.now }
        requires room { envelope + 8 ≤ length (came self.now) }
        requires free { AreFree (at_of state.now) envelope (envelope + 8) }
        ensures { result ≡ flags_at (came self.now) envelope }
    {
        state.links.flags_at(envelope)
    }

    /// What the four bytes of a handle at a place say.
    #[inline(always)]
    pub(crate) fn presence_at(&self, place: usize, state: &State<'_, '_>) -> Presence
        requires holds { Holds self.now state.now }
        requires room { place + 4 ≤ length (came self.now) }
        requires free { AreFree (at_of state.now) place (place + 4) }
        ensures { Says (came self.now) place 4 result }
    {
        state.links.presence_at(place, 4)
    }

    /// Zeros from one place to another.
    #[inline(always)]
    pub fn zeros_at(&self, from: usize, to: usize, state: &State<'_, '_>) -> Result<(), DecodeFault>
        requires holds { Holds self.now state.now }
        requires order { from ≤ to }
        requires room { to ≤ length (came self.now) }
        requires free { AreFree (at_of state.now) from to }
        ensures ok { OnOk result (Stands (came self.now) from (zeros (to - from))) }
        ensures fault_is_true { IfErr result (IsPadding (came self.now) from to) }
    {
        zeros_at(state.links.raw(), from, to)
    }

    /// Zeros behind what an object holds, up to the next multiple of eight bytes.
    #[inline(always)]
    pub(crate) fn padding_at(
        &self,
        from: usize,
        to: usize,
        state: &State<'_, '_>,
    ) -> Result<(), DecodeFault>
        requires holds { Holds self.now state.now }
        requires order { from ≤ to }
        requires few { to < from + 8 }
        requires aligned { to % 8 ≡ 0 }
        requires room { to ≤ length (came self.now) }
        requires free { AreFree (at_of state.now) from to }
        ensures ok { OnOk result (Stands (came self.now) from (zeros (to - from))) }
        ensures fault_is_true { IfErr result (IsPadding (came self.now) from to) }
    {
        padding_at(state.links.raw(), from, to)
    }

    /// Whether so many bytes from a place on, whose number is a multiple of eight, are ASCII.
    #[inline(always)]
    pub(crate) fn are_ascii(&self, from: usize, size: usize, state: &State<'_, '_>) -> bool
        requires holds { Holds self.now state.now }
        requires eights { size % 8 ≡ 0 }
        requires room { from + size ≤ length (came self.now) }
        requires free { AreFree (at_of state.now) from (from + size) }
        ensures { IsTrue result → (k : ℕ) → k < size → slice_index (came self.now) (from + k) < 128 }
    {
        are_ascii(state.links.raw(), from, size)
    }
}
