//! What is read of a message with links where no link stands: it is what came.
ghost use Rattle.std.specs.Prelude.{◌≡◌, ℕ, ◌+◌, ◌<◌, ◌≤◌, length, slice_index, slice_range};
ghost use Rattle.std.specs.Int.{w32, w64};
ghost use Rattle.fidl_wire.specs.Envelope.{bytes_below, handles_below, flags_at};
ghost use Rattle.fidl_wire.specs.Field.{number_at};
ghost use Rattle.fidl_wire.specs.Marker.{Says};
ghost use Rattle.fidl_links.specs.Links.{IsFree, AreFree};

use crate::links::Links;
use fidl_wire::{Presence, byte_count_at, flags_at, handle_count_at, presence_at, u32_at, u64_at};

impl<'m, 's> Links<'m, 's> {
    /// The byte at an offset from the message's start.
    #[inline(always)]
    pub fn byte_at(&self, place: usize) -> u8
        requires room { place < length self.now.came }
        requires free { IsFree self.now place }
        ensures { result ≡ slice_index self.now.came place }
    {
        self.bytes[place]
    }

    /// The number of four bytes at an offset from the message's start.
    #[inline(always)]
    pub fn u32_at(&self, place: usize) -> u32
        requires room { place + 4 ≤ length self.now.came }
        requires free { AreFree self.now place (place + 4) }
        ensures { result ≡ number_at w32 self.now.came place }
    {
        u32_at(self.bytes, place)
    }

    /// The number of eight bytes at an offset from the message's start.
    #[inline(always)]
    pub fn u64_at(&self, place: usize) -> u64
        requires room { place + 8 ≤ length self.now.came }
        requires free { AreFree self.now place (place + 8) }
        ensures { result ≡ number_at w64 self.now.came place }
    {
        u64_at(self.bytes, place)
    }

    /// How many bytes lie out of line below the envelope at an offset from the message's start, or
    /// the four bytes in it.
    #[inline(always)]
    pub fn byte_count_at(&self, envelope: usize) -> u32
        requires room { envelope + 8 ≤ length self.now.came }
        requires free { AreFree self.now envelope (envelope + 8) }
        ensures { result ≡ bytes_below self.now.came envelope }
    {
        byte_count_at(self.bytes, envelope)
    }

    /// How many handles lie below the envelope at an offset from the message's start.
    #[inline(always)]
    pub fn handle_count_at(&self, envelope: usize) -> u16
        requires room { envelope + 8 ≤ length self.now.came }
        requires free { AreFree self.now envelope (envelope + 8) }
        ensures { result ≡ handles_below self.now.came envelope }
    {
        handle_count_at(self.bytes, envelope)
    }

    /// The flags of the envelope at an offset from the message's start.
    #[inline(always)]
    pub fn flags_at(&self, envelope: usize) -> u16
        requires room { envelope + 8 ≤ length self.now.came }
        requires free { AreFree self.now envelope (envelope + 8) }
        ensures { result ≡ flags_at self.now.came envelope }
    {
        flags_at(self.bytes, envelope)
    }

    /// What the marker of this size at an offset from the message's start says: eight bytes, or the
    /// four of a handle.
    #[inline(always)]
    pub fn presence_at(&self, place: usize, size: usize) -> Presence
        requires some { 0 < size }
        requires room { place + size ≤ length self.now.came }
        requires free { AreFree self.now place (place + size) }
        ensures { Says self.now.came place size result }
    {
        presence_at(self.bytes, place, size)
    }

    /// The bytes from one offset to another, both from the message's start.
    #[inline(always)]
    pub fn part(&self, from: usize, to: usize) -> &[u8]
        requires order { from ≤ to }
        requires room { to ≤ length self.now.came }
        requires free { AreFree self.now from to }
        ensures { result.now ≡ slice_range self.now.came from to }
    {
        &self.bytes[from..to]
    }
}
