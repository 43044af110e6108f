//! What an envelope counts, whether or not its link stands in its place.
ghost use Rattle.std.specs.Prelude.{◌≡◌, ◌+◌, ◌%◌, ◌≤◌, length};
ghost use Rattle.fidl_wire.specs.Envelope.{bytes_below, handles_below, flags_at};

use crate::links::Links;
use crate::restoring::came_at;

impl<'m, 's> Links<'m, 's> {
    /// How many bytes lie out of line below the envelope at a place, as it came, or the four bytes
    /// that came in it.
    pub fn counted_bytes(&self, envelope: usize) -> u32
        requires aligned { envelope % 8 ≡ 0 }
        requires within { envelope + 8 ≤ length self.now.came }
        ensures { result ≡ bytes_below self.now.came envelope }
    {
        let (word, _) = came_at(self.bytes, self.room, envelope / 8);
        (word % 0x1_0000_0000) as u32
    }

    /// How many handles lie below the envelope at a place, as it came.
    pub fn counted_handles(&self, envelope: usize) -> u16
        requires aligned { envelope % 8 ≡ 0 }
        requires within { envelope + 8 ≤ length self.now.came }
        ensures { result ≡ handles_below self.now.came envelope }
    {
        let (word, _) = came_at(self.bytes, self.room, envelope / 8);
        (word / 0x1_0000_0000 % 0x1_0000) as u16
    }

    /// The flags of the envelope at a place, as it came: 1 where its member stands in it.
    pub fn came_flags(&self, envelope: usize) -> u16
        requires aligned { envelope % 8 ≡ 0 }
        requires within { envelope + 8 ≤ length self.now.came }
        ensures { result ≡ flags_at self.now.came envelope }
    {
        let (word, _) = came_at(self.bytes, self.room, envelope / 8);
        (word / 0x1_0000_0000_0000) as u16
    }
}
