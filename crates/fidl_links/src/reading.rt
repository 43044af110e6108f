//! What is read of a message with links: bytes where no link stands, and the links.
ghost use Rattle.std.specs.Prelude.{◌≡◌, ℕ, ◌+◌, ◌-◌, ◌*◌, ◌/◌, ◌%◌, ◌<◌, ◌≤◌, length};
ghost use Rattle.std.specs.Prelude.{◌↔◌, slice_index, replicate, IsTrue, IsFalse};
ghost use Rattle.fidl_wire.specs.Encoding.{present, zeros};
ghost use Rattle.fidl_wire.specs.Standing.{Stands};
ghost use Rattle.fidl_links.specs.Links.{IsFree, IsFreeWord};
ghost use Rattle.fidl_links.specs.Words.{AreOctets};

use crate::links::Links;
use fidl_wire::{u32_at, u64_at};

impl<'m, 's> Links<'m, 's> {
    /// The bytes as they stand, with the links in them. Where no link stands, they are the bytes
    /// that came.
    #[inline(always)]
    pub fn raw(&self) -> &[u8]
        ensures same_length { length result.now ≡ length self.now.came }
        ensures agree { (k : ℕ) → k < length self.now.came → IsFree self.now k
            → slice_index result.now k ≡ slice_index self.now.came k }
        ensures octets { AreOctets result.now }
        ensures as_many_objects { length self.now.objects ≡ length self.now.came / 8 }
        ensures as_many_records { length self.now.records ≡ 2 * (length self.now.came / 8) }
    {
        self.bytes
    }

    /// Where the object of the marker at a place begins.
    #[inline(always)]
    pub fn object_of_marker(&self, marker: usize) -> usize
        requires aligned { marker % 8 ≡ 0 }
        requires within { marker + 8 ≤ length self.now.came }
        requires present { Stands self.now.came marker present }
        requires linked { 0 < slice_index self.now.objects (marker / 8) }
        ensures { result ≡ slice_index self.now.objects (marker / 8) }
    {
        u64_at(self.bytes, marker) as usize
    }

    /// Where the object begins that is the member of the envelope at a place.
    #[inline(always)]
    pub fn object_of_envelope(&self, envelope: usize) -> usize
        requires aligned { envelope % 8 ≡ 0 }
        requires within { envelope + 8 ≤ length self.now.came }
        requires no_marker { ¬ (Stands self.now.came envelope present) }
        requires linked { 0 < slice_index self.now.objects (envelope / 8) }
        ensures { result ≡ slice_index self.now.objects (envelope / 8) }
    {
        (u64_at(self.bytes, envelope) % 0x100_0000) as usize * 8
    }

    /// The index of the record that the handle at a place has.
    #[inline(always)]
    pub fn record_of(&self, place: usize) -> usize
        requires aligned { place % 4 ≡ 0 }
        requires room { place + 4 ≤ length self.now.came }
        requires present { place % 8 ≡ 4 → Stands self.now.came place (replicate 4 255) }
        requires linked { 0 < slice_index self.now.records (place / 4) }
        ensures { result ≡ slice_index self.now.records (place / 4) - 1 }
    {
        u32_at(self.bytes, place) as usize - 1
    }

    /// The index of the first record of the member of the envelope at a place.
    #[inline(always)]
    pub fn first_record(&self, envelope: usize) -> usize
        requires aligned { envelope % 8 ≡ 0 }
        requires within { envelope + 8 ≤ length self.now.came }
        requires no_handle { ¬ (Stands self.now.came (envelope + 4) (replicate 4 255)) }
        requires linked { 0 < slice_index self.now.records ((envelope + 4) / 4) }
        ensures { result ≡ slice_index self.now.records ((envelope + 4) / 4) - 1 }
    {
        (u64_at(self.bytes, envelope) / 0x80_0000_0000_0000 % 0x80) as usize
    }

    /// Whether zeros stand in the eight bytes of a marker, an envelope or an ordinal at a place: no
    /// link stands there, and zeros came.
    #[inline(always)]
    pub fn is_blank(&self, place: usize) -> bool
        requires aligned { place % 8 ≡ 0 }
        requires within { place + 8 ≤ length self.now.came }
        ensures { IsTrue result ↔ IsFreeWord self.now place × Stands self.now.came place (zeros 8) }
    {
        u64_at(self.bytes, place) == 0
    }

    /// Whether zeros stand in the four bytes of a handle at a place: of one that is absent they do,
    /// and over one that is present its link stands.
    #[inline(always)]
    pub fn is_blank_handle(&self, place: usize) -> bool
        requires aligned { place % 4 ≡ 0 }
        requires room { place + 4 ≤ length self.now.came }
        ensures absent { IsFree self.now place → Stands self.now.came place (zeros 4)
            → IsTrue result }
        ensures linked { Stands self.now.came place (replicate 4 255)
            → 0 < slice_index self.now.records (place / 4) → IsFalse result }
    {
        u32_at(self.bytes, place) == 0
    }
}
