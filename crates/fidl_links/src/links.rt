//! A message in which links are written.
ghost use Rattle.std.specs.Prelude.{◌≡◌, ℕ, ◌+◌, ◌*◌, ◌/◌, ◌%◌, ◌<◌, ◌≤◌, length, slice_index};
ghost use Rattle.std.specs.Prelude.{slice_set, replicate};
ghost use Rattle.fidl_limits.specs.declared.limits.TheConstants.{MAX_MESSAGE_BYTES, MAX_MESSAGE_HANDLES};
ghost use Rattle.fidl_wire.specs.Encoding.{present};
ghost use Rattle.fidl_wire.specs.Envelope.{bytes_below, handles_below, flags_at};
ghost use Rattle.fidl_wire.specs.Standing.{Stands};
ghost use Rattle.fidl_links.specs.Links.{IsFree, IsFreeWord};

use crate::envelopes::{put_inside, put_outside};
use crate::room::Room;
use crate::words::{are_octets, put_half, put_word};
use std::marker::Model;

/// A message in which links stand in place of what came: at a marker or an envelope, where its
/// object begins, and at a handle, which of the records beside the message it has. Places are
/// offsets in bytes from the message's start.
#[derive(Drop)]
pub struct Links<'m, 's> {
    pub(crate) bytes: &'m mut [u8],
    pub(crate) room: &'s mut Room,
}

impl<'m, 's> Model for Links<'m, 's> {
    ghost use Rattle.std.specs.Prelude.{◌≤◌, length};
    ghost use Rattle.fidl_links.specs.Links.{Written, written, AreSound};
    ghost use Rattle.fidl_links.specs.Words.{AreOctets};
    ghost use Rattle.fidl_limits.specs.declared.limits.TheConstants.{MAX_MESSAGE_BYTES};

    ghost Value = { Written };

    ghost view = { λ l. written l.bytes.now l.room.now.marks };

    ghost invariant = { λ l. (length l.bytes.now ≤ MAX_MESSAGE_BYTES)
        × AreOctets l.bytes.now × AreSound l.bytes.now l.room.now.marks };
}

impl<'m, 's> Links<'m, 's> {
    /// The message that these bytes are, in which no link stands yet. Of the room only what the
    /// message needs is cleared.
    pub fn new(bytes: &'m mut [u8], room: &'s mut Room) -> Links<'m, 's>
        requires { length bytes.old ≤ MAX_MESSAGE_BYTES }
        ensures came { result.came ≡ bytes.old }
        ensures objects { (i : ℕ) → slice_index result.objects i ≡ 0 }
        ensures records { (j : ℕ) → slice_index result.records j ≡ 0 }
        ensures as_many_objects { length result.objects ≡ length bytes.old / 8 }
        ensures as_many_records { length result.records ≡ 2 * (length bytes.old / 8) }
    {
        are_octets(bytes);
        room.clear(bytes.len() / 8);
        Links { bytes, room }
    }

    /// Writes the link of a present marker: its object begins at the place `object`.
    #[inline(always)]
    pub fn link_marker(&mut self, marker: usize, object: usize)
        requires aligned { marker % 8 ≡ 0 }
        requires within { marker + 8 ≤ length self.old.came }
        requires present { Stands self.old.came marker present }
        requires some { 0 < object }
        requires few { object ≤ MAX_MESSAGE_BYTES }
        requires free { IsFreeWord self.old marker }
        ensures came { self.new.came ≡ self.old.came }
        ensures objects { self.new.objects ≡ slice_set self.old.objects (marker / 8) object }
        ensures records { self.new.records ≡ self.old.records }
    {
        put_word(self.bytes, marker, object as u64);
        self.room.mark_marker(marker / 8);
    }

    /// Writes the link of a present handle, over its four bytes: it has the record with this index.
    #[inline(always)]
    pub fn link_handle(&mut self, place: usize, index: usize)
        requires aligned { place % 4 ≡ 0 }
        requires within { place / 8 < length self.old.came / 8 }
        requires present { Stands self.old.came place (replicate 4 255) }
        requires few { index < MAX_MESSAGE_HANDLES }
        requires free { IsFree self.old place }
        ensures came { self.new.came ≡ self.old.came }
        ensures objects { self.new.objects ≡ self.old.objects }
        ensures records { self.new.records ≡ slice_set self.old.records (place / 4) (index + 1) }
    {
        put_half(self.bytes, place, index as u32 + 1);
        self.room.mark_handle(place / 4);
    }

    /// Writes the link of an envelope whose member lies out of line: the member is the object that
    /// begins at the place `object`, and its handles have the records from the index `first` on.
    /// What the envelope counts stays in its word.
    #[inline(always)]
    pub fn link_outside(&mut self, envelope: usize, object: usize, first: usize)
        requires aligned { envelope % 8 ≡ 0 }
        requires within { envelope + 8 ≤ length self.old.came }
        requires flags { flags_at self.old.came envelope ≡ 0 }
        requires eights { bytes_below self.old.came envelope % 8 ≡ 0 }
        requires short { bytes_below self.old.came envelope ≤ MAX_MESSAGE_BYTES }
        requires handles { handles_below self.old.came envelope < 128 }
        requires object { object % 8 ≡ 0 }
        requires some { 0 < object }
        requires few { object ≤ MAX_MESSAGE_BYTES }
        requires first { first < 128 }
        requires free { IsFreeWord self.old envelope }
        ensures came { self.new.came ≡ self.old.came }
        ensures objects { self.new.objects ≡ slice_set self.old.objects (envelope / 8) object }
        ensures records { self.new.records
            ≡ slice_set self.old.records ((envelope + 4) / 4) (first + 1) }
    {
        put_outside(self.bytes, envelope, object, first);
        self.room.mark_envelope(envelope / 8);
    }

    /// Writes the link of an envelope in which its member stands: the member's handles have the
    /// records from the index `first` on. The member's four bytes stay, and can be linked next.
    #[inline(always)]
    pub fn link_inside(&mut self, envelope: usize, first: usize)
        requires aligned { envelope % 8 ≡ 0 }
        requires within { envelope + 8 ≤ length self.old.came }
        requires flags { flags_at self.old.came envelope ≡ 1 }
        requires handles { handles_below self.old.came envelope < 128 }
        requires first { first < 128 }
        requires free { IsFreeWord self.old envelope }
        ensures came { self.new.came ≡ self.old.came }
        ensures objects { self.new.objects ≡ self.old.objects }
        ensures records { self.new.records
            ≡ slice_set self.old.records ((envelope + 4) / 4) (first + 1) }
    {
        put_inside(self.bytes, envelope, first);
        self.room.mark_envelope(envelope / 8);
    }
}
