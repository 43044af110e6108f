//! The message and the handles of a frame.
ghost use Rattle.std.specs.Prelude.{◌≡◌, ◌+◌, ◌*◌, ◌≤◌, length, drop};
ghost use Rattle.fidl_limits.specs.declared.limits.TheConstants.{MAX_MESSAGE_BYTES};
ghost use Rattle.fidl_limits.specs.declared.limits.TheConstants.{MAX_MESSAGE_HANDLES};
ghost use Rattle.fidl_frames.specs.Frames.{IsFrame};
ghost use Rattle.fidl_requests.specs.Frame.{message_length, handle_count, message_of};
ghost use Rattle.fidl_requests.specs.Frame.{handle_of, handles_from, handles_of};

use fidl_frames::{FRAME_HEAD, HANDLE_BYTES};
use fidl_limits::MAX_MESSAGE_HANDLES;
use fidl_wire::{HandleInfo, u32_at};
use std::marker::Model;

/// Room for the handles of a frame (`Frame::handles`).
pub const HANDLE_ROOM: [HandleInfo; MAX_MESSAGE_HANDLES] = [HandleInfo {
    id: 0,
    object_type: 0,
    rights: 0,
}; MAX_MESSAGE_HANDLES];

/// A whole frame, whose message is decoded where it stands. Contracts see its bytes.
#[derive(Drop)]
pub struct Frame<'f> {
    bytes: &'f mut [u8],
}

impl<'f> Model for Frame<'f> {
    ghost use Rattle.std.specs.Prelude.{List, ℕ};
    ghost use Rattle.fidl_frames.specs.Frames.{IsFrame};

    ghost Value = { List ℕ };

    ghost view = { λ f. f.bytes.now };

    ghost invariant = { λ f. IsFrame f.bytes.now };
}

/// The handle that is written first in these bytes.
fn handle_at(bytes: &[u8]) -> HandleInfo
    requires { 12 ≤ length bytes.now }
    ensures { result ≡ handle_of bytes.now }
{
    HandleInfo {
        id: u32_at(bytes, 0),
        object_type: u32_at(bytes, 4),
        rights: u32_at(bytes, 8),
    }
}

/// Puts so many handles at the front of a room, as they are written in these bytes, and gives them.
fn read_handles<'r>(
    bytes: &[u8],
    count: usize,
    room: &'r mut [HandleInfo; MAX_MESSAGE_HANDLES],
) -> &'r [HandleInfo]
    requires written { 12 * count ≤ length bytes.now }
    requires few { count ≤ MAX_MESSAGE_HANDLES }
    ensures { result.now ≡ handles_from count bytes.now }
{
    for place in 0..count {
        room[place] = handle_at(&bytes[HANDLE_BYTES * place..]);
    }
    &room[..count]
}

impl<'f> Frame<'f> {
    /// The frame of these bytes, which are one whole frame and no more.
    pub fn new(bytes: &'f mut [u8]) -> Frame<'f>
        requires { IsFrame bytes.old }
        ensures { result ≡ bytes.old }
    {
        Frame { bytes }
    }

    /// How many bytes its message has.
    fn message_length(&self) -> usize
        ensures value { result ≡ message_length self.now }
        ensures short { result ≤ MAX_MESSAGE_BYTES }
        ensures within { 8 + result ≤ length self.now }
    {
        u32_at(self.bytes, 0) as usize
    }

    /// How many handles come with it.
    fn handle_count(&self) -> usize
        ensures value { result ≡ handle_count self.now }
        ensures few { result ≤ MAX_MESSAGE_HANDLES }
        ensures written { 12 * result ≤ length (drop (8 + message_length self.now) self.now) }
    {
        u32_at(self.bytes, 4) as usize
    }

    /// Its message.
    pub fn message(&self) -> &[u8]
        ensures value { result.now ≡ message_of self.now }
        ensures short { length result.now ≤ MAX_MESSAGE_BYTES }
    {
        &self.bytes[FRAME_HEAD..FRAME_HEAD + self.message_length()]
    }

    /// Its handles, which it puts at the front of a room.
    pub fn handles<'r>(&self, room: &'r mut [HandleInfo; MAX_MESSAGE_HANDLES]) -> &'r [HandleInfo]
        ensures { result.now ≡ handles_of self.now }
    {
        let bytes = &self.bytes[FRAME_HEAD + self.message_length()..];
        read_handles(bytes, self.handle_count(), room)
    }

    /// Its message, to be decoded in place.
    pub fn into_message(self) -> &'f mut [u8]
        ensures value { result.now ≡ message_of self.entry }
        ensures short { length result.now ≤ MAX_MESSAGE_BYTES }
    {
        let end = FRAME_HEAD + self.message_length();
        let Frame { bytes } = self;
        &mut bytes[FRAME_HEAD..end]
    }
}
