//! Markers: whether what a field tells of is there.
ghost use Rattle.std.specs.Prelude.{◌+◌, ◌<◌, ◌≤◌, length};
ghost use Rattle.fidl_wire.specs.Marker.{Says};

/// What a marker says of what it stands for.
#[derive(Clone, Copy, PartialEq, Eq, Debug, Drop)]
pub enum Presence {
    /// All its bytes are zeros: it is not there.
    Absent,
    /// All its bytes are ones: it is there.
    Present,
    /// No marker has these bytes.
    Neither,
}

/// What the marker of this size at a place says: eight bytes, or the four of a handle.
pub fn presence_at(bytes: &[u8], place: usize, size: usize) -> Presence
    requires some { 0 < size }
    requires room { place + size ≤ length bytes.now }
    ensures { Says bytes.now place size result }
{
    let first = bytes[place];
    for i in place..place + size {
        if bytes[i] != first {
            return Presence::Neither;
        }
    }
    match first {
        0 => Presence::Absent,
        255 => Presence::Present,
        _ => Presence::Neither,
    }
}
