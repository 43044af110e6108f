//! Writing the frame of a reply into a buffer.
ghost use Rattle.std.specs.Prelude.{◌≡◌, ◌+◌, ◌*◌, ◌≤◌, ◌++◌, length, take};
ghost use Rattle.std.specs.List.{flat_map};
ghost use Rattle.fidl_limits.specs.declared.limits.TheConstants.{MAX_MESSAGE_BYTES};
ghost use Rattle.fidl_limits.specs.declared.limits.TheConstants.{MAX_MESSAGE_HANDLES};
ghost use Rattle.fidl_frames.specs.declared.frame.TheConstants.{MAX_FRAME};
ghost use Rattle.fidl_serve.specs.Replying.{handle_bytes, frame_of};

use fidl_header::{HEADER_BYTES, Header};
use fidl_wire::HandleInfo;

/// Writes bytes over a buffer from a place on, and gives the place after them.
fn put(buffer: &mut [u8], place: usize, bytes: &[u8]) -> usize
    requires { place + length bytes.now ≤ length buffer.old }
    ensures front { take result buffer.new ≡ take place buffer.old ++ bytes.now }
    ensures place { result ≡ place + length bytes.now }
{
    let end = place + bytes.len();
    buffer[place..end].copy_from_slice(bytes);
    end
}

/// Writes a handle over a buffer from a place on, and gives the place after it.
fn put_handle(buffer: &mut [u8], place: usize, handle: &HandleInfo) -> usize
    requires { place + 12 ≤ length buffer.old }
    ensures front { take result buffer.new ≡ take place buffer.old ++ handle_bytes handle.now }
    ensures place { result ≡ place + 12 }
{
    let place = put(buffer, place, &handle.id.to_le_bytes());
    let place = put(buffer, place, &handle.object_type.to_le_bytes());
    put(buffer, place, &handle.rights.to_le_bytes())
}

/// Writes handles over a buffer from a place on, and gives the place after them.
fn put_handles(buffer: &mut [u8], place: usize, handles: &[HandleInfo]) -> usize
    requires { place + 12 * length handles.now ≤ length buffer.old }
    ensures front { take result buffer.new
        ≡ take place buffer.old ++ flat_map handle_bytes handles.now }
    ensures within { result ≤ length buffer.new }
{
    let mut end = place;
    for handle in handles {
        end = put_handle(buffer, end, handle);
    }
    end
}

/// Writes the frame of a message over the front of a buffer, and gives its length.
pub(crate) fn put_frame(
    buffer: &mut [u8],
    header: &Header,
    body: &[u8],
    handles: &[HandleInfo],
) -> usize
    requires room { length buffer.old ≡ MAX_FRAME }
    requires short { 16 + length body.now ≤ MAX_MESSAGE_BYTES }
    requires few { length handles.now ≤ MAX_MESSAGE_HANDLES }
    ensures frame { take result buffer.new
        ≡ frame_of header.now (record { bytes = body.now; handles = handles.now }) }
    ensures within { result ≤ length buffer.new }
{
    let bytes = HEADER_BYTES + body.len();
    let counts = put(buffer, 0, &(bytes as u32).to_le_bytes());
    let counts = put(buffer, counts, &(handles.len() as u32).to_le_bytes());
    let head = put(buffer, counts, &header.write());
    let end = put(buffer, head, body);
    put_handles(buffer, end, handles)
}
