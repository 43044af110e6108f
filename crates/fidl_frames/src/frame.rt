//! The length of a frame, by its head.
ghost use Rattle.std.specs.Prelude.{◌≡◌, ◌≤◌, true, false, length, IfSome, IfNone};
ghost use Rattle.fidl_frames.specs.Frames.{frame_length, is_proper};
ghost use Rattle.fidl_frames.specs.declared.frame.TheConstants.{MAX_FRAME};

use fidl_limits::{MAX_MESSAGE_BYTES, MAX_MESSAGE_HANDLES};
use fidl_wire::u32_at;

/// The length of the head of a frame, in bytes: the number of its message's bytes, and the number of
/// its handles.
pub const FRAME_HEAD: usize = 8;

/// The length of a handle in a frame, in bytes.
pub const HANDLE_BYTES: usize = 12;

/// The greatest length of a frame, in bytes.
pub const MAX_FRAME: usize = 8 + MAX_MESSAGE_BYTES + 12 * MAX_MESSAGE_HANDLES;

/// How long the frame is that begins with this head. None where its message has too many bytes or
/// handles.
pub fn frame_length(head: &[u8]) -> Option<usize>
    requires { length head.now ≡ 8 }
    ensures proper { IfSome result (λ n. is_proper head.now ≡ true) }
    ensures long { IfSome result (λ n. n ≡ frame_length head.now) }
    ensures low { IfSome result (λ n. 8 ≤ n) }
    ensures within { IfSome result (λ n. n ≤ MAX_FRAME) }
    ensures none { IfNone result (is_proper head.now ≡ false) }
{
    let bytes = u32_at(head, 0) as usize;
    let handles = u32_at(head, 4) as usize;
    if bytes > MAX_MESSAGE_BYTES || handles > MAX_MESSAGE_HANDLES {
        return None;
    }
    Some(FRAME_HEAD + bytes + HANDLE_BYTES * handles)
}
