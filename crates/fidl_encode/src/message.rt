//! A message that is being written.
ghost use Rattle.std.specs.Prelude.{◌≡◌, ◌≤◌, ◌<◌, ◌+◌, ◌++◌, length, IfOk, IfErr, OnOk};
ghost use Rattle.std.specs.Int.{next_multiple_of, to_le_bytes, w16, w32, w64};
ghost use Rattle.fidl_limits.specs.declared.limits.TheConstants.{MAX_MESSAGE_BYTES};
ghost use Rattle.fidl_wire.specs.Encoding.{present, zeros};

use crate::fault::EncodeFault;
use fidl_wire::{HandleInfo, MAX_MESSAGE_BYTES, MAX_MESSAGE_HANDLES};
use std::alloc::AllocError;

/// A message: its bytes, and the handles beside them.
#[derive(Debug, Drop)]
pub struct Message {
    pub bytes: Vec<u8>,
    pub handles: Vec<HandleInfo>,
}

impl Message {
    ghost use Rattle.fidl_encode.specs.Writing.{IsOver, IsWithin, written};
    ghost use Rattle.fidl_encode.specs.Parts.{HasNoRoom, HasNoHandles};

    /// How many bytes it has so far.
    #[inline(always)]
    pub(crate) fn len(&self) -> usize
        ensures { result ≡ length self.now.bytes.items }
    {
        self.bytes.len()
    }

    /// How many handles it has so far.
    #[inline(always)]
    pub(crate) fn handle_count(&self) -> usize
        ensures { result ≡ length self.now.handles.items }
    {
        self.handles.len()
    }

    /// Writes bytes over the zeros that were kept for them.
    #[inline(always)]
    pub(crate) fn put(&mut self, at: usize, bytes: &[u8])
        requires { at + length bytes.now ≤ length self.old.bytes.items }
        ensures over { IsOver self.old.bytes.items self.new.bytes.items at bytes.now }
        ensures same { length self.new.bytes.items ≡ length self.old.bytes.items }
        ensures handles { self.new.handles.items ≡ self.old.handles.items }
    {
        self.bytes[at..at + bytes.len()].copy_from_slice(bytes);
    }

    /// Writes a count, and the marker of what is present.
    #[inline(always)]
    pub(crate) fn put_count(&mut self, at: usize, count: u64)
        requires { at + 16 ≤ length self.old.bytes.items }
        ensures over { IsOver self.old.bytes.items self.new.bytes.items at
            (to_le_bytes w64 count ++ present) }
        ensures same { length self.new.bytes.items ≡ length self.old.bytes.items }
        ensures handles { self.new.handles.items ≡ self.old.handles.items }
    {
        self.put(at, &count.to_le_bytes());
        self.put(at + 8, &[255; 8]);
    }

    /// Writes what an envelope has behind its first four bytes.
    #[inline(always)]
    pub(crate) fn put_envelope_end(&mut self, at: usize, handles: u16, flags: u16)
        requires { at + 8 ≤ length self.old.bytes.items }
        ensures over { IsOver self.old.bytes.items self.new.bytes.items (at + 4)
            (to_le_bytes w16 handles ++ to_le_bytes w16 flags) }
        ensures same { length self.new.bytes.items ≡ length self.old.bytes.items }
        ensures handles { self.new.handles.items ≡ self.old.handles.items }
    {
        self.put(at + 4, &handles.to_le_bytes());
        self.put(at + 6, &flags.to_le_bytes());
    }

    /// Writes the envelope of an object out of line: how many bytes and handles it has.
    #[inline(always)]
    pub(crate) fn put_envelope(&mut self, at: usize, bytes: u32, handles: u16)
        requires { at + 8 ≤ length self.old.bytes.items }
        ensures over { IsOver self.old.bytes.items self.new.bytes.items at
            (to_le_bytes w32 bytes ++ (to_le_bytes w16 handles ++ to_le_bytes w16 0)) }
        ensures same { length self.new.bytes.items ≡ length self.old.bytes.items }
        ensures handles { self.new.handles.items ≡ self.old.handles.items }
    {
        self.put(at, &bytes.to_le_bytes());
        self.put_envelope_end(at, handles, 0);
    }

    /// Adds zeros behind all bytes: eight or sixteen by moves, and others by a call.
    #[inline(always)]
    fn add_zeros(&mut self, count: usize) -> Result<(), AllocError>
        requires { length self.old.bytes.items + count ≤ MAX_MESSAGE_BYTES }
        ensures room { OnOk result (self.new.bytes.items ≡ self.old.bytes.items ++ zeros count) }
        ensures handles { self.new.handles.items ≡ self.old.handles.items }
    {
        match count {
            8 => self.bytes.extend_from_slice(&[0; 8]),
            16 => self.bytes.extend_from_slice(&[0; 16]),
            _ => self.bytes.resize(self.bytes.len() + count, 0),
        }
    }

    /// Makes room for an object of this size behind all bytes, and answers where it begins.
    #[inline(always)]
    pub(crate) fn reserve(&mut self, size: usize) -> Result<usize, EncodeFault>
        requires { IsWithin (written self.old) }
        ensures place { IfOk result (λ at. at ≡ length self.old.bytes.items) }
        ensures room { OnOk result (self.new.bytes.items ≡ self.old.bytes.items
            ++ zeros (next_multiple_of size 8)) }
        ensures handles { OnOk result (self.new.handles.items ≡ self.old.handles.items) }
        ensures within { OnOk result (IsWithin (written self.new)) }
        ensures fault_is_true { IfErr result (HasNoRoom (written self.old) size) }
    {
        let at = self.bytes.len();
        if size > MAX_MESSAGE_BYTES {
            return Err(EncodeFault::TooLong);
        }
        let end = at + size.next_multiple_of(8);
        if end > MAX_MESSAGE_BYTES {
            return Err(EncodeFault::TooLong);
        }
        self.add_zeros(end - at)?;
        Ok(at)
    }

    /// Adds handles behind all handles.
    #[inline(always)]
    pub(crate) fn add_handles(&mut self, handles: &[HandleInfo]) -> Result<(), EncodeFault>
        requires { IsWithin (written self.old) }
        ensures bytes { OnOk result (self.new.bytes.items ≡ self.old.bytes.items) }
        ensures handles { OnOk result (self.new.handles.items
            ≡ self.old.handles.items ++ handles.now) }
        ensures within { OnOk result (IsWithin (written self.new)) }
        ensures fault_is_true { IfErr result (HasNoHandles (written self.old) handles.now) }
    {
        if handles.len() > MAX_MESSAGE_HANDLES - self.handles.len() {
            return Err(EncodeFault::TooManyHandles);
        }
        self.handles.extend_from_slice(handles)?;
        Ok(())
    }
}
