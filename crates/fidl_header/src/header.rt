//! Reading and writing the header of a message.
ghost use Rattle.std.specs.Prelude.{◌≡◌, IfOk, IfErr};
ghost use Rattle.fidl_header.specs.Header.{IsHeader, header_of, header_bytes};
ghost use Rattle.fidl_header.specs.Faults.{IsRefused};

use crate::fault::HeaderFault;
use fidl_wire::{u32_at, u64_at};

/// The length of a header, in bytes.
pub const HEADER_BYTES: usize = 16;

/// What stands before the body of a message.
#[derive(Clone, Copy, PartialEq, Eq, Debug, Drop)]
pub struct Header {
    /// The transaction id; 0 where no reply is wanted.
    pub txid: u32,
    /// Whether the method is flexible.
    pub flexible: bool,
    /// The ordinal of the method.
    pub ordinal: u64,
}

impl Header {
    /// The header with which a message begins.
    ///
    /// `Ok` exactly where there are 16 bytes or more, the magic number is 1, the flags say version 2,
    /// and they do not say that the message overflows. All other flag bits are ignored.
    pub fn read(bytes: &[u8]) -> Result<Header, HeaderFault>
        ensures ok { IfOk result (λ header. IsHeader bytes.now) }
        ensures value { IfOk result (λ header. header ≡ header_of bytes.now) }
        ensures fault_is_true { IfErr result (IsRefused bytes.now) }
    {
        if bytes.len() < HEADER_BYTES {
            return Err(HeaderFault::Short);
        }
        if bytes[7] != 1 {
            return Err(HeaderFault::BadMagic);
        }
        if bytes[4] & 2 == 0 {
            return Err(HeaderFault::NotVersion2);
        }
        if bytes[6] & 64 != 0 {
            return Err(HeaderFault::Overflow);
        }
        Ok(Header {
            txid: u32_at(bytes, 0),
            flexible: bytes[6] & 128 != 0,
            ordinal: u64_at(bytes, 8),
        })
    }

    /// The bytes of the header, from which `read` gives it back. Flag bits without a meaning here are
    /// zero.
    pub fn write(&self) -> [u8; 16]
        ensures bytes { result ≡ header_bytes self.now }
        ensures accepted { IsHeader result }
        ensures back { header_of result ≡ self.now }
    {
        let txid = self.txid;
        let ordinal = self.ordinal;
        let [a, b, c, d] = txid.to_le_bytes();
        let [e, f, g, h, i, j, k, l] = ordinal.to_le_bytes();
        let flags = if self.flexible { 128 } else { 0 };
        [a, b, c, d, 2, 0, flags, 1, e, f, g, h, i, j, k, l]
    }
}
