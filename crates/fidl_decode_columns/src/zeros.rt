//! Zeros before, between and behind members.
ghost use Rattle.std.specs.Prelude.{◌≡◌, ◌+◌, ◌-◌, ◌%◌, ◌<◌, ◌≤◌, ◌≢◌, IsTrue, OnOk, IfErr, length};
ghost use Rattle.std.specs.Prelude.{slice_index};
ghost use Rattle.fidl_wire.specs.Standing.{Stands};
ghost use Rattle.fidl_wire.specs.Encoding.{zeros};
ghost use Rattle.fidl_decode_model.specs.Breaks.{IsPadding};

use fidl_decode_model::DecodeFault;
use fidl_wire::u64_at;

/// Whether some bytes are zeros, by the number of the eight bytes that end with them. It is not
/// asked of more than eight, nor where fewer than eight stand before their end.
#[inline(always)]
fn are_few_zeros(bytes: &[u8], from: usize, to: usize) -> bool
    requires order { from < to }
    requires room { to ≤ length bytes.now }
    ensures { IsTrue result → Stands bytes.now from (zeros (to - from)) }
{
    if to < 8 || to - from > 8 {
        return false;
    }
    u64_at(bytes, to - 8) >> (8 * (8 - (to - from))) == 0
}

/// Where the first byte from one place to another stands that is not zero: the end, where none is.
/// It answers a number and no refusal, so that the calls which are inlined have no refusal to clear.
#[cold]
#[inline(never)]
fn first_not_zero(bytes: &[u8], from: usize, to: usize) -> usize
    requires order { from ≤ to }
    requires room { to ≤ length bytes.now }
    ensures behind { from ≤ result }
    ensures within { result ≤ to }
    ensures zeros { Stands bytes.now from (zeros (result - from)) }
    ensures other { result < to → slice_index bytes.now result ≢ 0 }
{
    for i in from..to {
        if bytes[i] != 0 {
            return i;
        }
    }
    to
}

/// Zeros from one place to another, which are looked at one by one.
#[inline(always)]
fn zeros_by_search(bytes: &[u8], from: usize, to: usize) -> Result<(), DecodeFault>
    requires order { from ≤ to }
    requires room { to ≤ length bytes.now }
    ensures ok { OnOk result (Stands bytes.now from (zeros (to - from))) }
    ensures fault_is_true { IfErr result (IsPadding bytes.now from to) }
{
    let at = first_not_zero(bytes, from, to);
    if at == to {
        return Ok(());
    }
    Err(DecodeFault::Padding { at })
}

/// Zeros from one place to another.
#[inline(always)]
pub fn zeros_at(bytes: &[u8], from: usize, to: usize) -> Result<(), DecodeFault>
    requires order { from ≤ to }
    requires room { to ≤ length bytes.now }
    ensures ok { OnOk result (Stands bytes.now from (zeros (to - from))) }
    ensures fault_is_true { IfErr result (IsPadding bytes.now from to) }
{
    if from == to || are_few_zeros(bytes, from, to) {
        return Ok(());
    }
    zeros_by_search(bytes, from, to)
}

/// Whether the bytes up to the next multiple of eight are zeros, by the number of the eight bytes in
/// which they stand.
#[inline(always)]
fn is_padded(bytes: &[u8], from: usize, to: usize) -> bool
    requires order { from ≤ to }
    requires few { to < from + 8 }
    requires aligned { to % 8 ≡ 0 }
    requires room { to ≤ length bytes.now }
    ensures { IsTrue result → Stands bytes.now from (zeros (to - from)) }
{
    let used = from % 8;
    if used == 0 {
        return true;
    }
    u64_at(bytes, from - used) >> (8 * used) == 0
}

/// Zeros behind what an object holds, up to the next multiple of eight bytes.
#[inline(always)]
pub fn padding_at(bytes: &[u8], from: usize, to: usize) -> Result<(), DecodeFault>
    requires order { from ≤ to }
    requires few { to < from + 8 }
    requires aligned { to % 8 ≡ 0 }
    requires room { to ≤ length bytes.now }
    ensures ok { OnOk result (Stands bytes.now from (zeros (to - from))) }
    ensures fault_is_true { IfErr result (IsPadding bytes.now from to) }
{
    if is_padded(bytes, from, to) {
        return Ok(());
    }
    zeros_by_search(bytes, from, to)
}
