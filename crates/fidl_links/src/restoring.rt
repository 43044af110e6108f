//! A message is given back as it came.
ghost use Rattle.std.specs.Prelude.{◌≡◌, ℕ, ◌+◌, ◌-◌, ◌*◌, ◌/◌, ◌^◌, ◌<◌, ◌≤◌, length};
ghost use Rattle.std.specs.Prelude.{slice_index};
ghost use Rattle.std.specs.List.{range_with_len, sum_by};
ghost use Rattle.fidl_links.specs.Bits.{flag};
ghost use Rattle.fidl_links.specs.Coding.{came_word, word_links};
ghost use Rattle.fidl_links.specs.Links.{came_at, links_at, came_byte, places, written, AreSound};
ghost use Rattle.fidl_links.specs.Words.{words_of};
ghost use Rattle.fidl_limits.specs.declared.limits.TheConstants.{MAX_MESSAGE_BYTES};

use crate::links::Links;
use crate::room::Room;
use crate::words::{are_octets, put_word};
use fidl_wire::u64_at;

/// The word that came, from the one that stands and the bits of the room at it.
#[inline(always)]
fn original(word: u64, marker: bool, envelope: bool, lower: bool, upper: bool) -> u64
    ensures { result ≡ came_word (flag marker) (flag envelope) (flag lower) (flag upper) word }
{
    if marker {
        return 0xFFFF_FFFF_FFFF_FFFF;
    }
    let low = if lower {
        0xFFFF_FFFF
    } else {
        word % 0x1_0000_0000
    };
    if envelope {
        let handles = word / 0x1_0000_0000_0000 % 0x80 * 0x1_0000_0000;
        if word / 0x8000_0000_0000_0000 == 0 {
            return word / 0x100_0000 % 0x100_0000 * 8 + handles;
        }
        return low + (handles + 0x1_0000_0000_0000);
    }
    let high = if upper {
        0xFFFF_FFFF
    } else {
        word / 0x1_0000_0000
    };
    low + high * 0x1_0000_0000
}

/// How many links the word that stands holds, by the bits of the room at it.
#[inline(always)]
fn links_in(word: u64, marker: bool, envelope: bool, lower: bool, upper: bool) -> u64
    ensures { result ≡ word_links (flag marker) (flag envelope) (flag lower) (flag upper) word }
{
    if marker {
        return 1;
    }
    if !envelope {
        return u64::from(lower) + u64::from(upper);
    }
    if word / 0x8000_0000_0000_0000 == 0 {
        return 1;
    }
    1 + u64::from(lower)
}

/// The word with this number as it came, and how many links it holds.
#[tactic(auto, unfolding(crate::specs::Words::word))]
#[inline(always)]
pub(crate) fn came_at(bytes: &[u8], room: &Room, i: usize) -> (u64, u64)
    requires few { length bytes.now ≤ MAX_MESSAGE_BYTES }
    requires within { i < words_of bytes.now }
    ensures came { result.0 ≡ came_at bytes.now room.now.marks i }
    ensures links { result.1 ≡ links_at bytes.now room.now.marks i }
{
    let word = u64_at(bytes, 8 * i);
    let marker = room.has_marker(i);
    let envelope = room.has_envelope(i);
    let lower = room.has_handle(2 * i);
    let upper = room.has_handle(2 * i + 1);
    let came = original(word, marker, envelope, lower, upper);
    let links = links_in(word, marker, envelope, lower, upper);
    (came, links)
}

/// Takes the links out of the words from one up to another, and counts them.
fn take_out_of(bytes: &mut [u8], room: &Room, from: usize, to: usize) -> u64
    requires few { length bytes.old ≤ MAX_MESSAGE_BYTES }
    requires order { from ≤ to }
    requires within { to ≤ words_of bytes.old }
    ensures len { length bytes.new ≡ length bytes.old }
    ensures came { (k : ℕ) → 8 * from ≤ k → k < 8 * to
        → slice_index bytes.new k ≡ came_byte bytes.old room.now.marks k }
    ensures before { (k : ℕ) → k < 8 * from → slice_index bytes.new k ≡ slice_index bytes.old k }
    ensures behind { (k : ℕ) → 8 * to ≤ k → slice_index bytes.new k ≡ slice_index bytes.old k }
    ensures links { result
        ≡ sum_by (links_at bytes.old room.now.marks) (range_with_len from (to - from)) }
{
    let mut links = 0;
    for i in from..to {
        let (came, more) = came_at(bytes, room, i);
        put_word(bytes, 8 * i, came);
        links += more;
    }
    links
}

/// Takes all links out of a message, and counts them. Where no word of eight is marked, all of them
/// are passed at once.
fn take_links_out(bytes: &mut [u8], room: &Room) -> u64
    requires few { length bytes.old ≤ MAX_MESSAGE_BYTES }
    requires sound { AreSound bytes.old room.now.marks }
    ensures came { bytes.new ≡ (written bytes.old room.now.marks).came }
    ensures places { result ≡ places (written bytes.old room.now.marks) }
    ensures small { result < 2 ^ 63 }
{
    are_octets(bytes);
    let words = bytes.len() / 8;
    let mut places = 0;
    for n in 0..words.div_ceil(8) {
        if room.is_unmarked(n) {
            continue;
        }
        let from = 8 * n;
        places += take_out_of(bytes, room, from, words.min(from + 8));
    }
    places
}

impl<'m, 's> Links<'m, 's> {
    /// The message as it came, without links.
    pub fn release(self) -> &'m mut [u8]
        ensures { result.now ≡ self.entry.came }
    {
        let Links { bytes, room } = self;
        let _ = take_links_out(bytes, room);
        bytes
    }

    /// The message as it came, and the room, which keeps that the message took so many steps, and
    /// one more for each place that held a link.
    pub fn restore(self, steps: u64) -> (&'m mut [u8], &'s mut Room)
        requires budget { steps < 2 ^ 63 }
        ensures came { result.0.now ≡ self.entry.came }
        ensures steps { result.1.now.steps ≡ steps + places self.entry }
    {
        let Links { bytes, room } = self;
        let places = take_links_out(bytes, room);
        room.set_steps(steps + places);
        (bytes, room)
    }
}
