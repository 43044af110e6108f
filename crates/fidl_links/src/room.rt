//! Room for the links of a message: at which places links stand.
ghost use Rattle.std.specs.Prelude.{◌≡◌, ◌≢◌, ℕ, ◌*◌, ◌<◌, ◌≤◌, ◌↔◌, IfOk, IsTrue};
ghost use Rattle.std.specs.Int.{w64};
ghost use Rattle.fidl_wire.specs.Field.{number_at};
ghost use Rattle.fidl_links.specs.Bits.{flag};
ghost use Rattle.fidl_links.specs.Marks.{marker_bit, envelope_bit, handle_bit};
ghost use Rattle.fidl_limits.specs.declared.limits.TheConstants.{MAX_MESSAGE_BYTES};

use crate::bits::{clear, has_bit, set_bit};
use fidl_limits::MAX_MESSAGE_BYTES;
use fidl_wire::u64_at;
use std::alloc::{AllocError, Global};
use std::marker::Model;

/// The bit of a word's byte that says whether a marker's link stands in the word.
const MARKER: u8 = 0;

/// The one that says whether an envelope's does.
const ENVELOPE: u8 = 1;

/// The one that says whether a handle's link stands in the lower half of the word. The next one is
/// that of the upper half.
const HANDLE: u8 = 2;

/// Room for the links of one message at a time. It has a byte for each eight bytes of the message,
/// whose bits say which links stand there. It keeps how many steps the last message took.
#[derive(Drop)]
pub struct Room {
    marks: Vec<u8>,
    steps: u64,
}

impl Model for Room {
    ghost use Rattle.std.specs.Prelude.{◌≡◌, ◌/◌, length};
    ghost use Rattle.fidl_links.specs.Marks.{Kept};
    ghost use Rattle.fidl_limits.specs.declared.limits.TheConstants.{MAX_MESSAGE_BYTES};

    ghost Value = { Kept };

    ghost view = { λ r. record { marks = r.marks.items; steps = r.steps } };

    ghost invariant = { λ r. length r.marks.items ≡ MAX_MESSAGE_BYTES / 8 };
}

impl Room {
    /// Allocates the bytes. An error says that memory ran out.
    pub fn new(alloc: Global) -> Result<Room, AllocError>
        ensures { IfOk result (λ r. r.steps ≡ 0) }
    {
        let marks = vec![in alloc; 0; MAX_MESSAGE_BYTES / 8]?;
        Ok(Room { marks, steps: 0 })
    }

    /// How many steps the last message took.
    pub fn steps(&self) -> u64
        ensures { result ≡ self.now.steps }
    {
        self.steps
    }

    /// The last message took so many steps.
    pub fn set_steps(&mut self, steps: u64)
        ensures steps { self.new.steps ≡ steps }
        ensures marks { self.new.marks ≡ self.old.marks }
    {
        self.steps = steps;
    }

    /// Whether the word with this number holds a marker's link.
    #[inline(always)]
    pub(crate) fn has_marker(&self, i: usize) -> bool
        requires { 8 * i < MAX_MESSAGE_BYTES }
        ensures { flag result ≡ marker_bit self.now.marks i }
    {
        has_bit(&self.marks, i, MARKER)
    }

    /// Whether it holds an envelope's link.
    #[inline(always)]
    pub(crate) fn has_envelope(&self, i: usize) -> bool
        requires { 8 * i < MAX_MESSAGE_BYTES }
        ensures { flag result ≡ envelope_bit self.now.marks i }
    {
        has_bit(&self.marks, i, ENVELOPE)
    }

    /// Whether the half of a word with this number holds a handle's link.
    #[inline(always)]
    pub(crate) fn has_handle(&self, j: usize) -> bool
        requires { 4 * j < MAX_MESSAGE_BYTES }
        ensures { flag result ≡ handle_bit self.now.marks j }
    {
        has_bit(&self.marks, j / 2, HANDLE + (j % 2) as u8)
    }

    /// Whether no link stands in the eight words from the one with the number `8 * n` on. Their bytes
    /// are looked at as one number.
    #[inline(always)]
    pub(crate) fn is_unmarked(&self, n: usize) -> bool
        requires { 64 * n < MAX_MESSAGE_BYTES }
        ensures { IsTrue result ↔ number_at w64 self.now.marks (8 * n) ≡ 0 }
    {
        u64_at(&self.marks, 8 * n) == 0
    }

    /// A word holds a marker's link.
    #[inline(always)]
    pub(crate) fn mark_marker(&mut self, i: usize)
        requires { 8 * i < MAX_MESSAGE_BYTES }
        ensures here { marker_bit self.new.marks i ≡ 1 }
        ensures elsewhere { (j : ℕ) → j ≢ i
            → marker_bit self.new.marks j ≡ marker_bit self.old.marks j }
        ensures envelopes { (j : ℕ) → envelope_bit self.new.marks j
            ≡ envelope_bit self.old.marks j }
        ensures handles { (j : ℕ) → handle_bit self.new.marks j ≡ handle_bit self.old.marks j }
    {
        set_bit(&mut self.marks, i, MARKER);
    }

    /// A word holds an envelope's link.
    #[inline(always)]
    pub(crate) fn mark_envelope(&mut self, i: usize)
        requires { 8 * i < MAX_MESSAGE_BYTES }
        ensures here { envelope_bit self.new.marks i ≡ 1 }
        ensures elsewhere { (j : ℕ) → j ≢ i
            → envelope_bit self.new.marks j ≡ envelope_bit self.old.marks j }
        ensures markers { (j : ℕ) → marker_bit self.new.marks j ≡ marker_bit self.old.marks j }
        ensures handles { (j : ℕ) → handle_bit self.new.marks j ≡ handle_bit self.old.marks j }
    {
        set_bit(&mut self.marks, i, ENVELOPE);
    }

    /// A half of a word holds a handle's link.
    #[inline(always)]
    pub(crate) fn mark_handle(&mut self, j: usize)
        requires { 4 * j < MAX_MESSAGE_BYTES }
        ensures here { handle_bit self.new.marks j ≡ 1 }
        ensures elsewhere { (k : ℕ) → k ≢ j
            → handle_bit self.new.marks k ≡ handle_bit self.old.marks k }
        ensures markers { (i : ℕ) → marker_bit self.new.marks i ≡ marker_bit self.old.marks i }
        ensures envelopes { (i : ℕ) → envelope_bit self.new.marks i
            ≡ envelope_bit self.old.marks i }
    {
        set_bit(&mut self.marks, j / 2, HANDLE + (j % 2) as u8);
    }

    /// Clears the bytes of so many words.
    pub(crate) fn clear(&mut self, words: usize)
        requires { 8 * words ≤ MAX_MESSAGE_BYTES }
        ensures markers { (i : ℕ) → i < words → marker_bit self.new.marks i ≡ 0 }
        ensures envelopes { (i : ℕ) → i < words → envelope_bit self.new.marks i ≡ 0 }
        ensures handles { (j : ℕ) → j < 2 * words → handle_bit self.new.marks j ≡ 0 }
    {
        clear(&mut self.marks, words);
    }
}
