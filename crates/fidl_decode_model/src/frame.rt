//! What the decoder still has to read of a struct, an array, a vector, a table or an envelope.
//!
//! Frames are moved and cleared as the decoder goes, so their places and sizes have 32 bits. A message
//! has fewer bytes than that.

use fidl_links::Links;

/// Where the next object and the next handle have to be at the end of an envelope's content, as the
/// envelope counts them.
#[derive(Clone, Copy, Drop)]
pub struct Until {
    pub envelope: u32,
    pub next: u32,
    pub handle: u32,
}

/// The members that are left of a struct, an array, a vector, a table or an envelope.
#[derive(Clone, Copy, Drop)]
pub enum Remaining {
    /// So many rows of the table, from the first on.
    Rows {
        first: u32,
        count: u32,
    },
    /// So many elements of an entry of this size.
    Elements {
        entry: u32,
        size: u32,
        count: u32,
    },
    /// So many envelopes of a value of a table entry, behind those that are read.
    Envelopes {
        entry: u32,
        read: u32,
        count: u32,
    },
    /// The content of an envelope: one value of an entry of this size, or, where it is read, none.
    Content {
        entry: u32,
        size: u32,
        count: u32,
        until: Until,
    },
}

impl Default for Remaining {
    fn default() -> Remaining {
        Remaining::Rows { first: 0, count: 0 }
    }
}

/// A struct, an array, the elements of a vector, the envelopes of a table, or the content of an
/// envelope that are being read.
#[derive(Clone, Copy, Default, Drop)]
pub struct Frame {
    /// The members that are left.
    pub left: Remaining,
    /// Where it stands in the message.
    pub base: u32,
    /// How many of its bytes are read, and how many it has.
    pub done: u32,
    pub size: u32,
    pub nest: u8,
    pub depth: u8,
    /// 1 in the four bytes of an envelope, else 0.
    pub in_envelope: u8,
}

/// What is left after a turn: first what is below, and then the rest of the frame.
#[derive(Clone, Copy, Drop)]
pub struct Turn {
    pub below: Option<Frame>,
    pub rest: Option<Frame>,
}

/// How far a message is read.
#[derive(Drop)]
pub struct State<'m, 's> {
    /// The place of the next object out of line.
    pub next: usize,
    /// The next handle.
    pub handle: usize,
    /// The turns that were taken, the probes, and the bytes that were checked as text or padding.
    pub steps: u64,
    /// The message, in which links stand: where the objects of its markers begin, and which records
    /// its handles have.
    pub links: Links<'m, 's>,
}
