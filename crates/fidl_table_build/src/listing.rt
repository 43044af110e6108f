//! What a table is assembled from.

use fidl_ir::Definition;
use fidl_type_shape::Figures;
use fidl_verify::Openness;

/// What a message of a method carries beside its header.
#[derive(Clone, Copy, Drop)]
pub enum Carried {
    /// The method has no such message.
    Missing,
    /// Nothing.
    Empty,
    /// A value of the definition of this number.
    Definition(u32),
}

/// A method of a protocol.
#[derive(Drop)]
pub struct MethodEntry {
    pub ordinal: u64,
    /// The full name, as `library.name/Protocol.Method`, by the protocol that declares it.
    pub name: Vec<u8>,
    pub strict: bool,
    pub request: Carried,
    pub response: Carried,
}

/// A protocol, with its own and composed methods in the order of their ordinals.
#[derive(Drop)]
pub struct ProtocolEntry {
    /// The full name, as `library.name/Protocol`.
    pub name: Vec<u8>,
    pub openness: Openness,
    pub methods: Vec<MethodEntry>,
}

/// What a table is assembled from.
#[derive(Clone, Copy, Drop)]
pub struct Listing<'d> {
    pub definitions: &'d [Definition],
    /// The figures of the definitions.
    pub figures: &'d Figures,
    /// The full names of the definitions, by their numbers.
    pub names: &'d [Vec<u8>],
    /// The definitions that are roots, in the order of their names.
    pub roots: &'d [u32],
    /// The protocols, in the order of their names.
    pub protocols: &'d [ProtocolEntry],
}
