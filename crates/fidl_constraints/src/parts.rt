//! What constraints give, each its part.
ghost use Rattle.std.specs.Prelude.{◌≡◌};
ghost use Rattle.fidl_constraints.specs.Parts.{same_kind, has_kind, amount_in, optional_in, bound_in};
ghost use Rattle.fidl_constraints.specs.Parts.{subtype_in, rights_in, protocol_in};

/// What a constraint gives to a type.
#[derive(Clone, Copy, Drop)]
pub enum PartKind {
    /// The type may be absent.
    Optional,
    /// How many bytes, or elements, there may be.
    Bound,
    /// The protocol of an end.
    Protocol,
    /// The type of the objects that a handle may be of.
    Subtype,
    /// The rights that a handle has.
    Rights,
}

/// How many kinds of parts there are.
pub(crate) const KINDS: usize = 5;

/// A part that a constraint gives: its kind, and its number, which is 0 where the kind has none.
#[derive(Clone, Copy, Drop)]
pub struct Part {
    pub kind: PartKind,
    pub amount: u32,
}

/// What all constraints of a type give, in their order.
#[derive(Drop)]
pub struct Parts {
    pub list: Vec<Part>,
}

/// Whether two parts give the same.
fn same_kind(one: PartKind, other: PartKind) -> bool
    ensures { result ≡ same_kind one other }
{
    matches!(
        (one, other),
        (PartKind::Optional, PartKind::Optional)
            | (PartKind::Bound, PartKind::Bound)
            | (PartKind::Protocol, PartKind::Protocol)
            | (PartKind::Subtype, PartKind::Subtype)
            | (PartKind::Rights, PartKind::Rights)
    )
}

/// Whether one of the parts is of this kind.
pub(crate) fn has_kind(parts: &[Part], kind: PartKind) -> bool
    ensures { result ≡ has_kind kind parts.now }
{
    for part in parts {
        if same_kind(part.kind, kind) {
            return true;
        }
    }
    false
}

/// The number of the part of this kind, and another where there is no such part.
fn amount_in(parts: &[Part], kind: PartKind, otherwise: u32) -> u32
    ensures { result ≡ amount_in kind otherwise parts.now }
{
    for part in parts {
        if same_kind(part.kind, kind) {
            return part.amount;
        }
    }
    otherwise
}

impl Parts {
    /// Whether the type may be absent.
    pub fn is_optional(&self) -> bool
        ensures { result ≡ optional_in self.now.list.items }
    {
        has_kind(&self.list, PartKind::Optional)
    }

    /// Whether it has a protocol.
    pub fn has_protocol(&self) -> bool
        ensures { result ≡ protocol_in self.now.list.items }
    {
        has_kind(&self.list, PartKind::Protocol)
    }

    /// How many bytes or elements there may be: 4,294,967,295 where no bound is given.
    pub fn bound(&self) -> u32
        ensures { result ≡ bound_in self.now.list.items }
    {
        amount_in(&self.list, PartKind::Bound, 4_294_967_295)
    }

    /// The type of the objects that a handle may be of: 0, which is any, where none is given.
    pub fn subtype(&self) -> u32
        ensures { result ≡ subtype_in self.now.list.items }
    {
        amount_in(&self.list, PartKind::Subtype, 0)
    }

    /// The rights that a handle has: 0x80000000, which is whatever came, where none are given.
    pub fn rights(&self) -> u32
        ensures { result ≡ rights_in self.now.list.items }
    {
        amount_in(&self.list, PartKind::Rights, 0x8000_0000)
    }
}
