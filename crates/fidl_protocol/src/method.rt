//! Protocols and their methods.
ghost use Rattle.std.specs.Prelude.{◌≡◌};
ghost use Rattle.fidl_protocol.specs.Methods.{method_place};

use fidl_method_rules::OwnMethod;
use fidl_named::{DeclarationId, Place};
use fidl_payloads::Payloads;

/// A method of a protocol, its own or a composed one.
#[derive(Clone, Copy, Drop)]
pub struct Method {
    /// The protocol that declares it.
    pub protocol: DeclarationId,
    /// What it is there.
    pub own: OwnMethod,
    /// What its messages carry.
    pub payloads: Payloads,
}

impl Method {
    /// The place of its name.
    pub(crate) fn place(&self) -> Place
        ensures { result ≡ method_place self.now }
    {
        Place {
            file: self.protocol.file,
            span: self.own.name,
        }
    }
}

/// A protocol with all its methods, own and composed ones.
#[derive(Drop)]
pub struct Protocol {
    pub id: DeclarationId,
    /// In the order of their ordinals.
    pub methods: Vec<Method>,
}
