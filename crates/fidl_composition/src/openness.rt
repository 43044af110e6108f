//! Which protocols may compose which, by their openness.
ghost use Rattle.std.specs.Prelude.{◌≡◌, ◌↔◌, IsTrue};
ghost use Rattle.fidl_tree.specs.Syntax.{open_protocol, closed_protocol};
ghost use Rattle.fidl_tree.specs.Views.{openness_view};
ghost use Rattle.fidl_composition.specs.Compositions.{MayCompose};

use fidl_tree::{Openness, ProtocolDeclaration};

/// Whether a protocol is open: so is one without a modifier.
fn is_open(protocol: &ProtocolDeclaration) -> bool
    ensures { IsTrue result ↔ (openness_view protocol.now.openness ≡ open_protocol) }
{
    matches!(&protocol.openness, None | Some(Openness::Open(_)))
}

/// Whether a protocol is closed.
fn is_closed(protocol: &ProtocolDeclaration) -> bool
    ensures { IsTrue result ↔ (openness_view protocol.now.openness ≡ closed_protocol) }
{
    matches!(&protocol.openness, Some(Openness::Closed(_)))
}

/// Whether one protocol may compose another, by the openness of both.
pub(crate) fn may_compose(composing: &ProtocolDeclaration, composed: &ProtocolDeclaration) -> bool
    ensures { IsTrue result ↔ MayCompose (openness_view composing.now.openness)
        (openness_view composed.now.openness) }
{
    match &composing.openness {
        None | Some(Openness::Open(_)) => true,
        Some(Openness::Ajar(_)) => !is_open(composed),
        Some(Openness::Closed(_)) => is_closed(composed),
    }
}
