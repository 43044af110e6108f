//! Files whose protocols keep all rules.
ghost use Rattle.std.specs.Prelude.{◌≡◌};
ghost use Rattle.fidl_protocol.specs.Checked.{ProtocolsHold, AreProtocolsWith};

use crate::method::Protocol;
use fidl_layout::Laid;
use std::marker::Model;

/// Files that keep all rules of the language, with their protocols. Contracts see the list of their
/// trees.
#[derive(Drop)]
pub struct Checked<'f, 's> {
    pub(crate) laid: Laid<'f, 's>,
    pub(crate) protocols: Vec<Protocol>,
}

impl<'f, 's> Model for Checked<'f, 's> {
    ghost use Rattle.std.specs.Prelude.{List};
    ghost use Rattle.fidl_tree.specs.declared.file.File.{File as Tree};
    ghost use Rattle.fidl_named.specs.StoredFiles.{files_coded};
    ghost use Rattle.fidl_protocol.specs.Checked.{AreHeld};

    ghost Value = { List Tree };

    ghost coded = { files_coded };

    ghost view = { λ c. c.laid };

    ghost invariant = { λ c. AreHeld c.laid c.protocols.items };
}

impl<'f, 's> Checked<'f, 's> {
    /// The files, which are laid out.
    pub fn laid(&self) -> &Laid<'f, 's>
        ensures { result.now ≡ self.now }
    {
        &self.laid
    }

    /// All protocols, in the order of the sources: files in their order, declarations in theirs.
    /// Each has its own and composed methods in the order of their ordinals. The protocols keep
    /// all rules.
    pub fn protocols(&self) -> &[Protocol]
        ensures rules { ProtocolsHold self.now }
        ensures protocols { AreProtocolsWith self.now result.now }
    {
        &self.protocols
    }
}
