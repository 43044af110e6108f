//! Which rule definitions break.

use std::alloc::{AllocError, AllocFailed};
use thiserror::Error;

/// Which rule definitions break (docs/language.md, "Rules of definitions").
#[derive(Clone, Copy, Debug, PartialEq, Eq, Drop, Error)]
pub enum DefinitionFault {
    /// A member of a definition that isn't marked `resource` holds a handle or a resource.
    #[error("only what is marked `resource` may hold a handle")]
    NotResource { definition: usize, member: usize },
    /// A struct that stands in itself, through members and arrays.
    #[error("this struct stands in itself")]
    InlineCycle { definition: usize },
    /// Memory ran out.
    #[error("memory ran out")]
    Memory,
}

impl From<AllocError> for DefinitionFault {
    ghost use Rattle.std.specs.Prelude.{◌≡◌};
    ghost use Rattle.fidl_ir_rules.specs.declared.fault.DefinitionFault.TheVariants.{Memory};

    ghost from_gives = { λ _ fault. fault ≡ Memory };

    fn from(_error: AllocError) -> DefinitionFault {
        DefinitionFault::Memory
    }
}

impl<T: Drop> From<AllocFailed<T>> for DefinitionFault {
    ghost use Rattle.std.specs.Prelude.{◌≡◌};
    ghost use Rattle.fidl_ir_rules.specs.declared.fault.DefinitionFault.TheVariants.{Memory};

    ghost from_gives = { λ _ fault. fault ≡ Memory };

    fn from(_error: AllocFailed<T>) -> DefinitionFault {
        DefinitionFault::Memory
    }
}
