//! Why sources have no table.

use fidl_const::ConstFault;
use fidl_layout::LayoutFault;
use fidl_names::NameFault;
use fidl_parse::ParseFault;
use fidl_protocol::ProtocolFault;
use fidl_span::LexFault;
use fidl_types::TypeFault;
use std::alloc::{AllocError, AllocFailed};
use thiserror::Error;

/// Why sources have no table: the fault of the first stage that refuses them. `file` counts the
/// sources before the one at fault. No variant but `Memory` says that memory ran out.
#[derive(Clone, Copy, Debug, PartialEq, Eq, Drop, Error)]
pub enum CompileFault {
    /// A source has no words.
    #[error("source {file}: {fault}")]
    Lex { file: usize, fault: LexFault },
    /// The words of a source have no syntax tree.
    #[error("source {file}: {fault}")]
    Parse { file: usize, fault: ParseFault },
    /// A name is declared twice, or doesn't have just one meaning, or leads back to itself.
    #[error("{fault}")]
    Names { fault: NameFault },
    /// A constant, a bound or a member has no value of its type.
    #[error("{fault}")]
    Const { fault: ConstFault },
    /// A type breaks a rule.
    #[error("{fault}")]
    Types { fault: TypeFault },
    /// A type passes a limit.
    #[error("{fault}")]
    Layout { fault: LayoutFault },
    /// A protocol breaks a rule.
    #[error("{fault}")]
    Protocol { fault: ProtocolFault },
    /// Memory ran out, or a table of these sources would have more names, protocols or methods than
    /// its fields of four bytes count.
    #[error("memory ran out")]
    Memory,
}

impl From<NameFault> for CompileFault {
    ghost use Rattle.std.specs.Prelude.{◌≡◌};
    ghost use Rattle.fidl_compile.specs.Stages.{of_names};

    ghost from_gives = { λ fault made. made ≡ of_names fault };

    fn from(fault: NameFault) -> CompileFault {
        match fault {
            NameFault::Memory => CompileFault::Memory,
            _ => CompileFault::Names { fault },
        }
    }
}

impl From<ConstFault> for CompileFault {
    ghost use Rattle.std.specs.Prelude.{◌≡◌};
    ghost use Rattle.fidl_compile.specs.Stages.{of_const};

    ghost from_gives = { λ fault made. made ≡ of_const fault };

    fn from(fault: ConstFault) -> CompileFault {
        match fault {
            ConstFault::Memory => CompileFault::Memory,
            _ => CompileFault::Const { fault },
        }
    }
}

impl From<TypeFault> for CompileFault {
    ghost use Rattle.std.specs.Prelude.{◌≡◌};
    ghost use Rattle.fidl_compile.specs.Stages.{of_types};

    ghost from_gives = { λ fault made. made ≡ of_types fault };

    fn from(fault: TypeFault) -> CompileFault {
        match fault {
            TypeFault::Memory => CompileFault::Memory,
            _ => CompileFault::Types { fault },
        }
    }
}

impl From<LayoutFault> for CompileFault {
    ghost use Rattle.std.specs.Prelude.{◌≡◌};
    ghost use Rattle.fidl_compile.specs.Stages.{of_layout};

    ghost from_gives = { λ fault made. made ≡ of_layout fault };

    fn from(fault: LayoutFault) -> CompileFault {
        match fault {
            LayoutFault::Memory => CompileFault::Memory,
            _ => CompileFault::Layout { fault },
        }
    }
}

impl From<ProtocolFault> for CompileFault {
    ghost use Rattle.std.specs.Prelude.{◌≡◌};
    ghost use Rattle.fidl_compile.specs.Stages.{of_protocol};

    ghost from_gives = { λ fault made. made ≡ of_protocol fault };

    fn from(fault: ProtocolFault) -> CompileFault {
        match fault {
            ProtocolFault::Memory => CompileFault::Memory,
            _ => CompileFault::Protocol { fault },
        }
    }
}

impl From<AllocError> for CompileFault {
    ghost use Rattle.std.specs.Prelude.{◌≡◌};
    ghost use Rattle.fidl_compile.specs.declared.fault.CompileFault.TheVariants.{Memory};

    ghost from_gives = { λ _ made. made ≡ Memory };

    fn from(_error: AllocError) -> CompileFault {
        CompileFault::Memory
    }
}

impl<T: Drop> From<AllocFailed<T>> for CompileFault {
    ghost use Rattle.std.specs.Prelude.{◌≡◌};
    ghost use Rattle.fidl_compile.specs.declared.fault.CompileFault.TheVariants.{Memory};

    ghost from_gives = { λ _ made. made ≡ Memory };

    fn from(_error: AllocFailed<T>) -> CompileFault {
        CompileFault::Memory
    }
}
