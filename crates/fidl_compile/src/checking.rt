//! From trees to a checked library.
ghost use Rattle.std.specs.Prelude.{◌≡◌, IfOk, IfErr, OnOk};
ghost use Rattle.fidl_named.specs.Names.{all_declared, AreDistinct};
ghost use Rattle.fidl_wire.specs.Figure.{Declarations};
ghost use Rattle.fidl_compile.specs.Sources.{AreAccepted};
ghost use Rattle.fidl_compile.specs.Stages.{AddingRefused, FilesRefused};

use crate::fault::CompileFault;
use fidl_const::evaluate;
use fidl_layout::lay_out;
use fidl_names::LibrarySet;
use fidl_protocol::{Checked, protocols};
use fidl_tree::File;
use fidl_types::check;
use std::alloc::Global;

/// The set of these files.
pub(crate) fn add_files<'f, 's>(
    alloc: Global,
    files: &'f [File<'s>],
) -> Result<LibrarySet<'f, 's>, CompileFault>
    ensures ok { IfOk result (λ set. set ≡ files.now) }
    ensures distinct { OnOk result (AreDistinct (all_declared files.now)) }
    ensures fault_is_true { IfErr result (AddingRefused files.now) }
{
    let mut set = LibrarySet::new(alloc);
    for file in files {
        set.add(file)?;
    }
    Ok(set)
}

/// The library of a set of files, where they keep all rules of the language.
pub(crate) fn check_files<'f, 's>(
    alloc: Global,
    set: LibrarySet<'f, 's>,
) -> Result<Checked<'f, 's>, CompileFault>
    requires distinct { AreDistinct (all_declared set) }
    ensures ok { IfOk result (λ checked. checked ≡ set.entry) }
    ensures kept { OnOk result ((ds : Declarations) × AreAccepted set.entry ds) }
    ensures fault_is_true { IfErr result (FilesRefused set.entry) }
{
    let named = set.resolve()?;
    let consts = evaluate(alloc, &named)?;
    let types = check(alloc, named, consts)?;
    let laid = lay_out(alloc, types)?;
    Ok(protocols(alloc, laid)?)
}
